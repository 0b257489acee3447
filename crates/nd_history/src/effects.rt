//! What a kept step changed.
ghost use Rattle.std.specs.Prelude.{◌≡◌, IfErr, IfOk, OnOk};
ghost use Rattle.nd_history.specs.Effects.{IsLedTo, IsEffect, HasNoEffect, code_of_effect};

use crate::history::walk_at;
use nd_cluster::Effect;
use nd_protocol::{Refusal, Step};
use nd_replies::Fault;
use nd_time::Code;
use nd_timeline::Timeline;
use std::alloc::{AllocError, Allocator, Global};

/// A kept step, and what it changed.
pub struct StepEffect<A: Allocator + Copy = Global> {
    pub step: Step<A>,
    pub changed: Effect<A>,
}

impl<A: Allocator + Copy> Drop for StepEffect<A> {
    fn drop(self) {
        let StepEffect {
            step: _,
            changed: _,
        } = self;
    }
}

/// Why `effect` returns nothing.
#[derive(Clone, Copy, Debug, Drop, PartialEq, Eq)]
pub enum EffectFault {
    /// No kept step leads to the position.
    NoSuchPoint,
    /// An allocation failed.
    Memory,
}

impl From<AllocError> for EffectFault {
    ghost use Rattle.std.specs.Prelude.{◌≡◌};
    ghost use Rattle.nd_history.specs.declared.effects.EffectFault.TheVariants.{Memory};

    ghost from_gives = { λ _ r. r ≡ Memory };

    fn from(_: AllocError) -> EffectFault {
        EffectFault::Memory
    }
}

impl EffectFault {
    /// Returns the number and the name with which a reply reports the error.
    pub fn code(&self) -> Code
        ensures { result ≡ code_of_effect self.now }
    {
        match self {
            EffectFault::NoSuchPoint => Fault::NoSuchPoint.code(),
            EffectFault::Memory => Refusal::Memory.code(),
        }
    }
}

/// Returns the kept step that leads to position `i`, and what it changed: each map key and each queue whose
/// value differs before and after the step, with both values. The timeline does not
/// change.
pub fn effect<A: Allocator + Copy>(
    alloc: A,
    timeline: &Timeline<A>,
    i: u64,
) -> Result<StepEffect<A>, EffectFault>
    ensures effect { IfOk result (IsEffect timeline.now i) }
    ensures there { OnOk result (IsLedTo timeline.now i) }
    ensures err { IfErr result (HasNoEffect timeline.now i) }
{
    if i == 0 || i > timeline.kept() {
        return Err(EffectFault::NoSuchPoint);
    }
    let before = i - 1;
    let Some(step) = timeline.step(before) else {
        return Err(EffectFault::NoSuchPoint);
    };
    let Some(record) = timeline.record(before) else {
        return Err(EffectFault::NoSuchPoint);
    };
    let walk = walk_at(alloc, timeline, before)?;
    let changed = walk.cluster.effect(alloc, record)?;
    let step = step.copy(alloc)?;
    Ok(StepEffect { step, changed })
}

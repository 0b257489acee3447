//! The replies that list kept steps, and what one of them changed.
ghost use Rattle.std.specs.Prelude.{◌≡◌, Some, IfOk};
ghost use Rattle.serde_json.specs.Written.{compact_text};
ghost use Rattle.rewind_replies.specs.Replies.{IsReply, fault as fault_data};
ghost use Rattle.rewind_answers.specs.Explained.{ExportReply, StepReply, EffectReply, effect_fault};
ghost use Rattle.nd_replies.specs.Faults.{code_of};
ghost use Rattle.nd_replies.specs.declared.fault.Fault.TheVariants.{NoSuchPoint};

use nd_history::{EffectFault, effect};
use nd_replies::Fault;
use nd_timeline::Timeline;
use rewind_replies::{KeptSteps, NoNames, object, text_of};
use std::alloc::{AllocError, Global};

/// Replies with all kept steps, and the cursor.
pub(crate) fn answer_export(alloc: Global, timeline: &Timeline) -> Result<Vec<u8>, AllocError>
    ensures reply { IfOk result (λ t. IsReply (ExportReply timeline.now) t.items) }
{
    let reply = object! {"at": timeline.at(), "ok": true, "steps": KeptSteps(timeline)};
    text_of(alloc, timeline.cluster().graph(), &reply)
}

// Replies that no kept step leads to a position.
fn no_such_point(alloc: Global) -> Result<Vec<u8>, AllocError>
    ensures reply { IfOk result (λ t.
        t.items ≡ compact_text (fault_data (code_of NoSuchPoint))) }
{
    text_of(alloc, &NoNames, &Fault::NoSuchPoint.code())
}

/// Replies with the kept step that leads to a position.
pub(crate) fn answer_step(
    alloc: Global,
    timeline: &Timeline,
    to: u64,
) -> Result<Vec<u8>, AllocError>
    ensures reply { IfOk result (λ t. IsReply (StepReply timeline.now to) t.items) }
{
    if to == 0 {
        return no_such_point(alloc);
    }
    let Some(step) = timeline.step(to - 1) else {
        return no_such_point(alloc);
    };
    text_of(
        alloc,
        timeline.cluster().graph(),
        &object! {"ok": true, "step": step},
    )
}

// Replies to a query for an effect that cannot be answered. Running out of memory has no reply.
fn refuse_effect(alloc: Global, fault: EffectFault) -> Result<Vec<u8>, AllocError>
    ensures reply { IfOk result (λ t. IsReply (λ v. Some v ≡ effect_fault fault) t.items) }
{
    match fault {
        EffectFault::Memory => Err(AllocError),
        EffectFault::NoSuchPoint => text_of(alloc, &NoNames, &fault.code()),
    }
}

/// Replies with the kept step that leads to a position, and what it changed.
pub(crate) fn answer_effect(
    alloc: Global,
    timeline: &Timeline,
    to: u64,
) -> Result<Vec<u8>, AllocError>
    ensures reply { IfOk result (λ t. IsReply (EffectReply timeline.now to) t.items) }
{
    match effect(alloc, timeline, to) {
        Ok(effected) => {
            let (changed, step) = (&effected.changed, &effected.step);
            let reply = object! {"changed": changed, "ok": true, "step": step};
            text_of(alloc, timeline.cluster().graph(), &reply)
        }
        Err(fault) => refuse_effect(alloc, fault),
    }
}

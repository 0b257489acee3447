//! What a planned step changes.
ghost use Rattle.std.specs.Prelude.{◌≡◌, IfOk};
ghost use Rattle.nd_protocol.specs.Steps.{stepped};
ghost use Rattle.nd_steps.specs.Integers.{changed};
ghost use Rattle.nd_steps.specs.Effect.{lists_of, effect_of, altered_count};
ghost use Rattle.nd_cluster.specs.Records.{IsPlanned};

use crate::Cluster;
use nd_steps::{Effect, Record, record_effect};
use std::alloc::{AllocError, Allocator};

impl<A: Allocator + Copy> Cluster<A> {
    /// Returns what the step of a record that was planned in this state changes: each key of a map and each
    /// queue at which the states before and after the step differ, with the values in both.
    pub fn effect(&self, alloc: A, planned: &Record<A>) -> Result<Effect<A>, AllocError>
        requires { IsPlanned planned.now self.now }
        ensures effect { IfOk result (λ e. lists_of e
            ≡ effect_of self.now (stepped self.now planned.now.step)) }
        ensures count { IfOk result (λ e. altered_count (lists_of e)
            ≡ changed self.now (stepped self.now planned.now.step)) }
    {
        record_effect(alloc, &self.parts, planned)
    }
}

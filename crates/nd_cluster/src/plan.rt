//! Plans: the record of a step, or why the step is refused.
ghost use Rattle.std.specs.Prelude.{◌≡◌, ◌≢◌, Err, IfOk, IfErr, OnOk};
ghost use Rattle.nd_protocol.specs.Ranges.{NumbersFit};
ghost use Rattle.nd_protocol.specs.Enabled.{IsEnabled, IsRefused, MayWantMemory};
ghost use Rattle.nd_cluster.specs.Records.{NamesAll, Plans, ComesLast, IsPlanned};
ghost use Rattle.nd_protocol.specs.declared.step.Step.TheVariants.{Broadcast as Sending, Receive as Receiving};
ghost use Rattle.nd_protocol.specs.declared.refusal.Refusal.TheVariants.{Memory};

use crate::{Changes, Cluster, Part, Record, Refusal, Step};
use nd_protocol::protocol_is_safe;
use nd_steps::{changes_are_counted, planned_front, planned_part};
use std::alloc::Allocator;

impl<A: Allocator + Copy> Cluster<A> {
    // Returns what a broadcast changes, or why it is refused.
    fn broadcast_changes(&self, p: u32, part: &Part<A>) -> Result<Changes<A>, Refusal>
        requires { NumbersFit {A = A} (Sending p part.now) }
        ensures ok { IfOk result (Plans {A = A} self.now (Sending p part.now)) }
        ensures refused { IfErr result (λ r. r ≢ Memory
            → IsRefused self.now (Sending p part.now) r) }
        ensures memory { result ≡ Err Memory → MayWantMemory self.now (Sending p part.now) }
    {
        changes_are_counted();
        let _ = self.processor_count();
        let sender = p as usize;
        if sender >= self.n() {
            return Err(Refusal::NoProcessor);
        }
        let change = planned_part(self.alloc, self.paths(), self.processor(sender), part)?;
        if self.mesh().is_full(sender) {
            return Err(Refusal::QueueFull);
        }
        Ok(Changes::Sent { p, part: change })
    }

    // Returns what a receive changes, or why it is refused.
    fn receive_changes(&self, from: u32, to: u32) -> Result<Changes<A>, Refusal>
        requires { NumbersFit {A = A} (Receiving from to) }
        ensures ok { IfOk result (Plans {A = A} self.now (Receiving from to)) }
        ensures refused { IfErr result (λ r. r ≢ Memory
            → IsRefused {A = A} self.now (Receiving from to) r) }
        ensures memory { result ≡ Err Memory → MayWantMemory {A = A} self.now (Receiving from to) }
    {
        changes_are_counted();
        let _ = self.processor_count();
        let (sender, receiver) = (from as usize, to as usize);
        if sender >= self.n() || receiver >= self.n() {
            return Err(Refusal::NoProcessor);
        }
        let change = planned_front(self.alloc, &self.parts, sender, receiver)?;
        Ok(Changes::Received { from, to, change })
    }

    // Returns what a step changes, or why it is refused.
    pub(crate) fn changes_of(&self, step: &Step<A>) -> Result<Changes<A>, Refusal>
        ensures ok { IfOk result (Plans self.now step.now) }
        ensures refused { IfErr result (λ r. r ≢ Memory → IsRefused self.now step.now r) }
        ensures memory { result ≡ Err Memory → MayWantMemory self.now step.now }
    {
        step.numbers_fit();
        match step {
            Step::Broadcast { p, part } => self.broadcast_changes(*p, part),
            Step::Receive { from, to } => self.receive_changes(*from, *to),
            Step::Feed { .. } | Step::Take { .. } => self.work_changes(step),
            Step::Notice { .. } | Step::Release { .. } => self.work_changes(step),
            Step::Send { .. } => self.work_changes(step),
        }
    }

    // Returns the record of a step, which owns the step, or why the step is refused.
    pub(crate) fn plan_of(&self, step: Step<A>) -> Result<Record<A>, Refusal>
        ensures enabled { OnOk result (IsEnabled self.now step) }
        ensures step { IfOk result (λ r. r.step ≡ step) }
        ensures planned { IfOk result (λ r. IsPlanned r self.now) }
        ensures refused { IfErr result (λ r. r ≢ Memory → IsRefused self.now step r) }
    {
        let _ = self.processor_count();
        let changes = self.changes_of(&step)?;
        Ok(Record { step, changes })
    }

    /// Returns the record of a step, or why the step is refused.
    ///
    /// Changes nothing. The refusal may be out of memory in place of one with a number of 13 or more, except for an empty
    /// part and an empty queue. If the cluster has the protocol invariant, nothing outstanding is strictly before a notice
    /// that is planned (FORTE 2013).
    pub fn plan(&self, step: &Step<A>) -> Result<Record<A>, Refusal>
        ensures enabled { OnOk result (IsEnabled self.now step.now) }
        ensures last { OnOk result (ComesLast self.now step.now) }
        ensures step { IfOk result (λ r. r.step ≡ step.now) }
        ensures planned { IfOk result (λ r. IsPlanned r self.now) }
        ensures small { IfOk result (NamesAll self.now step.now) }
        ensures refused { IfErr result (λ r. r ≢ Memory → IsRefused self.now step.now r) }
        ensures memory { result ≡ Err Memory → MayWantMemory self.now step.now }
    {
        protocol_is_safe::<A>();
        let _ = self.processor_count();
        let changes = self.changes_of(step)?;
        let Ok(step) = step.copy(self.alloc) else {
            return Err(Refusal::Memory);
        };
        Ok(Record { step, changes })
    }
}

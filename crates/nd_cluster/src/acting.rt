//! What a vertex does on a take and on a notice, and why these are refused after the first tests.
ghost use Rattle.std.specs.Prelude.{◌≡◌, ◌≢◌, ◌≤◌, IfOk, IfErr, OnOk, Err, Some, length};
ghost use Rattle.std.specs.FinMap as fin;
ghost use Rattle.nd_time.specs.Limits.{max_counter, max_values};
ghost use Rattle.nd_time.specs.Time.{last_of};
ghost use Rattle.nd_protocol.specs.State.{processor};
ghost use Rattle.nd_protocol.specs.Steps.{target_of};
ghost use Rattle.nd_steps.specs.Drafts.{TakesSo, NoticesSo};
ghost use Rattle.nd_protocol.specs.Enabled.{IsFreeBelow, IsRefused};
ghost use Rattle.nd_cluster.specs.Drafted.{take_of, notice_of};

use crate::{Cluster, Refusal};
use nd_paths::Pointstamp;
use nd_processor::ValueAt;
use nd_steps::op_at;
use nd_time::Timestamp;
use nd_vertex::{Effect, VertexFault};
use std::alloc::Allocator;

// Returns the innermost loop counter of a timestamp, 0 outside all loops. It has 32 bits.
fn innermost_counter(time: &Timestamp) -> u32
    ensures { result ≡ last_of time.now.counters }
{
    match time.counters().last() {
        Some(counter) => *counter,
        None => 0,
    }
}

// No loop counter exceeds the limit.
fn innermost_counter_fits(time: &Timestamp)
    ensures { last_of time.now.counters ≤ max_counter }
{
    let _counter = innermost_counter(time);
}

impl<A: Allocator + Copy> Cluster<A> {
    // Returns what the target of a record's edge does with the record, and whether it makes a new request; or why the take is
    // refused, apart from the limits.
    pub(crate) fn take_effect(
        &self,
        p: u32,
        key: &ValueAt,
        target: usize,
    ) -> Result<(Effect<A>, bool), Refusal>
        requires target { target ≡ target_of self.now.graph key.now.point.location }
        requires free { IsFreeBelow {A = A} self.now (take_of p key.now) 11 }
        ensures does { IfOk result (λ r. TakesSo self.now p target key.now r.0 r.1) }
        ensures few { IfOk result (λ r. length r.0.emits.items ≤ max_values) }
        ensures free { OnOk result (IsFreeBelow {A = A} self.now (take_of p key.now) 13) }
        ensures refused { IfErr result (λ r. r ≢ Refusal.Memory
            → IsRefused {A = A} self.now (take_of p key.now) r) }
        ensures memory { result ≡ Err Refusal.Memory
            → IsFreeBelow {A = A} self.now (take_of p key.now) 13 }
    {
        let alloc = self.alloc;
        innermost_counter_fits(&key.point.time);
        let op = op_at(self.graph(), target);
        let processor = self.processor(p as usize);
        let vertex = processor.vertex_state(target);
        match vertex.on_record(alloc, op, &key.point.time, key.value) {
            Ok(effect) => {
                let point = Pointstamp {
                    location: target,
                    time: key.point.time.copy(),
                };
                let anew = effect.asks && !processor.has_request(&point);
                Ok((effect, anew))
            }
            Err(VertexFault::CounterFull) => Err(Refusal::CounterFull),
            Err(VertexFault::ValueRange) => Err(Refusal::ValueRange),
            Err(VertexFault::Memory) => Err(Refusal::Memory),
        }
    }

    // Returns what a vertex does on a notification that was asked for, or why the notice is refused, apart from the limits.
    pub(crate) fn notice_effect(&self, p: u32, point: &Pointstamp) -> Result<Effect<A>, Refusal>
        requires asked { fin.get (processor self.now p).requests point.now ≡ Some tt }
        requires free { IsFreeBelow {A = A} self.now (notice_of p point.now) 10 }
        ensures does { IfOk result (NoticesSo self.now p point.now) }
        ensures few { IfOk result (λ e. length e.emits.items ≤ max_values) }
        ensures free { OnOk result (IsFreeBelow {A = A} self.now (notice_of p point.now) 13) }
        ensures refused { IfErr result (λ r. r ≢ Refusal.Memory
            → IsRefused {A = A} self.now (notice_of p point.now) r) }
        ensures memory { result ≡ Err Refusal.Memory
            → IsFreeBelow {A = A} self.now (notice_of p point.now) 13 }
    {
        let _ = self.processor_count();
        let view = self.view(p as usize);
        if let Some(blocker) = view.blocker_before(self.paths(), point) {
            return Err(Refusal::NotYet { blocker });
        }
        let op = op_at(self.graph(), point.location);
        let vertex = self.processor(p as usize).vertex_state(point.location);
        match vertex.on_notice(self.alloc, op, &point.time) {
            Ok(effect) => Ok(effect),
            Err(_) => Err(Refusal::Memory),
        }
    }
}

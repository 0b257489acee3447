//! The changes of a feed, a take, a notice, a release or a send, or why it is refused.
ghost use Rattle.std.specs.Prelude.{◌≡◌, ◌≢◌, ◌<◌, Err, IfOk, IfErr, OnOk, Some, length};
ghost use Rattle.std.specs.FinMap as fin;
ghost use Rattle.nd_protocol.specs.State.{processor};
ghost use Rattle.nd_protocol.specs.Steps.{point_at};
ghost use Rattle.nd_protocol.specs.Fitting.{IsState};
ghost use Rattle.nd_protocol.specs.Enabled.{IsRefused, MayWantMemory};
ghost use Rattle.nd_steps.specs.Drafts.{ReleasesSo};
ghost use Rattle.nd_cluster.specs.Records.{Plans};
ghost use Rattle.nd_cluster.specs.Drafted.{Works, take_of, notice_of, LeadOn, IsWithinRules, IsDraft};
ghost use Rattle.nd_protocol.specs.declared.step.Step.TheVariants.{Feed as Feeding, Release as Releasing, Send as Posting};
ghost use Rattle.nd_protocol.specs.declared.refusal.Refusal.TheVariants.{Memory};

use crate::{Change, Changes, Cluster, Next, Refusal, Step};
use nd_paths::Pointstamp;
use nd_processor::ValueAt;
use nd_protocol::{Batch, Times};
use nd_steps::{
    Consequence, Fed, Performer, Taken, feed_changes, notice_changes, ordered_flow,
    planned_changes, post_changes, record_at, release_changes, take_changes, take_flow,
};
use std::alloc::Allocator;

// The changes of a feed, a take, a notice, a release or a send, before the limits are tested and the changes are ordered.
#[derive(Drop)]
pub(crate) enum Drafted<A: Allocator + Copy> {
    Each(Vec<Change, A>),
    // The consequence of processor p's take of a record: nothing else changes.
    Flow {
        p: u32,
        gone: ValueAt,
        come: Consequence,
    },
}

impl<A: Allocator + Copy> Cluster<A> {
    // Returns the number of processors.
    pub(crate) fn processor_count(&self) -> u32
        ensures value { result ≡ length self.now.processors }
        ensures state { IsState self.now }
    {
        let _ = &self.alloc;
        self.n() as u32
    }

    // Returns what a feed changes, or why the feed is refused, apart from the limits.
    fn feed_parts(
        &self,
        p: u32,
        vertex: usize,
        values: &[i64],
        next: Next,
    ) -> Result<Vec<Change, A>, Refusal>
        ensures reaches { IfOk result (λ v.
            LeadOn A self.now (Feeding p vertex values.now next) v.items) }
        ensures free { OnOk result (IsWithinRules A self.now (Feeding p vertex values.now next)) }
        ensures refused { IfErr result (λ r. r ≢ Memory
            → IsRefused {A = A} self.now (Feeding p vertex values.now next) r) }
        ensures memory { result ≡ Err Memory
            → IsWithinRules A self.now (Feeding p vertex values.now next) }
    {
        let epoch = self.feed_epoch(p, vertex, values, next)?;
        let graph = self.graph();
        let n = self.processor_count();
        let by = Performer {
            graph,
            n,
            p,
            vertex,
        };
        let fed = Fed {
            epoch,
            values,
            next,
        };
        let Ok(all) = feed_changes(self.alloc, &by, &fed) else {
            return Err(Refusal::Memory);
        };
        Ok(all)
    }

    // Returns what a take changes, or why the take is refused, apart from the limits. If little of the take must be kept,
    // returns its consequence.
    fn take_parts(&self, p: u32, key: &ValueAt) -> Result<Drafted<A>, Refusal>
        ensures drafted { IfOk result (IsDraft self.now (take_of p key.now)) }
        ensures free { OnOk result (IsWithinRules A self.now (take_of p key.now)) }
        ensures refused { IfErr result (λ r. r ≢ Memory
            → IsRefused {A = A} self.now (take_of p key.now) r) }
        ensures memory { result ≡ Err Memory → IsWithinRules A self.now (take_of p key.now) }
    {
        let target = self.take_target(p, key)?;
        let (effect, asks) = self.take_effect(p, key, target)?;
        let graph = self.graph();
        let n = self.processor_count();
        let by = Performer {
            graph,
            n,
            p,
            vertex: target,
        };
        let taken = Taken {
            key,
            effect: &effect,
            asks,
        };
        if let Some(come) = take_flow(&by, &taken) {
            let gone = key.copy();
            return Ok(Drafted::Flow { p, gone, come });
        }
        let Ok(all) = take_changes(self.alloc, &by, &taken) else {
            return Err(Refusal::Memory);
        };
        Ok(Drafted::Each(all))
    }

    // Returns what a notice changes, or why the notice is refused, apart from the limits.
    fn notice_parts(&self, p: u32, point: &Pointstamp) -> Result<Vec<Change, A>, Refusal>
        ensures reaches { IfOk result (λ v. LeadOn A self.now (notice_of p point.now) v.items) }
        ensures free { OnOk result (IsWithinRules A self.now (notice_of p point.now)) }
        ensures refused { IfErr result (λ r. r ≢ Memory
            → IsRefused {A = A} self.now (notice_of p point.now) r) }
        ensures memory { result ≡ Err Memory → IsWithinRules A self.now (notice_of p point.now) }
    {
        self.notice_asked(p, point)?;
        let effect = self.notice_effect(p, point)?;
        let graph = self.graph();
        let n = self.processor_count();
        let by = Performer {
            graph,
            n,
            p,
            vertex: point.location,
        };
        let Ok(all) = notice_changes(self.alloc, &by, &point.time, &effect) else {
            return Err(Refusal::Memory);
        };
        Ok(all)
    }

    // Returns whether a release makes a request: whether there is none at the later time after the released one is removed or
    // kept.
    fn release_asks(&self, p: u32, vertex: usize, times: &Times) -> bool
        requires here { p < length self.now.processors }
        requires kept { fin.get (processor self.now p).requests
            (point_at vertex times.now.time) ≡ Some tt }
        ensures { ReleasesSo self.now p vertex times.now result }
    {
        let Some(to) = &times.to else {
            return false;
        };
        if to.time == times.time {
            return !to.keep;
        }
        !self.is_asked(p, vertex, &to.time)
    }

    // Returns what a release changes, or why the release is refused, apart from the limits.
    fn release_parts(&self, p: u32, vertex: usize, times: &Times) -> Result<Vec<Change, A>, Refusal>
        ensures reaches { IfOk result (λ v.
            LeadOn A self.now (Releasing p vertex times.now) v.items) }
        ensures free { OnOk result (IsWithinRules A self.now (Releasing p vertex times.now)) }
        ensures refused { IfErr result (λ r. r ≢ Memory
            → IsRefused {A = A} self.now (Releasing p vertex times.now) r) }
        ensures memory { result ≡ Err Memory
            → IsWithinRules A self.now (Releasing p vertex times.now) }
    {
        self.release_kept(p, vertex, times)?;
        let asks = self.release_asks(p, vertex, times);
        let graph = self.graph();
        let n = self.processor_count();
        let by = Performer {
            graph,
            n,
            p,
            vertex,
        };
        let Ok(all) = release_changes(self.alloc, &by, times, asks) else {
            return Err(Refusal::Memory);
        };
        Ok(all)
    }

    // Returns what a send changes, or why the send is refused, apart from the limits and what is tested after them.
    fn post_parts(&self, p: u32, vertex: usize, batch: &Batch<A>) -> Result<Vec<Change, A>, Refusal>
        ensures reaches { IfOk result (λ v.
            LeadOn A self.now (Posting p vertex batch.now) v.items) }
        ensures free { OnOk result (IsWithinRules A self.now (Posting p vertex batch.now)) }
        ensures refused { IfErr result (λ r. r ≢ Memory
            → IsRefused {A = A} self.now (Posting p vertex batch.now) r) }
        ensures memory { result ≡ Err Memory
            → IsWithinRules A self.now (Posting p vertex batch.now) }
    {
        self.post_held(p, vertex, batch)?;
        let graph = self.graph();
        let n = self.processor_count();
        let by = Performer {
            graph,
            n,
            p,
            vertex,
        };
        let Ok(all) = post_changes(self.alloc, &by, batch) else {
            return Err(Refusal::Memory);
        };
        Ok(all)
    }

    // Returns what a feed, a take, a notice, a release or a send changes, or why the step is refused, apart from the limits and what
    // is tested after them.
    fn drafted(&self, step: &Step<A>) -> Result<Drafted<A>, Refusal>
        requires { Works step.now }
        ensures drafted { IfOk result (IsDraft self.now step.now) }
        ensures free { OnOk result (IsWithinRules A self.now step.now) }
        ensures refused { IfErr result (λ r. r ≢ Memory → IsRefused self.now step.now r) }
        ensures memory { result ≡ Err Memory → IsWithinRules A self.now step.now }
    {
        match step {
            Step::Feed {
                p,
                vertex,
                values,
                next,
            } => {
                let all = self.feed_parts(*p, *vertex, values.as_slice(), *next)?;
                Ok(Drafted::Each(all))
            }
            Step::Take {
                p,
                edge,
                time,
                value,
            } => {
                let key = record_at(*edge, time, *value);
                self.take_parts(*p, &key)
            }
            Step::Notice { p, vertex, time } => {
                let point = Pointstamp {
                    location: *vertex,
                    time: time.copy(),
                };
                let all = self.notice_parts(*p, &point)?;
                Ok(Drafted::Each(all))
            }
            Step::Release { p, vertex, times } => {
                let all = self.release_parts(*p, *vertex, times.get())?;
                Ok(Drafted::Each(all))
            }
            Step::Send { p, vertex, batch } => {
                let all = self.post_parts(*p, *vertex, batch.get())?;
                Ok(Drafted::Each(all))
            }
            Step::Broadcast { .. } | Step::Receive { .. } => unreachable!(),
        }
    }

    // Returns the changes of a feed, a take, a notice, a release or a send, in the order in which they are applied; or why the
    // step is refused.
    pub(crate) fn work_changes(&self, step: &Step<A>) -> Result<Changes<A>, Refusal>
        requires { Works step.now }
        ensures ok { IfOk result (Plans self.now step.now) }
        ensures refused { IfErr result (λ r. r ≢ Memory → IsRefused self.now step.now r) }
        ensures memory { result ≡ Err Memory → MayWantMemory self.now step.now }
    {
        let _ = self.processor_count();
        step.numbers_fit();
        match self.drafted(step)? {
            Drafted::Each(all) => {
                let changes = planned_changes(self.processors(), all)?;
                if let Some(refusal) = self.last_refusal(step) {
                    return Err(refusal);
                }
                Ok(Changes::Each(changes))
            }
            Drafted::Flow { p, gone, come } => {
                let flow = ordered_flow(self.processors(), p, &gone, come)?;
                Ok(Changes::Flowed(flow))
            }
        }
    }
}

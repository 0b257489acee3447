//! The steps of a processor that a run could try, one by one.
ghost use Rattle.std.specs.Prelude.{◌≡◌, ◌<◌, IfSome, length};
ghost use Rattle.nd_time.specs.Limits.{max_processors};
ghost use Rattle.nd_cluster.specs.Drafted.{take_of, notice_of};
ghost use Rattle.nd_cluster.specs.Candidates.{IsNextSender, candidates_of};

use crate::{Cluster, Part, Step};
use nd_map::Iter;
use nd_paths::Pointstamp;
use nd_processor::ValueAt;
use std::alloc::{Allocator, Global};
use std::marker::Model;

/// The remaining candidates of a processor, in order.
#[derive(Drop)]
pub(crate) struct CandidateSteps<'a, A: Allocator + Copy = Global> {
    cluster: &'a Cluster<A>,
    p: u32,
    // The next sender.
    from: u32,
    records: Iter<'a, ValueAt, u64>,
    requests: Iter<'a, Pointstamp, ()>,
    // Whether the broadcast is still among them.
    sends: bool,
}

impl<'a, A: Allocator + Copy> Model for CandidateSteps<'a, A> {
    ghost use Rattle.std.specs.Prelude.{◌<◌, List, length};
    ghost use Rattle.nd_protocol.specs.declared.step.Step.{Step};
    ghost use Rattle.nd_cluster.specs.Candidates.{left_of};

    ghost Value = { List (Step A) };

    ghost view = { λ a. left_of a.cluster.now a.p a.from a.records a.requests a.sends };

    ghost invariant = { λ a. a.p < length a.cluster.now.processors };
}

// Returns processor `p`'s take of the record of a key.
fn take_step<A: Allocator>(p: u32, key: &ValueAt) -> Step<A>
    ensures { result ≡ take_of p key.now }
{
    Step::Take {
        p,
        edge: key.point.location,
        time: key.point.time.copy(),
        value: key.value,
    }
}

// Returns processor `p`'s notice at a pointstamp.
fn notice_step<A: Allocator>(p: u32, point: &Pointstamp) -> Step<A>
    ensures { result ≡ notice_of p point.now }
{
    Step::Notice {
        p,
        vertex: point.location,
        time: point.time.copy(),
    }
}

impl<A: Allocator + Copy> Cluster<A> {
    // Returns the first processor, from `from` on, whose queue to `p` is not empty.
    fn next_sender(&self, from: u32, p: u32) -> Option<u32>
        requires { p < length self.now.processors }
        ensures next { IsNextSender A self.now p from result }
        ensures few { IfSome result (λ k. k < max_processors) }
    {
        // A run asks this of each processor at each step.
        if self.mesh().is_vacant() {
            return None;
        }
        for sender in from..self.processor_count() {
            if self.queue_len(sender as usize, p as usize) > 0 {
                return Some(sender);
            }
        }
        None
    }

    // Returns the candidates of a processor.
    pub(crate) fn candidates_of(&self, p: u32) -> CandidateSteps<'_, A>
        requires { p < length self.now.processors }
        ensures { result ≡ candidates_of self.now p }
    {
        let processor = self.processor(p as usize);
        CandidateSteps {
            cluster: self,
            p,
            from: 0,
            records: processor.records(),
            requests: processor.requests(),
            sends: processor.unsent().len() > 0,
        }
    }
}

impl<'a, A: Allocator + Copy> Iterator for CandidateSteps<'a, A> {
    type Item = Step<A>;

    ghost use Rattle.std.specs.Iterator.{YieldsFirst, item_count};

    ghost next_gives = { YieldsFirst (λ s. s) };

    ghost remaining = { item_count (λ s. s) };

    fn next(&mut self) -> Option<Step<A>> {
        let p = self.p;
        if let Some(from) = self.cluster.next_sender(self.from, p) {
            self.from = from + 1;
            return Some(Step::Receive { from, to: p });
        }
        self.from = self.cluster.processor_count();
        if let Some((key, _)) = self.records.next() {
            return Some(take_step(p, key));
        }
        if let Some((point, _)) = self.requests.next() {
            return Some(notice_step(p, point));
        }
        if self.sends {
            self.sends = false;
            return Some(Step::Broadcast { p, part: Part::All });
        }
        None
    }
}

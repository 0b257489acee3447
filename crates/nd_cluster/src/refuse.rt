//! Why steps are refused: tests in the order of the refusals' numbers.
ghost use Rattle.std.specs.Prelude.{◌≡◌, ◌≢◌, ◌↔◌, ◌<◌, IfOk, IfErr, OnOk, OnErr, IsTrue, Some, length};
ghost use Rattle.std.specs.FinMap as fin;
ghost use Rattle.nd_graph.specs.declared.op.Op.TheVariants as operator;
ghost use Rattle.nd_protocol.specs.State.{processor};
ghost use Rattle.nd_protocol.specs.Steps.{target_of, point_at, epoch_of};
ghost use Rattle.nd_protocol.specs.Times.{GoesLater};
ghost use Rattle.nd_protocol.specs.Enabled.{GoesBack, GoesNowhere, IsFreeBelow, IsRefused};
ghost use Rattle.nd_protocol.specs.declared.step.Step.TheVariants.{Feed as Feeding, Release as Releasing, Send as Posting};
ghost use Rattle.nd_protocol.specs.declared.refusal.Refusal.TheVariants.{Memory as OutOfMemory};
ghost use Rattle.nd_cluster.specs.Drafted.{Works, take_of, notice_of, IsWithinRules, IsLastRefusal};

use crate::{Cluster, Next, Refusal, Step};
use nd_graph::Op;
use nd_paths::Pointstamp;
use nd_processor::ValueAt;
use nd_protocol::{Batch, NoMemory, Times};
use nd_steps::op_at;
use nd_time::limits::MAX_VALUES;
use nd_time::{TimeOrder, Timestamp};
use std::alloc::Allocator;

// Returns a refusal that does not say that memory was refused.
pub(crate) fn unless_memory(refusal: Refusal) -> Result<Refusal, NoMemory>
    ensures ok { IfOk result (λ r. (r ≡ refusal) × (refusal ≢ OutOfMemory)) }
    ensures err { OnErr result (refusal ≡ OutOfMemory) }
{
    if refusal == Refusal::Memory {
        return Err(NoMemory);
    }
    Ok(refusal)
}

fn is_input(op: Op) -> bool
    ensures { IsTrue result ↔ (op ≡ operator.Input) }
{
    matches!(op, Op::Input)
}

// Returns whether the time to which a capability moves, if there is one, is strictly later.
fn goes_later(times: &Times, order: TimeOrder) -> bool
    ensures { IsTrue result ↔ GoesLater order times.now.time times.now.to }
{
    match &times.to {
        Some(to) => times.time.at_or_before_by(&to.time, order) && times.time != to.time,
        None => true,
    }
}

impl<A: Allocator + Copy> Cluster<A> {
    // Returns the epoch at which a feed emits its values, or why the feed is refused, apart from the limits.
    pub(crate) fn feed_epoch(
        &self,
        p: u32,
        vertex: usize,
        values: &[i64],
        next: Next,
    ) -> Result<u32, Refusal>
        ensures epoch { IfOk result (λ e. fin.get (processor self.now p).tokens vertex ≡ Some e) }
        ensures free { OnOk result (IsWithinRules A self.now (Feeding p vertex values.now next)) }
        ensures refused { IfErr result
            (IsRefused {A = A} self.now (Feeding p vertex values.now next)) }
    {
        if p as usize >= self.n() {
            return Err(Refusal::NoProcessor);
        }
        let graph = self.graph();
        if vertex >= graph.vertices().len() {
            return Err(Refusal::NoVertex);
        }
        if !is_input(op_at(graph, vertex)) {
            return Err(Refusal::NotInput);
        }
        let Some(epoch) = self.processor(p as usize).token(vertex) else {
            return Err(Refusal::InputClosed);
        };
        if values.len() > MAX_VALUES {
            return Err(Refusal::TooManyValues);
        }
        if next == Next::Next && epoch == u32::MAX {
            return Err(Refusal::EpochFull);
        }
        Ok(epoch)
    }

    // Returns the vertex that an edge enters, or why the take of a record from the edge is refused before the vertex reacts.
    pub(crate) fn take_target(&self, p: u32, key: &ValueAt) -> Result<usize, Refusal>
        ensures target { IfOk result (λ v. v ≡ target_of self.now.graph key.now.point.location) }
        ensures free { OnOk result (IsFreeBelow {A = A} self.now (take_of p key.now) 11) }
        ensures refused { IfErr result (IsRefused {A = A} self.now (take_of p key.now)) }
    {
        if p as usize >= self.n() {
            return Err(Refusal::NoProcessor);
        }
        let graph = self.graph();
        let edge = key.point.location;
        let first = graph.vertices().len();
        if edge < first {
            return Err(Refusal::NoEdge);
        }
        if edge >= graph.location_count() {
            return Err(Refusal::NoEdge);
        }
        if self.processor(p as usize).count_of(key) == 0 {
            return Err(Refusal::NoRecord);
        }
        Ok(graph.edges()[edge - first].to)
    }

    // Returns an error unless there is a request for the notice on a processor: why the notice is refused.
    pub(crate) fn notice_asked(&self, p: u32, point: &Pointstamp) -> Result<(), Refusal>
        ensures asked { OnOk result (fin.get (processor self.now p).requests point.now ≡ Some tt) }
        ensures free { OnOk result (IsFreeBelow {A = A} self.now (notice_of p point.now) 10) }
        ensures refused { IfErr result (IsRefused {A = A} self.now (notice_of p point.now)) }
    {
        if p as usize >= self.n() {
            return Err(Refusal::NoProcessor);
        }
        if point.location >= self.graph().vertices().len() {
            return Err(Refusal::NoVertex);
        }
        if !self.processor(p as usize).has_request(point) {
            return Err(Refusal::NoRequest);
        }
        Ok(())
    }

    // Returns whether a processor has a request of a vertex at a time.
    pub(crate) fn is_asked(&self, p: u32, vertex: usize, time: &Timestamp) -> bool
        requires { p < length self.now.processors }
        ensures { IsTrue result ↔ (fin.get (processor self.now p).requests
            (point_at vertex time.now) ≡ Some tt) }
    {
        let point = Pointstamp {
            location: vertex,
            time: time.copy(),
        };
        self.processor(p as usize).has_request(&point)
    }

    // Returns an error unless a vertex of a processor holds the capability, and supports a later one if it stays beside it: why
    // its release is refused.
    pub(crate) fn release_kept(&self, p: u32, vertex: usize, times: &Times) -> Result<(), Refusal>
        ensures kept { OnOk result (fin.get (processor self.now p).requests
            (point_at vertex times.now.time) ≡ Some tt) }
        ensures free { OnOk result (IsWithinRules A self.now (Releasing p vertex times.now)) }
        ensures refused { IfErr result
            (IsRefused {A = A} self.now (Releasing p vertex times.now)) }
    {
        if p as usize >= self.n() {
            return Err(Refusal::NoProcessor);
        }
        let graph = self.graph();
        if vertex >= graph.vertices().len() {
            return Err(Refusal::NoVertex);
        }
        let op = op_at(graph, vertex);
        if !op.holds() || times.keeps() && !op.supports() {
            return Err(Refusal::NoRequest);
        }
        if !self.is_asked(p, vertex, &times.time) {
            return Err(Refusal::NoRequest);
        }
        Ok(())
    }

    // Returns whether a processor is named that is not there.
    fn goes_nowhere(&self, dest: Option<u32>) -> bool
        ensures { IsTrue result ↔ GoesNowhere self.now dest }
    {
        match dest {
            Some(dest) => dest as usize >= self.n(),
            None => false,
        }
    }

    // Returns an error unless a vertex of a processor holds a capability from which the batch can be sent: why the send is refused,
    // apart from the limits and what is tested after them.
    pub(crate) fn post_held(&self, p: u32, vertex: usize, batch: &Batch<A>) -> Result<(), Refusal>
        ensures there { OnOk result (p < length self.now.processors) }
        ensures free { OnOk result (IsWithinRules A self.now (Posting p vertex batch.now)) }
        ensures refused { IfErr result
            (IsRefused {A = A} self.now (Posting p vertex batch.now)) }
    {
        if p as usize >= self.n() || self.goes_nowhere(batch.dest) {
            return Err(Refusal::NoProcessor);
        }
        let graph = self.graph();
        if vertex >= graph.vertices().len() {
            return Err(Refusal::NoVertex);
        }
        if batch.values.as_slice().len() > MAX_VALUES {
            return Err(Refusal::TooManyValues);
        }
        if !op_at(graph, vertex).supports() {
            return Err(Refusal::NoRequest);
        }
        if !self.is_asked(p, vertex, &batch.time) {
            return Err(Refusal::NoRequest);
        }
        Ok(())
    }

    // Returns whether a token would move to an epoch that is not greater than its own.
    fn goes_back(&self, p: u32, vertex: usize, next: Next) -> bool
        requires { p < length self.now.processors }
        ensures { IsTrue result ↔ GoesBack next (epoch_of self.now p vertex) }
    {
        match next {
            Next::To(epoch) => epoch <= self.processor(p as usize).token(vertex).unwrap_or(0),
            Next::Next | Next::Close | Next::Stay => false,
        }
    }

    // Returns why a send that is within the limits is refused, or none if it is not.
    fn post_last(&self, p: u32, vertex: usize, batch: &Batch<A>) -> Option<Refusal>
        ensures { IsWithinRules A self.now (Posting p vertex batch.now)
            → IsLastRefusal {A = A} self.now (Posting p vertex batch.now) result }
    {
        if batch.port >= op_at(self.graph(), vertex).ports() {
            return Some(Refusal::NoPort);
        }
        let order = self.graph().order();
        if !batch.time.at_or_before_by(batch.records_time(), order) {
            return Some(Refusal::TooEarly);
        }
        None
    }

    // Returns why a feed, a take, a notice, a release or a send that is within the limits is refused, or none if it is not.
    pub(crate) fn last_refusal(&self, step: &Step<A>) -> Option<Refusal>
        requires works { Works step.now }
        requires free { IsWithinRules A self.now step.now }
        ensures { IsLastRefusal self.now step.now result }
    {
        match step {
            Step::Feed {
                p,
                vertex,
                next,
                ..
            } => {
                if self.goes_back(*p, *vertex, *next) {
                    return Some(Refusal::NotLater);
                }
                None
            }
            Step::Take { .. } => None,
            Step::Notice { vertex, .. } => {
                if op_at(self.graph(), *vertex).holds() {
                    return Some(Refusal::NotNotified);
                }
                None
            }
            Step::Release { times, .. } => {
                if !goes_later(times.get(), self.graph().order()) {
                    return Some(Refusal::NotLater);
                }
                None
            }
            Step::Send { p, vertex, batch } => self.post_last(*p, *vertex, batch.get()),
            Step::Broadcast { .. } | Step::Receive { .. } => unreachable!(),
        }
    }
}

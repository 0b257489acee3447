//! What is outstanding in a cluster, and copies of it.
ghost use Rattle.std.specs.Prelude.{◌≡◌, ◌<◌, ◌≤◌, ◌^◌, pos, IfOk, sum_by, length};
ghost use Rattle.nd_time.specs.Limits.{max_processors};
ghost use Rattle.nd_delta.specs.Delta.{at};
ghost use Rattle.nd_processor.specs.State.{held, in_requests, in_tokens};
ghost use Rattle.nd_protocol.specs.State.{processor, truth};
ghost use Rattle.nd_protocol.specs.Invariant.{IsSettled};

use crate::Cluster;
use nd_paths::Pointstamp;
use nd_processor::{Processor, token_point};
use nd_protocol::truth_is_small;
use std::alloc::{AllocError, Allocator};

// Returns the number of requests that a processor has at a pointstamp: one or none.
fn count_requests<A: Allocator + Copy>(processor: &Processor<A>, point: &Pointstamp) -> u128
    ensures value { result ≡ in_requests processor.now.requests point.now }
    ensures fits { result ≤ 1 }
{
    if processor.has_request(point) { 1 } else { 0 }
}

// Returns the number of tokens that a processor has at a pointstamp: one or none.
fn count_tokens<A: Allocator + Copy>(processor: &Processor<A>, point: &Pointstamp) -> u128
    ensures value { result ≡ in_tokens processor.now.tokens point.now }
    ensures fits { result ≤ 1 }
{
    let Some(epoch) = processor.token(point.location) else {
        return 0;
    };
    let token = token_point(point.location, epoch);
    if point.cmp(&token).is_eq() { 1 } else { 0 }
}

// Returns the number of records, requests and tokens that a processor has at a pointstamp.
fn count_held<A: Allocator + Copy>(processor: &Processor<A>, point: &Pointstamp) -> u128
    ensures value { result ≡ held processor.now point.now }
    ensures fits { result < 2 ^ 121 }
{
    processor.records_at(point) + count_requests(processor, point) + count_tokens(processor, point)
}

// Returns the number of records, requests and tokens at a pointstamp, over some processors.
fn count_all<A: Allocator + Copy>(processors: &[Processor<A>], point: &Pointstamp) -> u128
    requires { length processors.now ≤ max_processors }
    ensures { result ≡ sum_by (λ q. held q point.now) processors.now }
{
    let mut total = 0;
    for processor in processors {
        total += count_held(processor, point);
    }
    total
}

impl<A: Allocator + Copy> Cluster<A> {
    /// Returns the number of records, requests and tokens at a pointstamp, over all processors.
    pub fn count(&self, point: &Pointstamp) -> u128
        ensures value { pos result ≡ at (truth self.now.processors) point.now }
        ensures small { IsSettled self.now → result < 2 ^ 63 }
    {
        truth_is_small();
        count_all(self.processors(), point)
    }

    /// Returns the number of records, requests and tokens of processor `p` at a pointstamp.
    pub fn held(&self, p: usize, point: &Pointstamp) -> u128
        requires { p < length self.now.processors }
        ensures { result ≡ held (processor self.now p) point.now }
    {
        count_held(self.processor(p), point)
    }

    /// Returns an equal cluster.
    pub fn copy(&self, alloc: A) -> Result<Cluster<A>, AllocError>
        ensures { IfOk result (λ c. c ≡ self.now) }
    {
        Ok(Cluster {
            alloc,
            parts: self.parts.copy(alloc)?,
        })
    }
}

//! Lists of summaries, each different one once.
ghost use Rattle.std.specs.Prelude.{◌≡◌, ◌↔◌, ◌<◌, ◌∷◌, IfOk, IsTrue, MatchOption, All, [], length};
ghost use Rattle.nd_summaries.specs.Shared.{mixed as mixed_of, bucket_of, named, IsNamed, IsIndexed, Extends, AreNumbers};

use crate::Summary;
use crate::list::SummaryList;
use crate::numbers::Numbers;
use std::alloc::{AllocError, Allocator, Global};

/// The number of buckets in which lists are looked up.
pub const BUCKETS: usize = 4096;

/// Lists of summaries, and the numbers of those whose summaries fall into each bucket.
pub struct Shared<A: Allocator = Global> {
    pub lists: Vec<SummaryList<A>, A>,
    buckets: Vec<Numbers<A>, A>,
}

impl<A: Allocator> Drop for Shared<A> {
    fn drop(self) {
        let Shared {
            lists: _,
            buckets: _,
        } = self;
    }
}

// Mixes one more number into a bucket.
fn mix(bucket: usize, number: usize) -> usize
    requires { bucket < BUCKETS }
    ensures value { result ≡ mixed_of bucket (number ∷ []) }
    ensures small { result < BUCKETS }
{
    (bucket * 31 + number % BUCKETS) % BUCKETS
}

// Mixes the numbers into a bucket, one after the other.
fn mixed(start: usize, numbers: &[u32]) -> usize
    requires { start < BUCKETS }
    ensures value { result ≡ mixed_of start numbers.now }
    ensures small { result < BUCKETS }
{
    let mut bucket = start;
    for number in numbers {
        let next = mix(bucket, *number as usize);
        bucket = next;
    }
    bucket
}

// Returns the bucket for a list of summaries.
fn bucket_for(list: &[Summary]) -> usize
    ensures value { result ≡ bucket_of list.now }
    ensures small { result < BUCKETS }
{
    let mut bucket = 0;
    for summary in list {
        let kept = mix(bucket, summary.keep);
        let added = mix(kept, summary.add as usize);
        let next = mixed(added, summary.constants.as_slice());
        bucket = next;
    }
    bucket
}

// Returns whether two lists have the same summaries.
fn are_equal(own: &[Summary], other: &[Summary]) -> bool
    ensures { IsTrue result ↔ (own.now ≡ other.now) }
{
    if own.len() != other.len() {
        return false;
    }
    for place in 0..own.len() {
        let same = are_same(&own[place], &other[place]);
        if !same {
            return false;
        }
    }
    true
}

fn are_same(own: &Summary, other: &Summary) -> bool
    ensures { IsTrue result ↔ (own.now ≡ other.now) }
{
    own == other
}

// Returns the number after this many lists. More lists than a number can name are out of memory.
fn next_number(count: usize) -> Result<u32, AllocError>
    ensures { IfOk result (λ n. n ≡ count) }
{
    match u32::try_from(count) {
        Ok(number) => Ok(number),
        Err(_) => Err(AllocError),
    }
}

// Returns the first of the numbers that names a list with these summaries, if one does.
fn find<A: Allocator>(lists: &[SummaryList<A>], numbers: &[u32], list: &[Summary]) -> Option<u32>
    requires { All (λ n. n < length lists.now) numbers.now }
    ensures { MatchOption result (All (λ n. named lists.now n ≡ list.now → ⊥) numbers.now)
        (λ n. IsNamed lists.now n list.now) }
{
    for number in numbers {
        if are_equal(lists[*number as usize].as_slice(), list) {
            return Some(*number);
        }
    }
    None
}

impl<A: Allocator> Shared<A> {
    /// Returns no lists.
    pub fn new(alloc: A) -> Result<Shared<A>, AllocError>
    where
        A: Copy,
        ensures none { IfOk result (λ s. s.lists.items ≡ []) }
        ensures indexed { IfOk result (λ s. IsIndexed s.lists.items s.buckets.items) }
    {
        let mut buckets = Vec::with_capacity(alloc, BUCKETS)?;
        for _bucket in 0..BUCKETS {
            buckets.push(Numbers::with_capacity(alloc, 0)?)?;
        }
        Ok(Shared {
            lists: Vec::new(alloc),
            buckets,
        })
    }

    /// Returns the number of a list, which is added if it is new. More lists than a number can name are out of memory.
    pub fn number(&mut self, alloc: A, list: &SummaryList<A>) -> Result<u32, AllocError>
    where
        A: Copy,
        requires { IsIndexed self.old.lists.items self.old.buckets.items }
        ensures indexed { IfOk result (λ _. IsIndexed self.new.lists.items self.new.buckets.items) }
        ensures named { IfOk result (λ n. IsNamed self.new.lists.items n list.now) }
        ensures extends { IfOk result (λ _. Extends self.old.lists.items self.new.lists.items) }
    {
        let bucket = bucket_for(list.as_slice());
        let found = find(
            &self.lists,
            self.buckets[bucket].as_slice(),
            list.as_slice(),
        );
        if let Some(number) = found {
            return Ok(number);
        }
        let number = next_number(self.lists.len())?;
        let copy = list.copy(alloc)?;
        self.buckets[bucket].push(number)?;
        self.lists.push(copy)?;
        Ok(number)
    }

    /// Returns the numbers of the lists of a row.
    pub fn numbers(&mut self, alloc: A, row: &[SummaryList<A>]) -> Result<Numbers<A>, AllocError>
    where
        A: Copy,
        requires { IsIndexed self.old.lists.items self.old.buckets.items }
        ensures indexed { IfOk result (λ _. IsIndexed self.new.lists.items self.new.buckets.items) }
        ensures named { IfOk result (λ n. AreNumbers self.new.lists.items n row.now) }
        ensures extends { IfOk result (λ _. Extends self.old.lists.items self.new.lists.items) }
    {
        let mut numbers = Numbers::with_capacity(alloc, row.len())?;
        for list in row {
            let number = self.number(alloc, list)?;
            numbers.push(number)?;
        }
        Ok(numbers)
    }

    /// Returns the lists.
    pub fn into_lists(self) -> Vec<SummaryList<A>, A>
        ensures { result.items ≡ self.lists.items }
    {
        let Shared { lists, buckets: _ } = self;
        lists
    }
}

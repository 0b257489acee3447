//! What is known about a worker's seat at the claim word.

use std::collections::LinkedList;

/// How many numbers a seat may still draw, and those that it has drawn. Only proofs use it.
pub(crate) struct Hand {
    /// How many numbers each worker's seat may draw at first.
    pub(crate) each: u64,
    /// How many numbers this seat may still draw.
    pub(crate) allowance: u64,
    pub(crate) drawn: LinkedList<u64>,
}

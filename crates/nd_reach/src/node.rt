//! How a search found a state, and how it goes there again.
ghost use Rattle.std.specs.Prelude.{◌≡◌, None, Some};

use nd_cluster::{Record, Saved};
use std::alloc::Allocator;

/// How a search found a state, and how it goes there again.
#[derive(Drop)]
pub(crate) struct Node<A: Allocator + Copy> {
    /// The number of the state from which a move led here.
    pub(crate) parent: usize,
    /// The record of that move; the state in which the search began has none.
    pub(crate) made: Option<Record<A>>,
    /// What steps change, if it is saved, so that a walk can begin here; on the heap, so that a node stays small.
    pub(crate) saved: Option<Box<Saved<A>, A>>,
    /// How many moves lead here from the last state before it at which a walk can begin.
    pub(crate) moves: u32,
}

impl<A: Allocator + Copy> Node<A> {
    // Returns the node of the state in which a search begins.
    pub(crate) fn start() -> Node<A>
        ensures made { result.made ≡ None }
        ensures saved { result.saved ≡ None }
    {
        Node {
            parent: 0,
            made: None,
            saved: None,
            moves: 0,
        }
    }

    // Returns the node of a state to which a move of the state `parent` leads. If nothing is saved there, so many moves lead to
    // it from where a walk can begin.
    pub(crate) fn new(
        parent: usize,
        made: Record<A>,
        moves: u32,
        saved: Option<Box<Saved<A>, A>>,
    ) -> Node<A>
        ensures parent { result.parent ≡ parent }
        ensures made { result.made ≡ Some made }
        ensures saved { result.saved ≡ saved }
    {
        let moves = if saved.is_some() { 0 } else { moves };
        Node {
            parent,
            made: Some(made),
            saved,
            moves,
        }
    }
}

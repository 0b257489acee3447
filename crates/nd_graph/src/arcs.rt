//! The arcs that leave a location.
ghost use Rattle.std.specs.Prelude.{◌≡◌, ◌==◌, filter};
ghost use Rattle.nd_graph.specs.Graph.{arcs as arcs_of};

use crate::{Arc, Graph};
use std::alloc::Allocator;
use std::marker::Model;

/// An iterator over the arcs that leave a location, in the order of their edges.
#[derive(Drop)]
pub struct ArcsFrom<'a> {
    rest: &'a [Arc],
    location: usize,
}

impl<'a> Model for ArcsFrom<'a> {
    ghost use Rattle.std.specs.Prelude.{List, ◌==◌, filter};
    ghost use Rattle.nd_graph.specs.declared.graph.Arc.{Arc};

    ghost Value = { List Arc };

    ghost view = { λ a. filter (λ arc. arc.from == a.location) a.rest.now };
}

impl<'a> Iterator for ArcsFrom<'a> {
    type Item = Arc;

    ghost use Rattle.std.specs.Iterator.{YieldsFirst, item_count};

    ghost next_gives = { YieldsFirst (λ s. s) };

    ghost remaining = { item_count (λ s. s) };

    fn next(&mut self) -> Option<Arc> {
        'rest: while let Some((first, others)) = self.rest.split_first() {
            self.rest = others;
            if first.from == self.location {
                return Some(*first);
            }
        }
        None
    }
}

impl<A: Allocator> Graph<A> {
    /// Returns an iterator over the arcs that leave `location`.
    pub fn arcs(&self, location: usize) -> ArcsFrom<'_>
        ensures { result ≡ filter (λ arc. arc.from == location) (arcs_of self.now) }
    {
        ArcsFrom {
            rest: self.all_arcs(),
            location,
        }
    }
}

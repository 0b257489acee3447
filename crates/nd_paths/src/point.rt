//! Pointstamps: a location of the graph and a timestamp at it.
ghost use Rattle.std.specs.Prelude.{◌≡◌, ◌↔◌, IsTrue, IsSome, IfSome};
ghost use Rattle.nd_paths.specs.Order.{Fits};
ghost use Rattle.nd_paths.specs.Point.{point_cmp, point_exact};
ghost use Rattle.nd_paths.specs.declared.point.Pointstamp.{Pointstamp};

use nd_graph::Graph;
use nd_map::Key;
use nd_time::Timestamp;
use std::alloc::Allocator;

/// A location and a timestamp (Naiad, SOSP 2013, section 2.3).
///
/// Pointstamps are listed by location, then by epoch, and then by counters in lexicographic order.
#[derive(Debug, PartialEq, Eq, PartialOrd, Ord, Drop)]
pub struct Pointstamp {
    /// The number of a vertex or an edge: vertices come first.
    pub location: usize,
    pub time: Timestamp,
}

impl Pointstamp {
    /// Returns the pointstamp at a location of the graph, or `None` if the depth of the time is not that
    /// of the location.
    pub fn new<A: Allocator>(
        graph: &Graph<A>,
        location: usize,
        time: Timestamp,
    ) -> Option<Pointstamp>
        ensures fits { IsSome result
            ↔ Fits graph.now (record { location = location; time = time }) }
        ensures value { IfSome result (λ x. x ≡ record { location = location; time = time }) }
    {
        if location >= graph.location_count() || graph.location_depth(location) != time.depth() {
            return None;
        }
        Some(Pointstamp { location, time })
    }

    /// Returns whether the graph has the location, at the depth of the time.
    pub fn fits<A: Allocator>(&self, graph: &Graph<A>) -> bool
        ensures { IsTrue result ↔ Fits graph.now self.now }
    {
        self.location < graph.location_count()
            && graph.location_depth(self.location) == self.time.depth()
    }

    /// Returns an equal pointstamp.
    pub fn copy(&self) -> Pointstamp
        ensures { result ≡ self.now }
    {
        Pointstamp {
            location: self.location,
            time: self.time.copy(),
        }
    }
}

impl Key for Pointstamp {
    fn duplicate(&self) -> Pointstamp {
        self.copy()
    }

    ghost exact = { point_exact };
}

/// States that pointstamps compare as they are listed: by location, then by epoch, and then by counters
/// in lexicographic order. The function has no code; callers use its clause.
pub fn pointstamps_are_listed()
    ensures { (p q : Pointstamp) → ⟦<Pointstamp as Ord>⟧.cmp p q ≡ point_cmp p q }
{}

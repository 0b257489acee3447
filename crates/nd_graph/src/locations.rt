//! The names of locations.
ghost use Rattle.std.specs.Prelude.{◌≡◌, ◌<◌, Some, slice_get, position};
ghost use Rattle.std.specs.Str.{bytes_eq};
ghost use Rattle.nd_graph.specs.Graph.{location_count as count_of, names};

use crate::Graph;
use std::alloc::Allocator;

impl<A: Allocator> Graph<A> {
    /// Returns the name of the vertex or edge at `location`.
    pub fn location_name(&self, location: usize) -> &str
        requires { location < count_of self.now }
        ensures { slice_get (names self.now) location ≡ Some result.now }
    {
        let vertices = self.vertices();
        if location < vertices.len() {
            vertices[location].name.as_str()
        } else {
            self.edges()[location - vertices.len()].name.as_str()
        }
    }

    /// Returns the location of the vertex or edge with this name, or `None` if there is none.
    pub fn location_of(&self, name: &str) -> Option<usize>
        ensures { result ≡ position (bytes_eq name.now) (names self.now) }
    {
        for location in 0..self.location_count() {
            if name == self.location_name(location) {
                return Some(location);
            }
        }
        None
    }
}

//! What the sinks of a cluster counted.
ghost use Rattle.std.specs.Prelude.{◌≡◌, ◌≤◌, length};
ghost use Rattle.nd_time.specs.Limits.{max_processors};
ghost use Rattle.nd_cluster.specs.Sinks.{sunk};

use crate::Cluster;
use nd_processor::Processor;
use std::alloc::Allocator;

// Returns how often a sink vertex has counted a value, over some processors.
fn count_sinks<A: Allocator + Copy>(processors: &[Processor<A>], vertex: usize, value: i64) -> u64
    requires { length processors.now ≤ max_processors }
    ensures { result ≡ sunk processors.now vertex value }
{
    let mut total = 0;
    for processor in processors {
        total += processor.sink_count(vertex, value);
    }
    total
}

impl<A: Allocator + Copy> Cluster<A> {
    /// Returns how often a sink vertex has counted a value, over all processors.
    pub fn sink_count(&self, vertex: usize, value: i64) -> u64
        ensures { result ≡ sunk self.now.processors vertex value }
    {
        count_sinks(self.processors(), vertex, value)
    }
}

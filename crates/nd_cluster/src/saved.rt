//! The part of a cluster that steps change, saved without its graph.
ghost use Rattle.std.specs.Prelude.{◌≡◌, IfOk};
ghost use Rattle.nd_cluster.specs.Saved.{state_in, FitsIn, IsSaved};

use crate::Cluster;
use nd_mesh::Mesh;
use nd_processor::Processor;
use nd_protocol::{Parts, copied_processors, copied_views};
use nd_view::View;
use std::alloc::{AllocError, Allocator, Global};

/// The part of a cluster that steps change: its processors, the view of each, and the queues
/// between them.
///
/// The graph and its paths, which no step changes, are not part of it.
#[derive(Drop)]
pub struct Saved<A: Allocator + Copy = Global> {
    pub(crate) processors: Vec<Processor<A>, A>,
    pub(crate) views: Vec<View<A>, A>,
    pub(crate) mesh: Mesh<A>,
}

impl<A: Allocator + Copy> Cluster<A> {
    /// Returns a copy of what steps change.
    pub fn saved(&self, alloc: A) -> Result<Saved<A>, AllocError>
        ensures { IfOk result (IsSaved self.now) }
    {
        Ok(Saved {
            processors: copied_processors(alloc, self.parts.processors())?,
            views: copied_views(alloc, self.parts.views())?,
            mesh: self.parts.mesh().copy(alloc)?,
        })
    }

    /// Returns a cluster with the same graph and with what is `saved`.
    pub fn restored(&self, alloc: A, saved: &Saved<A>) -> Result<Cluster<A>, AllocError>
        requires { FitsIn self.now.graph saved.now }
        ensures { IfOk result (λ c. c ≡ state_in self.now.graph saved.now) }
    {
        let paths = self.paths().copy()?;
        let processors = copied_processors(alloc, &saved.processors)?;
        let views = copied_views(alloc, &saved.views)?;
        let mesh = saved.mesh.copy(alloc)?;
        Ok(Cluster {
            alloc,
            parts: Parts::new(paths, processors, views, mesh),
        })
    }
}

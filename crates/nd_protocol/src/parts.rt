//! The parts of a cluster, seen as its state.
ghost use Rattle.std.specs.Prelude.{◌≡◌, ◌<◌, All, IfOk, length};
ghost use Rattle.nd_view.specs.Kept.{IsFor};
ghost use Rattle.nd_view.specs.Views.{maps};
ghost use Rattle.nd_protocol.specs.State.{processor, view};
ghost use Rattle.nd_protocol.specs.Seen.{seen};

use nd_graph::Graph;
use nd_mesh::Mesh;
use nd_paths::Paths;
use nd_processor::Processor;
use nd_view::View;
use std::alloc::{AllocError, Allocator, Global};
use std::marker::Model;

/// The parts of a cluster: the paths of its graph, its processors, the view of each, and the queues between them.
pub struct Parts<A: Allocator + Copy = Global> {
    pub paths: Paths<A>,
    pub processors: Vec<Processor<A>, A>,
    pub views: Vec<View<A>, A>,
    pub mesh: Mesh<A>,
}

impl<A: Allocator + Copy> Drop for Parts<A> {
    fn drop(self) {
        let Parts {
            paths: _,
            processors: _,
            views: _,
            mesh: _,
        } = self;
    }
}

impl<A: Allocator + Copy> Model for Parts<A> {
    ghost use Rattle.std.specs.Prelude.{All};
    ghost use Rattle.nd_view.specs.Kept.{IsFor};
    ghost use Rattle.nd_protocol.specs.State.{ClusterState, cluster_code};
    ghost use Rattle.nd_protocol.specs.Seen.{seen};

    ghost Value = { ClusterState };

    ghost coded = { cluster_code };

    ghost view = { λ a. seen a.paths a.processors.items a.views.items a.mesh };

    ghost invariant = { λ a. All (IsFor a.paths) a.views.items };
}

/// Returns equal processors.
pub fn copied_processors<A: Allocator + Copy>(
    alloc: A,
    processors: &[Processor<A>],
) -> Result<Vec<Processor<A>, A>, AllocError>
    ensures { IfOk result (λ v. v.items ≡ processors.now) }
{
    let mut copied = Vec::with_capacity(alloc, processors.len())?;
    for processor in processors {
        copied.push(processor.copy(alloc)?)?;
    }
    Ok(copied)
}

/// Returns equal views.
pub fn copied_views<A: Allocator + Copy>(
    alloc: A,
    views: &[View<A>],
) -> Result<Vec<View<A>, A>, AllocError>
    ensures { IfOk result (λ v. v.items ≡ views.now) }
{
    let mut copied = Vec::with_capacity(alloc, views.len())?;
    for view in views {
        copied.push(view.copy(alloc)?)?;
    }
    Ok(copied)
}

impl<A: Allocator + Copy> Parts<A> {
    /// Returns a cluster of these parts. The views are those of the graph.
    pub fn new(
        paths: Paths<A>,
        processors: Vec<Processor<A>, A>,
        views: Vec<View<A>, A>,
        mesh: Mesh<A>,
    ) -> Parts<A>
        requires { All (IsFor paths) views.items }
        ensures { result ≡ seen paths processors.items views.items mesh }
    {
        Parts {
            paths,
            processors,
            views,
            mesh,
        }
    }

    /// Returns equal parts.
    pub fn copy(&self, alloc: A) -> Result<Parts<A>, AllocError>
        ensures { IfOk result (λ c. c ≡ self.now) }
    {
        Ok(Parts {
            paths: self.paths.copy()?,
            processors: copied_processors(alloc, &self.processors)?,
            views: copied_views(alloc, &self.views)?,
            mesh: self.mesh.copy(alloc)?,
        })
    }

    /// Returns the number of processors.
    pub fn n(&self) -> usize
        ensures { result ≡ length self.now.processors }
    {
        self.processors.len()
    }

    /// Returns the graph.
    pub fn graph(&self) -> &Graph<A>
        ensures { result.now ≡ self.now.graph }
    {
        self.paths.graph()
    }

    /// Returns the paths of the graph.
    pub fn paths(&self) -> &Paths<A>
        ensures { result.now ≡ self.now.graph }
    {
        &self.paths
    }

    /// Returns the processors.
    pub fn processors(&self) -> &[Processor<A>]
        ensures { result.now ≡ self.now.processors }
    {
        &self.processors
    }

    /// Returns processor `p`.
    pub fn processor(&self, p: usize) -> &Processor<A>
        requires { p < length self.now.processors }
        ensures { result.now ≡ processor self.now p }
    {
        &self.processors[p]
    }

    /// Returns the views of the processors.
    pub fn views(&self) -> &[View<A>]
        ensures maps { maps result.now ≡ self.now.views }
        ensures paths { All (IsFor self.now.graph) result.now }
    {
        &self.views
    }

    /// Returns what processor `q` knows of the outstanding pointstamps.
    pub fn view(&self, q: usize) -> &View<A>
        requires { q < length self.now.views }
        ensures map { result.now.map ≡ view self.now q }
        ensures paths { IsFor self.now.graph result.now }
    {
        &self.views[q]
    }

    /// Returns the queues.
    pub fn mesh(&self) -> &Mesh<A>
        ensures { result.now ≡ self.now.queues }
    {
        &self.mesh
    }
}

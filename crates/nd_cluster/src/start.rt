//! The initial state of a cluster.
ghost use Rattle.std.specs.Prelude.{◌≡◌, ◌*◌, ◌+ℤ◌, pos, All, IfOk, IfErr, OnOk, map, replicate};
ghost use Rattle.nd_paths.specs.declared.point.Pointstamp.{Pointstamp as Point};
ghost use Rattle.nd_delta.specs.Delta.{at};
ghost use Rattle.nd_view.specs.Kept.{IsFor};
ghost use Rattle.nd_processor.specs.Start.{start_processor};
ghost use Rattle.nd_protocol.specs.State.{truth};
ghost use Rattle.nd_protocol.specs.Start.{start as started};
ghost use Rattle.nd_protocol.specs.Invariant.{KeepsProtocol};
ghost use Rattle.nd_cluster.specs.Starting.{start_code, fault_of, tokens_weigh, requests_weigh, IsStartFault, CanStart};

use crate::Cluster;
use nd_delta::Delta;
use nd_graph::{Graph, GraphFault};
use nd_map::Iter;
use nd_mesh::Mesh;
use nd_paths::{PathFault, Paths, Pointstamp};
use nd_processor::{Processor, token_point};
use nd_protocol::{Parts, starts_keep_protocol};
use nd_time::Code;
use nd_time::limits::MAX_PROCESSORS;
use nd_view::View;
use std::alloc::{AllocError, Allocator};
use thiserror::Error;

/// Why a cluster does not start.
#[derive(Clone, Copy, Debug, PartialEq, Eq, Drop, Error)]
pub enum StartFault {
    #[error("a cluster has 1 to 64 processors")]
    BadCount,
    #[error("a loop through location {location} does not increase every time")]
    LoopNotStrict { location: usize },
    #[error("out of memory")]
    Memory,
}

impl StartFault {
    /// Returns the code and the name of the error.
    pub fn code(self) -> Code
        ensures { result ≡ start_code self }
    {
        match self {
            StartFault::BadCount => Code::new(48, "BadCount"),
            StartFault::LoopNotStrict { location: _ } => Code::new(46, "LoopNotStrict"),
            StartFault::Memory => GraphFault::Memory.code(),
        }
    }
}

// Returns the error of a graph without an order, as an error of the start.
fn start_fault(fault: PathFault) -> StartFault
    ensures { result ≡ fault_of fault }
{
    match fault {
        PathFault::LoopNotStrict { location } => StartFault::LoopNotStrict { location },
        PathFault::Memory => StartFault::Memory,
    }
}

// Returns `n` processors in their initial state.
fn start_processors<A: Allocator + Copy>(
    alloc: A,
    graph: &Graph<A>,
    n: u32,
) -> Result<Vec<Processor<A>, A>, AllocError>
    ensures { IfOk result (λ v. v.items ≡ replicate n (start_processor graph.now)) }
{
    let mut processors = Vec::new(alloc);
    for _ in 0..n {
        let processor = Processor::start(alloc, graph)?;
        processors.push(processor)?;
    }
    Ok(processors)
}

// Returns the change that counts each token `n` times.
fn tokens_counted<A: Allocator>(
    alloc: A,
    tokens: &[(usize, u32)],
    n: u32,
) -> Result<Delta<A>, AllocError>
    ensures { IfOk result (λ d. (x : Point) → at d x ≡ pos (n * tokens_weigh tokens.now x)) }
{
    let mut counted = Delta::new(alloc);
    for token in tokens {
        let Ok(()) = counted.add(&token_point(token.0, token.1), i64::from(n)) else {
            return Err(AllocError);
        };
    }
    Ok(counted)
}

// Counts each request `n` times more.
fn count_requests<A: Allocator>(
    counted: &mut Delta<A>,
    requests: Iter<'_, Pointstamp, ()>,
    n: u32,
) -> Result<(), AllocError>
    ensures { OnOk result ((x : Point)
        → at counted.new x ≡ at counted.old x +ℤ pos (n * requests_weigh requests.entry x)) }
{
    for (point, _) in requests {
        let Ok(()) = counted.add(point, i64::from(n)) else {
            return Err(AllocError);
        };
    }
    Ok(())
}

// Returns `n` views that count what a change counts.
fn start_views<A: Allocator + Copy>(
    alloc: A,
    paths: &Paths<A>,
    outstanding: &Delta<A>,
    n: u32,
) -> Result<Vec<View<A>, A>, AllocError>
    ensures maps { IfOk result (λ v. map (λ w. w.map) v.items ≡ replicate n outstanding.now) }
    ensures paths { IfOk result (λ v. All (IsFor paths.now) v.items) }
{
    let mut views = Vec::new(alloc);
    for _ in 0..n {
        let mut view = View::new(alloc);
        let Ok(()) = view.apply(paths, outstanding) else {
            return Err(AllocError);
        };
        views.push(view)?;
    }
    Ok(views)
}

// Returns what is outstanding in the initial state of `n` processors.
fn start_truth<A: Allocator + Copy>(
    alloc: A,
    graph: &Graph<A>,
    n: u32,
) -> Result<Delta<A>, AllocError>
    ensures { IfOk result (λ d. d ≡ truth (replicate n (start_processor graph.now))) }
{
    let processor = Processor::start(alloc, graph)?;
    let mut counted = tokens_counted(alloc, processor.tokens(), n)?;
    count_requests(&mut counted, processor.requests(), n)?;
    Ok(counted)
}

impl<A: Allocator + Copy> Cluster<A> {
    /// Starts a cluster of `n` processors: each token is at epoch 0, each opaque vertex that starts with a capability holds
    /// it at the first time, and each view counts what is outstanding.
    ///
    /// Drops the graph if the cluster does not start.
    pub fn start(alloc: A, graph: Graph<A>, n: u32) -> Result<Cluster<A>, StartFault>
        ensures ok { IfOk result (λ c. c ≡ started graph n) }
        ensures can { OnOk result (CanStart graph n) }
        ensures protocol { IfOk result (λ c. KeepsProtocol c) }
        ensures fault { IfErr result (IsStartFault graph n) }
    {
        starts_keep_protocol();
        if n == 0 || n > MAX_PROCESSORS as u32 {
            return Err(StartFault::BadCount);
        }
        // The clauses of these two say that edges join vertices, and that depths agree along the arcs.
        let _ = graph.vertices();
        let _ = graph.all_arcs();
        let paths = match Paths::of(alloc, &graph) {
            Ok(paths) => paths,
            Err(fault) => return Err(start_fault(fault)),
        };
        let Ok(outstanding) = start_truth(alloc, &graph, n) else {
            return Err(StartFault::Memory);
        };
        let Ok(processors) = start_processors(alloc, &graph, n) else {
            return Err(StartFault::Memory);
        };
        let Ok(views) = start_views(alloc, &paths, &outstanding, n) else {
            return Err(StartFault::Memory);
        };
        let Ok(mesh) = Mesh::new(alloc, n as usize) else {
            return Err(StartFault::Memory);
        };
        Ok(Cluster {
            alloc,
            parts: Parts::new(paths, processors, views, mesh),
        })
    }
}

//! The lists that a processor starts with, and copies of its lists.
ghost use Rattle.std.specs.Prelude.{◌≡◌, ◌<◌, ◌≤◌, IfOk, map, replicate};
ghost use Rattle.std.specs.FinMap.{from_entries};
ghost use Rattle.std.specs.Ordering.{nat_cmp};
ghost use Rattle.nd_map.specs.Counts.{none};
ghost use Rattle.nd_graph.specs.Checked.{is_input as takes_feeds};
ghost use Rattle.nd_processor.specs.State.{token_point as point_of};
ghost use Rattle.nd_time.specs.Limits.{max_depth};
ghost use Rattle.nd_processor.specs.Start.{first_tokens as tokens_from, first_requests as requests_from, first_point as first_point_of};

use nd_graph::{Graph, Op};
use nd_map::{GrowingMap, SortedMap};
use nd_paths::Pointstamp;
use nd_time::Timestamp;
use nd_time::limits::MAX_DEPTH;
use nd_vertex::VertexState;
use std::alloc::{AllocError, Allocator};

fn is_input(op: Op) -> bool
    ensures { result ≡ takes_feeds op }
{
    matches!(op, Op::Input)
}

// Returns a token at epoch 0 for each input.
pub(crate) fn first_tokens<A: Allocator>(
    alloc: A,
    graph: &Graph<A>,
) -> Result<SortedMap<usize, u32, A>, AllocError>
    ensures { IfOk result (λ m. from_entries m ≡ tokens_from 0 graph.now.vertices) }
{
    let vertices = graph.vertices();
    let mut tokens = SortedMap::new(alloc);
    let mut l = vertices.len();
    while l > 0 {
        l -= 1;
        if is_input(vertices[l].op) {
            let Ok(()) = tokens.put(&l, 0) else {
                return Err(AllocError);
            };
        }
    }
    Ok(tokens)
}

// Returns the first pointstamp of a vertex of this depth: epoch 0, and all counters 0.
fn first_point(location: usize, depth: usize) -> Pointstamp
    requires { depth ≤ max_depth }
    ensures { result ≡ first_point_of location depth }
{
    let zeros = [0; MAX_DEPTH];
    Pointstamp {
        location,
        time: Timestamp::new(0, &zeros[..depth]).unwrap(),
    }
}

// Returns a request at its first pointstamp for each vertex that starts with a capability.
pub(crate) fn first_requests<A: Allocator + Copy>(
    alloc: A,
    graph: &Graph<A>,
) -> Result<GrowingMap<Pointstamp, (), A>, AllocError>
    ensures { IfOk result (λ m. from_entries m ≡ requests_from 0 graph.now.vertices) }
{
    let vertices = graph.vertices();
    let depths = graph.depths();
    let mut requests = GrowingMap::new(alloc);
    let mut l = vertices.len();
    while l > 0 {
        l -= 1;
        if vertices[l].op.starts() {
            requests.put(&first_point(l, depths[l]), ())?;
        }
    }
    Ok(requests)
}

// Returns an empty state for each of `n` vertices.
pub(crate) fn no_items<A: Allocator + Copy>(
    alloc: A,
    n: usize,
) -> Result<Vec<VertexState<A>, A>, AllocError>
    ensures { IfOk result (λ v. v.items ≡ replicate n none) }
{
    let mut items = Vec::with_capacity(alloc, n)?;
    for _ in 0..n {
        items.push(VertexState::new(alloc))?;
    }
    Ok(items)
}

// Copies the state of each vertex.
pub(crate) fn copied_items<A: Allocator + Copy>(
    alloc: A,
    items: &[VertexState<A>],
) -> Result<Vec<VertexState<A>, A>, AllocError>
    ensures { IfOk result (λ v. v.items ≡ items.now) }
{
    let mut copied = Vec::with_capacity(alloc, items.len())?;
    for state in items {
        copied.push(state.copy(alloc)?)?;
    }
    Ok(copied)
}

/// Returns the pointstamp of an input vertex's token.
pub fn token_point(vertex: usize, epoch: u32) -> Pointstamp
    ensures { result ≡ point_of vertex epoch }
{
    Pointstamp {
        location: vertex,
        time: Timestamp::new(epoch, &[]).unwrap(),
    }
}

// Returns the pointstamps of tokens, in their order.
pub(crate) fn points_of<A: Allocator>(
    alloc: A,
    tokens: &[(usize, u32)],
) -> Result<Vec<Pointstamp, A>, AllocError>
    ensures { IfOk result (λ v. v.items ≡ map (λ e. point_of e.0 e.1) tokens.now) }
{
    let mut points = Vec::with_capacity(alloc, tokens.len())?;
    for token in tokens {
        points.push(token_point(token.0, token.1))?;
    }
    Ok(points)
}

//! Clusters at states that a search has found, and the ways there.
ghost use Rattle.std.specs.Prelude.{◌≡◌, ◌<◌, IfErr, IfOk, IsTrue, length};
ghost use Rattle.nd_reach.specs.Found.{IsSomewhere, IsStateAt, Walks, WereFound};
ghost use Rattle.nd_reach.specs.declared.fault.ReachFault.TheVariants.{Memory};

use crate::node::Node;
use crate::{ReachFault, Steps};
use nd_cluster::Cluster;
use std::alloc::{AllocError, Allocator};

// Returns a cluster at the state that was found at the place k, if a search began at the cluster `start`.
pub(crate) fn walker_at<A: Allocator + Copy>(
    alloc: A,
    start: &Cluster<A>,
    nodes: &[Node<A>],
    k: usize,
) -> Result<Cluster<A>, ReachFault>
    requires within { k < length nodes.now }
    requires found { WereFound start.now nodes.now }
    ensures err { IfErr result (λ e. e ≡ Memory) }
    ensures ok { IfOk result (IsStateAt start.now nodes.now k) }
{
    let node = &nodes[k];
    if let Some(saved) = &node.saved {
        return Ok(start.restored(alloc, saved)?);
    }
    let Some(record) = &node.made else {
        return Ok(start.copy(alloc)?);
    };
    let mut walker = walker_at(alloc, start, nodes, node.parent)?;
    walker.commit(record)?;
    Ok(walker)
}

// Walks from the state that was found at the place `from` to the one at the place `to`: undoes moves back to a state on
// the ways to both, and executes others from there. Returns whether that takes at most `most` moves; otherwise the walker's
// state is unspecified.
pub(crate) fn walk<A: Allocator + Copy>(
    nodes: &[Node<A>],
    walker: &mut Cluster<A>,
    from: usize,
    to: usize,
    most: u32,
) -> Result<bool, ReachFault>
    requires from { from < length nodes.now }
    requires to { to < length nodes.now }
    requires found { IsSomewhere nodes.now from walker.old }
    ensures err { IfErr result (λ e. e ≡ Memory) }
    ensures ok { IfOk result (λ b. IsTrue b → Walks nodes.now from to walker.old walker.new) }
{
    if from == to {
        return Ok(true);
    }
    if most == 0 {
        return Ok(false);
    }
    if from > to {
        let node = &nodes[from];
        let Some(record) = &node.made else {
            return Ok(false);
        };
        walker.back(record)?;
        return walk(nodes, walker, node.parent, to, most - 1);
    }
    let node = &nodes[to];
    let Some(record) = &node.made else {
        return Ok(false);
    };
    if !walk(nodes, walker, from, node.parent, most - 1)? {
        return Ok(false);
    }
    walker.commit(record)?;
    Ok(true)
}

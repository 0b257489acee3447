//! The way to a state that a search has found.
ghost use Rattle.std.specs.Prelude.{◌<◌, IfOk, length};
ghost use Rattle.nd_protocol.specs.State.{ClusterState};
ghost use Rattle.nd_reach.specs.Found.{IsWayAt, WereFound};

use crate::Steps;
use crate::node::Node;
use std::alloc::{AllocError, Allocator};

// Returns the steps of the way by which a search has found the state at the place k.
pub(crate) fn way_to<A: Allocator + Copy>(
    alloc: A,
    nodes: &[Node<A>],
    k: usize,
) -> Result<Steps<A>, AllocError>
    requires within { k < length nodes.now }
    requires found { (s : ClusterState) × WereFound s nodes.now }
    ensures { IfOk result (IsWayAt nodes.now k) }
{
    let mut steps = Steps::new(alloc);
    let mut at = k;
    while let Some(record) = &nodes[at].made {
        steps.push(record.step.copy(alloc)?)?;
        at = nodes[at].parent;
    }
    steps.reverse();
    Ok(steps)
}

//! Records executed and undone in the parts of a cluster.
ghost use Rattle.std.specs.Prelude.{◌≡◌, OnOk, OnErr};
ghost use Rattle.nd_protocol.specs.State.{ClusterState};
ghost use Rattle.nd_protocol.specs.Fitting.{IsState};
ghost use Rattle.nd_steps.specs.Records.{Makes, CameFrom, IsWhere, IsBackAt};

use crate::broadcast::{send, unsend};
use crate::receive::{receive, unreceive};
use crate::run::{make_all, undo_all};
use crate::{Changes, Record};
use nd_protocol::Parts;
use std::alloc::{AllocError, Allocator};

/// Applies the changes of `planned`. After an error the parts are as they were.
pub fn commit_record<A: Allocator + Copy>(
    parts: &mut Parts<A>,
    planned: &Record<A>,
) -> Result<(), AllocError>
    requires state { IsState parts.old }
    requires makes { (t : ClusterState) × Makes parts.old planned.now t }
    ensures ok { OnOk result (IsWhere (Makes parts.old planned.now) parts.new) }
    ensures err { OnErr result (parts.new ≡ parts.old) }
{
    if let Some(changes) = planned.taken() {
        return make_all(parts, &changes);
    }
    match &planned.changes {
        Changes::Each(_) | Changes::Flowed(_) | Changes::Fed(_) => {
            make_all(parts, &planned.keyed())
        }
        Changes::Sent { p, part } => send(parts, *p as usize, part),
        Changes::Received { from, to, change } => {
            receive(parts, *from as usize, *to as usize, change)
        }
    }
}

/// Undoes the changes of `made`, in the state to which they led. After an error the parts are as they were.
pub fn undo_record<A: Allocator + Copy>(
    alloc: A,
    parts: &mut Parts<A>,
    made: &Record<A>,
) -> Result<(), AllocError>
    requires { CameFrom (λ s. Makes s made.now parts.old) }
    ensures ok { OnOk result (IsBackAt (λ s. Makes s made.now parts.old) parts.new) }
    ensures err { OnErr result (parts.new ≡ parts.old) }
{
    if let Some(changes) = made.taken() {
        return undo_all(parts, &changes);
    }
    match &made.changes {
        Changes::Each(_) | Changes::Flowed(_) | Changes::Fed(_) => undo_all(parts, &made.keyed()),
        Changes::Sent { p, part } => unsend(parts, *p as usize, part),
        Changes::Received { from, to, change } => {
            unreceive(alloc, parts, *from as usize, *to as usize, change)
        }
    }
}

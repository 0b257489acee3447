//! Changes applied to the parts of a cluster, one after the other, and undone.
ghost use Rattle.std.specs.Prelude.{◌≡◌, OnOk, OnErr};
ghost use Rattle.nd_steps.specs.Changes.{at_key, inverse, made, applied, Fits, FindsNothing, IsRunnable};
ghost use Rattle.nd_steps.specs.Borrowed.{change_of, slot_of};
ghost use Rattle.nd_steps.specs.Records.{StartsRun, CameFrom, IsBackAt};

use crate::amounts::make_in;
use crate::change::ChangeRef;
use crate::listing::Listing;
use crate::slot::KeyRef;
use nd_protocol::Parts;
use std::alloc::{AllocError, Allocator};

// Adds `n` at a key of processor `p`'s maps. It takes no memory if the integer at the key is not 0.
fn add<A: Allocator + Copy>(
    parts: &mut Parts<A>,
    p: u32,
    key: &KeyRef<'_>,
    n: i128,
) -> Result<(), AllocError>
    requires { Fits parts.old (at_key p (slot_of key.now) n) }
    ensures ok { OnOk result (parts.new ≡ made parts.old (at_key p (slot_of key.now) n)) }
    ensures err { OnErr result (parts.new ≡ parts.old) }
    ensures absent { OnErr result (FindsNothing parts.old (at_key p (slot_of key.now) n)) }
{
    let processor = &mut parts.processors[p as usize];
    make_in(processor, key, n)
}

// Applies a change. It takes no memory if the integer at the place is not 0.
fn make<A: Allocator + Copy>(parts: &mut Parts<A>, change: &ChangeRef<'_>) -> Result<(), AllocError>
    requires { Fits parts.old (change_of change.now) }
    ensures ok { OnOk result (parts.new ≡ made parts.old (change_of change.now)) }
    ensures err { OnErr result (parts.new ≡ parts.old) }
    ensures absent { OnErr result (FindsNothing parts.old (change_of change.now)) }
{
    add(parts, change.p, &change.key, change.n)
}

// Undoes a change: applies its inverse. It takes no memory if the integer at the place is not 0.
fn undo<A: Allocator + Copy>(parts: &mut Parts<A>, change: &ChangeRef<'_>) -> Result<(), AllocError>
    requires { Fits parts.old (inverse (change_of change.now)) }
    ensures ok { OnOk result (parts.new ≡ made parts.old (inverse (change_of change.now))) }
    ensures err { OnErr result (parts.new ≡ parts.old) }
    ensures absent { OnErr result (FindsNothing parts.old (change_of change.now)) }
{
    add(parts, change.p, &change.key, change.opposite())
}

// Applies changes, one after the other. If memory runs out midway, it undoes those that it has applied, by
// removals.
pub(crate) fn make_all<A: Allocator + Copy, C: Listing>(
    parts: &mut Parts<A>,
    changes: &C,
) -> Result<(), AllocError>
    requires { IsRunnable parts.old (C.listed changes.now) }
    ensures ok { OnOk result (parts.new ≡ applied parts.old (C.listed changes.now)) }
    ensures err { OnErr result (parts.new ≡ parts.old) }
{
    let count = changes.len();
    for i in 0..count {
        let change = changes.at(i);
        let Ok(()) = make(parts, &change.borrowed()) else {
            for j in (0..i).rev() {
                let past = changes.at(j);
                let Ok(()) = undo(parts, &past.borrowed()) else {
                    return Err(AllocError);
                };
            }
            return Err(AllocError);
        };
    }
    Ok(())
}

// Undoes changes, from the last to the first. If memory runs out midway, it redoes those that it has undone.
pub(crate) fn undo_all<A: Allocator + Copy, C: Listing>(
    parts: &mut Parts<A>,
    changes: &C,
) -> Result<(), AllocError>
    requires { CameFrom (StartsRun (C.listed changes.now) parts.old) }
    ensures ok { OnOk result (IsBackAt (StartsRun (C.listed changes.now) parts.old) parts.new) }
    ensures err { OnErr result (parts.new ≡ parts.old) }
{
    let count = changes.len();
    for i in (0..count).rev() {
        let change = changes.at(i);
        let Ok(()) = undo(parts, &change.borrowed()) else {
            for j in i + 1..count {
                let past = changes.at(j);
                let Ok(()) = make(parts, &past.borrowed()) else {
                    return Err(AllocError);
                };
            }
            return Err(AllocError);
        };
    }
    Ok(())
}

//! The changes of a release: a held capability is dropped, moves to a later time, or stays beside one at a later time.
ghost use Rattle.std.specs.Prelude.{◌≡◌, IfOk, OnOk};
ghost use Rattle.nd_steps.specs.Drafts.{gone_changes, later_changes};
ghost use Rattle.nd_steps.specs.Performers.{Adds, found_released, ReleaseLeads};

use crate::draft::Draft;
use crate::{Change, Performer, Slot};
use nd_paths::Pointstamp;
use nd_protocol::{Later, Times};
use std::alloc::{AllocError, Allocator};

// Removes the request, unless it stays beside one at a later time.
fn add_gone<A: Allocator + Copy>(
    draft: &mut Draft<A>,
    vertex: usize,
    times: &Times,
) -> Result<(), AllocError>
    ensures { OnOk result (Adds draft.old draft.new
        (gone_changes draft.old.p vertex times.now)) }
{
    if times.keeps() {
        return Ok(());
    }
    let point = Pointstamp {
        location: vertex,
        time: times.time.copy(),
    };
    draft.add(Slot::Request(point.copy()), -1)?;
    draft.add(Slot::Unsent(point), -1)
}

// Adds the request at the later time, if there is such a time and the request is new.
fn add_later<A: Allocator + Copy>(
    draft: &mut Draft<A>,
    vertex: usize,
    to: &Option<Later>,
    asks: bool,
) -> Result<(), AllocError>
    ensures { OnOk result (Adds draft.old draft.new
        (later_changes draft.old.p vertex to.now asks)) }
{
    let Some(to) = to else {
        return Ok(());
    };
    let point = Pointstamp {
        location: vertex,
        time: to.time.copy(),
    };
    draft.ask(&point, asks)
}

// Lists the changes of a release, as they are found: the request is removed or kept, and the later one may be added.
fn release_draft<A: Allocator + Copy, B: Allocator>(
    alloc: A,
    by: &Performer<'_, B>,
    times: &Times,
    asks: bool,
) -> Result<Draft<A>, AllocError>
    ensures { IfOk result (λ d. d.changes.items ≡ found_released by.now times.now asks) }
{
    let mut draft = Draft::new(alloc, by.p);
    add_gone(&mut draft, by.vertex, times)?;
    add_later(&mut draft, by.vertex, &times.to, asks)?;
    Ok(draft)
}

/// Returns the changes of a release, if it passes all tests but those of the limits; `asks` says whether the later request is new.
pub fn release_changes<A: Allocator + Copy, B: Allocator>(
    alloc: A,
    by: &Performer<'_, B>,
    times: &Times,
    asks: bool,
) -> Result<Vec<Change, A>, AllocError>
    ensures { IfOk result (λ v. ReleaseLeads A by.now times.now asks v.items) }
{
    let draft = release_draft(alloc, by, times, asks)?;
    draft.join()
}

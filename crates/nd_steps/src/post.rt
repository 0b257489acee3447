//! The changes of a send: its records arrive, and the capability stays.
ghost use Rattle.std.specs.Prelude.{◌≡◌, ◌<◌, IfOk};
ghost use Rattle.nd_steps.specs.Performers.{found_posted, PostLeads};

use crate::draft::Draft;
use crate::emit::{Outgoing, emit_values};
use crate::{Change, Performer};
use nd_protocol::Batch;
use std::alloc::{AllocError, Allocator};

// Lists the changes of a send, as they are found.
fn post_draft<A: Allocator + Copy, B: Allocator>(
    alloc: A,
    by: &Performer<'_, B>,
    batch: &Batch<A>,
) -> Result<Draft<A>, AllocError>
    requires { by.now.p < by.now.n }
    ensures { IfOk result (λ d. d.changes.items ≡ found_posted by.now batch.now) }
{
    let outgoing = Outgoing {
        port: batch.port,
        time: batch.records_time(),
        values: batch.values.as_slice(),
        dest: batch.dest,
    };
    let mut draft = Draft::new(alloc, by.p);
    emit_values(by, &outgoing, &mut draft)?;
    Ok(draft)
}

/// Returns the changes of a send, if it passes all tests but those of the limits and those after them.
pub fn post_changes<A: Allocator + Copy, B: Allocator>(
    alloc: A,
    by: &Performer<'_, B>,
    batch: &Batch<A>,
) -> Result<Vec<Change, A>, AllocError>
    requires { by.now.p < by.now.n }
    ensures { IfOk result (λ v. PostLeads by.now batch.now v.items) }
{
    let draft = post_draft(alloc, by, batch)?;
    draft.join()
}

//! The changes of a feed: its records arrive, and the token moves (Naiad, SOSP 2013, section 2.2).
ghost use Rattle.std.specs.Prelude.{◌≡◌, ◌<◌, ◌≤◌, ◌-ℤ◌, FitsSigned, IfOk, OnOk, pos, negsuc};
ghost use Rattle.std.specs.Int.{w128};
ghost use Rattle.nd_time.specs.Limits.{max_counter};
ghost use Rattle.nd_graph.specs.Graph.{op_at};
ghost use Rattle.nd_graph.specs.declared.op.Op.TheVariants as operator;
ghost use Rattle.nd_protocol.specs.Ranges.{NextIsSmall};
ghost use Rattle.nd_protocol.specs.declared.step.Next.TheVariants as token;
ghost use Rattle.nd_steps.specs.Drafts.{token_changes};
ghost use Rattle.nd_steps.specs.Performers.{Adds, found_fed, FeedLeads};

use crate::draft::Draft;
use crate::emit::{Outgoing, emit_values};
use crate::{Change, Performer, Slot};
use nd_processor::token_point;
use nd_protocol::Next;
use nd_time::Timestamp;
use std::alloc::{AllocError, Allocator};

/// Values that are fed into an input vertex at the epoch of its token, and where the token moves.
#[derive(Drop)]
pub struct Fed<'a> {
    pub epoch: u32,
    pub values: &'a [i64],
    pub next: Next,
}

// Returns the number that is added when a token is dropped.
fn closes(epoch: u32) -> i128
    ensures value { result ≡ negsuc epoch }
    ensures fits { FitsSigned w128 result }
{
    -1 - i128::from(epoch)
}

// Returns the number that is added when a token moves to epoch `n`.
pub(crate) fn moves(epoch: u32, n: u32) -> i128
    ensures value { result ≡ pos n -ℤ pos epoch }
    ensures fits { FitsSigned w128 result }
{
    i128::from(n) - i128::from(epoch)
}

// Adds the changes that move the token.
fn add_token<A: Allocator + Copy>(
    draft: &mut Draft<A>,
    vertex: usize,
    epoch: u32,
    next: Next,
) -> Result<(), AllocError>
    requires { next ≡ token.Next → epoch < max_counter }
    ensures adds { OnOk result (Adds draft.old draft.new
        (token_changes draft.old.p vertex epoch next)) }
    ensures fits { epoch ≤ max_counter }
    ensures goes_to { NextIsSmall next }
{
    match next {
        Next::Stay => Ok(()),
        Next::Close => {
            draft.add(Slot::Token(vertex), closes(epoch))?;
            draft.add(Slot::Unsent(token_point(vertex, epoch)), -1)
        }
        Next::Next => {
            draft.add(Slot::Token(vertex), 1)?;
            draft.add(Slot::Unsent(token_point(vertex, epoch)), -1)?;
            draft.add(Slot::Unsent(token_point(vertex, epoch + 1)), 1)
        }
        Next::To(n) => {
            draft.add(Slot::Token(vertex), moves(epoch, n))?;
            draft.add(Slot::Unsent(token_point(vertex, epoch)), -1)?;
            draft.add(Slot::Unsent(token_point(vertex, n)), 1)
        }
    }
}

// Lists the changes of a feed, as they are found.
fn feed_draft<A: Allocator + Copy, B: Allocator>(
    alloc: A,
    by: &Performer<'_, B>,
    fed: &Fed<'_>,
) -> Result<Draft<A>, AllocError>
    requires there { by.now.p < by.now.n }
    requires goes { fed.now.next ≡ token.Next → fed.now.epoch < max_counter }
    ensures changes { IfOk result (λ d. d.changes.items ≡ found_fed by.now fed.now) }
    ensures fits { OnOk result (fed.now.epoch ≤ max_counter) }
    ensures goes_to { OnOk result (NextIsSmall fed.now.next) }
{
    let mut draft = Draft::new(alloc, by.p);
    add_token(&mut draft, by.vertex, fed.epoch, fed.next)?;
    let time = Timestamp::new(fed.epoch, &[]).unwrap();
    let outgoing = Outgoing {
        port: 0,
        time: &time,
        values: fed.values,
        dest: None,
    };
    emit_values(by, &outgoing, &mut draft)?;
    Ok(draft)
}

/// Returns the changes of a feed, if it passes all tests but those of the limits.
pub fn feed_changes<A: Allocator + Copy, B: Allocator>(
    alloc: A,
    by: &Performer<'_, B>,
    fed: &Fed<'_>,
) -> Result<Vec<Change, A>, AllocError>
    requires there { by.now.p < by.now.n }
    requires input { op_at by.now.graph.now by.now.vertex ≡ operator.Input }
    requires goes { fed.now.next ≡ token.Next → fed.now.epoch < max_counter }
    ensures { IfOk result (λ v. FeedLeads A by.now fed.now v.items) }
{
    let draft = feed_draft(alloc, by, fed)?;
    draft.join()
}

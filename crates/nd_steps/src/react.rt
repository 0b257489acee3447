//! The changes of a take and a notice: a record or a request is removed, and the vertex does what its
//! operator says.
ghost use Rattle.std.specs.Prelude.{◌≡◌, ◌<◌, All, IfOk, OnOk};
ghost use Rattle.nd_steps.specs.Drafts.{HasValues};
ghost use Rattle.nd_steps.specs.Performers.{found_taken, found_noticed, TakeLeads, NoticeLeads};

use crate::draft::Draft;
use crate::emit::emit_all;
use crate::{Change, Performer, Slot};
use nd_paths::Pointstamp;
use nd_processor::{SinkKey, ValueAt};
use nd_time::Timestamp;
use nd_vertex::Effect;
use std::alloc::{AllocError, Allocator};

/// A record that is taken, its effect, and whether the effect makes a request that was not there.
pub struct Taken<'a, A: Allocator> {
    pub key: &'a ValueAt,
    pub effect: &'a Effect<A>,
    pub asks: bool,
}

impl<'a, A: Allocator> Drop for Taken<'a, A> {
    fn drop(self) {
        let Taken {
            key: _,
            effect: _,
            asks: _,
        } = self;
    }
}

// Lists the changes of a take, as they are found: the record is removed, and its target has the effect.
fn take_draft<A: Allocator + Copy, B: Allocator>(
    alloc: A,
    by: &Performer<'_, B>,
    taken: &Taken<'_, A>,
) -> Result<Draft<A>, AllocError>
    requires { by.now.p < by.now.n }
    ensures changes { IfOk result (λ d. d.changes.items ≡ found_taken by.now taken.now) }
    ensures values { OnOk result (All HasValues taken.now.effect.now.items.items) }
{
    let key = taken.key;
    let point = Pointstamp {
        location: by.vertex,
        time: key.point.time.copy(),
    };
    let sink = SinkKey {
        vertex: by.vertex,
        value: key.value,
    };
    let mut draft = Draft::new(alloc, by.p);
    draft.add(Slot::Records(key.copy()), -1)?;
    draft.add(Slot::Unsent(key.point.copy()), -1)?;
    draft.ask(&point, taken.asks)?;
    draft.add_items(by.vertex, &taken.effect.items)?;
    draft.count(sink, taken.effect.sink)?;
    emit_all(by, &taken.effect.emits, &mut draft)?;
    Ok(draft)
}

// Lists the changes of a notice, as they are found: the request is removed, and its vertex has the effect.
fn notice_draft<A: Allocator + Copy, B: Allocator>(
    alloc: A,
    by: &Performer<'_, B>,
    time: &Timestamp,
    effect: &Effect<A>,
) -> Result<Draft<A>, AllocError>
    requires { by.now.p < by.now.n }
    ensures changes { IfOk result (λ d. d.changes.items
        ≡ found_noticed by.now time.now effect.now) }
    ensures values { OnOk result (All HasValues effect.now.items.items) }
{
    let point = Pointstamp {
        location: by.vertex,
        time: time.copy(),
    };
    let mut draft = Draft::new(alloc, by.p);
    draft.add(Slot::Request(point.copy()), -1)?;
    draft.add(Slot::Unsent(point), -1)?;
    draft.add_items(by.vertex, &effect.items)?;
    emit_all(by, &effect.emits, &mut draft)?;
    Ok(draft)
}

/// Returns the changes of a take, if it passes all tests but those of the limits.
pub fn take_changes<A: Allocator + Copy, B: Allocator>(
    alloc: A,
    by: &Performer<'_, B>,
    taken: &Taken<'_, A>,
) -> Result<Vec<Change, A>, AllocError>
    requires { by.now.p < by.now.n }
    ensures { IfOk result (λ v. TakeLeads by.now taken.now v.items) }
{
    let draft = take_draft(alloc, by, taken)?;
    draft.join()
}

/// Returns the changes of a notice, if it passes all tests but those of the limits.
pub fn notice_changes<A: Allocator + Copy, B: Allocator>(
    alloc: A,
    by: &Performer<'_, B>,
    time: &Timestamp,
    effect: &Effect<A>,
) -> Result<Vec<Change, A>, AllocError>
    requires { by.now.p < by.now.n }
    ensures { IfOk result (λ v. NoticeLeads by.now time.now effect.now v.items) }
{
    let draft = notice_draft(alloc, by, time, effect)?;
    draft.join()
}

//! Replies that are gathered one after another, and written together.
ghost use Rattle.std.specs.Prelude.{◌≡◌, ◌<◌, ◌∷◌, [], ℕ, List, false, length, is_err, IfErr, OnOk, OnErr};
ghost use Rattle.serde_json.specs.Data.{Data};
ghost use Rattle.rewind_options.specs.Faults.{is_write_fault};
ghost use Rattle.rewind_sessions.specs.Gathered.{Gathered, GatherFails, GathersMore, IsOfWriting};
ghost use Rattle.rewind_sessions.specs.Written.{WroteFront};

use rewind_lines::{Outbox, Sink, Unwritten};
use rewind_options::DebugFault;
use rewind_replies::{Names, Shown, text_of};
use std::alloc::Global;

/// Writes the replies that wait.
pub fn flush<T: Sink>(outbox: &mut Outbox, sink: &mut T) -> Result<(), Unwritten>
    requires sound { T.failed sink.old ≡ false }
    ensures ok { OnOk result ((replies : List Data) (before : List ℕ)
        → Gathered replies outbox.old before (T.contents sink.old)
        → Gathered replies outbox.new before (T.contents sink.new)) }
    ensures none { OnOk result (outbox.new ≡ []) }
    ensures err { OnErr result ((replies : List Data) (before : List ℕ)
        → Gathered replies outbox.old before (T.contents sink.old)
        → WroteFront replies before (T.contents sink.new)) }
    ensures failed { T.failed sink.new ≡ is_err result }
{
    outbox.flush(sink)
}

/// Gathers one more reply, with these names, and writes all waiting replies if they are many: afterwards
/// fewer than 65,536 bytes wait.
pub fn put<T: Sink, N: Names, V: Shown>(
    alloc: Global,
    outbox: &mut Outbox,
    sink: &mut T,
    names: &N,
    reply: &V,
) -> Result<(), DebugFault>
    requires sound { T.failed sink.old ≡ false }
    ensures ok { OnOk result (GathersMore (V.shown (N.graph names.now) reply.now ∷ [])
        outbox.old (T.contents sink.old) outbox.new (T.contents sink.new)) }
    ensures err { IfErr result (λ e. (replies : List Data) (before : List ℕ)
        → Gathered replies outbox.old before (T.contents sink.old)
        → GatherFails replies (V.shown (N.graph names.now) reply.now)
        outbox.new before (T.contents sink.new) e) }
    ensures few { OnOk result (length outbox.new < 65536) }
    ensures kind { IfErr result IsOfWriting }
    ensures failed { T.failed sink.new ≡ is_write_fault result }
{
    let text = text_of(alloc, names, reply)?;
    outbox.add_text(text)?;
    if outbox.is_full() {
        flush(outbox, sink)?;
    }
    Ok(())
}

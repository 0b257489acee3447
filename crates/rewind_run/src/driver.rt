//! A script from a source of bytes, its replies to a sink of bytes.
ghost use Rattle.std.specs.Prelude.{◌≡◌, ◌≢◌, ◌+◌, ◌-◌, ◌<◌, ◌≤◌, ◌^◌, ℕ, List, Some, false, true, IfErr, OnOk};
ghost use Rattle.nd_time.specs.Limits.{max_input};
ghost use Rattle.rewind_options.specs.Faults.{is_read_fault, is_write_fault};
ghost use Rattle.rewind_run.specs.Script.{Ends, Takes};

use crate::run::Run;
use nd_time::limits::MAX_INPUT;
use rewind_lines::{CHUNK, Sink, Source, front, read_into};
use rewind_options::{DebugFault, Options};
use std::alloc::Global;
use std::thread::Threads;

/// Runs the script of one client, and returns the number of lines that were replied to.
///
/// At most `MAX_INPUT` bytes are processed; one more ends the run with `TooLong`, so even an endless
/// source ends it. A refused graph ends the run with `Graph`. The replies to complete lines are written
/// before more is read. The call never returns `Script` or `Close`, which belong to scripts of several
/// clients. Only searches start threads.
pub fn debug<R: Threads + Sync, S: Source, T: Sink>(
    rt: &R,
    alloc: Global,
    source: &mut S,
    sink: &mut T,
    options: &Options,
) -> Result<u64, DebugFault>
    requires goes_on { S.ended source.old ≡ false }
    requires unfailed { S.failed source.old ≡ false }
    requires few { S.given source.old + max_input + 1 < 2 ^ 64 }
    requires sound { T.failed sink.old ≡ false }
    ensures run { (input before : List ℕ)
        → S.remaining source.old ≡ Some input → T.contents sink.old ≡ Some before
        → Ends options.now.processors max_input input (S.remaining source.new)
        before (T.contents sink.new) result }

    // How many bytes are taken, even from a source whose bytes are unknown; all lines are answered only if
    // the source has ended.
    ensures takes { Takes max_input result (S.given source.new - S.given source.old) }
    ensures ended { OnOk result (S.ended source.new ≡ true) }

    // Read and Write are returned exactly if the source or the sink failed.
    ensures read { S.failed source.new ≡ is_read_fault result }
    ensures write { T.failed sink.new ≡ is_write_fault result }
    ensures one_client { IfErr result (λ e. (e ≢ DebugFault.Script) × (e ≢ DebugFault.Close)) }
{
    debug_within(rt, alloc, source, sink, options, MAX_INPUT)
}

/// Does the same with a script of at most `limit` bytes.
pub fn debug_within<R: Threads + Sync, S: Source, T: Sink>(
    rt: &R,
    alloc: Global,
    source: &mut S,
    sink: &mut T,
    options: &Options,
    limit: usize,
) -> Result<u64, DebugFault>
    requires limit { limit < 2 ^ 63 }
    requires goes_on { S.ended source.old ≡ false }
    requires unfailed { S.failed source.old ≡ false }
    requires few { S.given source.old + limit + 1 < 2 ^ 64 }
    requires sound { T.failed sink.old ≡ false }
    ensures run { (input before : List ℕ)
        → S.remaining source.old ≡ Some input → T.contents sink.old ≡ Some before
        → Ends options.now.processors limit input (S.remaining source.new)
        before (T.contents sink.new) result }
    ensures takes { Takes limit result (S.given source.new - S.given source.old) }
    ensures ended { OnOk result (S.ended source.new ≡ true) }
    ensures read { S.failed source.new ≡ is_read_fault result }
    ensures write { T.failed sink.new ≡ is_write_fault result }
    ensures one_client { IfErr result (λ e. (e ≢ DebugFault.Script) × (e ≢ DebugFault.Close)) }
{
    let mut run = Run::new(alloc, options.processors);
    let mut room = vec![in alloc; 0u8; CHUNK]?;
    let chunk = room.as_mut_slice();
    let mut left = limit;
    'reads: loop {
        // The byte past the limit shows that the input is longer.
        let most = CHUNK.min(left + 1);
        let n = read_into(source, chunk, most)?;
        if n == 0 {
            run.finish(rt, sink)?;
            return Ok(run.replied());
        }
        if n > left {
            run.feed(rt, front(chunk, left), sink)?;
            return Err(DebugFault::TooLong);
        }
        run.feed(rt, front(chunk, n), sink)?;
        left -= n;
    }
}

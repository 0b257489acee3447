//! A script of several clients from a source of bytes, its replies to a sink of bytes.
ghost use Rattle.std.specs.Prelude.{◌≡◌, ◌+◌, ◌-◌, ◌<◌, ◌^◌, ℕ, List, Some, false, true, IfErr, OnOk};
ghost use Rattle.nd_time.specs.Limits.{max_input};
ghost use Rattle.rewind_options.specs.Faults.{is_write_fault, is_read_fault};
ghost use Rattle.rewind_clients.specs.Clients.{Ends, Takes, Writes};
ghost use Rattle.rewind_clients.specs.Readers.{IsOfAnswering};
ghost use Rattle.rewind_clients.specs.Intakes.{intake_view, script_view};

use crate::intake::{Intake, ReadScript};
use crate::reader::read_script;
use nd_history::Gate;
use nd_time::limits::MAX_INPUT;
use rewind_lines::{Sink, Source};
use rewind_options::{DebugFault, Options};
use rewind_sessions::{drive_session, write_log, write_opening, write_reply, write_version};
use std::alloc::Global;
use std::sync::Wait;
use std::thread::Threads;

// Writes the replies to a script that was read completely: to the version line, if there was one,
// to the graph's line, and then to the clients' commands.
fn answer_script<R: Threads + Wait + Sync, T: Sink, G: Gate>(
    rt: &R,
    alloc: Global,
    sink: &mut T,
    script: ReadScript,
    gate: &G,
) -> Result<(), DebugFault>
    requires sound { T.failed sink.old ≡ false }
    ensures run { (before : List ℕ) → T.contents sink.old ≡ Some before
        → Writes (script_view script) before (T.contents sink.new) result }
    ensures kind { IfErr result IsOfAnswering }
    ensures write { T.failed sink.new ≡ is_write_fault result }
{
    // This call's clauses say that the `State` began at an initial state.
    let _ = script.state.timeline();
    write_opening(alloc, sink, script.opened, &script.reply)?;
    let driven = drive_session(rt, alloc, script.state, script.commands, gate)?;
    write_log(
        alloc,
        sink,
        driven.log.timeline.cluster().graph(),
        driven.log.entries.as_slice(),
        driven.faults.as_slice(),
    )
}

// Writes the replies to the lines of a script.
fn answer<R: Threads + Wait + Sync, T: Sink, G: Gate>(
    rt: &R,
    alloc: Global,
    sink: &mut T,
    intake: Intake,
    gate: &G,
) -> Result<(), DebugFault>
    requires sound { T.failed sink.old ≡ false }
    ensures run { (before : List ℕ) → T.contents sink.old ≡ Some before
        → Writes (intake_view intake) before (T.contents sink.new) result }
    ensures kind { IfErr result IsOfAnswering }
    ensures write { T.failed sink.new ≡ is_write_fault result }
{
    match intake {
        Intake::Unstarted(opened) => write_version(alloc, sink, opened),
        Intake::Refused(reply) => {
            write_reply(alloc, sink, &reply)?;
            Err(DebugFault::Graph)
        }
        Intake::Faulty(fault) => {
            write_reply(alloc, sink, &fault)?;
            Err(DebugFault::Script)
        }
        Intake::Whole(script) => answer_script(rt, alloc, sink, script, gate),
    }
}

/// Runs the script of several clients, each client's commands on a thread of its own.
///
/// The complete script is read first, at most `MAX_INPUT` bytes. If reading fails, nothing is
/// written. If a line is faulty, only the reply to the first faulty line is written, and no command
/// is executed. Otherwise the reply to the version line, if there is one, and the reply to the
/// graph's line are written. After all clients have stopped, the entries of the log follow, and a
/// line for each client with a command that the session refused. The gate is called before each
/// command, with the numbers of the client and of the command.
pub fn debug_clients<R: Threads + Wait + Sync, S: Source, T: Sink, G: Gate>(
    rt: &R,
    alloc: Global,
    source: &mut S,
    sink: &mut T,
    options: &Options,
    gate: &G,
) -> Result<(), DebugFault>
    requires goes_on { S.ended source.old ≡ false }
    requires unfailed { S.failed source.old ≡ false }
    requires few { S.given source.old + max_input + 1 < 2 ^ 64 }
    requires sound { T.failed sink.old ≡ false }
    ensures run { (input before : List ℕ)
        → S.remaining source.old ≡ Some input → T.contents sink.old ≡ Some before
        → Ends options.now.processors options.now.clients max_input
        input (S.remaining source.new) before (T.contents sink.new) result }

    // How many bytes are taken, even from a source whose bytes are unknown; all of them if the
    // source has ended.
    ensures takes { Takes max_input result (S.given source.new - S.given source.old) }
    ensures ended { OnOk result (S.ended source.new ≡ true) }

    // Read and Write are returned exactly if the source or the sink failed.
    ensures read { S.failed source.new ≡ is_read_fault result }
    ensures write { T.failed sink.new ≡ is_write_fault result }
{
    debug_clients_within(rt, alloc, source, sink, options, gate, MAX_INPUT)
}

/// Does the same with a script of at most `limit` bytes.
pub fn debug_clients_within<R: Threads + Wait + Sync, S: Source, T: Sink, G: Gate>(
    rt: &R,
    alloc: Global,
    source: &mut S,
    sink: &mut T,
    options: &Options,
    gate: &G,
    limit: usize,
) -> Result<(), DebugFault>
    requires limit { limit < 2 ^ 63 }
    requires goes_on { S.ended source.old ≡ false }
    requires unfailed { S.failed source.old ≡ false }
    requires few { S.given source.old + limit + 1 < 2 ^ 64 }
    requires sound { T.failed sink.old ≡ false }
    ensures run { (input before : List ℕ)
        → S.remaining source.old ≡ Some input → T.contents sink.old ≡ Some before
        → Ends options.now.processors options.now.clients limit
        input (S.remaining source.new) before (T.contents sink.new) result }
    ensures takes { Takes limit result (S.given source.new - S.given source.old) }
    ensures ended { OnOk result (S.ended source.new ≡ true) }
    ensures read { S.failed source.new ≡ is_read_fault result }
    ensures write { T.failed sink.new ≡ is_write_fault result }
{
    let intake = read_script(alloc, source, options, limit)?;
    answer(rt, alloc, sink, intake, gate)
}

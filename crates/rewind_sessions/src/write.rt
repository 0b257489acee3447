//! The replies to the clients, as lines.
ghost use Rattle.std.specs.Prelude.{◌≡◌, ◌∷◌, [], false, map, IfErr, OnOk};
ghost use Rattle.rewind_replies.specs.Errors.{no_graph};
ghost use Rattle.rewind_options.specs.Faults.{is_write_fault};
ghost use Rattle.rewind_sessions.specs.Openings.{opening_data, version_replies};
ghost use Rattle.rewind_sessions.specs.Gathered.{GathersMore, IsOfWriting, StopsAmong, WritesAll, WritingStops};
ghost use Rattle.rewind_sessions.specs.Runs.{entry_data, faults_data, lines_data};

use crate::gather::{flush, put};
use nd_graph::Graph;
use nd_session::{Receipt, SessionFault};
use rewind_forms::Version;
use rewind_lines::{Outbox, Sink};
use rewind_options::DebugFault;
use rewind_replies::{GraphReply, NoNames, Shown, object};
use std::alloc::Global;

/// Gathers the lines of the entries of a log.
pub fn put_log<T: Sink>(
    alloc: Global,
    outbox: &mut Outbox,
    sink: &mut T,
    graph: &Graph,
    log: &[Receipt],
) -> Result<(), DebugFault>
    requires sound { T.failed sink.old ≡ false }
    ensures ok { OnOk result (GathersMore (map (entry_data graph.now) log.now)
        outbox.old (T.contents sink.old) outbox.new (T.contents sink.new)) }
    ensures err { IfErr result (StopsAmong (map (entry_data graph.now) log.now)
        outbox.old (T.contents sink.old) (T.contents sink.new)) }
    ensures kind { IfErr result IsOfWriting }
    ensures failed { T.failed sink.new ≡ is_write_fault result }
{
    for entry in log {
        let Receipt {
            client,
            number,
            reply,
            ..
        } = entry;
        let line = object! {"client": *client, "number": *number, "reply": reply};
        put(alloc, outbox, sink, graph, &line)?;
    }
    Ok(())
}

// Gathers the line of a client's error, if it had one.
fn put_fault<T: Sink>(
    alloc: Global,
    outbox: &mut Outbox,
    sink: &mut T,
    client: u64,
    fault: &Option<SessionFault>,
) -> Result<(), DebugFault>
    requires sound { T.failed sink.old ≡ false }
    ensures ok { OnOk result (GathersMore (faults_data client (fault.now ∷ []))
        outbox.old (T.contents sink.old) outbox.new (T.contents sink.new)) }
    ensures err { IfErr result (StopsAmong (faults_data client (fault.now ∷ []))
        outbox.old (T.contents sink.old) (T.contents sink.new)) }
    ensures kind { IfErr result IsOfWriting }
    ensures failed { T.failed sink.new ≡ is_write_fault result }
{
    let Some(fault) = fault else {
        return Ok(());
    };
    let code = fault.code();
    let line = object! {"client": client, "code": code.number(), "error": code.name()};
    put(alloc, outbox, sink, &NoNames, &line)?;
    Ok(())
}

/// Gathers the lines of the clients' errors.
pub fn put_faults<T: Sink>(
    alloc: Global,
    outbox: &mut Outbox,
    sink: &mut T,
    faults: &[Option<SessionFault>],
) -> Result<(), DebugFault>
    requires sound { T.failed sink.old ≡ false }
    ensures ok { OnOk result (GathersMore (faults_data 0 faults.now)
        outbox.old (T.contents sink.old) outbox.new (T.contents sink.new)) }
    ensures err { IfErr result (StopsAmong (faults_data 0 faults.now)
        outbox.old (T.contents sink.old) (T.contents sink.new)) }
    ensures kind { IfErr result IsOfWriting }
    ensures failed { T.failed sink.new ≡ is_write_fault result }
{
    for (client, fault) in faults.iter().enumerate() {
        put_fault(alloc, outbox, sink, client as u64, fault)?;
    }
    Ok(())
}

/// Writes one reply.
pub fn write_reply<T: Sink, V: Shown>(
    alloc: Global,
    sink: &mut T,
    reply: &V,
) -> Result<(), DebugFault>
    requires sound { T.failed sink.old ≡ false }
    ensures ok { OnOk result (WritesAll (V.shown no_graph reply.now ∷ [])
        (T.contents sink.old) (T.contents sink.new)) }
    ensures err { IfErr result (WritingStops (V.shown no_graph reply.now ∷ [])
        (T.contents sink.old) (T.contents sink.new)) }
    ensures kind { IfErr result IsOfWriting }
    ensures failed { T.failed sink.new ≡ is_write_fault result }
{
    let mut outbox = Outbox::new(alloc);
    put(alloc, &mut outbox, sink, &NoNames, reply)?;
    flush(&mut outbox, sink)?;
    Ok(())
}

// Gathers the reply to the version line, if there was one.
fn put_version<T: Sink>(
    alloc: Global,
    outbox: &mut Outbox,
    sink: &mut T,
    opened: Option<Version>,
) -> Result<(), DebugFault>
    requires sound { T.failed sink.old ≡ false }
    ensures ok { OnOk result (GathersMore (version_replies opened)
        outbox.old (T.contents sink.old) outbox.new (T.contents sink.new)) }
    ensures err { IfErr result (StopsAmong (version_replies opened)
        outbox.old (T.contents sink.old) (T.contents sink.new)) }
    ensures kind { IfErr result IsOfWriting }
    ensures failed { T.failed sink.new ≡ is_write_fault result }
{
    let Some(version) = opened else {
        return Ok(());
    };
    let line = object! {"ok": true, "version": version.number()};
    put(alloc, outbox, sink, &NoNames, &line)?;
    Ok(())
}

/// Writes the reply to the version line, if there was one.
pub fn write_version<T: Sink>(
    alloc: Global,
    sink: &mut T,
    opened: Option<Version>,
) -> Result<(), DebugFault>
    requires sound { T.failed sink.old ≡ false }
    ensures ok { OnOk result (WritesAll (version_replies opened)
        (T.contents sink.old) (T.contents sink.new)) }
    ensures err { IfErr result (WritingStops (version_replies opened)
        (T.contents sink.old) (T.contents sink.new)) }
    ensures kind { IfErr result IsOfWriting }
    ensures failed { T.failed sink.new ≡ is_write_fault result }
{
    let mut outbox = Outbox::new(alloc);
    put_version(alloc, &mut outbox, sink, opened)?;
    flush(&mut outbox, sink)?;
    Ok(())
}

/// Writes the reply to the version line, if there was one, and the graph's.
pub fn write_opening<T: Sink>(
    alloc: Global,
    sink: &mut T,
    opened: Option<Version>,
    graph: &GraphReply,
) -> Result<(), DebugFault>
    requires sound { T.failed sink.old ≡ false }
    ensures ok { OnOk result (WritesAll (opening_data opened graph.now)
        (T.contents sink.old) (T.contents sink.new)) }
    ensures err { IfErr result (WritingStops (opening_data opened graph.now)
        (T.contents sink.old) (T.contents sink.new)) }
    ensures kind { IfErr result IsOfWriting }
    ensures failed { T.failed sink.new ≡ is_write_fault result }
{
    let mut outbox = Outbox::new(alloc);
    put_version(alloc, &mut outbox, sink, opened)?;
    put(alloc, &mut outbox, sink, &NoNames, graph)?;
    flush(&mut outbox, sink)?;
    Ok(())
}

/// Writes the lines of a log, and of the clients' errors.
pub fn write_log<T: Sink>(
    alloc: Global,
    sink: &mut T,
    graph: &Graph,
    log: &[Receipt],
    faults: &[Option<SessionFault>],
) -> Result<(), DebugFault>
    requires sound { T.failed sink.old ≡ false }
    ensures ok { OnOk result (WritesAll (lines_data graph.now log.now faults.now)
        (T.contents sink.old) (T.contents sink.new)) }
    ensures err { IfErr result (WritingStops (lines_data graph.now log.now faults.now)
        (T.contents sink.old) (T.contents sink.new)) }
    ensures kind { IfErr result IsOfWriting }
    ensures failed { T.failed sink.new ≡ is_write_fault result }
{
    let mut outbox = Outbox::new(alloc);
    put_log(alloc, &mut outbox, sink, graph, log)?;
    put_faults(alloc, &mut outbox, sink, faults)?;
    flush(&mut outbox, sink)?;
    Ok(())
}

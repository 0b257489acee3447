//! Each request for memory of a session's calls refused in turn: the call that meets the refusal returns out of memory,
//! and the session goes on without it.

use crate::opened::{Asked, NOTHING, command_of, session_of};
use crate::timelines::memory::Heap;
use nd_cluster::Next;
use nd_examples::{LINE, StepLine, graph_of, is_state, state_text};
use nd_graph::Graph;
use nd_replies::{Fault, Reply};
use nd_session::{Client, Session};
use nd_testing::{MANY, Refusing};
use std::alloc::{Allocator, Global};
use std::sync::Wait;

/// A feed of so many values that each copy of it takes memory.
const FEED: Asked = Asked::Forward(StepLine::Feed(0, "a", &[5, 6, 7, 8], Next::Next));

/// A call of a session.
#[derive(Drop)]
enum Call {
    /// These commands of one client, and then a copy.
    Commands(&'static [Asked]),
    Enter,
    /// A copy for a client of another session, refused with the log's first entry.
    CopyForStranger,
}

/// A command of each kind among them.
static CALLS: [Call; 5] = [
    Call::Commands(&[
        NOTHING,
        NOTHING,
        FEED,
        Asked::Back,
        Asked::Redo,
        Asked::Jump(0),
        Asked::Jump(3),
        Asked::Run(10),
    ]),
    Call::Commands(&[
        Asked::Sink("z", 5),
        FEED,
        Asked::RunOnly(10, &[0]),
        Asked::Clear(0),
        Asked::Clear(0),
    ]),
    Call::Commands(&[FEED, Asked::RunBySeed(10, 1)]),
    Call::Enter,
    Call::CopyForStranger,
];

/// What the calls of a session take: the runtime that waits, the heap whose requests are refused, the
/// allocator of JSON values, and the heap as the session's allocator.
#[derive(Drop)]
struct Setup<'a, A: Allocator + Copy, R> {
    rt: &'a R,
    heap: &'a Heap,
    json: Global,
    alloc: A,
}

/// Issues a command, and copies its receipt: `None` if memory runs out.
fn issue<A: Allocator + Copy, R: Wait>(
    setup: &Setup<A, R>,
    graph: &Graph<A>,
    session: &Session<A>,
    client: &mut Client<A>,
    asked: &Asked,
) -> Option<()> {
    let command = command_of(setup.alloc, graph, asked)?;
    let receipt = session
        .command(setup.rt, setup.alloc, client, command)
        .ok()?;
    receipt.copy(setup.alloc).ok()?;
    match receipt.reply {
        Reply::Refused(Fault::Memory { .. }) => None,
        _ => Some(()),
    }
}

/// Issues these commands, and copies the session.
fn issue_all<A: Allocator + Copy, R: Wait>(
    setup: &Setup<A, R>,
    graph: &Graph<A>,
    session: &Session<A>,
    client: &mut Client<A>,
    list: &[Asked],
) -> Option<()> {
    for asked in list {
        issue(setup, graph, session, client, asked)?;
    }
    session.copy(setup.rt, setup.alloc, client).ok()?;
    Some(())
}

/// Returns whether the session is where the commands of its log lead from the start, unless one of them is answered by out of
/// memory: how far that one came is said by clauses.
fn is_replayed<A: Allocator + Copy, R: Wait>(
    setup: &Setup<A, R>,
    session: &Session<A>,
    client: &Client<A>,
) -> Option<bool> {
    let again = session_of(setup.json, setup.alloc, LINE, 1)?;
    let mut other = again.enter(setup.rt, setup.alloc).ok()?;
    for receipt in client.receipts() {
        if let Reply::Refused(Fault::Memory { .. }) = receipt.reply {
            return Some(true);
        }
        let command = receipt.command.copy(setup.alloc).ok()?;
        again
            .command(setup.rt, setup.alloc, &mut other, command)
            .ok()?;
    }
    let wanted = again.copy(setup.rt, setup.alloc, &other).ok()?;
    let found = session.copy(setup.rt, setup.alloc, client).ok()?;
    let is_there = wanted.index() == found.index() && wanted.at() == found.at();
    let is_kept = wanted.kept() == found.kept();
    let text = state_text(setup.json, wanted.cluster())?;
    Some(is_there && is_kept && is_state(setup.json, found.cluster(), text.as_str()))
}

/// Returns whether a session closes with the receipts of its one client.
fn closes<A: Allocator + Copy>(alloc: A, session: Session<A>, client: Client<A>) -> Option<bool> {
    let entries = client.receipts().len();
    let mut clients = Vec::new(alloc);
    clients.push(client).ok()?;
    Some(session.close(clients).ok()?.entries.len() == entries)
}

/// Returns whether commands met the refused request. In both cases the session is where its log leads, and closes with the
/// client's receipts.
fn commands<A: Allocator + Copy, R: Wait>(
    setup: &Setup<A, R>,
    list: &[Asked],
    n: u64,
) -> Option<bool> {
    let graph = graph_of(setup.json, setup.alloc, LINE)?;
    let session = session_of(setup.json, setup.alloc, LINE, 1)?;
    let mut client = session.enter(setup.rt, setup.alloc).ok()?;
    setup.heap.refuse(n);
    let is_done = issue_all(setup, &graph, &session, &mut client, list).is_some();
    let met = setup.heap.relent(n);
    let is_replayed = is_replayed(setup, &session, &client)?;
    let is_closed = closes(setup.alloc, session, client)?;
    if is_replayed && is_closed && met != is_done {
        Some(met)
    } else {
        None
    }
}

/// Returns whether entering met the refused request. The next client gets the number that was due.
fn enters<A: Allocator + Copy, R: Wait>(setup: &Setup<A, R>, n: u64) -> Option<bool> {
    let session = session_of(setup.json, setup.alloc, LINE, 1)?;
    setup.heap.refuse(n);
    let is_in = session.enter(setup.rt, setup.alloc).is_ok();
    let met = setup.heap.relent(n);
    let next = session.enter(setup.rt, setup.alloc).ok()?.number();
    if met != is_in && next == u64::from(is_in) {
        Some(met)
    } else {
        None
    }
}

/// Returns a session and a client of it that has issued a command.
fn driven<A: Allocator + Copy, R: Wait>(
    setup: &Setup<A, R>,
    asked: Asked,
) -> Option<(Session<A>, Client<A>)> {
    let graph = graph_of(setup.json, setup.alloc, LINE)?;
    let session = session_of(setup.json, setup.alloc, LINE, 1)?;
    let mut client = session.enter(setup.rt, setup.alloc).ok()?;
    issue(setup, &graph, &session, &mut client, &asked)?;
    Some((session, client))
}

/// Returns whether a copy for a client of another session met the refused request. The error is that of such a client, or
/// out of memory.
fn copies_for_stranger<A: Allocator + Copy, R: Wait>(setup: &Setup<A, R>, n: u64) -> Option<bool> {
    let (_, stranger) = driven(setup, Asked::Back)?;
    let (session, _) = driven(setup, FEED)?;
    setup.heap.refuse(n);
    let fault = session.copy(setup.rt, setup.alloc, &stranger).err();
    let met = setup.heap.relent(n);
    let number = if met { 29 } else { 26 };
    if fault?.code().number() == number {
        Some(met)
    } else {
        None
    }
}

/// Returns how many requests of a call were refused before it met none.
fn refused<A: Allocator + Copy, R: Wait>(setup: &Setup<A, R>, call: &Call) -> Option<u64> {
    for n in 0..MANY {
        let met = match call {
            Call::Commands(list) => commands(setup, list, n),
            Call::Enter => enters(setup, n),
            Call::CopyForStranger => copies_for_stranger(setup, n),
        };
        if !met? {
            return Some(n);
        }
    }
    None
}

#[test]
fn calls_out_of_memory(rt: HostRuntime) {
    let heap = Refusing::new(rt.alloc());
    let setup = Setup {
        rt: &rt,
        heap: &heap,
        json: rt.alloc(),
        alloc: &heap,
    };
    for (i, call) in CALLS.iter().enumerate() {
        let count = refused(&setup, call);
        assert!(rt; matches!(count, Some(n) if n > 0), "of call {i}");
    }
    assert!(rt; heap.live() == 0);
}

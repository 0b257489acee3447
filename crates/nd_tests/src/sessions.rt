//! Sessions: clients in threads, unknown clients, openings, and a search beside a command.

use crate::opened::{NOTHING, command_of, only, opened, session_of};
use nd_breaks::{Atom, Condition};
use nd_commands::Command;
use nd_examples::{
    ADD, DISTINCT, EMPTY, EXCHANGE, FILTER, HELD, LINE, LOOP, NESTED_LOOP, SPLIT, SUM, TWO_WAYS,
    graph_of, point, start, state_text,
};
use nd_graph::Graph;
use nd_history::{Gate, search};
use nd_replies::{Fault, Reply};
use nd_session::{Client, CloseWhy, Log, Receipt, Session, SessionFault};
use nd_testing::Sign;
use std::alloc::Global;
use std::rt::Clock;
use std::sync::Wait;
use std::thread;
use std::thread::Threads;

/// Returns `times` feeds of nothing on a line.
fn feeds(alloc: Global, times: u64) -> Option<Vec<Command>> {
    let graph = graph_of(alloc, alloc, LINE)?;
    let mut commands = Vec::new(alloc);
    for _ in 0..times {
        commands.push(command_of(alloc, &graph, &NOTHING)?).ok()?;
    }
    Some(commands)
}

/// A client that has stopped, and whether all its commands were answered.
#[derive(Drop)]
struct Served {
    client: Client,
    is_whole: bool,
}

/// Issues a client's commands in order, until one is refused.
fn serve<R: Wait>(
    rt: &R,
    alloc: Global,
    session: &Session,
    mut client: Client,
    commands: Vec<Command>,
) -> Served {
    for command in commands {
        if session.command(rt, alloc, &mut client, command).is_err() {
            return Served {
                client,
                is_whole: false,
            };
        }
    }
    Served {
        client,
        is_whole: true,
    }
}

/// Returns whether `count` entries are a client's, in its order.
fn are_numbered(entries: &[Receipt], client: u64, count: u64) -> bool {
    let mut number: u64 = 0;
    for entry in entries {
        if entry.client == client {
            if entry.number != number {
                return false;
            }
            number = number.saturating_add(1);
        }
    }
    number == count
}

/// Returns whether the entries are of feeds of nothing, the first at the start.
fn are_feeds(entries: &[Receipt], feed: &Command) -> bool {
    for (i, entry) in entries.iter().enumerate() {
        let reply = Reply::Moved {
            at: i as u64 + 1,
            kept: i as u64 + 1,
        };
        if entry.index != i as u64 || entry.reply != reply || !entry.command.same(feed) {
            return false;
        }
    }
    true
}

/// Returns a client that has entered, and five feeds of nothing.
fn entered<R: Wait>(rt: &R, alloc: Global, session: &Session) -> Option<(Client, Vec<Command>)> {
    Some((session.enter(rt, alloc).ok()?, feeds(alloc, 5)?))
}

/// Returns the log of a session that is closed with both its clients, if all their commands were answered.
fn closed(alloc: Global, session: Session, first: Served, second: Served) -> Option<Log> {
    if !first.is_whole || !second.is_whole {
        return None;
    }
    let mut clients = Vec::new(alloc);
    clients.push(first.client).ok()?;
    clients.push(second.client).ok()?;
    session.close(clients).ok()
}

/// Returns the log of a session of two clients in threads that each feed nothing five times.
fn log_of_two<R: Wait + Threads + Sync>(rt: &R, alloc: Global) -> Option<Log> {
    let session = session_of(alloc, alloc, LINE, 1)?;
    let (first, five) = entered(rt, alloc, &session)?;
    let (second, more) = entered(rt, alloc, &session)?;
    let (first, second) = thread::join(
        rt,
        || serve(rt, alloc, &session, first, five),
        || serve(rt, alloc, &session, second, more),
    );
    closed(alloc, session, first, second)
}

/// Returns whether the log is of the ten feeds, each client's in order.
fn is_of_two(alloc: Global, log: &Log) -> Option<bool> {
    let feed = feeds(alloc, 1)?.pop()?;
    let entries = log.entries.as_slice();
    let is_whole = (entries.len(), log.entered) == (10, 2) && are_feeds(entries, &feed);
    let are_in_order = are_numbered(entries, 0, 5) && are_numbered(entries, 1, 5);
    let is_kept = (log.timeline.at(), log.timeline.kept()) == (10, 10);
    Some(is_whole && are_in_order && is_kept)
}

/// Returns whether two clients leave such a log.
fn leave_their_log<R: Wait + Threads + Sync>(rt: &R, alloc: Global) -> Option<bool> {
    is_of_two(alloc, &log_of_two(rt, alloc)?)
}

#[test]
fn two_clients(rt: HostRuntime) {
    assert!(rt; leave_their_log(&rt, rt.alloc()) == Some(true));
}

/// Returns whether a call fails with error 26, this index, and this entry or none.
fn is_stranger<T: Drop>(
    answer: Result<T, SessionFault>,
    wanted: u64,
    entry: Option<&Receipt>,
) -> bool {
    let Err(SessionFault::NotThisSession { index, found }) = answer else {
        return false;
    };
    index == wanted
        && match (found, entry) {
            (Some(found), Some(entry)) => found.same(entry),
            (None, None) => true,
            _ => false,
        }
}

/// Returns a session's first client, whose command is logged there.
fn logged<R: Wait>(rt: &R, alloc: Global, session: &Session) -> Option<Client> {
    let mut client = session.enter(rt, alloc).ok()?;
    let feed = feeds(alloc, 1)?.pop()?;
    let receipt = session.command(rt, alloc, &mut client, feed).ok()?;
    if receipt.index == 0 {
        Some(client)
    } else {
        None
    }
}

/// Two clients of another session.
#[derive(Drop)]
struct Outsiders {
    /// Has the receipt of a command there.
    with_receipt: Client,
    /// Has issued no command.
    without: Client,
}

/// Returns whether a session refuses a command of the one stranger and a copy for the other with error
/// 26, its index 0, and this entry or none.
fn are_strangers<R: Wait>(
    rt: &R,
    alloc: Global,
    session: &Session,
    outsiders: &mut Outsiders,
    entry: Option<&Receipt>,
) -> bool {
    let answer = session.command(rt, alloc, &mut outsiders.with_receipt, Command::Back);
    let copy = session.copy(rt, alloc, &outsiders.without);
    is_stranger(answer, 0, entry) && is_stranger(copy, 0, entry)
}

/// Returns whether a session with its own client refuses strangers so, before an entry is logged and after
/// it, and whether the stranger with a receipt gets no other.
fn tells_strangers<R: Wait>(rt: &R, alloc: Global, outsiders: &mut Outsiders) -> Option<bool> {
    let session = session_of(alloc, alloc, LINE, 1)?;
    let mut own = session.enter(rt, alloc).ok()?;
    let is_before = are_strangers(rt, alloc, &session, outsiders, None);
    let entry = session.command(rt, alloc, &mut own, Command::Back).ok()?;
    let is_after = are_strangers(rt, alloc, &session, outsiders, Some(&entry));
    let stranger = &outsiders.with_receipt;
    let is_copy_refused = is_stranger(session.copy(rt, alloc, stranger), 0, Some(&entry));
    let is_own = session.copy(rt, alloc, &own).is_ok();
    let is_refused = entry.reply == Reply::Refused(Fault::AtStart);
    let are_told = is_before && is_after && is_copy_refused;
    Some(are_told && is_own && is_refused && stranger.receipts().len() == 1)
}

/// Returns why a session does not close with one client.
fn why_open(alloc: Global, session: Session, client: Client) -> Option<CloseWhy> {
    let mut clients = Vec::new(alloc);
    clients.push(client).ok()?;
    Some(session.close(clients).err()?.why)
}

/// Returns whether clients of one session are strangers to another, and their own does not close without
/// one of them.
fn stay_strangers<R: Wait>(rt: &R, alloc: Global) -> Option<bool> {
    let other = session_of(alloc, alloc, LINE, 1)?;
    let with_receipt = logged(rt, alloc, &other)?;
    let without = other.enter(rt, alloc).ok()?;
    let mut outsiders = Outsiders {
        with_receipt,
        without,
    };
    let are_told = tells_strangers(rt, alloc, &mut outsiders)?;
    let why = why_open(alloc, other, outsiders.with_receipt)?;
    Some(are_told && why == CloseWhy::ClientMissing { client: 1 })
}

#[test]
fn strangers(rt: HostRuntime) {
    assert!(rt; stay_strangers(&rt, rt.alloc()) == Some(true));
}

/// The graphs on which clusters start.
static STARTS: [&str; 12] = [
    LINE,
    EXCHANGE,
    NESTED_LOOP,
    TWO_WAYS,
    SUM,
    ADD,
    LOOP,
    DISTINCT,
    SPLIT,
    FILTER,
    HELD,
    EMPTY,
];

/// Returns whether two graphs have the same locations, of the same names and depths, and the same arcs.
fn are_same(one: &Graph, other: &Graph) -> bool {
    for location in 0..one.location_count() {
        if other.location_of(one.location_name(location)) != Some(location) {
            return false;
        }
    }
    one.depths() == other.depths() && one.all_arcs() == other.all_arcs()
}

/// Returns whether the first copy from a session is of the initial state.
fn opens<R: Wait>(rt: &R, alloc: Global, text: &str, n: u32) -> Option<bool> {
    let started = start(alloc, alloc, text, n)?;
    let session = session_of(alloc, alloc, text, n)?;
    let client = session.enter(rt, alloc).ok()?;
    let snapshot = session.copy(rt, alloc, &client).ok()?;
    let cluster = snapshot.cluster();
    let state = state_text(alloc, cluster)?;
    Some(
        (snapshot.index(), snapshot.at(), snapshot.kept()) == (0, 0, 0)
            && cluster.n() == n as usize
            && are_same(cluster.graph(), started.graph())
            && state.as_str() == state_text(alloc, &started)?.as_str(),
    )
}

#[test]
fn session_openings(rt: HostRuntime) {
    for (i, text) in STARTS.iter().enumerate() {
        assert!(rt; opens(&rt, rt.alloc(), text, 1) == Some(true), "in row {i}");
        assert!(rt; opens(&rt, rt.alloc(), text, 3) == Some(true), "in row {i}");
    }
}

/// Returns whether clients get the numbers from 0 to 63, and no other enters.
fn enters_sixty_four<R: Wait>(rt: &R, alloc: Global) -> Option<bool> {
    let session = session_of(alloc, alloc, LINE, 1)?;
    for number in 0..64 {
        if session.enter(rt, alloc).ok()?.number() != number {
            return Some(false);
        }
    }
    let answer = session.enter(rt, alloc);
    Some(matches!(answer, Err(SessionFault::TooManyClients)))
}

#[test]
fn sixty_four_clients(rt: HostRuntime) {
    assert!(rt; enters_sixty_four(&rt, rt.alloc()) == Some(true));
}

/// The most entries of a log.
const MOST: u64 = 1_000_000;

/// Returns whether `times` commands are answered and logged.
fn answers_backs(alloc: Global, times: u64) -> Option<bool> {
    let mut state = opened(alloc, alloc, LINE, 1)?;
    for _ in 0..times {
        let reply = state.answer(0, Command::Back).ok()?;
        if reply != Reply::Refused(Fault::AtStart) {
            return Some(false);
        }
    }
    let is_full = matches!(state.answer(0, Command::Back), Err(SessionFault::LogFull))
        && matches!(
            state.apply(alloc, 0, Command::Back),
            Err(SessionFault::LogFull)
        );
    Some(is_full && state.log().len() as u64 == times)
}

#[test]
fn a_log_is_full(rt: HostRuntime) {
    assert!(rt; answers_backs(rt.alloc(), MOST) == Some(true));
}

/// Signals that a search has begun, and holds it until a command is answered.
#[derive(Drop)]
struct Between<'a, R: Clock> {
    begun: Sign<'a, R>,
    answered: Sign<'a, R>,
}

impl<R: Clock + Sync> Gate for Between<'_, R> {
    fn call(&self, _who: u64, _piece: u64) {
        self.begun.give();
        self.answered.wait();
    }
}

/// Returns what a client finds in its own copy.
fn found<R: Wait + Threads + Sync, G: Gate>(
    rt: &R,
    alloc: Global,
    session: &Session,
    client: &Client,
    condition: &Condition,
    gate: &G,
) -> Option<Option<u64>> {
    let snapshot = session.copy(rt, alloc, client).ok()?;
    search(rt, alloc, &snapshot, condition, 0, snapshot.kept(), 2, gate).ok()
}

/// Issues a command of another client after the search has begun.
fn answered<R: Wait + Clock>(
    rt: &R,
    alloc: Global,
    session: &Session,
    client: &mut Client,
    gate: &Between<R>,
) -> Option<Reply> {
    gate.begun.wait();
    let receipt = session.command(rt, alloc, client, Command::Back).ok()?;
    gate.answered.give();
    Some(receipt.reply.copy())
}

/// Returns whether a search finds the token at epoch 2 where it was, while another client steps back.
fn are_beside<R: Wait + Threads + Clock + Sync>(
    rt: &R,
    alloc: Global,
    session: &Session,
    first: &Client,
    second: &mut Client,
) -> Option<bool> {
    let condition = only(Atom::Count {
        point: point(&graph_of(alloc, alloc, LINE)?, "a", &[2])?,
        at_least: 1,
    });
    let gate = Between {
        begun: Sign::new(rt),
        answered: Sign::new(rt),
    };
    let (hit, reply) = thread::join(
        rt,
        || found(rt, alloc, session, first, &condition, &gate),
        || answered(rt, alloc, session, second, &gate),
    );
    let is_answered = reply? == Reply::Moved { at: 2, kept: 3 };
    Some(is_answered && hit? == Some(2) && gate.begun.came() && gate.answered.came())
}

/// Does so after three feeds of the first client.
fn are_at_the_same_time<R: Wait + Threads + Clock + Sync>(rt: &R, alloc: Global) -> Option<bool> {
    let session = session_of(alloc, alloc, LINE, 1)?;
    let first = session.enter(rt, alloc).ok()?;
    let mut second = session.enter(rt, alloc).ok()?;
    let served = serve(rt, alloc, &session, first, feeds(alloc, 3)?);
    are_beside(rt, alloc, &session, &served.client, &mut second)
}

#[test]
fn at_the_same_time(rt: HostRuntime) {
    assert!(rt; are_at_the_same_time(&rt, rt.alloc()) == Some(true));
}

//! Clients' commands, each client's on a thread of its own.
ghost use Rattle.std.specs.Prelude.{◌≡◌, [], All, map, IfOk, IfErr, IfSome, MatchBool, vec_len};
ghost use Rattle.std.specs.List.{list_any};
ghost use Rattle.nd_session.specs.Faults.{CommandMayFail};
ghost use Rattle.rewind_sessions.specs.Served.{AreDone, AreFresh, EndsOtherwise, IsDone, asked};
ghost use Rattle.rewind_sessions.specs.Runs.{is_full as is_full_in, IsOfDriving, IsServed, MayEnd, IsRun, lists_of, machine_of};

use crate::gated::Gated;
use crate::same::same_graph;
use nd_commands::Command;
use nd_history::Gate;
use nd_session::{Client, Log, Session, SessionFault, State};
use nd_time::limits::MAX_LOG;
use rewind_options::DebugFault;
use std::alloc::{AllocError, Global};
use std::sync::Wait;
use std::thread;
use std::thread::Threads;

/// A client that has entered, and its commands.
#[derive(Drop)]
pub struct Task {
    pub client: Client,
    pub commands: Vec<Command>,
}

/// A client that has stopped, and the reason if commands are left.
#[derive(Drop)]
pub struct Done {
    pub client: Client,
    pub fault: Option<SessionFault>,
}

/// What a run of clients left.
#[derive(Drop)]
pub struct Driven {
    pub log: Log,
    /// For each client the reason why commands are left, if any are.
    pub faults: Vec<Option<SessionFault>>,
}

// Issues a client's commands in order, each after a call of the gate, until the session refuses one.
fn drive<R: Wait, G: Gate>(
    rt: &R,
    alloc: Global,
    gated: &Gated<G>,
    mut client: Client,
    commands: Vec<Command>,
) -> Done
    ensures number { result.client.number ≡ client.number }
    ensures served { client.receipts ≡ []
        → IsServed commands.items (asked result.client.receipts) result.fault }
    ensures fails { IfSome result.fault (CommandMayFail result.client) }
{
    for command in commands {
        gated.call(&client);
        if let Err(fault) = gated.command(rt, alloc, &mut client, command) {
            return Done {
                client,
                fault: Some(fault),
            };
        }
    }
    Done {
        client,
        fault: None,
    }
}

// Returns the next client, which must have this number. Otherwise returns `Close`, or `Memory` if memory ran out.
fn enter<R: Wait>(
    rt: &R,
    alloc: Global,
    session: &Session,
    number: u64,
) -> Result<Client, DebugFault>
    ensures number { IfOk result (λ c. c.number ≡ number) }
    ensures receipts { IfOk result (λ c. c.receipts ≡ []) }
    ensures kind { IfErr result IsOfDriving }
{
    let client = match session.enter(rt, alloc) {
        Ok(client) => client,
        Err(SessionFault::Memory) => return Err(DebugFault::Memory),
        Err(_) => return Err(DebugFault::Close),
    };
    if client.number() == number {
        Ok(client)
    } else {
        Err(DebugFault::Close)
    }
}

// Lets all clients enter, in the order of their numbers, before any command.
fn enter_all<R: Wait>(
    rt: &R,
    alloc: Global,
    session: &Session,
    commands: Vec<Vec<Command>>,
) -> Result<Vec<Task>, DebugFault>
    ensures fresh { IfOk result (λ v. AreFresh (lists_of commands.items) v.items) }
    ensures kind { IfErr result IsOfDriving }
{
    let mut tasks = Vec::with_capacity(alloc, commands.len())?;
    for list in commands {
        let client = enter(rt, alloc, session, tasks.len() as u64)?;
        tasks.push(Task {
            client,
            commands: list,
        })?;
    }
    Ok(tasks)
}

// Runs each client's commands, on a thread of its own if one can be started, and joins all threads.
fn drive_all<R: Threads + Wait + Sync, G: Gate>(
    rt: &R,
    alloc: Global,
    session: &Session,
    gate: &G,
    tasks: Vec<Task>,
) -> Result<Vec<Done>, AllocError>
    ensures len { IfOk result (λ v. vec_len v ≡ vec_len tasks) }
    ensures done { IfOk result (λ v. AreDone tasks.items v.items) }
{
    let worker = |task: Task| -> Done
        ensures { IsDone task result }
    {
        let gated = Gated::new(session, gate);
        drive(rt, alloc, &gated, task.client, task.commands)
    };
    thread::map_vec(rt, tasks, &worker)
}

// Returns whether a client of a run may end with this error: none, a full log, or out of memory.
fn may_end(fault: &Option<SessionFault>) -> bool
    ensures { MatchBool result (MayEnd fault.now) (MayEnd fault.now → ⊥) }
{
    match fault {
        None => true,
        Some(SessionFault::LogFull) => true,
        Some(SessionFault::Memory) => true,
        Some(SessionFault::TooManyClients) => false,
        Some(SessionFault::NotThisSession { index: _, found: _ }) => false,
    }
}

// Returns whether the client met a full log.
fn is_full(fault: &Option<SessionFault>) -> bool
    ensures { result ≡ is_full_in fault.now }
{
    matches!(fault, Some(SessionFault::LogFull))
}

// Returns whether a client met a full log.
fn any_full(faults: &[Option<SessionFault>]) -> bool
    ensures { result ≡ list_any is_full_in faults.now }
{
    faults.iter().any(is_full)
}

// Returns the clients, and why each stopped. If a client stopped with any other error, returns `Close`.
fn split(
    alloc: Global,
    done: Vec<Done>,
) -> Result<(Vec<Client>, Vec<Option<SessionFault>>), DebugFault>
    ensures clients { IfOk result (λ r. r.0.items ≡ map (λ d. d.client) done.items) }
    ensures faults { IfOk result (λ r. r.1.items ≡ map (λ d. d.fault) done.items) }
    ensures ended { IfOk result (λ r. All MayEnd r.1.items) }
    ensures close { IfErr result (λ e. e ≡ DebugFault.Close → EndsOtherwise done.items) }
    ensures kind { IfErr result IsOfDriving }
{
    let mut clients = Vec::with_capacity(alloc, done.len())?;
    let mut faults = Vec::with_capacity(alloc, done.len())?;
    for one in done {
        if !may_end(&one.fault) {
            return Err(DebugFault::Close);
        }
        clients.push(one.client)?;
        faults.push(one.fault)?;
    }
    Ok((clients, faults))
}

/// Runs all clients' commands on a session of the `State`, and closes it. Returns `Close` if the log does not
/// belong to the `State`, or is not full though a client met a full log.
pub fn drive_session<R: Threads + Wait + Sync, G: Gate>(
    rt: &R,
    alloc: Global,
    state: State,
    commands: Vec<Vec<Command>>,
    gate: &G,
) -> Result<Driven, DebugFault>
    ensures told { IfOk result (λ d.
        IsRun state.machine (lists_of commands.items)
        d.log.entries.items (machine_of d.log) d.faults.items) }
    ensures kind { IfErr result IsOfDriving }
{
    // A lock's contract does not say what it holds, so the log is tested afterwards.
    let begun = state.timeline().base();
    let graph = begun.graph().copy(alloc)?;
    let count = begun.n();
    let session = Session::new(state);
    let tasks = enter_all(rt, alloc, &session, commands)?;
    let done = drive_all(rt, alloc, &session, gate, tasks)?;
    let (clients, faults) = split(alloc, done)?;
    match session.close(clients) {
        Ok(log) => {
            if log.entries.len() < MAX_LOG && any_full(faults.as_slice()) {
                return Err(DebugFault::Close);
            }
            let left = log.timeline.base();
            if left.n() == count && same_graph(left.graph(), &graph) {
                Ok(Driven { log, faults })
            } else {
                Err(DebugFault::Close)
            }
        }
        Err(_) => Err(DebugFault::Close),
    }
}

//! A debugger machine with the log of the commands that it has answered.
ghost use Rattle.std.specs.Prelude.{◌≡◌, ◌↔◌, ◌<◌, ◌≤◌, [], ◌∷◌, ◌++◌, length, Err, IfOk, IfErr, OnErr, MatchBool};
ghost use Rattle.nd_time.specs.Limits.{max_log};
ghost use Rattle.nd_protocol.specs.Fitting.{IsState};
ghost use Rattle.nd_protocol.specs.Invariant.{KeepsProtocol};
ghost use Rattle.nd_timeline.specs.Snapshot.{snapshot_of};
ghost use Rattle.nd_machine.specs.Moves.{Moves, without_breaks};
ghost use Rattle.nd_session.specs.Log.{IsStart, IsPlaced, IsLegal, count_of, entry_of, opening_of};
ghost use Rattle.nd_session.specs.State.{StateValue};
ghost use Rattle.nd_session.specs.Clients.{IsHistory};
ghost use Rattle.nd_session.specs.Faults.{ApplyFails};

use crate::{Receipt, SessionFault};
use nd_breaks::Breaks;
use nd_commands::Command;
use nd_machine::{Machine, moves_keep_timelines};
use nd_map::GrowingMap;
use nd_protocol::starts_keep_protocol;
use nd_replies::Reply;
use nd_time::limits::MAX_LOG;
use nd_timeline::{Snapshot, Timeline};
use std::alloc::{AllocError, Allocator, Global};
use std::marker::Model;

/// A debugger machine with the log of the commands that it has answered.
pub struct State<A: Allocator + Copy = Global> {
    machine: Machine<A>,
    log: Vec<Receipt<A>, A>,
    // The number of entries of each client that has one, so that no command reads the log.
    counts: GrowingMap<usize, u64, A>,
}

impl<A: Allocator + Copy> Model for State<A> {
    ghost use Rattle.nd_session.specs.State.{StateValue, state_code};
    ghost use Rattle.nd_session.specs.Kept.{IsKept};

    ghost Value = { StateValue A };

    ghost coded = { state_code A };

    ghost view = { λ a. record { machine = a.machine; log = a.log.items } };

    ghost invariant = { λ a. IsKept a.machine a.log.items a.counts };
}

impl<A: Allocator + Copy> Drop for State<A> {
    fn drop(self) {
        let State {
            machine: _,
            log: _,
            counts: _,
        } = self;
    }
}

impl<A: Allocator + Copy> State<A> {
    /// Creates the `State` of a timeline that has no kept steps and begins at an initial state.
    pub fn new(alloc: A, timeline: Timeline<A>) -> Result<State<A>, AllocError>
        requires fresh { timeline.kept ≡ [] }
        requires start { IsStart timeline.base }
        ensures { IfOk result (λ s. s ≡ record { machine = without_breaks timeline; log = [] }) }
    {
        // The clauses of these three say that the cursor is within the kept steps, that edges join
        // vertices, and that depths agree along the arcs.
        let _ = timeline.at();
        let graph = timeline.base().graph();
        let _ = graph.vertices();
        let _ = graph.all_arcs();
        starts_keep_protocol();
        Ok(State {
            machine: Machine::new(alloc, timeline)?,
            log: Vec::new(alloc),
            counts: GrowingMap::new(alloc),
        })
    }

    /// Returns the timeline.
    pub fn timeline(&self) -> &Timeline<A>
        ensures value { result.now ≡ self.now.machine.timeline }
        ensures start { IsStart self.now.machine.timeline.base }
        ensures state { IsState self.now.machine.timeline.base }
        ensures protocol { KeepsProtocol self.now.machine.timeline.base }
    {
        self.machine.timeline()
    }

    /// Returns the breakpoints.
    pub fn breaks(&self) -> &Breaks<A>
        ensures { result.now ≡ self.now.machine.breaks }
    {
        self.machine.breaks()
    }

    /// Returns the commands that the machine has answered, in order.
    pub fn log(&self) -> &[Receipt<A>]
        ensures value { result.now ≡ self.now.log }
        ensures legal { IsLegal (opening_of self.now.machine) self.now.log self.now.machine }
        ensures few { length self.now.log ≤ max_log }
    {
        &self.log
    }

    // Returns the log, with the facts about it.
    pub(crate) fn history(&self) -> &[Receipt<A>]
        ensures value { result.now ≡ self.now.log }
        ensures history { IsHistory self.now.log self.now.machine }
    {
        &self.log
    }

    // Returns whether the log is full.
    pub(crate) fn is_full(&self) -> bool
        ensures { MatchBool result (length self.now.log ≡ max_log) (length self.now.log < max_log) }
    {
        self.log.len() >= MAX_LOG
    }

    // Returns the number of a client's entries.
    fn count(&self, client: u64) -> u64
        ensures { result ≡ count_of client self.now.log }
    {
        self.counts.get(&(client as usize)).unwrap_or(0)
    }

    /// Answers a client's command, and logs it. The command is not copied.
    pub fn answer(&mut self, client: u64, command: Command<A>) -> Result<Reply, SessionFault<A>>
        ensures entry { IfOk result (λ r.
            self.new.log ≡ self.old.log ++ entry_of self.old.log client command r ∷ []) }
        ensures moved { IfOk result (λ r. Moves self.old.machine command r self.new.machine) }
        ensures legal { IsLegal (opening_of self.old.machine) self.new.log self.new.machine }
        ensures base { self.new.machine.timeline.base ≡ self.old.machine.timeline.base }
        ensures same { OnErr result (self.new ≡ self.old) }
        ensures full { (result ≡ Err SessionFault.LogFull) ↔ (length self.old.log ≡ max_log) }
        ensures fails { IfErr result (ApplyFails self.old.log) }
    {
        if self.is_full() {
            return Err(SessionFault::LogFull);
        }
        moves_keep_timelines::<A>();
        let index = self.log.len() as u64;
        let number = self.count(client);
        self.log.reserve(1)?;
        self.counts.put(&(client as usize), number + 1)?;
        let reply = self.machine.apply(&command);
        let told = reply.copy();
        self.log.push_reserved(Receipt {
            index,
            client,
            number,
            command,
            reply,
        });
        Ok(told)
    }

    /// Answers a client's command, and logs it. Returns the entry, with a copy of the command.
    pub fn apply(
        &mut self,
        alloc: A,
        client: u64,
        command: Command<A>,
    ) -> Result<Receipt<A>, SessionFault<A>>
        ensures entry { IfOk result (λ r. self.new.log ≡ self.old.log ++ r ∷ []) }
        ensures client { IfOk result (λ r. r.client ≡ client) }
        ensures command { IfOk result (λ r. r.command ≡ command) }
        ensures placed { IfOk result (λ r. IsPlaced self.old.log (length self.old.log) r) }
        ensures moved { IfOk result (λ r. Moves self.old.machine command r.reply self.new.machine) }
        ensures legal { IsLegal (opening_of self.old.machine) self.new.log self.new.machine }
        ensures base { self.new.machine.timeline.base ≡ self.old.machine.timeline.base }
        ensures same { OnErr result (self.new ≡ self.old) }
        ensures full { (result ≡ Err SessionFault.LogFull) ↔ (length self.old.log ≡ max_log) }
        ensures fails { IfErr result (ApplyFails self.old.log) }
    {
        let index = self.log().len() as u64;
        if self.is_full() {
            return Err(SessionFault::LogFull);
        }
        let number = self.count(client);
        let asked = command.copy(alloc)?;
        let reply = self.answer(client, command)?;
        Ok(Receipt {
            index,
            client,
            number,
            command: asked,
            reply,
        })
    }

    /// Returns a copy of the timeline, with the length of the log as its index.
    pub fn snapshot(&self, alloc: A) -> Result<Snapshot<A>, AllocError>
        ensures { IfOk result (λ s.
            s ≡ snapshot_of self.now.machine.timeline (length self.now.log)) }
    {
        Snapshot::of(alloc, self.timeline(), self.log.len() as u64)
    }

    // Returns the parts.
    pub(crate) fn into_parts(self) -> (Timeline<A>, Breaks<A>, Vec<Receipt<A>, A>)
        ensures timeline { result.0 ≡ self.machine.timeline }
        ensures breaks { result.1 ≡ self.machine.breaks }
        ensures log { result.2.items ≡ self.log }
        ensures history { IsHistory self.log self.machine }
    {
        let State {
            machine,
            log,
            counts: _,
        } = self;
        let (timeline, breaks) = machine.into_parts();
        (timeline, breaks, log)
    }
}

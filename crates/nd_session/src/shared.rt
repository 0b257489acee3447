//! The value under a session's lock.
ghost use Rattle.std.specs.Prelude.{◌≡◌, ◌+◌, ◌<◌, [], length, slice_get, IfOk, IfErr, OnOk, OnErr, MatchBool};
ghost use Rattle.std.specs.Option.{option_map_or};
ghost use Rattle.nd_time.specs.Limits.{max_clients};
ghost use Rattle.nd_timeline.specs.Snapshot.{snapshot_of};
ghost use Rattle.nd_session.specs.Answered.{IsAnswered};
ghost use Rattle.nd_session.specs.Clients.{Gains, Holds, last_of, HoldsLast, IsHistory, IsKnown, IsUnknown};
ghost use Rattle.nd_session.specs.Faults.{TestFails, CommandFails, CopyFails, EnterFails};

use crate::{Client, Receipt, SessionFault, State};
use nd_commands::Command;
use nd_time::limits::MAX_CLIENTS;
use nd_timeline::Snapshot;
use std::alloc::{AllocError, Allocator, Global};

// A `State`, and how many clients have entered.
#[derive(Drop)]
pub(crate) struct Shared<A: Allocator + Copy = Global> {
    pub(crate) state: State<A>,
    pub(crate) entered: u64,
}

// Returns whether the log has this receipt at its index.
pub(crate) fn holds<A: Allocator>(log: &[Receipt<A>], receipt: &Receipt<A>) -> bool
    ensures { MatchBool result (Holds log.now receipt.now) (¬ Holds log.now receipt.now) }
{
    match log.get(receipt.index as usize) {
        Some(entry) => entry.same(receipt),
        None => false,
    }
}

// Returns whether the log has the last of the receipts, if there is one, at its index.
fn holds_last<A: Allocator>(log: &[Receipt<A>], receipts: &[Receipt<A>]) -> bool
    ensures { MatchBool result (HoldsLast log.now receipts.now) (¬ HoldsLast log.now receipts.now) }
{
    match receipts.last() {
        Some(receipt) => holds(log, receipt),
        None => true,
    }
}

// Returns the index of the last receipt, or 0 if there is none.
fn last_index<A: Allocator>(receipts: &[Receipt<A>]) -> u64
    ensures { result ≡ option_map_or (λ r. r.index) (last_of receipts.now) 0 }
{
    match receipts.last() {
        Some(receipt) => receipt.index,
        None => 0,
    }
}

// Returns a copy of the log's entry at an index, if there is one.
fn copied_entry<A: Allocator + Copy>(
    alloc: A,
    log: &[Receipt<A>],
    index: u64,
) -> Result<Option<Receipt<A>>, AllocError>
    ensures found { IfOk result (λ found. found ≡ slice_get log.now index) }
    ensures refused { OnErr result (index < length log.now) }
{
    match log.get(index as usize) {
        Some(entry) => Ok(Some(entry.copy(alloc)?)),
        None => Ok(None),
    }
}

impl<A: Allocator + Copy> Shared<A> {
    // Returns the value that no client has entered yet.
    pub(crate) fn new(state: State<A>) -> Shared<A>
        ensures { result ≡ record { state = state; entered = 0 } }
    {
        Shared { state, entered: 0 }
    }

    // Returns the next client. It has room for its first receipt before its number is given out.
    pub(crate) fn enter(&mut self, alloc: A) -> Result<Client<A>, SessionFault<A>>
        ensures number { IfOk result (λ c. c.number ≡ self.old.entered) }
        ensures few { IfOk result (λ c. c.number < max_clients) }
        ensures receipts { IfOk result (λ c. c.receipts ≡ []) }
        ensures next { OnOk result (self.new ≡ record self.old { entered = self.old.entered + 1 }) }
        ensures same { OnErr result (self.new ≡ self.old) }
        ensures fails { IfErr result (EnterFails self.old.entered) }
    {
        if self.entered >= MAX_CLIENTS {
            return Err(SessionFault::TooManyClients);
        }
        let client = Client::new(alloc, self.entered)?;
        self.entered += 1;
        Ok(client)
    }

    // Returns whether the client is one of this session, judged by its number and its last receipt.
    fn knows(&self, client: &Client<A>) -> bool
        ensures { MatchBool result (IsKnown self.now.entered self.now.state.log client.now)
            (IsUnknown self.now.entered self.now.state.log client.now) }
    {
        client.number() < self.entered && holds_last(self.state.log(), client.receipts())
    }

    // Refuses a client that is not of this session.
    fn test(&self, alloc: A, client: &Client<A>) -> Result<(), SessionFault<A>>
        ensures known { OnOk result (IsKnown self.now.entered self.now.state.log client.now) }
        ensures history { IsHistory self.now.state.log self.now.state.machine }
        ensures fails { IfErr result (TestFails self.now.entered self.now.state.log client.now) }
    {
        let log = self.state.history();
        if self.knows(client) {
            return Ok(());
        }
        let index = last_index(client.receipts());
        let found = copied_entry(alloc, log, index)?;
        Err(SessionFault::NotThisSession { index, found })
    }

    // Answers a client's command. All memory is allocated before the command is applied, so that no
    // entry is without its receipt.
    pub(crate) fn command(
        &mut self,
        alloc: A,
        client: &mut Client<A>,
        command: Command<A>,
    ) -> Result<Receipt<A>, SessionFault<A>>
        ensures history { IsHistory self.old.state.log self.old.state.machine }
        ensures answered { IfOk result (IsAnswered self.old self.new client.old command) }
        ensures kept { IfOk result (Gains client.old client.new) }
        ensures entered { OnOk result (self.new.entered ≡ self.old.entered) }
        ensures same { OnErr result (self.new ≡ self.old) }
        ensures receipts { OnErr result (client.new ≡ client.old) }
        ensures fails { IfErr result (CommandFails self.old.entered self.old.state.log client.old) }
    {
        self.test(alloc, client)?;
        if self.state.is_full() {
            return Err(SessionFault::LogFull);
        }
        client.receipts.reserve(1)?;
        let asked = command.copy(alloc)?;
        let receipt = self.state.apply(alloc, client.number, command)?;
        client.receipts.push_reserved(Receipt {
            index: receipt.index,
            client: receipt.client,
            number: receipt.number,
            command: asked,
            reply: receipt.reply.copy(),
        });
        Ok(receipt)
    }

    // Returns a copy of the timeline, for a client.
    pub(crate) fn copy(&self, alloc: A, client: &Client<A>) -> Result<Snapshot<A>, SessionFault<A>>
        ensures value { IfOk result (λ s.
            s ≡ snapshot_of self.now.state.machine.timeline (length self.now.state.log)) }
        ensures known { OnOk result (IsKnown self.now.entered self.now.state.log client.now) }
        ensures history { IsHistory self.now.state.log self.now.state.machine }
        ensures fails { IfErr result (CopyFails self.now.entered self.now.state.log client.now) }
    {
        self.test(alloc, client)?;
        Ok(self.state.snapshot(alloc)?)
    }
}

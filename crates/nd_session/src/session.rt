//! A `State` that many clients drive through one lock.
ghost use Rattle.std.specs.Prelude.{◌≡◌, ◌<◌, [], IfOk, IfErr, OnErr};
ghost use Rattle.nd_time.specs.Limits.{max_clients};
ghost use Rattle.nd_session.specs.Clients.{Gains, IsReceiptFor, IsSeen};
ghost use Rattle.nd_session.specs.Close.{ClosesWith, IsWhole, IsSettled};
ghost use Rattle.nd_session.specs.Faults.{CommandMayFail, CopyMayFail, EnterMayFail};

use crate::shared::Shared;
use crate::{Client, CloseFault, Log, Receipt, SessionFault, State};
use nd_commands::Command;
use nd_timeline::Snapshot;
use std::alloc::{Allocator, Global};
use std::sync::{Mutex, Wait};

/// A `State` that many threads drive, each as a client, through one lock.
#[derive(Drop)]
pub struct Session<A: Allocator + Copy = Global> {
    lock: Mutex<Shared<A>>,
}

impl<A: Allocator + Copy> Session<A> {
    /// Returns a session that no client has entered yet.
    pub fn new(state: State<A>) -> Session<A> {
        Session {
            lock: Mutex::new(Shared::new(state)),
        }
    }

    /// Returns a client of the next number, counted from 0. A number is not given out twice.
    pub fn enter(&self, rt: &impl Wait, alloc: A) -> Result<Client<A>, SessionFault<A>>
        ensures receipts { IfOk result (λ c. c.receipts ≡ []) }
        ensures few { IfOk result (λ c. c.number < max_clients) }
        ensures fails { IfErr result EnterMayFail }
    {
        self.lock.lock(rt).enter(alloc)
    }

    /// Answers a client's command, and logs it. The client keeps the receipt.
    pub fn command(
        &self,
        rt: &impl Wait,
        alloc: A,
        client: &mut Client<A>,
        command: Command<A>,
    ) -> Result<Receipt<A>, SessionFault<A>>
        ensures told { IfOk result (IsReceiptFor client.old command) }
        ensures kept { IfOk result (Gains client.old client.new) }
        ensures same { OnErr result (client.new ≡ client.old) }
        ensures fails { IfErr result (CommandMayFail client.old) }
    {
        self.lock.lock(rt).command(alloc, client, command)
    }

    /// Copies the timeline as it is now, with the length of the log. This is no command, and is not
    /// logged.
    pub fn copy(
        &self,
        rt: &impl Wait,
        alloc: A,
        client: &Client<A>,
    ) -> Result<Snapshot<A>, SessionFault<A>>
        ensures seen { IfOk result (IsSeen client.now) }
        ensures fails { IfErr result (CopyMayFail client.now) }
    {
        self.lock.lock(rt).copy(alloc, client)
    }

    /// Ends the session, with all its clients. The call allocates no memory, and does not wait.
    ///
    /// The session ends in any case; an error contains the log, too.
    pub fn close(self, clients: Vec<Client<A>, A>) -> Result<Log<A>, CloseFault<A>>
        ensures whole { IfOk result (λ l. IsWhole l.entries.items clients.items l.entered) }
        ensures wrong { IfErr result (λ f.
            ClosesWith f.log.entries.items clients.items f.log.entered f.why) }
        ensures settled { IfOk result IsSettled }
        ensures fault_settled { IfErr result (λ f. IsSettled f.log) }
    {
        let Session { lock } = self;
        lock.into_inner().close(&clients)
    }
}

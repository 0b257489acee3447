//! A session whose clients call a gate before each command.
ghost use Rattle.std.specs.Prelude.{◌≡◌, ◌++◌, ◌∷◌, [], length, IfOk, IfErr, OnErr};
ghost use Rattle.nd_session.specs.Clients.{IsReceiptFor};
ghost use Rattle.nd_session.specs.Faults.{CommandMayFail};

use nd_commands::Command;
use nd_history::Gate;
use nd_session::{Client, Receipt, Session, SessionFault};
use std::alloc::Global;
use std::sync::Wait;

/// A session, and the gate that a client calls before each of its commands.
#[derive(Drop)]
pub struct Gated<'a, G> {
    session: &'a Session,
    gate: &'a G,
}

impl<'a, G: Gate> Gated<'a, G> {
    /// Puts a gate before a session.
    pub fn new(session: &'a Session, gate: &'a G) -> Self {
        Gated { session, gate }
    }

    /// Calls the gate with the client's number and that of its next command.
    pub fn call(&self, client: &Client)
        ensures { G.called self.now.gate.now client.now.number (length client.now.receipts) }
    {
        self.gate
            .call(client.number(), client.receipts().len() as u64);
    }

    /// Issues a client's command, for which the gate was called.
    pub fn command(
        &self,
        rt: &impl Wait,
        alloc: Global,
        client: &mut Client,
        command: Command,
    ) -> Result<Receipt, SessionFault>
        requires called { G.called self.now.gate.now client.old.number
            (length client.old.receipts) }
        ensures told { IfOk result (IsReceiptFor client.old command) }
        ensures kept { IfOk result (λ r.
            client.new ≡ record client.old { receipts = client.old.receipts ++ r ∷ [] }) }
        ensures same { OnErr result (client.new ≡ client.old) }
        ensures fails { IfErr result (CommandMayFail client.old) }
    {
        self.session.command(rt, alloc, client, command)
    }
}

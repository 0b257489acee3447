//! An entry of the log, as its client gets it.
ghost use Rattle.std.specs.Prelude.{◌≡◌, ◌≢◌, IfOk, MatchBool};

use nd_commands::Command;
use nd_replies::Reply;
use std::alloc::{AllocError, Allocator, Global};

/// A command that was answered, and the reply: an entry of the log, of which its client also gets a
/// copy.
#[derive(Drop)]
pub struct Receipt<A: Allocator = Global> {
    /// The entry's position in the log, counted from 0.
    pub index: u64,
    /// The number of the client that gave the command.
    pub client: u64,
    /// The number of earlier entries of this client.
    pub number: u64,
    pub command: Command<A>,
    pub reply: Reply,
}

impl<A: Allocator> Receipt<A> {
    /// Returns an equal receipt.
    pub fn copy(&self, alloc: A) -> Result<Receipt<A>, AllocError>
    where
        A: Copy,
        ensures { IfOk result (λ r. r ≡ self.now) }
    {
        Ok(Receipt {
            index: self.index,
            client: self.client,
            number: self.number,
            command: self.command.copy(alloc)?,
            reply: self.reply.copy(),
        })
    }

    /// Returns whether the two receipts are equal.
    pub fn same(&self, other: &Receipt<A>) -> bool
        ensures { MatchBool result (self.now ≡ other.now) (self.now ≢ other.now) }
    {
        self.index == other.index
            && self.client == other.client
            && self.number == other.number
            && self.command.same(&other.command)
            && self.reply.same(&other.reply)
    }
}

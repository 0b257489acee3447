//! A client, with its receipts.
ghost use Rattle.std.specs.Prelude.{◌≡◌, [], IfOk};
ghost use Rattle.nd_session.specs.Clients.{IsOwn};

use crate::Receipt;
use std::alloc::{AllocError, Allocator, Global};
use std::marker::Model;

/// A client of a session: its number, and its receipts in order.
pub struct Client<A: Allocator + Copy = Global> {
    pub(crate) number: u64,
    pub(crate) receipts: Vec<Receipt<A>, A>,
}

impl<A: Allocator + Copy> Model for Client<A> {
    ghost use Rattle.nd_session.specs.Clients.{ClientValue, client_code, IsOwn};

    ghost Value = { ClientValue A };

    ghost coded = { client_code A };

    ghost view = { λ a. record { number = a.number; receipts = a.receipts.items } };

    ghost invariant = { λ a. IsOwn a.number a.receipts.items };
}

impl<A: Allocator + Copy> Drop for Client<A> {
    fn drop(self) {
        let Client {
            number: _,
            receipts: _,
        } = self;
    }
}

impl<A: Allocator + Copy> Client<A> {
    // Returns a client with room for its first receipt.
    pub(crate) fn new(alloc: A, number: u64) -> Result<Client<A>, AllocError>
        ensures number { IfOk result (λ c. c.number ≡ number) }
        ensures receipts { IfOk result (λ c. c.receipts ≡ []) }
    {
        Ok(Client {
            number,
            receipts: Vec::with_capacity(alloc, 1)?,
        })
    }

    /// Returns the client's number.
    pub fn number(&self) -> u64
        ensures { result ≡ self.now.number }
    {
        self.number
    }

    /// Returns the client's receipts, in order.
    pub fn receipts(&self) -> &[Receipt<A>]
        ensures value { result.now ≡ self.now.receipts }
        ensures own { IsOwn self.now.number self.now.receipts }
    {
        &self.receipts
    }
}

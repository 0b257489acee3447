//! The answer to the question why a processor does not consider a pointstamp finished.
ghost use Rattle.std.specs.Prelude.{◌≡◌};

use nd_paths::Pointstamp;
use std::alloc::{Allocator, Global};
use std::marker::Model;

/// Something outstanding at a pointstamp (Naiad, SOSP 2013, section 2.3), and the processor `p` that holds
/// it.
#[derive(Clone, Copy, Debug)]
pub enum Held {
    /// `count` records of a value on the edge of the pointstamp.
    Records { p: usize, value: i64, count: u64 },
    /// A request of the vertex of the pointstamp: for a notification, or to hold a capability.
    Request { p: usize },
    /// The token of the input of the pointstamp.
    Token { p: usize },
}

/// A progress update of a pointstamp by `n` that was not received yet, and its sender, the processor `p`.
#[derive(Clone, Copy, Debug)]
pub enum Unheard {
    /// The update was not sent yet.
    Unsent { p: usize, n: i64 },
    /// The update is part of a queued change, and `behind` changes are received before it.
    Queued { p: usize, behind: usize, n: i64 },
}

/// A pointstamp because of which a processor does not consider another one finished, what is held there, and
/// the updates of it that the processor has not received.
pub struct Reason<A: Allocator = Global> {
    pub(crate) point: Pointstamp,
    pub(crate) held: Vec<Held, A>,
    pub(crate) unheard: Vec<Unheard, A>,
    pub(crate) known: i64,
}

impl<A: Allocator> Drop for Reason<A> {
    fn drop(self) {
        let Reason {
            point: _,
            held: _,
            unheard: _,
            known: _,
        } = self;
    }
}

impl<A: Allocator> Model for Reason<A> {
    ghost use Rattle.nd_why.specs.Account.{Account};

    ghost Value = { Account };

    ghost view = { λ a. record {
      point = a.point;
      held = a.held.items;
      unheard = a.unheard.items;
      view = a.known;
    } };
}

impl<A: Allocator> Reason<A> {
    /// Returns the pointstamp, which is on the frontier of the processor's view.
    pub fn point(&self) -> &Pointstamp
        ensures { result.now ≡ self.now.point }
    {
        &self.point
    }

    /// Returns what is outstanding at the pointstamp: for each processor its records by value, then its
    /// request, then its token.
    pub fn held(&self) -> &[Held]
        ensures { result.now ≡ self.now.held }
    {
        &self.held
    }

    /// Returns the updates of the pointstamp that the processor has not received: for each sender the unsent
    /// one, then the queued ones from the front.
    pub fn unheard(&self) -> &[Unheard]
        ensures { result.now ≡ self.now.unheard }
    {
        &self.unheard
    }

    /// Returns the count of the pointstamp in the processor's view.
    pub fn view(&self) -> i64
        ensures { result ≡ self.now.view }
    {
        self.known
    }
}

/// The reasons, in the order of listing of their pointstamps.
#[derive(Drop)]
pub struct Reasons<A: Allocator = Global> {
    pub(crate) reasons: Vec<Reason<A>, A>,
}

impl<A: Allocator> Model for Reasons<A> {
    ghost use Rattle.std.specs.Prelude.{List};
    ghost use Rattle.nd_why.specs.Account.{Account};

    ghost Value = { List Account };

    ghost view = { λ a. a.reasons.items };
}

impl<A: Allocator> Reasons<A> {
    /// Returns the reasons.
    pub fn as_slice(&self) -> &[Reason<A>]
        ensures { result.now ≡ self.now }
    {
        &self.reasons
    }
}

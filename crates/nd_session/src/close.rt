//! The end of a session: each client's receipts are compared with the log.
ghost use Rattle.std.specs.Prelude.{◌≤◌, length, IfOk, IfErr, IfSome, IfNone, MatchBool};
ghost use Rattle.nd_session.specs.Log.{ArePlaced};
ghost use Rattle.nd_session.specs.Close.{HeldBelow, IsNewBelow, IsIn, AreInBelow, IsRight, AreRightBelow, IsFirstWrong, IsWrong, IsMismatch, ClosesWith, IsWhole, IsSettled, IsLeft};
ghost use Rattle.nd_session.specs.Tested.{IsOther, IsFirstMissing, HasAt, HasInPlace, AreInPlaceBelow, IsFirstUnlogged, IsClean};

use crate::shared::{Shared, holds};
use crate::{Client, Receipt};
use nd_breaks::Breaks;
use nd_timeline::Timeline;
use std::alloc::{Allocator, Global};

/// What a session leaves.
#[derive(Drop)]
pub struct Log<A: Allocator + Copy = Global> {
    /// The commands that were answered, in order.
    pub entries: Vec<Receipt<A>, A>,
    /// How many clients have entered.
    pub entered: u64,
    pub timeline: Timeline<A>,
    pub breaks: Breaks<A>,
}

/// What is wrong with the clients with which a session is closed.
#[derive(Clone, Copy, Debug, Drop, PartialEq, Eq)]
pub enum CloseWhy {
    /// A client's receipt is not the log's entry at this index; or the client's number was handed
    /// in before, and the index is the log's length; or the entry at this index is no client's
    /// receipt.
    Mismatch { client: u64, index: u64 },
    /// The client of this number was not handed in.
    ClientMissing { client: u64 },
}

/// A session was closed with other clients, or other receipts, than its own.
#[derive(Drop)]
pub struct CloseFault<A: Allocator + Copy = Global> {
    pub why: CloseWhy,
    pub log: Log<A>,
}

// Returns the index of the first receipt that is not the log's entry there.
fn first_wrong<A: Allocator>(log: &[Receipt<A>], receipts: &[Receipt<A>]) -> Option<u64>
    ensures none { IfNone result (HeldBelow log.now receipts.now (length receipts.now)) }
    ensures some { IfSome result (IsFirstWrong log.now receipts.now) }
{
    for (j, receipt) in receipts.iter().enumerate() {
        if !holds(log, receipt) {
            return Some(receipt.index);
        }
    }
    None
}

// Returns whether none of the first k clients has this number.
fn is_new<A: Allocator + Copy>(clients: &[Client<A>], k: usize, number: u64) -> bool
    requires { k ≤ length clients.now }
    ensures { MatchBool result (IsNewBelow clients.now k number) (IsOther clients.now k number) }
{
    !clients[..k].iter().any(|client| client.number() == number)
}

// Returns whether a client has this number.
fn is_in<A: Allocator + Copy>(clients: &[Client<A>], number: u64) -> bool
    ensures { MatchBool result (IsIn clients.now number) (¬ IsIn clients.now number) }
{
    !is_new(clients, clients.len(), number)
}

// Returns the index of the mismatch of a client that was handed in after k others, if it has one.
fn wrong_with<A: Allocator + Copy>(
    log: &[Receipt<A>],
    clients: &[Client<A>],
    k: usize,
    client: &Client<A>,
) -> Option<u64>
    requires { k ≤ length clients.now }
    ensures right { IfNone result (IsRight log.now clients.now k client.now) }
    ensures wrong { IfSome result (IsWrong log.now clients.now k client.now) }
{
    if let Some(index) = first_wrong(log, client.receipts()) {
        return Some(index);
    }
    if is_new(clients, k, client.number()) {
        None
    } else {
        Some(log.len() as u64)
    }
}

// Returns the first client with a mismatch, and the index of the mismatch.
fn first_mismatch<A: Allocator + Copy>(
    log: &[Receipt<A>],
    clients: &[Client<A>],
) -> Option<(u64, u64)>
    ensures none { IfNone result (AreRightBelow log.now clients.now (length clients.now)) }
    ensures some { IfSome result (λ m. IsMismatch log.now clients.now m.0 m.1) }
{
    for (k, client) in clients.iter().enumerate() {
        if let Some(index) = wrong_with(log, clients, k, client) {
            return Some((client.number(), index));
        }
    }
    None
}

// Returns the least number that was given out and not handed in.
fn first_missing<A: Allocator + Copy>(clients: &[Client<A>], entered: u64) -> Option<u64>
    ensures none { IfNone result (AreInBelow clients.now entered) }
    ensures some { IfSome result (IsFirstMissing clients.now entered) }
{
    for n in 0..entered {
        if !is_in(clients, n) {
            return Some(n);
        }
    }
    None
}

// Returns whether the client has the entry's number, and the entry at its position.
fn has_at<A: Allocator + Copy>(client: &Client<A>, entry: &Receipt<A>) -> bool
    ensures { MatchBool result (HasAt client.now entry.now) (¬ HasAt client.now entry.now) }
{
    client.number() == entry.client
        && match client.receipts().get(entry.number as usize) {
            Some(receipt) => receipt.same(entry),
            None => false,
        }
}

// Returns whether a client has the entry at its position.
fn has_in_place<A: Allocator + Copy>(clients: &[Client<A>], entry: &Receipt<A>) -> bool
    ensures { MatchBool result (HasInPlace clients.now entry.now)
        (¬ HasInPlace clients.now entry.now) }
{
    clients.iter().any(|client| has_at(client, entry))
}

// Returns the client and the index of the first entry that no client has at its position.
fn first_unlogged<A: Allocator + Copy>(
    log: &[Receipt<A>],
    clients: &[Client<A>],
) -> Option<(u64, u64)>
    ensures none { IfNone result (AreInPlaceBelow log.now clients.now (length log.now)) }
    ensures some { IfSome result (λ m. IsFirstUnlogged log.now clients.now m.0 m.1) }
{
    for (i, entry) in log.iter().enumerate() {
        if !has_in_place(clients, entry) {
            return Some((entry.client, i as u64));
        }
    }
    None
}

// Returns the first error, if there is one.
fn found_wrong<A: Allocator + Copy>(
    log: &[Receipt<A>],
    clients: &[Client<A>],
    entered: u64,
) -> Option<CloseWhy>
    requires { ArePlaced log.now }
    ensures clean { IfNone result (IsClean log.now clients.now entered) }
    ensures wrong { IfSome result (ClosesWith log.now clients.now entered) }
{
    if let Some((client, index)) = first_mismatch(log, clients) {
        return Some(CloseWhy::Mismatch { client, index });
    }
    if let Some(client) = first_missing(clients, entered) {
        return Some(CloseWhy::ClientMissing { client });
    }
    if let Some((client, index)) = first_unlogged(log, clients) {
        return Some(CloseWhy::Mismatch { client, index });
    }
    None
}

impl<A: Allocator + Copy> Shared<A> {
    // Returns the log that the `State` leaves. The call allocates no memory.
    pub(crate) fn close(self, clients: &[Client<A>]) -> Result<Log<A>, CloseFault<A>>
        ensures whole { IfOk result (λ l. IsWhole l.entries.items clients.now l.entered) }
        ensures wrong { IfErr result (λ f.
            ClosesWith f.log.entries.items clients.now f.log.entered f.why) }
        ensures settled { IfOk result IsSettled }
        ensures fault_settled { IfErr result (λ f. IsSettled f.log) }
        ensures left { IfOk result (IsLeft self) }
        ensures fault_left { IfErr result (λ f. IsLeft self f.log) }
    {
        let Shared { state, entered } = self;
        let (timeline, breaks, entries) = state.into_parts();
        let why = found_wrong(&entries, clients, entered);
        let log = Log {
            entries,
            entered,
            timeline,
            breaks,
        };
        match why {
            None => Ok(log),
            Some(why) => Err(CloseFault { why, log }),
        }
    }
}

//! The claim word: one shared number from which each worker draws the piece that it searches next.
ghost use Rattle.std.specs.Prelude.{◌≡◌, ◌+◌, ◌*◌, ◌<◌, ◌≤◌, ℕ, [], length, IfOk};
ghost use Rattle.nd_time.specs.Limits.{max_kept, max_workers};
ghost use Rattle.nd_history.specs.Claims.{times, once_below};
ghost use Rattle.nd_history.specs.Hands.{hand, drew, dealt, share_of, joined, IsClaimed, IsOneWord};

use crate::hand::Hand;
use atomic_table::{Join, Play, Seat, Shared, Split, Table, TableRule};
use std::alloc::{AllocError, Allocator};

/// The rule of the claim word.
pub(crate) struct Claims;

// The key has the allowance of each worker's seat, and that of all seats.
impl TableRule<u8, Hand, (u64, u64)> for Claims {
    ghost holds = { λ k s. IsClaimed k.1 s.words s.views };

    ghost first = { λ k. hand k.0 k.1 [] };
}

/// A seat draws a number.
pub(crate) struct Draws;

impl Play<u8, Hand> for Draws {
    ghost then = { λ _ me n after. after ≡ (drew me.0 n, me.1) };
}

/// A seat gives away a worker's share of its allowance.
pub(crate) struct Deals;

impl Split<Hand> for Deals {
    ghost left = { λ v. dealt v };

    ghost right = { λ v. share_of v };
}

/// A seat takes over the drawn numbers and the allowance of another.
pub(crate) struct Merges;

impl Join<Hand> for Merges {
    ghost both = { λ v w. joined v w };

    ghost spent = { hand 0 0 [] };
}

pub(crate) type Board<A> = Table<u8, Hand, (u64, u64), Claims, A>;

pub(crate) type Word = Shared<u8, Hand, (u64, u64), Claims>;

pub(crate) type Ticket = Seat<u8, Hand>;

/// Opens a claim word at 0, and returns it with a seat that has the allowance of all workers.
pub(crate) fn open_board<A: Allocator>(
    alloc: A,
    workers: u64,
    each: u64,
) -> Result<(Board<A>, Ticket), AllocError>
    requires { (workers ≤ max_workers) × (each ≤ max_kept + 2) }
    ensures word { IfOk result (λ r. IsOneWord r.0.shared.table_id) }
    ensures key { IfOk result (λ r. r.0.shared.key ≡ (each, workers * each)) }
    ensures seat { IfOk result (λ r. r.1.table_id ≡ r.0.shared.table_id) }
    ensures hand { IfOk result (λ r. r.1.me ≡ (hand each (workers * each) [], [])) }
{
    Board::of_words(alloc, &[0], &(each, workers * each))
}

/// Draws the next number from the claim word.
pub(crate) fn draw(word: &Word, ticket: &mut Ticket) -> u64
    requires word { (ticket.old.table_id ≡ word.now.table_id) × (0 < word.now.table_id.words) }
    requires allowed { 0 < ticket.old.me.0.allowance }
    ensures ticket { (ticket.new.table_id ≡ ticket.old.table_id) × (ticket.new.id ≡ ticket.old.id) }
    ensures drawn { ticket.new.me ≡ (drew ticket.old.me.0 result, ticket.old.me.1) }
{
    word.fetch_add::<Draws>(ticket, 0, 1)
}

/// Splits off a seat for a worker.
pub(crate) fn share(word: &Word, ticket: &mut Ticket) -> Ticket
    requires word { (ticket.old.table_id ≡ word.now.table_id) × (0 < word.now.table_id.words) }
    requires allowed { ticket.old.me.0.each ≤ ticket.old.me.0.allowance }
    ensures seat { ticket.new.table_id ≡ ticket.old.table_id }
    ensures left { ticket.new.me ≡ (dealt ticket.old.me.0, ticket.old.me.1) }
    ensures given_seat { result.table_id ≡ ticket.old.table_id }
    ensures given { result.me ≡ (share_of ticket.old.me.0, []) }
{
    word.split_seat::<Deals>(ticket)
}

/// Joins a worker's seat to this one.
pub(crate) fn gather(word: &Word, ticket: &mut Ticket, other: Ticket)
    requires word { (ticket.old.table_id ≡ word.now.table_id) × (0 < word.now.table_id.words) }
    requires other { (other.table_id ≡ word.now.table_id) × (other.me.1 ≡ []) }
    ensures seat { ticket.new.table_id ≡ ticket.old.table_id }
    ensures joined { ticket.new.me ≡ (joined ticket.old.me.0 other.me.0, ticket.old.me.1) }
{
    word.join_seat::<Merges>(ticket, other);
}

/// Closes the claim word, and returns how many numbers were drawn: those below the result, each once. The
/// seat must have joined all others.
pub(crate) fn end_board<A: Allocator>(board: Board<A>, ticket: Ticket) -> u64
    requires seat { ticket.table_id ≡ board.shared.table_id }
    requires word { IsOneWord board.shared.table_id }
    requires whole { ticket.me.0.allowance + length ticket.me.0.drawn ≡ board.shared.key.1 }
    ensures each { (x : ℕ) → times x ticket.me.0.drawn ≡ once_below x result }
    ensures count { result ≡ length ticket.me.0.drawn }
{
    let closed = board.close_with(ticket);
    let word = closed.word(0);
    closed.free();
    word
}

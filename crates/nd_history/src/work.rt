//! One worker of a search.
ghost use Rattle.nd_history.specs.Works.{IsTeam, IsReady, IsWork};

use crate::Gate;
use crate::board::{Ticket, Word, draw};
use crate::piece::Scan;
use nd_timeline::Walk;
use std::alloc::Allocator;

/// The pieces that a worker has claimed, and their results in the same order. If an allocation failed, the
/// last piece has no result.
#[derive(Drop)]
pub(crate) struct Searched<A: Allocator> {
    pub(crate) claimed: Vec<u64, A>,
    pub(crate) found: Vec<Option<u64>, A>,
}

/// What a worker starts with.
#[derive(Drop)]
pub(crate) struct Job<A: Allocator + Copy> {
    pub(crate) number: u64,
    pub(crate) walk: Walk<A>,
    pub(crate) ticket: Ticket,
    pub(crate) searched: Searched<A>,
}

/// What a worker returns.
#[derive(Drop)]
pub(crate) struct Work<A: Allocator> {
    pub(crate) ticket: Ticket,
    pub(crate) searched: Searched<A>,
}

/// What all workers of a search share: what they search, the claim word, and the number of pieces.
#[derive(Drop)]
pub(crate) struct Team<'t, 's, A: Allocator + Copy, G> {
    pub(crate) scan: &'t Scan<'s, A, G>,
    pub(crate) word: &'t Word,
    pub(crate) pieces: u64,
}

impl<A: Allocator + Copy> Job<A> {
    /// Claims piece after piece, calls the gate for it and searches it, until a drawn number is no piece
    /// or an allocation fails.
    pub(crate) fn work<G: Gate>(self, team: &Team<A, G>) -> Work<A>
        requires team { IsTeam team.now }
        requires job { IsReady team.now self }
        ensures { IsWork team.now (G.called team.now.scan.now.gate.now self.number) result }
    {
        let Job {
            number,
            mut walk,
            mut ticket,
            mut searched,
        } = self;
        for _ in 0..team.pieces + 1 {
            let piece = draw(team.word, &mut ticket);
            if piece >= team.pieces {
                break;
            }
            searched.claimed.push_reserved(piece);
            team.scan.gate.call(number, piece);
            let Ok(found) = team.scan.search_piece(&mut walk, number, piece) else {
                break;
            };
            searched.found.push_reserved(found);
        }
        Work { ticket, searched }
    }
}

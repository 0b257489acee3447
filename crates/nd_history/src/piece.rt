//! The positions of a search, divided into pieces.
ghost use Rattle.std.specs.Prelude.{◌≡◌, ◌+◌, ◌*◌, ◌<◌, ◌≤◌, IfOk};
ghost use Rattle.nd_time.specs.Limits.{max_kept, piece_length};
ghost use Rattle.nd_timeline.specs.Walks.{IsOn};
ghost use Rattle.nd_history.specs.Least.{HoldsAt, IsLeast};
ghost use Rattle.nd_history.specs.Pieces.{IsRange, piece_count};
ghost use Rattle.nd_history.specs.Works.{IsResult};

use crate::Gate;
use nd_breaks::Condition;
use nd_time::limits::PIECE_LENGTH;
use nd_timeline::{Timeline, Walk};
use std::alloc::{AllocError, Allocator};

/// The positions from `lo` to `hi`, both included.
#[derive(Clone, Copy, Drop)]
pub(crate) struct Positions {
    pub(crate) lo: u64,
    pub(crate) hi: u64,
}

impl Positions {
    /// Returns the number of pieces.
    pub(crate) fn pieces(self) -> u64
        requires { self.lo ≤ self.hi }
        ensures { result ≡ piece_count self.lo self.hi }
    {
        (self.hi - self.lo) / PIECE_LENGTH + 1
    }
}

/// What the workers of a search share: the timeline, the condition, the positions to search, and the gate
/// that they call before each piece.
#[derive(Drop)]
pub(crate) struct Scan<'a, A: Allocator + Copy, G> {
    pub(crate) timeline: &'a Timeline<A>,
    pub(crate) condition: &'a Condition,
    pub(crate) positions: Positions,
    pub(crate) gate: &'a G,
}

impl<A: Allocator + Copy, G: Gate> Scan<'_, A, G> {
    /// Searches a piece for which worker `who` has called the gate, and returns the least position in it at
    /// which the condition holds.
    ///
    /// The walk goes to the piece from its current position, forward or backward.
    pub(crate) fn search_piece(
        &self,
        walk: &mut Walk<A>,
        who: u64,
        piece: u64,
    ) -> Result<Option<u64>, AllocError>
        requires called { G.called self.now.gate.now who piece }
        requires range { IsRange self.now.positions.lo self.now.positions.hi }
        requires piece { piece < piece_count self.now.positions.lo self.now.positions.hi }
        requires on { IsOn self.now.timeline.now walk.old }
        ensures found { IfOk result (IsResult (HoldsAt self.now.timeline.now self.now.condition.now)
            self.now.positions.lo self.now.positions.hi piece) }
        ensures on { IsOn self.now.timeline.now walk.new }
    {
        let start = self.positions.lo + PIECE_LENGTH * piece;
        let end = self.positions.hi.min(start + (PIECE_LENGTH - 1));
        first_hit(self.timeline, walk, self.condition, start, end)
    }
}

// Moves the walk over the positions from `from` to `to`, and returns the first at which the condition holds.
fn first_hit<A: Allocator + Copy>(
    timeline: &Timeline<A>,
    walk: &mut Walk<A>,
    condition: &Condition,
    from: u64,
    to: u64,
) -> Result<Option<u64>, AllocError>
    requires few { to ≤ max_kept }
    requires on { IsOn timeline.now walk.old }
    ensures found { IfOk result (IsLeast (HoldsAt timeline.now condition.now) from to) }
    ensures on { IsOn timeline.now walk.new }
{
    for i in from..to + 1 {
        let Ok(()) = timeline.walk_to(walk, i) else {
            return Err(AllocError);
        };
        if condition.holds(&walk.cluster) {
            return Ok(Some(i));
        }
    }
    Ok(None)
}

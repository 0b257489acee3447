//! The search of a timeline, and that of a snapshot.
ghost use Rattle.std.specs.Prelude.{◌≡◌, ◌≤◌, length, map, IfOk, IfErr, OnOk};
ghost use Rattle.nd_time.specs.Limits.{max_kept};
ghost use Rattle.nd_history.specs.Least.{HoldsAt, IsLeast};
ghost use Rattle.nd_history.specs.Answers.{MaySearch, CannotSearch, SearchFails, AnswerIsCalled, FaultIsCalled};

use crate::piece::{Positions, Scan};
use crate::table::{first, results};
use crate::team::search_all;
use crate::work::Searched;
use crate::{Gate, SearchFault};
use nd_breaks::Condition;
use nd_timeline::{Snapshot, Timeline};
use std::alloc::{AllocError, Allocator};
use std::thread::Threads;

// Returns the positions, or why there is nothing to search.
fn positions<A: Allocator + Copy>(
    timeline: &Timeline<A>,
    lo: u64,
    hi: u64,
    workers: u64,
) -> Result<Positions, SearchFault<A>>
    ensures positions { IfOk result (λ p. (p.lo ≡ lo) × (p.hi ≡ hi)) }
    ensures may { OnOk result (MaySearch (length timeline.now.kept) lo hi workers) }
    ensures few { OnOk result (hi ≤ max_kept) }
    ensures err { IfErr result (CannotSearch (length timeline.now.kept) lo hi workers) }
{
    if lo > hi {
        return Err(SearchFault::BadRange);
    }
    if workers == 0 {
        return Err(SearchFault::NoWorkers);
    }
    // A clause of this call says that no more than `max_kept` steps are kept.
    let _ = timeline.at();
    if hi > timeline.kept() {
        return Err(SearchFault::NoSuchPoint);
    }
    Ok(Positions { lo, hi })
}

// Returns the lists of the pieces that the workers have claimed.
fn claims<A: Allocator + Copy>(
    alloc: A,
    works: Vec<Searched<A>, A>,
) -> Result<Vec<Vec<u64, A>, A>, AllocError>
    ensures { IfOk result (λ v. v.items ≡ map (λ s. s.claimed) works.items) }
{
    let mut lists = Vec::with_capacity(alloc, works.len())?;
    for searched in works {
        lists.push_reserved(searched.claimed);
    }
    Ok(lists)
}

/// Returns the least position from `lo` to `hi`, both included, at which the condition holds.
///
/// At most 64 workers are started, each in its own thread and with its own cluster that walks over
/// the kept steps. The workers claim pieces of 16 positions, one after the
/// other, and call the gate before each. A worker stops if an allocation fails in its walk, and the
/// others continue.
pub fn search_in<A: Allocator + Copy + Send + Sync, R: Threads + Sync, G: Gate>(
    rt: &R,
    alloc: A,
    timeline: &Timeline<A>,
    condition: &Condition,
    lo: u64,
    hi: u64,
    workers: u64,
    gate: &G,
) -> Result<Option<u64>, SearchFault<A>>
    ensures found { IfOk result (IsLeast (HoldsAt timeline.now condition.now) lo hi) }
    ensures may { OnOk result (MaySearch (length timeline.now.kept) lo hi workers) }
    ensures fails { IfErr result (SearchFails timeline.now condition.now lo hi workers) }
    ensures called { IfOk result (AnswerIsCalled (G.called gate.now) lo hi workers) }
    ensures fault_called { IfErr result (FaultIsCalled (G.called gate.now)) }
{
    let scan = Scan {
        timeline: &*timeline,
        condition: &*condition,
        positions: positions(timeline, lo, hi, workers)?,
        gate: &*gate,
    };
    let works = search_all(rt, alloc, &scan, workers)?;
    let results = results(alloc, works.as_slice(), scan.positions.pieces())?;
    match first(results.as_slice()) {
        Ok(found) => Ok(found),
        Err(piece) => Err(SearchFault::Missing {
            piece,
            claimed: claims(alloc, works)?,
        }),
    }
}

/// Returns the least position of a snapshot from `lo` to `hi`, both included, at which the condition
/// holds, as `search_in` does.
pub fn search<A: Allocator + Copy + Send + Sync, R: Threads + Sync, G: Gate>(
    rt: &R,
    alloc: A,
    snapshot: &Snapshot<A>,
    condition: &Condition,
    lo: u64,
    hi: u64,
    workers: u64,
    gate: &G,
) -> Result<Option<u64>, SearchFault<A>>
    ensures found { IfOk result (IsLeast (HoldsAt snapshot.now.timeline condition.now) lo hi) }
    ensures may { OnOk result (MaySearch (length snapshot.now.timeline.kept) lo hi workers) }
    ensures fails { IfErr result (SearchFails snapshot.now.timeline condition.now lo hi workers) }
    ensures called { IfOk result (AnswerIsCalled (G.called gate.now) lo hi workers) }
    ensures fault_called { IfErr result (FaultIsCalled (G.called gate.now)) }
{
    search_in(
        rt,
        alloc,
        snapshot.timeline(),
        condition,
        lo,
        hi,
        workers,
        gate,
    )
}

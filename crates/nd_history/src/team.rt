//! The workers of a search: each has its own walk over the timeline, and its own thread.
ghost use Rattle.std.specs.Prelude.{◌≡◌, ◌+◌, ◌*◌, ◌≤◌, [], All, IfOk, vec_len};
ghost use Rattle.nd_time.specs.Limits.{max_kept, max_workers};
ghost use Rattle.nd_history.specs.Least.{HoldsAt};
ghost use Rattle.nd_history.specs.Pieces.{IsRange};
ghost use Rattle.nd_history.specs.Hands.{hand};
ghost use Rattle.nd_history.specs.Works.{IsTeam, IsReady, AreNumbered, HasDrawn, IsWork, IsEmpty, AreGathered, AreSearched};

use crate::Gate;
use crate::board::{Ticket, end_board, gather, open_board, share};
use crate::piece::Scan;
use crate::work::{Job, Searched, Team, Work};
use nd_time::limits::MAX_WORKERS;
use std::alloc::{AllocError, Allocator};
use std::thread;
use std::thread::Threads;

// Allocates the memory for what a worker claims and finds.
fn room<A: Allocator + Copy>(alloc: A, pieces: u64) -> Result<Searched<A>, AllocError>
    requires { pieces ≤ max_kept + 1 }
    ensures { IfOk result (IsEmpty pieces) }
{
    Ok(Searched {
        claimed: Vec::with_capacity(alloc, pieces as usize + 1)?,
        found: Vec::with_capacity(alloc, pieces as usize + 1)?,
    })
}

// Prepares the job of each worker: a walk, a seat, and memory for its results.
fn jobs<A: Allocator + Copy, G: Gate>(
    alloc: A,
    team: &Team<A, G>,
    ticket: &mut Ticket,
    workers: u64,
) -> Result<Vec<Job<A>, A>, AllocError>
    requires team { IsTeam team.now }
    requires seat { ticket.old.table_id ≡ team.now.word.now.table_id }
    requires hand { ticket.old.me ≡
        (hand (team.now.pieces + 1) (workers * (team.now.pieces + 1)) [], []) }
    requires few { workers ≤ max_workers }
    ensures all { IfOk result (λ v. All (IsReady team.now) v.items) }
    ensures len { IfOk result (λ v. vec_len v ≡ workers) }
    ensures numbered { IfOk result (λ v. AreNumbered v.items) }
    ensures seat { IfOk result (λ _. ticket.new.table_id ≡ team.now.word.now.table_id) }
    ensures hand { IfOk result (λ _. ticket.new.me ≡ (hand (team.now.pieces + 1) 0 [], [])) }
{
    let mut jobs = Vec::with_capacity(alloc, workers as usize)?;
    for number in 0..workers {
        let walk = team.scan.timeline.walk_near(alloc, team.scan.positions.lo)?;
        let searched = room(alloc, team.pieces)?;
        jobs.push_reserved(Job {
            number,
            walk,
            ticket: share(team.word, ticket),
            searched,
        });
    }
    Ok(jobs)
}

// Joins the seats of all workers, and returns what each has claimed and found.
fn gathered<A: Allocator + Copy, G: Gate>(
    alloc: A,
    team: &Team<A, G>,
    ticket: &mut Ticket,
    works: Vec<Work<A>, A>,
) -> Result<Vec<Searched<A>, A>, AllocError>
    requires team { IsTeam team.now }
    requires seat { ticket.old.table_id ≡ team.now.word.now.table_id }
    requires hand { ticket.old.me ≡ (hand (team.now.pieces + 1) 0 [], []) }
    requires all { All (HasDrawn team.now.word.now.table_id team.now.pieces) works.items }
    ensures seat { IfOk result (λ _. ticket.new.table_id ≡ team.now.word.now.table_id) }
    ensures gathered { IfOk result (λ v.
        AreGathered team.now.pieces works.items ticket.new.me.0 v.items) }
{
    let mut list = Vec::with_capacity(alloc, works.len())?;
    for work in works {
        let Work {
            ticket: other,
            searched,
        } = work;
        gather(team.word, ticket, other);
        list.push_reserved(searched);
    }
    Ok(list)
}

/// Runs the workers, joins their threads, and returns what each has claimed and found.
pub(crate) fn search_all<A: Allocator + Copy + Send + Sync, R: Threads + Sync, G: Gate>(
    rt: &R,
    alloc: A,
    scan: &Scan<A, G>,
    workers: u64,
) -> Result<Vec<Searched<A>, A>, AllocError>
    requires range { IsRange scan.now.positions.lo scan.now.positions.hi }
    ensures { IfOk result (λ v. AreSearched (HoldsAt scan.now.timeline.now scan.now.condition.now)
        (G.called scan.now.gate.now) scan.now.positions.lo scan.now.positions.hi workers v.items) }
{
    let pieces = scan.positions.pieces();
    let workers = workers.min(MAX_WORKERS);
    let (board, mut ticket) = open_board(alloc, workers, pieces + 1)?;
    let team = Team {
        scan: &*scan,
        word: &board.shared,
        pieces,
    };
    let jobs = jobs(alloc, &team, &mut ticket, workers)?;
    let worker = |job: Job<A>| -> Work<A>
        requires { IsTeam team × IsReady team job }
        ensures { IsWork team.entry (G.called team.entry.scan.now.gate.now job.number) result }
    { job.work(&team) };
    let works = thread::map_vec(rt, jobs, &worker)?;
    let list = gathered(alloc, &team, &mut ticket, works)?;
    end_board(board, ticket);
    Ok(list)
}

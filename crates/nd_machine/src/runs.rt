//! Runs.
ghost use Rattle.std.specs.Prelude.{◌≡◌, ◌↔◌, IfOk, IfSome, IsNone, IsTrue, option_copied, option_map};
ghost use Rattle.nd_cluster.specs.Candidates.{candidates_among};
ghost use Rattle.nd_cluster.specs.Choice.{AreRefused};
ghost use Rattle.nd_cluster.specs.Records.{IsPlanned};
ghost use Rattle.nd_machine.specs.Seeds.{IsChosen};
ghost use Rattle.nd_timeline.specs.Timeline.{cluster_of};
ghost use Rattle.nd_machine.specs.Moves.{ListsMissing, ran_reply, RunMoves};

use crate::seeds::mix;
use nd_breaks::Breaks;
use nd_cluster::Record;
use nd_protocol::{NoMemory, Processors, Refusal};
use nd_replies::{Fault, Ran, Stop};
use nd_time::limits::MAX_KEPT;
use nd_timeline::Timeline;
use std::alloc::Allocator;

// Returns whether the list has a processor that the timeline's cluster does not have.
fn lists_missing<A: Allocator + Copy>(timeline: &Timeline<A>, only: Option<&Processors<A>>) -> bool
    ensures { IsTrue result ↔ ListsMissing timeline.now (option_copied only.entry) }
{
    let n = timeline.cluster().n();
    match only {
        Some(listed) => listed.as_slice().iter().any(|p| *p as usize >= n),
        None => false,
    }
}

// Returns the record of the step that a run executes next; none if the run is idle.
fn next_planned<A: Allocator + Copy>(
    timeline: &Timeline<A>,
    only: Option<&Processors<A>>,
    seed: Option<u64>,
) -> Result<Option<Record<A>>, NoMemory>
    ensures chosen { IfOk result (λ r. IsChosen (cluster_of timeline.now)
        timeline.now.cursor (option_copied only.entry) seed
        (option_map (λ (r : Record A). r.step) r)) }
    ensures planned { IfOk result (λ r. IfSome r (λ r. IsPlanned r (cluster_of timeline.now))) }
    ensures none { IfOk result (λ r. IsNone r
        ↔ AreRefused {A = A} (cluster_of timeline.now)
        (candidates_among (cluster_of timeline.now) (option_copied only.entry))) }
{
    let cluster = timeline.cluster();
    let at = timeline.at();
    match seed {
        None => cluster.first_planned(at, only),
        Some(seed) => cluster.drawn_planned(mix(seed, at), only),
    }
}

/// Executes at most `limit` steps of a timeline, each time the first enabled one, until a breakpoint holds.
/// If processors are listed, the run skips all others. With a seed the run begins each time with a candidate
/// that the seed and the cursor determine.
pub fn run<A: Allocator + Copy>(
    timeline: &mut Timeline<A>,
    limit: u64,
    only: Option<&Processors<A>>,
    seed: Option<u64>,
    breaks: &Breaks<A>,
) -> Result<Ran, Fault>
    ensures { RunMoves timeline.old limit (option_copied only.entry) seed breaks.now
        (ran_reply result timeline.new) timeline.new }
{
    if limit > MAX_KEPT as u64 - timeline.at() {
        return Err(Fault::TimelineFull);
    }
    if lists_missing(timeline, only) {
        return Err(Fault::Step(Refusal::NoProcessor));
    }
    for ran in 0..limit {
        let at = timeline.at();
        let Ok(planned) = next_planned(timeline, only, seed) else {
            return Err(Fault::Memory { at });
        };
        let Some(record) = planned else {
            return Ok(Ran {
                ran,
                stop: Stop::Idle,
            });
        };
        match timeline.commit(record) {
            Ok(()) => {}
            Err(_) => return Err(Fault::Memory { at }),
        }
        if let Some(id) = breaks.first_hit(timeline.cluster()) {
            return Ok(Ran {
                ran: ran + 1,
                stop: Stop::Break(id),
            });
        }
    }
    Ok(Ran {
        ran: limit,
        stop: Stop::Limit,
    })
}

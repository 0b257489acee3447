//! Summaries one after the other, and on times.
ghost use Rattle.std.specs.Prelude.{◌≡◌, ◌↔◌, ◌≤◌, ℕ, List, All, IfSome, IsSome, length};
ghost use Rattle.nd_time.specs.Limits.{max_depth, max_counter};
ghost use Rattle.nd_summaries.specs.Summary.{applied, composed, left_by, IsInLimits};

use crate::Summary;
use crate::summary::Constants;
use arrayvec::ArrayVec;
use nd_time::Timestamp;
use nd_time::limits::MAX_DEPTH;

impl Summary {
    /// Returns the summary of a walk with this summary, followed by a walk with the other.
    ///
    /// Returns `None` if the other keeps more counters than this one leaves, or if the result would have a
    /// number above `u32::MAX` or leave more than `MAX_DEPTH` counters.
    pub fn then(&self, other: &Summary) -> Option<Summary>
        ensures some { IsSome result
            ↔ (other.now.keep ≤ left_by self.now) × IsInLimits (composed self.now other.now) }
        ensures value { IfSome result (λ u. u ≡ composed self.now other.now) }
        ensures effect { IfSome result (λ u. (counters : List ℕ) → self.now.keep ≤ length counters
            → applied u counters ≡ applied other.now (applied self.now counters)) }
    {
        let add = self.add;
        let own = self.constants.as_slice();
        let theirs = other.constants.as_slice();
        if other.keep > MAX_DEPTH || other.keep + theirs.len() > MAX_DEPTH {
            return None;
        }
        if other.keep < self.keep {
            return Some(other.copy());
        }
        if other.keep == self.keep {
            return Some(Summary {
                keep: self.keep,
                add: add.checked_add(other.add)?,
                constants: other.constants.copy(),
            });
        }
        let over = other.keep - self.keep;
        if over > own.len() {
            return None;
        }
        let rest = Summary {
            keep: over,
            add: other.add,
            constants: other.constants.copy(),
        };
        Some(Summary {
            keep: self.keep,
            add,
            constants: Constants::narrowed(rest.reached(own).as_slice())?,
        })
    }

    /// Returns the time into which a walk with this summary turns `time`.
    ///
    /// Returns `None` if the summary keeps more counters than the time has, or if the result would have a
    /// number above `u32::MAX` or more than `MAX_DEPTH` counters.
    pub fn apply(&self, time: &Timestamp) -> Option<Timestamp>
        ensures some { IsSome result ↔ (self.now.keep ≤ length time.now.counters)
            × (left_by self.now ≤ max_depth)
            × All (λ x. x ≤ max_counter) (applied self.now time.now.counters) }
        ensures value { IfSome result (λ t. t
            ≡ record { epoch = time.now.epoch; counters = applied self.now time.now.counters }) }
    {
        if self.keep > time.depth() || self.keep + self.constants.as_slice().len() > MAX_DEPTH {
            return None;
        }
        let counters = Constants::narrowed(self.reached(time.counters()).as_slice())?;
        Timestamp::new(time.epoch(), counters.as_slice())
    }
}

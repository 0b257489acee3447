//! The choice of the next step.
ghost use Rattle.std.specs.Prelude.{◌≤◌, ◌-◌, ◌<◌, ◌≡◌, ◌↔◌, IfOk, IfSome, IsNone, None, length, option_copied, option_map};
ghost use Rattle.std.specs.List.{range_with_len};
ghost use Rattle.nd_cluster.specs.Candidates.{AreComplete, candidates, candidates_among, candidates_if, candidates_of, candidates_on, may_run};
ghost use Rattle.std.specs.Prelude.{◌++◌, OnOk};
ghost use Rattle.nd_cluster.specs.Choice.{AreRefused, Chooses, Finds, Tries, turned_by, candidates_by, candidates_from};
ghost use Rattle.nd_cluster.specs.Order.{CandidatesAreInTurn, IdleMeansRefused, ChoiceIsFirst, IsNext};
ghost use Rattle.nd_cluster.specs.Records.{IsPlanned};

use crate::refuse::unless_memory;
use crate::{Cluster, NoMemory, Record, Step};
use nd_protocol::Processors;
use std::alloc::{AllocError, Allocator};

// Returns whether a run goes through processor `p`: through every one, or through those that are listed.
fn may_run<A: Allocator>(only: Option<&Processors<A>>, p: u32) -> bool
    ensures { result ≡ may_run (option_copied only.entry) p }
{
    match only {
        Some(listed) => listed.as_slice().contains(&p),
        None => true,
    }
}

/// States that the list of candidates from a turn on is in order and complete, and that the choice among them is the
/// first enabled candidate.
pub fn candidates_are_in_turn<A: Allocator>()
    ensures turn { CandidatesAreInTurn A }
    ensures first { ChoiceIsFirst A }
    ensures idle { IdleMeansRefused A }
{}

impl<A: Allocator + Copy> Cluster<A> {
    // Returns the record of a step, or none if the step is refused.
    pub(crate) fn tried(&self, step: Step<A>) -> Result<Option<Record<A>>, NoMemory>
        ensures { IfOk result (Tries self.now step) }
    {
        match self.plan_of(step) {
            Ok(record) => Ok(Some(record)),
            Err(refusal) => {
                let _ = unless_memory(refusal)?;
                Ok(None)
            }
        }
    }

    // Returns the record of the first enabled candidate of a processor.
    fn first_on(&self, p: u32) -> Result<Option<Record<A>>, NoMemory>
        requires { p < length self.now.processors }
        ensures { IfOk result (Finds {A = A} self.now (candidates_of self.now p)) }
    {
        for step in self.candidates_of(p) {
            if let Some(record) = self.tried(step)? {
                return Ok(Some(record));
            }
        }
        Ok(None)
    }

    // Returns the record of the first enabled candidate of a processor; none if a run skips the processor.
    fn first_if(&self, only: Option<&Processors<A>>, p: u32) -> Result<Option<Record<A>>, NoMemory>
        requires { p < length self.now.processors }
        ensures { IfOk result (Finds {A = A} self.now
            (candidates_if self.now (option_copied only.entry) p)) }
    {
        if may_run(only, p) {
            self.first_on(p)
        } else {
            Ok(None)
        }
    }

    // Returns the record of the first enabled candidate of the processors from `lo` on and below `hi`.
    fn first_between<'a>(
        &'a self,
        only: Option<&'a Processors<A>>,
        lo: u32,
        hi: u32,
    ) -> Result<Option<Record<A>>, NoMemory>
        requires { hi ≤ length self.now.processors }
        ensures { IfOk result (Finds {A = A} self.now
            (candidates_on self.now (option_copied only.entry) (range_with_len lo (hi - lo)))) }
    {
        for p in lo..hi {
            if let Some(record) = self.first_if(only, p)? {
                return Ok(Some(record));
            }
        }
        Ok(None)
    }

    // Returns the record of the first enabled candidate, beginning with the turn's processor.
    fn first_from<'a>(
        &'a self,
        turn: u64,
        only: Option<&'a Processors<A>>,
    ) -> Result<Option<Record<A>>, NoMemory>
        ensures { IfOk result (Finds {A = A} self.now
            (candidates_from self.now turn (option_copied only.entry))) }
    {
        let n = self.processor_count();
        let first = (turn % u64::from(n)) as u32;
        match self.first_between(only, first, n)? {
            Some(record) => Ok(Some(record)),
            None => self.first_between(only, 0, first),
        }
    }

    /// Returns the record of the first enabled step, beginning with the turn's processor: for each processor a receive,
    /// otherwise a take, otherwise a notice, otherwise the broadcast of all that is unsent. If processors are listed, the
    /// others are skipped.
    ///
    /// There is none exactly if no candidate of these processors is enabled.
    pub fn first_planned<'a>(
        &'a self,
        turn: u64,
        only: Option<&'a Processors<A>>,
    ) -> Result<Option<Record<A>>, NoMemory>
        ensures chosen { IfOk result (λ r. Chooses self.now
            (candidates_from self.now turn (option_copied only.entry))
            (option_map (λ (r : Record A). r.step) r)) }
        ensures first { IfOk result (λ r. IsNext self.now turn (option_copied only.entry)
            (option_map (λ (r : Record A). r.step) r)) }
        ensures planned { IfOk result (λ r. IfSome r (λ r. IsPlanned r self.now)) }
        ensures complete { AreComplete {A = A} self.now (option_copied only.entry)
            (candidates_from self.now turn (option_copied only.entry)) }
        ensures none { IfOk result (λ r. IsNone r
            ↔ AreRefused {A = A} self.now (candidates_among self.now (option_copied only.entry))) }
    {
        candidates_are_in_turn::<A>();
        self.first_from(turn, only)
    }

    // Appends the candidates of a processor; none if a run skips the processor.
    fn push_candidates(
        &self,
        steps: &mut Vec<Step<A>, A>,
        only: Option<&Processors<A>>,
        p: u32,
    ) -> Result<(), AllocError>
        requires { p < length self.now.processors }
        ensures { OnOk result (steps.new.items
            ≡ steps.old.items ++ candidates_if self.now (option_copied only.entry) p) }
    {
        if !may_run(only, p) {
            return Ok(());
        }
        for step in self.candidates_of(p) {
            steps.push(step)?;
        }
        Ok(())
    }

    /// Returns the candidates of all processors, by processor. If processors are listed, the others are skipped.
    pub fn all_candidates<'a>(
        &'a self,
        only: Option<&'a Processors<A>>,
    ) -> Result<Vec<Step<A>, A>, AllocError>
        ensures all { IfOk result (λ xs. xs.items
            ≡ candidates_among self.now (option_copied only.entry)) }
        ensures complete { IfOk result (λ xs. AreComplete {A = A} self.now
            (option_copied only.entry) xs.items) }
    {
        let mut steps = Vec::new(self.alloc);
        for p in 0..self.processor_count() {
            self.push_candidates(&mut steps, only, p)?;
        }
        Ok(steps)
    }

    // Returns the record of a copy of a step, or none if the step is refused.
    fn tried_copy(&self, step: &Step<A>) -> Result<Option<Record<A>>, NoMemory>
        ensures { IfOk result (Tries self.now step.now) }
    {
        let Ok(step) = step.copy(self.alloc) else {
            return Err(NoMemory);
        };
        self.tried(step)
    }

    // Returns the record of the first of some steps that is enabled.
    fn first_of(&self, steps: &[Step<A>]) -> Result<Option<Record<A>>, NoMemory>
        ensures { IfOk result (Finds {A = A} self.now steps.now) }
    {
        for step in steps {
            if let Some(record) = self.tried_copy(step)? {
                return Ok(Some(record));
            }
        }
        Ok(None)
    }

    // Returns the record of the first of some steps that is enabled, beginning with the place of a lot.
    fn first_by_lot(&self, steps: &[Step<A>], lot: u64) -> Result<Option<Record<A>>, NoMemory>
        ensures { IfOk result (Finds {A = A} self.now (turned_by lot steps.now)) }
    {
        if steps.is_empty() {
            return Ok(None);
        }
        let place = (lot % steps.len() as u64) as usize;
        match self.first_of(&steps[place..])? {
            Some(record) => Ok(Some(record)),
            None => self.first_of(&steps[..place]),
        }
    }

    /// Returns the record of the first enabled candidate, starting at candidate `lot` modulo their count
    /// and wrapping around. If processors are listed, the candidates of the others do not count.
    ///
    /// There is none exactly if no candidate of these processors is enabled.
    pub fn drawn_planned<'a>(
        &'a self,
        lot: u64,
        only: Option<&'a Processors<A>>,
    ) -> Result<Option<Record<A>>, NoMemory>
        ensures chosen { IfOk result (λ r. Chooses self.now
            (candidates_by self.now lot (option_copied only.entry))
            (option_map (λ (r : Record A). r.step) r)) }
        ensures planned { IfOk result (λ r. IfSome r (λ r. IsPlanned r self.now)) }
        ensures none { IfOk result (λ r. IsNone r
            ↔ AreRefused {A = A} self.now (candidates_among self.now (option_copied only.entry))) }
    {
        let Ok(steps) = self.all_candidates(only) else {
            return Err(NoMemory);
        };
        self.first_by_lot(&steps, lot)
    }

    /// Returns the step of the record that `first_planned` returns if every processor may run.
    pub fn first_enabled(&self, turn: u64) -> Result<Option<Step<A>>, NoMemory>
        ensures first { IfOk result (IsNext self.now turn None) }
        ensures chosen { IfOk result (Chooses self.now (candidates_from self.now turn None)) }
        ensures none { IfOk result (λ x. IsNone x
            ↔ AreRefused {A = A} self.now (candidates self.now)) }
    {
        match self.first_planned(turn, None)? {
            Some(record) => Ok(Some(record.into_step())),
            None => Ok(None),
        }
    }
}

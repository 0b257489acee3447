//! The steps that a run could try, each with the answer of a plan.
ghost use Rattle.std.specs.Prelude.{◌≡◌, ◌<◌, ◌++◌, ◌∷◌, [], IfOk, None, OnOk, length};
ghost use Rattle.nd_protocol.specs.State.{ClusterState};
ghost use Rattle.nd_cluster.specs.Candidates.{AreComplete, AreListed, IsAnswer, IsAnswered, Lists, candidates, candidates_of};

use crate::refuse::unless_memory;
use crate::{Cluster, NoMemory, Refusal, Step};
use nd_time::limits::MAX_TOLD;
use std::alloc::{AllocError, Allocator, Global};
use std::marker::Model;

/// A step that a run could try, and what stands in its way.
#[derive(Drop)]
pub struct Candidate<A: Allocator = Global> {
    /// The step: a take, a notice, a receive, or a broadcast of all that is unsent.
    pub step: Step<A>,
    /// The refusal with the least number, or none if the step is enabled.
    pub refusal: Option<Refusal>,
}

/// A list of candidates, by processor.
#[derive(Drop)]
pub struct CandidateList<A: Allocator = Global> {
    items: Vec<Candidate<A>, A>,
}

impl<A: Allocator> Model for CandidateList<A> {
    ghost use Rattle.std.specs.Prelude.{List};
    ghost use Rattle.nd_cluster.specs.declared.candidate.Candidate.{Candidate};

    ghost Value = { List (Candidate A) };

    ghost view = { λ a. a.items.items };
}

impl<A: Allocator> CandidateList<A> {
    // Returns an empty list.
    fn new(alloc: A) -> CandidateList<A>
        ensures { result ≡ [] }
    {
        CandidateList {
            items: Vec::new(alloc),
        }
    }

    /// Returns the candidates.
    pub fn as_slice(&self) -> &[Candidate<A>]
        ensures { result.now ≡ self.now }
    {
        &self.items
    }

    // Appends a candidate.
    fn push(&mut self, candidate: Candidate<A>) -> Result<(), AllocError>
        ensures { OnOk result (self.new ≡ self.old ++ candidate ∷ []) }
    {
        self.items.push(candidate)?;
        Ok(())
    }
}

/// The candidates of a cluster.
#[derive(Drop)]
pub struct Candidates<A: Allocator = Global> {
    /// The first 1,000 of them, or all if there are no more.
    pub list: CandidateList<A>,
    /// Whether there are more.
    pub more: bool,
}

impl<A: Allocator> Candidates<A> {
    // Returns the list of no steps.
    fn new(alloc: A) -> Candidates<A>
        ensures { (s : ClusterState) → AreListed s [] result }
    {
        Candidates {
            list: CandidateList::new(alloc),
            more: false,
        }
    }
}

impl<A: Allocator + Copy> Cluster<A> {
    // Returns the refusal of a step, or none if the step is enabled.
    fn refusal_of(&self, step: &Step<A>) -> Result<Option<Refusal>, NoMemory>
        ensures { IfOk result (IsAnswer self.now step.now) }
    {
        let Err(refusal) = self.changes_of(step) else {
            return Ok(None);
        };
        Ok(Some(unless_memory(refusal)?))
    }

    // Returns a step with the answer of a plan.
    fn answered(&self, step: Step<A>) -> Result<Candidate<A>, NoMemory>
        ensures step { IfOk result (λ c. c.step ≡ step) }
        ensures answered { IfOk result (IsAnswered self.now) }
    {
        let refusal = self.refusal_of(&step)?;
        Ok(Candidate { step, refusal })
    }

    // Lists one more step, or records that there are more steps than are listed.
    fn list_step(&self, listed: &mut Candidates<A>, step: Step<A>) -> Result<(), NoMemory>
        ensures { OnOk result (Lists self.now (step ∷ []) listed.old listed.new) }
    {
        if listed.list.as_slice().len() >= MAX_TOLD {
            listed.more = true;
            return Ok(());
        }
        let candidate = self.answered(step)?;
        let Ok(()) = listed.list.push(candidate) else {
            return Err(NoMemory);
        };
        Ok(())
    }

    // Lists the candidates of a processor. Stops when there are more than are listed.
    fn list_on(&self, listed: &mut Candidates<A>, p: u32) -> Result<(), NoMemory>
        requires { p < length self.now.processors }
        ensures { OnOk result (Lists self.now (candidates_of self.now p) listed.old listed.new) }
    {
        for step in self.candidates_of(p) {
            if listed.more {
                return Ok(());
            }
            self.list_step(listed, step)?;
        }
        Ok(())
    }

    /// Lists the steps that a run could try, each with the refusal that stands in its way, if any.
    ///
    /// For each processor these are: a receive from each queue that is not empty, a take of each record, a notice of each
    /// request, and a broadcast of all that is unsent, if anything is. Lists the first 1,000, and says whether there are
    /// more. Changes nothing.
    pub fn candidates(&self) -> Result<Candidates<A>, NoMemory>
        ensures listed { IfOk result (AreListed self.now (candidates self.now)) }
        ensures complete { AreComplete {A = A} self.now None (candidates self.now) }
    {
        let mut listed = Candidates::new(self.alloc);
        for p in 0..self.processor_count() {
            self.list_on(&mut listed, p)?;
        }
        Ok(listed)
    }
}

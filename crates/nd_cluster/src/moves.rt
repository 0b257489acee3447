//! The moves of a cluster: what can happen next, and what users may do.
ghost use Rattle.std.specs.Prelude.{◌≡◌, ◌<◌, ◌∷◌, [], IfOk, OnOk, length};
ghost use Rattle.nd_cluster.specs.Candidates.{candidates, candidates_of};
ghost use Rattle.nd_cluster.specs.Moves.{AddsPlanned, ArePlanned, feeds_at, feeds_if, feeds_into, feeds_of, releases_at, releases_if, releases_of, tries};
ghost use Rattle.nd_protocol.specs.declared.step.Step.TheVariants.{Feed as Feeding};

use crate::{Cluster, Next, NoMemory, Record, Step, Values};
use nd_paths::Pointstamp;
use nd_protocol::{BoxedTimes, Times};
use nd_steps::op_at;
use std::alloc::Allocator;

/// Which steps of users are among the moves, besides the candidates.
#[derive(Clone, Copy, Debug, PartialEq, Eq, Drop)]
pub struct Allowed {
    /// Feeds of nothing, to the next epoch and to close an input.
    pub feeds: bool,
    /// Releases that drop a capability.
    pub releases: bool,
}

// The records of moves.
type Moves<A> = Vec<Record<A>, A>;

impl<A: Allocator + Copy> Cluster<A> {
    // Adds the record of a step, unless the step is refused.
    fn add_move(&self, moves: &mut Moves<A>, step: Step<A>) -> Result<(), NoMemory>
        ensures { OnOk result (AddsPlanned self.now (step ∷ []) moves.old.items moves.new.items) }
    {
        let Some(record) = self.tried(step)? else {
            return Ok(());
        };
        let Ok(()) = moves.push(record) else {
            return Err(NoMemory);
        };
        Ok(())
    }

    // Adds the records of a processor's enabled candidates.
    fn add_candidates_of(&self, moves: &mut Moves<A>, p: u32) -> Result<(), NoMemory>
        requires { p < length self.now.processors }
        ensures { OnOk result (AddsPlanned self.now
            (candidates_of self.now p) moves.old.items moves.new.items) }
    {
        for step in self.candidates_of(p) {
            self.add_move(moves, step)?;
        }
        Ok(())
    }

    // Adds the records of all enabled candidates.
    fn add_candidates(&self, moves: &mut Moves<A>) -> Result<(), NoMemory>
        ensures { OnOk result (AddsPlanned self.now
            (candidates self.now) moves.old.items moves.new.items) }
    {
        for p in 0..self.processor_count() {
            self.add_candidates_of(moves, p)?;
        }
        Ok(())
    }

    // Returns the feed of nothing into an input vertex.
    fn feed_of_nothing(&self, p: u32, vertex: usize, next: Next) -> Step<A>
        ensures { result ≡ Feeding p vertex [] next }
    {
        Step::Feed {
            p,
            vertex,
            values: Values::new(self.alloc),
            next,
        }
    }

    // Adds the records of a processor's enabled feeds of nothing into an input vertex.
    fn add_feeds_into(&self, moves: &mut Moves<A>, p: u32, vertex: usize) -> Result<(), NoMemory>
        ensures { OnOk result (AddsPlanned self.now
            (feeds_into p vertex) moves.old.items moves.new.items) }
    {
        self.add_move(moves, self.feed_of_nothing(p, vertex, Next::Next))?;
        self.add_move(moves, self.feed_of_nothing(p, vertex, Next::Close))
    }

    // Adds the records of a processor's enabled feeds of nothing into a vertex; none unless the vertex is an input.
    fn add_feeds_at(&self, moves: &mut Moves<A>, p: u32, vertex: usize) -> Result<(), NoMemory>
        ensures { OnOk result (AddsPlanned self.now
            (feeds_at self.now p vertex) moves.old.items moves.new.items) }
    {
        if !op_at(self.graph(), vertex).is_input() {
            return Ok(());
        }
        self.add_feeds_into(moves, p, vertex)
    }

    // Adds the records of a processor's enabled feeds of nothing.
    fn add_feeds_of(&self, moves: &mut Moves<A>, p: u32) -> Result<(), NoMemory>
        ensures { OnOk result (AddsPlanned self.now
            (feeds_of self.now p) moves.old.items moves.new.items) }
    {
        for vertex in 0..self.graph().vertices().len() {
            self.add_feeds_at(moves, p, vertex)?;
        }
        Ok(())
    }

    // Adds the records of all enabled feeds of nothing, if feeds are allowed.
    fn add_feeds(&self, moves: &mut Moves<A>, allowed: Allowed) -> Result<(), NoMemory>
        ensures { OnOk result (AddsPlanned self.now
            (feeds_if allowed self.now) moves.old.items moves.new.items) }
    {
        if !allowed.feeds {
            return Ok(());
        }
        for p in 0..self.processor_count() {
            self.add_feeds_of(moves, p)?;
        }
        Ok(())
    }

    // Adds the record of the release that drops a processor's capability, if the release is enabled.
    fn add_releases_at(
        &self,
        moves: &mut Moves<A>,
        p: u32,
        point: &Pointstamp,
    ) -> Result<(), NoMemory>
        ensures { OnOk result (AddsPlanned self.now
            (releases_at self.now p point.now) moves.old.items moves.new.items) }
    {
        if !op_at(self.graph(), point.location).holds() {
            return Ok(());
        }
        let times = Times {
            time: point.time.copy(),
            to: None,
        };
        let Ok(times) = BoxedTimes::new(self.alloc, times) else {
            return Err(NoMemory);
        };
        self.add_move(
            moves,
            Step::Release {
                p,
                vertex: point.location,
                times,
            },
        )
    }

    // Adds the records of a processor's enabled releases that drop a capability.
    fn add_releases_of(&self, moves: &mut Moves<A>, p: u32) -> Result<(), NoMemory>
        requires { p < length self.now.processors }
        ensures { OnOk result (AddsPlanned self.now
            (releases_of self.now p) moves.old.items moves.new.items) }
    {
        for (point, _) in self.processor(p as usize).requests() {
            self.add_releases_at(moves, p, point)?;
        }
        Ok(())
    }

    // Adds the records of all enabled releases that drop a capability, if releases are allowed.
    fn add_releases(&self, moves: &mut Moves<A>, allowed: Allowed) -> Result<(), NoMemory>
        ensures { OnOk result (AddsPlanned self.now
            (releases_if allowed self.now) moves.old.items moves.new.items) }
    {
        if !allowed.releases {
            return Ok(());
        }
        for p in 0..self.processor_count() {
            self.add_releases_of(moves, p)?;
        }
        Ok(())
    }

    /// Returns the records of the moves, in order: of the enabled candidates, then of the enabled feeds of nothing, and then
    /// of the enabled releases that drop a capability, if these are allowed. Changes nothing.
    pub fn moves(&self, allowed: Allowed) -> Result<Vec<Record<A>, A>, NoMemory>
        ensures { IfOk result (λ v. ArePlanned self.now (tries allowed self.now) v.items) }
    {
        let mut moves = Vec::new(self.alloc);
        self.add_candidates(&mut moves)?;
        self.add_feeds(&mut moves, allowed)?;
        self.add_releases(&mut moves, allowed)?;
        Ok(moves)
    }
}

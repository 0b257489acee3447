//! The search for a state at which a condition holds, breadth first.
ghost use Rattle.std.specs.Prelude.{◌≡◌, ◌<◌, ◌≤◌, [], ℕ, List, Some, slice_get, length, IfErr, IfOk, OnOk, IfSome};
ghost use Rattle.nd_protocol.specs.declared.step.Step.{Step};
ghost use Rattle.nd_cluster.specs.Records.{IsPlanned};
ghost use Rattle.nd_cluster.specs.Saved.{IsSaved};
ghost use Rattle.nd_reach.specs.Found.{GoesOn, HasTried, HasExpanded, HasRun, HasBegun, HasWalked, Stays};
ghost use Rattle.nd_reach.specs.Questions.{wanted};
ghost use Rattle.nd_reach.specs.Faults.{CannotReach, MayReach};
ghost use Rattle.nd_reach.specs.declared.fault.ReachFault.TheVariants.{Memory};
ghost use Rattle.nd_reach.specs.Reach.{IsExact, IsReached};

use crate::found::Found;
use crate::going::{walk, walker_at};
use crate::node::Node;
use crate::way::way_to;
use crate::{Allowed, ReachFault, Reached, forms_determine_states};
use nd_breaks::Condition;
use nd_cluster::{Cluster, Record, Saved};
use nd_time::limits::MAX_REACHED;
use std::alloc::{AllocError, Allocator};

/// The most moves that a walk makes from where it begins.
const MOST_MOVES: u32 = 128;

/// The most moves that a walk undoes and makes from the state that was looked at last.
const NEAR: u32 = 32;

/// Why a search ends before all moves of all states were tried.
#[derive(Clone, Copy, Drop)]
pub(crate) enum End {
    /// The condition holds at the state that was found last.
    Hit,
    /// There is another state, and no more may be looked at.
    Full,
}

/// What a search looks for.
#[derive(Drop)]
pub(crate) struct Question<'a, A: Allocator + Copy> {
    pub(crate) alloc: A,
    pub(crate) start: &'a Cluster<A>,
    pub(crate) allowed: Allowed,
    pub(crate) when: &'a Condition,
    pub(crate) limit: u64,
}

impl<'a, A: Allocator + Copy> Question<'a, A> {
    // Returns a saved copy of the state if at least `MOST_MOVES` moves have passed since the last one.
    fn saved(&self, walker: &Cluster<A>, moves: u32) -> Result<Option<Box<Saved<A>, A>>, AllocError>
        ensures { IfOk result (λ o. IfSome o (λ b. IsSaved walker.now b.value)) }
    {
        if moves < MOST_MOVES {
            return Ok(None);
        }
        let saved = walker.saved(self.alloc)?;
        let Ok(boxed) = Box::new(self.alloc, saved) else {
            return Err(AllocError);
        };
        Ok(Some(boxed))
    }

    // Executes a move, looks at the state to which it leads, and undoes the move.
    fn try_move(
        &self,
        found: &mut Found<A>,
        walker: &mut Cluster<A>,
        at: usize,
        made: Record<A>,
    ) -> Result<Option<End>, ReachFault>
        requires planned { IsPlanned made walker.old }
        requires there { at < length found.old.nodes.items }
        ensures err { IfErr result (λ e. e ≡ Memory) }
        ensures stays { IfOk result (λ end. Stays end walker.old walker.new) }
        ensures tried { IfOk result (λ end. (moves : List (Step A)) (n : ℕ)
            → GoesOn (wanted self.now)
            found.old.forms.keys found.old.nodes.items at walker.old moves n
            → slice_get moves n ≡ Some made.step
            → HasTried (wanted self.now)
            found.new.forms.keys found.new.nodes.items at walker.new moves n end) }
    {
        forms_determine_states();
        walker.commit(&made)?;
        if found.has(walker)? {
            walker.back(&made)?;
            return Ok(None);
        }
        if found.nodes.len() as u64 >= self.limit {
            return Ok(Some(End::Full));
        }
        let moves = found.nodes[at].moves.saturating_add(1);
        let saved = self.saved(walker, moves)?;
        let holds = self.when.holds(walker);
        walker.back(&made)?;
        let node = Node::new(at, made.small(), moves, saved);
        found.add(self.alloc, node)?;
        if holds { Ok(Some(End::Hit)) } else { Ok(None) }
    }

    // Brings the walker from the state that was found at the place `last` to the one at the place `at`.
    fn go(
        &self,
        found: &Found<A>,
        walker: &mut Cluster<A>,
        last: usize,
        at: usize,
    ) -> Result<(), ReachFault>
        requires walked { HasWalked (wanted self.now)
            found.now.forms.keys found.now.nodes.items at last walker.old }
        requires there { at < length found.now.nodes.items }
        requires order { last ≤ at }
        ensures err { IfErr result (λ e. e ≡ Memory) }
        ensures ok { OnOk result (HasWalked (wanted self.now)
            found.now.forms.keys found.now.nodes.items at at walker.new) }
    {
        if !walk(&found.nodes, walker, last, at, NEAR)? {
            *walker = walker_at(self.alloc, self.start, &found.nodes, at)?;
        }
        Ok(())
    }

    // Tries all moves of a state that was found. The walker comes from the state at the place `last`.
    fn expand(
        &self,
        found: &mut Found<A>,
        walker: &mut Cluster<A>,
        last: usize,
        at: usize,
    ) -> Result<Option<End>, ReachFault>
        requires walked { HasWalked (wanted self.now)
            found.old.forms.keys found.old.nodes.items at last walker.old }
        requires there { at < length found.old.nodes.items }
        requires order { last ≤ at }
        ensures err { IfErr result (λ e. e ≡ Memory) }
        ensures ok { IfOk result (HasExpanded (wanted self.now)
            found.new.forms.keys found.new.nodes.items at walker.new) }
    {
        self.go(found, walker, last, at)?;
        let moves = walker.moves(self.allowed)?;
        for made in moves {
            if let Some(end) = self.try_move(found, walker, at, made)? {
                return Ok(Some(end));
            }
        }
        Ok(None)
    }

    // Looks at the state in which the search begins, and returns whether the condition holds there.
    fn begin(&self, found: &mut Found<A>) -> Result<bool, ReachFault>
        requires forms { found.old.forms.keys ≡ [] }
        requires nodes { found.old.nodes.items ≡ [] }
        requires limit { 0 < self.now.limit }
        ensures err { IfErr result (λ e. e ≡ Memory) }
        ensures ok { IfOk result (HasBegun (wanted self.now)
            found.new.forms.keys found.new.nodes.items) }
    {
        let _is_new = found.has(self.start)?;
        found.add(self.alloc, Node::start())?;
        Ok(self.when.holds(self.start))
    }

    // Looks at the state in which the search begins, and then tries the moves of each state that was found, in order.
    pub(crate) fn run(&self, found: &mut Found<A>) -> Result<Option<End>, ReachFault>
        requires forms { found.old.forms.keys ≡ [] }
        requires nodes { found.old.nodes.items ≡ [] }
        requires limit { 0 < self.now.limit }
        ensures err { IfErr result (λ e. e ≡ Memory) }
        ensures ok { IfOk result (HasRun (wanted self.now)
            found.new.forms.keys found.new.nodes.items) }
    {
        if self.begin(found)? {
            return Ok(Some(End::Hit));
        }
        let mut walker = self.start.copy(self.alloc)?;
        let (mut last, mut at) = (0, 0);
        while at < found.nodes.len() {
            if let Some(end) = self.expand(found, &mut walker, last, at)? {
                return Ok(Some(end));
            }
            last = at;
            at += 1;
        }
        Ok(None)
    }

    // Returns the answer after the search has ended.
    fn answer(&self, found: &Found<A>, end: Option<End>) -> Result<Reached<A>, ReachFault>
        requires run { HasRun (wanted self.now) found.now.forms.keys found.now.nodes.items end }
        requires limit { 0 < self.now.limit }
        ensures err { IfErr result (λ e. e ≡ Memory) }
        ensures reached { IfOk result (IsReached self.now.allowed self.now.when.now
            self.now.limit self.now.start.now) }
    {
        let count = found.nodes.len();
        let Some(end) = end else {
            return Ok(Reached::Nowhere {
                states: count as u64,
                whole: true,
            });
        };
        match end {
            End::Hit => {
                let steps = way_to(self.alloc, &found.nodes, count - 1)?;
                Ok(Reached::Way(steps))
            }
            End::Full => Ok(Reached::Nowhere {
                states: count as u64,
                whole: false,
            }),
        }
    }
}

/// Looks for the shortest list of moves from a state to one at which a condition holds, among the first `limit` states that
/// are reached, in the order of their least ways.
///
/// Changes nothing. The allocator is for the states that are found, which are kept as bytes.
pub fn reach<A: Allocator + Copy>(
    alloc: A,
    cluster: &Cluster<A>,
    allowed: Allowed,
    when: &Condition,
    limit: u64,
) -> Result<Reached<A>, ReachFault>
    ensures may { OnOk result (MayReach limit) }
    ensures reached { IfOk result (IsReached allowed when.now limit cluster.now) }
    ensures exact { IfOk result (IsExact allowed when.now cluster.now) }
    ensures cannot { IfErr result (CannotReach limit) }
{
    if limit == 0 || limit > MAX_REACHED {
        return Err(ReachFault::BadRange);
    }
    let question = Question {
        alloc,
        start: cluster,
        allowed,
        when,
        limit,
    };
    let mut found = Found::new(alloc);
    let end = question.run(&mut found)?;
    let reached = question.answer(&found, end)?;
    Ok(reached)
}

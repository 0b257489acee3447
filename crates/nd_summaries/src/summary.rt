//! Path summaries.
ghost use Rattle.std.specs.Prelude.{◌≡◌, ◌+◌, ◌-◌, ◌<◌, ◌≤◌, ◌↔◌, [], ◌∷◌, ◌++◌, length, All, IfSome, IsTrue, IsSome, MatchBool, slice_index};
ghost use Rattle.std.specs.Option.{option_to_list};
ghost use Rattle.nd_summaries.specs.Summary.{raised as raised_by};
ghost use Rattle.nd_time.specs.Limits.{max_depth, max_counter};
ghost use Rattle.std.specs.Ordering.{is_lt};
ghost use Rattle.nd_time.specs.Time.{IsLexicallyAtMost};
ghost use Rattle.nd_time.specs.Order.{AreAtMost, IsEachAtMost};
ghost use Rattle.nd_summaries.specs.Steps.{at_most, each_at_most};
ghost use Rattle.nd_summaries.specs.Summary.{listing_cmp, AtMost};

use arrayvec::ArrayVec;
use nd_graph::Action;
use nd_time::TimeOrder;
use nd_time::limits::MAX_DEPTH;
use std::marker::Model;

/// The constants of a summary, at most `MAX_DEPTH`, outermost first.
///
/// An `ArrayVec` fills its free places with `Default` values.
#[derive(Debug, Default, PartialEq, Eq, Drop)]
pub struct Constants {
    numbers: ArrayVec<u32, MAX_DEPTH>,
}

impl Model for Constants {
    ghost use Rattle.std.specs.Prelude.{ℕ, List};

    ghost Value = { List ℕ };

    ghost view = { λ a. a.numbers.items };

    ghost inverse = { λ c. record { numbers = record { items = c } } };
}

impl Constants {
    /// Returns these numbers as constants, or `None` if there are more than `MAX_DEPTH`.
    pub fn new(numbers: &[u32]) -> Option<Constants>
        ensures fits { IsSome result ↔ (length numbers.now ≤ max_depth) }
        ensures value { IfSome result (λ c. c ≡ numbers.now) }
    {
        match ArrayVec::try_from(numbers) {
            Ok(numbers) => Some(Constants { numbers }),
            Err(_) => None,
        }
    }

    // Returns the same numbers, or `None` if one is above `u32::MAX`.
    pub(crate) fn narrowed(wide: &[u64]) -> Option<Constants>
        requires { length wide.now ≤ max_depth }
        ensures some { IsSome result ↔ All (λ x. x ≤ max_counter) wide.now }
        ensures value { IfSome result (λ c. c ≡ wide.now) }
    {
        let mut numbers = ArrayVec::new();
        for number in wide {
            numbers.push(u32::try_from(*number).ok()?);
        }
        Some(Constants { numbers })
    }

    /// Returns the numbers, outermost first.
    pub fn as_slice(&self) -> &[u32]
        ensures value { result.now ≡ self.now }
        ensures few { length result.now ≤ max_depth }
    {
        self.numbers.as_slice()
    }

    // Returns the list of these numbers.
    fn listed(numbers: &[u32]) -> Constants
        requires { length numbers.now ≤ max_depth }
        ensures value { result ≡ numbers.now }
        ensures small { All (λ x. x ≤ max_counter) numbers.now }
    {
        match ArrayVec::try_from(numbers) {
            Ok(numbers) => Constants { numbers },
            Err(_) => unreachable!(),
        }
    }

    /// Returns an equal list.
    pub fn copy(&self) -> Constants
        ensures value { result ≡ self.now }
        ensures small { All (λ x. x ≤ max_counter) self.now }
    {
        Constants::listed(self.as_slice())
    }

    // Appends a number, the innermost.
    fn push(&mut self, number: u32)
        requires { length self.old < max_depth }
        ensures { self.new ≡ self.old ++ number ∷ [] }
    {
        self.numbers.push(number);
    }

    // Removes the innermost number, if there is one.
    fn pop(&mut self) -> Option<u32>
        ensures parts { self.old ≡ self.new ++ option_to_list result }
        ensures some { IsSome result ↔ (0 < length self.old) }
    {
        self.numbers.pop()
    }
}

/// What a walk does to the loop counters of a time.
///
/// It keeps the outer `keep` counters, adds `add` to the last of them, and appends the constants.
#[derive(Debug, Default, PartialEq, Eq, Drop)]
pub struct Summary {
    pub keep: usize,
    pub add: u32,
    pub constants: Constants,
}

impl Summary {
    ghost use Rattle.nd_graph.specs.declared.op.Action.TheVariants.{Ingress};
    ghost use Rattle.nd_summaries.specs.Steps.{step, IsWithin};
    ghost use Rattle.nd_summaries.specs.Summary.{applied};

    /// Returns the summary of the empty walk from a location of this depth.
    pub fn identity(depth: usize) -> Summary
        ensures { result ≡ record { keep = depth; add = 0; constants = [] } }
    {
        Summary {
            keep: depth,
            add: 0,
            constants: Constants::default(),
        }
    }

    /// Returns an equal summary.
    pub fn copy(&self) -> Summary
        ensures { result ≡ self.now }
    {
        Summary {
            keep: self.keep,
            add: self.add,
            constants: self.constants.copy(),
        }
    }

    // Returns this summary followed by one action.
    pub(crate) fn past(&self, action: Action) -> Summary
        requires room { action ≡ Ingress → length self.now.constants < max_depth }
        requires within { IsWithin (max_counter - 1) self.now }
        ensures { result ≡ step action self.now }
    {
        let mut next = self.copy();
        match action {
            Action::Identity => {}
            Action::Ingress => next.constants.push(0),
            Action::Egress => {
                if next.constants.pop().is_none() {
                    next.keep = self.keep.saturating_sub(1);
                    next.add = 0;
                }
            }
            Action::Feedback => match next.constants.pop() {
                Some(last) => next.constants.push(last + 1),
                None => next.add += 1,
            },
        }
        next
    }

    // Returns whether this summary followed by one action adds nothing.
    pub(crate) fn adds_nothing(&self, action: Action) -> bool
        ensures { IsTrue result ↔ ((step action self.now).add ≡ 0) }
    {
        let ends = self.constants.as_slice().is_empty();
        match action {
            Action::Identity | Action::Ingress => self.add == 0,
            Action::Egress => ends || self.add == 0,
            Action::Feedback => !ends && self.add == 0,
        }
    }

    /// Returns whether this summary is at most the other by the order: both keep the same number of counters and
    /// leave the same number, and this one adds at most as much.
    pub fn is_at_most(&self, other: &Summary, order: TimeOrder) -> bool
        ensures { IsTrue result ↔ AtMost order self.now other.now }
    {
        self.passes(other, order)
    }

    // The same, by the test of specs/Steps.antt.
    pub(crate) fn passes(&self, other: &Summary, order: TimeOrder) -> bool
        ensures { result ≡ at_most order self.now other.now }
    {
        let own = self.constants.as_slice();
        let theirs = other.constants.as_slice();
        if self.keep != other.keep || own.len() != theirs.len() {
            return false;
        }
        match order {
            TimeOrder::Lexicographic => {
                if self.add != other.add {
                    self.add < other.add
                } else {
                    own.cmp(theirs).is_le()
                }
            }
            TimeOrder::Product => self.add <= other.add && are_each_at_most(own, theirs),
        }
    }

    /// Returns whether this summary is listed before the other: it keeps more, or adds less, or its constants are
    /// less lexicographically, whichever differs first.
    pub fn is_listed_before(&self, other: &Summary) -> bool
        ensures { result ≡ is_lt (listing_cmp self.now other.now) }
    {
        if self.keep != other.keep {
            return other.keep < self.keep;
        }
        if self.add != other.add {
            return self.add < other.add;
        }
        self.constants
            .as_slice()
            .cmp(other.constants.as_slice())
            .is_lt()
    }

    /// Returns the counters into which this summary turns `counters`. A `u64` holds every sum.
    pub fn reached(&self, counters: &[u32]) -> ArrayVec<u64, MAX_DEPTH>
        requires keep { self.now.keep ≤ length counters.now }
        requires deep { self.now.keep + length self.now.constants ≤ max_depth }
        ensures { result.items ≡ applied self.now counters.now }
    {
        let mut all = raised(&counters[..self.keep], self.add);
        for constant in self.constants.as_slice() {
            all.push(u64::from(*constant));
        }
        all
    }

    // Returns the counter at `place` into which this summary turns `counters`. A `u64` holds the sum.
    fn number(&self, counters: &[u32], place: usize) -> u64
        requires keep { self.now.keep ≤ length counters.now }
        requires place { place < self.now.keep + length self.now.constants }
        ensures { result ≡ slice_index (applied self.now counters.now) place }
    {
        if self.keep <= place {
            return u64::from(self.constants.as_slice()[place - self.keep]);
        }
        let counter = u64::from(counters[place]);
        if place + 1 == self.keep {
            counter + u64::from(self.add)
        } else {
            counter
        }
    }

    // Returns whether this summary turns the counters `from` into some that are at most `to` by the order.
    pub(crate) fn leads(&self, from: &[u32], to: &[u32], order: TimeOrder) -> bool
        requires keep { self.now.keep ≤ length from.now }
        requires to { length to.now ≡ self.now.keep + length self.now.constants }
        ensures { IsTrue result ↔ AreAtMost order (applied self.now from.now) to.now }
    {
        match order {
            TimeOrder::Lexicographic => self.leads_lexically(from, to),
            TimeOrder::Product => self.leads_each(from, to),
        }
    }

    // The same for the lexicographic order.
    fn leads_lexically(&self, from: &[u32], to: &[u32]) -> bool
        requires keep { self.now.keep ≤ length from.now }
        requires to { length to.now ≡ self.now.keep + length self.now.constants }
        ensures { IsTrue result ↔ IsLexicallyAtMost (applied self.now from.now) to.now }
    {
        for place in 0..to.len() {
            let reached = self.number(from, place);
            let wanted = u64::from(to[place]);
            if reached != wanted {
                return reached < wanted;
            }
        }
        true
    }

    // The same for the product order.
    fn leads_each(&self, from: &[u32], to: &[u32]) -> bool
        requires keep { self.now.keep ≤ length from.now }
        requires to { length to.now ≡ self.now.keep + length self.now.constants }
        ensures { IsTrue result ↔ IsEachAtMost (applied self.now from.now) to.now }
    {
        for place in 0..to.len() {
            let reached = self.number(from, place);
            let wanted = u64::from(to[place]);
            if wanted < reached {
                return false;
            }
        }
        true
    }
}

// Returns whether each number is at most the other's at its place.
fn are_each_at_most(own: &[u32], theirs: &[u32]) -> bool
    requires { length own.now ≡ length theirs.now }
    ensures { result ≡ each_at_most own.now theirs.now }
{
    for place in 0..own.len() {
        if theirs[place] < own[place] {
            return false;
        }
    }
    true
}

// Returns these counters, with `add` added to the last one.
fn raised(counters: &[u32], add: u32) -> ArrayVec<u64, MAX_DEPTH>
    requires { length counters.now ≤ max_depth }
    ensures value { result.items ≡ raised_by add counters.now }
    ensures size { length result.items ≡ length counters.now }
{
    let mut all = ArrayVec::new();
    if let [outer @ .., last] = counters {
        for counter in outer {
            all.push(u64::from(*counter));
        }
        all.push(u64::from(*last) + u64::from(add));
    }
    all
}

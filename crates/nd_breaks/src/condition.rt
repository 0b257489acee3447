//! Conditions on a cluster: atoms, negated atoms, and all or any of up to eight of these.
ghost use Rattle.std.specs.Prelude.{◌≡◌, ◌≢◌, ◌↔◌, ◌<◌, ◌≤◌, IsTrue, IsOk, OnOk, OnErr, IfOk, MatchBool, [], ◌∷◌, All, Any, length};
ghost use Rattle.nd_time.specs.Limits.{max_literals};
ghost use Rattle.nd_graph.specs.Graph.{location_count};
ghost use Rattle.nd_breaks.specs.Conditions.{AtomHolds, LiteralHolds, Holds, HoldsAs, condition_of, with_literal};

use arrayvec::ArrayVec;
use nd_cluster::{Cluster, Extent};
use nd_paths::Pointstamp;
use nd_time::limits::MAX_LITERALS;
use std::alloc::{AllocError, Allocator, Global};
use std::marker::Model;
use thiserror::Error;

/// The condition already has `MAX_LITERALS` literals.
#[derive(Clone, Copy, Debug, PartialEq, Eq, Drop, Error)]
#[error("a condition has at most 8 literals")]
pub struct TooManyLiterals;

/// A condition on a cluster that has no conditions as parts.
///
/// An atom does not hold if it names a processor, a vertex or a location that does not exist.
#[derive(Debug, PartialEq, Eq, Drop)]
pub enum Atom {
    /// The view of processor `q` has passed the pointstamp.
    Passed {
        q: u32,
        point: Pointstamp,
    },
    /// The true count of the pointstamp is at least `at_least`.
    Count {
        point: Pointstamp,
        at_least: u64,
    },
    /// The queue holds at least `at_least` changes.
    Queue {
        from: u32,
        to: u32,
        at_least: u64,
    },
    /// The sink has counted the value at least `at_least` times, summed over all processors.
    Sink {
        vertex: usize,
        value: i64,
        at_least: u64,
    },
    /// Nothing outstanding is at or before the pointstamp, whatever the processors' views contain.
    Finished {
        point: Pointstamp,
    },
    /// The entry of processor `q`'s view at the pointstamp, 0 if there is none, is at least `at_least`.
    View {
        q: u32,
        point: Pointstamp,
        at_least: i64,
    },
    /// Processor `p` has at least `at_least` records, requests and tokens at the pointstamp.
    Held {
        p: u32,
        point: Pointstamp,
        at_least: u64,
    },
}

// Returns whether the graph has the pointstamp's location.
fn has_place<A: Allocator + Copy>(cluster: &Cluster<A>, point: &Pointstamp) -> bool
    ensures { IsTrue result ↔ (point.now.location < location_count cluster.now.graph) }
{
    point.location < cluster.graph().location_count()
}

impl Atom {
    /// Returns whether the atom holds of the cluster.
    pub fn holds<A: Allocator + Copy>(&self, cluster: &Cluster<A>) -> bool
        ensures { IsTrue result ↔ AtomHolds cluster.now self.now }
    {
        match self {
            Atom::Passed { q, point } => {
                let q = *q as usize;
                q < cluster.n() && has_place(cluster, point) && cluster.passed(q, point)
            }
            Atom::Count { point, at_least } => {
                has_place(cluster, point) && u128::from(*at_least) <= cluster.count(point)
            }
            Atom::Queue { from, to, at_least } => {
                let from = *from as usize;
                let to = *to as usize;
                from < cluster.n()
                    && to < cluster.n()
                    && *at_least <= cluster.queue_len(from, to) as u64
            }
            Atom::Sink {
                vertex,
                value,
                at_least,
            } => {
                *vertex < cluster.graph().vertices().len()
                    && *at_least <= cluster.sink_count(*vertex, *value)
            }
            Atom::Finished { point } => has_place(cluster, point)
                && cluster.finished(point, Extent::AtOrBefore),
            Atom::View { q, point, at_least } => {
                let q = *q as usize;
                q < cluster.n()
                    && has_place(cluster, point)
                    && *at_least <= cluster.view(q).get(point)
            }
            Atom::Held { p, point, at_least } => {
                let p = *p as usize;
                p < cluster.n()
                    && has_place(cluster, point)
                    && u128::from(*at_least) <= cluster.held(p, point)
            }
        }
    }

    /// Returns an equal atom.
    pub fn copy(&self) -> Atom
        ensures { result ≡ self.now }
    {
        match self {
            Atom::Passed { q, point } => Atom::Passed {
                q: *q,
                point: point.copy(),
            },
            Atom::Count { point, at_least } => Atom::Count {
                point: point.copy(),
                at_least: *at_least,
            },
            Atom::Queue { from, to, at_least } => Atom::Queue {
                from: *from,
                to: *to,
                at_least: *at_least,
            },
            Atom::Sink {
                vertex,
                value,
                at_least,
            } => Atom::Sink {
                vertex: *vertex,
                value: *value,
                at_least: *at_least,
            },
            Atom::Finished { point } => Atom::Finished {
                point: point.copy(),
            },
            Atom::View { q, point, at_least } => Atom::View {
                q: *q,
                point: point.copy(),
                at_least: *at_least,
            },
            Atom::Held { p, point, at_least } => Atom::Held {
                p: *p,
                point: point.copy(),
                at_least: *at_least,
            },
        }
    }
}

/// An atom, or its negation.
#[derive(Debug, PartialEq, Eq, Drop)]
pub enum Literal {
    /// The atom holds.
    Is(Atom),
    /// The atom does not hold.
    Not(Atom),
}

impl Default for Literal {
    /// Returns the literal with which an `ArrayVec` fills its unused slots.
    fn default() -> Literal {
        Literal::Is(Atom::Queue {
            from: 0,
            to: 0,
            at_least: 0,
        })
    }
}

impl Literal {
    /// Returns whether the literal holds of the cluster.
    pub fn holds<A: Allocator + Copy>(&self, cluster: &Cluster<A>) -> bool
        ensures { IsTrue result ↔ LiteralHolds cluster.now self.now }
    {
        match self {
            Literal::Is(atom) => atom.holds(cluster),
            Literal::Not(atom) => !atom.holds(cluster),
        }
    }

    /// Returns an equal literal.
    pub fn copy(&self) -> Literal
        ensures { result ≡ self.now }
    {
        match self {
            Literal::Is(atom) => Literal::Is(atom.copy()),
            Literal::Not(atom) => Literal::Not(atom.copy()),
        }
    }

    // Returns whether the two literals are equal.
    fn same(&self, other: &Literal) -> bool
        ensures { MatchBool result (self.now ≡ other.now) (self.now ≢ other.now) }
    {
        *self == *other
    }
}

/// How many of a condition's literals must hold.
#[derive(Clone, Copy, Debug, PartialEq, Eq, Drop)]
pub enum Quantifier {
    /// All of them.
    All,
    /// At least one of them.
    Any,
}

/// A condition that requires all, or any, of its 1 to 8 literals. No call allocates memory.
#[derive(Drop)]
pub struct Condition {
    quantifier: Quantifier,
    literals: ArrayVec<Literal, MAX_LITERALS>,
}

impl Model for Condition {
    ghost use Rattle.std.specs.Prelude.{◌<◌, length};
    ghost use Rattle.nd_breaks.specs.Conditions.{ConditionValue, condition_code};

    ghost Value = { ConditionValue };

    ghost coded = { condition_code };

    ghost view = { λ a. record { quantifier = a.quantifier; literals = a.literals.items } };

    ghost invariant = { λ a. 0 < length a.literals.items };
}

// Returns whether every literal holds of the cluster.
fn all_hold<A: Allocator + Copy>(literals: &[Literal], cluster: &Cluster<A>) -> bool
    ensures { IsTrue result ↔ All (LiteralHolds cluster.now) literals.now }
{
    literals.iter().all(|literal| literal.holds(cluster))
}

// Returns whether at least one literal holds of the cluster.
fn any_holds<A: Allocator + Copy>(literals: &[Literal], cluster: &Cluster<A>) -> bool
    ensures { IsTrue result ↔ Any (LiteralHolds cluster.now) literals.now }
{
    literals.iter().any(|literal| literal.holds(cluster))
}

// Returns whether the two lists have the same literals in the same order.
fn are_same(these: &[Literal], those: &[Literal]) -> bool
    ensures { MatchBool result (these.now ≡ those.now) (these.now ≢ those.now) }
{
    if these.len() != those.len() {
        return false;
    }
    for k in 0..these.len() {
        if !these[k].same(&those[k]) {
            return false;
        }
    }
    true
}

impl Condition {
    /// Returns a condition with one literal. `push` adds more.
    pub fn new(quantifier: Quantifier, literal: Literal) -> Condition
        ensures value { result ≡ condition_of quantifier literal }
        ensures alone { HoldsAs result literal }
    {
        let mut literals = ArrayVec::new();
        literals.push(literal);
        Condition {
            quantifier,
            literals,
        }
    }

    /// Adds the literal at the end.
    pub fn push(&mut self, literal: Literal) -> Result<(), TooManyLiterals>
        ensures ok { OnOk result (self.new ≡ with_literal self.old literal) }
        ensures room { IsOk result ↔ (length self.old.literals < max_literals) }
        ensures err { OnErr result (self.new ≡ self.old) }
    {
        if self.literals.is_full() {
            return Err(TooManyLiterals);
        }
        self.literals.push(literal);
        Ok(())
    }

    /// Returns how many of the literals must hold.
    pub fn quantifier(&self) -> Quantifier
        ensures { result ≡ self.now.quantifier }
    {
        self.quantifier
    }

    /// Returns the literals, in order.
    pub fn literals(&self) -> &[Literal]
        ensures value { result.now ≡ self.now.literals }
        ensures some { 0 < length self.now.literals }
        ensures few { length self.now.literals ≤ max_literals }
    {
        self.literals.as_slice()
    }

    /// Returns whether the condition holds of the cluster.
    pub fn holds<A: Allocator + Copy>(&self, cluster: &Cluster<A>) -> bool
        ensures { IsTrue result ↔ Holds cluster.now self.now }
    {
        match self.quantifier {
            Quantifier::All => all_hold(self.literals(), cluster),
            Quantifier::Any => any_holds(self.literals(), cluster),
        }
    }

    /// Returns an equal condition.
    pub fn copy(&self) -> Condition
        ensures { result ≡ self.now }
    {
        let mut literals = ArrayVec::new();
        for literal in self.literals() {
            literals.push(literal.copy());
        }
        Condition {
            quantifier: self.quantifier,
            literals,
        }
    }

    /// Returns whether the two conditions have the same quantifier and the same literals in the same order.
    pub fn same(&self, other: &Condition) -> bool
        ensures { MatchBool result (self.now ≡ other.now) (self.now ≢ other.now) }
    {
        self.quantifier == other.quantifier && are_same(self.literals(), other.literals())
    }
}

/// A condition on the heap, so that the value that holds it stays small.
#[derive(Drop)]
pub struct BoxedCondition<A: Allocator = Global> {
    boxed: Box<Condition, A>,
}

impl<A: Allocator> Model for BoxedCondition<A> {
    ghost use Rattle.nd_breaks.specs.Conditions.{ConditionValue, condition_code};

    ghost Value = { ConditionValue };

    ghost coded = { condition_code };

    ghost view = { λ a. a.boxed.value };
}

impl<A: Allocator> BoxedCondition<A> {
    /// Moves the condition to the heap.
    pub fn new(alloc: A, condition: Condition) -> Result<BoxedCondition<A>, AllocError>
        ensures { IfOk result (λ b. b ≡ condition) }
    {
        Ok(BoxedCondition {
            boxed: Box::new(alloc, condition)?,
        })
    }

    /// Returns the condition.
    pub fn get(&self) -> &Condition
        ensures { result.now ≡ self.now }
    {
        &self.boxed
    }

    /// Returns an equal condition on the heap.
    pub fn copy(&self, alloc: A) -> Result<BoxedCondition<A>, AllocError>
        ensures { IfOk result (λ b. b ≡ self.now) }
    {
        BoxedCondition::new(alloc, self.get().copy())
    }
}

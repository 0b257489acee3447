//! Breakpoints: conditions on a cluster that stop a run.
#![tactic(auto)]

mod breaks;
mod condition;

pub use breaks::{Breaks, NoBreak, TooManyBreaks};
pub use condition::{Atom, BoxedCondition, Condition, Literal, Quantifier, TooManyLiterals};

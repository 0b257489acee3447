//! What the lines of a script ask for.
#![tactic(auto)]

mod allowed;
mod asked;
mod atoms;
mod commands;
mod conditions;
mod fault;
mod form;
mod laws;
mod numbers;
mod optional;
mod places;
mod points;
mod queries;
mod sends;
mod shapes;
mod steps;
mod version;

pub use asked::{Asked, asked_of};
pub use fault::LineFault;
pub use form::{CommandForm, LineForm, QueryForm, StepForm};
pub use laws::steps_are_their_objects;
pub use queries::{ConditionTurns, Query, Reach, Search, ViewChanges, WhyAtRest};
pub use steps::read_step;
pub use version::{Version, version_of};

//! What is left when all that can happen has happened: the run to rest, and why a processor does not consider a pointstamp
//! finished in the state in which the run stops.
#![tactic(auto)]

mod answer;
mod fault;
mod rest;
mod run;

pub use answer::{AtRest, why_at_rest};
pub use fault::RestFault;
pub use run::RestStop;

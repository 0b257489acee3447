//! A cluster of processors: steps are planned, executed and undone by small records of what they
//! change.
#![tactic(auto)]

mod acting;
mod arrivals;
mod candidate;
mod candidate_steps;
mod choice;
mod cluster;
mod commit;
mod effect;
mod moves;
mod parts;
mod plan;
mod readers;
mod reasons;
mod refuse;
mod saved;
mod sinks;
mod size;
mod start;
mod text;
mod work;

pub use candidate::{Candidate, CandidateList, Candidates};
pub use choice::candidates_are_in_turn;
pub use cluster::Cluster;
pub use moves::Allowed;
pub use nd_paths::ArrivalTime;
pub use nd_protocol::{Next, NoMemory, Part, Points, Refusal, Step, Values};
pub use nd_steps::{Altered, Change, Changes, Effect, ItemAt, Record, Slot};
pub use nd_view::Extent;
pub use nd_why::{Held, Question, Reason, Reasons, Unheard};
pub use saved::Saved;
pub use start::StartFault;

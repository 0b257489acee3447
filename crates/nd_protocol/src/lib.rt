//! What a cluster is, the steps that it can execute, why steps are refused, and why the protocol is safe.
#![tactic(auto)]

mod batch;
mod laws;
mod numbers;
mod part;
mod parts;
mod processors;
mod refusal;
mod step;
mod times;
mod values;

pub use batch::{Batch, BoxedBatch};
pub use laws::{
    protocol_is_safe, sends_are_later, starts_keep_protocol, steps_keep_protocol, truth_is_small,
};
pub use nd_time::NoMemory;
pub use numbers::times_are_small;
pub use part::{Part, Points};
pub use parts::{Parts, copied_processors, copied_views};
pub use processors::Processors;
pub use refusal::Refusal;
pub use step::{Next, Step};
pub use times::{BoxedTimes, Later, Times};
pub use values::Values;

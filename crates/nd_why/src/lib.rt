//! Why a processor does not consider a pointstamp finished: what its view still counts, who really holds it,
//! and which progress updates the processor has not received (based on FORTE 2013).
#![tactic(auto)]

mod answer;
mod holdings;
mod news;
mod outstanding;
mod query;
mod question;

pub use answer::{Held, Reason, Reasons, Unheard};
pub use outstanding::finished;
pub use query::why;
pub use question::Question;

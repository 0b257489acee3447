//! How replies are written.
#![tactic(auto)]

mod candidates;
mod effects;
mod lists;
mod members;
mod objects;
mod reasons;
mod replies;
mod row;
mod shown;
mod written;

pub use lists::{Counts, Entries, KeptSteps};
pub use members::{End, Member, Members, Object};
pub use replies::{ErrorReply, GraphReply};
pub use shown::{Names, NoNames, Place, Shown};
pub use written::text_of;

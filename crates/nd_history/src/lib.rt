//! Queries about the kept steps of a timeline: a search of its positions by several workers, the changes
//! of a processor's view, what a step changed, and where a condition begins and ceases to hold.
#![tactic(auto)]

mod board;
mod change_list;
mod condition_history;
mod effects;
mod fault;
mod gate;
mod hand;
mod history;
mod piece;
mod searches;
mod table;
mod team;
mod turn_list;
mod view_history;
mod work;

pub use change_list::{ChangeList, EntryChanges};
pub use condition_history::turns;
pub use effects::{EffectFault, StepEffect, effect};
pub use fault::{ChangesFault, SearchFault, TurnsFault};
pub use gate::{Gate, OpenGate};
pub use nd_timeline::{Changed, Snapshot};
pub use searches::{search, search_in};
pub use turn_list::{PositionList, TurnList};
pub use view_history::changes;

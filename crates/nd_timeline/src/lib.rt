//! The debugger's timeline: kept steps, and a cursor.
#![tactic(auto)]

mod changed;
mod checkpoint;
mod records;
mod snapshot;
mod timeline;
mod walk;

pub use changed::Changed;
pub use snapshot::Snapshot;
pub use timeline::Timeline;
pub use walk::Walk;

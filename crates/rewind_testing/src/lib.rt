//! What the tests of runs share: sources and sinks in memory, and graphs.
#![tactic(auto)]

mod ends;
mod graphs;

pub use ends::{
    Asks, NEVER, Newlines, Pieces, Spills, Stumbles, Taken, Told, empty_sink, pieces_of,
};
pub use graphs::{HELD, LINE, LINE_REPLY};

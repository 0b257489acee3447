//! What the crates of tests share: the graphs of the worked examples, clusters and steps by the names of locations,
//! and calls of parts that may be missing.
#![tactic(auto)]

mod graphs;
mod holdings;
mod queues;
mod steps;
mod views;

pub use graphs::{
    ADD, DISTINCT, EMPTY, ENDLESS, EXCHANGE, Entry, FILTER, HELD, LINE, LOOP, NESTED_LOOP, SPLIT,
    SUM, TRACED, TWO_WAYS, are_entries, change, graph_of, paths_of, point, time,
};
pub use holdings::{item, move_token, set, set_item, take_all};
pub use queues::{len, pop, push, unpop, unpush};
pub use steps::{
    HELD_MOVED, Named, SUM_NOTIFIED, Script, Sent, StepLine, is_state, make, processors_of, reach,
    start, state_text, step_of, times_of, values_of,
};
pub use views::view;

//! Tests of runs of one client, over sources and sinks in memory: what a script run by the program cannot show.
#![tactic(auto)]

#[cfg(test)]
mod runs;
#[cfg(test)]
mod steps;

//! Tests of runs of several clients, over sources and sinks in memory: what a script run by the program cannot show.
#![tactic(auto)]

#[cfg(test)]
mod clients;

//! Tests of timelines, histories and sessions, of what no script can show: each request for memory refused in turn,
//! calls that take no memory, copies, far jumps, and workers and clients in threads.
#![tactic(auto)]

#[cfg(test)]
mod memory;
#[cfg(test)]
mod opened;
#[cfg(test)]
mod reaches;
#[cfg(test)]
mod searches;
#[cfg(test)]
mod sessions;
#[cfg(test)]
mod timelines;

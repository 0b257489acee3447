//! Tests of the crates from timestamps to clusters, of what no script can show: each request for memory refused in
//! turn, calls that take no memory, copies in their own memory, states at the limits of numbers, which records are
//! small, and worked examples of calls that no line of a script makes.
#![tactic(auto)]

#[cfg(test)]
mod allocates_nothing;
#[cfg(test)]
mod arrivals;
#[cfg(test)]
mod copies;
#[cfg(test)]
mod limits;
#[cfg(test)]
mod memory;
#[cfg(test)]
mod precursor_counts;
#[cfg(test)]
mod records;
#[cfg(test)]
mod refused;
#[cfg(test)]
mod worked;

//! The times that can still arrive, in a large view.

use nd_delta::Delta;
use nd_examples::{LOOP, paths_of, point};
use nd_paths::{ArrivalTime, Paths};
use nd_view::View;
use std::alloc::Global;

/// The number of times.
const MANY: u32 = 2_000;

/// Returns a change with an entry at each time of *loop*'s m at which epoch and counter are `MANY` together. None of them is at or
/// before another.
fn falling(alloc: Global, paths: &Paths) -> Option<Delta> {
    let mut change = Delta::new(alloc);
    for epoch in 0..MANY {
        let time = [epoch, MANY - epoch];
        change.add(&point(paths.graph(), "m", &time)?, 1).ok()?;
    }
    Some(change)
}

/// Returns how many of the times are those of the change, up to the first that is not.
fn as_changed(times: &[ArrivalTime]) -> u32 {
    for epoch in 0..MANY {
        let Some(time) = times.get(epoch as usize) else {
            return epoch;
        };
        if time.epoch() != epoch || time.counters() != [u64::from(MANY - epoch)].as_slice() {
            return epoch;
        }
    }
    MANY
}

/// Returns how many times can still arrive at m after the change, and how many of them are those of the change.
fn arrived(alloc: Global, paths: &Paths) -> Option<(usize, u32)> {
    let mut view = View::new(alloc);
    view.apply(paths, &falling(alloc, paths)?).ok()?;
    let location = paths.graph().location_of("m")?;
    let times = view.arrivals(alloc, paths, location).ok()?;
    Some((times.len(), as_changed(&times)))
}

/// Does so on *loop*.
fn arrived_on_loop(alloc: Global) -> Option<(usize, u32)> {
    arrived(alloc, &paths_of(alloc, alloc, LOOP)?)
}

#[test]
fn arrivals_of_2000_times(rt: HostRuntime) {
    assert!(rt; arrived_on_loop(rt.alloc()) == Some((2_000, 2_000)));
}

//! Records: how many entries the record of a step has, and which records have no list of changes; and how many
//! processors a cluster may have.

use nd_cluster::{Changes, Cluster, Next, Record, StartFault, Step};
use nd_examples::{
    ADD, EXCHANGE, LINE, LOOP, SUM, Sent, StepLine, TRACED, graph_of, reach, step_of,
};
use std::alloc::Global;
use std::mem::size_of;

/// Returns why a cluster of n processors does not start on a line, if it does not.
fn fault_of(alloc: Global, n: u32) -> Option<StartFault> {
    Cluster::start(alloc, graph_of(alloc, alloc, LINE)?, n).err()
}

/// Checks the worked example *processor-counts*, of numbers that no words ask for.
#[test]
fn processor_counts(rt: HostRuntime) {
    for n in [0, 65] {
        assert!(rt; fault_of(rt.alloc(), n) == Some(StartFault::BadCount));
    }
}

#[test]
fn records_are_small(rt: HostRuntime) {
    assert!(rt; size_of::<Record>() <= 104);
    assert!(rt; size_of::<Step>() == 64);
}

const TWO_FED: &[StepLine] = &[StepLine::Feed(0, "a", &[7, 7], Next::Close)];

/// The steps of *views-lag*.
const LAG: &[StepLine] = &[
    StepLine::Feed(0, "a", &[5], Next::Close),
    StepLine::Take(2, "az", &[0], 5),
    StepLine::All(2),
    StepLine::Receive(2, 1),
    StepLine::All(0),
];

const FED: StepLine = StepLine::Feed(0, "a", &[2], Next::Close);

const SUNK: &[StepLine] = &[FED, StepLine::Take(0, "az", &[0], 2)];

const ADDED: &[StepLine] = &[FED, StepLine::Take(0, "am", &[0], 2)];

const SUMMED: &[StepLine] = &[FED, StepLine::Take(0, "as", &[0], 2)];

const SENT: &[StepLine] = &[FED, StepLine::All(0)];

/// Steps of *loop*: records enter, leave, and go around.
const AROUND: &[StepLine] = &[
    StepLine::Feed(0, "a", &[1, 2], Next::Close),
    StepLine::Take(0, "ai", &[0], 1),
    StepLine::Take(0, "ai", &[0], 2),
    StepLine::Take(0, "im", &[0, 0], 1),
    StepLine::Take(0, "im", &[0, 0], 2),
    StepLine::Take(0, "ms", &[0, 0], 2),
    StepLine::Take(0, "ms", &[0, 0], 3),
    StepLine::Take(0, "se", &[0, 0], 3),
    StepLine::Take(0, "sf", &[0, 0], 2),
];

/// A send of two values, and a release that keeps the capability.
const FOLLOWED: &[StepLine] = &[
    FED,
    StepLine::Take(0, "ax", &[0], 2),
    StepLine::Send(
        0,
        "x",
        Sent {
            time: &[0],
            at: None,
            port: 0,
            values: &[1, 2],
            dest: None,
        },
    ),
    StepLine::Keep(0, "x", &[0], &[3]),
];

/// A graph, how many processors there are, steps and how many of them are executed, how many entries the record of
/// the last of these has, and whether the record keeps a flow in place of a list.
type Row = (&'static str, u32, &'static [StepLine], usize, usize, bool);

static ROWS: [Row; 12] = [
    (LINE, 1, TWO_FED, 1, 4, false),
    (EXCHANGE, 3, LAG, 4, 2, false),
    (EXCHANGE, 3, LAG, 5, 3, false),
    (LINE, 1, SUNK, 2, 3, true),
    (ADD, 1, ADDED, 2, 4, true),
    (SUM, 1, SUMMED, 2, 5, false),
    (LINE, 1, SENT, 2, 3, false),
    (LOOP, 1, AROUND, 2, 4, true),
    (LOOP, 1, AROUND, 8, 4, true),
    (LOOP, 1, AROUND, 9, 4, true),
    (TRACED, 1, FOLLOWED, 3, 3, false),
    (TRACED, 1, FOLLOWED, 4, 2, false),
];

/// Returns whether the record of the last step of a row is as the row says.
fn is_recorded(alloc: Global, row: &Row) -> Option<bool> {
    let (text, n, steps, count, entries, is_flow) = row;
    let (last, before) = steps.get(..*count)?.split_last()?;
    let cluster = reach(alloc, alloc, text, *n, before)?;
    let record = cluster.plan(&step_of(alloc, cluster.graph(), last)?).ok()?;
    let keeps_flow = matches!(record.changes, Changes::Flowed(_));
    Some(record.entries() == *entries && keeps_flow == *is_flow)
}

/// Checks the worked example *inverse-records*, whose second half continues with the steps of *views-lag*; and which
/// takes are kept as flows.
#[test]
fn inverse_records(rt: HostRuntime) {
    for (i, row) in ROWS.iter().enumerate() {
        assert!(rt; is_recorded(rt.alloc(), row) == Some(true), "in row {i}");
    }
}

/// What is fed, what becomes of the token, and whether the record of it has no list.
static FEEDS: [(&'static [i64], Next, bool); 10] = [
    (&[7], Next::Stay, true),
    (&[7], Next::Next, true),
    (&[7], Next::To(9), true),
    (&[1, 2, 8], Next::Stay, true),
    (&[1, 2, 8], Next::Next, true),
    (&[1, 2, 8], Next::To(9), true),
    (&[], Next::Next, true),
    (&[2, 1], Next::Stay, false),
    (&[7, 7], Next::Stay, false),
    (&[7], Next::Close, false),
];

/// Returns whether the small record of a feed of *line*, after another, has no list.
fn keeps_no_list(alloc: Global, before: Next, values: &'static [i64], next: Next) -> Option<bool> {
    let before = [StepLine::Feed(0, "a", &[7], before)];
    let cluster = reach(alloc, alloc, LINE, 1, &before)?;
    let step = step_of(
        alloc,
        cluster.graph(),
        &StepLine::Feed(0, "a", values, next),
    )?;
    let record = cluster.plan(&step).ok()?.small();
    Some(matches!(record.changes, Changes::Fed(_)))
}

#[test]
fn feeds_in_order_are_kept_without_a_list(rt: HostRuntime) {
    for before in [Next::Stay, Next::Next, Next::To(5)] {
        for (i, (values, next, wanted)) in FEEDS.iter().enumerate() {
            let found = keeps_no_list(rt.alloc(), before, values, *next);
            assert!(rt; found == Some(*wanted), "in row {i}");
        }
    }
}

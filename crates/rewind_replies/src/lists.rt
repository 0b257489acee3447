//! States, views, frontiers and kept steps, and the elements of some of their lists.
ghost use Rattle.std.specs.Prelude.{◌≡◌, ◌∷◌, OnOk, map};
ghost use Rattle.nd_delta.specs.Delta.{entries};
ghost use Rattle.nd_state_json.specs.StateText.{entries_data, row, state_data, time_data};
ghost use Rattle.rewind_replies.specs.Changes.{changed_data};
ghost use Rattle.rewind_replies.specs.NoFloats.{no_float-entries, no_float-row, no_float-state, no_float-step, no_float-time, no_float-changed};
ghost use Rattle.nd_state_json.specs.Objects.{object_of};

use crate::shown::{Names, Shown};
use nd_cluster::Cluster;
use nd_delta::LargeDelta;
use nd_graph::Graph;
use nd_paths::{ArrivalTime, Pointstamp};
use nd_state_json::{send_counts, send_entries};
use nd_timeline::{Changed, Timeline};
use serde::Serializer;

/// All kept steps of a timeline, each as the object of its line.
#[derive(Drop)]
pub struct KeptSteps<'a>(pub &'a Timeline);

impl<'a> Shown for KeptSteps<'a> {
    ghost shown = { λ g k. row (map (object_of g) k.0.now.kept) };

    ghost exact = { λ g k. no_float-row (object_of g) k.0.now.kept (no_float-step g) };

    fn send<S: Serializer, N: Names>(&self, out: &mut S, names: &N) -> Result<(), S::Error> {
        let timeline = self.0;
        out.begin_seq(Some(timeline.kept() as usize))?;
        for i in 0..timeline.kept() {
            let Some(step) = timeline.step(i) else {
                unreachable!()
            };
            step.send(out, names)?;
        }
        out.end_seq()
    }
}

/// The counts of a view, with the names of a graph.
#[derive(Drop)]
pub struct Counts<'a> {
    pub graph: &'a Graph,
    pub counts: &'a LargeDelta,
}

impl<'a> Shown for Counts<'a> {
    ghost shown = { λ g c. entries_data c.graph.now (entries c.counts.now) };

    ghost exact = { λ g c. no_float-entries c.graph.now (entries c.counts.now) };

    fn send<S: Serializer, N: Names>(&self, out: &mut S, _names: &N) -> Result<(), S::Error> {
        send_counts(out, self.graph, self.counts)
    }
}

/// Pointstamps and their counts, in the given order, with the names of a graph.
#[derive(Drop)]
pub struct Entries<'a> {
    pub graph: &'a Graph,
    pub entries: &'a [(Pointstamp, i64)],
}

impl<'a> Shown for Entries<'a> {
    ghost shown = { λ g e. entries_data e.graph.now e.entries.now };

    ghost exact = { λ g e. no_float-entries e.graph.now e.entries.now };

    fn send<S: Serializer, N: Names>(&self, out: &mut S, _names: &N) -> Result<(), S::Error> {
        send_entries(out, self.graph, self.entries)
    }
}

/// The state of a cluster.
impl Shown for Cluster {
    ghost shown = { λ g s. state_data s };

    ghost exact = { λ g s. no_float-state s };

    fn send<S: Serializer, N: Names>(&self, out: &mut S, _names: &N) -> Result<(), S::Error> {
        self.send_state(out)
    }
}

/// A position at which a view's entry changed, and the entry there.
impl Shown for Changed {
    ghost shown = { λ g c. changed_data c };

    ghost exact = { λ g c. no_float-changed c };

    fn send<S: Serializer, N: Names>(&self, out: &mut S, names: &N) -> Result<(), S::Error> {
        (self.position, self.entry).send(out, names)
    }
}

/// A time that can arrive: its epoch, and then its counters.
impl Shown for ArrivalTime {
    ghost shown = { λ g t. time_data t };

    ghost exact = { λ g t. no_float-time t };

    fn send<S: Serializer, N: Names>(&self, out: &mut S, _names: &N) -> Result<(), S::Error> {
        let counters = self.counters();
        out.begin_seq(Some(1 + counters.len()))?;
        out.u64(u64::from(self.epoch()))?;
        for counter in counters {
            out.u64(*counter)?;
        }
        out.end_seq()
    }
}

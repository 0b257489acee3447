//! Clusters and steps described by the names of locations.

use crate::graphs::{HELD, SUM, graph_of, point, time};
use nd_cluster::{Cluster, Next, Part, Points, Step, Values};
use nd_graph::Graph;
use nd_protocol::{Batch, BoxedBatch, BoxedTimes, Later, Processors, Times};
use serde::{Described, Serialize, Serializer};
use std::alloc::{Allocator, Global};

/// A step: the processor, and the name of the vertex or the edge.
#[derive(Drop)]
pub enum StepLine {
    /// The values that are fed, and what becomes of the token.
    Feed(u32, &'static str, &'static [i64], Next),
    /// The time and the value of the record that is taken.
    Take(u32, &'static str, &'static [u32], i64),
    /// The time of the notice.
    Notice(u32, &'static str, &'static [u32]),
    /// The time of the capability that is dropped, and the later time to which it moves, if it does.
    Release(u32, &'static str, &'static [u32], Option<&'static [u32]>),
    /// The time of the capability that is kept, and the later time of the one beside it.
    Keep(u32, &'static str, &'static [u32], &'static [u32]),
    /// What is sent.
    Send(u32, &'static str, Sent),
    /// The broadcast of all that is unsent.
    All(u32),
    /// The points whose entries are broadcast.
    Points(u32, &'static [Named]),
    /// The sender and the receiver of a change.
    Receive(u32, u32),
}

/// What is sent: the time of the capability, that of the records if it is another, the port, the values, and the
/// processor that is named, if one is.
#[derive(Drop)]
pub struct Sent {
    pub time: &'static [u32],
    pub at: Option<&'static [u32]>,
    pub port: u32,
    pub values: &'static [i64],
    pub dest: Option<u32>,
}

/// A point: the name of its location, and its time.
pub type Named = (&'static str, &'static [u32]);

/// A graph, the number of processors, and steps from the initial state on.
pub type Script = (&'static str, u32, &'static [StepLine]);

/// A sum whose notice is enabled after two receives.
pub const SUM_NOTIFIED: Script = (
    SUM,
    1,
    &[
        StepLine::Feed(0, "a", &[2, 3], Next::Close),
        StepLine::Take(0, "as", &[0], 2),
        StepLine::All(0),
        StepLine::Receive(0, 0),
        StepLine::Take(0, "as", &[0], 3),
        StepLine::All(0),
        StepLine::Receive(0, 0),
        StepLine::Notice(0, "s", &[0]),
        StepLine::Take(0, "sz", &[0], 5),
    ],
);

/// A capability that is moved.
pub const HELD_MOVED: Script = (
    HELD,
    1,
    &[
        StepLine::Feed(0, "a", &[7], Next::Close),
        StepLine::Take(0, "ah", &[0], 7),
        StepLine::Release(0, "h", &[0], Some(&[3])),
    ],
);

/// Returns the initial state of a cluster of n processors.
pub fn start<A: Allocator + Copy>(
    json: Global,
    alloc: A,
    text: &str,
    n: u32,
) -> Option<Cluster<A>> {
    let graph = graph_of(json, alloc, text)?;
    Cluster::start(alloc, graph, n).ok()
}

/// Returns the list of these values.
pub fn values_of<A: Allocator + Copy>(alloc: A, list: &[i64]) -> Option<Values<A>> {
    let mut values = Values::new(alloc);
    for value in list {
        values.push(*value).ok()?;
    }
    Some(values)
}

/// Returns the list of these processors.
pub fn processors_of<A: Allocator>(alloc: A, list: &[u32]) -> Option<Processors<A>> {
    let mut processors = Processors::new(alloc);
    for p in list {
        processors.push(*p).ok()?;
    }
    Some(processors)
}

/// Returns the times of a capability that is dropped, moves, or is kept along with a later one.
pub fn times_of(list: &[u32], to: &Option<&'static [u32]>, keep: bool) -> Option<Times> {
    let to = match to {
        Some(to) => Some(Later {
            time: time(to)?,
            keep,
        }),
        None => None,
    };
    Some(Times {
        time: time(list)?,
        to,
    })
}

/// Returns the batch of this description.
fn batch_of<A: Allocator + Copy>(alloc: A, sent: &Sent) -> Option<Batch<A>> {
    let at = match &sent.at {
        Some(at) => Some(time(at)?),
        None => None,
    };
    Some(Batch {
        time: time(sent.time)?,
        at,
        port: sent.port,
        values: values_of(alloc, sent.values)?,
        dest: sent.dest,
    })
}

/// Returns the part at these points.
fn part_of<A: Allocator + Copy>(alloc: A, graph: &Graph<A>, list: &[Named]) -> Option<Part<A>> {
    let mut points = Points::new(alloc);
    for (name, time) in list {
        points.push(point(graph, name, time)?).ok()?;
    }
    Some(Part::Points(points))
}

/// Returns the step of this description.
pub fn step_of<A: Allocator + Copy>(
    alloc: A,
    graph: &Graph<A>,
    told: &StepLine,
) -> Option<Step<A>> {
    match told {
        StepLine::Feed(p, name, list, next) => Some(Step::Feed {
            p: *p,
            vertex: graph.location_of(name)?,
            values: values_of(alloc, list)?,
            next: *next,
        }),
        StepLine::Take(p, name, list, value) => Some(Step::Take {
            p: *p,
            edge: graph.location_of(name)?,
            time: time(list)?,
            value: *value,
        }),
        StepLine::Notice(p, name, list) => Some(Step::Notice {
            p: *p,
            vertex: graph.location_of(name)?,
            time: time(list)?,
        }),
        StepLine::Release(p, name, list, to) => Some(Step::Release {
            p: *p,
            vertex: graph.location_of(name)?,
            times: BoxedTimes::new(alloc, times_of(list, to, false)?).ok()?,
        }),
        StepLine::Keep(p, name, list, to) => Some(Step::Release {
            p: *p,
            vertex: graph.location_of(name)?,
            times: BoxedTimes::new(alloc, times_of(list, &Some(*to), true)?).ok()?,
        }),
        StepLine::Send(p, name, sent) => Some(Step::Send {
            p: *p,
            vertex: graph.location_of(name)?,
            batch: BoxedBatch::new(alloc, batch_of(alloc, sent)?).ok()?,
        }),
        StepLine::All(p) => Some(Step::Broadcast {
            p: *p,
            part: Part::All,
        }),
        StepLine::Points(p, list) => Some(Step::Broadcast {
            p: *p,
            part: part_of(alloc, graph, list)?,
        }),
        StepLine::Receive(from, to) => Some(Step::Receive {
            from: *from,
            to: *to,
        }),
    }
}

/// Executes a step.
pub fn make<A: Allocator + Copy>(cluster: &mut Cluster<A>, step: &Step<A>) -> Option<()> {
    let record = cluster.plan(step).ok()?;
    cluster.commit(&record).ok()
}

/// Returns the cluster after these steps.
pub fn reach<A: Allocator + Copy>(
    json: Global,
    alloc: A,
    text: &str,
    n: u32,
    steps: &[StepLine],
) -> Option<Cluster<A>> {
    let mut cluster = start(json, alloc, text, n)?;
    for told in steps {
        let step = step_of(alloc, cluster.graph(), told)?;
        make(&mut cluster, &step)?;
    }
    Some(cluster)
}

// The state of a cluster as a value that can be serialized.
#[derive(Drop)]
struct Shown<'a, A: Allocator + Copy> {
    cluster: &'a Cluster<A>,
}

impl<'a, A: Allocator + Copy> Described for Shown<'a, A> {}

impl<'a, A: Allocator + Copy> Serialize for Shown<'a, A> {
    fn serialize<S: Serializer>(&self, out: &mut S) -> Result<(), S::Error> {
        self.cluster.send_state(out)
    }
}

/// Returns the text of the state.
pub fn state_text<A: Allocator + Copy>(json: Global, cluster: &Cluster<A>) -> Option<String> {
    let text = serde_json::to_vec(json, &Shown { cluster }).ok()?;
    String::from_utf8(text).ok()
}

/// Returns whether the state has this text.
pub fn is_state<A: Allocator + Copy>(json: Global, cluster: &Cluster<A>, text: &str) -> bool {
    match state_text(json, cluster) {
        Some(found) => found.as_str() == text,
        None => false,
    }
}

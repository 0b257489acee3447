//! A step as the object of its command line.
ghost use Rattle.std.specs.Prelude.{◌≡◌, OnOk, map};
ghost use Rattle.serde_json.specs.Events.{SendsValue};
ghost use Rattle.nd_state_json.specs.StateText.{time_data, point_data, row, whole};
ghost use Rattle.rewind_replies.specs.NoFloats.{no_float-next, no_float-point, no_float-row, no_float-step, no_float-time, no_float-whole};
ghost use Rattle.nd_state_json.specs.Objects.{next_data, broadcast_object, object_of, release_object, send_object};

use crate::object;
use crate::shown::{Names, Place, Shown, send_list};
use nd_paths::Pointstamp;
use nd_protocol::{Batch, Next, Part, Points, Step, Times, Values};
use nd_state_json::send_time;
use nd_time::Timestamp;
use serde::Serializer;

/// Its epoch, and then its counters.
impl Shown for Timestamp {
    ghost shown = { λ g t. time_data t };

    ghost exact = { λ g t. no_float-time t };

    fn send<S: Serializer, N: Names>(&self, out: &mut S, _names: &N) -> Result<(), S::Error> {
        send_time(out, self)
    }
}

/// The name of its location, and its time.
impl Shown for Pointstamp {
    ghost shown = { point_data };

    ghost exact = { no_float-point };

    fn send<S: Serializer, N: Names>(&self, out: &mut S, names: &N) -> Result<(), S::Error> {
        (Place(self.location), &self.time).send(out, names)
    }
}

/// Values that are fed or sent, in their order.
impl Shown for Values {
    ghost shown = { λ g values. row (map whole values) };

    ghost exact = { λ g values. no_float-row whole values no_float-whole };

    fn send<S: Serializer, N: Names>(&self, out: &mut S, names: &N) -> Result<(), S::Error> {
        send_list(out, names, self.as_slice())
    }
}

/// Pointstamps of a part, as they were given.
impl Shown for Points {
    ghost shown = { λ g points. row (map (point_data g) points) };

    ghost exact = { λ g points. no_float-row (point_data g) points (no_float-point g) };

    fn send<S: Serializer, N: Names>(&self, out: &mut S, names: &N) -> Result<(), S::Error> {
        send_list(out, names, self.as_slice())
    }
}

/// What becomes of the token after a feed: a word, or the epoch to which it moves.
impl Shown for Next {
    ghost shown = { λ g next. next_data next };

    ghost exact = { λ g next. no_float-next next };

    fn send<S: Serializer, N: Names>(&self, out: &mut S, names: &N) -> Result<(), S::Error> {
        match self {
            Next::Next => out.str("next"),
            Next::Close => out.str("close"),
            Next::Stay => out.str("stay"),
            Next::To(epoch) => object! {"to": *epoch}.send(out, names),
        }
    }
}

/// The object of the step's line. A location that the graph does not have is shown without a name,
/// and such a line cannot be read back.
impl Shown for Step {
    ghost shown = { object_of };

    ghost exact = { no_float-step };

    #[tactic(auto, unfolding(nd_state_json::specs::Objects::object_of))]
    fn send<S: Serializer, N: Names>(&self, out: &mut S, names: &N) -> Result<(), S::Error> {
        match self {
            Step::Feed {
                p,
                vertex,
                values,
                next,
            } => {
                object! {
                    "do": "feed",
                    "next": *next,
                    "p": *p,
                    "values": values,
                    "vertex": Place(*vertex)
                }
                .send(out, names)
            }
            Step::Take {
                p,
                edge,
                time,
                value,
            } => {
                object! {
                    "do": "take",
                    "edge": Place(*edge),
                    "p": *p,
                    "time": time,
                    "value": *value
                }
                .send(out, names)
            }
            Step::Notice { p, vertex, time } => {
                object! {
                    "do": "notice",
                    "p": *p,
                    "time": time,
                    "vertex": Place(*vertex)
                }
                .send(out, names)
            }
            Step::Release { p, vertex, times } => send_release(
                out,
                names,
                *p,
                *vertex,
                times.get(),
            ),
            Step::Send { p, vertex, batch } => send_batch(out, names, *p, *vertex, batch.get()),
            Step::Broadcast { p, part } => send_broadcast(out, names, *p, part),
            Step::Receive { from, to } => {
                object! {"do": "receive", "from": *from, "to": *to}.send(out, names)
            }
        }
    }
}

// Sends the object of a release, which drops a capability, moves it to a later time, or keeps it beside one at a later time.
fn send_release<S: Serializer, N: Names>(
    out: &mut S,
    names: &N,
    p: u32,
    vertex: usize,
    times: &Times,
) -> Result<(), S::Error>
    ensures { OnOk result (SendsValue
        (release_object (N.graph names.now) p vertex times.now.time times.now.to)
        (S.written out.old) (S.written out.new)) }
{
    let (time, vertex) = (&times.time, Place(vertex));
    let Some(later) = &times.to else {
        return object! {"do": "release", "p": p, "time": time, "vertex": vertex}.send(out, names);
    };
    let to = &later.time;
    if later.keep {
        object! {
            "do": "release",
            "keep": true,
            "p": p,
            "time": time,
            "to": to,
            "vertex": vertex
        }
        .send(out, names)
    } else {
        object! {
            "do": "release",
            "p": p,
            "time": time,
            "to": to,
            "vertex": vertex
        }
        .send(out, names)
    }
}

// Makes the object of a send: the given members, and then those that each send has.
macro_rules! sending {
    ($p:expr, $vertex:expr, $batch:expr $(, $key:tt : $member:expr)*) => {
        object! {
            $($key : $member,)*
            "do": "send",
            "p": $p,
            "port": $batch.port,
            "time": &$batch.time,
            "values": &$batch.values,
            "vertex": Place($vertex)
        }
    };
}

// Sends the object of a send, with the keys `at` and `dest` if they were given.
fn send_batch<S: Serializer, N: Names>(
    out: &mut S,
    names: &N,
    p: u32,
    vertex: usize,
    batch: &Batch,
) -> Result<(), S::Error>
    ensures { OnOk result (SendsValue (send_object (N.graph names.now) p vertex batch.now)
        (S.written out.old) (S.written out.new)) }
{
    match (&batch.at, batch.dest) {
        (None, None) => sending!(p, vertex, batch).send(out, names),
        (Some(at), None) => sending!(p, vertex, batch, "at": at).send(out, names),
        (None, Some(dest)) => sending!(p, vertex, batch, "dest": dest).send(out, names),
        (Some(at), Some(dest)) => {
            sending!(p, vertex, batch, "at": at, "dest": dest).send(out, names)
        }
    }
}

// Sends the object of a broadcast, of all that is unsent or of a part.
fn send_broadcast<S: Serializer, N: Names>(
    out: &mut S,
    names: &N,
    p: u32,
    part: &Part,
) -> Result<(), S::Error>
    ensures { OnOk result (SendsValue (broadcast_object (N.graph names.now) p part.now)
        (S.written out.old) (S.written out.new)) }
{
    match part {
        Part::All => object! {"do": "broadcast", "p": p}.send(out, names),
        Part::Points(points) => {
            object! {"do": "broadcast", "p": p, "part": points}.send(out, names)
        }
    }
}

//! The reasons why a processor does not consider a pointstamp finished.
ghost use Rattle.std.specs.Prelude.{◌≡◌, OnOk, map};
ghost use Rattle.serde_json.specs.Events.{SendsValue};
ghost use Rattle.nd_state_json.specs.StateText.{row};
ghost use Rattle.rewind_replies.specs.NoFloats.{no_float-held, no_float-reason, no_float-row, no_float-unheard};
ghost use Rattle.rewind_replies.specs.Reasons.{held_data, reason_data, unheard_data};

use crate::object;
use crate::shown::{Names, Place, Shown};
use nd_paths::Pointstamp;
use nd_why::{Held, Reason, Unheard};
use serde::Serializer;

// All that is held at a pointstamp.
#[derive(Drop)]
struct HeldAt<'a> {
    point: &'a Pointstamp,
    held: &'a [Held],
}

impl<'a> Shown for HeldAt<'a> {
    ghost shown = { λ g h. row (map (held_data g h.point.now.location) h.held.now) };

    ghost exact = { λ g h.
        no_float-row (held_data g h.point.now.location) h.held.now
        (no_float-held g h.point.now.location) };

    fn send<S: Serializer, N: Names>(&self, out: &mut S, names: &N) -> Result<(), S::Error> {
        out.begin_seq(Some(self.held.len()))?;
        for held in self.held {
            send_held(out, names, self.point.location, held)?;
        }
        out.end_seq()
    }
}

// Sends one thing that a processor holds, at this location.
fn send_held<S: Serializer, N: Names>(
    out: &mut S,
    names: &N,
    location: usize,
    held: &Held,
) -> Result<(), S::Error>
    ensures { OnOk result (SendsValue (held_data (N.graph names.now) location held.now)
        (S.written out.old) (S.written out.new)) }
{
    let place = Place(location);
    match held {
        Held::Records { p, value, count } => {
            object! {"edge": place, "n": *count, "p": *p, "value": *value}.send(out, names)
        }
        Held::Request { p } => object! {"p": *p, "request": place}.send(out, names),
        Held::Token { p } => object! {"p": *p, "token": place}.send(out, names),
    }
}

/// An update that a processor has not received, and where it is.
impl Shown for Unheard {
    ghost shown = { λ g one. unheard_data one };

    ghost exact = { λ g one. no_float-unheard one };

    fn send<S: Serializer, N: Names>(&self, out: &mut S, names: &N) -> Result<(), S::Error> {
        match self {
            Unheard::Unsent { p, n } => object! {"n": *n, "p": *p, "unsent": true}.send(out, names),
            Unheard::Queued { p, behind, n } => {
                object! {"behind": *behind, "n": *n, "p": *p}.send(out, names)
            }
        }
    }
}

/// A reason: its pointstamp, all that is held there, the updates of it that were not received, and
/// the view's count.
impl Shown for Reason {
    ghost shown = { reason_data };

    ghost exact = { no_float-reason };

    fn send<S: Serializer, N: Names>(&self, out: &mut S, names: &N) -> Result<(), S::Error> {
        let (point, unheard) = (self.point(), self.unheard());
        let held = HeldAt {
            point,
            held: self.held(),
        };
        object! {
            "held": held,
            "point": point,
            "unheard": unheard,
            "view": self.view()
        }
        .send(out, names)
    }
}

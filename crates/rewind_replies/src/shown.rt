//! The trait of what replies show, each value as a JSON value, and the names of locations.
ghost use Rattle.std.specs.Prelude.{◌≡◌, false, map, option_map, OnOk, refl};
ghost use Rattle.serde_json.specs.Data.{Data, boolean, string};
ghost use Rattle.serde_json.specs.Events.{SendsValue};
ghost use Rattle.serde_json.specs.Written.{has_float};
ghost use Rattle.nd_graph.specs.Graph.{Dataflow};
ghost use Rattle.nd_state_json.specs.StateText.{name_at as name_in, natural, row, whole};
ghost use Rattle.rewind_replies.specs.Effects.{or_null};
ghost use Rattle.rewind_replies.specs.Errors.{no_graph};
ghost use Rattle.rewind_replies.specs.NoFloats.{no_float-row, no_float-whole, no_float-or_null};

use nd_graph::Graph;
use nd_state_json::name_at;
use serde::Serializer;
use std::alloc::Allocator;

/// What gives locations their names: a graph, or `NoNames`.
pub trait Names {
    ghost graph: { Self → Dataflow };

    /// Returns the name of a location, or an empty text if there is no such location.
    fn name_at(&self, location: usize) -> &str
        ensures { result.now ≡ name_in (graph self.now) location };
}

impl Names for Graph {
    ghost graph = { λ g. g };

    fn name_at(&self, location: usize) -> &str {
        name_at(self, location)
    }
}

/// No names, for replies that show no location.
#[derive(Drop)]
pub struct NoNames;

impl Names for NoNames {
    ghost graph = { λ _. no_graph };

    fn name_at(&self, _location: usize) -> &str {
        ""
    }
}

/// A type that replies show: each value is shown as one JSON value, which has no float.
pub trait Shown {
    ghost shown: { Dataflow → Self → Data };

    ghost exact: { (g : Dataflow) (x : Self) → has_float (shown g x) ≡ false };

    /// Sends the JSON value of `self`.
    fn send<S: Serializer, N: Names>(&self, out: &mut S, names: &N) -> Result<(), S::Error>
        ensures { OnOk result (SendsValue (shown (N.graph names.now) self.now)
            (S.written out.old) (S.written out.new)) };
}

/// A location, shown by its name: an empty text if there is no such location.
#[derive(Drop)]
pub struct Place(pub usize);

impl Shown for Place {
    ghost shown = { λ g l. string (name_in g l.0) };

    ghost exact = { λ g l. refl };

    fn send<S: Serializer, N: Names>(&self, out: &mut S, names: &N) -> Result<(), S::Error> {
        out.str(names.name_at(self.0))
    }
}

impl Shown for bool {
    ghost shown = { λ g b. boolean b };

    ghost exact = { λ g b. refl };

    fn send<S: Serializer, N: Names>(&self, out: &mut S, _names: &N) -> Result<(), S::Error> {
        out.bool(*self)
    }
}

impl Shown for u64 {
    ghost shown = { λ g n. natural n };

    ghost exact = { λ g n. refl };

    fn send<S: Serializer, N: Names>(&self, out: &mut S, _names: &N) -> Result<(), S::Error> {
        out.u64(*self)
    }
}

impl Shown for u32 {
    ghost shown = { λ g n. natural n };

    ghost exact = { λ g n. refl };

    fn send<S: Serializer, N: Names>(&self, out: &mut S, _names: &N) -> Result<(), S::Error> {
        out.u64(u64::from(*self))
    }
}

impl Shown for usize {
    ghost shown = { λ g n. natural n };

    ghost exact = { λ g n. refl };

    fn send<S: Serializer, N: Names>(&self, out: &mut S, _names: &N) -> Result<(), S::Error> {
        out.u64(*self as u64)
    }
}

impl Shown for i64 {
    ghost shown = { λ g z. whole z };

    ghost exact = { λ g z. no_float-whole z };

    fn send<S: Serializer, N: Names>(&self, out: &mut S, _names: &N) -> Result<(), S::Error> {
        match u64::try_from(*self) {
            Ok(natural) => out.u64(natural),
            Err(_) => out.i64(*self),
        }
    }
}

impl<'a> Shown for &'a str {
    ghost shown = { λ g s. string s.now };

    ghost exact = { λ g s. refl };

    fn send<S: Serializer, N: Names>(&self, out: &mut S, _names: &N) -> Result<(), S::Error> {
        out.str(self)
    }
}

impl<'a, T: Shown> Shown for &'a T {
    ghost shown = { λ g x. T.shown g x.now };

    ghost exact = { λ g x. T.exact g x.now };

    fn send<S: Serializer, N: Names>(&self, out: &mut S, names: &N) -> Result<(), S::Error> {
        T::send(self, out, names)
    }
}

impl<T: Shown> Shown for Option<T> {
    ghost shown = { λ g o. or_null (option_map (T.shown g) o) };

    ghost exact = { λ g o. no_float-or_null (T.shown g) o (T.exact g) };

    fn send<S: Serializer, N: Names>(&self, out: &mut S, names: &N) -> Result<(), S::Error> {
        match self {
            Some(it) => it.send(out, names),
            None => out.unit(),
        }
    }
}

impl<'a, T: Shown> Shown for &'a [T] {
    ghost shown = { λ g items. row (map (T.shown g) items.now) };

    ghost exact = { λ g items. no_float-row (T.shown g) items.now (T.exact g) };

    fn send<S: Serializer, N: Names>(&self, out: &mut S, names: &N) -> Result<(), S::Error> {
        send_list(out, names, self)
    }
}

impl<T: Shown, A: Allocator> Shown for Vec<T, A> {
    ghost shown = { λ g items. row (map (T.shown g) items.items) };

    ghost exact = { λ g items. no_float-row (T.shown g) items.items (T.exact g) };

    fn send<S: Serializer, N: Names>(&self, out: &mut S, names: &N) -> Result<(), S::Error> {
        send_list(out, names, self.as_slice())
    }
}

/// Sends the array of `items`, in their order.
pub fn send_list<S: Serializer, N: Names, T: Shown>(
    out: &mut S,
    names: &N,
    items: &[T],
) -> Result<(), S::Error>
    ensures { OnOk result (SendsValue (row (map (T.shown (N.graph names.now)) items.now))
        (S.written out.old) (S.written out.new)) }
{
    out.begin_seq(Some(items.len()))?;
    for item in items {
        item.send(out, names)?;
    }
    out.end_seq()
}

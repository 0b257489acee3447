//! Objects, member by member, and the macro that makes them.
ghost use Rattle.std.specs.Prelude.{◌≡◌, false, OnOk, refl};
ghost use Rattle.nd_graph.specs.Graph.{Dataflow};
ghost use Rattle.serde_json.specs.Data.{Members as TheMembers, member, no_members, object};
ghost use Rattle.serde_json.specs.Events.{SendsMembers, members_len};
ghost use Rattle.serde_json.specs.Written.{members_have_float};

use crate::shown::{Names, Shown};
use serde::Serializer;

/// Members of an object, up to its end.
pub trait Members {
    ghost members: { Dataflow → Self → TheMembers };

    ghost exact: { (g : Dataflow) (ms : Self) → members_have_float (members g ms) ≡ false };

    /// Sends all members, and the end of the object.
    fn send_all<S: Serializer, N: Names>(&self, out: &mut S, names: &N) -> Result<(), S::Error>
        ensures { OnOk result (SendsMembers (members (N.graph names.now) self.now)
            (S.written out.old) (S.written out.new)) };
}

/// The end of an object.
#[derive(Drop)]
pub struct End;

impl Members for End {
    ghost members = { λ g _. no_members };

    ghost exact = { λ g _. refl };

    fn send_all<S: Serializer, N: Names>(&self, out: &mut S, _names: &N) -> Result<(), S::Error> {
        out.end_map()
    }
}

/// A member, and those after it.
#[derive(Drop)]
pub struct Member<'k, V, R> {
    pub key: &'k str,
    pub value: V,
    pub rest: R,
}

impl<'k, V: Shown, R: Members> Members for Member<'k, V, R> {
    ghost members = { λ g m. member m.key.now (V.shown g m.value) (R.members g m.rest) };

    ghost exact = { λ g m. rw (V.exact g m.value, R.exact g m.rest) refl };

    fn send_all<S: Serializer, N: Names>(&self, out: &mut S, names: &N) -> Result<(), S::Error> {
        out.key(self.key)?;
        self.value.send(out, names)?;
        self.rest.send_all(out, names)
    }
}

/// An object, and how many members it has; `object!` makes it.
#[derive(Drop)]
pub struct Object<M: Members> {
    pub count: usize,
    pub members: M,
    ghost counted: { (g : Dataflow) → count ≡ members_len (M.members g members) },
}

impl<M: Members> Shown for Object<M> {
    ghost shown = { λ g o. object (M.members g o.members) };

    ghost exact = { λ g o. M.exact g o.members };

    fn send<S: Serializer, N: Names>(&self, out: &mut S, names: &N) -> Result<(), S::Error> {
        out.begin_map(Some(self.count))?;
        self.members.send_all(out, names)
    }
}

/// Makes an `Object` from members that are written as in JSON. They are shown in this order.
#[macro_export]
macro_rules! object {
    ($($key:tt : $member:expr),*) => {
        $crate::Object {
            count: 0 $(+ $crate::one!($key))*,
            members: $crate::members!($($key : $member),*),
        }
    };
}

/// A helper of `object!`: one for each key, so that their sum is the number of members.
#[macro_export]
macro_rules! one {
    ($key:tt) => { 1 };
}

/// A helper of `object!`: the members from a key on, up to the end of the object.
#[macro_export]
macro_rules! members {
    () => { $crate::End };
    ($key:tt : $member:expr $(, $keys:tt : $members:expr)*) => {
        $crate::Member {
            key: $key,
            value: $member,
            rest: $crate::members!($($keys : $members),*),
        }
    };
}

//! The changes of a feed, a take, a notice, a release or a send.
ghost use Rattle.std.specs.Prelude.{◌≡◌, ◌<◌, ◌++◌, IsTrue, length, map, slice_index_or};
ghost use Rattle.nd_steps.specs.Feeds.{arrived};
ghost use Rattle.nd_steps.specs.Keyed.{taken_in};

use crate::flow::TakeChanges;
use crate::listing::{ChangeAt, Listing};
use crate::{Change, FedAt};
use arrayvec::ArrayVec;
use std::marker::Model;

// The most changes of a feed beside those by which values arrive.
pub(crate) const MOST: usize = 4;

// What determines changes.
#[derive(Drop)]
enum Origin<'a> {
    // A feed: one change for each value that arrives, and then the rest.
    Fed {
        at: FedAt,
        values: &'a [i64],
        rest: ArrayVec<Change, MOST>,
    },
    Taken(TakeChanges),
    Listed(&'a [Change]),
}

/// Changes, in order. No change of a list is copied.
#[derive(Drop)]
pub(crate) struct Keyed<'a> {
    origin: Origin<'a>,
}

impl<'a> Model for Keyed<'a> {
    ghost use Rattle.std.specs.Prelude.{List};
    ghost use Rattle.nd_steps.specs.Keyed.{changes_in};
    ghost use Rattle.nd_steps.specs.declared.change.Change.{Change};

    ghost Value = { List Change };

    ghost view = { λ k. changes_in k.origin };
}

impl<'a> Keyed<'a> {
    // Returns the changes of a feed whose values arrive.
    pub(crate) fn fed(at: FedAt, values: &'a [i64], rest: ArrayVec<Change, MOST>) -> Keyed<'a>
        ensures { result ≡ map (arrived at) values.now ++ rest.items }
    {
        let origin = Origin::Fed { at, values, rest };
        Keyed { origin }
    }

    // Returns the changes of a take.
    pub(crate) fn taken(changes: TakeChanges) -> Keyed<'a>
        ensures { result ≡ taken_in changes }
    {
        let origin = Origin::Taken(changes);
        Keyed { origin }
    }

    // Returns the changes of a list.
    pub(crate) fn listed(changes: &'a [Change]) -> Keyed<'a>
        ensures { result ≡ changes.now }
    {
        let origin = Origin::Listed(changes);
        Keyed { origin }
    }

    // Returns whether these are the changes.
    pub(crate) fn is(&self, changes: &[Change]) -> bool
        ensures { IsTrue result → self.now ≡ changes.now }
    {
        if self.len() != changes.len() {
            return false;
        }
        for i in 0..changes.len() {
            if !self.at(i).borrowed().same(&changes[i].borrowed()) {
                return false;
            }
        }
        true
    }
}

impl<'a> Listing for Keyed<'a> {
    ghost listed = { λ k. k };

    fn len(&self) -> usize {
        match &self.origin {
            Origin::Fed {
                at: _,
                values,
                rest,
            } => values.len() + rest.len(),
            Origin::Taken(changes) => changes.len(),
            Origin::Listed(changes) => changes.len(),
        }
    }

    // Returns change `i`. It is built if it is not in a list.
    fn at(&self, i: usize) -> ChangeAt<'_> {
        match &self.origin {
            Origin::Fed { at, values, rest } => {
                let count = values.len();
                if i < count {
                    return ChangeAt::Owned(at.arrived(values[i]));
                }
                ChangeAt::Borrowed(rest[i - count].borrowed())
            }
            Origin::Taken(changes) => ChangeAt::Borrowed(changes.change(i)),
            Origin::Listed(changes) => ChangeAt::Borrowed(changes.get(i).unwrap().borrowed()),
        }
    }
}

//! The steps that a cluster can execute.
ghost use Rattle.std.specs.Prelude.{◌≡◌, ◌≢◌, IfOk, MatchBool};

use crate::{BoxedBatch, BoxedTimes, Part, Values};
use nd_time::Timestamp;
use std::alloc::{AllocError, Allocator, Global};

/// What happens to an input's token after a feed.
#[derive(Clone, Copy, Debug, PartialEq, Eq, Drop)]
pub enum Next {
    /// The token moves to the next epoch.
    Next,
    /// The token is dropped.
    Close,
    /// The token stays at its epoch.
    Stay,
    /// The token moves to this epoch.
    To(u32),
}

/// One step of one processor (Naiad, SOSP 2013, sections 2.2 and 3.3).
#[derive(Drop)]
pub enum Step<A: Allocator = Global> {
    /// Feeds values into an input vertex at its token's epoch.
    Feed {
        p: u32,
        vertex: usize,
        values: Values<A>,
        next: Next,
    },
    /// Removes a record from an edge and hands it to the edge's target.
    Take {
        p: u32,
        edge: usize,
        time: Timestamp,
        value: i64,
    },
    /// Removes a request for a notification, and runs the notification.
    Notice {
        p: u32,
        vertex: usize,
        time: Timestamp,
    },
    /// Drops a capability that a hold or opaque vertex holds, moves it to a later time, or keeps it beside one at a
    /// later time.
    Release {
        p: u32,
        vertex: usize,
        times: BoxedTimes<A>,
    },
    /// Sends values from a capability that an opaque vertex holds.
    Send {
        p: u32,
        vertex: usize,
        batch: BoxedBatch<A>,
    },
    /// Sends a part of the unsent change to every processor.
    Broadcast {
        p: u32,
        part: Part<A>,
    },
    /// Adds the front of a queue to the receiver's view.
    Receive {
        from: u32,
        to: u32,
    },
}

impl<A: Allocator> Step<A> {
    /// Returns an equal step.
    pub fn copy(&self, alloc: A) -> Result<Step<A>, AllocError>
    where
        A: Copy,
        ensures { IfOk result (λ x. x ≡ self.now) }
    {
        match self {
            Step::Feed {
                p,
                vertex,
                values,
                next,
            } => Ok(Step::Feed {
                p: *p,
                vertex: *vertex,
                values: values.copy(alloc)?,
                next: *next,
            }),
            Step::Take {
                p,
                edge,
                time,
                value,
            } => Ok(Step::Take {
                p: *p,
                edge: *edge,
                time: time.copy(),
                value: *value,
            }),
            Step::Notice { p, vertex, time } => Ok(Step::Notice {
                p: *p,
                vertex: *vertex,
                time: time.copy(),
            }),
            Step::Release { p, vertex, times } => Ok(Step::Release {
                p: *p,
                vertex: *vertex,
                times: times.copy(alloc)?,
            }),
            Step::Send { p, vertex, batch } => Ok(Step::Send {
                p: *p,
                vertex: *vertex,
                batch: batch.copy(alloc)?,
            }),
            Step::Broadcast { p, part } => Ok(Step::Broadcast {
                p: *p,
                part: part.copy(alloc)?,
            }),
            Step::Receive { from, to } => Ok(Step::Receive {
                from: *from,
                to: *to,
            }),
        }
    }
    /// Returns whether the two steps are equal.
    pub fn same(&self, other: &Step<A>) -> bool
        ensures { MatchBool result (self.now ≡ other.now) (self.now ≢ other.now) }
    {
        match (self, other) {
            (
                Step::Feed {
                    p,
                    vertex,
                    values,
                    next,
                },
                Step::Feed {
                    p: q,
                    vertex: input,
                    values: others,
                    next: after,
                },
            ) => *p == *q && *vertex == *input && values.same(others) && *next == *after,
            (
                Step::Take {
                    p,
                    edge,
                    time,
                    value,
                },
                Step::Take {
                    p: q,
                    edge: from,
                    time: at,
                    value: other,
                },
            ) => *p == *q && *edge == *from && *time == *at && *value == *other,
            (
                Step::Notice { p, vertex, time },
                Step::Notice {
                    p: q,
                    vertex: told,
                    time: at,
                },
            ) => *p == *q && *vertex == *told && *time == *at,
            (
                Step::Release { p, vertex, times },
                Step::Release {
                    p: q,
                    vertex: held,
                    times: others,
                },
            ) => *p == *q && *vertex == *held && times.same(others),
            (
                Step::Send { p, vertex, batch },
                Step::Send {
                    p: q,
                    vertex: sender,
                    batch: other,
                },
            ) => *p == *q && *vertex == *sender && batch.same(other),
            (Step::Broadcast { p, part }, Step::Broadcast { p: q, part: other }) => {
                *p == *q && part.same(other)
            }
            (
                Step::Receive { from, to },
                Step::Receive {
                    from: sender,
                    to: receiver,
                },
            ) => *from == *sender && *to == *receiver,
            _ => false,
        }
    }
}

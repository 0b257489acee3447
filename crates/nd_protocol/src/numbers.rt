//! Shows that the numbers of a step are in the ranges of their types.
ghost use Rattle.std.specs.Prelude.{All};
ghost use Rattle.nd_protocol.specs.Ranges.{IsSmall, TimeIsSmall, TimesAreSmall, NextIsSmall, IsValue, BatchIsSmall, NumbersFit};

use crate::{Batch, Next, Part, Step, Times};
use nd_paths::Pointstamp;
use nd_time::Timestamp;
use std::alloc::Allocator;

// Shows that the numbers fit 32 bits.
fn numbers_are_small(numbers: &[u32])
    ensures { All IsSmall numbers.now }
{
    let _len = numbers.len();
}

// Shows that the number fits 32 bits.
fn is_small(number: u32)
    ensures { IsSmall number }
{
    let _number = number;
}

// Shows that the number fits 64 bits.
fn is_value(value: i64)
    ensures { IsValue value }
{
    let _value = value;
}

// Shows that the numbers fit 64 bits.
fn are_values(values: &[i64])
    ensures { All IsValue values.now }
{
    for value in values {
        is_value(*value);
    }
}

/// Shows that the epoch and the counters of a time fit their types. The function does nothing; call it if its clause is
/// needed.
pub fn times_are_small(time: &Timestamp)
    ensures { TimeIsSmall time.now }
{
    let _epoch = time.epoch();
    numbers_are_small(time.counters());
}

// Shows that the epochs and the counters of pointstamps fit their types.
fn points_are_small(points: &[Pointstamp])
    ensures { All (λ x. TimeIsSmall x.time) points.now }
{
    for point in points {
        times_are_small(&point.time);
    }
}

// Shows that the epochs and the counters of a released capability's times fit their types.
fn released_times_are_small(times: &Times)
    ensures { TimesAreSmall times.now.time times.now.to }
{
    times_are_small(&times.time);
    if let Some(to) = &times.to {
        times_are_small(&to.time);
    }
}

// Shows that the numbers of a batch fit their types.
fn batch_is_small<A: Allocator>(batch: &Batch<A>)
    ensures { BatchIsSmall batch.now }
{
    times_are_small(&batch.time);
    if let Some(at) = &batch.at {
        times_are_small(at);
    }
    if let Some(dest) = batch.dest {
        is_small(dest);
    }
    is_small(batch.port);
    are_values(batch.values.as_slice());
}

// Shows that the epoch to which a token moves fits 32 bits.
fn next_is_small(next: Next)
    ensures { NextIsSmall next }
{
    if let Next::To(epoch) = next {
        let _epoch = epoch;
    }
}

impl<A: Allocator> Step<A> {
    /// Shows that the numbers of a step fit their types. The method does nothing; call it if its clause is needed.
    pub fn numbers_fit(&self)
        ensures { NumbersFit self.now }
    {
        match self {
            Step::Feed {
                p,
                values,
                next,
                ..
            } => {
                let _p = *p;
                next_is_small(*next);
                are_values(values.as_slice());
            }
            Step::Take { p, time, value, .. } => {
                let _p = *p;
                let _value = *value;
                times_are_small(time);
            }
            Step::Notice { p, time, .. } => {
                let _p = *p;
                times_are_small(time);
            }
            Step::Release { p, times, .. } => {
                let _p = *p;
                released_times_are_small(times.get());
            }
            Step::Send { p, batch, .. } => {
                let _p = *p;
                batch_is_small(batch.get());
            }
            Step::Broadcast { p, part: Part::All } => {
                let _p = *p;
            }
            Step::Broadcast {
                p,
                part: Part::Points(points),
            } => {
                let _p = *p;
                points_are_small(points.as_slice());
            }
            Step::Receive { from, to } => {
                let _numbers = (*from, *to);
            }
        }
    }
}

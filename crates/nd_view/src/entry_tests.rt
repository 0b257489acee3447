//! Tests of entries and pointstamps.

ghost use Rattle.std.specs.Prelude.{◌↔◌, Any, IsTrue};
ghost use Rattle.nd_view.specs.View.{IsBefore};
ghost use Rattle.nd_view.specs.Room.{IsWithinRoom};

use crate::Extent;
use nd_paths::{Paths, Pointstamp};
use std::alloc::Allocator;

/// Returns whether `first` is before `point`.
pub fn is_before<B: Allocator>(
    first: &Pointstamp,
    paths: &Paths<B>,
    point: &Pointstamp,
    extent: Extent,
) -> bool
    ensures { IsTrue result ↔ IsBefore paths.now extent first.now point.now }
{
    match extent {
        Extent::AtOrBefore => paths.before(first, point),
        Extent::StrictlyBefore => paths.strictly_before(first, point),
    }
}

/// Returns whether one of the pointstamps is before `point`.
pub fn any_before<B: Allocator>(
    points: &[Pointstamp],
    paths: &Paths<B>,
    point: &Pointstamp,
    extent: Extent,
) -> bool
    ensures { IsTrue result ↔ Any (λ x. IsBefore paths.now extent x point.now) points.now }
{
    points
        .iter()
        .any(|one: &Pointstamp| is_before(one, paths, point, extent))
}

/// Returns whether it takes memory to replace the integer `old` by `new`.
pub fn takes_room(old: i64, new: i64) -> bool
    ensures { IsTrue result ↔ (IsWithinRoom old new → ⊥) }
{
    new > 0 && old <= 0 || new != 0 && old == 0
}

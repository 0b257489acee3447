//! The part of the unsent change that a broadcast sends.
ghost use Rattle.std.specs.Prelude.{◌≡◌, ◌≢◌, [], ◌∷◌, ◌++◌, IfOk, OnOk, OnErr, MatchBool};

use nd_paths::Pointstamp;
use std::alloc::{AllocError, Allocator, Global};
use std::marker::Model;

/// A list of pointstamps, in the order in which they are named.
#[derive(Drop)]
pub struct Points<A: Allocator = Global> {
    items: Vec<Pointstamp, A>,
}

impl<A: Allocator> Model for Points<A> {
    ghost use Rattle.std.specs.Prelude.{List};
    ghost use Rattle.std.specs.Coded.{coded_list};
    ghost use Rattle.nd_paths.specs.Point.{point_code};
    ghost use Rattle.nd_paths.specs.declared.point.Pointstamp.{Pointstamp as Point};

    ghost Value = { List Point };

    ghost coded = { coded_list point_code };

    ghost view = { λ a. a.items.items };
}

impl<A: Allocator> Points<A> {
    /// Returns an empty list.
    pub fn new(alloc: A) -> Points<A>
        ensures { result ≡ [] }
    {
        Points {
            items: Vec::new(alloc),
        }
    }

    /// Returns the pointstamps.
    pub fn as_slice(&self) -> &[Pointstamp]
        ensures { result.now ≡ self.now }
    {
        &self.items
    }

    /// Appends a pointstamp.
    pub fn push(&mut self, point: Pointstamp) -> Result<(), AllocError>
        ensures ok { OnOk result (self.new ≡ self.old ++ point ∷ []) }
        ensures err { OnErr result (self.new ≡ self.old) }
    {
        self.items.push(point)?;
        Ok(())
    }

    /// Returns an equal list.
    pub fn copy(&self, alloc: A) -> Result<Points<A>, AllocError>
        ensures { IfOk result (λ v. v ≡ self.now) }
    {
        let mut items = Vec::with_capacity(alloc, self.items.len())?;
        for point in &self.items {
            items.push(point.copy())?;
        }
        Ok(Points { items })
    }

    // Returns whether the two lists are equal.
    pub(crate) fn same(&self, other: &Points<A>) -> bool
        ensures { MatchBool result (self.now ≡ other.now) (self.now ≢ other.now) }
    {
        self.items.as_slice() == other.items.as_slice()
    }
}

/// The part of the unsent change that a broadcast sends.
#[derive(Drop)]
pub enum Part<A: Allocator = Global> {
    /// The complete unsent change.
    All,
    /// The entries at these pointstamps. A pointstamp that is named twice counts once, and one
    /// without an entry adds nothing.
    Points(Points<A>),
}

impl<A: Allocator> Part<A> {
    /// Returns an equal part.
    pub fn copy(&self, alloc: A) -> Result<Part<A>, AllocError>
        ensures { IfOk result (λ part. part ≡ self.now) }
    {
        match self {
            Part::All => Ok(Part::All),
            Part::Points(points) => Ok(Part::Points(points.copy(alloc)?)),
        }
    }

    // Returns whether the two parts are equal.
    pub(crate) fn same(&self, other: &Part<A>) -> bool
        ensures { MatchBool result (self.now ≡ other.now) (self.now ≢ other.now) }
    {
        match (self, other) {
            (Part::All, Part::All) => true,
            (Part::Points(points), Part::Points(others)) => points.same(others),
            _ => false,
        }
    }
}

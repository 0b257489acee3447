//! The summaries that are found of the walks between two locations.
ghost use Rattle.std.specs.Prelude.{◌≡◌, ◌↔◌, [], ◌++◌, IfOk, IsTrue};
ghost use Rattle.nd_summaries.specs.Row.{IsCovered, listed_before, left_after, with_summary};

use crate::Summary;
use nd_time::TimeOrder;
use std::alloc::{AllocError, Allocator, Global};
use std::marker::Model;

/// Summaries, in the order of listing.
pub struct SummaryList<A: Allocator = Global> {
    summaries: Vec<Summary, A>,
}

impl<A: Allocator> Drop for SummaryList<A> {
    fn drop(self) {
        let SummaryList { summaries: _ } = self;
    }
}

impl<A: Allocator> Model for SummaryList<A> {
    ghost use Rattle.std.specs.Prelude.{List};
    ghost use Rattle.nd_summaries.specs.declared.summary.Summary.{Summary};

    ghost Value = { List Summary };

    ghost view = { λ a. a.summaries.items };
}

impl<A: Allocator> SummaryList<A> {
    /// Returns the list without summaries.
    pub(crate) fn new(alloc: A) -> SummaryList<A>
        ensures { result ≡ [] }
    {
        SummaryList {
            summaries: Vec::new(alloc),
        }
    }

    /// Returns the summaries.
    pub fn as_slice(&self) -> &[Summary]
        ensures { result.now ≡ self.now }
    {
        self.summaries.as_slice()
    }

    /// Returns whether one of the summaries is at most this one.
    pub(crate) fn covers(&self, summary: &Summary, order: TimeOrder) -> bool
        ensures { IsTrue result ↔ IsCovered order self.now summary.now }
    {
        for known in self.as_slice() {
            if known.is_at_most(summary, order) {
                return true;
            }
        }
        false
    }

    /// Adds a summary at its place, and removes those that it is at most.
    pub(crate) fn add(
        &mut self,
        alloc: A,
        summary: &Summary,
        order: TimeOrder,
    ) -> Result<(), AllocError>
        ensures { IfOk result (λ _. self.new ≡ with_summary order summary.now self.old) }
    {
        let mut summaries = before(alloc, self.as_slice(), summary)?;
        summaries.push(summary.copy())?;
        push_after(&mut summaries, self.as_slice(), summary, order)?;
        self.summaries = summaries;
        Ok(())
    }

    /// Returns an equal list.
    pub(crate) fn copy(&self, alloc: A) -> Result<SummaryList<A>, AllocError>
        ensures { IfOk result (λ l. l ≡ self.now) }
    {
        let mut summaries = Vec::with_capacity(alloc, self.summaries.len())?;
        for summary in &self.summaries {
            summaries.push(summary.copy())?;
        }
        Ok(SummaryList { summaries })
    }
}

// Returns the summaries that are listed before this one.
fn before<A: Allocator>(
    alloc: A,
    list: &[Summary],
    summary: &Summary,
) -> Result<Vec<Summary, A>, AllocError>
    ensures { IfOk result (λ v. v.items ≡ listed_before summary.now list.now) }
{
    let mut summaries = Vec::new(alloc);
    for known in list {
        if known.is_listed_before(summary) {
            summaries.push(known.copy())?;
        }
    }
    Ok(summaries)
}

// Appends the summaries that are listed after this one and that it is not at most.
fn push_after<A: Allocator>(
    summaries: &mut Vec<Summary, A>,
    list: &[Summary],
    summary: &Summary,
    order: TimeOrder,
) -> Result<(), AllocError>
    ensures { IfOk result (λ _. summaries.new.items
        ≡ summaries.old.items ++ left_after order summary.now list.now) }
{
    for known in list {
        if summary.is_listed_before(known) && !summary.passes(known, order) {
            summaries.push(known.copy())?;
        }
    }
    Ok(())
}

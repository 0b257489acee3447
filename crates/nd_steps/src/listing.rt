//! Changes by their indices.
ghost use Rattle.std.specs.Prelude.{◌≡◌, ◌<◌, List, length, slice_index_or};
ghost use Rattle.nd_steps.specs.Borrowed.{change_of, change_at};
ghost use Rattle.nd_steps.specs.declared.change.Change.{Change as Made};

use crate::Change;
use crate::change::ChangeRef;

// A change whose key is copied only if no other value holds it.
#[derive(Drop)]
pub(crate) enum ChangeAt<'a> {
    Borrowed(ChangeRef<'a>),
    Owned(Change),
}

impl<'a> ChangeAt<'a> {
    // Returns the change without a copy of its key.
    pub(crate) fn borrowed(&self) -> ChangeRef<'_>
        ensures { change_of result ≡ change_at self.now }
    {
        match self {
            ChangeAt::Borrowed(change) => *change,
            ChangeAt::Owned(change) => change.borrowed(),
        }
    }
}

// Changes, in order.
pub(crate) trait Listing {
    ghost listed: { Self → List Made };

    // Returns the number of changes.
    fn len(&self) -> usize
        ensures { result ≡ length (listed self.now) };

    // Returns change `i`.
    fn at(&self, i: usize) -> ChangeAt<'_>
        requires { i < length (listed self.now) }
        ensures { change_at result ≡ slice_index_or (listed self.now) i (change_at result) };
}

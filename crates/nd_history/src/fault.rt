//! Why a search, a query for changes or a query for turns returns nothing.
ghost use Rattle.std.specs.Prelude.{◌≡◌};
ghost use Rattle.nd_history.specs.Faults.{code_of_changes, code_of_search, code_of_turns};

use nd_protocol::Refusal;
use nd_replies::Fault;
use nd_time::Code;
use std::alloc::{AllocError, Allocator, Global};

/// Why a search returns nothing.
#[derive(Drop)]
pub enum SearchFault<A: Allocator = Global> {
    /// The first position is above the last.
    BadRange,
    /// The number of workers is 0.
    NoWorkers,
    /// The last position is greater than the number of kept steps.
    NoSuchPoint,
    /// An allocation failed before the workers started or after they stopped.
    Memory,
    /// An allocation failed in a worker's walk. `piece` is the least piece without a result, `claimed`
    /// has the pieces that each worker has claimed.
    Missing {
        piece: u64,
        claimed: Vec<Vec<u64, A>, A>,
    },
}

impl<A: Allocator> From<AllocError> for SearchFault<A> {
    ghost use Rattle.std.specs.Prelude.{◌≡◌};
    ghost use Rattle.nd_history.specs.declared.fault.SearchFault.TheVariants.{Memory};

    ghost from_gives = { λ _ r. r ≡ Memory };

    fn from(_: AllocError) -> SearchFault<A> {
        SearchFault::Memory
    }
}

impl<A: Allocator> SearchFault<A> {
    /// Returns the number and the name with which a reply reports the error.
    pub fn code(&self) -> Code
        ensures { result ≡ code_of_search self.now }
    {
        match self {
            SearchFault::BadRange => Code::new(50, "BadRange"),
            SearchFault::NoWorkers => Code::new(51, "NoWorkers"),
            SearchFault::NoSuchPoint => Fault::NoSuchPoint.code(),
            SearchFault::Memory => Refusal::Memory.code(),
            SearchFault::Missing {
                piece: _,
                claimed: _,
            } => Code::new(52, "Missing"),
        }
    }
}

/// Why `changes` returns nothing.
#[derive(Clone, Copy, Debug, Drop, PartialEq, Eq)]
pub enum ChangesFault {
    /// The cluster has no such processor.
    NoProcessor,
    /// The first position is above the last.
    BadRange,
    /// The last position is greater than the number of kept steps.
    NoSuchPoint,
    /// An allocation failed.
    Memory,
}

impl From<AllocError> for ChangesFault {
    ghost use Rattle.std.specs.Prelude.{◌≡◌};
    ghost use Rattle.nd_history.specs.declared.fault.ChangesFault.TheVariants.{Memory};

    ghost from_gives = { λ _ r. r ≡ Memory };

    fn from(_: AllocError) -> ChangesFault {
        ChangesFault::Memory
    }
}

impl ChangesFault {
    /// Returns the number and the name with which a reply reports the error.
    pub fn code(&self) -> Code
        ensures { result ≡ code_of_changes self.now }
    {
        match self {
            ChangesFault::NoProcessor => Refusal::NoProcessor.code(),
            ChangesFault::BadRange => Code::new(50, "BadRange"),
            ChangesFault::NoSuchPoint => Fault::NoSuchPoint.code(),
            ChangesFault::Memory => Refusal::Memory.code(),
        }
    }
}

/// Why `turns` returns nothing.
#[derive(Clone, Copy, Debug, Drop, PartialEq, Eq)]
pub enum TurnsFault {
    /// The first position is above the last.
    BadRange,
    /// The last position is greater than the number of kept steps.
    NoSuchPoint,
    /// An allocation failed.
    Memory,
}

impl From<AllocError> for TurnsFault {
    ghost use Rattle.std.specs.Prelude.{◌≡◌};
    ghost use Rattle.nd_history.specs.declared.fault.TurnsFault.TheVariants.{Memory};

    ghost from_gives = { λ _ r. r ≡ Memory };

    fn from(_: AllocError) -> TurnsFault {
        TurnsFault::Memory
    }
}

impl TurnsFault {
    /// Returns the number and the name with which a reply reports the error.
    pub fn code(&self) -> Code
        ensures { result ≡ code_of_turns self.now }
    {
        match self {
            TurnsFault::BadRange => Code::new(50, "BadRange"),
            TurnsFault::NoSuchPoint => Fault::NoSuchPoint.code(),
            TurnsFault::Memory => Refusal::Memory.code(),
        }
    }
}

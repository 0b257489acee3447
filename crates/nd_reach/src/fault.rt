//! Why a question for what can still happen is not answered.
ghost use Rattle.std.specs.Prelude.{◌≡◌};
ghost use Rattle.nd_reach.specs.Faults.{code_of_reach};

use nd_protocol::{NoMemory, Refusal};
use nd_time::Code;
use std::alloc::AllocError;

/// Why `reach` returns nothing.
#[derive(Clone, Copy, Debug, Drop, PartialEq, Eq)]
pub enum ReachFault {
    /// The limit is 0 or above 1,000,000.
    BadRange,
    /// An allocation failed.
    Memory,
}

impl From<AllocError> for ReachFault {
    ghost use Rattle.std.specs.Prelude.{◌≡◌};
    ghost use Rattle.nd_reach.specs.declared.fault.ReachFault.TheVariants.{Memory};

    ghost from_gives = { λ _ r. r ≡ Memory };

    fn from(_: AllocError) -> ReachFault {
        ReachFault::Memory
    }
}

impl From<NoMemory> for ReachFault {
    ghost use Rattle.std.specs.Prelude.{◌≡◌};
    ghost use Rattle.nd_reach.specs.declared.fault.ReachFault.TheVariants.{Memory};

    ghost from_gives = { λ _ r. r ≡ Memory };

    fn from(_: NoMemory) -> ReachFault {
        ReachFault::Memory
    }
}

impl ReachFault {
    /// Returns the number and the name with which a reply reports the error.
    pub fn code(&self) -> Code
        ensures { result ≡ code_of_reach self.now }
    {
        match self {
            ReachFault::BadRange => Code::new(50, "BadRange"),
            ReachFault::Memory => Refusal::Memory.code(),
        }
    }
}

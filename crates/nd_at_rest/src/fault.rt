//! Why a question for what is left at rest is not answered.
ghost use Rattle.std.specs.Prelude.{◌≡◌};
ghost use Rattle.nd_at_rest.specs.Faults.{code_of_rest};

use nd_protocol::{NoMemory, Refusal};
use nd_time::Code;

/// Why `why_at_rest` returns nothing.
#[derive(Clone, Copy, Debug, Drop, PartialEq, Eq)]
pub enum RestFault {
    /// The limit is 0 or above 1,000,000.
    BadRange,
    /// An allocation failed.
    Memory,
}

impl From<NoMemory> for RestFault {
    ghost use Rattle.std.specs.Prelude.{◌≡◌};
    ghost use Rattle.nd_at_rest.specs.declared.fault.RestFault.TheVariants.{Memory};

    ghost from_gives = { λ _ r. r ≡ Memory };

    fn from(_: NoMemory) -> RestFault {
        RestFault::Memory
    }
}

impl RestFault {
    /// Returns the number and the name with which a reply reports the error.
    pub fn code(&self) -> Code
        ensures { result ≡ code_of_rest self.now }
    {
        match self {
            RestFault::BadRange => Code::new(50, "BadRange"),
            RestFault::Memory => Refusal::Memory.code(),
        }
    }
}

//! Why a line is neither a command nor a query.
ghost use Rattle.std.specs.Prelude.{◌≡◌};
ghost use Rattle.rewind_forms.specs.LineFaults.{code_of};

use nd_time::Code;
use std::alloc::AllocError;
use thiserror::Error;

/// Why a line is neither a command nor a query.
#[derive(Clone, Copy, Debug, PartialEq, Eq, Drop, Error)]
pub enum LineFault {
    #[error("the line has more bytes than a line may have")]
    LineTooLong,
    #[error("the line is no JSON value")]
    BadLine,
    #[error("the line has not the form of a command")]
    BadShape,
    #[error("the line names what the graph does not have")]
    UnknownName,
    #[error("a time has not the depth of its place")]
    BadTime,
    #[error("out of memory")]
    Memory,
}

impl From<AllocError> for LineFault {
    ghost use Rattle.std.specs.Prelude.{◌≡◌};
    ghost use Rattle.rewind_forms.specs.declared.fault.LineFault.TheVariants.{Memory};

    ghost from_gives = { λ _ e. e ≡ Memory };

    fn from(_error: AllocError) -> LineFault {
        LineFault::Memory
    }
}

impl LineFault {
    /// Returns the number and the name of the error.
    pub fn code(self) -> Code
        ensures { result ≡ code_of self }
    {
        match self {
            LineFault::BadLine => Code::new(30, "BadLine"),
            LineFault::BadShape => Code::new(31, "BadShape"),
            LineFault::UnknownName => Code::new(32, "UnknownName"),
            LineFault::LineTooLong => Code::new(33, "LineTooLong"),
            LineFault::BadTime => Code::new(34, "BadTime"),
            LineFault::Memory => Code::new(29, "Memory"),
        }
    }
}

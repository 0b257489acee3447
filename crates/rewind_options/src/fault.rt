//! Why a run of a script ended before its input ended.

ghost use Rattle.std.specs.Prelude.{◌≡◌};
ghost use Rattle.rewind_options.specs.Faults.{status_of};

use rewind_lines::{Unread, Unwritten};
use std::alloc::{AllocError, AllocFailed};
use thiserror::Error;

/// Why a run of a script ended before its input ended.
#[derive(Clone, Copy, Debug, Drop, PartialEq, Eq, Error)]
pub enum DebugFault {
    /// The graph was rejected.
    #[error("graph refused")]
    Graph,
    /// A line of a script of several clients was rejected. A run of one client never returns this error.
    #[error("script refused")]
    Script,
    /// A read failed.
    #[error("read failed")]
    Read,
    /// A write failed, or wrote nothing.
    #[error("write failed")]
    Write,
    /// The input is longer than a script may be.
    #[error("input too long")]
    TooLong,
    /// Memory ran out outside of a command.
    #[error("out of memory")]
    Memory,
    /// A session of several clients did not close cleanly. A run of one client never returns this error.
    #[error("log mismatch")]
    Close,
}

impl DebugFault {
    /// Returns the exit status of a program whose run ended with this error.
    pub fn status(self) -> u8
        ensures { result ≡ status_of self }
    {
        match self {
            DebugFault::Graph | DebugFault::Script => 2,
            DebugFault::Read | DebugFault::Write | DebugFault::TooLong => 3,
            DebugFault::Memory => 4,
            DebugFault::Close => 5,
        }
    }
}

impl From<AllocError> for DebugFault {
    ghost use Rattle.rewind_options.specs.declared.fault.DebugFault.TheVariants.{Memory};

    ghost from_gives = { λ _ e. e ≡ Memory };

    fn from(_error: AllocError) -> DebugFault {
        DebugFault::Memory
    }
}

impl<T: Drop> From<AllocFailed<T>> for DebugFault {
    ghost use Rattle.rewind_options.specs.declared.fault.DebugFault.TheVariants.{Memory};

    ghost from_gives = { λ _ e. e ≡ Memory };

    fn from(_error: AllocFailed<T>) -> DebugFault {
        DebugFault::Memory
    }
}

impl From<Unread> for DebugFault {
    ghost use Rattle.rewind_options.specs.declared.fault.DebugFault.TheVariants.{Read};

    ghost from_gives = { λ _ e. e ≡ Read };

    fn from(_error: Unread) -> DebugFault {
        DebugFault::Read
    }
}

impl From<Unwritten> for DebugFault {
    ghost use Rattle.rewind_options.specs.declared.fault.DebugFault.TheVariants.{Write};

    ghost from_gives = { λ _ e. e ≡ Write };

    fn from(_error: Unwritten) -> DebugFault {
        DebugFault::Write
    }
}

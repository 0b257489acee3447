//! Why a session refuses a call.
ghost use Rattle.std.specs.Prelude.{◌≡◌};
ghost use Rattle.nd_session.specs.Faults.{code_of};

use crate::Receipt;
use nd_time::Code;
use std::alloc::{AllocError, Allocator, Global};

/// Why a session refuses a call.
#[derive(Drop)]
pub enum SessionFault<A: Allocator = Global> {
    /// The client's number was not given out here, or the log does not have its last receipt.
    NotThisSession {
        /// The index of the client's last receipt, or 0 if it has none.
        index: u64,
        /// The log's entry there.
        found: Option<Receipt<A>>,
    },
    /// The log has the maximum number of entries.
    LogFull,
    /// All clients' numbers are given out.
    TooManyClients,
    /// An allocation failed.
    Memory,
}

impl<A: Allocator> SessionFault<A> {
    /// Returns the number and the name of the fault.
    pub fn code(&self) -> Code
        ensures { result ≡ code_of self.now }
    {
        match self {
            SessionFault::NotThisSession { index: _, found: _ } => Code::new(26, "NotThisSession"),
            SessionFault::LogFull => Code::new(27, "LogFull"),
            SessionFault::TooManyClients => Code::new(28, "TooManyClients"),
            SessionFault::Memory => Code::new(29, "Memory"),
        }
    }
}

impl<A: Allocator> From<AllocError> for SessionFault<A> {
    ghost use Rattle.std.specs.Prelude.{◌≡◌};
    ghost use Rattle.nd_session.specs.declared.fault.SessionFault.TheVariants.{Memory};

    ghost from_gives = { λ _ r. r ≡ Memory };

    fn from(_: AllocError) -> SessionFault<A> {
        SessionFault::Memory
    }
}

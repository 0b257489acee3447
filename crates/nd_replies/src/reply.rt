//! Replies to commands.
ghost use Rattle.std.specs.Prelude.{◌≡◌, ◌≢◌, MatchBool};

use crate::Fault;

/// Why a run stopped.
#[derive(Clone, Copy, Debug, Drop, PartialEq, Eq)]
pub enum Stop {
    /// The run has executed as many steps as it may.
    Limit,
    /// No step that a run may choose is enabled.
    Idle,
    /// The breakpoint with this id holds.
    Break(u8),
}

/// How many steps a run has executed, and why it stopped.
#[derive(Clone, Copy, Debug, Drop, PartialEq, Eq)]
pub struct Ran {
    pub ran: u64,
    pub stop: Stop,
}

/// A reply to a command.
#[derive(Debug, Drop, PartialEq, Eq)]
pub enum Reply {
    /// The cursor has moved to position `at`, and `kept` steps are kept.
    Moved {
        at: u64,
        kept: u64,
    },
    /// A run has executed `ran` steps and stopped.
    Ran {
        at: u64,
        kept: u64,
        ran: u64,
        stop: Stop,
    },
    /// The breakpoint is set under this id.
    Set {
        id: u8,
    },
    /// The breakpoint is cleared.
    Cleared,
    /// The command is refused.
    Refused(Fault),
}

impl Reply {
    /// Returns an equal reply. The call allocates no memory.
    pub fn copy(&self) -> Reply
        ensures { result ≡ self.now }
    {
        match self {
            Reply::Moved { at, kept } => Reply::Moved {
                at: *at,
                kept: *kept,
            },
            Reply::Ran {
                at,
                kept,
                ran,
                stop,
            } => Reply::Ran {
                at: *at,
                kept: *kept,
                ran: *ran,
                stop: *stop,
            },
            Reply::Set { id } => Reply::Set { id: *id },
            Reply::Cleared => Reply::Cleared,
            Reply::Refused(fault) => Reply::Refused(fault.copy()),
        }
    }

    /// Returns whether the two replies are equal.
    pub fn same(&self, other: &Reply) -> bool
        ensures { MatchBool result (self.now ≡ other.now) (self.now ≢ other.now) }
    {
        *self == *other
    }
}

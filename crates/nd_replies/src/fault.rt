//! Why a command is refused.
ghost use Rattle.std.specs.Prelude.{◌≡◌, ◌≢◌, MatchBool};
ghost use Rattle.nd_replies.specs.Faults.{code_of};

use nd_protocol::Refusal;
use nd_time::Code;

/// Why a command is refused.
#[derive(Debug, Drop, PartialEq, Eq)]
pub enum Fault {
    /// The cluster refuses the step.
    Step(Refusal),
    /// An allocation failed. The cursor is at position `at`.
    Memory { at: u64 },
    /// There is no kept step before the cursor.
    AtStart,
    /// There is no kept step after the cursor.
    AtEnd,
    /// The position is greater than the number of kept steps.
    NoSuchPoint,
    /// The timeline would keep more steps than its limit.
    TimelineFull,
    /// All ids of breakpoints are in use.
    TooManyBreaks,
    /// No breakpoint with this id is set.
    NoBreak,
}

impl Fault {
    /// Returns an equal fault. The call allocates no memory.
    pub fn copy(&self) -> Fault
        ensures { result ≡ self.now }
    {
        match self {
            Fault::Step(refusal) => Fault::Step(refusal.copy()),
            Fault::Memory { at } => Fault::Memory { at: *at },
            Fault::AtStart => Fault::AtStart,
            Fault::AtEnd => Fault::AtEnd,
            Fault::NoSuchPoint => Fault::NoSuchPoint,
            Fault::TimelineFull => Fault::TimelineFull,
            Fault::TooManyBreaks => Fault::TooManyBreaks,
            Fault::NoBreak => Fault::NoBreak,
        }
    }

    /// Returns whether the two faults are equal.
    pub fn same(&self, other: &Fault) -> bool
        ensures { MatchBool result (self.now ≡ other.now) (self.now ≢ other.now) }
    {
        *self == *other
    }

    /// Returns the number and the name with which a reply reports the error.
    pub fn code(&self) -> Code
        ensures { result ≡ code_of self.now }
    {
        match self {
            Fault::Step(refusal) => refusal.code(),
            Fault::Memory { at: _ } => Refusal::Memory.code(),
            Fault::AtStart => Code::new(20, "AtStart"),
            Fault::AtEnd => Code::new(21, "AtEnd"),
            Fault::NoSuchPoint => Code::new(22, "NoSuchPoint"),
            Fault::TimelineFull => Code::new(23, "TimelineFull"),
            Fault::TooManyBreaks => Code::new(24, "TooManyBreaks"),
            Fault::NoBreak => Code::new(25, "NoBreak"),
        }
    }
}

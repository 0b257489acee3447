//! Why a step is refused.
ghost use Rattle.std.specs.Prelude.{◌≡◌};
ghost use Rattle.nd_protocol.specs.Refusals.{code_of};

use nd_paths::Pointstamp;
use nd_time::Code;
use thiserror::Error;

/// Why a step is refused. Refusals are tested in the order of their numbers, except that `Memory` comes last. `NotLater`
/// and `TooEarly` compare times by the timestamp order of the graph.
#[derive(Debug, PartialEq, Eq, Drop, Error)]
pub enum Refusal {
    #[error("there is no such processor")]
    NoProcessor,
    #[error("there is no such vertex")]
    NoVertex,
    #[error("there is no such edge")]
    NoEdge,
    #[error("the vertex is no input")]
    NotInput,
    #[error("the input is closed")]
    InputClosed,
    #[error("a feed has at most 1024 values")]
    TooManyValues,
    #[error("the epoch is at its limit")]
    EpochFull,
    #[error("there is no such record")]
    NoRecord,
    #[error("there is no such request")]
    NoRequest,
    #[error("something outstanding may be strictly before")]
    NotYet { blocker: Pointstamp },
    #[error("a loop counter is at its limit")]
    CounterFull,
    #[error("a value would leave the range of 64 bits")]
    ValueRange,
    #[error("a count would pass its limit")]
    CountFull,
    #[error("an entry of a change would pass its limit")]
    DeltaFull,
    #[error("there is nothing to send")]
    NothingToSend,
    #[error("an entry that stays would have nothing strictly before it")]
    NotAdmissible { point: Pointstamp },
    #[error("the queue is empty")]
    QueueEmpty,
    #[error("a queue is full")]
    QueueFull,
    #[error("the vertex is never notified")]
    NotNotified,
    #[error("the time is not strictly later")]
    NotLater,
    #[error("the vertex has no such port")]
    NoPort,
    #[error("the time is before that of the capability")]
    TooEarly,
    #[error("out of memory")]
    Memory,
}

impl Refusal {
    /// Returns an equal refusal.
    pub fn copy(&self) -> Refusal
        ensures { result ≡ self.now }
    {
        match self {
            Refusal::NoProcessor => Refusal::NoProcessor,
            Refusal::NoVertex => Refusal::NoVertex,
            Refusal::NoEdge => Refusal::NoEdge,
            Refusal::NotInput => Refusal::NotInput,
            Refusal::InputClosed => Refusal::InputClosed,
            Refusal::TooManyValues => Refusal::TooManyValues,
            Refusal::EpochFull => Refusal::EpochFull,
            Refusal::NoRecord => Refusal::NoRecord,
            Refusal::NoRequest => Refusal::NoRequest,
            Refusal::NotYet { blocker } => Refusal::NotYet {
                blocker: blocker.copy(),
            },
            Refusal::CounterFull => Refusal::CounterFull,
            Refusal::ValueRange => Refusal::ValueRange,
            Refusal::CountFull => Refusal::CountFull,
            Refusal::DeltaFull => Refusal::DeltaFull,
            Refusal::NothingToSend => Refusal::NothingToSend,
            Refusal::NotAdmissible { point } => Refusal::NotAdmissible {
                point: point.copy(),
            },
            Refusal::QueueEmpty => Refusal::QueueEmpty,
            Refusal::QueueFull => Refusal::QueueFull,
            Refusal::NotNotified => Refusal::NotNotified,
            Refusal::NotLater => Refusal::NotLater,
            Refusal::NoPort => Refusal::NoPort,
            Refusal::TooEarly => Refusal::TooEarly,
            Refusal::Memory => Refusal::Memory,
        }
    }

    /// Returns the number and the name of the refusal.
    pub fn code(&self) -> Code
        ensures { result ≡ code_of self.now }
    {
        match self {
            Refusal::NoProcessor => Code::new(1, "NoProcessor"),
            Refusal::NoVertex => Code::new(2, "NoVertex"),
            Refusal::NoEdge => Code::new(3, "NoEdge"),
            Refusal::NotInput => Code::new(4, "NotInput"),
            Refusal::InputClosed => Code::new(5, "InputClosed"),
            Refusal::TooManyValues => Code::new(6, "TooManyValues"),
            Refusal::EpochFull => Code::new(7, "EpochFull"),
            Refusal::NoRecord => Code::new(8, "NoRecord"),
            Refusal::NoRequest => Code::new(9, "NoRequest"),
            Refusal::NotYet { blocker: _ } => Code::new(10, "NotYet"),
            Refusal::CounterFull => Code::new(11, "CounterFull"),
            Refusal::ValueRange => Code::new(12, "ValueRange"),
            Refusal::CountFull => Code::new(13, "CountFull"),
            Refusal::DeltaFull => Code::new(14, "DeltaFull"),
            Refusal::NothingToSend => Code::new(15, "NothingToSend"),
            Refusal::NotAdmissible { point: _ } => Code::new(16, "NotAdmissible"),
            Refusal::QueueEmpty => Code::new(17, "QueueEmpty"),
            Refusal::QueueFull => Code::new(18, "QueueFull"),
            Refusal::NotNotified => Code::new(53, "NotNotified"),
            Refusal::NotLater => Code::new(54, "NotLater"),
            Refusal::NoPort => Code::new(55, "NoPort"),
            Refusal::TooEarly => Code::new(56, "TooEarly"),
            Refusal::Memory => Code::new(19, "Memory"),
        }
    }
}

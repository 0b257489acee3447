//! Why a graph is rejected.
ghost use Rattle.std.specs.Prelude.{◌≡◌};
ghost use Rattle.nd_graph.specs.Fault.{code_of};

use nd_time::Code;
use std::alloc::{AllocError, AllocFailed};
use thiserror::Error;

/// An error of a graph. Of several errors the one with the least number is returned.
#[derive(Clone, Copy, Debug, Drop, PartialEq, Eq, Error)]
pub enum GraphFault {
    #[error("the value does not have a graph's form")]
    Shape,
    #[error("two vertices or edges have the same name")]
    DoubleName,
    #[error("an edge's end is no vertex")]
    UnknownName,
    #[error("an edge leaves a port that is not there, or enters an input")]
    BadPort,
    #[error("the depths do not agree")]
    DepthMismatch,
    #[error("the graph has too many locations or too many loops within one another")]
    TooLarge,
    #[error("out of memory")]
    Memory,
}

impl GraphFault {
    /// Returns the number and the name of the error.
    pub fn code(self) -> Code
        ensures { result ≡ code_of self }
    {
        match self {
            GraphFault::Shape => Code::new(40, "Shape"),
            GraphFault::DoubleName => Code::new(41, "DoubleName"),
            GraphFault::UnknownName => Code::new(42, "UnknownName"),
            GraphFault::BadPort => Code::new(43, "BadPort"),
            GraphFault::DepthMismatch => Code::new(44, "DepthMismatch"),
            GraphFault::TooLarge => Code::new(45, "TooLarge"),
            GraphFault::Memory => Code::new(47, "Memory"),
        }
    }
}

impl From<AllocError> for GraphFault {
    ghost use Rattle.std.specs.Prelude.{◌≡◌};
    ghost use Rattle.nd_graph.specs.declared.fault.GraphFault.TheVariants.{Memory};

    ghost from_gives = { λ _ e. e ≡ Memory };

    fn from(_error: AllocError) -> GraphFault {
        GraphFault::Memory
    }
}

impl<T: Drop> From<AllocFailed<T>> for GraphFault {
    ghost use Rattle.std.specs.Prelude.{◌≡◌};
    ghost use Rattle.nd_graph.specs.declared.fault.GraphFault.TheVariants.{Memory};

    ghost from_gives = { λ _ e. e ≡ Memory };

    fn from(_error: AllocFailed<T>) -> GraphFault {
        GraphFault::Memory
    }
}

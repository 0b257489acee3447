//! Why a vertex cannot react.
use nd_time::CounterFull;
use std::alloc::AllocError;
use thiserror::Error;

/// Why a vertex cannot react to a record or a notification.
#[derive(Clone, Copy, Debug, PartialEq, Eq, Drop, Error)]
pub enum VertexFault {
    #[error("the loop counter is at its limit")]
    CounterFull,
    #[error("the result does not fit in 64 bits")]
    ValueRange,
    #[error("out of memory")]
    Memory,
}

impl From<CounterFull> for VertexFault {
    ghost use Rattle.std.specs.Prelude.{◌≡◌};
    ghost use Rattle.nd_vertex.specs.declared.fault.VertexFault.TheVariants.{CounterFull};

    ghost from_gives = { λ _ e. e ≡ CounterFull };

    fn from(_e: CounterFull) -> VertexFault {
        VertexFault::CounterFull
    }
}

impl From<AllocError> for VertexFault {
    ghost use Rattle.std.specs.Prelude.{◌≡◌};
    ghost use Rattle.nd_vertex.specs.declared.fault.VertexFault.TheVariants.{Memory};

    ghost from_gives = { λ _ e. e ≡ Memory };

    fn from(_e: AllocError) -> VertexFault {
        VertexFault::Memory
    }
}

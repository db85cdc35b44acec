//! Why a reader stopped.
ghost use Rattle.std.specs.Prelude.{◌≡◌};
ghost use Rattle.resp_requests.specs.declared.stop.Stop.TheVariants.{Memory};

use crate::fault::Fault;
use std::alloc::{AllocError, AllocFailed};

/// Why a reader stopped.
#[derive(Clone, Copy, Debug)]
pub(crate) enum Stop {
    /// More bytes are needed.
    Short,
    Fault(Fault),
    Memory,
}

impl From<AllocError> for Stop {
    ghost from_gives = { λ _ e. e ≡ Memory };

    fn from(_e: AllocError) -> Stop {
        Stop::Memory
    }
}

impl<T: Drop> From<AllocFailed<T>> for Stop {
    ghost from_gives = { λ _ e. e ≡ Memory };

    fn from(_e: AllocFailed<T>) -> Stop {
        Stop::Memory
    }
}

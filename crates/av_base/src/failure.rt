//! The error of calls that find a fault, or run out of memory.
use crate::NoMemory;
use std::alloc::{AllocError, AllocFailed};

/// Why a call gives no value.
#[derive(Clone, Copy, Debug, PartialEq, Eq)]
pub enum Failure<F> {
    /// What it was given has a fault.
    Fault(F),
    /// Out of memory.
    NoMemory,
}

impl<F> From<AllocError> for Failure<F> {
    ghost use Rattle.std.specs.Prelude.{◌≡◌};
    ghost use Rattle.av_base.specs.declared.failure.Failure.{Failure};

    ghost from_gives = { λ _ e. e ≡ Failure.NoMemory };

    fn from(_refused: AllocError) -> Failure<F> {
        Failure::NoMemory
    }
}

impl<T: Drop, F> From<AllocFailed<T>> for Failure<F> {
    ghost use Rattle.std.specs.Prelude.{◌≡◌};
    ghost use Rattle.av_base.specs.declared.failure.Failure.{Failure};

    ghost from_gives = { λ _ e. e ≡ Failure.NoMemory };

    fn from(_refused: AllocFailed<T>) -> Failure<F> {
        Failure::NoMemory
    }
}

impl<F> From<NoMemory> for Failure<F> {
    ghost use Rattle.std.specs.Prelude.{◌≡◌};
    ghost use Rattle.av_base.specs.declared.failure.Failure.{Failure};

    ghost from_gives = { λ _ e. e ≡ Failure.NoMemory };

    fn from(_refused: NoMemory) -> Failure<F> {
        Failure::NoMemory
    }
}

//! Why no phase was read.
ghost use Rattle.std.specs.Prelude.{◌≡◌};
ghost use Rattle.xf_batch.specs.declared.fault.PhaseFault.TheVariants.{NoMemory as PhaseMemory, ReadFault as PhaseRead};

use std::alloc::{AllocError, AllocFailed};
use thiserror::Error;
use xf_io::Failed;
use xf_types::Reason;

/// Why no phase was read.
#[derive(Debug, Drop, Error)]
pub enum PhaseFault {
    /// The phase's first bad line, by the number of its first physical line.
    #[error("bad line {line}: {reason:?}")]
    Bad { line: u64, reason: Reason },
    /// The source failed.
    #[error("reading failed")]
    ReadFault,
    #[error("out of memory")]
    NoMemory,
}

impl From<AllocError> for PhaseFault {
    ghost from_gives = { λ _ e. e ≡ PhaseMemory };

    fn from(_e: AllocError) -> PhaseFault {
        PhaseFault::NoMemory
    }
}

impl<T: Drop> From<AllocFailed<T>> for PhaseFault {
    ghost from_gives = { λ _ e. e ≡ PhaseMemory };

    fn from(_e: AllocFailed<T>) -> PhaseFault {
        PhaseFault::NoMemory
    }
}

impl From<Failed> for PhaseFault {
    ghost from_gives = { λ _ e. e ≡ PhaseRead };

    fn from(_e: Failed) -> PhaseFault {
        PhaseFault::ReadFault
    }
}

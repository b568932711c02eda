//! Why a log couldn't be read.

use std::alloc::{AllocError, AllocFailed};
use thiserror::Error;
use xk_types::Failed;

/// Why a log couldn't be read.
#[derive(Clone, Copy, Debug, PartialEq, Eq, Error)]
pub enum LogFault {
    /// L1: the line with this number, from 1 on, is the first that doesn't fit its place.
    #[error("line {0} doesn't fit its place")]
    Grammar(u64),
    /// L2: the text ends before its last line does, and no line is wrong.
    #[error("the text ends before its last line does")]
    Truncated,
    /// L3: a read failed.
    #[error("a device failed")]
    Device,
    /// Memory was refused.
    #[error("out of memory")]
    OutOfMemory,
}

impl From<Failed> for LogFault {
    ghost use Rattle.std.specs.Prelude.{◌≡◌};
    ghost use Rattle.xk_log.specs.declared.fault.LogFault.TheVariants as fault;

    ghost from_gives = { λ _ e. e ≡ fault.Device };

    /// A read failed.
    fn from(_e: Failed) -> LogFault {
        LogFault::Device
    }
}

impl From<AllocError> for LogFault {
    ghost use Rattle.std.specs.Prelude.{◌≡◌};
    ghost use Rattle.xk_log.specs.declared.fault.LogFault.TheVariants as fault;

    ghost from_gives = { λ _ e. e ≡ fault.OutOfMemory };

    /// Want of memory says nothing of the text.
    fn from(_e: AllocError) -> LogFault {
        LogFault::OutOfMemory
    }
}

impl<T: Drop> From<AllocFailed<T>> for LogFault {
    ghost use Rattle.std.specs.Prelude.{◌≡◌};
    ghost use Rattle.xk_log.specs.declared.fault.LogFault.TheVariants as fault;

    ghost from_gives = { λ _ e. e ≡ fault.OutOfMemory };

    /// The same; what couldn't be put in is let go.
    fn from(_e: AllocFailed<T>) -> LogFault {
        LogFault::OutOfMemory
    }
}

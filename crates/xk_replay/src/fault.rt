//! Why a log isn't that of a whole run.

use std::alloc::AllocError;
use thiserror::Error;

/// Why a log isn't that of a whole run of a module, or that it isn't known.
#[derive(Clone, Copy, Debug, PartialEq, Eq, Error)]
pub enum ReplayFault {
    /// L4: this entry, counted from 0, is the first that holds a step which isn't enabled.
    #[error("entry {0} has a step that isn't enabled")]
    NotEnabled(u64),
    /// L5: each step is enabled, but behind the last one somebody hasn't ended.
    #[error("the log stops before the run does")]
    NotEnded,
    /// Memory was refused.
    #[error("out of memory")]
    OutOfMemory,
}

impl From<AllocError> for ReplayFault {
    ghost use Rattle.std.specs.Prelude.{◌≡◌};
    ghost use Rattle.xk_replay.specs.declared.fault.ReplayFault.TheVariants as fault;

    ghost from_gives = { λ _ e. e ≡ fault.OutOfMemory };

    /// Want of memory says nothing of the log.
    fn from(_e: AllocError) -> ReplayFault {
        ReplayFault::OutOfMemory
    }
}

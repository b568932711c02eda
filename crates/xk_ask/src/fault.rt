//! Why a run couldn't be asked for.

use std::alloc::AllocError;
use thiserror::Error;
use xk_io::Device;
use xk_types::Failed;

/// Why a run couldn't be asked for.
#[derive(Clone, Copy, Debug, PartialEq, Eq, Error)]
pub enum AskFault {
    /// A read or a write failed.
    #[error("a device failed")]
    Device,
    /// Memory was refused.
    #[error("out of memory")]
    OutOfMemory,
}

impl From<Failed> for AskFault {
    ghost use Rattle.std.specs.Prelude.{◌≡◌};
    ghost use Rattle.xk_ask.specs.declared.fault.AskFault.TheVariants as fault;

    ghost from_gives = { λ _ e. e ≡ fault.Device };

    /// A device that failed.
    fn from(_e: Failed) -> AskFault {
        AskFault::Device
    }
}

impl From<Device> for AskFault {
    ghost use Rattle.std.specs.Prelude.{◌≡◌};
    ghost use Rattle.xk_ask.specs.declared.fault.AskFault.TheVariants as fault;

    ghost from_gives = { λ _ e. e ≡ fault.Device };

    /// A device that failed to write.
    fn from(_e: Device) -> AskFault {
        AskFault::Device
    }
}

impl From<AllocError> for AskFault {
    ghost use Rattle.std.specs.Prelude.{◌≡◌};
    ghost use Rattle.xk_ask.specs.declared.fault.AskFault.TheVariants as fault;

    ghost from_gives = { λ _ e. e ≡ fault.OutOfMemory };

    /// Memory that was refused.
    fn from(_e: AllocError) -> AskFault {
        AskFault::OutOfMemory
    }
}

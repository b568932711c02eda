//! Why bytes are no module.

ghost use Rattle.std.specs.Prelude.{◌≡◌, option_map};
ghost use Rattle.xk_module.specs.Faults.{fault_label};
ghost use Rattle.xk_module.specs.declared.fault.Refusal.TheVariants as refusal;

use std::alloc::{AllocError, AllocFailed};
use thiserror::Error;

/// Why bytes are no module.
#[derive(Clone, Copy, Debug, PartialEq, Eq, Error)]
pub enum ModuleFault {
    /// M1: the bytes are no JSON text in UTF-8 that is read: nested at most 127 deep, numbers within a float's range.
    #[error("the bytes are no JSON text")]
    NotJson,
    /// M2: they are, and the value names no module.
    #[error("the JSON value names no module")]
    NotAModule,
    /// M3: it names one that goes beyond a limit.
    #[error("the module goes beyond a limit")]
    Limit,
    /// Memory was refused.
    #[error("out of memory")]
    OutOfMemory,
}

impl ModuleFault {
    /// The number and the name that a refusal prints, as `M2 NotAModule`. None where memory was refused, since that
    /// says nothing about the bytes.
    pub fn label(self) -> Option<&'static str>
        ensures { option_map (λ text. text.now) result ≡ fault_label self }
    {
        match self {
            ModuleFault::NotJson => Some("M1 NotJson"),
            ModuleFault::NotAModule => Some("M2 NotAModule"),
            ModuleFault::Limit => Some("M3 Limit"),
            ModuleFault::OutOfMemory => None,
        }
    }
}

/// Why a JSON value could not be read as a part of a module.
#[derive(Clone, Copy, Debug, PartialEq, Eq)]
pub(crate) enum Refusal {
    /// It names no such part.
    Unfit,
    /// Memory was refused.
    Memory,
}

impl From<AllocError> for Refusal {
    ghost from_gives = { λ _ e. e ≡ refusal.Memory };

    /// Want of memory says nothing of the value.
    fn from(_e: AllocError) -> Refusal {
        Refusal::Memory
    }
}

impl<T: Drop> From<AllocFailed<T>> for Refusal {
    ghost from_gives = { λ _ e. e ≡ refusal.Memory };

    /// The same; what couldn't be put in is let go.
    fn from(_e: AllocFailed<T>) -> Refusal {
        Refusal::Memory
    }
}

impl From<Refusal> for ModuleFault {
    ghost from_gives = { λ r e. e ≡ fault_of r };

    ghost use Rattle.xk_module.specs.Faults.{fault_of};

    /// A text with an unfit part is no module.
    fn from(r: Refusal) -> ModuleFault {
        match r {
            Refusal::Unfit => ModuleFault::NotAModule,
            Refusal::Memory => ModuleFault::OutOfMemory,
        }
    }
}

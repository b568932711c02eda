//! Why the kinds of a module aren't in order.

ghost use Rattle.std.specs.Prelude.{◌≡◌};
ghost use Rattle.xk_typestate.specs.declared.fault.KindError.TheVariants.{OutOfMemory};

use std::alloc::AllocError;
use thiserror::Error;
use xk_types::{Kind, Rule, Visit};

/// A slot that may be used as what it isn't: the least by unit, instruction, slot and kind.
#[derive(Debug, Drop, Error)]
#[error("slot {slot} breaks rule V{number} {name} in unit {unit} at {at}, where it is {kind}", number = .rule.number(), name = .rule.name(), kind = .kind.name())]
pub struct KindFault {
    /// One of V11 to V13.
    pub rule: Rule,
    /// The unit, by its number.
    pub unit: u16,
    /// The place of the instruction in the unit's code.
    pub at: u16,
    /// The slot, by its number.
    pub slot: u16,
    /// What the slot may hold before the instruction.
    pub kind: Kind,
    /// A walk through the unit from its first instruction to this one, with the slot's kind at each stop. None that
    /// comes here with that kind has fewer stops.
    pub walk: Vec<Visit>,
}

/// Why the kinds of a module aren't in order, or aren't known.
#[derive(Debug, Drop, Error)]
pub enum KindError {
    #[error(transparent)]
    Fault(KindFault),
    /// What the kinds are kept in couldn't be grown.
    #[error("out of memory")]
    OutOfMemory,
}

impl From<AllocError> for KindError {
    ghost from_gives = { λ _ e. e ≡ OutOfMemory };

    /// Want of memory says nothing of the module.
    fn from(_e: AllocError) -> KindError {
        KindError::OutOfMemory
    }
}

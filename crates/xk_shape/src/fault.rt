//! Why code hasn't the shape.

use std::alloc::AllocError;
use thiserror::Error;
use xk_types::Rule;

/// A place that breaks a rule on the shape of code: the first rule that any place breaks, at its least place by unit
/// and instruction.
#[derive(Clone, Copy, Debug, Error, PartialEq, Eq)]
#[error("the code breaks rule V{number} {name} in unit {unit} at {at}", number = .rule.number(), name = .rule.name())]
pub struct ShapeFault {
    /// One of V1 to V10.
    pub rule: Rule,
    /// The unit, by its number.
    pub unit: u16,
    /// The place of the instruction in the unit's code, or 0 where the fault is one of the whole unit.
    pub at: u16,
}

/// Why the shape of a module isn't known to be right.
#[derive(Clone, Copy, Debug, Error, PartialEq, Eq)]
pub enum ShapeError {
    #[error(transparent)]
    Fault(ShapeFault),
    /// Room for the loops, finishes or homes of a unit was refused.
    #[error("out of memory")]
    OutOfMemory,
}

impl From<AllocError> for ShapeError {
    ghost use Rattle.std.specs.Prelude.{◌≡◌};
    ghost use Rattle.xk_shape.specs.declared.fault.ShapeError.TheVariants as error;

    ghost from_gives = { λ _ e. e ≡ error.OutOfMemory };

    /// Want of memory says nothing of the module.
    fn from(_e: AllocError) -> ShapeError {
        ShapeError::OutOfMemory
    }
}

//! Why the verifier refuses a module.

ghost use Rattle.std.specs.Prelude.{◌≡◌};
ghost use Rattle.xk_bounds.specs.Refusals.{of_shape, of_kinds};
ghost use Rattle.xk_bounds.specs.declared.refusal.Refusal.TheVariants.{OutOfMemory};

use std::alloc::AllocError;
use thiserror::Error;
use xk_shape::{ShapeError, ShapeFault};
use xk_types::Rule;
use xk_typestate::{KindError, KindFault};

/// A bound that is over its limit: the first of V14 to V17 that is.
#[derive(Clone, Copy, Debug, Error, PartialEq, Eq)]
#[error("a run may go over {limit}, by rule V{number} {name}", number = .rule.number(), name = .rule.name())]
pub struct BoundFault {
    /// One of V14 to V17.
    pub rule: Rule,
    /// The most that the rule allows.
    pub limit: u64,
}

/// Why a module isn't accepted.
#[derive(Debug, Drop, Error)]
pub enum Refusal {
    #[error(transparent)]
    Shape(ShapeFault),
    #[error(transparent)]
    Kind(KindFault),
    #[error(transparent)]
    Bound(BoundFault),
    /// The verifier couldn't grow what it works on.
    #[error("out of memory")]
    OutOfMemory,
}

impl From<ShapeError> for Refusal {
    ghost from_gives = { λ e r. r ≡ of_shape e };

    /// A fault of the shape stays what it is, and want of memory is want of memory.
    fn from(e: ShapeError) -> Refusal {
        match e {
            ShapeError::Fault(fault) => Refusal::Shape(fault),
            ShapeError::OutOfMemory => Refusal::OutOfMemory,
        }
    }
}

impl From<KindError> for Refusal {
    ghost from_gives = { λ e r. r ≡ of_kinds e };

    /// A fault of the kinds stays what it is, and want of memory is want of memory.
    fn from(e: KindError) -> Refusal {
        match e {
            KindError::Fault(fault) => Refusal::Kind(fault),
            KindError::OutOfMemory => Refusal::OutOfMemory,
        }
    }
}

impl From<AllocError> for Refusal {
    ghost from_gives = { λ _ r. r ≡ OutOfMemory };

    /// Want of memory says nothing of the module.
    fn from(_e: AllocError) -> Refusal {
        Refusal::OutOfMemory
    }
}

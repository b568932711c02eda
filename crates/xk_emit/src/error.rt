//! Why a statement has no code.

ghost use Rattle.std.specs.Prelude.{◌≡◌};
ghost use Rattle.xk_emit.specs.declared.error.CodeError.TheVariants as error;

use std::alloc::{AllocError, AllocFailed};
use thiserror::Error;

/// Why a statement has no code.
#[derive(Clone, Copy, Debug, PartialEq, Eq, Error)]
pub enum CodeError {
    /// A name isn't visible where it is used, or is visible already where it is declared; or a method or a body has no unit.
    #[error("a name is unknown, or is known already")]
    Name,
    /// The unit has more than 64 slots or 4,096 instructions, or an instruction more than 64 arguments.
    #[error("the unit goes beyond a limit")]
    Table,
    /// Memory was refused.
    #[error("out of memory")]
    OutOfMemory,
}

impl From<AllocError> for CodeError {
    ghost from_gives = { λ _ e. e ≡ error.OutOfMemory };

    /// Want of memory says nothing of the program.
    fn from(_e: AllocError) -> CodeError {
        CodeError::OutOfMemory
    }
}

impl<T: Drop> From<AllocFailed<T>> for CodeError {
    ghost from_gives = { λ _ e. e ≡ error.OutOfMemory };

    /// The same; what couldn't be put in is let go.
    fn from(_e: AllocFailed<T>) -> CodeError {
        CodeError::OutOfMemory
    }
}

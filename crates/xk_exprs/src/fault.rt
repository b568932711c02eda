//! Why tokens can't be read.

use std::alloc::{AllocError, AllocFailed};
use thiserror::Error;
use xk_tree::{FrontError, FrontFault, FrontRule};

/// A rule on tokens.
#[derive(Clone, Copy, Debug, PartialEq, Eq)]
pub enum SyntaxRule {
    /// F1: no token begins there.
    Token,
    /// F2: a token that can't stand there, or the end of the text too early.
    Syntax,
    /// F3: too deep, or too many operators.
    TooDeep,
    /// F13: digits that are no number.
    Literal,
}

impl From<SyntaxRule> for FrontRule {
    ghost use Rattle.std.specs.Prelude.{◌≡◌};
    ghost use Rattle.xk_exprs.specs.Faults.{front_rule};

    ghost from_gives = { λ s f. f ≡ front_rule s };

    fn from(rule: SyntaxRule) -> FrontRule {
        match rule {
            SyntaxRule::Token => FrontRule::Token,
            SyntaxRule::Syntax => FrontRule::Syntax,
            SyntaxRule::TooDeep => FrontRule::TooDeep,
            SyntaxRule::Literal => FrontRule::Literal,
        }
    }
}

/// A rule that is broken, and where.
#[derive(Clone, Copy, Debug, PartialEq, Eq)]
pub struct SyntaxFault {
    /// The rule.
    pub rule: SyntaxRule,
    /// The offset in the text, in bytes.
    pub at: usize,
}

/// Why nothing was read.
#[derive(Clone, Copy, Debug, Error, PartialEq, Eq)]
pub enum SyntaxError {
    /// A rule is broken.
    #[error("the text breaks the rule {rule:?} at {at}", rule = .0.rule, at = .0.at)]
    Fault(SyntaxFault),
    /// Memory was refused.
    #[error("out of memory")]
    OutOfMemory,
}

impl From<AllocError> for SyntaxError {
    ghost use Rattle.std.specs.Prelude.{◌≡◌};
    ghost use Rattle.xk_exprs.specs.declared.fault.SyntaxError.TheVariants as error;

    ghost from_gives = { λ _ e. e ≡ error.OutOfMemory };

    fn from(_e: AllocError) -> SyntaxError {
        SyntaxError::OutOfMemory
    }
}

impl<T: Drop> From<AllocFailed<T>> for SyntaxError {
    ghost use Rattle.std.specs.Prelude.{◌≡◌};
    ghost use Rattle.xk_exprs.specs.declared.fault.SyntaxError.TheVariants as error;

    ghost from_gives = { λ _ e. e ≡ error.OutOfMemory };

    fn from(_e: AllocFailed<T>) -> SyntaxError {
        SyntaxError::OutOfMemory
    }
}

impl From<SyntaxError> for FrontError {
    ghost use Rattle.std.specs.Prelude.{◌≡◌};
    ghost use Rattle.xk_exprs.specs.Faults.{front_error};

    ghost from_gives = { λ s f. f ≡ front_error s };

    fn from(e: SyntaxError) -> FrontError {
        match e {
            SyntaxError::Fault(fault) => FrontError::Fault(FrontFault {
                rule: FrontRule::from(fault.rule),
                at: fault.at,
            }),
            SyntaxError::OutOfMemory => FrontError::OutOfMemory,
        }
    }
}

//! Why a text spells no tree, or a tree has no module.

ghost use Rattle.std.specs.Prelude.{◌≡◌};
ghost use Rattle.xk_tree.specs.Fault.{front_number, front_name};

use std::alloc::{AllocError, AllocFailed};
use thiserror::Error;

/// A rule on source texts, F1 to F15.
#[derive(Clone, Copy, Debug, PartialEq, Eq)]
pub enum FrontRule {
    /// F1: a character with which no token begins, or a comment that isn't closed.
    Token,
    /// F2: a token that can't stand there, or the end of the text too early.
    Syntax,
    /// F3: more than 64 statements, parentheses and negations in one another, or more than 64 operators in one expression.
    TooDeep,
    /// F4: more than 1,048,576 bytes.
    TooLong,
    /// F5: a name that isn't visible there, or a method that doesn't exist.
    UnknownName,
    /// F6: a name is declared that is visible there already, or a method a second time.
    DuplicateName,
    /// F7: a clock where a number is wanted, or the reverse, or something else of the wrong kind.
    WrongKind,
    /// F8: an `async` body uses a clock that it isn't given, or a `var` from outside.
    NotCaptured,
    /// F9: there is no method `main`, or a parameter of it is a clock.
    NoMain,
    /// F10: a method that is reached again from what it calls, or a call of `main`.
    Recursive,
    /// F11: a call with another number of arguments than the method has parameters.
    Arity,
    /// F12: a clock twice in one `clocked` list or one call.
    SameClockTwice,
    /// F13: a number with a needless 0 before it, or of more than 64 bits.
    Literal,
    /// F14: too many shared numbers, units, slots, instructions or arguments.
    Table,
    /// F15: a `clocked async` where no clock is hidden.
    NoHiddenClock,
}

impl FrontRule {
    /// The number, from 1 to 15: `F10` is the rule with the number 10.
    pub fn number(self) -> u8
        ensures { result ≡ front_number self }
    {
        match self {
            FrontRule::Token => 1,
            FrontRule::Syntax => 2,
            FrontRule::TooDeep => 3,
            FrontRule::TooLong => 4,
            FrontRule::UnknownName => 5,
            FrontRule::DuplicateName => 6,
            FrontRule::WrongKind => 7,
            FrontRule::NotCaptured => 8,
            FrontRule::NoMain => 9,
            FrontRule::Recursive => 10,
            FrontRule::Arity => 11,
            FrontRule::SameClockTwice => 12,
            FrontRule::Literal => 13,
            FrontRule::Table => 14,
            FrontRule::NoHiddenClock => 15,
        }
    }

    /// The name that a refusal prints.
    pub fn name(self) -> &'static str
        ensures { result.now ≡ front_name self }
    {
        match self {
            FrontRule::Token => "Token",
            FrontRule::Syntax => "Syntax",
            FrontRule::TooDeep => "TooDeep",
            FrontRule::TooLong => "TooLong",
            FrontRule::UnknownName => "UnknownName",
            FrontRule::DuplicateName => "DuplicateName",
            FrontRule::WrongKind => "WrongKind",
            FrontRule::NotCaptured => "NotCaptured",
            FrontRule::NoMain => "NoMain",
            FrontRule::Recursive => "Recursive",
            FrontRule::Arity => "Arity",
            FrontRule::SameClockTwice => "SameClockTwice",
            FrontRule::Literal => "Literal",
            FrontRule::Table => "Table",
            FrontRule::NoHiddenClock => "NoHiddenClock",
        }
    }
}

/// A rule that is broken, and where.
#[derive(Clone, Copy, Debug, PartialEq, Eq)]
pub struct FrontFault {
    /// The rule.
    pub rule: FrontRule,
    /// The offset in the text, in bytes.
    pub at: usize,
}

impl FrontFault {
    /// The number of the rule, from 1 to 15.
    pub fn number(self) -> u8
        ensures { result ≡ front_number self.rule }
    {
        self.rule.number()
    }

    /// The name of the rule, as a refusal prints it.
    pub fn name(self) -> &'static str
        ensures { result.now ≡ front_name self.rule }
    {
        self.rule.name()
    }

    /// The offset in the text, in bytes.
    pub fn offset(self) -> usize
        ensures { result ≡ self.at }
    {
        self.at
    }
}

/// Why there is no tree, or no module.
#[derive(Clone, Copy, Debug, Error, PartialEq, Eq)]
pub enum FrontError {
    /// A rule is broken.
    #[error("the text breaks rule F{number} {name} at {at}", number = .0.number(), name = .0.name(), at = .0.offset())]
    Fault(FrontFault),
    /// Memory was refused.
    #[error("out of memory")]
    OutOfMemory,
}

impl From<FrontFault> for FrontError {
    ghost use Rattle.std.specs.Prelude.{◌≡◌};
    ghost use Rattle.xk_tree.specs.declared.fault.FrontError.TheVariants as error;

    ghost from_gives = { λ f e. e ≡ error.Fault f };

    fn from(fault: FrontFault) -> FrontError {
        FrontError::Fault(fault)
    }
}

impl From<AllocError> for FrontError {
    ghost use Rattle.std.specs.Prelude.{◌≡◌};
    ghost use Rattle.xk_tree.specs.declared.fault.FrontError.TheVariants as error;

    ghost from_gives = { λ _ e. e ≡ error.OutOfMemory };

    fn from(_e: AllocError) -> FrontError {
        FrontError::OutOfMemory
    }
}

impl<T: Drop> From<AllocFailed<T>> for FrontError {
    ghost use Rattle.std.specs.Prelude.{◌≡◌};
    ghost use Rattle.xk_tree.specs.declared.fault.FrontError.TheVariants as error;

    ghost from_gives = { λ _ e. e ≡ error.OutOfMemory };

    fn from(_e: AllocFailed<T>) -> FrontError {
        FrontError::OutOfMemory
    }
}

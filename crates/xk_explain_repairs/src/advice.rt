//! What is advised where a text has a fault, by what stands there.

ghost use Rattle.std.specs.Prelude.{◌≡◌};
ghost use Rattle.xk_explain_repairs.specs.Advice.{advice_text, behind_text, foreign_text, habit_text, is_usual, meant_text, name_text};
ghost use Rattle.xk_explain_repairs.specs.Advice.{near_text, part_text, sign_text, statement_text, there_text};

use crate::rules::front_repair;
use xk_tree::FrontRule;

/// A word that a statement begins with, or a part of one.
#[derive(Clone, Copy, Debug)]
pub enum Reserved {
    /// `async`.
    Async,
    /// `atomic`.
    Atomic,
    /// `clocked`.
    Clocked,
    /// `def`.
    Def,
    /// `else`.
    Else,
    /// `finish`.
    Finish,
    /// `for`.
    For,
    /// `if`.
    If,
    /// `shared`.
    Shared,
    /// `val`.
    Val,
    /// `var`.
    Var,
}

/// What is advised: the usual repair of the rule, or one for what stands at the fault.
#[derive(Clone, Copy, Debug)]
pub enum Advice {
    /// Nothing else than what is usual.
    Usual,
    /// A comment isn't closed.
    CloseComment,
    /// A remainder.
    NoRemainder,
    /// A division.
    NoDivision,
    /// A power.
    NoPower,
    /// An array.
    NoArrays,
    /// A text.
    NoTexts,
    /// Two conditions that both hold.
    BothConditions,
    /// Two conditions of which one holds.
    EitherCondition,
    /// A condition that doesn't hold.
    NoNegation,
    /// A choice in an expression.
    NoChoice,
    /// A comment of another language.
    CommentSign,
    /// A byte order mark.
    ByteOrderMark,
    /// A typographic quote.
    TypographicQuote,
    /// A no-break space.
    NoBreakSpace,
    /// A dash.
    Dash,
    /// A sign of full width.
    WideSign,
    /// Another sign that isn't of ASCII.
    AsciiNames,
    /// The text's end.
    TextEnds,
    /// The braces of a body.
    BodyBraces,
    /// The `{` of a method.
    MethodBrace,
    /// A method that gives something back.
    NothingBack,
    /// A loop that is left.
    LoopGoesOn,
    /// A declaration of another language.
    Declaration,
    /// An object.
    NoObjects,
    /// A loop without a bound.
    Loop,
    /// A condition without parentheses.
    Condition,
    /// An activity on a clock.
    Clocked,
    /// What an `atomic` does.
    OneAddition,
    /// What an `atomic` takes away.
    NegativeAddend,
    /// A method of another language.
    MethodWord,
    /// A name that is a word of the language.
    ReservedWord,
    /// A lower bound that is no number.
    LowerBound,
    /// A function of `Math`.
    LeastAlone,
    /// What ends on a line before.
    EndPart,
    /// A number that begins with a 0.
    NeedlessZero,
    /// A number that isn't whole.
    WholeNumber,
    /// A short assignment.
    AddOne,
    /// Another sign for `=`.
    AssignSign,
    /// A method in an expression.
    NoValue,
    /// What a program is made of.
    Program,
    /// What a log is for.
    Log,
    /// A shared number.
    SharedNumber,
    /// A method in a method.
    MethodsBeside,
    /// An `else` without its `if`.
    ElseBehind,
    /// A barrier.
    AdvanceAll,
    /// A clock that is made or taken.
    MadeOrTaken,
    /// A clock that an activity is on.
    FromStart,
    /// A clock that is dropped.
    DropByName,
    /// What stands outside of methods.
    Outside,
    /// Waiting for a number.
    Waiting,
    /// Waiting for a time.
    NoTime,
    /// The bounds of a loop.
    Bounds,
    /// The condition of an `if`.
    Comparison,
    /// A second condition.
    ElseIf,
    /// Cases.
    Cases,
    /// A range of another language.
    Range,
    /// How often something is done.
    Times,
    /// A lock.
    Locked,
    /// What a `val` is.
    OneName,
    /// The head of a method.
    MethodHead,
    /// What a method takes.
    Taken,
    /// What `main` takes.
    MainNumbers,
    /// Printing.
    Print,
    /// The calls of `Clock`.
    ClockCalls,
    /// The calls of a clock.
    NamedClock,
    /// A type.
    Types,
    /// A call without parentheses.
    Parentheses,
    /// A truth value.
    NoTruth,
    /// A type that isn't that of what is declared.
    ClockBinding,
    /// What an `atomic` adds to.
    SharedAtomic,
    /// The second name of an `atomic`.
    SameTwice,
    /// What is said to a compiler elsewhere.
    Parallel,
    /// An annotation.
    NoAnnotations,
    /// A `return` without a value.
    Returns,
    /// Waiting for the end of an activity.
    EndFirst,
    /// An activity that is started.
    StartActivity,
    /// A `then`.
    NoThen,
    /// A statement that does nothing.
    NothingDone,
    /// An exception.
    NoExceptions,
    /// Another place.
    OnePlace,
    /// A shift.
    NoShift,
    /// Another blank.
    OtherBlank,
    /// A sign that isn't to be seen.
    NoWidth,
    /// A sign for a comparison.
    ComparisonSign,
    /// A sign for a product.
    MultiplicationSign,
    /// Three points in one sign.
    TwoPoints,
    /// Another sign for `!=`.
    NotEqual,
    /// Another sign for `<=` or `>=`.
    OrderSign,
    /// A parameter.
    Parameter,
    /// A list of statements.
    OneEach,
    /// A comparison elsewhere than in an `if`.
    NoComparison,
    /// A value that is missing.
    FirstValue,
    /// A value that is missing before something else.
    MissingValue,
    /// A number that an `atomic` writes.
    PlainWrite,
    /// A `}` too many.
    ClosesNothing,
    /// A word of the language that is near one that stands there.
    Meant(Reserved),
}

/// Whether nothing else is advised than what is usual.
pub fn is_usual(advice: Advice) -> bool
    ensures { result ≡ is_usual advice }
{
    match advice {
        Advice::Usual => true,
        _ => false,
    }
}

/// Those where no token begins.
fn sign_text(advice: Advice, other: &'static str) -> &'static str
    ensures { result.now ≡ sign_text advice other.now }
{
    match advice {
        Advice::CloseComment => "close the comment by `*/`",
        Advice::NoRemainder =>
            "there is no remainder: go through the halves by a loop, with `val even = 2 * half;`",
        Advice::NoDivision =>
            "there is no division: count up, as `var q = 0; for (k in 1..100) if (k * b <= a) q = k;`",
        Advice::NoPower => "there is no power: multiply, as `n * n`",
        Advice::NoArrays =>
            "there are no arrays: write a shared number for each cell, as `a0`, `a1`",
        Advice::NoTexts =>
            "there are no texts: print a number that tells who and when, as `10 * phase + who`",
        Advice::BothConditions => "write an `if` in an `if`",
        Advice::EitherCondition => "write an `else if` with the same statement",
        Advice::NoNegation => "turn the comparison round: `!=` for `==`, `>=` for `<`",
        Advice::NoChoice => "there is no choice in an expression: `var b = 2; if (a > 0) b = 1;`",
        Advice::CommentSign => "a comment begins with `//`",
        _ => other,
    }
}

/// Those of signs that aren't of ASCII, and of the text's end.
fn foreign_text(advice: Advice, other: &'static str) -> &'static str
    ensures { result.now ≡ foreign_text advice other.now }
{
    match advice {
        Advice::ByteOrderMark =>
            "the text begins with a byte order mark, which isn't to be seen: save it as UTF-8 without one",
        Advice::TypographicQuote => "a typographic quote, and there are no texts: print a number",
        Advice::NoBreakSpace => "a no-break space is here, which looks like a blank: write a blank",
        Advice::Dash => "this is a dash: write `-`",
        Advice::WideSign => "this sign is one of full width: write the one of ASCII",
        Advice::AsciiNames =>
            "names are of letters, digits and `_` of ASCII; a comment may have any character, in UTF-8",
        Advice::TextEnds => "the text ends too early: look for a `}` that is missing, or a `;`",
        Advice::NothingBack =>
            "a method gives nothing back: write to a shared number, and put an `if` around the rest",
        Advice::LoopGoesOn => "a loop goes on to its end: put an `if` around the rest of a turn",
        Advice::Declaration =>
            "write `val n = 5;`, or `var` where it changes; a parameter is `n: Long`",
        Advice::NoObjects =>
            "there are no objects: a clock is `val c = Clock.make();`, an activity `async work();`, and an array a shared number for each cell",
        Advice::Loop =>
            "write `for (i in 1..9)` for 1 to 9: how often, at most, has to be known beforehand",
        _ => other,
    }
}

/// Those of what stands before a token.
fn behind_text(advice: Advice, other: &'static str) -> &'static str
    ensures { result.now ≡ behind_text advice other.now }
{
    match advice {
        Advice::Condition => "write the condition in parentheses, as in `if (a == 1)`",
        Advice::Clocked =>
            "write `async clocked (c)`; or, for a clock without a name, `clocked finish` and `clocked async`",
        Advice::OneAddition => "write `atomic s = s + 1;`: one addition, with a sum in parentheses",
        Advice::NegativeAddend => "to take away, add a negative number: `atomic s = s + -1;`",
        Advice::MethodWord => "a method begins with `def`: write `def main() {`",
        Advice::ReservedWord => "this is a word of the language: take another name",
        Advice::FromStart =>
            "an activity is on a clock from its start, by `async clocked (c)`: leave `register` away",
        Advice::LowerBound =>
            "a loop begins with a number: write `for (i in 1..9)`, and in it `if (i >= n)`",
        Advice::LeastAlone =>
            "`Math.min(n, 100)` is the upper bound of a loop alone: take a `var` and an `if`",
        Advice::EndPart => "end what stands before it: a `;` is missing there, or a `)`, or a `{`",
        Advice::WholeNumber => "a number is whole, and of digits alone: `5`, `1000`",
        _ => other,
    }
}

/// Those of a token.
fn there_text(advice: Advice, other: &'static str) -> &'static str
    ensures { result.now ≡ there_text advice other.now }
{
    match advice {
        Advice::AddOne => "write `n = n + 1;`, or of a shared number `atomic n = n + 1;`",
        Advice::AssignSign => "write `=`",
        Advice::NoValue =>
            "a method gives nothing back: call it by `f(1);`, and read the shared number that it writes",
        Advice::Program => "a program is `shared` numbers and methods: begin with `def main() {`",
        Advice::Log =>
            "this is a log of a run, and no program: `x10clock replay FILE LOG` plays it",
        Advice::SharedNumber => "write `shared s = 0;`, with a number, in front of the methods",
        Advice::MethodsBeside =>
            "methods stand beside each other: look for a `}` that is missing before it",
        Advice::ElseBehind =>
            "an `else` stands behind the one statement of its `if`: look for a `;` too many, or a `{` that is missing",
        Advice::AdvanceAll =>
            "write `Clock.advanceAll();`: it waits for all clocks of the activity",
        Advice::MadeOrTaken =>
            "write `val c = Clock.make();` where a clock is made, and `c: Clock` where one is taken",
        Advice::DropByName =>
            "a clock is dropped by its name, `c.drop();`; that of a `clocked finish` is dropped at its end",
        Advice::Outside =>
            "outside of methods stand `shared` numbers and methods alone: look for a `}` too many before it",
        _ => other,
    }
}

/// Those of statements.
fn statement_text(advice: Advice, other: &'static str) -> &'static str
    ensures { result.now ≡ statement_text advice other.now }
{
    match advice {
        Advice::Waiting =>
            "wait for a phase: `clocked finish { clocked async { s = 1; Clock.advanceAll(); } Clock.advanceAll(); val t = s; }`",
        Advice::NoTime =>
            "there is no waiting for a time: put a `finish { .. }` around what comes first",
        Advice::Bounds =>
            "write `for (i in 1..3)` for 1, 2 and 3, or up to a name, as in `for (i in 1..Math.min(n, 100))`",
        Advice::Comparison =>
            "write `if (a == 1)`: two expressions, and one comparison between them",
        Advice::ElseIf => "write `else if (a == 2)`",
        Advice::Cases =>
            "write an `if` for each case: `if (a == 1) { .. } else if (a == 2) { .. }`",
        Advice::Times => "write `for (i in 1..3)` for 1, 2 and 3",
        Advice::Range => "write `for (i in 0..2)` for 0, 1 and 2",
        Advice::Locked => "write `atomic n = n + 1;`: it adds to a shared number in one step",
        Advice::OneName =>
            "write `val n = 2 * m;`: one name, and an expression of `+`, `-` and `*`",
        Advice::MethodHead => "write `def f(n: Long, c: Clock) {`: a method gives nothing back",
        Advice::BodyBraces => "write `{` for this `:`, and `}` behind the body",
        Advice::MethodBrace => "a method gives nothing back: its `{` stands right behind the `)`",
        _ => other,
    }
}

/// Those of names and kinds.
fn name_text(advice: Advice, other: &'static str) -> &'static str
    ensures { result.now ≡ name_text advice other.now }
{
    match advice {
        Advice::Taken => "write `def main() {`, or for an `--arg` `def main(n: Long) {`",
        Advice::MainNumbers => "write `def main(n: Long)`, with a number for each `--arg`",
        Advice::Print => "write `Console.OUT.println(1);`, with one number",
        Advice::ClockCalls => "write `Clock.advanceAll();`, or `val c = Clock.make();`",
        Advice::NamedClock =>
            "of a clock write `c.resume();` or `c.drop();`, and to wait `Clock.advanceAll();`",
        Advice::Types => "a type is `Long`, a number, or `Clock`",
        Advice::Parentheses => "a method is called with parentheses: write `work();`",
        Advice::NoTruth => "there are no truth values: write the number 1 or 0",
        Advice::ClockBinding =>
            "a clock is a `val` that is made there, `val c = Clock.make();`, and isn't copied; all else is `Long`",
        Advice::SharedAtomic =>
            "an `atomic` adds to a shared number alone: declare it `shared n = 0;` in front of the methods",
        Advice::SameTwice =>
            "an `atomic` adds to the number that it writes, as `atomic n = n + 1;`",
        _ => other,
    }
}

/// Those of what other languages have.
fn habit_text(advice: Advice, other: &'static str) -> &'static str
    ensures { result.now ≡ habit_text advice other.now }
{
    match advice {
        Advice::Parallel =>
            "write `clocked finish for (i in 1..4) clocked async { .. }`; barriers are `Clock.advanceAll();`",
        Advice::NoAnnotations => "there are no annotations: take it away",
        Advice::Returns =>
            "a method ends at its `}`: take the `return` away, or put an `if` around the rest",
        Advice::EndFirst =>
            "to wait until activities have ended, put a `finish { .. }` around them",
        Advice::StartActivity => "start an activity by `async work();`",
        Advice::NoThen => "there is no `then`: write `if (a == 1) b = 2;`",
        Advice::NothingDone => "a statement that does nothing is `;`",
        Advice::NoExceptions =>
            "there are no exceptions: leave `try`, `catch`, `finally` and `throw` away",
        Advice::OnePlace => "there is one place: leave `at (..)` away",
        Advice::NoShift => "there are no shifts: multiply, as in `2 * n`",
        _ => other,
    }
}

/// Those of signs, and of parts of a statement.
fn part_text(advice: Advice, other: &'static str) -> &'static str
    ensures { result.now ≡ part_text advice other.now }
{
    match advice {
        Advice::OtherBlank => "a blank of another width is here: write a blank",
        Advice::NoWidth => "a sign without any width is here, which isn't to be seen: take it away",
        Advice::ComparisonSign => "write `<=`, `>=` or `!=`",
        Advice::MultiplicationSign => "write `*`",
        Advice::TwoPoints => "write two points, `..`",
        Advice::NotEqual => "write `!=`",
        Advice::OrderSign => "write `<=` or `>=`",
        Advice::Parameter => "a parameter is `n: Long`, and one that takes a clock is `c: Clock`",
        Advice::OneEach =>
            "write each on its own, with a `;` behind it, as in `val a = 1; val b = 2;`",
        Advice::NoComparison =>
            "a comparison stands in an `if` alone: `var b = 0; if (a == 1) b = 1;`",
        Advice::FirstValue => "a `val` and a `var` begin with a value: write `var n = 0;`",
        Advice::MissingValue => "a number or a name is missing before it",
        Advice::PlainWrite =>
            "an `atomic` adds, as `atomic n = n + 5;`; to write a number is one step without it, `n = 5;`",
        Advice::NeedlessZero =>
            "write it without the 0, from -9223372036854775808 to 9223372036854775807",
        Advice::ClosesNothing => "take this `}` away: no `{` is open",
        _ => other,
    }
}

/// The word that may be meant.
fn meant_text(word: Reserved) -> &'static str
    ensures { result.now ≡ meant_text word }
{
    match word {
        Reserved::Async => "perhaps `async` is meant",
        Reserved::Atomic => "perhaps `atomic` is meant",
        Reserved::Clocked => "perhaps `clocked` is meant",
        Reserved::Def => "perhaps `def` is meant",
        Reserved::Else => "perhaps `else` is meant",
        Reserved::Finish => "perhaps `finish` is meant",
        Reserved::For => "perhaps `for` is meant",
        Reserved::If => "perhaps `if` is meant",
        Reserved::Shared => "perhaps `shared` is meant",
        Reserved::Val => "perhaps `val` is meant",
        Reserved::Var => "perhaps `var` is meant",
    }
}

/// The same, if one is.
fn near_text(advice: Advice, other: &'static str) -> &'static str
    ensures { result.now ≡ near_text advice other.now }
{
    match advice {
        Advice::Meant(word) => meant_text(word),
        _ => other,
    }
}

/// The words of an advice on a fault of this rule.
pub fn advice_text(advice: Advice, rule: FrontRule) -> &'static str
    ensures { result.now ≡ advice_text advice rule }
{
    let other = near_text(advice, front_repair(rule));
    let other = habit_text(advice, part_text(advice, other));
    let other = name_text(advice, other);
    let other = there_text(advice, statement_text(advice, other));
    sign_text(advice, foreign_text(advice, behind_text(advice, other)))
}

//! What is advised at a fault of a source text by what stands there: what other languages have, and what is missing.

ghost use Rattle.std.specs.Prelude.{◌≡◌, ◌≤◌, length, IfOk};
ghost use Rattle.xk_explain_repairs.specs.Repairs.{advice_at, advice_at_type, advice_behind_atomic, advice_of_second, further_advice_at};
ghost use Rattle.xk_explain_repairs.specs.Repairs.{kind_advice, name_advice, name_advice_of_activities, number_advice};

use crate::advice::Advice;
use crate::further::further_syntax_advice;
use crate::syntax::syntax_advice;
use crate::tokens::token_advice;
use std::alloc::{AllocError, Global};
use xk_explain_parts::is_second;
use xk_explain_words::{begins, depth_at, first_word, head_at, is_spelled, last_word, to_sign};
use xk_tree::FrontRule;

/// By a name that isn't visible.
#[tactic(auto, unfolding(crate::specs::Repairs::name_advice))]
fn name_advice(word: &[u8], other: Advice) -> Advice
    ensures { result ≡ name_advice word.now other }
{
    if is_spelled(word, b"print")
        || is_spelled(word, b"println")
        || is_spelled(word, b"printf")
        || is_spelled(word, b"puts")
        || is_spelled(word, b"echo")
    {
        Advice::Print
    } else if is_spelled(word, b"advanceAll")
        || is_spelled(word, b"advance")
        || is_spelled(word, b"barrier")
        || is_spelled(word, b"next")
        || is_spelled(word, b"wait")
        || is_spelled(word, b"await")
    {
        Advice::AdvanceAll
    } else if is_spelled(word, b"sleep")
        || is_spelled(word, b"usleep")
        || is_spelled(word, b"delay")
    {
        Advice::NoTime
    } else if is_spelled(word, b"true")
        || is_spelled(word, b"false")
        || is_spelled(word, b"True")
        || is_spelled(word, b"False")
    {
        Advice::NoTruth
    } else {
        other
    }
}

/// By the name of what starts, awaits or locks, or is a statement elsewhere.
#[tactic(auto, unfolding(crate::specs::Repairs::name_advice_of_activities))]
fn name_advice_of_activities(word: &[u8], other: Advice) -> Advice
    ensures { result ≡ name_advice_of_activities word.now other }
{
    if is_spelled(word, b"spawn")
        || is_spelled(word, b"fork")
        || is_spelled(word, b"start")
        || is_spelled(word, b"go")
    {
        Advice::StartActivity
    } else if is_spelled(word, b"join")
        || is_spelled(word, b"sync")
        || is_spelled(word, b"taskwait")
    {
        Advice::EndFirst
    } else if is_spelled(word, b"lock")
        || is_spelled(word, b"unlock")
        || is_spelled(word, b"acquire")
        || is_spelled(word, b"release")
    {
        Advice::Locked
    } else if is_spelled(word, b"while") || is_spelled(word, b"until") {
        Advice::Loop
    } else if is_spelled(word, b"return") {
        Advice::NothingBack
    } else if is_spelled(word, b"resume") || is_spelled(word, b"drop") {
        Advice::NamedClock
    } else if is_spelled(word, b"input")
        || is_spelled(word, b"scanf")
        || is_spelled(word, b"read")
    {
        Advice::MainNumbers
    } else {
        other
    }
}

/// By the type that stands there, or a clock that is made.
fn advice_at_type(word: &[u8], other: Advice) -> Advice
    ensures { result ≡ advice_at_type word.now other }
{
    if is_spelled(word, b"Clock") || is_spelled(word, b"Long") {
        return Advice::ClockBinding;
    }
    other
}

/// By an `atomic` before the fault.
fn advice_behind_atomic(word: &[u8], other: Advice) -> Advice
    ensures { result ≡ advice_behind_atomic word.now other }
{
    if is_spelled(word, b"atomic") {
        return Advice::SharedAtomic;
    }
    other
}

/// By the second name of an `atomic`.
fn advice_of_second(before: &[u8], other: Advice) -> Advice
    ensures { result ≡ advice_of_second before.now other }
{
    if is_second(before) {
        return Advice::SameTwice;
    }
    other
}

/// Where another kind is wanted.
fn kind_advice(before: &[u8], rest: &[u8]) -> Advice
    ensures { result ≡ kind_advice before.now rest.now }
{
    let kept = to_sign(before);
    let other = advice_of_second(kept, Advice::Usual);
    let other = advice_behind_atomic(last_word(kept), other);
    advice_at_type(first_word(rest), other)
}

/// By how a number begins that is none.
fn number_advice(rest: &[u8]) -> Advice
    ensures { result ≡ number_advice rest.now }
{
    if begins(rest, b"0") {
        return Advice::NeedlessZero;
    }
    Advice::Usual
}

/// What is advised first on a fault of this rule at an offset of the text, by what stands there. Err where memory was refused.
pub fn advice_at(
    alloc: Global,
    text: &[u8],
    rule: FrontRule,
    at: usize,
) -> Result<Advice, AllocError>
    requires { at ≤ length text.now }
    ensures { IfOk result (λ advice. advice ≡ advice_at text.now rule at) }
{
    let before = &text[..at];
    let rest = &text[at..];
    match rule {
        FrontRule::Token => Ok(token_advice(at, rest)),
        FrontRule::Syntax => {
            let head = head_at(alloc, text, at)?;
            Ok(syntax_advice(head, before, rest))
        }
        FrontRule::UnknownName => {
            let word = first_word(rest);
            Ok(name_advice(word, name_advice_of_activities(word, Advice::Usual)))
        }
        FrontRule::WrongKind => Ok(kind_advice(before, rest)),
        FrontRule::Literal => Ok(number_advice(rest)),
        FrontRule::TooDeep
        | FrontRule::TooLong
        | FrontRule::DuplicateName
        | FrontRule::NotCaptured
        | FrontRule::NoMain
        | FrontRule::Recursive
        | FrontRule::Arity
        | FrontRule::SameClockTwice
        | FrontRule::Table
        | FrontRule::NoHiddenClock => Ok(Advice::Usual),
    }
}

/// The same where a token can't stand, with what its statement says.
fn further_at_token(alloc: Global, text: &[u8], at: usize) -> Result<Advice, AllocError>
    requires { at ≤ length text.now }
    ensures { IfOk result (λ advice. advice ≡ further_advice_at text.now FrontRule.Syntax at) }
{
    let head = head_at(alloc, text, at)?;
    let depth = depth_at(alloc, text, at)?;
    Ok(further_syntax_advice(head, depth, &text[..at], &text[at..]))
}

/// What is advised on a fault of this rule at an offset of the text where nothing else calls for a repair. Err where memory was refused.
pub fn further_advice_at(
    alloc: Global,
    text: &[u8],
    rule: FrontRule,
    at: usize,
) -> Result<Advice, AllocError>
    requires { at ≤ length text.now }
    ensures { IfOk result (λ advice. advice ≡ further_advice_at text.now rule at) }
{
    match rule {
        FrontRule::Syntax => further_at_token(alloc, text, at),
        FrontRule::Token
        | FrontRule::TooDeep
        | FrontRule::TooLong
        | FrontRule::UnknownName
        | FrontRule::DuplicateName
        | FrontRule::WrongKind
        | FrontRule::NotCaptured
        | FrontRule::NoMain
        | FrontRule::Recursive
        | FrontRule::Arity
        | FrontRule::SameClockTwice
        | FrontRule::Literal
        | FrontRule::Table
        | FrontRule::NoHiddenClock => Ok(Advice::Usual),
    }
}

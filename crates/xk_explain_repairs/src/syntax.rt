//! What is advised first where a token can't stand.

ghost use Rattle.std.specs.Prelude.{◌≡◌};
ghost use Rattle.xk_explain_repairs.specs.Repairs.{advice_at_comma, advice_at_comparison, advice_at_digit, advice_at_minus};
ghost use Rattle.xk_explain_repairs.specs.Repairs.{advice_at_missing, advice_at_pair, advice_at_sign, advice_at_star, advice_at_value};
ghost use Rattle.xk_explain_repairs.specs.Repairs.{advice_behind, advice_behind_clock, advice_behind_habit, advice_behind_number};
ghost use Rattle.xk_explain_repairs.specs.Repairs.{advice_near, advice_of_foreign, advice_of_near, advice_of_part, advice_of_reserved};
ghost use Rattle.xk_explain_repairs.specs.Repairs.{advice_of_return, advice_of_type, advice_there, compares, is_atomic, is_bound};
ghost use Rattle.xk_explain_repairs.specs.Repairs.{advice_at_range, advice_of_first_type, advice_of_word, stands_alone, syntax_advice};

use crate::advice::{Advice, Reserved};
use xk_explain_parts::{
    ends_value, goes_on, is_alone, is_clock_word, is_comparison, is_declared, is_equality,
    is_number, is_pair, is_reserved, is_type, is_typed, wants_name, wants_value,
};
use xk_explain_words::{Head, begins, ends, first_word, is_near, is_spelled, last_word, to_sign};

/// By the statement that a declaration stands in.
fn advice_of_part(head: Head, other: Advice) -> Advice
    ensures { result ≡ advice_of_part head other }
{
    match head {
        Head::For => Advice::Times,
        Head::Shared => Advice::SharedNumber,
        Head::Def => Advice::Parameter,
        _ => other,
    }
}

/// By a declaration of other languages, also in a `for`, in a `shared` or among parameters.
fn advice_of_type(head: Head, word: &[u8], other: Advice) -> Advice
    ensures { result ≡ advice_of_type head word.now other }
{
    if is_type(word) {
        return advice_of_part(head, Advice::Declaration);
    }
    other
}

/// By a `return` without a value.
fn advice_of_return(word: &[u8], rest: &[u8], other: Advice) -> Advice
    ensures { result ≡ advice_of_return word.now rest.now other }
{
    if is_spelled(word, b"return") && begins(rest, b";") {
        return Advice::Returns;
    }
    other
}

/// By a range of another language, in a `for`.
fn advice_at_range(before: &[u8], there: &[u8], other: Advice) -> Advice
    ensures { result ≡ advice_at_range before.now there.now other }
{
    if is_spelled(before, b"in") && is_spelled(there, b"range") {
        return Advice::Range;
    }
    other
}

/// By the word that stands before the fault.
#[tactic(auto, unfolding(crate::specs::Repairs::advice_behind))]
fn advice_behind(word: &[u8], other: Advice) -> Advice
    ensures { result ≡ advice_behind word.now other }
{
    if is_spelled(word, b"return") {
        Advice::NothingBack
    } else if is_spelled(word, b"break") || is_spelled(word, b"continue") {
        Advice::LoopGoesOn
    } else if is_spelled(word, b"new") {
        Advice::NoObjects
    } else if is_spelled(word, b"do") {
        Advice::Loop
    } else if is_spelled(word, b"if") {
        Advice::Condition
    } else if is_spelled(word, b"clocked") || is_spelled(word, b"async") {
        Advice::Clocked
    } else if is_spelled(word, b"atomic") {
        Advice::OneAddition
    } else if is_spelled(word, b"fn")
        || is_spelled(word, b"fun")
        || is_spelled(word, b"func")
        || is_spelled(word, b"function")
        || is_spelled(word, b"void")
    {
        Advice::MethodWord
    } else if is_spelled(word, b"in") {
        Advice::LowerBound
    } else if is_spelled(word, b"Math") {
        Advice::LeastAlone
    } else {
        other
    }
}

/// By a word of other languages that stands before the fault.
#[tactic(auto, unfolding(crate::specs::Repairs::advice_behind_habit))]
fn advice_behind_habit(word: &[u8], other: Advice) -> Advice
    ensures { result ≡ advice_behind_habit word.now other }
{
    if is_spelled(word, b"spawn")
        || is_spelled(word, b"go")
        || is_spelled(word, b"fork")
        || is_spelled(word, b"thread")
        || is_spelled(word, b"parallel")
    {
        Advice::StartActivity
    } else if is_spelled(word, b"await") || is_spelled(word, b"join") || is_spelled(word, b"sync") {
        Advice::EndFirst
    } else if is_spelled(word, b"finish") {
        Advice::EndFirst
    } else if is_spelled(word, b"print")
        || is_spelled(word, b"println")
        || is_spelled(word, b"echo")
    {
        Advice::Print
    } else if is_spelled(word, b"critical") {
        Advice::Locked
    } else if is_spelled(word, b"not") {
        Advice::NoNegation
    } else if is_spelled(word, b"then") {
        Advice::NoThen
    } else if is_spelled(word, b"pass") {
        Advice::NothingDone
    } else if is_spelled(word, b"try")
        || is_spelled(word, b"throw")
        || is_spelled(word, b"finally")
    {
        Advice::NoExceptions
    } else {
        other
    }
}

/// By a type before the name that is declared.
fn advice_of_first_type(before: &[u8], there: &[u8]) -> Advice
    ensures { result ≡ advice_of_first_type before.now there.now }
{
    if is_spelled(before, b"def") {
        Advice::MethodHead
    } else if is_spelled(there, b"Clock") {
        Advice::ClockCalls
    } else {
        Advice::Declaration
    }
}

/// By a word of the language before it.
fn advice_of_word(before: &[u8], there: &[u8]) -> Advice
    ensures { result ≡ advice_of_word before.now there.now }
{
    if is_spelled(there, b"Long") || is_spelled(there, b"Clock") {
        advice_of_first_type(before, there)
    } else {
        Advice::ReservedWord
    }
}

/// By a word of the language where a name is wanted.
fn advice_of_reserved(before: &[u8], there: &[u8], other: Advice) -> Advice
    ensures { result ≡ advice_of_reserved before.now there.now other }
{
    if wants_name(before) && is_reserved(there) {
        return advice_of_word(before, there);
    }
    other
}

/// By a word before the fault that is near one that a statement begins with.
#[tactic(auto, unfolding(crate::specs::Repairs::advice_near))]
fn advice_near(word: &[u8], other: Advice) -> Advice
    ensures { result ≡ advice_near word.now other }
{
    if is_near(word, b"async") {
        Advice::Meant(Reserved::Async)
    } else if is_near(word, b"atomic") {
        Advice::Meant(Reserved::Atomic)
    } else if is_near(word, b"clocked") {
        Advice::Meant(Reserved::Clocked)
    } else if is_near(word, b"def") {
        Advice::Meant(Reserved::Def)
    } else if is_near(word, b"else") {
        Advice::Meant(Reserved::Else)
    } else if is_near(word, b"finish") {
        Advice::Meant(Reserved::Finish)
    } else if is_near(word, b"for") {
        Advice::Meant(Reserved::For)
    } else if is_near(word, b"if") {
        Advice::Meant(Reserved::If)
    } else if is_near(word, b"shared") {
        Advice::Meant(Reserved::Shared)
    } else if is_near(word, b"val") {
        Advice::Meant(Reserved::Val)
    } else if is_near(word, b"var") {
        Advice::Meant(Reserved::Var)
    } else {
        other
    }
}

/// The same, if it isn't one itself.
fn advice_of_near(word: &[u8], other: Advice) -> Advice
    ensures { result ≡ advice_of_near word.now other }
{
    if is_reserved(word) {
        return other;
    }
    advice_near(word, other)
}

/// By digits right before the fault.
#[tactic(auto, unfolding(crate::specs::Repairs::advice_behind_number))]
fn advice_behind_number(before: &[u8], rest: &[u8], other: Advice) -> Advice
    ensures { result ≡ advice_behind_number before.now rest.now other }
{
    if is_number(last_word(before)) && goes_on(rest) {
        Advice::WholeNumber
    } else {
        other
    }
}

/// Whether the statement is an `atomic`.
fn is_atomic(head: Head) -> bool
    ensures { result ≡ is_atomic head }
{
    match head {
        Head::Atomic => true,
        _ => false,
    }
}

/// By a `-` in an `atomic`.
fn advice_at_minus(head: Head, rest: &[u8], other: Advice) -> Advice
    ensures { result ≡ advice_at_minus head rest.now other }
{
    if is_atomic(head) && begins(rest, b"-") && !(begins(rest, b"-=") || begins(rest, b"--")) {
        return Advice::NegativeAddend;
    }
    other
}

/// By a number that an `atomic` writes.
fn advice_at_digit(head: Head, before: &[u8], rest: &[u8], other: Advice) -> Advice
    ensures { result ≡ advice_at_digit head before.now rest.now other }
{
    let behind = &rest[first_word(rest).len()..];
    if is_atomic(head) && ends(before, b"=") && is_number(rest) && begins(behind, b";") {
        return Advice::PlainWrite;
    }
    other
}

/// By a `Clock` before the fault that is no type.
fn advice_behind_clock(before: &[u8], other: Advice) -> Advice
    ensures { result ≡ advice_behind_clock before.now other }
{
    if is_clock_word(last_word(before)) && !is_typed(before) {
        return Advice::ClockCalls;
    }
    other
}

/// By a `*` behind another one.
fn advice_at_star(before: &[u8], rest: &[u8], other: Advice) -> Advice
    ensures { result ≡ advice_at_star before.now rest.now other }
{
    if ends(before, b"*") && begins(rest, b"*") {
        return Advice::NoPower;
    }
    other
}

/// Whether a `,` may stand for a `;` there in other languages.
fn stands_alone(head: Head) -> bool
    ensures { result ≡ stands_alone head }
{
    match head {
        Head::Other | Head::Binding | Head::Shared | Head::Clock => true,
        _ => false,
    }
}

/// By a value that is missing.
fn advice_at_missing(before: &[u8], rest: &[u8], other: Advice) -> Advice
    ensures { result ≡ advice_at_missing before.now rest.now other }
{
    if wants_value(before) && ends_value(rest) {
        return Advice::MissingValue;
    }
    other
}

/// By a `,` between statements.
fn advice_at_comma(head: Head, before: &[u8], rest: &[u8], other: Advice) -> Advice
    ensures { result ≡ advice_at_comma head before.now rest.now other }
{
    if stands_alone(head) && begins(rest, b",") && !ends(before, b"(") {
        return Advice::OneEach;
    }
    other
}

/// By two signs that stand for one of other languages.
#[tactic(auto, unfolding(crate::specs::Repairs::advice_at_pair))]
fn advice_at_pair(before: &[u8], rest: &[u8], other: Advice) -> Advice
    ensures { result ≡ advice_at_pair before.now rest.now other }
{
    if is_pair(before, rest, b"<", b">") {
        Advice::NotEqual
    } else if begins(rest, b"<<") || begins(rest, b">>") {
        Advice::NoShift
    } else if is_pair(before, rest, b"<", b"<") || is_pair(before, rest, b">", b">") {
        Advice::NoShift
    } else if is_pair(before, rest, b")", b"=") && !begins(rest, b"==") {
        Advice::NoArrays
    } else if is_pair(before, rest, b":", b"=") {
        Advice::AssignSign
    } else if begins(rest, b"=<") || begins(rest, b"=>") {
        Advice::OrderSign
    } else {
        other
    }
}

/// Whether nothing is compared in such a statement.
fn compares(head: Head) -> bool
    ensures { result ≡ compares head }
{
    match head {
        Head::Other | Head::Binding | Head::Print => true,
        _ => false,
    }
}

/// By a comparison where none can stand.
#[tactic(auto, unfolding(crate::specs::Repairs::advice_at_comparison))]
fn advice_at_comparison(head: Head, before: &[u8], rest: &[u8], other: Advice) -> Advice
    ensures { result ≡ advice_at_comparison head before.now rest.now other }
{
    if compares(head) && is_comparison(rest) {
        if is_equality(rest) && (is_alone(before) || is_declared(before)) {
            Advice::AssignSign
        } else {
            Advice::NoComparison
        }
    } else {
        other
    }
}

/// Whether the statement is a `val` or a `var`.
fn is_bound(head: Head) -> bool
    ensures { result ≡ is_bound head }
{
    match head {
        Head::Binding => true,
        _ => false,
    }
}

/// By a `val` or a `var` without a value.
fn advice_at_value(head: Head, before: &[u8], rest: &[u8], other: Advice) -> Advice
    ensures { result ≡ advice_at_value head before.now rest.now other }
{
    if is_bound(head) && begins(rest, b";") && (is_declared(before) || is_typed(before)) {
        return Advice::FirstValue;
    }
    other
}

/// By signs that stand there.
#[tactic(auto, unfolding(crate::specs::Repairs::advice_at_sign))]
fn advice_at_sign(rest: &[u8], other: Advice) -> Advice
    ensures { result ≡ advice_at_sign rest.now other }
{
    if begins(rest, b"++")
        || begins(rest, b"--")
        || begins(rest, b"+=")
        || begins(rest, b"-=")
        || begins(rest, b"*=")
    {
        Advice::AddOne
    } else if begins(rest, b":=") {
        Advice::AssignSign
    } else if begins(rest, b"(") {
        Advice::NoValue
    } else {
        other
    }
}

/// By the statement, which is one of other languages.
fn advice_of_foreign(head: Head, other: Advice) -> Advice
    ensures { result ≡ advice_of_foreign head other }
{
    match head {
        Head::While => Advice::Loop,
        Head::When => Advice::Waiting,
        Head::Elif => Advice::ElseIf,
        Head::Switch => Advice::Cases,
        Head::Repeat => Advice::Times,
        Head::Synchronized => Advice::Locked,
        Head::At => Advice::OnePlace,
        _ => other,
    }
}

/// By what stands before the fault, up to here, and by signs there.
fn advice_there(head: Head, before: &[u8], rest: &[u8]) -> Advice
    ensures { result ≡ advice_there head before.now rest.now }
{
    let other = advice_at_sign(rest, advice_of_foreign(head, Advice::Usual));
    let other = advice_at_value(head, before, rest, other);
    let other = advice_at_comparison(head, before, rest, other);
    let other = advice_at_comma(head, before, rest, advice_at_pair(before, rest, other));
    let other = advice_at_star(before, rest, advice_at_missing(before, rest, other));
    let other = advice_behind_clock(before, other);
    advice_at_minus(head, rest, advice_at_digit(head, before, rest, other))
}

/// Where a token can't stand.
pub(crate) fn syntax_advice(head: Head, before: &[u8], rest: &[u8]) -> Advice
    ensures { result ≡ syntax_advice head before.now rest.now }
{
    let kept = to_sign(before);
    let word = last_word(kept);
    let other = advice_behind_number(before, rest, advice_there(head, kept, rest));
    let other = advice_of_reserved(word, first_word(rest), advice_of_near(word, other));
    let other = advice_behind(word, advice_behind_habit(word, other));
    let other = advice_at_range(word, first_word(rest), other);
    advice_of_type(head, word, advice_of_return(word, rest, other))
}

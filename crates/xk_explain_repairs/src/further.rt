//! What is advised where a token can't stand, and nothing else calls for a repair.

ghost use Rattle.std.specs.Prelude.{◌≡◌};
ghost use Rattle.xk_explain_repairs.specs.Repairs.{advice_at_call, advice_at_colon, advice_at_long, advice_at_method, advice_at_word};
ghost use Rattle.xk_explain_repairs.specs.Repairs.{advice_behind_brace, advice_behind_line, advice_behind_point, advice_behind_sign};
ghost use Rattle.xk_explain_repairs.specs.Repairs.{advice_of_global, advice_of_head, advice_of_lone, advice_of_long, advice_of_member};
ghost use Rattle.xk_explain_repairs.specs.Repairs.{advice_of_outside, advice_of_pair, advice_of_two, advice_outside, further_syntax_advice};
ghost use Rattle.xk_explain_repairs.specs.Repairs.{advice_at_array, advice_at_end, advice_at_front, advice_before_body, advice_in_def};
ghost use Rattle.xk_explain_repairs.specs.Repairs.{advice_of_array, advice_of_verb, further_there, is_def};

use crate::advice::Advice;
use xk_explain_parts::{
    behind_first, ends_part, has_line_feed, is_alone, is_barrier, is_before_def, is_binding,
    is_listed, is_method_head, is_number_head, is_outside, is_pair, is_word,
};
use xk_explain_words::{Head, begins, ends, first_word, is_spelled, last_word, to_sign};

/// Where the text ends.
#[tactic(auto, unfolding(crate::specs::Repairs::advice_at_end))]
fn advice_at_end(rest: &[u8], other: Advice) -> Advice
    ensures { result ≡ advice_at_end rest.now other }
{
    match rest {
        [] => Advice::TextEnds,
        [_, ..] => other,
    }
}

/// By what ends on a line before.
#[tactic(auto, unfolding(crate::specs::Repairs::advice_behind_line))]
fn advice_behind_line(before: &[u8], other: Advice) -> Advice
    ensures { result ≡ advice_behind_line before.now other }
{
    let part = to_sign(before);
    if ends_part(part) && has_line_feed(&before[part.len()..]) {
        Advice::EndPart
    } else {
        other
    }
}

/// By what stands outside of methods.
#[tactic(auto, unfolding(crate::specs::Repairs::advice_outside))]
fn advice_outside(rest: &[u8], other: Advice) -> Advice
    ensures { result ≡ advice_outside rest.now other }
{
    if is_method_head(rest) || is_before_def(rest) {
        Advice::MethodWord
    } else if is_number_head(rest) {
        Advice::SharedNumber
    } else {
        other
    }
}

/// The same, where no `{` is open.
fn advice_of_outside(depth: usize, rest: &[u8], other: Advice) -> Advice
    ensures { result ≡ advice_of_outside depth rest.now other }
{
    if depth == 0 {
        return advice_outside(rest, other);
    }
    other
}

/// By the word that stands there.
#[tactic(auto, unfolding(crate::specs::Repairs::advice_at_word))]
fn advice_at_word(word: &[u8], other: Advice) -> Advice
    ensures { result ≡ advice_at_word word.now other }
{
    if is_spelled(word, b"public")
        || is_spelled(word, b"private")
        || is_spelled(word, b"static")
        || is_spelled(word, b"class")
        || is_spelled(word, b"import")
        || is_spelled(word, b"package")
        || is_spelled(word, b"void")
    {
        Advice::Program
    } else if is_spelled(word, b"shared") {
        Advice::SharedNumber
    } else if is_spelled(word, b"def") {
        Advice::MethodsBeside
    } else if is_spelled(word, b"else") {
        Advice::ElseBehind
    } else if is_spelled(word, b"advance") || is_spelled(word, b"advanceAll") {
        Advice::AdvanceAll
    } else if is_spelled(word, b"drop") {
        Advice::DropByName
    } else if is_spelled(word, b"sleep") {
        Advice::NoTime
    } else if is_spelled(word, b"Clock") {
        Advice::MadeOrTaken
    } else {
        other
    }
}

/// By a type of numbers, among parameters or elsewhere.
fn advice_of_long(head: Head) -> Advice
    ensures { result ≡ advice_of_long head }
{
    match head {
        Head::Def => Advice::Parameter,
        _ => Advice::Declaration,
    }
}

/// The same, if one stands there.
fn advice_at_long(head: Head, word: &[u8], other: Advice) -> Advice
    ensures { result ≡ advice_at_long head word.now other }
{
    if is_spelled(word, b"Long") {
        return advice_of_long(head);
    }
    other
}

/// By an array or a text, among parameters or elsewhere.
fn advice_of_array(head: Head, elsewhere: Advice) -> Advice
    ensures { result ≡ advice_of_array head elsewhere }
{
    match head {
        Head::Def => Advice::Taken,
        _ => elsewhere,
    }
}

/// The same, if one stands there.
#[tactic(auto, unfolding(crate::specs::Repairs::advice_at_array))]
fn advice_at_array(head: Head, word: &[u8], other: Advice) -> Advice
    ensures { result ≡ advice_at_array head word.now other }
{
    if is_spelled(word, b"Rail") || is_spelled(word, b"Array") {
        advice_of_array(head, Advice::NoArrays)
    } else if is_spelled(word, b"String") {
        advice_of_array(head, Advice::NoTexts)
    } else {
        other
    }
}

/// By the word of other languages that stands there.
#[tactic(auto, unfolding(crate::specs::Repairs::advice_at_call))]
fn advice_at_call(word: &[u8], other: Advice) -> Advice
    ensures { result ≡ advice_at_call word.now other }
{
    if is_spelled(word, b"mod") {
        Advice::NoRemainder
    } else if is_spelled(word, b"div") {
        Advice::NoDivision
    } else if is_spelled(word, b"println")
        || is_spelled(word, b"print")
        || is_spelled(word, b"printf")
    {
        Advice::Print
    } else if is_spelled(word, b"and") {
        Advice::BothConditions
    } else if is_spelled(word, b"or") {
        Advice::EitherCondition
    } else if is_spelled(word, b"join") {
        Advice::EndFirst
    } else if is_spelled(word, b"start") || is_spelled(word, b"run") {
        Advice::StartActivity
    } else if is_spelled(word, b"lock")
        || is_spelled(word, b"unlock")
        || is_spelled(word, b"acquire")
        || is_spelled(word, b"release")
    {
        Advice::Locked
    } else {
        other
    }
}

/// By the name of a method of other languages.
#[tactic(auto, unfolding(crate::specs::Repairs::advice_at_method))]
fn advice_at_method(word: &[u8], other: Advice) -> Advice
    ensures { result ≡ advice_at_method word.now other }
{
    if is_spelled(word, b"register") {
        Advice::FromStart
    } else if is_spelled(word, b"resume") {
        Advice::NamedClock
    } else if is_spelled(word, b"wait")
        || is_spelled(word, b"await")
        || is_spelled(word, b"next")
        || is_spelled(word, b"sync")
        || is_spelled(word, b"arriveAndAwaitAdvance")
    {
        Advice::AdvanceAll
    } else if is_spelled(word, b"incrementAndGet")
        || is_spelled(word, b"getAndIncrement")
        || is_spelled(word, b"addAndGet")
        || is_spelled(word, b"getAndAdd")
    {
        Advice::Locked
    } else if is_spelled(word, b"arriveAndDeregister") || is_spelled(word, b"deregister") {
        Advice::DropByName
    } else {
        other
    }
}

/// By what stands behind two words.
fn advice_of_pair(behind: &[u8], other: Advice) -> Advice
    ensures { result ≡ advice_of_pair behind.now other }
{
    if begins(behind, b"=") {
        Advice::Declaration
    } else if begins(behind, b";") {
        Advice::Parentheses
    } else {
        other
    }
}

/// By a word behind a name alone.
fn advice_of_two(before: &[u8], rest: &[u8], other: Advice) -> Advice
    ensures { result ≡ advice_of_two before.now rest.now other }
{
    if is_word(first_word(rest)) && is_alone(before) {
        return advice_of_pair(behind_first(rest), other);
    }
    other
}

/// By a type behind a name alone.
fn advice_at_colon(before: &[u8], rest: &[u8], other: Advice) -> Advice
    ensures { result ≡ advice_at_colon before.now rest.now other }
{
    if begins(rest, b":") && is_alone(before) {
        return Advice::Declaration;
    }
    other
}

/// By a declaration outside of methods.
fn advice_of_global(before: &[u8], there: &[u8], other: Advice) -> Advice
    ensures { result ≡ advice_of_global before.now there.now other }
{
    if is_outside(before) && is_binding(there) {
        return Advice::SharedNumber;
    }
    other
}

/// By a `}` before the fault.
fn advice_behind_brace(depth: usize, rest: &[u8], other: Advice) -> Advice
    ensures { result ≡ advice_behind_brace depth rest.now other }
{
    if depth != 0 {
        return other;
    }
    if begins(rest, b"}") {
        Advice::ClosesNothing
    } else {
        Advice::Outside
    }
}

/// By the word that a text begins with.
fn advice_at_front(word: &[u8]) -> Advice
    ensures { result ≡ advice_at_front word.now }
{
    if is_spelled(word, b"x10log") {
        Advice::Log
    } else {
        Advice::Program
    }
}

/// By nothing, a `}` or a `:` before the fault.
#[tactic(auto, unfolding(crate::specs::Repairs::advice_behind_sign))]
fn advice_behind_sign(depth: usize, before: &[u8], rest: &[u8], other: Advice) -> Advice
    ensures { result ≡ advice_behind_sign depth before.now rest.now other }
{
    match before {
        [] => advice_at_front(first_word(rest)),
        [_, ..] => {
            if ends(before, b"}") {
                advice_behind_brace(depth, rest, other)
            } else if ends(before, b":") {
                Advice::Types
            } else {
                other
            }
        }
    }
}

/// Whether the head of a method stands there.
fn is_def(head: Head) -> bool
    ensures { result ≡ is_def head }
{
    match head {
        Head::Def => true,
        _ => false,
    }
}

/// By what stands among parameters, or behind them.
#[tactic(auto, unfolding(crate::specs::Repairs::advice_in_def))]
fn advice_in_def(head: Head, before: &[u8], rest: &[u8], other: Advice) -> Advice
    ensures { result ≡ advice_in_def head before.now rest.now other }
{
    if is_def(head) && is_pair(before, rest, b")", b":") {
        Advice::MethodBrace
    } else if is_def(head) && is_listed(before) {
        Advice::Parameter
    } else {
        other
    }
}

/// By a `:` before the body of a statement.
#[tactic(auto, unfolding(crate::specs::Repairs::advice_before_body))]
fn advice_before_body(before: &[u8], rest: &[u8], other: Advice) -> Advice
    ensures { result ≡ advice_before_body before.now rest.now other }
{
    if begins(rest, b":") && (ends(before, b")") || is_spelled(last_word(before), b"else")) {
        Advice::BodyBraces
    } else {
        other
    }
}

/// By a method of a clock.
#[tactic(auto, unfolding(crate::specs::Repairs::advice_of_verb))]
fn advice_of_verb(word: &[u8], other: Advice) -> Advice
    ensures { result ≡ advice_of_verb word.now other }
{
    if is_spelled(word, b"resume") || is_spelled(word, b"drop") {
        Advice::NamedClock
    } else if is_spelled(word, b"make") {
        Advice::ClockCalls
    } else {
        other
    }
}

/// By the statement.
fn advice_of_head(head: Head, other: Advice) -> Advice
    ensures { result ≡ advice_of_head head other }
{
    match head {
        Head::For => Advice::Bounds,
        Head::If => Advice::Comparison,
        Head::Binding => Advice::OneName,
        Head::Shared => Advice::SharedNumber,
        Head::Atomic => Advice::OneAddition,
        Head::Def => Advice::MethodHead,
        Head::Print => Advice::Print,
        Head::Clock => Advice::ClockCalls,
        Head::Async => Advice::Clocked,
        _ => other,
    }
}

/// By what stands behind a member of something.
fn advice_of_member(behind: &[u8]) -> Advice
    ensures { result ≡ advice_of_member behind.now }
{
    if begins(behind, b"(") {
        Advice::NamedClock
    } else {
        Advice::NoObjects
    }
}

/// By a point before the fault.
fn advice_behind_point(before: &[u8], rest: &[u8], other: Advice) -> Advice
    ensures { result ≡ advice_behind_point before.now rest.now other }
{
    if ends(before, b".") {
        return advice_of_member(behind_first(rest));
    }
    other
}

/// By a name alone before a `;`.
#[tactic(auto, unfolding(crate::specs::Repairs::advice_of_lone))]
fn advice_of_lone(before: &[u8], rest: &[u8], other: Advice) -> Advice
    ensures { result ≡ advice_of_lone before.now rest.now other }
{
    if begins(rest, b";") && is_alone(before) {
        if is_barrier(last_word(before)) {
            Advice::AdvanceAll
        } else {
            Advice::Parentheses
        }
    } else {
        other
    }
}

/// By what stands there, with so many `{` open.
fn further_there(head: Head, depth: usize, before: &[u8], rest: &[u8]) -> Advice
    ensures { result ≡ further_there head depth before.now rest.now }
{
    let word = first_word(rest);
    let other = advice_behind_point(before, rest, advice_of_lone(before, rest, Advice::Usual));
    let other = advice_of_verb(last_word(before), advice_of_head(head, other));
    let other = advice_in_def(head, before, rest, advice_before_body(before, rest, other));
    let other = advice_behind_sign(depth, before, rest, other);
    let other = advice_at_colon(before, rest, advice_of_global(before, word, other));
    let other = advice_at_method(word, advice_of_two(before, rest, other));
    let other = advice_at_long(head, word, advice_at_call(word, other));
    let other = advice_at_array(head, word, other);
    advice_of_outside(depth, rest, advice_at_word(word, other))
}

/// Where a token can't stand, and nothing else calls for a repair.
pub(crate) fn further_syntax_advice(head: Head, depth: usize, before: &[u8], rest: &[u8]) -> Advice
    ensures { result ≡ further_syntax_advice head depth before.now rest.now }
{
    let other = further_there(head, depth, to_sign(before), rest);
    advice_at_end(rest, advice_behind_line(before, other))
}

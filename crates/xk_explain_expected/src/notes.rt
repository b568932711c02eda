//! What is told beside a fault.

ghost use Rattle.std.specs.Prelude.{◌≡◌, Some, map, option_map, IfOk};
ghost use Rattle.xk_lexer.specs.Lexing.{lexed};
ghost use Rattle.xk_lexer.specs.Tokens.{token_value};
ghost use Rattle.xk_explain_expected.specs.Expected.{is_misplaced, is_single, only_text, stack_at, stack_text, write_text};
ghost use Rattle.xk_explain_expected.specs.Missing.{tokens_from};
ghost use Rattle.xk_explain_expected.specs.Notes.{expected_notes, only_if, sign_repair, stack_note, stack_notes, stack_repair};
ghost use Rattle.xk_explain_expected.specs.Notes.{token_repair};

use crate::choices::{Choice, choices, choices_text};
use crate::grammar::Symbol;
use crate::machine::stack_at;
use crate::missing::{first_terminal, missing, missing_text, second_terminal, tokens_from};
use crate::terminal::{Terminal, terminal_text};
use std::alloc::{AllocError, Global};
use xk_explain::Note;
use xk_explain_brackets::{bracket_repair, closes_nothing, push_bracket};
use xk_explain_repairs::{further_advice_at, is_usual};
use xk_lexer::Token;
use xk_tree::{FrontFault, FrontRule};

/// Whether the rule is that of a token that can't stand where it stands.
fn is_misplaced(rule: FrontRule) -> bool
    ensures { result ≡ is_misplaced rule }
{
    match rule {
        FrontRule::Syntax => true,
        FrontRule::Token
        | FrontRule::TooDeep
        | FrontRule::TooLong
        | FrontRule::UnknownName
        | FrontRule::DuplicateName
        | FrontRule::WrongKind
        | FrontRule::NotCaptured
        | FrontRule::NoMain
        | FrontRule::Recursive
        | FrontRule::Arity
        | FrontRule::SameClockTwice
        | FrontRule::Literal
        | FrontRule::Table
        | FrontRule::NoHiddenClock => false,
    }
}

/// Whether a token has one spelling.
fn is_single(t: Terminal) -> bool
    ensures { result ≡ is_single t }
{
    match t {
        Terminal::Comparison
        | Terminal::Binding
        | Terminal::Verb
        | Terminal::Name
        | Terminal::Digits
        | Terminal::End
        | Terminal::Unfit => false,
        _ => true,
    }
}

/// The token to write.
#[tactic(auto, unfolding(crate::specs::Expected::write_text))]
fn write_text(alloc: Global, t: Terminal) -> Result<Vec<u8>, AllocError>
    ensures { IfOk result (λ v. v.items ≡ write_text t) }
{
    let mut out = Vec::new(alloc);
    out.extend_from_slice(b"write ")?;
    out.extend_from_slice(terminal_text(t).as_bytes())?;
    out.extend_from_slice(b" here")?;
    Ok(out)
}

/// The repair where one token alone could stand.
fn only_text(alloc: Global, choices: &[Choice]) -> Result<Option<Vec<u8>>, AllocError>
    ensures { IfOk result (λ o. option_map (λ v. v.items) o ≡ only_text choices.now) }
{
    match choices {
        [Choice::One(t)] => {
            if is_single(*t) {
                Ok(Some(write_text(alloc, *t)?))
            } else {
                Ok(None)
            }
        }
        _ => Ok(None),
    }
}

/// The one token that could stand, if nothing is advised for what stands there.
fn only_if(alloc: Global, usual: bool, stack: &[Symbol]) -> Result<Option<Vec<u8>>, AllocError>
    ensures { IfOk result (λ o. option_map (λ v. v.items) o ≡ only_if usual stack.now) }
{
    if !usual {
        return Ok(None);
    }
    let found = choices(alloc, stack)?;
    only_text(alloc, &found)
}

/// One sign that is missing before a token, or the one token that could stand in its place.
fn token_repair(
    alloc: Global,
    usual: bool,
    stack: &[Symbol],
    next: &[Token<'_>],
) -> Result<Option<Vec<u8>>, AllocError>
    ensures { IfOk result (λ o. option_map (λ v. v.items) o
        ≡ token_repair usual stack.now (map token_value next.now)) }
{
    let signs = missing(alloc, stack, first_terminal(next), second_terminal(next))?;
    match missing_text(alloc, &signs)? {
        Some(repair) => Ok(Some(repair)),
        None => only_if(alloc, usual, stack),
    }
}

/// The same, if the text doesn't end there.
fn sign_repair(
    alloc: Global,
    usual: bool,
    stack: &[Symbol],
    next: &[Token<'_>],
) -> Result<Option<Vec<u8>>, AllocError>
    ensures { IfOk result (λ o. option_map (λ v. v.items) o
        ≡ sign_repair usual stack.now (map token_value next.now)) }
{
    match next {
        [] => Ok(None),
        [_, ..] => token_repair(alloc, usual, stack, next),
    }
}

/// The repair: take away a `)` that closes nothing, write a `}` where it is missing, or write what is missing at the fault.
fn stack_repair(
    alloc: Global,
    text: &[u8],
    at: usize,
    tokens: &[Token<'_>],
    stack: &[Symbol],
) -> Result<Option<Vec<u8>>, AllocError>
    ensures { IfOk result (λ o. option_map (λ v. v.items) o ≡ stack_repair text.now at
        (map token_value tokens.now) stack.now (tokens_from at (map token_value tokens.now))) }
{
    let next = tokens_from(at, tokens);
    if closes_nothing(alloc, text, at, tokens)? {
        return Ok(Some(
            "take this `)` away: no `(` is open"
                .as_bytes()
                .to_vec(alloc)?,
        ));
    }
    if let Some(repair) = bracket_repair(alloc, text, at, tokens)? {
        return Ok(Some(repair));
    }
    let further = further_advice_at(alloc, text, FrontRule::Syntax, at.min(text.len()))?;
    sign_repair(alloc, is_usual(further), stack, next)
}

/// The note on what could stand.
fn stack_note(
    alloc: Global,
    text: &[u8],
    at: usize,
    tokens: &[Token<'_>],
    stack: &[Symbol],
) -> Result<Note, AllocError>
    ensures { IfOk result (λ n. n ≡ stack_note stack.now (stack_repair text.now at
        (map token_value tokens.now) stack.now (tokens_from at (map token_value tokens.now)))) }
{
    let words = stack_text(alloc, stack)?;
    let repair = stack_repair(alloc, text, at, tokens, stack)?;
    Ok(Note {
        at: None,
        text: words,
        repair,
    })
}

/// What is told of a stack.
#[tactic(auto, unfolding(crate::specs::Expected::stack_text))]
fn stack_text(alloc: Global, stack: &[Symbol]) -> Result<Vec<u8>, AllocError>
    ensures { IfOk result (λ v. v.items ≡ stack_text stack.now) }
{
    let found = choices(alloc, stack)?;
    choices_text(alloc, &found)
}

/// The notes on a stack: what could stand, and the bracket that isn't closed.
fn stack_notes(
    alloc: Global,
    text: &[u8],
    at: usize,
    tokens: &[Token<'_>],
    stack: &[Symbol],
) -> Result<Vec<Note>, AllocError>
    ensures { IfOk result (λ notes. notes.items
        ≡ stack_notes text.now at (map token_value tokens.now) (Some stack.now)) }
{
    let mut notes = Vec::new(alloc);
    notes.push(stack_note(alloc, text, at, tokens, stack)?)?;
    push_bracket(alloc, &mut notes, text, at, tokens)?;
    Ok(notes)
}

/// The notes beside a token that can't stand at an offset of a text.
fn notes_at(alloc: Global, text: &[u8], at: usize) -> Result<Vec<Note>, AllocError>
    ensures { IfOk result (λ notes. notes.items
        ≡ stack_notes text.now at (lexed text.now) (stack_at text.now at)) }
{
    let tokens = xk_lexer::tokens(alloc, text)?;
    match stack_at(alloc, text, at)? {
        Some(stack) => stack_notes(alloc, text, at, &tokens, &stack),
        None => Ok(Vec::new(alloc)),
    }
}

/// What could stand at the fault of a text, as notes: of F2 what the grammar takes there, of any other fault none.
/// Err where memory was refused.
pub fn expected_notes(
    alloc: Global,
    text: &[u8],
    fault: FrontFault,
) -> Result<Vec<Note>, AllocError>
    ensures { IfOk result (λ notes. notes.items ≡ expected_notes text.now fault) }
{
    if !is_misplaced(fault.rule) {
        return Ok(Vec::new(alloc));
    }
    notes_at(alloc, text, fault.at)
}

//! What is missing before a token that can't stand where it stands.

ghost use Rattle.std.specs.Prelude.{◌≡◌, drop, filter, map, option_map, IfOk};
ghost use Rattle.xk_lexer.specs.Tokens.{token_value};
ghost use Rattle.xk_explain_expected.specs.Expected.{told_alone};
ghost use Rattle.xk_explain_expected.specs.Missing.{before_text, both_fit, first_terminal, fits_on, is_brace, is_missing, is_semicolon};
ghost use Rattle.xk_explain_expected.specs.Missing.{joins, may_join, missing, missing_text, second_fits, second_terminal, tokens_from};

use crate::choices::told_alone;
use crate::grammar::Symbol;
use crate::machine::{taken, takes};
use crate::terminal::{Terminal, terminal_of, terminal_text};
use std::alloc::{AllocError, Global};
use xk_lexer::Token;

/// The tokens that don't stand before an offset.
pub(crate) fn tokens_from<'a, 't>(at: usize, tokens: &'a [Token<'t>]) -> &'a [Token<'t>]
    ensures { map token_value result.now ≡ tokens_from at (map token_value tokens.now) }
{
    let mut rest = tokens;
    while let [first, after @ ..] = rest {
        if first.at >= at {
            break;
        }
        rest = after;
    }
    rest
}

/// The first of these tokens, or the end of the text.
pub(crate) fn first_terminal(tokens: &[Token<'_>]) -> Terminal
    ensures { result ≡ first_terminal (map token_value tokens.now) }
{
    match tokens {
        [] => Terminal::End,
        [first, ..] => terminal_of(first.kind),
    }
}

/// The one behind it, unless the first is the end.
pub(crate) fn second_terminal(tokens: &[Token<'_>]) -> Option<Terminal>
    ensures { result ≡ second_terminal (map token_value tokens.now) }
{
    match tokens {
        [] => None,
        [_, rest @ ..] => Some(first_terminal(rest)),
    }
}

/// Whether a sign or a word stands between others.
fn joins(t: Terminal) -> bool
    ensures { result ≡ joins t }
{
    match t {
        Terminal::Semicolon
        | Terminal::Comma
        | Terminal::RightParen
        | Terminal::RightBrace
        | Terminal::LeftParen
        | Terminal::LeftBrace
        | Terminal::Colon
        | Terminal::Dot
        | Terminal::DotDot
        | Terminal::In => true,
        _ => false,
    }
}

/// Whether it is a `{`.
fn is_brace(t: Terminal) -> bool
    ensures { result ≡ is_brace t }
{
    matches!(t, Terminal::LeftBrace)
}

/// Whether it is a `;`.
fn is_semicolon(t: Terminal) -> bool
    ensures { result ≡ is_semicolon t }
{
    matches!(t, Terminal::Semicolon)
}

/// Whether a token may be missing before this one.
fn may_join(t: Terminal, first: Terminal) -> bool
    ensures { result ≡ may_join t first }
{
    joins(t) && !(is_semicolon(t) && is_brace(first))
}

/// Whether a token can stand on a stack, if there is one.
fn second_fits(stack: Option<Vec<Symbol>>, t: Terminal) -> bool
    ensures { result ≡ second_fits (option_map (λ v. v.items) stack) t }
{
    match stack {
        None => false,
        Some(stack) => takes(&stack, t),
    }
}

/// Whether these can stand here, one behind the other.
fn both_fit(
    alloc: Global,
    stack: &[Symbol],
    first: Terminal,
    second: Option<Terminal>,
) -> Result<bool, AllocError>
    ensures { IfOk result (λ fit. fit ≡ both_fit stack.now first second) }
{
    match second {
        None => Ok(takes(stack, first)),
        Some(t) => {
            let next = taken(alloc, stack, first)?;
            Ok(second_fits(next, t))
        }
    }
}

/// The same behind a token, if it could stand here.
fn fits_on(
    alloc: Global,
    stack: Option<Vec<Symbol>>,
    first: Terminal,
    second: Option<Terminal>,
) -> Result<bool, AllocError>
    ensures { IfOk result
        (λ fit. fit ≡ fits_on (option_map (λ v. v.items) stack) first second) }
{
    match stack {
        None => Ok(false),
        Some(stack) => both_fit(alloc, &stack, first, second),
    }
}

/// Whether a token may be missing before these.
fn is_missing(
    alloc: Global,
    stack: &[Symbol],
    first: Terminal,
    second: Option<Terminal>,
    t: Terminal,
) -> Result<bool, AllocError>
    ensures { IfOk result (λ is. is ≡ is_missing stack.now first second t) }
{
    if !may_join(t, first) {
        return Ok(false);
    }
    let next = taken(alloc, stack, t)?;
    fits_on(alloc, next, first, second)
}

/// Those that may be missing before these. Err where memory was refused.
pub(crate) fn missing(
    alloc: Global,
    stack: &[Symbol],
    first: Terminal,
    second: Option<Terminal>,
) -> Result<Vec<Terminal>, AllocError>
    ensures { IfOk result (λ found. found.items ≡ missing stack.now first second) }
{
    let mut found = Vec::new(alloc);
    for t in told_alone() {
        if is_missing(alloc, stack, first, second, *t)? {
            found.push(*t)?;
        }
    }
    Ok(found)
}

/// The token to write before another one.
#[tactic(auto, unfolding(crate::specs::Missing::before_text))]
fn before_text(alloc: Global, t: Terminal) -> Result<Vec<u8>, AllocError>
    ensures { IfOk result (λ v. v.items ≡ before_text t) }
{
    let mut out = Vec::new(alloc);
    out.extend_from_slice(b"write ")?;
    out.extend_from_slice(terminal_text(t).as_bytes())?;
    out.extend_from_slice(b" before it")?;
    Ok(out)
}

/// The repair where one sign alone is missing. Err where memory was refused.
pub(crate) fn missing_text(alloc: Global, found: &[Terminal]) -> Result<Option<Vec<u8>>, AllocError>
    ensures { IfOk result (λ o. option_map (λ v. v.items) o ≡ missing_text found.now) }
{
    match found {
        [t] => Ok(Some(before_text(alloc, *t)?)),
        _ => Ok(None),
    }
}

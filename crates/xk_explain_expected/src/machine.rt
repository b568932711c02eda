//! The machine: the stack behind a token, and which tokens it takes.

ghost use Rattle.std.specs.Prelude.{◌≡◌, [], ◌∷◌, ◌++◌, map, reverse, Some, None, option_map, if◌then◌else◌, IfOk, OnOk};
ghost use Rattle.xk_lexer.specs.Tokens.{token_value};
ghost use Rattle.xk_explain_expected.specs.Expected.{stack_at, taken, taken_before, takes};
ghost use Rattle.xk_explain_expected.specs.declared.grammar.Symbol.TheVariants as symbol;

use crate::grammar::{Entry, Symbol, produced};
use crate::terminal::{Terminal, terminal_of};
use std::alloc::{AllocError, Global};
use xk_lexer::Token;

/// Whether a token can stand on a stack whose top comes first.
pub(crate) fn takes(stack: &[Symbol], t: Terminal) -> bool
    ensures { result ≡ takes stack.now t }
{
    for symbol in stack {
        match produced(*symbol, t) {
            Entry::Refused => return false,
            Entry::Skipped => {}
            Entry::Behind(_, _) => return true,
        }
    }
    false
}

/// Puts symbols on a stack whose top comes last: the first of them is its top then.
fn put(stack: &mut Vec<Symbol>, row: &[Symbol]) -> Result<(), AllocError>
    ensures { OnOk result (reverse stack.new.items ≡ row.now ++ reverse stack.old.items) }
{
    let mut rest = row;
    while let Some((last, before)) = rest.split_last() {
        stack.push(*last)?;
        rest = before;
    }
    Ok(())
}

/// Takes a token off a stack whose top comes last; false where it can't stand here.
fn take(stack: &mut Vec<Symbol>, t: Terminal) -> Result<bool, AllocError>
    ensures { IfOk result (λ fits. taken (reverse stack.old.items) t
        ≡ if fits then Some (reverse stack.new.items) else None) }
{
    while let Some(top) = stack.pop() {
        match produced(top, t) {
            Entry::Refused => return Ok(false),
            Entry::Skipped => {}
            Entry::Behind(row, more) => {
                put(stack, more)?;
                put(stack, row)?;
                return Ok(true);
            }
        }
    }
    Ok(false)
}

/// The stack behind a token, if it can stand here. Err where memory was refused.
pub(crate) fn taken(
    alloc: Global,
    stack: &[Symbol],
    t: Terminal,
) -> Result<Option<Vec<Symbol>>, AllocError>
    ensures { IfOk result (λ o. option_map (λ v. v.items) o ≡ taken stack.now t) }
{
    let mut next = stack.to_vec(alloc)?;
    next.reverse();
    if !take(&mut next, t)? {
        return Ok(None);
    }
    next.reverse();
    Ok(Some(next))
}

/// The stack behind those tokens that stand before an offset, if they can stand so.
fn stack_before(
    alloc: Global,
    tokens: &[Token<'_>],
    at: usize,
) -> Result<Option<Vec<Symbol>>, AllocError>
    ensures { IfOk result (λ o. option_map (λ v. v.items) o
        ≡ taken_before at (symbol.Program ∷ []) (map token_value tokens.now)) }
{
    let mut stack = Vec::new(alloc);
    stack.push(Symbol::Program)?;
    for token in tokens {
        if token.at >= at {
            break;
        }
        if !take(&mut stack, terminal_of(token.kind))? {
            return Ok(None);
        }
    }
    stack.reverse();
    Ok(Some(stack))
}

/// What stands on the stack at an offset of a text, if the tokens up to there can stand so. Err where memory was refused.
#[tactic(auto, unfolding(crate::specs::Expected::stack_at))]
pub(crate) fn stack_at(
    alloc: Global,
    text: &[u8],
    at: usize,
) -> Result<Option<Vec<Symbol>>, AllocError>
    ensures { IfOk result (λ o. option_map (λ v. v.items) o ≡ stack_at text.now at) }
{
    let tokens = xk_lexer::tokens(alloc, text)?;
    stack_before(alloc, &tokens, at)
}

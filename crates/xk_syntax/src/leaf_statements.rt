//! Statements that hold no other, behind their first token.

ghost use Rattle.std.specs.Prelude.{Some};
ghost use Rattle.xk_tree.specs.Tree.{source, statement, word};
ghost use Rattle.xk_exprs.specs.Marks.{marks};
ghost use Rattle.xk_exprs.specs.ReaderCombinators.{Gives};
ghost use Rattle.xk_syntax.specs.Readers.{bind, verb_at, bare_verb_at, act_at, type_part_at, source_at, declare_at, atomic_at, advance_at, print_head_at, print_at, call_at, dotted_at, assign_at, named_at};

use crate::lists::args;
use crate::token_readers::{
    after_sign, clock_word, name, need_open, need_plus, need_sign, need_word, open_paren,
    this_word, type_name,
};
use std::alloc::Global;
use xk_exprs::{SyntaxError, read_expr, read_term};
use xk_lexer::{Sign, Token};
use xk_tree::{Binding, Name, Right, Stmt, TypeName, Verb};

/// `word (`.
#[tactic(auto, unfolding(crate::specs::Readers::bind, crate::specs::Readers::verb_at))]
pub(crate) fn verb<'s, 't>(
    text: &[u8],
    tokens: &'s [Token<'t>],
    end: usize,
) -> Result<(Verb, &'s [Token<'t>]), SyntaxError>
    ensures { Gives (λ x. (x.0, marks x.1.now)) result (verb_at text.now (marks tokens.now)) }
{
    let (at, rest) = need_word(text, tokens, end)?;
    let (paren, rest) = need_open(rest, end)?;
    Ok((Verb { at, paren }, rest))
}

/// `word ()`.
#[tactic(auto, unfolding(crate::specs::Readers::bind, crate::specs::Readers::bare_verb_at))]
fn bare_verb<'s, 't>(
    text: &[u8],
    tokens: &'s [Token<'t>],
    end: usize,
) -> Result<(Verb, &'s [Token<'t>]), SyntaxError>
    ensures { Gives (λ x. (x.0, marks x.1.now)) result (bare_verb_at text.now (marks tokens.now)) }
{
    let (verb, rest) = verb(text, tokens, end)?;
    let rest = need_sign(Sign::RightParen, rest, end)?;
    Ok((verb, rest))
}

/// `. word ()`.
#[tactic(auto, unfolding(crate::specs::Readers::bind, crate::specs::Readers::act_at))]
fn act<'s, 't>(
    text: &[u8],
    tokens: &'s [Token<'t>],
    end: usize,
) -> Result<(Verb, &'s [Token<'t>]), SyntaxError>
    ensures { Gives (λ x. (x.0, marks x.1.now)) result (act_at text.now (marks tokens.now)) }
{
    let rest = need_sign(Sign::Dot, tokens, end)?;
    bare_verb(text, rest, end)
}

/// `: T`, if there is one.
#[tactic(auto, unfolding(crate::specs::Readers::bind, crate::specs::Readers::type_part_at))]
fn type_part<'s, 't>(
    tokens: &'s [Token<'t>],
    end: usize,
) -> Result<(Option<TypeName>, &'s [Token<'t>]), SyntaxError>
    ensures { Gives (λ x. (x.0, marks x.1.now)) result (type_part_at (marks tokens.now)) }
{
    match after_sign(Sign::Colon, tokens) {
        None => Ok((None, tokens)),
        Some(rest) => {
            let (name, rest) = type_name(rest, end)?;
            Ok((Some(name), rest))
        }
    }
}

/// What stands behind the `=` of a declaration.
#[tactic(auto, unfolding(crate::specs::Readers::bind, crate::specs::Readers::source_at))]
fn right<'s, 't>(
    alloc: Global,
    levels: u32,
    tokens: &'s [Token<'t>],
    end: usize,
) -> Result<(Right<'t>, &'s [Token<'t>]), SyntaxError>
    ensures { Gives (λ x. (source x.0, marks x.1.now)) result
        (source_at levels (marks tokens.now)) }
{
    match clock_word(tokens) {
        Some((at, rest)) => {
            let (verb, rest) = act(b"make", rest, end)?;
            Ok((Right::Make(at, verb), rest))
        }
        None => {
            let (expr, rest) = read_expr(alloc, levels, tokens, end)?;
            Ok((Right::Expr(expr), rest))
        }
    }
}

/// A `val` or a `var`.
#[tactic(auto, unfolding(crate::specs::Readers::bind, crate::specs::Readers::declare_at))]
pub(crate) fn declaration<'s, 't>(
    alloc: Global,
    levels: u32,
    binding: Binding,
    tokens: &'s [Token<'t>],
    end: usize,
) -> Result<(Stmt<'t>, &'s [Token<'t>]), SyntaxError>
    ensures { Gives (λ x. (statement x.0, marks x.1.now)) result
        (declare_at levels binding (marks tokens.now)) }
{
    let (name, rest) = name(tokens, end)?;
    let (ty, rest) = type_part(rest, end)?;
    let rest = need_sign(Sign::Assign, rest, end)?;
    let (right, rest) = right(alloc, levels, rest, end)?;
    let rest = need_sign(Sign::Semicolon, rest, end)?;
    Ok((Stmt::Declare(binding, name, ty, right), rest))
}

/// An `atomic`.
#[tactic(auto, unfolding(crate::specs::Readers::bind, crate::specs::Readers::atomic_at))]
pub(crate) fn atomic<'s, 't>(
    alloc: Global,
    levels: u32,
    tokens: &'s [Token<'t>],
    end: usize,
) -> Result<(Stmt<'t>, &'s [Token<'t>]), SyntaxError>
    ensures { Gives (λ x. (statement x.0, marks x.1.now)) result
        (atomic_at levels (marks tokens.now)) }
{
    let (target, rest) = name(tokens, end)?;
    let rest = need_sign(Sign::Assign, rest, end)?;
    let (again, rest) = name(rest, end)?;
    let (plus, rest) = need_plus(rest, end)?;
    let (term, rest) = read_term(alloc, levels, rest, end)?;
    let rest = need_sign(Sign::Semicolon, rest, end)?;
    Ok((Stmt::Atomic(target, again, plus, term), rest))
}

/// `Clock.advanceAll();`, with the offset of its `Clock`.
#[tactic(auto, unfolding(crate::specs::Readers::bind, crate::specs::Readers::advance_at))]
pub(crate) fn advance_all<'s, 't>(
    at: usize,
    tokens: &'s [Token<'t>],
    end: usize,
) -> Result<(Stmt<'t>, &'s [Token<'t>]), SyntaxError>
    ensures { Gives (λ x. (statement x.0, marks x.1.now)) result
        (advance_at at (marks tokens.now)) }
{
    let (verb, rest) = act(b"advanceAll", tokens, end)?;
    let rest = need_sign(Sign::Semicolon, rest, end)?;
    Ok((Stmt::AdvanceAll(at, verb), rest))
}

/// `. OUT . println (`, and the offset of `OUT`.
#[tactic(auto, unfolding(crate::specs::Readers::bind, crate::specs::Readers::print_head_at))]
fn print_head<'s, 't>(
    tokens: &'s [Token<'t>],
    end: usize,
) -> Result<((usize, Verb), &'s [Token<'t>]), SyntaxError>
    ensures { Gives (λ x. (x.0, marks x.1.now)) result (print_head_at (marks tokens.now)) }
{
    let rest = need_sign(Sign::Dot, tokens, end)?;
    let (at, rest) = need_word(b"OUT", rest, end)?;
    let rest = need_sign(Sign::Dot, rest, end)?;
    let (verb, rest) = verb(b"println", rest, end)?;
    Ok(((at, verb), rest))
}

/// A `println`.
#[tactic(auto, unfolding(crate::specs::Readers::bind, crate::specs::Readers::print_at))]
pub(crate) fn print<'s, 't>(
    alloc: Global,
    levels: u32,
    tokens: &'s [Token<'t>],
    end: usize,
) -> Result<(Stmt<'t>, &'s [Token<'t>]), SyntaxError>
    ensures { Gives (λ x. (statement x.0, marks x.1.now)) result
        (print_at levels (marks tokens.now)) }
{
    let ((at, verb), rest) = print_head(tokens, end)?;
    let (expr, rest) = read_expr(alloc, levels, rest, end)?;
    let rest = need_sign(Sign::RightParen, rest, end)?;
    let rest = need_sign(Sign::Semicolon, rest, end)?;
    Ok((Stmt::Print(at, verb, expr), rest))
}

/// `resume ();` or `drop ();`, behind the clock's name and the `.`.
#[tactic(auto, unfolding(crate::specs::Readers::bind, crate::specs::Readers::dotted_at))]
fn dotted<'s, 't>(
    clock: Name<'t>,
    tokens: &'s [Token<'t>],
    end: usize,
) -> Result<(Stmt<'t>, &'s [Token<'t>]), SyntaxError>
    ensures { Gives (λ x. (statement x.0, marks x.1.now)) result
        (dotted_at (word clock.entry) (marks tokens.now)) }
{
    match this_word(b"resume", tokens) {
        Some(_) => {
            let (verb, rest) = bare_verb(b"resume", tokens, end)?;
            let rest = need_sign(Sign::Semicolon, rest, end)?;
            Ok((Stmt::Resume(clock, verb), rest))
        }
        None => {
            let (verb, rest) = bare_verb(b"drop", tokens, end)?;
            let rest = need_sign(Sign::Semicolon, rest, end)?;
            Ok((Stmt::Drop(clock, verb), rest))
        }
    }
}

/// An assignment, behind the name.
#[tactic(auto, unfolding(crate::specs::Readers::bind, crate::specs::Readers::assign_at))]
fn assignment<'s, 't>(
    alloc: Global,
    levels: u32,
    target: Name<'t>,
    tokens: &'s [Token<'t>],
    end: usize,
) -> Result<(Stmt<'t>, &'s [Token<'t>]), SyntaxError>
    ensures { Gives (λ x. (statement x.0, marks x.1.now)) result
        (assign_at levels (word target.entry) (marks tokens.now)) }
{
    let rest = need_sign(Sign::Assign, tokens, end)?;
    let (expr, rest) = read_expr(alloc, levels, rest, end)?;
    let rest = need_sign(Sign::Semicolon, rest, end)?;
    Ok((Stmt::Assign(target, expr), rest))
}

/// A call, behind its `(`.
#[tactic(auto, unfolding(crate::specs::Readers::bind, crate::specs::Readers::call_at))]
fn call<'s, 't>(
    alloc: Global,
    levels: u32,
    method: Name<'t>,
    paren: usize,
    tokens: &'s [Token<'t>],
    end: usize,
) -> Result<(Stmt<'t>, &'s [Token<'t>]), SyntaxError>
    ensures { Gives (λ x. (statement x.0, marks x.1.now)) result
        (call_at levels (word method.entry) (paren, marks tokens.now)) }
{
    let (args, rest) = args(alloc, levels, tokens, end)?;
    let rest = need_sign(Sign::Semicolon, rest, end)?;
    Ok((Stmt::Call(method, paren, args), rest))
}

/// A statement that begins with a name, behind it.
#[tactic(auto, unfolding(crate::specs::Readers::named_at))]
pub(crate) fn named<'s, 't>(
    alloc: Global,
    levels: u32,
    name: Name<'t>,
    tokens: &'s [Token<'t>],
    end: usize,
) -> Result<(Stmt<'t>, &'s [Token<'t>]), SyntaxError>
    ensures { Gives (λ x. (statement x.0, marks x.1.now)) result
        (named_at levels (word name.entry) (marks tokens.now)) }
{
    if let Some((paren, rest)) = open_paren(tokens) {
        return call(alloc, levels, name, paren, rest, end);
    }
    match after_sign(Sign::Dot, tokens) {
        Some(rest) => dotted(name, rest, end),
        None => assignment(alloc, levels, name, tokens, end),
    }
}

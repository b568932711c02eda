//! Lists with commas between their items.

ghost use Rattle.std.specs.Prelude.{map};
ghost use Rattle.xk_tree.specs.Tree.{expressions, words, param_value};
ghost use Rattle.xk_exprs.specs.Marks.{marks};
ghost use Rattle.xk_exprs.specs.ReaderCombinators.{Gives};
ghost use Rattle.xk_exprs.specs.ExprReaders.{whole_at};
ghost use Rattle.xk_syntax.specs.Readers.{bind, commas_at, listed_at, word_at, param_at};

use crate::token_readers::{after_sign, name, need_sign, type_name};
use std::alloc::Global;
use xk_exprs::{SyntaxError, read_expr};
use xk_lexer::{Sign, Token};
use xk_tree::{Expr, Name, Param};

/// Names.
pub(crate) fn names<'s, 't>(
    alloc: Global,
    tokens: &'s [Token<'t>],
    end: usize,
) -> Result<(Vec<Name<'t>>, &'s [Token<'t>]), SyntaxError>
    ensures { Gives (λ x. (words x.0.items, marks x.1.now)) result
        (commas_at word_at (marks tokens.now)) }
{
    let mut names = Vec::new(alloc);
    let (first, mut rest) = name(tokens, end)?;
    names.push(first)?;
    while let Some(after) = after_sign(Sign::Comma, rest) {
        let (another, left) = name(after, end)?;
        names.push(another)?;
        rest = left;
    }
    Ok((names, rest))
}

/// Expressions, where so many levels are left.
fn exprs<'s, 't>(
    alloc: Global,
    levels: u32,
    tokens: &'s [Token<'t>],
    end: usize,
) -> Result<(Vec<Expr<'t>>, &'s [Token<'t>]), SyntaxError>
    ensures { Gives (λ x. (expressions x.0.items, marks x.1.now)) result
        (commas_at (whole_at levels) (marks tokens.now)) }
{
    let mut exprs = Vec::new(alloc);
    let (first, mut rest) = read_expr(alloc, levels, tokens, end)?;
    exprs.push(first)?;
    while let Some(after) = after_sign(Sign::Comma, rest) {
        let (another, left) = read_expr(alloc, levels, after, end)?;
        exprs.push(another)?;
        rest = left;
    }
    Ok((exprs, rest))
}

/// The arguments of a call, behind its `(`, and the `)`.
#[tactic(auto, unfolding(crate::specs::Readers::bind, crate::specs::Readers::listed_at))]
pub(crate) fn args<'s, 't>(
    alloc: Global,
    levels: u32,
    tokens: &'s [Token<'t>],
    end: usize,
) -> Result<(Vec<Expr<'t>>, &'s [Token<'t>]), SyntaxError>
    ensures { Gives (λ x. (expressions x.0.items, marks x.1.now)) result
        (listed_at (whole_at levels) (marks tokens.now)) }
{
    match after_sign(Sign::RightParen, tokens) {
        Some(rest) => Ok((Vec::new(alloc), rest)),
        None => {
            let (args, rest) = exprs(alloc, levels, tokens, end)?;
            let rest = need_sign(Sign::RightParen, rest, end)?;
            Ok((args, rest))
        }
    }
}

/// A parameter.
#[tactic(auto, unfolding(crate::specs::Readers::bind, crate::specs::Readers::param_at))]
fn param<'s, 't>(
    tokens: &'s [Token<'t>],
    end: usize,
) -> Result<(Param<'t>, &'s [Token<'t>]), SyntaxError>
    ensures { Gives (λ x. (param_value x.0, marks x.1.now)) result (param_at (marks tokens.now)) }
{
    let (name, rest) = name(tokens, end)?;
    let rest = need_sign(Sign::Colon, rest, end)?;
    let (takes, rest) = type_name(rest, end)?;
    Ok((Param { name, takes }, rest))
}

/// Parameters.
fn some_params<'s, 't>(
    alloc: Global,
    tokens: &'s [Token<'t>],
    end: usize,
) -> Result<(Vec<Param<'t>>, &'s [Token<'t>]), SyntaxError>
    ensures { Gives (λ x. (map param_value x.0.items, marks x.1.now)) result
        (commas_at param_at (marks tokens.now)) }
{
    let mut params = Vec::new(alloc);
    let (first, mut rest) = param(tokens, end)?;
    params.push(first)?;
    while let Some(after) = after_sign(Sign::Comma, rest) {
        let (another, left) = param(after, end)?;
        params.push(another)?;
        rest = left;
    }
    Ok((params, rest))
}

/// The parameters of a method, behind its `(`, and the `)`.
#[tactic(auto, unfolding(crate::specs::Readers::bind, crate::specs::Readers::listed_at))]
pub(crate) fn params<'s, 't>(
    alloc: Global,
    tokens: &'s [Token<'t>],
    end: usize,
) -> Result<(Vec<Param<'t>>, &'s [Token<'t>]), SyntaxError>
    ensures { Gives (λ x. (map param_value x.0.items, marks x.1.now)) result
        (listed_at param_at (marks tokens.now)) }
{
    match after_sign(Sign::RightParen, tokens) {
        Some(rest) => Ok((Vec::new(alloc), rest)),
        None => {
            let (params, rest) = some_params(alloc, tokens, end)?;
            let rest = need_sign(Sign::RightParen, rest, end)?;
            Ok((params, rest))
        }
    }
}

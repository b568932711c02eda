//! Numbers and expressions, by recursive descent.

ghost use Rattle.std.specs.Prelude.{◌≡◌};
ghost use Rattle.xk_tree.specs.Tree.{Binary, expression};
ghost use Rattle.xk_exprs.specs.Marks.{marks};
ghost use Rattle.xk_exprs.specs.ReaderCombinators.{Gives};
ghost use Rattle.xk_exprs.specs.ExprReaders.{value_of, literal, number_from, number_at, factor_at, terms, sums, whole_at, whole_term_at};

use crate::fault::{SyntaxError, SyntaxFault};
use crate::token_readers::{
    close, depth_fault, digits, literal_fault, minus, next, operator, unexpected,
};
use std::alloc::Global;
use xk_lexer::{Sign, Token, TokenKind};
use xk_tree::{Expr, Name, Number, Operator};

/// How many operators an expression may have.
const MAX_OPERATORS: u32 = 64;

/// What was read, how many operators are left, and the tokens behind it.
type Found<'s, 't> = (Expr<'t>, u32, &'s [Token<'t>]);

/// What digits are worth, or digits behind a `-`, if it has 64 bits.
#[tactic(auto, unfolding(crate::specs::ExprReaders::value_of))]
fn value_of(minus: Option<usize>, digits: u64) -> Option<i64>
    ensures { result ≡ value_of minus digits }
{
    match minus {
        None if digits < 1 << 63 => Some(digits as i64),
        Some(_) if digits < 1 << 63 => Some(-(digits as i64)),
        Some(_) if digits == 1 << 63 => Some(i64::MIN),
        _ => None,
    }
}

/// The number of digits at an offset, behind the offset of a `-` if there is one.
fn literal(minus: Option<usize>, at: usize, digits: u64) -> Result<Number, SyntaxError>
    ensures { Gives (λ n. n) result (literal minus at digits) }
{
    match value_of(minus, digits) {
        Some(value) => Ok(Number { minus, at, value }),
        None => Err(SyntaxError::Fault(literal_fault(at))),
    }
}

/// A number from its digits on.
fn number_from<'s, 't>(
    minus: Option<usize>,
    tokens: &'s [Token<'t>],
    end: usize,
) -> Result<(Number, &'s [Token<'t>]), SyntaxError>
    ensures { Gives (λ x. (x.0, marks x.1.now)) result (number_from minus (marks tokens.now)) }
{
    let Some((token, rest)) = next(tokens) else {
        return Err(SyntaxError::Fault(unexpected(tokens, end)));
    };
    match token.kind {
        TokenKind::Number(digits) => {
            let number = literal(minus, token.at, digits)?;
            Ok((number, rest))
        }
        TokenKind::BadNumber => Err(SyntaxError::Fault(literal_fault(token.at))),
        _ => Err(SyntaxError::Fault(unexpected(tokens, end))),
    }
}

/// A number, and the tokens behind it.
#[tactic(auto, unfolding(crate::specs::ExprReaders::number_at))]
pub fn read_number<'s, 't>(
    tokens: &'s [Token<'t>],
    end: usize,
) -> Result<(Number, &'s [Token<'t>]), SyntaxError>
    ensures { Gives (λ x. (x.0, marks x.1.now)) result (number_at (marks tokens.now)) }
{
    match minus(tokens) {
        Some((at, rest)) => number_from(Some(at), rest, end),
        None => number_from(None, tokens, end),
    }
}

fn binary<'t>(
    alloc: Global,
    operator: Operator,
    left: Expr<'t>,
    at: usize,
    right: Expr<'t>,
) -> Result<Expr<'t>, SyntaxError>
    ensures { Gives expression result
        (Some (Binary operator (expression left.entry) at (expression right.entry))) }
{
    Ok(Expr::Binary(
        operator,
        Box::new(alloc, left)?,
        at,
        Box::new(alloc, right)?,
    ))
}

/// The fault of a `-` that may be no negation any more: the limit, or that of the digits behind it.
fn negation_fault(at: usize, tokens: &[Token]) -> SyntaxFault {
    match tokens {
        [token, ..] => match token.kind {
            TokenKind::BadNumber => literal_fault(token.at),
            _ => depth_fault(at),
        },
        [] => depth_fault(at),
    }
}

/// A factor, where so many levels and operators are left.
#[cycle(exprs)]
#[tactic(auto, unfolding(crate::specs::ExprReaders::factor_at))]
fn factor<'s, 't>(
    alloc: Global,
    levels: u32,
    operators: u32,
    tokens: &'s [Token<'t>],
    end: usize,
) -> Result<Found<'s, 't>, SyntaxError>
    ensures { Gives (λ f. ((expression f.0, f.1), marks f.2.now)) result
        (factor_at levels operators (marks tokens.now)) }
{
    let Some((token, rest)) = next(tokens) else {
        return Err(SyntaxError::Fault(unexpected(tokens, end)));
    };
    match token.kind {
        TokenKind::Name(text) => {
            let name = Name { at: token.at, text };
            Ok((Expr::Name(name), operators, rest))
        }
        TokenKind::Number(digits) => {
            let number = literal(None, token.at, digits)?;
            Ok((Expr::Number(number), operators, rest))
        }
        TokenKind::BadNumber => Err(SyntaxError::Fault(literal_fault(token.at))),
        TokenKind::Sign(sign) => match sign {
            Sign::LeftParen => {
                if levels == 0 {
                    return Err(SyntaxError::Fault(depth_fault(token.at)));
                }
                let (inner, operators, rest) = sum(alloc, levels - 1, operators, rest, end)?;
                let rest = close(rest, end)?;
                let boxed = Box::new(alloc, inner)?;
                Ok((Expr::Paren(token.at, boxed), operators, rest))
            }
            Sign::Minus => {
                if let Some((at, digits, rest)) = digits(rest) {
                    let number = literal(Some(token.at), at, digits)?;
                    return Ok((Expr::Number(number), operators, rest));
                }
                if levels == 0 || operators == 0 {
                    return Err(SyntaxError::Fault(negation_fault(token.at, rest)));
                }
                let (inner, operators, rest) = factor(alloc, levels - 1, operators - 1, rest, end)?;
                let boxed = Box::new(alloc, inner)?;
                Ok((Expr::Negation(token.at, boxed), operators, rest))
            }
            _ => Err(SyntaxError::Fault(unexpected(tokens, end))),
        },
        _ => Err(SyntaxError::Fault(unexpected(tokens, end))),
    }
}

/// A term, likewise.
#[cycle(exprs)]
fn term<'s, 't>(
    alloc: Global,
    levels: u32,
    operators: u32,
    tokens: &'s [Token<'t>],
    end: usize,
) -> Result<Found<'s, 't>, SyntaxError>
    ensures { Gives (λ f. ((expression f.0, f.1), marks f.2.now)) result
        (terms (factor_at levels) operators (marks tokens.now)) }
{
    let (mut left, mut operators, mut rest) = factor(alloc, levels, operators, tokens, end)?;
    while let Some((at, times, after)) = operator(1, rest) {
        if operators == 0 {
            return Err(SyntaxError::Fault(depth_fault(at)));
        }
        let (right, right_operators, right_rest) = factor(
            alloc,
            levels,
            operators - 1,
            after,
            end,
        )?;
        left = binary(alloc, times, left, at, right)?;
        operators = right_operators;
        rest = right_rest;
    }
    Ok((left, operators, rest))
}

/// A sum or a difference of terms, or one term alone, likewise.
#[cycle(exprs)]
fn sum<'s, 't>(
    alloc: Global,
    levels: u32,
    operators: u32,
    tokens: &'s [Token<'t>],
    end: usize,
) -> Result<Found<'s, 't>, SyntaxError>
    ensures { Gives (λ f. ((expression f.0, f.1), marks f.2.now)) result
        (sums (factor_at levels) operators (marks tokens.now)) }
{
    let (mut left, mut operators, mut rest) = term(alloc, levels, operators, tokens, end)?;
    while let Some((at, sign, after)) = operator(2, rest) {
        if operators == 0 {
            return Err(SyntaxError::Fault(depth_fault(at)));
        }
        let (right, right_operators, right_rest) = term(alloc, levels, operators - 1, after, end)?;
        left = binary(alloc, sign, left, at, right)?;
        operators = right_operators;
        rest = right_rest;
    }
    Ok((left, operators, rest))
}

/// An expression, where so many levels are left, and the tokens behind it.
#[tactic(auto, unfolding(crate::specs::ExprReaders::whole_at))]
pub fn read_expr<'s, 't>(
    alloc: Global,
    levels: u32,
    tokens: &'s [Token<'t>],
    end: usize,
) -> Result<(Expr<'t>, &'s [Token<'t>]), SyntaxError>
    ensures { Gives (λ x. (expression x.0, marks x.1.now)) result
        (whole_at levels (marks tokens.now)) }
{
    let (expr, _, rest) = sum(alloc, levels, MAX_OPERATORS, tokens, end)?;
    Ok((expr, rest))
}

/// A term, where so many levels are left, and the tokens behind it.
#[tactic(auto, unfolding(crate::specs::ExprReaders::whole_term_at))]
pub fn read_term<'s, 't>(
    alloc: Global,
    levels: u32,
    tokens: &'s [Token<'t>],
    end: usize,
) -> Result<(Expr<'t>, &'s [Token<'t>]), SyntaxError>
    ensures { Gives (λ x. (expression x.0, marks x.1.now)) result
        (whole_term_at levels (marks tokens.now)) }
{
    let (expr, _, rest) = term(alloc, levels, MAX_OPERATORS, tokens, end)?;
    Ok((expr, rest))
}

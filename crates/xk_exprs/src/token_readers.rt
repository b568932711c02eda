//! Tokens one by one.

ghost use Rattle.std.specs.Prelude.{◌≡◌, option_map};
ghost use Rattle.xk_exprs.specs.declared.fault.SyntaxRule.TheVariants as rule;
ghost use Rattle.xk_exprs.specs.Marks.{mark, marks, operator_of};
ghost use Rattle.xk_exprs.specs.Spelling.{binds};
ghost use Rattle.xk_exprs.specs.ReaderCombinators.{Gives, head_at, unexpected_rule, unexpected_fault};
ghost use Rattle.xk_exprs.specs.ExprReaders.{close_at, operator_at, digits_at, minus_at};

use crate::fault::{SyntaxError, SyntaxFault, SyntaxRule};
use xk_lexer::{Sign, Token, TokenKind};
use xk_tree::Operator;

/// The next token, and those behind it.
pub fn next<'s, 't>(tokens: &'s [Token<'t>]) -> Option<(Token<'t>, &'s [Token<'t>])>
    ensures { option_map (λ x. (mark x.0, marks x.1.now)) result ≡ head_at (marks tokens.now) }
{
    match tokens {
        [] => None,
        [first, rest @ ..] => Some((*first, rest)),
    }
}

fn unexpected_rule(kind: TokenKind) -> SyntaxRule
    ensures { result ≡ unexpected_rule kind.entry }
{
    match kind {
        TokenKind::Stray => SyntaxRule::Token,
        _ => SyntaxRule::Syntax,
    }
}

/// The fault where the first token can't stand. The text ends at `end`.
pub fn unexpected(tokens: &[Token], end: usize) -> SyntaxFault
    ensures { result ≡ unexpected_fault tokens.now end }
{
    match tokens {
        [] => SyntaxFault {
            rule: SyntaxRule::Syntax,
            at: end,
        },
        [token, ..] => SyntaxFault {
            rule: unexpected_rule(token.kind),
            at: token.at,
        },
    }
}

/// More than 64 levels or operators, from the token at this offset on.
pub(crate) fn depth_fault(at: usize) -> SyntaxFault
    ensures { result ≡ record { rule = rule.TooDeep; at = at } }
{
    SyntaxFault {
        rule: SyntaxRule::TooDeep,
        at,
    }
}

/// Digits at this offset that are no number.
pub(crate) fn literal_fault(at: usize) -> SyntaxFault
    ensures { result ≡ record { rule = rule.Literal; at = at } }
{
    SyntaxFault {
        rule: SyntaxRule::Literal,
        at,
    }
}

/// Past a `)`.
pub(crate) fn close<'s, 't>(
    tokens: &'s [Token<'t>],
    end: usize,
) -> Result<&'s [Token<'t>], SyntaxError>
    ensures { Gives (λ x. marks x.now) result (close_at (marks tokens.now)) }
{
    let Some((token, rest)) = next(tokens) else {
        return Err(SyntaxError::Fault(unexpected(tokens, end)));
    };
    match token.kind {
        TokenKind::Sign(sign) => match sign {
            Sign::RightParen => Ok(rest),
            _ => Err(SyntaxError::Fault(unexpected(tokens, end))),
        },
        _ => Err(SyntaxError::Fault(unexpected(tokens, end))),
    }
}

/// The operator that a sign is.
fn operator_of(sign: Sign) -> Option<Operator>
    ensures { result ≡ operator_of sign }
{
    match sign {
        Sign::Plus => Some(Operator::Plus),
        Sign::Minus => Some(Operator::Minus),
        Sign::Star => Some(Operator::Times),
        _ => None,
    }
}

/// What an operator makes of its operands: a term is 1, a sum 2.
fn binds(operator: Operator) -> u8
    ensures { result ≡ binds operator }
{
    match operator {
        Operator::Times => 1,
        Operator::Plus => 2,
        Operator::Minus => 2,
    }
}

/// An operator that binds so: its offset, and the tokens behind it.
pub(crate) fn operator<'s, 't>(
    level: u8,
    tokens: &'s [Token<'t>],
) -> Option<(usize, Operator, &'s [Token<'t>])>
    ensures { option_map (λ x. ((x.0, x.1), marks x.2.now)) result
        ≡ operator_at level (marks tokens.now) }
{
    let (token, rest) = next(tokens)?;
    let TokenKind::Sign(sign) = token.kind else {
        return None;
    };
    let operator = operator_of(sign)?;
    if binds(operator) == level {
        Some((token.at, operator, rest))
    } else {
        None
    }
}

/// A `-`: its offset, and the tokens behind it.
pub(crate) fn minus<'s, 't>(tokens: &'s [Token<'t>]) -> Option<(usize, &'s [Token<'t>])>
    ensures { option_map (λ x. (x.0, marks x.1.now)) result ≡ minus_at (marks tokens.now) }
{
    let (token, rest) = next(tokens)?;
    match token.kind {
        TokenKind::Sign(sign) => match sign {
            Sign::Minus => Some((token.at, rest)),
            _ => None,
        },
        _ => None,
    }
}

/// Digits: their offset and what they are worth.
pub(crate) fn digits<'s, 't>(tokens: &'s [Token<'t>]) -> Option<(usize, u64, &'s [Token<'t>])>
    ensures { option_map (λ x. ((x.0, x.1), marks x.2.now)) result
        ≡ digits_at (marks tokens.now) }
{
    let (token, rest) = next(tokens)?;
    match token.kind {
        TokenKind::Number(n) => Some((token.at, n, rest)),
        _ => None,
    }
}

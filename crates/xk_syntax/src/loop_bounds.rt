//! How far a loop goes.

ghost use Rattle.xk_tree.specs.Tree.{bound};
ghost use Rattle.xk_exprs.specs.Marks.{marks};
ghost use Rattle.xk_exprs.specs.ReaderCombinators.{Gives};
ghost use Rattle.xk_syntax.specs.Readers.{least_at, bound_at};

use crate::hidden_clocks::hidden_name;
use crate::leaf_statements::verb;
use crate::token_readers::{need_sign, this_word};
use std::alloc::Global;
use xk_exprs::{SyntaxError, read_expr, read_number};
use xk_lexer::{Sign, Token};
use xk_tree::Bound;

/// `Math.min(e, n)`, behind its `Math`, which stands at this offset.
#[tactic(auto, unfolding(crate::specs::Readers::bind, crate::specs::Readers::least_at))]
fn least<'s, 't>(
    alloc: Global,
    levels: u32,
    at: usize,
    tokens: &'s [Token<'t>],
    end: usize,
) -> Result<(Bound<'t>, &'s [Token<'t>]), SyntaxError>
    ensures { Gives (λ x. (bound x.0, marks x.1.now)) result
        (least_at levels at (marks tokens.now)) }
{
    let rest = need_sign(Sign::Dot, tokens, end)?;
    let (verb, rest) = verb(b"min", rest, end)?;
    let (expr, rest) = read_expr(alloc, levels, rest, end)?;
    let rest = need_sign(Sign::Comma, rest, end)?;
    let (number, rest) = read_number(rest, end)?;
    let rest = need_sign(Sign::RightParen, rest, end)?;
    Ok((
        Bound::Least(hidden_name(at, levels), verb, expr, number),
        rest,
    ))
}

/// How far a loop goes, where so many levels are left behind it: where `Math` comes, `Math.min(e, n)`, and else a number.
#[tactic(auto, unfolding(crate::specs::Readers::bind, crate::specs::Readers::bound_at))]
pub(crate) fn bound<'s, 't>(
    alloc: Global,
    levels: u32,
    tokens: &'s [Token<'t>],
    end: usize,
) -> Result<(Bound<'t>, &'s [Token<'t>]), SyntaxError>
    ensures { Gives (λ x. (bound x.0, marks x.1.now)) result
        (bound_at levels (marks tokens.now)) }
{
    match this_word(b"Math", tokens) {
        Some((at, rest)) => least(alloc, levels, at, rest, end),
        None => {
            let (number, rest) = read_number(tokens, end)?;
            Ok((Bound::UpTo(number), rest))
        }
    }
}

//! What stands before the statement, or the statements, that a statement holds.

ghost use Rattle.std.specs.Prelude.{◌≡◌, [], ◌∷◌, Some, option_map};
ghost use Rattle.xk_tree.specs.declared.tree.Written.TheVariants as written;
ghost use Rattle.xk_tree.specs.Tree.{clock_list, statement};
ghost use Rattle.xk_exprs.specs.Marks.{marks};
ghost use Rattle.xk_exprs.specs.ReaderCombinators.{Gives};
ghost use Rattle.xk_syntax.specs.Readers.{whole, condition_at, range_at, list_open_at, clocks_at, start_at, flat_at, hiding_at, stmt_head_at};
ghost use Rattle.xk_syntax.specs.Spelling.{in_force};
ghost use Rattle.xk_syntax.specs.Views.{head_value, clocks_value};

use crate::leaf_statements::{advance_all, atomic, declaration, named, print};
use crate::lists::names;
use crate::loop_bounds::bound;
use crate::token_readers::{
    after_keyword, comparison, name, need_keyword, need_open, need_sign, open_paren,
};
use std::alloc::Global;
use xk_exprs::token_readers::{next, unexpected};
use xk_exprs::{SyntaxError, read_expr, read_number};
use xk_lexer::{Keyword, Sign, Token, TokenKind};
use xk_tree::{Binding, Bound, ClockList, Expr, Name, Number, Stmt, Written};
use xk_types::Comparison;

/// A statement up to the statement that it holds, or up to the statements.
#[derive(Drop)]
pub(crate) enum Head<'t> {
    /// It holds none.
    Whole(Stmt<'t>),
    /// `{`
    Brace,
    /// `if (l op r)`, with the offset of its `(`.
    Condition(usize, Expr<'t>, Comparison, Expr<'t>),
    /// `for (i in a..b)`, with the offset of its `(`.
    Range(usize, Name<'t>, Number, Bound<'t>),
    /// `async`, with its offset, and its clocks.
    Start(usize, Option<ClockList<'t>>),
    /// `finish`, with its offset.
    Wait(usize),
    /// `clocked finish`, with the offsets of both words.
    Hide(usize, usize),
}

/// An `if`, behind that word, up to its statement.
#[tactic(auto, unfolding(crate::specs::Readers::bind, crate::specs::Readers::condition_at))]
fn condition<'s, 't>(
    alloc: Global,
    levels: u32,
    tokens: &'s [Token<'t>],
    end: usize,
) -> Result<(Head<'t>, &'s [Token<'t>]), SyntaxError>
    ensures { Gives (λ x. (head_value x.0, marks x.1.now)) result
        (condition_at levels (marks tokens.now)) }
{
    let (paren, rest) = need_open(tokens, end)?;
    let (left, rest) = read_expr(alloc, levels, rest, end)?;
    let (comparison, rest) = comparison(rest, end)?;
    let (right, rest) = read_expr(alloc, levels, rest, end)?;
    let rest = need_sign(Sign::RightParen, rest, end)?;
    Ok((Head::Condition(paren, left, comparison, right), rest))
}

/// A `for`, behind that word, up to its statement.
#[tactic(auto, unfolding(crate::specs::Readers::bind, crate::specs::Readers::range_at))]
fn range<'s, 't>(
    alloc: Global,
    levels: u32,
    tokens: &'s [Token<'t>],
    end: usize,
) -> Result<(Head<'t>, &'s [Token<'t>]), SyntaxError>
    ensures { Gives (λ x. (head_value x.0, marks x.1.now)) result
        (range_at levels (marks tokens.now)) }
{
    let (paren, rest) = need_open(tokens, end)?;
    let (name, rest) = name(rest, end)?;
    let rest = need_keyword(Keyword::In, rest, end)?;
    let (lo, rest) = read_number(rest, end)?;
    let rest = need_sign(Sign::DotDot, rest, end)?;
    let (bound, rest) = bound(alloc, levels, rest, end)?;
    let rest = need_sign(Sign::RightParen, rest, end)?;
    Ok((Head::Range(paren, name, lo, bound), rest))
}

/// Past `clocked (`, if these come, and the offsets of both.
#[tactic(auto, unfolding(crate::specs::Readers::bind, crate::specs::Readers::list_open_at))]
fn list_open<'s, 't>(tokens: &'s [Token<'t>]) -> Option<((usize, usize), &'s [Token<'t>])>
    ensures { option_map (λ x. (x.0, marks x.1.now)) result ≡ list_open_at (marks tokens.now) }
{
    let (token, rest) = next(tokens)?;
    match token.kind {
        TokenKind::Keyword(word) => match word {
            Keyword::Clocked => {
                let (paren, rest) = open_paren(rest)?;
                Some(((token.at, paren), rest))
            }
            _ => None,
        },
        _ => None,
    }
}

/// A `clocked` list, if there is one.
#[tactic(auto, unfolding(crate::specs::Readers::bind, crate::specs::Readers::clocks_at))]
fn clocks<'s, 't>(
    alloc: Global,
    tokens: &'s [Token<'t>],
    end: usize,
) -> Result<(Option<ClockList<'t>>, &'s [Token<'t>]), SyntaxError>
    ensures { Gives (λ x. (clocks_value x.0, marks x.1.now)) result
        (clocks_at (marks tokens.now)) }
{
    match list_open(tokens) {
        None => Ok((None, tokens)),
        Some(((clocked, paren), rest)) => {
            let (names, rest) = names(alloc, rest, end)?;
            let rest = need_sign(Sign::RightParen, rest, end)?;
            let written = Written::Listed(clocked, paren);
            Ok((Some(ClockList { written, names }), rest))
        }
    }
}

/// An `async`, behind that word, which stands at this offset, up to its statement.
#[tactic(auto, unfolding(crate::specs::Readers::bind, crate::specs::Readers::start_at))]
fn start<'s, 't>(
    alloc: Global,
    at: usize,
    tokens: &'s [Token<'t>],
    end: usize,
) -> Result<(Head<'t>, &'s [Token<'t>]), SyntaxError>
    ensures { Gives (λ x. (head_value x.0, marks x.1.now)) result
        (start_at at (marks tokens.now)) }
{
    let (clocks, rest) = clocks(alloc, tokens, end)?;
    Ok((Head::Start(at, clocks), rest))
}

/// The clock of a `clocked async`, whose `clocked` stands at this offset: the hidden one of the place.
fn hidden_list<'t>(alloc: Global, at: usize, hidden: &'t [u8]) -> Result<ClockList<'t>, SyntaxError>
    ensures { Gives clock_list result
        (Some (record { written = written.Ahead at; names = in_force at hidden.now ∷ [] })) }
{
    let mut names = Vec::new(alloc);
    names.push(Name { at, text: hidden })?;
    let written = Written::Ahead(at);
    Ok(ClockList { written, names })
}

/// A `clocked finish` or a `clocked async` behind its `clocked`, which stands at this offset, up to its statement.
#[tactic(auto, unfolding(crate::specs::Readers::bind, crate::specs::Readers::hiding_at))]
fn hiding<'s, 't>(
    alloc: Global,
    at: usize,
    hidden: &'t [u8],
    tokens: &'s [Token<'t>],
    end: usize,
) -> Result<(Head<'t>, &'s [Token<'t>]), SyntaxError>
    ensures { Gives (λ x. (head_value x.0, marks x.1.now)) result
        (hiding_at hidden.now at (marks tokens.now)) }
{
    let Some((token, rest)) = next(tokens) else {
        return Err(SyntaxError::Fault(unexpected(tokens, end)));
    };
    match token.kind {
        TokenKind::Keyword(word) => match word {
            Keyword::Finish => Ok((Head::Hide(at, token.at), rest)),
            Keyword::Async => {
                let clocks = hidden_list(alloc, at, hidden)?;
                Ok((Head::Start(token.at, Some(clocks)), rest))
            }
            _ => Err(SyntaxError::Fault(unexpected(tokens, end))),
        },
        _ => Err(SyntaxError::Fault(unexpected(tokens, end))),
    }
}

/// A statement that holds none.
#[tactic(auto, unfolding(crate::specs::Readers::bind, crate::specs::Readers::flat_at))]
pub(crate) fn flat<'s, 't>(
    alloc: Global,
    levels: u32,
    tokens: &'s [Token<'t>],
    end: usize,
) -> Result<(Stmt<'t>, &'s [Token<'t>]), SyntaxError>
    ensures { Gives (λ x. (statement x.0, marks x.1.now)) result
        (flat_at levels (marks tokens.now)) }
{
    let Some((token, rest)) = next(tokens) else {
        return Err(SyntaxError::Fault(unexpected(tokens, end)));
    };
    match token.kind {
        TokenKind::Name(text) => named(alloc, levels, Name { at: token.at, text }, rest, end),
        TokenKind::Keyword(word) => match word {
            Keyword::Val => declaration(alloc, levels, Binding::Val, rest, end),
            Keyword::Var => declaration(alloc, levels, Binding::Var, rest, end),
            Keyword::Atomic => atomic(alloc, levels, rest, end),
            Keyword::Console => print(alloc, levels, rest, end),
            Keyword::Clock => advance_all(token.at, rest, end),
            _ => Err(SyntaxError::Fault(unexpected(tokens, end))),
        },
        TokenKind::Sign(sign) => match sign {
            Sign::Semicolon => Ok((Stmt::Empty, rest)),
            _ => Err(SyntaxError::Fault(unexpected(tokens, end))),
        },
        _ => Err(SyntaxError::Fault(unexpected(tokens, end))),
    }
}

/// The same, as a head.
#[tactic(auto, unfolding(crate::specs::Readers::bind))]
fn whole<'s, 't>(
    alloc: Global,
    levels: u32,
    tokens: &'s [Token<'t>],
    end: usize,
) -> Result<(Head<'t>, &'s [Token<'t>]), SyntaxError>
    ensures { Gives (λ x. (head_value x.0, marks x.1.now)) result
        (whole (flat_at levels (marks tokens.now))) }
{
    let (stmt, rest) = flat(alloc, levels, tokens, end)?;
    Ok((Head::Whole(stmt), rest))
}

/// What a statement begins with, where so many levels are left behind it, and this is the hidden clock of the place.
#[tactic(auto, unfolding(crate::specs::Readers::bind, crate::specs::Readers::stmt_head_at))]
pub(crate) fn stmt_head<'s, 't>(
    alloc: Global,
    levels: u32,
    hidden: &'t [u8],
    tokens: &'s [Token<'t>],
    end: usize,
) -> Result<(Head<'t>, &'s [Token<'t>]), SyntaxError>
    ensures { Gives (λ x. (head_value x.0, marks x.1.now)) result
        (stmt_head_at levels hidden.now (marks tokens.now)) }
{
    let Some((token, rest)) = next(tokens) else {
        return Err(SyntaxError::Fault(unexpected(tokens, end)));
    };
    match token.kind {
        TokenKind::Sign(sign) => match sign {
            Sign::LeftBrace => Ok((Head::Brace, rest)),
            _ => whole(alloc, levels, tokens, end),
        },
        TokenKind::Keyword(word) => match word {
            Keyword::If => condition(alloc, levels, rest, end),
            Keyword::For => range(alloc, levels, rest, end),
            Keyword::Async => start(alloc, token.at, rest, end),
            Keyword::Finish => Ok((Head::Wait(token.at), rest)),
            Keyword::Clocked => hiding(alloc, token.at, hidden, rest, end),
            _ => whole(alloc, levels, tokens, end),
        },
        _ => whole(alloc, levels, tokens, end),
    }
}

//! Statements, by recursive descent.

ghost use Rattle.std.specs.Prelude.{◌≡◌, ℕ, true, List, [], ◌∷◌, ◌++◌, map, OnOk};
ghost use Rattle.xk_tree.specs.Tree.{bound, expression, statement, word};
ghost use Rattle.xk_exprs.specs.Marks.{marks};
ghost use Rattle.xk_exprs.specs.ReaderCombinators.{Gives};
ghost use Rattle.xk_syntax.specs.Readers.{Brace, Condition, Range, Start, Wait, Hide, whole, flat_at, stmt_head_at, stmts_at, else_at, rest_at, stmt_at};
ghost use Rattle.xk_syntax.specs.Spelling.{inside};
ghost use Rattle.xk_syntax.specs.Views.{clocks_value, head_value};

use crate::hidden_clocks::{clocked_finish, hidden_name};
use crate::statement_heads::{Head, flat, stmt_head};
use crate::token_readers::{after_keyword, ahead, need_close};
use std::alloc::{AllocError, Global};
use xk_exprs::token_readers::{next, unexpected};
use xk_exprs::{SyntaxError, SyntaxFault, SyntaxRule};
use xk_lexer::{Keyword, Sign, Token, TokenKind};
use xk_tree::{Bound, ClockList, Expr, Name, Number, Stmt, Written};
use xk_types::Comparison;

/// Whether a statement can begin with a token of this kind.
fn begins_statement(kind: TokenKind) -> bool {
    match kind {
        TokenKind::Name(_) => true,
        TokenKind::Sign(sign) => matches!(sign, Sign::LeftBrace | Sign::Semicolon),
        TokenKind::Keyword(word) => matches!(
            word,
            Keyword::Val
                | Keyword::Var
                | Keyword::Atomic
                | Keyword::If
                | Keyword::For
                | Keyword::Async
                | Keyword::Clocked
                | Keyword::Finish
                | Keyword::Clock
                | Keyword::Console
        ),
        _ => false,
    }
}

/// The fault of a statement that would stand too deep. Where no statement can begin with its first token, that can't stand there at all.
fn statement_too_deep(tokens: &[Token], end: usize) -> SyntaxFault {
    match next(tokens) {
        Some((token, _)) if begins_statement(token.kind) => SyntaxFault {
            rule: SyntaxRule::TooDeep,
            at: token.at,
        },
        _ => unexpected(tokens, end),
    }
}

/// No statements yet, and all tokens.
fn no_stmts<'s, 't>(alloc: Global, tokens: &'s [Token<'t>]) -> (Vec<Stmt<'t>>, &'s [Token<'t>])
    ensures none { result.0.items ≡ [] }
    ensures all { result.1.now ≡ tokens.now }
{
    (Vec::new(alloc), tokens)
}

/// Adds a statement. The first two bring no room for others: most blocks are short, and a statement takes 200 bytes.
fn push_stmt<'t>(stmts: &mut Vec<Stmt<'t>>, stmt: Stmt<'t>) -> Result<(), AllocError>
    ensures { OnOk result (stmts.new.items ≡ stmts.old.items ++ stmt.entry ∷ []) }
{
    if stmts.len() < 2 {
        stmts.reserve_exact(1)?;
    }
    stmts.push(stmt)?;
    Ok(())
}

/// Whether the first token begins a statement that holds no other, so that its head need not be read first.
#[tactic(auto, unfolding(crate::specs::Readers::bind, crate::specs::Readers::stmt_head_at))]
fn begins_flat(tokens: &[Token]) -> bool
    ensures { (d : ℕ) (hidden : List ℕ) → result ≡ true
        → stmt_head_at d hidden (marks tokens.now) ≡ whole (flat_at d (marks tokens.now)) }
{
    let Some((token, _)) = next(tokens) else {
        return false;
    };
    match token.kind {
        TokenKind::Name(_) => true,
        TokenKind::Keyword(word) => match word {
            Keyword::Val => true,
            Keyword::Var => true,
            Keyword::Atomic => true,
            Keyword::Console => true,
            Keyword::Clock => true,
            _ => false,
        },
        TokenKind::Sign(sign) => match sign {
            Sign::Semicolon => true,
            _ => false,
        },
        _ => false,
    }
}

/// The hidden clock in the body of an `async` with these clocks, by that of the place.
fn hidden_inside<'t>(clocks: &Option<ClockList<'t>>, hidden: &'t [u8]) -> &'t [u8]
    ensures { result.now ≡ inside (clocks_value clocks.now) hidden.now }
{
    match clocks {
        None => &[],
        Some(list) => match list.written {
            Written::Listed(..) => &[],
            Written::Ahead(_) => hidden,
        },
    }
}

/// Statements up to a `}`, and that with its offset.
#[cycle(stmts)]
#[tactic(auto, unfolding(crate::specs::Readers::bind, crate::specs::Readers::stmts_at))]
pub(crate) fn read_stmts<'s, 't>(
    alloc: Global,
    levels: u32,
    hidden: &'t [u8],
    tokens: &'s [Token<'t>],
    end: usize,
) -> Result<((Vec<Stmt<'t>>, usize), &'s [Token<'t>]), SyntaxError>
    ensures { Gives (λ x. ((map statement x.0.0.items, x.0.1), marks x.1.now)) result
        (stmts_at (stmt_at levels hidden.now) (marks tokens.now)) }
{
    let (mut stmts, mut rest) = no_stmts(alloc, tokens);
    while let Some(here) = ahead(rest) {
        let (stmt, left) = read_stmt(alloc, levels, hidden, here, end)?;
        push_stmt(&mut stmts, stmt)?;
        rest = left;
    }
    let (close, after) = need_close(rest, end)?;
    Ok(((stmts, close), after))
}

/// A statement, in a box.
#[cycle(stmts)]
#[tactic(auto, unfolding(crate::specs::Readers::bind))]
fn boxed_stmt<'s, 't>(
    alloc: Global,
    levels: u32,
    hidden: &'t [u8],
    tokens: &'s [Token<'t>],
    end: usize,
) -> Result<(Box<Stmt<'t>>, &'s [Token<'t>]), SyntaxError>
    ensures { Gives (λ x. (statement x.0.value, marks x.1.now)) result
        (stmt_at levels hidden.now (marks tokens.now)) }
{
    let (stmt, rest) = read_stmt(alloc, levels, hidden, tokens, end)?;
    let stmt = Box::new(alloc, stmt)?;
    Ok((stmt, rest))
}

/// An `if`, behind its statement.
#[cycle(stmts)]
#[tactic(auto, unfolding(crate::specs::Readers::bind, crate::specs::Readers::else_at))]
fn else_part<'s, 't>(
    alloc: Global,
    levels: u32,
    hidden: &'t [u8],
    paren: usize,
    left: Expr<'t>,
    comparison: Comparison,
    right: Expr<'t>,
    stmt: Box<Stmt<'t>>,
    tokens: &'s [Token<'t>],
    end: usize,
) -> Result<(Stmt<'t>, &'s [Token<'t>]), SyntaxError>
    ensures { Gives (λ x. (statement x.0, marks x.1.now)) result
        (else_at (stmt_at levels hidden.now) paren (expression left.entry) comparison
        (expression right.entry) (statement stmt.entry.value) (marks tokens.now)) }
{
    match after_keyword(Keyword::Else, tokens) {
        None => Ok((Stmt::If(paren, left, comparison, right, stmt), tokens)),
        Some(rest) => {
            let (other, rest) = boxed_stmt(alloc, levels, hidden, rest, end)?;
            Ok((
                Stmt::IfElse(paren, left, comparison, right, stmt, other),
                rest,
            ))
        }
    }
}

/// The rest of an `if`, behind its `)`.
#[cycle(stmts)]
#[tactic(auto, unfolding(crate::specs::Readers::bind, crate::specs::Readers::rest_at))]
fn if_stmt<'s, 't>(
    alloc: Global,
    levels: u32,
    hidden: &'t [u8],
    paren: usize,
    left: Expr<'t>,
    comparison: Comparison,
    right: Expr<'t>,
    tokens: &'s [Token<'t>],
    end: usize,
) -> Result<(Stmt<'t>, &'s [Token<'t>]), SyntaxError>
    ensures { Gives (λ x. (statement x.0, marks x.1.now)) result
        (rest_at levels (stmt_at levels) hidden.now (Condition paren (expression left.entry)
        comparison (expression right.entry)) (marks tokens.now)) }
{
    let (stmt, rest) = boxed_stmt(alloc, levels, hidden, tokens, end)?;
    else_part(
        alloc, levels, hidden, paren, left, comparison, right, stmt, rest, end,
    )
}

/// The rest of a block, behind its `{`.
#[cycle(stmts)]
#[tactic(auto, unfolding(crate::specs::Readers::bind, crate::specs::Readers::rest_at))]
fn block_stmt<'s, 't>(
    alloc: Global,
    levels: u32,
    hidden: &'t [u8],
    tokens: &'s [Token<'t>],
    end: usize,
) -> Result<(Stmt<'t>, &'s [Token<'t>]), SyntaxError>
    ensures { Gives (λ x. (statement x.0, marks x.1.now)) result
        (rest_at levels (stmt_at levels) hidden.now Brace (marks tokens.now)) }
{
    let ((stmts, close), rest) = read_stmts(alloc, levels, hidden, tokens, end)?;
    Ok((Stmt::Block(close, stmts), rest))
}

/// The rest of a `for`, behind its `)`.
#[cycle(stmts)]
#[tactic(auto, unfolding(crate::specs::Readers::bind, crate::specs::Readers::rest_at))]
fn for_stmt<'s, 't>(
    alloc: Global,
    levels: u32,
    hidden: &'t [u8],
    paren: usize,
    name: Name<'t>,
    lo: Number,
    reach: Bound<'t>,
    tokens: &'s [Token<'t>],
    end: usize,
) -> Result<(Stmt<'t>, &'s [Token<'t>]), SyntaxError>
    ensures { Gives (λ x. (statement x.0, marks x.1.now)) result
        (rest_at levels (stmt_at levels) hidden.now (Range paren (word name.entry) lo
        (bound reach.entry)) (marks tokens.now)) }
{
    let (stmt, rest) = boxed_stmt(alloc, levels, hidden, tokens, end)?;
    Ok((Stmt::For(paren, name, lo, reach, stmt), rest))
}

/// The rest of an `async`, behind its list of clocks.
#[cycle(stmts)]
#[tactic(auto, unfolding(crate::specs::Readers::bind, crate::specs::Readers::rest_at))]
fn async_stmt<'s, 't>(
    alloc: Global,
    levels: u32,
    hidden: &'t [u8],
    at: usize,
    clocks: Option<ClockList<'t>>,
    tokens: &'s [Token<'t>],
    end: usize,
) -> Result<(Stmt<'t>, &'s [Token<'t>]), SyntaxError>
    ensures { Gives (λ x. (statement x.0, marks x.1.now)) result
        (rest_at levels (stmt_at levels) hidden.now (Start at (clocks_value clocks.entry))
        (marks tokens.now)) }
{
    let hidden = hidden_inside(&clocks, hidden);
    let (stmt, rest) = boxed_stmt(alloc, levels, hidden, tokens, end)?;
    Ok((Stmt::Async(at, clocks, stmt), rest))
}

/// The rest of a `finish`, behind that word, which stands at this offset.
#[cycle(stmts)]
#[tactic(auto, unfolding(crate::specs::Readers::bind, crate::specs::Readers::rest_at))]
fn finish_stmt<'s, 't>(
    alloc: Global,
    levels: u32,
    at: usize,
    tokens: &'s [Token<'t>],
    end: usize,
) -> Result<(Stmt<'t>, &'s [Token<'t>]), SyntaxError>
    ensures { Gives (λ x. (statement x.0, marks x.1.now)) result
        (rest_at levels (stmt_at levels) [] (Wait at) (marks tokens.now)) }
{
    let (stmt, rest) = boxed_stmt(alloc, levels, &[], tokens, end)?;
    Ok((Stmt::Finish(at, stmt), rest))
}

/// The rest of a `clocked finish`, behind these words, which stand at these offsets.
#[cycle(stmts)]
#[tactic(auto, unfolding(crate::specs::Readers::bind, crate::specs::Readers::rest_at))]
fn hiding_stmt<'s, 't>(
    alloc: Global,
    levels: u32,
    at: usize,
    finish: usize,
    tokens: &'s [Token<'t>],
    end: usize,
) -> Result<(Stmt<'t>, &'s [Token<'t>]), SyntaxError>
    ensures { Gives (λ x. (statement x.0, marks x.1.now)) result
        (rest_at levels (stmt_at levels) [] (Hide at finish) (marks tokens.now)) }
{
    let clock = hidden_name(at, levels);
    let (stmt, rest) = read_stmt(alloc, levels, clock.text, tokens, end)?;
    let stmt = clocked_finish(alloc, finish, clock, stmt)?;
    Ok((stmt, rest))
}

/// The rest of a statement that begins with this head, where so many levels are left behind it, and this is the hidden clock of the place.
#[cycle(stmts)]
#[tactic(auto, unfolding(crate::specs::Readers::rest_at))]
fn rest_of<'s, 't>(
    alloc: Global,
    levels: u32,
    hidden: &'t [u8],
    head: Head<'t>,
    tokens: &'s [Token<'t>],
    end: usize,
) -> Result<(Stmt<'t>, &'s [Token<'t>]), SyntaxError>
    ensures { Gives (λ x. (statement x.0, marks x.1.now)) result
        (rest_at levels (stmt_at levels) hidden.now (head_value head.entry) (marks tokens.now)) }
{
    match head {
        Head::Whole(stmt) => Ok((stmt, tokens)),
        Head::Brace => block_stmt(alloc, levels, hidden, tokens, end),
        Head::Condition(paren, left, comparison, right) => {
            if_stmt(
                alloc, levels, hidden, paren, left, comparison, right, tokens, end,
            )
        }
        Head::Range(paren, name, lo, reach) => for_stmt(
            alloc, levels, hidden, paren, name, lo, reach, tokens, end,
        ),
        Head::Start(at, clocks) => async_stmt(alloc, levels, hidden, at, clocks, tokens, end),
        Head::Wait(at) => finish_stmt(alloc, levels, at, tokens, end),
        Head::Hide(at, finish) => hiding_stmt(alloc, levels, at, finish, tokens, end),
    }
}

/// A statement, where so many levels are left, itself among them, and this is the hidden clock of the place; and the tokens after it.
#[cycle(stmts)]
#[tactic(auto, unfolding(crate::specs::Readers::bind, crate::specs::Readers::stmt_at))]
pub(crate) fn read_stmt<'s, 't>(
    alloc: Global,
    levels: u32,
    hidden: &'t [u8],
    tokens: &'s [Token<'t>],
    end: usize,
) -> Result<(Stmt<'t>, &'s [Token<'t>]), SyntaxError>
    ensures { Gives (λ x. (statement x.0, marks x.1.now)) result
        (stmt_at levels hidden.now (marks tokens.now)) }
{
    if levels == 0 {
        return Err(SyntaxError::Fault(statement_too_deep(tokens, end)));
    }
    let levels = levels - 1;
    if begins_flat(tokens) {
        return flat(alloc, levels, tokens, end);
    }
    let (head, rest) = stmt_head(alloc, levels, hidden, tokens, end)?;
    rest_of(alloc, levels, hidden, head, rest, end)
}

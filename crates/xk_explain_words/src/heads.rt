//! The statement that a place of a text stands in, by the words before it, and how many `{` are open there.

ghost use Rattle.std.specs.Prelude.{◌≡◌, ◌+◌, ◌^◌, ◌<◌, ◌≤◌, drop, map, IfOk};
ghost use Rattle.xk_lexer.specs.Tokens.{token_value};
ghost use Rattle.xk_explain_words.specs.Heads.{depth_after, depth_at, depth_behind, ends_statement, head_after, head_at, head_behind};
ghost use Rattle.xk_explain_words.specs.Heads.{head_of_foreign, head_of_own, head_of_word};

use crate::words::{begins, first_word, is_spelled};
use std::alloc::{AllocError, Global};
use xk_lexer::Token;

/// The statement that a place stands in, as it is known by its words: here or in another language.
#[derive(Clone, Copy, Debug)]
pub enum Head {
    /// Another one, or none.
    Other,
    /// `while`.
    While,
    /// `when`.
    When,
    /// `for`.
    For,
    /// `if`.
    If,
    /// `elif`.
    Elif,
    /// `switch`.
    Switch,
    /// `repeat`, `foreach` or `loop`.
    Repeat,
    /// `synchronized`.
    Synchronized,
    /// `at`.
    At,
    /// `val` or `var`.
    Binding,
    /// `shared`.
    Shared,
    /// `atomic`.
    Atomic,
    /// `def`.
    Def,
    /// `Console`.
    Print,
    /// `Clock`.
    Clock,
    /// `async` or `clocked`.
    Async,
}

/// By a word of the language; another one says nothing of it.
#[tactic(auto, unfolding(crate::specs::Heads::head_of_own))]
fn head_of_own(word: &[u8], other: Head) -> Head
    ensures { result ≡ head_of_own word.now other }
{
    if is_spelled(word, b"if") || is_spelled(word, b"If") {
        Head::If
    } else if is_spelled(word, b"for") || is_spelled(word, b"For") {
        Head::For
    } else if is_spelled(word, b"val") || is_spelled(word, b"var") {
        Head::Binding
    } else if is_spelled(word, b"shared") {
        Head::Shared
    } else if is_spelled(word, b"atomic") {
        Head::Atomic
    } else if is_spelled(word, b"def") {
        Head::Def
    } else if is_spelled(word, b"Console")
        || is_spelled(word, b"console")
        || is_spelled(word, b"System")
    {
        Head::Print
    } else if is_spelled(word, b"Clock") {
        Head::Clock
    } else if is_spelled(word, b"async") || is_spelled(word, b"clocked") {
        Head::Async
    } else {
        other
    }
}

/// By a word of other languages.
#[tactic(auto, unfolding(crate::specs::Heads::head_of_foreign))]
fn head_of_foreign(word: &[u8], other: Head) -> Head
    ensures { result ≡ head_of_foreign word.now other }
{
    if is_spelled(word, b"while") || is_spelled(word, b"until") || is_spelled(word, b"While") {
        Head::While
    } else if is_spelled(word, b"when") {
        Head::When
    } else if is_spelled(word, b"elif")
        || is_spelled(word, b"elsif")
        || is_spelled(word, b"elseif")
    {
        Head::Elif
    } else if is_spelled(word, b"switch") || is_spelled(word, b"match") {
        Head::Switch
    } else if is_spelled(word, b"repeat")
        || is_spelled(word, b"foreach")
        || is_spelled(word, b"loop")
    {
        Head::Repeat
    } else if is_spelled(word, b"synchronized") || is_spelled(word, b"lock") {
        Head::Synchronized
    } else if is_spelled(word, b"at") {
        Head::At
    } else {
        other
    }
}

/// By a word of either.
fn head_of_word(word: &[u8], other: Head) -> Head
    ensures { result ≡ head_of_word word.now other }
{
    head_of_own(word, head_of_foreign(word, other))
}

/// Whether a statement ends there, or its inside begins.
fn ends_statement(rest: &[u8]) -> bool
    ensures { result ≡ ends_statement rest.now }
{
    begins(rest, b";") || begins(rest, b"{") || begins(rest, b"}")
}

/// Behind a token, which the text goes on with.
fn head_after(rest: &[u8], head: Head) -> Head
    ensures { result ≡ head_after rest.now head }
{
    if ends_statement(rest) {
        return Head::Other;
    }
    head_of_word(first_word(rest), head)
}

/// What a text goes on with from an offset.
fn from(text: &[u8], at: usize) -> &[u8]
    ensures { result.now ≡ drop at text.now }
{
    match text.get(at..) {
        Some(rest) => rest,
        None => b"",
    }
}

/// Behind those of these tokens that stand before an offset.
fn head_behind(text: &[u8], at: usize, tokens: &[Token<'_>]) -> Head
    ensures { result ≡ head_behind text.now at Head.Other (map token_value tokens.now) }
{
    let mut head = Head::Other;
    for token in tokens {
        if token.at >= at {
            break;
        }
        head = head_after(from(text, token.at), head);
    }
    head
}

/// The statement that an offset of a text stands in. Err where memory was refused.
pub fn head_at(alloc: Global, text: &[u8], at: usize) -> Result<Head, AllocError>
    ensures { IfOk result (λ head. head ≡ head_at text.now at) }
{
    let tokens = xk_lexer::tokens(alloc, text)?;
    Ok(head_behind(text, at, &tokens))
}

/// How many `{` are open behind a token, which the text goes on with.
fn depth_after(rest: &[u8], depth: usize) -> usize
    requires { depth < 2 ^ 63 }
    ensures value { result ≡ depth_after rest.now depth }
    ensures within { result ≤ depth + 1 }
{
    if begins(rest, b"{") {
        depth + 1
    } else if begins(rest, b"}") {
        depth.saturating_sub(1)
    } else {
        depth
    }
}

/// How many are open behind those of these tokens that stand before an offset.
fn depth_behind(text: &[u8], at: usize, tokens: &[Token<'_>]) -> usize
    ensures { result ≡ depth_behind text.now at 0 (map token_value tokens.now) }
{
    let mut depth = 0;
    for token in tokens {
        if token.at >= at {
            break;
        }
        depth = depth_after(from(text, token.at), depth);
    }
    depth
}

/// How many `{` are open at an offset of a text. Err where memory was refused.
pub fn depth_at(alloc: Global, text: &[u8], at: usize) -> Result<usize, AllocError>
    ensures { IfOk result (λ depth. depth ≡ depth_at text.now at) }
{
    let tokens = xk_lexer::tokens(alloc, text)?;
    Ok(depth_behind(text, at, &tokens))
}

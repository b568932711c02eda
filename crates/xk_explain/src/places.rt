//! Lines on places in a text.

ghost use Rattle.std.specs.Prelude.{◌≡◌, ◌++◌, ◌≤◌, drop, length, OnOk};
ghost use Rattle.std.specs.List.{prefix_len};
ghost use Rattle.xk_explain.specs.Explanations.{excerpt_lines, fault_lines, head_at, is_word_byte, marked_at, marked_from, message_tail};
ghost use Rattle.xk_explain.specs.Explanations.{place_head, seen_at};

use crate::lines::push_text;
use crate::source_text::SourceText;
use std::alloc::{AllocError, Global};
use xk_explain_words::{is_unseen, to_sign};
use xk_lines::{Position, shown};

/// Adds the first line of what has a place in the text: `FILE:3:5: F2 Syntax: ..`.
pub(crate) fn push_head_at(
    alloc: Global,
    out: &mut Vec<u8>,
    file: &str,
    position: Position,
    title: &[u8],
    message: &str,
) -> Result<(), AllocError>
    ensures { OnOk result
        (out.new.items ≡ out.old.items ++ head_at file.now position title.now message.now) }
{
    push_place(alloc, out, file, position)?;
    out.extend_from_slice(title)?;
    push_message(alloc, out, message)
}

/// Adds `FILE:3:5: `.
#[tactic(auto, unfolding(crate::specs::Explanations::place_head))]
fn push_place(
    alloc: Global,
    out: &mut Vec<u8>,
    file: &str,
    position: Position,
) -> Result<(), AllocError>
    ensures { OnOk result (out.new.items ≡ out.old.items ++ place_head file.now position) }
{
    let line = position.line;
    let column = position.column;
    let file = shown(alloc, file.as_bytes())?;
    out.extend_from_slice(&file)?;
    push_text(out, format!(in alloc; ":{line}:{column}: ")?.as_str())
}

/// Adds what is wrong, up to the end of the line.
#[tactic(auto, unfolding(crate::specs::Explanations::message_tail))]
fn push_message(alloc: Global, out: &mut Vec<u8>, message: &str) -> Result<(), AllocError>
    ensures { OnOk result (out.new.items ≡ out.old.items ++ message_tail message.now) }
{
    push_text(out, format!(in alloc; ": {message}\n")?.as_str())
}

/// A byte of names and numbers.
fn is_word_byte(b: u8) -> bool
    ensures { result ≡ is_word_byte b }
{
    b.is_ascii_alphanumeric() || b == b'_'
}

/// How many bytes of names and numbers stand at the front of a text.
fn word_len(text: &[u8]) -> usize
    ensures { result ≡ prefix_len is_word_byte text.now }
{
    text.iter().take_while(|&&b| is_word_byte(b)).count()
}

/// How many signs are marked from an offset on: the name or number there, and one where there is none.
pub(crate) fn marked_from(text: &[u8], at: usize) -> usize
    requires { at ≤ length text.now }
    ensures { result ≡ marked_from (drop at text.now) }
{
    word_len(&text[at..]).max(1)
}

/// Adds the line of an offset with carets.
#[tactic(auto, unfolding(crate::specs::Explanations::excerpt_lines))]
pub(crate) fn push_excerpt(
    alloc: Global,
    out: &mut Vec<u8>,
    source: &SourceText<'_>,
    at: usize,
) -> Result<(), AllocError>
    requires { at ≤ length source.now }
    ensures { OnOk result (out.new.items ≡ out.old.items ++ excerpt_lines source.now at) }
{
    let marked = marked_from(source.bytes(), at);
    let excerpt = source.lines().excerpt(alloc, at, marked)?;
    out.extend_from_slice(&excerpt)?;
    out.push(b'\n')?;
    Ok(())
}

/// Where the carets of a fault begin: where it is, or at the last sign of the tokens, if the text ends there.
fn seen_at(text: &[u8], at: usize) -> usize
    ensures value { result ≡ seen_at text.now at }
    ensures within { result ≤ length text.now }
{
    if at < text.len() {
        return at;
    }
    to_sign(text).len().saturating_sub(1)
}

/// How many signs they mark: of one that can't be seen also the next one.
fn marked_at(text: &[u8], at: usize) -> usize
    requires { at ≤ length text.now }
    ensures { result ≡ marked_at text.now at }
{
    if is_unseen(&text[at..]) {
        return 2;
    }
    marked_from(text, seen_at(text, at))
}

/// Adds the line of a fault with carets.
#[tactic(auto, unfolding(crate::specs::Explanations::fault_lines))]
pub(crate) fn push_fault_lines(
    alloc: Global,
    out: &mut Vec<u8>,
    source: &SourceText<'_>,
    at: usize,
) -> Result<(), AllocError>
    requires { at ≤ length source.now }
    ensures { OnOk result (out.new.items ≡ out.old.items ++ fault_lines source.now at) }
{
    let marked = marked_at(source.bytes(), at);
    let from = seen_at(source.bytes(), at);
    let excerpt = source.lines().excerpt(alloc, from, marked)?;
    out.extend_from_slice(&excerpt)?;
    out.push(b'\n')?;
    Ok(())
}

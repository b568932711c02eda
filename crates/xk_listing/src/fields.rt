//! Fields of a line.

ghost use Rattle.std.specs.Prelude.{◌≡◌, ◌++◌, ◌≤◌, length, replicate, IfOk, OnOk, string_bytes};
ghost use Rattle.xk_listing.specs.Fields.{at_left, at_right, is_first, line_text, origin_at, origin_field, place_field, place_title};

use crate::source_text::SourceText;
use std::alloc::{AllocError, Global};
use xk_lines::{LineStarts, Position, shown_front};

/// How many signs of a line are told at most, and of a name where it isn't declared.
pub(crate) const TOLD: usize = 60;

/// Adds a text.
pub(crate) fn push_text(out: &mut Vec<u8>, text: &str) -> Result<(), AllocError>
    ensures { OnOk result (out.new.items ≡ out.old.items ++ text.now) }
{
    out.extend_from_slice(text.as_bytes())
}

/// Adds a blank so many times.
fn push_blanks(out: &mut Vec<u8>, count: usize) -> Result<(), AllocError>
    ensures { OnOk result (out.new.items ≡ out.old.items ++ replicate count 32) }
{
    for _ in 0..count {
        out.push(b' ')?;
    }
    Ok(())
}

/// Adds a field of this width at least, what it says at its left.
#[tactic(auto, unfolding(crate::specs::Fields::at_left))]
pub(crate) fn push_at_left(out: &mut Vec<u8>, width: usize, field: &[u8]) -> Result<(), AllocError>
    ensures { OnOk result (out.new.items ≡ out.old.items ++ at_left width field.now) }
{
    out.extend_from_slice(field)?;
    push_blanks(out, width.saturating_sub(field.len()))
}

/// Adds a field of this width at least, what it says at its right.
#[tactic(auto, unfolding(crate::specs::Fields::at_right))]
pub(crate) fn push_at_right(out: &mut Vec<u8>, width: usize, field: &[u8]) -> Result<(), AllocError>
    ensures { OnOk result (out.new.items ≡ out.old.items ++ at_right width field.now) }
{
    push_blanks(out, width.saturating_sub(field.len()))?;
    out.extend_from_slice(field)
}

/// `3:5`.
#[tactic(auto, unfolding(crate::specs::Fields::place_title))]
pub(crate) fn place_title(alloc: Global, position: Position) -> Result<String, AllocError>
    ensures { IfOk result (λ text. string_bytes text ≡ place_title position) }
{
    let line = position.line;
    let column = position.column;
    format!(in alloc; "{line}:{column}")
}

/// The offset that an instruction comes from, no further than where the text ends.
fn origin_at(text: &[u8], offsets: &[usize], at: usize) -> usize
    ensures at { result ≡ origin_at text.now offsets.now at }
    ensures within { result ≤ length text.now }
{
    match offsets.get(at) {
        Some(offset) => (*offset).min(text.len()),
        None => 0,
    }
}

/// Whether an instruction comes from another place than the one before it.
fn is_first(text: &[u8], offsets: &[usize], at: usize) -> bool
    ensures { result ≡ is_first text.now offsets.now at }
{
    at == 0 || origin_at(text, offsets, at - 1) != origin_at(text, offsets, at)
}

/// The line of an offset as it is shown, without the blanks that it begins with.
#[tactic(auto, unfolding(crate::specs::Fields::line_text))]
fn line_text(alloc: Global, lines: &LineStarts<'_>, at: usize) -> Result<Vec<u8>, AllocError>
    requires { at ≤ length lines.now }
    ensures { IfOk result (λ v. v.items ≡ line_text lines.now at) }
{
    shown_front(alloc, lines.words_at(at), TOLD)
}

/// Adds where an instruction comes from, with the line there where it is the first one of a statement.
fn push_place(
    alloc: Global,
    out: &mut Vec<u8>,
    lines: &LineStarts<'_>,
    at: usize,
    first: bool,
) -> Result<(), AllocError>
    requires { at ≤ length lines.now }
    ensures { OnOk result (out.new.items ≡ out.old.items ++ place_field lines.now at first) }
{
    let place = place_title(alloc, lines.position(at))?;
    if !first {
        return push_text(out, place.as_str());
    }
    let line = line_text(alloc, lines, at)?;
    push_at_left(out, 7, place.as_bytes())?;
    push_text(out, "  ")?;
    out.extend_from_slice(&line)
}

/// Adds the same behind two blanks, up to the end of the line, for an instruction.
#[tactic(auto, unfolding(crate::specs::Fields::origin_field))]
pub(crate) fn push_origin(
    alloc: Global,
    out: &mut Vec<u8>,
    source: &SourceText<'_>,
    offsets: &[usize],
    at: usize,
) -> Result<(), AllocError>
    ensures { OnOk result (out.new.items
        ≡ out.old.items ++ origin_field source.now offsets.now at) }
{
    let offset = origin_at(source.text, offsets, at);
    let first = is_first(source.text, offsets, at);
    push_text(out, "  ")?;
    push_place(alloc, out, &source.lines, offset, first)?;
    push_text(out, "\n")
}

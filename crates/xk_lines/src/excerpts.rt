//! A line with carets below it.

ghost use Rattle.std.specs.Prelude.{◌≡◌, ◌++◌, ◌<◌, ◌^◌, decimal, replicate, IfOk, OnOk};
ghost use Rattle.xk_lines.specs.Excerpts.{caret_count, caret_line, cut, framed, margin, rule_line, shown_before, shown_from, text_line};
ghost use Rattle.xk_lines.specs.Signs.{signs};

use crate::columns::columns;
use crate::signs::{count_signs, push_signs, skip_signs};
use itoa::Buffer;
use std::alloc::{AllocError, Global};

/// How many signs are shown before the caret at most, and how many from it on.
const WINDOW: usize = 80;

/// Adds what stands for signs that are left out, where there are more of them than are shown.
fn push_cut(out: &mut Vec<u8>, count: usize) -> Result<(), AllocError>
    ensures { OnOk result (out.new.items ≡ out.old.items ++ cut count) }
{
    if count > WINDOW {
        out.extend_from_slice(b"..")
    } else {
        Ok(())
    }
}

/// The last signs of what stands before the caret, as they are shown.
fn shown_before(alloc: Global, before: &[u8]) -> Result<Vec<u8>, AllocError>
    ensures { IfOk result (λ v. v.items ≡ shown_before (signs before.now)) }
{
    let mut shown = Vec::new(alloc);
    let count = count_signs(before);
    push_cut(&mut shown, count)?;
    let last = skip_signs(before, count.saturating_sub(WINDOW));
    push_signs(&mut shown, last, WINDOW)?;
    Ok(shown)
}

/// Adds the first signs of what stands from the caret on, as they are shown.
fn push_from(out: &mut Vec<u8>, from: &[u8]) -> Result<(), AllocError>
    ensures { OnOk result (out.new.items ≡ out.old.items ++ shown_from (signs from.now)) }
{
    push_signs(out, from, WINDOW)?;
    push_cut(out, count_signs(from))
}

/// How many carets stand under the first signs.
fn caret_count(alloc: Global, from: &[u8], marked: usize) -> Result<usize, AllocError>
    ensures { IfOk result (λ n. n ≡ caret_count marked (signs from.now)) }
{
    let mut shown = Vec::new(alloc);
    push_signs(&mut shown, from, marked.min(WINDOW))?;
    Ok(columns(&shown).max(1))
}

/// Adds a byte so many times.
fn push_times(out: &mut Vec<u8>, byte: u8, times: usize) -> Result<(), AllocError>
    ensures { OnOk result (out.new.items ≡ out.old.items ++ replicate times byte) }
{
    for _ in 0..times {
        out.push(byte)?;
    }
    Ok(())
}

/// Adds blanks as wide as the line's number with a blank on each side.
fn push_margin(out: &mut Vec<u8>, line: usize) -> Result<(), AllocError>
    ensures { OnOk result (out.new.items ≡ out.old.items ++ margin line) }
{
    let mut digits = Buffer::new();
    let width = digits.format(line as u64).len() + 2;
    push_times(out, b' ', width)
}

/// Adds the line with the bar alone, which stands above the text.
fn push_rule_line(out: &mut Vec<u8>, line: usize) -> Result<(), AllocError>
    ensures { OnOk result (out.new.items ≡ out.old.items ++ rule_line line) }
{
    push_margin(out, line)?;
    out.extend_from_slice(b"|\n")
}

/// Adds the line's number and a text that is shown for what stands before the caret, and then what stands from it on.
fn push_text_line(
    out: &mut Vec<u8>,
    line: usize,
    before: &[u8],
    from: &[u8],
) -> Result<(), AllocError>
    ensures { OnOk result (out.new.items
        ≡ out.old.items ++ text_line line (before.now ++ shown_from (signs from.now))) }
{
    let mut digits = Buffer::new();
    out.extend_from_slice(b" ")?;
    out.extend_from_slice(digits.format(line as u64).as_bytes())?;
    out.extend_from_slice(b" | ")?;
    out.extend_from_slice(before)?;
    push_from(out, from)?;
    out.extend_from_slice(b"\n")
}

/// Adds the line below the text: so many carets, `indent` columns in.
fn push_caret_line(
    out: &mut Vec<u8>,
    line: usize,
    indent: usize,
    carets: usize,
) -> Result<(), AllocError>
    ensures { OnOk result (out.new.items ≡ out.old.items ++ caret_line line indent carets) }
{
    push_margin(out, line)?;
    out.extend_from_slice(b"| ")?;
    push_times(out, b' ', indent)?;
    push_times(out, b'^', carets)
}

/// A line of this number with carets below it, under the first signs that stand from a place in it on.
pub(crate) fn framed(
    alloc: Global,
    line: usize,
    before: &[u8],
    from: &[u8],
    marked: usize,
) -> Result<Vec<u8>, AllocError>
    ensures { IfOk result
        (λ v. v.items ≡ framed line (signs before.now) (signs from.now) marked) }
{
    let before = shown_before(alloc, before)?;
    let carets = caret_count(alloc, from, marked)?;
    let mut out = Vec::new(alloc);
    push_rule_line(&mut out, line)?;
    push_text_line(&mut out, line, &before, from)?;
    push_caret_line(&mut out, line, columns(&before), carets)?;
    Ok(out)
}

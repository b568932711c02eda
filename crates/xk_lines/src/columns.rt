//! Columns, counted from marks that were set once.

ghost use Rattle.std.specs.Prelude.{◌≡◌, ◌≤◌, length, take, drop, slice_range, IfOk};
ghost use Rattle.xk_lines.specs.Columns.{AreMarks};
ghost use Rattle.xk_lines.specs.Lines.{columns};

use std::alloc::{AllocError, Global};
use std::marker::Model;

/// How far two marks are from one another.
const STEP: usize = 64;

/// How many columns the bytes take.
pub(crate) fn columns(bytes: &[u8]) -> usize
    ensures count { result ≡ columns bytes.now }
    ensures within { result ≤ length bytes.now }
{
    bytes.iter().filter(|b| **b < 128 || **b > 191).count()
}

/// A text, and how many columns stand before its marks: what counts columns without reading all of a line.
#[derive(Drop)]
pub(crate) struct ColumnMarks<'t> {
    text: &'t [u8],
    marks: Vec<usize>,
}

impl<'t> Model for ColumnMarks<'t> {
    ghost use Rattle.std.specs.Prelude.{ℕ, List};
    ghost use Rattle.xk_lines.specs.Columns.{AreMarks};

    ghost Value = { List ℕ };

    ghost view = { λ c. c.text.now };

    ghost invariant = { λ c. AreMarks c.text.now c.marks.items };
}

/// How many columns stand before each mark.
fn marks_of(alloc: Global, text: &[u8]) -> Result<Vec<usize>, AllocError>
    ensures { IfOk result (λ v. AreMarks text.now v.items) }
{
    let count = text.len() / STEP + 1;
    let mut marks = Vec::with_capacity(alloc, count)?;
    let mut seen = 0;
    for k in 0..count {
        marks.push(seen)?;
        seen += columns(stretch(text, k * STEP));
    }
    Ok(marks)
}

/// What stands from a mark up to the next one, or to the text's end.
fn stretch(text: &[u8], from: usize) -> &[u8]
    requires { from ≤ length text.now }
    ensures { result.now ≡ take 64 (drop from text.now) }
{
    let rest = &text[from..];
    &rest[..rest.len().min(STEP)]
}

impl<'t> ColumnMarks<'t> {
    /// The marks of a text. Err where memory was refused.
    pub(crate) fn new(alloc: Global, text: &'t [u8]) -> Result<ColumnMarks<'t>, AllocError>
        ensures { IfOk result (λ c. c ≡ text.now) }
    {
        let marks = marks_of(alloc, text)?;
        Ok(ColumnMarks { text, marks })
    }

    /// How many columns stand before an offset, from the beginning of the text.
    fn before(&self, at: usize) -> usize
        requires { at ≤ length self.now }
        ensures count { result ≡ columns (take at self.now) }
        ensures within { result ≤ at }
    {
        let mark = at / STEP;
        self.marks[mark] + columns(&self.text[mark * STEP..at])
    }

    /// How many columns stand between two offsets.
    pub(crate) fn between(&self, from: usize, to: usize) -> usize
        requires order { from ≤ to }
        requires inside { to ≤ length self.now }
        ensures count { result ≡ columns (slice_range self.now from to) }
        ensures within { result ≤ length self.now }
    {
        self.before(to) - self.before(from)
    }
}

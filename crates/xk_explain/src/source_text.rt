//! A source text with its lines: what each line that is said of it needs.

use crate::places::marked_from;
use std::alloc::{AllocError, Global};
use std::marker::Model;
use xk_lines::{LineStarts, Position};

/// A source text, and where its lines begin.
#[derive(Drop)]
pub struct SourceText<'t> {
    text: &'t [u8],
    lines: LineStarts<'t>,
}

impl<'t> Model for SourceText<'t> {
    ghost use Rattle.std.specs.Prelude.{◌≡◌, ℕ, List};

    ghost Value = { List ℕ };

    ghost view = { λ s. s.text.now };

    ghost invariant = { λ s. s.lines ≡ s.text.now };
}

impl<'t> SourceText<'t> {
    ghost use Rattle.std.specs.Prelude.{◌≡◌, ◌≤◌, IfOk, length, min};
    ghost use Rattle.xk_lines.specs.Lines.{position_of};
    ghost use Rattle.xk_explain.specs.SourceExplanations.{mark_end};

    /// The text of these bytes. Err where memory was refused.
    pub fn new(alloc: Global, text: &'t [u8]) -> Result<SourceText<'t>, AllocError>
        ensures { IfOk result (λ s. s ≡ text.now) }
    {
        let lines = LineStarts::new(alloc, text)?;
        Ok(SourceText { text, lines })
    }

    /// Its bytes.
    pub fn bytes(&self) -> &'t [u8]
        ensures { result.now ≡ self.now }
    {
        self.text
    }

    /// Its lines.
    pub fn lines(&self) -> &LineStarts<'t>
        ensures { result.now ≡ self.now }
    {
        &self.lines
    }

    /// The line and column of an offset, no further than where the text ends.
    pub fn nearest(&self, at: usize) -> Position
        ensures { result ≡ position_of self.now (min at (length self.now)) }
    {
        self.lines.position(at.min(self.text.len()))
    }

    /// The offset behind what carets mark from an offset on: the name or number that begins there, or one sign.
    pub fn mark_end(&self, at: usize) -> usize
        requires { at ≤ length self.now }
        ensures end { result ≡ mark_end self.now at }
        ensures within { result ≤ length self.now }
    {
        at + marked_from(self.text, at).min(self.text.len() - at)
    }
}

//! A source text, and where its lines begin.

ghost use Rattle.std.specs.Prelude.{◌≡◌, IfOk};

use std::alloc::{AllocError, Global};
use std::marker::Model;
use xk_lines::LineStarts;

/// A source text, and where its lines begin.
#[derive(Drop)]
pub(crate) struct SourceText<'t> {
    pub text: &'t [u8],
    pub lines: LineStarts<'t>,
}

impl<'t> Model for SourceText<'t> {
    ghost use Rattle.std.specs.Prelude.{◌≡◌, ℕ, List};

    ghost Value = { List ℕ };

    ghost view = { λ s. s.text.now };

    ghost invariant = { λ s. s.lines ≡ s.text.now };
}

impl<'t> SourceText<'t> {
    /// A text with its lines. Err where memory was refused.
    pub(crate) fn new(alloc: Global, text: &'t [u8]) -> Result<SourceText<'t>, AllocError>
        ensures { IfOk result (λ s. s ≡ text.now) }
    {
        let lines = LineStarts::new(alloc, text)?;
        Ok(SourceText { text, lines })
    }
}

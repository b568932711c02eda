//! Numbers in a row, each after a blank: a text in memory.

ghost use Rattle.std.specs.Prelude.{◌≡◌, ◌++◌, IfOk, OnOk, string_bytes};
ghost use Rattle.xk_io.specs.Row.{number_text, numbers_text};

use std::alloc::{AllocError, Global};

/// Numbers, each after a blank. Err where memory was refused.
pub fn numbers_text(alloc: Global, numbers: &[i64]) -> Result<String, AllocError>
    ensures { IfOk result (λ text. string_bytes text ≡ numbers_text numbers.now) }
{
    let mut text = String::new(alloc);
    for number in numbers {
        let piece = number_text(alloc, *number)?;
        put(&mut text, piece)?;
    }
    Ok(text)
}

/// A number, after a blank.
fn number_text(alloc: Global, number: i64) -> Result<String, AllocError>
    ensures { IfOk result (λ text. string_bytes text ≡ number_text number) }
{
    format!(in alloc; " {number}")
}

/// Puts a piece behind a text. Err where memory was refused.
pub fn put(text: &mut String, piece: String) -> Result<(), AllocError>
    ensures { OnOk result
        (string_bytes text.new ≡ string_bytes text.old ++ string_bytes piece) }
{
    text.push_str(piece.as_str())?;
    Ok(())
}

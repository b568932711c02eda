//! Fields of a line.

ghost use Rattle.std.specs.Prelude.{◌≡◌, ◌++◌, replicate, OnOk};
ghost use Rattle.xk_show_lanes.specs.Fields.{at_left, at_right, trimmed, whole_line};

use std::alloc::AllocError;

/// Adds a text. Err where memory was refused.
pub fn push_text(out: &mut Vec<u8>, text: &str) -> Result<(), AllocError>
    ensures { OnOk result (out.new.items ≡ out.old.items ++ text.now) }
{
    out.extend_from_slice(text.as_bytes())
}

/// Adds a byte so many times. Err where memory was refused.
pub fn push_times(out: &mut Vec<u8>, byte: u8, count: usize) -> Result<(), AllocError>
    ensures { OnOk result (out.new.items ≡ out.old.items ++ replicate count byte) }
{
    for _ in 0..count {
        out.push(byte)?;
    }
    Ok(())
}

/// Adds a field of this width at least, what it says at its left.
#[tactic(auto, unfolding(crate::specs::Fields::at_left))]
pub(crate) fn push_at_left(out: &mut Vec<u8>, width: usize, field: &[u8]) -> Result<(), AllocError>
    ensures { OnOk result (out.new.items ≡ out.old.items ++ at_left width field.now) }
{
    out.extend_from_slice(field)?;
    push_times(out, b' ', width.saturating_sub(field.len()))
}

/// Adds a field of this width at least, what it says at its right. Err where memory was refused.
#[tactic(auto, unfolding(crate::specs::Fields::at_right))]
pub fn push_at_right(out: &mut Vec<u8>, width: usize, field: &[u8]) -> Result<(), AllocError>
    ensures { OnOk result (out.new.items ≡ out.old.items ++ at_right width field.now) }
{
    push_times(out, b' ', width.saturating_sub(field.len()))?;
    out.extend_from_slice(field)
}

/// A line without the blanks at its end.
fn trimmed(line: &[u8]) -> &[u8]
    ensures { result.now ≡ trimmed line.now }
{
    line.trim_ascii_end()
}

/// Adds a line, without the blanks at its end. Err where memory was refused.
#[tactic(auto, unfolding(crate::specs::Fields::whole_line))]
pub fn push_line(out: &mut Vec<u8>, line: &[u8]) -> Result<(), AllocError>
    ensures { OnOk result (out.new.items ≡ out.old.items ++ whole_line line.now) }
{
    out.extend_from_slice(trimmed(line))?;
    push_text(out, "\n")
}

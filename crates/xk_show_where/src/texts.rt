//! Pieces of the text.

ghost use Rattle.std.specs.Prelude.{◌≡◌, ◌++◌, OnOk};
ghost use Rattle.xk_show_where.specs.Where.{act_word, more_words};

use std::alloc::{AllocError, Global};

/// Adds a text.
pub(crate) fn push_text(out: &mut Vec<u8>, text: &str) -> Result<(), AllocError>
    ensures { OnOk result (out.new.items ≡ out.old.items ++ text.now) }
{
    out.extend_from_slice(text.as_bytes())
}

/// Adds an activity, after a blank.
pub(crate) fn push_act(alloc: Global, out: &mut Vec<u8>, act: u32) -> Result<(), AllocError>
    ensures { OnOk result (out.new.items ≡ out.old.items ++ act_word act) }
{
    push_text(out, format!(in alloc; " {act}")?.as_str())
}

/// Adds how many more there are, if some are.
pub(crate) fn push_more(alloc: Global, out: &mut Vec<u8>, count: usize) -> Result<(), AllocError>
    ensures { OnOk result (out.new.items ≡ out.old.items ++ more_words count) }
{
    if count == 0 {
        return Ok(());
    }
    push_text(out, format!(in alloc; " and {count} more")?.as_str())
}

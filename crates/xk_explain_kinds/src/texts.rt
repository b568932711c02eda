//! Texts that notes are made of.

ghost use Rattle.std.specs.Prelude.{◌≡◌, ◌++◌, IfOk, OnOk};
ghost use Rattle.xk_explain_words.specs.Names.{told_name};

use std::alloc::{AllocError, Global};
use xk_explain_words::told_name;

/// Adds a text.
pub fn push_text(out: &mut Vec<u8>, text: &str) -> Result<(), AllocError>
    ensures { OnOk result (out.new.items ≡ out.old.items ++ text.now) }
{
    out.extend_from_slice(text.as_bytes())
}

/// What stands there between two texts.
pub(crate) fn around(
    alloc: Global,
    before: &str,
    words: &[u8],
    behind: &str,
) -> Result<Vec<u8>, AllocError>
    ensures { IfOk result (λ v. v.items ≡ (before.now ++ words.now) ++ behind.now) }
{
    let mut out = Vec::new(alloc);
    push_text(&mut out, before)?;
    out.extend_from_slice(words)?;
    push_text(&mut out, behind)?;
    Ok(out)
}

/// A name between two texts.
pub fn around_name(
    alloc: Global,
    before: &str,
    name: &[u8],
    behind: &str,
) -> Result<Vec<u8>, AllocError>
    ensures { IfOk result (λ v. v.items ≡ (before.now ++ told_name name.now) ++ behind.now) }
{
    let told = told_name(alloc, name)?;
    around(alloc, before, &told, behind)
}

/// A name twice, between three texts.
pub fn around_twice(
    alloc: Global,
    before: &str,
    name: &[u8],
    between: &str,
    behind: &str,
) -> Result<Vec<u8>, AllocError>
    ensures { IfOk result (λ v. v.items ≡ (((before.now ++ told_name name.now) ++ between.now)
        ++ told_name name.now) ++ behind.now) }
{
    let told = told_name(alloc, name)?;
    let mut out = around(alloc, before, &told, between)?;
    out.extend_from_slice(&told)?;
    push_text(&mut out, behind)?;
    Ok(out)
}

//! Names as they are told inside a line.

ghost use Rattle.std.specs.Prelude.{◌≡◌, ◌++◌, take, IfOk, OnOk};
ghost use Rattle.xk_explain_words.specs.Names.{name_mark, told_name};

use std::alloc::{AllocError, Global};

/// How many letters of a name are told inside a line.
const TOLD: usize = 60;

/// What stands for the other letters of a name, if it has more.
fn name_mark(name: &[u8]) -> &'static str
    ensures { result.now ≡ name_mark name.now }
{
    if name.len() > TOLD {
        return "..";
    }
    ""
}

/// The first letters of a name.
fn first_letters(name: &[u8]) -> &[u8]
    ensures { result.now ≡ take 60 name.now }
{
    &name[..name.len().min(TOLD)]
}

/// Adds a name as it is told inside a line.
pub fn push_name(out: &mut Vec<u8>, name: &[u8]) -> Result<(), AllocError>
    ensures { OnOk result (out.new.items ≡ out.old.items ++ told_name name.now) }
{
    out.extend_from_slice(first_letters(name))?;
    out.extend_from_slice(name_mark(name).as_bytes())
}

/// A name as it is told inside a line: no more than 60 letters of it, with `..` for the others. Err where memory was refused.
pub fn told_name(alloc: Global, name: &[u8]) -> Result<Vec<u8>, AllocError>
    ensures { IfOk result (λ v. v.items ≡ told_name name.now) }
{
    let mut out = Vec::new(alloc);
    push_name(&mut out, name)?;
    Ok(out)
}

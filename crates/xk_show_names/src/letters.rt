//! How much of a name is told.

ghost use Rattle.std.specs.Prelude.{◌≡◌, take, IfOk};
ghost use Rattle.xk_show_names.specs.Letters.{cut_name};

use std::alloc::{AllocError, Global};

/// How many letters of a name are told.
const TOLD: usize = 30;

/// The first letters of a name.
fn first_letters(name: &[u8]) -> &[u8]
    ensures { result.now ≡ take 30 name.now }
{
    &name[..name.len().min(TOLD)]
}

/// No more than 30 letters of a name, and `..` for the others. Err where memory was refused.
pub(crate) fn cut_name(alloc: Global, name: &[u8]) -> Result<Vec<u8>, AllocError>
    ensures { IfOk result (λ v. v.items ≡ cut_name name.now) }
{
    let mut letters = Vec::new(alloc);
    letters.extend_from_slice(first_letters(name))?;
    if name.len() > TOLD {
        letters.extend_from_slice(b"..")?;
        return Ok(letters);
    }
    Ok(letters)
}

//! The names of shared numbers.

ghost use Rattle.std.specs.Prelude.{◌≡◌, map, IfOk};
ghost use Rattle.xk_tree.specs.Tree.{shared_value};
ghost use Rattle.xk_names.specs.Captures.{shared_texts};

use std::alloc::{AllocError, Global};
use xk_tree::Shared;

/// The names of these shared numbers, in their order.
pub(crate) fn shared_names<'t>(
    alloc: Global,
    shared: &[Shared<'t>],
) -> Result<Vec<&'t [u8]>, AllocError>
    ensures { IfOk result
        (λ v. map (λ x. x.now) v.items ≡ shared_texts (map shared_value shared.now)) }
{
    let mut names = Vec::new(alloc);
    for number in shared {
        names.push(number.name.text)?;
    }
    Ok(names)
}

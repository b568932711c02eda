//! The clocks that advanced in a step.

ghost use Rattle.std.specs.Prelude.{◌≡◌, IfOk};
ghost use Rattle.xk_core.specs.Core.{advanced_now};

use std::alloc::{AllocError, Global};
use xk_core::Core;

/// The clocks that advanced in the last step, rising. Where none did no list is made. Err where memory was refused.
#[tactic(auto, using(crate::proofs::AdvanceLemmas::none_advanced))]
pub fn advanced(alloc: Global, core: &Core<'_>) -> Result<Vec<u32>, AllocError>
    ensures { IfOk result (λ v. v.items ≡ advanced_now core.now.world) }
{
    if core.is_quiet() {
        return Ok(Vec::new(alloc));
    }
    let mut clocks = Vec::with_capacity(alloc, core.clocks() as usize)?;
    core.list_advanced(&mut clocks);
    Ok(clocks)
}

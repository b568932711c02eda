//! How a count is told.

ghost use Rattle.std.specs.Prelude.{◌≡◌, IfOk, string_bytes};
ghost use Rattle.xk_outcome_count.specs.Text.{count_line};

use crate::counting::Counted;
use std::alloc::{AllocError, Global};

/// `outcomes 6 complete`, or, where there may be others, `outcomes 6 and perhaps more`. Err where memory was refused.
pub fn count_line(alloc: Global, counted: Counted) -> Result<String, AllocError>
    ensures { IfOk result (λ text. string_bytes text ≡ count_line counted) }
{
    let count = counted.count;
    if counted.complete {
        return format!(in alloc; "outcomes {count} complete\n");
    }
    format!(in alloc; "outcomes {count} and perhaps more\n")
}

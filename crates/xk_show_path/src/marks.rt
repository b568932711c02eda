//! Marks: how many steps of a path have each number.

ghost use Rattle.std.specs.Prelude.{◌≡◌, ◌++◌, IfOk, OnOk};
ghost use Rattle.xk_show_path.specs.Rounds.{AreMarks};

use std::alloc::{AllocError, Global};
use xk_show_events::RunStep;
use xk_span_summary::add_one;

/// Counts the steps of a path by their numbers.
pub(crate) fn marks_of(alloc: Global, path: &[RunStep]) -> Result<Vec<usize>, AllocError>
    ensures { IfOk result (λ v. AreMarks path.now v.items) }
{
    let mut marks = Vec::new(alloc);
    for step in path {
        add_one(&mut marks, step.number as usize)?;
    }
    Ok(marks)
}

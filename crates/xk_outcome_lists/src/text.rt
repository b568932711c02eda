//! How outcomes are told.

ghost use Rattle.std.specs.Prelude.{◌≡◌, ◌++◌, ◌&&◌, not, codes, decimal, IfOk, string_bytes};
ghost use Rattle.xk_outcome_lists.specs.Text.{completeness, outcome_line, outcomes_text};

use std::alloc::{AllocError, Global};
use xk_io::{numbers_text, put};
use xk_outcomes::Outcome;

/// A line for each outcome, numbered from 1, as `outcome 2 prints 10 21`, and a last one: `outcomes 6 complete`, or, where there may be others,
/// `outcomes 6 and perhaps more`. Err where memory was refused.
pub fn outcomes_text(alloc: Global, list: &[Outcome], complete: bool) -> Result<Vec<u8>, AllocError>
    ensures { IfOk result (λ text. text.items ≡ outcomes_text list.now complete) }
{
    let mut text = String::new(alloc);
    for (i, outcome) in list.iter().enumerate() {
        let line = outcome_line(alloc, i + 1, outcome)?;
        put(&mut text, line)?;
    }
    let last = last_line(alloc, list.len(), complete)?;
    put(&mut text, last)?;
    Ok(text.into_bytes())
}

/// Whether an answer is whole: all is told, and the log is there if it is to be kept.
pub fn is_whole(complete: bool, keeps_log: bool, is_kept: bool) -> bool
    ensures { result ≡ (complete && not (keeps_log && not is_kept)) }
{
    complete && !(keeps_log && !is_kept)
}

/// The line of the outcome of this number.
pub(crate) fn outcome_line(
    alloc: Global,
    number: usize,
    outcome: &Outcome,
) -> Result<String, AllocError>
    ensures { IfOk result
        (λ text. string_bytes text ≡ outcome_line number outcome.now.numbers.items) }
{
    let numbers = numbers_text(alloc, &outcome.numbers)?;
    format!(in alloc; "outcome {number} prints{numbers}\n")
}

/// The last line.
pub(crate) fn last_line(alloc: Global, count: usize, complete: bool) -> Result<String, AllocError>
    ensures { IfOk result (λ text. string_bytes text
        ≡ codes "outcomes " ++ (decimal count ++ completeness complete)) }
{
    if complete {
        return format!(in alloc; "outcomes {count} complete\n");
    }
    format!(in alloc; "outcomes {count} and perhaps more\n")
}

//! How a tally is told.

ghost use Rattle.std.specs.Prelude.{◌≡◌, map, IfOk, string_bytes};
ghost use Rattle.xk_random.specs.Shares.{share_value};
ghost use Rattle.xk_random.specs.Tally.{last_line, share_line, tally_text};

use crate::share::Share;
use indexmap::IndexMap;
use std::alloc::{AllocError, Global};
use xk_io::{numbers_text, put};

/// A line for each list of numbers that was printed, as `runs 22 first seed 4 prints 90 10`, and a last one: `runs 100 outcomes 4`.
pub fn tally_text(
    alloc: Global,
    runs: u64,
    shares: &IndexMap<Vec<i64>, Share>,
) -> Result<Vec<u8>, AllocError>
    ensures { IfOk result (λ text.
        text.items ≡ tally_text runs (map share_value shares.now.entries)) }
{
    let mut text = String::new(alloc);
    for (numbers, share) in shares {
        let line = share_line(alloc, numbers, share)?;
        put(&mut text, line)?;
    }
    let last = last_line(alloc, runs, shares.len())?;
    put(&mut text, last)?;
    Ok(text.into_bytes())
}

/// The line of runs that printed the same.
fn share_line(alloc: Global, numbers: &Vec<i64>, share: &Share) -> Result<String, AllocError>
    ensures { IfOk result
        (λ text. string_bytes text ≡ share_line (share_value (numbers.now, share.now))) }
{
    let numbers = numbers_text(alloc, numbers)?;
    let (runs, first) = (share.runs, share.first);
    format!(in alloc; "runs {runs} first seed {first} prints{numbers}\n")
}

/// The last line.
fn last_line(alloc: Global, runs: u64, outcomes: usize) -> Result<String, AllocError>
    ensures { IfOk result (λ text. string_bytes text ≡ last_line runs outcomes) }
{
    format!(in alloc; "runs {runs} outcomes {outcomes}\n")
}

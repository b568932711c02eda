//! The entries of the first steps of a log.

ghost use Rattle.std.specs.Prelude.{◌≡◌, ◌-◌, ◌<◌, ℕ, List, take, IfOk, option_to_list};
ghost use Rattle.xk_types.specs.declared.world.Entry.{Entry as EntryValue};
ghost use Rattle.xk_types.specs.Logs.{schedule_of};
ghost use Rattle.xk_beginnings.specs.Beginnings.{cut_entry, end_before, first_steps, steps_in};

use std::alloc::{AllocError, Global};
use xk_types::Entry;

/// The entries of the first steps of a log, so many, or all where it has fewer. Err where memory was refused.
pub fn first_steps(alloc: Global, log: &[Entry], count: u64) -> Result<Vec<Entry>, AllocError>
    ensures { IfOk result (λ v. v.items ≡ first_steps count log.now) }
{
    let mut beginning = Vec::new(alloc);
    let mut left = count;
    for entry in log {
        let steps = u64::from(entry.steps);
        if left < steps {
            if let Some(cut) = cut_entry(*entry, left) {
                beginning.push(cut)?;
            }
            return Ok(beginning);
        }
        beginning.push(*entry)?;
        left -= steps;
    }
    Ok(beginning)
}

/// So many of an entry's steps, which has more; none of them is no entry.
fn cut_entry(entry: Entry, steps: u64) -> Option<Entry>
    requires { steps < entry.steps }
    ensures { option_to_list result ≡ cut_entry steps entry }
{
    if steps == 0 {
        return None;
    }
    Some(Entry {
        act: entry.act,
        steps: steps as u32,
    })
}

/// How many steps a log lacks to have so many: 0 where it has them.
pub fn lacking(log: &[Entry], count: u64) -> u64
    ensures { result ≡ count - steps_in log.now }
{
    let mut left = count;
    for entry in log {
        left = left.saturating_sub(u64::from(entry.steps));
    }
    left
}

/// The last step of a log that has fewer than so many; None where it has them.
pub fn end_before(log: &[Entry], count: u64) -> Option<u64>
    ensures { result ≡ end_before count log.now }
{
    let lacking = lacking(log, count);
    if lacking == 0 {
        return None;
    }
    Some(count - lacking)
}

/// What the first steps of a log are: the beginning of its schedule. Nothing here is computed.
pub fn beginnings()
    ensures { (n : ℕ) (log : List EntryValue)
        → schedule_of (first_steps n log) ≡ take n (schedule_of log) }
{}

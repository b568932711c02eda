//! What stands in a row, by the steps of its round.

ghost use Rattle.std.specs.Prelude.{◌≡◌, ◌++◌, option_map, IfOk, OnOk, string_bytes};
ghost use Rattle.xk_show_events.specs.Worlds.{each_below};
ghost use Rattle.xk_show_lanes.specs.Fields.{at_left};
ghost use Rattle.xk_show_rounds.specs.RoundRows.{cell, deed_of, laneless, more_by, shown, step_of};

use std::alloc::{AllocError, Global};
use xk_show_events::is_seen;
use xk_show_lanes::{Grid, push_text, push_times};
use xk_show_names::{Account, Names};
use xk_show_picture::words_of;

/// The step of an activity, if one of these is.
fn step_of(steps: &[Account], act: u32) -> Option<&Account>
    ensures { option_map (λ a. a.now) result ≡ step_of steps.now act }
{
    steps.iter().find(|account| account.step.act == act)
}

/// What an activity does that takes this step, or none.
fn deed_of(
    alloc: Global,
    names: &Option<Names<'_>>,
    step: Option<&Account>,
) -> Result<String, AllocError>
    ensures { IfOk result (λ text. string_bytes text
        ≡ deed_of names.now (option_map (λ a. a.now) step.entry)) }
{
    match step {
        None => format!(in alloc; ""),
        Some(account) => {
            if is_seen(account.step.event) {
                words_of(alloc, names, account)
            } else {
                format!(in alloc; ".")
            }
        }
    }
}

/// Adds a field of this width at least, what it says at its left.
#[tactic(auto, unfolding(xk_show_lanes::specs::Fields::at_left))]
pub(crate) fn push_at_left(out: &mut Vec<u8>, width: usize, field: &[u8]) -> Result<(), AllocError>
    ensures { OnOk result (out.new.items ≡ out.old.items ++ at_left width field.now) }
{
    out.extend_from_slice(field)?;
    push_times(out, b' ', width.saturating_sub(field.len()))
}

/// Adds what an activity does, by the steps of its round.
fn push_cell(
    alloc: Global,
    out: &mut Vec<u8>,
    grid: Grid,
    names: &Option<Names<'_>>,
    steps: &[Account],
    act: u32,
) -> Result<(), AllocError>
    ensures { OnOk result (out.new.items ≡ out.old.items ++ cell grid names.now steps.now act) }
{
    let words = deed_of(alloc, names, step_of(steps, act))?;
    push_at_left(out, grid.lane, words.as_bytes())
}

/// Adds what those do that have a lane.
fn push_cells(
    alloc: Global,
    out: &mut Vec<u8>,
    grid: Grid,
    names: &Option<Names<'_>>,
    steps: &[Account],
) -> Result<(), AllocError>
    ensures { OnOk result (out.new.items ≡ out.old.items
        ++ each_below (cell grid names.now steps.now) grid.lanes) }
{
    for act in 0..grid.lanes {
        push_cell(alloc, out, grid, names, steps, act)?;
    }
    Ok(())
}

/// How many of these steps are of activities that have no lane.
fn laneless(grid: Grid, steps: &[Account]) -> usize
    ensures { result ≡ laneless grid steps.now }
{
    steps
        .iter()
        .filter(|account| grid.lanes <= account.step.act)
        .count()
}

/// Adds that so many more take a step.
fn push_more(alloc: Global, out: &mut Vec<u8>, count: usize) -> Result<(), AllocError>
    ensures { OnOk result (out.new.items ≡ out.old.items ++ more_by count) }
{
    if count == 0 {
        return Ok(());
    }
    push_text(out, format!(in alloc; "and {count} more")?.as_str())
}

/// What stands in the row of a round with these steps.
pub(crate) fn shown(
    alloc: Global,
    grid: Grid,
    names: &Option<Names<'_>>,
    steps: &[Account],
) -> Result<Vec<u8>, AllocError>
    ensures { IfOk result (λ v. v.items ≡ shown grid names.now steps.now) }
{
    let mut out = Vec::new(alloc);
    push_cells(alloc, &mut out, grid, names, steps)?;
    push_more(alloc, &mut out, laneless(grid, steps))?;
    Ok(out)
}

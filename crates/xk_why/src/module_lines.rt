//! The lines of steps of a module that has no text, as they stand among those of a run.

ghost use Rattle.std.specs.Prelude.{◌≡◌, ◌++◌, flat_map, IfOk, OnOk, string_bytes};
ghost use Rattle.xk_why.specs.ModuleLines.{event_if, event_why_lines, events_for, has_number};

use crate::lines::{count_line, first_shown, put};
use std::alloc::{AllocError, Global};
use xk_show_events::{Places, RunStep, event_line};

/// Whether one of these steps has this number.
pub(crate) fn has_number(steps: &[RunStep], number: u64) -> bool
    ensures { result ≡ has_number steps.now number }
{
    steps.iter().any(|step| step.number == number)
}

/// Adds the line of a step, if it has this number.
fn put_event_if(
    text: &mut String,
    alloc: Global,
    places: &Places<'_>,
    number: u64,
    step: &RunStep,
) -> Result<(), AllocError>
    ensures { OnOk result (string_bytes text.new ≡ string_bytes text.old
        ++ event_if places.now number step.now) }
{
    if step.number != number {
        return Ok(());
    }
    let line = event_line(alloc, places, step)?;
    put(text, line.as_str())
}

/// Adds the line of the one of these steps that has this number.
fn put_events_for(
    text: &mut String,
    alloc: Global,
    places: &Places<'_>,
    steps: &[RunStep],
    number: u64,
) -> Result<(), AllocError>
    ensures { OnOk result (string_bytes text.new ≡ string_bytes text.old
        ++ events_for places.now steps.now number) }
{
    for step in steps {
        put_event_if(text, alloc, places, number, step)?;
    }
    Ok(())
}

/// Adds the lines of the ones of these steps that have these numbers.
fn put_events(
    text: &mut String,
    alloc: Global,
    places: &Places<'_>,
    steps: &[RunStep],
    numbers: &[u64],
) -> Result<(), AllocError>
    ensures { OnOk result (string_bytes text.new ≡ string_bytes text.old
        ++ flat_map (events_for places.now steps.now) numbers.now) }
{
    for number in numbers {
        put_events_for(text, alloc, places, steps, *number)?;
    }
    Ok(())
}

/// The line of a step, those of the steps that it rests on, and how many these are.
pub(crate) fn event_why_lines(
    alloc: Global,
    places: &Places<'_>,
    steps: &[RunStep],
    number: u64,
    rest: &[u64],
) -> Result<String, AllocError>
    ensures { IfOk result (λ text. string_bytes text
        ≡ event_why_lines places.now steps.now number rest.now) }
{
    let mut text = String::new(alloc);
    put_events_for(&mut text, alloc, places, steps, number)?;
    put_events(&mut text, alloc, places, steps, first_shown(rest))?;
    let count = count_line(alloc, rest.len())?;
    put(&mut text, count.as_str())?;
    Ok(text)
}

//! Where activities waited, a line each.

ghost use Rattle.std.specs.Prelude.{◌≡◌, ◌++◌, flat_map, IfOk, OnOk, string_bytes};
ghost use Rattle.xk_show_span.specs.Text.{wait_line, wait_line_at, wait_line_if_any, waits_text};

use std::alloc::{AllocError, Global};
use xk_show_events::{Places, event_words, place_words};
use xk_span_summary::{Count, Wait, greatest_few, rounds_waited, wait_at};

/// `waited 82 rounds at 11:17 pass, 4 times`.
#[tactic(auto, unfolding(crate::specs::Text::wait_line))]
fn wait_line(alloc: Global, places: &Places<'_>, wait: &Wait) -> Result<String, AllocError>
    ensures { IfOk result (λ text. string_bytes text ≡ wait_line places.now wait.now) }
{
    let rounds = wait.rounds;
    let times = wait.times;
    let origin = places.origin(wait.step.unit, wait.step.place);
    let place = place_words(alloc, wait.step.unit, wait.step.place, origin)?;
    let words = event_words(alloc, &wait.step)?;
    format!(in alloc; "waited {rounds} rounds {place} {words}, {times} times\n")
}

/// The line of a wait, if there is one.
fn wait_line_if_any(
    alloc: Global,
    places: &Places<'_>,
    wait: Option<Wait>,
) -> Result<String, AllocError>
    ensures { IfOk result (λ text. string_bytes text ≡ wait_line_if_any places.now wait) }
{
    match wait {
        Some(wait) => wait_line(alloc, places, &wait),
        None => Ok(String::new(alloc)),
    }
}

/// Adds the line of a wait that is counted.
fn push_line_at(
    alloc: Global,
    out: &mut Vec<u8>,
    places: &Places<'_>,
    waits: &[Wait],
    count: Count,
) -> Result<(), AllocError>
    ensures { OnOk result (out.new.items ≡ out.old.items
        ++ wait_line_at places.now waits.now count) }
{
    let line = wait_line_if_any(alloc, places, wait_at(waits, count.number))?;
    out.extend_from_slice(line.as_bytes())?;
    Ok(())
}

/// The lines of waits that are counted.
fn wait_lines(
    alloc: Global,
    places: &Places<'_>,
    waits: &[Wait],
    counts: &[Count],
) -> Result<Vec<u8>, AllocError>
    ensures { IfOk result (λ v. v.items
        ≡ flat_map (wait_line_at places.now waits.now) counts.now) }
{
    let mut out = Vec::new(alloc);
    for count in counts {
        push_line_at(alloc, &mut out, places, waits, *count)?;
    }
    Ok(out)
}

/// The places where activities waited longest.
pub(crate) fn waits_text(
    alloc: Global,
    places: &Places<'_>,
    waits: &[Wait],
) -> Result<Vec<u8>, AllocError>
    ensures { IfOk result (λ v. v.items ≡ waits_text places.now waits.now) }
{
    let rounds = rounds_waited(alloc, waits)?;
    let few = greatest_few(alloc, rounds, 6)?;
    wait_lines(alloc, places, waits, &few)
}

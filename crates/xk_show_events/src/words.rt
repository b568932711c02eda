//! Steps in words.

ghost use Rattle.std.specs.Prelude.{◌≡◌, not, IfOk, string_bytes};
ghost use Rattle.xk_types.specs.Schedule.{is_local};
ghost use Rattle.xk_show_events.specs.Events.{event_line, event_name, event_words, operand, origin_of, place_words};

use crate::places::Places;
use crate::steps::RunStep;
use std::alloc::{AllocError, Global};
use xk_lines::Position;
use xk_types::Event;

/// Whether other activities can see a step.
pub fn is_seen(event: Event) -> bool
    ensures { result ≡ not (is_local event) }
{
    !matches!(event, Event::Local)
}

/// What a step did, in a word.
fn event_name(event: Event) -> &'static str
    ensures { result.now ≡ event_name event }
{
    match event {
        Event::Local => "local",
        Event::Printed(_) => "print",
        Event::Made => "make",
        Event::Got => "read",
        Event::Put => "write",
        Event::Added => "add",
        Event::Opened => "finish",
        Event::Closed => "endfinish",
        Event::Spawned => "async",
        Event::Resumed => "resume",
        Event::Dropped => "drop",
        Event::Arrived => "arrive",
        Event::Passed => "pass",
        Event::Ended => "end",
    }
}

/// The number that was printed, or that of what was made, after a blank.
fn operand(alloc: Global, clocks: u32, activities: u32, event: Event) -> Result<String, AllocError>
    ensures { IfOk result (λ text. string_bytes text ≡ operand clocks activities event) }
{
    match event {
        Event::Printed(number) => format!(in alloc; " {number}"),
        Event::Made => format!(in alloc; " {clocks}"),
        Event::Spawned => format!(in alloc; " {activities}"),
        _ => Ok(String::new(alloc)),
    }
}

/// What a step did: `make 0`, `arrive`, `print -5`. Err where memory was refused.
#[tactic(auto, unfolding(crate::specs::Events::event_words))]
pub fn event_words(alloc: Global, step: &RunStep) -> Result<String, AllocError>
    ensures { IfOk result (λ text. string_bytes text ≡ event_words step.now) }
{
    let name = event_name(step.event);
    let operand = operand(alloc, step.clocks, step.activities, step.event)?;
    format!(in alloc; "{name}{operand}")
}

/// Where an instruction stands: `at 6:5`, or `unit 0 place 3`. Err where memory was refused.
pub fn place_words(
    alloc: Global,
    unit: u16,
    place: u32,
    origin: Option<Position>,
) -> Result<String, AllocError>
    ensures { IfOk result (λ text. string_bytes text ≡ place_words unit place origin) }
{
    match origin {
        Some(position) => {
            let line = position.line;
            let column = position.column;
            format!(in alloc; "at {line}:{column}")
        }
        None => format!(in alloc; "unit {unit} place {place}"),
    }
}

/// The line of a step: `step 4 act 0 at 6:5 print 10`. Err where memory was refused.
#[tactic(auto, unfolding(crate::specs::Events::event_line))]
pub fn event_line(alloc: Global, places: &Places<'_>, step: &RunStep) -> Result<String, AllocError>
    ensures { IfOk result (λ text. string_bytes text ≡ event_line places.now step.now) }
{
    let number = step.number;
    let act = step.act;
    let origin = places.origin(step.unit, step.place);
    let place = place_words(alloc, step.unit, step.place, origin)?;
    let words = event_words(alloc, step)?;
    format!(in alloc; "step {number} act {act} {place} {words}\n")
}

//! The steps of a run that other activities can see, a line each.

ghost use Rattle.std.specs.Prelude.{◌≡◌, ◌++◌, flat_map, IfOk, OnOk, string_bytes};
ghost use Rattle.xk_show_events.specs.Events.{event_line, events_text, no_text};

use crate::legal_run::LegalRun;
use crate::places::Places;
use crate::steps::{RunStep, seen_steps};
use crate::words::event_line;
use std::alloc::{AllocError, Global};

/// Puts a piece behind a text.
fn put(text: &mut String, piece: String) -> Result<(), AllocError>
    ensures { OnOk result
        (string_bytes text.new ≡ string_bytes text.old ++ string_bytes piece) }
{
    text.push_str(piece.as_str())?;
    Ok(())
}

/// The lines of these steps.
fn event_lines(alloc: Global, places: &Places<'_>, steps: &[RunStep]) -> Result<String, AllocError>
    ensures { IfOk result
        (λ text. string_bytes text ≡ flat_map (event_line places.now) steps.now) }
{
    let mut text = String::new(alloc);
    for step in steps {
        let line = event_line(alloc, places, step)?;
        put(&mut text, line)?;
    }
    Ok(text)
}

/// The lines of a run.
fn events(
    alloc: Global,
    places: &Places<'_>,
    legal: &LegalRun<'_, '_>,
) -> Result<String, AllocError>
    ensures { IfOk result (λ text. string_bytes text ≡ events_text places.now
        legal.now.module.now legal.now.core.now.world.arguments legal.now.log.now) }
{
    let steps = seen_steps(alloc, legal)?;
    event_lines(alloc, places, &steps)
}

/// The steps of a run of a module without a text that other activities can see, in their order, a line each, as `step 4 act 0 unit 0 place 3
/// print 10`: which step of the run it was, counted from 1; whose; the unit and place of its instruction; and what was seen. Err where
/// memory was refused.
pub fn module_events(alloc: Global, legal: &LegalRun<'_, '_>) -> Result<String, AllocError>
    ensures { IfOk result (λ lines. string_bytes lines ≡ events_text no_text
        legal.now.module.now legal.now.core.now.world.arguments legal.now.log.now) }
{
    let places = Places::of_module(alloc)?;
    events(alloc, &places, legal)
}

//! The whole report.

ghost use Rattle.std.specs.Prelude.{◌≡◌, IfOk};
ghost use Rattle.xk_show_events.specs.Events.{no_text, places_of};
ghost use Rattle.xk_races.specs.Races.{is_race_free};
ghost use Rattle.xk_show_span.specs.Text.{span_text};

use crate::text::text_by;
use std::alloc::{AllocError, Global};
use xk_races::module_races;
use xk_scheduler::Ended;
use xk_show_events::Places;
use xk_span::time_run;
use xk_unit_origins::UnitOrigins;

/// What is told of how long a run had to take, and whether it has no race.
#[derive(Drop)]
pub struct SpanReport {
    /// The lines.
    pub text: Vec<u8>,
    /// Whether the run has no race.
    pub free: bool,
}

/// Whether the run has no race. Err where memory was refused.
pub fn is_free(alloc: Global, ended: &Ended<'_>) -> Result<bool, AllocError>
    ensures { IfOk result (λ free. free ≡ is_race_free
        ended.now.module.now ended.now.core.world.arguments ended.now.log.items) }
{
    let races = module_races(alloc, ended)?;
    Ok(races.free)
}

/// The report on a run, with these places. Err where memory was refused.
pub fn span(alloc: Global, places: &Places<'_>, ended: &Ended<'_>) -> Result<SpanReport, AllocError>
    ensures text { IfOk result (λ r. r.text.items ≡ span_text places.now
        ended.now.module.now ended.now.core.world.arguments ended.now.log.items) }
    ensures free { IfOk result (λ r. r.free ≡ is_race_free
        ended.now.module.now ended.now.core.world.arguments ended.now.log.items) }
{
    let free = is_free(alloc, ended)?;
    let timing = time_run(alloc, ended)?;
    let text = text_by(alloc, places, free, &timing)?;
    Ok(SpanReport { text, free })
}

/// How long a run of a source text's module had to take, whoever takes its steps: how many steps it took, how many of them had to come one
/// after another, the steps of such a chain by stretches of an activity, with what each waited for, and the lines of the text that have the
/// most of them. A step has to come behind an earlier one of its activity, the start of that, those by which others let the clock go that
/// it passes, and those that end in the finish that it closes. Where the run has no race, every schedule has this work and span,
/// and this widest round; else nothing is said of other runs. Of the stretches the first 200 are told, of the lines five.
/// It takes time in proportion to the deeds of the run (its steps, those at clocks counted once for each clock) and to the lines of the
/// text, and what `shown_races` of `xk_races` takes. Err where memory was refused.
pub fn source_span(
    alloc: Global,
    text: &[u8],
    origins: &[UnitOrigins<'_>],
    ended: &Ended<'_>,
) -> Result<SpanReport, AllocError>
    ensures text { IfOk result (λ r. r.text.items
        ≡ span_text (places_of text.now origins.now)
        ended.now.module.now ended.now.core.world.arguments ended.now.log.items) }
    ensures free { IfOk result (λ r. r.free ≡ is_race_free
        ended.now.module.now ended.now.core.world.arguments ended.now.log.items) }
{
    let places = Places::of_source(alloc, text, origins)?;
    span(alloc, &places, ended)
}

/// The same of a module without a text, with units and places of instructions, and no lines. Err where memory was refused.
pub fn module_span(alloc: Global, ended: &Ended<'_>) -> Result<SpanReport, AllocError>
    ensures text { IfOk result (λ r. r.text.items ≡ span_text no_text
        ended.now.module.now ended.now.core.world.arguments ended.now.log.items) }
    ensures free { IfOk result (λ r. r.free ≡ is_race_free
        ended.now.module.now ended.now.core.world.arguments ended.now.log.items) }
{
    let places = Places::of_module(alloc)?;
    span(alloc, &places, ended)
}

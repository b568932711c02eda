//! The whole value.

ghost use Rattle.std.specs.Prelude.{◌≡◌, IfOk, OnOk};
ghost use Rattle.xk_json.specs.Objects.{Gains, IsReadBack, json_line};
ghost use Rattle.xk_show_events.specs.Events.{no_text, places_of};
ghost use Rattle.xk_races.specs.Races.{is_race_free};
ghost use Rattle.xk_span.specs.Steps.{critical_steps, steps_span, work_of};
ghost use Rattle.xk_span_summary.specs.Shares.{widths_of};
ghost use Rattle.xk_span_json.specs.Span.{head_members, span_value, value_by};

use crate::head::put_head;
use crate::path::put_path;
use crate::waits::put_standstill;
use std::alloc::{AllocError, Global};
use xk_json::Object;
use xk_scheduler::Ended;
use xk_show_events::Places;
use xk_show_span::{SpanReport, is_free, work_of};
use xk_span::{Timing, time_run};
use xk_span_summary::widths_of;
use xk_unit_origins::UnitOrigins;

/// Adds work, span and rounds of a run that is timed so.
fn put_timing(
    alloc: Global,
    object: &mut Object,
    free: bool,
    timing: &Timing,
) -> Result<(), AllocError>
    requires { timing.now.span ≡ steps_span timing.now.deeds.items }
    ensures { OnOk result (Gains (head_members free (work_of timing.now.deeds.items)
        (steps_span timing.now.deeds.items)
        (widths_of timing.now.times.items timing.now.deeds.items)) object.old object.new) }
{
    let widths = widths_of(alloc, &timing.times, &timing.deeds)?;
    let work = work_of(&timing.deeds)?;
    put_head(alloc, object, free, work, timing.span, &widths)
}

/// The line of a run that is timed so.
fn line_by(
    alloc: Global,
    places: &Places<'_>,
    free: bool,
    timing: &Timing,
) -> Result<Vec<u8>, AllocError>
    requires span { timing.now.span ≡ steps_span timing.now.deeds.items }
    requires path { timing.now.path.items ≡ critical_steps timing.now.deeds.items }
    ensures text { IfOk result (λ v. v.items ≡ json_line (value_by places.now free
        timing.now.deeds.items timing.now.times.items)) }
    ensures reads_back { OnOk result (IsReadBack (value_by places.now free
        timing.now.deeds.items timing.now.times.items)) }
{
    let mut object = Object::new(alloc);
    put_timing(alloc, &mut object, free, timing)?;
    put_path(alloc, &mut object, places, &timing.path)?;
    put_standstill(alloc, &mut object, places, &timing.times, &timing.deeds)?;
    object.line(alloc)
}

/// The value of a run.
fn span(alloc: Global, places: &Places<'_>, ended: &Ended<'_>) -> Result<SpanReport, AllocError>
    ensures text { IfOk result (λ r. r.text.items ≡ json_line (span_value places.now
        ended.now.module.now ended.now.core.world.arguments ended.now.log.items)) }
    ensures reads_back { OnOk result (IsReadBack (span_value places.now
        ended.now.module.now ended.now.core.world.arguments ended.now.log.items)) }
    ensures free { IfOk result (λ r. r.free ≡ is_race_free
        ended.now.module.now ended.now.core.world.arguments ended.now.log.items) }
{
    let free = is_free(alloc, ended)?;
    let timing = time_run(alloc, ended)?;
    let text = line_by(alloc, places, free, &timing)?;
    Ok(SpanReport { text, free })
}

/// How long a run of a source text's module had to take, as one JSON value on a line: what `xk_show_span::source_span` tells, without its
/// limits: all stretches of the path, all lines that have steps of it, all phases with all who came, and all waits. It takes memory in
/// proportion to the deeds of the run. Err where memory was refused.
pub fn source_span_value(
    alloc: Global,
    text: &[u8],
    origins: &[UnitOrigins<'_>],
    ended: &Ended<'_>,
) -> Result<SpanReport, AllocError>
    ensures text { IfOk result (λ r. r.text.items
        ≡ json_line (span_value (places_of text.now origins.now)
        ended.now.module.now ended.now.core.world.arguments ended.now.log.items)) }
    ensures reads_back { OnOk result (IsReadBack (span_value (places_of text.now origins.now)
        ended.now.module.now ended.now.core.world.arguments ended.now.log.items)) }
    ensures free { IfOk result (λ r. r.free ≡ is_race_free
        ended.now.module.now ended.now.core.world.arguments ended.now.log.items) }
{
    let places = Places::of_source(alloc, text, origins)?;
    span(alloc, &places, ended)
}

/// The same of a module without a text, with units and places of instructions, and no lines. Err where memory was refused.
pub fn module_span_value(alloc: Global, ended: &Ended<'_>) -> Result<SpanReport, AllocError>
    ensures text { IfOk result (λ r. r.text.items ≡ json_line (span_value no_text
        ended.now.module.now ended.now.core.world.arguments ended.now.log.items)) }
    ensures reads_back { OnOk result (IsReadBack (span_value no_text
        ended.now.module.now ended.now.core.world.arguments ended.now.log.items)) }
    ensures free { IfOk result (λ r. r.free ≡ is_race_free
        ended.now.module.now ended.now.core.world.arguments ended.now.log.items) }
{
    let places = Places::of_module(alloc)?;
    span(alloc, &places, ended)
}

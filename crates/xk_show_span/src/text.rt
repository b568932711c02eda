//! What is told of how long a run had to take.

ghost use Rattle.std.specs.Prelude.{◌≡◌, ◌<◌, ◌++◌, IfOk, OnOk, string_bytes};
ghost use Rattle.xk_span.specs.Steps.{critical_steps, steps_span, work_of, work_with};
ghost use Rattle.xk_span_summary.specs.Shares.{widths_of};
ghost use Rattle.xk_span_summary.specs.Stretches.{stretches_of};
ghost use Rattle.xk_span_summary.specs.Waits.{waits_of};
ghost use Rattle.xk_show_span.specs.Phases.{phases_text};
ghost use Rattle.xk_show_span.specs.Text.{head_text, on_processors, processors_line, processors_text, scope_line, text_by};
ghost use Rattle.xk_show_span.specs.Text.{lines_text, path_text, two_decimals, waits_text, work_line};

use crate::lines::lines_text;
use crate::path::path_text;
use crate::phases::phases_text;
use crate::wait_lines::waits_text;
use std::alloc::{AllocError, Global};
use xk_races::{Deed, Part};
use xk_show_events::{Places, RunStep};
use xk_span::Timing;
use xk_span_summary::{
    greatest, hundredths, least_rounds, level_rounds, stretches_of, sum, waits_of, widths_of,
};

/// One more, if the deed is a step itself.
fn work_with(deed: &Deed, n: usize) -> Result<usize, AllocError>
    ensures { IfOk result (λ m. m ≡ work_with deed.now n) }
{
    if matches!(deed.part, Part::Print) {
        return sum(n, 1);
    }
    Ok(n)
}

/// How many steps there are. Err where there are 2 ^ 64 or more: no memory holds so many.
pub fn work_of(deeds: &[Deed]) -> Result<usize, AllocError>
    ensures { IfOk result (λ n. n ≡ work_of deeds.now) }
{
    let mut work = 0;
    for deed in deeds {
        work = work_with(deed, work)?;
    }
    Ok(work)
}

/// Hundredths, as `1.88`.
#[tactic(auto, unfolding(crate::specs::Text::two_decimals))]
fn two_decimals(alloc: Global, h: u128) -> Result<String, AllocError>
    ensures { IfOk result (λ text. string_bytes text ≡ two_decimals h) }
{
    let whole = h / 100;
    let tenths = h / 10 % 10;
    let rest = h % 10;
    format!(in alloc; "{whole}.{tenths}{rest}")
}

/// `work 158 span 84 parallelism 1.88 widest 4`.
#[tactic(auto, unfolding(crate::specs::Text::work_line))]
fn work_line(alloc: Global, work: usize, span: usize, widest: usize) -> Result<String, AllocError>
    ensures { IfOk result (λ text. string_bytes text ≡ work_line work span widest) }
{
    let parallelism = two_decimals(alloc, hundredths(work, span))?;
    format!(in alloc; "work {work} span {span} parallelism {parallelism} widest {widest}\n")
}

/// `on 2 processors rounds 84 to 118`.
#[tactic(auto, unfolding(crate::specs::Text::processors_line))]
fn processors_line(alloc: Global, p: usize, least: usize, most: usize) -> Result<String, AllocError>
    ensures { IfOk result (λ text. string_bytes text ≡ processors_line p least most) }
{
    format!(in alloc; "on {p} processors rounds {least} to {most}\n")
}

/// Adds the line of so many processors.
fn push_processors(
    alloc: Global,
    out: &mut Vec<u8>,
    work: usize,
    span: usize,
    widths: &[usize],
    p: usize,
) -> Result<(), AllocError>
    requires { 0 < p }
    ensures { OnOk result (out.new.items ≡ out.old.items
        ++ on_processors work span widths.now p) }
{
    let least = least_rounds(p, work, span)?;
    let most = level_rounds(p, widths)?;
    let line = processors_line(alloc, p, least, most)?;
    out.extend_from_slice(line.as_bytes())?;
    Ok(())
}

/// The lines of 2, 4 and 8 processors, if the run has no race.
fn processors_text(
    alloc: Global,
    free: bool,
    work: usize,
    span: usize,
    widths: &[usize],
) -> Result<Vec<u8>, AllocError>
    ensures { IfOk result (λ v. v.items ≡ processors_text free work span widths.now) }
{
    let mut out = Vec::new(alloc);
    if free {
        push_processors(alloc, &mut out, work, span, widths, 2)?;
        push_processors(alloc, &mut out, work, span, widths, 4)?;
        push_processors(alloc, &mut out, work, span, widths, 8)?;
    }
    Ok(out)
}

/// The first lines.
fn head_text(
    alloc: Global,
    free: bool,
    work: usize,
    span: usize,
    widths: &[usize],
) -> Result<Vec<u8>, AllocError>
    ensures { IfOk result (λ v. v.items ≡ head_text free work span widths.now) }
{
    let widest = greatest(widths).many;
    let line = work_line(alloc, work, span, widest)?;
    let more = processors_text(alloc, free, work, span, widths)?;
    let mut out = Vec::new(alloc);
    out.extend_from_slice(line.as_bytes())?;
    out.extend_from_slice(&more)?;
    Ok(out)
}

/// The first lines of a run that is timed so.
fn timing_head(alloc: Global, free: bool, timing: &Timing) -> Result<Vec<u8>, AllocError>
    requires { timing.now.span ≡ steps_span timing.now.deeds.items }
    ensures { IfOk result (λ v. v.items ≡ head_text free (work_of timing.now.deeds.items)
        (steps_span timing.now.deeds.items)
        (widths_of timing.now.times.items timing.now.deeds.items)) }
{
    let widths = widths_of(alloc, &timing.times, &timing.deeds)?;
    let work = work_of(&timing.deeds)?;
    head_text(alloc, free, work, timing.span, &widths)
}

/// Of which runs it holds.
fn scope_line(free: bool) -> &'static str
    ensures { result.now ≡ scope_line free }
{
    if free {
        "every schedule has this work and span, and this widest round\n"
    } else {
        "of this run alone\n"
    }
}

/// Adds the path that is told of a run, by stretches and by lines.
fn push_path(
    alloc: Global,
    out: &mut Vec<u8>,
    places: &Places<'_>,
    path: &[RunStep],
) -> Result<(), AllocError>
    ensures { OnOk result (out.new.items
        ≡ (out.old.items ++ path_text places.now (stretches_of path.now))
        ++ lines_text places.now path.now) }
{
    let list = stretches_of(alloc, path)?;
    let stretches = path_text(alloc, places, &list)?;
    let lines = lines_text(alloc, places, path)?;
    out.extend_from_slice(&stretches)?;
    out.extend_from_slice(&lines)
}

/// Adds who came last at each phase, and where activities waited.
fn push_phases(
    alloc: Global,
    out: &mut Vec<u8>,
    places: &Places<'_>,
    times: &[usize],
    deeds: &[Deed],
) -> Result<(), AllocError>
    ensures { OnOk result (out.new.items
        ≡ (out.old.items ++ phases_text places.now times.now deeds.now)
        ++ waits_text places.now (waits_of times.now deeds.now)) }
{
    let phases = phases_text(alloc, places, times, deeds)?;
    let waits = waits_of(alloc, times, deeds)?;
    let text = waits_text(alloc, places, &waits)?;
    out.extend_from_slice(&phases)?;
    out.extend_from_slice(&text)?;
    Ok(())
}

/// What is told of a run that is timed so.
pub(crate) fn text_by(
    alloc: Global,
    places: &Places<'_>,
    free: bool,
    timing: &Timing,
) -> Result<Vec<u8>, AllocError>
    requires span { timing.now.span ≡ steps_span timing.now.deeds.items }
    requires path { timing.now.path.items ≡ critical_steps timing.now.deeds.items }
    ensures { IfOk result (λ v. v.items ≡ text_by places.now free
        timing.now.deeds.items timing.now.times.items) }
{
    let mut out = timing_head(alloc, free, timing)?;
    push_path(alloc, &mut out, places, &timing.path)?;
    push_phases(alloc, &mut out, places, &timing.times, &timing.deeds)?;
    out.extend_from_slice(scope_line(free).as_bytes())?;
    Ok(out)
}

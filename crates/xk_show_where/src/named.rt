//! The whole text of a source text's run, by names.

ghost use Rattle.std.specs.Prelude.{◌≡◌, ◌++◌, length, map, option_map, slice_get, IfOk, OnOk};
ghost use Rattle.xk_types.specs.World.{AreArguments};
ghost use Rattle.xk_show_events.specs.Events.{places_of};
ghost use Rattle.xk_show_events.specs.Worlds.{each_below};
ghost use Rattle.xk_show_where.specs.Where.{are_steps_legal, named_line, named_line_if, named_line_of, named_standings_text};
ghost use Rattle.xk_show_where.specs.Where.{named_where_text, value_line};

use crate::acts::push_all_told;
use crate::progress::{Stop, take_steps};
use crate::standings::{
    Whereabouts, is_none, push_clocks, push_shared_number, push_steps, push_stop,
};
use crate::texts::push_text;
use std::alloc::{AllocError, Global};
use xk_bounds::Verified;
use xk_core::Core;
use xk_show_events::Places;
use xk_show_locals::push_name;
use xk_types::Entry;
use xk_unit_origins::UnitOrigins;

/// Adds the line of a shared number by its name.
#[tactic(auto, unfolding(crate::specs::Where::value_line))]
fn push_value(alloc: Global, out: &mut Vec<u8>, name: &[u8], value: i64) -> Result<(), AllocError>
    ensures { OnOk result (out.new.items ≡ out.old.items ++ value_line name.now value) }
{
    push_name(out, name)?;
    push_text(out, format!(in alloc; " = {value}\n")?.as_str())
}

/// Adds the line of a shared number, by its name if that is known.
fn push_named(
    alloc: Global,
    out: &mut Vec<u8>,
    name: Option<&[u8]>,
    number: usize,
    value: i64,
) -> Result<(), AllocError>
    ensures { OnOk result (out.new.items ≡ out.old.items
        ++ named_line_of (option_map (λ x. x.now) name.entry) number value) }
{
    match name {
        None => push_shared_number(alloc, out, number, value),
        Some(name) => push_value(alloc, out, name, value),
    }
}

/// The same, if there is such a number.
fn push_named_if(
    alloc: Global,
    out: &mut Vec<u8>,
    name: Option<&[u8]>,
    cells: &[i64],
    number: usize,
) -> Result<(), AllocError>
    ensures { OnOk result (out.new.items ≡ out.old.items ++ named_line_if
        (option_map (λ x. x.now) name.entry) number (slice_get cells.now number)) }
{
    match cells.get(number) {
        None => Ok(()),
        Some(value) => push_named(alloc, out, name, number, *value),
    }
}

/// The name of a shared number, if it is known.
fn shared_name<'t>(shared: &[&'t [u8]], number: usize) -> Option<&'t [u8]>
    ensures { option_map (λ x. x.now) result
        ≡ slice_get (map (λ x. x.now) shared.now) number }
{
    match shared.get(number) {
        None => None,
        Some(name) => Some(*name),
    }
}

/// Adds the line of a shared number, if there is one.
fn push_named_shared(
    alloc: Global,
    out: &mut Vec<u8>,
    shared: &[&[u8]],
    cells: &[i64],
    number: usize,
) -> Result<(), AllocError>
    ensures { OnOk result (out.new.items ≡ out.old.items
        ++ named_line (map (λ x. x.now) shared.now) cells.now number) }
{
    push_named_if(alloc, out, shared_name(shared, number), cells, number)
}

/// Adds the lines of all shared numbers.
fn push_all_named(
    alloc: Global,
    out: &mut Vec<u8>,
    shared: &[&[u8]],
    cells: &[i64],
) -> Result<(), AllocError>
    ensures { OnOk result (out.new.items ≡ out.old.items
        ++ each_below (named_line (map (λ x. x.now) shared.now) cells.now)
        (length cells.now)) }
{
    for number in 0..cells.len() {
        push_named_shared(alloc, out, shared, cells, number)?;
    }
    Ok(())
}

/// How things stand in a core of a source text's module, whose shared numbers have these names: what `standings_text` says, with the shared
/// numbers by their names, and behind the line of each activity its own numbers by their names, as far as they are set, and those of the
/// methods that called the one that it stands in. Err where memory was refused.
pub fn named_standings_text(
    alloc: Global,
    places: &Places<'_>,
    shared: &[&[u8]],
    core: &Core<'_>,
    stop: Option<Stop>,
) -> Result<Vec<u8>, AllocError>
    ensures { IfOk result (λ v. v.items ≡ named_standings_text places.now
        (map (λ x. x.now) shared.now) core.now.module_run core.now.world stop) }
{
    let mut out = Vec::new(alloc);
    push_steps(alloc, &mut out, core)?;
    push_all_told(alloc, &mut out, places, core)?;
    push_clocks(alloc, &mut out, core)?;
    push_all_named(alloc, &mut out, shared, core.cells())?;
    push_stop(alloc, &mut out, core, stop)?;
    Ok(out)
}

/// How things stand behind the steps of a log of a source text's module, whose shared numbers have these names, main being given as many
/// numbers as it takes: the steps are taken in order, up to the first that can't be. It is told how many were taken; of each activity where
/// it is, whether it can step, waits or has ended, for whom it waits, where it stands on its clocks, and what its own numbers are; the
/// phases of the clocks; the shared numbers by their names; and the step that can't be taken, and why. Where no origin says the line, a
/// place is told as of a module. Err where memory was refused.
pub fn named_where(
    alloc: Global,
    text: &[u8],
    origins: &[UnitOrigins<'_>],
    shared: &[&[u8]],
    verified: &Verified,
    arguments: &[i64],
    log: &[Entry],
) -> Result<Whereabouts, AllocError>
    requires { AreArguments verified.now arguments.now }
    ensures text { IfOk result (λ r. r.text.items
        ≡ named_where_text (places_of text.now origins.now)
        (map (λ x. x.now) shared.now) verified.now arguments.now log.now) }
    ensures whole { IfOk result (λ r. r.whole
        ≡ are_steps_legal verified.now arguments.now log.now) }
{
    let places = Places::of_source(alloc, text, origins)?;
    let progress = take_steps(alloc, verified, arguments, log)?;
    let core = &progress.core;
    let text = named_standings_text(alloc, &places, shared, core, progress.stop)?;
    let whole = is_none(progress.stop);
    Ok(Whereabouts { text, whole })
}

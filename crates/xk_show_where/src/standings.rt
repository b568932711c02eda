//! The whole text.

ghost use Rattle.std.specs.Prelude.{◌≡◌, ◌<◌, ◌++◌, length, is_none, Some, IfOk, OnOk};
ghost use Rattle.xk_types.specs.World.{AreArguments};
ghost use Rattle.xk_show_events.specs.Events.{no_text};
ghost use Rattle.xk_show_events.specs.Worlds.{each_below};
ghost use Rattle.xk_show_where.specs.Where.{are_steps_legal, clock_line, shared_line, shared_line_of, standings_text, steps_line};
ghost use Rattle.xk_show_where.specs.Where.{stop_line, stop_text, where_text};

use crate::acts::push_acts;
use crate::condition::{condition_of, condition_words};
use crate::progress::{Progress, Stop, take_steps};
use crate::texts::push_text;
use std::alloc::{AllocError, Global};
use xk_bounds::Verified;
use xk_core::Core;
use xk_show_events::Places;
use xk_types::{Act, ClockId, Entry};

/// How things stand behind the steps of a log, as far as they can be taken.
#[derive(Debug, Drop)]
pub struct Whereabouts {
    /// A line for each fact.
    pub text: Vec<u8>,
    /// Whether every step of the log could be taken.
    pub whole: bool,
}

/// Adds how many steps were taken.
#[tactic(auto, unfolding(crate::specs::Where::steps_line))]
pub(crate) fn push_steps(
    alloc: Global,
    out: &mut Vec<u8>,
    core: &Core<'_>,
) -> Result<(), AllocError>
    ensures { OnOk result (out.new.items ≡ out.old.items ++ steps_line core.now.world) }
{
    let steps = core.steps_done();
    push_text(out, format!(in alloc; "steps {steps}\n")?.as_str())
}

/// Adds the line of a clock.
#[tactic(auto, unfolding(crate::specs::Where::clock_line))]
fn push_clock(
    alloc: Global,
    out: &mut Vec<u8>,
    core: &Core<'_>,
    clock: ClockId,
) -> Result<(), AllocError>
    requires { clock < length core.now.world.clocks }
    ensures { OnOk result (out.new.items ≡ out.old.items ++ clock_line core.now.world clock) }
{
    let number = clock.0;
    let phase = core.phase(clock);
    push_text(
        out,
        format!(in alloc; "clock {number} phase {phase}\n")?.as_str(),
    )
}

/// Adds the lines of all clocks.
pub(crate) fn push_clocks(
    alloc: Global,
    out: &mut Vec<u8>,
    core: &Core<'_>,
) -> Result<(), AllocError>
    ensures { OnOk result (out.new.items ≡ out.old.items
        ++ each_below (clock_line core.now.world) (length core.now.world.clocks)) }
{
    for clock in 0..core.clocks() {
        push_clock(alloc, out, core, ClockId(clock))?;
    }
    Ok(())
}

/// Adds the line of a shared number that is this.
pub(crate) fn push_shared_number(
    alloc: Global,
    out: &mut Vec<u8>,
    number: usize,
    value: i64,
) -> Result<(), AllocError>
    ensures { OnOk result (out.new.items ≡ out.old.items ++ shared_line_of number (Some value)) }
{
    push_text(
        out,
        format!(in alloc; "shared {number} is {value}\n")?.as_str(),
    )
}

/// Adds the line of a shared number, if there is one.
fn push_shared(
    alloc: Global,
    out: &mut Vec<u8>,
    cells: &[i64],
    number: usize,
) -> Result<(), AllocError>
    ensures { OnOk result (out.new.items ≡ out.old.items ++ shared_line cells.now number) }
{
    match cells.get(number) {
        None => Ok(()),
        Some(value) => push_shared_number(alloc, out, number, *value),
    }
}

/// Adds the lines of all shared numbers.
fn push_all_shared(alloc: Global, out: &mut Vec<u8>, cells: &[i64]) -> Result<(), AllocError>
    ensures { OnOk result (out.new.items ≡ out.old.items
        ++ each_below (shared_line cells.now) (length cells.now)) }
{
    for number in 0..cells.len() {
        push_shared(alloc, out, cells, number)?;
    }
    Ok(())
}

/// Adds which step of the log can't be taken, and why.
#[tactic(auto, unfolding(crate::specs::Where::stop_line))]
fn push_stop_line(
    alloc: Global,
    out: &mut Vec<u8>,
    core: &Core<'_>,
    stop: Stop,
) -> Result<(), AllocError>
    ensures { OnOk result (out.new.items ≡ out.old.items
        ++ stop_line core.now.module_run core.now.world stop) }
{
    let entry = stop.entry;
    let step = stop.step;
    let steps = stop.steps;
    let act = stop.act;
    let words = condition_words(condition_of(core, Act(act)));
    push_text(
        out,
        format!(in alloc; "entry {entry} step {step} of {steps}: act {act}{words}\n")?.as_str(),
    )
}

/// Adds it, if there is such a step.
pub(crate) fn push_stop(
    alloc: Global,
    out: &mut Vec<u8>,
    core: &Core<'_>,
    stop: Option<Stop>,
) -> Result<(), AllocError>
    ensures { OnOk result (out.new.items ≡ out.old.items
        ++ stop_text core.now.module_run core.now.world stop) }
{
    match stop {
        None => Ok(()),
        Some(stop) => push_stop_line(alloc, out, core, stop),
    }
}

/// How things stand in a core: how many steps were taken; of each activity where it is, whether it can step, waits or has ended, for whom it
/// waits, and where it stands on its clocks; the phases of the clocks; the shared numbers; and the step that can't be taken there, if one is
/// given. Err where memory was refused.
pub fn standings_text(
    alloc: Global,
    places: &Places<'_>,
    core: &Core<'_>,
    stop: Option<Stop>,
) -> Result<Vec<u8>, AllocError>
    ensures { IfOk result (λ v. v.items
        ≡ standings_text places.now core.now.module_run core.now.world stop) }
{
    let mut out = Vec::new(alloc);
    push_steps(alloc, &mut out, core)?;
    push_acts(alloc, &mut out, places, core)?;
    push_clocks(alloc, &mut out, core)?;
    push_all_shared(alloc, &mut out, core.cells())?;
    push_stop(alloc, &mut out, core, stop)?;
    Ok(out)
}

/// Whether there is no such step.
pub(crate) fn is_none(stop: Option<Stop>) -> bool
    ensures { result ≡ is_none stop }
{
    match stop {
        None => true,
        Some(_) => false,
    }
}

/// How things stand behind the steps of a log.
fn standings_behind(
    alloc: Global,
    places: &Places<'_>,
    verified: &Verified,
    arguments: &[i64],
    log: &[Entry],
) -> Result<Whereabouts, AllocError>
    requires { AreArguments verified.now arguments.now }
    ensures text { IfOk result (λ r. r.text.items
        ≡ where_text places.now verified.now arguments.now log.now) }
    ensures whole { IfOk result (λ r. r.whole
        ≡ are_steps_legal verified.now arguments.now log.now) }
{
    let progress = take_steps(alloc, verified, arguments, log)?;
    let text = standings_text(alloc, places, &progress.core, progress.stop)?;
    let whole = is_none(progress.stop);
    Ok(Whereabouts { text, whole })
}

/// How things stand behind the steps of a log of a module without a text, main being given as many numbers as it takes: the steps are taken
/// in order, up to the first that can't be. It is told how many were taken; of each activity where it is, by unit and place of an
/// instruction, whether it can step, waits or has ended, for whom it waits, and where it stands on its clocks; the phases of the clocks; the
/// shared numbers; and the step that can't be taken, and why. Err where memory was refused.
pub fn module_where(
    alloc: Global,
    verified: &Verified,
    arguments: &[i64],
    log: &[Entry],
) -> Result<Whereabouts, AllocError>
    requires { AreArguments verified.now arguments.now }
    ensures text { IfOk result (λ r. r.text.items
        ≡ where_text no_text verified.now arguments.now log.now) }
    ensures whole { IfOk result (λ r. r.whole
        ≡ are_steps_legal verified.now arguments.now log.now) }
{
    let places = Places::of_module(alloc)?;
    standings_behind(alloc, &places, verified, arguments, log)
}

//! The lines of activities.

ghost use Rattle.std.specs.Prelude.{◌≡◌, ◌<◌, ◌++◌, length, OnOk};
ghost use Rattle.xk_show_events.specs.Worlds.{each_below};
ghost use Rattle.xk_show_where.specs.Awaited.{AreWaitsOf};
ghost use Rattle.xk_show_where.specs.Where.{act_line, act_words, clock_words, condition_words, place_of, registration, registration_by};
ghost use Rattle.xk_show_where.specs.Where.{registrations, told_act};

use crate::condition::{Condition, condition_of, condition_words};
use crate::holders::standing_on;
use crate::texts::push_text;
use crate::waits::Waits;
use std::alloc::{AllocError, Global};
use xk_core::Core;
use xk_show_events::{Places, place_words};
use xk_show_locals::push_locals;
use xk_types::{Act, ClockId, Standing};

/// Adds a clock, and where the activity stands on it, if it is registered there.
#[tactic(auto, unfolding(crate::specs::Where::registration))]
fn push_registration(
    alloc: Global,
    out: &mut Vec<u8>,
    core: &Core<'_>,
    waits: &Waits,
    condition: Condition,
    act: Act,
    clock: ClockId,
) -> Result<(), AllocError>
    requires act { act < length core.now.world.activities }
    requires clock { clock < length core.now.world.clocks }
    requires waits { AreWaitsOf core.now.world waits.now }
    ensures { OnOk result (out.new.items
        ≡ out.old.items ++ registration condition core.now.world act clock) }
{
    let standing = standing_on(core, act, clock);
    push_by(alloc, out, core, waits, condition, standing, clock)
}

/// Adds a clock, and a word on it.
#[tactic(auto, unfolding(crate::specs::Where::clock_words))]
fn push_clock(
    alloc: Global,
    out: &mut Vec<u8>,
    clock: ClockId,
    word: &str,
) -> Result<(), AllocError>
    ensures { OnOk result (out.new.items ≡ out.old.items ++ clock_words clock word.now) }
{
    let number = clock.0;
    push_text(out, format!(in alloc; ", clock {number} {word}")?.as_str())
}

/// Adds a clock, and this standing on it.
fn push_by(
    alloc: Global,
    out: &mut Vec<u8>,
    core: &Core<'_>,
    waits: &Waits,
    condition: Condition,
    standing: Standing,
    clock: ClockId,
) -> Result<(), AllocError>
    requires clock { clock < length core.now.world.clocks }
    requires waits { AreWaitsOf core.now.world waits.now }
    ensures { OnOk result (out.new.items
        ≡ out.old.items ++ registration_by standing condition core.now.world clock) }
{
    match standing {
        Standing::Apart => Ok(()),
        Standing::Open => push_clock(alloc, out, clock, "open"),
        Standing::Signalled => {
            push_clock(alloc, out, clock, "signalled")?;
            waits.push_holders(out, core, condition, clock)
        }
        Standing::Ahead => push_clock(alloc, out, clock, "ahead"),
    }
}

/// Adds the clocks on which an activity is registered.
fn push_registrations(
    alloc: Global,
    out: &mut Vec<u8>,
    core: &Core<'_>,
    waits: &Waits,
    condition: Condition,
    act: Act,
) -> Result<(), AllocError>
    requires act { act < length core.now.world.activities }
    requires waits { AreWaitsOf core.now.world waits.now }
    ensures { OnOk result (out.new.items
        ≡ out.old.items ++ registrations condition core.now.world act) }
{
    for clock in 0..core.clocks() {
        push_registration(alloc, out, core, waits, condition, act, ClockId(clock))?;
    }
    Ok(())
}

/// Adds where an activity is.
#[tactic(auto, unfolding(crate::specs::Where::place_of))]
fn push_place(
    alloc: Global,
    out: &mut Vec<u8>,
    places: &Places<'_>,
    core: &Core<'_>,
    act: Act,
) -> Result<(), AllocError>
    requires { act < length core.now.world.activities }
    ensures { OnOk result (out.new.items
        ≡ out.old.items ++ place_of places.now core.now.world act) }
{
    let frames = core.frames(act);
    let unit = frames.unit();
    let place = frames.place();
    let words = place_words(alloc, unit, place, places.origin(unit, place))?;
    push_text(out, " ")?;
    push_text(out, words.as_str())
}

/// Adds where an activity is, and what it does there.
fn push_condition(
    alloc: Global,
    out: &mut Vec<u8>,
    places: &Places<'_>,
    core: &Core<'_>,
    condition: Condition,
    act: Act,
) -> Result<(), AllocError>
    requires { act < length core.now.world.activities }
    ensures { OnOk result (out.new.items ≡ (out.old.items
        ++ place_of places.now core.now.world act) ++ condition_words condition) }
{
    push_place(alloc, out, places, core, act)?;
    push_text(out, condition_words(condition))
}

/// Adds what is told of an activity behind its number.
fn push_words(
    alloc: Global,
    out: &mut Vec<u8>,
    places: &Places<'_>,
    core: &Core<'_>,
    waits: &Waits,
    condition: Condition,
    act: Act,
) -> Result<(), AllocError>
    requires act { act < length core.now.world.activities }
    requires waits { AreWaitsOf core.now.world waits.now }
    ensures { OnOk result (out.new.items
        ≡ out.old.items ++ act_words condition places.now core.now.world act) }
{
    match condition {
        Condition::Absent => push_text(out, condition_words(condition)),
        Condition::Ended => push_text(out, condition_words(condition)),
        Condition::Able => {
            push_condition(alloc, out, places, core, condition, act)?;
            push_registrations(alloc, out, core, waits, condition, act)
        }
        Condition::ForClocks => {
            push_condition(alloc, out, places, core, condition, act)?;
            push_registrations(alloc, out, core, waits, condition, act)
        }
        Condition::InFinish => {
            push_condition(alloc, out, places, core, condition, act)?;
            waits.push_awaited(alloc, out, core, act)?;
            push_registrations(alloc, out, core, waits, condition, act)
        }
    }
}

/// Adds the line of an activity.
#[tactic(auto, unfolding(crate::specs::Where::act_line))]
fn push_act(
    alloc: Global,
    out: &mut Vec<u8>,
    places: &Places<'_>,
    core: &Core<'_>,
    waits: &Waits,
    act: Act,
) -> Result<(), AllocError>
    requires act { act < length core.now.world.activities }
    requires waits { AreWaitsOf core.now.world waits.now }
    ensures { OnOk result (out.new.items ≡ out.old.items
        ++ act_line places.now core.now.module_run core.now.world act) }
{
    let number = act.0;
    push_text(out, format!(in alloc; "act {number}")?.as_str())?;
    push_words(
        alloc,
        out,
        places,
        core,
        waits,
        condition_of(core, act),
        act,
    )?;
    push_text(out, "\n")
}

/// Adds the lines of all activities.
pub(crate) fn push_acts(
    alloc: Global,
    out: &mut Vec<u8>,
    places: &Places<'_>,
    core: &Core<'_>,
) -> Result<(), AllocError>
    ensures { OnOk result (out.new.items ≡ out.old.items
        ++ each_below (act_line places.now core.now.module_run core.now.world)
        (length core.now.world.activities)) }
{
    let waits = Waits::of(alloc, core)?;
    for act in 0..core.activities() {
        push_act(alloc, out, places, core, &waits, Act(act))?;
    }
    Ok(())
}

/// Adds the line of an activity, and those of its own numbers.
fn push_told(
    alloc: Global,
    out: &mut Vec<u8>,
    places: &Places<'_>,
    core: &Core<'_>,
    waits: &Waits,
    act: Act,
) -> Result<(), AllocError>
    requires act { act < length core.now.world.activities }
    requires waits { AreWaitsOf core.now.world waits.now }
    ensures { OnOk result (out.new.items ≡ out.old.items
        ++ told_act places.now core.now.module_run core.now.world act) }
{
    push_act(alloc, out, places, core, waits, act)?;
    push_locals(alloc, out, places, core, act)
}

/// Adds the lines of all activities, and of their own numbers.
pub(crate) fn push_all_told(
    alloc: Global,
    out: &mut Vec<u8>,
    places: &Places<'_>,
    core: &Core<'_>,
) -> Result<(), AllocError>
    ensures { OnOk result (out.new.items ≡ out.old.items
        ++ each_below (told_act places.now core.now.module_run core.now.world)
        (length core.now.world.activities)) }
{
    let waits = Waits::of(alloc, core)?;
    for act in 0..core.activities() {
        push_told(alloc, out, places, core, &waits, Act(act))?;
    }
    Ok(())
}

//! Runs: by single steps, by a schedule, and by turns; each call tried again where memory was refused.

ghost use Rattle.std.specs.Prelude.{◌≡◌, IfOk};

use crate::modules::{Wrong, fits, holds};
use std::alloc::Global;
use xk_bounds::Verified;
use xk_core::Core;
use xk_scheduler::{Driver, Halt, Last, Ran, run_schedule};
use xk_types::{Act, Event};

/// A core, at the second try where memory was refused.
pub fn opened<'m>(
    alloc: Global,
    verified: &'m Verified,
    arguments: &[i64],
) -> Result<Core<'m>, Wrong>
    ensures unstarted { IfOk result (λ c. c.world.steps ≡ 0) }
{
    fits(verified, arguments)?;
    match Core::open(alloc, verified, arguments) {
        Ok(core) => Ok(core),
        Err(_) => match Core::open(alloc, verified, arguments) {
            Ok(core) => Ok(core),
            Err(_) => Err(Wrong("a core isn't opened at the second try")),
        },
    }
}

/// One step of an activity that can take it, at the second try where memory was refused, and what it does. No step asks for memory where a
/// program starts nobody.
fn stepped(core: &mut Core, act: Act) -> Result<Event, Wrong> {
    if !core.enabled(act) {
        return Err(Wrong("a step isn't enabled"));
    }
    if let Ok(event) = core.step(act) {
        return Ok(event);
    }
    if core.module().activities() == 1 {
        return Err(Wrong("a step asks for memory though nobody is started"));
    }
    match core.step(act) {
        Ok(event) => Ok(event),
        Err(_) => Err(Wrong("a step is refused at the second try")),
    }
}

/// Adds a number to a list, at the second try where memory was refused.
fn note(list: &mut Vec<u32>, number: u32) -> Result<(), Wrong> {
    let is_noted = list.push(number).is_ok() || list.push(number).is_ok();
    holds(is_noted, "a list doesn't grow at the second try")
}

/// Single steps to the end, each of the least activity that can take one; which activities those were.
fn by_steps(core: &mut Core, schedule: &mut Vec<u32>) -> Result<(), Wrong> {
    for _ in 0..=core.module().steps() {
        let Some(act) = core.pick() else {
            return Ok(());
        };
        stepped(core, act)?;
        note(schedule, act.0)?;
    }
    Err(Wrong("a run is longer than its bound"))
}

/// A run by single steps, and the same by its schedule.
pub fn by_hand(alloc: Global, verified: &Verified, arguments: &[i64]) -> Result<(), Wrong> {
    let mut core = opened(alloc, verified, arguments)?;
    let mut schedule = Vec::new(alloc);
    by_steps(&mut core, &mut schedule)?;
    by_schedule(alloc, verified, arguments, &schedule)
}

/// Whether a schedule led to the end; None where memory was refused.
fn is_through(answer: &Result<Ran<'_>, Halt<'_>>) -> Option<bool> {
    match answer {
        Ok(ran) => Some(ran.core.ended()),
        Err(Halt::NotEnabled { .. }) => Some(false),
        Err(Halt::OutOfMemory { .. }) => None,
    }
}

/// Whether a schedule leads to the end; None where memory was refused.
fn is_carried_out(
    alloc: Global,
    verified: &Verified,
    arguments: &[i64],
    schedule: &[u32],
) -> Result<Option<bool>, Wrong> {
    let answer = run_schedule(alloc, opened(alloc, verified, arguments)?, schedule);
    Ok(is_through(&answer))
}

/// A schedule leads to the end.
fn by_schedule(
    alloc: Global,
    verified: &Verified,
    arguments: &[i64],
    schedule: &[u32],
) -> Result<(), Wrong> {
    let ends = match is_carried_out(alloc, verified, arguments, schedule)? {
        None => is_carried_out(alloc, verified, arguments, schedule)?,
        answer => answer,
    };
    holds(
        ends == Some(true),
        "a schedule isn't carried out to the end",
    )
}

/// A core that a driver takes over, at the second try, with what came back, where memory was refused.
fn taken_over<'m>(
    alloc: Global,
    verified: &'m Verified,
    arguments: &[i64],
) -> Result<Driver<'m>, Wrong> {
    let made = match Driver::new(alloc, opened(alloc, verified, arguments)?) {
        Err(same) => Driver::new(alloc, same),
        answer => answer,
    };
    made.ok()
        .ok_or(Wrong("a core isn't taken over at the second try"))
}

/// Turns of the greatest activity and steps of the least one, to the end.
fn turns(driver: &mut Driver) -> Result<(), Wrong> {
    for _ in 0..=driver.core().module().steps() {
        let Some(act) = driver.core().pick() else {
            return holds(driver.over(), "a run by turns isn't over");
        };
        driver_stepped(driver, act)?;
        turned(driver)?;
    }
    Err(Wrong("a run by turns is longer than its bound"))
}

/// A run by turns.
pub fn by_turns(alloc: Global, verified: &Verified, arguments: &[i64]) -> Result<(), Wrong> {
    let mut driver = taken_over(alloc, verified, arguments)?;
    turns(&mut driver)
}

/// One step of an activity that can take it, at the second try where memory was refused. No step asks for memory where a program starts
/// nobody.
fn driver_stepped(driver: &mut Driver, act: Act) -> Result<(), Wrong> {
    if !driver.core().enabled(act) {
        return Err(Wrong("a driven step isn't enabled"));
    }
    if driver.step(act).is_ok() {
        return Ok(());
    }
    if driver.core().module().activities() == 1 {
        return Err(Wrong("a driven step asks for memory though nobody is started"));
    }
    match driver.step(act) {
        Ok(_) => Ok(()),
        Err(_) => Err(Wrong("a driven step is refused at the second try")),
    }
}

/// One turn of the greatest activity, if there is one, at the second try where memory was refused.
fn turned(driver: &mut Driver) -> Result<(), Wrong> {
    let is_taken = driver.turn(&mut Last).is_ok() || driver.turn(&mut Last).is_ok();
    holds(is_taken, "a turn is refused at the second try")
}

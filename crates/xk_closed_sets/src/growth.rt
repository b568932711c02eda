//! Sets of activities that are grown from one. What they are good for is tested afterwards.

ghost use Rattle.std.specs.Prelude.{◌<◌, length};

use crate::claims::{claim, reach_of};
use crate::footprint::Footprint;
use crate::holding::{is_at_end, is_in, is_pending, is_stuck};
use crate::instructions::instruction_of;
use crate::places::{Reach, Row};
use std::alloc::{AllocError, Global};
use xk_core::Core;
use xk_types::{Act, ClockId};

/// What each activity may still do.
pub(crate) fn reaches(
    alloc: Global,
    rows: &[Row],
    core: &Core<'_>,
) -> Result<Vec<Reach>, AllocError> {
    let mut reaches = Vec::new(alloc);
    for a in 0..core.activities() {
        let reach = reach_of(rows, core, Act(a))?;
        reaches.push(reach)?;
    }
    Ok(reaches)
}

/// What the members that can take a step are about to do.
fn next_steps(core: &Core<'_>, members: &[bool]) -> Footprint {
    let mut steps = Footprint::nothing();
    for a in 0..core.activities() {
        let act = Act(a);
        if is_in(members, act) && core.enabled(act) {
            steps = steps.joined(&next_step(core, act));
        }
    }
    steps
}

/// What the activity is about to do.
fn next_step(core: &Core<'_>, act: Act) -> Footprint
    requires { act < length core.now.world.activities }
{
    match instruction_of(core, act) {
        Some(instr) => Footprint::of(instr),
        None => Footprint::nothing(),
    }
}

/// What those may do who aren't members, as long as no member moves.
pub(crate) fn claims(core: &Core<'_>, members: &[bool], reaches: &[Reach]) -> Footprint {
    let mut claims = Footprint::nothing();
    for a in 0..core.activities() {
        let act = Act(a);
        if is_in(members, act) {
            continue;
        }
        if let Some(reach) = reaches.get(a as usize) {
            claims = claims.joined(&claim(core, members, reach, act));
        }
    }
    claims
}

/// Whether the first holds back the other, who can't take a step.
fn holds_back(core: &Core<'_>, holder: Act, act: Act) -> bool
    requires holder { holder < length core.now.world.activities }
    requires activity { act < length core.now.world.activities }
{
    if core.is_waiting(act) {
        return match core.waits_for(act) {
            Some(clock) => clock.0 < core.clocks() && is_pending(core, holder, clock),
            None => false,
        };
    }
    is_at_end(core, act) && core.is_living(holder) && core.is_under(act, holder)
}

/// Somebody who holds the activity back: one that can take a step, if there is one.
fn holder(core: &Core<'_>, act: Act) -> Option<Act>
    requires { act < length core.now.world.activities }
{
    let mut found = None;
    for a in 0..core.activities() {
        let holder = Act(a);
        if !holds_back(core, holder, act) {
            continue;
        }
        if core.enabled(holder) {
            return Some(holder);
        }
        found = Some(holder);
    }
    found
}

/// Whether what the activity may do has to do with these steps.
fn is_meddling(
    core: &Core<'_>,
    members: &[bool],
    reach: &Reach,
    steps: &Footprint,
    act: Act,
) -> bool
    requires { act < length core.now.world.activities }
{
    reach.rest.meets(steps) && claim(core, members, reach, act).meets(steps)
}

/// Who has to come into the set for the activity's sake: itself, if it may meddle with its steps and can take one; or who holds it back, if
/// it may, or is a member that isn't held back by one.
fn wanted_for(
    core: &Core<'_>,
    members: &[bool],
    reaches: &[Reach],
    steps: &Footprint,
    act: Act,
) -> Option<Act>
    requires { act < length core.now.world.activities }
{
    let reach = reaches.get(act.0 as usize)?;
    let enabled = core.enabled(act);
    if is_in(members, act) {
        if enabled || is_stuck(core, members, act) {
            return None;
        }
        return holder(core, act);
    }
    if !is_meddling(core, members, reach, steps, act) {
        return None;
    }
    if enabled {
        return Some(act);
    }
    holder(core, act)
}

/// Somebody who has to come into the set, if one has.
fn wanted(core: &Core<'_>, members: &[bool], reaches: &[Reach]) -> Option<Act> {
    let steps = next_steps(core, members);
    for a in 0..core.activities() {
        if let Some(act) = wanted_for(core, members, reaches, &steps, Act(a)) {
            return Some(act);
        }
    }
    None
}

/// The set that is grown from one activity, until nobody has to come in any more.
fn grown(
    alloc: Global,
    core: &Core<'_>,
    reaches: &[Reach],
    seed: Act,
) -> Result<Vec<bool>, AllocError> {
    let count = core.activities();
    let mut members = vec![in alloc; false; count as usize]?;
    let mut next = Some(seed);
    for turn in 0..count {
        let Some(act) = next else {
            return Ok(members);
        };
        if let Some(inside) = members.get_mut(act.0 as usize) {
            *inside = true;
        }
        next = wanted(core, &members, reaches);
    }
    Ok(members)
}

/// How many members can take a step.
fn enabled_members(core: &Core<'_>, members: &[bool]) -> u32 {
    let mut count: u32 = 0;
    for a in 0..core.activities() {
        let act = Act(a);
        if is_in(members, act) && core.enabled(act) {
            count = count.saturating_add(1);
        }
    }
    count
}

/// Of the sets that are grown from each activity that can take a step, the one in which the fewest can.
pub(crate) fn smallest(
    alloc: Global,
    core: &Core<'_>,
    reaches: &[Reach],
) -> Result<Vec<bool>, AllocError> {
    let mut best = Vec::new(alloc);
    let mut least = u32::MAX;
    for a in 0..core.activities() {
        if !core.enabled(Act(a)) {
            continue;
        }
        let members = grown(alloc, core, reaches, Act(a))?;
        let count = enabled_members(core, &members);
        if count < least {
            least = count;
            best = members;
        }
        if least == 1 {
            return Ok(best);
        }
    }
    Ok(best)
}

//! Whether worlds are alike where slots are live, but for shared numbers: whether they differ in these, in dead slots, in
//! what activities that have ended left behind, in numbers of steps and in phases at most.

ghost use Rattle.xk_closed.specs.Unread.{without_cells};
ghost use Rattle.std.specs.Prelude.{◌≡◌, ◌<◌, length, map, IfOk};
ghost use Rattle.std.specs.Bool.{Decides};
ghost use Rattle.xk_activity.specs.Activities.{act_at};
ghost use Rattle.xk_law_commute.specs.PlainWorlds.{plain_clock};
ghost use Rattle.xk_core.specs.Alikeness.{IsAlikeClock};
ghost use Rattle.xk_liveness.specs.Liveness.{AreAlikeWhereLive, live_activity};
ghost use Rattle.xk_live_slots.specs.LiveSlots.{live_of};

use crate::frames::has_same_left;
use crate::status::{is_same_standing, is_same_status};
use std::alloc::AllocError;
use xk_core::Core;
use xk_live_slots::LiveSlots;
use xk_types::{Act, ClockId};

/// Whether they are the same numbers.
pub fn are_same_numbers(numbers: &[i64], others: &[i64]) -> bool
    ensures { Decides result (numbers.now ≡ others.now) }
{
    numbers == others
}

/// Whether what of the activity may still count is the same in both.
fn is_same_activity(
    live: &LiveSlots<'_>,
    core: &Core<'_>,
    other: &Core<'_>,
    act: Act,
) -> Result<bool, AllocError>
    requires here { act < length core.now.world.activities }
    requires there { act < length other.now.world.activities }
    ensures { IfOk result (λ same. Decides same
        (live_activity (live_of live.now) (act_at core.now.world.activities act)
        ≡ live_activity (live_of live.now) (act_at other.now.world.activities act))) }
{
    let status = core.status(act);
    if !is_same_status(status, other.status(act)) {
        return Ok(false);
    }
    if !core.has_same_finishes(other, act) {
        return Ok(false);
    }
    has_same_left(live, core, act, other, act, status)
}

/// The same of each activity; both have as many.
fn are_same_activities(
    live: &LiveSlots<'_>,
    core: &Core<'_>,
    other: &Core<'_>,
) -> Result<bool, AllocError>
    requires { length other.now.world.activities ≡ length core.now.world.activities }
    ensures { IfOk result (λ same. Decides same
        (map (live_activity (live_of live.now)) core.now.world.activities
        ≡ map (live_activity (live_of live.now)) other.now.world.activities)) }
{
    for a in 0..core.activities() {
        if !is_same_activity(live, core, other, Act(a))? {
            return Ok(false);
        }
    }
    Ok(true)
}

/// Whether each activity stands on the clock where it stands on it in the other core, which has as many activities.
fn is_same_clock(core: &Core<'_>, other: &Core<'_>, clock: ClockId) -> bool
    requires activities { length other.now.world.activities
        ≡ length core.now.world.activities }
    requires here { clock < length core.now.world.clocks }
    requires there { clock < length other.now.world.clocks }
    ensures { Decides result (IsAlikeClock core.now.world other.now.world clock) }
{
    // For `core` of `activities`: its clock too has a standing for each activity.
    let _others = other.activities();
    for a in 0..core.activities() {
        let act = Act(a);
        if !is_same_standing(core.standing(act, clock), other.standing(act, clock)) {
            return false;
        }
    }
    true
}

/// Whether it is so of each clock; the other core has as many clocks and activities.
fn are_same_clocks(core: &Core<'_>, other: &Core<'_>) -> bool
    requires activities { length other.now.world.activities
        ≡ length core.now.world.activities }
    requires clocks { length other.now.world.clocks ≡ length core.now.world.clocks }
    ensures { Decides result (map plain_clock core.now.world.clocks
        ≡ map plain_clock other.now.world.clocks) }
{
    for c in 0..core.clocks() {
        if !is_same_clock(core, other, ClockId(c)) {
            return false;
        }
    }
    true
}

/// Whether the other core has as many activities and clocks, and was given the same arguments.
fn has_as_many(core: &Core<'_>, other: &Core<'_>) -> bool
    ensures { Decides result
        ((length other.now.world.activities ≡ length core.now.world.activities)
        × (length other.now.world.clocks ≡ length core.now.world.clocks)
        × (core.now.world.arguments ≡ other.now.world.arguments)) }
{
    core.activities() == other.activities()
        && core.clocks() == other.clocks()
        && are_same_numbers(core.arguments(), other.arguments())
}

/// Whether the worlds of two cores are alike where slots are live, but for shared numbers: then what can happen from now on is the same,
/// if those shared numbers are that may still be read. Err where memory was refused.
pub fn are_alike(
    live: &LiveSlots<'_>,
    core: &Core<'_>,
    other: &Core<'_>,
) -> Result<bool, AllocError>
    ensures { IfOk result (λ same. Decides same
        (AreAlikeWhereLive (live_of live.now) (without_cells core.now.world)
        (without_cells other.now.world))) }
{
    if !has_as_many(core, other) {
        return Ok(false);
    }
    if !are_same_clocks(core, other) {
        return Ok(false);
    }
    are_same_activities(live, core, other)
}

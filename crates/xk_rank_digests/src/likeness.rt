//! Whether worlds are alike by rank.

ghost use Rattle.std.specs.Prelude.{◌≡◌, ◌<◌, length, IfOk, map};
ghost use Rattle.std.specs.Bool.{Decides};
ghost use Rattle.xk_activity.specs.Activities.{act_at};
ghost use Rattle.xk_live_slots.specs.LiveSlots.{live_of};
ghost use Rattle.xk_closed.specs.Unread.{without_cells};
ghost use Rattle.xk_law_commute.specs.PlainWorlds.{plain_clock};
ghost use Rattle.xk_core.specs.Alikeness.{IsAlikeClock, StandsAlike};
ghost use Rattle.xk_ranks.specs.Ranks.{remains};
ghost use Rattle.xk_rank_digests.specs.RankLikeness.{AreActsAlike, AreGovernedAlike, AreSameAtRank, AreSameByRank, AreToldAlike};
ghost use Rattle.xk_rank_digests.specs.RankLikeness.{HaveAsMany, IsLeftAlike};

use crate::ranks::Ranked;
use std::alloc::{AllocError, Global};
use xk_core::Core;
use xk_digests::{are_alike, are_same_numbers, has_same_left, is_same_standing, is_same_status};
use xk_live_slots::LiveSlots;
use xk_types::{Act, ClockId};

/// Whether it is the same number, or none both times.
fn is_same_rank(rank: Option<u32>, other: Option<u32>) -> bool
    ensures { Decides result (rank ≡ other) }
{
    match rank {
        Some(r) => match other {
            Some(s) => r == s,
            None => false,
        },
        None => match other {
            Some(_) => false,
            None => true,
        },
    }
}

/// Whether the activities are governed alike, by the innermost finishes of owners of one rank.
fn are_governed_alike(one: &Ranked<'_, '_>, act: Act, other: &Ranked<'_, '_>, there: Act) -> bool
    requires here { act < length one.now.world.activities }
    requires there { there < length other.now.world.activities }
    ensures { Decides result (AreGovernedAlike one.now.world act other.now.world there) }
{
    is_same_rank(one.owner_rank(act), other.owner_rank(there))
        && one.is_innermost(act)
        && other.is_innermost(there)
}

/// Whether the activities are the same, as far as that is told of these two alone.
fn is_same_activity(
    live: &LiveSlots<'_>,
    one: &Ranked<'_, '_>,
    act: Act,
    other: &Ranked<'_, '_>,
    there: Act,
) -> Result<bool, AllocError>
    requires here { act < length one.now.world.activities }
    requires there { there < length other.now.world.activities }
    ensures { IfOk result (λ same. Decides same
        (AreSameByRank (live_of live.now) one.now.world act other.now.world there)) }
{
    let core = one.core();
    let others = other.core();
    let status = core.status(act);
    if !is_same_status(status, others.status(there)) {
        return Ok(false);
    }
    if !are_governed_alike(one, act, other, there) {
        return Ok(false);
    }
    let same = has_same_left(live, core, act, others, there, status)?;
    Ok(same)
}

/// Whether those of a rank are.
fn are_same_at(
    live: &LiveSlots<'_>,
    one: &Ranked<'_, '_>,
    other: &Ranked<'_, '_>,
    place: usize,
) -> Result<bool, AllocError>
    requires here { place < length (remains one.now.world).activities }
    requires there { place < length (remains other.now.world).activities }
    ensures { IfOk result (λ same. Decides same
        (AreSameAtRank (live_of live.now) one.now.world other.now.world place)) }
{
    let act = one.act_of(place);
    let there = other.act_of(place);
    let same = is_same_activity(live, one, act, other, there)?;
    Ok(same)
}

/// Whether the activities that haven't ended are the same, rank by rank; both have as many.
fn are_same_activities(
    live: &LiveSlots<'_>,
    one: &Ranked<'_, '_>,
    other: &Ranked<'_, '_>,
) -> Result<bool, AllocError>
    requires many { length (remains other.now.world).activities
        ≡ length (remains one.now.world).activities }
    requires module { other.now.module_run ≡ one.now.module_run }
    ensures { IfOk result (λ same. Decides same
        (AreActsAlike (live_of live.now) one.now.world other.now.world)) }
{
    let core = one.core();
    let others = other.core();
    // A legal schedule of its module leads to its world.
    let _activities = core.activities();
    // And one to the other's.
    let _others = others.activities();
    for r in 0..one.len() {
        if !are_same_at(live, one, other, r)? {
            return Ok(false);
        }
    }
    Ok(true)
}

/// Whether the activities of a rank stand on the clock alike.
fn stand_alike(one: &Ranked<'_, '_>, other: &Ranked<'_, '_>, clock: ClockId, place: usize) -> bool
    requires first { place < length (remains one.now.world).activities }
    requires second { place < length (remains other.now.world).activities }
    requires here { clock < length one.now.world.clocks }
    requires there { clock < length other.now.world.clocks }
    ensures { Decides result
        (StandsAlike (remains one.now.world) (remains other.now.world) clock place) }
{
    let act = one.act_of(place);
    let there = other.act_of(place);
    let core = one.core();
    let others = other.core();
    let standing = core.standing(act, clock);
    let second = others.standing(there, clock);
    is_same_standing(standing, second)
}

/// Whether those that haven't ended stand on the clock as those of the other core do, rank by rank; both have as many.
fn is_same_clock(one: &Ranked<'_, '_>, other: &Ranked<'_, '_>, clock: ClockId) -> bool
    requires many { length (remains other.now.world).activities
        ≡ length (remains one.now.world).activities }
    requires here { clock < length one.now.world.clocks }
    requires there { clock < length other.now.world.clocks }
    ensures { Decides result
        (IsAlikeClock (remains one.now.world) (remains other.now.world) clock) }
{
    let core = one.core();
    let others = other.core();
    // Each of its clocks has a standing for each activity.
    let _activities = core.activities();
    // And each of the other's.
    let _others = others.activities();
    for r in 0..one.len() {
        if !stand_alike(one, other, clock, r) {
            return false;
        }
    }
    true
}

/// Whether it is so of each clock; the other core has as many clocks.
fn are_same_clocks(one: &Ranked<'_, '_>, other: &Ranked<'_, '_>) -> bool
    requires many { length (remains other.now.world).activities
        ≡ length (remains one.now.world).activities }
    requires clocks { length other.now.world.clocks ≡ length one.now.world.clocks }
    ensures { Decides result (map plain_clock (remains one.now.world).clocks
        ≡ map plain_clock (remains other.now.world).clocks) }
{
    let core = one.core();
    for c in 0..core.clocks() {
        if !is_same_clock(one, other, ClockId(c)) {
            return false;
        }
    }
    true
}

/// Whether in the other core as many activities haven't ended, and it has as many clocks, and was given the same arguments.
fn has_as_many(one: &Ranked<'_, '_>, other: &Ranked<'_, '_>) -> bool
    ensures { Decides result (HaveAsMany one.now.world other.now.world) }
{
    let core = one.core();
    let others = other.core();
    one.len() == other.len()
        && core.clocks() == others.clocks()
        && are_same_numbers(core.arguments(), others.arguments())
}

/// Whether what is left of both, without the activities that have ended, is alike where slots are live, but for shared
/// numbers, and finishes are told.
fn is_same_left(
    live: &LiveSlots<'_>,
    one: &Ranked<'_, '_>,
    other: &Ranked<'_, '_>,
) -> Result<bool, AllocError>
    requires { other.now.module_run ≡ one.now.module_run }
    ensures { IfOk result (λ same. Decides same
        (IsLeftAlike (live_of live.now) (without_cells one.now.world)
        (without_cells other.now.world))) }
{
    if !has_as_many(one, other) {
        return Ok(false);
    }
    if !are_same_clocks(one, other) {
        return Ok(false);
    }
    let same = are_same_activities(live, one, other)?;
    Ok(same)
}

/// Whether the worlds of two cores of one module are alike but for shared numbers: where slots are live, or by rank and
/// with finishes that a core tells. Then what can happen from now on is the same, if those shared numbers are that may
/// still be read. Err where memory was refused.
pub fn are_alike_by_rank(
    alloc: Global,
    live: &LiveSlots<'_>,
    core: &Core<'_>,
    other: &Core<'_>,
) -> Result<bool, AllocError>
    requires { other.now.module_run ≡ core.now.module_run }
    ensures { IfOk result (λ same. Decides same
        (AreToldAlike (live_of live.now) (without_cells core.now.world)
        (without_cells other.now.world))) }
{
    if are_alike(live, core, other)? {
        return Ok(true);
    }
    let one = Ranked::of(alloc, core)?;
    let two = Ranked::of(alloc, other)?;
    let same = is_same_left(live, &one, &two)?;
    Ok(same)
}

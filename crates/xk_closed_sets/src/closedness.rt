//! Whether a set of activities is closed.

ghost use Rattle.std.specs.Prelude.{◌≡◌, ◌<◌, true, IsTrue, IfOk, length};
ghost use Rattle.std.specs.Option.{option_map_or};
ghost use Rattle.xk_law_commute.specs.Conflicts.{next_instruction};
ghost use Rattle.xk_closed.specs.Closed.{IsClosed};
ghost use Rattle.xk_closed_sets.specs.Footprint.{is_apart};
ghost use Rattle.xk_closed_sets.specs.ClosedSets.{IsFitting, IsMember, IsOutsider, is_in};
ghost use Rattle.xk_closed_sets.specs.Footprints.{AreFootprints};
ghost use Rattle.xk_closed_sets.specs.Places.{phase_in, rest_in};

use crate::claims::{claim, reach_of};
use crate::footprint::Footprint;
use crate::holding::{is_in, is_stuck};
use crate::instructions::instruction_of;
use crate::places::Row;
use std::alloc::AllocError;
use xk_core::Core;
use xk_types::Act;

/// Whether the instruction that the activity stands at has nothing to do with those of the footprint.
fn is_next_apart(core: &Core<'_>, footprint: &Footprint, act: Act) -> bool
    requires { act < length core.now.world.activities }
    ensures { IsTrue result → option_map_or (is_apart footprint.now)
        (next_instruction core.now.module_run core.now.world act) true ≡ true }
{
    match instruction_of(core, act) {
        Some(instr) => footprint.is_apart(instr),
        None => true,
    }
}

/// Whether a member can take a step that has nothing to do with what others may do; or is stuck.
#[tactic(auto, using(crate::proofs::ClosednessLemmas::member_free, crate::proofs::ClosednessLemmas::member_stuck))]
fn is_member(core: &Core<'_>, members: &[bool], others: &Footprint, act: Act) -> bool
    requires { act < length core.now.world.activities }
    ensures { IsTrue result → IsMember core.now.module_run core.now.world (is_in members.now)
        others.now act }
{
    if core.enabled(act) {
        is_next_apart(core, others, act)
    } else {
        is_stuck(core, members, act)
    }
}

/// Whether what an outsider may do is in the footprint.
#[tactic(auto, using(crate::proofs::ClaimLemmas::outsider_wider))]
fn is_outsider(
    rows: &[Row],
    core: &Core<'_>,
    members: &[bool],
    others: &Footprint,
    act: Act,
) -> Result<bool, AllocError>
    requires { act < length core.now.world.activities }
    ensures { IfOk result (λ yes. IsTrue yes → IsOutsider core.now.module_run core.now.world
        (is_in members.now) (rest_in rows.now) (phase_in rows.now) others.now act) }
{
    let reach = reach_of(rows, core, act)?;
    Ok(others.covers(&claim(core, members, &reach, act)))
}

/// Whether the activity is one or the other.
#[tactic(auto, using(crate::proofs::ClosednessLemmas::fitting_member, crate::proofs::ClosednessLemmas::fitting_outsider))]
fn is_fitting(
    rows: &[Row],
    core: &Core<'_>,
    members: &[bool],
    others: &Footprint,
    act: Act,
) -> Result<bool, AllocError>
    requires { act < length core.now.world.activities }
    ensures { IfOk result (λ yes. IsTrue yes → IsFitting core.now.module_run core.now.world
        (is_in members.now) (rest_in rows.now) (phase_in rows.now) others.now act) }
{
    if is_in(members, act) {
        return Ok(is_member(core, members, others, act));
    }
    let fits = is_outsider(rows, core, members, others, act)?;
    Ok(fits)
}

/// Whether the set of these members is closed, as far as is seen by a footprint of what others may do. It may say no where it is so.
pub(crate) fn is_closed(
    rows: &[Row],
    core: &Core<'_>,
    members: &[bool],
    others: &Footprint,
) -> Result<bool, AllocError>
    requires { AreFootprints core.now.module_run (rest_in rows.now) (phase_in rows.now) }
    ensures { IfOk result (λ yes. IsTrue yes
        → IsClosed core.now.module_run core.now.world (is_in members.now)) }
{
    for a in 0..core.activities() {
        let fits = is_fitting(rows, core, members, others, Act(a))?;
        if !fits {
            return Ok(false);
        }
    }
    Ok(members.len() <= core.activities() as usize)
}

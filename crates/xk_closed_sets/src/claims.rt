//! What an activity may do, as long as nobody of a set moves.

ghost use Rattle.std.specs.Prelude.{◌≡◌, ◌<◌, IfOk, length};
ghost use Rattle.xk_activity.specs.Activities.{act_at};
ghost use Rattle.xk_closed.specs.Footprints.{Table};
ghost use Rattle.xk_closed_sets.specs.ClosedSets.{IsOutsider, is_in};
ghost use Rattle.xk_closed_sets.specs.Places.{phase_in, rest_in};
ghost use Rattle.xk_closed_sets.specs.Reaches.{CoversWaiting, IsReach};

use crate::footprint::Footprint;
use crate::holding::{is_held_up, is_stuck};
use crate::places::{Reach, Row, reach_at};
use std::alloc::AllocError;
use xk_activity::Frames;
use xk_core::Core;
use xk_types::Act;

/// What the frames that wait may carry out behind their calls.
#[tactic(auto, using(crate::proofs::ClaimLemmas::nobody_waits, crate::proofs::ClaimLemmas::one_waits))]
fn waiting(rows: &[Row], frames: &mut Frames<'_>) -> Footprint
    ensures { CoversWaiting result (rest_in rows.now) frames.old.callers }
{
    if !frames.up() {
        return Footprint::nothing();
    }
    let behind = reach_at(rows, frames.unit() as usize, frames.place() as usize + 1);
    behind.rest.joined(&waiting(rows, frames))
}

/// What the activity may still do.
#[tactic(auto, using(crate::proofs::ClaimLemmas::reach_whole))]
pub(crate) fn reach_of(rows: &[Row], core: &Core<'_>, act: Act) -> Result<Reach, AllocError>
    requires { act < length core.now.world.activities }
    ensures { IfOk result (IsReach (rest_in rows.now) (phase_in rows.now)
        (act_at core.now.world.activities act)) }
{
    let frames = core.frames(act);
    let here = reach_at(rows, frames.unit() as usize, frames.place() as usize);
    let mut outer = frames.copy()?;
    let behind = waiting(rows, &mut outer);
    Ok(Reach {
        rest: here.rest.joined(&behind),
        phase: here.phase.joined(&behind),
    })
}

/// What the activity may do as long as nobody of the set moves: nothing, if it is stuck; what comes before its next pass of an
/// `advance`, if somebody of the set holds it up on a clock, and it drops none before; else all that it may still do.
#[tactic(auto, using(crate::proofs::ClaimLemmas::bounded_of))]
pub(crate) fn claim(core: &Core<'_>, members: &[bool], reach: &Reach, act: Act) -> Footprint
    requires { act < length core.now.world.activities }
    ensures { (rest phase : Table)
        → IsReach rest phase (act_at core.now.world.activities act) reach.now
        → IsOutsider core.now.module_run core.now.world (is_in members.now) rest phase result act }
{
    if is_stuck(core, members, act) {
        return Footprint::nothing();
    }
    if !reach.phase.drops && is_held_up(core, members, act) {
        return reach.phase;
    }
    reach.rest
}

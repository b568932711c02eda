//! Who is held up by somebody of a set, and takes no step as long as nobody of the set moves.

ghost use Rattle.std.specs.Prelude.{◌≡◌, ◌⊎◌, ◌<◌, ℕ, IsTrue, Some, length};
ghost use Rattle.xk_types.specs.declared.instr.Instr.TheVariants as instr;
ghost use Rattle.xk_law_commute.specs.Conflicts.{next_instruction};
ghost use Rattle.xk_types.specs.Step.{is_pending};
ghost use Rattle.xk_types.specs.declared.world.Standing.TheVariants as standing;
ghost use Rattle.xk_law_traces.specs.Edges.{standing_on};
ghost use Rattle.xk_closed.specs.Closed.{IsStuck};
ghost use Rattle.xk_closed_sets.specs.ClosedSets.{HasLivingUnder, IsHeldBySet, is_in};

use crate::instructions::instruction_of;
use xk_core::Core;
use xk_types::{Act, ClockId, Instr, Standing};

/// Whether the list says yes for the activity.
pub(crate) fn is_in(members: &[bool], act: Act) -> bool
    ensures { result ≡ is_in members.now act }
{
    match members.get(act.0 as usize) {
        Some(inside) => *inside,
        None => false,
    }
}

/// Whether the activity is registered on the clock, and hasn't resumed it in this phase.
pub(crate) fn is_pending(core: &Core<'_>, act: Act, clock: ClockId) -> bool
    requires activity { act < length core.now.world.activities }
    requires clock { clock < length core.now.world.clocks }
    ensures { result ≡ is_pending (standing_on core.now.world act clock) }
{
    match core.standing(act, clock) {
        Standing::Open | Standing::Ahead => true,
        Standing::Apart | Standing::Signalled => false,
    }
}

/// Whether the activity is open or signalled on the clock.
fn is_bound(core: &Core<'_>, act: Act, clock: ClockId) -> bool
    requires activity { act < length core.now.world.activities }
    requires clock { clock < length core.now.world.clocks }
    ensures { IsTrue result → (standing_on core.now.world act clock ≡ standing.Open)
        ⊎ (standing_on core.now.world act clock ≡ standing.Signalled) }
{
    match core.standing(act, clock) {
        Standing::Open | Standing::Signalled => true,
        Standing::Apart | Standing::Ahead => false,
    }
}

/// Whether somebody of the set holds the activity up on the clock.
fn is_held_on(core: &Core<'_>, members: &[bool], act: Act, clock: ClockId) -> bool
    requires activity { act < length core.now.world.activities }
    requires clock { clock < length core.now.world.clocks }
    ensures { IsTrue result → IsHeldBySet core.now.world (is_in members.now) act }
{
    if !is_bound(core, act, clock) {
        return false;
    }
    for a in 0..core.activities() {
        let holder = Act(a);
        if is_in(members, holder) && is_pending(core, holder, clock) {
            return true;
        }
    }
    false
}

/// Whether somebody of the set holds the activity up on a clock.
pub(crate) fn is_held_up(core: &Core<'_>, members: &[bool], act: Act) -> bool
    requires { act < length core.now.world.activities }
    ensures { IsTrue result → IsHeldBySet core.now.world (is_in members.now) act }
{
    for c in 0..core.clocks() {
        if is_held_on(core, members, act, ClockId(c)) {
            return true;
        }
    }
    false
}

/// Whether somebody of the set lives under the finish that the activity opened last.
fn has_living_under(core: &Core<'_>, members: &[bool], act: Act) -> bool
    requires { act < length core.now.world.activities }
    ensures { IsTrue result → HasLivingUnder core.now.world (is_in members.now) act }
{
    for a in 0..core.activities() {
        let child = Act(a);
        if is_in(members, child) && core.is_living(child) && core.is_under(act, child) {
            return true;
        }
    }
    false
}

/// Whether the activity stands at an `endfinish`.
pub(crate) fn is_at_end(core: &Core<'_>, act: Act) -> bool
    requires { act < length core.now.world.activities }
    ensures { IsTrue result → (k : ℕ)
        × (next_instruction core.now.module_run core.now.world act ≡ Some (instr.EndFinish k)) }
{
    match instruction_of(core, act) {
        Some(Instr::EndFinish(_)) => true,
        _ => false,
    }
}

/// Whether the activity takes no step as long as nobody of the set moves, as far as is seen here: it has ended; it waits for a clock that
/// somebody of the set holds up; or at the end of a finish under which somebody of the set lives.
#[tactic(auto, using(crate::proofs::StuckLemmas::over, crate::proofs::StuckLemmas::held, crate::proofs::StuckLemmas::awaiting))]
pub(crate) fn is_stuck(core: &Core<'_>, members: &[bool], act: Act) -> bool
    requires { act < length core.now.world.activities }
    ensures { IsTrue result
        → IsStuck core.now.module_run core.now.world (is_in members.now) act }
{
    // For the law: the module is accepted, and the world is reached.
    let _core = core.activities();
    if !core.is_living(act) {
        return true;
    }
    if core.is_waiting(act) {
        return is_held_up(core, members, act);
    }
    is_at_end(core, act) && has_living_under(core, members, act)
}

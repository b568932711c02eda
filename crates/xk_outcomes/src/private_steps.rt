//! Steps that a search takes before all others: whatever others do meanwhile has nothing to do with them.

ghost use Rattle.std.specs.Prelude.{◌≡◌, ◌<◌, length, option_map, true};
ghost use Rattle.std.specs.Option.{option_map_or};
ghost use Rattle.xk_closed.specs.Futures.{is_private};
ghost use Rattle.xk_law_commute.specs.Conflicts.{next_instruction};
ghost use Rattle.xk_outcomes.specs.PrivateSteps.{has_private_step};
ghost use Rattle.xk_races.specs.ClockSteps.{instr_in};

use xk_core::Core;
use xk_types::{Act, Instr, Module};

/// Whether the instruction neither prints nor has to do with a shared number.
fn is_private(instr: &Instr) -> bool
    ensures { result ≡ is_private instr.now }
{
    match instr {
        Instr::Print(_) => false,
        Instr::Get { .. } | Instr::Put { .. } | Instr::AddTo { .. } => false,
        _ => true,
    }
}

/// The instruction at a place, if there is one.
fn instr_at(program: &Module, unit: u16, place: u32) -> Option<&Instr>
    ensures { option_map (λ i. i.now) result ≡ instr_in program.now unit place }
{
    match program.units().get(unit as usize) {
        Some(unit) => unit.code.get(place as usize),
        None => None,
    }
}

/// Whether the instruction that the activity stands at is private.
#[tactic(auto, using(crate::proofs::PrivateStepLemmas::stands_at))]
fn is_next_private(core: &Core<'_>, act: Act) -> bool
    requires { act < length core.now.world.activities }
    ensures { result ≡ option_map_or is_private
        (next_instruction core.now.module_run core.now.world act) true }
{
    let frames = core.frames(act);
    match instr_at(core.module().module(), frames.unit(), frames.place()) {
        Some(instr) => is_private(instr),
        None => true,
    }
}

/// Whether the activity can take a step that is private: it neither prints nor has to do with a shared number.
pub fn has_private_step(core: &Core<'_>, act: Act) -> bool
    requires { act < length core.now.world.activities }
    ensures { result ≡ has_private_step core.now.module_run core.now.world act }
{
    core.enabled(act) && is_next_private(core, act)
}

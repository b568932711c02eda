//! The instructions that activities stand at, and where these go.

ghost use Rattle.std.specs.Prelude.{◌≡◌, ◌<◌, length, option_map};
ghost use Rattle.xk_law_commute.specs.Conflicts.{next_instruction};
ghost use Rattle.xk_closed.specs.Footprints.{is_advance};
ghost use Rattle.xk_closed_sets.specs.Places.{instruction_in, leads};

use xk_core::Core;
use xk_types::{Act, Instr, Module};

/// Whether it is an `advance`.
pub(crate) fn is_advance(instr: &Instr) -> bool
    ensures { result ≡ is_advance instr.now }
{
    matches!(instr, Instr::Advance)
}

/// Where the instruction may go but to the next.
pub(crate) fn leads(instr: &Instr) -> Option<usize>
    ensures { result ≡ leads instr.now }
{
    match instr {
        Instr::Unless { t, .. } => Some(*t as usize),
        Instr::Jump(t) => Some(*t as usize),
        Instr::ForTo { e, .. } => Some(*e as usize + 1),
        Instr::Next(b) => Some(*b as usize + 1),
        _ => None,
    }
}

/// The instruction at a place of a unit, if there is one.
fn instruction_in(program: &Module, unit: u16, place: u32) -> Option<&Instr>
    ensures { option_map (λ i. i.now) result ≡ instruction_in program.now unit place }
{
    match program.units().get(unit as usize) {
        Some(unit) => unit.code.get(place as usize),
        None => None,
    }
}

/// The instruction that the activity stands at.
#[tactic(auto, using(crate::proofs::InstructionLemmas::stands_at))]
pub(crate) fn instruction_of<'m>(core: &Core<'m>, act: Act) -> Option<&'m Instr>
    requires { act < length core.now.world.activities }
    ensures { option_map (λ i. i.now) result
        ≡ next_instruction core.now.module_run core.now.world act }
{
    let frames = core.frames(act);
    instruction_in(core.module().module(), frames.unit(), frames.place())
}

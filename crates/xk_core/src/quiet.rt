//! Steps that may as well be taken first.

ghost use Rattle.std.specs.Prelude.{◌≡◌};
ghost use Rattle.xk_law_commute.specs.QuietSteps.{has_quiet_step, is_loud};

use crate::machine::Core;
use xk_types::{Act, Instr};

/// Whether the instruction prints, makes a clock, starts an activity, or has to do with a shared number.
fn is_loud(instr: &Instr) -> bool
    ensures { result ≡ is_loud instr.now }
{
    match instr {
        Instr::Print(_) | Instr::Make(_) | Instr::Spawn { .. } => true,
        Instr::Get { .. } | Instr::Put { .. } | Instr::AddTo { .. } => true,
        _ => false,
    }
}

impl<'m> Core<'m> {
    /// Whether the activity can take a step that is quiet: it neither prints, nor makes a clock, nor starts an activity, nor has to do
    /// with a shared number.
    pub fn has_quiet_step(&self, act: Act) -> bool
        ensures { result ≡ has_quiet_step self.now.module_run self.now.world act }
    {
        self.enabled(act) && !is_loud(self.instruction(act))
    }
}

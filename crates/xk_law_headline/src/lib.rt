//! What holds of every source text whose module is accepted: nothing here is computed.
#![tactic(auto)]

ghost use Rattle.std.specs.Prelude.{ℕ, List};
ghost use Rattle.xk_types.specs.Acceptance.{IsAccepted};
ghost use Rattle.xk_types.specs.Code.{ModuleValue};
ghost use Rattle.xk_law_headline.specs.EveryRun.{EveryRun};
ghost use Rattle.xk_program.specs.Programs.{IsCompiledTo};

use xk_law_compiler::laws::means_its_source;
use xk_law_schedules::every_accepted_module;

/// What holds of every source text that is compiled to a module which is accepted, of all arguments that its main may be given, and of
/// every schedule of its activity steps. No step raises ClockUseException or meets a missing or wrong operand. A run has at most the
/// verified number of steps, and its worlds at most the verified numbers of activities, of clocks, and of slots of an activity. Where nobody
/// can take a step, every activity has ended. And each run is a run of the text with the same arguments: the text's own steps, one statement at
/// a time, show the same to all activities. The call does nothing; its contract is the law.
pub fn every_accepted_text()
    ensures { (bytes : List ℕ) (m : ModuleValue) → (p : IsCompiledTo bytes m) → IsAccepted m
        → EveryRun p.tree m }
{
    every_accepted_module();
    means_its_source();
}

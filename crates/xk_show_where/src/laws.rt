//! What is so of those who are told to wait: nothing here is computed.

ghost use Rattle.std.specs.Prelude.{[], ◌≡◌, ◌≢◌, ℕ, Some, true};
ghost use Rattle.xk_types.specs.declared.instr.Instr.TheVariants as instr;
ghost use Rattle.xk_types.specs.Step.{is_signalled, waits};
ghost use Rattle.xk_types.specs.World.{instruction_at};
ghost use Rattle.xk_activity.specs.Activities.{act_at};
ghost use Rattle.xk_core.specs.Core.{is_waiting};
ghost use Rattle.xk_core.specs.Enabledness.{is_kept};
ghost use Rattle.xk_show_where.specs.declared.condition.Condition.TheVariants as condition;
ghost use Rattle.xk_show_where.specs.Where.{awaited_by, condition_of, holders_of, standing_on};

use xk_core::Core;

/// Who is told to wait for clocks stands at an `advance`, at which it has arrived, and is signalled on a clock. Who is told to wait in a
/// finish stands at an `endfinish`, and somebody under that finish hasn't ended. Whom one waits for is never told as nobody: a clock on
/// which somebody is signalled is held back by an activity that is registered on it, and who waits in a finish awaits an activity.
pub fn who_waits_is_held(core: &Core<'_>)
    ensures clocks { (a : ℕ) → condition_of core.now.module_run core.now.world a
        ≡ condition.ForClocks
        → (is_waiting core.now.world a ≡ true) × (waits core.now.world a ≡ true)
        × (instruction_at core.now.module_run (act_at core.now.world.activities a).frame
        ≡ Some instr.Advance) }
    ensures finish { (a : ℕ) → condition_of core.now.module_run core.now.world a
        ≡ condition.InFinish → is_kept core.now.module_run core.now.world a ≡ true }
    ensures held { (a c : ℕ) → is_signalled (standing_on core.now.world a c) ≡ true
        → holders_of core.now.world c ≢ [] }
    ensures awaited { (a : ℕ) → condition_of core.now.module_run core.now.world a
        ≡ condition.InFinish → awaited_by core.now.world a ≢ [] }
{
    // Every core is where a legal schedule of an accepted module leads.
    let _there = core.activities();
}

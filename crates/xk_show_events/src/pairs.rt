//! One walk over the log of a run, for two who tell of its steps.

ghost use Rattle.std.specs.Prelude.{◌≡◌, true, ◌++◌, replicate, IfOk, OnOk};
ghost use Rattle.xk_types.specs.Code.{ModuleValue};
ghost use Rattle.xk_types.specs.Schedule.{Through, is_enabled, run};
ghost use Rattle.xk_core.specs.Core.{StepsTo};
ghost use Rattle.xk_show_events.specs.Steps.{IsLegalFrom, IsSilentAfter, tell_by, told, told_of_run};

use crate::legal_run::LegalRun;
use crate::steps::take_step;
use crate::walk::Describe;
use std::alloc::{AllocError, Global};
use xk_core::Core;
use xk_types::{Act, Entry, Event};

/// Two who tell of the same steps.
#[derive(Clone, Copy)]
pub struct Both<'a, A, B> {
    pub first: &'a A,
    pub second: &'a B,
}

/// Takes a step of an activity that can take one, and adds what each of the two tells of it.
fn push_step_by_both<X, Y, A: Describe<X>, B: Describe<Y>>(
    both: &Both<'_, A, B>,
    alloc: Global,
    firsts: &mut Vec<X>,
    seconds: &mut Vec<Y>,
    core: &mut Core<'_>,
    act: Act,
) -> Result<Event, AllocError>
    requires { is_enabled core.old.module_run core.old.world act ≡ true }
    ensures stepped { IfOk result (StepsTo core.old act core.new) }
    ensures first { IfOk result (λ e. firsts.new.items ≡ firsts.old.items
        ++ tell_by (A.describe both.now.first.now core.old.module_run)
        act core.old.world core.new.world e) }
    ensures second { IfOk result (λ e. seconds.new.items ≡ seconds.old.items
        ++ tell_by (B.describe both.now.second.now core.old.module_run)
        act core.old.world core.new.world e) }
    ensures same_module { core.new.module_run ≡ core.old.module_run }
{
    let step = take_step(core, act)?;
    both.first.push(alloc, firsts, core, &step)?;
    both.second.push(alloc, seconds, core, &step)?;
    Ok(step.event)
}

/// Takes the steps of an entry, and adds what each of the two tells of them.
fn push_entry_by_both<X, Y, A: Describe<X>, B: Describe<Y>>(
    both: &Both<'_, A, B>,
    alloc: Global,
    firsts: &mut Vec<X>,
    seconds: &mut Vec<Y>,
    core: &mut Core<'_>,
    entry: Entry,
) -> Result<(), AllocError>
    requires { IsLegalFrom core.old (replicate entry.steps entry.act) }
    ensures first { OnOk result (firsts.new.items ≡ firsts.old.items
        ++ told (tell_by (A.describe both.now.first.now core.old.module_run))
        core.old.module_run (replicate entry.steps entry.act) core.old.world) }
    ensures second { OnOk result (seconds.new.items ≡ seconds.old.items
        ++ told (tell_by (B.describe both.now.second.now core.old.module_run))
        core.old.module_run (replicate entry.steps entry.act) core.old.world) }
    ensures led { OnOk result (run core.old.module_run (replicate entry.steps entry.act)
        core.old.world ≡ Through core.new.world) }
    ensures same_module { core.new.module_run ≡ core.old.module_run }
{
    for _done in 0..entry.steps {
        push_step_by_both(both, alloc, firsts, seconds, core, Act(entry.act))?;
    }
    Ok(())
}

/// Whether neither tells anything of the steps behind the first so many of a run.
fn are_silent_after<X, Y, A: Describe<X>, B: Describe<Y>>(both: &Both<'_, A, B>, steps: u64) -> bool
    ensures first { result ≡ true → (m : ModuleValue)
        → IsSilentAfter (tell_by (A.describe both.now.first.now m)) steps }
    ensures second { result ≡ true → (m : ModuleValue)
        → IsSilentAfter (tell_by (B.describe both.now.second.now m)) steps }
{
    both.first.is_silent_after(steps) && both.second.is_silent_after(steps)
}

/// Adds what each of the two tells of the steps of a run, in their order, to a list of its own. The log is played again
/// for it, once. Err where memory was refused.
pub fn describe_run_by_both<X, Y, A: Describe<X>, B: Describe<Y>>(
    both: &Both<'_, A, B>,
    alloc: Global,
    firsts: &mut Vec<X>,
    seconds: &mut Vec<Y>,
    legal: &LegalRun<'_, '_>,
) -> Result<(), AllocError>
    ensures first { OnOk result (firsts.new.items ≡ firsts.old.items
        ++ told_of_run (tell_by (A.describe both.now.first.now legal.now.module.now))
        legal.now.module.now legal.now.core.now.world.arguments legal.now.log.now) }
    ensures second { OnOk result (seconds.new.items ≡ seconds.old.items
        ++ told_of_run (tell_by (B.describe both.now.second.now legal.now.module.now))
        legal.now.module.now legal.now.core.now.world.arguments legal.now.log.now) }
{
    let mut core = Core::open(alloc, legal.module, legal.core.arguments())?;
    for entry in legal.log {
        if are_silent_after(both, core.steps_done()) {
            return Ok(());
        }
        push_entry_by_both(both, alloc, firsts, seconds, &mut core, *entry)?;
    }
    Ok(())
}

//! One walk over the log of a run, for whoever tells of its steps.

ghost use Rattle.std.specs.Prelude.{◌≡◌, List, true, ◌++◌, replicate, IfOk, OnOk};
ghost use Rattle.xk_types.specs.Code.{ModuleValue};
ghost use Rattle.xk_types.specs.Schedule.{Through, is_enabled, run};
ghost use Rattle.xk_types.specs.World.{World};
ghost use Rattle.xk_core.specs.Core.{StepsTo};
ghost use Rattle.xk_show_events.specs.declared.steps.RunStep.{RunStep};
ghost use Rattle.xk_show_events.specs.Steps.{IsLegalFrom, IsSilentAfter, Teller, tell_by, told, told_of_run};

use crate::legal_run::LegalRun;
use crate::steps::{RunStep, take_step};
use std::alloc::{AllocError, Global};
use xk_core::Core;
use xk_types::{Act, Entry, Event};

/// Tells of the steps of runs, each by some items.
pub trait Tell<X> {
    /// What it tells of a step in a run of a module.
    ghost tell: { Self → ModuleValue → Teller X };

    /// Takes a step of an activity that can take one, and adds what is told of it; what it was seen to do. Err where memory was refused.
    fn push_step(
        &self,
        alloc: Global,
        out: &mut Vec<X>,
        core: &mut Core<'_>,
        act: Act,
    ) -> Result<Event, AllocError>
        requires { is_enabled core.old.module_run core.old.world act ≡ true }
        ensures stepped { IfOk result (StepsTo core.old act core.new) }
        ensures told { IfOk result (λ e. out.new.items ≡ out.old.items
            ++ tell self.now core.old.module_run act core.old.world core.new.world e) }
        ensures same_module { core.new.module_run ≡ core.old.module_run };

    /// Whether it tells nothing of the steps behind the first so many of a run, so that nobody has to take them.
    fn is_silent_after(&self, _steps: u64) -> bool
        ensures { result ≡ true
            → (m : ModuleValue) → IsSilentAfter (tell self.now m) _steps }
    {
        false
    }
}

/// Takes the steps of an entry, and adds what is told of them.
fn push_entry<X, T: Tell<X>>(
    teller: &T,
    alloc: Global,
    out: &mut Vec<X>,
    core: &mut Core<'_>,
    entry: Entry,
) -> Result<(), AllocError>
    requires { IsLegalFrom core.old (replicate entry.steps entry.act) }
    ensures told { OnOk result (out.new.items ≡ out.old.items
        ++ told (T.tell teller.now core.old.module_run) core.old.module_run
        (replicate entry.steps entry.act) core.old.world) }
    ensures led { OnOk result (run core.old.module_run (replicate entry.steps entry.act)
        core.old.world ≡ Through core.new.world) }
    ensures same_module { core.new.module_run ≡ core.old.module_run }
{
    for _done in 0..entry.steps {
        teller.push_step(alloc, out, core, Act(entry.act))?;
    }
    Ok(())
}

/// Adds what is told of the steps of a run, in their order. The log is played again for it. Err where memory was refused.
pub fn tell_run<X, T: Tell<X>>(
    teller: &T,
    alloc: Global,
    out: &mut Vec<X>,
    legal: &LegalRun<'_, '_>,
) -> Result<(), AllocError>
    ensures { OnOk result (out.new.items ≡ out.old.items
        ++ told_of_run (T.tell teller.now legal.now.module.now)
        legal.now.module.now legal.now.core.now.world.arguments legal.now.log.now) }
{
    let mut core = Core::open(alloc, legal.module, legal.core.arguments())?;
    for entry in legal.log {
        if teller.is_silent_after(core.steps_done()) {
            return Ok(());
        }
        push_entry(teller, alloc, out, &mut core, *entry)?;
    }
    Ok(())
}

/// Tells of steps once they were taken, each by some items.
pub trait Describe<X> {
    /// What it tells of a step that led to a world, in a run of a module.
    ghost describe: { Self → ModuleValue → World → RunStep → List X };

    /// Adds what is told of a step that led to the core. Err where memory was refused.
    fn push(
        &self,
        alloc: Global,
        out: &mut Vec<X>,
        core: &Core<'_>,
        step: &RunStep,
    ) -> Result<(), AllocError>
        ensures { OnOk result (out.new.items ≡ out.old.items
            ++ describe self.now core.now.module_run core.now.world step.now) };

    /// Whether it tells nothing of the steps behind the first so many of a run.
    fn is_silent_after(&self, _steps: u64) -> bool
        ensures { result ≡ true → (m : ModuleValue)
            → IsSilentAfter (tell_by (describe self.now m)) _steps }
    {
        false
    }
}

/// Takes the steps that another tells of.
#[derive(Drop)]
struct Taking<'a, D> {
    describer: &'a D,
}

impl<X, D: Describe<X>> Tell<X> for Taking<'_, D> {
    ghost tell = { λ taking m. tell_by (D.describe taking.describer.now m) };

    fn push_step(
        &self,
        alloc: Global,
        out: &mut Vec<X>,
        core: &mut Core<'_>,
        act: Act,
    ) -> Result<Event, AllocError> {
        let step = take_step(core, act)?;
        self.describer.push(alloc, out, core, &step)?;
        Ok(step.event)
    }

    fn is_silent_after(&self, steps: u64) -> bool {
        self.describer.is_silent_after(steps)
    }
}

/// Adds what is told of the steps of a run, in their order, once each was taken. The log is played again for it. Err
/// where memory was refused.
pub fn describe_run<X, D: Describe<X>>(
    describer: &D,
    alloc: Global,
    out: &mut Vec<X>,
    legal: &LegalRun<'_, '_>,
) -> Result<(), AllocError>
    ensures { OnOk result (out.new.items ≡ out.old.items
        ++ told_of_run (tell_by (D.describe describer.now legal.now.module.now))
        legal.now.module.now legal.now.core.now.world.arguments legal.now.log.now) }
{
    tell_run(&Taking { describer }, alloc, out, legal)
}

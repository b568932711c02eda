//! The steps of a run, one by one.

ghost use Rattle.std.specs.Prelude.{◌≡◌, true, ◌++◌, IfOk, OnErr, OnOk};
ghost use Rattle.xk_types.specs.Schedule.{is_enabled};
ghost use Rattle.xk_core.specs.Core.{StepsTo, WantsMemory};
ghost use Rattle.xk_show_events.specs.Steps.{if_seen, run_step, seen_steps};

use crate::legal_run::LegalRun;
use crate::walk::{Describe, describe_run};
use crate::words::is_seen;
use std::alloc::{AllocError, Global};
use xk_core::Core;
use xk_types::{Act, Event};

/// A step of a run.
#[derive(Clone, Copy)]
pub struct RunStep {
    /// Which step of the run it was, counted from 1.
    pub number: u64,
    /// Whose it was.
    pub act: u32,
    /// The unit of the instruction at which that activity stood before it: of a pass, the `advance`.
    pub unit: u16,
    /// The place of that instruction.
    pub place: u32,
    /// How many clocks there were before it: the number of one that it made.
    pub clocks: u32,
    /// How many activities there were before it: the number of one that it started.
    pub activities: u32,
    /// What it was seen to do.
    pub event: Event,
}

/// Takes a step of an activity that can take one, and says what is told of it. Only the start of an activity wants
/// memory; where that is refused the core is as before.
#[tactic(auto, using(crate::proofs::StepLemmas::enabled_there))]
pub fn take_step(core: &mut Core<'_>, act: Act) -> Result<RunStep, AllocError>
    requires { is_enabled core.old.module_run core.old.world act ≡ true }
    ensures stepped { IfOk result (λ s. StepsTo core.old act core.new s.event) }
    ensures told { IfOk result (λ s. s
        ≡ run_step act core.old.world core.new.world s.event) }
    ensures same_module { core.new.module_run ≡ core.old.module_run }
    ensures refused { OnErr result (core.new ≡ core.old) }
    ensures only_where_it_grows { OnErr result (WantsMemory core.old act) }
{
    let frames = core.frames(act);
    let unit = frames.unit();
    let place = frames.place();
    let clocks = core.clocks();
    let activities = core.activities();
    let event = core.step(act)?;
    Ok(RunStep {
        number: core.steps_done(),
        act: act.0,
        unit,
        place,
        clocks,
        activities,
        event,
    })
}

/// Tells of the steps that other activities can see.
struct SeenSteps;

impl Describe<RunStep> for SeenSteps {
    ghost describe = { λ describer m v s. if_seen s };

    fn push(
        &self,
        _alloc: Global,
        out: &mut Vec<RunStep>,
        _core: &Core<'_>,
        step: &RunStep,
    ) -> Result<(), AllocError> {
        if is_seen(step.event) {
            out.push(*step)?;
        }
        Ok(())
    }
}

/// The steps of a run that other activities can see, in their order. The log is played again for it. Err where memory was refused.
pub fn seen_steps(alloc: Global, legal: &LegalRun<'_, '_>) -> Result<Vec<RunStep>, AllocError>
    ensures { IfOk result (λ v. v.items ≡ seen_steps
        legal.now.module.now legal.now.core.now.world.arguments legal.now.log.now) }
{
    let mut list = Vec::new(alloc);
    describe_run(&SeenSteps, alloc, &mut list, legal)?;
    Ok(list)
}

//! What the steps of a run made, and of what.

ghost use Rattle.std.specs.Prelude.{◌≡◌, ◌+◌, true, ◌++◌, length, slice_get, IfOk, OnOk};
ghost use Rattle.xk_types.specs.Schedule.{is_enabled};
ghost use Rattle.xk_activity.specs.Activities.{act_at};
ghost use Rattle.xk_activity.specs.Local.{code_of};
ghost use Rattle.xk_core.specs.Core.{StepsTo};
ghost use Rattle.xk_show_events.specs.Steps.{run_step};
ghost use Rattle.xk_why.specs.Told.{flows_of_run, spot, step_flows, tell_flows};

use crate::data::{Spot, push_data};
use crate::finishes::push_finish_flows;
use crate::flows::Flow;
use crate::waits::push_waits;
use std::alloc::{AllocError, Global};
use xk_activity::Frames;
use xk_core::Core;
use xk_races::{Deed, push_deeds};
use xk_scheduler::Ended;
use xk_show_events::{LegalRun, RunStep, Tell, seen_steps, tell_run};
use xk_types::{Act, Event, Instr, Module};

/// The code of a unit.
fn code_of(program: &Module, unit: u16) -> &[Instr]
    ensures { result.now ≡ code_of program.now unit }
{
    match program.units().get(unit as usize) {
        Some(unit) => &unit.code,
        None => &[],
    }
}

/// This many, and one more for each frame that waits for the present one to return.
#[tactic(auto, using(crate::proofs::DepthLemmas::none_waits, crate::proofs::DepthLemmas::one_less))]
fn depth_from(frames: &mut Frames<'_>, n: usize) -> Result<usize, AllocError>
    ensures { IfOk result (λ depth. depth ≡ n + length frames.old.callers) }
{
    if !frames.up() {
        return Ok(n);
    }
    match n.checked_add(1) {
        Some(more) => depth_from(frames, more),
        None => Err(AllocError),
    }
}

/// How many frames wait for the present one to return. Err where memory was refused.
fn depth_of(frames: &Frames<'_>) -> Result<usize, AllocError>
    ensures { IfOk result (λ n. n ≡ length frames.now.callers) }
{
    let mut above = frames.copy()?;
    depth_from(&mut above, 0)
}

/// Where the activity of a step stands behind it. Err where memory was refused.
#[tactic(auto, using(crate::proofs::DepthLemmas::nobody_stands))]
fn spot(core: &Core<'_>, step: &RunStep) -> Result<Spot, AllocError>
    ensures { IfOk result (λ f. f ≡ spot core.now.world step.now) }
{
    if step.act >= core.activities() {
        return Ok(Spot {
            step: *step,
            depth: 0,
            place: 0,
        });
    }
    let frames = core.frames(Act(step.act));
    let depth = depth_of(frames)?;
    Ok(Spot {
        step: *step,
        depth,
        place: frames.place(),
    })
}

/// Adds what a step made, by its deeds.
fn push_flows(
    list: &mut Vec<Flow>,
    core: &Core<'_>,
    step: &RunStep,
    deeds: &[Deed],
) -> Result<(), AllocError>
    ensures { OnOk result (list.new.items ≡ list.old.items
        ++ step_flows core.now.module_run core.now.world step.now deeds.now) }
{
    let spot = spot(core, step)?;
    push_data(list, code_of(core.module().module(), step.unit), &spot)?;
    push_waits(list, core, deeds)
}

/// Tells of each step what it made.
struct FlowTeller;

impl Tell<Flow> for FlowTeller {
    ghost tell = { λ teller m. tell_flows m };

    #[tactic(auto, using(xk_show_events::proofs::StepLemmas::enabled_there))]
    fn push_step(
        &self,
        alloc: Global,
        out: &mut Vec<Flow>,
        core: &mut Core<'_>,
        act: Act,
    ) -> Result<Event, AllocError> {
        let mut deeds = Vec::new(alloc);
        let step = push_deeds(alloc, &mut deeds, core, act)?;
        push_flows(out, core, &step, &deeds)?;
        Ok(step.event)
    }
}

/// What the steps of a run made. The log is played again for it, twice. Err where memory was refused.
pub(crate) fn flows_of_run(alloc: Global, ended: &Ended<'_>) -> Result<Vec<Flow>, AllocError>
    ensures { IfOk result (λ v. v.items ≡ flows_of_run
        ended.now.module.now ended.now.core.world.arguments ended.now.log.items) }
{
    let mut list = Vec::new(alloc);
    tell_run(&FlowTeller, alloc, &mut list, &LegalRun::of(ended))?;
    let steps = seen_steps(alloc, &LegalRun::of(ended))?;
    push_finish_flows(alloc, &mut list, &steps)?;
    Ok(list)
}

//! What the steps of a run have to do with its order.

ghost use Rattle.std.specs.Prelude.{◌≡◌, ◌<◌, true, [], ◌∷◌, ◌++◌, length, flat_map, option_map, slice_get, Some, if◌then◌else◌, IfOk, OnOk};
ghost use Rattle.xk_types.specs.Step.{is_pending, is_signalled};
ghost use Rattle.xk_types.specs.Schedule.{is_enabled};
ghost use Rattle.xk_core.specs.Core.{StepsTo};
ghost use Rattle.xk_show_events.specs.Steps.{run_step};
ghost use Rattle.xk_races.specs.ClockSteps.{AreEnoughAwaiting, AreEnoughResumed, IsNextIfAny, concerns_clocks, instr_in, leaves_clocks, may_be};
ghost use Rattle.xk_races.specs.Deeds.{advance, at_clocks, awaiting, awaits, cell_at, cell_of, deeds_of_run, gives_way, has_left, has_resumed, leave, pass, plain, plain_part, resumed_by, signal, signals, tell_deeds};

use std::alloc::{AllocError, Global};
use xk_core::Core;
use xk_scheduler::Ended;
use xk_show_events::{LegalRun, RunStep, Tell, advanced, take_step, tell_run};
use xk_types::{Act, ClockId, Event, Instr, Module, Standing};

/// What a step has to do with the order of a run.
#[derive(Clone, Copy, Debug)]
pub enum Part {
    /// This activity was started.
    Start(u32),
    /// This clock awaits the activity no longer: it has resumed or left it.
    Signal(u32),
    /// The activity left this clock, which it had resumed: not the next advance waits for that, but the one behind it.
    Leave(u32),
    /// This clock advanced.
    Advance(u32),
    /// The activity passed this clock, whose advance it had waited for.
    Pass(u32),
    /// A finish was opened.
    Open,
    /// A finish was closed.
    Close,
    /// The activity ended.
    End,
    /// This shared number was read or changed.
    Access(u32),
    /// A number was printed.
    Print,
}

/// A part of a step.
#[derive(Clone, Copy)]
pub struct Deed {
    /// The step.
    pub step: RunStep,
    /// What it has to do with the order of the run.
    pub part: Part,
}

/// Whether a standing is that of one who is registered and hasn't resumed.
fn is_pending(standing: Standing) -> bool
    ensures { result ≡ is_pending standing }
{
    matches!(standing, Standing::Open | Standing::Ahead)
}

/// Whether a standing is that of one who has resumed.
fn is_signalled(standing: Standing) -> bool
    ensures { result ≡ is_signalled standing }
{
    matches!(standing, Standing::Signalled)
}

/// Whether the clock can't advance before the activity resumes or leaves it.
fn awaits(core: &Core<'_>, act: Act, clock: ClockId) -> bool
    requires { clock < length core.now.world.clocks }
    ensures { result ≡ awaits core.now.world act clock }
{
    act.0 < core.activities() && is_pending(core.standing(act, clock))
}

/// Adds a clock, if something holds of it.
fn push_if(list: &mut Vec<u32>, clock: u32, holds: bool) -> Result<(), AllocError>
    ensures { OnOk result (list.new.items ≡ list.old.items
        ++ (if holds then clock ∷ [] else [])) }
{
    if holds {
        list.push(clock)?;
    }
    Ok(())
}

/// The instruction at a place, if there is one.
fn instr_at(program: &Module, unit: u16, place: u32) -> Option<&Instr>
    ensures { option_map (λ i. i.now) result ≡ instr_in program.now unit place }
{
    match program.units().get(unit as usize) {
        Some(unit) => unit.code.get(place as usize),
        None => None,
    }
}

/// The instruction that an activity carries out next, if it runs.
fn next_instr<'m>(core: &Core<'m>, act: Act) -> Option<&'m Instr>
    requires { act < length core.now.world.activities }
    ensures { IsNextIfAny core.now.module_run core.now.world act
        (option_map (λ i. i.now) result) }
{
    if !core.is_living(act) {
        return None;
    }
    if core.is_waiting(act) {
        return None;
    }
    let frames = core.frames(act);
    instr_at(core.module().module(), frames.unit(), frames.place())
}

/// Whether a step at an instruction may leave clocks.
fn may_leave(next: Option<&Instr>) -> bool
    ensures { result ≡ may_be leaves_clocks (option_map (λ i. i.now) next.entry) }
{
    match next {
        Some(instr) => matches!(instr, Instr::Drop(_) | Instr::Ret),
        None => true,
    }
}

/// Whether it may resume or leave clocks.
fn may_concern_clocks(next: Option<&Instr>) -> bool
    ensures { result ≡ may_be concerns_clocks (option_map (λ i. i.now) next.entry) }
{
    match next {
        Some(instr) => matches!(
            instr,
            Instr::Resume(_) | Instr::Advance | Instr::Drop(_) | Instr::Ret
        ),
        None => true,
    }
}

/// The clocks that await the activity, as far as its next step may have to do with them.
fn awaiting(
    alloc: Global,
    core: &Core<'_>,
    act: Act,
    next: Option<&Instr>,
) -> Result<Vec<u32>, AllocError>
    requires { IsNextIfAny core.now.module_run core.now.world act
        (option_map (λ i. i.now) next) }
    ensures { IfOk result (λ v. AreEnoughAwaiting core.now.module_run core.now.world act
        v.items) }
{
    let mut list = Vec::new(alloc);
    if !may_concern_clocks(next) {
        return Ok(list);
    }
    for clock in 0..core.clocks() {
        push_if(&mut list, clock, awaits(core, act, ClockId(clock)))?;
    }
    Ok(list)
}

/// Whether the activity has resumed the clock, which hasn't advanced since.
fn has_resumed(core: &Core<'_>, act: Act, clock: ClockId) -> bool
    requires { clock < length core.now.world.clocks }
    ensures { result ≡ has_resumed core.now.world act clock }
{
    act.0 < core.activities() && is_signalled(core.standing(act, clock))
}

/// The clocks that the activity has resumed, as far as its next step may have to do with them.
fn resumed_by(
    alloc: Global,
    core: &Core<'_>,
    act: Act,
    next: Option<&Instr>,
) -> Result<Vec<u32>, AllocError>
    requires { IsNextIfAny core.now.module_run core.now.world act
        (option_map (λ i. i.now) next) }
    ensures { IfOk result (λ v. AreEnoughResumed core.now.module_run core.now.world act
        v.items) }
{
    let mut list = Vec::new(alloc);
    if !may_leave(next) {
        return Ok(list);
    }
    for clock in 0..core.clocks() {
        push_if(&mut list, clock, has_resumed(core, act, ClockId(clock)))?;
    }
    Ok(list)
}

/// Whether the activity isn't registered on the clock: it has left it.
fn has_left(core: &Core<'_>, act: Act, clock: ClockId) -> bool
    ensures { result ≡ has_left core.now.world act clock }
{
    if act.0 >= core.activities() || clock.0 >= core.clocks() {
        return true;
    }
    !core.registered(act, clock)
}

/// Whether the clock awaits the activity no longer: it has resumed or left it, and the clock may have advanced by that.
fn gives_way(core: &Core<'_>, act: Act, clock: ClockId) -> bool
    ensures { result ≡ gives_way core.now.world act clock }
{
    if clock.0 >= core.clocks() {
        return true;
    }
    core.last(clock) == core.steps_done() || !awaits(core, act, clock)
}

/// Adds the deed at a clock, if it gave way.
fn push_signal(
    list: &mut Vec<Deed>,
    core: &Core<'_>,
    step: &RunStep,
    clock: u32,
) -> Result<(), AllocError>
    ensures { OnOk result (list.new.items ≡ list.old.items
        ++ signal core.now.world step.now clock) }
{
    if gives_way(core, Act(step.act), ClockId(clock)) {
        list.push(Deed {
            step: *step,
            part: Part::Signal(clock),
        })?;
    }
    Ok(())
}

/// Adds the deeds at those clocks that gave way.
fn push_signals(
    list: &mut Vec<Deed>,
    core: &Core<'_>,
    step: &RunStep,
    clocks: &[u32],
) -> Result<(), AllocError>
    ensures { OnOk result (list.new.items ≡ list.old.items
        ++ flat_map (signal core.now.world step.now) clocks.now) }
{
    for clock in clocks {
        push_signal(list, core, step, *clock)?;
    }
    Ok(())
}

/// Adds the deed at a clock that the activity had resumed, if it left it.
fn push_leave(
    list: &mut Vec<Deed>,
    core: &Core<'_>,
    step: &RunStep,
    clock: u32,
) -> Result<(), AllocError>
    ensures { OnOk result (list.new.items ≡ list.old.items
        ++ leave core.now.world step.now clock) }
{
    if has_left(core, Act(step.act), ClockId(clock)) {
        list.push(Deed {
            step: *step,
            part: Part::Leave(clock),
        })?;
    }
    Ok(())
}

/// Adds the deeds at those clocks that were left.
fn push_leaves(
    list: &mut Vec<Deed>,
    core: &Core<'_>,
    step: &RunStep,
    clocks: &[u32],
) -> Result<(), AllocError>
    ensures { OnOk result (list.new.items ≡ list.old.items
        ++ flat_map (leave core.now.world step.now) clocks.now) }
{
    for clock in clocks {
        push_leave(list, core, step, *clock)?;
    }
    Ok(())
}

/// Adds the advances of these clocks.
fn push_advances(list: &mut Vec<Deed>, step: &RunStep, clocks: &[u32]) -> Result<(), AllocError>
    ensures { OnOk result (list.new.items ≡ list.old.items
        ++ flat_map (advance step.now) clocks.now) }
{
    for clock in clocks {
        list.push(Deed {
            step: *step,
            part: Part::Advance(*clock),
        })?;
    }
    Ok(())
}

/// Adds the passes of these clocks.
fn push_passes(list: &mut Vec<Deed>, step: &RunStep, clocks: &[u32]) -> Result<(), AllocError>
    ensures { OnOk result (list.new.items ≡ list.old.items
        ++ flat_map (pass step.now) clocks.now) }
{
    for clock in clocks {
        list.push(Deed {
            step: *step,
            part: Part::Pass(*clock),
        })?;
    }
    Ok(())
}

/// Adds the deeds at those clocks that gave way, of those that awaited the activity before, and the advances.
fn push_signals_and_advances(
    alloc: Global,
    list: &mut Vec<Deed>,
    core: &Core<'_>,
    step: &RunStep,
    awaiting: &[u32],
) -> Result<(), AllocError>
    ensures { OnOk result (list.new.items ≡ list.old.items
        ++ signals core.now.world step.now awaiting.now) }
{
    let advanced = advanced(alloc, core)?;
    push_signals(list, core, step, awaiting)?;
    push_advances(list, step, &advanced)
}

/// Which shared number an instruction has to do with.
fn cell_of(instr: &Instr) -> u32
    ensures { result ≡ cell_of (Some instr.now) }
{
    match instr {
        Instr::Get { s, .. } => u32::from(*s),
        Instr::Put { s, .. } => u32::from(*s),
        Instr::AddTo { s, .. } => u32::from(*s),
        _ => 0,
    }
}

/// Which shared number a step had to do with.
fn cell_at(program: &Module, step: &RunStep) -> u32
    ensures { result ≡ cell_at program.now step.now }
{
    match program.units().get(step.unit as usize) {
        Some(unit) => match unit.code.get(step.place as usize) {
            Some(instr) => cell_of(instr),
            None => 0,
        },
        None => 0,
    }
}

/// What a step did that has to do with no clock, if it did.
fn plain_part(program: &Module, step: &RunStep) -> Option<Part>
    ensures { result ≡ plain_part program.now step.now step.now.event }
{
    match step.event {
        Event::Got | Event::Put | Event::Added => Some(Part::Access(cell_at(program, step))),
        Event::Printed(_) => Some(Part::Print),
        Event::Opened => Some(Part::Open),
        Event::Closed => Some(Part::Close),
        Event::Spawned => Some(Part::Start(step.activities)),
        Event::Ended => Some(Part::End),
        _ => None,
    }
}

/// Adds that part of a step.
fn push_plain(list: &mut Vec<Deed>, program: &Module, step: &RunStep) -> Result<(), AllocError>
    ensures { OnOk result (list.new.items ≡ list.old.items
        ++ plain program.now step.now) }
{
    if let Some(part) = plain_part(program, step) {
        list.push(Deed { step: *step, part })?;
    }
    Ok(())
}

/// Adds what a step did at clocks, by those that the activity had resumed before it, and those that awaited it.
fn push_at_clocks(
    alloc: Global,
    list: &mut Vec<Deed>,
    core: &Core<'_>,
    step: &RunStep,
    resumed: &[u32],
    awaiting: &[u32],
) -> Result<(), AllocError>
    ensures { OnOk result (list.new.items ≡ list.old.items
        ++ at_clocks core.now.world step.now resumed.now awaiting.now step.now.event) }
{
    match step.event {
        Event::Resumed | Event::Arrived => {
            push_signals_and_advances(alloc, list, core, step, awaiting)
        }
        Event::Dropped | Event::Ended => {
            push_leaves(list, core, step, resumed)?;
            push_signals_and_advances(alloc, list, core, step, awaiting)
        }
        Event::Passed => push_passes(list, step, awaiting),
        _ => Ok(()),
    }
}

/// Takes a step, says what is told of it, and adds its deeds. Err where memory was refused.
#[tactic(auto, using(xk_show_events::proofs::StepLemmas::enabled_there))]
pub fn push_deeds(
    alloc: Global,
    list: &mut Vec<Deed>,
    core: &mut Core<'_>,
    act: Act,
) -> Result<RunStep, AllocError>
    requires { is_enabled core.old.module_run core.old.world act ≡ true }
    ensures stepped { IfOk result (λ s. StepsTo core.old act core.new s.event) }
    ensures step { IfOk result (λ s. s ≡ run_step act core.old.world core.new.world s.event) }
    ensures told { IfOk result (λ s. list.new.items ≡ list.old.items
        ++ tell_deeds core.old.module_run act core.old.world core.new.world s.event) }
    ensures same_module { core.new.module_run ≡ core.old.module_run }
{
    let next = next_instr(core, act);
    let resumed = resumed_by(alloc, core, act, next)?;
    let awaiting = awaiting(alloc, core, act, next)?;
    let step = take_step(core, act)?;
    push_plain(list, core.module().module(), &step)?;
    push_at_clocks(alloc, list, core, &step, &resumed, &awaiting)?;
    Ok(step)
}

/// Tells of each step what it has to do with the order of the run.
struct DeedTeller;

impl Tell<Deed> for DeedTeller {
    ghost tell = { λ teller m. tell_deeds m };

    fn push_step(
        &self,
        alloc: Global,
        out: &mut Vec<Deed>,
        core: &mut Core<'_>,
        act: Act,
    ) -> Result<Event, AllocError> {
        if core.next_local(act) {
            return core.step(act);
        }
        let step = push_deeds(alloc, out, core, act)?;
        Ok(step.event)
    }
}

/// The deeds of a run. The log is played again for it. Err where memory was refused.
pub(crate) fn deeds_of_run(alloc: Global, ended: &Ended<'_>) -> Result<Vec<Deed>, AllocError>
    ensures { IfOk result (λ v. v.items ≡ deeds_of_run
        ended.now.module.now ended.now.core.world.arguments ended.now.log.items) }
{
    let mut list = Vec::new(alloc);
    tell_run(&DeedTeller, alloc, &mut list, &LegalRun::of(ended))?;
    Ok(list)
}

//! The chart of a run: when its clocks advanced, and who was registered on them.

ghost use Rattle.std.specs.Prelude.{◌≡◌, ◌<◌, ◌++◌, length, flat_map, replicate, IfOk, OnOk, string_bytes};
ghost use Rattle.xk_types.specs.Schedule.{Through, run};
ghost use Rattle.xk_core.specs.Core.{IsCore, advanced_now};
ghost use Rattle.xk_replay.specs.Chart.{IsLegalFrom, AreLiving, act_text, acts_text, advance_in, advance_line, advances_in, chart_lines, chart_text, living_in, registered_in};

use crate::chart_lists::ChartLists;
use std::alloc::{AllocError, Global};
use xk_core::Core;
use xk_scheduler::Ended;
use xk_types::{Act, ClockId, Entry};

/// The chart of a run: a line for each advance of a clock, in order of the steps and then of the clocks, as
/// `step 4 clock 0 phase 1 acts 0 1`. It says in which step of the run the clock advanced, counted from 1; its phase from then on; and who
/// is registered on it behind that step, rising. The log is played again for it; only where a clock advanced is anything looked at: the
/// clocks that did, and of each of these the activities that haven't ended.
pub fn chart(alloc: Global, ended: &Ended<'_>) -> Result<String, AllocError>
    ensures { IfOk result (λ text. string_bytes text
        ≡ chart_text ended.now.module.now ended.now.core.world.arguments
        ended.now.log.items) }
{
    let mut core = Core::open(alloc, ended.module, ended.core.arguments())?;
    let mut lists = ChartLists::open(alloc, &core)?;
    let mut text = String::new(alloc);
    for entry in &ended.log {
        put_entry(alloc, &mut text, &mut lists, &mut core, *entry)?;
    }
    Ok(text)
}

/// Carries out the steps of an entry, and puts a line into the chart for each advance on the way.
fn put_entry(
    alloc: Global,
    text: &mut String,
    lists: &mut ChartLists,
    core: &mut Core<'_>,
    entry: Entry,
) -> Result<(), AllocError>
    requires legal { IsLegalFrom core.old (replicate entry.steps entry.act) }
    requires living { AreLiving core.old lists.old.living }
    ensures lines { OnOk result (string_bytes text.new ≡ string_bytes text.old
        ++ chart_lines core.old.module_run (replicate entry.steps entry.act) core.old.world) }
    ensures led { OnOk result (run core.old.module_run (replicate entry.steps entry.act)
        core.old.world ≡ Through core.new.world) }
    ensures same_module { core.new.module_run ≡ core.old.module_run }
    ensures living { OnOk result (AreLiving core.new lists.new.living) }
{
    let act = Act(entry.act);
    for _done in 0..entry.steps {
        let event = core.step(act)?;
        lists.note(core, act, event);
        put_advances(alloc, text, lists, core)?;
    }
    Ok(())
}

/// Puts a line into the chart for each clock that advanced in the last step.
fn put_advances(
    alloc: Global,
    text: &mut String,
    lists: &mut ChartLists,
    core: &Core<'_>,
) -> Result<(), AllocError>
    requires { AreLiving core.now lists.old.living }
    ensures lines { OnOk result (string_bytes text.new ≡ string_bytes text.old
        ++ flat_map advance_line (advances_in core.now.world)) }
    ensures living { lists.new.living ≡ lists.old.living }
{
    if core.is_quiet() {
        return Ok(());
    }
    lists.fill(core)?;
    put_lines(alloc, text, core, &lists.clocks, &lists.acts)
}

/// Puts a line into the chart for each of these clocks, which advanced in the last step.
fn put_lines(
    alloc: Global,
    text: &mut String,
    core: &Core<'_>,
    clocks: &[u32],
    living: &[u32],
) -> Result<(), AllocError>
    requires core { IsCore core.now.module_run core.now.world }
    requires clocks { clocks.now ≡ advanced_now core.now.world }
    requires living { living.now ≡ living_in core.now.world }
    ensures { OnOk result (string_bytes text.new ≡ string_bytes text.old
        ++ flat_map advance_line (advances_in core.now.world)) }
{
    for clock in clocks {
        let line = advance_line(alloc, core, living, ClockId(*clock))?;
        put(text, line)?;
    }
    Ok(())
}

/// The line of a clock that advanced in the last step.
fn advance_line(
    alloc: Global,
    core: &Core<'_>,
    living: &[u32],
    clock: ClockId,
) -> Result<String, AllocError>
    requires core { IsCore core.now.module_run core.now.world }
    requires living { living.now ≡ living_in core.now.world }
    requires clock { clock < length core.now.world.clocks }
    ensures { IfOk result (λ text. string_bytes text
        ≡ advance_line (advance_in core.now.world clock)) }
{
    let step = core.steps_done();
    let number = clock.0;
    let phase = core.phase(clock);
    let acts = acts_text(alloc, core, living, clock)?;
    format!(in alloc; "step {step} clock {number} phase {phase} acts{acts}\n")
}

/// Who is registered on the clock, each after a blank. Nobody who has ended is.
fn acts_text(
    alloc: Global,
    core: &Core<'_>,
    living: &[u32],
    clock: ClockId,
) -> Result<String, AllocError>
    requires core { IsCore core.now.module_run core.now.world }
    requires living { living.now ≡ living_in core.now.world }
    requires clock { clock < length core.now.world.clocks }
    ensures { IfOk result (λ text. string_bytes text
        ≡ acts_text (registered_in core.now.world clock)) }
{
    let mut text = String::new(alloc);
    for act in living {
        if core.registered(Act(*act), clock) {
            let piece = act_text(alloc, *act)?;
            put(&mut text, piece)?;
        }
    }
    Ok(text)
}

/// An activity, after a blank.
fn act_text(alloc: Global, act: u32) -> Result<String, AllocError>
    ensures { IfOk result (λ text. string_bytes text ≡ act_text act) }
{
    format!(in alloc; " {act}")
}

/// Puts a piece behind a text.
fn put(text: &mut String, piece: String) -> Result<(), AllocError>
    ensures { OnOk result
        (string_bytes text.new ≡ string_bytes text.old ++ string_bytes piece) }
{
    text.push_str(piece.as_str())?;
    Ok(())
}

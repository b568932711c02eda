//! What a step did for those who wait at clocks, and whom it waited for there.

ghost use Rattle.std.specs.Prelude.{◌≡◌, ◌-◌, ◌++◌, flat_map, OnOk, if◌then◌else◌};
ghost use Rattle.xk_core.specs.Core.{has_advanced};
ghost use Rattle.xk_show_events.specs.Worlds.{phase_of};
ghost use Rattle.xk_why.specs.Waits.{added, deed_flows, part_flow, signals};

use crate::data::flow;
use crate::flows::{Flow, Location, Round};
use std::alloc::AllocError;
use xk_core::Core;
use xk_races::{Deed, Part};
use xk_show_events::RunStep;
use xk_types::ClockId;

/// The phase of a clock.
fn phase_of(core: &Core<'_>, clock: u32) -> u64
    ensures { result ≡ phase_of core.now.world clock }
{
    if clock >= core.clocks() {
        return 0;
    }
    core.phase(ClockId(clock))
}

/// Whether a clock advanced in the step that led here.
fn has_advanced(core: &Core<'_>, clock: u32) -> bool
    ensures { result ≡ has_advanced core.now.world clock }
{
    if clock >= core.clocks() {
        return false;
    }
    core.last(ClockId(clock)) == core.steps_done()
}

/// The phase in which a clock was before the step that led here.
fn phase_before(core: &Core<'_>, clock: u32) -> u64
    ensures { result ≡ phase_of core.now.world clock
        - (if has_advanced core.now.world clock then 1 else 0) }
{
    let phase = phase_of(core, clock);
    if has_advanced(core, clock) {
        phase.saturating_sub(1)
    } else {
        phase
    }
}

/// The steps by which a clock ceased to await activities in a phase.
fn signals(clock: u32, phase: u64) -> Option<Location>
    ensures { result ≡ signals clock phase }
{
    Some(Location::Signals(Round { clock, phase }))
}

/// A step is one more of these.
pub(crate) fn added(step: &RunStep, to: Option<Location>) -> Flow
    ensures { result ≡ added step.now to }
{
    Flow {
        step: *step,
        to,
        adds: true,
        first: None,
        second: None,
    }
}

/// What a step did for those who wait, or whom it waited for, by what it had to do with the order of the run.
fn deed_flow(core: &Core<'_>, deed: &Deed) -> Option<Flow>
    ensures { result ≡ part_flow core.now.world deed.now.step deed.now.part }
{
    let step = &deed.step;
    match deed.part {
        Part::Signal(clock) => Some(added(step, signals(clock, phase_before(core, clock)))),
        Part::Pass(clock) => {
            let phase = phase_of(core, clock).saturating_sub(1);
            Some(flow(step, None, signals(clock, phase), None))
        }
        _ => None,
    }
}

/// Adds that.
fn push_deed_flow(list: &mut Vec<Flow>, core: &Core<'_>, deed: &Deed) -> Result<(), AllocError>
    ensures { OnOk result (list.new.items ≡ list.old.items
        ++ deed_flows core.now.world deed.now) }
{
    match deed_flow(core, deed) {
        Some(flow) => {
            list.push(flow)?;
            Ok(())
        }
        None => Ok(()),
    }
}

/// The same of each of these.
pub(crate) fn push_waits(
    list: &mut Vec<Flow>,
    core: &Core<'_>,
    deeds: &[Deed],
) -> Result<(), AllocError>
    ensures { OnOk result (list.new.items ≡ list.old.items
        ++ flat_map (deed_flows core.now.world) deeds.now) }
{
    for deed in deeds {
        push_deed_flow(list, core, deed)?;
    }
    Ok(())
}

//! What stands in each row: how activities stand, and the phases of clocks.

ghost use Rattle.std.specs.Prelude.{◌≡◌, ◌++◌, IfOk, OnOk, string_bytes};
ghost use Rattle.xk_show_events.specs.Worlds.{each_below};
ghost use Rattle.xk_show_picture.specs.Picture.{band, bands, line, other_line, parity};

use crate::shapes::{shape, top};
use crate::sheet::{Sheet, band_left, middle};
use std::alloc::{AllocError, Global};
use xk_core::Core;
use xk_show_events::RunStep;
use xk_types::{Act, ClockId};

/// Adds a text.
pub(crate) fn put(out: &mut Vec<u8>, text: &str) -> Result<(), AllocError>
    ensures { OnOk result (out.new.items ≡ out.old.items ++ text.now) }
{
    out.extend_from_slice(text.as_bytes())
}

/// How an activity stands: a plain line, if it can take a step; hatched, if it can't; nothing, if it hasn't started or has ended.
fn line(
    alloc: Global,
    core: &Core<'_>,
    sheet: Sheet,
    row: u32,
    lane: u32,
) -> Result<String, AllocError>
    ensures { IfOk result (λ t. string_bytes t
        ≡ line sheet core.now.module_run core.now.world row lane) }
{
    if !core.is_living(Act(lane)) {
        return Ok(String::new(alloc));
    }
    if core.enabled(Act(lane)) {
        return shape(alloc, "free", middle(sheet, lane), top(row));
    }
    shape(alloc, "held", middle(sheet, lane), top(row))
}

/// Adds how all activities stand.
pub(crate) fn push_lines(
    alloc: Global,
    out: &mut Vec<u8>,
    core: &Core<'_>,
    sheet: Sheet,
    row: u32,
) -> Result<(), AllocError>
    ensures { OnOk result (out.new.items ≡ out.old.items
        ++ each_below (line sheet core.now.module_run core.now.world row) sheet.lanes) }
{
    for lane in 0..sheet.lanes {
        let text = line(alloc, core, sheet, row, lane)?;
        put(out, text.as_str())?;
    }
    Ok(())
}

/// How an activity stands, if it isn't who took the step.
fn other_line(
    alloc: Global,
    core: &Core<'_>,
    sheet: Sheet,
    step: &RunStep,
    row: u32,
    lane: u32,
) -> Result<String, AllocError>
    ensures { IfOk result (λ t. string_bytes t
        ≡ other_line sheet core.now.module_run core.now.world step.now row lane) }
{
    if lane == step.act {
        return Ok(String::new(alloc));
    }
    line(alloc, core, sheet, row, lane)
}

/// Adds how all activities stand but who took the step.
pub(crate) fn push_other_lines(
    alloc: Global,
    out: &mut Vec<u8>,
    core: &Core<'_>,
    sheet: Sheet,
    step: &RunStep,
    row: u32,
) -> Result<(), AllocError>
    ensures { OnOk result (out.new.items ≡ out.old.items ++ each_below
        (other_line sheet core.now.module_run core.now.world step.now row) sheet.lanes) }
{
    for lane in 0..sheet.lanes {
        let text = other_line(alloc, core, sheet, step, row, lane)?;
        put(out, text.as_str())?;
    }
    Ok(())
}

/// Two looks in turn, from phase to phase.
fn parity(phase: u64) -> &'static str
    ensures { result.now ≡ parity phase }
{
    if phase % 2 == 0 { "even" } else { "odd" }
}

/// The phase of a clock, if it was made.
fn band(
    alloc: Global,
    core: &Core<'_>,
    sheet: Sheet,
    row: u32,
    clock: u32,
) -> Result<String, AllocError>
    ensures { IfOk result (λ t. string_bytes t ≡ band sheet core.now.world row clock) }
{
    if clock >= core.clocks() {
        return Ok(String::new(alloc));
    }
    let phase = core.phase(ClockId(clock));
    shape(alloc, parity(phase), band_left(sheet, clock), top(row))
}

/// Adds the phases of the first clocks.
pub(crate) fn push_bands(
    alloc: Global,
    out: &mut Vec<u8>,
    core: &Core<'_>,
    sheet: Sheet,
    row: u32,
) -> Result<(), AllocError>
    ensures { OnOk result (out.new.items ≡ out.old.items
        ++ bands sheet core.now.world row) }
{
    for clock in 0..sheet.bands {
        let text = band(alloc, core, sheet, row, clock)?;
        put(out, text.as_str())?;
    }
    Ok(())
}

//! Bars, where a clock advanced.

ghost use Rattle.std.specs.Prelude.{◌≡◌, ◌<◌, ◌++◌, length, flat_map, IfOk, OnOk, string_bytes};
ghost use Rattle.xk_core.specs.Core.{advanced_now};
ghost use Rattle.xk_show_events.specs.Worlds.{each_below};
ghost use Rattle.xk_show_lanes.specs.Lanes.{any_behind, any_below, bar, bar_cell, bar_label, bar_lane, is_on};

use crate::fields::{push_text, push_times};
use crate::grid::Grid;
use std::alloc::{AllocError, Global};
use xk_core::Core;
use xk_show_events::advanced;
use xk_types::{Act, ClockId};

/// Whether an activity has started, and is registered on the clock.
pub fn is_on(core: &Core<'_>, clock: ClockId, act: u32) -> bool
    requires { clock < length core.now.world.clocks }
    ensures { result ≡ is_on core.now.world clock act }
{
    act < core.activities() && core.registered(Act(act), clock)
}

/// Whether one of the first n activities is.
pub fn any_below(core: &Core<'_>, clock: ClockId, n: u32) -> bool
    requires { clock < length core.now.world.clocks }
    ensures { result ≡ any_below (is_on core.now.world clock) n }
{
    let mut any = false;
    for k in 0..n {
        let on = is_on(core, clock, k);
        any = any || on;
    }
    any
}

/// Whether one behind activity b is, out of n.
pub fn any_behind(core: &Core<'_>, clock: ClockId, b: u32, n: u32) -> bool
    requires { clock < length core.now.world.clocks }
    ensures { result ≡ any_behind (is_on core.now.world clock) b n }
{
    let mut any = false;
    for k in 0..n {
        let on = b < k && is_on(core, clock, k);
        any = any || on;
    }
    any
}

/// Adds what a bar shows in a lane: whether that is on it, and some lane before it and behind it.
fn push_bar_cell(
    line: &mut Vec<u8>,
    width: usize,
    here: bool,
    before: bool,
    behind: bool,
) -> Result<(), AllocError>
    ensures { OnOk result (line.new.items
        ≡ line.old.items ++ bar_cell width here before behind) }
{
    let sign = match here {
        true => b'+',
        false => if before && behind { b'=' } else { b' ' },
    };
    let rest = if (here || before) && behind {
        b'='
    } else {
        b' '
    };
    line.push(sign)?;
    push_times(line, rest, width.saturating_sub(1))
}

/// Adds what the bar of a clock shows in a lane.
#[tactic(auto, unfolding(crate::specs::Lanes::bar_lane))]
fn push_bar_lane(
    line: &mut Vec<u8>,
    core: &Core<'_>,
    grid: Grid,
    clock: ClockId,
    lane: u32,
) -> Result<(), AllocError>
    requires { clock < length core.now.world.clocks }
    ensures { OnOk result (line.new.items
        ≡ line.old.items ++ bar_lane grid core.now.world clock lane) }
{
    let here = is_on(core, clock, lane);
    let before = any_below(core, clock, lane);
    let behind = any_behind(core, clock, lane, grid.lanes);
    push_bar_cell(line, grid.lane, here, before, behind)
}

/// Adds what the bar of a clock shows in all lanes. Err where memory was refused.
pub fn push_bar_lanes(
    line: &mut Vec<u8>,
    core: &Core<'_>,
    grid: Grid,
    clock: ClockId,
) -> Result<(), AllocError>
    requires { clock < length core.now.world.clocks }
    ensures { OnOk result (line.new.items
        ≡ line.old.items ++ each_below (bar_lane grid core.now.world clock) grid.lanes) }
{
    for lane in 0..grid.lanes {
        push_bar_lane(line, core, grid, clock, lane)?;
    }
    Ok(())
}

/// What stands behind a bar: `clock 0 phase 1 by 1`.
#[tactic(auto, unfolding(crate::specs::Lanes::bar_label))]
pub fn bar_label(
    alloc: Global,
    core: &Core<'_>,
    act: u32,
    clock: ClockId,
) -> Result<String, AllocError>
    requires { clock < length core.now.world.clocks }
    ensures { IfOk result (λ text. string_bytes text
        ≡ bar_label core.now.world act clock) }
{
    let number = clock.0;
    let phase = core.phase(clock);
    format!(in alloc; "clock {number} phase {phase} by {act}")
}

/// Adds the bar of a clock that advanced in the last step, which this activity took.
#[tactic(auto, unfolding(crate::specs::Lanes::bar))]
fn push_bar(
    alloc: Global,
    out: &mut Vec<u8>,
    core: &Core<'_>,
    grid: Grid,
    act: u32,
    clock: ClockId,
) -> Result<(), AllocError>
    requires { clock < length core.now.world.clocks }
    ensures { OnOk result (out.new.items
        ≡ out.old.items ++ bar grid core.now.world act clock) }
{
    let label = bar_label(alloc, core, act, clock)?;
    push_times(out, b' ', 8)?;
    push_times(out, b' ', grid.place)?;
    push_bar_lanes(out, core, grid, clock)?;
    push_text(out, label.as_str())?;
    push_text(out, "\n")
}

/// Adds the bars of these clocks.
fn push_bars_of(
    alloc: Global,
    out: &mut Vec<u8>,
    core: &Core<'_>,
    grid: Grid,
    act: u32,
    clocks: &[u32],
) -> Result<(), AllocError>
    requires { clocks.now ≡ advanced_now core.now.world }
    ensures { OnOk result (out.new.items
        ≡ out.old.items ++ flat_map (bar grid core.now.world act) clocks.now) }
{
    for clock in clocks {
        push_bar(alloc, out, core, grid, act, ClockId(*clock))?;
    }
    Ok(())
}

/// Adds a bar for each clock that advanced in the last step, which this activity took.
pub(crate) fn push_bars(
    alloc: Global,
    out: &mut Vec<u8>,
    core: &Core<'_>,
    grid: Grid,
    act: u32,
) -> Result<(), AllocError>
    ensures { OnOk result (out.new.items ≡ out.old.items
        ++ flat_map (bar grid core.now.world act) (advanced_now core.now.world)) }
{
    let clocks = advanced(alloc, core)?;
    push_bars_of(alloc, out, core, grid, act, &clocks)
}

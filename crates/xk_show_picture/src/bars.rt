//! The rows of bars, where a clock advanced.

ghost use Rattle.std.specs.Prelude.{◌≡◌, ◌<◌, ◌++◌, length, flat_map, IfOk, OnOk, string_bytes};
ghost use Rattle.xk_core.specs.Core.{advanced_now};
ghost use Rattle.xk_show_events.specs.Worlds.{each_below};
ghost use Rattle.xk_show_picture.specs.Picture.{bar_piece, clock_bar, drawn_bar, label_of, lane_strokes, ring_if, stroke_if};

use crate::layout::bar_row;
use crate::lines::{push_bands, push_lines, put};
use crate::picture::PictureTeller;
use crate::shapes::{label, shape, stroke, top};
use crate::sheet::{Sheet, labels, lane_left, middle};
use crate::words::label_of;
use std::alloc::{AllocError, Global};
use xk_core::Core;
use xk_show_events::advanced;
use xk_show_lanes::{any_behind, any_below, is_on};
use xk_types::ClockId;

/// A stroke, if there is one.
fn stroke_if(alloc: Global, there: bool, x: u64, y: u64, long: u16) -> Result<String, AllocError>
    ensures { IfOk result (λ t. string_bytes t ≡ stroke_if there x y long) }
{
    if there {
        return stroke(alloc, x, y, long);
    }
    Ok(String::new(alloc))
}

/// A ring, if there is one.
fn ring_if(alloc: Global, there: bool, x: u64, y: u64) -> Result<String, AllocError>
    ensures { IfOk result (λ t. string_bytes t ≡ ring_if there x y) }
{
    if there {
        return shape(alloc, "ring", x, y);
    }
    Ok(String::new(alloc))
}

/// Which lanes are on a bar: whether one is, and some before it and behind it.
#[derive(Clone, Copy)]
struct OnBar {
    here: bool,
    before: bool,
    behind: bool,
}

/// What a bar shows in a lane.
fn bar_piece(
    alloc: Global,
    sheet: Sheet,
    row: u32,
    lane: u32,
    on: OnBar,
) -> Result<String, AllocError>
    ensures { IfOk result (λ t. string_bytes t
        ≡ bar_piece sheet row lane on.here on.before on.behind) }
{
    let y = top(row) + 12;
    let x = middle(sheet, lane);
    let to_left = on.before && (on.here || on.behind);
    let to_right = on.behind && (on.here || on.before);
    let left = stroke_if(alloc, to_left, lane_left(sheet, lane), y, sheet.half)?;
    let right = stroke_if(alloc, to_right, x, y, sheet.half)?;
    let ring = ring_if(alloc, on.here, x, y)?;
    format!(in alloc; "{left}{right}{ring}")
}

/// What the bar of a clock shows in a lane.
fn lane_strokes(
    alloc: Global,
    core: &Core<'_>,
    sheet: Sheet,
    clock: ClockId,
    row: u32,
    lane: u32,
) -> Result<String, AllocError>
    requires { clock < length core.now.world.clocks }
    ensures { IfOk result (λ t. string_bytes t
        ≡ lane_strokes sheet core.now.world clock row lane) }
{
    let on = OnBar {
        here: is_on(core, clock, lane),
        before: any_below(core, clock, lane),
        behind: any_behind(core, clock, lane, sheet.lanes),
    };
    bar_piece(alloc, sheet, row, lane, on)
}

/// Adds what the bar of a clock shows in all lanes.
fn push_bar_lanes(
    alloc: Global,
    out: &mut Vec<u8>,
    core: &Core<'_>,
    sheet: Sheet,
    clock: ClockId,
    row: u32,
) -> Result<(), AllocError>
    requires { clock < length core.now.world.clocks }
    ensures { OnOk result (out.new.items ≡ out.old.items
        ++ each_below (lane_strokes sheet core.now.world clock row) sheet.lanes) }
{
    for lane in 0..sheet.lanes {
        let text = lane_strokes(alloc, core, sheet, clock, row, lane)?;
        put(out, text.as_str())?;
    }
    Ok(())
}

/// The bar of a clock that advanced in the last step: which clock, and the row of the bar.
#[derive(Clone, Copy)]
struct Bar {
    clock: ClockId,
    row: u32,
}

/// Adds the row of a bar, of which these words are said.
#[tactic(auto, unfolding(crate::specs::Picture::drawn_bar))]
fn push_bar_at(
    alloc: Global,
    out: &mut Vec<u8>,
    core: &Core<'_>,
    sheet: Sheet,
    words: &str,
    bar: Bar,
) -> Result<(), AllocError>
    requires { bar.clock < length core.now.world.clocks }
    ensures { OnOk result (out.new.items ≡ out.old.items
        ++ drawn_bar sheet core.now.module_run core.now.world words.now bar.clock bar.row) }
{
    let row = bar.row;
    let text = label(alloc, labels(sheet), top(row) + 16, words)?;
    push_lines(alloc, out, core, sheet, row)?;
    push_bands(alloc, out, core, sheet, row)?;
    push_bar_lanes(alloc, out, core, sheet, bar.clock, row)?;
    put(out, text.as_str())
}

/// Adds the rows of the bars of these clocks.
fn push_bars_of(
    alloc: Global,
    out: &mut Vec<u8>,
    core: &Core<'_>,
    teller: &PictureTeller<'_, '_>,
    act: u32,
    clocks: &[u32],
) -> Result<(), AllocError>
    requires { clocks.now ≡ advanced_now core.now.world }
    ensures { OnOk result (out.new.items ≡ out.old.items ++ flat_map (clock_bar
        teller.now.plan.now.sheet teller.now.plan.now.rows.items teller.now.names.now
        core.now.module_run core.now.world act) clocks.now) }
{
    for clock in clocks {
        let bar = Bar {
            clock: ClockId(*clock),
            row: bar_row(&teller.plan.rows, core, clocks, *clock),
        };
        let words = label_of(alloc, core, teller.names, act, bar.clock)?;
        push_bar_at(alloc, out, core, teller.plan.sheet, words.as_str(), bar)?;
    }
    Ok(())
}

/// Adds a row for the bar of each clock that advanced in the last step, which this activity took.
pub(crate) fn push_bars(
    alloc: Global,
    out: &mut Vec<u8>,
    core: &Core<'_>,
    teller: &PictureTeller<'_, '_>,
    act: u32,
) -> Result<(), AllocError>
    ensures { OnOk result (out.new.items ≡ out.old.items ++ flat_map (clock_bar
        teller.now.plan.now.sheet teller.now.plan.now.rows.items teller.now.names.now
        core.now.module_run core.now.world act) (advanced_now core.now.world)) }
{
    let clocks = advanced(alloc, core)?;
    push_bars_of(alloc, out, core, teller, act, &clocks)
}

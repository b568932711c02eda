//! The rows of steps.

ghost use Rattle.std.specs.Prelude.{◌≡◌, ◌+◌, ◌++◌, IfOk, OnOk, string_bytes};
ghost use Rattle.xk_show_lanes.specs.Lanes.{spot};
ghost use Rattle.xk_show_picture.specs.Shapes.{front, top};
ghost use Rattle.xk_show_picture.specs.Picture.{boxed, drawn_row, kind, start_by, step_row, words_of};

use crate::layout::row_of;
use crate::lines::{push_bands, push_other_lines, put};
use crate::picture::PictureTeller;
use crate::shapes::{arrow, box_frame, box_head, box_words, front, top};
use crate::sheet::{Sheet, lane_left, middle};
use crate::words::words_of;
use std::alloc::{AllocError, Global};
use xk_core::Core;
use xk_show_events::{Places, RunStep, is_seen};
use xk_show_lanes::spot;
use xk_show_names::Account;
use xk_types::Event;

/// What kind of step one is, by which boxes are coloured.
fn kind(event: Event) -> &'static str
    ensures { result.now ≡ kind event }
{
    match event {
        Event::Local => "life",
        Event::Printed(_) => "print",
        Event::Made => "clock",
        Event::Got => "shared",
        Event::Put => "shared",
        Event::Added => "shared",
        Event::Opened => "life",
        Event::Closed => "life",
        Event::Spawned => "life",
        Event::Resumed => "clock",
        Event::Dropped => "clock",
        Event::Arrived => "clock",
        Event::Passed => "clock",
        Event::Ended => "life",
    }
}

/// The box of a step, in the lane of who took it.
#[tactic(auto, unfolding(crate::specs::Picture::boxed))]
fn box_of(
    alloc: Global,
    sheet: Sheet,
    row: u32,
    step: &RunStep,
    spot: &str,
    words: &str,
) -> Result<String, AllocError>
    ensures { IfOk result (λ t. string_bytes t ≡ boxed sheet row step.now spot.now words.now) }
{
    let left = lane_left(sheet, step.act) + 4;
    let wide = (2 * u32::from(sheet.half)).saturating_sub(8);
    let head = box_head(alloc, kind(step.event), step.number, step.act, spot, words)?;
    let frame = box_frame(alloc, left, top(row) + 2, wide)?;
    let inner = box_words(alloc, middle(sheet, step.act), top(row) + 16, words)?;
    format!(in alloc; "{head}{frame}{inner}")
}

/// An arrow to the lane of who was started.
fn start_by(
    alloc: Global,
    sheet: Sheet,
    row: u32,
    step: &RunStep,
    event: Event,
) -> Result<String, AllocError>
    ensures { IfOk result (λ t. string_bytes t ≡ start_by sheet row step.now event) }
{
    match event {
        Event::Spawned => {
            let from = middle(sheet, step.act) + u64::from(sheet.half.saturating_sub(4));
            arrow(alloc, from, top(row) + 12, middle(sheet, step.activities))
        }
        _ => Ok(String::new(alloc)),
    }
}

/// Adds what stands in a step's row but how others stand and the phases: its number, its place, its box, and its arrow.
fn push_step_itself(
    alloc: Global,
    out: &mut Vec<u8>,
    sheet: Sheet,
    spot: &str,
    words: &str,
    step: &RunStep,
    row: u32,
) -> Result<(), AllocError>
    ensures { OnOk result (out.new.items ≡ ((out.old.items
        ++ front (top row + 16) step.now.number spot.now)
        ++ boxed sheet row step.now spot.now words.now)
        ++ start_by sheet row step.now step.now.event) }
{
    let front = front(alloc, top(row) + 16, step.number, spot)?;
    let frame = box_of(alloc, sheet, row, step, spot, words)?;
    let start = start_by(alloc, sheet, row, step, step.event)?;
    put(out, front.as_str())?;
    put(out, frame.as_str())?;
    put(out, start.as_str())
}

/// Adds the row of a step that led to the core.
#[tactic(auto, unfolding(crate::specs::Picture::drawn_row))]
fn push_row_at(
    alloc: Global,
    out: &mut Vec<u8>,
    core: &Core<'_>,
    teller: &PictureTeller<'_, '_>,
    account: &Account,
    row: u32,
) -> Result<(), AllocError>
    ensures { OnOk result (out.new.items ≡ out.old.items
        ++ drawn_row teller.now.plan.now.sheet teller.now.places.now
        (words_of teller.now.names.now account.now)
        core.now.module_run core.now.world account.now.step row) }
{
    let sheet = teller.plan.sheet;
    let spot = spot(alloc, teller.places, &account.step)?;
    let words = words_of(alloc, teller.names, account)?;
    push_other_lines(alloc, out, core, sheet, &account.step, row)?;
    push_bands(alloc, out, core, sheet, row)?;
    push_step_itself(
        alloc,
        out,
        sheet,
        spot.as_str(),
        words.as_str(),
        &account.step,
        row,
    )
}

/// Adds the row of a step that led to the core, if others can see it.
pub(crate) fn push_row(
    alloc: Global,
    out: &mut Vec<u8>,
    core: &Core<'_>,
    teller: &PictureTeller<'_, '_>,
    account: &Account,
) -> Result<(), AllocError>
    ensures { OnOk result (out.new.items ≡ out.old.items
        ++ step_row teller.now.plan.now.sheet teller.now.plan.now.rows.items
        teller.now.places.now teller.now.names.now
        core.now.module_run core.now.world account.now) }
{
    if !is_seen(account.step.event) {
        return Ok(());
    }
    let row = row_of(&teller.plan.rows, account.step.number);
    push_row_at(alloc, out, core, teller, account, row)
}

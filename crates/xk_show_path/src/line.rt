//! The path as one line, from box to box.

ghost use Rattle.std.specs.Prelude.{◌≡◌, ◌+◌, ◌<◌, ◌^◌, ◌++◌, flat_map, IfOk, OnOk, string_bytes};
ghost use Rattle.xk_show_path.specs.PathPicture.{boxes_of, edge, has_box, if_box, line_along, line_of, piece_at, piece_to};

use crate::shapes::{first_piece, next_piece};
use std::alloc::{AllocError, Global};
use xk_show_events::{RunStep, is_seen};
use xk_show_lanes::{Window, push_text};
use xk_show_picture::{Sheet, lane_left, row_of, top};

/// Whether a step has a box.
fn has_box(window: Window, step: &RunStep) -> bool
    ensures { result ≡ has_box window step.now }
{
    window.asks(step.number) && is_seen(step.event)
}

/// Adds the step, if it has a box.
fn push_if_box(list: &mut Vec<RunStep>, window: Window, step: &RunStep) -> Result<(), AllocError>
    ensures { OnOk result (list.new.items ≡ list.old.items ++ if_box window step.now) }
{
    if has_box(window, step) {
        list.push(*step)?;
    }
    Ok(())
}

/// The steps of a path that have a box: those that are asked for, and that others can see. Err where memory was refused.
pub fn boxes_of(alloc: Global, window: Window, path: &[RunStep]) -> Result<Vec<RunStep>, AllocError>
    ensures { IfOk result (λ v. v.items ≡ boxes_of window path.now) }
{
    let mut list = Vec::new(alloc);
    for step in path {
        push_if_box(&mut list, window, step)?;
    }
    Ok(list)
}

/// Where the line goes along a box.
fn edge(sheet: Sheet, step: &RunStep) -> u64
    ensures { result ≡ edge sheet step.now }
{
    lane_left(sheet, step.act) + 4
}

/// The beginning of the line, at a box.
fn piece_at(alloc: Global, sheet: Sheet, rows: &[u64], step: &RunStep) -> Result<String, AllocError>
    ensures { IfOk result (λ t. string_bytes t ≡ piece_at sheet rows.now step.now) }
{
    first_piece(alloc, edge(sheet, step), top(row_of(rows, step.number)))
}

/// The line on to a box.
fn piece_to(alloc: Global, sheet: Sheet, rows: &[u64], step: &RunStep) -> Result<String, AllocError>
    ensures { IfOk result (λ t. string_bytes t ≡ piece_to sheet rows.now step.now) }
{
    next_piece(alloc, edge(sheet, step), top(row_of(rows, step.number)))
}

/// Adds the line on along these boxes.
fn push_pieces(
    alloc: Global,
    out: &mut Vec<u8>,
    sheet: Sheet,
    rows: &[u64],
    more: &[RunStep],
) -> Result<(), AllocError>
    ensures { OnOk result (out.new.items
        ≡ out.old.items ++ flat_map (piece_to sheet rows.now) more.now) }
{
    for step in more {
        let piece = piece_to(alloc, sheet, rows, step)?;
        push_text(out, piece.as_str())?;
    }
    Ok(())
}

/// Adds the line along a box and these behind it.
fn push_line_along(
    alloc: Global,
    out: &mut Vec<u8>,
    sheet: Sheet,
    rows: &[u64],
    step: &RunStep,
    more: &[RunStep],
) -> Result<(), AllocError>
    ensures { OnOk result (out.new.items
        ≡ out.old.items ++ line_along sheet rows.now step.now more.now) }
{
    let first = piece_at(alloc, sheet, rows, step)?;
    push_text(out, first.as_str())?;
    push_pieces(alloc, out, sheet, rows, more)?;
    push_text(out, "'/>\n")
}

/// Adds one line along all of these boxes, if there are any. Err where memory was refused.
pub(crate) fn push_line_of(
    alloc: Global,
    out: &mut Vec<u8>,
    sheet: Sheet,
    rows: &[u64],
    boxes: &[RunStep],
) -> Result<(), AllocError>
    ensures { OnOk result (out.new.items ≡ out.old.items ++ line_of sheet rows.now boxes.now) }
{
    match boxes {
        [] => Ok(()),
        [step, more @ ..] => push_line_along(alloc, out, sheet, rows, step, more),
    }
}

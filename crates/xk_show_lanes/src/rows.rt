//! The rows of steps, and the head above them.

ghost use Rattle.std.specs.Prelude.{◌≡◌, ◌++◌, decimal, IfOk, OnOk, string_bytes};
ghost use Rattle.xk_show_events.specs.Worlds.{each_below};
ghost use Rattle.xk_show_lanes.specs.Fields.{at_left, at_right};
ghost use Rattle.xk_show_lanes.specs.Lanes.{head_line, lane_line, line_front, mark, row, row_if_seen, spot, title};
ghost use Rattle.xk_show_lanes.specs.NamedLanes.{behind_lanes, cell_of};

use crate::fields::{push_at_left, push_at_right, push_line, push_text};
use crate::grid::{Grid, spot};
use std::alloc::{AllocError, Global};
use xk_core::Core;
use xk_show_events::{Places, RunStep, event_words, is_seen};
use xk_types::Act;

/// A line's first two fields.
#[tactic(auto, unfolding(crate::specs::Lanes::line_front))]
fn line_front(alloc: Global, grid: Grid, number: &[u8], place: &[u8]) -> Result<Vec<u8>, AllocError>
    ensures { IfOk result (λ v. v.items ≡ line_front grid number.now place.now) }
{
    let mut line = Vec::new(alloc);
    push_at_right(&mut line, 6, number)?;
    push_text(&mut line, "  ")?;
    push_at_left(&mut line, grid.place, place)?;
    Ok(line)
}

/// `main`, `act 1`.
pub fn title(alloc: Global, lane: u32) -> Result<String, AllocError>
    ensures { IfOk result (λ text. string_bytes text ≡ title lane) }
{
    if lane == 0 {
        return format!(in alloc; "main");
    }
    format!(in alloc; "act {lane}")
}

/// Adds a lane's title.
fn push_title(alloc: Global, line: &mut Vec<u8>, grid: Grid, lane: u32) -> Result<(), AllocError>
    ensures { OnOk result (line.new.items ≡ line.old.items ++ at_left grid.lane (title lane)) }
{
    let title = title(alloc, lane)?;
    push_at_left(line, grid.lane, title.as_bytes())
}

/// Adds the titles of all lanes.
fn push_titles(alloc: Global, line: &mut Vec<u8>, grid: Grid) -> Result<(), AllocError>
    ensures { OnOk result (line.new.items ≡ line.old.items
        ++ each_below (λ b. at_left grid.lane (title b)) grid.lanes) }
{
    for lane in 0..grid.lanes {
        push_title(alloc, line, grid, lane)?;
    }
    Ok(())
}

/// Adds the head: `  step  at     main        act 1`. Err where memory was refused.
#[tactic(auto, unfolding(crate::specs::Lanes::lane_line))]
pub fn push_head(alloc: Global, out: &mut Vec<u8>, grid: Grid) -> Result<(), AllocError>
    ensures { OnOk result (out.new.items ≡ out.old.items ++ head_line grid) }
{
    let mut line = line_front(alloc, grid, b"step", b"at")?;
    push_titles(alloc, &mut line, grid)?;
    push_line(out, &line)
}

/// What an activity shows where another took a step: nothing, if it hasn't started or has ended; `|`, if it can take a
/// step; `:`, if it can't.
fn mark(core: &Core<'_>, act: Act) -> &'static str
    ensures { result.now ≡ mark core.now.module_run core.now.world act }
{
    if !core.is_living(act) {
        return "";
    }
    if core.enabled(act) { "|" } else { ":" }
}

/// Adds what stands in a lane behind a step, whose words are these.
fn push_cell(
    line: &mut Vec<u8>,
    core: &Core<'_>,
    grid: Grid,
    step: &RunStep,
    words: &[u8],
    lane: u32,
) -> Result<(), AllocError>
    ensures { OnOk result (line.new.items ≡ line.old.items ++ at_left grid.lane
        (cell_of words.now core.now.module_run core.now.world step.now lane)) }
{
    if lane == step.act {
        return push_at_left(line, grid.lane, words);
    }
    push_at_left(line, grid.lane, mark(core, Act(lane)).as_bytes())
}

/// Adds what stands in all lanes behind a step, whose words are these. Err where memory was refused.
pub fn push_cells(
    line: &mut Vec<u8>,
    core: &Core<'_>,
    grid: Grid,
    step: &RunStep,
    words: &[u8],
) -> Result<(), AllocError>
    ensures { OnOk result (line.new.items ≡ line.old.items ++ each_below (λ b. at_left grid.lane
        (cell_of words.now core.now.module_run core.now.world step.now b)) grid.lanes) }
{
    for lane in 0..grid.lanes {
        push_cell(line, core, grid, step, words, lane)?;
    }
    Ok(())
}

/// The first two fields of a step's row. Err where memory was refused.
pub fn row_front(
    alloc: Global,
    grid: Grid,
    places: &Places<'_>,
    step: &RunStep,
) -> Result<Vec<u8>, AllocError>
    ensures { IfOk result (λ v. v.items
        ≡ line_front grid (decimal step.now.number) (spot places.now step.now)) }
{
    let number = step.number;
    let number = format!(in alloc; "{number}")?;
    let place = spot(alloc, places, step)?;
    line_front(alloc, grid, number.as_bytes(), place.as_bytes())
}

/// Adds who took the step and what was done, words that are given, if that one has no lane. Err where memory was refused.
pub fn push_words_behind(
    alloc: Global,
    line: &mut Vec<u8>,
    grid: Grid,
    step: &RunStep,
    words: &[u8],
) -> Result<(), AllocError>
    ensures { OnOk result (line.new.items
        ≡ line.old.items ++ behind_lanes grid words.now step.now) }
{
    if step.act < grid.lanes {
        return Ok(());
    }
    push_text(line, title(alloc, step.act)?.as_str())?;
    push_text(line, " ")?;
    line.extend_from_slice(words)
}

/// Adds the row of a step that led to the core.
#[tactic(auto, unfolding(crate::specs::Lanes::row, crate::specs::Lanes::lane_line))]
fn push_row(
    alloc: Global,
    out: &mut Vec<u8>,
    core: &Core<'_>,
    grid: Grid,
    places: &Places<'_>,
    step: &RunStep,
) -> Result<(), AllocError>
    ensures { OnOk result (out.new.items ≡ out.old.items
        ++ row grid places.now core.now.module_run core.now.world step.now) }
{
    let words = event_words(alloc, step)?;
    let mut line = row_front(alloc, grid, places, step)?;
    push_cells(&mut line, core, grid, step, words.as_bytes())?;
    push_words_behind(alloc, &mut line, grid, step, words.as_bytes())?;
    push_line(out, &line)
}

/// Adds the row of a step, if other activities can see it.
pub(crate) fn push_row_if_seen(
    alloc: Global,
    out: &mut Vec<u8>,
    core: &Core<'_>,
    grid: Grid,
    places: &Places<'_>,
    step: &RunStep,
) -> Result<(), AllocError>
    ensures { OnOk result (out.new.items ≡ out.old.items
        ++ row_if_seen grid places.now core.now.module_run core.now.world step.now) }
{
    if is_seen(step.event) {
        return push_row(alloc, out, core, grid, places, step);
    }
    Ok(())
}

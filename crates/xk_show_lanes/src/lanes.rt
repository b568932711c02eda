//! The whole text: head, rows and bars.

ghost use Rattle.std.specs.Prelude.{◌≡◌, ◌++◌, IfOk, OnOk};
ghost use Rattle.xk_show_events.specs.Events.{no_text, places_of};
ghost use Rattle.xk_show_lanes.specs.Lanes.{are_lanes_whole, grid_for, if_asked, lanes_in, lanes_of_step, lanes_text, left_out_by, row_and_bars, steps_asked};

use crate::bars::push_bars;
use crate::fields::push_text;
use crate::grid::{DRAWN, Grid, grid_of};
use crate::rows::{push_head, push_row_if_seen};
use crate::window::Window;
use std::alloc::{AllocError, Global};
use xk_core::Core;
use xk_show_events::{Describe, LegalRun, Places, RunStep, describe_run, is_seen};
use xk_unit_origins::UnitOrigins;

/// What is drawn, and whether it is whole: no lane is left out. (A step that wasn't asked for isn't left out.)
#[derive(Debug, Drop)]
pub struct Drawing {
    pub text: Vec<u8>,
    pub whole: bool,
}

/// Adds the row and bars of a step that led to the core.
fn push_row_and_bars(
    alloc: Global,
    out: &mut Vec<u8>,
    core: &Core<'_>,
    grid: Grid,
    places: &Places<'_>,
    step: &RunStep,
) -> Result<(), AllocError>
    ensures { OnOk result (out.new.items ≡ out.old.items
        ++ row_and_bars grid places.now core.now.module_run core.now.world step.now) }
{
    push_row_if_seen(alloc, out, core, grid, places, step)?;
    push_bars(alloc, out, core, grid, step.act)
}

/// Tells of the steps that are asked for, by their rows and bars.
#[derive(Drop)]
struct LaneTeller<'a, 't> {
    grid: Grid,
    places: &'a Places<'t>,
}

impl Describe<u8> for LaneTeller<'_, '_> {
    ghost describe = { λ teller m v s. lanes_of_step teller.grid teller.places.now m v s };

    fn push(
        &self,
        alloc: Global,
        out: &mut Vec<u8>,
        core: &Core<'_>,
        step: &RunStep,
    ) -> Result<(), AllocError> {
        if self.grid.window.asks(step.number) {
            push_row_and_bars(alloc, out, core, self.grid, self.places, step)?;
        }
        Ok(())
    }

    #[tactic(auto, using(crate::proofs::LaneLemmas::none_asked))]
    fn is_silent_after(&self, steps: u64) -> bool {
        self.grid.window.last <= steps
    }
}

/// Adds how many activities have no lane, if some have none. Err where memory was refused.
pub fn push_left_out(alloc: Global, out: &mut Vec<u8>, count: u32) -> Result<(), AllocError>
    ensures { OnOk result (out.new.items ≡ out.old.items ++ left_out_by count) }
{
    if count == 0 {
        return Ok(());
    }
    push_text(
        out,
        format!(in alloc; "lanes left out: {count}\n")?.as_str(),
    )
}

/// The lanes of a run, in these columns.
fn lanes_in(
    alloc: Global,
    grid: Grid,
    places: &Places<'_>,
    legal: &LegalRun<'_, '_>,
) -> Result<Vec<u8>, AllocError>
    ensures { IfOk result (λ v. v.items ≡ lanes_in grid places.now legal.now.module.now
        legal.now.log.now legal.now.core.now.world) }
{
    let mut out = Vec::new(alloc);
    push_head(alloc, &mut out, grid)?;
    describe_run(&LaneTeller { grid, places }, alloc, &mut out, legal)?;
    push_left_out(
        alloc,
        &mut out,
        legal.core.activities().saturating_sub(DRAWN),
    )?;
    Ok(out)
}

/// Tells of the steps that are asked for, and that others can see.
#[derive(Drop)]
pub struct AskedSteps {
    pub window: Window,
}

impl Describe<RunStep> for AskedSteps {
    ghost describe = { λ asked m v s. if_asked asked.window s };

    fn push(
        &self,
        _alloc: Global,
        out: &mut Vec<RunStep>,
        _core: &Core<'_>,
        step: &RunStep,
    ) -> Result<(), AllocError> {
        if self.window.asks(step.number) && is_seen(step.event) {
            out.push(*step)?;
        }
        Ok(())
    }

    #[tactic(auto, using(crate::proofs::LaneLemmas::none_asked))]
    fn is_silent_after(&self, steps: u64) -> bool {
        self.window.last <= steps
    }
}

/// The steps of a run that are asked for, and that others can see. The log is played again for it.
fn steps_asked(
    alloc: Global,
    legal: &LegalRun<'_, '_>,
    window: Window,
) -> Result<Vec<RunStep>, AllocError>
    ensures { IfOk result (λ v. v.items ≡ steps_asked window legal.now.module.now
        legal.now.log.now legal.now.core.now.world) }
{
    let mut steps = Vec::new(alloc);
    describe_run(&AskedSteps { window }, alloc, &mut steps, legal)?;
    Ok(steps)
}

/// The columns for these steps of a run. Err where memory was refused.
pub fn grid_for(
    alloc: Global,
    places: &Places<'_>,
    legal: &LegalRun<'_, '_>,
    window: Window,
) -> Result<Grid, AllocError>
    ensures { IfOk result (λ g. g ≡ grid_for places.now window legal.now.module.now
        legal.now.log.now legal.now.core.now.world) }
{
    let steps = steps_asked(alloc, legal, window)?;
    grid_of(alloc, places, window, &steps, legal.core.activities())
}

/// The lanes of these steps of a run.
fn lanes(
    alloc: Global,
    places: &Places<'_>,
    legal: &LegalRun<'_, '_>,
    window: Window,
) -> Result<Drawing, AllocError>
    ensures text { IfOk result (λ d. d.text.items ≡ lanes_text places.now window
        legal.now.module.now legal.now.log.now legal.now.core.now.world) }
    ensures whole { IfOk result (λ d. d.whole ≡ are_lanes_whole legal.now.core.now.world) }
{
    let grid = grid_for(alloc, places, legal, window)?;
    let text = lanes_in(alloc, grid, places, legal)?;
    let whole = legal.core.activities() <= DRAWN;
    Ok(Drawing { text, whole })
}

/// The lanes of these steps of a run of a source text's module: a column for each activity, and a row for each step
/// that others can see, with its number, where it was taken, and what was done in the lane of who did it. Behind a step
/// an activity that could go on shows `|`, one that is held back `:`, and one that hasn't started or has ended nothing.
/// Where a clock advanced, a bar joins the lanes of those who are registered on it, and says in whose step that was. It
/// is whole where each activity has a lane. Err where memory was refused.
pub fn source_lanes(
    alloc: Global,
    text: &[u8],
    origins: &[UnitOrigins<'_>],
    legal: &LegalRun<'_, '_>,
    window: Window,
) -> Result<Drawing, AllocError>
    ensures text { IfOk result (λ d. d.text.items
        ≡ lanes_text (places_of text.now origins.now) window
        legal.now.module.now legal.now.log.now legal.now.core.now.world) }
    ensures whole { IfOk result (λ d. d.whole ≡ are_lanes_whole legal.now.core.now.world) }
{
    let places = Places::of_source(alloc, text, origins)?;
    lanes(alloc, &places, legal, window)
}

/// The same of a module without a text, with the unit and place of each step. Err where memory was refused.
pub fn module_lanes(
    alloc: Global,
    legal: &LegalRun<'_, '_>,
    window: Window,
) -> Result<Drawing, AllocError>
    ensures text { IfOk result (λ d. d.text.items ≡ lanes_text no_text window
        legal.now.module.now legal.now.log.now legal.now.core.now.world) }
    ensures whole { IfOk result (λ d. d.whole ≡ are_lanes_whole legal.now.core.now.world) }
{
    let places = Places::of_module(alloc)?;
    lanes(alloc, &places, legal, window)
}

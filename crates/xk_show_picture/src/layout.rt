//! Which rows a picture has, from the top.

ghost use Rattle.std.specs.Prelude.{◌≡◌, ◌∷◌, ◌++◌, length, replicate, IfOk, OnOk};
ghost use Rattle.xk_core.specs.Core.{advanced_now};
ghost use Rattle.xk_show_lanes.specs.Lanes.{steps_asked};
ghost use Rattle.xk_show_lanes.specs.NamedLanes.{accounts_kept};
ghost use Rattle.xk_show_picture.specs.Picture.{bar_row, is_shown, row_of, rows_of, rows_of_world, rows_told};

use std::alloc::{AllocError, Global};
use xk_core::Core;
use xk_show_events::{Both, Describe, LegalRun, RunStep, advanced, describe_run_by_both, is_seen};
use xk_show_lanes::{AskedSteps, KeptAccounts, Window};
use xk_show_names::{Account, Recount, recount_run_by_both};
use xk_types::Event;

/// Whether the step that led to the core, and was seen to do this, is shown.
pub fn is_shown(core: &Core<'_>, window: Window, event: Event) -> bool
    ensures { result ≡ is_shown window core.now.world event }
{
    window.asks(core.steps_done()) && (is_seen(event) || !core.is_quiet())
}

/// Adds a number so many times.
fn push_times(list: &mut Vec<u64>, number: u64, count: usize) -> Result<(), AllocError>
    ensures { OnOk result (list.new.items ≡ list.old.items ++ replicate count number) }
{
    for _ in 0..count {
        list.push(number)?;
    }
    Ok(())
}

/// Adds a number for a step's own row, and for that of each of these clocks.
fn push_number(list: &mut Vec<u64>, number: u64, clocks: &[u32]) -> Result<(), AllocError>
    ensures { OnOk result (list.new.items
        ≡ list.old.items ++ number ∷ replicate (length clocks.now) number) }
{
    list.push(number)?;
    push_times(list, number, clocks.len())
}

/// Adds the numbers of the rows of the step that led to the core.
fn push_rows(alloc: Global, list: &mut Vec<u64>, core: &Core<'_>) -> Result<(), AllocError>
    ensures { OnOk result (list.new.items ≡ list.old.items ++ rows_of_world core.now.world) }
{
    let clocks = advanced(alloc, core)?;
    push_number(list, core.steps_done(), &clocks)
}

/// Tells of the steps that are shown, by the numbers of their rows.
#[derive(Drop)]
struct RowTeller {
    window: Window,
}

impl Describe<u64> for RowTeller {
    ghost describe = { λ teller m v s. rows_told teller.window v s.event };

    fn push(
        &self,
        alloc: Global,
        out: &mut Vec<u64>,
        core: &Core<'_>,
        step: &RunStep,
    ) -> Result<(), AllocError> {
        if is_shown(core, self.window, step.event) {
            push_rows(alloc, out, core)?;
        }
        Ok(())
    }

    #[tactic(auto, using(xk_show_lanes::proofs::LaneLemmas::none_asked))]
    fn is_silent_after(&self, steps: u64) -> bool {
        self.window.last <= steps
    }
}

impl Recount<u64> for RowTeller {
    ghost recount = { λ teller m v a. rows_told teller.window v a.step.event };

    fn push(
        &self,
        alloc: Global,
        out: &mut Vec<u64>,
        core: &Core<'_>,
        account: &Account,
    ) -> Result<(), AllocError> {
        if is_shown(core, self.window, account.step.event) {
            push_rows(alloc, out, core)?;
        }
        Ok(())
    }

    #[tactic(auto, using(xk_show_lanes::proofs::LaneLemmas::none_asked))]
    fn is_silent_after(&self, steps: u64) -> bool {
        self.window.last <= steps
    }
}

/// What the picture of a module is laid out by: the numbers of its rows, and the steps whose words its columns hold.
#[derive(Drop)]
pub(crate) struct Layout {
    pub rows: Vec<u64>,
    pub steps: Vec<RunStep>,
}

/// The layout of the picture of a module's run. The log is played again for it.
pub(crate) fn layout_of(
    alloc: Global,
    legal: &LegalRun<'_, '_>,
    window: Window,
) -> Result<Layout, AllocError>
    ensures rows { IfOk result (λ l. l.rows.items ≡ rows_of window legal.now.module.now
        legal.now.core.now.world.arguments legal.now.log.now) }
    ensures steps { IfOk result (λ l. l.steps.items ≡ steps_asked window legal.now.module.now
        legal.now.log.now legal.now.core.now.world) }
{
    let mut rows = Vec::new(alloc);
    let mut steps = Vec::new(alloc);
    let both = Both {
        first: &RowTeller { window },
        second: &AskedSteps { window },
    };
    describe_run_by_both(&both, alloc, &mut rows, &mut steps, legal)?;
    Ok(Layout { rows, steps })
}

/// What the picture of a source text's module is laid out by: the numbers of its rows, and the steps that were kept for
/// names and columns.
#[derive(Drop)]
pub(crate) struct NamedLayout {
    pub rows: Vec<u64>,
    pub kept: Vec<Account>,
}

/// The layout of the picture of its run. The log is played again for it.
pub(crate) fn named_layout_of(
    alloc: Global,
    legal: &LegalRun<'_, '_>,
    window: Window,
) -> Result<NamedLayout, AllocError>
    ensures rows { IfOk result (λ l. l.rows.items ≡ rows_of window legal.now.module.now
        legal.now.core.now.world.arguments legal.now.log.now) }
    ensures kept { IfOk result (λ l. l.kept.items ≡ accounts_kept window legal.now.module.now
        legal.now.log.now legal.now.core.now.world) }
{
    let mut rows = Vec::new(alloc);
    let mut kept = Vec::new(alloc);
    let both = Both {
        first: &RowTeller { window },
        second: &KeptAccounts { window },
    };
    recount_run_by_both(&both, alloc, &mut rows, &mut kept, legal)?;
    Ok(NamedLayout { rows, kept })
}

/// In which row a step is drawn.
pub fn row_of(rows: &[u64], number: u64) -> u32
    ensures { result ≡ row_of rows.now number }
{
    let above = rows.iter().filter(|k| **k < number).count();
    above.min(2000) as u32
}

/// In which row the bar of one of the clocks is drawn that advanced in the last step.
pub(crate) fn bar_row(rows: &[u64], core: &Core<'_>, clocks: &[u32], clock: u32) -> u32
    requires { clocks.now ≡ advanced_now core.now.world }
    ensures { result ≡ bar_row rows.now core.now.world clock }
{
    let above = clocks.iter().filter(|d| **d < clock).count();
    row_of(rows, core.steps_done()) + (1 + above.min(2000) as u32)
}

//! Lanes of a source text's module, with names and values.

ghost use Rattle.std.specs.Prelude.{◌≡◌, ◌<◌, ◌^◌, ◌++◌, length, map, filter, flat_map, IfOk, OnOk, string_bytes};
ghost use Rattle.xk_core.specs.Core.{advanced_now};
ghost use Rattle.xk_show_events.specs.Events.{places_of};
ghost use Rattle.xk_show_names.specs.ClockNames.{names_until};
ghost use Rattle.xk_show_names.specs.Events.{account_words};
ghost use Rattle.xk_show_lanes.specs.Fields.{longest};
ghost use Rattle.xk_show_lanes.specs.Lanes.{are_lanes_whole, is_asked, spot};
ghost use Rattle.xk_show_lanes.specs.NamedLanes.{account_if_kept, accounts_kept, grid_by_names, is_kept, makes, named_bar, named_grid};
ghost use Rattle.xk_show_lanes.specs.NamedLanes.{named_label, named_row};
ghost use Rattle.xk_show_lanes.specs.NamedLanes.{named_lanes_in, named_lanes_of_step, named_lanes_text, named_row_and_bars};
ghost use Rattle.xk_show_lanes.specs.NamedLanes.{named_row_if_seen};

use crate::bars::push_bar_lanes;
use crate::fields::{push_line, push_text, push_times};
use crate::grid::{DRAWN, Grid, greater, spot};
use crate::lanes::{Drawing, push_left_out};
use crate::rows::{push_cells, push_head, push_words_behind, row_front};
use crate::window::Window;
use std::alloc::{AllocError, Global};
use xk_core::Core;
use xk_show_events::{LegalRun, Places, advanced, is_seen};
use xk_show_names::{Account, Names, Recount, account_words, clock_word, recount_run};
use xk_types::{ClockId, Event};
use xk_unit_origins::UnitOrigins;

/// How long the longest place is at which one of these steps was taken.
fn longest_spot(alloc: Global, places: &Places<'_>, steps: &[Account]) -> Result<usize, AllocError>
    ensures longest { IfOk result
        (λ n. n ≡ longest (map (λ a. spot places.now a.step) steps.now)) }
    ensures small { IfOk result (λ n. n < 2 ^ 63) }
{
    let mut most = 0;
    for account in steps {
        let text = spot(alloc, places, &account.step)?;
        most = greater(most, text.len());
    }
    Ok(most)
}

/// How long the longest words are for what one of these steps did.
fn longest_words(alloc: Global, names: &Names<'_>, steps: &[Account]) -> Result<usize, AllocError>
    ensures longest { IfOk result
        (λ n. n ≡ longest (map (account_words names.now) steps.now)) }
    ensures small { IfOk result (λ n. n < 2 ^ 63) }
{
    let mut most = 0;
    for account in steps {
        let text = account_words(alloc, names, account)?;
        most = greater(most, text.len());
    }
    Ok(most)
}

/// The columns for these steps of so many activities.
fn named_grid(
    alloc: Global,
    places: &Places<'_>,
    names: &Names<'_>,
    window: Window,
    steps: &[Account],
    activities: u32,
) -> Result<Grid, AllocError>
    ensures { IfOk result
        (λ g. g ≡ named_grid places.now names.now window steps.now activities) }
{
    let place = longest_spot(alloc, places, steps)?;
    let words = longest_words(alloc, names, steps)?;
    Ok(Grid {
        window,
        place: (2 + place).max(4),
        lane: (2 + words).max(8),
        lanes: activities.min(DRAWN),
    })
}

/// Whether a step made a clock.
fn makes(event: Event) -> bool
    ensures { result ≡ makes event }
{
    matches!(event, Event::Made)
}

/// Whether a step is asked for, and others can see it, or it made a clock before those that are asked for.
fn is_kept(window: Window, number: u64, event: Event) -> bool
    ensures { result ≡ is_kept window number event }
{
    number <= window.last && (is_seen(event) && (window.first <= number || makes(event)))
}

/// Tells of the steps by which clocks have their names, and columns their widths.
#[derive(Drop)]
pub struct KeptAccounts {
    pub window: Window,
}

impl Recount<Account> for KeptAccounts {
    ghost recount = { λ kept m v a. account_if_kept kept.window a };

    fn push(
        &self,
        _alloc: Global,
        out: &mut Vec<Account>,
        _core: &Core<'_>,
        account: &Account,
    ) -> Result<(), AllocError> {
        if is_kept(self.window, account.step.number, account.step.event) {
            out.push(*account)?;
        }
        Ok(())
    }

    #[tactic(auto, using(crate::proofs::KeptLemmas::none_kept))]
    fn is_silent_after(&self, steps: u64) -> bool {
        self.window.last <= steps
    }
}

/// The steps of a run by which clocks have their names, and columns their widths. The log is played again for it. Err
/// where memory was refused.
pub fn accounts_kept(
    alloc: Global,
    legal: &LegalRun<'_, '_>,
    window: Window,
) -> Result<Vec<Account>, AllocError>
    ensures { IfOk result (λ v. v.items ≡ accounts_kept window legal.now.module.now
        legal.now.log.now legal.now.core.now.world) }
{
    let mut steps = Vec::new(alloc);
    recount_run(&KeptAccounts { window }, alloc, &mut steps, legal)?;
    Ok(steps)
}

/// Leaves those of these steps that are asked for.
fn leave_asked(steps: &mut Vec<Account>, window: Window)
    ensures { steps.new.items
        ≡ filter (λ a. is_asked window a.step.number) steps.old.items }
{
    steps.retain(|account| window.asks(account.step.number));
}

/// What shared numbers and clocks are called, by the steps that were kept for it.
fn kept_names<'t>(
    alloc: Global,
    places: &Places<'_>,
    origins: &[UnitOrigins<'_>],
    shared: &'t [&'t [u8]],
    legal: &LegalRun<'_, '_>,
    window: Window,
    kept: &[Account],
) -> Result<Names<'t>, AllocError>
    requires origins { places.now.origins ≡ origins.now }
    requires kept { kept.now ≡ accounts_kept window legal.now.module.now
        legal.now.log.now legal.now.core.now.world }
    ensures { IfOk result (λ n. n ≡ names_until places.now
        (map (λ x. x.now) shared.now) window.last legal.now.module.now
        legal.now.core.now.world.arguments legal.now.log.now) }
{
    let program = legal.module.module();
    Names::by_steps(alloc, places, origins, shared, program, kept)
}

/// What clocks and shared numbers are called, and how wide columns are.
#[derive(Drop)]
pub struct Columns<'t> {
    pub names: Names<'t>,
    pub grid: Grid,
}

/// The names and columns for these steps of a run of a source text's module, whose shared numbers have these names, by
/// the steps that were kept for it. Err where memory was refused.
pub fn named_columns<'t>(
    alloc: Global,
    places: &Places<'_>,
    origins: &[UnitOrigins<'_>],
    shared: &'t [&'t [u8]],
    legal: &LegalRun<'_, '_>,
    window: Window,
    kept: Vec<Account>,
) -> Result<Columns<'t>, AllocError>
    requires origins { places.now.origins ≡ origins.now }
    requires kept { kept.items ≡ accounts_kept window legal.now.module.now
        legal.now.log.now legal.now.core.now.world }
    ensures names { IfOk result (λ c. c.names ≡ names_until places.now
        (map (λ x. x.now) shared.now) window.last legal.now.module.now
        legal.now.core.now.world.arguments legal.now.log.now) }
    ensures grid { IfOk result (λ c. c.grid ≡ grid_by_names places.now c.names window
        legal.now.module.now legal.now.log.now legal.now.core.now.world) }
{
    let names = kept_names(alloc, places, origins, shared, legal, window, &kept)?;
    let mut steps = kept;
    leave_asked(&mut steps, window);
    let grid = named_grid(
        alloc,
        places,
        &names,
        window,
        &steps,
        legal.core.activities(),
    )?;
    Ok(Columns { names, grid })
}

/// Tells of the steps that are asked for, by their rows and bars.
#[derive(Drop)]
struct NamedTeller<'a, 't> {
    grid: Grid,
    places: &'a Places<'t>,
    names: &'a Names<'t>,
}

/// Adds the row of a step that led to the core.
#[tactic(auto, unfolding(crate::specs::NamedLanes::named_row, crate::specs::Lanes::lane_line))]
fn push_row(
    alloc: Global,
    out: &mut Vec<u8>,
    core: &Core<'_>,
    teller: &NamedTeller<'_, '_>,
    account: &Account,
) -> Result<(), AllocError>
    ensures { OnOk result (out.new.items ≡ out.old.items
        ++ named_row teller.now.grid teller.now.places.now teller.now.names.now
        core.now.module_run core.now.world account.now) }
{
    let words = account_words(alloc, teller.names, account)?;
    let mut line = row_front(alloc, teller.grid, teller.places, &account.step)?;
    push_cells(
        &mut line,
        core,
        teller.grid,
        &account.step,
        words.as_bytes(),
    )?;
    push_words_behind(
        alloc,
        &mut line,
        teller.grid,
        &account.step,
        words.as_bytes(),
    )?;
    push_line(out, &line)
}

/// Adds the row of a step, if other activities can see it.
fn push_row_if_seen(
    alloc: Global,
    out: &mut Vec<u8>,
    core: &Core<'_>,
    teller: &NamedTeller<'_, '_>,
    account: &Account,
) -> Result<(), AllocError>
    ensures { OnOk result (out.new.items ≡ out.old.items
        ++ named_row_if_seen teller.now.grid teller.now.places.now teller.now.names.now
        core.now.module_run core.now.world account.now) }
{
    if is_seen(account.step.event) {
        return push_row(alloc, out, core, teller, account);
    }
    Ok(())
}

/// What stands behind a bar: `c phase 1 by 1`. Err where memory was refused.
#[tactic(auto, unfolding(crate::specs::NamedLanes::named_label))]
pub fn named_label(
    alloc: Global,
    core: &Core<'_>,
    names: &Names<'_>,
    act: u32,
    clock: ClockId,
) -> Result<String, AllocError>
    requires { clock < length core.now.world.clocks }
    ensures { IfOk result (λ text. string_bytes text
        ≡ named_label names.now core.now.world act clock) }
{
    let name = clock_word(alloc, names, clock.0)?;
    let phase = core.phase(clock);
    format!(in alloc; "{name} phase {phase} by {act}")
}

/// Adds the bar of a clock that advanced in the last step, which this activity took.
#[tactic(auto, unfolding(crate::specs::NamedLanes::named_bar))]
fn push_bar(
    alloc: Global,
    out: &mut Vec<u8>,
    core: &Core<'_>,
    teller: &NamedTeller<'_, '_>,
    act: u32,
    clock: ClockId,
) -> Result<(), AllocError>
    requires { clock < length core.now.world.clocks }
    ensures { OnOk result (out.new.items ≡ out.old.items
        ++ named_bar teller.now.grid teller.now.names.now core.now.world act clock) }
{
    let label = named_label(alloc, core, teller.names, act, clock)?;
    push_times(out, b' ', 8)?;
    push_times(out, b' ', teller.grid.place)?;
    push_bar_lanes(out, core, teller.grid, clock)?;
    push_text(out, label.as_str())?;
    push_text(out, "\n")
}

/// Adds the bars of these clocks.
fn push_bars_of(
    alloc: Global,
    out: &mut Vec<u8>,
    core: &Core<'_>,
    teller: &NamedTeller<'_, '_>,
    act: u32,
    clocks: &[u32],
) -> Result<(), AllocError>
    requires { clocks.now ≡ advanced_now core.now.world }
    ensures { OnOk result (out.new.items ≡ out.old.items ++ flat_map
        (named_bar teller.now.grid teller.now.names.now core.now.world act) clocks.now) }
{
    for clock in clocks {
        push_bar(alloc, out, core, teller, act, ClockId(*clock))?;
    }
    Ok(())
}

/// Adds the row and bars of a step that led to the core.
fn push_row_and_bars(
    alloc: Global,
    out: &mut Vec<u8>,
    core: &Core<'_>,
    teller: &NamedTeller<'_, '_>,
    account: &Account,
) -> Result<(), AllocError>
    ensures { OnOk result (out.new.items ≡ out.old.items
        ++ named_row_and_bars teller.now.grid teller.now.places.now teller.now.names.now
        core.now.module_run core.now.world account.now) }
{
    let clocks = advanced(alloc, core)?;
    push_row_if_seen(alloc, out, core, teller, account)?;
    push_bars_of(alloc, out, core, teller, account.step.act, &clocks)
}

impl Recount<u8> for NamedTeller<'_, '_> {
    ghost recount = { λ teller m v a.
        named_lanes_of_step teller.grid teller.places.now teller.names.now m v a };

    fn push(
        &self,
        alloc: Global,
        out: &mut Vec<u8>,
        core: &Core<'_>,
        account: &Account,
    ) -> Result<(), AllocError> {
        if self.grid.window.asks(account.step.number) {
            push_row_and_bars(alloc, out, core, self, account)?;
        }
        Ok(())
    }

    #[tactic(auto, using(crate::proofs::LaneLemmas::none_asked))]
    fn is_silent_after(&self, steps: u64) -> bool {
        self.grid.window.last <= steps
    }
}

/// The lanes of a run, in these columns.
fn named_lanes_in(
    alloc: Global,
    grid: Grid,
    places: &Places<'_>,
    names: &Names<'_>,
    legal: &LegalRun<'_, '_>,
) -> Result<Vec<u8>, AllocError>
    ensures { IfOk result (λ v. v.items ≡ named_lanes_in grid places.now names.now
        legal.now.module.now legal.now.log.now legal.now.core.now.world) }
{
    let mut out = Vec::new(alloc);
    push_head(alloc, &mut out, grid)?;
    let teller = NamedTeller {
        grid,
        places,
        names,
    };
    recount_run(&teller, alloc, &mut out, legal)?;
    push_left_out(
        alloc,
        &mut out,
        legal.core.activities().saturating_sub(DRAWN),
    )?;
    Ok(out)
}

/// The lanes of these steps of a run of a source text's module, as `source_lanes` has them, but with names and values:
/// what was read, written or added to is told by the shared number's name, which is given, with what it was then; and
/// clocks by the names that they were made under. It is whole where each activity has a lane. Err where memory was
/// refused.
pub fn lanes_with_names(
    alloc: Global,
    text: &[u8],
    origins: &[UnitOrigins<'_>],
    shared: &[&[u8]],
    legal: &LegalRun<'_, '_>,
    window: Window,
) -> Result<Drawing, AllocError>
    ensures text { IfOk result (λ d. d.text.items ≡ named_lanes_text
        (places_of text.now origins.now) (map (λ x. x.now) shared.now) window
        legal.now.module.now legal.now.log.now legal.now.core.now.world) }
    ensures whole { IfOk result (λ d. d.whole ≡ are_lanes_whole legal.now.core.now.world) }
{
    let places = Places::of_source(alloc, text, origins)?;
    let kept = accounts_kept(alloc, legal, window)?;
    let columns = named_columns(alloc, &places, origins, shared, legal, window, kept)?;
    let text = named_lanes_in(alloc, columns.grid, &places, &columns.names, legal)?;
    let whole = legal.core.activities() <= DRAWN;
    Ok(Drawing { text, whole })
}

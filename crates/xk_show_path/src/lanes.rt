//! The lanes of a run, with its rounds and its critical path.

ghost use Rattle.std.specs.Prelude.{◌≡◌, ◌<◌, ◌++◌, length, map, option_map, flat_map, decimal, IfOk, OnOk, string_bytes};
ghost use Rattle.xk_core.specs.Core.{advanced_now};
ghost use Rattle.xk_show_lanes.specs.Fields.{at_right};
ghost use Rattle.xk_show_lanes.specs.Lanes.{are_lanes_whole};
ghost use Rattle.xk_show_path.specs.PathLanes.{marked, marked_words, path_bar, path_head, path_lanes_in, path_lanes_of_step};
ghost use Rattle.xk_show_path.specs.PathLanes.{path_lanes_text, path_row_and_bars, path_row_if_seen, row_with};
ghost use Rattle.xk_show_path.specs.Rounds.{round_of};

use crate::columns::columns_for;
use crate::rounds::Rounds;
use std::alloc::{AllocError, Global};
use xk_core::Core;
use xk_scheduler::Ended;
use xk_show_events::{LegalRun, Places, advanced, is_seen};
use xk_show_lanes::{
    Drawing, Grid, Window, push_at_right, push_bar_lanes, push_cells, push_head, push_left_out,
    push_line, push_text, push_times, push_words_behind, row_front,
};
use xk_show_names::{Account, Names, Recount, recount_run};
use xk_show_picture::{label_of, words_of};
use xk_types::ClockId;
use xk_unit_origins::UnitOrigins;

/// How many lanes are drawn at most.
const DRAWN: u32 = 64;

/// Tells of the steps that are asked for, by their rows and bars; by names where there are any.
#[derive(Drop)]
struct PathTeller<'a, 't> {
    rounds: &'a Rounds,
    grid: Grid,
    places: &'a Places<'t>,
    names: &'a Option<Names<'t>>,
}

/// What a step did, behind `*` if it is one of the path's.
fn marked(alloc: Global, critical: bool, words: &str) -> Result<String, AllocError>
    ensures { IfOk result (λ text. string_bytes text ≡ marked critical words.now) }
{
    if critical {
        return format!(in alloc; "*{words}");
    }
    format!(in alloc; "{words}")
}

/// The words of a step's row.
fn marked_words(
    alloc: Global,
    rounds: &Rounds,
    names: &Option<Names<'_>>,
    account: &Account,
) -> Result<String, AllocError>
    ensures { IfOk result (λ text. string_bytes text
        ≡ marked_words rounds.now names.now account.now) }
{
    let words = words_of(alloc, names, account)?;
    let critical = rounds.is_critical(account.step.number);
    marked(alloc, critical, words.as_str())
}

/// Adds the round of the step of this number.
fn push_round(
    alloc: Global,
    out: &mut Vec<u8>,
    rounds: &Rounds,
    number: u64,
) -> Result<(), AllocError>
    ensures { OnOk result (out.new.items
        ≡ out.old.items ++ at_right 6 (decimal (round_of rounds.now number))) }
{
    let round = rounds.round_of(number);
    let round = format!(in alloc; "{round}")?;
    push_at_right(out, 6, round.as_bytes())
}

/// Adds the row of a step that led to the core, in which these words are told.
#[tactic(auto, unfolding(crate::specs::PathLanes::row_with, xk_show_lanes::specs::Lanes::lane_line))]
fn push_row_with(
    alloc: Global,
    out: &mut Vec<u8>,
    core: &Core<'_>,
    teller: &PathTeller<'_, '_>,
    account: &Account,
    words: &[u8],
) -> Result<(), AllocError>
    ensures { OnOk result (out.new.items ≡ out.old.items
        ++ row_with teller.now.rounds.now teller.now.grid teller.now.places.now words.now
        core.now.module_run core.now.world account.now) }
{
    let mut line = row_front(alloc, teller.grid, teller.places, &account.step)?;
    push_cells(&mut line, core, teller.grid, &account.step, words)?;
    push_words_behind(alloc, &mut line, teller.grid, &account.step, words)?;
    push_round(alloc, out, teller.rounds, account.step.number)?;
    push_line(out, &line)
}

/// Adds the row of a step, if other activities can see it.
fn push_row_if_seen(
    alloc: Global,
    out: &mut Vec<u8>,
    core: &Core<'_>,
    teller: &PathTeller<'_, '_>,
    account: &Account,
) -> Result<(), AllocError>
    ensures { OnOk result (out.new.items ≡ out.old.items
        ++ path_row_if_seen teller.now.rounds.now teller.now.grid teller.now.places.now
        teller.now.names.now core.now.module_run core.now.world account.now) }
{
    if !is_seen(account.step.event) {
        return Ok(());
    }
    let words = marked_words(alloc, teller.rounds, teller.names, account)?;
    push_row_with(alloc, out, core, teller, account, words.as_bytes())
}

/// Adds the bar of a clock that advanced in the last step, which this activity took.
#[tactic(auto, unfolding(crate::specs::PathLanes::path_bar))]
fn push_bar(
    alloc: Global,
    out: &mut Vec<u8>,
    core: &Core<'_>,
    teller: &PathTeller<'_, '_>,
    act: u32,
    clock: ClockId,
) -> Result<(), AllocError>
    requires { clock < length core.now.world.clocks }
    ensures { OnOk result (out.new.items ≡ out.old.items
        ++ path_bar teller.now.grid teller.now.names.now core.now.world act clock) }
{
    let label = label_of(alloc, core, teller.names, act, clock)?;
    push_times(out, b' ', 14)?;
    push_times(out, b' ', teller.grid.place)?;
    push_bar_lanes(out, core, teller.grid, clock)?;
    push_text(out, label.as_str())?;
    push_text(out, "\n")
}

/// Adds the bars of these clocks.
fn push_bars_of(
    alloc: Global,
    out: &mut Vec<u8>,
    core: &Core<'_>,
    teller: &PathTeller<'_, '_>,
    act: u32,
    clocks: &[u32],
) -> Result<(), AllocError>
    requires { clocks.now ≡ advanced_now core.now.world }
    ensures { OnOk result (out.new.items ≡ out.old.items ++ flat_map
        (path_bar teller.now.grid teller.now.names.now core.now.world act) clocks.now) }
{
    for clock in clocks {
        push_bar(alloc, out, core, teller, act, ClockId(*clock))?;
    }
    Ok(())
}

/// Adds the row and bars of a step that led to the core.
fn push_row_and_bars(
    alloc: Global,
    out: &mut Vec<u8>,
    core: &Core<'_>,
    teller: &PathTeller<'_, '_>,
    account: &Account,
) -> Result<(), AllocError>
    ensures { OnOk result (out.new.items ≡ out.old.items
        ++ path_row_and_bars teller.now.rounds.now teller.now.grid teller.now.places.now
        teller.now.names.now core.now.module_run core.now.world account.now) }
{
    let clocks = advanced(alloc, core)?;
    push_row_if_seen(alloc, out, core, teller, account)?;
    push_bars_of(alloc, out, core, teller, account.step.act, &clocks)
}

impl Recount<u8> for PathTeller<'_, '_> {
    ghost recount = { λ teller m v a. path_lanes_of_step teller.rounds.now teller.grid
        teller.places.now teller.names.now m v a };

    fn push(
        &self,
        alloc: Global,
        out: &mut Vec<u8>,
        core: &Core<'_>,
        account: &Account,
    ) -> Result<(), AllocError> {
        if self.grid.window.asks(account.step.number) {
            push_row_and_bars(alloc, out, core, self, account)?;
        }
        Ok(())
    }

    #[tactic(auto, using(xk_show_lanes::proofs::LaneLemmas::none_asked))]
    fn is_silent_after(&self, steps: u64) -> bool {
        self.grid.window.last <= steps
    }
}

/// Adds the head.
#[tactic(auto, unfolding(crate::specs::PathLanes::path_head))]
fn push_path_head(alloc: Global, out: &mut Vec<u8>, grid: Grid) -> Result<(), AllocError>
    ensures { OnOk result (out.new.items ≡ out.old.items ++ path_head grid) }
{
    push_at_right(out, 6, b"round")?;
    push_head(alloc, out, grid)
}

/// The lanes of a run, by these rounds and in these columns.
fn path_lanes_in(
    alloc: Global,
    teller: &PathTeller<'_, '_>,
    legal: &LegalRun<'_, '_>,
) -> Result<Vec<u8>, AllocError>
    ensures { IfOk result (λ v. v.items ≡ path_lanes_in teller.now.rounds.now teller.now.grid
        teller.now.places.now teller.now.names.now
        legal.now.module.now legal.now.log.now legal.now.core.now.world) }
{
    let mut out = Vec::new(alloc);
    push_path_head(alloc, &mut out, teller.grid)?;
    recount_run(teller, alloc, &mut out, legal)?;
    push_left_out(
        alloc,
        &mut out,
        legal.core.activities().saturating_sub(DRAWN),
    )?;
    Ok(out)
}

/// The lanes of these steps of a run, with their rounds and a critical path. They are whole where each activity has one.
#[tactic(auto, using(crate::proofs::PathLemmas::lanes_are))]
pub(crate) fn path_lanes(
    alloc: Global,
    places: &Places<'_>,
    origins: &[UnitOrigins<'_>],
    shared: Option<&[&[u8]]>,
    ended: &Ended<'_>,
    window: Window,
) -> Result<Drawing, AllocError>
    requires { places.now.origins ≡ origins.now }
    ensures text { IfOk result (λ d. d.text.items ≡ path_lanes_text places.now
        (option_map (λ l. map (λ x. x.now) l.now) shared.entry) window
        ended.now.module.now ended.now.log.items ended.now.core.world) }
    ensures whole { IfOk result (λ d. d.whole ≡ are_lanes_whole ended.now.core.world) }
{
    let rounds = Rounds::of(alloc, ended)?;
    let legal = LegalRun::of(ended);
    let columns = columns_for(alloc, places, origins, shared, &legal, window)?;
    let teller = PathTeller {
        rounds: &rounds,
        grid: columns.grid,
        places,
        names: &columns.names,
    };
    let text = path_lanes_in(alloc, &teller, &legal)?;
    let whole = legal.core.activities() <= DRAWN;
    Ok(Drawing { text, whole })
}

//! The lanes of a run, by rounds.

ghost use Rattle.std.specs.Prelude.{◌≡◌, [], ◌∷◌, map, option_map, None, Some, IfOk};
ghost use Rattle.xk_show_events.specs.Events.{no_text, places_of};
ghost use Rattle.xk_show_lanes.specs.Lanes.{are_lanes_whole};
ghost use Rattle.xk_show_rounds.specs.RoundLanes.{accounts_of, round_lanes_in, round_lanes_text};

use crate::rows::head_and_rows;
use std::alloc::{AllocError, Global};
use xk_core::Core;
use xk_scheduler::Ended;
use xk_show_events::{LegalRun, Places};
use xk_show_lanes::{Drawing, Grid, Window, push_left_out};
use xk_show_names::{Account, Names, Recount, recount_run};
use xk_show_path::{Rounds, columns_for};
use xk_unit_origins::UnitOrigins;

/// How many lanes are drawn at most.
const DRAWN: u32 = 64;

/// Tells of each step by what it was about.
struct EachStep;

impl Recount<Account> for EachStep {
    ghost recount = { λ recounter m v a. a ∷ [] };

    fn push(
        &self,
        _alloc: Global,
        out: &mut Vec<Account>,
        _core: &Core<'_>,
        account: &Account,
    ) -> Result<(), AllocError> {
        out.push(*account)?;
        Ok(())
    }
}

/// Each step of a run, and what it was about. The log is played again for it.
fn accounts_of(alloc: Global, legal: &LegalRun<'_, '_>) -> Result<Vec<Account>, AllocError>
    ensures { IfOk result (λ v. v.items ≡ accounts_of legal.now.module.now
        legal.now.core.now.world.arguments legal.now.log.now) }
{
    let mut steps = Vec::new(alloc);
    recount_run(&EachStep, alloc, &mut steps, legal)?;
    Ok(steps)
}

/// The lanes of a run with these steps, by these rounds.
fn round_lanes_in(
    alloc: Global,
    rounds: &Rounds,
    grid: Grid,
    names: &Option<Names<'_>>,
    legal: &LegalRun<'_, '_>,
) -> Result<Vec<u8>, AllocError>
    ensures { IfOk result (λ v. v.items ≡ round_lanes_in rounds.now grid names.now
        (accounts_of legal.now.module.now legal.now.core.now.world.arguments legal.now.log.now)
        legal.now.core.now.world) }
{
    let steps = accounts_of(alloc, legal)?;
    let mut out = head_and_rows(alloc, rounds, grid, names, &steps)?;
    push_left_out(
        alloc,
        &mut out,
        legal.core.activities().saturating_sub(DRAWN),
    )?;
    Ok(out)
}

/// The lanes of a run by rounds. They are whole where each activity has one.
fn round_lanes(
    alloc: Global,
    places: &Places<'_>,
    origins: &[UnitOrigins<'_>],
    shared: Option<&[&[u8]]>,
    ended: &Ended<'_>,
) -> Result<Drawing, AllocError>
    requires { places.now.origins ≡ origins.now }
    ensures text { IfOk result (λ d. d.text.items ≡ round_lanes_text places.now
        (option_map (λ l. map (λ x. x.now) l.now) shared.entry)
        ended.now.module.now ended.now.log.items ended.now.core.world) }
    ensures whole { IfOk result (λ d. d.whole ≡ are_lanes_whole ended.now.core.world) }
{
    let rounds = Rounds::of(alloc, ended)?;
    let legal = LegalRun::of(ended);
    let columns = columns_for(alloc, places, origins, shared, &legal, Window::whole())?;
    let text = round_lanes_in(alloc, &rounds, columns.grid, &columns.names, &legal)?;
    let whole = legal.core.activities() <= DRAWN;
    Ok(Drawing { text, whole })
}

/// The lanes of a run of a source text's module by rounds, with the names that `lanes_with_names` of `xk_show_lanes`
/// has, and the rounds that `source_span` of `xk_show_span` tells. Err where memory was refused.
pub fn source_rounds(
    alloc: Global,
    text: &[u8],
    origins: &[UnitOrigins<'_>],
    shared: &[&[u8]],
    ended: &Ended<'_>,
) -> Result<Drawing, AllocError>
    ensures text { IfOk result (λ d. d.text.items ≡ round_lanes_text
        (places_of text.now origins.now) (Some (map (λ x. x.now) shared.now))
        ended.now.module.now ended.now.log.items ended.now.core.world) }
    ensures whole { IfOk result (λ d. d.whole ≡ are_lanes_whole ended.now.core.world) }
{
    let places = Places::of_source(alloc, text, origins)?;
    round_lanes(alloc, &places, origins, Some(shared), ended)
}

/// The same of a module without a text, without names. Err where memory was refused.
pub fn module_rounds(alloc: Global, ended: &Ended<'_>) -> Result<Drawing, AllocError>
    ensures text { IfOk result (λ d. d.text.items ≡ round_lanes_text no_text None
        ended.now.module.now ended.now.log.items ended.now.core.world) }
    ensures whole { IfOk result (λ d. d.whole ≡ are_lanes_whole ended.now.core.world) }
{
    let places = Places::of_module(alloc)?;
    round_lanes(alloc, &places, &[], None, ended)
}

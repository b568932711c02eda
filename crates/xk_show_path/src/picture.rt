//! The picture of a run, with its rounds and its critical path.

ghost use Rattle.std.specs.Prelude.{◌≡◌, ◌≤◌, ◌+◌, ◌++◌, length, map, option_map, flat_map, IfOk, OnOk, codes, string_bytes};
ghost use Rattle.xk_show_picture.specs.Picture.{is_drawn, sheet_for};
ghost use Rattle.xk_show_path.specs.PathPicture.{column, described, described_first, drawn_with_round, head, path_picture_on, path_picture_text};
ghost use Rattle.xk_show_path.specs.PathPicture.{path_picture_with, round_label, step_words, with_column};

use crate::line::{boxes_of, push_line_of};
use crate::rounds::Rounds;
use crate::shapes::{described_first, legend, no_others, number, step_words};
use std::alloc::{AllocError, Global};
use xk_core::Core;
use xk_scheduler::Ended;
use xk_show_events::{LegalRun, Places, RunStep, is_seen};
use xk_show_lanes::{Drawing, Window, push_text};
use xk_show_names::{Account, Recount, recount_run};
use xk_show_picture::{
    PictureTeller, Plan, Planned, Sheet, high, is_shown, plan_for, push_furniture, push_titles,
    row_of, svg_head, top, wide,
};
use xk_unit_origins::UnitOrigins;

/// Lanes begin further right, where rounds have a column.
fn with_column(sheet: Sheet) -> Sheet
    requires { sheet.left ≤ 416 }
    ensures { result ≡ with_column sheet }
{
    Sheet {
        window: sheet.window,
        left: sheet.left + 64,
        half: sheet.half,
        lanes: sheet.lanes,
        bands: sheet.bands,
        signs: sheet.signs,
    }
}

/// Where the numbers of that column end.
fn column(sheet: Sheet) -> u64
    ensures { result ≡ column sheet }
{
    u64::from(sheet.left.saturating_sub(12))
}

/// Tells of the steps that are shown as a picture does, and with their rounds.
#[derive(Drop)]
struct RoundTeller<'a, 't> {
    rounds: &'a Rounds,
    picture: PictureTeller<'a, 't>,
}

/// Adds the round of a step in its row, if it has one.
fn push_round_label(
    alloc: Global,
    out: &mut Vec<u8>,
    teller: &RoundTeller<'_, '_>,
    step: &RunStep,
) -> Result<(), AllocError>
    ensures { OnOk result (out.new.items ≡ out.old.items ++ round_label teller.now.rounds.now
        teller.now.picture.plan.now.sheet teller.now.picture.plan.now.rows.items step.now) }
{
    if !is_seen(step.event) {
        return Ok(());
    }
    let plan = teller.picture.plan;
    let round = teller.rounds.round_of(step.number);
    let round = format!(in alloc; "{round}")?;
    let y = top(row_of(&plan.rows, step.number)) + 16;
    let label = number(alloc, column(plan.sheet), y, round.as_str())?;
    push_text(out, label.as_str())
}

impl Recount<u8> for RoundTeller<'_, '_> {
    ghost recount = { λ teller m v a. drawn_with_round teller.rounds.now
        teller.picture.plan.now.sheet teller.picture.plan.now.rows.items
        teller.picture.places.now teller.picture.names.now m v a };

    fn push(
        &self,
        alloc: Global,
        out: &mut Vec<u8>,
        core: &Core<'_>,
        account: &Account,
    ) -> Result<(), AllocError> {
        self.picture.push(alloc, out, core, account)?;
        if is_shown(core, self.picture.plan.sheet.window, account.step.event) {
            push_round_label(alloc, out, self, &account.step)?;
        }
        Ok(())
    }

    #[tactic(auto, using(xk_show_lanes::proofs::LaneLemmas::none_asked))]
    fn is_silent_after(&self, steps: u64) -> bool {
        self.picture.plan.sheet.window.last <= steps
    }
}

/// Adds what is said of these steps of the path to who doesn't see it.
fn push_step_words(
    alloc: Global,
    out: &mut Vec<u8>,
    rounds: &Rounds,
    boxes: &[RunStep],
) -> Result<(), AllocError>
    ensures { OnOk result (out.new.items
        ≡ out.old.items ++ flat_map (step_words rounds.now) boxes.now) }
{
    for step in boxes {
        let words = step_words(alloc, rounds, step)?;
        push_text(out, words.as_str())?;
    }
    Ok(())
}

/// What is told to who doesn't see the picture, up to the steps of the path.
fn described_to(alloc: Global, rounds: &Rounds, plan: &Plan<'_>) -> Result<String, AllocError>
    ensures { IfOk result (λ t. string_bytes t ≡ described_first plan.now.activities
        (length plan.now.rows.items) (length rounds.now.path)) }
{
    let long = rounds.path().len();
    described_first(alloc, plan.activities, plan.rows.len(), long)
}

/// Adds what is told to who doesn't see the picture.
fn push_described(
    alloc: Global,
    out: &mut Vec<u8>,
    rounds: &Rounds,
    plan: &Plan<'_>,
    boxes: &[RunStep],
) -> Result<(), AllocError>
    ensures { OnOk result (out.new.items ≡ out.old.items ++ described rounds.now
        boxes.now plan.now.activities (length plan.now.rows.items)) }
{
    let first = described_to(alloc, rounds, plan)?;
    push_text(out, first.as_str())?;
    push_step_words(alloc, out, rounds, boxes)?;
    push_text(out, no_others())
}

/// Adds what stands above the first row.
#[tactic(auto, unfolding(crate::specs::PathPicture::head))]
fn push_head(
    alloc: Global,
    out: &mut Vec<u8>,
    rounds: &Rounds,
    plan: &Plan<'_>,
    boxes: &[RunStep],
) -> Result<(), AllocError>
    ensures { OnOk result (out.new.items ≡ out.old.items ++ head rounds.now
        plan.now.sheet boxes.now plan.now.activities plan.now.rows.items) }
{
    let sheet = plan.sheet;
    let first = svg_head(alloc, wide(sheet), high(plan.rows.len()))?;
    let title = number(alloc, column(sheet), 104, "round")?;
    push_text(out, first.as_str())?;
    push_described(alloc, out, rounds, plan, boxes)?;
    push_furniture(out)?;
    push_text(out, legend())?;
    push_text(out, title.as_str())?;
    push_titles(alloc, out, sheet)
}

/// The picture of a run by this plan, with these boxes of the path.
fn path_picture_with(
    alloc: Global,
    boxes: &[RunStep],
    teller: &RoundTeller<'_, '_>,
    legal: &LegalRun<'_, '_>,
) -> Result<Vec<u8>, AllocError>
    requires activities { teller.now.picture.plan.now.activities
        ≡ length legal.now.core.now.world.activities }
    ensures { IfOk result (λ v. v.items ≡ path_picture_with boxes.now teller.now.rounds.now
        teller.now.picture.plan.now.sheet teller.now.picture.plan.now.rows.items
        teller.now.picture.places.now teller.now.picture.names.now
        legal.now.module.now legal.now.log.now legal.now.core.now.world) }
{
    let mut out = Vec::new(alloc);
    let plan = teller.picture.plan;
    push_head(alloc, &mut out, teller.rounds, plan, boxes)?;
    recount_run(teller, alloc, &mut out, legal)?;
    push_line_of(alloc, &mut out, plan.sheet, &plan.rows, boxes)?;
    plan.push_end(alloc, &mut out, legal)?;
    Ok(out)
}

/// The picture of a run by this plan.
fn path_picture_on(
    alloc: Global,
    places: &Places<'_>,
    rounds: &Rounds,
    plan: &Plan<'_>,
    legal: &LegalRun<'_, '_>,
) -> Result<Vec<u8>, AllocError>
    requires { plan.now.activities ≡ length legal.now.core.now.world.activities }
    ensures { IfOk result (λ v. v.items ≡ path_picture_on rounds.now plan.now.sheet
        plan.now.rows.items places.now plan.now.names
        legal.now.module.now legal.now.log.now legal.now.core.now.world) }
{
    let boxes = boxes_of(alloc, plan.sheet.window, rounds.path())?;
    let teller = RoundTeller {
        rounds,
        picture: PictureTeller {
            plan,
            places,
            names: &plan.names,
        },
    };
    path_picture_with(alloc, &boxes, &teller, legal)
}

/// The plan, with a column of rounds.
fn plan_with_column(plan: Plan<'_>) -> Plan<'_>
    requires { plan.sheet.left ≤ 416 }
    ensures sheet { result.sheet ≡ with_column plan.entry.sheet }
    ensures names { result.names ≡ plan.entry.names }
    ensures rows { result.rows.items ≡ plan.entry.rows.items }
    ensures activities { result.activities ≡ plan.entry.activities }
{
    Plan {
        sheet: with_column(plan.sheet),
        names: plan.names,
        rows: plan.rows,
        activities: plan.activities,
    }
}

/// The picture of these steps of a run, with a column of rounds, and a line along a critical path. One that is too large isn't
/// drawn: a line says so, and it isn't whole.
#[tactic(auto, using(crate::proofs::PathLemmas::picture_is, crate::proofs::RoundLemmas::left_small))]
pub(crate) fn path_picture(
    alloc: Global,
    places: &Places<'_>,
    origins: &[UnitOrigins<'_>],
    shared: Option<&[&[u8]]>,
    ended: &Ended<'_>,
    window: Window,
) -> Result<Drawing, AllocError>
    requires { places.now.origins ≡ origins.now }
    ensures text { IfOk result (λ d. d.text.items ≡ path_picture_text places.now
        (option_map (λ l. map (λ x. x.now) l.now) shared.entry) window
        ended.now.module.now ended.now.log.items ended.now.core.world) }
    ensures whole { IfOk result (λ d. d.whole ≡ is_drawn window
        ended.now.module.now ended.now.log.items ended.now.core.world) }
{
    let legal = LegalRun::of(ended);
    match plan_for(alloc, places, origins, shared, &legal, window)? {
        Planned::Drawn(plan) => {
            let rounds = Rounds::of(alloc, ended)?;
            let plan = plan_with_column(plan);
            let text = path_picture_on(alloc, places, &rounds, &plan, &legal)?;
            Ok(Drawing { text, whole: true })
        }
        Planned::TooLarge(text) => Ok(Drawing { text, whole: false }),
    }
}

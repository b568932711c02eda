//! The whole picture.

ghost use Rattle.std.specs.Prelude.{◌≡◌, ◌++◌, length, map, option_map, None, Some, IfOk, OnOk};
ghost use Rattle.xk_show_events.specs.Events.{no_text, places_of};
ghost use Rattle.xk_show_events.specs.Worlds.{each_below};
ghost use Rattle.xk_show_picture.specs.Sheet.{sheet_of};
ghost use Rattle.xk_show_picture.specs.Picture.{IsPlanned, drawn_step, ending, fits, furniture, head, high, is_drawn, lane_head, names_for};
ghost use Rattle.xk_show_picture.specs.Picture.{named_picture_text, picture_end, picture_in, picture_text, rows_of_step, signs_of};
ghost use Rattle.xk_show_picture.specs.Shapes.{too_large};

use crate::bars::push_bars;
use crate::furniture::{legend, shapes, style};
use crate::layout::{is_shown, layout_of, named_layout_of};
use crate::lines::put;
use crate::rows::push_row;
use crate::shapes::{described, label, lane_title, svg_head, too_large, top};
use crate::sheet::{Sheet, middle, sheet_of, wide};
use crate::words::signs_of;
use std::alloc::{AllocError, Global};
use xk_core::Core;
use xk_show_events::{LegalRun, Places};
use xk_show_lanes::{Drawing, Grid, Window, grid_of, named_columns, title};
use xk_show_names::{Account, Names, Recount, recount_run};
use xk_unit_origins::UnitOrigins;

/// The most rows that are drawn.
const ROWS: usize = 2000;

/// The most activities.
const LANES: u32 = 64;

/// Adds the row of a step that led to the core, and those of its bars.
fn push_row_and_bars(
    alloc: Global,
    out: &mut Vec<u8>,
    core: &Core<'_>,
    teller: &PictureTeller<'_, '_>,
    account: &Account,
) -> Result<(), AllocError>
    ensures { OnOk result (out.new.items ≡ out.old.items ++ rows_of_step
        teller.now.plan.now.sheet teller.now.plan.now.rows.items
        teller.now.places.now teller.now.names.now
        core.now.module_run core.now.world account.now) }
{
    push_row(alloc, out, core, teller, account)?;
    push_bars(alloc, out, core, teller, account.step.act)
}

/// Tells of the steps that are shown, by their rows; by names where there are any.
#[derive(Drop)]
pub struct PictureTeller<'a, 't> {
    pub plan: &'a Plan<'t>,
    pub places: &'a Places<'t>,
    pub names: &'a Option<Names<'t>>,
}

impl Recount<u8> for PictureTeller<'_, '_> {
    ghost recount = { λ teller m v a. drawn_step teller.plan.now.sheet
        teller.plan.now.rows.items teller.places.now teller.names.now m v a };

    fn push(
        &self,
        alloc: Global,
        out: &mut Vec<u8>,
        core: &Core<'_>,
        account: &Account,
    ) -> Result<(), AllocError> {
        if is_shown(core, self.plan.sheet.window, account.step.event) {
            push_row_and_bars(alloc, out, core, self, account)?;
        }
        Ok(())
    }

    #[tactic(auto, using(xk_show_lanes::proofs::LaneLemmas::none_asked))]
    fn is_silent_after(&self, steps: u64) -> bool {
        self.plan.sheet.window.last <= steps
    }
}

/// Adds the titles of all lanes. Err where memory was refused.
pub fn push_titles(alloc: Global, out: &mut Vec<u8>, sheet: Sheet) -> Result<(), AllocError>
    ensures { OnOk result (out.new.items ≡ out.old.items
        ++ each_below (lane_head sheet) sheet.lanes) }
{
    for lane in 0..sheet.lanes {
        let words = title(alloc, lane)?;
        let text = lane_title(alloc, middle(sheet, lane), words.as_str())?;
        put(out, text.as_str())?;
    }
    Ok(())
}

/// How high the picture of so many rows is.
pub fn high(rows: usize) -> u64
    ensures { result ≡ high rows }
{
    top(rows.min(ROWS) as u32) + 16
}

/// Adds what stands in each picture. Err where memory was refused.
pub fn push_furniture(out: &mut Vec<u8>) -> Result<(), AllocError>
    ensures { OnOk result (out.new.items ≡ out.old.items ++ furniture) }
{
    put(out, style())?;
    put(out, shapes())?;
    put(out, legend())
}

/// Adds what stands above the first row.
#[tactic(auto, unfolding(crate::specs::Picture::head))]
fn push_head(
    alloc: Global,
    out: &mut Vec<u8>,
    sheet: Sheet,
    activities: u32,
    rows: usize,
) -> Result<(), AllocError>
    ensures { OnOk result (out.new.items ≡ out.old.items ++ head sheet activities rows) }
{
    let first = svg_head(alloc, wide(sheet), high(rows))?;
    let words = described(alloc, activities, rows)?;
    put(out, first.as_str())?;
    put(out, words.as_str())?;
    push_furniture(out)?;
    push_titles(alloc, out, sheet)
}

/// Adds what is told below so many rows of a run in which not all have ended.
fn push_ending(
    alloc: Global,
    out: &mut Vec<u8>,
    rows: usize,
    legal: &LegalRun<'_, '_>,
) -> Result<(), AllocError>
    ensures { OnOk result (out.new.items ≡ out.old.items
        ++ ending rows legal.now.core.now.world) }
{
    if legal.core.ended() {
        return Ok(());
    }
    let words = legal.ending(alloc)?;
    let text = label(alloc, 8, top(rows.min(ROWS) as u32) + 10, words.as_str())?;
    put(out, text.as_str())
}

/// How the picture of a run is drawn: where its columns stand, by which names things are told, if by any, the numbers of
/// its rows, and how many activities there were.
#[derive(Drop)]
pub struct Plan<'t> {
    pub sheet: Sheet,
    pub names: Option<Names<'t>>,
    pub rows: Vec<u64>,
    pub activities: u32,
}

impl Plan<'_> {
    /// Adds what stands before the first step. Err where memory was refused.
    pub fn push_front(&self, alloc: Global, out: &mut Vec<u8>) -> Result<(), AllocError>
        ensures { OnOk result (out.new.items ≡ out.old.items
            ++ head self.now.sheet self.now.activities (length self.now.rows.items)) }
    {
        push_head(alloc, out, self.sheet, self.activities, self.rows.len())
    }

    /// Adds what stands behind the last one. Err where memory was refused.
    pub fn push_end(
        &self,
        alloc: Global,
        out: &mut Vec<u8>,
        legal: &LegalRun<'_, '_>,
    ) -> Result<(), AllocError>
        ensures { OnOk result (out.new.items ≡ out.old.items
            ++ picture_end (length self.now.rows.items) legal.now.core.now.world) }
    {
        push_ending(alloc, out, self.rows.len(), legal)?;
        put(out, "</svg>\n")
    }
}

/// The plan of a picture, or the line that is told in its place.
#[derive(Drop)]
pub enum Planned<'t> {
    Drawn(Plan<'t>),
    TooLarge(Vec<u8>),
}

/// Whether there are no more rows and activities than are drawn.
fn fits(rows: &[u64], activities: u32) -> bool
    ensures { result ≡ fits (length rows.now) activities }
{
    rows.len() <= ROWS && activities <= LANES
}

/// The plan of a picture in these columns, by these names, if there are any, and with these rows.
fn plan_in<'t>(
    alloc: Global,
    grid: Grid,
    names: Option<Names<'t>>,
    rows: Vec<u64>,
    legal: &LegalRun<'_, '_>,
) -> Result<Plan<'t>, AllocError>
    ensures sheet { IfOk result (λ p. p.sheet ≡ sheet_of grid
        (signs_of names.entry (length legal.now.core.now.world.clocks))
        (length legal.now.core.now.world.clocks)) }
    ensures names { IfOk result (λ p. p.names ≡ names.entry) }
    ensures rows { IfOk result (λ p. p.rows.items ≡ rows.items) }
    ensures activities { IfOk result (λ p.
        p.activities ≡ length legal.now.core.now.world.activities) }
{
    let clocks = legal.core.clocks();
    let signs = signs_of(alloc, &names, clocks)?;
    Ok(Plan {
        sheet: sheet_of(grid, signs, clocks),
        names,
        rows,
        activities: legal.core.activities(),
    })
}

/// The line that is told in the place of a picture with these rows.
fn line_for(alloc: Global, rows: &[u64], legal: &LegalRun<'_, '_>) -> Result<Vec<u8>, AllocError>
    ensures { IfOk result (λ v. v.items
        ≡ too_large (length rows.now) (length legal.now.core.now.world.activities)) }
{
    let told = too_large(alloc, rows.len(), legal.core.activities())?;
    Ok(told.into_bytes())
}

/// How the picture of these steps of a source text's module is drawn, if it is.
#[tactic(auto, using(crate::proofs::PlanLemmas::sheet_named))]
fn named_plan<'t>(
    alloc: Global,
    places: &Places<'_>,
    origins: &[UnitOrigins<'_>],
    shared: &'t [&'t [u8]],
    legal: &LegalRun<'_, '_>,
    window: Window,
) -> Result<Planned<'t>, AllocError>
    requires { places.now.origins ≡ origins.now }
    ensures { IfOk result (IsPlanned places.now
        (names_for places.now (Some (map (λ x. x.now) shared.now)) window
        legal.now.module.now legal.now.log.now legal.now.core.now.world)
        window legal.now.module.now legal.now.log.now legal.now.core.now.world) }
{
    let layout = named_layout_of(alloc, legal, window)?;
    if !fits(&layout.rows, legal.core.activities()) {
        return Ok(Planned::TooLarge(line_for(alloc, &layout.rows, legal)?));
    }
    let columns = named_columns(alloc, places, origins, shared, legal, window, layout.kept)?;
    let plan = plan_in(alloc, columns.grid, Some(columns.names), layout.rows, legal)?;
    Ok(Planned::Drawn(plan))
}

/// How the picture of these steps of a module is drawn, if it is.
fn module_plan<'t>(
    alloc: Global,
    places: &Places<'_>,
    legal: &LegalRun<'_, '_>,
    window: Window,
) -> Result<Planned<'t>, AllocError>
    ensures { IfOk result (IsPlanned places.now None window
        legal.now.module.now legal.now.log.now legal.now.core.now.world) }
{
    let layout = layout_of(alloc, legal, window)?;
    let activities = legal.core.activities();
    if !fits(&layout.rows, activities) {
        return Ok(Planned::TooLarge(line_for(alloc, &layout.rows, legal)?));
    }
    let grid = grid_of(alloc, places, window, &layout.steps, activities)?;
    let plan = plan_in(alloc, grid, None, layout.rows, legal)?;
    Ok(Planned::Drawn(plan))
}

/// How the picture of these steps of a run is drawn, if it is: with names, where those of the shared numbers are known.
/// Err where memory was refused.
pub fn plan_for<'t>(
    alloc: Global,
    places: &Places<'_>,
    origins: &[UnitOrigins<'_>],
    shared: Option<&'t [&'t [u8]]>,
    legal: &LegalRun<'_, '_>,
    window: Window,
) -> Result<Planned<'t>, AllocError>
    requires { places.now.origins ≡ origins.now }
    ensures { IfOk result (IsPlanned places.now
        (names_for places.now (option_map (λ l. map (λ x. x.now) l.now) shared.entry) window
        legal.now.module.now legal.now.log.now legal.now.core.now.world)
        window legal.now.module.now legal.now.log.now legal.now.core.now.world) }
{
    match shared {
        Some(known) => named_plan(alloc, places, origins, known, legal, window),
        None => module_plan(alloc, places, legal, window),
    }
}

/// The picture of a run.
fn picture_in(
    alloc: Global,
    teller: &PictureTeller<'_, '_>,
    legal: &LegalRun<'_, '_>,
) -> Result<Vec<u8>, AllocError>
    requires { teller.now.plan.now.activities ≡ length legal.now.core.now.world.activities }
    ensures { IfOk result (λ v. v.items ≡ picture_in teller.now.plan.now.sheet
        teller.now.plan.now.rows.items teller.now.places.now teller.now.names.now
        legal.now.module.now legal.now.log.now legal.now.core.now.world) }
{
    let mut out = Vec::new(alloc);
    teller.plan.push_front(alloc, &mut out)?;
    recount_run(teller, alloc, &mut out, legal)?;
    teller.plan.push_end(alloc, &mut out, legal)?;
    Ok(out)
}

/// The picture of these steps of a run.
fn picture(
    alloc: Global,
    places: &Places<'_>,
    origins: &[UnitOrigins<'_>],
    shared: Option<&[&[u8]]>,
    legal: &LegalRun<'_, '_>,
    window: Window,
) -> Result<Drawing, AllocError>
    requires { places.now.origins ≡ origins.now }
    ensures text { IfOk result (λ d. d.text.items ≡ picture_text places.now
        (names_for places.now (option_map (λ l. map (λ x. x.now) l.now) shared.entry) window
        legal.now.module.now legal.now.log.now legal.now.core.now.world)
        window legal.now.module.now legal.now.log.now legal.now.core.now.world) }
    ensures whole { IfOk result (λ d. d.whole ≡ is_drawn window
        legal.now.module.now legal.now.log.now legal.now.core.now.world) }
{
    match plan_for(alloc, places, origins, shared, legal, window)? {
        Planned::Drawn(plan) => {
            let teller = PictureTeller {
                plan: &plan,
                places,
                names: &plan.names,
            };
            let text = picture_in(alloc, &teller, legal)?;
            Ok(Drawing { text, whole: true })
        }
        Planned::TooLarge(text) => Ok(Drawing { text, whole: false }),
    }
}

/// The picture of these steps of a run of a source text's module, in SVG: a column for each activity, and from the top
/// a row for each step that others can see, and for each advance of a clock. What was read, written or added to is told
/// by the shared number's name, which is given, with what it was then; and clocks by the names that they were made under.
/// One of more than 2,000 rows or 64 activities isn't drawn: a line says so, and it isn't whole. Err where memory was
/// refused.
pub fn source_picture(
    alloc: Global,
    text: &[u8],
    origins: &[UnitOrigins<'_>],
    shared: &[&[u8]],
    legal: &LegalRun<'_, '_>,
    window: Window,
) -> Result<Drawing, AllocError>
    ensures text { IfOk result (λ d. d.text.items ≡ named_picture_text
        (places_of text.now origins.now) (map (λ x. x.now) shared.now) window
        legal.now.module.now legal.now.log.now legal.now.core.now.world) }
    ensures whole { IfOk result (λ d. d.whole ≡ is_drawn window
        legal.now.module.now legal.now.log.now legal.now.core.now.world) }
{
    let places = Places::of_source(alloc, text, origins)?;
    picture(alloc, &places, origins, Some(shared), legal, window)
}

/// The same of a module without a text, with the unit and place of each step, and with the numbers of what it was about.
/// Err where memory was refused.
pub fn module_picture(
    alloc: Global,
    legal: &LegalRun<'_, '_>,
    window: Window,
) -> Result<Drawing, AllocError>
    ensures text { IfOk result (λ d. d.text.items ≡ picture_text no_text None window
        legal.now.module.now legal.now.log.now legal.now.core.now.world) }
    ensures whole { IfOk result (λ d. d.whole ≡ is_drawn window
        legal.now.module.now legal.now.log.now legal.now.core.now.world) }
{
    let places = Places::of_module(alloc)?;
    picture(alloc, &places, &[], None, legal, window)
}

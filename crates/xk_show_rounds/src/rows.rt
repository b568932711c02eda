//! Head and rows. Rounds one after another in which the same stands have one row.

ghost use Rattle.std.specs.Prelude.{◌≡◌, ℕ, suc, ◌-◌, ◌++◌, IfOk, OnOk, string_bytes};
ghost use Rattle.std.specs.Str.{bytes_eq};
ghost use Rattle.xk_show_events.specs.Worlds.{each_below};
ghost use Rattle.xk_show_lanes.specs.Fields.{at_left};
ghost use Rattle.xk_show_lanes.specs.Lanes.{title};
ghost use Rattle.xk_show_rounds.specs.RoundRows.{head, head_and_rows, label, line, row, rows_from, rows_of, shown_at, wide};

use crate::cells::{push_at_left, shown};
use crate::table::{Round, steps_at, table_of};
use std::alloc::{AllocError, Global};
use std::mem;
use xk_show_lanes::{Grid, push_at_right, push_line, push_text, title};
use xk_show_names::{Account, Names};
use xk_show_path::Rounds;

/// The rounds of a run, by whose names their steps are told, and where what they did stands.
#[derive(Drop)]
struct Sheet<'a, 't> {
    table: &'a [Round],
    names: &'a Option<Names<'t>>,
    grid: Grid,
    width: usize,
}

/// Rounds one after another in which the same stands, and what.
#[derive(Drop)]
struct Stretch {
    first: usize,
    last: usize,
    shown: Vec<u8>,
}

/// What stands in the row of round k.
fn shown_in(alloc: Global, sheet: &Sheet<'_, '_>, k: usize) -> Result<Vec<u8>, AllocError>
    ensures { IfOk result (λ v. v.items
        ≡ shown_at sheet.now.grid sheet.now.names.now sheet.now.table.now k) }
{
    shown(alloc, sheet.grid, sheet.names, steps_at(sheet.table, k))
}

/// Adds a line by what stands in its first column, at the right, and behind that.
#[tactic(auto, unfolding(crate::specs::RoundRows::line))]
fn push_fields(
    alloc: Global,
    out: &mut Vec<u8>,
    width: usize,
    first: &[u8],
    behind: &[u8],
) -> Result<(), AllocError>
    ensures { OnOk result (out.new.items ≡ out.old.items ++ line width first.now behind.now) }
{
    let mut line = Vec::new(alloc);
    push_at_right(&mut line, width, first)?;
    push_text(&mut line, "  ")?;
    line.extend_from_slice(behind)?;
    push_line(out, &line)
}

/// `43`; `9 to 42`.
fn label(alloc: Global, first: usize, last: usize) -> Result<String, AllocError>
    ensures { IfOk result (λ text. string_bytes text ≡ label first last) }
{
    if first == last {
        return format!(in alloc; "{first}");
    }
    format!(in alloc; "{first} to {last}")
}

/// Adds the row of a stretch.
fn push_row(
    alloc: Global,
    out: &mut Vec<u8>,
    width: usize,
    stretch: &Stretch,
) -> Result<(), AllocError>
    ensures { OnOk result (out.new.items ≡ out.old.items
        ++ line width (label stretch.now.first stretch.now.last) stretch.now.shown.items) }
{
    let label = label(alloc, stretch.first, stretch.last)?;
    push_fields(alloc, out, width, label.as_bytes(), &stretch.shown)
}

/// Whether the same stands there.
fn is_same(a: &[u8], b: &[u8]) -> bool
    ensures { result ≡ bytes_eq a.now b.now }
{
    a == b
}

/// Goes on to the next round: the stretch has it, too, where the same stands there; else its row is added, and another
/// stretch begins.
#[tactic(auto, using(crate::proofs::RowLemmas::same_goes_on, crate::proofs::RowLemmas::other_begins))]
fn go_on(
    alloc: Global,
    out: &mut Vec<u8>,
    sheet: &Sheet<'_, '_>,
    stretch: &mut Stretch,
    next: usize,
) -> Result<(), AllocError>
    requires shown { stretch.old.shown.items ≡ shown_at sheet.now.grid sheet.now.names.now
        sheet.now.table.now stretch.old.first }
    requires next { next ≡ suc stretch.old.last }
    ensures shown { OnOk result (stretch.new.shown.items ≡ shown_at sheet.now.grid
        sheet.now.names.now sheet.now.table.now stretch.new.first) }
    ensures last { OnOk result (stretch.new.last ≡ next) }
    ensures rows { OnOk result ((more : ℕ) → out.new.items ++ rows_from more sheet.now.width
        (shown_at sheet.now.grid sheet.now.names.now sheet.now.table.now) stretch.new.first next
        ≡ out.old.items ++ rows_from (suc more) sheet.now.width (shown_at sheet.now.grid
        sheet.now.names.now sheet.now.table.now) stretch.old.first stretch.old.last) }
{
    let shown = shown_in(alloc, sheet, next)?;
    if is_same(&stretch.shown, &shown) {
        stretch.last = next;
        return Ok(());
    }
    push_row(alloc, out, sheet.width, stretch)?;
    stretch.first = next;
    stretch.last = next;
    drop(mem::replace(&mut stretch.shown, shown));
    Ok(())
}

/// Goes on from round 1 to the last of so many rounds.
fn go_through(
    alloc: Global,
    out: &mut Vec<u8>,
    sheet: &Sheet<'_, '_>,
    stretch: &mut Stretch,
    rounds: usize,
) -> Result<(), AllocError>
    requires shown { stretch.old.shown.items ≡ shown_at sheet.now.grid sheet.now.names.now
        sheet.now.table.now stretch.old.first }
    requires last { stretch.old.last ≡ 1 }
    ensures shown { OnOk result (stretch.new.shown.items ≡ shown_at sheet.now.grid
        sheet.now.names.now sheet.now.table.now stretch.new.first) }
    ensures rows { OnOk result (out.new.items ++ row sheet.now.width
        (shown_at sheet.now.grid sheet.now.names.now sheet.now.table.now)
        stretch.new.first stretch.new.last
        ≡ out.old.items ++ rows_from (rounds - 1) sheet.now.width (shown_at sheet.now.grid
        sheet.now.names.now sheet.now.table.now) stretch.old.first 1) }
{
    for last in 1..rounds {
        go_on(alloc, out, sheet, stretch, last + 1)?;
    }
    Ok(())
}

/// Adds the rows of so many rounds.
#[tactic(auto, using(crate::proofs::RowLemmas::rows_end))]
fn push_rows(
    alloc: Global,
    out: &mut Vec<u8>,
    sheet: &Sheet<'_, '_>,
    rounds: usize,
) -> Result<(), AllocError>
    ensures { OnOk result (out.new.items ≡ out.old.items ++ rows_of rounds sheet.now.width
        (shown_at sheet.now.grid sheet.now.names.now sheet.now.table.now)) }
{
    let mut stretch = Stretch {
        first: 1,
        last: 1,
        shown: shown_in(alloc, sheet, 1)?,
    };
    go_through(alloc, out, sheet, &mut stretch, rounds)?;
    push_row(alloc, out, sheet.width, &stretch)
}

/// Adds a lane's title.
fn push_title(alloc: Global, out: &mut Vec<u8>, grid: Grid, lane: u32) -> Result<(), AllocError>
    ensures { OnOk result (out.new.items ≡ out.old.items ++ at_left grid.lane (title lane)) }
{
    let title = title(alloc, lane)?;
    push_at_left(out, grid.lane, title.as_bytes())
}

/// The titles of all lanes.
fn titles(alloc: Global, grid: Grid) -> Result<Vec<u8>, AllocError>
    ensures { IfOk result (λ v. v.items
        ≡ each_below (λ b. at_left grid.lane (title b)) grid.lanes) }
{
    let mut titles = Vec::new(alloc);
    for lane in 0..grid.lanes {
        push_title(alloc, &mut titles, grid, lane)?;
    }
    Ok(titles)
}

/// Adds the head: ` round  main    act 1`.
fn push_head(alloc: Global, out: &mut Vec<u8>, width: usize, grid: Grid) -> Result<(), AllocError>
    ensures { OnOk result (out.new.items ≡ out.old.items ++ head width grid) }
{
    let titles = titles(alloc, grid)?;
    push_fields(alloc, out, width, b"round", &titles)
}

/// How wide the first column is, for so many rounds.
fn wide(alloc: Global, rounds: usize) -> Result<usize, AllocError>
    ensures { IfOk result (λ n. n ≡ wide rounds) }
{
    let widest = format!(in alloc; "{rounds} to {rounds}")?;
    Ok(widest.len().max(6))
}

/// Head and rows of so many rounds.
fn drawn(
    alloc: Global,
    table: &[Round],
    names: &Option<Names<'_>>,
    grid: Grid,
    rounds: usize,
) -> Result<Vec<u8>, AllocError>
    ensures { IfOk result (λ v. v.items ≡ head (wide rounds) grid
        ++ rows_of rounds (wide rounds) (shown_at grid names.now table.now)) }
{
    let width = wide(alloc, rounds)?;
    let sheet = Sheet {
        table,
        names,
        grid,
        width,
    };
    let mut out = Vec::new(alloc);
    push_head(alloc, &mut out, width, grid)?;
    push_rows(alloc, &mut out, &sheet, rounds)?;
    Ok(out)
}

/// Head and rows of a run with these steps, by these rounds.
#[tactic(auto, using(crate::proofs::RowLemmas::rows_by_rounds))]
pub(crate) fn head_and_rows(
    alloc: Global,
    rounds: &Rounds,
    grid: Grid,
    names: &Option<Names<'_>>,
    steps: &[Account],
) -> Result<Vec<u8>, AllocError>
    ensures { IfOk result (λ v. v.items
        ≡ head_and_rows rounds.now grid names.now steps.now) }
{
    let table = table_of(alloc, rounds, steps)?;
    drawn(alloc, &table, names, grid, rounds.path().len())
}

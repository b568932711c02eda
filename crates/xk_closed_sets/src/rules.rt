//! Whether tables have all that may be carried out.

ghost use Rattle.std.specs.Prelude.{◌≡◌, ◌<◌, ◌≤◌, ◌^◌, ◌+◌, ℕ, IsTrue, [], Some, length, slice_get, slice_index_or};
ghost use Rattle.xk_types.specs.Code.{UnitValue};
ghost use Rattle.xk_closed_sets.specs.Footprint.{Covers};
ghost use Rattle.xk_closed_sets.specs.Places.{AreClosed, HasOwn, HasRun, HasThere, IsClosedAt, IsClosedIn, leads, reach_at};

use crate::instructions::{is_advance, leads};
use crate::places::{Reach, Row, reach_at};
use xk_types::{Instr, Unit};

/// Whether it has the instruction itself, and in `rest` all that is in `phase`.
fn has_own(here: &Reach, instr: &Instr) -> bool
    ensures { IsTrue result → HasOwn here.now instr.now }
{
    here.rest.has(instr) && here.phase.has(instr) && here.rest.covers(&here.phase)
}

/// Whether it has what there is at a place to which the instruction goes.
fn has_there(here: &Reach, there: &Reach, instr: &Instr) -> bool
    ensures { IsTrue result → HasThere here.now there.now instr.now }
{
    if !here.rest.covers(&there.rest) {
        return false;
    }
    is_advance(instr) || here.phase.covers(&there.phase)
}

/// Whether it has what there is where the instruction goes but to the next.
fn has_led(rows: &[Row], unit: usize, here: &Reach, instr: &Instr) -> bool
    ensures { IsTrue result → (q : ℕ) → leads instr.now ≡ Some q
        → HasThere here.now (reach_at rows.now unit q) instr.now }
{
    match leads(instr) {
        Some(place) => has_there(here, &reach_at(rows, unit, place), instr),
        None => true,
    }
}

/// Whether it has what a unit does that is called, and all behind the call.
fn has_call(here: &Reach, callee: &Reach, behind: &Reach) -> bool
    ensures rest { IsTrue result → Covers here.now.rest callee.now.rest }
    ensures phase { IsTrue result → Covers here.now.phase callee.now.phase }
    ensures behind { IsTrue result → Covers here.now.phase behind.now.rest }
{
    here.rest.covers(&callee.rest)
        && here.phase.covers(&callee.phase)
        && here.phase.covers(&behind.rest)
}

/// Whether it has what a unit does that is started.
fn has_start(here: &Reach, started: &Reach) -> bool
    ensures rest { IsTrue result → Covers here.now.rest started.now.rest }
    ensures phase { IsTrue result → Covers here.now.phase started.now.rest }
{
    here.rest.covers(&started.rest) && here.phase.covers(&started.rest)
}

/// Whether it has what the unit does that the instruction calls or starts.
fn has_run(rows: &[Row], here: &Reach, behind: &Reach, instr: &Instr) -> bool
    ensures { IsTrue result → HasRun rows.now here.now behind.now instr.now }
{
    match instr {
        Instr::Call { unit, .. } => has_call(here, &reach_at(rows, *unit as usize, 0), behind),
        Instr::Spawn { unit, .. } => has_start(here, &reach_at(rows, *unit as usize, 0)),
        _ => true,
    }
}

/// Whether the tables have all that may be carried out from this place on, if they have it of others.
fn is_closed_at(rows: &[Row], unit: usize, place: usize, instr: &Instr) -> bool
    requires { place + 1 < 2 ^ 64 }
    ensures { IsTrue result → IsClosedAt rows.now unit place instr.now }
{
    let here = reach_at(rows, unit, place);
    let behind = reach_at(rows, unit, place + 1);
    has_own(&here, instr)
        && has_there(&here, &behind, instr)
        && has_led(rows, unit, &here, instr)
        && has_run(rows, &here, &behind, instr)
}

/// Whether the row of the unit has no place more than the code.
fn is_short(rows: &[Row], unit: usize, code: &[Instr]) -> bool
    ensures { IsTrue result → length (slice_index_or rows.now unit []) ≤ length code.now }
{
    match rows.get(unit) {
        Some(row) => row.places.len() <= code.len(),
        None => true,
    }
}

/// Whether they have it of each place of the code.
fn is_closed_in(rows: &[Row], unit: usize, code: &[Instr]) -> bool
    ensures { IsTrue result → IsClosedIn rows.now unit code.now }
{
    for place in 0..code.len() {
        if !is_closed_at(rows, unit, place, &code[place]) {
            return false;
        }
    }
    is_short(rows, unit, code)
}

/// Whether they have it of each place of the unit, if there is one of this number.
fn is_unit_closed(rows: &[Row], units: &[Unit], unit: usize) -> bool
    ensures { IsTrue result → (x : UnitValue) → slice_get units.now unit ≡ Some x
        → IsClosedIn rows.now unit x.code }
{
    match units.get(unit) {
        Some(of_unit) => is_closed_in(rows, unit, &of_unit.code),
        None => true,
    }
}

/// Whether they have it of each place of each unit.
pub(crate) fn are_closed(rows: &[Row], units: &[Unit]) -> bool
    ensures { IsTrue result → AreClosed rows.now units.now }
{
    for unit in 0..units.len() {
        if !is_unit_closed(rows, units, unit) {
            return false;
        }
    }
    rows.len() <= units.len()
}

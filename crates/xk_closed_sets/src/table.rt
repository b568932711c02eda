//! Tables of what may be carried out from each place on: passes backwards over each unit, until nothing changes.

use crate::footprint::Footprint;
use crate::instructions::{is_advance, leads};
use crate::places::{Reach, Row, reach_at};
use std::alloc::{AllocError, Global};
use xk_types::{Instr, Unit};

/// With more places, no table is made.
const MOST_PLACES: usize = 100_000;

/// Joined with what there is where the instruction goes.
fn with_there(here: &Reach, there: &Reach, instr: &Instr) -> Reach {
    let phase = if is_advance(instr) {
        here.phase
    } else {
        here.phase.joined(&there.phase)
    };
    Reach {
        rest: here.rest.joined(&there.rest),
        phase,
    }
}

/// Joined with what the unit does that the instruction calls or starts.
fn with_run(rows: &[Row], here: &Reach, behind: &Reach, instr: &Instr) -> Reach {
    match instr {
        Instr::Call { unit, .. } => {
            let callee = reach_at(rows, *unit as usize, 0);
            let phase = here.phase.joined(&callee.phase);
            Reach {
                rest: here.rest.joined(&callee.rest),
                phase: phase.joined(&behind.rest),
            }
        }
        Instr::Spawn { unit, .. } => {
            let started = reach_at(rows, *unit as usize, 0);
            Reach {
                rest: here.rest.joined(&started.rest),
                phase: here.phase.joined(&started.rest),
            }
        }
        _ => *here,
    }
}

/// What may be carried out from a place on, by what is known of other places.
fn reckoned(rows: &[Row], unit: usize, place: usize, instr: &Instr) -> Reach {
    let own = Footprint::of(instr);
    let own = Reach {
        rest: own,
        phase: own,
    };
    let behind = reach_at(rows, unit, place.saturating_add(1));
    let mut here = with_there(&own, &behind, instr);
    if let Some(led) = leads(instr) {
        here = with_there(&here, &reach_at(rows, unit, led), instr);
    }
    with_run(rows, &here, &behind, instr)
}

/// Writes what may be carried out from a place on, and returns whether it was something else.
fn is_changed(rows: &mut [Row], unit: usize, place: usize, reach: Reach) -> bool {
    let Some(row) = rows.get_mut(unit) else {
        return false;
    };
    let Some(here) = row.places.get_mut(place) else {
        return false;
    };
    let changed = *here != reach;
    *here = reach;
    changed
}

/// One pass backwards over a unit, and whether something changed.
fn pass(rows: &mut [Row], unit: usize, code: &[Instr]) -> bool {
    let mut changed = false;
    for place in (0..code.len()).rev() {
        let reach = reckoned(rows, unit, place, &code[place]);
        if is_changed(rows, unit, place, reach) {
            changed = true;
        }
    }
    changed
}

/// Passes over a unit, until nothing changes.
fn settle(rows: &mut [Row], unit: usize, code: &[Instr]) {
    for turn in 0..code.len() {
        if !pass(rows, unit, code) {
            return;
        }
    }
}

/// A row for each unit, with nothing in it.
fn empty_rows(alloc: Global, units: &[Unit]) -> Result<Vec<Row>, AllocError> {
    let mut rows = Vec::with_capacity(alloc, units.len())?;
    for unit in units {
        let places = vec![in alloc; Reach::nowhere(); unit.code.len()]?;
        rows.push(Row { places })?;
    }
    Ok(rows)
}

/// How many places there are.
fn places(units: &[Unit]) -> usize {
    let mut count: usize = 0;
    for unit in units {
        count = count.saturating_add(unit.code.len());
    }
    count
}

/// What may be carried out from each place of each unit on, the greatest unit first, since calls and starts go to greater ones. Nothing
/// where there are too many places.
pub(crate) fn rows_of(alloc: Global, units: &[Unit]) -> Result<Vec<Row>, AllocError> {
    if places(units) > MOST_PLACES {
        return Ok(Vec::new(alloc));
    }
    let mut rows = empty_rows(alloc, units)?;
    for unit in (0..units.len()).rev() {
        let of_unit = &units[unit];
        settle(&mut rows, unit, &of_unit.code);
    }
    Ok(rows)
}

//! Whether a table has all slots that are live.

ghost use Rattle.std.specs.Prelude.{◌≡◌, ◌<◌, ◌+◌, ◌^◌, ℕ, IsTrue, Some, slice_get};
ghost use Rattle.xk_types.specs.Code.{UnitValue};
ghost use Rattle.xk_liveness.specs.Liveness.{IsLiveness};
ghost use Rattle.xk_live_slots.specs.LiveSlots.{HasBefore, HasLiveIn, live_in};

use crate::before::is_live_before;
use crate::rows::{Row, is_live};
use xk_types::{Instr, Module};

/// Whether each slot that is live before the instruction at a place is in the table.
fn has_before(program: &Module, rows: &[Row], unit: usize, place: usize, instr: &Instr) -> bool
    requires { place + 1 < 2 ^ 64 }
    ensures { IsTrue result → HasBefore program.now (live_in rows.now) unit place instr.now }
{
    for slot in 0..64 {
        if is_live_before(program, rows, unit, place, instr, slot)
            && !is_live(rows, unit, place, slot)
        {
            return false;
        }
    }
    true
}

/// The same of each instruction of the code.
fn has_live_in(program: &Module, rows: &[Row], unit: usize, code: &[Instr]) -> bool
    ensures { IsTrue result → HasLiveIn program.now (live_in rows.now) unit code.now }
{
    for place in 0..code.len() {
        if !has_before(program, rows, unit, place, &code[place]) {
            return false;
        }
    }
    true
}

/// The same of the unit of this number, if there is one.
fn has_live_of(program: &Module, rows: &[Row], unit: usize) -> bool
    ensures { IsTrue result → (x : UnitValue) → slice_get program.now.units unit ≡ Some x
        → HasLiveIn program.now (live_in rows.now) unit x.code }
{
    match program.units().get(unit) {
        Some(of_unit) => has_live_in(program, rows, unit, &of_unit.code),
        None => true,
    }
}

/// Whether each slot that is live before an instruction is in the table.
pub(crate) fn is_liveness(program: &Module, rows: &[Row]) -> bool
    ensures { IsTrue result → IsLiveness program.now (live_in rows.now) }
{
    for unit in 0..program.units().len() {
        if !has_live_of(program, rows, unit) {
            return false;
        }
    }
    true
}

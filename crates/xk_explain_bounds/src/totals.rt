//! What each unit of a module comes to.

ghost use Rattle.std.specs.Prelude.{◌≡◌, ◌≤◌, true, length, slice_index, IfOk};
ghost use Rattle.std.specs.List.{list_all};
ghost use Rattle.std.specs.Option.{option_map_or};
ghost use Rattle.xk_types.specs.Code.{unit_run};
ghost use Rattle.xk_bounds.specs.Measure.{added, added_by};
ghost use Rattle.xk_bounds.specs.Rooms.{called_by, most_called};
ghost use Rattle.xk_explain_bounds.specs.Amounts.{comes_to_by, goes_up, goes_up_only, kept, weight_of, AreTotals, AreVisits};

use crate::amounts;
use crate::remark::Subject;
use crate::visits::visits;
use std::alloc::{AllocError, Global};
use xk_types::{Instr, Module, Unit};

/// Whether what the instruction of a unit calls or starts has a greater number.
fn goes_up(unit: u16, instr: &Instr) -> bool
    ensures { result ≡ goes_up unit instr.now }
{
    match instr {
        Instr::Call { unit: run, .. } | Instr::Spawn { unit: run, .. } => unit < *run,
        _ => true,
    }
}

/// Whether all that a unit calls or starts has a greater number.
fn unit_goes_up(unit: u16, u: &Unit) -> bool
    ensures { result ≡ list_all (goes_up unit) u.now.code }
{
    u.code.iter().all(|instr| goes_up(unit, instr))
}

/// Whether each unit runs only such of greater number.
pub(crate) fn goes_up_only(m: &Module) -> bool
    ensures { result ≡ goes_up_only m.now }
{
    for (unit, u) in m.units().iter().enumerate() {
        if !unit_goes_up(unit as u16, u) {
            return false;
        }
    }
    true
}

/// What an instruction adds itself.
fn weight(subject: Subject, instr: &Instr) -> u64
    ensures { result ≡ weight_of subject instr.now }
{
    match subject {
        Subject::Steps => match instr {
            Instr::Advance => 2,
            _ => 1,
        },
        Subject::Activities => match instr {
            Instr::Spawn { .. } => 1,
            _ => 0,
        },
        Subject::Clocks => match instr {
            Instr::Make(_) => 1,
            _ => 0,
        },
        Subject::Stack | Subject::Accepted => 0,
    }
}

/// What the table says of the unit that an instruction calls or starts.
fn run_by(table: &[u64], instr: &Instr) -> u64
    ensures { result ≡ option_map_or (slice_index table.now) (unit_run instr.now) 0 }
{
    match instr {
        Instr::Call { unit, .. } | Instr::Spawn { unit, .. } => {
            table.get(*unit as usize).copied().unwrap_or(0)
        }
        _ => 0,
    }
}

/// What an instruction adds each time, with the unit that it calls or starts.
fn once(subject: Subject, table: &[u64], instr: &Instr) -> u64
    ensures { result ≡ kept (added (weight_of subject) (slice_index table.now) instr.now) }
{
    amounts::sum(weight(subject, instr), run_by(table, instr))
}

/// What a unit comes to, whose instructions are carried out so often.
fn sum_by(subject: Subject, table: &[u64], u: &Unit, counts: &[u64]) -> u64
    requires { AreVisits u.now counts.now }
    ensures { result ≡ kept (added_by (weight_of subject) (slice_index table.now) u.now) }
{
    let mut sum = 0;
    for (at, instr) in u.code.iter().enumerate() {
        let added = amounts::product(counts[at], once(subject, table, instr));
        sum = amounts::sum(sum, added);
    }
    sum
}

/// What the table says of the unit that an instruction calls.
fn called_by(table: &[u64], instr: &Instr) -> u64
    ensures { result ≡ called_by (slice_index table.now) instr.now }
{
    match instr {
        Instr::Call { unit, .. } => table.get(*unit as usize).copied().unwrap_or(0),
        _ => 0,
    }
}

/// The most that the table says of the units that a unit calls.
fn most_called(table: &[u64], u: &Unit) -> u64
    ensures { result ≡ most_called (slice_index table.now) u.now.code }
{
    let mut most = 0;
    for instr in &u.code {
        most = u64::max(most, called_by(table, instr));
    }
    most
}

/// What a unit comes to, where the table says it of those that it calls or starts.
fn total_by(alloc: Global, subject: Subject, table: &[u64], u: &Unit) -> Result<u64, AllocError>
    requires { length u.now.code ≤ 4096 }
    ensures { IfOk result
        (λ n. n ≡ kept (comes_to_by subject (slice_index table.now) u.now)) }
{
    match subject {
        Subject::Stack => Ok(amounts::sum(u64::from(u.slots), most_called(table, u))),
        Subject::Accepted => Ok(0),
        Subject::Steps | Subject::Activities | Subject::Clocks => {
            let counts = visits(alloc, u)?;
            Ok(sum_by(subject, table, u, &counts))
        }
    }
}

/// What each unit comes to. A unit runs only such of greater number, so that the table is filled from the last one on.
pub(crate) fn totals(alloc: Global, subject: Subject, m: &Module) -> Result<Vec<u64>, AllocError>
    requires { goes_up_only m.now ≡ true }
    ensures { IfOk result (λ v. AreTotals subject m.now v.items) }
{
    let units = m.units();
    let mut table = vec![in alloc; 0; units.len()]?;
    for unit in (0..units.len()).rev() {
        let total = total_by(alloc, subject, &table, &units[unit])?;
        table[unit] = total;
    }
    Ok(table)
}

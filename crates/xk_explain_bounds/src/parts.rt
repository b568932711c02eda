//! The sums of a program by their parts.

ghost use Rattle.std.specs.Prelude.{◌≡◌, ◌++◌, ◌≤◌, ℕ, None, Some, length, IfOk, OnOk, if◌then◌else◌};
ghost use Rattle.std.specs.Option.{option_map_or};
ghost use Rattle.xk_types.specs.Bound.{visits};
ghost use Rattle.xk_types.specs.Code.{begun_from, loop_begun};
ghost use Rattle.xk_explain_bounds.specs.Amounts.{kept, AreTotals};
ghost use Rattle.xk_explain_bounds.specs.Parts.{loop_fact, part, part_at, remarks_from, subject_of, sum_remarks, tells_call, tells_loop};
ghost use Rattle.xk_explain_bounds.specs.Parts.{tells_make, tells_start, whole, whole_remark};

use crate::amounts;
use crate::remark::{Fact, Remark, Subject};
use crate::totals::{goes_up_only, totals};
use crate::visits::{Loop, loop_begun, visits};
use std::alloc::{AllocError, Global};
use xk_types::{Instr, Module, Rule, Unit};

/// Whether loops that take so many turns are told.
fn tells_loop(subject: Subject, l: &Loop) -> bool
    ensures { result ≡ tells_loop subject l.now }
{
    match subject {
        Subject::Stack => false,
        Subject::Accepted => l.turns() > 1,
        Subject::Steps | Subject::Activities | Subject::Clocks => true,
    }
}

/// Whether calls are told.
fn tells_call(subject: Subject) -> bool
    ensures { result ≡ tells_call subject }
{
    match subject {
        Subject::Accepted => false,
        Subject::Steps | Subject::Activities | Subject::Clocks | Subject::Stack => true,
    }
}

/// Whether starts are told.
fn tells_start(subject: Subject) -> bool
    ensures { result ≡ tells_start subject }
{
    match subject {
        Subject::Stack => false,
        Subject::Steps | Subject::Activities | Subject::Clocks | Subject::Accepted => true,
    }
}

/// Whether it is told where clocks are made.
fn tells_make(subject: Subject) -> bool
    ensures { result ≡ tells_make subject }
{
    match subject {
        Subject::Clocks | Subject::Accepted => true,
        Subject::Steps | Subject::Activities | Subject::Stack => false,
    }
}

/// What is told of an instruction at a place that is come to so often.
fn part(subject: Subject, u: &Unit, count: u64, at: u16, instr: &Instr) -> Option<Fact>
    requires { count ≡ kept (visits u.now at) }
    ensures { result ≡ part subject u.now at instr.now }
{
    match instr {
        Instr::Call { unit, .. } if tells_call(subject) => Some(Fact::Call {
            unit: *unit,
            times: count,
        }),
        Instr::Spawn { unit, .. } if tells_start(subject) => Some(Fact::Start {
            unit: *unit,
            times: count,
        }),
        Instr::Make(_) if tells_make(subject) => Some(Fact::Make { times: count }),
        Instr::For { .. } | Instr::ForTo { .. } => loop_part(subject, u, count, at, instr),
        _ => None,
    }
}

/// What is told of one that may begin a loop.
fn loop_part(subject: Subject, u: &Unit, count: u64, at: u16, instr: &Instr) -> Option<Fact>
    requires { count ≡ kept (visits u.now at) }
    ensures { result ≡ option_map_or
        (λ l. if tells_loop subject l then Some (loop_fact (visits u.now at) l) else None)
        (loop_begun u.now at instr.now) None }
{
    match loop_begun(u, at, instr) {
        Some(l) if tells_loop(subject, &l) => Some(loop_fact(count, &l)),
        _ => None,
    }
}

/// How many turns a loop takes, whose head is come to so often as that is kept.
fn loop_fact(count: u64, l: &Loop) -> Fact
    ensures { (times : ℕ) → count ≡ kept times → result ≡ loop_fact times l.now }
{
    let turns = l.turns();
    Fact::Loop {
        turns,
        all: amounts::product(count, turns),
    }
}

/// Adds what is told of the instructions of a unit.
fn push_parts(
    alloc: Global,
    subject: Subject,
    out: &mut Vec<Remark>,
    unit: u16,
    u: &Unit,
) -> Result<(), AllocError>
    requires { length u.now.code ≤ 4096 }
    ensures { OnOk result
        (out.new.items ≡ out.old.items ++ begun_from (part_at subject unit u.now) 0 u.now.code) }
{
    let counts = visits(alloc, u)?;
    for (at, instr) in u.code.iter().enumerate() {
        let place = at as u16;
        if let Some(fact) = part(subject, u, counts[at], place, instr) {
            out.push(Remark {
                unit,
                at: Some(place),
                fact,
            })?;
        }
    }
    Ok(())
}

/// What is told of a whole unit that comes to so much.
fn whole(subject: Subject, u: &Unit, total: u64) -> Option<Fact>
    ensures { result ≡ whole subject u.now total }
{
    match subject {
        Subject::Steps => Some(Fact::Steps(total)),
        Subject::Activities => Some(Fact::Activities(total)),
        Subject::Clocks => Some(Fact::Clocks(total)),
        Subject::Stack => Some(Fact::Slots {
            own: u.slots,
            all: total,
        }),
        Subject::Accepted => None,
    }
}

/// Adds that.
fn push_whole(out: &mut Vec<Remark>, unit: u16, whole: Option<Fact>) -> Result<(), AllocError>
    ensures { OnOk result (out.new.items ≡ out.old.items ++ whole_remark unit whole) }
{
    if let Some(fact) = whole {
        out.push(Remark {
            unit,
            at: None,
            fact,
        })?;
    }
    Ok(())
}

/// Adds what is told of a unit that comes to so much.
fn push_unit(
    alloc: Global,
    subject: Subject,
    out: &mut Vec<Remark>,
    unit: u16,
    u: &Unit,
    total: u64,
) -> Result<(), AllocError>
    requires { length u.now.code ≤ 4096 }
    ensures { OnOk result (out.new.items ≡ out.old.items
        ++ (begun_from (part_at subject unit u.now) 0 u.now.code
        ++ whole_remark unit (whole subject u.now total))) }
{
    push_parts(alloc, subject, out, unit, u)?;
    push_whole(out, unit, whole(subject, u, total))
}

/// What is told of the units of a module that come to so much.
fn remarks_by(
    alloc: Global,
    subject: Subject,
    m: &Module,
    totals: &[u64],
) -> Result<Vec<Remark>, AllocError>
    requires { AreTotals subject m.now totals.now }
    ensures { IfOk result (λ v. v.items ≡ remarks_from subject m.now 0 m.now.units) }
{
    let mut out = Vec::new(alloc);
    for (unit, u) in m.units().iter().enumerate() {
        push_unit(alloc, subject, &mut out, unit as u16, u, totals[unit])?;
    }
    Ok(out)
}

/// A sum by its parts: nothing where units run such of smaller number.
pub(crate) fn sum_remarks(
    alloc: Global,
    subject: Subject,
    m: &Module,
) -> Result<Vec<Remark>, AllocError>
    ensures { IfOk result (λ v. v.items ≡ sum_remarks subject m.now) }
{
    if !goes_up_only(m) {
        return Ok(Vec::new(alloc));
    }
    let totals = totals(alloc, subject, m)?;
    remarks_by(alloc, subject, m, &totals)
}

/// What a rule on sums is about.
pub(crate) fn subject_of(rule: Rule) -> Option<Subject>
    ensures { result ≡ subject_of rule }
{
    match rule {
        Rule::Steps => Some(Subject::Steps),
        Rule::Activities => Some(Subject::Activities),
        Rule::Clocks => Some(Subject::Clocks),
        Rule::Stack => Some(Subject::Stack),
        Rule::Target
        | Rule::Block
        | Rule::Slot
        | Rule::Unit
        | Rule::Cell
        | Rule::Loop
        | Rule::End
        | Rule::Home
        | Rule::Registers
        | Rule::SameClock
        | Rule::Use
        | Rule::Held
        | Rule::Leak => None,
    }
}

//! The verdict on a source text, as numbers, with the line and the column of what is wrong.

ghost use Rattle.std.specs.Prelude.{◌≡◌, ◌≤◌, true, length, option_map, IfOk};
ghost use Rattle.xk_jobs.specs.declared.job.Form.TheVariants as form;
ghost use Rattle.xk_lines.specs.Lines.{position_of};
ghost use Rattle.xk_program.specs.Faults.{GivesNoModule};
ghost use Rattle.xk_program.specs.Origins.{IsFrom};
ghost use Rattle.xk_program.specs.Programs.{Gives};
ghost use Rattle.x10clock_c.specs.Diagnosis.{IsDiagnosed, RefusesCode, code_position, front_position, placed, refusal_position};

use crate::verdict::{Checked, bounds_of, front_told, refusal_told};
use std::alloc::{AllocError, Global};
use xk_bounds::Refusal;
use xk_explain::{SourceText, has_place, origin_at, shown_at};
use xk_jobs::Form;
use xk_lines::Position;
use xk_program::{Fault, Program, accepted, program_by};
use xk_tree::FrontFault;
use xk_unit_origins::Origins;

/// What is known of a source text: what `Checked` has, and where it is shown.
#[repr(C)]
#[derive(Clone, Copy, Debug, PartialEq, Eq)]
pub struct Diagnosis {
    /// The most steps of a run.
    pub steps: u64,
    /// The place of a rule that is broken, as `Checked` has it.
    pub at: usize,
    /// The line in which it is broken, counted from 1; 0 where there is none.
    pub line: usize,
    /// The column, counted from 1; 0 where there is none.
    pub column: usize,
    /// The most activities at once.
    pub activities: u32,
    /// The most clocks at once.
    pub clocks: u32,
    /// Which rules one is of, as `Checked` has it.
    pub family: u32,
    /// Its number there.
    pub number: u32,
    /// The unit in which the verifier's rule is broken.
    pub unit: u32,
}

/// Where memory ran out.
pub(crate) const NOTHING_DIAGNOSED: Diagnosis = Diagnosis {
    steps: 0,
    at: 0,
    line: 0,
    column: 0,
    activities: 0,
    clocks: 0,
    family: 0,
    number: 0,
    unit: 0,
};

/// What is found out about a source text.
pub(crate) enum Diagnosed {
    /// It is accepted, with these bounds.
    Accepted(Diagnosis),
    /// It breaks this rule there.
    Refused(Diagnosis),
}

/// What is found out about a source text. Err where memory was refused.
pub(crate) fn diagnosis_of(alloc: Global, text: &[u8]) -> Result<Diagnosed, AllocError>
    ensures { IfOk result (IsDiagnosed text.now) }
{
    match program_by(alloc, Form::Source, true, text) {
        Ok(program) => code_diagnosis(alloc, text, program),
        Err(fault) => front_diagnosis(alloc, text, &fault),
    }
}

/// The same of a text that gives no module.
fn front_diagnosis(alloc: Global, text: &[u8], fault: &Fault) -> Result<Diagnosed, AllocError>
    requires { GivesNoModule form.Source text.now fault.now }
    ensures { IfOk result (IsDiagnosed text.now) }
{
    match fault {
        Fault::Front(front) => {
            let position = front_position(alloc, text, *front)?;
            Ok(Diagnosed::Refused(placed(front_told(*front), position)))
        }
        Fault::Text(_)
        | Fault::Refused(_)
        | Fault::Arguments { .. }
        | Fault::Grammar(_)
        | Fault::Truncated
        | Fault::NotEnabled(_)
        | Fault::NotEnded
        | Fault::NoOutcome(_)
        | Fault::OutOfMemory
        | Fault::Device => Err(AllocError),
    }
}

/// The same of one that gives this program.
fn code_diagnosis(alloc: Global, text: &[u8], program: Program<'_>) -> Result<Diagnosed, AllocError>
    requires module { Gives form.Source text.now program.module }
    requires from { IsFrom true form.Source text.now program.from }
    ensures { IfOk result (IsDiagnosed text.now) }
{
    let Program { module, from } = program;
    match accepted(alloc, module) {
        Ok(verified) => Ok(Diagnosed::Accepted(placed(bounds_of(&verified), None))),
        Err(fault) => refused_diagnosis(alloc, text, from.origins.as_ref(), &fault),
    }
}

/// The same of one whose module the verifier refuses.
fn refused_diagnosis(
    alloc: Global,
    text: &[u8],
    origins: Option<&Origins<'_>>,
    fault: &Fault,
) -> Result<Diagnosed, AllocError>
    requires { RefusesCode text.now (option_map (λ o. o.now) origins) fault.now }
    ensures { IfOk result (IsDiagnosed text.now) }
{
    match fault {
        Fault::Refused(refusal) => {
            let position = refusal_position(alloc, text, origins, refusal)?;
            match refusal_told(refusal) {
                Some(told) => Ok(Diagnosed::Refused(placed(told, position))),
                None => Err(AllocError),
            }
        }
        Fault::Text(_)
        | Fault::Front(_)
        | Fault::Arguments { .. }
        | Fault::Grammar(_)
        | Fault::Truncated
        | Fault::NotEnabled(_)
        | Fault::NotEnded
        | Fault::NoOutcome(_)
        | Fault::OutOfMemory
        | Fault::Device => Err(AllocError),
    }
}

/// The line and column of an offset.
fn position_in(alloc: Global, text: &[u8], at: usize) -> Result<Position, AllocError>
    requires { at ≤ length text.now }
    ensures { IfOk result (λ p. p ≡ position_of text.now at) }
{
    let source = SourceText::new(alloc, text)?;
    Ok(source.nearest(at))
}

/// Where a fault of a text is shown, if it has a place.
fn front_position(
    alloc: Global,
    text: &[u8],
    fault: FrontFault,
) -> Result<Option<Position>, AllocError>
    ensures { IfOk result (λ p. p ≡ front_position text.now fault) }
{
    if !has_place(fault.rule) {
        return Ok(None);
    }
    let position = position_in(alloc, text, shown_at(text, fault))?;
    Ok(Some(position))
}

/// Where a fault of a module is shown, if it has a place.
fn refusal_position(
    alloc: Global,
    text: &[u8],
    origins: Option<&Origins<'_>>,
    refusal: &Refusal,
) -> Result<Option<Position>, AllocError>
    ensures { IfOk result
        (λ p. p ≡ refusal_position text.now (option_map (λ o. o.now) origins.entry)
        refusal.now) }
{
    match refusal {
        Refusal::Shape(fault) => code_position(alloc, text, origins, fault.unit, fault.at),
        Refusal::Kind(fault) => code_position(alloc, text, origins, fault.unit, fault.at),
        Refusal::Bound(_) | Refusal::OutOfMemory => Ok(None),
    }
}

/// What an instruction of a unit comes from.
fn code_position(
    alloc: Global,
    text: &[u8],
    origins: Option<&Origins<'_>>,
    unit: u16,
    at: u16,
) -> Result<Option<Position>, AllocError>
    ensures { IfOk result
        (λ p. p ≡ code_position text.now (option_map (λ o. o.now) origins.entry) unit at) }
{
    match origins {
        Some(origins) => match origins.units().get(unit as usize) {
            Some(unit) => {
                let position = position_in(alloc, text, origin_at(text, unit, at))?;
                Ok(Some(position))
            }
            None => Ok(None),
        },
        None => Ok(None),
    }
}

/// What is told, with the line and the column of this place.
fn placed(told: Checked, place: Option<Position>) -> Diagnosis
    ensures { result ≡ placed told place }
{
    let (line, column) = match place {
        Some(position) => (position.line, position.column),
        None => (0, 0),
    };
    Diagnosis {
        steps: told.steps,
        at: told.at,
        line,
        column,
        activities: told.activities,
        clocks: told.clocks,
        family: told.family,
        number: told.number,
        unit: told.unit,
    }
}

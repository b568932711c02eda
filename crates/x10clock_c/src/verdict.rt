//! The verdict on a source text, as numbers.

ghost use Rattle.std.specs.Prelude.{◌≡◌, IfErr, IfOk};
ghost use Rattle.xk_types.specs.Acceptance.{IsAccepted};
ghost use Rattle.xk_jobs.specs.declared.job.Form.TheVariants as form;
ghost use Rattle.xk_program.specs.Programs.{Gives};
ghost use Rattle.x10clock_c.specs.Check.{IsVerdict, StandsInText, bounds_told, fault_told, front_told, refusal_told, rule_told};

use std::alloc::{AllocError, Global};
use xk_bounds::{Refusal, Verified};
use xk_jobs::Form;
use xk_program::{Fault, accepted, program_by};
use xk_tree::FrontFault;
use xk_types::Rule;

/// What is known of a source text: the bounds on its runs where it is accepted, and else which rule it breaks where.
#[repr(C)]
#[derive(Clone, Copy, Debug, PartialEq, Eq)]
pub struct Checked {
    /// The most steps of a run.
    pub steps: u64,
    /// The place of a rule that is broken: F1 to F15 have the offset in the text, in bytes, V1 to V13 that of the instruction in
    /// the unit's code, and V14 to V17 none.
    pub at: usize,
    /// The most activities at once.
    pub activities: u32,
    /// The most clocks at once.
    pub clocks: u32,
    /// Which rules one is of: 0 for none, 1 for those on source texts (F), 2 for the verifier's (V).
    pub family: u32,
    /// Its number there: `V12` has the number 12.
    pub number: u32,
    /// The unit in which the verifier's rule is broken.
    pub unit: u32,
}

/// Where memory ran out.
pub(crate) const NOTHING_TOLD: Checked = Checked {
    steps: 0,
    at: 0,
    activities: 0,
    clocks: 0,
    family: 0,
    number: 0,
    unit: 0,
};

/// What the verifier says of a source text.
pub(crate) enum Verdict {
    /// It is accepted, with these bounds.
    Accepted(Checked),
    /// It breaks this rule.
    Refused(Checked),
}

/// The verdict on a source text.
pub(crate) fn verdict_on(alloc: Global, program: &[u8]) -> Result<Verdict, AllocError>
    ensures { IfOk result (IsVerdict program.now) }
{
    match accepted_in(alloc, program) {
        Ok(verified) => Ok(Verdict::Accepted(bounds_of(&verified))),
        Err(fault) => match fault_told(&fault) {
            Some(told) => Ok(Verdict::Refused(told)),
            None => Err(AllocError),
        },
    }
}

/// The module of a source text, if it is accepted.
fn accepted_in(alloc: Global, program: &[u8]) -> Result<Verified, Fault>
    ensures accepted { IfOk result (λ v. Gives form.Source program.now v × IsAccepted v) }
    ensures refused { IfErr result (StandsInText program.now) }
{
    let program = program_by(alloc, Form::Source, false, program)?;
    accepted(alloc, program.module)
}

/// The bounds on the runs of a module.
pub(crate) fn bounds_of(verified: &Verified) -> Checked
    ensures { result ≡ bounds_told verified.now }
{
    Checked {
        steps: verified.steps(),
        activities: verified.activities(),
        clocks: verified.clocks(),
        ..NOTHING_TOLD
    }
}

/// A rule that is broken, if the fault is one.
fn fault_told(fault: &Fault) -> Option<Checked>
    ensures { result ≡ fault_told fault.now }
{
    match fault {
        Fault::Front(front) => Some(front_told(*front)),
        Fault::Refused(refusal) => refusal_told(refusal),
        Fault::Text(_)
        | Fault::Arguments { .. }
        | Fault::Grammar(_)
        | Fault::Truncated
        | Fault::NotEnabled(_)
        | Fault::NotEnded
        | Fault::NoOutcome(_)
        | Fault::OutOfMemory
        | Fault::Device => None,
    }
}

/// A rule on source texts.
pub(crate) fn front_told(fault: FrontFault) -> Checked
    ensures { result ≡ front_told fault }
{
    Checked {
        at: fault.at,
        family: 1,
        number: fault.rule.number().into(),
        ..NOTHING_TOLD
    }
}

/// A rule of the verifier's.
pub(crate) fn refusal_told(refusal: &Refusal) -> Option<Checked>
    ensures { result ≡ refusal_told refusal.now }
{
    match refusal {
        Refusal::Shape(fault) => Some(rule_told(fault.rule, fault.unit, fault.at)),
        Refusal::Kind(fault) => Some(rule_told(fault.rule, fault.unit, fault.at)),
        Refusal::Bound(fault) => Some(rule_told(fault.rule, 0, 0)),
        Refusal::OutOfMemory => None,
    }
}

/// The same at an instruction of a unit.
fn rule_told(rule: Rule, unit: u16, at: u16) -> Checked
    ensures { result ≡ rule_told rule unit at }
{
    Checked {
        at: at.into(),
        family: 2,
        number: rule.number().into(),
        unit: unit.into(),
        ..NOTHING_TOLD
    }
}

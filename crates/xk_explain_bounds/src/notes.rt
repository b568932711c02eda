//! The notes on what the verifier says of a module.

ghost use Rattle.std.specs.Prelude.{◌≡◌, map, IfOk};
ghost use Rattle.xk_explain_bounds.specs.Notes.{accepted_notes, module_notes, refusal_notes, refusal_remarks};
ghost use Rattle.xk_explain_bounds.specs.Words.{note_of};

use crate::other_places::{kind_remarks, shape_remarks};
use crate::parts::{subject_of, sum_remarks};
use crate::remark::{Remark, Subject};
use crate::words::note_of;
use std::alloc::{AllocError, Global};
use xk_bounds::Refusal;
use xk_explain::Note;
use xk_types::Module;
use xk_unit_origins::UnitOrigins;

/// The notes on what the verifier has against a module whose units have these origins: for V8 and V9 where the clock comes from that is meant, and which
/// finish is open; for V12 where the finish begins; for V14 to V17 the sum by its parts: how many turns each loop takes, how often each call and start
/// is carried out, and what each unit comes to. Units without origins are told by their numbers. Err where memory was refused.
pub fn refusal_notes(
    alloc: Global,
    m: &Module,
    origins: &[UnitOrigins<'_>],
    refusal: &Refusal,
) -> Result<Vec<Note>, AllocError>
    ensures { IfOk result (λ v. v.items ≡ refusal_notes m.now origins.now refusal.now) }
{
    let remarks = refusal_remarks(alloc, m, refusal)?;
    notes_of(alloc, origins, &remarks)
}

/// The same by unit and place. Err where memory was refused.
pub fn module_notes(alloc: Global, m: &Module, refusal: &Refusal) -> Result<Vec<Note>, AllocError>
    ensures { IfOk result (λ v. v.items ≡ module_notes m.now refusal.now) }
{
    refusal_notes(alloc, m, &[], refusal)
}

/// The notes on the numbers of a module that is accepted, whose units have these origins: its loops of more than one turn, its starts, and where it
/// makes clocks, each with how often. Err where memory was refused.
pub fn accepted_notes(
    alloc: Global,
    m: &Module,
    origins: &[UnitOrigins<'_>],
) -> Result<Vec<Note>, AllocError>
    ensures { IfOk result (λ v. v.items ≡ accepted_notes m.now origins.now) }
{
    let remarks = sum_remarks(alloc, Subject::Accepted, m)?;
    notes_of(alloc, origins, &remarks)
}

/// What is told beside a refusal.
fn refusal_remarks(alloc: Global, m: &Module, refusal: &Refusal) -> Result<Vec<Remark>, AllocError>
    ensures { IfOk result (λ v. v.items ≡ refusal_remarks m.now refusal.now) }
{
    match refusal {
        Refusal::Shape(fault) => shape_remarks(alloc, m, fault),
        Refusal::Kind(fault) => kind_remarks(alloc, m, fault),
        Refusal::Bound(fault) => match subject_of(fault.rule) {
            Some(subject) => sum_remarks(alloc, subject, m),
            None => Ok(Vec::new(alloc)),
        },
        Refusal::OutOfMemory => Ok(Vec::new(alloc)),
    }
}

/// The notes of remarks.
fn notes_of(
    alloc: Global,
    origins: &[UnitOrigins<'_>],
    remarks: &[Remark],
) -> Result<Vec<Note>, AllocError>
    ensures { IfOk result (λ v. v.items ≡ map (note_of origins.now) remarks.now) }
{
    let mut out = Vec::new(alloc);
    for remark in remarks {
        out.push(note_of(alloc, origins, *remark)?)?;
    }
    Ok(out)
}

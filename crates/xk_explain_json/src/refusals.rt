//! What is said of a program that the verifier refuses.

ghost use Rattle.std.specs.Prelude.{◌≡◌, IfOk, IfSome, OnOk};
ghost use Rattle.xk_explain_json.specs.Explanations.{bound_groups, is_memory, kind_groups, refusal_groups, refusal_value, shape_groups};
ghost use Rattle.xk_json.specs.Objects.{text_of, GainsAll, IsReadBack};

use crate::members::{put_instruction, put_limit, put_refused_by, put_slot};
use crate::notes::put_notes_alone;
use crate::walks::put_walk_alone;
use std::alloc::{AllocError, Global};
use xk_bounds::{BoundFault, Refusal};
use xk_explain::{Note, rule_message};
use xk_json::Object;
use xk_shape::ShapeFault;
use xk_typestate::KindFault;

/// All that is said of what the verifier has against the module in FILE, by unit and place, with these notes: a JSON object in one line. Of want of
/// memory nothing is said. Err where memory was refused.
pub fn refusal_json(
    alloc: Global,
    file: &str,
    refusal: &Refusal,
    notes: &[Note],
) -> Result<Vec<u8>, AllocError>
    ensures text { IfOk result
        (λ v. v.items ≡ text_of (refusal_value file.now refusal.now notes.now)) }
    ensures reads_back { OnOk result
        (IfSome (refusal_value file.now refusal.now notes.now) IsReadBack) }
{
    if is_memory(refusal) {
        return Ok(Vec::new(alloc));
    }
    let mut object = Object::new(alloc);
    put_notes_alone(alloc, &mut object, notes)?;
    put_refusal(alloc, &mut object, file, refusal)?;
    object.line(alloc)
}

/// Whether a refusal is want of memory.
pub(crate) fn is_memory(refusal: &Refusal) -> bool
    ensures { result ≡ is_memory refusal.now }
{
    match refusal {
        Refusal::Shape(_) | Refusal::Kind(_) | Refusal::Bound(_) => false,
        Refusal::OutOfMemory => true,
    }
}

/// Adds a refusal, by unit and place.
fn put_refusal(
    alloc: Global,
    object: &mut Object,
    file: &str,
    refusal: &Refusal,
) -> Result<(), AllocError>
    ensures { OnOk result
        (GainsAll (refusal_groups file.now refusal.now) object.old object.new) }
{
    match refusal {
        Refusal::Shape(fault) => put_shape(alloc, object, file, fault),
        Refusal::Kind(fault) => put_kind(alloc, object, file, fault),
        Refusal::Bound(fault) => put_bound(alloc, object, file, *fault),
        Refusal::OutOfMemory => Ok(()),
    }
}

/// Adds a place that breaks a rule on shape, V1 to V10.
pub(crate) fn put_shape(
    alloc: Global,
    object: &mut Object,
    file: &str,
    fault: &ShapeFault,
) -> Result<(), AllocError>
    ensures { OnOk result (GainsAll (shape_groups file.now fault.now) object.old object.new) }
{
    put_refused_by(alloc, object, file, fault.rule, rule_message(fault.rule))?;
    put_instruction(alloc, object, fault.unit, fault.at)
}

/// Adds a slot of the wrong kind, V11 to V13.
pub(crate) fn put_kind(
    alloc: Global,
    object: &mut Object,
    file: &str,
    fault: &KindFault,
) -> Result<(), AllocError>
    ensures { OnOk result (GainsAll (kind_groups file.now fault.now) object.old object.new) }
{
    put_refused_by(alloc, object, file, fault.rule, rule_message(fault.rule))?;
    put_instruction(alloc, object, fault.unit, fault.at)?;
    put_slot(alloc, object, fault.slot, fault.kind)?;
    put_walk_alone(alloc, object, &fault.walk)
}

/// Adds a bound that is over its limit, V14 to V17.
pub(crate) fn put_bound(
    alloc: Global,
    object: &mut Object,
    file: &str,
    fault: BoundFault,
) -> Result<(), AllocError>
    ensures { OnOk result (GainsAll (bound_groups file.now fault) object.old object.new) }
{
    put_refused_by(alloc, object, file, fault.rule, rule_message(fault.rule))?;
    put_limit(alloc, object, fault.limit)
}

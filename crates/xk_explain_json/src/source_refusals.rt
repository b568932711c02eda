//! What is said of a source text that the verifier refuses.

ghost use Rattle.std.specs.Prelude.{◌≡◌, IfOk, IfSome, OnOk};
ghost use Rattle.xk_explain_json.specs.Explanations.{kind_in_source, shape_in_source, source_groups, source_value};
ghost use Rattle.xk_json.specs.Objects.{text_of, GainsAll, IsReadBack};

use crate::members::{put_instruction, put_refused_by, put_slot};
use crate::names::{put_origin, put_slot_name};
use crate::notes::put_notes_in;
use crate::refusals::{is_memory, put_bound, put_kind, put_shape};
use crate::walks::put_walk_in;
use std::alloc::{AllocError, Global};
use xk_bounds::Refusal;
use xk_explain::{Note, SourceText, source_message};
use xk_json::Object;
use xk_shape::ShapeFault;
use xk_typestate::KindFault;
use xk_unit_origins::UnitOrigins;

/// All that is said of what the verifier has against the module of the source text in FILE, whose units have these origins, with these notes: a JSON
/// object in one line, with the line and column that each instruction comes from. Of want of memory nothing is said. Err where memory was refused.
pub fn source_json(
    alloc: Global,
    file: &str,
    text: &[u8],
    units: &[UnitOrigins<'_>],
    refusal: &Refusal,
    notes: &[Note],
) -> Result<Vec<u8>, AllocError>
    ensures text { IfOk result (λ v. v.items ≡ text_of
        (source_value file.now text.now units.now refusal.now notes.now)) }
    ensures reads_back { OnOk result (IfSome
        (source_value file.now text.now units.now refusal.now notes.now) IsReadBack) }
{
    if is_memory(refusal) {
        return Ok(Vec::new(alloc));
    }
    let source = SourceText::new(alloc, text)?;
    let mut object = Object::new(alloc);
    put_notes_in(alloc, &mut object, &source, notes)?;
    put_source(alloc, &mut object, file, &source, units, refusal)?;
    object.line(alloc)
}

/// Adds a refusal, in the lines and names of the text.
fn put_source(
    alloc: Global,
    object: &mut Object,
    file: &str,
    source: &SourceText<'_>,
    units: &[UnitOrigins<'_>],
    refusal: &Refusal,
) -> Result<(), AllocError>
    ensures { OnOk result (GainsAll
        (source_groups file.now source.now units.now refusal.now) object.old object.new) }
{
    match refusal {
        Refusal::Shape(fault) => match units.get(fault.unit as usize) {
            Some(unit) => put_shape_in(alloc, object, file, source, unit, fault),
            None => put_shape(alloc, object, file, fault),
        },
        Refusal::Kind(fault) => match units.get(fault.unit as usize) {
            Some(unit) => put_kind_in(alloc, object, file, source, unit, fault),
            None => put_kind(alloc, object, file, fault),
        },
        Refusal::Bound(fault) => put_bound(alloc, object, file, *fault),
        Refusal::OutOfMemory => Ok(()),
    }
}

/// Adds a place that breaks a rule on shape.
fn put_shape_in(
    alloc: Global,
    object: &mut Object,
    file: &str,
    source: &SourceText<'_>,
    unit: &UnitOrigins<'_>,
    fault: &ShapeFault,
) -> Result<(), AllocError>
    ensures { OnOk result (GainsAll
        (shape_in_source file.now source.now fault.now unit.now) object.old object.new) }
{
    put_refused_by(alloc, object, file, fault.rule, source_message(fault.rule))?;
    put_instruction(alloc, object, fault.unit, fault.at)?;
    put_origin(alloc, object, source, unit, fault.at)
}

/// Adds a slot of the wrong kind.
fn put_kind_in(
    alloc: Global,
    object: &mut Object,
    file: &str,
    source: &SourceText<'_>,
    unit: &UnitOrigins<'_>,
    fault: &KindFault,
) -> Result<(), AllocError>
    ensures { OnOk result (GainsAll
        (kind_in_source file.now source.now fault.now unit.now) object.old object.new) }
{
    put_refused_by(alloc, object, file, fault.rule, source_message(fault.rule))?;
    put_instruction(alloc, object, fault.unit, fault.at)?;
    put_origin(alloc, object, source, unit, fault.at)?;
    put_slot(alloc, object, fault.slot, fault.kind)?;
    put_slot_name(alloc, object, unit, fault.slot)?;
    put_walk_in(alloc, object, source, unit, &fault.walk)
}

//! What is said of a source text that the verifier refuses.

ghost use Rattle.std.specs.Prelude.{◌≡◌, ◌++◌, ◌≤◌, length, IfOk, OnOk};
ghost use Rattle.xk_explain.specs.SourceExplanations.{explanation_in_source, kind_in_source, origin_at, place_lines, shape_in_source};
ghost use Rattle.xk_explain.specs.SourceExplanations.{source_explanation, title_in, walk_in_source};

use crate::lines::{push_repair, push_text, rule_title};
use crate::messages::{rule_repair, source_message};
use crate::note::{Note, note_lines};
use crate::places::{push_excerpt, push_head_at};
use crate::refusals::{explain_bound, explain_kind, explain_shape, push_ways};
use crate::source_text::SourceText;
use crate::walks::{push_stops, stops_head, unit_title};
use std::alloc::{AllocError, Global};
use xk_bounds::Refusal;
use xk_shape::ShapeFault;
use xk_types::Rule;
use xk_typestate::KindFault;
use xk_unit_origins::{Head, UnitOrigins};

/// All that is said of what the verifier has against the module of the source text in FILE, whose units have these origins: `FILE:8:9: V11 Use, in main:
/// ..`, the line there with carets, these notes, the walk to a slot of the wrong kind, statement by statement, and the usual repair. Of want of memory
/// nothing is said. Err where memory was refused.
pub fn explain_source(
    alloc: Global,
    file: &str,
    text: &[u8],
    units: &[UnitOrigins<'_>],
    refusal: &Refusal,
    notes: &[Note],
) -> Result<Vec<u8>, AllocError>
    ensures { IfOk result
        (λ v. v.items ≡ source_explanation file.now text.now units.now refusal.now notes.now) }
{
    let source = SourceText::new(alloc, text)?;
    let notes = note_lines(alloc, &source, notes)?;
    explain_in_source(alloc, file, &source, units, refusal, &notes)
}

/// The same with these lines of notes.
fn explain_in_source(
    alloc: Global,
    file: &str,
    source: &SourceText<'_>,
    units: &[UnitOrigins<'_>],
    refusal: &Refusal,
    notes: &[u8],
) -> Result<Vec<u8>, AllocError>
    ensures { IfOk result (λ v. v.items
        ≡ explanation_in_source file.now source.now units.now refusal.now notes.now) }
{
    match refusal {
        Refusal::Shape(fault) => match units.get(fault.unit as usize) {
            Some(unit) => shape_in_source(alloc, file, source, unit, fault, notes),
            None => explain_shape(alloc, file, fault, notes),
        },
        Refusal::Kind(fault) => match units.get(fault.unit as usize) {
            Some(unit) => kind_in_source(alloc, file, source, unit, fault, notes),
            None => explain_kind(alloc, file, fault, notes),
        },
        Refusal::Bound(fault) => explain_bound(alloc, file, *fault, notes),
        Refusal::OutOfMemory => Ok(Vec::new(alloc)),
    }
}

/// The same of a place that breaks a rule on shape.
fn shape_in_source(
    alloc: Global,
    file: &str,
    source: &SourceText<'_>,
    unit: &UnitOrigins<'_>,
    fault: &ShapeFault,
    notes: &[u8],
) -> Result<Vec<u8>, AllocError>
    ensures { IfOk result
        (λ v. v.items ≡ shape_in_source file.now source.now fault.now notes.now unit.now) }
{
    let mut out = place_lines(alloc, file, source, unit, fault.rule, fault.at)?;
    out.extend_from_slice(notes)?;
    push_repair(alloc, &mut out, rule_repair(fault.rule).as_bytes())?;
    Ok(out)
}

/// The same of a slot of the wrong kind.
fn kind_in_source(
    alloc: Global,
    file: &str,
    source: &SourceText<'_>,
    unit: &UnitOrigins<'_>,
    fault: &KindFault,
    notes: &[u8],
) -> Result<Vec<u8>, AllocError>
    ensures { IfOk result
        (λ v. v.items ≡ kind_in_source file.now source.now fault.now notes.now unit.now) }
{
    let mut out = place_lines(alloc, file, source, unit, fault.rule, fault.at)?;
    out.extend_from_slice(notes)?;
    push_walk(alloc, &mut out, source, unit, fault)?;
    push_ways(&mut out)?;
    push_repair(alloc, &mut out, rule_repair(fault.rule).as_bytes())?;
    Ok(out)
}

/// Adds the walk to the slot's kind at the place refused.
fn push_walk(
    alloc: Global,
    out: &mut Vec<u8>,
    source: &SourceText<'_>,
    unit: &UnitOrigins<'_>,
    fault: &KindFault,
) -> Result<(), AllocError>
    ensures { OnOk result (out.new.items
        ≡ out.old.items ++ walk_in_source source.now fault.now unit.now) }
{
    let mut walk = stops_head(alloc, unit, fault.slot)?;
    push_stops(alloc, &mut walk, source, unit, &fault.walk)?;
    out.extend_from_slice(&walk)
}

/// The offset that an instruction of a unit comes from, no further than where the text ends.
pub fn origin_at(text: &[u8], unit: &UnitOrigins<'_>, at: u16) -> usize
    ensures at { result ≡ origin_at text.now unit.now at }
    ensures within { result ≤ length text.now }
{
    match unit.offsets.get(at as usize) {
        Some(offset) => (*offset).min(text.len()),
        None => 0,
    }
}

/// A rule, and the unit in which it is broken.
fn title_in(
    alloc: Global,
    source: &SourceText<'_>,
    rule: Rule,
    head: &Head<'_>,
) -> Result<Vec<u8>, AllocError>
    ensures { IfOk result (λ v. v.items ≡ title_in source.now rule head.now) }
{
    let title = rule_title(alloc, rule)?;
    let unit = unit_title(alloc, source, head)?;
    let mut out = Vec::new(alloc);
    push_text(&mut out, title.as_str())?;
    push_text(&mut out, ", ")?;
    out.extend_from_slice(&unit)?;
    Ok(out)
}

/// The lines on a place of a unit that breaks a rule, up to that with carets.
fn place_lines(
    alloc: Global,
    file: &str,
    source: &SourceText<'_>,
    unit: &UnitOrigins<'_>,
    rule: Rule,
    at: u16,
) -> Result<Vec<u8>, AllocError>
    ensures { IfOk result (λ v. v.items ≡ place_lines file.now source.now unit.now rule at) }
{
    let offset = origin_at(source.bytes(), unit, at);
    let title = title_in(alloc, source, rule, &unit.head)?;
    let position = source.lines().position(offset);
    let mut out = Vec::new(alloc);
    push_head_at(
        alloc,
        &mut out,
        file,
        position,
        &title,
        source_message(rule),
    )?;
    push_excerpt(alloc, &mut out, source, offset)?;
    Ok(out)
}

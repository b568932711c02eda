//! What is said of bytes that give no program.

ghost use Rattle.std.specs.Prelude.{◌≡◌, IfOk, OnOk};
ghost use Rattle.serde_json.specs.View.{view};
ghost use Rattle.xk_explain_json.specs.Explanations.{finding_value, front_groups, front_place, front_value, fronts_value};
ghost use Rattle.xk_explain_json.specs.Explanations.{further_members, module_value};
ghost use Rattle.xk_json.specs.Objects.{array_of, json_line, Gains, GainsAll, IsReadBack};

use crate::finding::Finding;
use crate::members::{put_front_repair, put_place, put_refused_by_front, put_refused_by_module};
use crate::notes::put_notes_in;
use serde_json::Value;
use std::alloc::{AllocError, Global};
use xk_explain::{ModuleRule, Note, SourceText, has_place, shown_at};
use xk_json::Object;
use xk_tree::FrontFault;

/// All that is said of a fault of the source text in FILE, with these notes: a JSON object in one line, `{"accepted":false,"column":5,
/// "end_column":12,"end_line":3,"file":"FILE","line":3,"message":..,"name":"Syntax","notes":[],"repair":..,"rule":"F2"}`. A fault that is said to lie
/// behind the text's end is shown at that; a text that is too long, and a `main` that isn't there, have no line and column. Err where memory was
/// refused.
pub fn front_json(
    alloc: Global,
    file: &str,
    text: &[u8],
    fault: FrontFault,
    notes: &[Note],
) -> Result<Vec<u8>, AllocError>
    ensures text { IfOk result (λ v. v.items
        ≡ json_line (front_value file.now text.now fault notes.now)) }
    ensures reads_back { OnOk result
        (IsReadBack (front_value file.now text.now fault notes.now)) }
{
    let source = SourceText::new(alloc, text)?;
    let mut object = Object::new(alloc);
    put_front(alloc, &mut object, file, &source, fault, notes)?;
    object.line(alloc)
}

/// The same, and of faults behind it, if there are such: `"further":[..]`, whose elements are such objects, and `"more":true` where there
/// are more behind those. Err where memory was refused.
pub fn fronts_json(
    alloc: Global,
    file: &str,
    text: &[u8],
    first: &Finding,
    further: &[Finding],
    more: bool,
) -> Result<Vec<u8>, AllocError>
    ensures text { IfOk result (λ v. v.items ≡ json_line
        (fronts_value file.now text.now first.now.0 first.now.1 further.now more)) }
    ensures reads_back { OnOk result (IsReadBack
        (fronts_value file.now text.now first.now.0 first.now.1 further.now more)) }
{
    let source = SourceText::new(alloc, text)?;
    let mut object = Object::new(alloc);
    put_further(alloc, &mut object, file, &source, further, more)?;
    put_front(alloc, &mut object, file, &source, first.fault, &first.notes)?;
    object.line(alloc)
}

/// Adds all that is said of a fault, with these notes.
fn put_front(
    alloc: Global,
    object: &mut Object,
    file: &str,
    source: &SourceText<'_>,
    fault: FrontFault,
    notes: &[Note],
) -> Result<(), AllocError>
    ensures { OnOk result
        (GainsAll (front_groups file.now source.now fault notes.now) object.old object.new) }
{
    put_notes_in(alloc, object, source, notes)?;
    put_refused_by_front(alloc, object, file, fault)?;
    put_front_repair(alloc, object, source.bytes(), fault, notes)?;
    put_front_place(alloc, object, source, fault)
}

/// All that is said of a fault, as a value.
fn finding_value(
    alloc: Global,
    file: &str,
    source: &SourceText<'_>,
    finding: &Finding,
) -> Result<Value, AllocError>
    ensures { IfOk result (λ v. view v ≡ finding_value file.now source.now finding.now) }
{
    let mut object = Object::new(alloc);
    put_front(
        alloc,
        &mut object,
        file,
        source,
        finding.fault,
        &finding.notes,
    )?;
    Ok(object.into_value())
}

/// The list of these faults.
fn list_of(
    alloc: Global,
    file: &str,
    source: &SourceText<'_>,
    findings: &[Finding],
) -> Result<Value, AllocError>
    ensures { IfOk result
        (λ v. view v ≡ array_of (finding_value file.now source.now) findings.now) }
{
    let mut values = Vec::new(alloc);
    for finding in findings {
        values.push(finding_value(alloc, file, source, finding)?)?;
    }
    Ok(Value::from(values))
}

/// Adds faults behind the first, if there are such, and whether there are more behind them.
fn put_further(
    alloc: Global,
    object: &mut Object,
    file: &str,
    source: &SourceText<'_>,
    further: &[Finding],
    more: bool,
) -> Result<(), AllocError>
    ensures { OnOk result
        (Gains (further_members file.now source.now further.now more) object.old object.new) }
{
    if further.len() == 0 {
        return Ok(());
    }
    let list = list_of(alloc, file, source, further)?;
    object.put(alloc, "further", list)?;
    object.put(alloc, "more", Value::from(more))
}

/// Adds where a fault is shown, if it has a place.
fn put_front_place(
    alloc: Global,
    object: &mut Object,
    source: &SourceText<'_>,
    fault: FrontFault,
) -> Result<(), AllocError>
    ensures { OnOk result (Gains (front_place source.now fault) object.old object.new) }
{
    if has_place(fault.rule) {
        return put_place(alloc, object, source, shown_at(source.bytes(), fault));
    }
    Ok(())
}

/// All that is said of the bytes in FILE that are no module, by the rule that they break: a JSON object in one line, `{"accepted":false,"file":"FILE",
/// "message":..,"name":"NotJson","repair":..,"rule":"M1"}`. Err where memory was refused.
pub fn module_json(alloc: Global, file: &str, rule: ModuleRule) -> Result<Vec<u8>, AllocError>
    ensures text { IfOk result (λ v. v.items ≡ json_line (module_value file.now rule)) }
    ensures reads_back { OnOk result (IsReadBack (module_value file.now rule)) }
{
    let mut object = Object::new(alloc);
    put_refused_by_module(alloc, &mut object, file, rule)?;
    object.line(alloc)
}

//! Notes as values.

ghost use Rattle.std.specs.Prelude.{◌≡◌, IfOk, OnOk, option_map};
ghost use Rattle.serde_json.specs.View.{view};
ghost use Rattle.xk_explain_json.specs.Explanations.{note_alone, note_in, notes_alone, notes_in, notes_of};
ghost use Rattle.xk_json.specs.Objects.{array_of, Gains};

use crate::members::put_place;
use serde_json::Value;
use std::alloc::{AllocError, Global};
use xk_explain::{Note, SourceText};
use xk_json::Object;

/// A note on a text, with its place there, if it has one.
fn note_in(alloc: Global, source: &SourceText<'_>, note: &Note) -> Result<Value, AllocError>
    ensures { IfOk result (λ v. view v ≡ note_in source.now note.now) }
{
    let mut object = Object::new(alloc);
    if let Some(at) = note.at {
        put_place(alloc, &mut object, source, at.min(source.bytes().len()))?;
    }
    object.put_bytes(alloc, "text", &note.text)?;
    Ok(object.into_value())
}

/// The same where there is no source text.
fn note_alone(alloc: Global, note: &Note) -> Result<Value, AllocError>
    ensures { IfOk result (λ v. view v ≡ note_alone note.now) }
{
    let mut object = Object::new(alloc);
    object.put_bytes(alloc, "text", &note.text)?;
    Ok(object.into_value())
}

/// The list of these notes on a text.
fn list_in(alloc: Global, source: &SourceText<'_>, notes: &[Note]) -> Result<Value, AllocError>
    ensures { IfOk result (λ v. view v ≡ array_of (note_in source.now) notes.now) }
{
    let mut values = Vec::new(alloc);
    for note in notes {
        values.push(note_in(alloc, source, note)?)?;
    }
    Ok(Value::from(values))
}

/// The same where there is no source text.
fn list_alone(alloc: Global, notes: &[Note]) -> Result<Value, AllocError>
    ensures { IfOk result (λ v. view v ≡ array_of note_alone notes.now) }
{
    let mut values = Vec::new(alloc);
    for note in notes {
        values.push(note_alone(alloc, note)?)?;
    }
    Ok(Value::from(values))
}

/// Adds these notes on a text.
pub(crate) fn put_notes_in(
    alloc: Global,
    object: &mut Object,
    source: &SourceText<'_>,
    notes: &[Note],
) -> Result<(), AllocError>
    ensures { OnOk result (Gains (notes_in source.now notes.now) object.old object.new) }
{
    let list = list_in(alloc, source, notes)?;
    object.put(alloc, "notes", list)
}

/// The same where there is no source text.
pub(crate) fn put_notes_alone(
    alloc: Global,
    object: &mut Object,
    notes: &[Note],
) -> Result<(), AllocError>
    ensures { OnOk result (Gains (notes_alone notes.now) object.old object.new) }
{
    let list = list_alone(alloc, notes)?;
    object.put(alloc, "notes", list)
}

/// The same where there may be a source text.
pub(crate) fn put_notes(
    alloc: Global,
    object: &mut Object,
    text: Option<&[u8]>,
    notes: &[Note],
) -> Result<(), AllocError>
    ensures { OnOk result
        (Gains (notes_of (option_map (λ t. t.now) text.entry) notes.now) object.old object.new) }
{
    match text {
        Some(text) => {
            let source = SourceText::new(alloc, text)?;
            put_notes_in(alloc, object, &source, notes)
        }
        None => put_notes_alone(alloc, object, notes),
    }
}

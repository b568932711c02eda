//! Walks as values.

ghost use Rattle.std.specs.Prelude.{◌≡◌, IfOk, OnOk};
ghost use Rattle.serde_json.specs.View.{view};
ghost use Rattle.xk_explain_json.specs.Explanations.{stop_alone, stop_in, stop_members, walk_alone, walk_in};
ghost use Rattle.xk_json.specs.Objects.{array_of, Gains};

use crate::members::put_position;
use serde_json::Value;
use std::alloc::{AllocError, Global};
use xk_explain::{SourceText, origin_at};
use xk_json::Object;
use xk_types::Visit;
use xk_unit_origins::UnitOrigins;

/// Adds the instruction at which a walk stops, and the slot's kind before it.
fn put_stop(alloc: Global, object: &mut Object, visit: Visit) -> Result<(), AllocError>
    ensures { OnOk result (Gains (stop_members visit) object.old object.new) }
{
    object.put_text(alloc, "kind", visit.kind.name())?;
    object.put_number(alloc, "place", visit.at as u64)
}

/// One stop, by its place.
fn stop_alone(alloc: Global, visit: Visit) -> Result<Value, AllocError>
    ensures { IfOk result (λ v. view v ≡ stop_alone visit) }
{
    let mut object = Object::new(alloc);
    put_stop(alloc, &mut object, visit)?;
    Ok(object.into_value())
}

/// One stop, with the line and column that it comes from.
fn stop_in(
    alloc: Global,
    source: &SourceText<'_>,
    unit: &UnitOrigins<'_>,
    visit: Visit,
) -> Result<Value, AllocError>
    ensures { IfOk result (λ v. view v ≡ stop_in source.now unit.now visit) }
{
    let mut object = Object::new(alloc);
    put_position(
        alloc,
        &mut object,
        source
            .lines()
            .position(origin_at(source.bytes(), unit, visit.at)),
    )?;
    put_stop(alloc, &mut object, visit)?;
    Ok(object.into_value())
}

/// The list of a walk's stops.
fn list_alone(alloc: Global, walk: &[Visit]) -> Result<Value, AllocError>
    ensures { IfOk result (λ v. view v ≡ array_of stop_alone walk.now) }
{
    let mut values = Vec::new(alloc);
    for visit in walk {
        values.push(stop_alone(alloc, *visit)?)?;
    }
    Ok(Value::from(values))
}

/// The same in the lines of a text.
fn list_in(
    alloc: Global,
    source: &SourceText<'_>,
    unit: &UnitOrigins<'_>,
    walk: &[Visit],
) -> Result<Value, AllocError>
    ensures { IfOk result (λ v. view v ≡ array_of (stop_in source.now unit.now) walk.now) }
{
    let mut values = Vec::new(alloc);
    for visit in walk {
        values.push(stop_in(alloc, source, unit, *visit)?)?;
    }
    Ok(Value::from(values))
}

/// Adds a walk.
pub(crate) fn put_walk_alone(
    alloc: Global,
    object: &mut Object,
    walk: &[Visit],
) -> Result<(), AllocError>
    ensures { OnOk result (Gains (walk_alone walk.now) object.old object.new) }
{
    let list = list_alone(alloc, walk)?;
    object.put(alloc, "walk", list)
}

/// The same in the lines of a text.
pub(crate) fn put_walk_in(
    alloc: Global,
    object: &mut Object,
    source: &SourceText<'_>,
    unit: &UnitOrigins<'_>,
    walk: &[Visit],
) -> Result<(), AllocError>
    ensures { OnOk result
        (Gains (walk_in source.now unit.now walk.now) object.old object.new) }
{
    let list = list_in(alloc, source, unit, walk)?;
    object.put(alloc, "walk", list)
}

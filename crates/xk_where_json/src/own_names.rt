//! What the names of a frame hold, as values.

ghost use Rattle.std.specs.Prelude.{◌≡◌, ◌<◌, ◌^◌, ◌++◌, [], ◌∷◌, length, map, option_map, Some, IfOk, OnOk};
ghost use Rattle.std.specs.Option.{option_to_list};
ghost use Rattle.serde_json.specs.View.{view};
ghost use Rattle.xk_json.specs.Objects.{Gains};
ghost use Rattle.xk_show_locals.specs.Locals.{name_at};
ghost use Rattle.xk_where_json.specs.Frames.{any_clock, any_number, held_items, held_value};
ghost use Rattle.xk_where_json.specs.Frames.{name_member, named_bound, named_clock, named_number};
ghost use Rattle.xk_where_json.specs.Frames.{names_value, slot_items, unnamed_number};

use serde_json::Value as Json;
use std::alloc::{AllocError, Global};
use xk_activity::Frames;
use xk_json::Object;
use xk_show_locals::{Bound, bound_in, is_name, lesser, name_at, push_name};
use xk_types::{Instr, Value};

/// Adds a name, of which no more than 30 letters are told.
pub(crate) fn put_name(alloc: Global, object: &mut Object, name: &[u8]) -> Result<(), AllocError>
    ensures { OnOk result (Gains (name_member name.now) object.old object.new) }
{
    let mut cut = Vec::new(alloc);
    push_name(&mut cut, name)?;
    object.put_bytes(alloc, "name", &cut)
}

/// A number by its name.
fn named_number(alloc: Global, name: &[u8], number: i64) -> Result<Json, AllocError>
    ensures { IfOk result (λ v. view v ≡ named_number name.now number) }
{
    let mut object = Object::new(alloc);
    put_name(alloc, &mut object, name)?;
    object.put_integer(alloc, "number", number)?;
    Ok(object.into_value())
}

/// How far the loop goes up that counts by this name.
fn named_bound(alloc: Global, name: &[u8], number: i64) -> Result<Json, AllocError>
    ensures { IfOk result (λ v. view v ≡ named_bound name.now number) }
{
    let mut object = Object::new(alloc);
    put_name(alloc, &mut object, name)?;
    object.put_integer(alloc, "up_to", number)?;
    Ok(object.into_value())
}

/// A clock by its name.
fn named_clock(alloc: Global, name: &[u8], clock: u32) -> Result<Json, AllocError>
    ensures { IfOk result (λ v. view v ≡ named_clock name.now clock) }
{
    let mut object = Object::new(alloc);
    put_name(alloc, &mut object, name)?;
    object.put_number(alloc, "clock", clock as u64)?;
    Ok(object.into_value())
}

/// A number whose name isn't in the text, if it bounds a loop.
fn unnamed_number(
    alloc: Global,
    names: &[&[u8]],
    number: i64,
    bound: Option<Bound>,
) -> Result<Option<Json>, AllocError>
    ensures { IfOk result (λ o. option_map view o
        ≡ unnamed_number (map (λ x. x.now) names.now) number bound) }
{
    match bound {
        None => Ok(None),
        Some(bound) => {
            let most = lesser(number, bound.most);
            let value = named_bound(alloc, name_at(names, bound.slot), most)?;
            Ok(Some(value))
        }
    }
}

/// A number, by its name or by the loop that it bounds.
fn any_number(
    alloc: Global,
    names: &[&[u8]],
    code: &[Instr],
    slot: u16,
    number: i64,
) -> Result<Option<Json>, AllocError>
    ensures { IfOk result (λ o. option_map view o
        ≡ any_number (map (λ x. x.now) names.now) code.now slot number) }
{
    let name = name_at(names, slot);
    if is_name(name) {
        let value = named_number(alloc, name, number)?;
        return Ok(Some(value));
    }
    unnamed_number(alloc, names, number, bound_in(slot, code))
}

/// A clock, if it has a name.
fn any_clock(alloc: Global, name: &[u8], clock: u32) -> Result<Option<Json>, AllocError>
    ensures { IfOk result (λ o. option_map view o ≡ any_clock name.now clock) }
{
    if is_name(name) {
        let value = named_clock(alloc, name, clock)?;
        return Ok(Some(value));
    }
    Ok(None)
}

/// What a slot holds, where something is told of it.
fn held_value(
    alloc: Global,
    names: &[&[u8]],
    code: &[Instr],
    slot: u16,
    held: Value,
) -> Result<Option<Json>, AllocError>
    ensures { IfOk result (λ o. option_map view o
        ≡ held_value (map (λ x. x.now) names.now) code.now slot held) }
{
    match held {
        Value::Unset => Ok(None),
        Value::Number(number) => any_number(alloc, names, code, slot, number),
        Value::Clock(clock) => any_clock(alloc, name_at(names, slot), clock.0),
    }
}

/// Adds a value, if there is one.
pub(crate) fn push_if_any(values: &mut Vec<Json>, value: Option<Json>) -> Result<(), AllocError>
    ensures { OnOk result (map view values.new.items
        ≡ map view values.old.items ++ option_to_list (option_map view value)) }
{
    match value {
        None => Ok(()),
        Some(value) => {
            values.push(value)?;
            Ok(())
        }
    }
}

/// Adds what a slot holds, where something is told of it.
fn push_held(
    alloc: Global,
    values: &mut Vec<Json>,
    names: &[&[u8]],
    code: &[Instr],
    slot: u16,
    held: Value,
) -> Result<(), AllocError>
    ensures { OnOk result (map view values.new.items ≡ map view values.old.items
        ++ held_items (map (λ x. x.now) names.now) code.now slot (Some held)) }
{
    let value = held_value(alloc, names, code, slot, held)?;
    push_if_any(values, value)
}

/// Adds what a slot of the present frame holds, if there is such a slot.
fn push_slot(
    alloc: Global,
    values: &mut Vec<Json>,
    names: &[&[u8]],
    code: &[Instr],
    frames: &Frames<'_>,
    slot: usize,
) -> Result<(), AllocError>
    requires { length frames.now.frame.slots < 2 ^ 16 }
    ensures { OnOk result (map view values.new.items ≡ map view values.old.items
        ++ slot_items (map (λ x. x.now) names.now) code.now frames.now.frame.slots slot) }
{
    if slot >= frames.slot_count() {
        return Ok(());
    }
    let slot = slot as u16;
    push_held(alloc, values, names, code, slot, frames.slot(slot))
}

/// What the slots of the present frame hold that have these names.
pub(crate) fn names_value(
    alloc: Global,
    names: &[&[u8]],
    code: &[Instr],
    frames: &Frames<'_>,
) -> Result<Json, AllocError>
    requires { length frames.now.frame.slots < 2 ^ 16 }
    ensures { IfOk result (λ v. view v
        ≡ names_value (map (λ x. x.now) names.now) code.now frames.now.frame.slots) }
{
    let mut values = Vec::new(alloc);
    for slot in 0..names.len() {
        push_slot(alloc, &mut values, names, code, frames, slot)?;
    }
    Ok(Json::from(values))
}

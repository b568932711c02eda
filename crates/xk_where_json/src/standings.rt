//! Clocks, shared numbers and the step that can't be taken, as values.

ghost use Rattle.std.specs.Prelude.{◌≡◌, ◌<◌, ◌++◌, [], ◌∷◌, length, map, option_map, slice_get, Some, IfOk, OnOk};
ghost use Rattle.serde_json.specs.Data.{array};
ghost use Rattle.serde_json.specs.View.{items_of, view};
ghost use Rattle.xk_json.specs.Objects.{Gains};
ghost use Rattle.xk_show_events.specs.Worlds.{each_below};
ghost use Rattle.xk_where_json.specs.Standings.{stop_members, stop_value};
ghost use Rattle.xk_where_json.specs.Standings.{clock_value, end_members, shared_if, shared_items, shared_name, shared_value};

use crate::acts::put_does;
use crate::excerpts::put_excerpt;
use crate::own_names::put_name;
use serde_json::Value as Json;
use std::alloc::{AllocError, Global};
use xk_core::Core;
use xk_json::Object;
use xk_show_where::{Stop, condition_of, holders_of};
use xk_types::{Act, ClockId};

/// A clock, with its phase, and who holds it back.
fn clock_value(alloc: Global, core: &Core<'_>, clock: ClockId) -> Result<Json, AllocError>
    requires { clock < length core.now.world.clocks }
    ensures { IfOk result (λ v. view v ≡ clock_value core.now.world clock) }
{
    let holders = holders_of(alloc, core, clock)?;
    let mut object = Object::new(alloc);
    object.put_number(alloc, "clock", clock.0 as u64)?;
    object.put_number(alloc, "phase", core.phase(clock))?;
    put_excerpt(alloc, &mut object, "held_by", "held_by_count", &holders)?;
    Ok(object.into_value())
}

/// All clocks.
pub(crate) fn clocks_value(alloc: Global, core: &Core<'_>) -> Result<Json, AllocError>
    ensures { IfOk result (λ v. view v ≡ array (items_of (each_below
        (λ c. clock_value core.now.world c ∷ []) (length core.now.world.clocks)))) }
{
    let mut values = Vec::new(alloc);
    for clock in 0..core.clocks() {
        values.push(clock_value(alloc, core, ClockId(clock))?)?;
    }
    Ok(Json::from(values))
}

/// Adds the name of a shared number, if it is known.
fn put_shared_name(
    alloc: Global,
    object: &mut Object,
    name: Option<&[u8]>,
) -> Result<(), AllocError>
    ensures { OnOk result (Gains (shared_name (option_map (λ x. x.now) name.entry))
        object.old object.new) }
{
    match name {
        None => Ok(()),
        Some(name) => put_name(alloc, object, name),
    }
}

/// A shared number that is this, by its name, if that is known.
fn shared_value(
    alloc: Global,
    name: Option<&[u8]>,
    number: usize,
    value: i64,
) -> Result<Json, AllocError>
    ensures { IfOk result (λ v. view v
        ≡ shared_value (option_map (λ x. x.now) name.entry) number value) }
{
    let mut object = Object::new(alloc);
    object.put_number(alloc, "shared", number as u64)?;
    object.put_integer(alloc, "value", value)?;
    put_shared_name(alloc, &mut object, name)?;
    Ok(object.into_value())
}

/// The name of a shared number, if it is known.
fn name_of<'t>(shared: &[&'t [u8]], number: usize) -> Option<&'t [u8]>
    ensures { option_map (λ x. x.now) result
        ≡ slice_get (map (λ x. x.now) shared.now) number }
{
    match shared.get(number) {
        None => None,
        Some(name) => Some(*name),
    }
}

/// Adds a shared number that is this.
fn push_shared_value(
    alloc: Global,
    values: &mut Vec<Json>,
    name: Option<&[u8]>,
    number: usize,
    value: &i64,
) -> Result<(), AllocError>
    ensures { OnOk result (map view values.new.items ≡ map view values.old.items
        ++ shared_value (option_map (λ x. x.now) name.entry) number value.now ∷ []) }
{
    values.push(shared_value(alloc, name, number, *value)?)?;
    Ok(())
}

/// Adds a shared number by its name, if that is known, if there is such a number.
fn push_shared_if(
    alloc: Global,
    values: &mut Vec<Json>,
    name: Option<&[u8]>,
    cells: &[i64],
    number: usize,
) -> Result<(), AllocError>
    ensures { OnOk result (map view values.new.items ≡ map view values.old.items
        ++ shared_if (option_map (λ x. x.now) name.entry) number (slice_get cells.now number)) }
{
    match cells.get(number) {
        None => Ok(()),
        Some(value) => push_shared_value(alloc, values, name, number, value),
    }
}

/// Adds a shared number, if there is one.
fn push_shared(
    alloc: Global,
    values: &mut Vec<Json>,
    shared: &[&[u8]],
    cells: &[i64],
    number: usize,
) -> Result<(), AllocError>
    ensures { OnOk result (map view values.new.items ≡ map view values.old.items
        ++ shared_items (map (λ x. x.now) shared.now) cells.now number) }
{
    push_shared_if(alloc, values, name_of(shared, number), cells, number)
}

/// All shared numbers.
pub(crate) fn all_shared(alloc: Global, shared: &[&[u8]], cells: &[i64]) -> Result<Json, AllocError>
    ensures { IfOk result (λ v. view v ≡ array (items_of (each_below
        (shared_items (map (λ x. x.now) shared.now) cells.now) (length cells.now)))) }
{
    let mut values = Vec::new(alloc);
    for number in 0..cells.len() {
        push_shared(alloc, &mut values, shared, cells, number)?;
    }
    Ok(Json::from(values))
}

/// The step that can't be taken, and why.
fn stop_value(alloc: Global, core: &Core<'_>, stop: Stop) -> Result<Json, AllocError>
    ensures { IfOk result (λ v. view v
        ≡ stop_value core.now.module_run core.now.world stop) }
{
    let mut object = Object::new(alloc);
    put_does(
        alloc,
        &mut object,
        stop.act,
        condition_of(core, Act(stop.act)),
    )?;
    object.put_number(alloc, "entry", stop.entry)?;
    object.put_number(alloc, "step", stop.step as u64)?;
    object.put_number(alloc, "steps", stop.steps as u64)?;
    Ok(object.into_value())
}

/// Adds it, if there is such a step.
pub(crate) fn put_stop(
    alloc: Global,
    object: &mut Object,
    core: &Core<'_>,
    stop: Option<Stop>,
) -> Result<(), AllocError>
    ensures { OnOk result (Gains (stop_members core.now.module_run core.now.world stop)
        object.old object.new) }
{
    match stop {
        None => Ok(()),
        Some(stop) => {
            let value = stop_value(alloc, core, stop)?;
            object.put(alloc, "stopped", value)
        }
    }
}

/// Adds the step at which the log ends, if one behind it was asked for.
pub(crate) fn put_end(
    alloc: Global,
    object: &mut Object,
    ends: Option<u64>,
) -> Result<(), AllocError>
    ensures { OnOk result (Gains (end_members ends) object.old object.new) }
{
    match ends {
        None => Ok(()),
        Some(step) => object.put_number(alloc, "log_ends", step),
    }
}

//! Where activities waited, as values.

ghost use Rattle.std.specs.Prelude.{◌≡◌, [], ◌∷◌, codes, IfOk, OnOk};
ghost use Rattle.serde_json.specs.View.{view};
ghost use Rattle.xk_json.specs.Objects.{Gains, array_of};
ghost use Rattle.xk_span_json.specs.Span.{standstill_members, wait_value};

use crate::phases::phases_value;
use serde_json::Value;
use std::alloc::{AllocError, Global};
use xk_json::Object;
use xk_races::Deed;
use xk_show_events::Places;
use xk_show_json::{event_name, put_origin};
use xk_span_summary::{Wait, waits_of};

/// How long activities waited at an instruction.
fn wait_value(alloc: Global, places: &Places<'_>, wait: &Wait) -> Result<Value, AllocError>
    ensures { IfOk result (λ v. view v ≡ wait_value places.now wait.now) }
{
    let step = &wait.step;
    let mut object = Object::new(alloc);
    object.put_text(alloc, "event", event_name(step.event))?;
    object.put_number(alloc, "place", step.place as u64)?;
    object.put_number(alloc, "rounds", wait.rounds as u64)?;
    object.put_number(alloc, "times", wait.times as u64)?;
    object.put_number(alloc, "unit", step.unit as u64)?;
    put_origin(alloc, &mut object, places.origin(step.unit, step.place))?;
    Ok(object.into_value())
}

/// All of them.
fn wait_values(alloc: Global, places: &Places<'_>, waits: &[Wait]) -> Result<Value, AllocError>
    ensures { IfOk result (λ v. view v ≡ array_of (wait_value places.now) waits.now) }
{
    let mut values = Vec::new(alloc);
    for wait in waits {
        values.push(wait_value(alloc, places, wait)?)?;
    }
    Ok(Value::from(values))
}

/// Adds waits.
fn put_waits(
    alloc: Global,
    object: &mut Object,
    places: &Places<'_>,
    waits: &[Wait],
) -> Result<(), AllocError>
    ensures { OnOk result (Gains ((codes "waits", array_of (wait_value places.now) waits.now) ∷ [])
        object.old object.new) }
{
    let values = wait_values(alloc, places, waits)?;
    object.put(alloc, "waits", values)
}

/// Adds who came last at each phase, and where activities waited.
pub(crate) fn put_standstill(
    alloc: Global,
    object: &mut Object,
    places: &Places<'_>,
    times: &[usize],
    deeds: &[Deed],
) -> Result<(), AllocError>
    ensures { OnOk result
        (Gains (standstill_members places.now times.now deeds.now) object.old object.new) }
{
    let phases = phases_value(alloc, places, times, deeds)?;
    object.put(alloc, "phases", phases)?;
    let waits = waits_of(alloc, times, deeds)?;
    put_waits(alloc, object, places, &waits)
}

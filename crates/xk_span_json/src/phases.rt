//! Phases of clocks as values.

ghost use Rattle.std.specs.Prelude.{◌≡◌, [], ◌∷◌, ◌++◌, codes, map, IfOk, OnOk};
ghost use Rattle.serde_json.specs.View.{view};
ghost use Rattle.xk_json.specs.Objects.{Gains, array_of};
ghost use Rattle.xk_span_json.specs.Phases.{came_members, earlier_value, last_value, phase_items, phase_value, phases_value};

use crate::steps::step_value;
use serde_json::Value;
use std::alloc::{AllocError, Global};
use xk_json::Object;
use xk_races::{Deed, Part};
use xk_show_events::Places;
use xk_show_span::{Arrival, Coming, earlier_of, last_of, last_round};
use xk_span_summary::number_at;

/// One who came earlier, and by how many rounds.
fn earlier_value(alloc: Global, round: usize, arrival: &Arrival) -> Result<Value, AllocError>
    ensures { IfOk result (λ v. view v ≡ earlier_value round arrival.now) }
{
    let rounds = round.saturating_sub(arrival.round);
    let mut object = Object::new(alloc);
    object.put_number(alloc, "act", arrival.step.act as u64)?;
    object.put_number(alloc, "rounds", rounds as u64)?;
    Ok(object.into_value())
}

/// Those who came earlier.
fn earlier_values(alloc: Global, round: usize, came: &[Arrival]) -> Result<Value, AllocError>
    ensures { IfOk result (λ v. view v ≡ array_of (earlier_value round) came.now) }
{
    let mut values = Vec::new(alloc);
    for arrival in came {
        values.push(earlier_value(alloc, round, arrival)?)?;
    }
    Ok(Value::from(values))
}

/// Those who came last.
fn last_values(alloc: Global, places: &Places<'_>, came: &[Arrival]) -> Result<Value, AllocError>
    ensures { IfOk result (λ v. view v ≡ array_of (last_value places.now) came.now) }
{
    let mut values = Vec::new(alloc);
    for arrival in came {
        values.push(step_value(alloc, places, &arrival.step)?)?;
    }
    Ok(Value::from(values))
}

/// Adds those who came earlier.
fn put_earlier(
    alloc: Global,
    object: &mut Object,
    round: usize,
    came: &[Arrival],
) -> Result<(), AllocError>
    ensures { OnOk result (Gains ((codes "earlier", array_of (earlier_value round) came.now) ∷ [])
        object.old object.new) }
{
    let values = earlier_values(alloc, round, came)?;
    object.put(alloc, "earlier", values)
}

/// Adds those who came last.
fn put_last(
    alloc: Global,
    object: &mut Object,
    places: &Places<'_>,
    came: &[Arrival],
) -> Result<(), AllocError>
    ensures { OnOk result (Gains ((codes "last", array_of (last_value places.now) came.now) ∷ [])
        object.old object.new) }
{
    let values = last_values(alloc, places, came)?;
    object.put(alloc, "last", values)
}

/// Adds who came last at a phase, in this round, and who came earlier.
fn put_came(
    alloc: Global,
    object: &mut Object,
    places: &Places<'_>,
    round: usize,
    came: &[Arrival],
) -> Result<(), AllocError>
    ensures { OnOk result (Gains (came_members places.now round came.now)
        object.old object.new) }
{
    let earlier = earlier_of(alloc, round, came)?;
    put_earlier(alloc, object, round, &earlier)?;
    let last = last_of(alloc, round, came)?;
    put_last(alloc, object, places, &last)
}

/// A phase of a clock, by those for whom its advance waited.
fn phase_value(
    alloc: Global,
    places: &Places<'_>,
    clock: u32,
    phase: usize,
    came: &[Arrival],
) -> Result<Value, AllocError>
    ensures { IfOk result (λ v. view v ≡ phase_value places.now clock phase came.now) }
{
    let round = last_round(came);
    let mut object = Object::new(alloc);
    object.put_number(alloc, "clock", clock as u64)?;
    object.put_number(alloc, "phase", phase as u64)?;
    object.put_number(alloc, "round", round as u64)?;
    put_came(alloc, &mut object, places, round, came)?;
    Ok(object.into_value())
}

/// Adds a phase.
fn push_value(
    alloc: Global,
    values: &mut Vec<Value>,
    places: &Places<'_>,
    clock: u32,
    phase: usize,
    came: &[Arrival],
) -> Result<(), AllocError>
    ensures { OnOk result (map view values.new.items ≡ map view values.old.items
        ++ phase_value places.now clock phase came.now ∷ []) }
{
    values.push(phase_value(alloc, places, clock, phase, came)?)?;
    Ok(())
}

/// Adds the phase that a deed ends, if it is an advance.
fn push_phase(
    alloc: Global,
    values: &mut Vec<Value>,
    places: &Places<'_>,
    part: Part,
    known: &Coming,
) -> Result<(), AllocError>
    ensures { OnOk result (map view values.new.items ≡ map view values.old.items
        ++ phase_items places.now part known.now) }
{
    match part {
        Part::Advance(clock) => {
            let phase = known.next_phase(clock)?;
            let came = known.awaited(alloc, clock)?;
            push_value(alloc, values, places, clock, phase, &came)
        }
        _ => Ok(()),
    }
}

/// All phases, by the times of deeds.
pub(crate) fn phases_value(
    alloc: Global,
    places: &Places<'_>,
    times: &[usize],
    deeds: &[Deed],
) -> Result<Value, AllocError>
    ensures { IfOk result (λ v. view v ≡ phases_value places.now times.now deeds.now) }
{
    let mut known = Coming::nobody(alloc);
    let mut values = Vec::new(alloc);
    for (i, deed) in deeds.iter().enumerate() {
        push_phase(alloc, &mut values, places, deed.part, &known)?;
        known.take(alloc, deed, number_at(times, i))?;
    }
    Ok(Value::from(values))
}

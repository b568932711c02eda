//! A path as a value, by stretches and by lines.

ghost use Rattle.std.specs.Prelude.{◌≡◌, [], ◌∷◌, ◌++◌, codes, map, IfOk, OnOk};
ghost use Rattle.serde_json.specs.View.{view};
ghost use Rattle.xk_json.specs.Objects.{Gains, array_of};
ghost use Rattle.xk_span_json.specs.Span.{behind_members, line_items, line_value, lines_value, path_members, stretch_value, why};

use crate::steps::put_step_value;
use serde_json::Value;
use std::alloc::{AllocError, Global};
use xk_json::Object;
use xk_show_events::{Places, RunStep};
use xk_show_span::lines_of;
use xk_span_summary::{Stretch, number_at, stretches_of};
use xk_types::Event;

/// Why a step comes behind one of another activity.
fn why(event: Event) -> &'static str
    ensures { result.now ≡ why event }
{
    match event {
        Event::Passed => "clock",
        Event::Closed => "finish",
        _ => "start",
    }
}

/// Adds whose step a stretch comes behind, if there is one.
fn put_behind(
    alloc: Global,
    object: &mut Object,
    behind: Option<u32>,
    event: Event,
) -> Result<(), AllocError>
    ensures { OnOk result (Gains (behind_members behind event) object.old object.new) }
{
    match behind {
        None => Ok(()),
        Some(act) => {
            object.put_number(alloc, "behind", act as u64)?;
            object.put_text(alloc, "why", why(event))
        }
    }
}

/// Steps of a path that are one activity's.
fn stretch_value(alloc: Global, places: &Places<'_>, stretch: &Stretch) -> Result<Value, AllocError>
    ensures { IfOk result (λ v. view v ≡ stretch_value places.now stretch.now) }
{
    let mut object = Object::new(alloc);
    put_step_value(alloc, &mut object, "first", places, &stretch.first)?;
    put_step_value(alloc, &mut object, "last", places, &stretch.last)?;
    object.put_number(alloc, "start", stretch.start as u64)?;
    object.put_number(alloc, "stop", stretch.stop as u64)?;
    put_behind(alloc, &mut object, stretch.behind, stretch.first.event)?;
    Ok(object.into_value())
}

/// All stretches.
fn stretch_values(alloc: Global, places: &Places<'_>, list: &[Stretch]) -> Result<Value, AllocError>
    ensures { IfOk result (λ v. view v ≡ array_of (stretch_value places.now) list.now) }
{
    let mut values = Vec::new(alloc);
    for stretch in list {
        values.push(stretch_value(alloc, places, stretch)?)?;
    }
    Ok(Value::from(values))
}

/// So many steps that come from a line.
fn line_value(alloc: Global, line: usize, many: usize) -> Result<Value, AllocError>
    ensures { IfOk result (λ v. view v ≡ line_value line many) }
{
    let mut object = Object::new(alloc);
    object.put_number(alloc, "line", line as u64)?;
    object.put_number(alloc, "steps", many as u64)?;
    Ok(object.into_value())
}

/// Adds a line, if steps come from it.
fn push_line(
    alloc: Global,
    values: &mut Vec<Value>,
    counts: &[usize],
    line: usize,
) -> Result<(), AllocError>
    ensures { OnOk result (map view values.new.items ≡ map view values.old.items
        ++ line_items counts.now line) }
{
    let many = number_at(counts, line);
    if many == 0 {
        return Ok(());
    }
    values.push(line_value(alloc, line, many)?)?;
    Ok(())
}

/// All lines, by how many steps come from each.
fn lines_value(alloc: Global, counts: &[usize]) -> Result<Value, AllocError>
    ensures { IfOk result (λ v. view v ≡ lines_value counts.now) }
{
    let mut values = Vec::new(alloc);
    for line in 0..counts.len() {
        push_line(alloc, &mut values, counts, line)?;
    }
    Ok(Value::from(values))
}

/// Adds lines, by how many steps come from each.
fn put_lines(alloc: Global, object: &mut Object, counts: &[usize]) -> Result<(), AllocError>
    ensures { OnOk result (Gains ((codes "lines", lines_value counts.now) ∷ [])
        object.old object.new) }
{
    let value = lines_value(alloc, counts)?;
    object.put(alloc, "lines", value)
}

/// Adds stretches.
fn put_stretches(
    alloc: Global,
    object: &mut Object,
    places: &Places<'_>,
    list: &[Stretch],
) -> Result<(), AllocError>
    ensures { OnOk result (Gains ((codes "path", array_of (stretch_value places.now) list.now) ∷ [])
        object.old object.new) }
{
    let values = stretch_values(alloc, places, list)?;
    object.put(alloc, "path", values)
}

/// Adds a path, by lines and by stretches.
pub(crate) fn put_path(
    alloc: Global,
    object: &mut Object,
    places: &Places<'_>,
    path: &[RunStep],
) -> Result<(), AllocError>
    ensures { OnOk result (Gains (path_members places.now path.now) object.old object.new) }
{
    let counts = lines_of(alloc, places, path)?;
    put_lines(alloc, object, &counts)?;
    let list = stretches_of(alloc, path)?;
    put_stretches(alloc, object, places, &list)
}

//! Work, span and rounds as members of a value.

ghost use Rattle.std.specs.Prelude.{◌≡◌, ◌<◌, ◌++◌, [], ◌∷◌, map, IfOk, OnOk};
ghost use Rattle.serde_json.specs.Data.{array};
ghost use Rattle.serde_json.specs.View.{items_of, view};
ghost use Rattle.xk_json.specs.Objects.{Gains};
ghost use Rattle.xk_span_json.specs.Span.{head_members, processors_items, processors_value};

use serde_json::Value;
use std::alloc::{AllocError, Global};
use xk_json::Object;
use xk_span_summary::{greatest, least_rounds, level_rounds};

/// How many rounds it takes on so many processors.
fn processors_value(
    alloc: Global,
    work: usize,
    span: usize,
    widths: &[usize],
    p: usize,
) -> Result<Value, AllocError>
    requires { 0 < p }
    ensures { IfOk result (λ v. view v ≡ processors_value work span widths.now p) }
{
    let least = least_rounds(p, work, span)?;
    let most = level_rounds(p, widths)?;
    let mut object = Object::new(alloc);
    object.put_number(alloc, "least", least as u64)?;
    object.put_number(alloc, "most", most as u64)?;
    object.put_number(alloc, "processors", p as u64)?;
    Ok(object.into_value())
}

/// Adds the same.
fn push_processors(
    alloc: Global,
    values: &mut Vec<Value>,
    work: usize,
    span: usize,
    widths: &[usize],
    p: usize,
) -> Result<(), AllocError>
    requires { 0 < p }
    ensures { OnOk result (map view values.new.items ≡ map view values.old.items
        ++ processors_value work span widths.now p ∷ []) }
{
    values.push(processors_value(alloc, work, span, widths, p)?)?;
    Ok(())
}

/// On 2, 4 and 8 of them, if the run has no race.
fn processors_values(
    alloc: Global,
    free: bool,
    work: usize,
    span: usize,
    widths: &[usize],
) -> Result<Value, AllocError>
    ensures { IfOk result (λ v. view v
        ≡ array (items_of (processors_items free work span widths.now))) }
{
    let mut values = Vec::new(alloc);
    if free {
        push_processors(alloc, &mut values, work, span, widths, 2)?;
        push_processors(alloc, &mut values, work, span, widths, 4)?;
        push_processors(alloc, &mut values, work, span, widths, 8)?;
    }
    Ok(Value::from(values))
}

/// Adds work, span, the widest round, rounds on some processors, and whether that holds of every schedule.
pub(crate) fn put_head(
    alloc: Global,
    object: &mut Object,
    free: bool,
    work: usize,
    span: usize,
    widths: &[usize],
) -> Result<(), AllocError>
    ensures { OnOk result
        (Gains (head_members free work span widths.now) object.old object.new) }
{
    let processors = processors_values(alloc, free, work, span, widths)?;
    object.put_truth(alloc, "every_schedule", free)?;
    object.put(alloc, "processors", processors)?;
    object.put_number(alloc, "span", span as u64)?;
    object.put_number(alloc, "widest", greatest(widths).many as u64)?;
    object.put_number(alloc, "work", work as u64)
}

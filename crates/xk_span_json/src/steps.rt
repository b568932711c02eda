//! Steps as values.

ghost use Rattle.std.specs.Prelude.{◌≡◌, ◌∷◌, [], IfOk, OnOk};
ghost use Rattle.serde_json.specs.View.{view};
ghost use Rattle.xk_json.specs.Objects.{Gains};
ghost use Rattle.xk_span_json.specs.Phases.{step_value};

use serde_json::Value;
use std::alloc::{AllocError, Global};
use xk_json::Object;
use xk_show_events::{Places, RunStep};
use xk_show_json::{put_origin, put_step};

/// Which step it was, whose, what it did, and where.
pub(crate) fn step_value(
    alloc: Global,
    places: &Places<'_>,
    step: &RunStep,
) -> Result<Value, AllocError>
    ensures { IfOk result (λ v. view v ≡ step_value places.now step.now) }
{
    let mut object = Object::new(alloc);
    put_step(alloc, &mut object, step)?;
    put_origin(alloc, &mut object, places.origin(step.unit, step.place))?;
    Ok(object.into_value())
}

/// Adds a step under this key.
pub(crate) fn put_step_value(
    alloc: Global,
    object: &mut Object,
    key: &str,
    places: &Places<'_>,
    step: &RunStep,
) -> Result<(), AllocError>
    ensures { OnOk result (Gains ((key.now, step_value places.now step.now) ∷ [])
        object.old object.new) }
{
    let value = step_value(alloc, places, step)?;
    object.put(alloc, key, value)
}

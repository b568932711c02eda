//! Places and names of a source text.

ghost use Rattle.std.specs.Prelude.{◌≡◌, IfOk, OnOk};
ghost use Rattle.xk_explain_json.specs.Explanations.{origin_members, slot_name_member, unit_name};
ghost use Rattle.xk_json.specs.Objects.{Gains};

use crate::members::put_place;
use serde_json::Value;
use std::alloc::{AllocError, Global};
use xk_explain::{SourceText, is_name, origin_at, place_title, slot_name};
use xk_json::Object;
use xk_unit_origins::{Head, UnitOrigins};

/// `main`, `f`, or `async at 3:5`.
fn unit_name(alloc: Global, source: &SourceText<'_>, head: &Head<'_>) -> Result<Vec<u8>, AllocError>
    ensures { IfOk result (λ v. v.items ≡ unit_name source.now head.now) }
{
    let mut out = Vec::new(alloc);
    match head.name {
        Some(name) => {
            out.extend_from_slice(name)?;
            Ok(out)
        }
        None => {
            let place = place_title(alloc, source.nearest(head.at))?;
            out.extend_from_slice(b"async at ")?;
            out.extend_from_slice(place.as_bytes())?;
            Ok(out)
        }
    }
}

/// Adds the name of a unit, and the place that an instruction of it comes from.
pub(crate) fn put_origin(
    alloc: Global,
    object: &mut Object,
    source: &SourceText<'_>,
    unit: &UnitOrigins<'_>,
    at: u16,
) -> Result<(), AllocError>
    ensures { OnOk result
        (Gains (origin_members source.now unit.now at) object.old object.new) }
{
    let name = unit_name(alloc, source, &unit.head)?;
    object.put_bytes(alloc, "in", &name)?;
    put_place(alloc, object, source, origin_at(source.bytes(), unit, at))
}

/// Adds the name of a slot, or null where the text has none for it.
pub(crate) fn put_slot_name(
    alloc: Global,
    object: &mut Object,
    unit: &UnitOrigins<'_>,
    slot: u16,
) -> Result<(), AllocError>
    ensures { OnOk result (Gains (slot_name_member unit.now.slots slot) object.old object.new) }
{
    let name = slot_name(unit, slot);
    if is_name(name) {
        return object.put_bytes(alloc, "slot_name", name);
    }
    object.put(alloc, "slot_name", Value::Null)
}

//! Frames as values.

ghost use Rattle.std.specs.Prelude.{◌≡◌, [], ◌∷◌, ◌<◌, ◌^◌, ◌++◌, codes, length, map, option_map, IfOk, OnOk};
ghost use Rattle.serde_json.specs.Data.{array};
ghost use Rattle.serde_json.specs.View.{items_of, view};
ghost use Rattle.xk_show_events.specs.Worlds.{each_below};
ghost use Rattle.xk_json.specs.Objects.{Gains, GainsAll, bytes_value};
ghost use Rattle.xk_show_locals.specs.Locals.{AreFew, unit_word};
ghost use Rattle.xk_where_json.specs.Frames.{frame_items, frame_value, names_value, own_members, place_groups};

use crate::own_names::names_value;
use serde_json::Value as Json;
use std::alloc::{AllocError, Global};
use xk_activity::Frames;
use xk_bounds::Verified;
use xk_core::Core;
use xk_json::Object;
use xk_show_events::Places;
use xk_show_json::put_origin;
use xk_show_locals::{code_of, push_unit};
use xk_types::{Act, Instr};
use xk_unit_origins::UnitOrigins;

/// Adds an instruction, and the line and column that it comes from.
pub(crate) fn put_place(
    alloc: Global,
    object: &mut Object,
    places: &Places<'_>,
    unit: u16,
    place: u32,
) -> Result<(), AllocError>
    ensures { OnOk result (GainsAll (place_groups places.now unit place) object.old object.new) }
{
    object.put_number(alloc, "place", place as u64)?;
    object.put_number(alloc, "unit", unit as u64)?;
    put_origin(alloc, object, places.origin(unit, place))
}

/// Adds a method's name, or `async`.
fn put_method(alloc: Global, object: &mut Object, name: Option<&[u8]>) -> Result<(), AllocError>
    ensures { OnOk result (Gains ((
      codes "in",
      bytes_value (unit_word (option_map (λ x. x.now) name.entry)),
    ) ∷ [])
        object.old object.new) }
{
    let mut method = Vec::new(alloc);
    push_unit(&mut method, name)?;
    object.put_bytes(alloc, "in", &method)
}

/// Adds what these names of the present frame hold.
fn put_names(
    alloc: Global,
    object: &mut Object,
    names: &[&[u8]],
    code: &[Instr],
    frames: &Frames<'_>,
) -> Result<(), AllocError>
    requires { length frames.now.frame.slots < 2 ^ 16 }
    ensures { OnOk result (Gains ((
      codes "names",
      names_value (map (λ x. x.now) names.now)
          code.now frames.now.frame.slots,
    ) ∷ []) object.old object.new) }
{
    let value = names_value(alloc, names, code, frames)?;
    object.put(alloc, "names", value)
}

/// Adds in which method the present frame stands, and what its names hold.
fn put_own(
    alloc: Global,
    object: &mut Object,
    of_unit: Option<&UnitOrigins<'_>>,
    verified: &Verified,
    frames: &Frames<'_>,
) -> Result<(), AllocError>
    requires { length frames.now.frame.slots < 2 ^ 16 }
    ensures { OnOk result (Gains (own_members verified.now frames.now.frame
        (option_map (λ o. o.now) of_unit.entry)) object.old object.new) }
{
    match of_unit {
        None => Ok(()),
        Some(of_unit) => {
            put_method(alloc, object, of_unit.head.name)?;
            let code = code_of(verified, frames.unit());
            put_names(alloc, object, &of_unit.slots, code, frames)
        }
    }
}

/// The present frame of an activity.
fn frame_value(
    alloc: Global,
    places: &Places<'_>,
    verified: &Verified,
    act: u32,
    frames: &Frames<'_>,
) -> Result<Json, AllocError>
    requires { length frames.now.frame.slots < 2 ^ 16 }
    ensures { IfOk result (λ v. view v
        ≡ frame_value places.now verified.now act frames.now.frame) }
{
    let unit = frames.unit();
    let of_unit = places.origins().get(unit as usize);
    let mut object = Object::new(alloc);
    object.put_number(alloc, "act", act as u64)?;
    put_place(alloc, &mut object, places, unit, frames.place())?;
    put_own(alloc, &mut object, of_unit, verified, frames)?;
    Ok(object.into_value())
}

/// Adds the frames that wait, the nearest first.
fn push_callers(
    alloc: Global,
    values: &mut Vec<Json>,
    places: &Places<'_>,
    verified: &Verified,
    act: u32,
    frames: &mut Frames<'_>,
) -> Result<(), AllocError>
    requires { AreFew frames.old.callers }
    ensures { OnOk result (map view values.new.items ≡ map view values.old.items
        ++ map (frame_value places.now verified.now act) frames.old.callers) }
{
    if !frames.up() {
        return Ok(());
    }
    values.push(frame_value(alloc, places, verified, act, frames)?)?;
    push_callers(alloc, values, places, verified, act, frames)
}

/// Adds the present frame, and those that wait for it to return.
fn push_all(
    alloc: Global,
    values: &mut Vec<Json>,
    places: &Places<'_>,
    verified: &Verified,
    act: u32,
    frames: &Frames<'_>,
) -> Result<(), AllocError>
    requires few { length frames.now.frame.slots < 2 ^ 16 }
    requires few_outside { AreFew frames.now.callers }
    ensures { OnOk result (map view values.new.items ≡ map view values.old.items
        ++ map (frame_value places.now verified.now act) (frames.now.frame ∷ frames.now.callers)) }
{
    values.push(frame_value(alloc, places, verified, act, frames)?)?;
    let mut outer = frames.copy()?;
    push_callers(alloc, values, places, verified, act, &mut outer)
}

/// Adds the frames of an activity that hasn't ended.
#[tactic(auto, using(xk_show_locals::proofs::FrameLemmas::few_frames))]
fn push_frames(
    alloc: Global,
    values: &mut Vec<Json>,
    places: &Places<'_>,
    core: &Core<'_>,
    act: Act,
) -> Result<(), AllocError>
    requires { act < length core.now.world.activities }
    ensures { OnOk result (map view values.new.items ≡ map view values.old.items
        ++ frame_items places.now core.now.module_run core.now.world act) }
{
    if !core.is_living(act) {
        return Ok(());
    }
    // Every core is where a legal schedule of an accepted module leads.
    let _there = core.activities();
    push_all(
        alloc,
        values,
        places,
        core.module(),
        act.0,
        core.frames(act),
    )
}

/// The frames of all activities.
pub(crate) fn frames_value(
    alloc: Global,
    places: &Places<'_>,
    core: &Core<'_>,
) -> Result<Json, AllocError>
    ensures { IfOk result (λ v. view v ≡ array (items_of (each_below
        (frame_items places.now core.now.module_run core.now.world)
        (length core.now.world.activities)))) }
{
    let mut values = Vec::new(alloc);
    for act in 0..core.activities() {
        push_frames(alloc, &mut values, places, core, Act(act))?;
    }
    Ok(Json::from(values))
}

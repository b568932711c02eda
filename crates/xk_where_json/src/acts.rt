//! Activities as values.

ghost use Rattle.std.specs.Prelude.{◌≡◌, ◌<◌, ◌++◌, [], ◌∷◌, length, map, option_map, Some, IfOk, OnOk};
ghost use Rattle.serde_json.specs.Data.{array};
ghost use Rattle.serde_json.specs.View.{items_of, view};
ghost use Rattle.xk_json.specs.Objects.{Gains, GainsAll};
ghost use Rattle.xk_activity.specs.Activities.{act_at};
ghost use Rattle.xk_show_where.specs.Awaited.{AreAwaited};
ghost use Rattle.xk_show_events.specs.Worlds.{each_below};
ghost use Rattle.xk_where_json.specs.Standings.{act_groups, act_value, awaited_members, condition_name, does_members, living_groups};
ghost use Rattle.xk_where_json.specs.Standings.{registration_by, registration_items, registrations_value, standing_name};

use crate::excerpts::put_excerpt;
use crate::frames::put_place;
use serde_json::Value as Json;
use std::alloc::{AllocError, Global};
use xk_core::Core;
use xk_json::Object;
use xk_show_events::Places;
use xk_show_where::{Condition, Excerpt, all_awaited, condition_of};
use xk_types::{Act, ClockId, Standing};

/// What an activity does, in words.
fn condition_name(condition: Condition) -> &'static str
    ensures { result.now ≡ condition_name condition }
{
    match condition {
        Condition::Absent => "isn't there",
        Condition::Ended => "has ended",
        Condition::Able => "can step",
        Condition::ForClocks => "waits for clocks",
        Condition::InFinish => "waits in finish",
    }
}

/// Adds an activity, and what it does.
pub(crate) fn put_does(
    alloc: Global,
    object: &mut Object,
    act: u32,
    condition: Condition,
) -> Result<(), AllocError>
    ensures { OnOk result (Gains (does_members act condition) object.old object.new) }
{
    object.put_number(alloc, "act", act as u64)?;
    object.put_text(alloc, "does", condition_name(condition))
}

/// A clock, and where somebody stands on it who is registered.
fn registration(alloc: Global, clock: ClockId, word: &str) -> Result<Json, AllocError>
    ensures { IfOk result (λ v. view v ∷ [] ≡ registration_by clock (Some word.now)) }
{
    let mut object = Object::new(alloc);
    object.put_number(alloc, "clock", clock.0 as u64)?;
    object.put_text(alloc, "standing", word)?;
    Ok(object.into_value())
}

/// Where an activity stands on a clock, if it is registered there.
fn standing_name(standing: Standing) -> Option<&'static str>
    ensures { option_map (λ x. x.now) result ≡ standing_name standing }
{
    match standing {
        Standing::Apart => None,
        Standing::Open => Some("open"),
        Standing::Signalled => Some("signalled"),
        Standing::Ahead => Some("ahead"),
    }
}

/// Adds a clock, if the activity is registered there.
fn push_registration(
    alloc: Global,
    values: &mut Vec<Json>,
    core: &Core<'_>,
    act: Act,
    clock: ClockId,
) -> Result<(), AllocError>
    requires act { act < length core.now.world.activities }
    requires clock { clock < length core.now.world.clocks }
    ensures { OnOk result (map view values.new.items ≡ map view values.old.items
        ++ registration_items core.now.world act clock) }
{
    match standing_name(core.standing(act, clock)) {
        None => Ok(()),
        Some(word) => {
            values.push(registration(alloc, clock, word)?)?;
            Ok(())
        }
    }
}

/// The clocks on which an activity is registered.
fn registrations_value(alloc: Global, core: &Core<'_>, act: Act) -> Result<Json, AllocError>
    requires { act < length core.now.world.activities }
    ensures { IfOk result (λ v. view v ≡ registrations_value core.now.world act) }
{
    let mut values = Vec::new(alloc);
    for clock in 0..core.clocks() {
        push_registration(alloc, &mut values, core, act, ClockId(clock))?;
    }
    Ok(Json::from(values))
}

/// Adds whom an activity awaits in a finish, if it does.
fn put_awaited(
    alloc: Global,
    object: &mut Object,
    core: &Core<'_>,
    awaited: &[Excerpt],
    condition: Condition,
    act: Act,
) -> Result<(), AllocError>
    requires act { act < length core.now.world.activities }
    requires table { AreAwaited core.now.world (length core.now.world.activities) awaited.now }
    ensures { OnOk result
        (Gains (awaited_members condition core.now.world act) object.old object.new) }
{
    match condition {
        Condition::InFinish => match awaited.get(act.0 as usize) {
            None => Ok(()),
            Some(acts) => put_excerpt(alloc, object, "waits_for", "waits_for_count", acts),
        },
        Condition::Absent => Ok(()),
        Condition::Ended => Ok(()),
        Condition::Able => Ok(()),
        Condition::ForClocks => Ok(()),
    }
}

/// Adds where an activity is that hasn't ended, on which clocks it is registered, and whom it awaits.
fn put_living(
    alloc: Global,
    object: &mut Object,
    places: &Places<'_>,
    core: &Core<'_>,
    awaited: &[Excerpt],
    condition: Condition,
    act: Act,
) -> Result<(), AllocError>
    requires act { act < length core.now.world.activities }
    requires table { AreAwaited core.now.world (length core.now.world.activities) awaited.now }
    ensures { OnOk result (GainsAll (living_groups places.now core.now.world act condition
        (act_at core.now.world.activities act)) object.old object.new) }
{
    let frames = core.frames(act);
    let clocks = registrations_value(alloc, core, act)?;
    put_place(alloc, object, places, frames.unit(), frames.place())?;
    object.put(alloc, "clocks", clocks)?;
    put_awaited(alloc, object, core, awaited, condition, act)
}

/// An activity.
fn act_value(
    alloc: Global,
    places: &Places<'_>,
    core: &Core<'_>,
    awaited: &[Excerpt],
    act: Act,
) -> Result<Json, AllocError>
    requires act { act < length core.now.world.activities }
    requires table { AreAwaited core.now.world (length core.now.world.activities) awaited.now }
    ensures { IfOk result (λ v. view v
        ≡ act_value places.now core.now.module_run core.now.world act) }
{
    let condition = condition_of(core, act);
    let mut object = Object::new(alloc);
    put_does(alloc, &mut object, act.0, condition)?;
    if core.is_living(act) {
        put_living(alloc, &mut object, places, core, awaited, condition, act)?;
    }
    Ok(object.into_value())
}

/// All activities.
pub(crate) fn acts_value(
    alloc: Global,
    places: &Places<'_>,
    core: &Core<'_>,
) -> Result<Json, AllocError>
    ensures { IfOk result (λ v. view v ≡ array (items_of (each_below
        (λ a. act_value places.now core.now.module_run core.now.world a ∷ [])
        (length core.now.world.activities)))) }
{
    let awaited = all_awaited(alloc, core)?;
    let mut values = Vec::new(alloc);
    for act in 0..core.activities() {
        values.push(act_value(alloc, places, core, &awaited, Act(act))?)?;
    }
    Ok(Json::from(values))
}

//! Races as values.

ghost use Rattle.std.specs.Prelude.{◌≡◌, [], ◌∷◌, option_map, IfOk, OnOk};
ghost use Rattle.serde_json.specs.View.{view};
ghost use Rattle.xk_json.specs.Objects.{Gains, array_of};
ghost use Rattle.xk_show_json.specs.Events.{event_value};
ghost use Rattle.xk_races_json.specs.Races.{race_member, race_value, scope_members};

use crate::pairs::Pair;
use serde_json::Value;
use std::alloc::{AllocError, Global};
use xk_json::Object;
use xk_show_events::Places;
use xk_show_json::{event_value, put_subject};
use xk_show_names::{Account, Names};

/// Adds a step under this key.
fn put_event(
    alloc: Global,
    object: &mut Object,
    key: &str,
    places: &Places<'_>,
    names: Option<&Names<'_>>,
    account: &Account,
) -> Result<(), AllocError>
    ensures { OnOk result (Gains
        ((key.now, event_value places.now (option_map (λ n. n.now) names.entry) account.now) ∷ [])
        object.old object.new) }
{
    let value = event_value(alloc, places, names, account)?;
    object.put(alloc, key, value)
}

/// A race: which shared number two steps raced for, and both.
fn race_value(
    alloc: Global,
    places: &Places<'_>,
    names: Option<&Names<'_>>,
    pair: &Pair,
) -> Result<Value, AllocError>
    ensures { IfOk result (λ v. view v
        ≡ race_value places.now (option_map (λ n. n.now) names.entry) pair.now) }
{
    let mut object = Object::new(alloc);
    put_event(alloc, &mut object, "first", places, names, &pair.first)?;
    put_event(alloc, &mut object, "second", places, names, &pair.second)?;
    put_subject(alloc, &mut object, names, pair.first.subject)?;
    Ok(object.into_value())
}

/// The list of races.
fn list_of(
    alloc: Global,
    places: &Places<'_>,
    names: Option<&Names<'_>>,
    pairs: &[Pair],
) -> Result<Value, AllocError>
    ensures { IfOk result (λ v. view v ≡ array_of
        (race_value places.now (option_map (λ n. n.now) names.entry)) pairs.now) }
{
    let mut values = Vec::new(alloc);
    for pair in pairs {
        values.push(race_value(alloc, places, names, pair)?)?;
    }
    Ok(Value::from(values))
}

/// Adds races.
pub(crate) fn put_races(
    alloc: Global,
    object: &mut Object,
    places: &Places<'_>,
    names: Option<&Names<'_>>,
    pairs: &[Pair],
) -> Result<(), AllocError>
    ensures { OnOk result (Gains
        (race_member places.now (option_map (λ n. n.now) names.entry) pairs.now)
        object.old object.new) }
{
    let list = list_of(alloc, places, names, pairs)?;
    object.put(alloc, "races", list)
}

/// Adds whether every schedule prints these numbers, whether the prints are in one order, what is told behind the races,
/// and whether these are all.
pub(crate) fn put_scope(
    alloc: Global,
    object: &mut Object,
    free: bool,
    in_order: bool,
    closing: &[u8],
    whole: bool,
) -> Result<(), AllocError>
    ensures { OnOk result (Gains
        (scope_members free in_order closing.now whole) object.old object.new) }
{
    object.put_truth(alloc, "every_schedule", free)?;
    object.put_truth(alloc, "prints_in_order", in_order)?;
    object.put_bytes(alloc, "text", closing)?;
    object.put_truth(alloc, "whole", whole)
}

//! The whole value.

ghost use Rattle.std.specs.Prelude.{◌≡◌, [], ◌&&◌, is_none, map, IfOk, OnOk};
ghost use Rattle.xk_types.specs.World.{AreArguments};
ghost use Rattle.xk_json.specs.Objects.{Gains, IsReadBack, json_line};
ghost use Rattle.xk_show_events.specs.Events.{no_text, places_of};
ghost use Rattle.xk_where_json.specs.Standings.{is_all_told, standings_value, where_value, world_members};

use crate::acts::acts_value;
use crate::frames::frames_value;
use crate::standings::{all_shared, clocks_value, put_end, put_stop};
use std::alloc::{AllocError, Global};
use xk_bounds::Verified;
use xk_core::Core;
use xk_json::Object;
use xk_show_events::Places;
use xk_show_where::{Stop, Whereabouts, take_steps};
use xk_types::Entry;
use xk_unit_origins::UnitOrigins;

/// Adds how things stand in a core.
fn put_world(
    alloc: Global,
    object: &mut Object,
    places: &Places<'_>,
    shared: &[&[u8]],
    core: &Core<'_>,
) -> Result<(), AllocError>
    ensures { OnOk result (Gains (world_members places.now (map (λ x. x.now) shared.now)
        core.now.module_run core.now.world) object.old object.new) }
{
    let acts = acts_value(alloc, places, core)?;
    object.put(alloc, "activities", acts)?;
    let clocks = clocks_value(alloc, core)?;
    object.put(alloc, "clocks", clocks)?;
    let frames = frames_value(alloc, places, core)?;
    object.put(alloc, "frames", frames)?;
    let numbers = all_shared(alloc, shared, core.cells())?;
    object.put(alloc, "shared", numbers)?;
    object.put_number(alloc, "steps", core.steps_done())
}

/// The line of a core, the step that can't be taken there, if there is one, and where the log ends, if that is to be told.
fn standings_line(
    alloc: Global,
    places: &Places<'_>,
    shared: &[&[u8]],
    core: &Core<'_>,
    stop: Option<Stop>,
    ends: Option<u64>,
) -> Result<Vec<u8>, AllocError>
    ensures text { IfOk result (λ v. v.items ≡ json_line (standings_value places.now
        (map (λ x. x.now) shared.now) core.now.module_run core.now.world stop ends)) }
    ensures reads_back { OnOk result (IsReadBack (standings_value places.now
        (map (λ x. x.now) shared.now) core.now.module_run core.now.world stop ends)) }
{
    let mut object = Object::new(alloc);
    put_world(alloc, &mut object, places, shared, core)?;
    put_stop(alloc, &mut object, core, stop)?;
    put_end(alloc, &mut object, ends)?;
    object.line(alloc)
}

/// Whether all steps can be taken, and the log doesn't end before what was asked for.
fn is_whole(stop: Option<Stop>, ends: Option<u64>) -> bool
    ensures { result ≡ (is_none stop && is_none ends) }
{
    stop.is_none() && ends.is_none()
}

/// The line of the steps of a log.
fn line_behind(
    alloc: Global,
    places: &Places<'_>,
    shared: &[&[u8]],
    verified: &Verified,
    arguments: &[i64],
    log: &[Entry],
    ends: Option<u64>,
) -> Result<Whereabouts, AllocError>
    requires { AreArguments verified.now arguments.now }
    ensures text { IfOk result (λ r. r.text.items ≡ json_line (where_value places.now
        (map (λ x. x.now) shared.now) verified.now arguments.now log.now ends)) }
    ensures reads_back { OnOk result (IsReadBack (where_value places.now
        (map (λ x. x.now) shared.now) verified.now arguments.now log.now ends)) }
    ensures whole { IfOk result (λ r. r.whole
        ≡ is_all_told verified.now arguments.now log.now ends) }
{
    let progress = take_steps(alloc, verified, arguments, log)?;
    let core = &progress.core;
    let stop = progress.stop;
    let text = standings_line(alloc, places, shared, core, stop, ends)?;
    let whole = is_whole(stop, ends);
    Ok(Whereabouts { text, whole })
}

/// How things stand behind the steps of a log of a source text's module, whose shared numbers have these names, as one JSON value on a
/// line: what `xk_show_where::named_where` tells, and of each clock who holds it back. Where the log ends before a step that was asked
/// for, its last step is told, too, and the answer isn't whole. Err where memory was refused.
pub fn source_where_value(
    alloc: Global,
    text: &[u8],
    origins: &[UnitOrigins<'_>],
    shared: &[&[u8]],
    verified: &Verified,
    arguments: &[i64],
    log: &[Entry],
    ends: Option<u64>,
) -> Result<Whereabouts, AllocError>
    requires { AreArguments verified.now arguments.now }
    ensures text { IfOk result (λ r. r.text.items
        ≡ json_line (where_value (places_of text.now origins.now)
        (map (λ x. x.now) shared.now) verified.now arguments.now log.now ends)) }
    ensures reads_back { OnOk result (IsReadBack (where_value (places_of text.now origins.now)
        (map (λ x. x.now) shared.now) verified.now arguments.now log.now ends)) }
    ensures whole { IfOk result (λ r. r.whole
        ≡ is_all_told verified.now arguments.now log.now ends) }
{
    let places = Places::of_source(alloc, text, origins)?;
    line_behind(alloc, &places, shared, verified, arguments, log, ends)
}

/// The same of a module without a text: without lines, columns and names. Err where memory was refused.
pub fn module_where_value(
    alloc: Global,
    verified: &Verified,
    arguments: &[i64],
    log: &[Entry],
    ends: Option<u64>,
) -> Result<Whereabouts, AllocError>
    requires { AreArguments verified.now arguments.now }
    ensures text { IfOk result (λ r. r.text.items ≡ json_line (where_value no_text []
        verified.now arguments.now log.now ends)) }
    ensures reads_back { OnOk result (IsReadBack (where_value no_text []
        verified.now arguments.now log.now ends)) }
    ensures whole { IfOk result (λ r. r.whole
        ≡ is_all_told verified.now arguments.now log.now ends) }
{
    let places = Places::of_module(alloc)?;
    line_behind(alloc, &places, &[], verified, arguments, log, ends)
}

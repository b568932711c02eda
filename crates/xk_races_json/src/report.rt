//! The whole value.

ghost use Rattle.std.specs.Prelude.{◌≡◌, map, option_map, IfOk, OnOk};
ghost use Rattle.xk_json.specs.Objects.{IsReadBack, json_line};
ghost use Rattle.xk_show_events.specs.Events.{places_of};
ghost use Rattle.xk_races.specs.Races.{is_race_free};
ghost use Rattle.xk_races_json.specs.Races.{module_races_value, races_value, source_races_value};

use crate::pairs::pairs_in;
use crate::races::{put_races, put_scope};
use std::alloc::{AllocError, Global};
use xk_json::Object;
use xk_races::{RaceReport, shown_races};
use xk_scheduler::Ended;
use xk_show_events::Places;
use xk_show_names::Names;
use xk_unit_origins::UnitOrigins;

/// The line of a run.
fn report_of(
    alloc: Global,
    places: &Places<'_>,
    names: Option<&Names<'_>>,
    ended: &Ended<'_>,
) -> Result<RaceReport, AllocError>
    ensures text { IfOk result (λ r. r.text.items ≡ json_line (races_value
        places.now (option_map (λ n. n.now) names.entry)
        ended.now.module.now ended.now.core.world.arguments ended.now.log.items)) }
    ensures reads_back { OnOk result (IsReadBack (races_value
        places.now (option_map (λ n. n.now) names.entry)
        ended.now.module.now ended.now.core.world.arguments ended.now.log.items)) }
    ensures free { IfOk result (λ r. r.free ≡ is_race_free
        ended.now.module.now ended.now.core.world.arguments ended.now.log.items) }
{
    let shown = shown_races(alloc, places, ended)?;
    let pairs = pairs_in(alloc, &shown.races, ended)?;
    let mut object = Object::new(alloc);
    put_races(alloc, &mut object, places, names, &pairs)?;
    put_scope(
        alloc,
        &mut object,
        shown.free,
        shown.in_order,
        &shown.closing,
        shown.whole,
    )?;
    let text = object.line(alloc)?;
    Ok(RaceReport {
        text,
        free: shown.free,
    })
}

/// The races of a run of a source text's module, whose shared numbers have these names, as one JSON value on a line: a
/// list of races, of each its two accesses as the objects that `events` has of these steps, and whether the list is whole;
/// whether every schedule prints these numbers; whether each print of this run comes before the next one; and the lines
/// that are told behind the races: `{"every_schedule":true,"prints_in_order":true,"races":[],"text":"..","whole":true}`.
/// Which races these are, and the time that it takes, is said at `xk_races::shown_races`; the log is played once more. Err
/// where memory was refused.
pub fn source_race_values(
    alloc: Global,
    text: &[u8],
    origins: &[UnitOrigins<'_>],
    shared: &[&[u8]],
    ended: &Ended<'_>,
) -> Result<RaceReport, AllocError>
    ensures text { IfOk result (λ r. r.text.items ≡ json_line (source_races_value
        (places_of text.now origins.now) (map (λ x. x.now) shared.now)
        ended.now.module.now ended.now.core.world.arguments ended.now.log.items)) }
    ensures reads_back { OnOk result (IsReadBack (source_races_value
        (places_of text.now origins.now) (map (λ x. x.now) shared.now)
        ended.now.module.now ended.now.core.world.arguments ended.now.log.items)) }
    ensures free { IfOk result (λ r. r.free ≡ is_race_free
        ended.now.module.now ended.now.core.world.arguments ended.now.log.items) }
{
    let places = Places::of_source(alloc, text, origins)?;
    let program = ended.module.module();
    let names = Names::by_steps(alloc, &places, origins, shared, program, &[])?;
    let known = Some(&names);
    report_of(alloc, &places, known, ended)
}

/// The same of a run of a module without a text: without lines, columns and names. Err where memory was refused.
pub fn module_race_values(alloc: Global, ended: &Ended<'_>) -> Result<RaceReport, AllocError>
    ensures text { IfOk result (λ r. r.text.items ≡ json_line (module_races_value
        ended.now.module.now ended.now.core.world.arguments ended.now.log.items)) }
    ensures reads_back { OnOk result (IsReadBack (module_races_value
        ended.now.module.now ended.now.core.world.arguments ended.now.log.items)) }
    ensures free { IfOk result (λ r. r.free ≡ is_race_free
        ended.now.module.now ended.now.core.world.arguments ended.now.log.items) }
{
    let places = Places::of_module(alloc)?;
    report_of(alloc, &places, None, ended)
}

//! What others see of the steps of a run, a value for each step.

ghost use Rattle.std.specs.Prelude.{◌≡◌, ◌++◌, IfOk, None, OnOk, Some, map, option_map};
ghost use Rattle.serde_json.specs.View.{view};
ghost use Rattle.xk_json.specs.Objects.{Gains, GainsAll, json_line};
ghost use Rattle.xk_show_events.specs.Events.{event_name, no_text, origin_of, places_of};
ghost use Rattle.xk_show_names.specs.ClockNames.{names_in_run};
ghost use Rattle.xk_show_json.specs.Events.{event_groups, event_value, event_values, module_event_values};
ghost use Rattle.xk_show_json.specs.Events.{operand_member, origin_members, source_event_values, step_members, value_if_seen};

use crate::endings::push_ending;
use crate::subjects::{put_subject, put_value};
use serde_json::Value;
use std::alloc::{AllocError, Global};
use xk_core::Core;
use xk_json::Object;
use xk_lines::Position;
use xk_show_events::{LegalRun, Places, RunStep, is_seen};
use xk_show_names::{Account, Names, Recount, recount_run};
use xk_types::Event;
use xk_unit_origins::UnitOrigins;

/// What a step did, in a word.
pub fn event_name(event: Event) -> &'static str
    ensures { result.now ≡ event_name event }
{
    match event {
        Event::Local => "local",
        Event::Printed(_) => "print",
        Event::Made => "make",
        Event::Got => "read",
        Event::Put => "write",
        Event::Added => "add",
        Event::Opened => "finish",
        Event::Closed => "endfinish",
        Event::Spawned => "async",
        Event::Resumed => "resume",
        Event::Dropped => "drop",
        Event::Arrived => "arrive",
        Event::Passed => "pass",
        Event::Ended => "end",
    }
}

/// Adds which step it was, whose, at which instruction, and what it did in a word. Err where memory was refused.
pub fn put_step(alloc: Global, object: &mut Object, step: &RunStep) -> Result<(), AllocError>
    ensures { OnOk result (Gains (step_members step.now) object.old object.new) }
{
    object.put_number(alloc, "act", step.act as u64)?;
    object.put_text(alloc, "event", event_name(step.event))?;
    object.put_number(alloc, "place", step.place as u64)?;
    object.put_number(alloc, "step", step.number)?;
    object.put_number(alloc, "unit", step.unit as u64)
}

/// Adds the line and column that an instruction comes from, if they are known. Err where memory was refused.
pub fn put_origin(
    alloc: Global,
    object: &mut Object,
    origin: Option<Position>,
) -> Result<(), AllocError>
    ensures { OnOk result (Gains (origin_members origin) object.old object.new) }
{
    match origin {
        Some(position) => {
            object.put_number(alloc, "column", position.column as u64)?;
            object.put_number(alloc, "line", position.line as u64)
        }
        None => Ok(()),
    }
}

/// Adds the number that was printed, or that of the activity that was started.
fn put_operand(
    alloc: Global,
    object: &mut Object,
    activities: u32,
    event: Event,
) -> Result<(), AllocError>
    ensures { OnOk result (Gains (operand_member activities event) object.old object.new) }
{
    match event {
        Event::Printed(number) => object.put_integer(alloc, "printed", number),
        Event::Spawned => object.put_number(alloc, "started", activities as u64),
        _ => Ok(()),
    }
}

/// Adds all that is told of a step.
fn put_event(
    alloc: Global,
    object: &mut Object,
    places: &Places<'_>,
    names: Option<&Names<'_>>,
    account: &Account,
) -> Result<(), AllocError>
    ensures { OnOk result (GainsAll
        (event_groups places.now (option_map (λ n. n.now) names.entry) account.now)
        object.old object.new) }
{
    let step = &account.step;
    put_step(alloc, object, step)?;
    put_origin(alloc, object, places.origin(step.unit, step.place))?;
    put_operand(alloc, object, step.activities, step.event)?;
    put_subject(alloc, object, names, account.subject)?;
    put_value(alloc, object, "before", account.before)?;
    put_value(alloc, object, "after", account.after)
}

/// A step of a run, as a value: `{"act":1,"after":3,"before":2,"column":9,"event":"add","line":7,"name":"total","place":5,"shared":0,
/// "step":9,"unit":1}`. Without names, as of a module, it has none. Err where memory was refused.
pub fn event_value(
    alloc: Global,
    places: &Places<'_>,
    names: Option<&Names<'_>>,
    account: &Account,
) -> Result<Value, AllocError>
    ensures { IfOk result (λ v. view v
        ≡ event_value places.now (option_map (λ n. n.now) names.entry) account.now) }
{
    let mut object = Object::new(alloc);
    put_event(alloc, &mut object, places, names, account)?;
    Ok(object.into_value())
}

/// The line of a step.
fn event_json(
    alloc: Global,
    places: &Places<'_>,
    names: Option<&Names<'_>>,
    account: &Account,
) -> Result<Vec<u8>, AllocError>
    ensures { IfOk result (λ v. v.items ≡ json_line
        (event_value places.now (option_map (λ n. n.now) names.entry) account.now)) }
{
    let mut object = Object::new(alloc);
    put_event(alloc, &mut object, places, names, account)?;
    object.line(alloc)
}

/// Tells of the steps that other activities can see, a line each.
#[derive(Drop)]
struct EventTeller<'a> {
    places: &'a Places<'a>,
    names: Option<&'a Names<'a>>,
}

impl Recount<u8> for EventTeller<'_> {
    ghost recount = { λ teller m v a.
        value_if_seen teller.places.now (option_map (λ n. n.now) teller.names) a };

    fn push(
        &self,
        alloc: Global,
        out: &mut Vec<u8>,
        _core: &Core<'_>,
        account: &Account,
    ) -> Result<(), AllocError> {
        if is_seen(account.step.event) {
            let line = event_json(alloc, self.places, self.names, account)?;
            out.extend_from_slice(&line)?;
        }
        Ok(())
    }
}

/// The lines of a run.
fn values_of(
    alloc: Global,
    teller: &EventTeller<'_>,
    legal: &LegalRun<'_, '_>,
) -> Result<Vec<u8>, AllocError>
    ensures { IfOk result (λ v. v.items ≡ event_values
        teller.now.places.now (option_map (λ n. n.now) teller.now.names)
        legal.now.module.now legal.now.core.now.world.arguments legal.now.log.now
        legal.now.core.now.world) }
{
    let mut lines = Vec::new(alloc);
    recount_run(teller, alloc, &mut lines, legal)?;
    push_ending(alloc, &mut lines, legal)?;
    Ok(lines)
}

/// What others see of the steps of a run of a source text's module, a JSON object on a line for each step, in their order: `{"act":1,
/// "after":3,"before":2,"column":9,"event":"add","line":7,"name":"total","place":5,"shared":0,"step":9,"unit":1}`. Where the log ends
/// before the run does, a last line says so. The log is played again for it. Err where memory was refused.
pub fn source_event_values<'t>(
    alloc: Global,
    text: &'t [u8],
    origins: &'t [UnitOrigins<'t>],
    shared: &'t [&'t [u8]],
    legal: &LegalRun<'_, '_>,
) -> Result<Vec<u8>, AllocError>
    ensures { IfOk result (λ v. v.items ≡ source_event_values
        (places_of text.now origins.entry.now)
        (map (λ x. x.now) shared.now)
        legal.now.module.now legal.now.core.now.world.arguments legal.now.log.now
        legal.now.core.now.world) }
{
    let places = Places::of_source(alloc, text, origins)?;
    let names = Names::of_run(alloc, text, origins, shared, legal)?;
    let known = Some(&names);
    let teller = EventTeller {
        places: &places,
        names: known,
    };
    values_of(alloc, &teller, legal)
}

/// The same of a run of a module without a text: without lines, columns and names.
pub fn module_event_values(alloc: Global, legal: &LegalRun<'_, '_>) -> Result<Vec<u8>, AllocError>
    ensures { IfOk result (λ v. v.items ≡ module_event_values
        legal.now.module.now legal.now.core.now.world.arguments legal.now.log.now
        legal.now.core.now.world) }
{
    let places = Places::of_module(alloc)?;
    let teller = EventTeller {
        places: &places,
        names: None,
    };
    values_of(alloc, &teller, legal)
}

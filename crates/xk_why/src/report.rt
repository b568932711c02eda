//! Why: what is told of a step of a run.

ghost use Rattle.std.specs.Prelude.{◌≡◌, map, IfOk, string_bytes};
ghost use Rattle.xk_show_events.specs.Events.{places_of};
ghost use Rattle.xk_why.specs.Lines.{why_text};
ghost use Rattle.xk_why.specs.ModuleLines.{is_told, module_why_text};
ghost use Rattle.xk_why.specs.Rest.{rest_of};
ghost use Rattle.xk_why.specs.Told.{flows_of_run};

use crate::lines::{seen_accounts, why_lines};
use crate::module_lines::{event_why_lines, has_number};
use crate::rest::rest_of;
use crate::told::flows_of_run;
use std::alloc::{AllocError, Global};
use xk_scheduler::Ended;
use xk_show_events::{LegalRun, Places, seen_steps};
use xk_show_names::Names;
use xk_unit_origins::UnitOrigins;

/// The numbers of the steps that a step of a run rests on and that others can see.
fn rest_in(alloc: Global, ended: &Ended<'_>, number: u64) -> Result<Vec<u64>, AllocError>
    ensures { IfOk result (λ v. v.items ≡ rest_of number (flows_of_run
        ended.now.module.now ended.now.core.world.arguments ended.now.log.items)) }
{
    let flows = flows_of_run(alloc, ended)?;
    rest_of(alloc, &flows, number)
}

/// Whether a step of a run has a line among those of the run: there are so many, and other activities can see that one. Err where
/// memory was refused.
pub fn is_told(alloc: Global, ended: &Ended<'_>, number: u64) -> Result<bool, AllocError>
    ensures { IfOk result (λ told. told ≡ is_told
        ended.now.module.now ended.now.core.world.arguments ended.now.log.items number) }
{
    let steps = seen_steps(alloc, &LegalRun::of(ended))?;
    Ok(has_number(&steps, number))
}

/// What a step of a run of a source text's module rests on: its line, as it stands among those of the run, then those of the steps
/// that made what it used, that made what these used, and so on, the last first, and how many these are: `rests on steps 7`. A
/// step that prints, writes or adds uses the number in a slot, which was read, or reckoned of others that were, or given by a
/// call or by the start of its activity; one that reads, what was written or added to last. One that passes an advance uses the
/// steps by which its clocks ceased to await activities in that phase, one that closes a finish the ends of the activities
/// under it. Of the lines 100 are shown. Where others can't see such a step it has no line. Err where memory was refused.
pub fn source_why(
    alloc: Global,
    text: &[u8],
    origins: &[UnitOrigins<'_>],
    shared: &[&[u8]],
    ended: &Ended<'_>,
    number: u64,
) -> Result<String, AllocError>
    ensures { IfOk result (λ lines. string_bytes lines ≡ why_text
        (places_of text.now origins.now) (map (λ x. x.now) shared.now)
        ended.now.module.now ended.now.core.world.arguments ended.now.log.items number) }
{
    let places = Places::of_source(alloc, text, origins)?;
    let rest = rest_in(alloc, ended, number)?;
    let steps = seen_accounts(alloc, ended)?;
    let names = Names::of_run(alloc, text, origins, shared, &LegalRun::of(ended))?;
    why_lines(alloc, &places, &names, &steps, number, &rest)
}

/// The same of a module that has no text, by numbers of units and places, and without names and values. Err where memory was refused.
pub fn module_why(alloc: Global, ended: &Ended<'_>, number: u64) -> Result<String, AllocError>
    ensures { IfOk result (λ lines. string_bytes lines ≡ module_why_text
        ended.now.module.now ended.now.core.world.arguments ended.now.log.items number) }
{
    let places = Places::of_module(alloc)?;
    let rest = rest_in(alloc, ended, number)?;
    let steps = seen_steps(alloc, &LegalRun::of(ended))?;
    event_why_lines(alloc, &places, &steps, number, &rest)
}

//! What a step of a run rests on, or why nothing is told of it.

ghost use Rattle.std.specs.Prelude.{◌≡◌, map, Some, IfOk, string_bytes};
ghost use Rattle.xk_answers.specs.Explanation.{all_told, untold, untold_line, why_of, why_told};

use crate::picture::Tale;
use std::alloc::{AllocError, Global};
use xk_beginnings::lacking;
use xk_messages::{local_line, log_end_line};
use xk_program::Provenance;
use xk_scheduler::Ended;
use xk_types::Entry;
use xk_unit_origins::UnitOrigins;
use xk_why::{is_told, module_why, source_why};

/// What this step of a run rests on. Where the run has fewer, or others can't see that one, a line says so, and the answer isn't whole.
pub(crate) fn reasons_of(
    alloc: Global,
    from: &Provenance<'_>,
    ended: &Ended<'_>,
    step: u64,
) -> Result<Tale, AllocError>
    ensures { IfOk result (λ tale. (tale.text.items, tale.whole)
        ≡ why_told from.now.text.now step ended.now.module.now
        ended.now.core.world.arguments ended.now.log.items
        (map (λ x. x.now) from.now.shared.items) from.now.origins) }
{
    let told = is_told(alloc, ended, step)?;
    if told {
        return why_of(alloc, from, ended, step);
    }
    untold(alloc, &ended.log, step)
}

/// A step without a line among those of the run.
fn untold(alloc: Global, log: &[Entry], step: u64) -> Result<Tale, AllocError>
    ensures { IfOk result (λ tale. (tale.text.items, tale.whole) ≡ untold step log.now) }
{
    let line = untold_line(alloc, step, log)?;
    Ok(Tale {
        text: line.into_bytes(),
        whole: false,
    })
}

/// The line that says so: the run has fewer, or others can't see that one.
fn untold_line(alloc: Global, step: u64, log: &[Entry]) -> Result<String, AllocError>
    ensures { IfOk result (λ line. string_bytes line ≡ untold_line step log.now) }
{
    let lacking = lacking(log, step);
    if lacking == 0 {
        return local_line(alloc, step);
    }
    log_end_line(alloc, step - lacking)
}

/// What a step with a line rests on; of a source text by names, and with values.
fn why_of(
    alloc: Global,
    from: &Provenance<'_>,
    ended: &Ended<'_>,
    step: u64,
) -> Result<Tale, AllocError>
    ensures { IfOk result (λ tale. (tale.text.items, tale.whole)
        ≡ all_told (why_of from.now.text.now step (map (λ x. x.now) from.now.shared.items)
        ended.now.module.now ended.now.core.world.arguments ended.now.log.items
        from.now.origins)) }
{
    match &from.origins {
        Some(origins) => named_why_of(alloc, from, origins.units(), ended, step),
        None => Ok(Tale {
            text: module_why(alloc, ended, step)?.into_bytes(),
            whole: true,
        }),
    }
}

/// The same of a source text whose units have these origins.
fn named_why_of(
    alloc: Global,
    from: &Provenance<'_>,
    units: &[UnitOrigins<'_>],
    ended: &Ended<'_>,
    step: u64,
) -> Result<Tale, AllocError>
    ensures { IfOk result (λ tale. (tale.text.items, tale.whole)
        ≡ all_told (why_of from.now.text.now step (map (λ x. x.now) from.now.shared.items)
        ended.now.module.now ended.now.core.world.arguments ended.now.log.items
        (Some units.now))) }
{
    let text = source_why(alloc, from.text, units, &from.shared, ended, step)?;
    Ok(Tale {
        text: text.into_bytes(),
        whole: true,
    })
}

//! What others see of the steps of a run, as JSON values.

ghost use Rattle.std.specs.Prelude.{◌≡◌, map, Some, IfOk};
ghost use Rattle.xk_answers.specs.Explanation.{event_values_so_far};

use crate::picture::Tale;
use std::alloc::{AllocError, Global};
use xk_program::Provenance;
use xk_show_events::LegalRun;
use xk_show_json::{module_event_values, source_event_values};
use xk_unit_origins::UnitOrigins;

/// What others see of its steps, as JSON values. It isn't whole where not all have ended.
pub(crate) fn event_values_so_far(
    alloc: Global,
    from: &Provenance<'_>,
    legal: &LegalRun<'_, '_>,
) -> Result<Tale, AllocError>
    ensures { IfOk result (λ tale. (tale.text.items, tale.whole)
        ≡ event_values_so_far from.now.text.now legal.now.module.now
        legal.now.core.now.world.arguments legal.now.log.now legal.now.core.now.world
        (map (λ x. x.now) from.now.shared.items) from.now.origins) }
{
    match &from.origins {
        Some(origins) => named_event_values(alloc, from, origins.units(), legal),
        None => {
            let text = module_event_values(alloc, legal)?;
            Ok(Tale {
                text,
                whole: legal.core.ended(),
            })
        }
    }
}

/// The same of a source text whose units have these origins: with lines, columns and names.
fn named_event_values(
    alloc: Global,
    from: &Provenance<'_>,
    units: &[UnitOrigins<'_>],
    legal: &LegalRun<'_, '_>,
) -> Result<Tale, AllocError>
    ensures { IfOk result (λ tale. (tale.text.items, tale.whole)
        ≡ event_values_so_far from.now.text.now legal.now.module.now
        legal.now.core.now.world.arguments legal.now.log.now legal.now.core.now.world
        (map (λ x. x.now) from.now.shared.items) (Some units.now)) }
{
    let text = source_event_values(alloc, from.text, units, &from.shared, legal)?;
    Ok(Tale {
        text,
        whole: legal.core.ended(),
    })
}

//! Where a step was taken.

ghost use Rattle.std.specs.Prelude.{◌≡◌, IfOk, string_bytes};
ghost use Rattle.xk_show_span.specs.Spots.{spot, spot_words};

use std::alloc::{AllocError, Global};
use xk_lines::Position;
use xk_show_events::{Places, RunStep};

/// `13:9`; where no origin says it, `unit 0 place 3`.
fn spot_words(
    alloc: Global,
    unit: u16,
    place: u32,
    origin: Option<Position>,
) -> Result<String, AllocError>
    ensures { IfOk result (λ text. string_bytes text ≡ spot_words unit place origin) }
{
    match origin {
        Some(position) => {
            let line = position.line;
            let column = position.column;
            format!(in alloc; "{line}:{column}")
        }
        None => format!(in alloc; "unit {unit} place {place}"),
    }
}

/// Where a step was taken.
#[tactic(auto, unfolding(crate::specs::Spots::spot))]
pub(crate) fn spot(alloc: Global, places: &Places<'_>, step: &RunStep) -> Result<String, AllocError>
    ensures { IfOk result (λ text. string_bytes text ≡ spot places.now step.now) }
{
    let origin = places.origin(step.unit, step.place);
    spot_words(alloc, step.unit, step.place, origin)
}

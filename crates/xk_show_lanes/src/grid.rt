//! The columns of the lanes: how wide they are.

ghost use Rattle.std.specs.Prelude.{◌≡◌, ◌<◌, ◌^◌, map, max, IfOk, string_bytes};
ghost use Rattle.xk_show_events.specs.Events.{event_words};
ghost use Rattle.xk_show_lanes.specs.Fields.{longest};
ghost use Rattle.xk_show_lanes.specs.Lanes.{grid_of, spot, spot_by};

use crate::window::Window;
use std::alloc::{AllocError, Global};
use xk_lines::Position;
use xk_show_events::{Places, RunStep, event_words};

/// How many lanes are drawn at most.
pub(crate) const DRAWN: u32 = 64;

/// Which steps are drawn, how wide the column of places is, and each lane, and how many lanes are drawn.
#[derive(Clone, Copy)]
pub struct Grid {
    pub window: Window,
    pub place: usize,
    pub lane: usize,
    pub lanes: u32,
}

/// `6:5`, or `0.3`.
fn spot_by(
    alloc: Global,
    unit: u16,
    place: u32,
    origin: Option<Position>,
) -> Result<String, AllocError>
    ensures { IfOk result (λ text. string_bytes text ≡ spot_by unit place origin) }
{
    match origin {
        Some(position) => {
            let line = position.line;
            let column = position.column;
            format!(in alloc; "{line}:{column}")
        }
        None => format!(in alloc; "{unit}.{place}"),
    }
}

/// Where a step was taken.
#[tactic(auto, unfolding(crate::specs::Lanes::spot))]
pub fn spot(alloc: Global, places: &Places<'_>, step: &RunStep) -> Result<String, AllocError>
    ensures { IfOk result (λ text. string_bytes text ≡ spot places.now step.now) }
{
    spot_by(
        alloc,
        step.unit,
        step.place,
        places.origin(step.unit, step.place),
    )
}

/// The greater one of two numbers.
pub(crate) fn greater(a: usize, b: usize) -> usize
    ensures { result ≡ max a b }
{
    a.max(b)
}

/// How long the longest place is at which one of these steps was taken.
fn longest_spot(alloc: Global, places: &Places<'_>, steps: &[RunStep]) -> Result<usize, AllocError>
    ensures longest { IfOk result (λ n. n ≡ longest (map (spot places.now) steps.now)) }
    ensures small { IfOk result (λ n. n < 2 ^ 63) }
{
    let mut most = 0;
    for step in steps {
        let text = spot(alloc, places, step)?;
        most = greater(most, text.len());
    }
    Ok(most)
}

/// How long the longest words are for what one of these steps did.
fn longest_words(alloc: Global, steps: &[RunStep]) -> Result<usize, AllocError>
    ensures longest { IfOk result (λ n. n ≡ longest (map event_words steps.now)) }
    ensures small { IfOk result (λ n. n < 2 ^ 63) }
{
    let mut most = 0;
    for step in steps {
        let text = event_words(alloc, step)?;
        most = greater(most, text.len());
    }
    Ok(most)
}

/// The columns for these steps of so many activities.
pub fn grid_of(
    alloc: Global,
    places: &Places<'_>,
    window: Window,
    steps: &[RunStep],
    activities: u32,
) -> Result<Grid, AllocError>
    ensures { IfOk result (λ g. g ≡ grid_of places.now window steps.now activities) }
{
    let place = longest_spot(alloc, places, steps)?;
    let words = longest_words(alloc, steps)?;
    Ok(Grid {
        window,
        place: (2 + place).max(4),
        lane: (2 + words).max(8),
        lanes: activities.min(DRAWN),
    })
}

//! One pass along the deeds of a run.

ghost use Rattle.std.specs.Prelude.{◌≡◌, IfOk};
ghost use Rattle.xk_span.specs.Steps.{is_step, steps_weigh, weight_in};
ghost use Rattle.xk_span.specs.Times.{last_of, links_of, times_of};

use crate::marks::{Mark, behind, latest};
use crate::times::Times;
use std::alloc::{AllocError, Global};
use xk_races::{Deed, Part};

/// What the pass tells.
#[derive(Drop)]
pub(crate) struct Pass {
    /// Of each deed, the latest of those right before it.
    pub(crate) links: Vec<Mark>,
    /// The time of each deed.
    pub(crate) times: Vec<usize>,
    /// The deed that the greatest chain ends with.
    pub(crate) last: Mark,
}

/// Whether a deed is a step itself.
pub(crate) fn is_step(part: Part) -> bool
    ensures { result ≡ is_step part }
{
    matches!(part, Part::Print)
}

/// What a deed weighs.
fn weight_in(part: Part) -> usize
    ensures { result ≡ weight_in part }
{
    if is_step(part) { 1 } else { 0 }
}

/// What deed number j weighs.
fn weight_at(deeds: &[Deed], j: usize) -> usize
    ensures { result ≡ steps_weigh deeds.now j }
{
    match deeds.get(j) {
        Some(deed) => weight_in(deed.part),
        None => 0,
    }
}

/// Goes along these deeds.
pub(crate) fn along(alloc: Global, deeds: &[Deed]) -> Result<Pass, AllocError>
    ensures links { IfOk result (λ p. p.links.items ≡ links_of (steps_weigh deeds.now) deeds.now) }
    ensures times { IfOk result (λ p. p.times.items ≡ times_of (steps_weigh deeds.now) deeds.now) }
    ensures last { IfOk result (λ p. p.last ≡ last_of (steps_weigh deeds.now) deeds.now) }
{
    let mut known = Times::new(alloc)?;
    let mut links = Vec::new(alloc);
    let mut times = Vec::new(alloc);
    for (i, deed) in deeds.iter().enumerate() {
        let weight = weight_at(deeds, i);
        let link = known.take(i, weight, deed)?;
        let mark = behind(i, weight, link)?;
        links.push(link)?;
        times.push(mark.time)?;
    }
    let last = latest(&known.acts);
    Ok(Pass { links, times, last })
}

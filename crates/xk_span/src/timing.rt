//! How long a run had to take.

ghost use Rattle.std.specs.Prelude.{◌≡◌, IfOk};
ghost use Rattle.xk_span.specs.Steps.{critical_steps, steps_of_run, steps_span, steps_times};

use crate::pass::along;
use crate::paths::{path_back, steps_at};
use crate::steps::steps_of_run;
use std::alloc::{AllocError, Global};
use xk_races::Deed;
use xk_scheduler::Ended;
use xk_show_events::RunStep;

/// The steps of a run, as deeds, and how many of them had to come one after another.
#[derive(Drop)]
pub struct Timing {
    /// The deeds.
    pub deeds: Vec<Deed>,
    /// The time of each deed: how many steps the longest chain up to it has.
    pub times: Vec<usize>,
    /// How many steps the longest chain has.
    pub span: usize,
    /// The steps of such a chain, in their order.
    pub path: Vec<RunStep>,
}

/// The times of these deeds.
fn timed(alloc: Global, deeds: Vec<Deed>) -> Result<Timing, AllocError>
    ensures deeds { IfOk result (λ t. t.deeds.items ≡ deeds.items) }
    ensures times { IfOk result (λ t. t.times.items ≡ steps_times deeds.items) }
    ensures span { IfOk result (λ t. t.span ≡ steps_span deeds.items) }
    ensures path { IfOk result (λ t. t.path.items ≡ critical_steps deeds.items) }
{
    let told = along(alloc, &deeds)?;
    let back = path_back(alloc, &told.links, told.last)?;
    let mut path = steps_at(alloc, &deeds, &back)?;
    path.reverse();
    let span = told.last.time;
    let times = told.times;
    Ok(Timing {
        deeds,
        times,
        span,
        path,
    })
}

/// How long a run had to take, whoever takes its steps: each step takes one round, and comes behind those that had to come right
/// before it: an earlier one of its activity, the start of that, those by which others let the clock go that it passes, those that
/// end in the finish that it closes. The path is one of the longest chains. It takes time and memory in proportion to the deeds of
/// the run (its steps, those at clocks counted once for each clock). Err where memory was refused.
pub fn time_run(alloc: Global, ended: &Ended<'_>) -> Result<Timing, AllocError>
    ensures deeds { IfOk result (λ t. t.deeds.items ≡ steps_of_run
        ended.now.module.now ended.now.core.world.arguments ended.now.log.items) }
    ensures times { IfOk result (λ t. t.times.items ≡ steps_times t.deeds.items) }
    ensures span { IfOk result (λ t. t.span ≡ steps_span t.deeds.items) }
    ensures path { IfOk result (λ t. t.path.items ≡ critical_steps t.deeds.items) }
{
    let deeds = steps_of_run(alloc, ended)?;
    timed(alloc, deeds)
}

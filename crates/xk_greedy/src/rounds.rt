//! Runs by rounds.

ghost use Rattle.std.specs.Prelude.{◌≡◌, ◌≤◌, false, IfOk, OnOk};
ghost use Rattle.xk_types.specs.Bound.{steps_bound};
ghost use Rattle.xk_types.specs.Schedule.{all_ended};
ghost use Rattle.xk_collections.specs.NumberSets.{IsRising};
ghost use Rattle.xk_core.specs.Core.{IsCore};
ghost use Rattle.xk_scheduler.specs.Choosers.{enabled_in};
ghost use Rattle.xk_greedy.specs.Rounds.{AreSome, IsByRounds, chosen};
ghost use Rattle.xk_greedy.specs.Steps.{AreEnabled, IsOn, IsRoundOn};

use std::alloc::{AllocError, Global};
use xk_core::Core;
use xk_scheduler::{Ended, Logged};
use xk_types::Act;

/// A run that came to its end by rounds.
#[derive(Drop)]
pub struct InRounds<'m> {
    /// The run, with an entry of its log for each step.
    pub ended: Ended<'m>,
    /// How many rounds it took.
    pub rounds: u64,
}

/// Of those who can step all, or the first, as many as there are processors.
fn chosen(acts: &[u32], processors: Option<u64>) -> &[u32]
    ensures { result.now ≡ chosen processors acts.now }
{
    match processors {
        None => acts,
        Some(count) if count < acts.len() as u64 => &acts[..count as usize],
        Some(_) => acts,
    }
}

/// Takes a step of each of these, one after another, with an entry of the log for each.
fn step_each(run: &mut Logged<'_>, acts: &[u32]) -> Result<(), AllocError>
    requires rising { IsRising acts.now }
    requires enabled { AreEnabled run.old.driver.module_run run.old.driver.world 0 acts.now }
    ensures { OnOk result (IsOn run.old.driver run.old.log.items acts.now
        run.new.driver run.new.log.items) }
{
    for act in acts {
        // For `core`: who comes later still can step.
        let _count = run.driver.core().activities();
        run.step(Act(*act))?;
    }
    Ok(())
}

/// Those who can take a step, rising.
fn enabled(alloc: Global, run: &Logged<'_>) -> Result<Vec<u32>, AllocError>
    ensures list { IfOk result (λ v. v.items
        ≡ enabled_in run.now.driver.module_run run.now.driver.world) }
    ensures core { IfOk result (λ _. IsCore run.now.driver.module_run run.now.driver.world) }
{
    let mut list = Vec::with_capacity(alloc, run.driver.core().activities() as usize)?;
    run.driver.list(&mut list);
    Ok(list)
}

/// Takes a round: those chosen of whoever can step when it begins take a step each.
fn take_round(
    alloc: Global,
    run: &mut Logged<'_>,
    processors: Option<u64>,
) -> Result<(), AllocError>
    requires some { AreSome processors }
    requires goes_on { all_ended run.old.driver.world ≡ false }
    ensures { OnOk result (IsRoundOn processors run.old.driver run.old.log.items
        run.new.driver run.new.log.items) }
{
    let list = enabled(alloc, run)?;
    step_each(run, chosen(&list, processors))
}

/// Runs a core, from before its first step, by rounds: of those who can take a step when a round begins each takes one, or,
/// of so many processors, the first of them, as many as these. So each lane of the run is as far as it can be. It ends
/// after no more steps than were verified. Err only where memory was refused.
pub fn drive_by_rounds<'m>(
    alloc: Global,
    start: Core<'m>,
    processors: Option<u64>,
) -> Result<InRounds<'m>, AllocError>
    requires opening { start.world.steps ≡ 0 }
    requires some { AreSome processors }
    ensures rounds { IfOk result (λ run. IsByRounds processors start.entry.module_run
        start.entry.world.arguments run.ended.log.items run.ended.core.world run.rounds) }
    ensures same_module { IfOk result (λ run. run.ended.module.now ≡ start.entry.module_run) }
    ensures same_arguments { IfOk result (λ run.
        run.ended.core.world.arguments ≡ start.entry.world.arguments) }
    ensures bound { IfOk result (λ run.
        run.ended.core.world.steps ≤ steps_bound start.entry.module_run) }
{
    // For the count of rounds: no more than the verified steps.
    let _most = start.module().steps();
    let Ok(mut run) = Logged::open(alloc, start) else {
        return Err(AllocError);
    };
    let mut rounds = 0;
    while !run.driver.over() {
        take_round(alloc, &mut run, processors)?;
        rounds += 1;
    }
    let ended = run.ended();
    Ok(InRounds { ended, rounds })
}

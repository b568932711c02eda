//! Whole runs that a chooser drives, with a log and without.

ghost use Rattle.std.specs.Prelude.{◌≡◌, ◌≤◌, true, false, [], IfOk, IfErr};
ghost use Rattle.xk_types.specs.Schedule.{all_ended};
ghost use Rattle.xk_types.specs.Bound.{steps_bound};
ghost use Rattle.xk_scheduler.specs.LoggedRuns.{IsFull, IsShort, IsChosen, IsChosenSoFar, state_so_far};
ghost use Rattle.xk_scheduler.specs.WholeRuns.{IsRunBy};

use crate::chooser::Chooser;
use crate::driver::Driver;
use crate::logged_run::{Ended, Logged, Partial, keep_printed};
use std::alloc::{AllocError, Global};
use xk_core::Core;

/// What is kept of a run that came to its end, and of which there is no log.
#[derive(Debug, Drop)]
pub struct Summary {
    /// The numbers that it printed, in order.
    pub printed: Vec<i64>,
    /// How many steps it took.
    pub steps: u64,
}

/// The answer where memory was refused before the first step.
pub fn unstarted<'m>(alloc: Global, core: Core<'m>) -> Partial<'m>
    requires { core.world.steps ≡ 0 }
    ensures module { result.module.now ≡ core.entry.module_run }
    ensures log { result.log.items ≡ [] }
    ensures full { IsFull result.log }
    ensures core { result.core ≡ core.entry }
{
    Partial {
        module: core.module(),
        log: Vec::new(alloc),
        printed: Vec::new(alloc),
        core,
    }
}

/// Runs a core, from before its first step, by a chooser: each step is one of the activity that it names. Ok where all activities have
/// ended, after no more steps than were verified. Err only where memory was refused: for the list of those who can step, for the log and
/// the printed numbers, or for a step. The log has one entry for each step.
pub fn drive<'m, C: Chooser>(
    alloc: Global,
    start: Core<'m>,
    chooser: &mut C,
) -> Result<Ended<'m>, Partial<'m>>
    requires { start.world.steps ≡ 0 }
    ensures chosen { IfOk result (λ e.
        IsChosen C.answer C.after start.entry.module_run start.entry.world.arguments chooser.old
        e.log.items chooser.new) }
    ensures same_module { IfOk result (λ e. e.module.now ≡ start.entry.module_run) }
    ensures same_arguments { IfOk result (λ e.
        e.core.world.arguments ≡ start.entry.world.arguments) }
    ensures bound { IfOk result (λ e. e.core.world.steps ≤ steps_bound start.entry.module_run) }
    ensures partial_chosen { IfErr result (λ p.
        IsChosenSoFar C.answer C.after start.entry.module_run start.entry.world.arguments
        chooser.old p.log.items p.core.world chooser.new) }
    ensures partial_same_module { IfErr result (λ p. p.module.now ≡ start.entry.module_run) }
    ensures partial_same_arguments { IfErr result (λ p.
        p.core.world.arguments ≡ start.entry.world.arguments) }
    // Somebody could still take a step.
    ensures partial_goes_on { IfErr result (λ p. all_ended p.core.world ≡ false) }
    // The log has no room left, or the numbers have none, or the step of whom the chooser names next wants memory.
    ensures partial_grows { IfErr result (λ p.
        IsShort C.answer p.log p.printed p.core
        (state_so_far C.after chooser.old p.log.items p.core)) }
{
    let mut run = match Logged::open(alloc, start) {
        Ok(run) => run,
        Err(core) => return Err(unstarted(alloc, core)),
    };
    loop {
        match run.turn(chooser) {
            Ok(true) => {}
            Ok(false) => return Ok(run.ended()),
            Err(_) => return Err(run.cut_short()),
        }
    }
}

/// Runs a core, from before its first step, by a chooser, as `drive` does, and keeps no log. So a stretch of steps that nobody else can
/// see needs no entries, and is taken in one turn.
pub fn drive_unlogged<C: Chooser>(
    alloc: Global,
    start: Core<'_>,
    chooser: &mut C,
) -> Result<Summary, AllocError>
    requires { start.world.steps ≡ 0 }
    ensures { IfOk result (λ run. IsRunBy C.answer C.after start.entry.module_run
        start.entry.world.arguments chooser.old run.printed.items run.steps) }
{
    let Ok(mut driver) = Driver::new(alloc, start) else {
        return Err(AllocError);
    };
    let mut printed = Vec::new(alloc);
    while let Some(turn) = driver.turns(chooser)? {
        keep_printed(&mut printed, turn.event)?;
    }
    let steps = driver.into_core().steps_done();
    Ok(Summary { printed, steps })
}

//! Runs of a module to their end: in an order, by rounds, or by workers.

ghost use Rattle.std.specs.Prelude.{◌≡◌, IfOk, None, Some, option_map, if◌then◌else◌};
ghost use Rattle.xk_types.specs.World.{AreArguments, opening};
ghost use Rattle.xk_scheduler.specs.Choosers.{Follows};
ghost use Rattle.xk_scheduler.specs.WholeRuns.{IsLogThat, IsRunThat};
ghost use Rattle.xk_jobs.specs.Tasks.{By, Greedy, way_value};
ghost use Rattle.xk_greedy.specs.Rounds.{AreSome};
ghost use Rattle.xk_answers.specs.OrderedRun.{IsFinished, IsUncountedBy};

use std::alloc::{AllocError, Global};
use std::sync::Wait;
use std::thread::Threads;
use xk_bounds::Verified;
use xk_core::Core;
use xk_greedy::drive_by_rounds;
use xk_jobs::{Drive, Order, Processors, Workers};
use xk_random::Random;
use xk_scheduler::{Chooser, Ended, First, Last, Round, Summary, drive, drive_unlogged};
use xk_types::Entry;
use xk_workers::{Direct, run_workers};

/// A run that came to its end.
#[derive(Debug, Drop)]
pub struct Finished {
    /// The numbers that it printed, in order.
    pub printed: Vec<i64>,
    /// How many steps it took.
    pub steps: u64,
    /// How many rounds it took, where it ran by rounds.
    pub rounds: Option<u64>,
    /// Who took how many steps after whom, where that was to be kept.
    pub log: Option<Vec<Entry>>,
}

/// Runs the module to its end as it is to be driven, with these arguments, and keeps the log where that is asked for.
pub fn run_as<R: Threads + Wait + Sync>(
    rt: &R,
    alloc: Global,
    drive: Drive,
    keeps_log: bool,
    verified: &Verified,
    arguments: &[i64],
) -> Result<Finished, AllocError>
    requires { AreArguments verified.now arguments.now }
    ensures { IfOk result (λ run. IsFinished (way_value drive) keeps_log verified.now
        arguments.now run.printed.items run.steps run.rounds
        (option_map (λ es. es.items) run.log)) }
{
    match drive {
        Drive::Order(order) => match order {
            Order::First => run_by(alloc, keeps_log, verified, arguments, &mut First),
            Order::Last => run_by(alloc, keeps_log, verified, arguments, &mut Last),
            Order::Round => run_by(alloc, keeps_log, verified, arguments, &mut Round::new()),
            Order::Random(seed) => {
                run_by(
                    alloc,
                    keeps_log,
                    verified,
                    arguments,
                    &mut Random::new(seed),
                )
            }
        },
        Drive::Greedy(processors) => {
            run_greedy(alloc, processors, keeps_log, verified, arguments)
        }
        Drive::Workers(workers) => run_with(rt, alloc, workers, keeps_log, verified, arguments),
    }
}

/// The run in which each step is taken by the activity that the chooser names.
fn run_by<C: Chooser>(
    alloc: Global,
    keeps_log: bool,
    verified: &Verified,
    arguments: &[i64],
    chooser: &mut C,
) -> Result<Finished, AllocError>
    requires { AreArguments verified.now arguments.now }
    ensures { IfOk result (λ run. IsUncountedBy (Follows C.answer C.after verified.now chooser.old
        (opening verified.now arguments.now)) keeps_log verified.now arguments.now
        run.printed.items run.steps run.rounds (option_map (λ es. es.items) run.log)) }
{
    if keeps_log {
        return match ended_by(alloc, verified, arguments, chooser) {
            Ok(ended) => Ok(finish(true, None, ended)),
            Err(e) => Err(e),
        };
    }
    match drive_unlogged(alloc, Core::open(alloc, verified, arguments)?, chooser) {
        Ok(run) => Ok(without_log(run)),
        Err(e) => Err(e),
    }
}

/// The run in which each step is taken by the activity that the chooser names, with its core.
pub(crate) fn ended_by<'m, C: Chooser>(
    alloc: Global,
    verified: &'m Verified,
    arguments: &[i64],
    chooser: &mut C,
) -> Result<Ended<'m>, AllocError>
    requires { AreArguments verified.now arguments.now }
    ensures same_module { IfOk result (λ e. e.module.now ≡ verified.now) }
    ensures same_arguments { IfOk result (λ e. e.core.world.arguments ≡ arguments.now) }
    ensures run { IfOk result (λ e. IsRunThat
        (IsLogThat (Follows C.answer C.after verified.now chooser.old
        (opening verified.now arguments.now)) e.log.items)
        verified.now arguments.now e.printed.items e.core.world.steps) }
{
    match drive(alloc, Core::open(alloc, verified, arguments)?, chooser) {
        Ok(ended) => Ok(ended),
        Err(_) => Err(AllocError),
    }
}

/// The run by rounds: whoever can take a step when a round begins takes one, or so many of these as there are processors.
#[tactic(auto, using(crate::proofs::OrderedRunLemmas::greedy_finished))]
fn run_greedy(
    alloc: Global,
    processors: Option<Processors>,
    keeps_log: bool,
    verified: &Verified,
    arguments: &[i64],
) -> Result<Finished, AllocError>
    requires { AreArguments verified.now arguments.now }
    ensures { IfOk result (λ run. IsFinished (Greedy (option_map (λ p. p.count) processors))
        keeps_log verified.now arguments.now run.printed.items run.steps run.rounds
        (option_map (λ es. es.items) run.log)) }
{
    let start = Core::open(alloc, verified, arguments)?;
    match drive_by_rounds(alloc, start, count_of(processors)) {
        Ok(run) => Ok(finish(keeps_log, Some(run.rounds), run.ended)),
        Err(e) => Err(e),
    }
}

/// How many processors there are, where they are limited.
fn count_of(processors: Option<Processors>) -> Option<u64>
    ensures same { result ≡ option_map (λ p. p.count) processors }
    ensures some { AreSome result }
{
    match processors {
        Some(processors) => Some(processors.count()),
        None => None,
    }
}

/// Some run, whose steps so many workers take.
fn run_with<R: Threads + Wait + Sync>(
    rt: &R,
    alloc: Global,
    workers: Workers,
    keeps_log: bool,
    verified: &Verified,
    arguments: &[i64],
) -> Result<Finished, AllocError>
    requires { AreArguments verified.now arguments.now }
    ensures { IfOk result (λ run. IsFinished (By workers.count) keeps_log verified.now
        arguments.now run.printed.items run.steps run.rounds
        (option_map (λ es. es.items) run.log)) }
{
    let start = Core::open(alloc, verified, arguments)?;
    match run_workers(rt, alloc, start, workers.count(), &Direct) {
        Ok(ended) => Ok(finish(keeps_log, None, ended)),
        Err(_) => Err(AllocError),
    }
}

/// What is kept of a run, whose rounds were counted or not.
pub(crate) fn finish(keeps_log: bool, rounds: Option<u64>, ended: Ended<'_>) -> Finished
    ensures printed { result.printed ≡ ended.entry.printed }
    ensures steps { result.steps ≡ ended.entry.core.world.steps }
    ensures rounds { result.rounds ≡ rounds }
    ensures log { result.log ≡ if keeps_log then Some ended.entry.log else None }
{
    Finished {
        printed: ended.printed,
        steps: steps_of(ended.core),
        rounds,
        log: if keeps_log { Some(ended.log) } else { None },
    }
}

/// What is kept of a run without a log.
fn without_log(run: Summary) -> Finished
    ensures printed { result.printed ≡ run.printed }
    ensures steps { result.steps ≡ run.steps }
    ensures rounds { result.rounds ≡ None }
    ensures log { result.log ≡ None }
{
    Finished {
        printed: run.printed,
        steps: run.steps,
        rounds: None,
        log: None,
    }
}

/// How many steps a core has taken that is let go.
fn steps_of(core: Core<'_>) -> u64
    ensures { result ≡ core.entry.world.steps }
{
    core.steps_done()
}

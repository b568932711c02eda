//! The run of a log again.

ghost use Rattle.std.specs.Prelude.{◌≡◌, ◌≢◌, ℕ, List, IfOk, IfErr, OnOk};
ghost use Rattle.xk_log.specs.SomeBytes.{OfSome};
ghost use Rattle.xk_types.specs.Acceptance.{IsAccepted};
ghost use Rattle.xk_types.specs.World.{AreArguments};
ghost use Rattle.xk_answers.specs.Results.{ComesTo, IsLogText, Replay};
ghost use Rattle.xk_answers.specs.Refusals.{AgainstModule, AgainstRun};
ghost use Rattle.xk_jobs.specs.Status.{status_program};
ghost use Rattle.xk_program.specs.Lines.{status_of};
ghost use Rattle.xk_program.specs.declared.fault.Fault.TheVariants as fault;

use crate::job_result::Done;
use crate::runs::finish;
use std::alloc::Global;
use xk_bounds::Verified;
use xk_log::read_log;
use xk_program::{Fault, runnable};
use xk_replay::{replay, replay_so_far};
use xk_scheduler::{Ended, Partial};
use xk_types::{Module, Source};

/// What a module prints in the run with these arguments that the log has, if the module is accepted and main takes as many. Where it isn't
/// run, no log is read.
pub fn replayed<L: Source>(
    alloc: Global,
    m: Module,
    arguments: &[i64],
    log_in: &mut L,
) -> Result<Done, Fault>
    ensures done { IfOk result (λ d. OfSome (L.remaining log_in.old)
        (λ logged. ComesTo Replay m arguments.now logged d)) }
    ensures no_fault { OnOk result (L.fault_count log_in.new ≡ L.fault_count log_in.old) }
    ensures fault { IfErr result (AgainstModule m arguments.now (L.remaining log_in.old)
        (L.fault_count log_in.old) (L.fault_count log_in.new)) }
    ensures refused { IfErr result
        (λ f. status_of f ≡ status_program → log_in.new ≡ log_in.old) }
{
    let verified = runnable(alloc, m, arguments)?;
    replayed_by(alloc, &verified, arguments, log_in)
}

/// What an accepted module prints in the run with these arguments that the log has.
fn replayed_by<L: Source>(
    alloc: Global,
    verified: &Verified,
    arguments: &[i64],
    log_in: &mut L,
) -> Result<Done, Fault>
    requires accepted { IsAccepted verified.now }
    requires taken { AreArguments verified.now arguments.now }
    ensures done { IfOk result (λ d. OfSome (L.remaining log_in.old)
        (λ logged. ComesTo Replay verified.now arguments.now logged d)) }
    ensures no_fault { OnOk result (L.fault_count log_in.new ≡ L.fault_count log_in.old) }
    ensures fault { IfErr result (AgainstRun verified.now arguments.now (L.remaining log_in.old)
        (L.fault_count log_in.old) (L.fault_count log_in.new)) }
    ensures of_log { IfErr result (λ f. status_of f ≢ status_program) }
{
    let ended = run_again(alloc, verified, arguments, log_in)?;
    Ok(numbers_of(ended))
}

/// What a run printed that came to its end, and how many steps it took.
fn numbers_of(ended: Ended<'_>) -> Done
    requires { IsAccepted ended.module.now }
    ensures { (logged : List ℕ) → IsLogText logged ended.entry.log.items
        → ComesTo Replay ended.entry.module.now ended.entry.core.world.arguments logged result }
{
    Done::of_run(finish(false, None, ended))
}

/// The whole run again with these arguments that the log has.
#[tactic(auto, using(crate::proofs::LogLemmas::log_stands))]
pub(crate) fn run_again<'m, L: Source>(
    alloc: Global,
    verified: &'m Verified,
    arguments: &[i64],
    log_in: &mut L,
) -> Result<Ended<'m>, Fault>
    requires { AreArguments verified.now arguments.now }
    ensures same_module { IfOk result (λ e. e.module.now ≡ verified.now) }
    ensures same_arguments { IfOk result (λ e. e.core.world.arguments ≡ arguments.now) }
    ensures log { IfOk result (λ e. OfSome (L.remaining log_in.old)
        (λ logged. IsLogText logged e.log.items)) }
    ensures no_fault { OnOk result (L.fault_count log_in.new ≡ L.fault_count log_in.old) }
    ensures fault { IfErr result (AgainstRun verified.now arguments.now (L.remaining log_in.old)
        (L.fault_count log_in.old) (L.fault_count log_in.new)) }
    ensures of_log { IfErr result (λ f. status_of f ≢ status_program) }
{
    let log = read_log(alloc, log_in)?;
    Ok(replay(alloc, verified, arguments, log)?)
}

/// The run again with these arguments that the log has, as far as the log goes.
#[tactic(auto, using(crate::proofs::LogLemmas::log_stands, crate::proofs::LogLemmas::text_goes_on))]
pub(crate) fn run_so_far<'m, L: Source>(
    alloc: Global,
    verified: &'m Verified,
    arguments: &[i64],
    log_in: &mut L,
) -> Result<Partial<'m>, Fault>
    requires { AreArguments verified.now arguments.now }
    ensures same_module { IfOk result (λ p. p.module.now ≡ verified.now) }
    ensures same_arguments { IfOk result (λ p. p.core.world.arguments ≡ arguments.now) }
    ensures log { IfOk result (λ p. OfSome (L.remaining log_in.old)
        (λ logged. IsLogText logged p.log.items)) }
    ensures no_fault { OnOk result (L.fault_count log_in.new ≡ L.fault_count log_in.old) }
    ensures fault { IfErr result (AgainstRun verified.now arguments.now (L.remaining log_in.old)
        (L.fault_count log_in.old) (L.fault_count log_in.new)) }
    ensures goes_on { IfErr result (λ f. f ≢ fault.NotEnded) }
    ensures of_log { IfErr result (λ f. status_of f ≢ status_program) }
{
    let log = read_log(alloc, log_in)?;
    Ok(replay_so_far(alloc, verified, arguments, log)?)
}

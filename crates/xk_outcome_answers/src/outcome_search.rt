//! What a module can print.

ghost use Rattle.std.specs.Prelude.{◌≡◌, ◌≢◌, ℕ, List, IfOk, IfErr, None, OnOk, option_map, unwrap_or};
ghost use Rattle.xk_log.specs.SomeBytes.{OfSome};
ghost use Rattle.xk_types.specs.World.{AreArguments};
ghost use Rattle.xk_answers.specs.Results.{ComesTo, Expected, IsFoundOut, IsHeldOut, Outcomes, kept_log, longest_list};
ghost use Rattle.xk_program.specs.Refusals.{IsNotRun};
ghost use Rattle.xk_program.specs.Bytes.{LosesAtMost};
ghost use Rattle.xk_jobs.specs.Status.{status_program};
ghost use Rattle.xk_answers.specs.Refusals.{AgainstExpected, AgainstList};
ghost use Rattle.xk_program.specs.Lines.{status_of};

use std::alloc::{AllocError, Global};
use xk_answers::Done;
use xk_bounds::Verified;
use xk_outcome_lists::{ListFault, expected_outcomes, is_whole, outcomes_text};
use xk_outcomes::{Limit, Outcome, outcomes_as};
use xk_program::{Fault, read_front, runnable};
use xk_types::{Entry, Module, Source};

/// How many bytes of a list are read at most.
pub const LONGEST_LIST: usize = 100_000_000;

/// What a module can print that is given these arguments, if it is accepted and main takes as many, with the log of one outcome where that is to be
/// kept.
pub fn searched(
    alloc: Global,
    sets: bool,
    limit: Option<u64>,
    pick: Option<u64>,
    keeps_log: bool,
    m: Module,
    arguments: &[i64],
) -> Result<Done, Fault>
    ensures done { IfOk result (λ d. (logged : List ℕ)
        → ComesTo (Outcomes sets limit (unwrap_or pick 1) keeps_log) m arguments.now logged d) }
    ensures fault { IfErr result (IsNotRun m arguments.now) }
{
    let verified = runnable(alloc, m, arguments)?;
    let limit = Limit::of(limit, verified.activities());
    let pick = pick.unwrap_or(1) as usize;
    Ok(found_out(alloc, sets, limit, pick, keeps_log, &verified, arguments)?)
}

/// The same of an accepted module.
fn found_out(
    alloc: Global,
    sets: bool,
    limit: Limit,
    pick: usize,
    keeps_log: bool,
    verified: &Verified,
    arguments: &[i64],
) -> Result<Done, AllocError>
    requires { AreArguments verified.now arguments.now }
    ensures { IfOk result (IsFoundOut verified.now arguments.now sets limit pick keeps_log) }
{
    let found = outcomes_as(alloc, sets, verified, arguments, limit)?;
    let text = outcomes_text(alloc, &found.list, found.complete)?;
    let log = kept_log(alloc, keeps_log, pick, &found.list)?;
    let whole = is_whole(found.complete, keeps_log, log.is_some());
    Ok(Done::Outcomes { text, whole, log })
}

/// What a module can print that is given these arguments is held against the list, if it is accepted and main takes as many. Where it isn't run, no
/// list is read.
pub fn held<L: Source>(
    alloc: Global,
    sets: bool,
    limit: Option<u64>,
    m: Module,
    arguments: &[i64],
    source: &mut L,
) -> Result<Done, Fault>
    ensures done { IfOk result (λ d. OfSome (L.remaining source.old) (λ bytes.
        ComesTo (Expected sets limit) m arguments.now bytes d)) }
    ensures no_fault { OnOk result (L.fault_count source.new ≡ L.fault_count source.old) }
    ensures fault { IfErr result (AgainstExpected m arguments.now (L.remaining source.old)
        (L.fault_count source.old) (L.fault_count source.new)) }
    ensures refused { IfErr result
        (λ f. status_of f ≡ status_program → source.new ≡ source.old) }
    ensures no_further { LosesAtMost longest_list
        (L.remaining source.old) (L.remaining source.new) }
{
    let verified = runnable(alloc, m, arguments)?;
    let limit = Limit::of(limit, verified.activities());
    held_by(alloc, sets, limit, &verified, arguments, source)
}

/// The same of an accepted module.
fn held_by<L: Source>(
    alloc: Global,
    sets: bool,
    limit: Limit,
    verified: &Verified,
    arguments: &[i64],
    source: &mut L,
) -> Result<Done, Fault>
    requires { AreArguments verified.now arguments.now }
    ensures done { IfOk result (λ d. OfSome (L.remaining source.old)
        (λ bytes. IsHeldOut verified.now arguments.now sets limit bytes d)) }
    ensures no_fault { OnOk result (L.fault_count source.new ≡ L.fault_count source.old) }
    ensures fault { IfErr result (AgainstList (L.remaining source.old)
        (L.fault_count source.old) (L.fault_count source.new)) }
    ensures of_list { IfErr result (λ f. status_of f ≢ status_program) }
    ensures no_further { LosesAtMost longest_list
        (L.remaining source.old) (L.remaining source.new) }
{
    let bytes = read_front(alloc, source, LONGEST_LIST)?;
    match expected_outcomes(alloc, sets, verified, arguments, limit, &bytes) {
        Ok(held) => Ok(Done::Held {
            text: held.text,
            verdict: held.verdict,
        }),
        Err(fault) => match fault {
            ListFault::Stray(line) => Err(Fault::NoOutcome(line)),
            ListFault::OutOfMemory => Err(Fault::OutOfMemory),
        },
    }
}

/// The log of the outcome of this number, counted from 1, where it is to be kept and there is such an outcome. Err where memory was
/// refused.
pub fn kept_log(
    alloc: Global,
    keeps_log: bool,
    pick: usize,
    list: &[Outcome],
) -> Result<Option<Vec<Entry>>, AllocError>
    ensures { IfOk result
        (λ log. option_map (λ es. es.items) log ≡ kept_log keeps_log pick list.now) }
{
    if !keeps_log {
        return Ok(None);
    }
    match list.get(pick.saturating_sub(1)) {
        Some(outcome) => Ok(Some(outcome.log.to_vec(alloc)?)),
        None => Ok(None),
    }
}

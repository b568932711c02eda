//! What is told as JSON.

ghost use Rattle.std.specs.Prelude.{◌≡◌, ◌≢◌, ℕ, ℤ, Bool, List, false, map, option_map, unwrap_or, IfOk, IfErr, OnOk};
ghost use Rattle.xk_log.specs.SomeBytes.{OfSome};
ghost use Rattle.xk_types.specs.Code.{ModuleValue};
ghost use Rattle.xk_types.specs.World.{AreArguments};
ghost use Rattle.xk_jobs.specs.Tasks.{Way};
ghost use Rattle.xk_jobs.specs.CommandAnswers.{have_places};
ghost use Rattle.xk_jobs.specs.Status.{status_program};
ghost use Rattle.xk_answers.specs.OrderedRun.{IsFinished};
ghost use Rattle.xk_answers.specs.Results.{ComesTo, ExpectedShown, IsFoundTold, IsHeldTold, IsRunTold, Json};
ghost use Rattle.xk_answers.specs.Results.{OutcomesShown, RunShown, lists_of, longest_list, verdict_name, way_given};
ghost use Rattle.xk_answers.specs.Refusals.{AgainstExpected, AgainstList};
ghost use Rattle.xk_program.specs.Bytes.{LosesAtMost};
ghost use Rattle.xk_program.specs.Lines.{status_of};
ghost use Rattle.xk_program.specs.Origins.{IsFrom};
ghost use Rattle.xk_program.specs.Programs.{Gives};
ghost use Rattle.xk_program.specs.Refusals.{IsNotRun};
ghost use Rattle.xk_serve.specs.Answer.{Succeeds, reads_more, task_of, values_doing};
ghost use Rattle.xk_serve.specs.Crews.{IsCrew};
ghost use Rattle.xk_serve.specs.Devices.{AgainstLog, IsListReadToLimit, read_of};

use crate::commands::run_by;
use std::alloc::{AllocError, Global};
use xk_answers::{Done, Finished, Picture, drawn, raced, stood};
use xk_bounds::Verified;
use xk_jobs::{Drive, Job, Order, Values};
use xk_outcome_answers::{LONGEST_LIST, kept_log};
use xk_outcome_lists::{ListFault, Verdict, expected_outcomes, is_whole};
use xk_outcomes::{Limit, Outcome, outcomes_as};
use xk_program::{Fault, Program, read_front, runnable};
use xk_show_json::{held_json, outcomes_json, run_json};
use xk_types::{Module, Source};

/// What a job comes to that tells these values of the program which these bytes give; or what stands against it, as for `answer`.
pub(crate) fn answer_values<
    F: FnOnce(Drive, bool, &Verified, &[i64]) -> Result<Finished, AllocError>,
    L: Source,
>(
    crew: F,
    alloc: Global,
    values: Values<'_>,
    job: &Job<'_>,
    bytes: &[u8],
    program: Program<'_>,
    log_in: &mut L,
) -> Result<Done, Fault>
    requires crew { IsCrew (F.pre crew) (F.post crew) }
    requires doing { (task_of job.now).doing ≡ values_doing values }
    requires module { Gives job.now.form bytes.now program.module }
    requires from { IsFrom (have_places values) job.now.form bytes.now program.from }
    ensures done { IfOk result (λ d. OfSome (read_of (task_of job.now) (L.remaining log_in.old))
        (λ logged. Succeeds (task_of job.now) bytes.now logged d)) }
    ensures no_fault { OnOk result (L.fault_count log_in.new ≡ L.fault_count log_in.old) }
    ensures fault { IfErr result (λ f. AgainstLog (task_of job.now) bytes.now
        (L.remaining log_in.old) (L.fault_count log_in.old) (L.fault_count log_in.new) f) }
    ensures unread { reads_more (task_of job.now).doing ≡ false → log_in.new ≡ log_in.old }
    ensures refused { IfErr result
        (λ f. status_of f ≡ status_program → log_in.new ≡ log_in.old) }
    ensures list_no_further { IsListReadToLimit (task_of job.now).doing
        (L.remaining log_in.old) (L.remaining log_in.new) }
{
    let arguments = job.arguments.as_slice();
    match values {
        Values::Run { drive, log } => {
            run_shown(crew, alloc, drive, log.is_some(), program.module, arguments)
        }
        Values::Events { .. } => {
            let events = Picture::EventValues;
            drawn(alloc, events, job.file, program, arguments, log_in)
        }
        Values::Races { log } => {
            let given = log.is_some();
            if given {
                let races = Picture::Races(true);
                return drawn(alloc, races, job.file, program, arguments, log_in);
            }
            raced(alloc, true, program, arguments)
        }
        Values::Where { at, .. } => stood(alloc, true, program, at, arguments, log_in),
        Values::Span { .. } => {
            let span = Picture::Span(true);
            drawn(alloc, span, job.file, program, arguments, log_in)
        }
        Values::Outcomes {
            limit,
            pick,
            log,
            sets,
        } => found_shown(
            alloc,
            sets,
            limit,
            pick,
            log.is_some(),
            program.module,
            arguments,
        ),
        Values::Expected { limit, sets, .. } => {
            held_shown(alloc, sets, limit, program.module, arguments, log_in)
        }
    }
}

/// The run of a module with these arguments as it is to be driven, if it is accepted and main takes as many, told as one value, with
/// its log where that is to be kept.
fn run_shown<F: FnOnce(Drive, bool, &Verified, &[i64]) -> Result<Finished, AllocError>>(
    crew: F,
    alloc: Global,
    drive: Option<Drive>,
    keeps_log: bool,
    m: Module,
    arguments: &[i64],
) -> Result<Done, Fault>
    requires crew { IsCrew (F.pre crew) (F.post crew) }
    ensures done { IfOk result (λ d. (logged : List ℕ)
        → ComesTo (Json (RunShown (way_given drive) keeps_log)) m arguments.now logged d) }
    ensures fault { IfErr result (IsNotRun m arguments.now) }
{
    let verified = runnable(alloc, m, arguments)?;
    let drive = drive.unwrap_or(Drive::Order(Order::First));
    let run = run_by(crew, drive, keeps_log, &verified, arguments)?;
    let done = run_told(alloc, run)?;
    Ok(done)
}

/// A run that came to its end, told as one value.
fn run_told(alloc: Global, run: Finished) -> Result<Done, AllocError>
    ensures { (way : Way) (keeps : Bool) (m : ModuleValue) (args : List ℤ)
        → IsFinished way keeps m args run.printed.items run.steps run.rounds
        (option_map (λ es. es.items) run.log)
        → IfOk result (IsRunTold way keeps m args) }
{
    let text = run_json(alloc, &run.printed, run.steps, run.rounds)?;
    Ok(Done::Outcomes {
        text,
        whole: true,
        log: run.log,
    })
}

/// What a module can print that is given these arguments, if it is accepted and main takes as many, told as one value, with the log of
/// one outcome where that is to be kept.
fn found_shown(
    alloc: Global,
    sets: bool,
    limit: Option<u64>,
    pick: Option<u64>,
    keeps_log: bool,
    m: Module,
    arguments: &[i64],
) -> Result<Done, Fault>
    ensures done { IfOk result (λ d. (logged : List ℕ)
        → ComesTo (Json (OutcomesShown sets limit (unwrap_or pick 1) keeps_log))
        m arguments.now logged d) }
    ensures fault { IfErr result (IsNotRun m arguments.now) }
{
    let verified = runnable(alloc, m, arguments)?;
    let limit = Limit::of(limit, verified.activities());
    let pick = pick.unwrap_or(1) as usize;
    Ok(found_told(alloc, sets, limit, pick, keeps_log, &verified, arguments)?)
}

/// The same of an accepted module.
fn found_told(
    alloc: Global,
    sets: bool,
    limit: Limit,
    pick: usize,
    keeps_log: bool,
    verified: &Verified,
    arguments: &[i64],
) -> Result<Done, AllocError>
    requires { AreArguments verified.now arguments.now }
    ensures { IfOk result (IsFoundTold verified.now arguments.now sets limit pick keeps_log) }
{
    let found = outcomes_as(alloc, sets, verified, arguments, limit)?;
    let lists = lists_of(alloc, &found.list)?;
    let text = outcomes_json(alloc, &lists, found.complete)?;
    let log = kept_log(alloc, keeps_log, pick, &found.list)?;
    let whole = is_whole(found.complete, keeps_log, log.is_some());
    Ok(Done::Outcomes { text, whole, log })
}

/// What each outcome prints.
fn lists_of<'a>(alloc: Global, list: &'a [Outcome]) -> Result<Vec<&'a [i64]>, AllocError>
    ensures { IfOk result (λ v. map (λ x. x.now) v.items ≡ lists_of list.entry.now) }
{
    let mut lists = Vec::new(alloc);
    for outcome in list {
        lists.push(outcome.numbers.as_slice())?;
    }
    Ok(lists)
}

/// What a module can print that is given these arguments is held against the list, if it is accepted and main takes as many, and what
/// that says is told as one value. Where it isn't run, no list is read.
fn held_shown<L: Source>(
    alloc: Global,
    sets: bool,
    limit: Option<u64>,
    m: Module,
    arguments: &[i64],
    source: &mut L,
) -> Result<Done, Fault>
    ensures done { IfOk result (λ d. OfSome (L.remaining source.old) (λ bytes.
        ComesTo (Json (ExpectedShown sets limit)) m arguments.now bytes d)) }
    ensures no_fault { OnOk result (L.fault_count source.new ≡ L.fault_count source.old) }
    ensures fault { IfErr result (AgainstExpected m arguments.now (L.remaining source.old)
        (L.fault_count source.old) (L.fault_count source.new)) }
    ensures refused { IfErr result
        (λ f. status_of f ≡ status_program → source.new ≡ source.old) }
    ensures no_further { LosesAtMost longest_list
        (L.remaining source.old) (L.remaining source.new) }
{
    let verified = runnable(alloc, m, arguments)?;
    let limit = Limit::of(limit, verified.activities());
    held_told(alloc, sets, limit, &verified, arguments, source)
}

/// The same of an accepted module.
fn held_told<L: Source>(
    alloc: Global,
    sets: bool,
    limit: Limit,
    verified: &Verified,
    arguments: &[i64],
    source: &mut L,
) -> Result<Done, Fault>
    requires { AreArguments verified.now arguments.now }
    ensures done { IfOk result (λ d. OfSome (L.remaining source.old)
        (λ bytes. IsHeldTold verified.now arguments.now sets limit bytes d)) }
    ensures no_fault { OnOk result (L.fault_count source.new ≡ L.fault_count source.old) }
    ensures fault { IfErr result (AgainstList (L.remaining source.old)
        (L.fault_count source.old) (L.fault_count source.new)) }
    ensures of_list { IfErr result (λ f. status_of f ≢ status_program) }
    ensures no_further { LosesAtMost longest_list
        (L.remaining source.old) (L.remaining source.new) }
{
    let bytes = read_front(alloc, source, LONGEST_LIST)?;
    match expected_outcomes(alloc, sets, verified, arguments, limit, &bytes) {
        Ok(held) => match held_json(alloc, &held.text, verdict_name(held.verdict)) {
            Ok(text) => Ok(Done::Held {
                text,
                verdict: held.verdict,
            }),
            Err(_) => Err(Fault::OutOfMemory),
        },
        Err(fault) => match fault {
            ListFault::Stray(line) => Err(Fault::NoOutcome(line)),
            ListFault::OutOfMemory => Err(Fault::OutOfMemory),
        },
    }
}

/// What outcomes say of a list, in a word.
fn verdict_name(verdict: Verdict) -> &'static str
    ensures { result.now ≡ verdict_name verdict }
{
    match verdict {
        Verdict::Complete => "complete",
        Verdict::Undecided => "undecided",
        Verdict::Refuted => "refuted",
    }
}

//! The answer to a job, over values.

ghost use Rattle.std.specs.Prelude.{◌≡◌, ℕ, ℤ, List, None, false, true, IfOk, IfErr, OnOk};
ghost use Rattle.xk_log.specs.SomeBytes.{OfSome};
ghost use Rattle.xk_answers.specs.Results.{Check, ComesTo, Compile, IsTelling, IsText, Listing, Run, way_given};
ghost use Rattle.xk_program.specs.Refusals.{IsNotRun, IsRefusal};
ghost use Rattle.xk_types.specs.World.{AreArguments};
ghost use Rattle.xk_serve.specs.Answer.{Succeeds, reads_more, task_of};
ghost use Rattle.xk_serve.specs.Crews.{IsCrew, IsDriven};
ghost use Rattle.xk_program.specs.Origins.{IsFrom};
ghost use Rattle.xk_jobs.specs.CommandAnswers.{explanation};
ghost use Rattle.xk_jobs.specs.declared.job.Form.{Form as FormValue};
ghost use Rattle.xk_jobs.specs.Status.{status_program};
ghost use Rattle.xk_program.specs.Lines.{status_of};
ghost use Rattle.xk_serve.specs.Devices.{AgainstLog, IsListReadToLimit, read_of};
ghost use Rattle.xk_program.specs.declared.fault.Fault.TheVariants.{OutOfMemory};

use crate::tally::tallied;
use crate::values::answer_values;
use std::alloc::{AllocError, Global};
use xk_answers::{
    Done, Finished, Picture, drawn, lanes_given, listing, page_given, raced, replayed, stood,
    window_given,
};
use xk_bounds::Verified;
use xk_jobs::{Command, Drive, Job, Order};
use xk_module::write_module;
use xk_outcome_answers::{counted, held, paged, searched};
use xk_program::{Fault, Program, accepted, program_by, runnable};
use xk_types::{Module, Source};

/// What a job on a file of these bytes comes to of which nothing is said but the line of a fault, as of all but `explain`; or what stands against
/// it: a fault of the text (F1 to F15, M1 to M3), of its module (V1 to V17), of main's arguments where it is run (A1), or of the log or the list
/// where one is read, want of memory, or a read of these that failed.
pub(crate) fn answer<
    F: FnOnce(Drive, bool, &Verified, &[i64]) -> Result<Finished, AllocError>,
    L: Source,
>(crew: F, alloc: Global, job: &Job<'_>, bytes: &[u8], log_in: &mut L) -> Result<Done, Fault>
    requires crew { IsCrew (F.pre crew) (F.post crew) }
    requires by_line { explanation job.now.command ≡ None }
    ensures done { IfOk result (λ d. OfSome (read_of (task_of job.now) (L.remaining log_in.old))
        (λ logged. Succeeds (task_of job.now) bytes.now logged d)) }
    ensures no_fault { OnOk result (L.fault_count log_in.new ≡ L.fault_count log_in.old) }
    ensures fault { IfErr result (λ f. AgainstLog (task_of job.now) bytes.now
        (L.remaining log_in.old) (L.fault_count log_in.old) (L.fault_count log_in.new) f) }
    ensures unread { reads_more (task_of job.now).doing ≡ false → log_in.new ≡ log_in.old }
    // Where the program is refused, no log or list was read.
    ensures refused { IfErr result
        (λ f. status_of f ≡ status_program → log_in.new ≡ log_in.old) }
    ensures list_no_further { IsListReadToLimit (task_of job.now).doing
        (L.remaining log_in.old) (L.remaining log_in.new) }
{
    let program = program_by(alloc, job.form, job.command.shows_origins(), bytes)?;
    let arguments = job.arguments.as_slice();
    match job.command {
        Command::Compile => compiled(alloc, &program.module),
        Command::Listing => listed(alloc, program),
        Command::Check => checked(alloc, program.module),
        Command::Explain { .. } => unreachable!(),
        Command::Run { drive, log } => {
            run_driven(crew, alloc, drive, log.is_some(), program.module, arguments)
        }
        Command::Replay { .. } => replayed(alloc, program.module, arguments, log_in),
        Command::Chart { .. } => {
            let chart = Picture::Chart;
            drawn(alloc, chart, job.file, program, arguments, log_in)
        }
        Command::Events { .. } => {
            let events = Picture::Events;
            drawn(alloc, events, job.file, program, arguments, log_in)
        }
        Command::Lanes {
            from,
            to,
            svg,
            path,
            ..
        } => {
            let lanes = lanes_given(from, to, svg, path);
            drawn(alloc, lanes, job.file, program, arguments, log_in)
        }
        Command::Rounds { .. } => {
            let rounds = Picture::Rounds;
            drawn(alloc, rounds, job.file, program, arguments, log_in)
        }
        Command::Page { from, to, path, .. } => {
            let page = page_given(from, to, path);
            drawn(alloc, page, job.file, program, arguments, log_in)
        }
        Command::OutcomePage {
            pick,
            limit,
            from,
            to,
        } => {
            let window = window_given(from, to);
            paged(alloc, window, limit, pick, job.file, program, arguments)
        }
        Command::Span { .. } => {
            let span = Picture::Span(false);
            drawn(alloc, span, job.file, program, arguments, log_in)
        }
        Command::Why { step, .. } => {
            let why = Picture::Why(step);
            drawn(alloc, why, job.file, program, arguments, log_in)
        }
        Command::Where { at, .. } => stood(alloc, false, program, at, arguments, log_in),
        Command::Races { log } => {
            let given = log.is_some();
            if given {
                let races = Picture::Races(false);
                return drawn(alloc, races, job.file, program, arguments, log_in);
            }
            raced(alloc, false, program, arguments)
        }
        Command::Tally { seed, runs } => tallied(alloc, seed, runs, program.module, arguments),
        Command::Outcomes {
            sets,
            limit,
            pick,
            log,
        } => searched(
            alloc,
            sets,
            limit,
            pick,
            log.is_some(),
            program.module,
            arguments,
        ),
        Command::Count { limit, sets } => { counted(alloc, sets, limit, program.module, arguments) }
        Command::Expected { limit, sets, .. } => {
            held(alloc, sets, limit, program.module, arguments, log_in)
        }
        Command::Json(values) => answer_values(crew, alloc, values, job, bytes, program, log_in),
    }
}

/// The text of a module.
fn compiled(alloc: Global, m: &Module) -> Result<Done, Fault>
    ensures done { IfOk result
        (λ d. (args : List ℤ) (logged : List ℕ) → ComesTo Compile m.now args logged d) }
    ensures fault { IfErr result (λ f. f ≡ OutOfMemory) }
{
    Ok(Done::Compiled(write_module(alloc, m)?))
}

/// The listing of a program.
fn listed(alloc: Global, program: Program<'_>) -> Result<Done, Fault>
    ensures done { (form : FormValue) (file bytes : List ℕ) (args : List ℤ) (logged : List ℕ)
        → IsFrom true form bytes program.entry.from → IfOk result
        (IsText (IsTelling Listing form file bytes program.entry.module args logged)) }
    ensures fault { IfErr result (λ f. f ≡ OutOfMemory) }
{
    Ok(Done::Told {
        text: listing(alloc, program)?,
        whole: true,
    })
}

/// The bounds on the runs of a module, if it is accepted.
fn checked(alloc: Global, m: Module) -> Result<Done, Fault>
    ensures done { IfOk result
        (λ d. (args : List ℤ) (logged : List ℕ) → ComesTo Check m args logged d) }
    ensures fault { IfErr result (IsRefusal m) }
{
    let verified = accepted(alloc, m)?;
    Ok(Done::Accepted {
        steps: verified.steps(),
        activities: verified.activities(),
        clocks: verified.clocks(),
    })
}

/// The run of a module with these arguments as it is to be driven, if it is accepted and main takes as many, with its log where that is to be
/// kept.
fn run_driven<F: FnOnce(Drive, bool, &Verified, &[i64]) -> Result<Finished, AllocError>>(
    crew: F,
    alloc: Global,
    drive: Option<Drive>,
    keeps_log: bool,
    m: Module,
    arguments: &[i64],
) -> Result<Done, Fault>
    requires crew { IsCrew (F.pre crew) (F.post crew) }
    ensures done { IfOk result (λ d. (logged : List ℕ)
        → ComesTo (Run (way_given drive) keeps_log) m arguments.now logged d) }
    ensures fault { IfErr result (IsNotRun m arguments.now) }
{
    let verified = runnable(alloc, m, arguments)?;
    let drive = drive.unwrap_or(Drive::Order(Order::First));
    let run = run_by(crew, drive, keeps_log, &verified, arguments)?;
    Ok(Done::of_run(run))
}

/// The run of a module with these arguments that the crew gives.
pub(crate) fn run_by<F: FnOnce(Drive, bool, &Verified, &[i64]) -> Result<Finished, AllocError>>(
    crew: F,
    drive: Drive,
    keeps_log: bool,
    verified: &Verified,
    arguments: &[i64],
) -> Result<Finished, AllocError>
    requires crew { IsCrew (F.pre crew) (F.post crew) }
    requires taken { AreArguments verified.now arguments.now }
    ensures { IfOk result (IsDriven drive keeps_log verified.now arguments.now) }
{
    crew(drive, keeps_log, verified, arguments)
}

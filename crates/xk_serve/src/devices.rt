//! The program between its devices.

ghost use Rattle.std.specs.Prelude.{◌≡◌, ◌≢◌, ◌⊎◌, ◌++◌, false, [], IfOk, IfErr, OnOk, OnErr};
ghost use Rattle.std.specs.Io.KnownBytes.{Appends};
ghost use Rattle.xk_types.specs.Device.{Rose};
ghost use Rattle.xk_types.specs.World.{AreArguments};
ghost use Rattle.xk_serve.specs.Crews.{IsCrew, IsDriven};
ghost use Rattle.xk_io.specs.Writing.{AppendsBeginning};
ghost use Rattle.xk_jobs.specs.Status.{status_device, status_done, status_memory, status_partial, status_program, status_refuted};
ghost use Rattle.xk_log.specs.SomeBytes.{OfSome};
ghost use Rattle.xk_serve.specs.Answer.{IsSaidOf, Succeeds, reads_more, task_of};
ghost use Rattle.xk_answers.specs.Printed.{done_status};
ghost use Rattle.xk_program.specs.Bytes.{IsReadToLimit};
ghost use Rattle.xk_program.specs.Lines.{device_line, fault_line, status_of};
ghost use Rattle.xk_answers.specs.Printed.{done_ending, done_log};
ghost use Rattle.xk_messages.specs.Lines.{memory_line};
ghost use Rattle.xk_serve.specs.Devices.{AgainstLog, Answered, AnsweredBySome, ErrBegins, Explained, IfKnown, IsBegun};
ghost use Rattle.xk_serve.specs.Devices.{IsListReadToLimit, IsNoted, IsOutcomeOfSome, IsQuiet, IsWritten, OutBegins, Reports};
ghost use Rattle.xk_serve.specs.Devices.{StandsAgainst, Tells, TellsWords, read_of, reads};

use crate::commands::answer;
use crate::refusal::{Refusal, noted, tell_noted, unnoted};
use std::alloc::{AllocError, Global};
use std::sync::Wait;
use std::thread::Threads;
use xk_answers::{Done, Finished, Refused, explained, run_as, unsaid};
use xk_bounds::Verified;
use xk_cli::WordsFault;
use xk_io::{Device, write_all};
use xk_jobs::{Drive, Job, status};
use xk_log::write_entries;
use xk_messages::MEMORY_LINE;
use xk_program::{DEVICE_LINE, Fault, read_program};
use xk_types::{Sink, Source};

/// Reads the program, does the job, and writes what comes of it: its result to `out` and then the log of a run that is to have one to
/// `log_out`, or one line to `err`, before which another may say that FILE is a log. The answer is the exit status: 0 where the job is
/// done, 6 where it is done but its answer isn't whole, 7 where an outcome isn't in the list, 1 where the program is refused, or is to be
/// run and its main takes another number of arguments than it is given, 3 where the log or the list of outcomes is refused, 4 where memory
/// ran out, 5 where a device failed. A run by workers is some run of the program: a call with such a job may wait for them, and what is
/// said here holds where it returns. Whatever the answer but 5, no read or write failed. The result is written piece by piece, once all is
/// known and no more memory is wanted, so `out` and `log_out` stay empty but at 0, 6, 7 and 5, and at 1 where `explain` says more of a
/// fault; and `err` never gets more than these lines.
pub fn serve<R: Threads + Wait + Sync, P: Source, L: Source, O: Sink, E: Sink, K: Sink>(
    rt: &R,
    alloc: Global,
    job: &Job<'_>,
    program: &mut P,
    log_in: &mut L,
    out: &mut O,
    err: &mut E,
    log_out: &mut K,
) -> u8
    ensures answered { IfKnown (task_of job.now) (P.remaining program.old) (L.remaining log_in.old)
        (λ bytes logged. result ≢ status_memory → result ≢ status_device
        → Answered (task_of job.now) bytes logged result
        (O.contents out.old) (O.contents out.new) (E.contents err.old) (E.contents err.new)
        (K.contents log_out.old) (K.contents log_out.new)) }
    // Whatever is known of FILE, the answer is that of some bytes.
    ensures by_some { result ≢ status_memory → result ≢ status_device
        → AnsweredBySome (task_of job.now) (P.remaining program.old) (L.remaining log_in.old) result
        (O.contents out.old) (O.contents out.new) (E.contents err.old) (E.contents err.new)
        (K.contents log_out.old) (K.contents log_out.new) }

    // Memory and devices.
    ensures out_begins { IfKnown (task_of job.now) (P.remaining program.old) (L.remaining
        log_in.old)
        (λ bytes logged. OutBegins (task_of job.now) bytes logged
        (O.contents out.old) (O.contents out.new)
        (K.contents log_out.old) (K.contents log_out.new)) }
    ensures err_begins { IfKnown (task_of job.now) (P.remaining program.old) (L.remaining
        log_in.old)
        (λ bytes logged. ErrBegins (task_of job.now) bytes logged
        (E.contents err.old) (E.contents err.new)) }
    ensures memory_out { result ≡ status_memory
        → Appends (O.contents out.old) (O.contents out.new) [] }
    ensures memory_log { result ≡ status_memory
        → Appends (K.contents log_out.old) (K.contents log_out.new) [] }
    ensures memory_err { result ≡ status_memory
        → Appends (E.contents err.old) (E.contents err.new) memory_line }
    ensures faults { result ≢ status_device
        → (P.fault_count program.new ≡ P.fault_count program.old)
        × (L.fault_count log_in.new ≡ L.fault_count log_in.old)
        × (O.fault_count out.new ≡ O.fault_count out.old)
        × (E.fault_count err.new ≡ E.fault_count err.old)
        × (K.fault_count log_out.new ≡ K.fault_count log_out.old) }
    ensures device { result ≡ status_device
        → Rose (P.fault_count program.old) (P.fault_count program.new)
        ⊎ (Rose (L.fault_count log_in.old) (L.fault_count log_in.new)
        ⊎ (Rose (O.fault_count out.old) (O.fault_count out.new)
        ⊎ (Rose (E.fault_count err.old) (E.fault_count err.new)
        ⊎ Rose (K.fault_count log_out.old) (K.fault_count log_out.new)))) }
    ensures device_err { result ≡ status_device
        → Appends (E.contents err.old) (E.contents err.new) device_line
        ⊎ Rose (E.fault_count err.old) (E.fault_count err.new) }

    // What isn't wanted isn't read: no log or list where the job is on none or the program is refused, and no text or list beyond its limit.
    ensures log_in { reads_more (task_of job.now).doing ≡ false → log_in.new ≡ log_in.old }
    ensures log_unread { result ≡ status_program → log_in.new ≡ log_in.old }
    ensures no_further { IsReadToLimit (task_of job.now).form
        (P.remaining program.old) (P.remaining program.new) }
    ensures list_no_further { IsListReadToLimit (task_of job.now).doing
        (L.remaining log_in.old) (L.remaining log_in.new) }
{
    let crew = move |drive: Drive, keeps_log: bool, verified: &Verified, arguments: &[i64]|
        requires { AreArguments verified.now arguments.now }
        ensures { IfOk result (IsDriven drive keeps_log verified.now arguments.now) }
    { run_as(rt, alloc, drive, keeps_log, verified, arguments) };
    match outcome(crew, alloc, job, program, log_in) {
        Ok(done) => match done.ending(alloc) {
            Ok(ending) => print(alloc, &done, ending.as_str(), out, err, log_out),
            Err(_) => report(alloc, &Fault::OutOfMemory, err),
        },
        Err(refusal) => refuse(alloc, &refusal, out, err),
    }
}

/// What the job comes to, or what stands against it, with what is said of that beside its line.
pub(crate) fn outcome<
    F: FnOnce(Drive, bool, &Verified, &[i64]) -> Result<Finished, AllocError>,
    P: Source,
    L: Source,
>(crew: F, alloc: Global, job: &Job<'_>, program: &mut P, log_in: &mut L) -> Result<Done, Refusal>
    requires crew { IsCrew (F.pre crew) (F.post crew) }
    ensures done { IfOk result (λ d.
        IfKnown (task_of job.now) (P.remaining program.old) (L.remaining log_in.old)
        (λ bytes logged. Succeeds (task_of job.now) bytes logged d)) }
    ensures no_fault { OnOk result ((P.fault_count program.new ≡ P.fault_count program.old)
        × (L.fault_count log_in.new ≡ L.fault_count log_in.old)) }
    ensures fault { IfErr result (λ r. StandsAgainst (task_of job.now) (P.remaining program.old)
        (L.remaining log_in.old) (reads (P.fault_count program.old) (P.fault_count program.new)
        (L.fault_count log_in.old) (L.fault_count log_in.new))
        r.refused.fault r.refused.said.items) }
    ensures noted { IfErr result (λ r. IsNoted (task_of job.now) (P.remaining program.old)
        r.refused.fault r.note.now) }
    ensures by_some { IsOutcomeOfSome (task_of job.now) (P.remaining program.old)
        (L.remaining log_in.old) (reads (P.fault_count program.old) (P.fault_count program.new)
        (L.fault_count log_in.old) (L.fault_count log_in.new)) result }
    ensures quiet { IfErr result (λ r. IsQuiet r.refused.fault r.refused.said.items) }
    ensures quiet_note { IfErr result (λ r. IsQuiet r.refused.fault r.note.now) }
    ensures unread { reads_more (task_of job.now).doing ≡ false → log_in.new ≡ log_in.old }
    ensures refused { IfErr result
        (λ r. status_of r.refused.fault ≡ status_program → log_in.new ≡ log_in.old) }
    ensures no_further { IsReadToLimit (task_of job.now).form
        (P.remaining program.old) (P.remaining program.new) }
    ensures list_no_further { IsListReadToLimit (task_of job.now).doing
        (L.remaining log_in.old) (L.remaining log_in.new) }
{
    let bytes = match read_program(alloc, job.form, program) {
        Ok(bytes) => bytes,
        Err(fault) => return Err(unnoted(alloc, fault)),
    };
    match outcome_of(crew, alloc, job, &bytes, log_in) {
        Ok(done) => Ok(done),
        Err(refused) => Err(noted(&job.command, &bytes, refused)),
    }
}

/// The same where FILE has these bytes, with what is said of a fault on standard output: only `explain` says something there.
fn outcome_of<F: FnOnce(Drive, bool, &Verified, &[i64]) -> Result<Finished, AllocError>, L: Source>(
    crew: F,
    alloc: Global,
    job: &Job<'_>,
    bytes: &[u8],
    log_in: &mut L,
) -> Result<Done, Refused>
    requires crew { IsCrew (F.pre crew) (F.post crew) }
    ensures done { IfOk result (λ d. OfSome (read_of (task_of job.now) (L.remaining log_in.old))
        (λ logged. Succeeds (task_of job.now) bytes.now logged d)) }
    ensures no_fault { OnOk result (L.fault_count log_in.new ≡ L.fault_count log_in.old) }
    ensures fault { IfErr result (λ r. AgainstLog (task_of job.now) bytes.now
        (L.remaining log_in.old) (L.fault_count log_in.old) (L.fault_count log_in.new) r.fault) }
    ensures said { IfErr result (λ r. IsSaidOf (task_of job.now) bytes.now r.fault r.said.items) }
    ensures unread { reads_more (task_of job.now).doing ≡ false → log_in.new ≡ log_in.old }
    ensures refused { IfErr result
        (λ r. status_of r.fault ≡ status_program → log_in.new ≡ log_in.old) }
    ensures list_no_further { IsListReadToLimit (task_of job.now).doing
        (L.remaining log_in.old) (L.remaining log_in.new) }
{
    match job.command.explanation() {
        Some(json) => explained(alloc, json, job.form, job.file, bytes),
        None => match answer(crew, alloc, job, bytes, log_in) {
            Ok(done) => Ok(done),
            Err(fault) => Err(unsaid(alloc, fault)),
        },
    }
}

/// Writes the result, and then the log of a run that is to have one. Where that fails, says so.
pub(crate) fn print<O: Sink, E: Sink, K: Sink>(
    alloc: Global,
    done: &Done,
    ending: &str,
    out: &mut O,
    err: &mut E,
    log_out: &mut K,
) -> u8
    requires { ending.now ≡ done_ending done.now }
    ensures printed { ((result ≡ done_status done.now)
        × IsWritten done.now (O.contents out.old) (O.contents out.new)
        (K.contents log_out.old) (K.contents log_out.new)
        × Appends (E.contents err.old) (E.contents err.new) [])
        ⊎ ((result ≡ status_device) × (Rose (O.fault_count out.old) (O.fault_count out.new)
        ⊎ Rose (K.fault_count log_out.old) (K.fault_count log_out.new))) }
    ensures known { (result ≡ status_done)
        ⊎ ((result ≡ status_partial)
        ⊎ ((result ≡ status_refuted) ⊎ (result ≡ status_device))) }
    ensures told { result ≡ status_device
        → Appends (E.contents err.old) (E.contents err.new) device_line
        ⊎ Rose (E.fault_count err.old) (E.fault_count err.new) }
    ensures begun { IsBegun done.now (O.contents out.old) (O.contents out.new)
        (K.contents log_out.old) (K.contents log_out.new) }
    ensures err_beginning { AppendsBeginning (E.contents err.old) (E.contents err.new) device_line }
    ensures faults { result ≢ status_device → (O.fault_count out.new ≡ O.fault_count out.old)
        × (E.fault_count err.new ≡ E.fault_count err.old)
        × (K.fault_count log_out.new ≡ K.fault_count log_out.old) }
{
    match write_result(done, ending, out, log_out) {
        Ok(()) => done.status(),
        Err(_) => report(alloc, &Fault::Device, err),
    }
}

/// Writes the result to `out`, and then the log of a run that is to have one.
fn write_result<O: Sink, K: Sink>(
    done: &Done,
    ending: &str,
    out: &mut O,
    log_out: &mut K,
) -> Result<(), Device>
    requires { ending.now ≡ done_ending done.now }
    ensures all { OnOk result (IsWritten done.now (O.contents out.old) (O.contents out.new)
        (K.contents log_out.old) (K.contents log_out.new)) }
    ensures begun { IsBegun done.now (O.contents out.old) (O.contents out.new)
        (K.contents log_out.old) (K.contents log_out.new) }
    ensures no_fault { OnOk result ((O.fault_count out.new ≡ O.fault_count out.old)
        × (K.fault_count log_out.new ≡ K.fault_count log_out.old)) }
    ensures failed { OnErr result (Rose (O.fault_count out.old) (O.fault_count out.new)
        ⊎ Rose (K.fault_count log_out.old) (K.fault_count log_out.new)) }
{
    done.write(ending, out)?;
    write_log(done, log_out)
}

/// Writes the log of a run that is to have one, and nothing else.
fn write_log<K: Sink>(done: &Done, log_out: &mut K) -> Result<(), Device>
    ensures all { OnOk result
        (Appends (K.contents log_out.old) (K.contents log_out.new) (done_log done.now)) }
    ensures beginning { AppendsBeginning
        (K.contents log_out.old) (K.contents log_out.new) (done_log done.now) }
    ensures no_fault { OnOk result (K.fault_count log_out.new ≡ K.fault_count log_out.old) }
    ensures failed { OnErr result
        (Rose (K.fault_count log_out.old) (K.fault_count log_out.new)) }
{
    let Some(log) = done.log() else {
        return Ok(());
    };
    write_entries(log, log_out)
}

/// Writes what is said of a fault to `out`, and then to `err` what stands before its line, and the line. Gives the status: the
/// fault's, or 4 where memory for the line ran out, and then nothing was written before, or 5 where a write failed.
pub(crate) fn refuse<O: Sink, E: Sink>(
    alloc: Global,
    refusal: &Refusal,
    out: &mut O,
    err: &mut E,
) -> u8
    requires quiet { IsQuiet refusal.now.refused.fault refusal.now.refused.said.items }
    requires quiet_note { IsQuiet refusal.now.refused.fault refusal.now.note.now }
    ensures { Explained refusal.now.refused.said.items refusal.now.note.now
        refusal.now.refused.fault
        (O.contents out.old) (O.contents out.new) (O.fault_count out.old) (O.fault_count out.new)
        (E.contents err.old) (E.contents err.new) (E.fault_count err.old) (E.fault_count err.new)
        result }
{
    let refused = &refusal.refused;
    if refused.said.is_empty() && refusal.note.is_empty() {
        return report(alloc, &refused.fault, err);
    }
    let Ok(line) = refused.fault.line(alloc) else {
        return tell(MEMORY_LINE, status::MEMORY, err);
    };
    match write_all(out, &refused.said) {
        Ok(()) => tell_noted(refusal.note, line.as_str(), refused.fault.status(), err),
        Err(_) => tell(DEVICE_LINE, status::DEVICE, err),
    }
}

/// Writes the line of a fault, and gives the status: the fault's, or 4 where memory for the line ran out, or 5 where it can't
/// be written. The lines of want of memory and of devices take no memory.
pub fn report<E: Sink>(alloc: Global, fault: &Fault, err: &mut E) -> u8
    ensures { Reports fault.now (E.contents err.old) (E.contents err.new)
        (E.fault_count err.old) (E.fault_count err.new) result }
{
    match fault {
        Fault::OutOfMemory => tell(MEMORY_LINE, status::MEMORY, err),
        Fault::Device => tell(DEVICE_LINE, status::DEVICE, err),
        Fault::Text(_)
        | Fault::Front(_)
        | Fault::Refused(_)
        | Fault::Arguments { .. }
        | Fault::Grammar(_)
        | Fault::Truncated
        | Fault::NotEnabled(_)
        | Fault::NotEnded
        | Fault::NoOutcome(_) => match fault.line(alloc) {
            Ok(line) => tell(line.as_str(), fault.status(), err),
            Err(_) => tell(MEMORY_LINE, status::MEMORY, err),
        },
    }
}

/// Writes a line, and gives the status, or 5 where it can't be written: then a beginning of it was.
pub fn tell<E: Sink>(line: &str, status: u8, err: &mut E) -> u8
    ensures { Tells line.now status (E.contents err.old) (E.contents err.new)
        (E.fault_count err.old) (E.fault_count err.new) result }
{
    match write_all(err, line.as_bytes()) {
        Ok(()) => status,
        Err(_) => status::DEVICE,
    }
}

/// Says why words are no job: help on `out`, with status 0, and all else on `err`, with status 2, or 4 where memory ran out. The
/// status is 5 where the text can't be written.
pub fn tell_words<O: Sink, E: Sink>(fault: &WordsFault, out: &mut O, err: &mut E) -> u8
    ensures { TellsWords fault.now
        (λ text status. (err.new ≡ err.old)
        × Tells text status (O.contents out.old) (O.contents out.new)
        (O.fault_count out.old) (O.fault_count out.new) result)
        (λ text status. (out.new ≡ out.old)
        × Tells text status (E.contents err.old) (E.contents err.new)
        (E.fault_count err.old) (E.fault_count err.new) result) }
{
    match fault {
        WordsFault::Help(text) => tell(text.as_str(), status::DONE, out),
        WordsFault::NotUnderstood(text) => tell(text.as_str(), status::WORDS, err),
        WordsFault::Misfit(misfit) => tell(misfit.line(), status::WORDS, err),
        WordsFault::OutOfMemory => tell(MEMORY_LINE, status::MEMORY, err),
    }
}

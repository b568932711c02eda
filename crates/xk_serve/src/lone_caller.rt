//! The program between its devices, where nobody but the caller takes steps.

ghost use Rattle.std.specs.Prelude.{◌≡◌, ◌≢◌, ◌⊎◌, false, [], IfOk};
ghost use Rattle.std.specs.Io.KnownBytes.{Appends};
ghost use Rattle.xk_types.specs.Device.{Rose};
ghost use Rattle.xk_types.specs.World.{AreArguments};
ghost use Rattle.xk_jobs.specs.Status.{status_device, status_memory, status_program};
ghost use Rattle.xk_program.specs.Bytes.{IsReadToLimit};
ghost use Rattle.xk_program.specs.Lines.{device_line};
ghost use Rattle.xk_messages.specs.Lines.{memory_line};
ghost use Rattle.xk_serve.specs.Answer.{reads_more, task_of};
ghost use Rattle.xk_serve.specs.Crews.{IsDriven};
ghost use Rattle.xk_serve.specs.Devices.{Answered, AnsweredBySome, ErrBegins, IfKnown, IsListReadToLimit, OutBegins};

use crate::devices::{outcome, print, refuse, report};
use crate::lone_runs::run_alone;
use std::alloc::Global;
use xk_bounds::Verified;
use xk_jobs::{Drive, Job};
use xk_program::Fault;
use xk_types::{Sink, Source};

/// What `serve` does, where nobody may start a thread or wait for one: a run by workers is the run in the order `first`,
/// which is some run of the program.
pub fn serve_alone<P: Source, L: Source, O: Sink, E: Sink, K: Sink>(
    alloc: Global,
    job: &Job<'_>,
    program: &mut P,
    log_in: &mut L,
    out: &mut O,
    err: &mut E,
    log_out: &mut K,
) -> u8
    ensures answered { IfKnown (task_of job.now) (P.remaining program.old) (L.remaining log_in.old)
        (λ bytes logged. result ≢ status_memory → result ≢ status_device
        → Answered (task_of job.now) bytes logged result
        (O.contents out.old) (O.contents out.new) (E.contents err.old) (E.contents err.new)
        (K.contents log_out.old) (K.contents log_out.new)) }
    // Whatever is known of FILE, the answer is that of some bytes.
    ensures by_some { result ≢ status_memory → result ≢ status_device
        → AnsweredBySome (task_of job.now) (P.remaining program.old) (L.remaining log_in.old) result
        (O.contents out.old) (O.contents out.new) (E.contents err.old) (E.contents err.new)
        (K.contents log_out.old) (K.contents log_out.new) }

    // Memory and devices.
    ensures out_begins { IfKnown (task_of job.now) (P.remaining program.old) (L.remaining
        log_in.old)
        (λ bytes logged. OutBegins (task_of job.now) bytes logged
        (O.contents out.old) (O.contents out.new)
        (K.contents log_out.old) (K.contents log_out.new)) }
    ensures err_begins { IfKnown (task_of job.now) (P.remaining program.old) (L.remaining
        log_in.old)
        (λ bytes logged. ErrBegins (task_of job.now) bytes logged
        (E.contents err.old) (E.contents err.new)) }
    ensures memory_out { result ≡ status_memory
        → Appends (O.contents out.old) (O.contents out.new) [] }
    ensures memory_log { result ≡ status_memory
        → Appends (K.contents log_out.old) (K.contents log_out.new) [] }
    ensures memory_err { result ≡ status_memory
        → Appends (E.contents err.old) (E.contents err.new) memory_line }
    ensures faults { result ≢ status_device
        → (P.fault_count program.new ≡ P.fault_count program.old)
        × (L.fault_count log_in.new ≡ L.fault_count log_in.old)
        × (O.fault_count out.new ≡ O.fault_count out.old)
        × (E.fault_count err.new ≡ E.fault_count err.old)
        × (K.fault_count log_out.new ≡ K.fault_count log_out.old) }
    ensures device { result ≡ status_device
        → Rose (P.fault_count program.old) (P.fault_count program.new)
        ⊎ (Rose (L.fault_count log_in.old) (L.fault_count log_in.new)
        ⊎ (Rose (O.fault_count out.old) (O.fault_count out.new)
        ⊎ (Rose (E.fault_count err.old) (E.fault_count err.new)
        ⊎ Rose (K.fault_count log_out.old) (K.fault_count log_out.new)))) }
    ensures device_err { result ≡ status_device
        → Appends (E.contents err.old) (E.contents err.new) device_line
        ⊎ Rose (E.fault_count err.old) (E.fault_count err.new) }

    // What isn't wanted isn't read: no log or list where the job is on none or the program is refused, and no text or
    // list beyond its limit.
    ensures log_in { reads_more (task_of job.now).doing ≡ false → log_in.new ≡ log_in.old }
    ensures log_unread { result ≡ status_program → log_in.new ≡ log_in.old }
    ensures no_further { IsReadToLimit (task_of job.now).form
        (P.remaining program.old) (P.remaining program.new) }
    ensures list_no_further { IsListReadToLimit (task_of job.now).doing
        (L.remaining log_in.old) (L.remaining log_in.new) }
{
    let crew = move |drive: Drive, keeps_log: bool, verified: &Verified, arguments: &[i64]|
        requires { AreArguments verified.now arguments.now }
        ensures { IfOk result (IsDriven drive keeps_log verified.now arguments.now) }
    { run_alone(alloc, drive, keeps_log, verified, arguments) };
    match outcome(crew, alloc, job, program, log_in) {
        Ok(done) => match done.ending(alloc) {
            Ok(ending) => print(alloc, &done, ending.as_str(), out, err, log_out),
            Err(_) => report(alloc, &Fault::OutOfMemory, err),
        },
        Err(refusal) => refuse(alloc, &refusal, out, err),
    }
}

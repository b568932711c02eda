//! The library for other languages: a job on bytes in memory, and the verdict on a source text as numbers. The header is
//! library/x10clock.h.
#![tactic(auto)]

ghost use Rattle.std.specs.Prelude.{◌≡◌, ◌≢◌, ◌⊎◌};
ghost use Rattle.xk_jobs.specs.Status.{status_device, status_done, status_memory, status_program};
ghost use Rattle.xk_serve.specs.Answer.{Reply};
ghost use Rattle.x10clock_c.specs.Call.{AnswersCall, AreKept, AreShown};
ghost use Rattle.x10clock_c.specs.Check.{AcceptsAs, RefusesAs, nothing_told};
ghost use Rattle.x10clock_c.specs.Diagnosis.{AcceptsSo, RefusesSo, nothing_diagnosed};

mod answer;
mod diagnosis;
mod page;
mod request;
mod room;
mod verdict;
mod words;

use diagnosis::{Diagnosed, Diagnosis, NOTHING_DIAGNOSED, diagnosis_of};
use request::answer_to;
use room::Lengths;
use std::alloc::Global;
use verdict::{Checked, NOTHING_TOLD, Verdict, verdict_on};
use xk_jobs::status;

/// Does what the words ask for, as the program of that name does, on a program and an input (a log, a list or answers) in
/// memory, and gives its status. Each word is ended by a zero, and FILE is only a name. Of standard output, standard error
/// and the log as much is written as there is room for, and told how long they are. The status is 4 where memory ran out:
/// then nothing is written, and all lengths are 0. It is never 5. A run by workers is the run in the order `first`.
#[unsafe(no_mangle)]
pub extern "C" fn x10clock_call(
    alloc: Global,
    words: &[u8],
    program: &[u8],
    input: &[u8],
    out: &mut [u8],
    err: &mut [u8],
    log: &mut [u8],
    lengths: &mut Lengths,
) -> u8
    ensures answered { result ≢ status_memory → (reply : Reply)
        × AnswersCall words.now program.now input.now reply
        × (result ≡ reply.status)
        × AreShown reply out.old out.new err.old err.new log.old log.new lengths.new }
    ensures memory { result ≡ status_memory
        → AreKept out.old out.new err.old err.new log.old log.new lengths.new }
    ensures never_device { result ≢ status_device }
{
    match answer_to(alloc, words, program, input) {
        Ok(answer) => {
            *lengths = answer.show(out, err, log);
            answer.status()
        }
        Err(_) => {
            *lengths = Lengths {
                out: 0,
                err: 0,
                log: 0,
            };
            status::MEMORY
        }
    }
}

/// Whether a source text is accepted: 0, and the bounds on its runs; 1, and which rule it breaks where; or 4 where memory
/// ran out, and then nothing is told.
#[unsafe(no_mangle)]
pub extern "C" fn x10clock_check(alloc: Global, program: &[u8], told: &mut Checked) -> u8
    ensures known { (result ≡ status_done)
        ⊎ ((result ≡ status_program) ⊎ (result ≡ status_memory)) }
    ensures accepted { result ≡ status_done → AcceptsAs program.now told.new }
    ensures refused { result ≡ status_program → RefusesAs program.now told.new }
    ensures untold { result ≡ status_memory → told.new ≡ nothing_told }
{
    match verdict_on(alloc, program) {
        Ok(Verdict::Accepted(bounds)) => {
            *told = bounds;
            status::DONE
        }
        Ok(Verdict::Refused(broken)) => {
            *told = broken;
            status::PROGRAM
        }
        Err(_) => {
            *told = NOTHING_TOLD;
            status::MEMORY
        }
    }
}

/// The same, and in which line and column the rule is broken, as `explain` shows it: 0 where there is no such place.
#[unsafe(no_mangle)]
pub extern "C" fn x10clock_diagnose(alloc: Global, program: &[u8], told: &mut Diagnosis) -> u8
    ensures known { (result ≡ status_done)
        ⊎ ((result ≡ status_program) ⊎ (result ≡ status_memory)) }
    ensures accepted { result ≡ status_done → AcceptsSo program.now told.new }
    ensures refused { result ≡ status_program → RefusesSo program.now told.new }
    ensures untold { result ≡ status_memory → told.new ≡ nothing_diagnosed }
{
    match diagnosis_of(alloc, program) {
        Ok(Diagnosed::Accepted(bounds)) => {
            *told = bounds;
            status::DONE
        }
        Ok(Diagnosed::Refused(broken)) => {
            *told = broken;
            status::PROGRAM
        }
        Err(_) => {
            *told = NOTHING_DIAGNOSED;
            status::MEMORY
        }
    }
}

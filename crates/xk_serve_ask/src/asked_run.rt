//! `run --order ask`: a run whose order is asked for.

ghost use Rattle.std.specs.Prelude.{◌≡◌, ◌≢◌, ◌⊎◌, ◌++◌, ℕ, List, Option, [], true, IfErr, IfOk, IfSome, OnErr, OnOk, string_bytes, if◌then◌else◌};
ghost use Rattle.std.specs.Io.KnownBytes.{Appends};
ghost use Rattle.xk_types.specs.Device.{Rose};
ghost use Rattle.xk_types.specs.World.{AreArguments};
ghost use Rattle.xk_io.specs.Writing.{AppendsBeginning};
ghost use Rattle.xk_io.specs.Lines.{number_lines};
ghost use Rattle.xk_log.specs.LogText.{log_text};
ghost use Rattle.xk_jobs.specs.Status.{status_device, status_memory, status_program};
ghost use Rattle.xk_messages.specs.Lines.{memory_line};
ghost use Rattle.xk_ask.specs.Asking.{Leaves};
ghost use Rattle.xk_ask.specs.Play.{IsPlayed, log_by, unread};
ghost use Rattle.xk_serve.specs.Printed.{whole_status};
ghost use Rattle.xk_program.specs.Lines.{device_line, status_of};
ghost use Rattle.xk_ask.specs.Answers.{AreAnswers};
ghost use Rattle.xk_serve_ask.specs.AskedRun.{AreBegun, BeginsAsking, BeginsToAsk, EndsAsking, FailsWhile, fault_of, IsAskedBy, IsAskedFirst, IsHandReply, IsHandReplyOfSome, IsPlayedByHand, IsWrittenBy, OutBeginsRun, StandsAgainstAsked, last_line};
ghost use Rattle.xk_jobs.specs.declared.job.Form.{Form as FormValue};
ghost use Rattle.xk_program.specs.Origins.{IsFrom};
ghost use Rattle.xk_program.specs.Bytes.{IsReadToLimit, kept};

use std::alloc::{AllocError, Global};
use xk_ask::{AskFault, Played, module_ask, source_ask};
use xk_bounds::Verified;
use xk_io::{Device, write_all, write_numbers};
use xk_jobs::{Form, status};
use xk_log::write_entries;
use xk_messages::ended_line;
use xk_program::{Fault, Provenance, program_by, read_program, runnable};
use xk_serve::report;
use xk_types::{Sink, Source};

/// A run whose order was asked for, and what is printed behind its numbers.
#[derive(Drop)]
struct AskedRun {
    played: Played,
    ending: String,
}

/// Want of memory is one fault, whoever met it.
fn fault_of(fault: AskFault) -> Fault
    ensures { result ≡ fault_of fault }
{
    match fault {
        AskFault::Device => Fault::Device,
        AskFault::OutOfMemory => Fault::OutOfMemory,
    }
}

/// The last line of standard output.
fn last_line(alloc: Global, whole: bool, steps: u64) -> Result<String, AllocError>
    ensures { IfOk result (λ text. string_bytes text ≡ last_line whole steps) }
{
    if whole {
        return ended_line(alloc, steps);
    }
    format!(in alloc; "stopped steps {steps}\n")
}

/// Asks for the order of a run of an accepted module.
fn played_by<L: Source, E: Sink>(
    alloc: Global,
    from: &Provenance<'_>,
    verified: &Verified,
    given: &[i64],
    input: &mut L,
    err: &mut E,
) -> Result<Played, Fault>
    requires { AreArguments verified.now given.now }
    ensures played { IfOk result (λ r. IsPlayed verified.now given.now
        r.log.items r.printed.items r.steps r.whole) }
    ensures answers { (form : FormValue) (text : List ℕ) → IsFrom true form text from.now
        → IfOk result (λ r. (xs : List (Option ℕ)) × AreAnswers (L.remaining input.old) xs
        × (r.log.items ≡ log_by verified.now given.now xs) × IsWrittenBy
        (IsAskedBy form text verified.now given.now xs) (E.contents err.old) (E.contents err.new)) }
    ensures begins { (form : FormValue) (bytes : List ℕ) → IsFrom true form bytes from.now
        → BeginsToAsk form bytes verified.now given.now
        (L.remaining input.old) (E.contents err.old) (E.contents err.new) }
    ensures rest { IfOk result (λ r. Leaves (unread verified.now given.now r.whole)
        (L.remaining input.old) (L.remaining input.new)) }
    ensures no_fault { OnOk result ((L.fault_count input.new ≡ L.fault_count input.old)
        × (E.fault_count err.new ≡ E.fault_count err.old)) }
    ensures failed { IfErr result (FailsWhile (L.fault_count input.old) (L.fault_count input.new)
        (E.fault_count err.old) (E.fault_count err.new)) }
{
    match &from.origins {
        Some(origins) => {
            let units = origins.units();
            let shared = &from.shared;
            match source_ask(alloc, from.text, units, shared, verified, given, input, err) {
                Ok(played) => Ok(played),
                Err(fault) => Err(fault_of(fault)),
            }
        }
        None => match module_ask(alloc, verified, given, input, err) {
            Ok(played) => Ok(played),
            Err(fault) => Err(fault_of(fault)),
        },
    }
}

/// The run of the program in these bytes whose order is asked for, or what stands against it.
fn asked_of<L: Source, E: Sink>(
    alloc: Global,
    form: Form,
    bytes: &[u8],
    arguments: &[i64],
    input: &mut L,
    err: &mut E,
) -> Result<AskedRun, Fault>
    ensures done { IfOk result (λ r. IsPlayedByHand form bytes.now arguments.now
        (L.remaining input.old) (L.remaining input.new)
        (E.contents err.old) (E.contents err.new) r.played.log.items
        r.played.printed.items r.played.steps r.played.whole) }
    ensures ending { IfOk result
        (λ r. string_bytes r.ending ≡ last_line r.played.whole r.played.steps) }
    ensures no_fault { OnOk result ((L.fault_count input.new ≡ L.fault_count input.old)
        × (E.fault_count err.new ≡ E.fault_count err.old)) }
    ensures against { IfErr result (StandsAgainstAsked form bytes.now arguments.now
        (L.fault_count input.old) (L.fault_count input.new)
        (E.fault_count err.old) (E.fault_count err.new)
        (E.contents err.old) (E.contents err.new)) }
    ensures begins { IsWrittenBy
        (IsAskedFirst form bytes.now arguments.now (L.remaining input.old))
        (E.contents err.old) (E.contents err.new) }
    ensures unread { IfErr result
        (λ f. status_of f ≡ status_program → input.new ≡ input.old) }
{
    let program = program_by(alloc, form, true, bytes)?;
    let verified = runnable(alloc, program.module, arguments)?;
    let played = played_by(alloc, &program.from, &verified, arguments, input, err)?;
    let ending = last_line(alloc, played.whole, played.steps)?;
    Ok(AskedRun { played, ending })
}

/// Writes the numbers and the last line.
fn write_numbers_of<O: Sink>(run: &AskedRun, out: &mut O) -> Result<(), Device>
    ensures all { OnOk result (Appends (O.contents out.old) (O.contents out.new)
        (number_lines run.now.played.printed.items ++ string_bytes run.now.ending)) }
    ensures beginning { AppendsBeginning (O.contents out.old) (O.contents out.new)
        (number_lines run.now.played.printed.items ++ string_bytes run.now.ending) }
    ensures no_fault { OnOk result (O.fault_count out.new ≡ O.fault_count out.old) }
    ensures failed { OnErr result (Rose (O.fault_count out.old) (O.fault_count out.new)) }
{
    write_numbers(&run.played.printed, out)?;
    write_all(out, run.ending.as_bytes())
}

/// Writes the log, where it is to be kept, and else nothing.
fn write_log<K: Sink>(run: &AskedRun, keeps_log: bool, log_out: &mut K) -> Result<(), Device>
    ensures all { OnOk result (Appends (K.contents log_out.old) (K.contents log_out.new)
        (if keeps_log then log_text run.now.played.log.items else [])) }
    ensures beginning { AppendsBeginning (K.contents log_out.old) (K.contents log_out.new)
        (if keeps_log then log_text run.now.played.log.items else []) }
    ensures no_fault { OnOk result (K.fault_count log_out.new ≡ K.fault_count log_out.old) }
    ensures failed { OnErr result
        (Rose (K.fault_count log_out.old) (K.fault_count log_out.new)) }
{
    if keeps_log {
        return write_entries(&run.played.log, log_out);
    }
    Ok(())
}

/// Writes the numbers and the last line to `out`, and then the log to `log_out`, where it is to be kept.
fn write_run<O: Sink, K: Sink>(
    run: &AskedRun,
    keeps_log: bool,
    out: &mut O,
    log_out: &mut K,
) -> Result<(), Device>
    ensures all { OnOk result (Appends (O.contents out.old) (O.contents out.new)
        (number_lines run.now.played.printed.items ++ string_bytes run.now.ending)) }
    ensures log { OnOk result (Appends (K.contents log_out.old) (K.contents log_out.new)
        (if keeps_log then log_text run.now.played.log.items else [])) }
    ensures begun { AreBegun
        (number_lines run.now.played.printed.items ++ string_bytes run.now.ending)
        (if keeps_log then log_text run.now.played.log.items else [])
        (O.contents out.old) (O.contents out.new)
        (K.contents log_out.old) (K.contents log_out.new) }
    ensures no_fault { OnOk result ((O.fault_count out.new ≡ O.fault_count out.old)
        × (K.fault_count log_out.new ≡ K.fault_count log_out.old)) }
    ensures failed { OnErr result (Rose (O.fault_count out.old) (O.fault_count out.new)
        ⊎ Rose (K.fault_count log_out.old) (K.fault_count log_out.new)) }
{
    write_numbers_of(run, out)?;
    write_log(run, keeps_log, log_out)
}

/// The status of a run: whether all have ended.
fn status_of(whole: bool) -> u8
    ensures { result ≡ whole_status whole }
{
    if whole {
        return status::DONE;
    }
    status::PARTIAL
}

/// Writes what comes of a run. Where that fails, says so.
fn print<O: Sink, E: Sink, K: Sink>(
    alloc: Global,
    run: &AskedRun,
    keeps_log: bool,
    out: &mut O,
    err: &mut E,
    log_out: &mut K,
) -> u8
    ensures printed { ((result ≡ whole_status run.now.played.whole)
        × Appends (O.contents out.old) (O.contents out.new)
        (number_lines run.now.played.printed.items ++ string_bytes run.now.ending)
        × Appends (K.contents log_out.old) (K.contents log_out.new)
        (if keeps_log then log_text run.now.played.log.items else [])
        × (err.new ≡ err.old)
        × (O.fault_count out.new ≡ O.fault_count out.old)
        × (K.fault_count log_out.new ≡ K.fault_count log_out.old))
        ⊎ ((result ≡ status_device) × (Rose (O.fault_count out.old) (O.fault_count out.new)
        ⊎ Rose (K.fault_count log_out.old) (K.fault_count log_out.new))) }
    ensures begun { AreBegun
        (number_lines run.now.played.printed.items ++ string_bytes run.now.ending)
        (if keeps_log then log_text run.now.played.log.items else [])
        (O.contents out.old) (O.contents out.new)
        (K.contents log_out.old) (K.contents log_out.new) }
    ensures told { result ≡ status_device
        → Appends (E.contents err.old) (E.contents err.new) device_line
        ⊎ Rose (E.fault_count err.old) (E.fault_count err.new) }
    ensures err_beginning { AppendsBeginning
        (E.contents err.old) (E.contents err.new) device_line }
{
    match write_run(run, keeps_log, out, log_out) {
        Ok(()) => status_of(run.played.whole),
        Err(_) => report(alloc, &Fault::Device, err),
    }
}

/// Reads the program, and runs it, if it is accepted and main takes as many numbers as it is given: it is told on `err` how things are, what was printed,
/// and who can take a step, and where, and a line of the input names one of them, until all have ended or the input ends, which is told. Then the numbers that were printed and a last line are written to `out`,
/// and the log of what was played to `log_out`, where that is to be kept. The answer is the exit status: 0 where all have ended, 6 where the input ended
/// before, 1 where the program is refused or main takes another number of arguments, 4 where memory ran out, 5 where a device failed. At 4 and 5 a beginning
/// of what is asked stands on `err`, and then the line that tells it; `out` has a beginning of what is written there, and `log_out` has nothing before `out`
/// has all. Where neither memory nor a device fails, no byte of the input behind the last answer that is wanted is read; none is where the
/// program is refused.
pub fn serve_asked<P: Source, L: Source, O: Sink, E: Sink, K: Sink>(
    alloc: Global,
    form: Form,
    arguments: &[i64],
    keeps_log: bool,
    program: &mut P,
    input: &mut L,
    out: &mut O,
    err: &mut E,
    log_out: &mut K,
) -> u8
    ensures by_hand { IfSome (P.remaining program.old) (λ bytes.
        result ≢ status_memory → result ≢ status_device
        → IsHandReply form (kept form bytes) arguments.now keeps_log result
        (L.remaining input.old) (L.remaining input.new)
        (O.contents out.old) (O.contents out.new) (E.contents err.old) (E.contents err.new)
        (K.contents log_out.old) (K.contents log_out.new)) }
    // Whatever is known of FILE, the answer is that of some bytes.
    ensures by_some { result ≢ status_memory → result ≢ status_device
        → IsHandReplyOfSome form (P.remaining program.old) arguments.now keeps_log result
        (L.remaining input.old) (L.remaining input.new)
        (O.contents out.old) (O.contents out.new) (E.contents err.old) (E.contents err.new)
        (K.contents log_out.old) (K.contents log_out.new) }
    ensures unread { result ≡ status_program → input.new ≡ input.old }

    // Memory and devices.
    ensures out_begins { IfSome (P.remaining program.old) (λ bytes.
        OutBeginsRun form (kept form bytes) arguments.now keeps_log (L.remaining input.old)
        (O.contents out.old) (O.contents out.new)
        (K.contents log_out.old) (K.contents log_out.new)) }
    ensures err_begins { IfSome (P.remaining program.old) (λ bytes.
        BeginsAsking form (kept form bytes) arguments.now (L.remaining input.old)
        (E.contents err.old) (E.contents err.new)) }
    ensures memory_out { result ≡ status_memory
        → Appends (O.contents out.old) (O.contents out.new) [] }
    ensures memory_log { result ≡ status_memory
        → Appends (K.contents log_out.old) (K.contents log_out.new) [] }
    ensures memory_err { result ≡ status_memory
        → EndsAsking form (P.remaining program.old) arguments.now (L.remaining input.old)
        memory_line (E.contents err.old) (E.contents err.new) }
    ensures faults { result ≢ status_device
        → (P.fault_count program.new ≡ P.fault_count program.old)
        × (L.fault_count input.new ≡ L.fault_count input.old)
        × (O.fault_count out.new ≡ O.fault_count out.old)
        × (E.fault_count err.new ≡ E.fault_count err.old)
        × (K.fault_count log_out.new ≡ K.fault_count log_out.old) }
    ensures device { result ≡ status_device
        → Rose (P.fault_count program.old) (P.fault_count program.new)
        ⊎ (Rose (L.fault_count input.old) (L.fault_count input.new)
        ⊎ (Rose (O.fault_count out.old) (O.fault_count out.new)
        ⊎ (Rose (E.fault_count err.old) (E.fault_count err.new)
        ⊎ Rose (K.fault_count log_out.old) (K.fault_count log_out.new)))) }
    ensures device_err { result ≡ status_device
        → EndsAsking form (P.remaining program.old) arguments.now (L.remaining input.old)
        device_line (E.contents err.old) (E.contents err.new)
        ⊎ Rose (E.fault_count err.old) (E.fault_count err.new) }
    ensures no_further { IsReadToLimit form (P.remaining program.old) (P.remaining program.new) }
{
    let bytes = match read_program(alloc, form, program) {
        Ok(bytes) => bytes,
        Err(fault) => return report(alloc, &fault, err),
    };
    match asked_of(alloc, form, &bytes, arguments, input, err) {
        Ok(found) => print(alloc, &found, keeps_log, out, err, log_out),
        Err(fault) => report(alloc, &fault, err),
    }
}

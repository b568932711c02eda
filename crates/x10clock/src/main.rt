//! The program: words to a job, files and streams to devices, and the status that serving it answers.
#![tactic(auto)]

ghost use Rattle.std.specs.Prelude.{◌≡◌, ◌≢◌, ◌⊎◌, ℕ, List, [], None, Some, map, option_map, codes, string_bytes, IfOk};
ghost use Rattle.std.specs.Io.KnownBytes.{Appends};
ghost use Rattle.std.specs.IoError.{error_kind};
ghost use Rattle.xk_types.specs.Device.{Rose};
ghost use Rattle.xk_jobs.specs.Tasks.{asked_value};
ghost use Rattle.xk_cli.specs.CommandLine.{texts};
ghost use Rattle.xk_jobs.specs.Status.{status_device, status_done, status_memory, status_program, status_words};
ghost use Rattle.xk_program.specs.Lines.{device_line};
ghost use Rattle.xk_messages.specs.Lines.{memory_line};
ghost use Rattle.xk_serve.specs.Devices.{Reports, Tells, TellsWords};
ghost use Rattle.xk_program.specs.declared.fault.Fault.TheVariants as fault;
ghost use Rattle.x10clock.specs.CommandLine.{AreTold, AskForHand, IsWantOfMemory, no_text_line};
ghost use Rattle.x10clock.specs.Requests.{EndsIn, IsByHand, IsDeviceTold, IsLastLine, IsToldUnopened, TellsUnopened, IsPageWritten, IsGiven, ErrIsBegun, IsAnswered, IsAnsweredBySome, IsServed, IsToldOver, OutIsBegun, ReadsNoMore, input_line, log_path, is_left_open, names_files, over_line, over_read_line, page_asked, path_of, reason_of, rule_page, told_path, unopened_lines, what_over};

mod files;

use files::{LogFile, Over, Which, hold_streams, is_same_file, open_file};
use std::alloc::{AllocError, AllocGlobal, Global};
use std::fs::Files;
use std::io::{ErrorKind, Input, Read};
use std::process::ExitCode;
use std::sync::Wait;
use std::thread::Threads;
use std::{env, fs, io};
use xk_cli::{WordsFault, read_job};
use xk_io::write_all;
use xk_jobs::{Command, Form, Request, status};
use xk_lines::shown;
use xk_messages::MEMORY_LINE;
use xk_program::{DEVICE_LINE, Fault};
use xk_rules::rule_text;
use xk_serve::{report, serve, tell, tell_words};
use xk_serve_ask::serve_asked;
use xk_types::{Counted, Sink, Source};

/// What stands before the name of a file that can't be opened.
const CANNOT_OPEN: &str = "x10clock: can't open ";

/// What a job may want of the runtime: memory, files, standard input, and threads that wait for one another.
trait Runtime: AllocGlobal + Files + Input + Threads + Wait + Sync {}

impl<R: AllocGlobal + Files + Input + Threads + Wait + Sync> Runtime for R {}

/// Does what the words ask for, on files and the standard streams, and ends with its status.
fn main(rt: HostRuntime) -> ExitCode {
    // Kept up to the end: no file that is opened takes the place of a stream that the caller closed.
    let _held = hold_streams(&rt);
    let mut out = Counted::new(rt.stdout());
    let mut err = Counted::new(rt.stderr());
    let status = match words(&rt) {
        Ok(words) => on_words(&rt, &words, &mut out, &mut err),
        Err(e) => no_words(rt.alloc(), &e, &mut err),
    };
    ExitCode::from(status)
}

/// The words of the command line.
fn words(rt: &HostRuntime) -> io::Result<Vec<String>> {
    Ok(env::args(rt)?.collect(rt.alloc())?)
}

/// Says that a word isn't text, or that memory was wanting for the words.
fn no_words<E: Sink>(alloc: Global, e: &io::Error, err: &mut E) -> u8
    ensures memory { IsWantOfMemory e.now → Reports fault.OutOfMemory
        (E.contents err.old) (E.contents err.new)
        (E.fault_count err.old) (E.fault_count err.new) result }
    ensures no_text { ¬ IsWantOfMemory e.now → Tells no_text_line status_words
        (E.contents err.old) (E.contents err.new)
        (E.fault_count err.old) (E.fault_count err.new) result }
{
    if e.kind() == ErrorKind::OutOfMemory {
        return report(alloc, &Fault::OutOfMemory, err);
    }
    tell("x10clock: a word is not in UTF-8\n", status::WORDS, err)
}

/// Does what the words ask for, or says why they ask for nothing.
fn on_words<R: Runtime, O: Sink, E: Sink>(rt: &R, words: &[String], out: &mut O, err: &mut E) -> u8
    ensures told { AreTold (map string_bytes words.now)
        (λ r. IsGiven r result (O.contents out.old) (O.contents out.new)
        (E.contents err.old) (E.contents err.new) (E.fault_count err.old) (E.fault_count err.new))
        (λ f. TellsWords f
        (λ text status. (err.new ≡ err.old)
        × Tells text status (O.contents out.old) (O.contents out.new)
        (O.fault_count out.old) (O.fault_count out.new) result)
        (λ text status. (out.new ≡ out.old)
        × Tells text status (E.contents err.old) (E.contents err.new)
        (E.fault_count err.old) (E.fault_count err.new) result)) }
    ensures memory_out { result ≡ status_memory
        → Appends (O.contents out.old) (O.contents out.new) [] }
    // Where somebody is asked, questions stand before it.
    ensures memory_err { result ≡ status_memory
        → Appends (E.contents err.old) (E.contents err.new) memory_line
        ⊎ (AskForHand (map string_bytes words.now)
        × IsLastLine memory_line (E.contents err.old) (E.contents err.new)) }
    ensures faults { result ≢ status_device
        → (O.fault_count out.new ≡ O.fault_count out.old)
        × (E.fault_count err.new ≡ E.fault_count err.old) }
{
    let Ok(texts) = texts_of(rt.alloc(), words) else {
        return tell_words(&WordsFault::OutOfMemory, out, err);
    };
    match read_job(rt.alloc(), &texts) {
        Ok(request) => on_asked(rt, &request, out, err),
        Err(fault) => tell_words(&fault, out, err),
    }
}

/// The words as texts.
fn texts_of<'a>(alloc: Global, words: &'a [String]) -> Result<Vec<&'a str>, AllocError>
    ensures same { IfOk result (λ found. texts found.items ≡ map string_bytes words.now) }
{
    let mut found = Vec::new(alloc);
    for word in words {
        found.push(word.as_str())?;
    }
    Ok(found)
}

/// Tells of the rule whose code stands for FILE, or does what is asked for.
fn on_asked<R: Runtime, O: Sink, E: Sink>(
    rt: &R,
    request: &Request<'_>,
    out: &mut O,
    err: &mut E,
) -> u8
    ensures given { IsGiven request.now result (O.contents out.old) (O.contents out.new)
        (E.contents err.old) (E.contents err.new) (E.fault_count err.old) (E.fault_count err.new) }
    ensures page { (page : List ℕ) → rule_page request.now ≡ Some page
        → result ≢ status_device → IsPageWritten page result
        (O.contents out.old) (O.contents out.new) (E.contents err.old) (E.contents err.new) }
    ensures served { rule_page request.now ≡ None
        → IsServed request.now result (O.contents out.old) (O.contents out.new)
        (E.contents err.old) (E.contents err.new) (E.fault_count err.old) (E.fault_count err.new) }
    ensures memory_out { result ≡ status_memory
        → Appends (O.contents out.old) (O.contents out.new) [] }
    ensures memory_err { result ≡ status_memory → EndsIn request.now None None memory_line
        (E.contents err.old) (E.contents err.new) }
    ensures faults { result ≢ status_device
        → (O.fault_count out.new ≡ O.fault_count out.old)
        × (E.fault_count err.new ≡ E.fault_count err.old) }
    ensures device_err { result ≡ status_device → IsDeviceTold request.now None None
        (E.contents err.old) (E.contents err.new)
        (E.fault_count err.old) (E.fault_count err.new) }
{
    match rule_page(request) {
        Some(page) => tell_page(page, out, err),
        None => on_request(rt, request, out, err),
    }
}

/// Opens FILE, and does what is asked for.
#[tactic(auto, using(crate::proofs::AnswerLemmas::served, crate::proofs::AnswerLemmas::none_served, crate::proofs::AnswerLemmas::unopened_told))]
fn on_request<R: Runtime, O: Sink, E: Sink>(
    rt: &R,
    request: &Request<'_>,
    out: &mut O,
    err: &mut E,
) -> u8
    ensures served { IsServed request.now result (O.contents out.old) (O.contents out.new)
        (E.contents err.old) (E.contents err.new) (E.fault_count err.old) (E.fault_count err.new) }
    ensures no_input { IsByHand request.now → (asked_value request.now).file ≡ codes "-"
        → Tells input_line status_words (E.contents err.old) (E.contents err.new)
        (E.fault_count err.old) (E.fault_count err.new) result }
    ensures memory_out { result ≡ status_memory
        → Appends (O.contents out.old) (O.contents out.new) [] }
    ensures memory_err { result ≡ status_memory → EndsIn request.now None None memory_line
        (E.contents err.old) (E.contents err.new) }
    ensures faults { result ≢ status_device
        → (O.fault_count out.new ≡ O.fault_count out.old)
        × (E.fault_count err.new ≡ E.fault_count err.old) }
    ensures device_err { result ≡ status_device → IsDeviceTold request.now None None
        (E.contents err.old) (E.contents err.new)
        (E.fault_count err.old) (E.fault_count err.new) }
{
    let file = file_of(request);
    if file == "-" {
        return on_input(rt, request, out, err);
    }
    match open_file(rt, file, names_files(request)) {
        Ok(program) => on_program(rt, request, program, out, err),
        Err(e) => not_opened(rt, request, Which::Program, &e, err),
    }
}

/// The page of the rule whose code stands for FILE, where `explain` is asked for that.
fn rule_page(request: &Request<'_>) -> Option<&'static str>
    ensures { option_map (λ page. page.now) result ≡ rule_page request.now }
{
    match request {
        Request::Job(job) => page_asked(job.command.explanation(), job.form, job.file),
        Request::ByHand(_) => None,
    }
}

/// The same of what an explanation is to be, if one is asked for, and of FILE.
fn page_asked(explanation: Option<bool>, form: Form, file: &str) -> Option<&'static str>
    ensures { option_map (λ page. page.now) result ≡ page_asked explanation form file.now }
{
    let json = explanation?;
    if json {
        return None;
    }
    match form {
        Form::Source => rule_text(file),
        Form::Module => None,
    }
}

/// Writes the page of a rule. Where that fails, says so.
fn tell_page<O: Sink, E: Sink>(page: &str, out: &mut O, err: &mut E) -> u8
    ensures told { result ≢ status_device → IsPageWritten page.now result
        (O.contents out.old) (O.contents out.new) (E.contents err.old) (E.contents err.new) }
    ensures known { (result ≡ status_done) ⊎ (result ≡ status_device) }
    ensures faults { result ≢ status_device
        → (O.fault_count out.new ≡ O.fault_count out.old)
        × (E.fault_count err.new ≡ E.fault_count err.old) }
    ensures device_err { result ≡ status_device
        → Appends (E.contents err.old) (E.contents err.new) device_line
        ⊎ Rose (E.fault_count err.old) (E.fault_count err.new) }
{
    match write_all(out, page.as_bytes()) {
        Ok(()) => status::DONE,
        Err(_) => tell(DEVICE_LINE, status::DEVICE, err),
    }
}

/// FILE's path.
fn file_of<'a>(request: &Request<'a>) -> &'a str
    ensures { result.now ≡ (asked_value request.now).file }
{
    match request {
        Request::Job(job) => job.file,
        Request::ByHand(run) => run.file,
    }
}

/// Does what is asked for where FILE is standard input, which is to have the answers of a run by hand.
#[tactic(auto, using(crate::proofs::AnswerLemmas::served, crate::proofs::AnswerLemmas::input_served))]
fn on_input<R: Runtime, O: Sink, E: Sink>(
    rt: &R,
    request: &Request<'_>,
    out: &mut O,
    err: &mut E,
) -> u8
    ensures served { (asked_value request.now).file ≡ codes "-"
        → IsServed request.now result (O.contents out.old) (O.contents out.new)
        (E.contents err.old) (E.contents err.new) (E.fault_count err.old) (E.fault_count err.new) }
    ensures no_input { IsByHand request.now → Tells input_line status_words
        (E.contents err.old) (E.contents err.new)
        (E.fault_count err.old) (E.fault_count err.new) result }
    ensures memory_out { result ≡ status_memory
        → Appends (O.contents out.old) (O.contents out.new) [] }
    ensures memory_err { result ≡ status_memory → EndsIn request.now None None memory_line
        (E.contents err.old) (E.contents err.new) }
    ensures faults { result ≢ status_device
        → (O.fault_count out.new ≡ O.fault_count out.old)
        × (E.fault_count err.new ≡ E.fault_count err.old) }
    ensures device_err { result ≡ status_device → IsDeviceTold request.now None None
        (E.contents err.old) (E.contents err.new)
        (E.fault_count err.old) (E.fault_count err.new) }
{
    match request {
        Request::Job(_) => on_program(rt, request, rt.reader(), out, err),
        Request::ByHand(_) => tell(
            "x10clock: --order ask reads standard input, so FILE can't be -\n",
            status::WORDS,
            err,
        ),
    }
}

/// Opens the log, the list or the answers that are read, where any are, and does what is asked for on an open program.
fn on_program<R: Runtime, P: Read + Drop, O: Sink, E: Sink>(
    rt: &R,
    request: &Request<'_>,
    program: P,
    out: &mut O,
    err: &mut E,
) -> u8
    ensures answered { IsAnswered request.now (P.remaining program) None None result
        (O.contents out.old) (O.contents out.new)
        (E.contents err.old) (E.contents err.new) None None
        ⊎ IsToldOver request.now (E.contents err.old) (E.contents err.new)
        (E.fault_count err.old) (E.fault_count err.new) result }
    ensures by_some { result ≢ status_memory → result ≢ status_device
        → IsAnsweredBySome request.now (P.remaining program) None None result
        (O.contents out.old) (O.contents out.new)
        (E.contents err.old) (E.contents err.new) None None
        ⊎ IsToldOver request.now (E.contents err.old) (E.contents err.new)
        (E.fault_count err.old) (E.fault_count err.new) result }
    ensures memory_out { result ≡ status_memory
        → Appends (O.contents out.old) (O.contents out.new) [] }
    ensures memory_err { result ≡ status_memory
        → EndsIn request.now (P.remaining program) None memory_line
        (E.contents err.old) (E.contents err.new) }
    ensures faults { result ≢ status_device
        → (O.fault_count out.new ≡ O.fault_count out.old)
        × (E.fault_count err.new ≡ E.fault_count err.old) }
    ensures device_err { result ≡ status_device
        → IsDeviceTold request.now (P.remaining program) None
        (E.contents err.old) (E.contents err.new)
        (E.fault_count err.old) (E.fault_count err.new) }
{
    let Request::Job(job) = request else {
        return on_log(
            rt,
            request,
            program,
            &mut Counted::new(rt.reader()),
            out,
            err,
        );
    };
    let Some(path) = job.command.read_path() else {
        return on_log(
            rt,
            request,
            program,
            &mut Counted::new(io::empty()),
            out,
            err,
        );
    };
    match open_file(rt, path, names_files(request)) {
        Ok(file) => on_log(rt, request, program, &mut Counted::new(file), out, err),
        Err(e) => not_opened(rt, request, Which::Beside, &e, err),
    }
}

/// Makes the file of the log that is written, or empties it, where there is to be one, and does what is asked for on an open program.
#[tactic(auto, using(crate::proofs::AnswerLemmas::device_told))]
fn on_log<R: Runtime, P: Read + Drop, L: Source, O: Sink, E: Sink>(
    rt: &R,
    request: &Request<'_>,
    program: P,
    input: &mut L,
    out: &mut O,
    err: &mut E,
) -> u8
    ensures answered { IsAnswered request.now (P.remaining program)
        (L.remaining input.old) (L.remaining input.new) result
        (O.contents out.old) (O.contents out.new)
        (E.contents err.old) (E.contents err.new) None None
        ⊎ IsToldOver request.now (E.contents err.old) (E.contents err.new)
        (E.fault_count err.old) (E.fault_count err.new) result }
    ensures by_some { result ≢ status_memory → result ≢ status_device
        → IsAnsweredBySome request.now (P.remaining program)
        (L.remaining input.old) (L.remaining input.new) result
        (O.contents out.old) (O.contents out.new)
        (E.contents err.old) (E.contents err.new) None None
        ⊎ IsToldOver request.now (E.contents err.old) (E.contents err.new)
        (E.fault_count err.old) (E.fault_count err.new) result }
    ensures memory_out { result ≡ status_memory
        → Appends (O.contents out.old) (O.contents out.new) [] }
    ensures memory_err { result ≡ status_memory
        → EndsIn request.now (P.remaining program) (L.remaining input.old) memory_line
        (E.contents err.old) (E.contents err.new) }
    ensures faults { result ≢ status_device
        → (L.fault_count input.new ≡ L.fault_count input.old)
        × (O.fault_count out.new ≡ O.fault_count out.old)
        × (E.fault_count err.new ≡ E.fault_count err.old) }
    ensures device_err { result ≡ status_device
        → IsDeviceTold request.now (P.remaining program) (L.remaining input.old)
        (E.contents err.old) (E.contents err.new)
        (E.fault_count err.old) (E.fault_count err.new) }
    ensures no_more { ReadsNoMore request.now → input.new ≡ input.old }
    ensures unread { result ≡ status_program → input.new ≡ input.old }
{
    let Some(path) = path_of_log(request) else {
        let mut log_out = Counted::new(io::sink());
        return on_devices(rt, request, program, input, out, err, &mut log_out);
    };
    match log_file(rt, path, written_over(rt, path, request)) {
        Ok(Ok(file)) => {
            let mut log_out = Counted::new(LogFile::new(file));
            on_devices(rt, request, program, input, out, err, &mut log_out)
        }
        Ok(Err(over)) => tell(over_line(request, over), status::WORDS, err),
        Err(e) => not_opened(rt, request, Which::Log, &e, err),
    }
}

/// Where the log goes that is written, if one is.
fn path_of_log<'a>(request: &Request<'a>) -> Option<&'a str>
    ensures { option_map (λ path. path.now) result ≡ log_path request.now }
{
    match request {
        Request::Job(job) => job.command.written_path(),
        Request::ByHand(run) => run.log,
    }
}

/// What the log at this path would be written over, if anything: FILE, what the answers of a run by hand are read from,
/// or what the standard streams write to.
fn written_over<R: Files>(rt: &R, path: &str, request: &Request<'_>) -> io::Result<Option<Over>> {
    if is_same_file(rt, path, file_of(request))? {
        return Ok(Some(Over::Read));
    }
    if matches!(request, Request::ByHand(_)) && is_same_file(rt, path, "-")? {
        return Ok(Some(Over::Read));
    }
    if is_same_file(rt, path, "/dev/fd/1")? {
        return Ok(Some(Over::Output));
    }
    if is_same_file(rt, path, "/dev/fd/2")? {
        return Ok(Some(Over::Error));
    }
    Ok(None)
}

/// The file of the log that is written, made or emptied; or what it would be written over, and then nothing is emptied.
fn log_file<R: Files>(
    rt: &R,
    path: &str,
    over: io::Result<Option<Over>>,
) -> io::Result<Result<R::File, Over>>
    ensures over { IfOk result (λ file. IfOk over (λ what. what_over file ≡ what)) }
{
    match over? {
        Some(over) => Ok(Err(over)),
        None => Ok(Ok(fs::create(rt, path)?)),
    }
}

/// What is told where the log would be written over something.
fn over_line(request: &Request<'_>, over: Over) -> &'static str
    ensures { result.now ≡ over_line request.now over }
{
    match over {
        Over::Read => over_read_line(request),
        Over::Output => "x10clock: --log would write over standard output\n",
        Over::Error => "x10clock: --log would write over standard error\n",
    }
}

/// The same where that is read.
fn over_read_line(request: &Request<'_>) -> &'static str
    ensures { result.now ≡ over_read_line request.now }
{
    match request {
        Request::Job(_) => "x10clock: --log would write over FILE\n",
        Request::ByHand(_) => "x10clock: --log would write over FILE or standard input\n",
    }
}

/// Says that a file can't be opened, which and why where that is told, or that memory was wanting for that.
fn not_opened<R: AllocGlobal, E: Sink>(
    rt: &R,
    request: &Request<'_>,
    which: Which,
    e: &io::Error,
    err: &mut E,
) -> u8
    ensures status { (result ≡ status_memory) ⊎ (result ≡ status_device) }
    ensures memory { IsWantOfMemory e.now → Reports fault.OutOfMemory
        (E.contents err.old) (E.contents err.new)
        (E.fault_count err.old) (E.fault_count err.new) result }
    ensures device { ¬ IsWantOfMemory e.now
        → TellsUnopened (told_path request.now which) (error_kind e.now)
        (E.contents err.old) (E.contents err.new)
        (E.fault_count err.old) (E.fault_count err.new) result }
    ensures memory_err { result ≡ status_memory
        → Appends (E.contents err.old) (E.contents err.new) memory_line }
    ensures faults { result ≢ status_device → E.fault_count err.new ≡ E.fault_count err.old }
    ensures device_err { result ≡ status_device
        → Rose (E.fault_count err.old) (E.fault_count err.new)
        ⊎ IsToldUnopened request.now (E.contents err.old) (E.contents err.new) }
{
    if e.kind() == ErrorKind::OutOfMemory {
        return tell(MEMORY_LINE, status::MEMORY, err);
    }
    tell_unopened(rt.alloc(), told_path(request, which), e.kind(), err)
}

/// The same of a file whose path is told or not, where the system gave this kind of error.
fn tell_unopened<E: Sink>(alloc: Global, path: Option<&str>, why: ErrorKind, err: &mut E) -> u8
    ensures { TellsUnopened (option_map (λ path. path.now) path.entry) why
        (E.contents err.old) (E.contents err.new)
        (E.fault_count err.old) (E.fault_count err.new) result }
{
    match path {
        Some(path) => tell_named(alloc, path, why, err),
        None => tell(DEVICE_LINE, status::DEVICE, err),
    }
}

/// The same of a file whose path is told.
fn tell_named<E: Sink>(alloc: Global, path: &str, why: ErrorKind, err: &mut E) -> u8
    ensures { TellsUnopened (Some path.now) why (E.contents err.old) (E.contents err.new)
        (E.fault_count err.old) (E.fault_count err.new) result }
{
    match unopened_lines(alloc, path, why) {
        Ok(lines) => tell_bytes(&lines, status::DEVICE, err),
        Err(_) => tell(MEMORY_LINE, status::MEMORY, err),
    }
}

/// The path that is told of a file that can't be opened, if one is.
fn told_path<'a>(request: &Request<'a>, which: Which) -> Option<&'a str>
    ensures { option_map (λ path. path.now) result ≡ told_path request.now which }
{
    if !names_files(request) {
        return None;
    }
    path_of(request, which)
}

/// Whether it is told which file can't be opened.
fn names_files(request: &Request<'_>) -> bool
    ensures { result ≡ names_files request.now }
{
    match request {
        Request::Job(job) => is_left_open(&job.command),
        Request::ByHand(_) => false,
    }
}

/// The same of a command: what is told of some the specification fixes.
fn is_left_open(command: &Command<'_>) -> bool
    ensures { result ≡ is_left_open command.now }
{
    match command {
        Command::Check
        | Command::Compile
        | Command::Run { .. }
        | Command::Tally { .. }
        | Command::Replay { .. }
        | Command::Chart { .. } => false,
        Command::Explain { .. }
        | Command::Listing
        | Command::Events { .. }
        | Command::Lanes { .. }
        | Command::Rounds { .. }
        | Command::Page { .. }
        | Command::OutcomePage { .. }
        | Command::Where { .. }
        | Command::Span { .. }
        | Command::Why { .. }
        | Command::Races { .. }
        | Command::Outcomes { .. }
        | Command::Count { .. }
        | Command::Expected { .. }
        | Command::Json(_) => true,
    }
}

/// The path of this file.
fn path_of<'a>(request: &Request<'a>, which: Which) -> Option<&'a str>
    ensures { option_map (λ path. path.now) result ≡ path_of request.now which }
{
    match request {
        Request::Job(job) => match which {
            Which::Program => Some(job.file),
            Which::Beside => job.command.read_path(),
            Which::Log => job.command.written_path(),
        },
        Request::ByHand(_) => None,
    }
}

/// Which file can't be opened, and why, and then a device's line. Err where memory was refused.
fn unopened_lines(alloc: Global, path: &str, why: ErrorKind) -> Result<Vec<u8>, AllocError>
    ensures { IfOk result (λ lines. lines.items ≡ unopened_lines (Some path.now) why) }
{
    let mut lines = Vec::from_slice(alloc, CANNOT_OPEN.as_bytes())?;
    lines.extend_from_slice(&shown(alloc, path.as_bytes())?)?;
    lines.extend_from_slice(reason_of(why).as_bytes())?;
    lines.extend_from_slice(DEVICE_LINE.as_bytes())?;
    Ok(lines)
}

/// Why a file can't be opened.
fn reason_of(why: ErrorKind) -> &'static str
    ensures { result.now ≡ reason_of why }
{
    match why {
        ErrorKind::NotFound => ": no such file or folder\n",
        ErrorKind::IsADirectory => ": it is a folder\n",
        ErrorKind::PermissionDenied => ": no permission\n",
        _ => ": the system can't open it\n",
    }
}

/// Writes lines, and gives the status, or 5 where they can't be written: then a beginning of them was.
fn tell_bytes<E: Sink>(lines: &[u8], status: u8, err: &mut E) -> u8
    ensures { Tells lines.now status (E.contents err.old) (E.contents err.new)
        (E.fault_count err.old) (E.fault_count err.new) result }
{
    match write_all(err, lines) {
        Ok(()) => status,
        Err(_) => status::DEVICE,
    }
}

/// Does what is asked for on open devices: a job is served, and a run by hand is played by the answers in the input.
fn on_devices<
    R: AllocGlobal + Threads + Wait + Sync,
    P: Read + Drop,
    L: Source,
    O: Sink,
    E: Sink,
    K: Sink,
>(
    rt: &R,
    request: &Request<'_>,
    program: P,
    input: &mut L,
    out: &mut O,
    err: &mut E,
    log_out: &mut K,
) -> u8
    ensures answered { IsAnswered request.now (P.remaining program)
        (L.remaining input.old) (L.remaining input.new) result
        (O.contents out.old) (O.contents out.new) (E.contents err.old) (E.contents err.new)
        (K.contents log_out.old) (K.contents log_out.new) }
    ensures by_some { result ≢ status_memory → result ≢ status_device
        → IsAnsweredBySome request.now (P.remaining program)
        (L.remaining input.old) (L.remaining input.new) result
        (O.contents out.old) (O.contents out.new) (E.contents err.old) (E.contents err.new)
        (K.contents log_out.old) (K.contents log_out.new) }
    ensures out_begins { OutIsBegun request.now (P.remaining program) (L.remaining input.old)
        (O.contents out.old) (O.contents out.new)
        (K.contents log_out.old) (K.contents log_out.new) }
    ensures err_begins { ErrIsBegun request.now (P.remaining program) (L.remaining input.old)
        (E.contents err.old) (E.contents err.new) }
    ensures memory_out { result ≡ status_memory
        → Appends (O.contents out.old) (O.contents out.new) [] }
    ensures memory_log { result ≡ status_memory
        → Appends (K.contents log_out.old) (K.contents log_out.new) [] }
    ensures memory_err { result ≡ status_memory
        → EndsIn request.now (P.remaining program) (L.remaining input.old) memory_line
        (E.contents err.old) (E.contents err.new) }
    ensures faults { result ≢ status_device
        → (L.fault_count input.new ≡ L.fault_count input.old)
        × (O.fault_count out.new ≡ O.fault_count out.old)
        × (E.fault_count err.new ≡ E.fault_count err.old)
        × (K.fault_count log_out.new ≡ K.fault_count log_out.old) }
    ensures device_err { result ≡ status_device
        → EndsIn request.now (P.remaining program) (L.remaining input.old) device_line
        (E.contents err.old) (E.contents err.new)
        ⊎ Rose (E.fault_count err.old) (E.fault_count err.new) }
    ensures no_more { ReadsNoMore request.now → input.new ≡ input.old }
    ensures unread { result ≡ status_program → input.new ≡ input.old }
{
    let mut source = Counted::new(program);
    match request {
        Request::Job(job) => serve(rt, rt.alloc(), job, &mut source, input, out, err, log_out),
        Request::ByHand(run) => {
            let arguments = run.arguments.as_slice();
            let keeps_log = run.log.is_some();
            serve_asked(
                rt.alloc(),
                run.form,
                arguments,
                keeps_log,
                &mut source,
                input,
                out,
                err,
                log_out,
            )
        }
    }
}

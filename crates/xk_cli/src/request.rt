//! What the words ask for: from what `clap` finds in them to a request, or to why they are none.

ghost use Rattle.std.specs.Prelude.{◌≡◌, [], false, Some, None, IfNone, IfOk, IfSome, OnOk, IfErr, option_map, true};
ghost use Rattle.clap.specs.Words.{found_of, kind_of, rows_of, subcommand_rows_of};
ghost use Rattle.xk_cli.specs.declared.misfit.Misfit.{Misfit as AMisfit};
ghost use Rattle.xk_cli.specs.CommandLine.{FitsKind, IsRefused, WithOrders, asked_by, asked_in, asked_of, check_in, command_by};
ghost use Rattle.xk_cli.specs.CommandLine.{command_by_log, faults_in, found_task, is_misfit, job_of, lanes_by};
ghost use Rattle.xk_cli.specs.CommandLine.{listed_of, misfits_by, misfits_in};
ghost use Rattle.xk_cli.specs.CommandLine.{outcome_page_of, outcomes_by, outcomes_of, page_by, races_in, run_by, run_in, task_by};
ghost use Rattle.xk_cli.specs.CommandLine.{texts, told_as, where_on, why_on};
ghost use Rattle.xk_jobs.specs.Tasks.{Events, Run, Span, asked_value, task_value, way_value};

use crate::commands::line;
use crate::given::{
    are_processors_alone, are_rounds_misplaced, are_runs_misplaced, arguments_in, count_in,
    drive_in, form_in, given_in, is_both, is_count_misplaced, is_flagged, is_json,
    is_json_misplaced, is_list_misplaced, is_order, is_page_unclear, is_pick_alone, is_run_unclear,
    is_seed_alone, seed_in,
};
use crate::misfit::Misfit;
use crate::words_fault::WordsFault;
use clap::ArgMatches;
use clap::error::ErrorKind;
use std::alloc::{AllocError, Global};
use xk_jobs::{Command, Drive, Form, HandRun, Job, Request, Values};

/// What is to be done with a file.
#[derive(Clone, Copy)]
enum Found<'a> {
    /// What the program does by itself.
    Command(Command<'a>),
    /// A run whose order a person is asked for, and where its log goes, if anywhere: a file's path.
    ByHand(Option<&'a str>),
}

/// What the words ask for; the first word is the program's name. Where they ask for help or aren't understood, the
/// fault has `clap`'s text.
pub fn read_job<'a>(alloc: Global, words: &'a [&'a str]) -> Result<Request<'a>, WordsFault>
    ensures job { IfOk result (λ asked. WithOrders (λ names.
        job_of names (texts words.entry.now) ≡ Some (asked_value asked))) }
    ensures understood { OnOk result (WithOrders (λ names.
        faults_in names (texts words.entry.now) ≡ [])) }
    ensures refused { IfErr result (λ fault. WithOrders (λ names. IsRefused
        (faults_in names (texts words.entry.now)) (job_of names (texts words.entry.now))
        (misfits_in names (texts words.entry.now)) fault)) }
{
    let command_line = line(alloc)?;
    match command_line.try_get_matches_from(words) {
        Ok(matches) => asked(alloc, &matches),
        Err(error) => Err(words_fault(alloc, &error)),
    }
}

/// What is asked for in what `clap` found, or why that is no job.
fn asked<'a>(alloc: Global, matches: &ArgMatches<'a>) -> Result<Request<'a>, WordsFault>
    ensures job { IfOk result
        (λ asked. asked_in (subcommand_rows_of matches.now) ≡ Some (asked_value asked)) }
    ensures refused { IfErr result (IsRefused [] (asked_in (subcommand_rows_of matches.now))
        (misfits_by (subcommand_rows_of matches.now))) }
{
    match matches.subcommand() {
        Some((name, given)) => asked_by(alloc, name, given),
        None => Err(not_a_job(alloc)),
    }
}

/// What a command's name and what was given with it ask for, or why that is no job.
fn asked_by<'a>(
    alloc: Global,
    name: &str,
    given: &ArgMatches<'a>,
) -> Result<Request<'a>, WordsFault>
    ensures job { IfOk result
        (λ asked. asked_by name.now (rows_of (found_of given.now)) ≡ Some (asked_value asked)) }
    ensures refused { IfErr result
        (IsRefused [] (asked_by name.now (rows_of (found_of given.now)))
        (is_misfit name.now (rows_of (found_of given.now)))) }
{
    match request_by(alloc, name, given)? {
        Some(request) => Ok(request),
        None => Err(no_job(alloc, name, given)),
    }
}

/// What a command's name and what was given with it ask for.
fn request_by<'a>(
    alloc: Global,
    name: &str,
    given: &ArgMatches<'a>,
) -> Result<Option<Request<'a>>, AllocError>
    ensures { IfOk result
        (λ asked. option_map asked_value asked ≡ asked_by name.now (rows_of (found_of given.now))) }
{
    let Some(task) = task_by(name, given) else {
        return Ok(None);
    };
    match given_in(given, "FILE") {
        Some(file) => request_of(alloc, task, file, given),
        None => Ok(None),
    }
}

/// This task on this file, with what else was given to it.
fn request_of<'a>(
    alloc: Global,
    task: Found<'a>,
    file: &'a str,
    given: &ArgMatches<'a>,
) -> Result<Option<Request<'a>>, AllocError>
    ensures { IfOk result (λ asked. option_map asked_value asked
        ≡ asked_of (found_task task.entry) file.entry.now (rows_of (found_of given.now))) }
{
    match arguments_in(alloc, given)? {
        Some(arguments) => Ok(Some(request_with(task, form_in(given), file, arguments))),
        None => Ok(None),
    }
}

/// This task on this file, with what stands there and the numbers that main is given.
fn request_with<'a>(task: Found<'a>, form: Form, file: &'a str, arguments: Vec<i64>) -> Request<'a>
    ensures { asked_value result ≡ record {
      task = found_task task.entry;
      form = form;
      file = file.entry.now;
      arguments = arguments.items;
    } }
{
    match task {
        Found::Command(command) => Request::Job(Job {
            command,
            form,
            file,
            arguments,
        }),
        Found::ByHand(log) => Request::ByHand(HandRun {
            form,
            file,
            arguments,
            log,
        }),
    }
}

/// What the command of this name does, with what else was given to it.
fn task_by<'a>(name: &str, given: &ArgMatches<'a>) -> Option<Found<'a>>
    ensures { option_map found_task result ≡ task_by name.now (rows_of (found_of given.now)) }
{
    match name {
        "run" => run_by(given),
        _ => Some(Found::Command(command_by(name, given)?)),
    }
}

/// The command `run` with what was given to it. None where both an order and workers were, or a seed, a number of runs
/// or of processors, or `--json`, that has no place there.
fn run_by<'a>(given: &ArgMatches<'a>) -> Option<Found<'a>>
    ensures { option_map found_task result ≡ run_by (rows_of (found_of given.now)) }
{
    if is_both(given)
        || is_seed_alone(given)
        || are_runs_misplaced(given)
        || are_processors_alone(given)
        || is_json_misplaced(given)
    {
        return None;
    }
    if is_order(given, "ask") {
        return Some(Found::ByHand(given_in(given, "PATH")));
    }
    Some(Found::Command(run_in(given)))
}

/// The command `run` where no person is asked for the order: one run, or so many as were asked for.
fn run_in<'a>(given: &ArgMatches<'a>) -> Command<'a>
    ensures { task_value result ≡ run_in (rows_of (found_of given.now)) }
{
    match count_in(given, "RUNS") {
        Some(runs) => Command::Tally {
            seed: seed_in(given),
            runs,
        },
        None => one_run(is_json(given), drive_in(given), given_in(given, "PATH")),
    }
}

/// One run, told as JSON or not.
fn one_run<'a>(json: bool, drive: Option<Drive>, log: Option<&'a str>) -> Command<'a>
    ensures { task_value result ≡ told_as json
        (Run (option_map way_value drive) (option_map (λ s. s.now) log.entry)) }
{
    if json {
        return Command::Json(Values::Run { drive, log });
    }
    Command::Run { drive, log }
}

/// The command of this name, which isn't `run`, with what else was given to it.
fn command_by<'a>(name: &str, given: &ArgMatches<'a>) -> Option<Command<'a>>
    ensures { option_map task_value result ≡ command_by name.now (rows_of (found_of given.now)) }
{
    match name {
        "check" => Some(check_in(given)),
        "compile" => Some(Command::Compile),
        "explain" => Some(Command::Explain {
            json: is_json(given),
        }),
        "listing" => Some(Command::Listing),
        "outcomes" => outcomes_by(given),
        "page" => page_by(given),
        "races" => Some(races_in(given)),
        _ => command_by_log(name, given),
    }
}

/// The command `races` with what was given to it, told as JSON or not.
fn races_in<'a>(given: &ArgMatches<'a>) -> Command<'a>
    ensures { task_value result ≡ races_in (rows_of (found_of given.now)) }
{
    let log = given_in(given, "LOG");
    if is_json(given) {
        return Command::Json(Values::Races { log });
    }
    Command::Races { log }
}

/// The command `check` with what was given to it: as a JSON value it is what `explain` tells.
fn check_in<'a>(given: &ArgMatches<'a>) -> Command<'a>
    ensures { task_value result ≡ check_in (rows_of (found_of given.now)) }
{
    if is_json(given) {
        return Command::Explain { json: true };
    }
    Command::Check
}

/// The command of this name that wants a log, with what else was given to it.
fn command_by_log<'a>(name: &str, given: &ArgMatches<'a>) -> Option<Command<'a>>
    ensures { option_map task_value result
        ≡ command_by_log name.now (rows_of (found_of given.now)) }
{
    let log = given_in(given, "LOG")?;
    match name {
        "replay" => Some(Command::Replay { log }),
        "chart" => Some(Command::Chart { log }),
        "events" => Some(events_on(is_json(given), log)),
        "lanes" => lanes_by(log, given),
        "where" => Some(where_on(log, given)),
        "span" => Some(span_on(is_json(given), log)),
        "why" => why_on(log, given),
        _ => None,
    }
}

/// The command `events` on this log, told as JSON or not.
fn events_on<'a>(json: bool, log: &'a str) -> Command<'a>
    ensures { task_value result ≡ told_as json (Events log.entry.now) }
{
    if json {
        return Command::Json(Values::Events { log });
    }
    Command::Events { log }
}

/// The command `where` on this log, with what else was given to it, told as JSON or not.
fn where_on<'a>(log: &'a str, given: &ArgMatches<'a>) -> Command<'a>
    ensures { task_value result ≡ where_on log.entry.now (rows_of (found_of given.now)) }
{
    let at = count_in(given, "AT");
    if is_json(given) {
        return Command::Json(Values::Where { log, at });
    }
    Command::Where { log, at }
}

/// The command `span` on this log, told as JSON or not.
fn span_on<'a>(json: bool, log: &'a str) -> Command<'a>
    ensures { task_value result ≡ told_as json (Span log.entry.now) }
{
    if json {
        return Command::Json(Values::Span { log });
    }
    Command::Span { log }
}

/// The command `lanes` on this log, with what else was given to it. None where `--rounds` has no place there.
fn lanes_by<'a>(log: &'a str, given: &ArgMatches<'a>) -> Option<Command<'a>>
    ensures { option_map task_value result ≡ lanes_by log.entry.now (rows_of (found_of given.now)) }
{
    if are_rounds_misplaced(given) {
        return None;
    }
    if is_flagged(given, "rounds") {
        return Some(Command::Rounds { log });
    }
    Some(Command::Lanes {
        log,
        from: count_in(given, "FROM"),
        to: count_in(given, "TO"),
        svg: is_flagged(given, "svg"),
        path: is_flagged(given, "path"),
    })
}

/// The command `why` on this log, with the step that was given to it.
fn why_on<'a>(log: &'a str, given: &ArgMatches<'a>) -> Option<Command<'a>>
    ensures { option_map task_value result ≡ why_on log.entry.now (rows_of (found_of given.now)) }
{
    let step = count_in(given, "STEP")?;
    Some(Command::Why { log, step })
}

/// The command `page` with what was given to it: a page of the run that a log has, or of an outcome. None where it is unclear which.
fn page_by<'a>(given: &ArgMatches<'a>) -> Option<Command<'a>>
    ensures { option_map task_value result ≡ page_by (rows_of (found_of given.now)) }
{
    if is_run_unclear(given) {
        return None;
    }
    match given_in(given, "LOG") {
        Some(log) => Some(Command::Page {
            log,
            from: count_in(given, "FROM"),
            to: count_in(given, "TO"),
            path: is_flagged(given, "path"),
        }),
        None => outcome_page_of(given),
    }
}

/// The command `page` of an outcome, with what else was given to it.
fn outcome_page_of<'a>(given: &ArgMatches<'a>) -> Option<Command<'a>>
    ensures { option_map task_value result ≡ outcome_page_of (rows_of (found_of given.now)) }
{
    let pick = count_in(given, "OUTCOME")?;
    Some(Command::OutcomePage {
        pick,
        limit: count_in(given, "LIMIT"),
        from: count_in(given, "FROM"),
        to: count_in(given, "TO"),
    })
}

/// The command `outcomes` with what was given to it: outcomes are held against a list, counted, or printed. None where a
/// list was given, and an outcome to pick or a log's path; or an outcome to pick, and no log's path; or where a count was
/// asked for, and one of these was given, or it is to be told as JSON.
fn outcomes_by<'a>(given: &ArgMatches<'a>) -> Option<Command<'a>>
    ensures { option_map task_value result ≡ outcomes_by (rows_of (found_of given.now)) }
{
    if is_list_misplaced(given) || is_pick_alone(given) || is_count_misplaced(given) {
        return None;
    }
    match given_in(given, "FILE2") {
        Some(list) => Some(expected_in(list, given)),
        None => Some(all_in(given)),
    }
}

/// Outcomes that are held against this list, told as JSON or not.
fn expected_in<'a>(list: &'a str, given: &ArgMatches<'a>) -> Command<'a>
    ensures { task_value result
        ≡ outcomes_of (Some list.entry.now) (rows_of (found_of given.now)) }
{
    let limit = count_in(given, "LIMIT");
    let sets = is_flagged(given, "sets");
    if is_json(given) {
        return Command::Json(Values::Expected { list, limit, sets });
    }
    Command::Expected { list, limit, sets }
}

/// Outcomes that are counted or printed.
fn all_in<'a>(given: &ArgMatches<'a>) -> Command<'a>
    ensures { task_value result ≡ outcomes_of None (rows_of (found_of given.now)) }
{
    if is_flagged(given, "count") {
        return Command::Count {
            limit: count_in(given, "LIMIT"),
            sets: is_flagged(given, "sets"),
        };
    }
    found_in(given)
}

/// Outcomes that are printed, maybe with a log, told as JSON or not.
fn found_in<'a>(given: &ArgMatches<'a>) -> Command<'a>
    ensures { task_value result ≡ listed_of (rows_of (found_of given.now)) }
{
    let limit = count_in(given, "LIMIT");
    let pick = count_in(given, "K");
    let log = given_in(given, "PATH");
    let sets = is_flagged(given, "sets");
    if is_json(given) {
        return Command::Json(Values::Outcomes {
            limit,
            pick,
            log,
            sets,
        });
    }
    Command::Outcomes {
        limit,
        pick,
        log,
        sets,
    }
}

/// Why a command with what was given to it is no job.
fn no_job(alloc: Global, name: &str, given: &ArgMatches<'_>) -> WordsFault
    ensures { IsRefused [] None (is_misfit name.now (rows_of (found_of given.now))) result }
{
    match misfit(name, given) {
        Some(misfit) => WordsFault::Misfit(misfit),
        None => not_a_job(alloc),
    }
}

/// Why what was given to the command of this name doesn't go together, if it doesn't.
#[tactic(auto, using(crate::proofs::MisfitLemmas::no_misfit))]
fn misfit(name: &str, given: &ArgMatches<'_>) -> Option<Misfit>
    ensures some { IfSome result (λ m. is_misfit name.now (rows_of (found_of given.now)) m ≡ true) }
    ensures none { IfNone result
        ((m : AMisfit) → is_misfit name.now (rows_of (found_of given.now)) m ≡ false) }
{
    if is_both(given) {
        return Some(Misfit::OrderAndWorkers);
    }
    if is_seed_alone(given) {
        return Some(Misfit::SeedAlone);
    }
    if are_runs_misplaced(given) {
        return Some(Misfit::MisplacedRuns);
    }
    if are_processors_alone(given) {
        return Some(Misfit::ProcessorsAlone);
    }
    if is_list_misplaced(given) {
        return Some(Misfit::MisplacedList);
    }
    if is_pick_alone(given) {
        return Some(Misfit::PickAlone);
    }
    if is_count_misplaced(given) {
        return Some(Misfit::MisplacedCount);
    }
    if is_page_unclear(name, given) {
        return Some(Misfit::UnclearPage);
    }
    if is_json_misplaced(given) {
        return Some(Misfit::MisplacedJson);
    }
    if are_rounds_misplaced(given) {
        return Some(Misfit::MisplacedRounds);
    }
    None
}

/// The fault where `clap` took the words, nothing in them excludes anything else, and they name no job. It doesn't come to that.
fn not_a_job(alloc: Global) -> WordsFault
    ensures { IsRefused [] None (λ m. false) result }
{
    match String::from_str(alloc, "error: no command on a file was given\n") {
        Ok(text) => WordsFault::NotUnderstood(text),
        Err(_) => WordsFault::OutOfMemory,
    }
}

/// `clap`'s answer where it doesn't take the words.
fn words_fault(alloc: Global, error: &clap::Error) -> WordsFault
    ensures { FitsKind (kind_of error.now) result }
{
    if error.kind() == ErrorKind::OutOfMemory {
        return WordsFault::OutOfMemory;
    }
    match error.to_string(alloc) {
        Ok(text) if error.use_stderr() => WordsFault::NotUnderstood(text),
        Ok(text) => WordsFault::Help(text),
        Err(_) => WordsFault::OutOfMemory,
    }
}

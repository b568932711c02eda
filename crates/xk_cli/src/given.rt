//! What was given to a command, as `clap` found it.

ghost use Rattle.std.specs.Prelude.{◌≡◌, IfOk, option_map};
ghost use Rattle.clap.specs.Words.{first_of, found_of, rows_of};
ghost use Rattle.xk_cli.specs.CommandLine.{are_processors_alone, are_rounds_misplaced, are_runs_misplaced};
ghost use Rattle.xk_cli.specs.CommandLine.{arguments_in, count_in, drive_in, form_in, is_both};
ghost use Rattle.xk_cli.specs.CommandLine.{is_flagged, is_list_misplaced, is_order, is_pick_alone, is_seed_alone, order_in};
ghost use Rattle.xk_cli.specs.CommandLine.{is_count_misplaced, is_json, is_json_misplaced, is_page_unclear};
ghost use Rattle.xk_cli.specs.CommandLine.{is_run_unclear, order_named, processors_in, seed_in};
ghost use Rattle.xk_jobs.specs.Tasks.{way_value};
ghost use Rattle.xk_cli.specs.CommandLine.{workers_in, workers_named};

use crate::numbers::{count_named, numbers_named};
use clap::ArgMatches;
use std::alloc::{AllocError, Global};
use xk_jobs::{Drive, Form, Order, Processors, Workers};

/// The numbers that were given, one for each `--arg`, in their order.
pub(crate) fn arguments_in(
    alloc: Global,
    given: &ArgMatches<'_>,
) -> Result<Option<Vec<i64>>, AllocError>
    ensures { IfOk result (λ found.
        option_map (λ numbers. numbers.items) found ≡ arguments_in (rows_of (found_of given.now))) }
{
    match given.get_strs("ARG") {
        Some(texts) => numbers_named(alloc, texts),
        None => Ok(Some(Vec::new(alloc))),
    }
}

/// Whether a list was given, and an outcome to pick or a log's path.
pub(crate) fn is_list_misplaced(given: &ArgMatches<'_>) -> bool
    ensures { result ≡ is_list_misplaced (rows_of (found_of given.now)) }
{
    given_in(given, "FILE2").is_some()
        && (given_in(given, "K").is_some() || given_in(given, "PATH").is_some())
}

/// Whether an outcome to pick was given, and no log's path.
pub(crate) fn is_pick_alone(given: &ArgMatches<'_>) -> bool
    ensures { result ≡ is_pick_alone (rows_of (found_of given.now)) }
{
    given_in(given, "K").is_some() && !given_in(given, "PATH").is_some()
}

/// Whether a count was asked for, and a list, an outcome to pick or a log's path was given, or it is to be told as JSON.
pub(crate) fn is_count_misplaced(given: &ArgMatches<'_>) -> bool
    ensures { result ≡ is_count_misplaced (rows_of (found_of given.now)) }
{
    is_flagged(given, "count")
        && (given_in(given, "FILE2").is_some()
            || given_in(given, "K").is_some()
            || given_in(given, "PATH").is_some()
            || is_json(given))
}

/// Whether the command of this name is `page`, and it is unclear of which run.
pub(crate) fn is_page_unclear(name: &str, given: &ArgMatches<'_>) -> bool
    ensures { result ≡ is_page_unclear name.now (rows_of (found_of given.now)) }
{
    name == "page" && is_run_unclear(given)
}

/// Whether a log was given, and an outcome or a limit; or no log, and no outcome or a critical path.
pub(crate) fn is_run_unclear(given: &ArgMatches<'_>) -> bool
    ensures { result ≡ is_run_unclear (rows_of (found_of given.now)) }
{
    let outcome = given_in(given, "OUTCOME").is_some();
    if given_in(given, "LOG").is_some() {
        return outcome || given_in(given, "LIMIT").is_some();
    }
    !outcome || is_flagged(given, "path")
}

/// Whether both an order and workers were given.
pub(crate) fn is_both(given: &ArgMatches<'_>) -> bool
    ensures { result ≡ is_both (rows_of (found_of given.now)) }
{
    given_in(given, "ORDER").is_some() && given_in(given, "N").is_some()
}

/// Whether a seed was given, and no order by chance.
pub(crate) fn is_seed_alone(given: &ArgMatches<'_>) -> bool
    ensures { result ≡ is_seed_alone (rows_of (found_of given.now)) }
{
    given_in(given, "SEED").is_some() && !is_order(given, "random")
}

/// Whether a number of runs was given, and no order by chance or a log's path.
pub(crate) fn are_runs_misplaced(given: &ArgMatches<'_>) -> bool
    ensures { result ≡ are_runs_misplaced (rows_of (found_of given.now)) }
{
    given_in(given, "RUNS").is_some()
        && (!is_order(given, "random") || given_in(given, "PATH").is_some())
}

/// Whether a number of processors was given, and no order by rounds.
pub(crate) fn are_processors_alone(given: &ArgMatches<'_>) -> bool
    ensures { result ≡ are_processors_alone (rows_of (found_of given.now)) }
{
    given_in(given, "P").is_some() && !is_order(given, "greedy")
}

/// Whether `--json` was given.
pub(crate) fn is_json(given: &ArgMatches<'_>) -> bool
    ensures { result ≡ is_json (rows_of (found_of given.now)) }
{
    is_flagged(given, "json")
}

/// Whether `--json` was given, and an order that a person is asked for, or a number of runs.
pub(crate) fn is_json_misplaced(given: &ArgMatches<'_>) -> bool
    ensures { result ≡ is_json_misplaced (rows_of (found_of given.now)) }
{
    is_json(given) && (is_order(given, "ask") || given_in(given, "RUNS").is_some())
}

/// Whether `--rounds` was given, and a picture, a critical path, or a part of the run.
pub(crate) fn are_rounds_misplaced(given: &ArgMatches<'_>) -> bool
    ensures { result ≡ are_rounds_misplaced (rows_of (found_of given.now)) }
{
    is_flagged(given, "rounds")
        && (is_flagged(given, "svg")
            || is_flagged(given, "path")
            || given_in(given, "FROM").is_some()
            || given_in(given, "TO").is_some())
}

/// Whether the order of this name was given.
pub(crate) fn is_order(given: &ArgMatches<'_>, name: &str) -> bool
    ensures { result ≡ is_order name.now (rows_of (found_of given.now)) }
{
    match given_in(given, "ORDER") {
        Some(order) => order == name,
        None => false,
    }
}

/// The whole number that was given under this name.
pub(crate) fn count_in(given: &ArgMatches<'_>, name: &str) -> Option<u64>
    ensures { result ≡ count_in name.now (rows_of (found_of given.now)) }
{
    let text = given_in(given, name)?;
    count_named(text)
}

/// The seed that was given, or else 0.
pub(crate) fn seed_in(given: &ArgMatches<'_>) -> u64
    ensures { result ≡ seed_in (rows_of (found_of given.now)) }
{
    match count_in(given, "SEED") {
        Some(seed) => seed,
        None => 0,
    }
}

/// How the steps are taken, where that was given: by rounds, in another order, or by workers.
pub(crate) fn drive_in(given: &ArgMatches<'_>) -> Option<Drive>
    ensures { option_map way_value result ≡ drive_in (rows_of (found_of given.now)) }
{
    if is_order(given, "greedy") {
        return Some(Drive::Greedy(processors_in(given)));
    }
    match order_in(given) {
        Some(order) => Some(Drive::Order(order)),
        None => Some(Drive::Workers(workers_in(given)?)),
    }
}

/// The order that was given, where by chance from the seed that was. None of one that a person is asked for, or by rounds.
fn order_in(given: &ArgMatches<'_>) -> Option<Order>
    ensures { result ≡ order_in (rows_of (found_of given.now)) }
{
    let name = given_in(given, "ORDER")?;
    match name {
        "first" => Some(Order::First),
        "last" => Some(Order::Last),
        "round" => Some(Order::Round),
        "random" => Some(Order::Random(seed_in(given))),
        _ => None,
    }
}

/// The processors that were given.
fn processors_in(given: &ArgMatches<'_>) -> Option<Processors>
    ensures { option_map (λ p. p.count) result ≡ processors_in (rows_of (found_of given.now)) }
{
    let count = count_in(given, "P")?;
    Processors::new(count)
}

/// The workers that were given.
fn workers_in(given: &ArgMatches<'_>) -> Option<Workers>
    ensures { option_map (λ w. w.count) result ≡ workers_in (rows_of (found_of given.now)) }
{
    let text = given_in(given, "N")?;
    workers_named(text)
}

/// So many workers as a numeral says.
fn workers_named(text: &str) -> Option<Workers>
    ensures { option_map (λ w. w.count) result ≡ workers_named text.now }
{
    match text.parse::<u32>() {
        Ok(count) => Workers::new(count),
        Err(_) => None,
    }
}

/// What stands in FILE.
pub(crate) fn form_in(given: &ArgMatches<'_>) -> Form
    ensures { result ≡ form_in (rows_of (found_of given.now)) }
{
    if is_flagged(given, "module") {
        return Form::Module;
    }
    Form::Source
}

/// Whether the flag of this name was given.
pub(crate) fn is_flagged(given: &ArgMatches<'_>, name: &str) -> bool
    ensures { result ≡ is_flagged name.now (rows_of (found_of given.now)) }
{
    match given_in(given, name) {
        Some(value) => value == "true",
        None => false,
    }
}

/// What was given under this name.
pub(crate) fn given_in<'a>(given: &ArgMatches<'a>, name: &str) -> Option<&'a str>
    ensures { option_map (λ s. s.now) result ≡ first_of name.now (rows_of (found_of given.now)) }
{
    given.get_str(name)
}

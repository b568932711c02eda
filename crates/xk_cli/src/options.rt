//! What commands take: their options and places, for `clap`.

ghost use Rattle.std.specs.Prelude.{◌≡◌, false};
ghost use Rattle.clap.specs.Words.{rule_of};
ghost use Rattle.xk_cli.specs.CommandLine.{WithOrders, arg_option, at_option, count_option};
ghost use Rattle.xk_cli.specs.CommandLine.{flag, from_option, json_flag, limit_option, log_choice};
ghost use Rattle.xk_cli.specs.CommandLine.{log_option, log_place, module_flag, option, order_option, outcome_option, place};
ghost use Rattle.xk_cli.specs.CommandLine.{seed_option, step_place, to_option, workers_option};

use clap::builder::ValueParser;
use clap::{Arg, ArgAction};
use std::alloc::Global;
use xk_jobs::MOST_WORKERS;

/// The names of the orders.
static ORDERS: [&str; 6] = ["first", "last", "round", "random", "greedy", "ask"];

/// `--arg N`, once for each number.
pub(crate) fn arg_option<'a>(alloc: Global) -> Arg<'a>
    ensures rule { rule_of result ≡ arg_option }
    ensures local { result.global ≡ false }
{
    Arg::new(alloc, "ARG")
        .long("arg")
        .value_name("N")
        .help("A number that main is given: once for each that it takes, in their order")
        .action(ArgAction::Append)
        .value_parser(ValueParser::signed(i64::MIN, i64::MAX))
}

/// `--log PATH`.
pub(crate) fn log_option<'a>(alloc: Global) -> Arg<'a>
    ensures rule { rule_of result ≡ log_option }
    ensures local { result.global ≡ false }
{
    option(
        alloc,
        "PATH",
        "log",
        "The file that the log of the run goes to",
    )
}

/// `--from STEP`.
pub(crate) fn from_option<'a>(alloc: Global) -> Arg<'a>
    ensures rule { rule_of result ≡ from_option }
    ensures local { result.global ≡ false }
{
    let from = count_option(
        alloc,
        "FROM",
        "from",
        "The first step that is drawn, counted from 1",
    );
    from.value_name("STEP")
}

/// `--to STEP`.
pub(crate) fn to_option<'a>(alloc: Global) -> Arg<'a>
    ensures rule { rule_of result ≡ to_option }
    ensures local { result.global ≡ false }
{
    let to = count_option(alloc, "TO", "to", "The last step that is drawn");
    to.value_name("STEP")
}

/// `--at STEP`.
pub(crate) fn at_option<'a>(alloc: Global) -> Arg<'a>
    ensures rule { rule_of result ≡ at_option }
    ensures local { result.global ≡ false }
{
    let at = option(
        alloc,
        "AT",
        "at",
        "The step after which things are told, counted from 1: 0 is before the first, the last of the log where nothing is said",
    );
    at.value_name("STEP")
        .value_parser(ValueParser::unsigned(0, u64::MAX))
}

/// `--limit LIMIT`.
pub(crate) fn limit_option<'a>(alloc: Global) -> Arg<'a>
    ensures rule { rule_of result ≡ limit_option }
    ensures local { result.global ≡ false }
{
    count_option(
        alloc,
        "LIMIT",
        "limit",
        "The search stops once more worlds are kept, or so many outcomes are told: 40000 where nothing is said, and fewer where there may be many activities",
    )
}

/// `--outcome K`.
pub(crate) fn outcome_option<'a>(alloc: Global) -> Arg<'a>
    ensures rule { rule_of result ≡ outcome_option }
    ensures local { result.global ≡ false }
{
    let outcome = count_option(
        alloc,
        "OUTCOME",
        "outcome",
        "A run with this outcome of FILE in place of a log's, counted from 1 as outcomes counts them",
    );
    outcome.value_name("K")
}

/// An option of this long name that takes a whole number from 1 on.
pub(crate) fn count_option<'a>(
    alloc: Global,
    name: &'a str,
    long: &'a str,
    help: &'a str,
) -> Arg<'a>
    ensures rule { rule_of result ≡ count_option name.entry.now long.entry.now }
    ensures local { result.global ≡ false }
{
    let count = option(alloc, name, long, help);
    count.value_parser(ValueParser::unsigned(1, u64::MAX))
}

/// `--seed SEED`.
pub(crate) fn seed_option<'a>(alloc: Global) -> Arg<'a>
    ensures rule { rule_of result ≡ seed_option }
    ensures local { result.global ≡ false }
{
    let seed = option(
        alloc,
        "SEED",
        "seed",
        "What is drawn from where the order is random: 0 where nothing is said",
    );
    seed.value_parser(ValueParser::unsigned(0, u64::MAX))
}

/// `--workers N`.
pub(crate) fn workers_option<'a>(alloc: Global) -> Arg<'a>
    ensures rule { rule_of result ≡ workers_option }
    ensures local { result.global ≡ false }
{
    let workers = option(
        alloc,
        "N",
        "workers",
        "Run by so many worker threads, 1 to 64: whoever comes first takes the next step",
    );
    workers.value_parser(ValueParser::unsigned(1, u64::from(MOST_WORKERS)))
}

/// `--order ORDER`.
pub(crate) fn order_option<'a>(alloc: Global) -> Arg<'a>
    ensures rule { WithOrders (λ names. rule_of result ≡ order_option names) }
    ensures local { result.global ≡ false }
{
    let order = option(
        alloc,
        "ORDER",
        "order",
        "Who steps next: the least that can (the default), the greatest, each in turn, by chance, by rounds, or whom standard input names",
    );
    order.value_parser(ORDERS.as_slice())
}

/// `--module`.
pub(crate) fn module_flag<'a>(alloc: Global) -> Arg<'a>
    ensures rule { rule_of result ≡ module_flag }
    ensures local { result.global ≡ false }
{
    flag(alloc, "module", "FILE is a module text")
}

/// `--json`.
pub(crate) fn json_flag<'a>(alloc: Global) -> Arg<'a>
    ensures rule { rule_of result ≡ json_flag }
    ensures local { result.global ≡ false }
{
    flag(alloc, "json", "Says it as a JSON value on one line")
}

/// A flag of this name, which is its long name too.
pub(crate) fn flag<'a>(alloc: Global, name: &'a str, help: &'a str) -> Arg<'a>
    ensures rule { rule_of result ≡ flag name.entry.now }
    ensures local { result.global ≡ false }
{
    Arg::new(alloc, name)
        .long(name)
        .help(help)
        .action(ArgAction::SetTrue)
}

/// An option of this long name that takes a value.
pub(crate) fn option<'a>(alloc: Global, name: &'a str, long: &'a str, help: &'a str) -> Arg<'a>
    ensures rule { rule_of result ≡ option name.entry.now long.entry.now }
    ensures local { result.global ≡ false }
{
    Arg::new(alloc, name)
        .long(long)
        .help(help)
        .action(ArgAction::Set)
}

/// LOG, which needn't be there.
pub(crate) fn log_choice<'a>(alloc: Global, help: &'a str) -> Arg<'a>
    ensures rule { rule_of result ≡ log_choice }
    ensures local { result.global ≡ false }
{
    Arg::new(alloc, "LOG").help(help).action(ArgAction::Set)
}

/// LOG, which has to be there.
pub(crate) fn log_place<'a>(alloc: Global) -> Arg<'a>
    ensures rule { rule_of result ≡ log_place }
    ensures local { result.global ≡ false }
{
    place(alloc, "LOG", "The log of a run of FILE")
}

/// STEP, which has to be there: a whole number from 1 on.
pub(crate) fn step_place<'a>(alloc: Global) -> Arg<'a>
    ensures rule { rule_of result ≡ step_place }
    ensures local { result.global ≡ false }
{
    let step = place(alloc, "STEP", "The step of that run, counted from 1");
    step.value_parser(ValueParser::unsigned(1, u64::MAX))
}

/// An argument without a long name, which has to be there.
pub(crate) fn place<'a>(alloc: Global, name: &'a str, help: &'a str) -> Arg<'a>
    ensures rule { rule_of result ≡ place name.entry.now }
    ensures local { result.global ≡ false }
{
    Arg::new(alloc, name)
        .help(help)
        .required(true)
        .action(ArgAction::Set)
}

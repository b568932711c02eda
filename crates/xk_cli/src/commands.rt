//! The program's command line for `clap`: its commands, each with all that it takes.

ghost use Rattle.std.specs.Prelude.{◌≡◌, IfOk, codes, map};
ghost use Rattle.clap.specs.Words.{App, app_of, rule_of, with_subcommand};
ghost use Rattle.xk_cli.specs.CommandLine.{AreLocal, HasNoGlobals, WithOrders, check_line, command_line, compile_line};
ghost use Rattle.xk_cli.specs.CommandLine.{events_line, explain_line, lanes_line, listing_line, on_file, on_run, outcomes_line};
ghost use Rattle.xk_cli.specs.CommandLine.{page_line, program, races_line, run_line, span_line, where_line, why_line};

use crate::options::{
    arg_option, at_option, count_option, flag, from_option, json_flag, limit_option, log_choice,
    log_option, log_place, module_flag, option, order_option, outcome_option, place, seed_option,
    step_place, to_option, workers_option,
};
use clap::Arg;
use std::alloc::{AllocError, Global};

/// What `-V` prints after the program's name.
const VERSION: &str = "1.5.0";

/// What `--version` prints there: the same, and on a line of its own the kit that proved these sources, as `rt version` names it.
const VERSION_AND_KIT: &str = "1.5.0\nproved with rattle-kit-13f logic dac8208d650f15bf";

/// The program's command line, with its commands in the order in which help lists them.
pub(crate) fn line<'a>(alloc: Global) -> Result<clap::Command<'a>, AllocError>
    ensures { IfOk result (λ c. WithOrders (λ names. app_of c ≡ command_line names)) }
{
    let line = add(Ok(program(alloc)), check_line(alloc));
    let line = add(line, explain_line(alloc));
    let line = add(line, compile_line(alloc));
    let line = add(line, listing_line(alloc));
    let line = add(line, run_line(alloc));
    let line = add(line, outcomes_line(alloc));
    let line = add(line, races_line(alloc));
    let line = add(line, replay_line(alloc));
    let line = add(line, chart_line(alloc));
    let line = add(line, events_line(alloc));
    let line = add(line, lanes_line(alloc));
    let line = add(line, page_line(alloc));
    let line = add(line, where_line(alloc));
    let line = add(line, span_line(alloc));
    add(line, why_line(alloc))
}

/// The program without its commands, of which one has to be there.
fn program<'a>(alloc: Global) -> clap::Command<'a>
    ensures { app_of result ≡ program }
{
    clap::Command::new(alloc, "x10clock")
        .about("Verifies and runs clocked programs.")
        .version(VERSION)
        .long_version(VERSION_AND_KIT)
        .subcommand_required(true)
}

/// The line with a further command, where there was memory for both.
fn add<'a>(
    line: Result<clap::Command<'a>, AllocError>,
    command: Result<clap::Command<'a>, AllocError>,
) -> Result<clap::Command<'a>, AllocError>
    ensures { (before added : App) → IfOk line.entry (λ l. app_of l ≡ before)
        → IfOk command.entry (λ c. app_of c ≡ added) → IfOk command.entry HasNoGlobals
        → IfOk result (λ c. app_of c ≡ with_subcommand before added.top) }
{
    line?.subcommand(command?)
}

/// The command `check`.
fn check_line<'a>(alloc: Global) -> Result<clap::Command<'a>, AllocError>
    ensures shape { IfOk result (λ c. app_of c ≡ check_line) }
    ensures local { IfOk result HasNoGlobals }
{
    let about = "Says whether a program is accepted.";
    let options = [module_flag(alloc), json_flag(alloc)];
    on_file(alloc, "check", about, Vec::from_array(alloc, options)?)
}

/// The command `explain`.
fn explain_line<'a>(alloc: Global) -> Result<clap::Command<'a>, AllocError>
    ensures shape { IfOk result (λ c. app_of c ≡ explain_line) }
    ensures local { IfOk result HasNoGlobals }
{
    let about =
        "Says where and why a program is refused; where FILE is the code of a rule, as V9, tells that rule.";
    let options = [module_flag(alloc), json_flag(alloc)];
    on_file(alloc, "explain", about, Vec::from_array(alloc, options)?)
}

/// The command `compile`.
fn compile_line<'a>(alloc: Global) -> Result<clap::Command<'a>, AllocError>
    ensures shape { IfOk result (λ c. app_of c ≡ compile_line) }
    ensures local { IfOk result HasNoGlobals }
{
    let about = "Compiles a program and prints its module.";
    on_file(alloc, "compile", about, Vec::new(alloc))
}

/// The command `listing`.
fn listing_line<'a>(alloc: Global) -> Result<clap::Command<'a>, AllocError>
    ensures shape { IfOk result (λ c. app_of c ≡ listing_line) }
    ensures local { IfOk result HasNoGlobals }
{
    let about = "Prints the instructions of a program's module, and where they come from.";
    let options = [module_flag(alloc)];
    on_file(alloc, "listing", about, Vec::from_array(alloc, options)?)
}

/// The command `run`.
fn run_line<'a>(alloc: Global) -> Result<clap::Command<'a>, AllocError>
    ensures shape { IfOk result (λ c. WithOrders (λ names. app_of c ≡ run_line names)) }
    ensures local { IfOk result HasNoGlobals }
{
    let about = "Runs a program and prints what it prints.";
    let options = [
        module_flag(alloc),
        order_option(alloc),
        seed_option(alloc),
        count_option(
            alloc,
            "RUNS",
            "runs",
            "So many runs where the order is random, each from the next seed: tells how often what was printed",
        ),
        count_option(
            alloc,
            "P",
            "processors",
            "So many steps at most in a round where the order is greedy: as many as can be taken where nothing is said",
        ),
        workers_option(alloc),
        log_option(alloc),
        arg_option(alloc),
        json_flag(alloc),
    ];
    on_file(alloc, "run", about, Vec::from_array(alloc, options)?)
}

/// The command `outcomes`.
fn outcomes_line<'a>(alloc: Global) -> Result<clap::Command<'a>, AllocError>
    ensures shape { IfOk result (λ c. app_of c ≡ outcomes_line) }
    ensures local { IfOk result HasNoGlobals }
{
    let about = "Prints all that a program can print.";
    let options = [
        module_flag(alloc),
        limit_option(alloc),
        count_option(
            alloc,
            "K",
            "pick",
            "The outcome whose log is written, counted from 1: the first where nothing is said",
        ),
        log_option(alloc),
        flag(
            alloc,
            "sets",
            "Tells outcomes with the same numbers, in whatever order, as one",
        ),
        flag(
            alloc,
            "count",
            "Tells how many outcomes there are, and none of them",
        ),
        option(
            alloc,
            "FILE2",
            "expect",
            "A list of outcomes as this command prints them: tells the first outcome that isn't in it",
        ),
        arg_option(alloc),
        json_flag(alloc),
    ];
    on_file(alloc, "outcomes", about, Vec::from_array(alloc, options)?)
}

/// The command `races`.
fn races_line<'a>(alloc: Global) -> Result<clap::Command<'a>, AllocError>
    ensures shape { IfOk result (λ c. app_of c ≡ races_line) }
    ensures local { IfOk result HasNoGlobals }
{
    let about = "Prints which steps of a run race with one another.";
    let log = log_choice(
        alloc,
        "The log of a run of FILE: the run in the order first where nothing is said",
    );
    let options = [module_flag(alloc), log, arg_option(alloc), json_flag(alloc)];
    on_file(alloc, "races", about, Vec::from_array(alloc, options)?)
}

/// The command `replay`.
fn replay_line<'a>(alloc: Global) -> Result<clap::Command<'a>, AllocError>
    ensures shape { IfOk result (λ c. app_of c ≡ on_run (codes "replay")) }
    ensures local { IfOk result HasNoGlobals }
{
    let about = "Runs a program again as a log has it, and prints what it prints.";
    let options = [module_flag(alloc), log_place(alloc), arg_option(alloc)];
    on_file(alloc, "replay", about, Vec::from_array(alloc, options)?)
}

/// The command `chart`.
fn chart_line<'a>(alloc: Global) -> Result<clap::Command<'a>, AllocError>
    ensures shape { IfOk result (λ c. app_of c ≡ on_run (codes "chart")) }
    ensures local { IfOk result HasNoGlobals }
{
    let about = "Prints when the clocks advanced in the run that a log has.";
    let options = [module_flag(alloc), log_place(alloc), arg_option(alloc)];
    on_file(alloc, "chart", about, Vec::from_array(alloc, options)?)
}

/// The command `events`.
fn events_line<'a>(alloc: Global) -> Result<clap::Command<'a>, AllocError>
    ensures shape { IfOk result (λ c. app_of c ≡ events_line) }
    ensures local { IfOk result HasNoGlobals }
{
    let about = "Prints what others see of each step of the run that a log has.";
    let json = flag(
        alloc,
        "json",
        "Says it as JSON, a value on a line for each step",
    );
    let options = [
        module_flag(alloc),
        log_place(alloc),
        arg_option(alloc),
        json,
    ];
    on_file(alloc, "events", about, Vec::from_array(alloc, options)?)
}

/// The command `lanes`.
fn lanes_line<'a>(alloc: Global) -> Result<clap::Command<'a>, AllocError>
    ensures shape { IfOk result (λ c. app_of c ≡ lanes_line) }
    ensures local { IfOk result HasNoGlobals }
{
    let about = "Draws the run that a log has, with a lane for each activity.";
    let options = [
        module_flag(alloc),
        log_place(alloc),
        arg_option(alloc),
        from_option(alloc),
        to_option(alloc),
        flag(alloc, "svg", "Draws it as an SVG picture"),
        flag(
            alloc,
            "path",
            "Draws the round of each step, and a critical path",
        ),
        flag(
            alloc,
            "rounds",
            "Draws a row for each round, in place of each step",
        ),
    ];
    on_file(alloc, "lanes", about, Vec::from_array(alloc, options)?)
}

/// The command `page`.
fn page_line<'a>(alloc: Global) -> Result<clap::Command<'a>, AllocError>
    ensures shape { IfOk result (λ c. app_of c ≡ page_line) }
    ensures local { IfOk result HasNoGlobals }
{
    let about =
        "Makes an HTML page of the run that a log has, or of one with an outcome, to go through it step by step.";
    let log = log_choice(alloc, "The log of a run of FILE, where no outcome is given");
    let options = [
        module_flag(alloc),
        log,
        outcome_option(alloc),
        limit_option(alloc),
        arg_option(alloc),
        from_option(alloc),
        to_option(alloc),
        flag(
            alloc,
            "path",
            "Shows the round of each step, and a critical path",
        ),
    ];
    on_file(alloc, "page", about, Vec::from_array(alloc, options)?)
}

/// The command `where`.
fn where_line<'a>(alloc: Global) -> Result<clap::Command<'a>, AllocError>
    ensures shape { IfOk result (λ c. app_of c ≡ where_line) }
    ensures local { IfOk result HasNoGlobals }
{
    let about = "Prints where each activity stands behind the steps that a log has.";
    let options = [
        module_flag(alloc),
        log_place(alloc),
        arg_option(alloc),
        at_option(alloc),
        json_flag(alloc),
    ];
    on_file(alloc, "where", about, Vec::from_array(alloc, options)?)
}

/// The command `span`.
fn span_line<'a>(alloc: Global) -> Result<clap::Command<'a>, AllocError>
    ensures shape { IfOk result (λ c. app_of c ≡ span_line) }
    ensures local { IfOk result HasNoGlobals }
{
    let about = "Prints how parallel the run that a log has is, and what takes longest.";
    let options = [
        module_flag(alloc),
        log_place(alloc),
        arg_option(alloc),
        json_flag(alloc),
    ];
    on_file(alloc, "span", about, Vec::from_array(alloc, options)?)
}

/// The command `why`.
fn why_line<'a>(alloc: Global) -> Result<clap::Command<'a>, AllocError>
    ensures shape { IfOk result (λ c. app_of c ≡ why_line) }
    ensures local { IfOk result HasNoGlobals }
{
    let about = "Prints what a step of the run that a log has rests on.";
    let options = [
        module_flag(alloc),
        log_place(alloc),
        step_place(alloc),
        arg_option(alloc),
    ];
    on_file(alloc, "why", about, Vec::from_array(alloc, options)?)
}

/// A command on FILE with further arguments.
fn on_file<'a>(
    alloc: Global,
    name: &'a str,
    about: &'a str,
    further: Vec<Arg<'a>>,
) -> Result<clap::Command<'a>, AllocError>
    requires { AreLocal further.items }
    ensures shape { IfOk result
        (λ c. app_of c ≡ on_file name.entry.now (map rule_of further.entry.items)) }
    ensures local { IfOk result HasNoGlobals }
{
    let file = place(alloc, "FILE", "The program; - is standard input");
    let command = clap::Command::new(alloc, name).about(about).arg(file)?;
    command.args(further)
}

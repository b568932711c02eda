//! The page of a run with an outcome, without a log in between.

ghost use Rattle.std.specs.Prelude.{◌≡◌, ℕ, List, true, IfOk, IfErr, option_map, string_bytes};
ghost use Rattle.xk_types.specs.World.{AreArguments};
ghost use Rattle.xk_jobs.specs.declared.job.Form.{Form as FormValue};
ghost use Rattle.xk_answers.specs.Results.{IsOutcomePage, IsPageOf, IsPicked, IsTelling, IsText, OutcomePage, none_line, none_told};
ghost use Rattle.xk_program.specs.Origins.{IsFrom};
ghost use Rattle.xk_program.specs.Refusals.{IsNotRun};

use crate::outcome_search::kept_log;
use std::alloc::{AllocError, Global};
use xk_answers::{Done, Tale, page_so_far};
use xk_bounds::Verified;
use xk_log::Log;
use xk_outcomes::{Limit, outcomes_as};
use xk_program::{Fault, Program, Provenance, runnable};
use xk_replay::replay;
use xk_show_events::LegalRun;
use xk_show_lanes::Window;
use xk_types::Entry;

/// The log of the outcome that was picked, if it is there, and how many outcomes are.
#[derive(Drop)]
struct Picked {
    log: Option<Vec<Entry>>,
    count: usize,
    /// Whether they are all.
    complete: bool,
}

/// The page of a run with this outcome of the program with these arguments, counted from 1, or a line where there is no such
/// outcome; if the program is accepted and main takes as many.
pub fn paged(
    alloc: Global,
    window: Window,
    limit: Option<u64>,
    pick: u64,
    file: &str,
    program: Program<'_>,
    arguments: &[i64],
) -> Result<Done, Fault>
    ensures done { (form : FormValue) (bytes logged : List ℕ)
        → IsFrom true form bytes program.entry.from → IfOk result
        (IsText (IsTelling (OutcomePage window limit pick) form file.now bytes
        program.entry.module arguments.now logged)) }
    ensures fault { IfErr result (IsNotRun program.entry.module arguments.now) }
{
    let verified = runnable(alloc, program.module, arguments)?;
    let limit = Limit::of(limit, verified.activities());
    let from = &program.from;
    let tale = outcome_page(alloc, window, limit, pick, file, from, &verified, arguments)?;
    Ok(Done::Told {
        text: tale.text,
        whole: tale.whole,
    })
}

/// The same of an accepted module.
fn outcome_page(
    alloc: Global,
    window: Window,
    limit: Limit,
    pick: u64,
    file: &str,
    from: &Provenance<'_>,
    verified: &Verified,
    arguments: &[i64],
) -> Result<Tale, AllocError>
    requires { AreArguments verified.now arguments.now }
    ensures { (form : FormValue) (bytes : List ℕ) → IsFrom true form bytes from.now
        → IfOk result (λ tale. IsOutcomePage window limit pick form file.now bytes
        verified.now arguments.now (tale.text.items, tale.whole)) }
{
    let picked = pick_outcome(alloc, limit, pick, verified, arguments)?;
    match picked.log {
        Some(log) => page_by_log(alloc, window, file, from, verified, arguments, log),
        None => none_told(alloc, pick, picked.count, picked.complete),
    }
}

/// The log of the outcome of this number. All others are let go of, so that the page has their memory.
fn pick_outcome(
    alloc: Global,
    limit: Limit,
    pick: u64,
    verified: &Verified,
    arguments: &[i64],
) -> Result<Picked, AllocError>
    requires { AreArguments verified.now arguments.now }
    ensures { IfOk result (λ p. IsPicked verified.now arguments.now limit pick p.count p.complete
        (option_map (λ es. es.items) p.log)) }
{
    let found = outcomes_as(alloc, false, verified, arguments, limit)?;
    let log = kept_log(alloc, true, pick as usize, &found.list)?;
    Ok(Picked {
        log,
        count: found.list.len(),
        complete: found.complete,
    })
}

/// The page of the run by this log, which is that of a whole one.
fn page_by_log(
    alloc: Global,
    window: Window,
    file: &str,
    from: &Provenance<'_>,
    verified: &Verified,
    arguments: &[i64],
    log: Vec<Entry>,
) -> Result<Tale, AllocError>
    requires { AreArguments verified.now arguments.now }
    ensures { (form : FormValue) (bytes : List ℕ) → IsFrom true form bytes from.now
        → IfOk result (λ tale. IsPageOf window form file.now bytes
        verified.now arguments.now log.items (tale.text.items, tale.whole)) }
{
    match replay(alloc, verified, arguments, Log::new(log)) {
        Ok(ended) => page_so_far(alloc, file, from, &LegalRun::of(&ended), window),
        Err(_) => Err(AllocError),
    }
}

/// The line where there is no outcome of this number among so many: `no outcome 5: outcomes 2 complete`, or
/// `no outcome 5: outcomes 2 and perhaps more`.
fn none_told(alloc: Global, pick: u64, count: usize, complete: bool) -> Result<Tale, AllocError>
    ensures { IfOk result
        (λ tale. (tale.text.items, tale.whole) ≡ none_told pick count complete) }
{
    let line = none_line(alloc, pick, count, complete)?;
    Ok(Tale {
        text: line.into_bytes(),
        whole: false,
    })
}

/// That line.
fn none_line(alloc: Global, pick: u64, count: usize, complete: bool) -> Result<String, AllocError>
    ensures { IfOk result (λ text. string_bytes text ≡ none_line pick count complete) }
{
    if complete {
        return format!(in alloc; "no outcome {pick}: outcomes {count} complete\n");
    }
    format!(in alloc; "no outcome {pick}: outcomes {count} and perhaps more\n")
}

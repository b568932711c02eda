//! How things stand behind a log, or behind so many of its steps. It need not be that of a whole run.

ghost use Rattle.std.specs.Prelude.{◌≡◌, ◌≢◌, ℕ, List, map, true, Some, IfOk, IfErr, OnOk};
ghost use Rattle.xk_log.specs.SomeBytes.{OfSome};
ghost use Rattle.xk_types.specs.Acceptance.{IsAccepted};
ghost use Rattle.xk_types.specs.World.{AreArguments};
ghost use Rattle.xk_jobs.specs.declared.job.Form.{Form as FormValue};
ghost use Rattle.xk_jobs.specs.Status.{status_program};
ghost use Rattle.xk_answers.specs.Results.{IsTelling, IsText, Where};
ghost use Rattle.xk_answers.specs.Refusals.{AgainstReading, AgainstText};
ghost use Rattle.xk_program.specs.Origins.{IsFrom};
ghost use Rattle.xk_answers.specs.Explanation.{lines_told, stand_told, told_to, value_of, value_told, values_told, where_told};
ghost use Rattle.xk_program.specs.Lines.{status_of};
ghost use Rattle.xk_where_json.specs.Standings.{is_all_told};

use crate::job_result::Done;
use crate::picture::Tale;
use std::alloc::{AllocError, Global};
use xk_beginnings::{end_before, first_steps, lacking};
use xk_bounds::Verified;
use xk_log::read_log;
use xk_messages::log_end_line;
use xk_program::{Fault, Program, Provenance, runnable};
use xk_show_where::{Whereabouts, module_where, named_where};
use xk_types::{Entry, Source};
use xk_unit_origins::UnitOrigins;
use xk_where_json::{module_where_value, source_where_value};

/// How things stand behind the steps of the log, or behind so many, as far as they can be taken, of the program with these
/// arguments, as a text or as a JSON value, if it is accepted and main takes as many. Where it isn't run, no log is read.
pub fn stood<L: Source>(
    alloc: Global,
    json: bool,
    program: Program<'_>,
    at: Option<u64>,
    arguments: &[i64],
    log_in: &mut L,
) -> Result<Done, Fault>
    ensures done { (form : FormValue) (file bytes : List ℕ)
        → IsFrom true form bytes program.entry.from
        → IfOk result (λ d. OfSome (L.remaining log_in.old) (λ logged. IsText
        (IsTelling (Where json at) form file bytes program.entry.module arguments.now logged) d)) }
    ensures no_fault { OnOk result (L.fault_count log_in.new ≡ L.fault_count log_in.old) }
    ensures fault { IfErr result (AgainstText program.entry.module arguments.now
        (L.remaining log_in.old) (L.fault_count log_in.old) (L.fault_count log_in.new)) }
    ensures refused { IfErr result
        (λ f. status_of f ≡ status_program → log_in.new ≡ log_in.old) }
{
    let verified = runnable(alloc, program.module, arguments)?;
    stood_by(alloc, json, &program.from, &verified, at, arguments, log_in)
}

/// The same of an accepted module.
#[tactic(auto, using(crate::proofs::LogLemmas::reading_stands))]
fn stood_by<L: Source>(
    alloc: Global,
    json: bool,
    from: &Provenance<'_>,
    verified: &Verified,
    at: Option<u64>,
    arguments: &[i64],
    log_in: &mut L,
) -> Result<Done, Fault>
    requires accepted { IsAccepted verified.now }
    requires taken { AreArguments verified.now arguments.now }
    ensures done { (form : FormValue) (file bytes : List ℕ) → IsFrom true form bytes from.now
        → IfOk result (λ d. OfSome (L.remaining log_in.old) (λ logged. IsText
        (IsTelling (Where json at) form file bytes verified.now arguments.now logged) d)) }
    ensures no_fault { OnOk result (L.fault_count log_in.new ≡ L.fault_count log_in.old) }
    ensures fault { IfErr result (AgainstReading (L.remaining log_in.old)
        (L.fault_count log_in.old) (L.fault_count log_in.new)) }
    ensures of_log { IfErr result (λ f. status_of f ≢ status_program) }
{
    let log = read_log(alloc, log_in)?;
    let tale = whereabouts(alloc, json, from, verified, at, arguments, log.entries())?;
    Ok(Done::Told {
        text: tale.text,
        whole: tale.whole,
    })
}

/// The same by the entries of the log.
fn whereabouts(
    alloc: Global,
    json: bool,
    from: &Provenance<'_>,
    verified: &Verified,
    at: Option<u64>,
    arguments: &[i64],
    log: &[Entry],
) -> Result<Tale, AllocError>
    requires { AreArguments verified.now arguments.now }
    ensures { IfOk result (λ tale. (tale.text.items, tale.whole)
        ≡ where_told json from.now.text.now verified.now arguments.now at log.now
        (map (λ x. x.now) from.now.shared.items) from.now.origins) }
{
    if json {
        return values_behind(alloc, from, verified, at, arguments, log);
    }
    lines_behind(alloc, from, verified, at, arguments, log)
}

/// The same as a text.
fn lines_behind(
    alloc: Global,
    from: &Provenance<'_>,
    verified: &Verified,
    at: Option<u64>,
    arguments: &[i64],
    log: &[Entry],
) -> Result<Tale, AllocError>
    requires { AreArguments verified.now arguments.now }
    ensures { IfOk result (λ tale. (tale.text.items, tale.whole)
        ≡ lines_told from.now.text.now verified.now arguments.now at log.now
        (map (λ x. x.now) from.now.shared.items) from.now.origins) }
{
    match at {
        Some(step) => {
            let beginning = first_steps(alloc, log, step)?;
            let tale = stand(alloc, from, verified, arguments, &beginning)?;
            told_to(alloc, step, log, tale)
        }
        None => stand(alloc, from, verified, arguments, log),
    }
}

/// What is told up to this step, with a line where the log ends before it.
fn told_to(alloc: Global, step: u64, log: &[Entry], tale: Tale) -> Result<Tale, AllocError>
    ensures { IfOk result (λ told. (told.text.items, told.whole)
        ≡ told_to step log.now (tale.text.items, tale.whole)) }
{
    let lacking = lacking(log, step);
    if lacking == 0 {
        return Ok(tale);
    }
    let line = log_end_line(alloc, step - lacking)?;
    let mut text = tale.text;
    text.extend_from_slice(line.as_bytes())?;
    Ok(Tale { text, whole: false })
}

/// How things stand behind all steps of the entries.
fn stand(
    alloc: Global,
    from: &Provenance<'_>,
    verified: &Verified,
    arguments: &[i64],
    log: &[Entry],
) -> Result<Tale, AllocError>
    requires { AreArguments verified.now arguments.now }
    ensures { IfOk result (λ tale. (tale.text.items, tale.whole)
        ≡ stand_told from.now.text.now verified.now arguments.now log.now
        (map (λ x. x.now) from.now.shared.items) from.now.origins) }
{
    match &from.origins {
        Some(origins) => stand_by_names(alloc, from, origins.units(), verified, arguments, log),
        None => {
            let found = module_where(alloc, verified, arguments, log)?;
            Ok(Tale {
                text: found.text,
                whole: found.whole,
            })
        }
    }
}

/// The same of a source text whose units have these origins.
fn stand_by_names(
    alloc: Global,
    from: &Provenance<'_>,
    units: &[UnitOrigins<'_>],
    verified: &Verified,
    arguments: &[i64],
    log: &[Entry],
) -> Result<Tale, AllocError>
    requires { AreArguments verified.now arguments.now }
    ensures { IfOk result (λ tale. (tale.text.items, tale.whole)
        ≡ stand_told from.now.text.now verified.now arguments.now log.now
        (map (λ x. x.now) from.now.shared.items) (Some units.now)) }
{
    let shared = &from.shared;
    let found = named_where(alloc, from.text, units, shared, verified, arguments, log)?;
    Ok(Tale {
        text: found.text,
        whole: found.whole,
    })
}

/// The same as a JSON value.
fn values_behind(
    alloc: Global,
    from: &Provenance<'_>,
    verified: &Verified,
    at: Option<u64>,
    arguments: &[i64],
    log: &[Entry],
) -> Result<Tale, AllocError>
    requires { AreArguments verified.now arguments.now }
    ensures { IfOk result (λ tale. (tale.text.items, tale.whole)
        ≡ values_told from.now.text.now verified.now arguments.now at log.now
        (map (λ x. x.now) from.now.shared.items) from.now.origins) }
{
    match at {
        Some(step) => {
            let beginning = first_steps(alloc, log, step)?;
            let ends = end_before(log, step);
            value(alloc, from, verified, arguments, &beginning, ends)
        }
        None => value(alloc, from, verified, arguments, log, None),
    }
}

/// The value behind all steps of the entries, where the log that they are of ends at this step, if it does.
fn value(
    alloc: Global,
    from: &Provenance<'_>,
    verified: &Verified,
    arguments: &[i64],
    log: &[Entry],
    ends: Option<u64>,
) -> Result<Tale, AllocError>
    requires { AreArguments verified.now arguments.now }
    ensures { IfOk result (λ tale. (tale.text.items, tale.whole)
        ≡ value_told from.now.text.now verified.now arguments.now log.now ends
        (map (λ x. x.now) from.now.shared.items) from.now.origins) }
{
    let found = value_by(alloc, from, verified, arguments, log, ends)?;
    Ok(Tale {
        text: found.text,
        whole: found.whole,
    })
}

/// The same; of a source text by names.
fn value_by(
    alloc: Global,
    from: &Provenance<'_>,
    verified: &Verified,
    arguments: &[i64],
    log: &[Entry],
    ends: Option<u64>,
) -> Result<Whereabouts, AllocError>
    requires { AreArguments verified.now arguments.now }
    ensures text { IfOk result (λ r. r.text.items ≡ value_of from.now.text.now
        (map (λ x. x.now) from.now.shared.items) verified.now arguments.now log.now ends
        from.now.origins) }
    ensures whole { IfOk result (λ r. r.whole
        ≡ is_all_told verified.now arguments.now log.now ends) }
{
    match &from.origins {
        Some(origins) => {
            let units = origins.units();
            let shared = &from.shared;
            source_where_value(
                alloc, from.text, units, shared, verified, arguments, log, ends,
            )
        }
        None => module_where_value(alloc, verified, arguments, log, ends),
    }
}

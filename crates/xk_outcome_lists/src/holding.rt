//! Outcomes are held against a list.

ghost use Rattle.std.specs.Prelude.{◌≡◌, ℕ, ◌<◌, ◌++◌, ◌+◌, length, false, true, map, slice_get, IfOk, IfSome, IfNone, Some, codes, decimal, string_bytes, List, None, IfErr};
ghost use Rattle.xk_outcomes.specs.declared.listing.Outcome.{Outcome as AnOutcome};
ghost use Rattle.xk_types.specs.World.{AreArguments};
ghost use Rattle.xk_outcome_lists.specs.Expected.{AreExpected, AreHeld, AreTold, IsFirstUntold, IsStrayIn};
ghost use Rattle.xk_outcome_lists.specs.Expected.{IsTold, stray_line, told_by, verdict_of};
ghost use Rattle.xk_io.specs.Row.{numbers_text};

use crate::expected::Expected;
use crate::reading::{ListFault, read_expected};
use crate::text::{last_line, outcome_line};
use std::alloc::{AllocError, Global};
use xk_bounds::Verified;
use xk_io::numbers_text;
use xk_outcomes::{Limit, Outcome, outcomes_as};

/// What the outcomes that were found say of a list.
#[derive(Clone, Copy, Debug)]
pub enum Verdict {
    /// They are all, and each is in it.
    Complete,
    /// Each is in it, and there may be others.
    Undecided,
    /// One isn't in it.
    Refuted,
}

impl Verdict {
    /// Where each is in the list, and these are all or not.
    fn of(complete: bool) -> Verdict
        ensures { result ≡ verdict_of complete }
    {
        if complete {
            Verdict::Complete
        } else {
            Verdict::Undecided
        }
    }
}

/// What is said of outcomes that are held against a list.
#[derive(Debug, Drop)]
pub struct Held {
    /// The line of the first that isn't in it, or the last line of outcomes.
    pub text: Vec<u8>,
    /// What they say of the list.
    pub verdict: Verdict,
}

/// Whether the numbers of an outcome are told.
fn is_told(alloc: Global, expected: &Expected<'_>, x: &Outcome) -> Result<bool, AllocError>
    ensures yes { IfOk result (λ told. told ≡ true → IsTold expected.now x.now.numbers.items) }
    ensures no { IfOk result (λ told. told ≡ false
        → IsTold expected.now x.now.numbers.items → ⊥) }
{
    let text = numbers_text(alloc, &x.numbers)?;
    let found = expected.has(text.as_str().as_bytes());
    Ok(found)
}

/// The place of the first outcome whose numbers aren't told.
fn first_untold(
    alloc: Global,
    expected: &Expected<'_>,
    list: &[Outcome],
) -> Result<Option<usize>, AllocError>
    ensures found { IfOk result (λ o. IfSome o (λ place.
        (x : AnOutcome) × IsFirstUntold expected.now list.now place x)) }
    ensures none { IfOk result (λ o. IfNone o (AreTold expected.now list.now (length list.now))) }
{
    for (place, x) in list.iter().enumerate() {
        let is_in = is_told(alloc, expected, x)?;
        if !is_in {
            return Ok(Some(place));
        }
    }
    Ok(None)
}

/// Holds outcomes against a list: the line of the first that isn't in it, and else their last line.
fn hold(
    alloc: Global,
    list: &[Outcome],
    complete: bool,
    expected: &Expected<'_>,
) -> Result<Held, AllocError>
    ensures { IfOk result (λ r. AreHeld expected.now list.now complete r.text.items r.verdict) }
{
    match first_untold(alloc, expected, list)? {
        Some(place) => {
            let line = outcome_line(alloc, place + 1, &list[place])?;
            Ok(Held {
                text: line.into_bytes(),
                verdict: Verdict::Refuted,
            })
        }
        None => {
            let line = last_line(alloc, list.len(), complete)?;
            Ok(Held {
                text: line.into_bytes(),
                verdict: Verdict::of(complete),
            })
        }
    }
}

/// What a module can print that is given these arguments, as lists of numbers or without their order, is held against the list in these bytes.
/// They are looked for up to the limit. Err where a line may not stand in a list, with the number of the first such line, or where memory was refused.
pub fn expected_outcomes(
    alloc: Global,
    sets: bool,
    verified: &Verified,
    arguments: &[i64],
    limit: Limit,
    list: &[u8],
) -> Result<Held, ListFault>
    requires { AreArguments verified.now arguments.now }
    ensures held { IfOk result (λ r.
        AreExpected verified.now arguments.now sets limit list.now r.text.items r.verdict) }
    ensures stray { IfErr result (IsStrayIn list.now) }
{
    let expected = read_expected(alloc, list)?;
    match held_by(alloc, sets, verified, arguments, limit, &expected) {
        Ok(held) => Ok(held),
        Err(_) => Err(ListFault::OutOfMemory),
    }
}

/// The same with what the list tells. An outcome that isn't in it is mostly found early, so that one looks up to a small limit first.
fn held_by(
    alloc: Global,
    sets: bool,
    verified: &Verified,
    arguments: &[i64],
    limit: Limit,
    expected: &Expected<'_>,
) -> Result<Held, AllocError>
    requires { AreArguments verified.now arguments.now }
    ensures { (bytes : List ℕ) → stray_line bytes ≡ None → expected.now ≡ told_by bytes
        → IfOk result (λ r.
        AreExpected verified.now arguments.now sets limit bytes r.text.items r.verdict) }
{
    let first = held_within(alloc, sets, verified, arguments, limit.early(), expected)?;
    match first.verdict {
        Verdict::Complete => Ok(first),
        Verdict::Refuted => Ok(first),
        Verdict::Undecided => {
            let held = held_within(alloc, sets, verified, arguments, limit, expected)?;
            Ok(held)
        }
    }
}

/// The same of the outcomes that are found up to the limit.
fn held_within(
    alloc: Global,
    sets: bool,
    verified: &Verified,
    arguments: &[i64],
    limit: Limit,
    expected: &Expected<'_>,
) -> Result<Held, AllocError>
    requires { AreArguments verified.now arguments.now }
    ensures { (bytes : List ℕ) → stray_line bytes ≡ None → expected.now ≡ told_by bytes
        → IfOk result (λ r.
        AreExpected verified.now arguments.now sets limit bytes r.text.items r.verdict) }
{
    let found = outcomes_as(alloc, sets, verified, arguments, limit)?;
    let held = hold(alloc, &found.list, found.complete, expected)?;
    Ok(held)
}

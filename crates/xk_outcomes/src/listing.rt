//! What was found is listed, each list of numbers once, as it is told in an order.

ghost use Rattle.std.specs.Prelude.{◌≡◌, ◌≤◌, ◌<◌, ◌+◌, true, false, length, max, IfOk, List};
ghost use Rattle.xk_types.specs.Schedule.{all_ended};
ghost use Rattle.xk_types.specs.Logs.{schedule_of, one_step_of};
ghost use Rattle.xk_core.specs.Core.{CoreValue};
ghost use Rattle.xk_outcomes.specs.declared.listing.Outcome.{Outcome as AnOutcome};
ghost use Rattle.xk_outcomes.specs.Outcomes.{AreDistinct, IsListed};
ghost use Rattle.xk_outcomes.specs.Listing.{AreNoted, AreOf, IsOf, KeepsListed};
ghost use Rattle.xk_outcomes.specs.Numbering.{IsAddedAs};
ghost use Rattle.xk_outcomes.specs.Rising.{ordered};
ghost use Rattle.xk_outcomes.specs.Search.{IsFoundBy};

use crate::entries::Entries;
use crate::listed::Listed;
use crate::order::{Order, ordered};
use crate::run::Run;
use std::alloc::{AllocError, Global};
use xk_types::Entry;

/// What a run prints by which all have ended, and a log of such a run.
#[derive(Debug, Drop)]
pub struct Outcome {
    /// What is printed, in the order in which it is told.
    pub numbers: Vec<i64>,
    /// Who takes a step after whom.
    pub log: Vec<Entry>,
}

/// What a program can print.
#[derive(Debug, Drop)]
pub struct Outcomes {
    /// What it can print, each list of numbers once.
    pub list: Vec<Outcome>,
    /// Whether that is all.
    pub complete: bool,
    /// How many worlds were kept to find it: all at rest, no two of them alike, and one at most in which all have ended; or,
    /// where the order of numbers doesn't count, so among those that printed the same numbers.
    pub entries: usize,
}

/// The log of a schedule, with an entry for each step.
fn log_of(alloc: Global, schedule: &[u32]) -> Result<Vec<Entry>, AllocError>
    ensures { IfOk result (λ log. schedule_of log.items ≡ schedule.now) }
{
    let mut log = Vec::with_capacity(alloc, schedule.len())?;
    for act in schedule {
        log.push(Entry {
            act: *act,
            steps: 1,
        })?;
    }
    Ok(log)
}

/// What is to be listed of a run.
fn outcome_of(alloc: Global, order: Order, run: &Run<'_>) -> Result<Outcome, AllocError>
    requires { all_ended run.now.to.core.world ≡ true }
    ensures { IfOk result (IsOf order run.now.schedule.items run.now.to) }
{
    let numbers = ordered(alloc, order, &run.to.printed)?;
    let log = log_of(alloc, &run.schedule)?;
    Ok(Outcome { numbers, log })
}

/// Lists what a run printed, if all have ended where it leads and it is listed already or fewer are than the limit says. Whether it is
/// listed then, or isn't to be.
pub(crate) fn note(
    alloc: Global,
    order: Order,
    list: &mut Listed,
    run: &Run<'_>,
    limit: usize,
) -> Result<bool, AllocError>
    ensures distinct { AreDistinct list.old → AreDistinct list.new }
    ensures kept { KeepsListed list.old list.new }
    ensures listed { IfOk result (λ noted. noted ≡ true → all_ended run.now.to.core.world ≡ true
        → IsListed list.new (ordered order run.now.to.printed)) }
    ensures full { IfOk result (λ noted. noted ≡ false → limit ≤ length list.new) }
    ensures of { (start : CoreValue) (old : List AnOutcome)
        → IsFoundBy start run.now.schedule.items run.now.to
        → AreOf order start old list.old → AreOf order start old list.new }
    ensures most { length list.new ≤ max limit (length list.old) }
    ensures each { IsAddedAs (ordered order run.now.to.printed) list.old list.new }
{
    if run.to.core.ended() {
        let new = outcome_of(alloc, order, run)?;
        list.put_within(new, limit)
    } else {
        Ok(true)
    }
}

/// Lists what the one of a number printed, as `note` does.
fn note_at(
    alloc: Global,
    order: Order,
    list: &mut Listed,
    all: &Entries<'_>,
    number: usize,
    limit: usize,
) -> Result<bool, AllocError>
    requires { number < length all.now.all }
    ensures distinct { AreDistinct list.old → AreDistinct list.new }
    ensures noted { IfOk result (λ noted. noted ≡ true
        → AreNoted order all.now.all number list.old
        → AreNoted order all.now.all (number + 1) list.new) }
    ensures full { IfOk result (λ noted. noted ≡ false → limit ≤ length list.new) }
    ensures kept { KeepsListed list.old list.new }
    ensures of { (old : List AnOutcome) → AreOf order all.now.start old list.old
        → AreOf order all.now.start old list.new }
    ensures most { length list.new ≤ max limit (length list.old) }
{
    if !all.is_over(number) {
        return Ok(true);
    }
    let run = all.run_to(alloc, number)?;
    note(alloc, order, list, &run, limit)
}

/// Lists what those print that were found and in which all have ended, each list of numbers once, behind what is listed, until one
/// isn't listed and as many are as the limit says. Whether all are.
pub fn list_outcomes(
    alloc: Global,
    order: Order,
    list: &mut Listed,
    all: &Entries<'_>,
    limit: usize,
) -> Result<bool, AllocError>
    ensures of { AreOf order all.now.start list.old list.new }
    ensures kept { KeepsListed list.old list.new }
    ensures distinct { AreDistinct list.old → AreDistinct list.new }
    ensures noted { IfOk result (λ complete. complete ≡ true
        → AreNoted order all.now.all (length all.now.all) list.new) }
    ensures limit { IfOk result (λ complete. complete ≡ false → limit ≤ length list.new) }
    // No more are added than the limit says.
    ensures most { length list.new ≤ max limit (length list.old) }
{
    for number in 0..all.len() {
        let noted = note_at(alloc, order, list, all, number, limit)?;
        if !noted {
            return Ok(false);
        }
    }
    Ok(true)
}

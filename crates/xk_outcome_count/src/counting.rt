//! How many outcomes a program has.

ghost use Rattle.std.specs.Prelude.{◌≡◌, ◌⊎◌, ◌≤◌, true, false, length, slice_get, IfOk, Some};
ghost use Rattle.xk_types.specs.World.{AreArguments};
ghost use Rattle.xk_core.specs.Core.{CoreValue};
ghost use Rattle.xk_readings.specs.Beginnings.{HasMoreSets};
ghost use Rattle.xk_readings.specs.Counts.{AreAsMany as AreReadAsMany, AreAtLeast as AreReadAtLeast};
ghost use Rattle.xk_readings.specs.Counts.{most_counted};
ghost use Rattle.xk_readings.specs.Graphs.{graph};
ghost use Rattle.xk_outcomes.specs.Alikeness.{counted};
ghost use Rattle.xk_outcomes.specs.Found.{first_found};
ghost use Rattle.xk_outcomes.specs.Links.{AreLinked, ends};
ghost use Rattle.xk_outcomes.specs.Listing.{ArePlayed};
ghost use Rattle.xk_outcomes.specs.LoneOutcomes.{IsOneOfManyAs};
ghost use Rattle.xk_outcome_count.specs.Counts.{AreAsMany, AreAtLeast, GoesAsFar, IsCutOff};

use std::alloc::{AllocError, Global};
use xk_bounds::Verified;
use xk_outcomes::{
    Explored, Limit, Order, Outcomes, explored_in, listed_in, lone_outcome, outcome_sets,
};
use xk_readings::{HowMany, how_many};

/// How many outcomes a program has.
#[derive(Clone, Copy, Debug, PartialEq, Eq)]
pub struct Counted {
    /// So many, or 2^127, the most that is counted.
    pub count: u128,
    /// Whether there are no more.
    pub complete: bool,
}

/// Counts the lists of numbers that the runs of a module print by which all have ended, in whichever order its activities
/// take their steps; or, where sets are counted, such lists without their order. The answer says whether there are no more;
/// there may be where a limit was met. Err where memory was refused.
pub fn count_outcomes(
    alloc: Global,
    sets: bool,
    verified: &Verified,
    arguments: &[i64],
    limit: Limit,
) -> Result<Counted, AllocError>
    requires { AreArguments verified.now arguments.now }
    ensures least { IfOk result (λ r. AreAtLeast sets verified.now arguments.now r.count) }
    ensures exact { IfOk result
        (λ r. r.complete ≡ true → AreAsMany sets verified.now arguments.now r.count) }
    // As for `outcomes`.
    ensures lone { IfOk result (λ r. r.complete ≡ false
        → IsOneOfManyAs sets verified.now arguments.now) }
    // Where it isn't complete, neither would a list be: that is met which ends it, and it is no longer.
    ensures far { IfOk result (λ r. r.complete ≡ false
        → GoesAsFar sets verified.now arguments.now limit r.count) }
    // And a count of lists isn't where only a list would be too long.
    ensures cut { IfOk result (λ r. r.complete ≡ false → sets ≡ false
        → IsCutOff verified.now arguments.now limit.entries r.count) }
{
    if sets {
        return count_sets(alloc, verified, arguments, limit);
    }
    count_lists(alloc, verified, arguments, limit)
}

/// The same of sets, which are listed.
fn count_sets(
    alloc: Global,
    verified: &Verified,
    arguments: &[i64],
    limit: Limit,
) -> Result<Counted, AllocError>
    requires { AreArguments verified.now arguments.now }
    ensures least { IfOk result (λ r. AreAtLeast true verified.now arguments.now r.count) }
    ensures exact { IfOk result
        (λ r. r.complete ≡ true → AreAsMany true verified.now arguments.now r.count) }
    ensures lone { IfOk result (λ r. r.complete ≡ false
        → IsOneOfManyAs true verified.now arguments.now) }
    ensures far { IfOk result (λ r. r.complete ≡ false
        → GoesAsFar true verified.now arguments.now limit r.count) }
{
    let found = outcome_sets(alloc, verified, arguments, limit)?;
    Ok(count_of(&found, 0))
}

/// The same of lists of numbers.
fn count_lists(
    alloc: Global,
    verified: &Verified,
    arguments: &[i64],
    limit: Limit,
) -> Result<Counted, AllocError>
    requires { AreArguments verified.now arguments.now }
    ensures least { IfOk result (λ r. AreAtLeast false verified.now arguments.now r.count) }
    ensures exact { IfOk result
        (λ r. r.complete ≡ true → AreAsMany false verified.now arguments.now r.count) }
    ensures lone { IfOk result (λ r. r.complete ≡ false
        → IsOneOfManyAs false verified.now arguments.now) }
    ensures far { IfOk result (λ r. r.complete ≡ false
        → GoesAsFar false verified.now arguments.now limit r.count) }
    ensures cut { IfOk result (λ r. r.complete ≡ false
        → IsCutOff verified.now arguments.now limit.entries r.count) }
{
    match lone_outcome(alloc, Order::Printed, verified, arguments)? {
        Some(_lone) => Ok(Counted {
            count: 1,
            complete: true,
        }),
        None => {
            let found = count_searched(alloc, verified, arguments, limit)?;
            Ok(found)
        }
    }
}

/// The same by a search: along its links, and where that doesn't tell all, in the list that `outcomes` would have.
fn count_searched(
    alloc: Global,
    verified: &Verified,
    arguments: &[i64],
    limit: Limit,
) -> Result<Counted, AllocError>
    requires { AreArguments verified.now arguments.now }
    ensures least { IfOk result (λ r. AreAtLeast false verified.now arguments.now r.count) }
    ensures exact { IfOk result
        (λ r. r.complete ≡ true → AreAsMany false verified.now arguments.now r.count) }
    ensures far { IfOk result (λ r. r.complete ≡ false
        → GoesAsFar false verified.now arguments.now limit r.count) }
    ensures cut { IfOk result (λ r. r.complete ≡ false
        → IsCutOff verified.now arguments.now limit.entries r.count) }
{
    let explored = explored_in(alloc, Order::Printed, verified, arguments, limit.entries)?;
    let read = count_readings(alloc, &explored, limit.entries)?;
    if explored.complete && read.exact {
        return Ok(Counted {
            count: read.count,
            complete: true,
        });
    }
    let found = listed_in(alloc, Order::Printed, verified, arguments, &explored, limit)?;
    Ok(count_of(&found, read.count))
}

/// How many lists of numbers can be read along links. There may be more where one may stand on more sets of worlds than
/// the limit says.
fn count_readings(
    alloc: Global,
    explored: &Explored<'_>,
    limit: usize,
) -> Result<HowMany, AllocError>
    requires begins { slice_get explored.now.found.all 0
        ≡ Some (first_found explored.now.found.start) }
    requires linked { AreLinked (counted explored.now.found.like)
        explored.now.found.start.module_run explored.now.found.ways explored.now.found.all
        explored.now.links.items }
    ensures played { ArePlayed explored.now.found.start explored.now.found.ways
        explored.now.found.all explored.now.links.items }
    ensures least { IfOk result (λ r. AreReadAtLeast
        (graph explored.now.links.items (ends explored.now.found.all)) r.count) }
    ensures exact { IfOk result (λ r. r.exact ≡ true → AreReadAsMany
        (graph explored.now.links.items (ends explored.now.found.all)) r.count) }
    ensures limit { IfOk result (λ r. r.exact ≡ false → HasMoreSets
        (graph explored.now.links.items (ends explored.now.found.all)) limit
        ⊎ (r.count ≡ most_counted)) }
{
    let all = &explored.found;
    let longest = all.longest();
    how_many(alloc, &explored.links, all.ends(), longest, limit)
}

/// As many as are listed; or as were read, where the list isn't complete and these are more.
fn count_of(found: &Outcomes, read: u128) -> Counted
    ensures complete { result.complete ≡ found.now.complete }
    ensures whole { found.now.complete ≡ true → result.count ≡ length found.now.list.items }
    ensures either { (result.count ≡ length found.now.list.items) ⊎ (result.count ≡ read) }
    ensures least { length found.now.list.items ≤ result.count }
    ensures read { found.now.complete ≡ false → read ≤ result.count }
{
    let listed = found.list.len() as u128;
    let count = if found.complete {
        listed
    } else {
        listed.max(read)
    };
    Counted {
        count,
        complete: found.complete,
    }
}

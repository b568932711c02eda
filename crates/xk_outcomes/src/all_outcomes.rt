//! All that a program can print.

ghost use Rattle.std.specs.Prelude.{◌≡◌, ◌<◌, ◌≤◌, ◌⊎◌, ◌∷◌, [], true, false, length, max, IfOk};
ghost use Rattle.xk_types.specs.World.{AreArguments};
ghost use Rattle.xk_core.specs.Core.{opening_core};
ghost use Rattle.xk_outcomes.specs.Explored.{IsExplored};
ghost use Rattle.xk_outcomes.specs.Limits.{HasKept, limit_of};
ghost use Rattle.xk_outcomes.specs.Listing.{AreAllIn, AreShownIn, HasKeptIn};
ghost use Rattle.xk_outcomes.specs.LoneOutcomes.{IsOneOfMany, IsOneOfManyAs};
ghost use Rattle.xk_outcomes.specs.Numbering.{AreNumbered, AreNumberedAs, AreNumberedIn};
ghost use Rattle.xk_outcomes.specs.PlainRuns.{ArePlainListedAs, ArePlainListedIn, plain_runs};
ghost use Rattle.xk_outcomes.specs.Outcomes.{AreAll, AreDistinct, AreShown};
ghost use Rattle.xk_outcomes.specs.Sets.{AreAllAs, AreDistinctAs, AreSetsAll, AreSetsDistinct, AreSetsShown, AreShownAs};

use crate::listed::Listed;
use crate::listing::{Outcome, Outcomes};
use crate::lone_runs::lone_outcome;
use crate::order::Order;
use crate::paths::list_found;
use crate::plain_runs::note_plain;
use crate::search::{Explored, explore};
use std::alloc::{AllocError, Global};
use xk_bounds::Verified;
use xk_core::Core;

/// When a search leaves off.
#[derive(Clone, Copy, Debug)]
pub struct Limit {
    /// As soon as more worlds are kept: so a search that comes to its end with as many is complete. All that one of them
    /// leads to by its ways are kept before the next look.
    pub entries: usize,
    /// As soon as so many lists of numbers are told, and one is found that isn't. They are never more, but what the plain runs print
    /// is told whatever the limit is.
    pub outcomes: usize,
}

/// A search leaves off as soon as more worlds are kept or so many outcomes are told, where nothing is said.
const USUAL_LIMIT: u64 = 40_000;

/// How many ways are tried then at most, as far as can be said before: one that begins with a step of each activity from
/// each world.
const USUAL_TRIES: u64 = 4_000_000;

/// How many worlds are kept, and outcomes told, at most in a first look.
const EARLY_LIMIT: usize = 1_000;

impl Limit {
    /// The limit that was given, for both; or else the usual one of a module with so many activities at most.
    pub fn of(given: Option<u64>, activities: u32) -> Limit
        ensures { result ≡ limit_of given activities }
    {
        let usual = (USUAL_TRIES / (1 + u64::from(activities))).min(USUAL_LIMIT);
        let most = given.unwrap_or(usual) as usize;
        Limit {
            entries: most,
            outcomes: most,
        }
    }

    /// The limit of a first look: this one, or a small one where that is less.
    pub fn early(self) -> Limit
        ensures { result.outcomes ≤ self.outcomes }
    {
        Limit {
            entries: self.entries.min(EARLY_LIMIT),
            outcomes: self.outcomes.min(EARLY_LIMIT),
        }
    }
}

/// Lists what the runs of a module print by which all have ended, in whichever order its activities take their steps: each list of numbers
/// once, with a log of a run that prints it. The answer says whether that is all; it may not be where a limit was met. Err where memory was
/// refused.
pub fn outcomes(
    alloc: Global,
    verified: &Verified,
    arguments: &[i64],
    limit: Limit,
) -> Result<Outcomes, AllocError>
    requires { AreArguments verified.now arguments.now }
    ensures shown { IfOk result (λ r. AreShown verified.now arguments.now r.list.items) }
    ensures distinct { IfOk result (λ r. AreDistinct r.list.items) }
    ensures all { IfOk result (λ r.
        r.complete ≡ true → AreAll verified.now arguments.now r.list.items) }
    // Where it isn't complete, the run in the order `first` doesn't speak for all, unless runs are too long to look.
    ensures lone { IfOk result (λ r. r.complete ≡ false
        → IsOneOfManyAs false verified.now arguments.now) }
    // What each of the plain runs prints is told: where it is complete, by `all`.
    ensures plain { IfOk result (λ r. r.complete ≡ false
        → ArePlainListedAs false verified.now arguments.now r.list.items) }
    // A limit was met where it isn't complete: more are kept, or so many are listed.
    ensures limit { IfOk result (λ r. r.complete ≡ false
        → (limit.entries < r.entries) ⊎ (limit.outcomes ≤ length r.list.items)) }
    // No more are told than the limit says, or than there are plain runs.
    ensures most { IfOk result (λ r. length r.list.items ≤ max limit.outcomes plain_runs) }
    // As many are kept, each at rest: no two of them are alike, and in one at most all have ended. What that one printed
    // is listed, unless as many are as the limit says.
    ensures kept { IfOk result
        (λ r. HasKept verified.now arguments.now false limit.outcomes r.list.items r.entries) }
    // Behind what the plain runs print they come in rising order, and what isn't told comes behind them.
    ensures order { IfOk result
        (λ r. AreNumbered verified.now arguments.now limit.entries r.list.items r.entries) }
{
    let found = told_in(alloc, Order::Printed, verified, arguments, limit)?;
    Ok(found)
}

/// The same where the order of numbers doesn't count: lists with the same numbers, each as often, are one, and it is told rising, with a log
/// of a run that prints it in some order. Err where memory was refused.
pub fn outcome_sets(
    alloc: Global,
    verified: &Verified,
    arguments: &[i64],
    limit: Limit,
) -> Result<Outcomes, AllocError>
    requires { AreArguments verified.now arguments.now }
    ensures shown { IfOk result (λ r. AreSetsShown verified.now arguments.now r.list.items) }
    ensures distinct { IfOk result (λ r. AreSetsDistinct r.list.items) }
    ensures all { IfOk result (λ r.
        r.complete ≡ true → AreSetsAll verified.now arguments.now r.list.items) }
    ensures lone { IfOk result (λ r. r.complete ≡ false
        → IsOneOfManyAs true verified.now arguments.now) }
    ensures plain { IfOk result (λ r. r.complete ≡ false
        → ArePlainListedAs true verified.now arguments.now r.list.items) }
    // As for `outcomes`; but what each world printed in which all have ended is listed.
    ensures limit { IfOk result (λ r. r.complete ≡ false
        → (limit.entries < r.entries) ⊎ (limit.outcomes ≤ length r.list.items)) }
    ensures most { IfOk result (λ r. length r.list.items ≤ max limit.outcomes plain_runs) }
    ensures kept { IfOk result
        (λ r. HasKept verified.now arguments.now true limit.outcomes r.list.items r.entries) }
{
    let found = told_in(alloc, Order::Rising, verified, arguments, limit)?;
    Ok(found)
}

/// The outcomes as lists of numbers, or without their order. Err where memory was refused.
pub fn outcomes_as(
    alloc: Global,
    sets: bool,
    verified: &Verified,
    arguments: &[i64],
    limit: Limit,
) -> Result<Outcomes, AllocError>
    requires { AreArguments verified.now arguments.now }
    ensures shown { IfOk result
        (λ r. AreShownAs sets verified.now arguments.now r.list.items) }
    ensures distinct { IfOk result (λ r. AreDistinctAs sets r.list.items) }
    ensures all { IfOk result
        (λ r. r.complete ≡ true → AreAllAs sets verified.now arguments.now r.list.items) }
    ensures lone { IfOk result (λ r. r.complete ≡ false
        → IsOneOfManyAs sets verified.now arguments.now) }
    ensures plain { IfOk result (λ r. r.complete ≡ false
        → ArePlainListedAs sets verified.now arguments.now r.list.items) }
    // As for `outcomes`.
    ensures limit { IfOk result (λ r. r.complete ≡ false
        → (limit.entries < r.entries) ⊎ (limit.outcomes ≤ length r.list.items)) }
    ensures most { IfOk result (λ r. length r.list.items ≤ max limit.outcomes plain_runs) }
    ensures kept { IfOk result
        (λ r. HasKept verified.now arguments.now sets limit.outcomes r.list.items r.entries) }
    ensures order { IfOk result
        (λ r. AreNumberedAs sets verified.now arguments.now limit.entries r.list.items r.entries) }
{
    if sets {
        return outcome_sets(alloc, verified, arguments, limit);
    }
    outcomes(alloc, verified, arguments, limit)
}

/// What is printed, told in this order: lists that are the same in it are one.
fn told_in(
    alloc: Global,
    order: Order,
    verified: &Verified,
    arguments: &[i64],
    limit: Limit,
) -> Result<Outcomes, AllocError>
    requires { AreArguments verified.now arguments.now }
    ensures shown { IfOk result
        (λ r. AreShownIn order verified.now arguments.now r.list.items) }
    ensures distinct { IfOk result (λ r. AreDistinct r.list.items) }
    ensures all { IfOk result (λ r.
        r.complete ≡ true → AreAllIn order verified.now arguments.now r.list.items) }
    ensures plain { IfOk result (λ r. r.complete ≡ false
        → ArePlainListedIn order verified.now arguments.now r.list.items) }
    ensures lone { IfOk result (λ r. r.complete ≡ false
        → IsOneOfMany order verified.now arguments.now) }
    ensures limit { IfOk result (λ r. r.complete ≡ false
        → (limit.entries < r.entries) ⊎ (limit.outcomes ≤ length r.list.items)) }
    ensures most { IfOk result (λ r. length r.list.items ≤ max limit.outcomes plain_runs) }
    ensures kept { IfOk result (λ r.
        HasKeptIn order verified.now arguments.now limit.outcomes r.list.items r.entries) }
    ensures order { IfOk result (λ r.
        AreNumberedIn order verified.now arguments.now limit.entries r.list.items r.entries) }
{
    match lone_outcome(alloc, order, verified, arguments)? {
        Some(lone) => {
            let found = alone(alloc, lone)?;
            Ok(found)
        }
        None => {
            let explored = explored_in(alloc, order, verified, arguments, limit.entries)?;
            let found = listed_in(alloc, order, verified, arguments, &explored, limit)?;
            Ok(found)
        }
    }
}

/// The one outcome is all.
fn alone(alloc: Global, lone: Outcome) -> Result<Outcomes, AllocError>
    ensures list { IfOk result (λ r. r.list.items ≡ lone ∷ []) }
    ensures complete { IfOk result (λ r. r.complete ≡ true) }
    ensures entries { IfOk result (λ r. r.entries ≡ 0) }
{
    let list = Vec::from_array(alloc, [lone])?;
    Ok(Outcomes {
        list,
        complete: true,
        entries: 0,
    })
}

/// What is found from where the runs of a module begin that is given these arguments, up to this limit. Err where memory was refused.
pub fn explored_in<'m>(
    alloc: Global,
    order: Order,
    verified: &'m Verified,
    arguments: &[i64],
    limit: usize,
) -> Result<Explored<'m>, AllocError>
    requires { AreArguments verified.now arguments.now }
    ensures { IfOk result
        (IsExplored order (opening_core verified.now arguments.now) limit) }
{
    let start = Core::open(alloc, verified, arguments)?;
    let explored = explore(alloc, order, start, limit)?;
    Ok(explored)
}

/// What is printed, told in this order: by the plain runs, and then what was found. Err where memory was refused.
pub fn listed_in(
    alloc: Global,
    order: Order,
    verified: &Verified,
    arguments: &[i64],
    explored: &Explored<'_>,
    limit: Limit,
) -> Result<Outcomes, AllocError>
    requires arguments { AreArguments verified.now arguments.now }
    requires explored { IsExplored order (opening_core verified.now arguments.now)
        limit.entries explored.now }
    ensures shown { IfOk result
        (λ r. AreShownIn order verified.now arguments.now r.list.items) }
    ensures distinct { IfOk result (λ r. AreDistinct r.list.items) }
    ensures all { IfOk result (λ r.
        r.complete ≡ true → AreAllIn order verified.now arguments.now r.list.items) }
    ensures plain { IfOk result (λ r. r.complete ≡ false
        → ArePlainListedIn order verified.now arguments.now r.list.items) }
    ensures limit { IfOk result (λ r. r.complete ≡ false
        → (limit.entries < r.entries) ⊎ (limit.outcomes ≤ length r.list.items)) }
    ensures most { IfOk result (λ r. length r.list.items ≤ max limit.outcomes plain_runs) }
    ensures kept { IfOk result (λ r.
        HasKeptIn order verified.now arguments.now limit.outcomes r.list.items r.entries) }
    ensures order { IfOk result (λ r.
        AreNumberedIn order verified.now arguments.now limit.entries r.list.items r.entries) }
{
    let mut listed = Listed::new(alloc);
    note_plain(alloc, order, &mut listed, verified, arguments)?;
    let all = list_found(alloc, order, &mut listed, explored, limit.outcomes)?;
    let list = listed.into_outcomes(alloc)?;
    Ok(Outcomes {
        list,
        complete: explored.complete && all,
        entries: explored.found.len(),
    })
}

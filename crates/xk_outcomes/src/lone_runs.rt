//! Programs of which one run speaks for all.

ghost use Rattle.std.specs.Prelude.{◌≡◌, true, false, IfNone, IfOk, IfSome};
ghost use Rattle.xk_types.specs.World.{AreArguments};
ghost use Rattle.xk_outcomes.specs.LoneOutcomes.{IsFirstOfMany, IsLone, IsOneOfMany, IsShort, speaks_for_all};

use crate::listing::Outcome;
use crate::order::{Order, ordered};
use crate::plain_runs::ended_by;
use std::alloc::{AllocError, Global};
use xk_bounds::Verified;
use xk_races::reach_of;
use xk_scheduler::{Ended, First};

/// How much it may take at most to look for the races of a run: its steps times its activities, about.
const LONE_WORK: u64 = 10_000_000;

/// Whether no run has too many steps and activities to look for its races.
fn is_short(verified: &Verified) -> bool
    ensures yes { result ≡ true → IsShort verified.now }
    ensures no { result ≡ false → IsShort verified.now → ⊥ }
{
    verified.steps() <= LONE_WORK / (1 + u64::from(verified.activities()))
}

/// Whether the run speaks for all, where its numbers are told in this order.
fn speaks_for_all(alloc: Global, order: Order, ended: &Ended<'_>) -> Result<bool, AllocError>
    ensures { IfOk result (λ speaks. speaks ≡ speaks_for_all order
        ended.now.module.now ended.now.core.world.arguments ended.now.log.items) }
{
    let reach = reach_of(alloc, ended)?;
    match order {
        Order::Printed => Ok(reach.free && reach.in_order),
        Order::Rising => Ok(reach.free),
    }
}

/// The one outcome, where the run in the order `first` speaks for all. None where it doesn't: it has a race, or its prints are in no
/// one order and their order counts. Err where memory was refused.
fn lone_run(
    alloc: Global,
    order: Order,
    verified: &Verified,
    arguments: &[i64],
) -> Result<Option<Outcome>, AllocError>
    requires { AreArguments verified.now arguments.now }
    ensures lone { IfOk result (λ o. IfSome o (IsLone order verified.now arguments.now)) }
    ensures many { IfOk result (λ o. IfNone o (IsFirstOfMany order verified.now arguments.now)) }
{
    // For the law: the module is accepted, and within its limits.
    let _accepted = verified.module();
    let ended = ended_by(alloc, verified, arguments, &mut First)?;
    let speaks = speaks_for_all(alloc, order, &ended)?;
    if !speaks {
        return Ok(None);
    }
    let numbers = ordered(alloc, order, &ended.printed)?;
    Ok(Some(Outcome {
        numbers,
        log: ended.log,
    }))
}

/// The same, where runs are short; and None where they aren't, so that nothing was looked for.
pub fn lone_outcome(
    alloc: Global,
    order: Order,
    verified: &Verified,
    arguments: &[i64],
) -> Result<Option<Outcome>, AllocError>
    requires { AreArguments verified.now arguments.now }
    ensures lone { IfOk result (λ o. IfSome o (IsLone order verified.now arguments.now)) }
    ensures many { IfOk result (λ o. IfNone o (IsOneOfMany order verified.now arguments.now)) }
{
    let short = is_short(verified);
    if !short {
        return Ok(None);
    }
    let lone = lone_run(alloc, order, verified, arguments)?;
    Ok(lone)
}

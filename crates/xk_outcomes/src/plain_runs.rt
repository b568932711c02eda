//! The runs that are made before any search: in three orders, and by chance.

ghost use Rattle.std.specs.Prelude.{◌≡◌, ◌≤◌, ℕ, IfOk, OnOk};
ghost use Rattle.xk_types.specs.World.{AreArguments, opening};
ghost use Rattle.xk_scheduler.specs.Choosers.{Follows};
ghost use Rattle.xk_scheduler.specs.WholeRuns.{IsLogThat, IsRunBy, IsRunThat};
ghost use Rattle.xk_random.specs.Chance.{chance_after, chance_answer, chance_of};
ghost use Rattle.xk_outcomes.specs.PlainRuns.{ArePlainListedIn, IsListedIn, IsOutcomeOf, ListsMore, OfPrinted, plain_runs, plain_seeds};

use crate::listed::Listed;
use crate::listing::Outcome;
use crate::order::{Order, ordered};
use std::alloc::{AllocError, Global};
use xk_bounds::Verified;
use xk_core::Core;
use xk_random::Random;
use xk_scheduler::{Chooser, Ended, First, Last, Round, drive};

/// From how many seeds there is a run by chance: 1, 2 and so on.
const SEEDS: u64 = 16;

/// The run in which each step is taken by the activity that the chooser names.
pub(crate) fn ended_by<'m, C: Chooser>(
    alloc: Global,
    verified: &'m Verified,
    arguments: &[i64],
    chooser: &mut C,
) -> Result<Ended<'m>, AllocError>
    requires { AreArguments verified.now arguments.now }
    ensures same_module { IfOk result (λ e. e.module.now ≡ verified.now) }
    ensures same_arguments { IfOk result (λ e. e.core.world.arguments ≡ arguments.now) }
    ensures run { IfOk result (λ e. IsRunThat
        (IsLogThat (Follows C.answer C.after verified.now chooser.old
        (opening verified.now arguments.now)) e.log.items)
        verified.now arguments.now e.printed.items e.core.world.steps) }
{
    match drive(alloc, Core::open(alloc, verified, arguments)?, chooser) {
        Ok(ended) => Ok(ended),
        Err(_) => Err(AllocError),
    }
}

/// What that run prints, told in this order, with its log.
fn outcome_by<C: Chooser>(
    alloc: Global,
    order: Order,
    verified: &Verified,
    arguments: &[i64],
    chooser: &mut C,
) -> Result<Outcome, AllocError>
    requires { AreArguments verified.now arguments.now }
    ensures { IfOk result (IsOutcomeOf order (Follows C.answer C.after verified.now chooser.old
        (opening verified.now arguments.now)) verified.now arguments.now) }
{
    let ended = ended_by(alloc, verified, arguments, chooser)?;
    let numbers = ordered(alloc, order, &ended.printed)?;
    Ok(Outcome {
        numbers,
        log: ended.log,
    })
}

/// Lists what that run prints.
fn note_run<C: Chooser>(
    alloc: Global,
    order: Order,
    list: &mut Listed,
    verified: &Verified,
    arguments: &[i64],
    chooser: &mut C,
) -> Result<(), AllocError>
    requires { AreArguments verified.now arguments.now }
    ensures more { ListsMore order verified.now arguments.now 1 list.old list.new }
    ensures listed { OnOk result (OfPrinted
        (IsRunBy C.answer C.after verified.now arguments.now chooser.old)
        (IsListedIn order list.new)) }
{
    let new = outcome_by(alloc, order, verified, arguments, chooser)?;
    list.put(new)
}

/// Lists what the runs by chance print.
fn note_chance(
    alloc: Global,
    order: Order,
    list: &mut Listed,
    verified: &Verified,
    arguments: &[i64],
) -> Result<(), AllocError>
    requires { AreArguments verified.now arguments.now }
    ensures more { ListsMore order verified.now arguments.now plain_seeds list.old list.new }
    ensures listed { OnOk result ((seed : ℕ) → 1 ≤ seed → seed ≤ plain_seeds → OfPrinted
        (IsRunBy chance_answer chance_after verified.now arguments.now (chance_of seed))
        (IsListedIn order list.new)) }
{
    for i in 0..SEEDS {
        note_run(
            alloc,
            order,
            list,
            verified,
            arguments,
            &mut Random::new(i + 1),
        )?;
    }
    Ok(())
}

/// Lists what the plain runs print: each list of numbers once, with a log of a run that prints it. Err where memory was refused.
pub fn note_plain(
    alloc: Global,
    order: Order,
    list: &mut Listed,
    verified: &Verified,
    arguments: &[i64],
) -> Result<(), AllocError>
    requires { AreArguments verified.now arguments.now }
    ensures more { ListsMore order verified.now arguments.now plain_runs list.old list.new }
    ensures plain { OnOk result
        (ArePlainListedIn order verified.now arguments.now list.new) }
{
    note_run(alloc, order, list, verified, arguments, &mut First)?;
    note_run(alloc, order, list, verified, arguments, &mut Last)?;
    note_run(alloc, order, list, verified, arguments, &mut Round::new())?;
    note_chance(alloc, order, list, verified, arguments)
}

//! Runs by chance, and what they print.

ghost use Rattle.std.specs.Prelude.{◌≡◌, map, IfOk};
ghost use Rattle.xk_types.specs.World.{AreArguments};
ghost use Rattle.xk_scheduler.specs.WholeRuns.{IsRunBy};
ghost use Rattle.xk_random.specs.Chance.{chance_after, chance_answer, chance_of};
ghost use Rattle.xk_random.specs.Tally.{seed_of};
ghost use Rattle.xk_random.specs.Shares.{share_value};
ghost use Rattle.xk_random.specs.Runs.{AreShares, IsPrinted, IsTallyText};

use crate::random::Random;
use crate::share::{Share, note};
use crate::text::tally_text;
use indexmap::IndexMap;
use std::alloc::{AllocError, Global};
use xk_bounds::Verified;
use xk_core::Core;
use xk_scheduler::{Summary, drive_unlogged};

/// Runs the module so many times with these arguments, by chance, from this seed, the next one, and so on, and tells how often what was printed: a
/// line for each list of numbers, in the order of its first run, and a last one. Of the runs only what they printed is kept, each list once. Err where
/// memory was refused.
pub fn tally(
    alloc: Global,
    verified: &Verified,
    arguments: &[i64],
    seed: u64,
    runs: u64,
) -> Result<Vec<u8>, AllocError>
    requires { AreArguments verified.now arguments.now }
    ensures { IfOk result (λ text.
        IsTallyText verified.now arguments.now seed runs text.items) }
{
    let shares = shares_of(alloc, verified, arguments, seed, runs)?;
    tally_text(alloc, runs, &shares)
}

/// What so many runs printed how often, the first of which has this seed.
fn shares_of(
    alloc: Global,
    verified: &Verified,
    arguments: &[i64],
    seed: u64,
    runs: u64,
) -> Result<IndexMap<Vec<i64>, Share>, AllocError>
    requires { AreArguments verified.now arguments.now }
    ensures { IfOk result (λ shares.
        AreShares verified.now arguments.now seed runs (map share_value shares.entries)) }
{
    let mut shares = IndexMap::new(alloc);
    for i in 0..runs {
        let at = seed_of(seed, i);
        let numbers = printed_by(alloc, verified, arguments, at)?;
        note(&mut shares, at, numbers)?;
    }
    Ok(shares)
}

/// The seed of run i, counted from 0, where run 0 has this one.
fn seed_of(seed: u64, i: u64) -> u64
    ensures { result ≡ seed_of seed i }
{
    seed.wrapping_add(i)
}

/// What the run of this seed prints.
fn printed_by(
    alloc: Global,
    verified: &Verified,
    arguments: &[i64],
    seed: u64,
) -> Result<Vec<i64>, AllocError>
    requires { AreArguments verified.now arguments.now }
    ensures { IfOk result (λ numbers.
        IsPrinted verified.now arguments.now seed numbers.items) }
{
    let run = run_by_chance(alloc, verified, arguments, seed)?;
    Ok(run.printed)
}

/// The run of this seed.
fn run_by_chance(
    alloc: Global,
    verified: &Verified,
    arguments: &[i64],
    seed: u64,
) -> Result<Summary, AllocError>
    requires { AreArguments verified.now arguments.now }
    ensures { IfOk result (λ run. IsRunBy chance_answer chance_after verified.now arguments.now
        (chance_of seed) run.printed.items run.steps) }
{
    let core = Core::open(alloc, verified, arguments)?;
    drive_unlogged(alloc, core, &mut Random::new(seed))
}

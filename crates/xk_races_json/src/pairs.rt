//! The two steps of each race, and what they were about.

ghost use Rattle.std.specs.Prelude.{◌≡◌, ◌++◌, flat_map, option_map, IfOk, OnOk};
ghost use Rattle.xk_show_names.specs.Accounts.{seen_accounts};
ghost use Rattle.xk_races_json.specs.Races.{both, kept_pair, pair_of};

use std::alloc::{AllocError, Global};
use xk_races::Race;
use xk_scheduler::Ended;
use xk_show_names::Account;
use xk_show_races::{ByNumber, racing};

/// Two steps that raced, the one that came first in the run first.
#[derive(Clone, Copy)]
pub struct Pair {
    pub first: Account,
    pub second: Account,
}

/// Adds two steps, where both are known.
fn push_both(
    pairs: &mut Vec<Pair>,
    first: Option<&Account>,
    second: Option<&Account>,
) -> Result<(), AllocError>
    ensures { OnOk result (pairs.new.items ≡ pairs.old.items
        ++ both (option_map (λ a. a.now) first.entry) (option_map (λ a. a.now) second.entry)) }
{
    match first {
        None => Ok(()),
        Some(first) => match second {
            None => Ok(()),
            Some(second) => {
                pairs.push(Pair {
                    first: *first,
                    second: *second,
                })?;
                Ok(())
            }
        },
    }
}

/// Adds the steps of a race, which are looked up there.
fn push_pair(pairs: &mut Vec<Pair>, steps: &ByNumber, race: &Race) -> Result<(), AllocError>
    ensures { OnOk result (pairs.new.items ≡ pairs.old.items ++ kept_pair steps.now race.now) }
{
    let first = steps.get(&race.first.number);
    let second = steps.get(&race.second.number);
    push_both(pairs, first, second)
}

/// The steps of races, which are looked up there.
fn pairs_of(alloc: Global, steps: &ByNumber, races: &[Race]) -> Result<Vec<Pair>, AllocError>
    ensures { IfOk result (λ v. v.items ≡ flat_map (kept_pair steps.now) races.now) }
{
    let mut pairs = Vec::new(alloc);
    for race in races {
        push_pair(&mut pairs, steps, race)?;
    }
    Ok(pairs)
}

/// The steps of these races of a run, each with what it was about. The log is played again for it. Err where memory was refused.
pub(crate) fn pairs_in(
    alloc: Global,
    races: &[Race],
    ended: &Ended<'_>,
) -> Result<Vec<Pair>, AllocError>
    ensures { IfOk result (λ v. v.items ≡ flat_map (pair_of (seen_accounts
        ended.now.module.now ended.now.core.world.arguments ended.now.log.items)) races.now) }
{
    let steps = racing(alloc, races, ended)?;
    pairs_of(alloc, &steps, races)
}

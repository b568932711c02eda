//! The steps that races are made of, and what they were about.

ghost use Rattle.std.specs.Prelude.{◌≡◌, ℕ, ◌||◌, nat_eq, Some, None, if◌then◌else◌, IfOk, OnOk};
ghost use Rattle.std.specs.Option.{option_or};
ghost use Rattle.std.specs.Ordering.{nat_cmp};
ghost use Rattle.std.specs.BTreeMap.{get};
ghost use Rattle.std.specs.BTreeSet.{contains};
ghost use Rattle.xk_show_names.specs.Accounts.{seen_accounts};
ghost use Rattle.xk_show_races.specs.Accounts.{AreByNumber, AreNumbers, AreRacing, account_if_among, accounts_among, is_of};

use std::alloc::{AllocError, Global};
use std::collections::{BTreeMap, BTreeSet};
use xk_core::Core;
use xk_races::Race;
use xk_scheduler::Ended;
use xk_show_events::{LegalRun, is_seen};
use xk_show_names::{Account, Recount, recount_run};

/// Steps by their numbers.
pub type ByNumber = BTreeMap<u64, Account>;

/// Adds the numbers of both steps of a race.
#[tactic(auto, using(crate::proofs::StepLemmas::numbers_added))]
fn add_numbers(numbers: &mut BTreeSet<u64>, race: &Race) -> Result<(), AllocError>
    ensures { OnOk result ((n : ℕ) → contains nat_cmp numbers.new n
        ≡ (contains nat_cmp numbers.old n || is_of race.now n)) }
{
    numbers.insert(race.first.number)?;
    numbers.insert(race.second.number)?;
    Ok(())
}

/// The numbers of the steps of races.
#[tactic(auto, using(crate::proofs::StepLemmas::numbers_more))]
fn numbers_of(alloc: Global, races: &[Race]) -> Result<BTreeSet<u64>, AllocError>
    ensures { IfOk result (λ s. AreNumbers s races.now) }
{
    let mut numbers = BTreeSet::new(alloc);
    for race in races {
        add_numbers(&mut numbers, race)?;
    }
    Ok(numbers)
}

/// Tells of the steps of these numbers.
#[derive(Drop)]
struct StepsAmong<'a> {
    numbers: &'a BTreeSet<u64>,
}

impl Recount<Account> for StepsAmong<'_> {
    ghost recount = { λ recounter m v a. account_if_among recounter.numbers.now a };

    fn push(
        &self,
        _alloc: Global,
        out: &mut Vec<Account>,
        _core: &Core<'_>,
        account: &Account,
    ) -> Result<(), AllocError> {
        if self.numbers.contains(&account.step.number) {
            if is_seen(account.step.event) {
                out.push(*account)?;
            }
        }
        Ok(())
    }

    #[tactic(auto, using(crate::proofs::StepLemmas::none_above, crate::proofs::StepLemmas::none_of_none))]
    fn is_silent_after(&self, steps: u64) -> bool {
        match self.numbers.last() {
            Some(last) => *last <= steps,
            None => true,
        }
    }
}

/// The steps of a run that have these numbers, in their order. The log is played again for it.
fn accounts_among(
    alloc: Global,
    numbers: &BTreeSet<u64>,
    ended: &Ended<'_>,
) -> Result<Vec<Account>, AllocError>
    ensures { IfOk result (λ v. v.items ≡ accounts_among numbers.now
        ended.now.module.now ended.now.core.world.arguments ended.now.log.items) }
{
    let mut list = Vec::new(alloc);
    recount_run(
        &StepsAmong { numbers },
        alloc,
        &mut list,
        &LegalRun::of(ended),
    )?;
    Ok(list)
}

/// Adds a step, unless there is one of its number.
#[tactic(auto, using(crate::proofs::StepLemmas::found_already, crate::proofs::StepLemmas::found_new))]
fn add(steps: &mut ByNumber, account: &Account) -> Result<(), AllocError>
    ensures { OnOk result ((n : ℕ) → get nat_cmp steps.new n ≡ option_or (get nat_cmp steps.old n)
        (if nat_eq n account.now.step.number then Some account.now else None)) }
{
    if !steps.contains_key(&account.step.number) {
        steps.insert(account.step.number, *account)?;
    }
    Ok(())
}

/// Steps by their numbers.
fn by_number(alloc: Global, accounts: &[Account]) -> Result<ByNumber, AllocError>
    ensures { IfOk result (λ map. AreByNumber map accounts.now) }
{
    let mut steps = BTreeMap::new(alloc);
    for account in accounts {
        add(&mut steps, account)?;
    }
    Ok(steps)
}

/// The steps of these races of a run, by their numbers, and what they were about. The log is played again for it, and
/// no other step is kept. Err where memory was refused.
pub fn racing(alloc: Global, races: &[Race], ended: &Ended<'_>) -> Result<ByNumber, AllocError>
    ensures { IfOk result (λ map. AreRacing map races.now (seen_accounts
        ended.now.module.now ended.now.core.world.arguments ended.now.log.items)) }
{
    let numbers = numbers_of(alloc, races)?;
    let accounts = accounts_among(alloc, &numbers, ended)?;
    by_number(alloc, &accounts)
}

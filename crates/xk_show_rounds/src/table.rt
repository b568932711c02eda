//! The steps of a run, by rounds.

ghost use Rattle.std.specs.Prelude.{◌≡◌, suc, ◌-◌, [], ◌∷◌, ◌++◌, length, replicate, slice_index_or, slice_set, IfOk, OnOk};
ghost use Rattle.xk_races.specs.Lists.{with_at};
ghost use Rattle.xk_show_rounds.specs.RoundRows.{AreByRounds};

use std::alloc::{AllocError, Global};
use std::marker::Model;
use xk_show_names::Account;
use xk_show_path::Rounds;

/// The steps of a round.
#[derive(Drop)]
pub(crate) struct Round {
    steps: Vec<Account>,
}

impl Model for Round {
    ghost use Rattle.std.specs.Prelude.{List};
    ghost use Rattle.xk_show_names.specs.declared.accounts.Account.{Account as AccountValue};

    ghost Value = { List AccountValue };

    ghost view = { λ r. r.steps.items };
}

/// Those of round k.
pub(crate) fn steps_at(table: &[Round], k: usize) -> &[Account]
    ensures { result.now ≡ slice_index_or table.now k [] }
{
    match table.get(k) {
        Some(round) => &round.steps,
        None => &[],
    }
}

/// Adds a round without steps so many times.
fn push_empty(alloc: Global, table: &mut Vec<Round>, count: usize) -> Result<(), AllocError>
    ensures { OnOk result (table.new.items ≡ table.old.items ++ replicate count []) }
{
    for _ in 0..count {
        table.push(Round {
            steps: Vec::new(alloc),
        })?;
    }
    Ok(())
}

/// There are rounds up to number k.
#[tactic(auto, using(xk_races::proofs::GrowthLemmas::grown, xk_races::proofs::GrowthLemmas::long_enough))]
fn grow(alloc: Global, table: &mut Vec<Round>, k: usize) -> Result<(), AllocError>
    ensures { OnOk result (table.new.items ≡ table.old.items
        ++ replicate (suc k - length table.old.items) []) }
{
    if k < table.len() {
        return Ok(());
    }
    push_empty(alloc, table, k - table.len())?;
    table.push(Round {
        steps: Vec::new(alloc),
    })?;
    Ok(())
}

/// Adds a step to round k, where there is such a round.
fn push_to(table: &mut Vec<Round>, k: usize, account: &Account) -> Result<(), AllocError>
    ensures { OnOk result (table.new.items ≡ slice_set table.old.items k
        (slice_index_or table.old.items k [] ++ account.now ∷ [])) }
{
    if let Some(round) = table.get_mut(k) {
        round.steps.push(*account)?;
    }
    Ok(())
}

/// Adds a step to round k.
#[tactic(auto, using(crate::proofs::TableLemmas::grown_and_set))]
fn push_at(
    alloc: Global,
    table: &mut Vec<Round>,
    k: usize,
    account: &Account,
) -> Result<(), AllocError>
    ensures { OnOk result (table.new.items ≡ with_at [] table.old.items k
        (slice_index_or table.old.items k [] ++ account.now ∷ [])) }
{
    grow(alloc, table, k)?;
    push_to(table, k, account)
}

/// These steps, each in its round.
pub(crate) fn table_of(
    alloc: Global,
    rounds: &Rounds,
    steps: &[Account],
) -> Result<Vec<Round>, AllocError>
    ensures { IfOk result (λ v. AreByRounds rounds.now steps.now v.items) }
{
    let mut table = Vec::new(alloc);
    for account in steps {
        let round = rounds.round_of(account.step.number);
        push_at(alloc, &mut table, round, account)?;
    }
    Ok(table)
}

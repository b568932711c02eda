//! What is listed so far: lists of numbers, each with the log of a run that prints it.

ghost use Rattle.std.specs.Prelude.{◌≡◌, ◌<◌, ◌≤◌, ◌+◌, ◌++◌, ◌∷◌, ◌⊎◌, [], true, false, length, max, IfOk, OnOk};
ghost use Rattle.xk_outcomes.specs.Outcomes.{AreDistinct, IsListed};
ghost use Rattle.xk_outcomes.specs.Listing.{KeepsListed};

use crate::listing::Outcome;
use indexmap::IndexMap;
use std::alloc::{AllocError, Global};
use std::marker::Model;
use xk_types::Entry;

/// What is listed so far, in the order in which it was met.
#[derive(Drop)]
pub struct Listed {
    logs: IndexMap<Vec<i64>, Vec<Entry>>,
}

impl Model for Listed {
    ghost use Rattle.std.specs.Prelude.{List};
    ghost use Rattle.xk_outcomes.specs.declared.listing.Outcome.{Outcome as AnOutcome};
    ghost use Rattle.xk_outcomes.specs.Listed.{outcomes_in};

    ghost Value = { List AnOutcome };

    ghost view = { λ l. outcomes_in l.logs.entries };
}

impl Listed {
    /// Nothing is listed.
    pub fn new(alloc: Global) -> Listed
        ensures { result ≡ [] }
    {
        Listed {
            logs: IndexMap::new(alloc),
        }
    }

    /// Whether as many are listed as the limit says.
    pub fn is_full(&self, limit: usize) -> bool
        ensures yes { result ≡ true → limit ≤ length self.now }
        ensures no { result ≡ false → length self.now < limit }
    {
        self.logs.len() >= limit
    }

    /// Lists it, if its numbers aren't listed yet. Err where memory was refused: nothing more is listed then.
    pub fn put(&mut self, new: Outcome) -> Result<(), AllocError>
        ensures distinct { AreDistinct self.old → AreDistinct self.new }
        ensures kept { KeepsListed self.old self.new }
        ensures listed { OnOk result (IsListed self.new new.numbers.items) }
        ensures each { (self.new ≡ self.old) ⊎ (self.new ≡ self.old ++ new ∷ []) }
        ensures one_more { length self.new ≤ length self.old + 1 }
    {
        let Outcome { numbers, log } = new;
        if self.logs.contains_key(&numbers) {
            return Ok(());
        }
        self.logs.insert(numbers, log)?;
        Ok(())
    }

    /// Lists it, if its numbers aren't listed yet and fewer are than the limit says. Whether its numbers are listed then. Err where memory
    /// was refused: nothing more is listed then.
    pub fn put_within(&mut self, new: Outcome, limit: usize) -> Result<bool, AllocError>
        ensures distinct { AreDistinct self.old → AreDistinct self.new }
        ensures kept { KeepsListed self.old self.new }
        ensures listed { IfOk result
            (λ there. there ≡ true → IsListed self.new new.numbers.items) }
        ensures full { IfOk result (λ there. there ≡ false → limit ≤ length self.new) }
        ensures each { (self.new ≡ self.old) ⊎ (self.new ≡ self.old ++ new ∷ []) }
        ensures most { length self.new ≤ max limit (length self.old) }
    {
        if self.logs.contains_key(&new.numbers) {
            return Ok(true);
        }
        if self.is_full(limit) {
            return Ok(false);
        }
        self.put(new)?;
        Ok(true)
    }

    /// What is listed. Err where memory was refused.
    pub fn into_outcomes(self, alloc: Global) -> Result<Vec<Outcome>, AllocError>
        ensures { IfOk result (λ list. list.items ≡ self) }
    {
        let logs = self.logs;
        let mut list = Vec::with_capacity(alloc, logs.len())?;
        for (numbers, log) in logs {
            list.push(Outcome { numbers, log })?;
        }
        Ok(list)
    }
}

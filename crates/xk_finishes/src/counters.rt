//! How many of those whom a finish governs haven't ended.

ghost use Rattle.std.specs.Prelude.{◌≡◌, ℕ, ◌+◌, ◌-◌, ◌<◌, ◌^◌, List, [], length, slice_index_or, slice_set, IfOk, OnOk};
ghost use Rattle.xk_finishes.specs.Counters.{count_in, HasPlace, CountIs, CountsSame, CountsOneMore};

use crate::finish::Finish;
use std::alloc::{AllocError, Global};
use std::marker::Model;
use xk_types::Act;

/// The counters of one activity's finishes: that of the finish at depth d stands at place d. What isn't there is 0.
#[derive(Drop)]
struct Depths {
    counts: Vec<u32>,
}

impl Model for Depths {
    ghost use Rattle.std.specs.Prelude.{List, ℕ};

    ghost Value = { List ℕ };

    ghost view = { λ d. d.counts.items };
}

impl Depths {
    /// None yet.
    fn new(alloc: Global) -> Depths
        ensures { result ≡ [] }
    {
        Depths {
            counts: Vec::new(alloc),
        }
    }

    /// The same counters, from the memory that these are in.
    fn copy(&self) -> Result<Depths, AllocError>
        ensures { IfOk result (λ depths. depths ≡ self.now) }
    {
        let alloc = *self.counts.allocator();
        Ok(Depths {
            counts: self.counts.to_vec(alloc)?,
        })
    }

    /// The counter at this depth.
    fn at(&self, depth: u32) -> u32
        ensures { result ≡ slice_index_or self.now depth 0 }
    {
        match self.counts.get(depth as usize) {
            None => 0,
            Some(count) => *count,
        }
    }

    /// Makes a place for the counter at this depth, if there is none. No counter changes, also where memory is refused.
    fn make_place(&mut self, depth: u32) -> Result<(), AllocError>
        ensures same { (d : ℕ) → slice_index_or self.new d 0 ≡ slice_index_or self.old d 0 }
        ensures there { OnOk result (depth < length self.new) }
    {
        for _ in self.counts.len()..depth as usize + 1 {
            self.counts.push(0)?;
        }
        Ok(())
    }

    /// One more.
    fn add(&mut self, depth: u32)
        requires there { depth < length self.old }
        requires fits { slice_index_or self.old depth 0 + 1 < 2 ^ 32 }
        ensures { self.new ≡ slice_set self.old depth (slice_index_or self.old depth 0 + 1) }
    {
        self.counts[depth as usize] += 1;
    }

    /// One less.
    fn take(&mut self, depth: u32)
        requires there { depth < length self.old }
        requires some { 0 < slice_index_or self.old depth 0 }
        ensures { self.new ≡ slice_set self.old depth (slice_index_or self.old depth 0 - 1) }
    {
        self.counts[depth as usize] -= 1;
    }
}

/// For each finish how many activities that it governs itself haven't ended. The finish that nobody opened isn't counted for.
#[derive(Drop)]
pub struct Counters {
    owners: Vec<Depths>,
}

impl Model for Counters {
    ghost use Rattle.std.specs.Prelude.{List, ℕ};

    ghost Value = { List (List ℕ) };

    ghost view = { λ c. c.owners.items };
}

impl Counters {
    /// All are 0.
    pub fn new(alloc: Global) -> Counters
        ensures { result ≡ [] }
    {
        Counters {
            owners: Vec::new(alloc),
        }
    }

    /// The same counters, from the memory that these are in.
    pub fn copy(&self) -> Result<Counters, AllocError>
        ensures { IfOk result (λ counters. counters ≡ self.now) }
    {
        let mut owners = Vec::with_capacity(*self.owners.allocator(), self.owners.len())?;
        for depths in &self.owners {
            owners.push_reserved(depths.copy()?);
        }
        Ok(Counters { owners })
    }

    /// The counter of the finish that this activity opened at this depth.
    pub fn of(&self, owner: Act, depth: u32) -> u32
        ensures { result ≡ count_in self.now owner depth }
    {
        match self.owners.get(owner.0 as usize) {
            None => 0,
            Some(depths) => depths.at(depth),
        }
    }

    /// Makes a place for the finish's counter, if there is none. No counter changes, also where memory is refused.
    pub fn make_place(&mut self, finish: Finish) -> Result<(), AllocError>
        ensures same { CountsSame self.old self.new }
        ensures there { OnOk result (HasPlace self.new finish) }
    {
        match finish.owner() {
            None => Ok(()),
            Some(owner) => {
                self.make_list(owner)?;
                self.owners[owner.0 as usize].make_place(finish.depth())
            }
        }
    }

    /// Makes a list for the activity's counters, if there is none. No counter changes, also where memory is refused.
    fn make_list(&mut self, owner: Act) -> Result<(), AllocError>
        ensures same { CountsSame self.old self.new }
        ensures there { OnOk result (owner < length self.new) }
    {
        let alloc = *self.owners.allocator();
        for _ in self.owners.len()..owner.0 as usize + 1 {
            self.owners.push(Depths::new(alloc))?;
        }
        Ok(())
    }

    /// The finish governs one more who hasn't ended.
    pub fn add(&mut self, finish: Finish)
        requires there { HasPlace self.old finish }
        requires fits { CountIs (λ n. n + 1 < 2 ^ 32) self.old finish }
        ensures { CountsOneMore finish self.old self.new }
    {
        if let Some(owner) = finish.owner() {
            self.owners[owner.0 as usize].add(finish.depth());
        }
    }

    /// One whom the finish governs has ended.
    pub fn take(&mut self, finish: Finish)
        requires some { CountIs (λ n. 0 < n) self.old finish }
        ensures { CountsOneMore finish self.new self.old }
    {
        if let Some(owner) = finish.owner() {
            self.owners[owner.0 as usize].take(finish.depth());
        }
    }
}

//! The ranks of activities among those that haven't ended.

ghost use Rattle.std.specs.Prelude.{◌≡◌, ◌<◌, length, IfOk, option_map};
ghost use Rattle.std.specs.Bool.{Decides};
ghost use Rattle.xk_activity.specs.Activities.{act_at};
ghost use Rattle.xk_ranks.specs.Ranks.{going, rank, remains};
ghost use Rattle.xk_rank_digests.specs.Numbers.{AreNumbers, AreRanks, IsOfRank, number_of};
ghost use Rattle.xk_rank_digests.specs.RankLikeness.{IsInnermost};

use std::alloc::{AllocError, Global};
use std::marker::Model;
use xk_core::Core;
use xk_types::Act;

/// For each activity how many before it haven't ended.
fn ranks_in(alloc: Global, core: &Core<'_>) -> Result<Vec<u32>, AllocError>
    ensures { IfOk result (λ ranks. AreRanks (going core.now.world.activities)
        (length core.now.world.activities) ranks.items) }
{
    let mut ranks = Vec::new(alloc);
    let mut rank = 0;
    for a in 0..core.activities() {
        ranks.push(rank)?;
        if core.is_living(Act(a)) {
            rank += 1;
        }
    }
    Ok(ranks)
}

/// The numbers of those that haven't, rising.
fn numbers_in(alloc: Global, core: &Core<'_>) -> Result<Vec<u32>, AllocError>
    ensures { IfOk result (λ numbers. AreNumbers (going core.now.world.activities)
        (length core.now.world.activities) numbers.items) }
{
    let mut numbers = Vec::new(alloc);
    for a in 0..core.activities() {
        if core.is_living(Act(a)) {
            numbers.push(a)?;
        }
    }
    Ok(numbers)
}

/// A core, with the ranks of its activities and the numbers of those that haven't ended.
#[derive(Drop)]
pub struct Ranked<'c, 'm> {
    core: &'c Core<'m>,
    // for each activity how many before it haven't ended
    ranks: Vec<u32>,
    // the numbers of those that haven't, rising
    numbers: Vec<u32>,
}

impl<'c, 'm> Model for Ranked<'c, 'm> {
    ghost use Rattle.std.specs.Prelude.{◌≡◌};
    ghost use Rattle.xk_core.specs.Core.{CoreValue};
    ghost use Rattle.xk_ranks.specs.Ranks.{going};
    ghost use Rattle.xk_rank_digests.specs.Numbers.{IsTable};

    ghost Value = { CoreValue };

    ghost view = { λ r. r.core.now };

    ghost invariant = { λ r.
        IsTable (going r.core.now.world.activities) r.ranks.items r.numbers.items };
}

impl<'c, 'm> Ranked<'c, 'm> {
    /// A core with these. Err where memory was refused.
    #[tactic(auto, using(crate::proofs::NumberLemmas::table_of))]
    pub fn of(alloc: Global, core: &'c Core<'m>) -> Result<Ranked<'c, 'm>, AllocError>
        ensures { IfOk result (λ r. r ≡ core.now) }
    {
        let ranks = ranks_in(alloc, core)?;
        let numbers = numbers_in(alloc, core)?;
        Ok(Ranked {
            core,
            ranks,
            numbers,
        })
    }

    /// The core.
    pub fn core(&self) -> &'c Core<'m>
        ensures { result.now ≡ self.now }
    {
        self.core
    }

    /// How many activities haven't ended.
    pub fn len(&self) -> usize
        ensures { result ≡ length (remains self.now.world).activities }
    {
        self.numbers.len()
    }

    /// The activity of a rank.
    pub fn act_of(&self, rank: usize) -> Act
        requires { rank < length (remains self.now.world).activities }
        ensures of { IsOfRank (going self.now.world.activities) result rank }
        ensures there { result < length self.now.world.activities }
    {
        Act(self.numbers[rank])
    }

    /// Whether the finish that governs the activity is the innermost of its owner, if somebody owns it.
    pub fn is_innermost(&self, act: Act) -> bool
        requires { act < length self.now.world.activities }
        ensures { Decides result
            (IsInnermost self.now.world (act_at self.now.world.activities act)) }
    {
        // For the owner: it is an activity.
        let _activities = self.core.activities();
        match self.core.governor(act) {
            Some(owner) => self.core.is_under(owner, act),
            None => true,
        }
    }

    /// The rank of who owns the finish that governs the activity, if somebody does.
    pub fn owner_rank(&self, act: Act) -> Option<u32>
        requires { act < length self.now.world.activities }
        ensures { result ≡ option_map (rank (going self.now.world.activities))
            (act_at self.now.world.activities act).governed.owner }
    {
        // For the owner: it is an activity.
        let _activities = self.core.activities();
        match self.core.governor(act) {
            Some(owner) => Some(self.ranks[owner.0 as usize]),
            None => None,
        }
    }
}

/// How many activities before this one haven't ended.
pub fn rank_of(core: &Core<'_>, act: Act) -> u32
    requires { act < length core.now.world.activities }
    ensures { result ≡ rank (going core.now.world.activities) act }
{
    let mut rank = 0;
    for a in 0..act.0 {
        if core.is_living(Act(a)) {
            rank += 1;
        }
    }
    rank
}

/// The activity that hasn't ended, and before which so many haven't; where there is none, it is none of the core's.
pub fn act_of_rank(core: &Core<'_>, place: u32) -> Act
    ensures { result ≡ number_of (going core.now.world.activities) place }
{
    let mut before = 0;
    for a in 0..core.activities() {
        if core.is_living(Act(a)) {
            if before == place {
                return Act(a);
            }
            before += 1;
        }
    }
    Act(core.activities())
}

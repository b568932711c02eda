//! Who takes the next step.

ghost use Rattle.std.specs.Prelude.{◌≡◌, ◌<◌, ◌≤◌, ◌-◌, ◌%◌, ◌^◌, true, Some, length, slice_get};
ghost use Rattle.std.specs.Vec.{vec_capacity};
ghost use Rattle.xk_collections.specs.NumberSets.{IsRising, place_above};
ghost use Rattle.xk_scheduler.specs.Choosers.{IsAnswered, IsSteadyOn, IsAloneIn, turn_of};

use std::marker::Model;
use xk_collections::NumberSet;

/// Chooses, step by step, who goes on.
pub trait Chooser {
    ghost use Rattle.std.specs.Prelude.{ℕ, List};

    /// What it answers to a list, in its state.
    ghost answer: { Self → List ℕ → ℕ };

    /// Its state after that.
    ghost after: { Self → List ℕ → Self };

    /// Names one of the activities that are enabled, which are told rising: by its place in the list, counted from 0. A place beyond
    /// the end is counted round the list.
    fn choose(&mut self, enabled: &[u32]) -> u32
        requires some { 0 < length enabled.now }
        requires rising { IsRising enabled.now }
        requires numbers { length enabled.now < 2 ^ 32 }
        ensures answers { result ≡ answer self.old enabled.now }
        ensures goes_on { self.new ≡ after self.old enabled.now };

    /// Names the member of a set that `choose` names of their list, which is made in `shown` to ask it. The orders that stand ready
    /// override this, and take who it is from the set.
    fn pick(&mut self, enabled: &NumberSet, shown: &mut Vec<u32>) -> u32
        requires some { 0 < length enabled.now.members }
        requires room { length enabled.now.members ≤ vec_capacity shown.old }
        ensures picked { IsAnswered (answer self.old) enabled.now.members result }
        ensures goes_on { self.new ≡ after self.old enabled.now.members }
        ensures room { vec_capacity shown.old ≤ vec_capacity shown.new }
    {
        enabled.list(shown);
        let answer = self.choose(shown) as usize;
        shown[place_in(answer, shown.len())]
    }

    /// Whether it stays in its state when it is shown these: then it names the same again as long as the same can take a step, and
    /// needn't be asked before each. Who says no is asked.
    fn is_steady(&self, enabled: &NumberSet) -> bool
        ensures { result ≡ true → IsSteadyOn after self.now enabled.now.members }
    {
        // Who says no looks at nobody: `enabled` is there for the clause, and for those who override this.
        let _shown = enabled;
        false
    }
}

/// A place in a list of n, counted round it. A division takes longer than all else that a turn does besides its step, and most answers need
/// none.
pub(crate) fn place_in(answer: usize, n: usize) -> usize
    requires { 0 < n }
    ensures place { result ≡ answer % n }
    ensures within { result < n }
{
    if answer < n { answer } else { answer % n }
}

/// The least member.
#[inline(always)]
fn least(enabled: &NumberSet) -> u32
    requires { 0 < length enabled.now.members }
    ensures { Some result ≡ slice_get enabled.now.members 0 }
{
    match enabled.first() {
        Some(number) => number,
        None => unreachable!(),
    }
}

/// The greatest member.
#[inline(always)]
fn greatest(enabled: &NumberSet) -> u32
    requires { 0 < length enabled.now.members }
    ensures { Some result ≡ slice_get enabled.now.members (length enabled.now.members - 1) }
{
    match enabled.last() {
        Some(number) => number,
        None => unreachable!(),
    }
}

/// The least enabled activity, at each step.
#[derive(Clone, Copy)]
pub struct First;

impl Chooser for First {
    ghost answer = { λ s list. 0 };

    ghost after = { λ s list. s };

    /// The first place.
    fn choose(&mut self, _enabled: &[u32]) -> u32 {
        0
    }

    /// The least member, for which no list is made.
    #[inline(always)]
    fn pick(&mut self, enabled: &NumberSet, _shown: &mut Vec<u32>) -> u32 {
        least(enabled)
    }

    /// It has no state.
    #[inline(always)]
    fn is_steady(&self, _enabled: &NumberSet) -> bool {
        true
    }
}

/// The greatest enabled activity, at each step.
#[derive(Clone, Copy)]
pub struct Last;

impl Chooser for Last {
    ghost use Rattle.std.specs.Prelude.{◌-◌, length};

    ghost answer = { λ s list. length list - 1 };

    ghost after = { λ s list. s };

    /// The last place.
    fn choose(&mut self, enabled: &[u32]) -> u32 {
        (enabled.len() - 1) as u32
    }

    /// The greatest member, for which no list is made.
    #[inline(always)]
    fn pick(&mut self, enabled: &NumberSet, _shown: &mut Vec<u32>) -> u32 {
        greatest(enabled)
    }

    /// It has no state.
    #[inline(always)]
    fn is_steady(&self, _enabled: &NumberSet) -> bool {
        true
    }
}

/// Each in turn: the least enabled activity of greater number than the one taken before, else the least of all.
#[derive(Clone, Copy)]
pub struct Round {
    taken: Option<u32>,
}

impl Model for Round {
    ghost use Rattle.std.specs.Prelude.{ℕ, Option};

    ghost Value = { Option ℕ };

    ghost view = { λ r. r.taken };

    ghost inverse = { λ o. record { taken = o } };
}

impl Round {
    ghost use Rattle.std.specs.Prelude.{None};

    /// Before anybody was taken.
    pub fn new() -> Round
        ensures { result ≡ None }
    {
        Round { taken: None }
    }

    /// The place of the one whose turn it is; beyond the end where the turn begins again.
    fn place(&self, enabled: &[u32]) -> usize
        requires rising { IsRising enabled.now }
        ensures place { result ≡ turn_of self.now enabled.now }
        ensures within { result ≤ length enabled.now }
    {
        match self.taken {
            None => 0,
            Some(taken) => up_to(taken, enabled),
        }
    }

    /// Who stands at that place.
    #[inline(always)]
    fn next(&self, enabled: &NumberSet) -> Option<u32>
        ensures { result ≡ slice_get enabled.now.members (turn_of self.now enabled.now.members) }
    {
        match self.taken {
            None => enabled.first(),
            Some(taken) => enabled.above(taken),
        }
    }

    /// Whose turn it is.
    #[inline(always)]
    fn turn(&self, enabled: &NumberSet) -> u32
        requires { 0 < length enabled.now.members }
        ensures { IsAnswered (turn_of self.now) enabled.now.members result }
    {
        match self.next(enabled) {
            Some(next) => next,
            None => least(enabled),
        }
    }
}

/// Whether this one is the least member, and none is above it.
#[inline(always)]
fn is_alone(enabled: &NumberSet, taken: u32) -> bool
    ensures { result ≡ true → IsAloneIn enabled.now.members taken }
{
    match (enabled.first(), enabled.above(taken)) {
        (Some(first), None) => first == taken,
        _ => false,
    }
}

/// How many of the numbers aren't above this one.
fn up_to(taken: u32, enabled: &[u32]) -> usize
    requires rising { IsRising enabled.now }
    ensures place { result ≡ place_above taken enabled.now }
    ensures within { result ≤ length enabled.now }
{
    enabled.partition_point(|a| *a <= taken)
}

impl Chooser for Round {
    ghost use Rattle.xk_scheduler.specs.Choosers.{turn_of, turn_after};

    ghost answer = { turn_of };

    ghost after = { turn_after };

    /// The place of the one whose turn it is, which it keeps in mind.
    fn choose(&mut self, enabled: &[u32]) -> u32 {
        let place = self.place(enabled);
        self.taken = Some(enabled[place_in(place, enabled.len())]);
        place as u32
    }

    /// The one whose turn it is, found in the set: no list is made.
    #[inline(always)]
    fn pick(&mut self, enabled: &NumberSet, _shown: &mut Vec<u32>) -> u32 {
        let act = self.turn(enabled);
        self.taken = Some(act);
        act
    }

    /// It is where the one taken before is alone.
    #[inline(always)]
    fn is_steady(&self, enabled: &NumberSet) -> bool {
        match self.taken {
            Some(taken) => is_alone(enabled, taken),
            None => false,
        }
    }
}

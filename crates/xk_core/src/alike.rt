//! Whether the worlds of two cores are alike: whether they differ in numbers of steps and in phases at most, at which no step looks.

ghost use Rattle.std.specs.Prelude.{◌≡◌, ◌<◌, IsTrue, length, map};
ghost use Rattle.std.specs.Bool.{Decides};
ghost use Rattle.xk_law_commute.specs.PlainWorlds.{AreAlike, plain_activity, plain_clock};
ghost use Rattle.xk_core.specs.Alikeness.{IsAlikeActivity, IsAlikeClock, Tells};

use crate::machine::Core;
use xk_types::{Act, ClockId, Standing, Status};

/// Whether it is the same status.
fn is_same_status(status: Status, other: Status) -> bool
    ensures { Decides result (status ≡ other) }
{
    match status {
        Status::Running => matches!(other, Status::Running),
        Status::Arrived => matches!(other, Status::Arrived),
        Status::Ended => matches!(other, Status::Ended),
    }
}

/// Whether it is the same standing.
fn is_same_standing(standing: Standing, other: Standing) -> bool
    ensures { Decides result (standing ≡ other) }
{
    match standing {
        Standing::Apart => matches!(other, Standing::Apart),
        Standing::Open => matches!(other, Standing::Open),
        Standing::Signalled => matches!(other, Standing::Signalled),
        Standing::Ahead => matches!(other, Standing::Ahead),
    }
}

/// Whether they are the same numbers.
fn are_same_numbers(numbers: &[i64], others: &[i64]) -> bool
    ensures { Decides result (numbers.now ≡ others.now) }
{
    numbers == others
}

impl<'m> Core<'m> {
    /// Whether the other core's world differs from this one's in numbers of steps and in phases at most: then what can happen from
    /// now on is the same. Of cores of two modules it may say no where it is so.
    pub fn is_alike(&self, other: &Core<'_>) -> bool
        ensures alike { IsTrue result → AreAlike self.now.world other.now.world }
        ensures exact { self.now.module_run ≡ other.now.module_run
            → AreAlike self.now.world other.now.world → IsTrue result }
    {
        if !self.has_as_many(other) {
            return false;
        }
        if !self.has_same_numbers(other) {
            return false;
        }
        self.are_activities_alike(other) && self.are_clocks_alike(other)
    }

    /// Whether the other core has as many activities, and as many clocks.
    fn has_as_many(&self, other: &Core<'_>) -> bool
        ensures { Decides result
            ((length other.now.world.activities ≡ length self.now.world.activities)
            × (length other.now.world.clocks ≡ length self.now.world.clocks)) }
    {
        self.activities() == other.activities() && self.clocks() == other.clocks()
    }

    /// Whether the other core has the same shared numbers, and was given the same arguments.
    fn has_same_numbers(&self, other: &Core<'_>) -> bool
        ensures { Decides result ((self.now.world.cells ≡ other.now.world.cells)
            × (self.now.world.arguments ≡ other.now.world.arguments)) }
    {
        are_same_numbers(self.cells(), other.cells())
            && are_same_numbers(self.arguments(), other.arguments())
    }

    /// Whether each activity is alike in the other core, which has as many.
    fn are_activities_alike(&self, other: &Core<'_>) -> bool
        requires { length other.now.world.activities ≡ length self.now.world.activities }
        ensures { Tells self.now other.now result (map plain_activity self.now.world.activities
            ≡ map plain_activity other.now.world.activities) }
    {
        for a in 0..self.activities() {
            if !self.is_activity_alike(other, Act(a)) {
                return false;
            }
        }
        true
    }

    /// Whether the activity has the same status, finishes and frames in the other core.
    fn is_activity_alike(&self, other: &Core<'_>, act: Act) -> bool
        requires here { act < length self.now.world.activities }
        requires there { act < length other.now.world.activities }
        ensures { Tells self.now other.now result
            (IsAlikeActivity self.now.world other.now.world act) }
    {
        is_same_status(self.status(act), other.status(act))
            && self.has_same_finishes(other, act)
            && self.frames(act).same(other.frames(act))
    }

    /// Whether each clock is alike in the other core, which has as many clocks and activities.
    fn are_clocks_alike(&self, other: &Core<'_>) -> bool
        requires activities { length other.now.world.activities
            ≡ length self.now.world.activities }
        requires clocks { length other.now.world.clocks ≡ length self.now.world.clocks }
        ensures { Decides result (map plain_clock self.now.world.clocks
            ≡ map plain_clock other.now.world.clocks) }
    {
        for c in 0..self.clocks() {
            if !self.is_clock_alike(other, ClockId(c)) {
                return false;
            }
        }
        true
    }

    /// Whether each activity stands on the clock where it stands on it in the other core, which has as many activities.
    fn is_clock_alike(&self, other: &Core<'_>, clock: ClockId) -> bool
        requires activities { length other.now.world.activities
            ≡ length self.now.world.activities }
        requires here { clock < length self.now.world.clocks }
        requires there { clock < length other.now.world.clocks }
        ensures { Decides result (IsAlikeClock self.now.world other.now.world clock) }
    {
        // For `core` of `activities`: its clock too has a standing for each activity.
        let _others = other.activities();
        for a in 0..self.activities() {
            let act = Act(a);
            if !is_same_standing(self.standing(act, clock), other.standing(act, clock)) {
                return false;
            }
        }
        true
    }
}

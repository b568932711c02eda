//! What a step does to the standings of its activity.

ghost use Rattle.std.specs.Prelude.{◌≡◌, ◌+◌, ◌<◌, ◌^◌, length, map, All};
ghost use Rattle.xk_types.specs.Step.{is_registered, settled_clock, moved};
ghost use Rattle.xk_registrations.specs.Standings.{told_of, rooms_of, change_on};
ghost use Rattle.xk_core.specs.Change.{standing_after, standing_after_step, AllowsChangeOn, AllowsChange};

use xk_registrations::{Standings, Which};
use xk_types::{ClockId, Standing};

/// A change of where an activity stands on one clock.
#[derive(Clone, Copy, Debug, PartialEq, Eq)]
pub enum StandingChange {
    /// Open becomes signalled.
    Resume,
    /// Ahead becomes open.
    Pass,
    /// The registration ends.
    Drop,
}

impl StandingChange {
    /// Makes this change of where activity a stands on the clocks that the step of this number concerns, at the end of which each
    /// clock that is ready advances. Only those clocks are looked at.
    #[inline(always)]
    fn make(self, standings: &mut Standings, a: usize, which: Which, now: u64)
        requires there { a < length standings.old.held }
        requires phases { All (λ c. c.phase + 1 < 2 ^ 64) (told_of standings.old) }
        requires allowed { AllowsChangeOn (told_of standings.old) a which self }
        ensures told { told_of standings.new ≡ map (settled_clock now)
            (moved a (change_on which (standing_after self)) (told_of standings.old)) }
        ensures activities { length standings.new.held ≡ length standings.old.held }
        ensures rooms { rooms_of standings.new ≡ rooms_of standings.old }
    {
        match self {
            StandingChange::Resume => standings.resume(a, which, now),
            StandingChange::Pass => standings.pass(a),
            StandingChange::Drop => standings.drop(a, which, now),
        }
    }
}

/// What a step changes of where its activity stands on clocks.
#[derive(Clone, Copy, Debug, PartialEq, Eq)]
pub enum StepChange {
    /// On no clock.
    Nothing,
    /// On this clock.
    Only(ClockId, StandingChange),
    /// On every clock.
    All(StandingChange),
}

impl StepChange {
    /// Makes this change of where activity a stands, in the step of this number, at the end of which each clock that is ready
    /// advances.
    #[inline(always)]
    pub fn make(&self, standings: &mut Standings, a: usize, now: u64)
        requires there { a < length standings.old.held }
        requires phases { All (λ c. c.phase + 1 < 2 ^ 64) (told_of standings.old) }
        requires allowed { AllowsChange (told_of standings.old) a self.now }
        ensures told { told_of standings.new ≡ map (settled_clock now)
            (moved a (standing_after_step self.now) (told_of standings.old)) }
        ensures activities { length standings.new.held ≡ length standings.old.held }
        ensures rooms { rooms_of standings.new ≡ rooms_of standings.old }
    {
        match self {
            StepChange::Nothing => standings.rest(),
            StepChange::Only(c, one) => one.make(standings, a, Which::Only(*c), now),
            StepChange::All(one) => one.make(standings, a, Which::All, now),
        }
    }
}

/// Whether it is a registration.
pub fn is_registered(s: Standing) -> bool
    ensures { result ≡ is_registered s }
{
    !matches!(s, Standing::Apart)
}

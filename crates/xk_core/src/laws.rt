//! What holds of every schedule of a module that the verifier accepted.

ghost use Rattle.xk_types.specs.Acceptance.{EverySchedule};
ghost use Rattle.xk_types.specs.Kinds.{KindsAreSound};

use xk_bounds::Verified;
use xk_law_schedules::{every_accepted_module, kind_soundness};

/// What holds of every schedule of the module, whoever makes it: no step raises ClockUseException or meets a missing or
/// wrong operand; the schedule has at most [`Verified::steps`] steps, and its worlds at most [`Verified::activities`]
/// activities, [`Verified::clocks`] clocks and [`Verified::stack`] slots in the frames of one activity; and if it can't be
/// extended, every activity has ended. The call does nothing; its contract is the law.
pub fn every_schedule(verified: &Verified)
    ensures { EverySchedule verified.now }
{
    every_accepted_module();
    // For `accepted` and `limits` of `module`.
    let _accepted = verified.module();
}

/// The module's kinds are sound, whoever makes the schedule: in each world that it leads to, each slot of a running activity
/// has one of the kinds that [`Verified::kinds`] tells of it at the instruction that the activity stands at. A clock's name is
/// live where the activity is open on the clock, resumed where it is signalled or ahead, and out where it isn't registered.
/// The call does nothing; its contract is the law.
pub fn kinds_sound(verified: &Verified)
    ensures { KindsAreSound verified.now }
{
    kind_soundness();
    // For `accepted` and `limits` of `module`.
    let _checked = verified.module();
}

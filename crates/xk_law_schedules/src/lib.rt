//! The laws over every schedule of an accepted module.
#![tactic(auto)]

ghost use Rattle.std.specs.Prelude.{ℕ};
ghost use Rattle.xk_law_schedules.specs.ClockRoom.{HasRoom, HasRoomLeft, IsAboutToMake};
ghost use Rattle.xk_types.specs.Acceptance.{EverySchedule, IsAccepted};
ghost use Rattle.xk_types.specs.Code.{IsWithinLimits, ModuleValue};
ghost use Rattle.xk_types.specs.Kinds.{KindsAreSound};
ghost use Rattle.xk_types.specs.Schedule.{IsReached};
ghost use Rattle.xk_types.specs.World.{World};

/// What holds of every schedule of an accepted module, whoever made it. No list of activity numbers runs into a clock
/// operation without a registration, or a missing or wrong operand. A legal list has at most the verified number of
/// steps, and its worlds at most the verified numbers of activities, clocks and slots in one activity's frames. Where
/// nobody is enabled, every activity has ended.
pub fn every_accepted_module()
    ensures { (m : ModuleValue) → IsWithinLimits m → IsAccepted m → EverySchedule m }
{}

/// The kinds that walks follow are sound: in each world that a legal schedule of an accepted module leads to, each slot of
/// a running activity holds what some walk comes with to the instruction that the activity stands at. So what no walk
/// comes with, no run has there.
pub fn kind_soundness()
    ensures { (m : ModuleValue) → IsWithinLimits m → IsAccepted m → KindsAreSound m }
{}

/// In each world that a legal schedule of an accepted module leads to, there are no more clocks than verified, and an activity
/// is registered on no more of them than it was given, and than there are slots in its frames in which clocks are made, from the
/// unit on that it began with. For each of them is named in such a slot, and a slot names one: what is named in a parameter of a
/// method is named by who called it, too. So where an activity is about to make a clock, there is one clock less than verified
/// at least, and the activity is registered on one less than it may be.
pub fn room_for_clocks()
    ensures reached { (m : ModuleValue) (w : World) → IsWithinLimits m → IsAccepted m
        → IsReached m w → HasRoom m w }
    ensures about_to_make { (m : ModuleValue) (w : World) → IsWithinLimits m → IsAccepted m
        → IsReached m w → (a : ℕ) → IsAboutToMake m w a → HasRoomLeft m w a }
{}

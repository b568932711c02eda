//! What `x10clock races` tells of one run, and what holds of all runs for it: where it tells of no race, that one run speaks for
//! all others.
#![tactic(auto)]

pub mod laws;

ghost use Rattle.std.specs.Prelude.{◌≡◌, ℕ, ℤ, true, List, None};
ghost use Rattle.xk_law_traces.specs.RaceFreedom.{HasNoRace};
ghost use Rattle.xk_law_traces.specs.OneRun.{ComeToOne, IsWholeRun};
ghost use Rattle.xk_races.specs.Races.{gap_in, is_race_free, sights_of_run};
ghost use Rattle.xk_types.specs.Acceptance.{IsAccepted};
ghost use Rattle.xk_types.specs.Code.{IsWithinLimits, ModuleValue};
ghost use Rattle.xk_types.specs.Logs.{schedule_of};
ghost use Rattle.xk_types.specs.Schedule.{printed};
ghost use Rattle.xk_types.specs.World.{AreArguments, World, opening};
ghost use Rattle.xk_types.specs.declared.world.Entry.{Entry};

/// Where no race is told of one run by which all have ended, its class has none. So every run by which all have ended comes to the same:
/// the shared numbers are the same at the end, each activity, by its number there, starts the same activities and prints the same, so
/// that it is known by who started it and as which, and each number is printed as often.
pub fn one_speaks_for_all()
    ensures no_race { (m : ModuleValue) (args : List ℤ) (log : List Entry) (z : World)
        → IsWithinLimits m → IsAccepted m → AreArguments m args
        → IsWholeRun m args (schedule_of log) z
        → is_race_free m args log ≡ true → HasNoRace m (opening m args) (schedule_of log) }
    ensures every { (m : ModuleValue) (args : List ℤ) (log : List Entry) (t : List ℕ) (z y : World)
        → IsWithinLimits m → IsAccepted m → AreArguments m args
        → IsWholeRun m args (schedule_of log) z → is_race_free m args log ≡ true
        → IsWholeRun m args t y → ComeToOne m args (schedule_of log) t z y }
{}

/// Where its prints are told to be in one order, too, all runs print the same list.
pub fn ordered_prints()
    ensures { (m : ModuleValue) (args : List ℤ) (log : List Entry) (t : List ℕ) (z y : World)
        → IsWithinLimits m → IsAccepted m → AreArguments m args
        → IsWholeRun m args (schedule_of log) z → is_race_free m args log ≡ true
        → gap_in (sights_of_run m args log) ≡ None → IsWholeRun m args t y
        → printed m (schedule_of log) (opening m args) ≡ printed m t (opening m args) }
{}

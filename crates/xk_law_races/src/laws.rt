//! That the order in which races are looked for has the finishes and the passes of the run's worlds: nothing here is computed.

ghost use Rattle.std.specs.Prelude.{◌≡◌, ℕ, ℤ, List};
ghost use Rattle.xk_law_races.specs.Finishes.{ClosesAreExact};
ghost use Rattle.xk_law_races.specs.Passes.{PassesAreExact};
ghost use Rattle.xk_types.specs.Acceptance.{IsAccepted};
ghost use Rattle.xk_types.specs.Code.{IsWithinLimits, ModuleValue};
ghost use Rattle.xk_types.specs.Logs.{schedule_of};
ghost use Rattle.xk_types.specs.Schedule.{Through, run};
ghost use Rattle.xk_types.specs.World.{AreArguments, World, opening};
ghost use Rattle.xk_types.specs.declared.world.Entry.{Entry};

/// Of the deeds of a legal run of an accepted module, the order has the end of an activity right before the close of a finish exactly where
/// that is the first one behind it to close the finish that governs the activity, by the worlds in which the two steps are taken. And each
/// activity that is under a finish where it is closed has an end that comes before the close. The call does nothing; its contract is the law.
pub fn closes_are_exact()
    ensures { (m : ModuleValue) (args : List ℤ) (log : List Entry) (z : World)
        → IsWithinLimits m → IsAccepted m → AreArguments m args
        → run m (schedule_of log) (opening m args) ≡ Through z → ClosesAreExact m args log }
{}

/// Of the deeds of a legal run of an accepted module, the order has one at a clock right before a pass of that clock exactly where by it an
/// activity let the clock go that had held it in an earlier phase, by the worlds in which the two steps are taken. Each activity that holds
/// a clock in an earlier phase, in any world of the run, lets it go by such a deed, in that world or later. And each pass is a deed, for
/// each clock on which its activity is registered. The call does nothing; its contract is the law.
pub fn passes_are_exact()
    ensures { (m : ModuleValue) (args : List ℤ) (log : List Entry) (z : World)
        → IsWithinLimits m → IsAccepted m → AreArguments m args
        → run m (schedule_of log) (opening m args) ≡ Through z → PassesAreExact m args log }
{}

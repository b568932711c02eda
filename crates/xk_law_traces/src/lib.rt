//! Schedules that differ in the order of steps that commute alone: what one run without a race tells of all others.
#![tactic(auto)]

ghost use Rattle.std.specs.Prelude.{◌≡◌, ℕ, ℤ, List};
ghost use Rattle.xk_law_traces.specs.Classes.{AreOneClass};
ghost use Rattle.xk_law_traces.specs.RaceFreedom.{HasNeverTwo, HasNoRace};
ghost use Rattle.xk_law_traces.specs.Edges.{AreOneByOne, AreOrdered, AreSound, IsCause, IsEdge, StepName, prints};
ghost use Rattle.xk_law_traces.specs.Moments.{is_print};
ghost use Rattle.xk_law_traces.specs.OneRun.{AddsAtMost, ComeToOne, GoesAsWell, IsBegun, IsWholeRun};
ghost use Rattle.xk_types.specs.Acceptance.{IsAccepted};
ghost use Rattle.xk_types.specs.Code.{IsWithinLimits, ModuleValue};
ghost use Rattle.xk_types.specs.Schedule.{Through, printed, run};
ghost use Rattle.xk_types.specs.World.{AreArguments, World, opening};

/// Schedules of one class are one run to each activity: if one is legal, so is the other; they lead to the same world, but for numbers
/// of clocks and activities; and each activity has, by its number there, the same events in both, and starts the same activities. Each
/// number is printed as often; where no two could be printed at once, the same list is printed.
pub fn one_class()
    ensures same { (m : ModuleValue) (args : List ℤ) (s t : List ℕ) (z : World)
        → IsWithinLimits m → IsAccepted m → AreArguments m args
        → run m s (opening m args) ≡ Through z → (member : AreOneClass m (opening m args) s t)
        → GoesAsWell m (opening m args) s t member z }
    ensures prints { (m : ModuleValue) (args : List ℤ) (s t : List ℕ) (z : World)
        → IsWithinLimits m → IsAccepted m → AreArguments m args
        → run m s (opening m args) ≡ Through z → AreOneClass m (opening m args) s t
        → HasNeverTwo is_print m (opening m args) s
        → printed m s (opening m args) ≡ printed m t (opening m args) }
{}

/// The class law. Where all have ended by a schedule in whose class there is no race, a schedule of that class begins with each legal
/// schedule.
pub fn class_law()
    ensures { (m : ModuleValue) (args : List ℤ) (s t : List ℕ) (z y : World)
        → IsWithinLimits m → IsAccepted m → AreArguments m args
        → IsWholeRun m args s z → HasNoRace m (opening m args) s
        → run m t (opening m args) ≡ Through y → IsBegun m (opening m args) s t }
{}

/// One run without a race speaks for all others: whoever took the steps by which all have ended, the shared numbers are the same at the
/// end, each activity, by its number there, starts the same activities and prints the same, and each number is printed as often. So an
/// activity is known by its path from main: who started it, and as which. In which order clocks were made and activities started doesn't
/// matter. Where no two numbers could be printed at once either, the printed list is the same.
pub fn one_run()
    ensures every { (m : ModuleValue) (args : List ℤ) (s t : List ℕ) (z y : World)
        → IsWithinLimits m → IsAccepted m → AreArguments m args
        → IsWholeRun m args s z → HasNoRace m (opening m args) s
        → IsWholeRun m args t y → ComeToOne m args s t z y }
    ensures prints { (m : ModuleValue) (args : List ℤ) (s t : List ℕ) (z y : World)
        → IsWithinLimits m → IsAccepted m → AreArguments m args
        → IsWholeRun m args s z → HasNoRace m (opening m args) s
        → HasNeverTwo is_print m (opening m args) s → IsWholeRun m args t y
        → printed m s (opening m args) ≡ printed m t (opening m args) }
{}

/// What orders one run orders its class. Where edges between the steps of a run are sound, and all steps of different activities that
/// conflict on a shared number are ordered by them and by the order of each activity's own steps, the class of the run has no race: that
/// one run speaks for all. Where they also order all steps that print, all print the same list.
pub fn ordered_run()
    ensures no_race { (m : ModuleValue) (args : List ℤ) (s : List ℕ) (z : World)
        (edges : List (StepName × StepName))
        → IsWithinLimits m → IsAccepted m → AreArguments m args → IsWholeRun m args s z
        → AreSound m (opening m args) s edges → AreOrdered m (opening m args) s edges
        → HasNoRace m (opening m args) s }
    ensures every { (m : ModuleValue) (args : List ℤ) (s t : List ℕ) (z y : World)
        (edges : List (StepName × StepName))
        → IsWithinLimits m → IsAccepted m → AreArguments m args → IsWholeRun m args s z
        → AreSound m (opening m args) s edges → AreOrdered m (opening m args) s edges
        → IsWholeRun m args t y → ComeToOne m args s t z y }
    ensures prints { (m : ModuleValue) (args : List ℤ) (s t : List ℕ) (z y : World)
        (edges : List (StepName × StepName))
        → IsWithinLimits m → IsAccepted m → AreArguments m args → IsWholeRun m args s z
        → AreSound m (opening m args) s edges → AreOrdered m (opening m args) s edges
        → AreOneByOne prints m (opening m args) s edges → IsWholeRun m args t y
        → printed m s (opening m args) ≡ printed m t (opening m args) }
{}

/// Edges of starts, of finishes and of clocks are sound: from the start of an activity to its first step; from each step of an activity
/// under a finish to the end of that finish; and to a pass from each step before which one of its clocks still waited for whoever took
/// the step, if that clock has advanced since.
pub fn sound_edges()
    ensures { (m : ModuleValue) (args : List ℤ) (s : List ℕ) (z : World)
        (edges : List (StepName × StepName))
        → IsWithinLimits m → IsAccepted m → AreArguments m args → IsWholeRun m args s z
        → ((x y : StepName) → IsEdge edges x y → IsCause m (opening m args) s x y)
        → AreSound m (opening m args) s edges }
{}

/// X10's promise for clocks, finishes and starts alone: an accepted module that neither reads nor writes shared numbers, but adds to them
/// at most, has no race. So all its runs end with the same shared numbers and print each number as often, and in all of them each
/// activity starts the same activities and prints the same.
pub fn only_additions()
    ensures no_race { (m : ModuleValue) (args : List ℤ) (s : List ℕ)
        → AddsAtMost m → HasNoRace m (opening m args) s }
    ensures same { (m : ModuleValue) (args : List ℤ) (s t : List ℕ) (z y : World)
        → IsWithinLimits m → IsAccepted m → AreArguments m args → AddsAtMost m
        → IsWholeRun m args s z → IsWholeRun m args t y → ComeToOne m args s t z y }
{}

//! Worlds that are the same but for numbers of clocks and of activities.

ghost use Rattle.std.specs.Prelude.{◌≡◌, ℕ, List, ◌++◌};
ghost use Rattle.xk_law_names.specs.ActivityNames.{HasAllStandings};
ghost use Rattle.xk_law_names.specs.Names.{AreSameBy, Exchange, GoAsOne, IsSquareButNames};
ghost use Rattle.xk_law_commute.specs.Conflicts.{AreConflictFree};
ghost use Rattle.xk_types.specs.Acceptance.{IsAccepted};
ghost use Rattle.xk_types.specs.Code.{IsWithinLimits, ModuleValue};
ghost use Rattle.xk_types.specs.Schedule.{IsReached};
ghost use Rattle.xk_types.specs.World.{World};

/// Worlds that are the same but for names, and for numbers of steps and phases, go on as one. In each world that a legal schedule of an
/// accepted module leads to, steps of two activities commute up to that, if their instructions don't conflict on a shared number: both
/// may make a clock, and both may start an activity.
pub fn same_but_names()
    ensures joined { (xs ys : List Exchange) (w v u : World)
        → AreSameBy xs w v → AreSameBy ys v u → AreSameBy (xs ++ ys) w u }
    ensures steps { (m : ModuleValue) (xs : List Exchange) (w v : World)
        → HasAllStandings w → AreSameBy xs w v → GoAsOne m xs w v }
    ensures squares { (m : ModuleValue) (w : World)
        → IsWithinLimits m → IsAccepted m → IsReached m w
        → (a b : ℕ) → (b ≡ a → ⊥) → AreConflictFree m w a b → IsSquareButNames m w a b }
{}

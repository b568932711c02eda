//! Nothing depends on the number of a clock.

ghost use Rattle.std.specs.Prelude.{◌≡◌, ◌<◌, ℕ, suc, true, List, length};
ghost use Rattle.xk_law_names.specs.ClockNames.{GoesSwapped, IsSquareOfMakes, clocks_swapped, outcome_swapped};
ghost use Rattle.xk_law_commute.specs.Squares.{makes_next};
ghost use Rattle.xk_types.specs.Acceptance.{IsAccepted};
ghost use Rattle.xk_types.specs.Code.{IsWithinLimits, ModuleValue};
ghost use Rattle.xk_types.specs.Schedule.{IsReached};
ghost use Rattle.xk_types.specs.Step.{step};
ghost use Rattle.xk_types.specs.World.{World};

/// Nothing but a clock's name depends on its number. Where two neighbours among the clocks have changed places, each activity takes the
/// same steps, with the same events: so does each schedule, and it prints the same. And where two activities can each make a clock, both
/// orders lead to the same world, but for numbers of steps and phases, once the two new clocks have changed places.
pub fn clock_names()
    ensures steps { (m : ModuleValue) (w : World) (k a : ℕ) → suc k < length w.clocks
        → step m (clocks_swapped k w) a ≡ outcome_swapped k (step m w a) }
    ensures runs { (m : ModuleValue) (w : World) (k : ℕ) (s : List ℕ) → suc k < length w.clocks
        → GoesSwapped m w k s }
    ensures makes { (m : ModuleValue) (w : World) → IsWithinLimits m → IsAccepted m → IsReached m w
        → (a b : ℕ) → (b ≡ a → ⊥) → makes_next m w a ≡ true → makes_next m w b ≡ true
        → IsSquareOfMakes m w a b }
{}

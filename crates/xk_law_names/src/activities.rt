//! Nothing depends on the number of an activity.

ghost use Rattle.std.specs.Prelude.{◌≡◌, ◌<◌, ℕ, suc, List, ◌∷◌, length};
ghost use Rattle.xk_law_names.specs.ActivityNames.{
  GoesInEitherOrder,
  GoesRenamed,
  HasAllStandings,
  IsSquareOfStarts,
  activities_swapped,
  outcome_renamed,
  renamed,
};
ghost use Rattle.xk_law_commute.specs.Conflicts.{next_instruction};
ghost use Rattle.xk_law_commute.specs.PlainWorlds.{AreAlike};
ghost use Rattle.xk_types.specs.Acceptance.{IsAccepted};
ghost use Rattle.xk_types.specs.Code.{IsWithinLimits, ModuleValue};
ghost use Rattle.xk_types.specs.Schedule.{IsReached, Through, all_ended, run};
ghost use Rattle.xk_types.specs.Step.{Stepped, step};
ghost use Rattle.xk_types.specs.declared.world.Event.TheVariants as event;
ghost use Rattle.xk_types.specs.World.{World};

/// Nothing but an activity's name depends on its number. Where two neighbours among the activities have each other's number, each
/// takes by that number the steps that it took by its own, with the same events: so does each schedule, and it prints the same. It
/// is asked that both are there, and that each clock has a standing of each activity, as in all worlds that are reached; main may
/// be one of the two. Where two activities can each start one, both orders lead to the same world, but for numbers of steps and
/// phases, once the two new ones have each other's number. So a schedule may as well start them in the other order, and go on by the
/// numbers that they have then: each activity has the same events, and the same list is printed.
pub fn activity_names()
    ensures steps { (m : ModuleValue) (w : World) (k a : ℕ)
        → suc k < length w.activities → HasAllStandings w
        → step m (activities_swapped k w) (renamed k a) ≡ outcome_renamed k (step m w a) }
    ensures instructions { (m : ModuleValue) (w : World) (k a : ℕ) → suc k < length w.activities
        → next_instruction m (activities_swapped k w) (renamed k a) ≡ next_instruction m w a }
    ensures runs { (m : ModuleValue) (w : World) (k : ℕ) (s : List ℕ)
        → suc k < length w.activities → HasAllStandings w → GoesRenamed m w k s }
    ensures reached { (m : ModuleValue) (w : World)
        → IsWithinLimits m → IsAccepted m → IsReached m w → HasAllStandings w }
    ensures starts { (m : ModuleValue) (w : World)
        → IsWithinLimits m → IsAccepted m → IsReached m w → (a b : ℕ) → (b ≡ a → ⊥)
        → IsSquareOfStarts m w a b }
    ensures orders { (m : ModuleValue) (w : World)
        → IsWithinLimits m → IsAccepted m → IsReached m w → (a b : ℕ) → (b ≡ a → ⊥) → (u v : World)
        → step m w a ≡ Stepped u event.Spawned → step m w b ≡ Stepped v event.Spawned
        → (s : List ℕ) (z : World) → run m (a ∷ b ∷ s) w ≡ Through z
        → GoesInEitherOrder m w a b s z }
{}

/// The exchange of two activities' numbers is undone by another. It leaves worlds alike that differ in numbers of steps and phases
/// alone, shared numbers as they are, nobody ended who wasn't, and a standing of each activity on each clock.
pub fn exchanged_activities()
    ensures undone { (k : ℕ) (w : World) → activities_swapped k (activities_swapped k w) ≡ w }
    ensures alike { (k : ℕ) (w v : World) → AreAlike w v
        → AreAlike (activities_swapped k w) (activities_swapped k v) }
    ensures cells { (k : ℕ) (w : World) → (activities_swapped k w).cells ≡ w.cells }
    ensures ended { (k : ℕ) (w : World) → all_ended (activities_swapped k w) ≡ all_ended w }
    ensures standings { (k : ℕ) (w : World) → HasAllStandings w
        → HasAllStandings (activities_swapped k w) }
{}

//! Steps of two activities commute: the laws on which rest what holds of all schedules by holding of one, and a search over them.
#![tactic(auto)]

ghost use Rattle.std.specs.Prelude.{◌≡◌, ◌<◌, ℕ, ℤ, Bool, false, true, List, [], length};
ghost use Rattle.xk_law_commute.specs.ClockChanges.{Change, IsPossible, after_change, after_start};
ghost use Rattle.xk_law_commute.specs.Conflicts.{AreConflictFree};
ghost use Rattle.xk_law_commute.specs.Exploration.{AreExplored, AreLedTo, HasAlike, IsIn, NothingIsMissed};
ghost use Rattle.xk_law_commute.specs.PlainWorlds.{plain, plain_clock, plain_outcome};
ghost use Rattle.xk_law_commute.specs.QuietSteps.{AlikeWorldsGoAlike, QuietStepsGoFirst};
ghost use Rattle.xk_law_commute.specs.Squares.{IsSquare, makes_next, starts_next};
ghost use Rattle.xk_types.specs.Acceptance.{IsAccepted};
ghost use Rattle.xk_types.specs.Code.{IsWithinLimits, ModuleValue};
ghost use Rattle.xk_types.specs.Schedule.{IsReached};
ghost use Rattle.xk_types.specs.Step.{is_ready, step};
ghost use Rattle.xk_types.specs.World.{AreArguments, Clock, World, opening, standing_of};

/// No step looks at how many steps were taken, at when activities passed and clocks advanced, or at phases: a step of the world
/// without these comes to what it comes to without them.
pub fn plain_steps()
    ensures { (m : ModuleValue) (w : World) (a : ℕ)
        → plain_outcome (step m (plain w) a) ≡ plain_outcome (step m w a) }
{}

/// What two activities do to a clock commutes, up to phases, if that clock isn't ready: changes of where they stand, of which a
/// pass is made by one that isn't signalled alone; and such a change of one, and a start by the other.
pub fn one_clock()
    ensures changes { (c : Clock) → is_ready c ≡ false → (a b : ℕ) → (b ≡ a → ⊥)
        → (f g : Change) → IsPossible f (standing_of c a) → IsPossible g (standing_of c b)
        → (n o p q : ℕ)
        → plain_clock (after_change n b g (after_change o a f c))
        ≡ plain_clock (after_change p a f (after_change q b g c)) }
    ensures start { (c : Clock) → is_ready c ≡ false → (a b : ℕ) → (b ≡ a → ⊥)
        → a < length c.standings → (f : Change) (given : Bool) (n o p q : ℕ)
        → plain_clock (after_start n b given (after_change o a f c))
        ≡ plain_clock (after_change p a f (after_start q b given c)) }
{}

/// In each world that a legal schedule of an accepted module leads to, steps of two activities commute, if their instructions don't
/// conflict on a shared number, and don't both make a clock, nor both start an activity: each can be taken after the other, with
/// the same event, and either order leads to the same world, but for numbers of steps and phases. (Two new clocks, and two new
/// activities, would have each other's numbers in the other order.)
pub fn squares()
    ensures { (m : ModuleValue) (w : World) → IsWithinLimits m → IsAccepted m → IsReached m w
        → (a b : ℕ) → (b ≡ a → ⊥) → AreConflictFree m w a b
        → (makes_next m w a ≡ true → makes_next m w b ≡ true → ⊥)
        → (starts_next m w a ≡ true → starts_next m w b ≡ true → ⊥) → IsSquare m w a b }
{}

/// A step may be taken before all others where it neither prints, nor makes a clock, nor starts an activity, nor has to do with a
/// shared number: it prints nothing, another's step leaves it as it is, and it commutes with that. And worlds go on alike that
/// differ in numbers of steps and phases alone: so one of them stands for all.
pub fn quiet_first()
    ensures first { (m : ModuleValue) → IsWithinLimits m → IsAccepted m → QuietStepsGoFirst m }
    ensures alike { (m : ModuleValue) → AlikeWorldsGoAlike m }
{}

/// What all legal schedules of an accepted module print by which all have ended is known by worlds that were found, each with the
/// numbers that were printed by then: if the opening world was found, or one that is alike, before any number; and if from each of
/// them others were, by one quiet step or by each step, up to worlds that are alike.
pub fn nothing_missed()
    ensures { (m : ModuleValue) (args : List ℤ) (all : List (World × List ℤ))
        → IsWithinLimits m → IsAccepted m → AreArguments m args → AreLedTo m args (IsIn all)
        → HasAlike (IsIn all) (opening m args) [] → AreExplored m (IsIn all)
        → NothingIsMissed m args (IsIn all) }
{}

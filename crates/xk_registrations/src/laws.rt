//! The clocks that are told, and the steps of a world.

ghost use Rattle.std.specs.Prelude.{◌≡◌, ℕ, ◌+◌, ◌<◌, ◌^◌, Bool, false, List, [], ◌∷◌, ◌++◌, map, length, None, slice_set};
ghost use Rattle.std.specs.List.{list_any};
ghost use Rattle.xk_types.specs.World.{standing_of};
ghost use Rattle.xk_types.specs.Step.{is_signalled, resumed, passed, dropped, only, all, settled_clock, moved, joined, new_clock};
ghost use Rattle.xk_clocks.specs.Table.{CountValue};
ghost use Rattle.xk_registrations.specs.declared.affected_clocks.Which.TheVariants as which;
ghost use Rattle.xk_registrations.specs.View.{Registration, told, held, IsKept, AreSound, AreDistinct};
ghost use Rattle.xk_registrations.specs.RegistrationChanges.{ClocksValue, concerns, calls, call_resume, call_drop, call_register, regs_open, regs_on, regs_resumed, regs_passed, phase_at, IsGiven, AreToldAs, others, made_clocks, OwesResume, OwesDrop, OwesRegister, AreAllowed, HavePhasesLeft};

/// Clocks in numbers, and the registrations that activities hold, tell of clocks with a standing for each activity. As each
/// part of a step that concerns clocks changes them, they tell of what the definition of the step makes of those clocks, once
/// the clocks that are ready have advanced; and they still belong together. These are: a `resume`, an arrival at an `advance`, a
/// pass, a `drop`, the end of an activity, the start of one that is given some clocks, and a `make`. And no more is owed to the
/// calls than holds between two steps, as long as no clock is in the greatest phase and activities can be numbered.
pub fn goes_with_steps()
    ensures opened { (v : ClocksValue) → v.table.clocks ≡ [] → v.lasts ≡ []
        → AreToldAs [] v ([] ∷ []) }
    ensures resumed { (now a k : ℕ) (v : ClocksValue) (acts : List (List Registration))
        → IsKept v.lasts acts v.table.clocks → a < length acts
        → AreToldAs
        (map (settled_clock now) (moved a (only k resumed) (told v.lasts acts v.table.clocks)))
        (calls now call_resume (regs_open (concerns (which.Only k)) (held acts a)) v)
        (slice_set acts a
        (regs_resumed (concerns (which.Only k)) (phase_at v.table.clocks) (held acts a))) }
    ensures arrived { (now a : ℕ) (v : ClocksValue) (acts : List (List Registration))
        → IsKept v.lasts acts v.table.clocks → a < length acts
        → AreToldAs
        (map (settled_clock now) (moved a (all resumed) (told v.lasts acts v.table.clocks)))
        (calls now call_resume (regs_open (concerns which.All) (held acts a)) v)
        (slice_set acts a
        (regs_resumed (concerns which.All) (phase_at v.table.clocks) (held acts a))) }
    ensures passed { (now a : ℕ) (v : ClocksValue) (acts : List (List Registration))
        → IsKept v.lasts acts v.table.clocks → a < length acts
        → list_any (λ c. is_signalled (standing_of c a)) (told v.lasts acts v.table.clocks) ≡ false
        → AreToldAs
        (map (settled_clock now) (moved a (all passed) (told v.lasts acts v.table.clocks)))
        v (slice_set acts a (regs_passed (held acts a))) }
    ensures dropped { (now a k : ℕ) (v : ClocksValue) (acts : List (List Registration))
        → IsKept v.lasts acts v.table.clocks → a < length acts
        → AreToldAs
        (map (settled_clock now) (moved a (only k dropped) (told v.lasts acts v.table.clocks)))
        (calls now call_drop (regs_on (concerns (which.Only k)) (held acts a)) v)
        (slice_set acts a (others (which.Only k) (held acts a))) }
    ensures left { (now a : ℕ) (v : ClocksValue) (acts : List (List Registration))
        → IsKept v.lasts acts v.table.clocks → a < length acts
        → AreToldAs
        (map (settled_clock now) (moved a (all dropped) (told v.lasts acts v.table.clocks)))
        (calls now call_drop (regs_on (concerns which.All) (held acts a)) v)
        (slice_set acts a (others which.All (held acts a))) }
    ensures started { (now a : ℕ) (v : ClocksValue) (acts : List (List Registration))
        → IsKept v.lasts acts v.table.clocks
        → (given : ℕ → Bool) (new : List Registration) → AreSound (length v.table.clocks) new
        → IsGiven given (held acts a) new
        → AreToldAs
        (map (settled_clock now) (joined a given (told v.lasts acts v.table.clocks)))
        (calls now call_register new v) (acts ++ new ∷ []) }
    ensures made { (now a : ℕ) (v : ClocksValue) (acts : List (List Registration))
        → IsKept v.lasts acts v.table.clocks → a < length acts
        → AreToldAs
        (map (settled_clock now) (told v.lasts acts v.table.clocks ++ new_clock (length acts) a ∷
        []))
        (made_clocks v)
        (slice_set acts a (held acts a ++ record {
          clock = length v.table.clocks;
          resumed = None;
        } ∷ [])) }
    ensures may_resume { (ls : List ℕ) (acts : List (List Registration)) (cs : List CountValue)
        → (a : ℕ) → IsKept ls acts cs → a < length acts → HavePhasesLeft cs
        → (test : ℕ → Bool) → AreAllowed OwesResume cs (regs_open test (held acts a)) }
    ensures may_drop { (ls : List ℕ) (acts : List (List Registration)) (cs : List CountValue)
        → (a : ℕ) → IsKept ls acts cs → a < length acts → HavePhasesLeft cs
        → (test : ℕ → Bool) → AreAllowed OwesDrop cs (regs_on test (held acts a)) }
    ensures may_register { (ls : List ℕ) (acts : List (List Registration)) (cs : List CountValue)
        → (a : ℕ) → IsKept ls acts cs → a < length acts → length acts + 1 < 2 ^ 32
        → (given : ℕ → Bool) (new : List Registration)
        → IsGiven given (held acts a) new → AreAllowed OwesRegister cs new }
    ensures sound_start { (n : ℕ) (given : ℕ → Bool) (old new : List Registration)
        → AreSound n old → AreDistinct new → IsGiven given old new → AreSound n new }
{}

//! What is proved of runs by rounds: nothing here is computed.

ghost use Rattle.std.specs.Prelude.{◌≡◌, ℕ, suc, ◌+◌, ◌-◌, ◌*◌, ◌/◌, ◌<◌, ◌≤◌, ℤ, List, ◌∷◌, ◌++◌, length};
ghost use Rattle.xk_law_traces.specs.RaceFreedom.{HasNoRace};
ghost use Rattle.xk_law_traces.specs.Edges.{AreSound, StepName};
ghost use Rattle.xk_law_traces.specs.OneRun.{IsWholeRun};
ghost use Rattle.xk_law_rounds.specs.Rounds.{AreComplete, AreGreedy, AreRounds, HasNoLonger};
ghost use Rattle.xk_law_rounds.specs.Rounds.{HaveSameRounds, IsInRound, IsSpan, IsTakenIn, steps_in};
ghost use Rattle.xk_law_rounds.specs.Processors.{AreBusy, AreWithin, dealt_rounds};
ghost use Rattle.xk_law_rounds.specs.Widths.{HasWidth, IsWidest};
ghost use Rattle.xk_types.specs.Acceptance.{IsAccepted};
ghost use Rattle.xk_types.specs.Code.{IsWithinLimits, ModuleValue};
ghost use Rattle.xk_types.specs.Schedule.{Through, run};
ghost use Rattle.xk_types.specs.World.{AreArguments, World, opening};

/// Where one run has no race, each run to the end takes as many steps. The call does nothing; its contract is the law.
pub fn same_work()
    ensures { (m : ModuleValue) (args : List ℤ) (s t : List ℕ) (z y : World)
        → IsWithinLimits m → IsAccepted m → AreArguments m args
        → IsWholeRun m args s z → HasNoRace m (opening m args) s → IsWholeRun m args t y
        → length t ≡ length s }
{}

/// Where one run has no race, each run to the end by rounds has at least as many rounds as any chain of that one run has
/// steps, by sound edges and each activity's own order. The call does nothing; its contract is the law.
pub fn at_least()
    ensures { (m : ModuleValue) (args : List ℤ) (s : List ℕ) (z y : World)
        (edges : List (StepName × StepName)) (rounds : List (List ℕ))
        → IsWithinLimits m → IsAccepted m → AreArguments m args
        → IsWholeRun m args s z → HasNoRace m (opening m args) s
        → AreSound m (opening m args) s edges
        → AreRounds m (opening m args) rounds y → IsWholeRun m args (steps_in rounds) y
        → HasNoLonger edges s (length rounds) }
{}

/// Where an activity can't take its next step of a run yet, a step of the run causes that one which wasn't taken yet: a start, a step by
/// which a clock is let go, one under a finish. The call does nothing; its contract is the law.
pub fn causes_are_complete()
    ensures { (m : ModuleValue) (args : List ℤ) (s : List ℕ) (z : World)
        → IsWithinLimits m → IsAccepted m → AreArguments m args
        → run m s (opening m args) ≡ Through z → AreComplete m (opening m args) s }
{}

/// A greedy run to the end, with unlimited processors, has exactly as many rounds as its span says. Nothing is asked of other runs, nor
/// of races. The call does nothing; its contract is the law.
pub fn greedy_itself()
    ensures { (m : ModuleValue) (args : List ℤ) (y : World) (rounds : List (List ℕ))
        → IsWithinLimits m → IsAccepted m → AreArguments m args
        → AreGreedy m (opening m args) rounds y → IsWholeRun m args (steps_in rounds) y
        → IsSpan m (opening m args) (steps_in rounds) (length rounds) }
{}

/// A greedy run to the end takes each step in the round in which it comes: the longest chain up to it has as many steps. The call does
/// nothing; its contract is the law.
pub fn greedy_rounds()
    ensures { (m : ModuleValue) (args : List ℤ) (z : World)
        (before : List (List ℕ)) (r : List ℕ) (after : List (List ℕ)) (y : StepName)
        → IsWithinLimits m → IsAccepted m → AreArguments m args
        → AreGreedy m (opening m args) (before ++ r ∷ after) z
        → IsWholeRun m args (steps_in (before ++ r ∷ after)) z → IsTakenIn before r y
        → IsInRound m (opening m args) (steps_in (before ++ r ∷ after)) y (suc (length before)) }
{}

/// A round of a greedy run to the end has as many steps as come in it by their causes. The call does nothing; its contract is the law.
pub fn greedy_widths()
    ensures { (m : ModuleValue) (args : List ℤ) (z : World)
        (before : List (List ℕ)) (r : List ℕ) (after : List (List ℕ))
        → IsWithinLimits m → IsAccepted m → AreArguments m args
        → AreGreedy m (opening m args) (before ++ r ∷ after) z
        → IsWholeRun m args (steps_in (before ++ r ∷ after)) z
        → HasWidth m (opening m args) (steps_in (before ++ r ∷ after)) (suc (length before))
        (length r) }
{}

/// Where one run has no race, each step comes in the same round in each run to the end, by who started its activity and as which. The
/// call does nothing; its contract is the law.
pub fn same_rounds()
    ensures { (m : ModuleValue) (args : List ℤ) (s t : List ℕ) (z y : World)
        → IsWithinLimits m → IsAccepted m → AreArguments m args
        → IsWholeRun m args s z → IsWholeRun m args t y
        → HasNoRace m (opening m args) s → HaveSameRounds m (opening m args) s t }
{}

/// A round of a run has one width: so many steps come in it. Where one run has no race, as many come in it in each run to the end; so
/// the widest round of each has as many. The call does nothing; its contract is the law.
pub fn same_widths()
    ensures one { (m : ModuleValue) (w : World) (s : List ℕ) (n c d : ℕ)
        → HasWidth m w s n c → HasWidth m w s n d → c ≡ d }
    ensures every { (m : ModuleValue) (args : List ℤ) (s t : List ℕ) (z y : World)
        → IsWithinLimits m → IsAccepted m → AreArguments m args
        → IsWholeRun m args s z → HasNoRace m (opening m args) s → IsWholeRun m args t y
        → (n c : ℕ) → HasWidth m (opening m args) s n c → HasWidth m (opening m args) t n c }
    ensures widest { (m : ModuleValue) (args : List ℤ) (s t : List ℕ) (z y : World)
        → IsWithinLimits m → IsAccepted m → AreArguments m args
        → IsWholeRun m args s z → HasNoRace m (opening m args) s → IsWholeRun m args t y
        → (c : ℕ) → IsWidest m (opening m args) s c → IsWidest m (opening m args) t c }
{}

/// Where one run has no race, each run to the end has its span: the longest chain of steps, each a cause of the next, has as many. The
/// call does nothing; its contract is the law.
pub fn every_span()
    ensures { (m : ModuleValue) (args : List ℤ) (s t : List ℕ) (z y : World) (n : ℕ)
        → IsWithinLimits m → IsAccepted m → AreArguments m args
        → IsWholeRun m args s z → HasNoRace m (opening m args) s → IsWholeRun m args t y
        → IsSpan m (opening m args) s n → IsSpan m (opening m args) t n }
{}

/// Where one run has no race, its span is the number of rounds of each greedy run to the end. The call does nothing; its contract is
/// the law.
pub fn greedy()
    ensures { (m : ModuleValue) (args : List ℤ) (s : List ℕ) (z y : World) (rounds : List (List ℕ))
        → IsWithinLimits m → IsAccepted m → AreArguments m args
        → IsWholeRun m args s z → HasNoRace m (opening m args) s
        → AreGreedy m (opening m args) rounds y → IsWholeRun m args (steps_in rounds) y
        → IsSpan m (opening m args) s (length rounds) }
{}

/// Where one run has no race, each run to the end by rounds has at least as many rounds as its span says, and, if none of them has more
/// than p steps, as its work over p. The call does nothing; its contract is the law.
pub fn rounds_at_least()
    ensures span { (m : ModuleValue) (args : List ℤ) (s : List ℕ) (z y : World) (n : ℕ)
        (rounds : List (List ℕ)) → IsWithinLimits m → IsAccepted m → AreArguments m args
        → IsWholeRun m args s z → HasNoRace m (opening m args) s → IsSpan m (opening m args) s n
        → AreRounds m (opening m args) rounds y → IsWholeRun m args (steps_in rounds) y
        → n ≤ length rounds }
    ensures work { (m : ModuleValue) (args : List ℤ) (s : List ℕ) (z y : World) (p : ℕ)
        (rounds : List (List ℕ)) → IsWithinLimits m → IsAccepted m → AreArguments m args
        → IsWholeRun m args s z → HasNoRace m (opening m args) s
        → AreWithin p rounds → IsWholeRun m args (steps_in rounds) y
        → length s ≤ p * length rounds }
{}

/// A greedy run on p processors, none of which is idle in a round while somebody could take a step who takes none, has no more rounds
/// than its span says and a p-th of its further steps; and where one run has no race, than the span and the steps of that one say. The
/// call does nothing; its contract is the law.
pub fn rounds_at_most()
    ensures itself { (m : ModuleValue) (args : List ℤ) (y : World) (p n : ℕ)
        (rounds : List (List ℕ))
        → IsWithinLimits m → IsAccepted m → AreArguments m args → 0 < p
        → AreBusy p m (opening m args) rounds y → IsWholeRun m args (steps_in rounds) y
        → IsSpan m (opening m args) (steps_in rounds) n
        → length rounds ≤ (length (steps_in rounds) - n) / p + n }
    ensures every { (m : ModuleValue) (args : List ℤ) (s : List ℕ) (z y : World) (p n : ℕ)
        (rounds : List (List ℕ))
        → IsWithinLimits m → IsAccepted m → AreArguments m args → 0 < p
        → IsWholeRun m args s z → HasNoRace m (opening m args) s → IsSpan m (opening m args) s n
        → AreBusy p m (opening m args) rounds y → IsWholeRun m args (steps_in rounds) y
        → length rounds ≤ (length s - n) / p + n }
{}

/// The steps of each round of a run may be dealt out among p processors, a p-th of them in a round, before those of the next: so there is
/// a run by rounds of at most p steps, of the same steps in the same order, with as many rounds as that makes. The call does nothing;
/// its contract is the law.
pub fn rounds_are_dealt()
    ensures { (m : ModuleValue) (args : List ℤ) (z : World) (p : ℕ) (rounds : List (List ℕ))
        → IsWithinLimits m → IsAccepted m → AreArguments m args → 0 < p
        → AreRounds m (opening m args) rounds z → IsWholeRun m args (steps_in rounds) z
        → (others : List (List ℕ)) × AreRounds m (opening m args) others z × AreWithin p others
        × (steps_in others ≡ steps_in rounds) × (length others ≡ dealt_rounds p rounds) }
{}

//! What is proved of runs by rounds: nothing here is computed.

ghost use Rattle.std.specs.Prelude.{◌≡◌, ℕ, ◌+◌, ◌-◌, ◌*◌, ◌/◌, ◌<◌, ◌≤◌, ℤ, Option, Some, None};
ghost use Rattle.std.specs.Prelude.{List, length, true};
ghost use Rattle.xk_law_rounds.specs.Processors.{AreBusy};
ghost use Rattle.xk_law_rounds.specs.Rounds.{AreGreedy, IsSpan};
ghost use Rattle.xk_law_traces.specs.OneRun.{IsWholeRun};
ghost use Rattle.xk_law_traces.specs.RaceFreedom.{HasNoRace};
ghost use Rattle.xk_greedy.specs.Rounds.{AreRoundsBy, AreSome, IsByRounds};
ghost use Rattle.xk_types.specs.declared.world.Entry.{Entry};
ghost use Rattle.xk_types.specs.Acceptance.{IsAccepted};
ghost use Rattle.xk_types.specs.Code.{IsWithinLimits, ModuleValue};
ghost use Rattle.xk_types.specs.Logs.{schedule_of};
ghost use Rattle.xk_types.specs.Schedule.{all_ended};
ghost use Rattle.xk_types.specs.World.{AreArguments, World, opening};

/// Rounds without a limit of processors are those of a greedy run: in each of them everybody takes a step who can when it
/// begins, and nobody takes two. The call does nothing; its contract is the law.
pub fn rounds_are_greedy()
    ensures { (m : ModuleValue) (w z : World) (rounds : List (List ℕ))
        → AreRoundsBy None m w rounds z → AreGreedy m w rounds z }
{}

/// A run by rounds to the end, without a limit of processors, has exactly as many rounds as its span says: as the longest chain of its
/// steps, by their causes, has steps. The call does nothing; its contract is the law.
pub fn rounds_are_span()
    ensures { (m : ModuleValue) (args : List ℤ) (log : List Entry) (z : World) (count : ℕ)
        → IsWithinLimits m → IsAccepted m → AreArguments m args
        → IsByRounds None m args log z count → all_ended z ≡ true
        → IsSpan m (opening m args) (schedule_of log) count }
{}

/// And where one run has no race, they are as many as its span says. The call does nothing; its contract is the law.
pub fn rounds_for_all()
    ensures { (m : ModuleValue) (args : List ℤ) (log : List Entry) (s : List ℕ)
        (y z : World) (count : ℕ)
        → IsWithinLimits m → IsAccepted m → AreArguments m args
        → IsWholeRun m args s y → HasNoRace m (opening m args) s
        → IsByRounds None m args log z count → all_ended z ≡ true
        → IsSpan m (opening m args) s count }
{}

/// There is one run by rounds to the end, of a module with these arguments on so many processors: two have the same log and
/// the same number of rounds, and end in the same world. The call does nothing; its contract is the law.
pub fn rounds_are_one()
    ensures { (processors : Option ℕ) (m : ModuleValue) (args : List ℤ) (log other : List Entry)
        (y z : World) (count tally : ℕ)
        → IsByRounds processors m args log y count → IsByRounds processors m args other z tally
        → all_ended y ≡ true → all_ended z ≡ true
        → (log ≡ other) × (y ≡ z) × (count ≡ tally) }
{}

/// Rounds on p processors are those of a greedy run on p: at most p take a step in each of them, and where that leaves a processor,
/// everybody takes one who can. The call does nothing; its contract is the law.
pub fn rounds_are_busy()
    ensures { (m : ModuleValue) (w z : World) (p : ℕ) (rounds : List (List ℕ))
        → AreRoundsBy (Some p) m w rounds z → AreBusy p m w rounds z }
{}

/// Where one run has no race, a run by rounds to the end on p processors has at least as many rounds as its span says and as its work
/// over p, and no more than its span and a p-th of its further work. The call does nothing; its contract is the law.
pub fn rounds_on_processors()
    ensures least { (m : ModuleValue) (args : List ℤ) (log : List Entry) (s : List ℕ)
        (y z : World) (p n count : ℕ)
        → IsWithinLimits m → IsAccepted m → AreArguments m args → 0 < p
        → IsWholeRun m args s y → HasNoRace m (opening m args) s → IsSpan m (opening m args) s n
        → IsByRounds (Some p) m args log z count → all_ended z ≡ true → n ≤ count }
    ensures share { (m : ModuleValue) (args : List ℤ) (log : List Entry) (s : List ℕ)
        (y z : World) (p n count : ℕ)
        → IsWithinLimits m → IsAccepted m → AreArguments m args → 0 < p
        → IsWholeRun m args s y → HasNoRace m (opening m args) s → IsSpan m (opening m args) s n
        → IsByRounds (Some p) m args log z count → all_ended z ≡ true → length s ≤ p * count }
    ensures most { (m : ModuleValue) (args : List ℤ) (log : List Entry) (s : List ℕ)
        (y z : World) (p n count : ℕ)
        → IsWithinLimits m → IsAccepted m → AreArguments m args → 0 < p
        → IsWholeRun m args s y → HasNoRace m (opening m args) s → IsSpan m (opening m args) s n
        → IsByRounds (Some p) m args log z count → all_ended z ≡ true
        → count ≤ (length s - n) / p + n }
{}

/// Each accepted module has a run by rounds to the end with these arguments, on however many processors. The call does nothing; its
/// contract is the law.
pub fn rounds_exist()
    ensures { (processors : Option ℕ) (m : ModuleValue) (args : List ℤ)
        → IsWithinLimits m → IsAccepted m → AreArguments m args → AreSome processors
        → (z : World) × (rounds : List (List ℕ))
        × AreRoundsBy processors m (opening m args) rounds z × (all_ended z ≡ true) }
{}

//! What is proved of the work of runs: nothing here is computed.

ghost use Rattle.std.specs.Prelude.{◌≡◌, ℕ, ◌+◌, ◌-◌, ◌/◌, ◌<◌, ◌≤◌, ℤ, pred, true, List, length, take};
ghost use Rattle.xk_law_traces.specs.OneRun.{IsWholeRun};
ghost use Rattle.xk_law_rounds.specs.Processors.{AreBusy, AreWithin};
ghost use Rattle.xk_law_rounds.specs.Rounds.{AreGreedy, AreRounds, IsInRound, IsSpan, steps_in};
ghost use Rattle.xk_law_rounds.specs.Widths.{HasWidth, IsWidest};
ghost use Rattle.xk_law_traces.specs.Edges.{turns_of};
ghost use Rattle.xk_races.specs.declared.deeds.Deed.{Deed};
ghost use Rattle.xk_races.specs.declared.deeds.Part.TheVariants as part;
ghost use Rattle.xk_races.specs.Lists.{number_at};
ghost use Rattle.xk_races.specs.Order.{IsAt};
ghost use Rattle.xk_races.specs.Races.{is_race_free};
ghost use Rattle.xk_span.specs.Steps.{steps_of_run, steps_span, steps_times, work_of};
ghost use Rattle.xk_law_work.specs.Told.{told_span, told_widest, told_widths, told_work};
ghost use Rattle.xk_span_summary.specs.Shares.{least_rounds, level_rounds};
ghost use Rattle.xk_types.specs.Acceptance.{IsAccepted};
ghost use Rattle.xk_types.specs.Code.{IsWithinLimits, ModuleValue};
ghost use Rattle.xk_types.specs.Logs.{schedule_of};
ghost use Rattle.xk_types.specs.Schedule.{Through, run};
ghost use Rattle.xk_types.specs.World.{AreArguments, World, opening};
ghost use Rattle.xk_types.specs.declared.world.Entry.{Entry};

/// The work that is told of a run is how many steps it has; and where no race is told of it, each run to the end has as many. The
/// call does nothing; its contract is the law.
pub fn work_for_all()
    ensures steps { (m : ModuleValue) (args : List ℤ) (log : List Entry) (z : World)
        → run m (schedule_of log) (opening m args) ≡ Through z
        → work_of (steps_of_run m args log) ≡ length (schedule_of log) }
    ensures every { (m : ModuleValue) (args : List ℤ) (log : List Entry) (t : List ℕ)
        (z y : World) → IsWithinLimits m → IsAccepted m → AreArguments m args
        → IsWholeRun m args (schedule_of log) z → is_race_free m args log ≡ true
        → IsWholeRun m args t y → length t ≡ work_of (steps_of_run m args log) }
{}

/// The span that is told of a run is its span: the longest chain of its steps, by their causes, has as many steps. Where no race is
/// told of it, it is told of each run to the end, and each greedy one has as many rounds. The call does nothing; its contract is
/// the law.
pub fn span_for_all()
    ensures told { (m : ModuleValue) (args : List ℤ) (log : List Entry) (z : World)
        → IsWithinLimits m → IsAccepted m → AreArguments m args
        → run m (schedule_of log) (opening m args) ≡ Through z
        → IsSpan m (opening m args) (schedule_of log) (steps_span (steps_of_run m args log)) }
    ensures every { (m : ModuleValue) (args : List ℤ) (log other : List Entry)
        (z y : World) → IsWithinLimits m → IsAccepted m → AreArguments m args
        → IsWholeRun m args (schedule_of log) z → is_race_free m args log ≡ true
        → IsWholeRun m args (schedule_of other) y
        → steps_span (steps_of_run m args other) ≡ steps_span (steps_of_run m args log) }
    ensures rounds { (m : ModuleValue) (args : List ℤ) (log : List Entry) (z y : World)
        (rounds : List (List ℕ)) → IsWithinLimits m → IsAccepted m → AreArguments m args
        → IsWholeRun m args (schedule_of log) z → is_race_free m args log ≡ true
        → AreGreedy m (opening m args) rounds y → IsWholeRun m args (steps_in rounds) y
        → length rounds ≡ steps_span (steps_of_run m args log) }
{}

/// How many steps the longest chain up to a step has that is told of a run, is the round in which it comes: the longest chain up to it,
/// by the causes of steps, has as many. The call does nothing; its contract is the law.
pub fn round_for_all()
    ensures { (m : ModuleValue) (args : List ℤ) (log : List Entry) (z : World) (k : ℕ) (d : Deed)
        → IsWithinLimits m → IsAccepted m → AreArguments m args
        → run m (schedule_of log) (opening m args) ≡ Through z
        → IsAt (steps_of_run m args log) k d → d.part ≡ part.Print
        → IsInRound m (opening m args) (schedule_of log)
        (d.step.act, turns_of d.step.act (take (pred d.step.number) (schedule_of log)))
        (number_at (steps_times (steps_of_run m args log)) k) }
{}

/// As many steps are told to be in a round of a run as come in it, and the widest round has as many as are told. Where no race is told
/// of it, as many are told of each run to the end. The call does nothing; its contract is the law.
pub fn widths_for_all()
    ensures told { (m : ModuleValue) (args : List ℤ) (log : List Entry) (z : World) (n : ℕ)
        → IsWithinLimits m → IsAccepted m → AreArguments m args
        → run m (schedule_of log) (opening m args) ≡ Through z
        → HasWidth m (opening m args) (schedule_of log) n
        (number_at (told_widths m args log) n) }
    ensures widest { (m : ModuleValue) (args : List ℤ) (log : List Entry) (z : World)
        → IsWithinLimits m → IsAccepted m → AreArguments m args
        → run m (schedule_of log) (opening m args) ≡ Through z
        → IsWidest m (opening m args) (schedule_of log) (told_widest m args log) }
    ensures every { (m : ModuleValue) (args : List ℤ) (log other : List Entry) (z y : World)
        (n : ℕ) → IsWithinLimits m → IsAccepted m → AreArguments m args
        → IsWholeRun m args (schedule_of log) z → is_race_free m args log ≡ true
        → IsWholeRun m args (schedule_of other) y
        → number_at (told_widths m args other) n ≡ number_at (told_widths m args log) n }
    ensures every_widest { (m : ModuleValue) (args : List ℤ) (log other : List Entry)
        (z y : World) → IsWithinLimits m → IsAccepted m → AreArguments m args
        → IsWholeRun m args (schedule_of log) z → is_race_free m args log ≡ true
        → IsWholeRun m args (schedule_of other) y
        → told_widest m args other ≡ told_widest m args log }
{}

/// Where no race is told of a run, each run to the end by rounds of at most p steps has at least as many rounds as are told for p
/// processors; and a greedy one on p, none of which is idle while somebody could take a step, has no more than the span that is told and
/// a p-th of the further work. There is one by rounds of at most p steps with exactly the second number of rounds that is told. The call
/// does nothing; its contract is the law.
pub fn processors_for_all()
    ensures least { (m : ModuleValue) (args : List ℤ) (log : List Entry) (z y : World) (p : ℕ)
        (rounds : List (List ℕ)) → IsWithinLimits m → IsAccepted m → AreArguments m args → 0 < p
        → IsWholeRun m args (schedule_of log) z → is_race_free m args log ≡ true
        → AreRounds m (opening m args) rounds y → AreWithin p rounds
        → IsWholeRun m args (steps_in rounds) y
        → least_rounds p (told_work m args log) (told_span m args log) ≤ length rounds }
    ensures most { (m : ModuleValue) (args : List ℤ) (log : List Entry) (z y : World) (p : ℕ)
        (rounds : List (List ℕ)) → IsWithinLimits m → IsAccepted m → AreArguments m args → 0 < p
        → IsWholeRun m args (schedule_of log) z → is_race_free m args log ≡ true
        → AreBusy p m (opening m args) rounds y → IsWholeRun m args (steps_in rounds) y
        → length rounds ≤ (told_work m args log - told_span m args log) / p + told_span m args log }
    ensures level { (m : ModuleValue) (args : List ℤ) (log : List Entry) (z : World) (p : ℕ)
        → IsWithinLimits m → IsAccepted m → AreArguments m args → 0 < p
        → IsWholeRun m args (schedule_of log) z → is_race_free m args log ≡ true
        → (y : World) × (rounds : List (List ℕ)) × AreRounds m (opening m args) rounds y
        × AreWithin p rounds × IsWholeRun m args (steps_in rounds) y
        × (length rounds ≡ level_rounds p (told_widths m args log)) }
{}

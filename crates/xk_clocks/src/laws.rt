//! The numbers of a clock and its standings.

ghost use Rattle.std.specs.Prelude.{◌≡◌, ◌<◌, ◌≤◌, ℕ, true, false};
ghost use Rattle.xk_types.specs.World.{Clock, standing_of};
ghost use Rattle.xk_types.specs.declared.world.Standing.TheVariants as standing;
ghost use Rattle.xk_types.specs.Step.{is_registered, is_pending, is_signalled, is_ready, settled_clock, moved_on, joined_on, new_clock, resumed, passed, dropped};
ghost use Rattle.xk_clocks.specs.Table.{CountValue, new_count, is_ready_count, count_settled, count_registered, count_resumed, count_dropped, one_if};
ghost use Rattle.xk_clocks.specs.StandingCounts.{IsCountOf};

/// Where the numbers are those of a clock of the definition of a step, they say of it what the definition does: whether it
/// is ready, and what it is once it has advanced. They stay those of the clock at each change of one standing: at a `make`, for
/// a new activity that is given the clock or isn't, at a `resume`, at a `drop` or an end, and at a pass, which changes none of
/// them. And such a change owes to the table no more than holds of any clock.
pub fn goes_with_standings()
    ensures ready { (clock : Clock) (c : CountValue) → IsCountOf clock c
        → is_ready_count c ≡ is_ready clock }
    ensures settled { (clock : Clock) (c : CountValue) → IsCountOf clock c
        → (now : ℕ) → IsCountOf (settled_clock now clock) (count_settled c) }
    ensures at_rest { (c : CountValue) → is_ready_count (count_settled c) ≡ false }
    ensures made { (n a : ℕ) → a < n → IsCountOf (new_clock n a) new_count }
    ensures given { (clock : Clock) (c : CountValue) → IsCountOf clock c
        → (a : ℕ) → is_registered (standing_of clock a) ≡ true
        → IsCountOf (joined_on a true clock)
        (count_registered (is_pending (standing_of clock a)) c) }
    ensures not_given { (clock : Clock) (c : CountValue) → IsCountOf clock c
        → (a : ℕ) → IsCountOf (joined_on a false clock) c }
    ensures resumed { (clock : Clock) (c : CountValue) → IsCountOf clock c
        → (a : ℕ) → standing_of clock a ≡ standing.Open
        → IsCountOf (moved_on a resumed clock) (count_resumed c) }
    ensures dropped { (clock : Clock) (c : CountValue) → IsCountOf clock c
        → (a : ℕ) → is_registered (standing_of clock a) ≡ true
        → IsCountOf (moved_on a dropped clock)
        (count_dropped (is_pending (standing_of clock a)) c) }
    ensures passed { (clock : Clock) (c : CountValue) → IsCountOf clock c
        → (a : ℕ) → is_signalled (standing_of clock a) ≡ false
        → IsCountOf (moved_on a passed clock) c }
    ensures owed { (clock : Clock) (c : CountValue) → IsCountOf clock c
        → (a : ℕ) → is_registered (standing_of clock a) ≡ true → 0 < c.registered }
    ensures owed_pending { (clock : Clock) (c : CountValue) → IsCountOf clock c
        → (a : ℕ) → one_if (is_pending (standing_of clock a)) ≤ c.pending }
    ensures owed_signalled { (clock : Clock) (c : CountValue) → IsCountOf clock c
        → (a : ℕ) → is_signalled (standing_of clock a) ≡ true → c.pending < c.registered }
    ensures owed_by_rest { (c : CountValue) → is_ready_count c ≡ false
        → 0 < c.registered → 0 < c.pending }
{}

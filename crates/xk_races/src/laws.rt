//! What is proved of races beyond what calls answer.

ghost use Rattle.std.specs.Prelude.{List};
ghost use Rattle.xk_races.specs.declared.deeds.Deed.{Deed};
ghost use Rattle.xk_races.specs.Exactness.{OrderIsExact, RacesAreExact};
ghost use Rattle.xk_races.specs.Knowledge.{Sight};

/// Of two accesses or prints of a run, the one is told to come before the other exactly where the least order has it so: that of an activity's own
/// steps, of starts, of what a pass waited for, and of what the close of a finish waited for. The call does nothing; its contract is the law.
pub fn order_is_exact()
    ensures { (ds : List Deed) → OrderIsExact ds }
{}

/// What is listed of accesses are races among them, and of each race one of the same two places is listed. The call does nothing; its contract is
/// the law.
pub fn races_are_exact()
    ensures { (sights : List Sight) → RacesAreExact sights }
{}

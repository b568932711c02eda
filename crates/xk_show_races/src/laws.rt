//! What holds of the races of every run.

ghost use Rattle.std.specs.Prelude.{List, ℤ};
ghost use Rattle.xk_types.specs.declared.world.Entry.{Entry};
ghost use Rattle.xk_show_races.specs.Text.{HasItsLines};

use xk_bounds::Verified;

/// Each race of a run has its lines in what [`source_races`](crate::source_races) tells: both of its accesses are among the steps that
/// others see, where they are looked for by their numbers. The call does nothing; its contract is the law.
pub fn both_found(verified: &Verified)
    ensures { (args : List ℤ) (log : List Entry) → HasItsLines verified.now args log }
{
    // The law holds of each module; this one names it.
    let _module = verified;
}

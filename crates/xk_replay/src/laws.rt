//! What is so of logs that are played again: nothing here is computed.

ghost use Rattle.std.specs.Prelude.{◌≡◌, List, ℤ};
ghost use Rattle.xk_types.specs.declared.world.Entry.{Entry};
ghost use Rattle.xk_types.specs.Code.{ModuleValue};
ghost use Rattle.xk_replay.specs.Replay.{Verdict, Says};

/// A log is that of a whole run, or one entry is the first that holds a step which isn't enabled, or it stops before the run
/// does: never two of these.
pub fn one_verdict()
    ensures { (m : ModuleValue) (args : List ℤ) (log : List Entry) (v w : Verdict)
        → Says m args log v → Says m args log w → v ≡ w }
{}

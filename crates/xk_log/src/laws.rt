//! What is so of the texts of logs: nothing here is computed.

ghost use Rattle.std.specs.Prelude.{◌≡◌, ◌++◌, ℕ, List};
ghost use Rattle.xk_types.specs.declared.world.Entry.{Entry};
ghost use Rattle.xk_log.specs.LogText.{log_text, IsLog};
ghost use Rattle.xk_log.specs.Verdicts.{Verdict, Says};

/// A text is one log's, or has one first wrong line, or ends too early: never two of these.
pub fn one_verdict()
    ensures { (text : List ℕ) (v w : Verdict) → Says v text → Says w text → v ≡ w }
{}

/// No log's text begins another log's text.
pub fn no_log_begins_another()
    ensures { (es fs : List Entry) (more : List ℕ) → IsLog es → IsLog fs
        → log_text es ++ more ≡ log_text fs → es ≡ fs }
{}

//! What an activity does.

ghost use Rattle.std.specs.Prelude.{◌≡◌};
ghost use Rattle.xk_show_where.specs.Where.{condition_of, condition_words};

use xk_core::Core;
use xk_types::Act;

/// What an activity does, or that there is none. Who lives and can't take a step waits.
#[derive(Clone, Copy, Debug, PartialEq, Eq)]
pub enum Condition {
    /// No activity has this number.
    Absent,
    /// It has ended.
    Ended,
    /// It can take a step.
    Able,
    /// It waits at an `advance`.
    ForClocks,
    /// It waits at an `endfinish`.
    InFinish,
}

/// What the activity of this number does.
pub fn condition_of(core: &Core<'_>, act: Act) -> Condition
    ensures { result ≡ condition_of core.now.module_run core.now.world act }
{
    if !core.is_living(act) {
        return if act.0 < core.activities() {
            Condition::Ended
        } else {
            Condition::Absent
        };
    }
    if core.enabled(act) {
        return Condition::Able;
    }
    if core.is_waiting(act) {
        Condition::ForClocks
    } else {
        Condition::InFinish
    }
}

/// In words.
pub(crate) fn condition_words(condition: Condition) -> &'static str
    ensures { result.now ≡ condition_words condition }
{
    match condition {
        Condition::Absent => " isn't there",
        Condition::Ended => " has ended",
        Condition::Able => " can step",
        Condition::ForClocks => " waits for clocks",
        Condition::InFinish => " waits in finish",
    }
}

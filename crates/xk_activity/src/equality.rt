//! Whether frames that wait are the same.

ghost use Rattle.std.specs.Prelude.{◌≡◌, ◌≤◌, ℕ, length, reverse};
ghost use Rattle.std.specs.Bool.{Decides};
ghost use Rattle.xk_activity.specs.FrameStack.{waiting, AreBelow};

use crate::caller::Caller;
use crate::slots::{are_same_slots, part};

/// Whether the frames that wait on one stack, up to top, are those that wait on the other, up to end.
pub(crate) fn are_same_waiting(
    a: &[i64],
    callers: &[Caller],
    top: usize,
    b: &[i64],
    others: &[Caller],
    end: usize,
) -> bool
    requires stacked { AreBelow (length a.now) top (reverse callers.now) }
    requires other_stacked { AreBelow (length b.now) end (reverse others.now) }
    ensures { Decides result
        (waiting a.now top (reverse callers.now) ≡ waiting b.now end (reverse others.now)) }
{
    match (callers.split_last(), others.split_last()) {
        (None, None) => true,
        (Some((c, callers)), Some((d, others))) => {
            c.unit == d.unit
                && c.place == d.place
                && are_same_slots(part(a, c.base, top), c.marks, part(b, d.base, end), d.marks)
                && are_same_waiting(a, callers, c.base, b, others, d.base)
        }
        _ => false,
    }
}

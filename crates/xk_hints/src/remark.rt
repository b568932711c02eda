//! What is told, and what is known at a place.

use crate::access::Act;
use xk_tree::Name;

/// What is so.
#[derive(Clone, Copy)]
pub enum Matter {
    /// The name is never used.
    Unused,
    /// The number of this name is written, and never read.
    Unread,
    /// The shared number is read, and never written.
    Unwritten,
    /// The method is never called.
    Uncalled,
    /// The loop has no turn.
    Turnless,
    /// Nobody is on the clock of this name but the activity that makes it.
    Unjoined,
    /// Nobody is on the clock of the `clocked finish` but the activity that runs it.
    UnjoinedFinish,
    /// The activity isn't on the clock of the `clocked finish` around it, on which others are.
    Beside,
    /// The `advanceAll` is that of an activity on no clock.
    Clockless,
    /// The shared number is read, and nothing has waited for the end of the activity that writes it.
    Unawaited,
    /// The shared number is read and written back, by activities that are there at the same time.
    Overwritten,
    /// This is done with the shared number, and that by an activity that was started beside this one: the schedule alone orders the two.
    Unordered(Act, Act),
    /// The clock of this name is resumed, and then all clocks are.
    Resumed,
}

/// What is so, and of which name; where there is none, the name has no letters.
#[derive(Clone, Copy)]
pub struct Remark<'t> {
    /// What is so.
    pub matter: Matter,
    /// The name, and where it stands.
    pub name: Name<'t>,
}

/// What is known of the activity at a place.
#[derive(Clone, Copy)]
pub struct Place {
    /// It is given no clock, and makes none, neither before nor behind the place.
    pub is_clockless: bool,
    /// It is on the clock of the `clocked finish` that encloses the place most closely, and so are others.
    pub is_shared: bool,
    /// Each turn of a loop comes to it, and the loop has two or more.
    pub is_turned: bool,
    /// Each of two or more activities, which the turns of a loop started without clocks, comes to it.
    pub is_many: bool,
}

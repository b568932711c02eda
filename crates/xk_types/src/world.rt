//! Activities, clocks, and what a step may be seen to do.

ghost use Rattle.std.specs.Prelude.{ℕ, ◌<◌};

use std::marker::Model;

/// The number of an activity: 0 is main, and a spawned one takes the next number.
#[derive(Clone, Copy, Debug, PartialEq, Eq)]
pub struct Act(pub u32);

impl Model for Act {
    ghost Value = { ℕ };

    ghost view = { λ a. a.0 };

    ghost inverse = { λ n. record { 0 = n } };
}

/// The number of a clock, from 0 in order of making.
#[derive(Clone, Copy, Debug, PartialEq, Eq)]
pub struct ClockId(pub u32);

impl Model for ClockId {
    ghost Value = { ℕ };

    ghost view = { λ c. c.0 };

    ghost inverse = { λ n. record { 0 = n } };
}

/// One entry of a log: an activity, and how many steps it took one after another.
#[derive(Clone, Copy, Debug, PartialEq, Eq)]
pub struct Entry {
    /// The activity, by its number.
    pub act: u32,
    /// How many steps it took.
    pub steps: u32,
    /// At least one: so an entry names nobody who never took a step.
    pub ghost at_least_one: { 0 < steps },
}

/// What a slot holds.
#[derive(Clone, Copy, Debug, PartialEq, Eq)]
pub enum Value {
    /// Nothing was written to it yet.
    Unset,
    /// A number of 64 bits in two's complement.
    Number(i64),
    /// The name of a clock.
    Clock(ClockId),
}

/// Whether an activity runs, waits at an `advance`, or is over. One that waits at an `endfinish` runs.
#[derive(Clone, Copy, Debug, PartialEq, Eq)]
pub enum Status {
    /// It carries out the instruction that it stands at with its next step.
    Running,
    /// It took the first step of an `advance`, and hasn't taken the second.
    Arrived,
    /// It came to its `ret`, and takes no step any more.
    Ended,
}

/// Where an activity stands on a clock. One that is started stands on the clocks that it is given where its starter does, as
/// if it had itself done what its starter did.
#[derive(Clone, Copy, Debug, PartialEq, Eq)]
pub enum Standing {
    /// It isn't registered on the clock.
    Apart,
    /// It hasn't resumed the clock since its last pass, or since it was registered.
    Open,
    /// It has resumed the clock, which hasn't advanced since.
    Signalled,
    /// It has resumed the clock, which has advanced since; the activity hasn't passed yet.
    Ahead,
}

/// What one step does. A step whose event is `Local` can't be seen by another activity.
#[derive(Clone, Copy, Debug, PartialEq, Eq)]
pub enum Event {
    /// Nothing changed but the activity's own frames.
    Local,
    /// The number was printed.
    Printed(i64),
    /// A new clock was made: it has the next number.
    Made,
    /// A shared number was read.
    Got,
    /// A shared number was written.
    Put,
    /// A number was added to a shared one.
    Added,
    /// A finish was opened.
    Opened,
    /// A finish was closed.
    Closed,
    /// A new activity was started: it has the next number.
    Spawned,
    /// A clock was resumed.
    Resumed,
    /// A registration was ended.
    Dropped,
    /// The first step of an `advance`.
    Arrived,
    /// The second step of an `advance`.
    Passed,
    /// The activity ended.
    Ended,
}

//! What is known of a name, and what is wanted of it.

/// What a name stands for.
#[derive(Clone, Copy)]
pub enum NameKind {
    /// A shared number.
    Shared,
    /// A clock.
    Clock,
    /// A number that stays: a `val`, a number parameter or a loop's name.
    Val,
    /// A number that may be assigned to.
    Var,
}

/// What is known of a name that is visible.
#[derive(Clone, Copy)]
pub struct Known {
    /// What it stands for.
    pub kind: NameKind,
    /// How many `async` bodies hold its declaration.
    pub depth: usize,
}

/// What the place wants where a name is used.
#[derive(Clone, Copy)]
pub enum Want {
    /// A number of the activity's own.
    Number,
    /// A number, or a shared number that is read into one.
    Readable,
    /// A clock.
    Clock,
    /// A `var`, or a shared number.
    Assigned,
    /// A shared number.
    Shared,
}

//! What is done with a number.

use xk_tree::Name;

/// What may be done with it.
#[derive(Clone, Copy)]
pub enum Act {
    /// It is read.
    Read,
    /// It is written.
    Write,
    /// Something is added to it, in one step.
    Add,
}

/// What is done with a number, and where its name stands.
#[derive(Clone, Copy)]
pub struct Access<'t> {
    /// What is done.
    pub act: Act,
    /// The number's name.
    pub name: Name<'t>,
}

//! Two activities that meet in a number.

use crate::access::{Access, Act};

/// What one activity does, and what another one does with that number: the schedule alone orders the two.
#[derive(Clone, Copy)]
pub struct Meeting<'t> {
    /// What the one does.
    pub here: Access<'t>,
    /// What the other one does.
    pub there: Act,
}

//! A frame that waits at a `call`.

use crate::marks::Marks;

/// Its unit and place, which of its slots hold numbers, and where they begin in the stack.
#[derive(Clone, Copy)]
pub(crate) struct Caller {
    pub(crate) unit: u16,
    pub(crate) place: u16,
    pub(crate) marks: Marks,
    pub(crate) base: usize,
}

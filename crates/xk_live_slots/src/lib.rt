//! For each place of a module the slots that are live there: those whose values may still be read before they are written anew.
#![tactic(auto)]

mod before;
mod live_slots;
mod rows;
mod rules;
mod table;

pub use live_slots::LiveSlots;

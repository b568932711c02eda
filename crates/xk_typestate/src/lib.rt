//! The kinds of slots, followed along walks through code with branches and loops.
#![tactic(auto)]

mod fault;
mod fixed_point;
mod kind_check;
mod kind_set;
mod kind_table;
mod least_refusal;
mod module_kinds;
mod transfer;
mod walk;

pub use fault::{KindError, KindFault};
pub use kind_check::{Typed, check_kinds};
pub use kind_set::KindSet;
pub use module_kinds::{KindTables, kind_tables};

//! What `listing` prints: a module's units, instruction by instruction, with the kinds of clocks and the statements that instructions come from.
#![tactic(auto)]

mod fields;
mod listing;
mod module_units;
mod slots;
mod source_text;
mod source_units;
mod words;

pub use listing::{list_module, list_source};

//! What `explain` says of what stands against a program: where it is, the line with carets, what is wrong, and how it is usually repaired.
#![tactic(auto)]

mod front_repairs;
mod fronts;
mod lines;
mod messages;
mod module_rule;
mod note;
mod places;
mod refusals;
mod source_refusals;
mod source_text;
mod walks;

pub use front_repairs::repair_of;
pub use fronts::{explain_front, explain_module, has_place, shown_at};
pub use messages::{
    front_message, kind_message, module_message, module_repair, rule_message, rule_repair,
    source_message,
};
pub use module_rule::ModuleRule;
pub use note::{Note, note_lines, place_title, plain_lines};
pub use refusals::explain_refusal;
pub use source_refusals::{explain_source, origin_at};
pub use source_text::SourceText;
pub use walks::{is_name, slot_name, slot_title};

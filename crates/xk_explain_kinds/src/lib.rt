//! What the names of a source text are declared as, and where they are visible; and the repair where one is used as what it isn't.
#![tactic(auto, using(crate::proofs::DeclarationLemmas::declared_push, crate::proofs::DeclarationLemmas::count_params))]

mod calls;
mod declaration;
mod free_names;
mod kinds;
mod texts;

pub use calls::{callee, count_repair, method_named, params_text};
pub use declaration::{Declaration, Role, declarations};
pub use free_names::{free_name, is_taken, val_of};
pub use kinds::{behind, is_assigned, is_method, is_visible, kind_repair, visible};
pub use texts::{around_name, around_twice, push_text};

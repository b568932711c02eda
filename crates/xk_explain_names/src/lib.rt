//! What is declared by the name that stands at a fault of a source text, and where.
#![tactic(auto, using(xk_explain_kinds::proofs::DeclarationLemmas::declared_push))]

mod lent_clocks;
mod notes;
mod plain_finishes;

pub use notes::front_notes;

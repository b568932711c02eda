//! How a fault of a source text is usually repaired: by its rule, and by what stands there.
#![tactic(auto)]

mod advice;
mod further;
mod repairs;
mod rules;
mod syntax;
mod tokens;

pub use advice::{Advice, Reserved, advice_text, is_usual};
pub use repairs::{advice_at, further_advice_at};
pub use rules::front_repair;

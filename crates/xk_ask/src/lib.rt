//! Runs in which a person names who takes the next steps.
#![tactic(auto)]

mod answers;
mod fault;
mod game;
mod line;
mod numbers;
mod program_text;
mod question;
mod turn;

pub use fault::AskFault;
pub use game::{Played, module_ask, source_ask};

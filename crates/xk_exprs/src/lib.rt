//! Tokens to expressions.
#![tactic(auto)]

mod expressions;
mod fault;
pub mod laws;
pub mod token_readers;

pub use expressions::{read_expr, read_number, read_term};
pub use fault::{SyntaxError, SyntaxFault, SyntaxRule};

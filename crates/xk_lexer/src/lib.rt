//! Source text to tokens.
#![tactic(auto)]

pub mod laws;
mod scan;
mod token;

pub use scan::tokens;
pub use token::{Keyword, Sign, Token, TokenKind};

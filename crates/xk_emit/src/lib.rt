//! The code of source trees.
#![tactic(auto)]

mod error;
mod expressions;
mod gaps;
mod loops;
mod setting;
mod simple_statements;
mod slots;
mod statements;
mod units;

pub use error::CodeError;
pub use setting::{Body, Setting};
pub use units::{body_unit, method_unit};

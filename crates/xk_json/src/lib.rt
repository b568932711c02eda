//! JSON objects that are put together member by member, and the line that each is written in.
#![tactic(auto)]

mod numbers;
mod object;

pub use numbers::integers;
pub use object::Object;

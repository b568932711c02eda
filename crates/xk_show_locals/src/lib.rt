//! An activity's own numbers and clocks, in the frame that it stands in and in those that called, by the names of its source text.
#![tactic(auto)]

mod bounds;
mod locals;
mod slots;

pub use bounds::{Bound, bound_in, lesser};
pub use locals::{code_of, push_locals, push_unit};
pub use slots::{is_name, name_at, push_name};

//! The frames of one activity, in one stack, and the steps of an activity that nobody else can see.
#![tactic(auto)]

mod activities;
mod activity;
mod caller;
mod equality;
mod frames;
mod interpreter;
pub mod laws;
mod marks;
mod slots;
mod stack;
mod ticket;

pub use activities::Activities;
pub use activity::Activity;
pub use frames::{Frames, Next};
pub use ticket::{Ticket, run_local};

//! What the program is asked to do, without the words that ask for it; and the status that it ends with.
#![tactic(auto)]

mod job;
pub mod status;

pub use job::{
    Command, Drive, Form, HandRun, Job, MOST_WORKERS, Order, Processors, Request, Values, Workers,
};

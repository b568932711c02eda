//! The program's command line: words to what they ask for, or to the text that says why not.
#![tactic(auto)]

mod commands;
mod given;
mod misfit;
mod numbers;
mod options;
mod request;
mod words_fault;

pub use misfit::Misfit;
pub use request::read_job;
pub use words_fault::WordsFault;

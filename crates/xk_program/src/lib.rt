//! From the bytes of FILE to a program that the verifier accepts; or what stands against that.
#![tactic(auto)]

mod bounded_read;
mod fault;
mod program_loader;
mod shared_names;
mod verification;

pub use bounded_read::{read_front, read_program};
pub use fault::{DEVICE_LINE, Fault};
pub use program_loader::{Program, Provenance, module_of, program_by, tree_of};
pub use verification::{accepted, runnable};

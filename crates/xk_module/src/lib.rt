//! Module text: bytes to modules.
#![tactic(auto)]

mod fault;
mod json;
pub mod laws;
mod reading;
mod text;
mod version;
mod writing;

pub use fault::ModuleFault;
pub use text::read_module;
pub use writing::write_module;

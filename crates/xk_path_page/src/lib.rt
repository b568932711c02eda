//! A run on a page of HTML, with its critical path.
#![tactic(auto)]

mod furniture;
mod page;
mod told;

pub use page::{module_path_page, source_path_page};

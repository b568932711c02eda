//! Writing to a device, without memory: whole texts, pages of some lines, and numbers, a line each; numbers in a row, each after a blank.
#![tactic(auto)]

mod device;
mod page;
mod row;
mod writing;

pub use device::{Device, write_all};
pub use page::Page;
pub use row::{numbers_text, put};
pub use writing::write_numbers;

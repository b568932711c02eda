//! Sets of numbers, for many (least, greatest and next member in a few steps) and for few; and who waits for which clock.
#![tactic(auto)]

mod bit_search;
mod bit_set;
mod bit_words;
mod small_set;
mod waiting_lists;

pub use bit_set::NumberSet;
pub use small_set::FewNumbers;
pub use waiting_lists::WaitingLists;

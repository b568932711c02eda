//! Words of a text, and what stands between them: what a repair goes by.
#![tactic(auto)]

mod comments;
mod heads;
mod names;
mod near_names;
mod signs;
mod words;

pub use comments::{from_sign, to_sign};
pub use heads::{Head, depth_at, head_at};
pub use names::{push_name, told_name};
pub use near_names::{is_near, is_same};
pub use signs::{
    is_comparison_sign, is_dash, is_other_blank, is_quote, is_unseen, is_wide, is_without_width,
};
pub use words::{begins, ends, first_word, is_digit, is_spelled, is_word_byte, last_word};

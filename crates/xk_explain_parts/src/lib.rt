//! What stands before and behind a place of a text: what the repair of a fault goes by.
#![tactic(auto)]

mod parts;

pub use parts::{
    behind_first, ends_part, ends_value, goes_on, has_line_feed, is_alone, is_barrier,
    is_before_def, is_binding, is_clock_word, is_comparison, is_declared, is_equality, is_foreign,
    is_listed, is_method_head, is_number, is_number_head, is_outside, is_pair, is_reserved,
    is_second, is_type, is_typed, is_word, wants_name, wants_value,
};

//! A run on a page of HTML: source text, picture, and how things stand behind each step.
#![tactic(auto)]

mod furniture;
mod moments;
mod page;
mod texts;

pub use furniture::{first_lines, page_ends, style_ends};
pub use moments::moments_of;
pub use page::{module_page, source_page};
pub use texts::{
    push_body_head, push_escaped, push_lists, push_look, push_moments_begin, push_script,
};

//! The picture of a run: what its lanes tell, as an SVG picture.
#![tactic(auto)]

mod bars;
mod furniture;
mod layout;
mod lines;
mod picture;
mod rows;
mod shapes;
mod sheet;
mod words;

pub use layout::{is_shown, row_of};
pub use picture::{
    PictureTeller, Plan, Planned, high, module_picture, plan_for, push_furniture, push_titles,
    source_picture,
};
pub use shapes::{svg_head, top};
pub use sheet::{Sheet, lane_left, wide};
pub use words::{label_of, words_of};

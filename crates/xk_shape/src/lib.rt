//! The rules on the shape of code: where targets lie, how loops and finishes nest, where slots are
//! at home, which slots, shared numbers, units and parameters there are.
#![tactic(auto)]

mod arguments;
mod blocks;
mod fault;
mod homes;
mod jumps;
mod layout;
mod nesting;
mod places;
mod rules;
mod shape_check;
mod tables;

pub use arguments::Arguments;
pub use blocks::Blocks;
pub use fault::{ShapeError, ShapeFault};
pub use rules::params_of;
pub use shape_check::{Shaped, shape};

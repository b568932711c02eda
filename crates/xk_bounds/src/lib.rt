//! The verifier: it accepts exactly the modules whose code has the shape, whose slots are used as what they hold, and
//! whose runs stay within the bounds.
#![tactic(auto)]

mod bounds;
mod refusal;
mod room;
mod verifier;

pub use refusal::{BoundFault, Refusal};
pub use room::Room;
pub use verifier::{Verified, verify};
pub use xk_shape::ShapeFault;
pub use xk_typestate::{KindFault, KindSet};

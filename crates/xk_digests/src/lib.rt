//! Digests of worlds: numbers of 64 bits which worlds have in common that are alike where slots are live; whether worlds are; and digests,
//! numbered and linked where they are equal.
#![tactic(auto)]

mod digest;
mod digests;
mod frames;
mod likeness;
mod status;

pub use digest::{digest_of, with_activity, with_numbers};
pub use digests::Digests;
pub use frames::has_same_left;
pub use likeness::{are_alike, are_same_numbers};
pub use status::{is_same_standing, is_same_status};

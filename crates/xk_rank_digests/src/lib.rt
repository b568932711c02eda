//! Worlds of running cores without the activities that have ended: ranks of activities, digests by rank, and whether worlds are alike by
//! rank.
#![tactic(auto)]

mod digest;
mod likeness;
mod ranks;

pub use digest::rank_digest_of;
pub use likeness::are_alike_by_rank;
pub use ranks::{act_of_rank, rank_of};

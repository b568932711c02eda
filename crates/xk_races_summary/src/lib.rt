//! Accesses of a shared number, and which of them stand for all.
#![tactic(auto)]

mod access;
mod group;
mod latest;

pub use access::Access;
pub use group::Group;
pub use latest::Latest;

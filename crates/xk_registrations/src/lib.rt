//! Where activities stand on clocks, by the registrations that each keeps.
#![tactic(auto)]

mod affected_clocks;
mod clocks;
mod each_registration;
mod last_advance;
pub mod laws;
mod registration;
mod registrations;
mod standings;

pub use affected_clocks::Which;
pub use clocks::Clocks;
pub use registration::Registration;
pub use registrations::Registrations;
pub use standings::Standings;

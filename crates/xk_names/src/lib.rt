//! The faults of names that a source tree may have.
#![tactic(auto, using(crate::proofs::FaultAppendLemmas::least_append, crate::proofs::FaultAppendLemmas::least_uses, crate::proofs::FaultAppendLemmas::least_misfits, crate::proofs::FaultAppendLemmas::least_repeats, crate::proofs::FaultAppendLemmas::put_texts_append))]

mod arguments;
mod binding;
mod capture;
mod exprs;
pub mod laws;
mod least_fault;
mod methods;
mod program;
mod scope;
mod statement_rules;
mod statement_walk;
mod table;

pub use binding::{Known, NameKind, Want};
pub use capture::captures;
pub use methods::Methods;
pub use program::{check_names, methods_of, next_fault};
pub use table::Table;

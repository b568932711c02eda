//! Hints on a program that is accepted: what is so in it, and is seldom meant.
#![tactic(auto, using(crate::proofs::RemarkLemmas::remarks_push, crate::proofs::NameLemmas::words_push))]

mod access;
mod accesses;
mod deeds;
mod meeting;
mod meetings;
mod places;
mod remark;
mod remarks;
mod shared_numbers;
mod words;

pub use words::{Hint, hints};

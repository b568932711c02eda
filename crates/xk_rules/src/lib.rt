//! What a rule means that a refusal names: a page with a program that it refuses, and one that is accepted.
#![tactic(auto)]

mod module;
mod page;
mod pages;
mod run;
mod source;
mod verifier;

pub use page::RulePage;
pub use pages::rule_text;

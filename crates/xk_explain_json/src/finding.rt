//! Faults of a source text with what is told beside them.

use std::marker::Model;
use xk_explain::Note;
use xk_tree::FrontFault;

/// A fault of a source text, and the notes on it.
#[derive(Drop)]
pub struct Finding {
    /// The fault.
    pub fault: FrontFault,
    /// What is told beside it.
    pub notes: Vec<Note>,
}

impl Model for Finding {
    ghost use Rattle.xk_explain_json.specs.Explanations.{FindingValue};

    ghost Value = { FindingValue };

    ghost view = { λ x. (x.fault, x.notes.items) };
}

//! The repair of a fault of a source text that has a place.

ghost use Rattle.std.specs.Prelude.{◌≡◌, ◌≤◌, length, option_map, IfOk};
ghost use Rattle.xk_explain.specs.FrontRepairs.{called_for, repair_by, repair_of};

use crate::note::Note;
use std::alloc::{AllocError, Global};
use xk_explain_repairs::{Advice, advice_at, advice_text, further_advice_at, is_usual};
use xk_tree::FrontRule;

/// The first repair that one of these notes calls for.
fn called_for(notes: &[Note]) -> Option<&[u8]>
    ensures { option_map (λ r. r.now) result ≡ called_for notes.now }
{
    for note in notes {
        if let Some(repair) = &note.repair {
            return Some(repair.as_slice());
        }
    }
    None
}

/// What is advised first; where that is what is usual, what the notes call for; and where they call for nothing, what is advised further.
fn repair_by(advice: Advice, further: Advice, rule: FrontRule, notes: &[Note]) -> &[u8]
    ensures { result.now ≡ repair_by advice further rule notes.now }
{
    if !is_usual(advice) {
        return advice_text(advice, rule).as_bytes();
    }
    match called_for(notes) {
        Some(repair) => repair,
        None => advice_text(further, rule).as_bytes(),
    }
}

/// The repair of a fault of this rule at an offset of the text: by what stands there, or by these notes, or that of the rule.
/// Err where memory was refused.
pub fn repair_of<'n>(
    alloc: Global,
    text: &[u8],
    rule: FrontRule,
    at: usize,
    notes: &'n [Note],
) -> Result<&'n [u8], AllocError>
    requires { at ≤ length text.now }
    ensures { IfOk result (λ r. r.now ≡ repair_of text.now rule at notes.now) }
{
    let advice = advice_at(alloc, text, rule, at)?;
    let further = further_advice_at(alloc, text, rule, at)?;
    Ok(repair_by(advice, further, rule, notes))
}

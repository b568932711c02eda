//! What is said of bytes that give no program.

ghost use Rattle.std.specs.Prelude.{◌≡◌, ◌≤◌, length, IfOk, string_bytes};
ghost use Rattle.xk_explain.specs.Explanations.{front_explanation, front_title, has_place, module_explanation, module_title};
ghost use Rattle.xk_explain.specs.Explanations.{placed_explanation, shown_at, unplaced_explanation};

use crate::front_repairs::repair_of;
use crate::lines::{push_head, push_repair};
use crate::messages::{front_message, module_message, module_repair};
use crate::module_rule::ModuleRule;
use crate::note::{Note, note_lines};
use crate::places::{push_fault_lines, push_head_at};
use crate::source_text::SourceText;
use std::alloc::{AllocError, Global};
use xk_explain_repairs::front_repair;
use xk_tree::{FrontFault, FrontRule};

/// All that is said of a fault of the source text in FILE: `FILE:3:5: F2 Syntax: ..`, the line there with carets, these notes, and the usual repair.
/// Where the text ends at the fault, the carets stand below the last sign of its tokens.
/// A fault that is said to lie behind the text's end is shown at that, and so is a note; a text that is too long, and a `main` that isn't there,
/// have no place. Err where memory was refused.
pub fn explain_front(
    alloc: Global,
    file: &str,
    text: &[u8],
    fault: FrontFault,
    notes: &[Note],
) -> Result<Vec<u8>, AllocError>
    ensures { IfOk result (λ v. v.items ≡ front_explanation file.now text.now fault notes.now) }
{
    if has_place(fault.rule) {
        return explain_placed(alloc, file, text, fault, notes);
    }
    explain_unplaced(alloc, file, text, fault.rule, notes)
}

/// The same of a fault that has a place in the text.
fn explain_placed(
    alloc: Global,
    file: &str,
    text: &[u8],
    fault: FrontFault,
    notes: &[Note],
) -> Result<Vec<u8>, AllocError>
    ensures { IfOk result (λ v. v.items ≡ placed_explanation file.now text.now fault notes.now) }
{
    let source = SourceText::new(alloc, text)?;
    let at = shown_at(text, fault);
    let repair = repair_of(alloc, text, fault.rule, at, notes)?;
    let title = front_title(alloc, fault.rule)?;
    let mut out = Vec::new(alloc);
    push_head_at(
        alloc,
        &mut out,
        file,
        source.lines().position(at),
        title.as_bytes(),
        front_message(fault.rule),
    )?;
    push_fault_lines(alloc, &mut out, &source, at)?;
    out.extend_from_slice(&note_lines(alloc, &source, notes)?)?;
    push_repair(alloc, &mut out, repair)?;
    Ok(out)
}

/// The same of a fault that has none.
fn explain_unplaced(
    alloc: Global,
    file: &str,
    text: &[u8],
    rule: FrontRule,
    notes: &[Note],
) -> Result<Vec<u8>, AllocError>
    ensures { IfOk result (λ v. v.items ≡ unplaced_explanation file.now text.now rule notes.now) }
{
    let source = SourceText::new(alloc, text)?;
    let title = front_title(alloc, rule)?;
    let mut out = Vec::new(alloc);
    push_head(alloc, &mut out, file, title.as_str(), front_message(rule))?;
    out.extend_from_slice(&note_lines(alloc, &source, notes)?)?;
    push_repair(alloc, &mut out, front_repair(rule).as_bytes())?;
    Ok(out)
}

/// All that is said of the bytes in FILE that are no module, by the rule that they break: `FILE: M1 NotJson: ..`, and the usual repair. Err where
/// memory was refused.
pub fn explain_module(alloc: Global, file: &str, rule: ModuleRule) -> Result<Vec<u8>, AllocError>
    ensures { IfOk result (λ v. v.items ≡ module_explanation file.now rule) }
{
    let title = module_title(alloc, rule)?;
    let mut out = Vec::new(alloc);
    push_head(alloc, &mut out, file, title.as_str(), module_message(rule))?;
    push_repair(alloc, &mut out, module_repair(rule).as_bytes())?;
    Ok(out)
}

/// A rule with its number: `F2 Syntax`.
fn front_title(alloc: Global, rule: FrontRule) -> Result<String, AllocError>
    ensures { IfOk result (λ text. string_bytes text ≡ front_title rule) }
{
    let number = rule.number();
    let name = rule.name();
    format!(in alloc; "F{number} {name}")
}

/// The same of a rule on module texts: `M1 NotJson`.
fn module_title(alloc: Global, rule: ModuleRule) -> Result<String, AllocError>
    ensures { IfOk result (λ text. string_bytes text ≡ module_title rule) }
{
    let number = rule.number();
    let name = rule.name();
    format!(in alloc; "M{number} {name}")
}

/// Whether faults of this rule have a place in the text.
pub fn has_place(rule: FrontRule) -> bool
    ensures { result ≡ has_place rule }
{
    match rule {
        FrontRule::TooLong | FrontRule::NoMain => false,
        FrontRule::Token
        | FrontRule::Syntax
        | FrontRule::TooDeep
        | FrontRule::UnknownName
        | FrontRule::DuplicateName
        | FrontRule::WrongKind
        | FrontRule::NotCaptured
        | FrontRule::Recursive
        | FrontRule::Arity
        | FrontRule::SameClockTwice
        | FrontRule::Literal
        | FrontRule::Table
        | FrontRule::NoHiddenClock => true,
    }
}

/// Where a fault is shown.
pub fn shown_at(text: &[u8], fault: FrontFault) -> usize
    ensures at { result ≡ shown_at text.now fault }
    ensures within { result ≤ length text.now }
{
    fault.at.min(text.len())
}

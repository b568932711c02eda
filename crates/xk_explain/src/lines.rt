//! The lines that all explanations are made of.

ghost use Rattle.std.specs.Prelude.{◌≡◌, ◌++◌, IfOk, OnOk, string_bytes};
ghost use Rattle.xk_explain.specs.Explanations.{head, repair_line, rule_title, title_at};

use std::alloc::{AllocError, Global};
use xk_lines::shown;
use xk_types::Rule;

/// Adds a text.
pub(crate) fn push_text(out: &mut Vec<u8>, text: &str) -> Result<(), AllocError>
    ensures { OnOk result (out.new.items ≡ out.old.items ++ text.now) }
{
    out.extend_from_slice(text.as_bytes())
}

/// Adds the first line of what has no place in a text: `FILE: M1 NotJson: ..`.
#[tactic(auto, unfolding(crate::specs::Explanations::head))]
pub(crate) fn push_head(
    alloc: Global,
    out: &mut Vec<u8>,
    file: &str,
    title: &str,
    message: &str,
) -> Result<(), AllocError>
    ensures { OnOk result
        (out.new.items ≡ out.old.items ++ head file.now title.now message.now) }
{
    let file = shown(alloc, file.as_bytes())?;
    out.extend_from_slice(&file)?;
    push_text(out, format!(in alloc; ": {title}: {message}\n")?.as_str())
}

/// The line of the usual repair.
#[tactic(auto, unfolding(crate::specs::Explanations::repair_line))]
fn repair_line(alloc: Global, repair: &[u8]) -> Result<Vec<u8>, AllocError>
    ensures { IfOk result (λ v. v.items ≡ repair_line repair.now) }
{
    let mut out = Vec::new(alloc);
    push_text(&mut out, "   = usual repair: ")?;
    out.extend_from_slice(repair)?;
    push_text(&mut out, "\n")?;
    Ok(out)
}

/// Adds the line of the usual repair.
pub(crate) fn push_repair(alloc: Global, out: &mut Vec<u8>, repair: &[u8]) -> Result<(), AllocError>
    ensures { OnOk result (out.new.items ≡ out.old.items ++ repair_line repair.now) }
{
    let line = repair_line(alloc, repair)?;
    out.extend_from_slice(&line)
}

/// A rule with its number: `V9 Registers`.
pub(crate) fn rule_title(alloc: Global, rule: Rule) -> Result<String, AllocError>
    ensures { IfOk result (λ text. string_bytes text ≡ rule_title rule) }
{
    let number = rule.number();
    let name = rule.name();
    format!(in alloc; "V{number} {name}")
}

/// A rule at a place: `V9 Registers, unit 0 at 2`.
pub(crate) fn title_at(alloc: Global, rule: Rule, unit: u16, at: u16) -> Result<String, AllocError>
    ensures { IfOk result (λ text. string_bytes text ≡ title_at rule unit at) }
{
    let title = rule_title(alloc, rule)?;
    format!(in alloc; "{title}, unit {unit} at {at}")
}

//! What is said of a program that the verifier refuses.

ghost use Rattle.std.specs.Prelude.{◌≡◌, ◌++◌, IfOk, OnOk};
ghost use Rattle.xk_explain.specs.Explanations.{bound_explanation, explanation_with, kind_explanation, limit_line, refusal_explanation};
ghost use Rattle.xk_explain.specs.Explanations.{shape_explanation, visit_line, walk_head, walk_lines, ways_line};

use crate::lines::{push_head, push_repair, push_text, rule_title, title_at};
use crate::messages::{kind_message, rule_message, rule_repair};
use crate::note::{Note, plain_lines};
use std::alloc::{AllocError, Global};
use xk_bounds::{BoundFault, Refusal};
use xk_shape::ShapeFault;
use xk_types::Visit;
use xk_typestate::KindFault;

/// All that is said of what the verifier has against the module in FILE, by unit and place: `FILE: V9 Registers, unit 0 at 2: ..`, these notes, whose
/// places aren't told, the walk to a slot of the wrong kind, and the usual repair. Of want of memory nothing is said. Err where memory was refused.
pub fn explain_refusal(
    alloc: Global,
    file: &str,
    refusal: &Refusal,
    notes: &[Note],
) -> Result<Vec<u8>, AllocError>
    ensures { IfOk result (λ v. v.items ≡ refusal_explanation file.now refusal.now notes.now) }
{
    let notes = plain_lines(alloc, notes)?;
    explain_with(alloc, file, refusal, &notes)
}

/// The same with these lines of notes.
fn explain_with(
    alloc: Global,
    file: &str,
    refusal: &Refusal,
    notes: &[u8],
) -> Result<Vec<u8>, AllocError>
    ensures { IfOk result (λ v. v.items ≡ explanation_with file.now refusal.now notes.now) }
{
    match refusal {
        Refusal::Shape(fault) => explain_shape(alloc, file, fault, notes),
        Refusal::Kind(fault) => explain_kind(alloc, file, fault, notes),
        Refusal::Bound(fault) => explain_bound(alloc, file, *fault, notes),
        Refusal::OutOfMemory => Ok(Vec::new(alloc)),
    }
}

/// The same of a place that breaks a rule on shape, V1 to V10.
pub(crate) fn explain_shape(
    alloc: Global,
    file: &str,
    fault: &ShapeFault,
    notes: &[u8],
) -> Result<Vec<u8>, AllocError>
    ensures { IfOk result (λ v. v.items ≡ shape_explanation file.now fault.now notes.now) }
{
    let title = title_at(alloc, fault.rule, fault.unit, fault.at)?;
    let mut out = Vec::new(alloc);
    push_head(
        alloc,
        &mut out,
        file,
        title.as_str(),
        rule_message(fault.rule),
    )?;
    out.extend_from_slice(notes)?;
    push_repair(alloc, &mut out, rule_repair(fault.rule).as_bytes())?;
    Ok(out)
}

/// The same of a slot of the wrong kind, V11 to V13.
pub(crate) fn explain_kind(
    alloc: Global,
    file: &str,
    fault: &KindFault,
    notes: &[u8],
) -> Result<Vec<u8>, AllocError>
    ensures { IfOk result (λ v. v.items ≡ kind_explanation file.now fault.now notes.now) }
{
    let title = title_at(alloc, fault.rule, fault.unit, fault.at)?;
    let mut out = Vec::new(alloc);
    push_head(
        alloc,
        &mut out,
        file,
        title.as_str(),
        rule_message(fault.rule),
    )?;
    out.extend_from_slice(notes)?;
    push_walk(alloc, &mut out, fault.slot, &fault.walk)?;
    push_ways(&mut out)?;
    push_repair(alloc, &mut out, rule_repair(fault.rule).as_bytes())?;
    Ok(out)
}

/// The same of a bound that is over its limit, V14 to V17.
pub(crate) fn explain_bound(
    alloc: Global,
    file: &str,
    fault: BoundFault,
    notes: &[u8],
) -> Result<Vec<u8>, AllocError>
    ensures { IfOk result (λ v. v.items ≡ bound_explanation file.now fault notes.now) }
{
    let title = rule_title(alloc, fault.rule)?;
    let mut out = Vec::new(alloc);
    push_head(
        alloc,
        &mut out,
        file,
        title.as_str(),
        rule_message(fault.rule),
    )?;
    push_limit(alloc, &mut out, fault.limit)?;
    out.extend_from_slice(notes)?;
    push_repair(alloc, &mut out, rule_repair(fault.rule).as_bytes())?;
    Ok(out)
}

/// Adds the most that a rule on sums allows.
#[tactic(auto, unfolding(crate::specs::Explanations::limit_line))]
fn push_limit(alloc: Global, out: &mut Vec<u8>, limit: u64) -> Result<(), AllocError>
    ensures { OnOk result (out.new.items ≡ out.old.items ++ limit_line limit) }
{
    push_text(
        out,
        format!(in alloc; "   = at most {limit} are allowed\n")?.as_str(),
    )
}

/// Adds a walk, with what the slot holds at each stop.
fn push_walk(alloc: Global, out: &mut Vec<u8>, slot: u16, walk: &[Visit]) -> Result<(), AllocError>
    ensures { OnOk result (out.new.items ≡ out.old.items ++ walk_lines slot walk.now) }
{
    push_walk_head(alloc, out, slot)?;
    for visit in walk {
        push_visit(alloc, out, *visit)?;
    }
    Ok(())
}

/// Adds the line before a walk.
#[tactic(auto, unfolding(crate::specs::Explanations::walk_head))]
fn push_walk_head(alloc: Global, out: &mut Vec<u8>, slot: u16) -> Result<(), AllocError>
    ensures { OnOk result (out.new.items ≡ out.old.items ++ walk_head slot) }
{
    push_text(
        out,
        format!(in alloc;
            "   = a way to it, and what slot {slot} holds before each instruction:\n"
        )?.as_str(),
    )
}

/// Adds the line that says what ways are.
#[tactic(auto, unfolding(crate::specs::Explanations::ways_line))]
pub(crate) fn push_ways(out: &mut Vec<u8>) -> Result<(), AllocError>
    ensures { OnOk result (out.new.items ≡ out.old.items ++ ways_line) }
{
    push_text(
        out,
        "   = ways go round loops and into both branches, whatever the numbers are\n",
    )
}

/// Adds one stop of a walk.
#[tactic(auto, unfolding(crate::specs::Explanations::visit_line))]
fn push_visit(alloc: Global, out: &mut Vec<u8>, visit: Visit) -> Result<(), AllocError>
    ensures { OnOk result (out.new.items ≡ out.old.items ++ visit_line visit) }
{
    let at = visit.at;
    let kind = visit.kind.name();
    let holds = kind_message(visit.kind);
    push_text(
        out,
        format!(in alloc; "     at {at}  {kind}: {holds}\n")?.as_str(),
    )
}

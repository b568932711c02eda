//! What is said of them, as a text and as a JSON value.

ghost use Rattle.std.specs.Prelude.{◌≡◌, ◌++◌, IfOk, OnOk};
ghost use Rattle.std.specs.List.{flat_map};
ghost use Rattle.xk_tree.specs.Program.{tree_value};
ghost use Rattle.xk_json.specs.Objects.{json_line};
ghost use Rattle.xk_explain_faults.specs.Faults.{faults_explanation, faults_value, finding_text, more_text};

use crate::further::{behind_of, found};
use std::alloc::{AllocError, Global};
use xk_explain::explain_front;
use xk_explain_json::{Finding, fronts_json};
use xk_tree::{FrontFault, Tree};

/// Adds an empty line, and all that is said of a fault.
fn push_finding(
    alloc: Global,
    out: &mut Vec<u8>,
    file: &str,
    text: &[u8],
    finding: &Finding,
) -> Result<(), AllocError>
    ensures { OnOk result (out.new.items
        ≡ out.old.items ++ finding_text file.now text.now finding.now) }
{
    let said = explain_front(alloc, file, text, finding.fault, &finding.notes)?;
    out.extend_from_slice(b"\n")?;
    out.extend_from_slice(&said)
}

/// Adds all that is said of these faults.
fn push_findings(
    alloc: Global,
    out: &mut Vec<u8>,
    file: &str,
    text: &[u8],
    findings: &[Finding],
) -> Result<(), AllocError>
    ensures { OnOk result (out.new.items
        ≡ out.old.items ++ flat_map (finding_text file.now text.now) findings.now) }
{
    for finding in findings {
        push_finding(alloc, out, file, text, finding)?;
    }
    Ok(())
}

/// Adds a line where there are more faults than are shown.
fn push_more(out: &mut Vec<u8>, more: bool) -> Result<(), AllocError>
    ensures { OnOk result (out.new.items ≡ out.old.items ++ more_text more) }
{
    if more {
        out.extend_from_slice(b"\n   = there are more faults of names: these are the first 10\n")?;
    }
    Ok(())
}

/// All that is said of a fault of the source text in FILE that spells this tree, as `explain_front` says it, and of the faults of names
/// behind it, in their order: of nine at most, and a line where there are more. Err where memory was refused.
pub fn explain_faults(
    alloc: Global,
    file: &str,
    text: &[u8],
    tree: &Tree<'_>,
    fault: FrontFault,
) -> Result<Vec<u8>, AllocError>
    ensures { IfOk result (λ v. v.items
        ≡ faults_explanation file.now text.now (tree_value tree.now) fault) }
{
    let first = found(alloc, tree, text, fault)?;
    let behind = behind_of(alloc, tree, text, fault)?;
    let mut out = explain_front(alloc, file, text, fault, &first.notes)?;
    push_findings(alloc, &mut out, file, text, &behind.shown)?;
    push_more(&mut out, behind.more)?;
    Ok(out)
}

/// The same as a JSON object in one line: that of the first fault, with the others in its member `further`. Err where memory was refused.
pub fn faults_json(
    alloc: Global,
    file: &str,
    text: &[u8],
    tree: &Tree<'_>,
    fault: FrontFault,
) -> Result<Vec<u8>, AllocError>
    ensures { IfOk result (λ v. v.items
        ≡ json_line (faults_value file.now text.now (tree_value tree.now) fault)) }
{
    let first = found(alloc, tree, text, fault)?;
    let behind = behind_of(alloc, tree, text, fault)?;
    fronts_json(alloc, file, text, &first, &behind.shown, behind.more)
}

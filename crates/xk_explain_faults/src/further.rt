//! The faults of names behind the first.

ghost use Rattle.std.specs.Prelude.{◌≡◌, ◌++◌, map, take, IfOk, OnOk};
ghost use Rattle.xk_tree.specs.Program.{tree_value};
ghost use Rattle.xk_explain_faults.specs.Faults.{found, further_faults, has_more, shown_further};

use std::alloc::{AllocError, Global};
use xk_explain_json::Finding;
use xk_explain_names::front_notes;
use xk_names::next_fault;
use xk_tree::{FrontFault, Tree};

/// How many are shown at most.
const MOST: usize = 9;

/// Those that are shown, and whether there are more.
#[derive(Drop)]
pub(crate) struct Behind {
    /// Those that are shown.
    pub(crate) shown: Vec<Finding>,
    /// Whether there are more.
    pub(crate) more: bool,
}

/// Adds the faults of names behind the last one, and no more than so many.
fn push_further(
    alloc: Global,
    tree: &Tree<'_>,
    faults: &mut Vec<FrontFault>,
    last: FrontFault,
    left: usize,
) -> Result<(), AllocError>
    ensures { OnOk result (faults.new.items
        ≡ faults.old.items ++ further_faults left (tree_value tree.now) last) }
{
    if left == 0 {
        return Ok(());
    }
    match next_fault(alloc, tree, last)? {
        None => Ok(()),
        Some(next) => {
            faults.push(next)?;
            push_further(alloc, tree, faults, next, left - 1)
        }
    }
}

/// A fault of a source text that spells this tree, with the notes on it.
pub(crate) fn found(
    alloc: Global,
    tree: &Tree<'_>,
    text: &[u8],
    fault: FrontFault,
) -> Result<Finding, AllocError>
    ensures { IfOk result (λ x. x ≡ found (tree_value tree.now) text.now fault) }
{
    let notes = front_notes(alloc, tree, text, fault)?;
    Ok(Finding { fault, notes })
}

/// Those of these faults that are shown.
fn first_of(faults: &[FrontFault]) -> &[FrontFault]
    ensures { result.now ≡ take 9 faults.now }
{
    &faults[..faults.len().min(MOST)]
}

/// These faults, with the notes on each.
fn all_found(
    alloc: Global,
    tree: &Tree<'_>,
    text: &[u8],
    faults: &[FrontFault],
) -> Result<Vec<Finding>, AllocError>
    ensures { IfOk result
        (λ v. v.items ≡ map (found (tree_value tree.now) text.now) faults.now) }
{
    let mut findings = Vec::new(alloc);
    for fault in faults {
        findings.push(found(alloc, tree, text, *fault)?)?;
    }
    Ok(findings)
}

/// The faults of names behind this one that are shown with it.
pub(crate) fn behind_of(
    alloc: Global,
    tree: &Tree<'_>,
    text: &[u8],
    fault: FrontFault,
) -> Result<Behind, AllocError>
    ensures shown { IfOk result (λ r. r.shown.items
        ≡ map (found (tree_value tree.now) text.now)
        (shown_further (tree_value tree.now) fault)) }
    ensures more { IfOk result (λ r. r.more ≡ has_more (tree_value tree.now) fault) }
{
    let mut faults = Vec::new(alloc);
    push_further(alloc, tree, &mut faults, fault, MOST + 1)?;
    let shown = all_found(alloc, tree, text, first_of(&faults))?;
    Ok(Behind {
        shown,
        more: MOST < faults.len(),
    })
}

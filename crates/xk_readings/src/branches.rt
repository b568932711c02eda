//! Which number comes next, and where one is then.

ghost use Rattle.std.specs.Prelude.{◌≡◌, ◌<◌, ◌≤◌, length, IfOk, OnOk};
ghost use Rattle.std.specs.Bool.{Decides};
ghost use Rattle.xk_readings.specs.Branches.{AreBefore, AreBranches, AreBranchesAt, AreRisingBranches, IsGroup, IsGrouped, branch_of};

use crate::edge::Edge;
use crate::graph::Graph;
use crate::ways::Ways;
use std::alloc::{AllocError, Global};

/// An edge that prints a number, behind a way.
#[derive(Clone, Copy)]
pub struct Branch {
    /// What it prints.
    pub number: i64,
    /// The number of the way.
    pub before: usize,
    /// The edge.
    pub edge: Edge,
}

/// Ways that follow one another and print the same numbers.
#[derive(Clone, Copy)]
pub struct Group {
    /// The number of the first one.
    pub from: usize,
    /// The number behind that of the last one.
    pub to: usize,
}

/// The edge behind a way, if it prints a number.
fn branch_of(before: usize, edge: &Edge) -> Option<Branch>
    ensures { result ≡ branch_of before edge.now }
{
    let number = edge.printed?;
    Some(Branch {
        number,
        before,
        edge: *edge,
    })
}

/// Whether the two print the same number.
fn print_same(a: &Branch, b: &Branch) -> bool
    ensures { Decides result (a.now.number ≡ b.now.number) }
{
    a.number == b.number
}

/// Adds those of one way.
fn add_branches(
    graph: &Graph,
    ways: &Ways,
    before: usize,
    branches: &mut Vec<Branch>,
) -> Result<(), AllocError>
    requires { before < length ways.now.all }
    ensures { OnOk result
        (AreBranchesAt graph.now ways.now.all before branches.old.items branches.new.items) }
{
    for edge in graph.edges_from(ways.node(before)) {
        if let Some(branch) = branch_of(before, edge) {
            branches.push(branch)?;
        }
    }
    Ok(())
}

/// Those of the ways from a number on, rising by what they print. Err where memory was refused.
pub fn branches_from(
    alloc: Global,
    graph: &Graph,
    ways: &Ways,
    first: usize,
) -> Result<Vec<Branch>, AllocError>
    ensures branches { IfOk result (λ b. AreBranches graph.now ways.now.all first b.items) }
    ensures rising { IfOk result (λ b. AreRisingBranches b.items) }
{
    let mut branches = Vec::new(alloc);
    for before in first..ways.len() {
        add_branches(graph, ways, before, &mut branches)?;
    }
    branches.sort_by_key(|branch| branch.number)?;
    Ok(branches)
}

/// Adds the ways of the last branches before a place that print the same number. The place of the first of them. Err where memory was
/// refused.
fn add_group(ways: &mut Ways, branches: &[Branch], end: usize) -> Result<usize, AllocError>
    requires some { 0 < end }
    requires within { end ≤ length branches.now }
    requires before { AreBefore branches.now ways.old }
    ensures { IfOk result (λ start. IsGroup branches.now start end ways.old ways.new) }
{
    ways.look_from_here();
    let last = branches[end - 1];
    let mut at = end;
    while at > 0 {
        let branch = branches[at - 1];
        if !print_same(&branch, &last) {
            return Ok(at);
        }
        ways.lengthen(branch.before, branch.edge)?;
        at -= 1;
    }
    Ok(at)
}

/// Adds the ways of all branches, in groups of those that print the same number: the group of the least stands last. Err where memory was
/// refused.
pub fn add_groups(
    ways: &mut Ways,
    groups: &mut Vec<Group>,
    branches: &[Branch],
) -> Result<(), AllocError>
    requires { AreBefore branches.now ways.old }
    ensures { OnOk result
        (IsGrouped branches.now ways.old ways.new groups.old.items groups.new.items) }
{
    let mut at = branches.len();
    while at > 0 {
        let from = ways.len();
        at = add_group(ways, branches, at)?;
        let to = ways.len();
        groups.push(Group { from, to })?;
    }
    Ok(())
}

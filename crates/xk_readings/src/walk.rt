//! The walk along all readings: one number after another, the least first.

ghost use Rattle.std.specs.Prelude.{◌≡◌, ◌<◌, ◌≤◌, ◌∷◌, ◌++◌, [], ℕ, true, false, length, slice_get, IfOk, OnOk};
ghost use Rattle.xk_readings.specs.Graphs.{IsWithin};
ghost use Rattle.xk_readings.specs.Readings.{AreAllListed, AreShown, IsLongest};
ghost use Rattle.xk_readings.specs.Rising.{AreFirst, AreRising};
ghost use Rattle.xk_readings.specs.Useful.{IsReadable};
ghost use Rattle.xk_readings.specs.Ways.{start};
ghost use Rattle.xk_readings.specs.Closures.{AreReached, AreTrim};
ghost use Rattle.xk_readings.specs.Walks.{IsListedFrom, IsOneOf, IsOpened, IsWalk, IsWalked};

use crate::branches::{Group, add_groups, branches_from};
use crate::closure::{close, ending};
use crate::graph::Graph;
use crate::listing::{Reading, Readings};
use crate::ways::Ways;
use std::alloc::{AllocError, Global};

/// How far a walk has come.
#[derive(Drop)]
pub struct Walk {
    /// Ways from the first node.
    pub ways: Ways,
    /// Those that are still to be made longer, in groups. The group that comes next stands last.
    pub groups: Vec<Group>,
    /// What is listed so far.
    pub list: Vec<Reading>,
}

/// Adds the ways that come to where those of the group do without a number being printed. Err where memory was refused.
fn open(graph: &Graph, walk: &mut Walk, group: Group) -> Result<(), AllocError>
    requires within { IsWithin graph.now }
    requires trim { AreTrim graph.now }
    requires room { walk.old.ways.here.room ≡ length graph.now.ends }
    requires reached { AreReached graph.now walk.old.ways.all }
    requires group { IsOneOf walk.old.ways.all group }
    ensures opened { OnOk result (IsOpened graph.now group walk.old.ways walk.new.ways) }
    ensures groups { walk.new.groups.items ≡ walk.old.groups.items }
    ensures list { walk.new.list.items ≡ walk.old.list.items }
{
    walk.ways.truncate(group.to);
    close(graph, &mut walk.ways, group.from)?;
    Ok(())
}

/// Lists what is read along a way from a number on that ends where a reading may end, if one does and fewer are listed than the limit says.
/// Whether that isn't passed. Err where memory was refused.
fn list_ending(
    alloc: Global,
    graph: &Graph,
    walk: &mut Walk,
    first: usize,
    limit: usize,
) -> Result<bool, AllocError>
    requires within { IsWithin graph.now }
    requires reached { AreReached graph.now walk.old.ways.all }
    ensures listed { IfOk result (λ more. IsListedFrom graph.now walk.old.ways.all first limit
        walk.old.list.items walk.new.list.items more) }
    ensures groups { walk.new.groups.items ≡ walk.old.groups.items }
    ensures ways { walk.new.ways ≡ walk.old.ways }
{
    match ending(graph, &walk.ways, first) {
        None => Ok(true),
        Some(_) if walk.list.len() >= limit => Ok(false),
        Some(last) => {
            let reading = walk.ways.reading(alloc, last)?;
            walk.list.push(reading)?;
            Ok(true)
        }
    }
}

/// Goes on from a group, which is the last one and was taken out. Whether the limit isn't passed. Err where memory was refused.
fn go_on(
    alloc: Global,
    graph: &Graph,
    walk: &mut Walk,
    group: Group,
    limit: usize,
) -> Result<bool, AllocError>
    requires within { IsWithin graph.now }
    requires trim { AreTrim graph.now }
    requires walk { IsWalk graph.now walk.old.ways (walk.old.groups.items ++ group ∷ [])
        walk.old.list.items }
    ensures { IfOk result (λ more. IsWalked graph.now limit group
        walk.old.ways walk.old.list.items
        walk.new.ways walk.new.groups.items walk.new.list.items more) }
{
    open(graph, walk, group)?;
    if !list_ending(alloc, graph, walk, group.from, limit)? {
        return Ok(false);
    }
    let branches = branches_from(alloc, graph, &walk.ways, group.from)?;
    add_groups(&mut walk.ways, &mut walk.groups, &branches)?;
    Ok(true)
}

/// Goes on until no group is left, or the limit is passed. Whether no group is left. Err where memory was refused.
fn go_through(
    alloc: Global,
    graph: &Graph,
    walk: &mut Walk,
    longest: u64,
    limit: usize,
) -> Result<bool, AllocError>
    requires within { IsWithin graph.now }
    requires trim { AreTrim graph.now }
    requires longest { IsLongest graph.now longest }
    requires walk { IsWalk graph.now walk.old.ways walk.old.groups.items walk.old.list.items }
    requires most { length walk.old.list.items ≤ limit }
    ensures shown { OnOk result (AreShown graph.now walk.new.list.items) }
    ensures all { IfOk result (λ complete. complete ≡ true
        → AreAllListed graph.now walk.new.list.items) }
    ensures limit { IfOk result (λ complete. complete ≡ false
        → limit ≤ length walk.new.list.items) }
    ensures most { OnOk result (length walk.new.list.items ≤ limit) }
    ensures rising { OnOk result (AreRising walk.new.list.items) }
    ensures first { OnOk result (AreFirst graph.now walk.new.list.items) }
{
    while let Some(group) = walk.groups.pop() {
        if !go_on(alloc, graph, walk, group, limit)? {
            return Ok(false);
        }
    }
    Ok(true)
}

/// The walk that begins at the first of so many nodes. Err where memory was refused.
fn beginning(alloc: Global, nodes: usize) -> Result<Walk, AllocError>
    ensures ways { IfOk result (λ w. w.ways.all ≡ start ∷ []) }
    ensures room { IfOk result (λ w. w.ways.here.room ≡ nodes) }
    ensures groups { IfOk result (λ w. w.groups.items ≡ record { from = 0; to = 1 } ∷ []) }
    ensures list { IfOk result (λ w. w.list.items ≡ []) }
{
    let ways = Ways::new(alloc, nodes)?;
    let groups = vec![in alloc; Group { from: 0, to: 1 }]?;
    Ok(Walk {
        ways,
        groups,
        list: Vec::new(alloc),
    })
}

/// Lists what can be read from node 0 of a graph of so many nodes, each of whose edges leads to where a reading goes out. Err where memory
/// was refused.
pub fn walk_all(
    alloc: Global,
    graph: &Graph,
    nodes: usize,
    longest: u64,
    limit: usize,
) -> Result<Readings, AllocError>
    requires nodes { nodes ≡ length graph.now.ends }
    requires within { IsWithin graph.now }
    requires trim { AreTrim graph.now }
    requires readable { IsReadable graph.now 0 }
    requires longest { IsLongest graph.now longest }
    ensures shown { IfOk result (λ r. AreShown graph.now r.list.items) }
    ensures all { IfOk result (λ r. r.complete ≡ true → AreAllListed graph.now r.list.items) }
    ensures limit { IfOk result (λ r. r.complete ≡ false → limit ≤ length r.list.items) }
    ensures most { IfOk result (λ r. length r.list.items ≤ limit) }
    ensures rising { IfOk result (λ r. AreRising r.list.items) }
    ensures first { IfOk result (λ r. AreFirst graph.now r.list.items) }
{
    let mut walk = beginning(alloc, nodes)?;
    let complete = go_through(alloc, graph, &mut walk, longest, limit)?;
    let Walk {
        ways: _,
        groups: _,
        list,
    } = walk;
    Ok(Readings { list, complete })
}

//! What the parts of a program run.

ghost use Rattle.std.specs.Prelude.{◌≡◌, ℕ, List, [], ◌∷◌, ◌++◌, map, nat_eq, unwrap_or, OnOk, IfOk};
ghost use Rattle.std.specs.Map.{lookup};
ghost use Rattle.xk_callgraph.specs.CallGraph.{adjacency};
ghost use Rattle.xk_tree.specs.Tree.{statement, statements, word};
ghost use Rattle.xk_names.specs.Scope.{find};
ghost use Rattle.xk_source_semantics.specs.Parts.{Calls, Starts, body_among, method_among, part_runs, runs, runs_all};
ghost use Rattle.xk_numbering.specs.Views.{part};
ghost use Rattle.xk_numbering.specs.PartPlaces.{ArePlaces, place_in};
ghost use Rattle.xk_source_semantics.specs.PartGraph.{graph_by};

use crate::parts::Part;
use indexmap::IndexMap;
use std::alloc::{AllocError, Global};
use std::marker::Model;
use xk_names::Table;
use xk_tree::{Name, Stmt};

/// Where the parts of a program stand among these.
#[derive(Drop)]
pub(crate) struct Places<'t> {
    /// Methods by their names.
    methods: Table<'t, usize>,
    /// Bodies by the offsets of their `async`.
    bodies: IndexMap<usize, usize>,
    /// What stands for all that aren't there.
    other: usize,
}

impl<'t> Model for Places<'t> {
    ghost use Rattle.xk_numbering.specs.PartPlaces.{Places as PlacesValue};

    ghost Value = { PlacesValue };

    ghost view = { λ p. record {
      methods = p.methods;
      bodies = p.bodies.entries;
      other = p.other;
    } };
}

/// The places of methods by their names; a name means the first method that has it.
fn method_places<'t>(alloc: Global, parts: &[Part<'_, 't>]) -> Result<Table<'t, usize>, AllocError>
    ensures { IfOk result (λ table. (x : List ℕ)
        → find table x ≡ method_among 0 (map part parts.now) x) }
{
    let mut table = Table::new(alloc);
    for (i, p) in parts.iter().enumerate() {
        match p {
            Part::Method(method) => table.put(method.name.text, i)?,
            Part::Body(..) => {}
        }
    }
    Ok(table)
}

/// The places of bodies by the offsets of their `async`.
fn body_places(alloc: Global, parts: &[Part<'_, '_>]) -> Result<IndexMap<usize, usize>, AllocError>
    ensures { IfOk result (λ table. (at : ℕ)
        → lookup (nat_eq at) table.entries ≡ body_among 0 (map part parts.now) at) }
{
    let mut table = IndexMap::new(alloc);
    for (i, p) in parts.iter().enumerate() {
        if let Part::Body(at, _, _) = p {
            if !table.contains_key(at) {
                table.insert(*at, i)?;
            }
        }
    }
    Ok(table)
}

/// Adds a place.
fn add_place(found: &mut Vec<usize>, place: usize) -> Result<(), AllocError>
    ensures { OnOk result (found.new.items ≡ found.old.items ++ place ∷ []) }
{
    found.push(place)?;
    Ok(())
}

impl<'t> Places<'t> {
    /// The places of these parts.
    pub(crate) fn new(alloc: Global, parts: &[Part<'_, 't>]) -> Result<Self, AllocError>
        ensures { IfOk result (λ q. ArePlaces (map part parts.now) q) }
    {
        Ok(Places {
            methods: method_places(alloc, parts)?,
            bodies: body_places(alloc, parts)?,
            other: parts.len(),
        })
    }

    /// The place of the method of a name.
    pub(crate) fn method(&self, text: &'t [u8]) -> usize
        ensures { result ≡ unwrap_or (find self.now.methods text.now) self.now.other }
    {
        self.methods.find(text).unwrap_or(self.other)
    }

    /// The place of the method that a call names.
    fn called(&self, g: Name<'t>) -> usize
        ensures { result ≡ place_in self.now (Calls (word g.entry)) }
    {
        self.method(g.text)
    }

    /// The place of the body of an `async`.
    fn started(&self, at: usize) -> usize
        ensures { result ≡ place_in self.now (Starts at) }
    {
        self.bodies.get(&at).copied().unwrap_or(self.other)
    }

    /// Adds the places of what a statement's code runs.
    #[cycle(runs)]
    fn add_runs(&self, found: &mut Vec<usize>, s: &Stmt<'t>) -> Result<(), AllocError>
        ensures { OnOk result (found.new.items
            ≡ found.old.items ++ map (place_in self.now) (runs (statement s.now))) }
    {
        match s {
            Stmt::Block(_, ss) => self.add_all_runs(found, ss),
            Stmt::If(_, _, _, _, s) => self.add_runs(found, s),
            Stmt::IfElse(_, _, _, _, s, u) => {
                self.add_runs(found, s)?;
                self.add_runs(found, u)
            }
            Stmt::For(_, _, lo, bound, s) => {
                if lo.value <= bound.top() {
                    self.add_runs(found, s)
                } else {
                    Ok(())
                }
            }
            Stmt::Async(at, _, _) => add_place(found, self.started(*at)),
            Stmt::Finish(_, s) => self.add_runs(found, s),
            Stmt::Call(g, _, _) => add_place(found, self.called(*g)),
            Stmt::Empty
            | Stmt::Declare(..)
            | Stmt::Assign(..)
            | Stmt::Atomic(..)
            | Stmt::Resume(..)
            | Stmt::Drop(..)
            | Stmt::AdvanceAll(..)
            | Stmt::Print(..) => Ok(()),
        }
    }

    /// The same for statements, one after another.
    #[cycle(runs)]
    fn add_all_runs(&self, found: &mut Vec<usize>, ss: &[Stmt<'t>]) -> Result<(), AllocError>
        ensures { OnOk result (found.new.items
            ≡ found.old.items ++ map (place_in self.now) (runs_all (statements ss.now))) }
    {
        for s in ss {
            self.add_runs(found, s)?;
        }
        Ok(())
    }

    /// Adds the places of what a part runs.
    fn add_part_runs(&self, found: &mut Vec<usize>, p: &Part<'_, 't>) -> Result<(), AllocError>
        ensures { OnOk result (found.new.items
            ≡ found.old.items ++ map (place_in self.now) (part_runs (part p.now))) }
    {
        match p {
            Part::Method(method) => self.add_all_runs(found, &method.body),
            Part::Body(_, _, s) => self.add_runs(found, s),
        }
    }

    /// The places of what a part runs.
    fn part_runs(&self, alloc: Global, p: &Part<'_, 't>) -> Result<Vec<usize>, AllocError>
        ensures { IfOk result (λ found. found.items
            ≡ map (place_in self.now) (part_runs (part p.now))) }
    {
        let mut found = Vec::new(alloc);
        self.add_part_runs(&mut found, p)?;
        Ok(found)
    }

    /// Adds to the lists the places of what a part runs.
    fn add_list(
        &self,
        alloc: Global,
        lists: &mut Vec<Vec<usize>>,
        p: &Part<'_, 't>,
    ) -> Result<(), AllocError>
        ensures { OnOk result (adjacency lists.new.items
            ≡ adjacency lists.old.items ++ map (place_in self.now) (part_runs (part p.now)) ∷ []) }
    {
        lists.push(self.part_runs(alloc, p)?)?;
        Ok(())
    }

    /// For each part the places of what it runs; the last one is for all that aren't there.
    pub(crate) fn graph(
        &self,
        alloc: Global,
        parts: &[Part<'_, 't>],
    ) -> Result<Vec<Vec<usize>>, AllocError>
        ensures { IfOk result (λ lists. adjacency lists.items
            ≡ graph_by (place_in self.now) (map part parts.now)) }
    {
        let mut lists = Vec::new(alloc);
        for p in parts {
            self.add_list(alloc, &mut lists, p)?;
        }
        lists.push(Vec::new(alloc))?;
        Ok(lists)
    }
}

//! The fixed point of what a slot may hold at each place, through branches and loops, found breadth-first.

ghost use Rattle.std.specs.Prelude.{◌≡◌, ℕ, ◌+◌, ◌<◌, ◌≤◌, length, IfOk, replicate, []};
ghost use Rattle.xk_types.specs.Code.{UnitValue, ModuleValue};
ghost use Rattle.xk_types.specs.Order.{Has};
ghost use Rattle.xk_typestate.specs.KindSet.{no_kinds};
ghost use Rattle.xk_typestate.specs.Transfer.{places, way_kinds};
ghost use Rattle.xk_typestate.specs.Search.{IsClosed, IsSearched, IsComplete, IsPut, Extends, IsLatest, HasPut, CanCome};

use crate::kind_set::{KINDS, KindSet};
use crate::transfer::{Successors, kinds_at_entry, kinds_left, successors_of, way};
use std::alloc::{AllocError, Global};
use xk_shape::Blocks;
use xk_types::{Instr, Kind, Module, Unit, Visit};

/// A stop that walks come to.
#[derive(Clone, Copy)]
pub(crate) struct Found {
    pub(crate) stop: Visit,
    /// The place, among those found, of the stop that it was come to from; none where a walk begins.
    pub(crate) from: Option<usize>,
}

/// The stops that were seen, as sets of kinds, and the same as a list in the order in which they were found.
#[derive(Drop)]
pub(crate) struct Search {
    pub(crate) seen: Vec<KindSet>,
    pub(crate) found: Vec<Found>,
}

/// All stops that walks of the slot come to. The blocks are those of the unit.
pub(crate) fn search_slot(
    alloc: Global,
    m: &Module,
    u: &Unit,
    blocks: &Blocks,
    slot: u16,
) -> Result<Search, AllocError>
    requires blocks { blocks.now ≡ u.now }
    requires closed { IsClosed u.now }
    requires limits { length u.now.code ≤ 4096 }
    ensures { IfOk result (IsComplete m.now u.now slot) }
{
    let mut search = Search::new(alloc, u.code.len())?;
    search.put_all(0, kinds_at_entry(u, slot), None)?;
    let mut done = 0;
    while done < search.found.len() {
        search.go_on(m, u, blocks, slot, done)?;
        done += 1;
    }
    Ok(search)
}

impl Search {
    /// Nothing seen, in code of this length.
    fn new(alloc: Global, len: usize) -> Result<Search, AllocError>
        ensures { IfOk result
            (λ r. (r.seen.items ≡ replicate len no_kinds) × (r.found.items ≡ [])) }
    {
        Ok(Search {
            seen: vec![in alloc; KindSet::empty(); len]?,
            found: Vec::new(alloc),
        })
    }

    /// Puts the stops that edges lead to from the one at this place.
    fn go_on(
        &mut self,
        m: &Module,
        u: &Unit,
        blocks: &Blocks,
        slot: u16,
        done: usize,
    ) -> Result<(), AllocError>
        requires blocks { blocks.now ≡ u.now }
        requires closed { IsClosed u.now }
        requires limits { length u.now.code ≤ 4096 }
        requires searched { IsSearched m.now u.now slot self.old done }
        requires place { done < length self.old.found.items }
        ensures grown { IfOk result (λ _. Extends self.old self.new) }
        ensures searched { IfOk result (λ _. IsSearched m.now u.now slot self.new (done + 1)) }
    {
        let stop = self.found[done].stop;
        let instr = &u.code[stop.at as usize];
        let kinds = kinds_left(m, u, blocks, instr, slot, stop.kind);
        self.put_successors(
            successors_of(instr, stop.at),
            instr,
            kinds.0,
            kinds.1,
            Some(done),
        )
    }

    /// Puts at each of the successors those of the kinds that are left on the way there.
    fn put_successors(
        &mut self,
        successors: Successors,
        instr: &Instr,
        kinds: KindSet,
        past: KindSet,
        from: Option<usize>,
    ) -> Result<(), AllocError>
        requires inside { (to : ℕ) → Has (places successors) to → to < length self.old.seen.items }
        ensures grown { IfOk result (λ _. Extends self.old self.new) }
        ensures put { IfOk result
            (λ _. (to : ℕ) → Has (places successors) to
            → HasPut self.new to (way_kinds instr.now to kinds past)) }
        ensures searched { (m : ModuleValue) (u : UnitValue) (s done : ℕ)
            → IsSearched m u s self.old done
            → ((to : ℕ) → Has (places successors) to
            → CanCome m u s done self.old to (way_kinds instr.now to kinds past) from)
            → IfOk result (λ _. IsSearched m u s self.new done) }
    {
        match successors {
            Successors::Nowhere => Ok(()),
            Successors::One(to) => self.put_all(to, way(instr, to, kinds, past), from),
            Successors::Two(first, second) => {
                self.put_all(first, way(instr, first, kinds, past), from)?;
                self.put_all(second, way(instr, second, kinds, past), from)
            }
        }
    }

    /// Puts these kinds at one instruction.
    fn put_all(&mut self, to: u16, kinds: KindSet, from: Option<usize>) -> Result<(), AllocError>
        requires inside { to < length self.old.seen.items }
        ensures grown { IfOk result (λ _. Extends self.old self.new) }
        ensures put { IfOk result (λ _. HasPut self.new to kinds) }
        ensures latest { IfOk result
            (λ _. IsLatest self.old.found.items from → IsLatest self.new.found.items from) }
        ensures searched { (m : ModuleValue) (u : UnitValue) (s done : ℕ)
            → IsSearched m u s self.old done
            → CanCome m u s done self.old to kinds from
            → IfOk result (λ _. IsSearched m u s self.new done) }
    {
        for kind in KINDS {
            if kinds.contains(kind) {
                self.put(Visit { at: to, kind }, from)?;
            }
        }
        Ok(())
    }

    /// Puts one stop, where it wasn't seen.
    fn put(&mut self, stop: Visit, from: Option<usize>) -> Result<(), AllocError>
        requires inside { stop.at < length self.old.seen.items }
        ensures { IfOk result (λ _. IsPut self.old self.new stop from) }
    {
        let kinds = self.seen[stop.at as usize];
        if !kinds.contains(stop.kind) {
            self.seen[stop.at as usize] = kinds.with(stop.kind);
            self.found.push(Found { stop, from })?;
        }
        Ok(())
    }
}

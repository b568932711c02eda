//! Walks to a stop.

ghost use Rattle.std.specs.Prelude.{◌≡◌, ℕ, ◌<◌, ◌≤◌, length, IfOk, MatchOption, Some};
ghost use Rattle.xk_types.specs.declared.rules.Visit.{Visit};
ghost use Rattle.xk_types.specs.Code.{UnitValue, ModuleValue};
ghost use Rattle.xk_types.specs.Walk.{IsWalk, EndsAt, IsVisited};
ghost use Rattle.xk_typestate.specs.Search.{IsClosed};
ghost use Rattle.xk_typestate.specs.LeastRefusal.{IsShortest};
ghost use Rattle.xk_typestate.specs.SearchStops.{IsPlaceOf, IsFirstPlaceOf, IsNowhere, ComesFromBefore, HasCome, StopsBack};

use crate::fixed_point::{Found, search_slot};
use std::alloc::{AllocError, Global};
use xk_shape::Blocks;
use xk_types::{Module, Unit, Visit};

/// A walk of the slot that ends at this stop, than which none is shorter.
pub(crate) fn walk_to(
    alloc: Global,
    m: &Module,
    u: &Unit,
    blocks: &Blocks,
    slot: u16,
    end: Visit,
) -> Result<Vec<Visit>, AllocError>
    requires blocks { blocks.now ≡ u.now }
    requires closed { IsClosed u.now }
    requires limits { length u.now.code ≤ 4096 }
    requires visited { IsVisited m.now u.now slot end }
    ensures walk { IfOk result (λ w. IsWalk m.now u.now slot w.items × EndsAt w.items end) }
    ensures shortest { IfOk result (λ w. IsShortest m.now u.now slot end w.items) }
{
    let search = search_slot(alloc, m, u, blocks, slot)?;
    match place_of(&search.found, end) {
        Some(place) => walk_back(alloc, &search.found, place),
        None => unreachable!(),
    }
}

/// Where the stop first stands among those found.
fn place_of(found: &[Found], stop: Visit) -> Option<usize>
    ensures { MatchOption result (IsNowhere found.now stop) (IsFirstPlaceOf found.now stop) }
{
    for i in 0..found.len() {
        if found[i].stop == stop {
            return Some(i);
        }
    }
    None
}

/// The walk that led to the stop at this place.
fn walk_back(alloc: Global, found: &[Found], place: usize) -> Result<Vec<Visit>, AllocError>
    requires order { ComesFromBefore found.now }
    requires inside { place < length found.now }
    ensures walk { (m : ModuleValue) (u : UnitValue) (s : ℕ)
        → HasCome m u s found.now
        → IfOk result (λ w. IsWalk m u s w.items
        × ((q : Visit) → IsPlaceOf found.now q place → EndsAt w.items q)) }
    ensures stops { IfOk result (λ w. StopsBack found.now (Some place) (length w.items)) }
{
    let mut walk = Vec::new(alloc);
    let mut next = Some(place);
    while let Some(n) = next {
        walk.push(found[n].stop)?;
        next = found[n].from;
    }
    walk.reverse();
    Ok(walk)
}

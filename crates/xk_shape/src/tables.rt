//! What is known of the places and slots of a unit.

ghost use Rattle.std.specs.Prelude.{◌≡◌, ◌<◌, ◌≤◌, not, false, length, slice_get, IfOk, MatchOption};
ghost use Rattle.std.specs.List.{list_any, position};
ghost use Rattle.std.specs.Option.{option_map_or};
ghost use Rattle.xk_types.specs.Code.{UnitValue};
ghost use Rattle.xk_types.specs.Blocks.{block_at, takes_clock, makes, homes, is_here, is_inside, depth_at};
ghost use Rattle.xk_types.specs.Bound.{nesting};
ghost use Rattle.xk_types.specs.Shape.{spans, differ};
ghost use Rattle.xk_shape.specs.Nesting.{AreNested};
ghost use Rattle.xk_shape.specs.Places.{innermost, is_counter};
ghost use Rattle.xk_shape.specs.Blocks.{IsOrderly, HasBlocks};
ghost use Rattle.xk_shape.specs.Tables.{home_place, AreFirstHomes, AreTables, is_at_home_elsewhere, is_one_block};

use crate::places::{Place, has_slot, places};
use std::alloc::{AllocError, Global};
use xk_types::{Instr, ParamKind, Unit};

/// How the places of a unit lie whose loops and finishes nest, and for each slot a place that stands directly in its home.
#[derive(Drop)]
pub(crate) struct Tables {
    places: Vec<Place>,
    homes: Vec<Option<usize>>,
}

impl Tables {
    /// Those of a unit, or nothing where its loops and finishes don't nest. The error is that room for them was refused.
    pub(crate) fn of(alloc: Global, u: &Unit) -> Result<Option<Tables>, AllocError>
        requires { length u.now.code ≤ 4096 }
        ensures { IfOk result (λ found. MatchOption found
            (¬ AreNested u.now)
            (λ t. AreNested u.now × AreTables u.now t)) }
    {
        match places(alloc, u)? {
            Some(places) => Ok(Some(Tables {
                places,
                homes: homes(alloc, u)?,
            })),
            None => Ok(None),
        }
    }

    /// Whether some loop or finish lies round one of the two places and not round the other.
    pub(crate) fn is_parted(&self, a: u16, b: u16) -> bool
        ensures { (u : UnitValue)
            → AreNested u
            → AreTables u self.now
            → a < length u.code
            → b < length u.code
            → result ≡ list_any (λ s. differ (is_inside a s) (is_inside b s)) (spans u) }
    {
        match (self.places.get(a as usize), self.places.get(b as usize)) {
            (Some(one), Some(other)) => one.within != other.within,
            _ => false,
        }
    }

    /// Whether a loop round the place counts its turns in the slot.
    pub(crate) fn is_counter(&self, slot: u16, at: u16) -> bool
        requires { slot < 64 }
        ensures { (u : UnitValue)
            → AreTables u self.now
            → at < length u.code
            → result ≡ is_counter u at slot }
    {
        match self.places.get(at as usize) {
            Some(place) => has_slot(place.counters, slot),
            None => false,
        }
    }

    /// How many finishes are open at the place.
    pub(crate) fn depth_at(&self, at: u16) -> u16
        ensures { (u : UnitValue) → AreTables u self.now → result ≡ depth_at u at }
    {
        match self.places.get(at as usize) {
            Some(place) => place.depth,
            None => 0,
        }
    }

    /// The most finishes that are open at one place.
    pub(crate) fn nesting(&self) -> u16
        ensures { (u : UnitValue) → AreTables u self.now → result ≡ nesting u }
    {
        let mut most = 0;
        for place in self.places.iter() {
            most = most.max(place.depth);
        }
        most
    }

    /// Whether the slot has a home, and the place stands directly in it.
    pub(crate) fn is_in_home(&self, slot: u16, at: usize) -> bool
        ensures { (u : UnitValue)
            → HasBlocks u
            → AreTables u self.now
            → result ≡ is_here (block_at u at) (homes u slot) }
    {
        match self.home(slot) {
            Some(home) => self.is_one_block(at, home),
            None => false,
        }
    }

    /// Whether the slot has a home, and the place stands directly in another block than the one that was found first.
    pub(crate) fn is_away(&self, slot: u16, at: usize) -> bool
        ensures { (u : UnitValue)
            → IsOrderly u
            → AreTables u self.now
            → result
            ≡ option_map_or (λ home. not (is_one_block u at home)) (home_place u slot) false }
    {
        match self.home(slot) {
            Some(home) => !self.is_one_block(at, home),
            None => false,
        }
    }

    /// Whether the slot has a home, and the place stands directly in another block.
    pub(crate) fn is_elsewhere(&self, slot: u16, at: usize) -> bool
        ensures { (u : UnitValue)
            → HasBlocks u
            → AreTables u self.now
            → result ≡ is_at_home_elsewhere u at slot }
    {
        self.is_away(slot, at)
    }

    /// A place that stands directly in the slot's home, if it has one.
    fn home(&self, slot: u16) -> Option<usize>
        ensures { (u : UnitValue)
            → IsOrderly u
            → AreTables u self.now
            → result ≡ home_place u slot }
    {
        match self.homes.get(slot as usize) {
            Some(home) => *home,
            None => None,
        }
    }

    /// Whether the two places stand directly in the same block.
    fn is_one_block(&self, a: usize, b: usize) -> bool
        ensures { (u : UnitValue)
            → AreNested u
            → AreTables u self.now
            → result ≡ is_one_block u a b }
    {
        self.finish_of(a) == self.finish_of(b)
    }

    /// The place of the `finish` that begins the block of a place; none where the block is the whole unit.
    fn finish_of(&self, at: usize) -> Option<u16>
        ensures { (u : UnitValue) → AreTables u self.now → result ≡ innermost (block_at u at) }
    {
        match self.places.get(at) {
            Some(place) => place.finish,
            None => None,
        }
    }
}

/// For each slot a place that stands directly in its home.
fn homes(alloc: Global, u: &Unit) -> Result<Vec<Option<usize>>, AllocError>
    ensures all { IfOk result (λ found. length found.items ≡ u.now.slots) }
    ensures each { IfOk result (λ found. AreFirstHomes u.now found.items) }
{
    let mut found = Vec::new(alloc);
    for slot in 0..u.slots {
        found.push(home_place(u, slot))?;
    }
    Ok(found)
}

/// A place that stands directly in the slot's home: the first of the unit for a parameter that takes a clock, else the first
/// that makes its clock.
fn home_place(u: &Unit, slot: u16) -> Option<usize>
    ensures { result ≡ home_place u.now slot }
{
    if takes_clock(u, slot) {
        Some(0)
    } else {
        first_made(&u.code, slot)
    }
}

/// The first place that makes the clock of the slot.
fn first_made(code: &[Instr], slot: u16) -> Option<usize>
    ensures { result ≡ position (makes slot) code.now }
{
    code.iter().position(|instr| makes(slot, instr))
}

/// Whether the slot is a parameter that takes a clock.
pub(crate) fn takes_clock(u: &Unit, slot: u16) -> bool
    ensures { result ≡ takes_clock (slice_get u.now.params slot) }
{
    match u.params.get(slot as usize) {
        Some(ParamKind::Clock) => true,
        Some(ParamKind::Number) | None => false,
    }
}

/// Whether the instruction makes the clock of the slot.
fn makes(slot: u16, instr: &Instr) -> bool
    ensures { result ≡ makes slot instr.now }
{
    match instr {
        Instr::Make(d) => *d == slot,
        _ => false,
    }
}

//! The blocks that finishes make of a unit, and the homes of its slots.

ghost use Rattle.std.specs.Prelude.{◌≡◌, ◌+◌, IfOk};
ghost use Rattle.xk_types.specs.Blocks.{block_at, depth_at, homes, is_here};
ghost use Rattle.xk_types.specs.Bound.{nesting};
ghost use Rattle.xk_shape.specs.Blocks.{HasBlocks};

use crate::tables::Tables;
use std::alloc::{AllocError, Global};
use std::marker::Model;
use xk_types::Unit;

/// A unit with the block of each place and the home of each slot.
#[derive(Drop)]
pub struct Blocks<'m> {
    unit: &'m Unit,
    tables: Tables,
}

impl<'m> Model for Blocks<'m> {
    ghost use Rattle.xk_types.specs.Code.{UnitValue};
    ghost use Rattle.xk_shape.specs.Blocks.{HasBlocks};
    ghost use Rattle.xk_shape.specs.Tables.{AreTables};

    ghost Value = { UnitValue };

    ghost view = { λ b. b.unit.now };

    ghost invariant = { λ b. HasBlocks b.unit.now × AreTables b.unit.now b.tables };
}

impl<'m> Blocks<'m> {
    /// The blocks of a unit whose finishes nest, and whose slots have no more than one home each. The error is that room for
    /// them was refused.
    pub fn of(alloc: Global, unit: &'m Unit) -> Result<Blocks<'m>, AllocError>
        requires { HasBlocks unit.now }
        ensures { IfOk result (λ b. b ≡ unit.now) }
    {
        match Tables::of(alloc, unit)? {
            Some(tables) => Ok(Blocks { unit, tables }),
            None => unreachable!(),
        }
    }

    /// Whether the home of the slot is the block behind the `finish` at this place.
    pub fn is_home(&self, slot: u16, first: u16) -> bool
        ensures { result ≡ is_here (block_at self.now (first + 1)) (homes self.now slot) }
    {
        self.tables.is_in_home(slot, first as usize + 1)
    }

    /// How many finishes of the unit are open at the place.
    pub fn depth_at(&self, at: u16) -> u16
        ensures { result ≡ depth_at self.now at }
    {
        self.tables.depth_at(at)
    }

    /// The most finishes of the unit that are open at one place.
    pub fn nesting(&self) -> u16
        ensures { result ≡ nesting self.now }
    {
        self.tables.nesting()
    }
}

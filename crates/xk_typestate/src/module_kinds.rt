//! The kinds of all slots of a module, also of one whose slots aren't used as what they hold.

ghost use Rattle.std.specs.Prelude.{◌≡◌, ◌↔◌, ℕ, IsTrue, IfOk};
ghost use Rattle.xk_types.specs.declared.rules.Kind.{Kind};
ghost use Rattle.xk_types.specs.Shape.{HasShape};
ghost use Rattle.xk_shape.specs.Blocks.{HasBlocks};
ghost use Rattle.xk_typestate.specs.KindSet.{kinds_have};
ghost use Rattle.xk_typestate.specs.Place.{visit, HasPlace, IsVisitedIn};
ghost use Rattle.xk_typestate.specs.Search.{IsClosed};
ghost use Rattle.xk_typestate.specs.KindTable.{AreKindTables, IsKindTable, kinds_at};

use crate::kind_set::KindSet;
use crate::kind_table::KindTable;
use std::alloc::{AllocError, Global};
use std::marker::Model;
use xk_shape::{Blocks, Shaped};
use xk_types::{Module, Unit};

/// The kinds that walks have at each instruction of a module, for each slot.
#[derive(Drop)]
pub struct KindTables {
    units: Vec<KindTable>,
}

impl Model for KindTables {
    ghost use Rattle.std.specs.Prelude.{List};
    ghost use Rattle.xk_typestate.specs.KindSet.{KindsValue};

    ghost Value = { List (List (List KindsValue)) };

    ghost view = { λ t. t.units.items };
}

/// The kinds that walks of each slot have at each instruction of a module that has the shape, whether or not V11 to V13 refuse it. Err where
/// room for the blocks of a unit or for the kinds was refused.
pub fn kind_tables(alloc: Global, shaped: &Shaped) -> Result<KindTables, AllocError>
    ensures tables { IfOk result (λ t. AreKindTables shaped.now t) }
    ensures exact { IfOk result
        (λ t. (unit at slot : ℕ) (k : Kind)
        → HasPlace shaped.now unit at slot
        → IsTrue (kinds_have (kinds_at t unit at slot) k)
        ↔ IsVisitedIn shaped.now unit slot (visit at k)) }
{
    let units = tables_of(alloc, shaped.module())?;
    Ok(KindTables { units })
}

/// The same of each unit.
fn tables_of(alloc: Global, m: &Module) -> Result<Vec<KindTable>, AllocError>
    requires { HasShape m.now }
    ensures { IfOk result (λ t. AreKindTables m.now t.items) }
{
    let mut tables = Vec::new(alloc);
    for u in m.units() {
        tables.push(table_of(alloc, m, u)?)?;
    }
    Ok(tables)
}

/// The same of one unit.
fn table_of(alloc: Global, m: &Module, u: &Unit) -> Result<KindTable, AllocError>
    requires blocks { HasBlocks u.now }
    requires closed { IsClosed u.now }
    ensures { IfOk result (λ t. IsKindTable m.now u.now t) }
{
    let blocks = Blocks::of(alloc, u)?;
    KindTable::follow(alloc, m, u, &blocks)
}

impl KindTables {
    /// The kinds that walks of the slot have before the instruction; none where there is no such place.
    pub fn kinds(&self, unit: usize, at: usize, slot: usize) -> KindSet
        ensures { result ≡ kinds_at self.now unit at slot }
    {
        match self.units.get(unit) {
            Some(table) => table.kinds_or_none(at, slot),
            None => KindSet::empty(),
        }
    }
}

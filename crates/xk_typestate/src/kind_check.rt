//! Modules whose slots are used as what they hold.

ghost use Rattle.std.specs.Prelude.{◌≡◌, ◌↔◌, IsTrue, IfOk, IfErr, MatchResult, Some};
ghost use Rattle.xk_types.specs.declared.rules.Kind.{Kind};
ghost use Rattle.xk_types.specs.Code.{IsWithinLimits};
ghost use Rattle.xk_types.specs.Shape.{HasShape};
ghost use Rattle.xk_shape.specs.Blocks.{HasBlocks};
ghost use Rattle.xk_typestate.specs.KindSet.{kinds_have};
ghost use Rattle.xk_typestate.specs.Place.{visit, HasPlace, IsVisitedIn};
ghost use Rattle.xk_typestate.specs.LeastRefusal.{IsNeverRefused, IsNeverRefusedIn, FailsModule, FailsUnit};
ghost use Rattle.xk_typestate.specs.Search.{IsClosed};
ghost use Rattle.xk_typestate.specs.KindTable.{IsKindTable, IsTyped};

use crate::fault::{KindError, KindFault};
use crate::kind_set::KindSet;
use crate::kind_table::KindTable;
use crate::least_refusal::first_stop;
use crate::walk::walk_to;
use std::alloc::{AllocError, Global};
use std::marker::Model;
use xk_shape::{Blocks, Shaped};
use xk_types::{Module, Unit, Visit};

/// A module whose slots are used as what they hold, with the kinds of each slot at each instruction.
#[derive(Drop)]
pub struct Typed {
    shaped: Shaped,
    tables: Vec<KindTable>,
}

impl Model for Typed {
    ghost use Rattle.xk_types.specs.Code.{ModuleValue};
    ghost use Rattle.xk_typestate.specs.KindTable.{IsTyped};

    ghost Value = { ModuleValue };

    ghost view = { λ t. t.shaped };

    ghost invariant = { λ t. IsTyped t.shaped t.tables.items };
}

/// Takes the module if no walk of a slot ends where the table of kinds refuses to go on, or gives it back with the least
/// slot that is refused, by unit, instruction, slot and kind, and with a shortest walk to it. `OutOfMemory` comes only where
/// room for the blocks of a unit, for the kinds or for a walk was refused.
pub fn check_kinds(alloc: Global, shaped: Shaped) -> Result<Typed, (Shaped, KindError)>
    ensures accepted { IfOk result (λ t. (t ≡ shaped) × IsNeverRefused shaped) }
    ensures refused { IfErr result (λ e. FailsModule shaped e.1) }
    ensures handed_back { IfErr result (λ e. e.0 ≡ shaped) }
    ensures never_wrongly { IsNeverRefused shaped
        → IfErr result (λ e. e.1 ≡ KindError.OutOfMemory) }
{
    match check_units(alloc, shaped.module()) {
        Ok(tables) => Ok(Typed { shaped, tables }),
        Err(error) => Err((shaped, error)),
    }
}

/// Follows every slot of every unit, and stops at the least place that is refused.
fn check_units(alloc: Global, m: &Module) -> Result<Vec<KindTable>, KindError>
    requires { HasShape m.now }
    ensures { MatchResult result (λ t. IsTyped m.now t.items) (FailsModule m.now) }
{
    let mut tables = Vec::new(alloc);
    let mut unit = 0;
    for u in m.units() {
        let of_unit = check_unit(alloc, m, unit, u)?;
        match tables.push(of_unit) {
            Ok(()) => unit += 1,
            Err(e) => return Err(AllocError::from(e).into()),
        }
    }
    Ok(tables)
}

/// Follows every slot of one unit, and stops at the least place that is refused.
fn check_unit(alloc: Global, m: &Module, unit: u16, u: &Unit) -> Result<KindTable, KindError>
    requires blocks { HasBlocks u.now }
    requires closed { IsClosed u.now }
    ensures { MatchResult result
        (λ t. IsNeverRefusedIn m.now u.now × IsKindTable m.now u.now t)
        (FailsUnit m.now unit u.now) }
{
    let blocks = Blocks::of(alloc, u)?;
    let table = KindTable::follow(alloc, m, u, &blocks)?;
    let Some(stop) = first_stop(m, u, &blocks, &table) else {
        return Ok(table);
    };
    let end = Visit {
        at: stop.at,
        kind: stop.kind,
    };
    let walk = walk_to(alloc, m, u, &blocks, stop.slot, end)?;
    Err(KindError::Fault(KindFault {
        rule: stop.rule,
        unit,
        at: stop.at,
        slot: stop.slot,
        kind: stop.kind,
        walk,
    }))
}

impl Typed {
    /// The module.
    pub fn module(&self) -> &Module
        ensures same { result.now ≡ self.now }
        ensures kinds { IsNeverRefused self.now }
        ensures shape { HasShape self.now }
        ensures limits { IsWithinLimits self.now }
    {
        self.shaped.module()
    }

    /// The module.
    pub fn into_module(self) -> Module
        ensures same { result ≡ self }
        ensures kinds { IsNeverRefused self }
        ensures shape { HasShape self }
        ensures limits { IsWithinLimits self }
    {
        self.shaped.into_module()
    }

    /// The kinds that the slot may have before the instruction: those that walks end with there.
    pub fn kinds(&self, unit: u16, at: u16, slot: u16) -> KindSet
        requires { HasPlace self.now unit at slot }
        ensures { (k : Kind)
            → IsTrue (kinds_have result k) ↔ IsVisitedIn self.now unit slot (visit at k) }
    {
        self.tables[unit as usize].kinds(at, slot)
    }
}

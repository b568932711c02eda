//! The least place of a unit where the table refuses to go on.

ghost use Rattle.std.specs.Prelude.{◌≡◌, ◌<◌, length, IsTrue, MatchOption};
ghost use Rattle.xk_types.specs.Code.{IsUnitWithinLimits};
ghost use Rattle.xk_types.specs.Walk.{Refused, row};
ghost use Rattle.xk_typestate.specs.KindSet.{kinds_have};
ghost use Rattle.xk_typestate.specs.Place.{visit};
ghost use Rattle.xk_typestate.specs.LeastRefusal.{IsNeverRefusedIn, IsFirstStop, IsNeverRefusedThere, IsFirstThere, AreAllowed, IsFirstKind, IsAllowed};
ghost use Rattle.xk_typestate.specs.KindTable.{IsKindTable};

use crate::kind_set::{KINDS, KindSet};
use crate::kind_table::KindTable;
use crate::transfer::kinds_after;
use xk_shape::Blocks;
use xk_types::{Kind, Module, Rule, Unit};

/// A slot whose kind an instruction refuses.
#[derive(Clone, Copy)]
pub(crate) struct Stop {
    pub(crate) at: u16,
    pub(crate) slot: u16,
    pub(crate) kind: Kind,
    pub(crate) rule: Rule,
}

/// The least stop of a unit, by instruction, slot and kind. The blocks are those of the unit.
pub(crate) fn first_stop(m: &Module, u: &Unit, blocks: &Blocks, table: &KindTable) -> Option<Stop>
    requires blocks { blocks.now ≡ u.now }
    requires limits { IsUnitWithinLimits u.now }
    requires table { IsKindTable m.now u.now table.now }
    ensures { MatchOption result (IsNeverRefusedIn m.now u.now) (IsFirstStop m.now u.now) }
{
    for at in 0..u.code.len() {
        if let Some(stop) = stop_at(m, u, blocks, table, at as u16) {
            return Some(stop);
        }
    }
    None
}

/// The least stop at one instruction, by slot and kind.
fn stop_at(m: &Module, u: &Unit, blocks: &Blocks, table: &KindTable, at: u16) -> Option<Stop>
    requires blocks { blocks.now ≡ u.now }
    requires table { IsKindTable m.now u.now table.now }
    requires inside { at < length u.now.code }
    ensures { MatchOption result
        (IsNeverRefusedThere m.now u.now at)
        (IsFirstThere m.now u.now at) }
{
    for slot in 0..u.slots {
        if let Some(stop) = stop_of(m, u, blocks, at, slot, table.kinds(at, slot)) {
            return Some(stop);
        }
    }
    None
}

/// The stop of one slot at one instruction, with the least of these kinds that is refused.
fn stop_of(
    m: &Module,
    u: &Unit,
    blocks: &Blocks,
    at: u16,
    slot: u16,
    kinds: KindSet,
) -> Option<Stop>
    requires blocks { blocks.now ≡ u.now }
    requires inside { at < length u.now.code }
    ensures { MatchOption result
        (AreAllowed m.now u.now slot at kinds)
        (IsFirstKind m.now u.now slot at kinds) }
{
    for kind in KINDS {
        if let Some(rule) = refusal_of(m, u, blocks, at, slot, kinds, kind) {
            return Some(Stop {
                at,
                slot,
                kind,
                rule,
            });
        }
    }
    None
}

/// The rule that refuses the kind, where it is one of the set and a rule does.
fn refusal_of(
    m: &Module,
    u: &Unit,
    blocks: &Blocks,
    at: u16,
    slot: u16,
    kinds: KindSet,
    kind: Kind,
) -> Option<Rule>
    requires blocks { blocks.now ≡ u.now }
    requires inside { at < length u.now.code }
    ensures { MatchOption result (IsAllowed m.now u.now slot at kinds kind)
        (λ r. IsTrue (kinds_have kinds kind) × (row m.now u.now slot (visit at kind) ≡ Refused r)) }
{
    if !kinds.contains(kind) {
        return None;
    }
    kinds_after(m, u, blocks, &u.code[at as usize], slot, kind).err()
}

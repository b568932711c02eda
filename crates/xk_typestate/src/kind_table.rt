//! The kinds of slots at each instruction.

ghost use Rattle.std.specs.Prelude.{◌≡◌, ◌<◌, ◌≤◌, [], length, IfOk, slice_index_or};
ghost use Rattle.xk_types.specs.Code.{IsUnitWithinLimits};
ghost use Rattle.xk_typestate.specs.KindSet.{no_kinds};
ghost use Rattle.xk_typestate.specs.Search.{IsClosed};
ghost use Rattle.xk_typestate.specs.KindTable.{AreSlotKinds, IsKindTable, kinds_in};

use crate::fixed_point::search_slot;
use crate::kind_set::KindSet;
use std::alloc::{AllocError, Global};
use std::marker::Model;
use xk_shape::Blocks;
use xk_types::{Module, Unit};

/// The kinds that walks of one slot have at each instruction.
#[derive(Drop)]
pub(crate) struct SlotKinds {
    kinds: Vec<KindSet>,
}

impl Model for SlotKinds {
    ghost use Rattle.std.specs.Prelude.{List};
    ghost use Rattle.xk_typestate.specs.KindSet.{KindsValue};

    ghost Value = { List KindsValue };

    ghost view = { λ t. t.kinds.items };
}

/// The kinds that walks of all slots of a unit have at each instruction.
#[derive(Drop)]
pub(crate) struct KindTable {
    slots: Vec<SlotKinds>,
}

impl Model for KindTable {
    ghost use Rattle.std.specs.Prelude.{List};
    ghost use Rattle.xk_typestate.specs.KindSet.{KindsValue};

    ghost Value = { List (List KindsValue) };

    ghost view = { λ t. t.slots.items };
}

impl SlotKinds {
    /// The kinds of this slot.
    fn follow(
        alloc: Global,
        m: &Module,
        u: &Unit,
        blocks: &Blocks,
        slot: u16,
    ) -> Result<SlotKinds, AllocError>
        requires blocks { blocks.now ≡ u.now }
        requires closed { IsClosed u.now }
        requires limits { length u.now.code ≤ 4096 }
        ensures { IfOk result (AreSlotKinds m.now u.now slot) }
    {
        let search = search_slot(alloc, m, u, blocks, slot)?;
        Ok(SlotKinds { kinds: search.seen })
    }

    /// The kinds before this instruction.
    fn at(&self, at: u16) -> KindSet
        requires { at < length self.now }
        ensures { result ≡ slice_index_or self.now at no_kinds }
    {
        self.kinds[at as usize]
    }

    /// The same; none where there is no such instruction.
    fn at_or_none(&self, at: usize) -> KindSet
        ensures { result ≡ slice_index_or self.now at no_kinds }
    {
        match self.kinds.get(at) {
            Some(kinds) => *kinds,
            None => KindSet::empty(),
        }
    }
}

impl KindTable {
    /// The kinds of this unit's slots.
    pub(crate) fn follow(
        alloc: Global,
        m: &Module,
        u: &Unit,
        blocks: &Blocks,
    ) -> Result<KindTable, AllocError>
        requires blocks { blocks.now ≡ u.now }
        requires closed { IsClosed u.now }
        requires limits { IsUnitWithinLimits u.now }
        ensures { IfOk result (IsKindTable m.now u.now) }
    {
        let mut slots = Vec::with_capacity(alloc, u.slots as usize)?;
        for slot in 0..u.slots {
            slots.push(SlotKinds::follow(alloc, m, u, blocks, slot)?)?;
        }
        Ok(KindTable { slots })
    }

    /// The kinds of this slot before this instruction.
    pub(crate) fn kinds(&self, at: u16, slot: u16) -> KindSet
        requires slot { slot < length self.now }
        requires place { at < length (slice_index_or self.now slot []) }
        ensures { result ≡ kinds_in self.now slot at }
    {
        self.slots[slot as usize].at(at)
    }

    /// The same; none where there is no such slot or instruction.
    pub(crate) fn kinds_or_none(&self, at: usize, slot: usize) -> KindSet
        ensures { result ≡ kinds_in self.now slot at }
    {
        match self.slots.get(slot) {
            Some(kinds) => kinds.at_or_none(at),
            None => KindSet::empty(),
        }
    }
}

//! Slots by their names, and the kinds of clocks.

ghost use Rattle.std.specs.Prelude.{◌≡◌, ◌++◌, IfOk, OnOk, decimal, flat_map, map, take};
ghost use Rattle.xk_listing.specs.Fields.{clock_at, clock_if_any, clock_item, clocks_field, cut_name, if_in, is_name, kinds_text};
ghost use Rattle.xk_listing.specs.Fields.{may_be_clock, name_item, next_kind, slot_item, slot_name, slot_title, slots_field};

use crate::fields::{TOLD, push_text};
use std::alloc::{AllocError, Global};
use xk_types::Kind;
use xk_typestate::{KindSet, KindTables};

/// The five kinds, in the order in which they are told.
const KINDS: [Kind; 5] = [
    Kind::Unset,
    Kind::Number,
    Kind::Live,
    Kind::Resumed,
    Kind::Out,
];

/// Whether a name stands in the text.
fn is_name(name: &[u8]) -> bool
    ensures { result ≡ is_name name.now }
{
    name.iter().any(|b| *b != b' ')
}

/// The name of a slot; temporaries have none.
fn slot_name<'t>(names: &[&'t [u8]], slot: usize) -> &'t [u8]
    ensures { result.now ≡ slot_name (map (λ x. x.now) names.now) slot }
{
    match names.get(slot) {
        Some(name) => name,
        None => b"",
    }
}

/// Adds a number.
fn push_number(alloc: Global, out: &mut Vec<u8>, x: usize) -> Result<(), AllocError>
    ensures { OnOk result (out.new.items ≡ out.old.items ++ decimal x) }
{
    push_text(out, format!(in alloc; "{x}")?.as_str())
}

/// The first letters of a name.
fn first_letters(name: &[u8]) -> &[u8]
    ensures { result.now ≡ take 60 name.now }
{
    &name[..name.len().min(TOLD)]
}

/// Adds a name where it isn't declared: its first letters, and what stands for the others.
fn push_cut_name(out: &mut Vec<u8>, name: &[u8]) -> Result<(), AllocError>
    ensures { OnOk result (out.new.items ≡ out.old.items ++ cut_name name.now) }
{
    out.extend_from_slice(first_letters(name))?;
    if name.len() > TOLD {
        return push_text(out, "..");
    }
    Ok(())
}

/// Adds a slot by its name, or by its number where the text has no name for it.
fn push_slot_title(
    alloc: Global,
    out: &mut Vec<u8>,
    names: &[&[u8]],
    slot: usize,
) -> Result<(), AllocError>
    ensures { OnOk result (out.new.items
        ≡ out.old.items ++ slot_title (map (λ x. x.now) names.now) slot) }
{
    let name = slot_name(names, slot);
    if is_name(name) {
        return push_cut_name(out, name);
    }
    push_number(alloc, out, slot)
}

/// Adds a name behind a number, if it stands in the text: cut, if it is taken from outside.
fn push_name(out: &mut Vec<u8>, name: &[u8], taken: bool) -> Result<(), AllocError>
    ensures { OnOk result (out.new.items ≡ out.old.items ++ name_item name.now taken) }
{
    if !is_name(name) {
        return Ok(());
    }
    push_text(out, ":")?;
    if taken {
        return push_cut_name(out, name);
    }
    out.extend_from_slice(name)
}

/// Adds ` 0:c`, where so many first slots are taken from outside.
fn push_slot_item(
    alloc: Global,
    out: &mut Vec<u8>,
    names: &[&[u8]],
    taken: usize,
    slot: usize,
) -> Result<(), AllocError>
    ensures { OnOk result (out.new.items
        ≡ out.old.items ++ slot_item (map (λ x. x.now) names.now) taken slot) }
{
    push_text(out, " ")?;
    push_number(alloc, out, slot)?;
    push_name(out, slot_name(names, slot), slot < taken)
}

/// Adds `slots 0:c 1:me 2:p 3`, where so many first slots are taken from outside.
pub(crate) fn push_slots(
    alloc: Global,
    out: &mut Vec<u8>,
    names: &[&[u8]],
    taken: usize,
    count: u16,
) -> Result<(), AllocError>
    ensures { OnOk result (out.new.items
        ≡ out.old.items ++ slots_field (map (λ x. x.now) names.now) taken count) }
{
    push_text(out, "slots")?;
    for slot in 0..count as usize {
        push_slot_item(alloc, out, names, taken, slot)?;
    }
    Ok(())
}

/// Adds a kind, if it is one of the set.
fn push_if_in(kinds: &mut Vec<Kind>, set: KindSet, kind: Kind) -> Result<(), AllocError>
    ensures { OnOk result (kinds.new.items ≡ kinds.old.items ++ if_in set kind) }
{
    if set.contains(kind) {
        kinds.push(kind)?;
    }
    Ok(())
}

/// Those of these kinds that are in a set.
fn kinds_among(alloc: Global, set: KindSet, among: &[Kind]) -> Result<Vec<Kind>, AllocError>
    ensures { IfOk result (λ v. v.items ≡ flat_map (if_in set) among.now) }
{
    let mut kinds = Vec::new(alloc);
    for kind in among {
        push_if_in(&mut kinds, set, *kind)?;
    }
    Ok(kinds)
}

/// Whether a slot with these kinds may hold a clock.
fn may_be_clock(set: KindSet) -> bool
    ensures { result ≡ may_be_clock set }
{
    set.contains(Kind::Live) || set.contains(Kind::Resumed) || set.contains(Kind::Out)
}

/// Adds a kind behind another one.
fn push_next_kind(out: &mut Vec<u8>, kind: Kind) -> Result<(), AllocError>
    ensures { OnOk result (out.new.items ≡ out.old.items ++ next_kind kind) }
{
    push_text(out, "|")?;
    push_text(out, kind.name())
}

/// Adds kinds behind another one.
fn push_next_kinds(out: &mut Vec<u8>, kinds: &[Kind]) -> Result<(), AllocError>
    ensures { OnOk result (out.new.items ≡ out.old.items ++ flat_map next_kind kinds.now) }
{
    for kind in kinds {
        push_next_kind(out, *kind)?;
    }
    Ok(())
}

/// Adds `live|resumed`.
fn push_kinds(out: &mut Vec<u8>, kinds: &[Kind]) -> Result<(), AllocError>
    ensures { OnOk result (out.new.items ≡ out.old.items ++ kinds_text kinds.now) }
{
    let [first, rest @ ..] = kinds else {
        return Ok(());
    };
    push_text(out, first.name())?;
    push_next_kinds(out, rest)
}

/// Adds ` c:live|resumed`.
fn push_clock(
    alloc: Global,
    out: &mut Vec<u8>,
    names: &[&[u8]],
    slot: usize,
    set: KindSet,
) -> Result<(), AllocError>
    ensures { OnOk result (out.new.items
        ≡ out.old.items ++ clock_item (map (λ x. x.now) names.now) slot set) }
{
    let kinds = kinds_among(alloc, set, &KINDS)?;
    push_text(out, " ")?;
    push_slot_title(alloc, out, names, slot)?;
    push_text(out, ":")?;
    push_kinds(out, &kinds)
}

/// Adds the kinds of a slot if it may hold a clock.
fn push_clock_if_any(
    alloc: Global,
    out: &mut Vec<u8>,
    names: &[&[u8]],
    slot: usize,
    set: KindSet,
) -> Result<(), AllocError>
    ensures { OnOk result (out.new.items
        ≡ out.old.items ++ clock_if_any (map (λ x. x.now) names.now) slot set) }
{
    if may_be_clock(set) {
        return push_clock(alloc, out, names, slot, set);
    }
    Ok(())
}

/// The slots of a unit: what they are called, and what they may hold.
#[derive(Clone, Copy)]
pub(crate) struct UnitSlots<'a, 't> {
    pub names: &'a [&'t [u8]],
    pub tables: &'a KindTables,
    pub unit: usize,
    pub count: u16,
}

/// Adds what is told of a slot before an instruction.
#[tactic(auto, unfolding(crate::specs::Fields::clock_at))]
fn push_clock_at(
    alloc: Global,
    out: &mut Vec<u8>,
    slots: &UnitSlots<'_, '_>,
    at: usize,
    slot: usize,
) -> Result<(), AllocError>
    ensures { OnOk result (out.new.items ≡ out.old.items ++ clock_at
        (map (λ x. x.now) slots.now.names.now) slots.now.tables.now slots.now.unit at slot) }
{
    let kinds = slots.tables.kinds(slots.unit, at, slot);
    push_clock_if_any(alloc, out, slots.names, slot, kinds)
}

/// The slots of a unit that may hold clocks before an instruction.
pub(crate) fn clocks(
    alloc: Global,
    slots: &UnitSlots<'_, '_>,
    at: usize,
) -> Result<Vec<u8>, AllocError>
    ensures { IfOk result (λ v. v.items ≡ clocks_field (map (λ x. x.now) slots.now.names.now)
        slots.now.tables.now slots.now.unit at slots.now.count) }
{
    let mut out = Vec::new(alloc);
    for slot in 0..slots.count as usize {
        push_clock_at(alloc, &mut out, slots, at, slot)?;
    }
    Ok(out)
}

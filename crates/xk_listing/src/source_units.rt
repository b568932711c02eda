//! Units of a source text.

ghost use Rattle.std.specs.Prelude.{◌≡◌, ◌++◌, OnOk};
ghost use Rattle.xk_listing.specs.Listing.{each_line, head_place, kinds_field, line_front, place_front, source_head, source_line, source_unit, taken, unit_front, unit_name, unit_slots};

use crate::fields::{place_title, push_at_left, push_at_right, push_origin, push_text};
use crate::slots::{UnitSlots, clocks, push_slots};
use crate::source_text::SourceText;
use crate::words::words;
use std::alloc::{AllocError, Global};
use xk_types::{Instr, Unit};
use xk_typestate::KindTables;
use xk_unit_origins::{Head, UnitOrigins};

/// Adds `unit 1  `.
#[tactic(auto, unfolding(crate::specs::Listing::unit_front))]
pub(crate) fn push_unit_front(
    alloc: Global,
    out: &mut Vec<u8>,
    unit: usize,
) -> Result<(), AllocError>
    ensures { OnOk result (out.new.items ≡ out.old.items ++ unit_front unit) }
{
    push_text(out, format!(in alloc; "unit {unit}  ")?.as_str())
}

/// Adds `   4  `.
pub(crate) fn push_place_front(
    alloc: Global,
    out: &mut Vec<u8>,
    at: usize,
) -> Result<(), AllocError>
    ensures { OnOk result (out.new.items ≡ out.old.items ++ place_front at) }
{
    push_at_right(out, 4, format!(in alloc; "{at}")?.as_bytes())?;
    push_text(out, "  ")
}

/// Adds `   4  ` and an instruction in words.
#[tactic(auto, unfolding(crate::specs::Listing::line_front))]
fn push_line_front(
    alloc: Global,
    out: &mut Vec<u8>,
    at: usize,
    instr: &Instr,
) -> Result<(), AllocError>
    ensures { OnOk result (out.new.items ≡ out.old.items ++ line_front at instr.now) }
{
    let words = words(alloc, instr)?;
    push_place_front(alloc, out, at)?;
    push_at_left(out, 17, &words)
}

/// Adds `def f`, or `async`.
#[tactic(auto, unfolding(crate::specs::Listing::unit_name))]
fn push_unit_name(out: &mut Vec<u8>, head: &Head<'_>) -> Result<(), AllocError>
    ensures { OnOk result (out.new.items ≡ out.old.items ++ unit_name head.now) }
{
    match head.name {
        Some(name) => {
            push_text(out, "def ")?;
            out.extend_from_slice(name)
        }
        None => push_text(out, "async"),
    }
}

/// How many of a unit's first slots it takes from outside, out of so many that are parameters.
fn taken(head: &Head<'_>, params: usize) -> usize
    ensures { result ≡ taken head.now params }
{
    match head.name {
        Some(_) => 0,
        None => params,
    }
}

/// A unit with its number and its origins in a text, and the kinds of the slots of all units, where they are known.
#[derive(Clone, Copy)]
pub(crate) struct SourceUnit<'a, 't> {
    pub source: &'a SourceText<'t>,
    pub origins: &'a UnitOrigins<'t>,
    pub kinds: &'a Option<KindTables>,
    pub number: usize,
    pub unit: &'a Unit,
}

/// Adds `  3:5  `.
#[tactic(auto, unfolding(crate::specs::Listing::head_place))]
fn push_head_place(
    alloc: Global,
    out: &mut Vec<u8>,
    source: &SourceText<'_>,
    at: usize,
) -> Result<(), AllocError>
    ensures { OnOk result (out.new.items ≡ out.old.items ++ head_place source.now at) }
{
    let offset = at.min(source.text.len());
    let place = place_title(alloc, source.lines.position(offset))?;
    push_text(out, format!(in alloc; "  {place}  ")?.as_str())
}

/// Adds the slots of a unit: `slots 0:c 1:me 2:p`.
#[tactic(auto, unfolding(crate::specs::Listing::unit_slots))]
fn push_unit_slots(
    alloc: Global,
    out: &mut Vec<u8>,
    origins: &UnitOrigins<'_>,
    u: &Unit,
) -> Result<(), AllocError>
    ensures { OnOk result (out.new.items ≡ out.old.items ++ unit_slots origins.now u.now) }
{
    let taken = taken(&origins.head, u.params.len());
    push_slots(alloc, out, &origins.slots, taken, u.slots)
}

/// Adds the head of a unit: `unit 1  async  3:5  slots 0:c 1:me 2:p`.
#[tactic(auto, unfolding(crate::specs::Listing::source_head))]
fn push_source_head(
    alloc: Global,
    out: &mut Vec<u8>,
    u: &SourceUnit<'_, '_>,
) -> Result<(), AllocError>
    ensures { OnOk result (out.new.items ≡ out.old.items
        ++ source_head u.now.source.now u.now.origins.now u.now.number u.now.unit.now) }
{
    let origins = u.origins;
    push_unit_front(alloc, out, u.number)?;
    push_unit_name(out, &origins.head)?;
    push_head_place(alloc, out, u.source, origins.head.at)?;
    push_unit_slots(alloc, out, origins, u.unit)?;
    push_text(out, "\n")
}

/// Adds the field of the clocks, where their kinds are known.
#[tactic(auto, unfolding(crate::specs::Listing::kinds_field))]
fn push_kinds(
    alloc: Global,
    out: &mut Vec<u8>,
    u: &SourceUnit<'_, '_>,
    at: usize,
) -> Result<(), AllocError>
    ensures { OnOk result (out.new.items ≡ out.old.items ++ kinds_field
        u.now.origins.now.slots u.now.kinds.now u.now.number at u.now.unit.now.slots) }
{
    let origins = u.origins;
    let unit = u.unit;
    match u.kinds {
        Some(tables) => {
            let slots = UnitSlots {
                names: &origins.slots,
                tables,
                unit: u.number,
                count: unit.slots,
            };
            let field = clocks(alloc, &slots, at)?;
            push_text(out, " ")?;
            push_at_left(out, 25, &field)
        }
        None => Ok(()),
    }
}

/// Adds the line of an instruction.
#[tactic(auto, unfolding(crate::specs::Listing::source_line))]
fn push_source_line(
    alloc: Global,
    out: &mut Vec<u8>,
    u: &SourceUnit<'_, '_>,
    at: usize,
    instr: &Instr,
) -> Result<(), AllocError>
    ensures { OnOk result (out.new.items ≡ out.old.items ++ source_line u.now.source.now
        u.now.kinds.now u.now.number u.now.unit.now u.now.origins.now at instr.now) }
{
    let origins = u.origins;
    push_line_front(alloc, out, at, instr)?;
    push_kinds(alloc, out, u, at)?;
    push_origin(alloc, out, u.source, &origins.offsets, at)
}

/// Adds the lines of these instructions of a unit.
fn push_source_lines(
    alloc: Global,
    out: &mut Vec<u8>,
    u: &SourceUnit<'_, '_>,
    code: &[Instr],
) -> Result<(), AllocError>
    ensures { OnOk result (out.new.items ≡ out.old.items ++ each_line
        (source_line u.now.source.now u.now.kinds.now u.now.number u.now.unit.now
        u.now.origins.now) code.now) }
{
    for (at, instr) in code.iter().enumerate() {
        push_source_line(alloc, out, u, at, instr)?;
    }
    Ok(())
}

/// Adds a unit.
#[tactic(auto, unfolding(crate::specs::Listing::source_unit))]
pub(crate) fn push_source_unit(
    alloc: Global,
    out: &mut Vec<u8>,
    u: &SourceUnit<'_, '_>,
) -> Result<(), AllocError>
    ensures { OnOk result (out.new.items ≡ out.old.items ++ source_unit u.now.source.now
        u.now.kinds.now u.now.number u.now.unit.now u.now.origins.now) }
{
    let unit = u.unit;
    push_source_head(alloc, out, u)?;
    push_source_lines(alloc, out, u, &unit.code)
}

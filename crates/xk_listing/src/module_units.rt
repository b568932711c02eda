//! Units of a module alone.

ghost use Rattle.std.specs.Prelude.{◌≡◌, ◌++◌, OnOk, IfOk, map};
ghost use Rattle.xk_listing.specs.Listing.{each_line, kind_word, module_clocks, module_head, module_line, module_unit, param_letter, params_field, slot_count, with_clocks};

use crate::fields::{push_at_left, push_text};
use crate::slots::{UnitSlots, clocks};
use crate::source_units::{push_place_front, push_unit_front};
use crate::words::words;
use std::alloc::{AllocError, Global};
use xk_types::{Instr, ParamKind, Unit, UnitKind};
use xk_typestate::KindTables;

/// What sort of unit it is: `main`, `method` or `body`.
fn kind_word(kind: UnitKind) -> &'static str
    ensures { result.now ≡ kind_word kind }
{
    match kind {
        UnitKind::Main => "main",
        UnitKind::Method => "method",
        UnitKind::Body => "body",
    }
}

/// `n` for a number, `c` for a clock.
fn param_letter(param: ParamKind) -> u8
    ensures { result ≡ param_letter param }
{
    match param {
        ParamKind::Number => b'n',
        ParamKind::Clock => b'c',
    }
}

/// Adds a letter for each parameter.
fn push_letters(out: &mut Vec<u8>, params: &[ParamKind]) -> Result<(), AllocError>
    ensures { OnOk result (out.new.items ≡ out.old.items ++ map param_letter params.now) }
{
    for param in params {
        out.push(param_letter(*param))?;
    }
    Ok(())
}

/// Adds `  params cn`, if there are parameters.
fn push_params(out: &mut Vec<u8>, params: &[ParamKind]) -> Result<(), AllocError>
    ensures { OnOk result (out.new.items ≡ out.old.items ++ params_field params.now) }
{
    if params.is_empty() {
        return Ok(());
    }
    push_text(out, "  params ")?;
    push_letters(out, params)
}

/// Adds `  slots 3`, and the end of the line.
#[tactic(auto, unfolding(crate::specs::Listing::slot_count))]
fn push_slot_count(alloc: Global, out: &mut Vec<u8>, count: u16) -> Result<(), AllocError>
    ensures { OnOk result (out.new.items ≡ out.old.items ++ slot_count count) }
{
    push_text(out, format!(in alloc; "  slots {count}\n")?.as_str())
}

/// Adds the head of a unit: `unit 1  body  params cn  slots 3`.
#[tactic(auto, unfolding(crate::specs::Listing::module_head))]
fn push_module_head(
    alloc: Global,
    out: &mut Vec<u8>,
    number: usize,
    unit: &Unit,
) -> Result<(), AllocError>
    ensures { OnOk result (out.new.items ≡ out.old.items ++ module_head number unit.now) }
{
    push_unit_front(alloc, out, number)?;
    push_text(out, kind_word(unit.kind))?;
    push_params(out, &unit.params)?;
    push_slot_count(alloc, out, unit.slots)
}

/// Adds words, and clocks behind them if there are any.
fn push_with_clocks(out: &mut Vec<u8>, words: &[u8], clocks: &[u8]) -> Result<(), AllocError>
    ensures { OnOk result (out.new.items ≡ out.old.items ++ with_clocks words.now clocks.now) }
{
    if clocks.is_empty() {
        return out.extend_from_slice(words);
    }
    push_at_left(out, 17, words)?;
    push_text(out, " ")?;
    out.extend_from_slice(clocks)
}

/// A unit with its number, and the kinds of the slots of all units, where they are known.
#[derive(Clone, Copy)]
pub(crate) struct ModuleUnit<'a> {
    pub kinds: &'a Option<KindTables>,
    pub number: usize,
    pub unit: &'a Unit,
}

/// The clocks before an instruction, where their kinds are known.
#[tactic(auto, unfolding(crate::specs::Listing::module_clocks))]
fn module_clocks(alloc: Global, u: &ModuleUnit<'_>, at: usize) -> Result<Vec<u8>, AllocError>
    ensures { IfOk result (λ v. v.items
        ≡ module_clocks u.now.kinds.now u.now.number at u.now.unit.now.slots) }
{
    let unit = u.unit;
    match u.kinds {
        Some(tables) => {
            let slots = UnitSlots {
                names: &[],
                tables,
                unit: u.number,
                count: unit.slots,
            };
            clocks(alloc, &slots, at)
        }
        None => Ok(Vec::new(alloc)),
    }
}

/// Adds the line of an instruction.
#[tactic(auto, unfolding(crate::specs::Listing::module_line))]
fn push_module_line(
    alloc: Global,
    out: &mut Vec<u8>,
    u: &ModuleUnit<'_>,
    at: usize,
    instr: &Instr,
) -> Result<(), AllocError>
    ensures { OnOk result (out.new.items ≡ out.old.items ++ module_line u.now.kinds.now
        u.now.number u.now.unit.now.slots at instr.now) }
{
    let words = words(alloc, instr)?;
    let clocks = module_clocks(alloc, u, at)?;
    push_place_front(alloc, out, at)?;
    push_with_clocks(out, &words, &clocks)?;
    push_text(out, "\n")
}

/// Adds the lines of these instructions of a unit.
fn push_module_lines(
    alloc: Global,
    out: &mut Vec<u8>,
    u: &ModuleUnit<'_>,
    code: &[Instr],
) -> Result<(), AllocError>
    ensures { OnOk result (out.new.items ≡ out.old.items ++ each_line
        (module_line u.now.kinds.now u.now.number u.now.unit.now.slots) code.now) }
{
    for (at, instr) in code.iter().enumerate() {
        push_module_line(alloc, out, u, at, instr)?;
    }
    Ok(())
}

/// Adds a unit.
#[tactic(auto, unfolding(crate::specs::Listing::module_unit))]
pub(crate) fn push_module_unit(
    alloc: Global,
    out: &mut Vec<u8>,
    u: &ModuleUnit<'_>,
) -> Result<(), AllocError>
    ensures { OnOk result (out.new.items
        ≡ out.old.items ++ module_unit u.now.kinds.now u.now.number u.now.unit.now) }
{
    let unit = u.unit;
    push_module_head(alloc, out, u.number, unit)?;
    push_module_lines(alloc, out, u, &unit.code)
}

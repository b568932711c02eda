//! The rules on the homes of slots, which are tried where loops and finishes nest.

ghost use Rattle.std.specs.Prelude.{◌≡◌, ℕ, ◌<◌, ◌≤◌, ◌||◌, false, length, slice_get, Some};
ghost use Rattle.std.specs.List.{list_any};
ghost use Rattle.xk_types.specs.Shape.{mishandles, moves_home, breaks_home, gives_away, breaks_registers};
ghost use Rattle.xk_types.specs.declared.instr.Instr.TheVariants.{Make};
ghost use Rattle.xk_shape.specs.Arguments.{clocks};
ghost use Rattle.xk_shape.specs.Blocks.{IsOrderly, HasBlocks};
ghost use Rattle.xk_shape.specs.Tables.{AreTables, is_at_home_elsewhere};

use crate::arguments::Arguments;
use crate::rules::params_of;
use crate::tables::{Tables, takes_clock};
use xk_types::{Instr, Module, Unit, UnitKind};

/// Whether the instruction at this place breaks the rule on homes, where none before it does.
pub(crate) fn strays(u: &Unit, tables: &Tables, at: u16) -> bool
    requires orderly { IsOrderly u.now }
    requires tables { AreTables u.now tables.now }
    requires before { (k : ℕ) → k < at → breaks_home u.now k ≡ false }
    ensures { result ≡ breaks_home u.now at }
{
    match u.code.get(at as usize) {
        Some(instr) => is_stray(u, tables, at, instr),
        None => false,
    }
}

/// The same of the instruction that stands at this place.
fn is_stray(u: &Unit, tables: &Tables, at: u16, instr: &Instr) -> bool
    requires orderly { IsOrderly u.now }
    requires tables { AreTables u.now tables.now }
    requires before { (k : ℕ) → k < at → breaks_home u.now k ≡ false }
    requires here { slice_get u.now.code at ≡ Some instr.now }
    ensures { result ≡ (mishandles u.now instr.now || moves_home u.now at instr.now) }
{
    match instr {
        Instr::Make(d) => (*d as usize) < u.params.len() || is_made_elsewhere(u, tables, at, *d),
        Instr::Drop(c) => u.kind == UnitKind::Method && takes_clock(u, *c),
        _ => false,
    }
}

/// Whether an instruction before this one, which makes the clock of a slot that is no parameter, makes it in another block.
fn is_made_elsewhere(u: &Unit, tables: &Tables, at: u16, slot: u16) -> bool
    requires orderly { IsOrderly u.now }
    requires tables { AreTables u.now tables.now }
    requires before { (k : ℕ) → k < at → breaks_home u.now k ≡ false }
    requires own { length u.now.params ≤ slot }
    requires here { slice_get u.now.code at ≡ Some (Make slot) }
    ensures { result ≡ moves_home u.now at (Make slot) }
{
    tables.is_away(slot, at as usize)
}

/// Whether the instruction at this place hands a clock on outside its home.
pub(crate) fn gives_away(m: &Module, u: &Unit, tables: &Tables, at: u16) -> bool
    requires blocks { HasBlocks u.now }
    requires tables { AreTables u.now tables.now }
    ensures { result ≡ breaks_registers m.now u.now at }
{
    match u.code.get(at as usize) {
        Some(Instr::Call { unit: run, args } | Instr::Spawn { unit: run, args }) => {
            let arguments = Arguments::new(params_of(m, *run), args.slots());
            has_clock_away(u, tables, arguments, at)
        }
        _ => false,
    }
}

/// Whether a slot among the arguments for clocks is at home in another block than the place.
fn has_clock_away(u: &Unit, tables: &Tables, mut arguments: Arguments, at: u16) -> bool
    requires blocks { HasBlocks u.now }
    requires tables { AreTables u.now tables.now }
    ensures { result ≡ list_any (is_at_home_elsewhere u.now at) (clocks arguments.entry) }
{
    while let Some(slot) = arguments.take_clock() {
        if tables.is_elsewhere(slot, at as usize) {
            return true;
        }
    }
    false
}

//! Whether a slot is live before an instruction, by where it is live elsewhere.

ghost use Rattle.std.specs.Prelude.{◌≡◌, ◌==◌, ◌<◌, ◌+◌, ◌^◌, ℕ, List, option_and_then};
ghost use Rattle.std.specs.List.{list_any};
ghost use Rattle.xk_types.specs.declared.world.Value.{Value};
ghost use Rattle.xk_types.specs.Code.{loop_head};
ghost use Rattle.xk_types.specs.World.{instruction_at};
ghost use Rattle.xk_liveness.specs.Liveness.{before, turn_reads};
ghost use Rattle.xk_live_slots.specs.LiveSlots.{live_in};

use crate::rows::{Row, is_live};
use xk_types::{Args, Instr, Module};

/// Whether the slot is one of these arguments.
fn is_given(args: &Args, slot: u16) -> bool
    ensures { result ≡ list_any (λ x. slot == x) args.now }
{
    args.slots().iter().any(|arg| slot == *arg)
}

/// Whether the end of a turn reads the slot, of the loop that begins with this instruction.
fn head_reads(head: &Instr, slot: u16) -> bool
    ensures { (b : ℕ) → result ≡ turn_reads (loop_head b head.now) slot }
{
    match head {
        Instr::For { k, .. } => slot == *k,
        Instr::ForTo { k, x, .. } => slot == *k || slot == *x,
        _ => false,
    }
}

/// The same of the loop whose head stands at this place of a unit.
fn turn_reads(program: &Module, unit: usize, head: usize, slot: u16) -> bool
    ensures { (slots : List Value) → result ≡ turn_reads (option_and_then (loop_head head)
        (instruction_at program.now (record { unit = unit; place = head; slots = slots }))) slot }
{
    match program.units().get(unit) {
        Some(of_unit) => match of_unit.code.get(head) {
            Some(instr) => head_reads(instr, slot),
            None => false,
        },
        None => false,
    }
}

/// Whether the slot is live before the instruction at a place of a unit: it reads the slot, or doesn't write it where it
/// leads and leaves it live there.
pub(crate) fn is_live_before(
    program: &Module,
    rows: &[Row],
    unit: usize,
    place: usize,
    instr: &Instr,
    slot: u16,
) -> bool
    requires { place + 1 < 2 ^ 64 }
    ensures { (slots : List Value) → result ≡ before program.now (live_in rows.now)
        (record { unit = unit; place = place; slots = slots }) instr.now slot }
{
    let behind = is_live(rows, unit, place + 1, slot);
    match instr {
        Instr::Lit { d, .. } | Instr::Get { d, .. } => slot != *d && behind,
        Instr::Copy { d, a } => slot == *a || slot != *d && behind,
        Instr::Add { d, a, b } | Instr::Sub { d, a, b } | Instr::Mul { d, a, b } => {
            slot == *a || slot == *b || slot != *d && behind
        }
        Instr::Unless { a, b, t, .. } => {
            slot == *a || slot == *b || behind || is_live(rows, unit, *t as usize, slot)
        }
        Instr::Jump(t) => is_live(rows, unit, *t as usize, slot),
        Instr::For { k, .. } => slot != *k && behind,
        Instr::ForTo { k, x, e, .. } => {
            slot == *x || slot != *k && behind || is_live(rows, unit, *e as usize + 1, slot)
        }
        Instr::Next(b) => {
            turn_reads(program, unit, *b as usize, slot)
                || behind
                || is_live(rows, unit, *b as usize + 1, slot)
        }
        Instr::Put { a, .. } | Instr::AddTo { a, .. } | Instr::Print(a) => slot == *a || behind,
        Instr::Make(k) => slot != *k && behind,
        Instr::Resume(k) | Instr::Drop(k) => slot == *k || behind,
        Instr::Call { args, .. } | Instr::Spawn { args, .. } => is_given(args, slot) || behind,
        Instr::Finish(_) | Instr::EndFinish(_) | Instr::Advance => behind,
        Instr::Ret => false,
    }
}

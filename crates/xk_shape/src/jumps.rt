//! The rules on targets, loops and finishes.

ghost use Rattle.std.specs.Prelude.{◌≡◌, ℕ, ◌<◌, ◌&&◌, true, false, slice_get, Some, MatchOption};
ghost use Rattle.std.specs.List.{list_any};
ghost use Rattle.xk_types.specs.Code.{loops, is_within};
ghost use Rattle.xk_types.specs.Shape.{spans, lies_ahead, aims_well, breaks_target, overlaps, is_crossing, breaks_block, slot_written, begins_backward, spoils, breaks_loop};
ghost use Rattle.xk_shape.specs.Blocks.{IsOrderly};
ghost use Rattle.xk_shape.specs.Layout.{IsLayout};
ghost use Rattle.xk_shape.specs.Nesting.{AreNested};
ghost use Rattle.xk_shape.specs.Tables.{AreTables};

use crate::layout::Layout;
use crate::nesting::{Span, crosses_any, overlaps_any, span_begun, span_ended};
use crate::tables::Tables;
use xk_types::{Instr, Unit};

/// Whether a place that the instruction names lies where it may not.
pub(crate) fn aims_amiss(u: &Unit, at: u16) -> bool
    ensures { result ≡ breaks_target u.now at }
{
    match u.code.get(at as usize) {
        Some(instr) => !aims_well(u, at, instr),
        None => false,
    }
}

/// Whether the places that the instruction names lie ahead of it and inside the code, or, for the end of a loop or a finish,
/// behind it.
fn aims_well(u: &Unit, at: u16, instr: &Instr) -> bool
    ensures { result ≡ aims_well u.now at instr.now }
{
    match instr {
        Instr::Unless { t: target, .. } => lies_ahead(u, at, *target),
        Instr::Jump(target) => lies_ahead(u, at, *target),
        Instr::For { e: last, .. } => lies_ahead(u, at, *last),
        Instr::ForTo { e: last, .. } => lies_ahead(u, at, *last),
        Instr::Next(first) => *first < at,
        Instr::Finish(last) => lies_ahead(u, at, *last),
        Instr::EndFinish(first) => *first < at,
        _ => true,
    }
}

/// Whether the place lies ahead of place `at`, and inside the code.
fn lies_ahead(u: &Unit, at: u16, target: u16) -> bool
    ensures { result ≡ lies_ahead u.now at target }
{
    at < target && (target as usize) < u.code.len()
}

/// Whether the instruction has no partner, is one of a loop or finish that overlaps another, or jumps over the edge of one.
pub(crate) fn crosses_edge(u: &Unit, layout: &Layout, at: u16) -> bool
    requires layout { IsLayout u.now layout.now }
    requires targets { (k : ℕ) → breaks_target u.now k ≡ false }
    ensures { result ≡ breaks_block u.now at }
{
    match u.code.get(at as usize) {
        Some(instr) => match layout {
            Layout::Nested(tables) => jumps_across(u, tables, at, instr),
            Layout::Amiss(among) => is_crossing(u, among, at, instr),
        },
        None => false,
    }
}

/// The same of an instruction of a unit whose loops and finishes nest: only a jump can be amiss.
fn jumps_across(u: &Unit, tables: &Tables, at: u16, instr: &Instr) -> bool
    requires nested { AreNested u.now }
    requires tables { AreTables u.now tables.now }
    requires here { slice_get u.now.code at ≡ Some instr.now }
    requires aimed { aims_well u.now at instr.now ≡ true }
    ensures { result ≡ is_crossing u.now at instr.now }
{
    match instr {
        Instr::Unless { t: target, .. } => tables.is_parted(at, *target),
        Instr::Jump(target) => tables.is_parted(at, *target),
        _ => false,
    }
}

/// The same of an instruction of a unit that has these loops and finishes.
fn is_crossing(u: &Unit, among: &[Span], at: u16, instr: &Instr) -> bool
    requires { among.now ≡ spans u.now }
    ensures { result ≡ is_crossing u.now at instr.now }
{
    match instr {
        Instr::For { .. } | Instr::ForTo { .. } | Instr::Finish(_) => {
            is_amiss(among, span_begun(u, at as usize, instr))
        }
        Instr::Next(first) | Instr::EndFinish(first) => is_amiss(among, span_ended(u, at, *first)),
        Instr::Unless { t: target, .. } => crosses_any(among, at, *target),
        Instr::Jump(target) => crosses_any(among, at, *target),
        _ => false,
    }
}

/// Whether there is no such loop or finish, or it overlaps one of the others in part.
fn is_amiss(among: &[Span], found: Option<Span>) -> bool
    ensures { MatchOption found (result ≡ true) (λ s. result ≡ list_any (overlaps s) among.now) }
{
    match found {
        Some(s) => overlaps_any(&s, among),
        None => true,
    }
}

/// Whether the instruction begins a loop whose bounds are out of order, or writes the slot of a loop that it lies in.
pub(crate) fn misuses_loop(u: &Unit, tables: &Tables, at: u16) -> bool
    requires orderly { IsOrderly u.now }
    requires tables { AreTables u.now tables.now }
    ensures { result ≡ breaks_loop u.now at }
{
    match u.code.get(at as usize) {
        Some(instr) => begins_backward(instr) || writes_counter(u, tables, at, instr),
        None => false,
    }
}

/// Whether the bounds of the loop that it begins are out of order, or the loop is limited by its own slot.
fn begins_backward(instr: &Instr) -> bool
    ensures { result ≡ begins_backward instr.now }
{
    match instr {
        Instr::For { lo, hi, .. } => *hi < *lo,
        Instr::ForTo { k, lo, x, hi, .. } => *hi < *lo || *x == *k,
        _ => false,
    }
}

/// Whether the instruction writes the slot of a loop that it lies in.
fn writes_counter(u: &Unit, tables: &Tables, at: u16, instr: &Instr) -> bool
    requires orderly { IsOrderly u.now }
    requires tables { AreTables u.now tables.now }
    requires here { slice_get u.now.code at ≡ Some instr.now }
    ensures { result
        ≡ list_any (λ l. is_within at l && spoils l instr.now) (loops u.now) }
{
    match slot_written(instr) {
        Some(slot) => tables.is_counter(slot, at),
        None => false,
    }
}

/// The slot that the instruction writes.
fn slot_written(instr: &Instr) -> Option<u16>
    ensures { result ≡ slot_written instr.now }
{
    match instr {
        Instr::Lit { d, .. } => Some(*d),
        Instr::Copy { d, .. } => Some(*d),
        Instr::Add { d, .. } => Some(*d),
        Instr::Sub { d, .. } => Some(*d),
        Instr::Mul { d, .. } => Some(*d),
        Instr::For { k: slot, .. } => Some(*slot),
        Instr::ForTo { k: slot, .. } => Some(*slot),
        Instr::Get { d, .. } => Some(*d),
        Instr::Make(d) => Some(*d),
        _ => None,
    }
}

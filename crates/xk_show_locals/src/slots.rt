//! What slots hold, by their names.

ghost use Rattle.std.specs.Prelude.{◌≡◌, ◌<◌, ◌++◌, map, min, length, take, slice_get, Some, OnOk};
ghost use Rattle.xk_show_names.specs.ClockNames.{is_name};
ghost use Rattle.xk_show_names.specs.Letters.{cut_name};
ghost use Rattle.xk_show_locals.specs.Locals.{any_number, bound_words, clock_words, held_words, name_at, named_clock, number_words};
ghost use Rattle.xk_show_locals.specs.Locals.{unnamed_words};

use crate::bounds::{Bound, bound_in, lesser};
use std::alloc::{AllocError, Global};
use xk_types::{Instr, Value};

/// How many letters of a name are told.
const TOLD: usize = 30;

/// Adds a text.
pub(crate) fn push_text(out: &mut Vec<u8>, text: &str) -> Result<(), AllocError>
    ensures { OnOk result (out.new.items ≡ out.old.items ++ text.now) }
{
    out.extend_from_slice(text.as_bytes())
}

/// The first letters of a name.
fn first_letters(name: &[u8]) -> &[u8]
    ensures { result.now ≡ take 30 name.now }
{
    &name[..name.len().min(TOLD)]
}

/// Adds no more than 30 letters of a name, and `..` for the others. Err where memory was refused.
pub fn push_name(out: &mut Vec<u8>, name: &[u8]) -> Result<(), AllocError>
    ensures { OnOk result (out.new.items ≡ out.old.items ++ cut_name name.now) }
{
    out.extend_from_slice(first_letters(name))?;
    if name.len() > TOLD {
        return push_text(out, "..");
    }
    Ok(())
}

/// Whether it is a name of the text: those that no text has are of blanks.
pub fn is_name(name: &[u8]) -> bool
    ensures { result ≡ is_name name.now }
{
    name.iter().any(|b| *b != b' ')
}

/// What a slot is called by these names; temporaries are called nothing.
pub fn name_at<'t>(names: &[&'t [u8]], slot: u16) -> &'t [u8]
    ensures { result.now ≡ name_at (map (λ x. x.now) names.now) slot }
{
    match names.get(slot as usize) {
        Some(name) => *name,
        None => b"",
    }
}

/// Adds a number by its name.
#[tactic(auto, unfolding(crate::specs::Locals::number_words))]
fn push_number(alloc: Global, out: &mut Vec<u8>, name: &[u8], number: i64) -> Result<(), AllocError>
    ensures { OnOk result (out.new.items ≡ out.old.items ++ number_words name.now number) }
{
    push_text(out, ", ")?;
    push_name(out, name)?;
    push_text(out, format!(in alloc; " = {number}")?.as_str())
}

/// Adds a clock by its name.
#[tactic(auto, unfolding(crate::specs::Locals::clock_words))]
fn push_clock(alloc: Global, out: &mut Vec<u8>, name: &[u8], clock: u32) -> Result<(), AllocError>
    ensures { OnOk result (out.new.items ≡ out.old.items ++ clock_words name.now clock) }
{
    push_text(out, ", ")?;
    push_name(out, name)?;
    push_text(out, format!(in alloc; " is clock {clock}")?.as_str())
}

/// Adds how far the loop goes up that counts by this name.
#[tactic(auto, unfolding(crate::specs::Locals::bound_words))]
fn push_bound(alloc: Global, out: &mut Vec<u8>, name: &[u8], number: i64) -> Result<(), AllocError>
    ensures { OnOk result (out.new.items ≡ out.old.items ++ bound_words name.now number) }
{
    push_text(out, ", ")?;
    push_name(out, name)?;
    push_text(out, format!(in alloc; " up to {number}")?.as_str())
}

/// Adds a number whose name isn't in the text, if it bounds a loop.
fn push_unnamed(
    alloc: Global,
    out: &mut Vec<u8>,
    names: &[&[u8]],
    number: i64,
    bound: Option<Bound>,
) -> Result<(), AllocError>
    ensures { OnOk result (out.new.items ≡ out.old.items
        ++ unnamed_words (map (λ x. x.now) names.now) number bound) }
{
    match bound {
        None => Ok(()),
        Some(bound) => push_bound(
            alloc,
            out,
            name_at(names, bound.slot),
            lesser(number, bound.most),
        ),
    }
}

/// Adds a number, by its name or by the loop that it bounds.
fn push_any_number(
    alloc: Global,
    out: &mut Vec<u8>,
    names: &[&[u8]],
    code: &[Instr],
    slot: u16,
    number: i64,
) -> Result<(), AllocError>
    ensures { OnOk result (out.new.items ≡ out.old.items
        ++ any_number (map (λ x. x.now) names.now) code.now slot number) }
{
    let name = name_at(names, slot);
    if is_name(name) {
        return push_number(alloc, out, name, number);
    }
    push_unnamed(alloc, out, names, number, bound_in(slot, code))
}

/// Adds a clock, if it has a name.
fn push_any_clock(
    alloc: Global,
    out: &mut Vec<u8>,
    names: &[&[u8]],
    slot: u16,
    clock: u32,
) -> Result<(), AllocError>
    ensures { OnOk result (out.new.items ≡ out.old.items
        ++ named_clock (name_at (map (λ x. x.now) names.now) slot) clock) }
{
    let name = name_at(names, slot);
    if is_name(name) {
        return push_clock(alloc, out, name, clock);
    }
    Ok(())
}

/// Adds what a slot holds.
pub(crate) fn push_held(
    alloc: Global,
    out: &mut Vec<u8>,
    names: &[&[u8]],
    code: &[Instr],
    slot: u16,
    held: Value,
) -> Result<(), AllocError>
    ensures { OnOk result (out.new.items ≡ out.old.items
        ++ held_words (map (λ x. x.now) names.now) code.now slot (Some held)) }
{
    match held {
        Value::Unset => Ok(()),
        Value::Number(number) => push_any_number(alloc, out, names, code, slot, number),
        Value::Clock(clock) => push_any_clock(alloc, out, names, slot, clock.0),
    }
}

//! How the places of a unit lie to its loops and finishes.

ghost use Rattle.std.specs.Prelude.{◌≡◌, ℕ, ◌+◌, ◌<◌, ◌≤◌, ◌||◌, ◌==◌, length, IfOk, MatchOption};
ghost use Rattle.xk_shape.specs.Nesting.{AreNested, AreNestedBelow};
ghost use Rattle.xk_shape.specs.Places.{has_slot, LiesSo, AreFirstPlaces, ArePlaces};

use crate::nesting::{begins_span, ends_span};
use std::alloc::{AllocError, Global};
use xk_types::{Instr, Unit};

/// How a place lies to the loops and finishes of its unit.
#[derive(Clone, Copy, Debug)]
pub(crate) struct Place {
    /// Where the innermost loop or finish round it begins.
    pub(crate) within: Option<u16>,
    /// Where the innermost finish round it begins; none where its block is the whole unit.
    pub(crate) finish: Option<u16>,
    /// How many finishes are open.
    pub(crate) depth: u16,
    /// The slots by which the loops round it count their turns, one bit each.
    pub(crate) counters: u64,
}

/// The first place of a unit.
const OUTSIDE: Place = Place {
    within: None,
    finish: None,
    depth: 0,
    counters: 0,
};

/// How each place of a unit lies, or nothing where its loops and finishes don't nest. The error is that room was refused.
pub(crate) fn places(alloc: Global, u: &Unit) -> Result<Option<Vec<Place>>, AllocError>
    requires { length u.now.code ≤ 4096 }
    ensures { IfOk result (λ found. MatchOption found
        (¬ AreNested u.now)
        (λ ps. AreNested u.now × ArePlaces u.now ps.items)) }
{
    let mut found = Vec::new(alloc);
    let mut here = OUTSIDE;
    for at in 0..u.code.len() {
        found.push(here)?;
        match behind(u, &found, at as u16) {
            Some(next) => here = next,
            None => return Ok(None),
        }
    }
    Ok(Some(found))
}

/// How the place behind this one lies, where this one is the last of those known; nothing where the instruction there is half of a
/// loop or finish that is amiss.
fn behind(u: &Unit, known: &[Place], at: u16) -> Option<Place>
    requires limit { length u.now.code ≤ 4096 }
    requires last { at + 1 ≡ length known.now }
    requires inside { length known.now ≤ length u.now.code }
    requires known { AreFirstPlaces u.now known.now }
    requires nested { AreNestedBelow u.now at }
    ensures { MatchOption result (¬ AreNested u.now)
        (λ p. LiesSo u.now (at + 1) p × AreNestedBelow u.now (at + 1)) }
{
    let here = known[at as usize];
    let instr = &u.code[at as usize];
    match instr {
        Instr::For { k: slot, .. } if begins_span(u, at, instr) => Some(Place {
            within: Some(at),
            counters: with_slot(here.counters, *slot),
            ..here
        }),
        Instr::ForTo {
            k: slot,
            x: limit,
            ..
        } if begins_span(u, at, instr) => Some(Place {
            within: Some(at),
            counters: with_slot(with_slot(here.counters, *slot), *limit),
            ..here
        }),
        Instr::Finish(_) if begins_span(u, at, instr) => Some(Place {
            within: Some(at),
            finish: Some(at),
            depth: here.depth + 1,
            ..here
        }),
        Instr::Next(first) | Instr::EndFinish(first) => {
            if ends_span(u, at, *first) && here.within == Some(*first) {
                Some(known[*first as usize])
            } else {
                None
            }
        }
        Instr::For { .. } | Instr::ForTo { .. } | Instr::Finish(_) => None,
        _ => Some(here),
    }
}

/// The slots with one more. A slot from 64 on, which no unit has, is left out.
fn with_slot(slots: u64, slot: u16) -> u64
    ensures { (s : ℕ) → s < 64 → has_slot result s ≡ ((s == slot) || has_slot slots s) }
{
    if slot < 64 { slots | 1 << slot } else { slots }
}

/// Whether the slot is one of them.
pub(crate) fn has_slot(slots: u64, slot: u16) -> bool
    requires { slot < 64 }
    ensures { result ≡ has_slot slots slot }
{
    slots >> slot & 1 == 1
}

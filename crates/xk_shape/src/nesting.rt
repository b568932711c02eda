//! The loops and finishes of a unit, and how they lie to one another.

ghost use Rattle.std.specs.Prelude.{◌≡◌, option_map, IfOk, map, slice_get};
ghost use Rattle.std.specs.List.{list_any};
ghost use Rattle.xk_types.specs.Code.{loop_begun, loops};
ghost use Rattle.xk_types.specs.Blocks.{finish_opened, finishes, is_inside};
ghost use Rattle.xk_types.specs.Shape.{span_of, span_begun, span_ended, spans, overlaps, crosses};
ghost use Rattle.xk_shape.specs.Nesting.{begins_behind, ends_behind};

use std::alloc::{AllocError, Global};
use std::marker::Model;
use xk_types::{Instr, Unit};

/// A loop or a finish: the places of its first and of its last instruction, which name each other.
#[derive(Clone, Copy, Debug, PartialEq, Eq)]
pub(crate) struct Span {
    first: u16,
    last: u16,
}

impl Model for Span {
    ghost use Rattle.xk_types.specs.Blocks as blocks;

    ghost Value = { blocks.Span };

    ghost view = { λ s. record { first = s.first; last = s.last } };

    ghost inverse = { λ s. record { first = s.first; last = s.last } };
}

/// The loops and finishes of a unit. The error is that room for them was refused.
pub(crate) fn spans(alloc: Global, u: &Unit) -> Result<Vec<Span>, AllocError>
    ensures { IfOk result (λ found. found.items ≡ spans u.now) }
{
    let mut found = loops(alloc, u)?;
    found.extend_from_slice(&finishes(alloc, u)?)?;
    Ok(found)
}

/// The loops of a unit, by the places of their `for`.
fn loops(alloc: Global, u: &Unit) -> Result<Vec<Span>, AllocError>
    ensures { IfOk result (λ found. found.items ≡ map span_of (loops u.now)) }
{
    let mut found = Vec::new(alloc);
    for (at, instr) in u.code.iter().enumerate() {
        if let Some(l) = loop_begun(u, at, instr) {
            found.push(l)?;
        }
    }
    Ok(found)
}

/// The finishes of a unit, by the places of their `finish`.
fn finishes(alloc: Global, u: &Unit) -> Result<Vec<Span>, AllocError>
    ensures { IfOk result (λ found. found.items ≡ finishes u.now) }
{
    let mut found = Vec::new(alloc);
    for (at, instr) in u.code.iter().enumerate() {
        if let Some(f) = finish_opened(u, at, instr) {
            found.push(f)?;
        }
    }
    Ok(found)
}

/// The loop that the instruction at this place begins.
fn loop_begun(u: &Unit, at: usize, instr: &Instr) -> Option<Span>
    ensures { result ≡ option_map span_of (loop_begun u.now at instr.now) }
{
    match instr {
        Instr::For { e: last, .. } | Instr::ForTo { e: last, .. } => {
            match u.code.get(*last as usize) {
                Some(Instr::Next(first)) if *first as usize == at => Some(Span {
                    first: *first,
                    last: *last,
                }),
                _ => None,
            }
        }
        _ => None,
    }
}

/// The finish that the instruction at this place opens.
fn finish_opened(u: &Unit, at: usize, instr: &Instr) -> Option<Span>
    ensures { result ≡ finish_opened u.now at instr.now }
{
    match instr {
        Instr::Finish(last) => match u.code.get(*last as usize) {
            Some(Instr::EndFinish(first)) if *first as usize == at => Some(Span {
                first: *first,
                last: *last,
            }),
            _ => None,
        },
        _ => None,
    }
}

/// The loop or the finish that the instruction at this place begins.
pub(crate) fn span_begun(u: &Unit, at: usize, instr: &Instr) -> Option<Span>
    ensures { result ≡ span_begun u.now at instr.now }
{
    match instr {
        Instr::For { .. } | Instr::ForTo { .. } => loop_begun(u, at, instr),
        Instr::Finish(_) => finish_opened(u, at, instr),
        _ => None,
    }
}

/// The loop or the finish that the instruction at place `first` begins, if it ends at place `at`.
pub(crate) fn span_ended(u: &Unit, at: u16, first: u16) -> Option<Span>
    ensures { result ≡ span_ended u.now at first (slice_get u.now.code first) }
{
    let s = span_begun(u, first as usize, u.code.get(first as usize)?)?;
    if s.last == at { Some(s) } else { None }
}

/// Whether the instruction at this place begins a loop or a finish that ends behind it.
pub(crate) fn begins_span(u: &Unit, at: u16, instr: &Instr) -> bool
    ensures { result ≡ begins_behind u.now at instr.now }
{
    match span_begun(u, at as usize, instr) {
        Some(s) => at < s.last,
        None => false,
    }
}

/// Whether a loop or a finish begins at place `first` that ends at place `at`, behind it.
pub(crate) fn ends_span(u: &Unit, at: u16, first: u16) -> bool
    ensures { result ≡ ends_behind u.now at first }
{
    match span_ended(u, at, first) {
        Some(_) => first < at,
        None => false,
    }
}

impl Span {
    /// Whether the place lies behind the first instruction, and not behind the last.
    fn is_inside(&self, at: u16) -> bool
        ensures { result ≡ is_inside at self.now }
    {
        self.first < at && at <= self.last
    }

    /// Whether a jump from one place to the other leaves the stretch or comes into it.
    fn is_crossed(&self, at: u16, target: u16) -> bool
        ensures { result ≡ crosses at target self.now }
    {
        (self.first < at && at < self.last) != self.is_inside(target)
    }

    /// Whether one of the two begins inside the other and ends behind its end.
    fn overlaps(&self, other: &Span) -> bool
        ensures { result ≡ overlaps self.now other.now }
    {
        (self.first < other.first && other.first < self.last && self.last < other.last)
            || (other.first < self.first && self.first < other.last && other.last < self.last)
    }
}

/// Whether the stretch overlaps one of the others in part.
pub(crate) fn overlaps_any(s: &Span, others: &[Span]) -> bool
    ensures { result ≡ list_any (overlaps s.now) others.now }
{
    others.iter().any(|other| s.overlaps(other))
}

/// Whether a jump from one place to the other leaves one of the stretches or comes into it.
pub(crate) fn crosses_any(among: &[Span], at: u16, target: u16) -> bool
    ensures { result ≡ list_any (crosses at target) among.now }
{
    among.iter().any(|s| s.is_crossed(at, target))
}

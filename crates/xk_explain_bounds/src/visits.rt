//! How often the instructions of a unit are carried out.

ghost use Rattle.std.specs.Prelude.{◌≡◌, ◌≤◌, ◌*◌, Some, filter, length, IfOk, if◌then◌else◌};
ghost use Rattle.xk_types.specs.Code.{if_ended, is_round, loop_begun, loops, turns};
ghost use Rattle.xk_types.specs.Bound.{product, visits};
ghost use Rattle.xk_explain_bounds.specs.Amounts.{kept, AreVisits};

use crate::amounts;
use std::alloc::{AllocError, Global};
use std::marker::Model;
use xk_types::{Instr, Unit};

/// A loop: the places of its first instruction and of its `next`, its slot, its bounds, and the slot of a number that it goes no further up
/// than, if it names one.
#[derive(Drop)]
pub(crate) struct Loop {
    first: u16,
    last: u16,
    slot: u16,
    lo: i64,
    hi: i64,
    limit: Option<u16>,
}

impl Model for Loop {
    ghost use Rattle.xk_types.specs.Code.{Loop as LoopValue};

    ghost Value = { LoopValue };

    ghost view = { λ l. record {
      first = l.first;
      last = l.last;
      slot = l.slot;
      lo = l.lo;
      hi = l.hi;
      limit = l.limit;
    } };
}

impl Loop {
    /// How many turns it takes.
    pub(crate) fn turns(&self) -> u64
        ensures { result ≡ kept (turns self.now) }
    {
        amounts::distance(self.lo, self.hi)
    }

    /// Whether a place lies in it.
    fn is_round(&self, at: u16) -> bool
        ensures { result ≡ is_round at self.now }
    {
        self.first < at && at <= self.last
    }
}

/// The loop, if it ends at a `next` that names its first place.
fn if_ended(u: &Unit, l: Loop) -> Option<Loop>
    ensures { result ≡ if_ended u.now l }
{
    match u.code.get(l.last as usize) {
        Some(Instr::Next(named)) if *named == l.first => Some(l),
        _ => None,
    }
}

/// The loop that the instruction at this place begins.
pub(crate) fn loop_begun(u: &Unit, at: u16, instr: &Instr) -> Option<Loop>
    ensures { result ≡ loop_begun u.now at instr.now }
{
    match instr {
        Instr::For { k, lo, hi, e } => if_ended(
            u,
            Loop {
                first: at,
                last: *e,
                slot: *k,
                lo: *lo,
                hi: *hi,
                limit: None,
            },
        ),
        Instr::ForTo { k, lo, x, hi, e } => if_ended(
            u,
            Loop {
                first: at,
                last: *e,
                slot: *k,
                lo: *lo,
                hi: *hi,
                limit: Some(*x),
            },
        ),
        _ => None,
    }
}

/// The loops of a unit, by the places of their heads.
fn loops(alloc: Global, u: &Unit) -> Result<Vec<Loop>, AllocError>
    requires { length u.now.code ≤ 4096 }
    ensures { IfOk result (λ v. v.items ≡ loops u.now) }
{
    let mut found = Vec::new(alloc);
    for (at, instr) in u.code.iter().enumerate() {
        if let Some(l) = loop_begun(u, at as u16, instr) {
            found.push(l)?;
        }
    }
    Ok(found)
}

/// So many, and as often as the loop takes turns if the place lies in it.
fn times_round(count: u64, l: &Loop, at: u16) -> u64
    ensures { result
        ≡ (if is_round at l.now then kept (count * kept (turns l.now)) else count) }
{
    if l.is_round(at) {
        amounts::product(count, l.turns())
    } else {
        count
    }
}

/// How often the instruction at a place is carried out, where these are the loops of its unit.
fn count_at(loops: &[Loop], at: u16) -> u64
    ensures { result ≡ kept (product (filter (is_round at) loops.now)) }
{
    let mut count = 1;
    for l in loops {
        count = times_round(count, l, at);
    }
    count
}

/// How often each instruction of a unit is carried out in one run of it.
pub(crate) fn visits(alloc: Global, u: &Unit) -> Result<Vec<u64>, AllocError>
    requires { length u.now.code ≤ 4096 }
    ensures { IfOk result (λ v. AreVisits u.now v.items) }
{
    let loops = loops(alloc, u)?;
    let mut counts = Vec::with_capacity(alloc, u.code.len())?;
    for at in 0..u.code.len() {
        counts.push(count_at(&loops, at as u16))?;
    }
    Ok(counts)
}

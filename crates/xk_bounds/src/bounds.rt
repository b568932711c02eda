//! The bounds on runs.

ghost use Rattle.std.specs.Prelude.{◌≡◌, ◌+◌, ◌*◌, ◌<◌, ◌≤◌, min, slice_index, IfOk, MatchResult};
ghost use Rattle.std.specs.Option.{option_map_or};
ghost use Rattle.xk_types.specs.Code.{ModuleValue, unit_run, turns};
ghost use Rattle.xk_types.specs.Shape.{HasShape};
ghost use Rattle.xk_types.specs.Bound.{total, IsWithinBounds};
ghost use Rattle.xk_shape.specs.Blocks.{IsOrderly};
ghost use Rattle.xk_bounds.specs.Refusals.{IsBoundFault};
ghost use Rattle.xk_bounds.specs.Measure.{AreBounds, AreCut, added, added_by, weight_of, visits_next, loop_between};

use crate::refusal::BoundFault;
use crate::room::{Room, deepest, rooms};
use std::alloc::{AllocError, Global};
use xk_types::{Instr, Module, Rule, Unit};

/// The most that a run of a module may take.
#[derive(Drop)]
pub(crate) struct Bounds {
    /// The steps.
    pub steps: u64,
    /// The activities, main among them.
    pub activities: u32,
    /// The clocks that are made.
    pub clocks: u32,
    /// The slots in the frames of one activity.
    pub stack: u32,
    /// What an activity needs to run each unit.
    pub rooms: Vec<Room>,
}

/// The most steps that V14 allows.
const MAX_STEPS: u64 = 1_000_000_000;

/// The most activities that V15 allows.
const MAX_ACTIVITIES: u32 = 100_000;

/// The most clocks that V16 allows.
const MAX_CLOCKS: u32 = 100_000;

/// The most slots in the frames of one activity that V17 allows.
const MAX_STACK: u32 = 4096;

/// Larger than each limit: a greater number is told as this one, so that no sum grows without end.
const CUT: u64 = 1_000_000_001;

/// What is counted of a run.
#[derive(Clone, Copy)]
enum Quantity {
    /// The steps.
    Steps,
    /// The activities that are started.
    Activities,
    /// The clocks that are made.
    Clocks,
}

impl Bounds {
    /// The bounds of a module, those that are sums cut at `CUT`.
    pub(crate) fn of(alloc: Global, m: &Module) -> Result<Bounds, AllocError>
        requires { HasShape m.now }
        ensures { IfOk result (AreCut m.now CUT) }
    {
        let rooms = rooms(alloc, m)?;
        Ok(Bounds {
            steps: most(alloc, m, Quantity::Steps)?,
            activities: most(alloc, m, Quantity::Activities)? as u32 + 1,
            clocks: most(alloc, m, Quantity::Clocks)? as u32,
            stack: deepest(&rooms),
            rooms,
        })
    }

    /// Tries the rules on bounds in the order of their numbers. Bounds that are within their limits aren't cut.
    pub(crate) fn check(&self) -> Result<(), BoundFault>
        ensures { (m : ModuleValue) → AreCut m CUT self.now
            → MatchResult result (λ _. IsWithinBounds m × AreBounds m self.now) (IsBoundFault m) }
    {
        within(Rule::Steps, self.steps, MAX_STEPS)?;
        within(
            Rule::Activities,
            u64::from(self.activities),
            u64::from(MAX_ACTIVITIES),
        )?;
        within(Rule::Clocks, u64::from(self.clocks), u64::from(MAX_CLOCKS))?;
        within(Rule::Stack, u64::from(self.stack), u64::from(MAX_STACK))
    }
}

/// Refuses a bound that is over its limit.
fn within(rule: Rule, bound: u64, limit: u64) -> Result<(), BoundFault>
    ensures { MatchResult result
        (λ _. bound ≤ limit)
        (λ f. (f ≡ record { rule = rule; limit = limit }) × (limit < bound)) }
{
    if bound <= limit {
        Ok(())
    } else {
        Err(BoundFault { rule, limit })
    }
}

/// The most that a run of main takes, with all that it calls and starts, cut at `CUT`. A unit calls and starts only units of
/// greater number, so that the table is filled from the last unit on.
fn most(alloc: Global, m: &Module, counted: Quantity) -> Result<u64, AllocError>
    requires { HasShape m.now }
    ensures { IfOk result (λ n. n ≡ min (total (weight_of counted) m.now 0) CUT) }
{
    let units = m.units();
    let mut table = vec![in alloc; 0; units.len()]?;
    for unit in (0..units.len()).rev() {
        let u = &units[unit];
        let most = most_of(alloc, counted, u, &table)?;
        table[unit] = most;
    }
    Ok(table[0])
}

/// The most that a unit takes, with what the table says of the units that it calls and starts, cut at `CUT`.
fn most_of(alloc: Global, counted: Quantity, u: &Unit, table: &[u64]) -> Result<u64, AllocError>
    requires { IsOrderly u.now }
    ensures { IfOk result
        (λ n. n ≡ min (added_by (weight_of counted) (slice_index table.now) u.now) CUT) }
{
    let mut before = Vec::with_capacity(alloc, u.code.len())?;
    let mut here = 1;
    let mut most = 0;
    for instr in &u.code {
        most = cut_sum(most, cut_product(here, once(counted, instr, table)));
        before.push(here)?;
        here = visits_next(&before, here, instr);
    }
    Ok(most)
}

/// How often the next instruction is carried out, cut at `CUT`, where this one is `here` times, and the list says it of
/// those before. Behind a loop all is as it was before it.
fn visits_next(before: &[u64], here: u64, instr: &Instr) -> u64
    ensures { result ≡ visits_next CUT before.now here instr.now }
{
    match instr {
        Instr::For { lo, hi, .. } => cut_product(here, turns(*lo, *hi)),
        Instr::ForTo { lo, hi, .. } => cut_product(here, turns(*lo, *hi)),
        Instr::Next(first) => before.get(*first as usize).copied().unwrap_or(0),
        _ => here,
    }
}

/// How many turns a loop with these bounds takes, cut at `CUT`.
fn turns(lo: i64, hi: i64) -> u64
    ensures { result ≡ min (turns (loop_between lo hi)) CUT }
{
    if lo <= hi {
        hi.abs_diff(lo).saturating_add(1).min(CUT)
    } else {
        0
    }
}

/// What the instruction takes each time, with what the table says of the unit that it calls or starts, cut at `CUT`.
fn once(counted: Quantity, instr: &Instr, table: &[u64]) -> u64
    ensures { result ≡ min (added (weight_of counted) (slice_index table.now) instr.now) CUT }
{
    cut_sum(weight(counted, instr), run(instr, table))
}

/// What the table says of the unit that the instruction calls or starts.
fn run(instr: &Instr, table: &[u64]) -> u64
    ensures { result ≡ option_map_or (slice_index table.now) (unit_run instr.now) 0 }
{
    match instr {
        Instr::Call { unit, .. } | Instr::Spawn { unit, .. } => {
            table.get(*unit as usize).copied().unwrap_or(0)
        }
        _ => 0,
    }
}

/// What the instruction itself takes.
fn weight(counted: Quantity, instr: &Instr) -> u64
    ensures { result ≡ weight_of counted instr.now }
{
    match counted {
        Quantity::Steps => match instr {
            Instr::Advance => 2,
            _ => 1,
        },
        Quantity::Activities => match instr {
            Instr::Spawn { .. } => 1,
            _ => 0,
        },
        Quantity::Clocks => match instr {
            Instr::Make(_) => 1,
            _ => 0,
        },
    }
}

/// The sum, cut at `CUT`.
fn cut_sum(a: u64, b: u64) -> u64
    ensures { result ≡ min (a + b) CUT }
{
    a.saturating_add(b).min(CUT)
}

/// The product, cut at `CUT`.
fn cut_product(a: u64, b: u64) -> u64
    ensures { result ≡ min (a * b) CUT }
{
    a.saturating_mul(b).min(CUT)
}

//! How many paths there are along moves.

ghost use Rattle.std.specs.Prelude.{◌≡◌, ◌<◌, ◌+◌, ◌∷◌, [], ℕ, List, true, false, length, slice_get, slice_index_or, IfOk, Some};
ghost use Rattle.xk_readings.specs.Paths.{Path, AreBetween, AreWaysOf, all_extended, counted, lists_below, over_of};

use crate::edge::Edge;
use std::alloc::{AllocError, Global};

/// No count is greater.
pub const MOST: u128 = 1 << 127;

/// The sum, or the most that is counted.
fn sum(a: u128, b: u128) -> u128
    ensures { result ≡ counted (a + b) }
{
    a.saturating_add(b).min(MOST)
}

/// Adds for each node how many paths lead there that are a move longer than those that are counted.
fn add_ways(moves: &[Edge], now: &[u128], next: &mut [u128])
    requires between { AreBetween moves.now (length now.now) }
    requires many { length next.old ≡ length now.now }
    requires none { (k : ℕ) → k < length next.old → slice_get next.old k ≡ Some 0 }
    ensures many { length next.new ≡ length next.old }
    ensures ways { (paths : List Path) → AreWaysOf paths now.now
        → AreWaysOf (all_extended moves.now paths) next.new }
{
    for e in moves {
        next[e.to] = sum(next[e.to], now[e.from]);
    }
}

/// How many of the paths that are counted end where a reading may end.
fn over(now: &[u128], ends: &[bool]) -> u128
    requires { length ends.now ≡ length now.now }
    ensures { (paths : List Path) → AreWaysOf paths now.now
        → result ≡ counted (length (over_of ends.now paths)) }
{
    let mut count = 0;
    for node in 0..now.len() {
        if ends[node] {
            count = sum(count, now[node]);
        }
    }
    count
}

/// The paths of one move more, counted. Err where memory was refused.
fn next_ways(alloc: Global, moves: &[Edge], now: &[u128]) -> Result<Vec<u128>, AllocError>
    requires { AreBetween moves.now (length now.now) }
    ensures many { IfOk result (λ next. length next.items ≡ length now.now) }
    ensures ways { IfOk result (λ next. (paths : List Path) → AreWaysOf paths now.now
        → AreWaysOf (all_extended moves.now paths) next.items) }
{
    let mut next = vec![in alloc; 0; now.len()]?;
    add_ways(moves, now, &mut next);
    Ok(next)
}

/// The one path without a move. Err where memory was refused.
fn first_ways(alloc: Global, nodes: usize) -> Result<Vec<u128>, AllocError>
    requires { 0 < nodes }
    ensures many { IfOk result (λ ways. length ways.items ≡ nodes) }
    ensures ways { IfOk result
        (λ ways. AreWaysOf (record { node = 0; numbers = [] } ∷ []) ways.items) }
{
    let mut ways = vec![in alloc; 0; nodes]?;
    ways[0] = 1;
    Ok(ways)
}

/// Whether no path is counted.
fn are_none(ways: &[u128]) -> bool
    ensures { result ≡ true → (k : ℕ) → k < length ways.now → slice_index_or ways.now k 0 ≡ 0 }
{
    for n in ways {
        if *n != 0 {
            return false;
        }
    }
    true
}

/// How many lists are read along `longest` moves or fewer from the first node, or the most that is counted. Err where memory was refused.
pub fn count_along(
    alloc: Global,
    moves: &[Edge],
    ends: &[bool],
    longest: u64,
) -> Result<u128, AllocError>
    requires some { 0 < length ends.now }
    requires between { AreBetween moves.now (length ends.now) }
    ensures { IfOk result (λ count.
        count ≡ counted (length (lists_below moves.now ends.now (longest + 1)))) }
{
    let mut ways = first_ways(alloc, ends.len())?;
    let mut count = over(&ways, ends);
    for _ in 0..longest {
        if are_none(&ways) {
            return Ok(count);
        }
        ways = next_ways(alloc, moves, &ways)?;
        count = sum(count, over(&ways, ends));
    }
    Ok(count)
}

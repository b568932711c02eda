//! The order of the methods that are reached from one.

ghost use Rattle.std.specs.Prelude.{◌≡◌, List, ◌<◌, ◌≤◌, ◌+◌, ◌^◌, ℕ, length, set, slice_get, slice_index, vec_len, IfErr, IfOk, OnOk, Some};
ghost use Rattle.xk_callgraph.specs.CallGraph.{AreReached, AreWithin, IsCall, IsRecursive, Reaches, adjacency, zeros};
ghost use Rattle.xk_callgraph.specs.TopologicalOrder.{AreCounts, AreLeast, AreReady, CanFall, IsInOrder, IsOnce, IsSearch, MarksReached, times};

use crate::numbering::{CallPlace, called_by, numbers_by_calls};
use std::alloc::{AllocError, Global};
use std::collections::BTreeSet;

/// Marks a method that is reached, and puts it on the list if it is new there.
fn mark(reached: &mut Vec<usize>, seen: &mut [usize], j: usize) -> Result<(), AllocError>
    requires { j < length seen.old }
    ensures marked { OnOk result (0 < slice_index seen.new j) }
    ensures more { OnOk result ((i : ℕ) → 0 < slice_index seen.old i → 0 < slice_index seen.new i) }
    ensures same { OnOk result ((n i : ℕ) → slice_get reached.old.items n ≡ Some i
        → slice_get reached.new.items n ≡ Some i) }
    ensures left { OnOk result
        (zeros seen.new + vec_len reached.new ≡ zeros seen.old + vec_len reached.old) }
    ensures longer { OnOk result (vec_len reached.old ≤ vec_len reached.new) }
    ensures search { OnOk result ((calls : List (List ℕ)) (start done : ℕ)
        → IsSearch calls start seen.old reached.old.items done → done ≤ vec_len reached.old
        → Reaches calls start j → IsSearch calls start seen.new reached.new.items done) }
{
    if seen[j] != 0 {
        return Ok(());
    }
    reached.push(j)?;
    seen[j] = 1;
    Ok(())
}

/// Marks the methods that a method calls.
fn mark_called(
    calls: &[Vec<usize>],
    i: usize,
    reached: &mut Vec<usize>,
    seen: &mut [usize],
) -> Result<(), AllocError>
    requires within { AreWithin (adjacency calls.now) }
    requires all { length seen.old ≡ length calls.now }
    requires method { i < length calls.now }
    ensures marked { OnOk result ((k j : ℕ) → IsCall (adjacency calls.now) i k j
        → 0 < slice_index seen.new j) }
    ensures more { OnOk result ((j : ℕ) → 0 < slice_index seen.old j → 0 < slice_index seen.new j) }
    ensures same { OnOk result ((n m : ℕ) → slice_get reached.old.items n ≡ Some m
        → slice_get reached.new.items n ≡ Some m) }
    ensures left { OnOk result
        (zeros seen.new + vec_len reached.new ≡ zeros seen.old + vec_len reached.old) }
    ensures longer { OnOk result (vec_len reached.old ≤ vec_len reached.new) }
    ensures search { OnOk result ((start done : ℕ)
        → IsSearch (adjacency calls.now) start seen.old reached.old.items done
        → done ≤ vec_len reached.old → Reaches (adjacency calls.now) start i
        → IsSearch (adjacency calls.now) start seen.new reached.new.items done) }
{
    let called = called_by(calls, i);
    for k in 0..called.len() {
        mark(reached, seen, called[k])?;
    }
    Ok(())
}

/// Marks the methods that are reached from one, by a search in breadth.
fn mark_all(
    alloc: Global,
    calls: &[Vec<usize>],
    seen: &mut [usize],
    start: usize,
) -> Result<(), AllocError>
    requires within { AreWithin (adjacency calls.now) }
    requires start { start < length calls.now }
    requires all { length seen.old ≡ length calls.now }
    requires fresh { (j : ℕ) → slice_index seen.old j ≡ 0 }
    ensures { OnOk result (MarksReached (adjacency calls.now) start seen.new) }
{
    let mut reached = Vec::new(alloc);
    mark(&mut reached, seen, start)?;
    let mut done = 0;
    while done < reached.len() {
        let i = reached[done];
        mark_called(calls, i, &mut reached, seen)?;
        done += 1;
    }
    Ok(())
}

/// The methods that are reached from one, as those that have a mark.
fn mark_reached(alloc: Global, calls: &[Vec<usize>], start: usize) -> Result<Vec<usize>, AllocError>
    requires within { AreWithin (adjacency calls.now) }
    requires start { start < length calls.now }
    ensures marks { IfOk result (λ seen. MarksReached (adjacency calls.now) start seen.items) }
    ensures all { IfOk result (λ seen. vec_len seen ≡ length calls.now) }
{
    let mut seen = vec![in alloc; 0usize; calls.len()]?;
    mark_all(alloc, calls, &mut seen, start)?;
    Ok(seen)
}

/// Counts the calls of each method that a list has.
#[tactic(auto, using(crate::proofs::PendingCallLemmas::times_at_most))]
fn count_called(called: &[usize], awaited: &mut [u128])
    requires within { (k j : ℕ) → slice_get called.now k ≡ Some j → j < length awaited.old }
    requires room { (j : ℕ) → slice_index awaited.old j + length called.now < 2 ^ 128 }
    ensures { (j : ℕ) → slice_index awaited.new j
        ≡ slice_index awaited.old j + times (length called.now) called.now j }
{
    for k in 0..called.len() {
        awaited[called[k]] += 1;
    }
}

/// Counts for each method the calls of it that those make that are left. Fewer than 2^64 lists of fewer than 2^64 calls fit in 128 bits.
fn count_callers(calls: &[Vec<usize>], left: &[usize], awaited: &mut [u128])
    requires within { AreWithin (adjacency calls.now) }
    requires all { length left.now ≡ length calls.now }
    requires counted { length awaited.old ≡ length calls.now }
    requires fresh { (j : ℕ) → slice_index awaited.old j ≡ 0 }
    ensures { AreCounts (adjacency calls.now) left.now awaited.new }
{
    for i in 0..calls.len() {
        if left[i] != 0 {
            count_called(called_by(calls, i), awaited);
        }
    }
}

/// Takes calls off the counts. Who waits for no call any more becomes ready.
fn release(
    called: &[usize],
    awaited: &mut [u128],
    ready: &mut BTreeSet<usize>,
) -> Result<(), AllocError>
    requires within { (k j : ℕ) → slice_get called.now k ≡ Some j → j < length awaited.old }
    requires counted { (j : ℕ) → times (length called.now) called.now j ≤ slice_index awaited.old
        j }
    ensures awaited { OnOk result ((j : ℕ) → slice_index awaited.new j
        + times (length called.now) called.now j ≡ slice_index awaited.old j) }
    ensures ready { OnOk result ((left : List ℕ) → AreReady left awaited.old ready.old
        → ((k j : ℕ) → slice_get called.now k ≡ Some j → 0 < slice_index left j)
        → AreReady left awaited.new ready.new) }
{
    for k in 0..called.len() {
        let j = called[k];
        awaited[j] -= 1;
        if awaited[j] == 0 {
            ready.insert(j)?;
        }
    }
    Ok(())
}

/// Gives the next place to a method that is left and waits for no call.
fn place(
    calls: &[Vec<usize>],
    left: &mut [usize],
    awaited: &mut [u128],
    ready: &mut BTreeSet<usize>,
    i: usize,
) -> Result<(), AllocError>
    requires within { AreWithin (adjacency calls.now) }
    requires all { length left.old ≡ length calls.now }
    requires counted { length awaited.old ≡ length calls.now }
    requires left { 0 < slice_index left.old i }
    requires counts { AreCounts (adjacency calls.now) left.old awaited.old }
    requires free { slice_index awaited.old i ≡ 0 }
    requires called { (k j : ℕ) → IsCall (adjacency calls.now) i k j → 0 < slice_index left.old j }
    requires ready { AreReady (set left.old i 0) awaited.old ready.old }
    ensures left { OnOk result (left.new ≡ set left.old i 0) }
    ensures counts { OnOk result (AreCounts (adjacency calls.now) left.new awaited.new) }
    ensures ready { OnOk result (AreReady left.new awaited.new ready.new) }
{
    left[i] = 0;
    release(called_by(calls, i), awaited, ready)?;
    Ok(())
}

/// Gives places to all that are left, the first to the start.
fn place_all(
    alloc: Global,
    calls: &[Vec<usize>],
    left: &mut [usize],
    awaited: &mut [u128],
    start: usize,
) -> Result<Vec<usize>, AllocError>
    requires within { AreWithin (adjacency calls.now) }
    requires falls { CanFall (adjacency calls.now) }
    requires all { length left.old ≡ length calls.now }
    requires counted { length awaited.old ≡ length calls.now }
    requires left { MarksReached (adjacency calls.now) start left.old }
    requires counts { AreCounts (adjacency calls.now) left.old awaited.old }
    ensures first { IfOk result (λ order. slice_get order.items 0 ≡ Some start) }
    ensures reached { IfOk result (λ order. AreReached (adjacency calls.now) start order.items) }
    ensures later { IfOk result (λ order. IsInOrder (adjacency calls.now) order.items) }
    ensures once { IfOk result (λ order. IsOnce order.items) }
    ensures least { IfOk result (λ order. AreLeast (adjacency calls.now) start order.items) }
{
    let mut ready = BTreeSet::new(alloc);
    let mut order = Vec::new(alloc);
    order.push(start)?;
    place(calls, left, awaited, &mut ready, start)?;
    while let Some(i) = ready.pop_first() {
        order.push(i)?;
        place(calls, left, awaited, &mut ready, i)?;
    }
    Ok(order)
}

/// The methods that are reached from one, in an order in which each comes behind its callers; or a recursive call, reached or not. As long as
/// one that is reached has no place, the next is the least of those all of whose callers that are reached have one.
pub fn order_from(
    alloc: Global,
    calls: &[Vec<usize>],
    start: usize,
) -> Result<Result<Vec<usize>, CallPlace>, AllocError>
    requires within { AreWithin (adjacency calls.now) }
    requires start { start < length calls.now }
    ensures first { IfOk result (λ r. IfOk r (λ order. slice_get order.items 0 ≡ Some start)) }
    ensures reached { IfOk result (λ r. IfOk r (λ order.
        AreReached (adjacency calls.now) start order.items)) }
    ensures later { IfOk result (λ r. IfOk r (λ order. IsInOrder (adjacency calls.now)
        order.items)) }
    ensures once { IfOk result (λ r. IfOk r (λ order. IsOnce order.items)) }
    ensures least { IfOk result (λ r. IfOk r (λ order.
        AreLeast (adjacency calls.now) start order.items)) }
    ensures none { IfOk result (λ r. OnOk r
        ((i k : ℕ) → IsRecursive (adjacency calls.now) i k → ⊥)) }
    ensures found { IfOk result (λ r. IfErr r (λ p.
        IsRecursive (adjacency calls.now) p.caller p.index)) }
{
    let r = numbers_by_calls(alloc, calls)?;
    match r {
        Ok(_) => {
            let mut left = mark_reached(alloc, calls, start)?;
            let mut awaited = vec![in alloc; 0u128; calls.len()]?;
            count_callers(calls, &left, &mut awaited);
            let order = place_all(alloc, calls, &mut left, &mut awaited, start)?;
            Ok(Ok(order))
        }
        Err(place) => Ok(Err(place)),
    }
}

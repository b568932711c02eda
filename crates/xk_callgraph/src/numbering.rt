//! Numbers for methods in the order of their calls, or a recursive call.

ghost use Rattle.std.specs.Prelude.{◌≡◌, List, ◌<◌, ◌+◌, ℕ, true, false, length, slice_get, slice_index, vec_len, IfErr, IfOk, OnOk, MatchOption, IfSome, Ok, Some, None};
ghost use Rattle.xk_callgraph.specs.CallGraph.{AreReached, AreStuck, AreWithin, AtMost, called_by, Falls, IsNumbered, IsRecursive, Reaches, Waits, adjacency, zeros};

use crate::strong_components::search;
use std::alloc::{AllocError, Global};

/// A call, by the number of the method that makes it and the place among that method's calls.
#[derive(Clone, Copy, Debug, PartialEq, Eq)]
pub struct CallPlace {
    /// Who calls.
    pub caller: usize,
    /// Which of its calls it is, from 0.
    pub index: usize,
}

/// Whom a method calls.
pub(crate) fn called_by(calls: &[Vec<usize>], i: usize) -> &[usize]
    requires { i < length calls.now }
    ensures { result.now ≡ called_by (adjacency calls.now) i }
{
    &calls[i]
}

/// The first call of a method to one that has no number.
fn keeps_waiting(called: &[usize], numbers: &[usize]) -> Option<usize>
    requires within { (k j : ℕ) → slice_get called.now k ≡ Some j → j < length numbers.now }
    ensures { MatchOption result
        ((k j : ℕ) → slice_get called.now k ≡ Some j → 0 < slice_index numbers.now j)
        (λ k. (j : ℕ) × ((slice_get called.now k ≡ Some j) × (slice_index numbers.now j ≡ 0))) }
{
    for k in 0..called.len() {
        if numbers[called[k]] == 0 {
            return Some(k);
        }
    }
    None
}

/// Gives a method the next number, or names the call that it waits for.
fn place(
    calls: &[Vec<usize>],
    numbers: &mut [usize],
    placed: &mut Vec<usize>,
    i: usize,
) -> Result<Option<usize>, AllocError>
    requires within { AreWithin (adjacency calls.now) }
    requires all { length numbers.old ≡ length calls.now }
    requires method { i < length numbers.old }
    requires none { slice_index numbers.old i ≡ 0 }
    requires numbered { IsNumbered (adjacency calls.now) numbers.old }
    requires top { AtMost numbers.old (vec_len placed.old) }
    ensures numbered { OnOk result (IsNumbered (adjacency calls.now) numbers.new) }
    ensures top { OnOk result (AtMost numbers.new (vec_len placed.new)) }
    ensures less { result ≡ Ok None → zeros numbers.new + 1 ≡ zeros numbers.old }
    ensures same { IfOk result (λ o. IfSome o (λ k. numbers.new ≡ numbers.old)) }
    ensures awaited { IfOk result (λ o. IfSome o (λ k. Waits (adjacency calls.now) numbers.old i
        k)) }
{
    match keeps_waiting(called_by(calls, i), numbers) {
        Some(k) => Ok(Some(k)),
        None => {
            placed.push(i)?;
            numbers[i] = placed.len();
            Ok(None)
        }
    }
}

/// Gives numbers to those methods of a list that wait for nobody.
fn place_in_order(
    calls: &[Vec<usize>],
    numbers: &mut [usize],
    placed: &mut Vec<usize>,
    order: &[usize],
) -> Result<(), AllocError>
    requires within { AreWithin (adjacency calls.now) }
    requires all { length numbers.old ≡ length calls.now }
    requires numbered { IsNumbered (adjacency calls.now) numbers.old }
    requires top { AtMost numbers.old (vec_len placed.old) }
    ensures numbered { OnOk result (IsNumbered (adjacency calls.now) numbers.new) }
    ensures top { OnOk result (AtMost numbers.new (vec_len placed.new)) }
{
    for i in order {
        if *i < numbers.len() && numbers[*i] == 0 {
            place(calls, numbers, placed, *i)?;
        }
    }
    Ok(())
}

/// Goes through all methods until one gets a number, and notes for the others the call that they wait for. Whether one did.
fn place_next(
    calls: &[Vec<usize>],
    numbers: &mut [usize],
    placed: &mut Vec<usize>,
    awaited: &mut [usize],
) -> Result<bool, AllocError>
    requires within { AreWithin (adjacency calls.now) }
    requires all { length numbers.old ≡ length calls.now }
    requires noted { length awaited.old ≡ length calls.now }
    requires numbered { IsNumbered (adjacency calls.now) numbers.old }
    requires top { AtMost numbers.old (vec_len placed.old) }
    ensures numbered { OnOk result (IsNumbered (adjacency calls.now) numbers.new) }
    ensures top { OnOk result (AtMost numbers.new (vec_len placed.new)) }
    ensures more { result ≡ Ok true → zeros numbers.new < zeros numbers.old }
    ensures stuck { result ≡ Ok false →
        AreStuck (adjacency calls.now) numbers.new awaited.new (length numbers.new) }
{
    for i in 0..numbers.len() {
        if numbers[i] == 0 {
            match place(calls, numbers, placed, i)? {
                None => return Ok(true),
                Some(k) => awaited[i] = k,
            }
        }
    }
    Ok(false)
}

/// Gives numbers as long as a method can get one, and notes for the others the call that they wait for.
fn place_rest(
    calls: &[Vec<usize>],
    numbers: &mut [usize],
    placed: &mut Vec<usize>,
    awaited: &mut [usize],
) -> Result<(), AllocError>
    requires within { AreWithin (adjacency calls.now) }
    requires all { length numbers.old ≡ length calls.now }
    requires noted { length awaited.old ≡ length calls.now }
    requires numbered { IsNumbered (adjacency calls.now) numbers.old }
    requires top { AtMost numbers.old (vec_len placed.old) }
    ensures numbered { OnOk result (IsNumbered (adjacency calls.now) numbers.new) }
    ensures stuck { OnOk result
        (AreStuck (adjacency calls.now) numbers.new awaited.new (length numbers.new)) }
{
    while place_next(calls, numbers, placed, awaited)? {}
    Ok(())
}

/// The first method that has no number.
fn unplaced(numbers: &[usize]) -> Option<usize>
    ensures { MatchOption result
        ((i : ℕ) → i < length numbers.now → 0 < slice_index numbers.now i)
        (λ i. (i < length numbers.now) × (slice_index numbers.now i ≡ 0)) }
{
    for i in 0..numbers.len() {
        if numbers[i] == 0 {
            return Some(i);
        }
    }
    None
}

/// Goes from a method that waits to the one that it waits for, until one comes again: the last call is recursive.
fn walk_round(
    calls: &[Vec<usize>],
    numbers: &[usize],
    awaited: &[usize],
    seen: &mut [usize],
    start: usize,
) -> CallPlace
    requires within { AreWithin (adjacency calls.now) }
    requires all { length numbers.now ≡ length calls.now }
    requires noted { length awaited.now ≡ length calls.now }
    requires unseen { length seen.old ≡ length calls.now }
    requires stuck { AreStuck (adjacency calls.now) numbers.now awaited.now (length numbers.now) }
    requires method { start < length numbers.now }
    requires none { slice_index numbers.now start ≡ 0 }
    requires fresh { (j : ℕ) → slice_index seen.old j ≡ 0 }
    ensures { IsRecursive (adjacency calls.now) result.caller result.index }
{
    let mut here = start;
    loop {
        seen[here] = 1;
        let index = awaited[here];
        let next = called_by(calls, here)[index];
        if seen[next] != 0 {
            return CallPlace {
                caller: here,
                index,
            };
        }
        here = next;
    }
}

/// Gives each method a number that falls along its calls, or finds a recursive call.
fn number_each(
    alloc: Global,
    calls: &[Vec<usize>],
    numbers: &mut [usize],
    awaited: &mut [usize],
    order: &[usize],
) -> Result<Option<CallPlace>, AllocError>
    requires within { AreWithin (adjacency calls.now) }
    requires all { length numbers.old ≡ length calls.now }
    requires noted { length awaited.old ≡ length calls.now }
    requires fresh { (j : ℕ) → slice_index numbers.old j ≡ 0 }
    ensures falls { result ≡ Ok None → Falls (adjacency calls.now) numbers.new }
    ensures found { IfOk result (λ o. IfSome o (λ p.
        IsRecursive (adjacency calls.now) p.caller p.index)) }
{
    let mut placed = Vec::new(alloc);
    place_in_order(calls, numbers, &mut placed, order)?;
    place_rest(calls, numbers, &mut placed, awaited)?;
    match unplaced(numbers) {
        None => Ok(None),
        Some(start) => {
            let mut seen = vec![in alloc; 0usize; calls.len()]?;
            Ok(Some(walk_round(calls, numbers, awaited, &mut seen, start)))
        }
    }
}

/// Numbers that fall along each call, or a recursive call.
fn number_all(
    alloc: Global,
    calls: &[Vec<usize>],
    order: &[usize],
) -> Result<Result<Vec<usize>, CallPlace>, AllocError>
    requires { AreWithin (adjacency calls.now) }
    ensures falls { IfOk result (λ r. IfOk r (λ numbers. Falls (adjacency calls.now)
        numbers.items)) }
    ensures length { IfOk result (λ r. IfOk r (λ numbers. vec_len numbers ≡ length calls.now)) }
    ensures found { IfOk result (λ r. IfErr r (λ p.
        IsRecursive (adjacency calls.now) p.caller p.index)) }
{
    let mut numbers = vec![in alloc; 0usize; calls.len()]?;
    let mut awaited = vec![in alloc; 0usize; calls.len()]?;
    let found = number_each(alloc, calls, &mut numbers, &mut awaited, order)?;
    match found {
        None => Ok(Ok(numbers)),
        Some(place) => Ok(Err(place)),
    }
}

/// Numbers for methods, so that each is greater than those of the methods that it calls; or a recursive call. The methods of `order` are tried
/// first, which saves time and changes nothing of what is promised.
fn numbers_in_order(
    alloc: Global,
    calls: &[Vec<usize>],
    order: &[usize],
) -> Result<Result<Vec<usize>, CallPlace>, AllocError>
    requires { AreWithin (adjacency calls.now) }
    ensures falls { IfOk result (λ r. IfOk r (λ numbers. Falls (adjacency calls.now)
        numbers.items)) }
    ensures length { IfOk result (λ r. IfOk r (λ numbers. vec_len numbers ≡ length calls.now)) }
    ensures none { IfOk result (λ r. OnOk r
        ((i k : ℕ) → IsRecursive (adjacency calls.now) i k → ⊥)) }
    ensures found { IfOk result (λ r. IfErr r (λ p.
        IsRecursive (adjacency calls.now) p.caller p.index)) }
{
    let r = number_all(alloc, calls, order)?;
    match r {
        Ok(numbers) => Ok(Ok(numbers)),
        Err(place) => Ok(Err(place)),
    }
}

/// Numbers for methods, so that each is greater than those of the methods that it calls; or a recursive call. Of several it is the first in
/// the order of methods and of a method's calls, which the contract leaves open.
pub fn numbers_by_calls(
    alloc: Global,
    calls: &[Vec<usize>],
) -> Result<Result<Vec<usize>, CallPlace>, AllocError>
    requires { AreWithin (adjacency calls.now) }
    ensures falls { IfOk result (λ r. IfOk r (λ numbers. Falls (adjacency calls.now)
        numbers.items)) }
    ensures length { IfOk result (λ r. IfOk r (λ numbers. vec_len numbers ≡ length calls.now)) }
    ensures none { IfOk result (λ r. OnOk r
        ((i k : ℕ) → IsRecursive (adjacency calls.now) i k → ⊥)) }
    ensures found { IfOk result (λ r. IfErr r (λ p.
        IsRecursive (adjacency calls.now) p.caller p.index)) }
{
    let found = search(alloc, calls)?;
    let r = numbers_in_order(alloc, calls, &found.order)?;
    match r {
        Ok(numbers) => Ok(Ok(numbers)),
        Err(place) => Ok(Err(first_recursive(alloc, calls, &found.components, place)?)),
    }
}

/// Adds a method to those that are reached, if it is new.
fn add(reached: &mut Vec<usize>, seen: &mut [usize], n: usize) -> Result<(), AllocError>
    ensures { OnOk result ((calls : List (List ℕ)) (start : ℕ)
        → AreReached calls start reached.old.items
        → Reaches calls start n
        → AreReached calls start reached.new.items) }
{
    if n >= seen.len() || seen[n] != 0 {
        return Ok(());
    }
    seen[n] = 1;
    reached.push(n)?;
    Ok(())
}

/// Adds the methods that a method calls, each once; whether the one that is looked for is among them.
fn add_called(
    calls: &[Vec<usize>],
    from: usize,
    reached: &mut Vec<usize>,
    seen: &mut [usize],
    wanted: usize,
) -> Result<bool, AllocError>
    requires method { from < length calls.now }
    ensures within { OnOk result ((start : ℕ)
        → AreReached (adjacency calls.now) start reached.old.items
        → Reaches (adjacency calls.now) start from
        → AreReached (adjacency calls.now) start reached.new.items) }
    ensures found { result ≡ Ok true → (start : ℕ) → Reaches (adjacency calls.now) start from
        → Reaches (adjacency calls.now) start wanted }
{
    let called = called_by(calls, from);
    for k in 0..called.len() {
        let n = called[k];
        if n == wanted {
            return Ok(true);
        }
        add(reached, seen, n)?;
    }
    Ok(false)
}

/// Goes on from the method at this place among those that are reached, if there is one; whether it calls the one that is looked for.
fn follow(
    calls: &[Vec<usize>],
    at: usize,
    reached: &mut Vec<usize>,
    seen: &mut [usize],
    wanted: usize,
) -> Result<bool, AllocError>
    ensures within { OnOk result ((start : ℕ)
        → AreReached (adjacency calls.now) start reached.old.items
        → AreReached (adjacency calls.now) start reached.new.items) }
    ensures found { result ≡ Ok true → (start : ℕ)
        → AreReached (adjacency calls.now) start reached.old.items
        → Reaches (adjacency calls.now) start wanted }
{
    if at >= reached.len() || reached[at] >= calls.len() {
        return Ok(false);
    }
    let from = reached[at];
    let found = add_called(calls, from, reached, seen, wanted)?;
    Ok(found)
}

/// Whether a method is reached from another, by a search in breadth.
fn comes_back(
    alloc: Global,
    calls: &[Vec<usize>],
    from: usize,
    wanted: usize,
) -> Result<bool, AllocError>
    ensures { result ≡ Ok true → Reaches (adjacency calls.now) from wanted }
{
    if from == wanted {
        return Ok(true);
    }
    let mut seen = vec![in alloc; 0usize; calls.len()]?;
    let mut reached = Vec::new(alloc);
    reached.push(from)?;
    for at in 0..calls.len() {
        let found = follow(calls, at, &mut reached, &mut seen, wanted)?;
        if found {
            return Ok(true);
        }
    }
    Ok(false)
}

/// The first call that is recursive by the components that a search found, if it is; else the one that is known to be.
fn first_recursive(
    alloc: Global,
    calls: &[Vec<usize>],
    components: &[usize],
    known: CallPlace,
) -> Result<CallPlace, AllocError>
    requires within { AreWithin (adjacency calls.now) }
    requires known { IsRecursive (adjacency calls.now) known.caller known.index }
    ensures { IfOk result (λ p. IsRecursive (adjacency calls.now) p.caller p.index) }
{
    for caller in 0..calls.len() {
        let own = components.get(caller);
        let called = called_by(calls, caller);
        if let Some(index) = called.iter().position(|j| components.get(*j) == own)
            && comes_back(alloc, calls, called[index], caller)?
        {
            return Ok(CallPlace { caller, index });
        }
    }
    Ok(known)
}

//! A search in depth along calls. What it finds is a hint: whoever uses it proves what it needs of it. So no clause says that an order or a
//! component is right; the clauses say what each call does to the lists.

ghost use Rattle.std.specs.Prelude.{◌≡◌, ◌+◌, ◌++◌, ◌^◌, ◌-◌, ℕ, [], ◌∷◌, false, length, vec_len, min, replicate, set, take, slice_index, IfOk, OnOk, Ok};

use std::alloc::{AllocError, Global};

/// What a search in depth finds: the methods in an order in which each comes behind those that it calls, as far as there is one; and for each
/// method the number of its component, which are those that call one another.
#[derive(Drop)]
pub(crate) struct Found {
    /// The methods, in the order in which the search leaves them.
    pub(crate) order: Vec<usize>,
    /// For each method, the number of its component.
    pub(crate) components: Vec<usize>,
}

/// Where a search stands in a method.
#[derive(Clone, Copy)]
struct Stop {
    method: usize,
    /// How many of its calls were followed.
    followed: usize,
}

/// A search under way. Numbers are given from 1 on, in the order in which methods are come to; 0 stands for none.
#[derive(Drop)]
struct Walk {
    numbers: Vec<usize>,
    /// For each method, the least number that is known to be reached from it among methods whose component isn't known yet.
    least: Vec<usize>,
    /// The methods whose component isn't known yet, in the order in which they were come to.
    pending: Vec<usize>,
    stops: Vec<Stop>,
    given: usize,
    found: Found,
}

/// The number at a place, 0 behind the end.
fn value_at(values: &[usize], i: usize) -> usize
    ensures { result ≡ slice_index values.now i }
{
    values.get(i).copied().unwrap_or(0)
}

/// Puts a number at a place, if there is one.
#[tactic(auto, using(std::proofs::lemmas::List::set_past))]
fn set_at(values: &mut [usize], i: usize, value: usize)
    ensures { values.new ≡ set values.old i value }
{
    if i < values.len() {
        values[i] = value;
    }
}

impl Walk {
    /// A search that has come to no method.
    fn new(alloc: Global, count: usize) -> Result<Walk, AllocError>
        ensures numbers { IfOk result (λ w. w.numbers.items ≡ replicate count 0) }
        ensures least { IfOk result (λ w. w.least.items ≡ replicate count 0) }
        ensures components { IfOk result (λ w. w.found.components.items ≡ replicate count 0) }
        ensures nowhere { IfOk result (λ w. (w.pending.items ≡ []) × (w.stops.items ≡ [])) }
        ensures none { IfOk result (λ w. (w.found.order.items ≡ []) × (w.given ≡ 0)) }
    {
        Ok(Walk {
            numbers: vec![in alloc; 0usize; count]?,
            least: vec![in alloc; 0usize; count]?,
            pending: Vec::new(alloc),
            stops: Vec::new(alloc),
            given: 0,
            found: Found {
                order: Vec::new(alloc),
                components: vec![in alloc; 0usize; count]?,
            },
        })
    }

    /// Comes to a method for the first time.
    fn enter(&mut self, method: usize) -> Result<(), AllocError>
        ensures given { self.new.given ≡ min (self.old.given + 1) (2 ^ 64 - 1) }
        ensures numbers { self.new.numbers.items
            ≡ set self.old.numbers.items method self.new.given }
        ensures least { self.new.least.items ≡ set self.old.least.items method self.new.given }
        ensures pending { OnOk result
            (self.new.pending.items ≡ self.old.pending.items ++ method ∷ []) }
        ensures stops { OnOk result (self.new.stops.items
            ≡ self.old.stops.items ++ record { method = method; followed = 0 } ∷ []) }
        ensures found { self.new.found ≡ self.old.found }
    {
        self.given = self.given.saturating_add(1);
        set_at(&mut self.numbers, method, self.given);
        set_at(&mut self.least, method, self.given);
        self.pending.push(method)?;
        self.stops.push(Stop {
            method,
            followed: 0,
        })?;
        Ok(())
    }

    /// Notes that a method reaches another one of a pending component.
    fn lower(&mut self, method: usize, number: usize)
        ensures least { self.new.least.items ≡ set self.old.least.items method
            (min (slice_index self.old.least.items method) number) }
        ensures same { (self.new.numbers ≡ self.old.numbers)
            × (self.new.pending ≡ self.old.pending) × (self.new.stops ≡ self.old.stops)
            × (self.new.given ≡ self.old.given) × (self.new.found ≡ self.old.found) }
    {
        let known = value_at(&self.least, method);
        set_at(&mut self.least, method, known.min(number));
    }

    /// Leaves a method: those that were come to since are its component, if none of them reaches an earlier one.
    fn leave(&mut self, method: usize) -> Result<(), AllocError>
        ensures order { OnOk result
            (self.new.found.order.items ≡ self.old.found.order.items ++ method ∷ []) }
        ensures same { (self.new.numbers ≡ self.old.numbers) × (self.new.least ≡ self.old.least)
            × (self.new.stops ≡ self.old.stops) × (self.new.given ≡ self.old.given) }
        ensures pending { (n : ℕ)
            × (self.new.pending.items ≡ take n self.old.pending.items) }
        ensures components { vec_len self.new.found.components
            ≡ vec_len self.old.found.components }
    {
        self.found.order.push(method)?;
        let own = value_at(&self.numbers, method);
        if value_at(&self.least, method) != own {
            return Ok(());
        }
        while let Some(member) = self.pending.pop() {
            set_at(&mut self.found.components, member, own);
            if member == method {
                break;
            }
        }
        Ok(())
    }

    /// Follows a call to a method.
    fn follow(&mut self, from: usize, to: usize) -> Result<(), AllocError>
        ensures numbers { vec_len self.new.numbers ≡ vec_len self.old.numbers }
        ensures least { vec_len self.new.least ≡ vec_len self.old.least }
        ensures found { self.new.found ≡ self.old.found }
    {
        let number = value_at(&self.numbers, to);
        if number == 0 {
            return self.enter(to);
        }
        if value_at(&self.found.components, to) == 0 {
            self.lower(from, number);
        }
        Ok(())
    }

    /// Takes one step: follows the next call of the method where it stands, or leaves it. False where it stands nowhere.
    fn step(&mut self, calls: &[Vec<usize>]) -> Result<bool, AllocError>
        ensures over { result ≡ Ok false → self.old.stops.items ≡ [] }
        ensures numbers { vec_len self.new.numbers ≡ vec_len self.old.numbers }
        ensures least { vec_len self.new.least ≡ vec_len self.old.least }
        ensures components { vec_len self.new.found.components
            ≡ vec_len self.old.found.components }
    {
        let Some(mut stop) = self.stops.pop() else {
            return Ok(false);
        };
        let next = calls
            .get(stop.method)
            .and_then(|called| called.get(stop.followed).copied());
        match next {
            Some(to) => {
                stop.followed = stop.followed.saturating_add(1);
                self.stops.push(stop)?;
                self.follow(stop.method, to)?;
            }
            None => {
                self.leave(stop.method)?;
                if let Some(caller) = self.stops.last() {
                    let reached = value_at(&self.least, stop.method);
                    let caller = caller.method;
                    if value_at(&self.found.components, stop.method) == 0 {
                        self.lower(caller, reached);
                    }
                }
            }
        }
        Ok(true)
    }
}

/// Searches from each method in turn.
pub(crate) fn search(alloc: Global, calls: &[Vec<usize>]) -> Result<Found, AllocError>
    ensures { IfOk result (λ f. vec_len f.components ≡ length calls.now) }
{
    let mut walk = Walk::new(alloc, calls.len())?;
    for method in 0..calls.len() {
        if value_at(&walk.numbers, method) == 0 {
            walk.enter(method)?;
            for _ in 0..u64::MAX {
                if !walk.step(calls)? {
                    break;
                }
            }
        }
    }
    Ok(walk.found)
}

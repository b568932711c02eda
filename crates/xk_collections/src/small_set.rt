//! A set of which mostly few numbers are members at once.

ghost use Rattle.std.specs.Prelude.{◌≡◌, ◌+◌, ◌<◌, ◌≤◌, ◌==◌, [], ◌++◌, length, true, false, IfOk, OnErr};
ghost use Rattle.std.specs.Vec.{vec_capacity, vec_len};
ghost use Rattle.xk_collections.specs.NumberSets.{AreBelow, IsRising, with_member};

use std::alloc::{AllocError, Global};
use std::marker::Model;

/// A set of numbers below its room, kept as the rising list of its members. What it takes to put one in, or to take one out, grows with those
/// above it; to put one in above all others, to take all out, or to tell whether there are any, is one step. No call but `with_room` and `copy` takes memory.
#[derive(Drop)]
pub struct FewNumbers {
    numbers: Vec<u32>,
}

impl Model for FewNumbers {
    ghost use Rattle.std.specs.Vec.{vec_capacity};
    ghost use Rattle.xk_collections.specs.NumberSets.{SetValue, AreMembers};

    ghost Value = { SetValue };

    ghost view = { λ s. record { members = s.numbers.items; room = vec_capacity s.numbers } };

    ghost invariant = { λ s. AreMembers s.numbers.items (vec_capacity s.numbers) };
}

impl FewNumbers {
    /// A set with nobody in it, and room for the numbers below this one. Err where memory was refused.
    pub fn with_room(alloc: Global, room: u32) -> Result<FewNumbers, AllocError>
        ensures empty { IfOk result (λ s. s.members ≡ []) }
        ensures room { IfOk result (λ s. room ≤ s.room) }
    {
        Ok(FewNumbers {
            numbers: Vec::with_capacity(alloc, room as usize)?,
        })
    }

    /// The same set, with as much room, from the memory that this one is in.
    pub fn copy(&self) -> Result<FewNumbers, AllocError>
        ensures same { IfOk result (λ s. s ≡ self.now) }
        ensures only_where_it_grows { OnErr result (0 < self.now.room) }
    {
        let mut numbers = Vec::with_capacity(*self.numbers.allocator(), self.numbers.capacity())?;
        append(&mut numbers, &self.numbers);
        Ok(FewNumbers { numbers })
    }

    /// Puts a number in. One above all others goes behind them at once.
    pub fn insert(&mut self, number: u32)
        requires { number < self.old.room }
        ensures members { self.new.members ≡ with_member number true self.old.members }
        ensures room { self.new.room ≡ self.old.room }
    {
        if self.is_below(number) {
            self.numbers.push_reserved(number);
        } else {
            self.insert_among(number);
        }
    }

    /// Whether all members are below this number.
    fn is_below(&self, number: u32) -> bool
        ensures { result ≡ true → AreBelow number self.now.members }
    {
        match self.numbers.last() {
            Some(last) => *last < number,
            None => true,
        }
    }

    /// Puts a number in among others.
    fn insert_among(&mut self, number: u32)
        requires { number < self.old.room }
        ensures members { self.new.members ≡ with_member number true self.old.members }
        ensures room { self.new.room ≡ self.old.room }
    {
        if let Err(place) = self.numbers.binary_search(&number) {
            if self.numbers.insert(place, number).is_err() {
                unreachable!()
            }
        }
    }

    /// Takes a number out.
    pub fn remove(&mut self, number: u32)
        ensures members { self.new.members ≡ with_member number false self.old.members }
        ensures room { self.new.room ≡ self.old.room }
    {
        if let Ok(place) = self.numbers.binary_search(&number) {
            self.numbers.remove(place);
        }
    }

    /// Takes all out.
    pub fn clear(&mut self)
        ensures members { self.new.members ≡ [] }
        ensures room { self.new.room ≡ self.old.room }
    {
        self.numbers.clear();
    }

    /// Whether nobody is in it.
    pub fn is_empty(&self) -> bool
        ensures { result ≡ (length self.now.members == 0) }
    {
        self.numbers.is_empty()
    }

    /// Lists the members, rising, in place of what the list held.
    pub fn list(&self, list: &mut Vec<u32>)
        requires { length self.now.members ≤ vec_capacity list.old }
        ensures items { list.new.items ≡ self.now.members }
        ensures rising { IsRising list.new.items }
        ensures room { vec_capacity list.old ≤ vec_capacity list.new }
    {
        list.clear();
        append(list, &self.numbers);
    }
}

/// Puts these behind what the list has.
fn append(list: &mut Vec<u32>, numbers: &[u32])
    requires { vec_len list.old + length numbers.now ≤ vec_capacity list.old }
    ensures items { list.new.items ≡ list.old.items ++ numbers.now }
    ensures capacity { vec_capacity list.new ≡ vec_capacity list.old }
{
    for number in numbers {
        list.push_reserved(*number);
    }
}

//! The lists.

ghost use Rattle.std.specs.Prelude.{◌≡◌, ℕ, ◌+◌, ◌<◌, ◌≤◌, [], ◌∷◌, ◌++◌, All, length, replicate, slice_set, IfOk};
ghost use Rattle.std.specs.Vec.{vec_capacity};
ghost use Rattle.xk_collections.specs.Chains.{chain, AreApart, IsChain};
ghost use Rattle.xk_collections.specs.WaitingLists.{left, taken, times, times_in_all, waiters};

use std::alloc::{AllocError, Global};
use std::marker::Model;

/// Lists of activities, one for each clock; each activity stands in one of them at most. Contracts see them as lists, the latest first.
/// No call but `with_room` takes memory.
#[derive(Drop)]
pub struct WaitingLists {
    /// The first of each clock's list.
    first: Vec<Option<u32>>,
    /// Who follows each activity in its list. Of one who stands in no list it says nothing. Where there is no clock it is empty.
    next: Vec<Option<u32>>,
    /// How many activities there can be.
    room: u32,
}

impl Model for WaitingLists {
    ghost use Rattle.xk_collections.specs.Chains.{lists_of, AreLaid, HasPlaces};
    ghost use Rattle.xk_collections.specs.WaitingLists.{WaitingValue};

    ghost Value = { WaitingValue };

    ghost view = { λ w. record {
      lists = lists_of w.first.items w.next.items;
      room = w.room;
    } };

    ghost invariant = { λ w. AreLaid w.first.items w.next.items (lists_of w.first.items w.next.items)
        × HasPlaces w.first.items w.next.items w.room };
}

impl WaitingLists {
    /// Nobody waits for any of so many clocks, and so many activities can. Err where memory was refused.
    pub fn with_room(alloc: Global, clocks: u32, acts: u32) -> Result<WaitingLists, AllocError>
        ensures lists { IfOk result (λ w. w.lists ≡ replicate clocks []) }
        ensures room { IfOk result (λ w. w.room ≡ acts) }
    {
        let first = nobody(alloc, clocks)?;
        let next = nobody(alloc, places_for(clocks, acts))?;
        Ok(WaitingLists {
            first,
            next,
            room: acts,
        })
    }

    /// Puts an activity that stands in no list before all others that wait for this clock.
    pub fn put(&mut self, clock: u32, act: u32)
        requires clock { clock < length self.old.lists }
        requires act { act < self.old.room }
        requires nowhere { times_in_all act self.old.lists ≡ 0 }
        ensures lists { self.new.lists
            ≡ slice_set self.old.lists clock (act ∷ waiters self.old.lists clock) }
        ensures room { self.new.room ≡ self.old.room }
    {
        self.next[act as usize] = self.first[clock as usize];
        self.first[clock as usize] = Some(act);
    }

    /// Takes out all who wait for one of these clocks, and lists them in place of what the list held.
    pub fn take(&mut self, clocks: &[u32], shown: &mut Vec<u32>)
        requires clocks { All (λ clock. clock < length self.old.lists) clocks.now }
        requires capacity { self.old.room ≤ vec_capacity shown.old }
        ensures shown { shown.new.items ≡ taken self.old.lists clocks.now }
        ensures lists { self.new.lists ≡ left self.old.lists clocks.now }
        ensures room { self.new.room ≡ self.old.room }
        // Nobody stands twice anywhere.
        ensures once { (act : ℕ)
            → times act shown.new.items + times_in_all act self.new.lists ≤ 1 }
        ensures within { (act : ℕ) → 0 < times act shown.new.items → act < self.old.room }
        ensures capacity { vec_capacity shown.old ≤ vec_capacity shown.new }
    {
        shown.clear();
        // Nobody stands in two lists, so that all who wait fit into the room.
        let _apart = &self.next;
        take_each(self, clocks, shown);
    }

    /// Takes out all who wait for this clock, and lists them behind what the list has.
    fn take_one(&mut self, clock: u32, shown: &mut Vec<u32>)
        requires clock { clock < length self.old.lists }
        requires capacity { length shown.old.items + length (waiters self.old.lists clock)
            ≤ vec_capacity shown.old }
        ensures shown { shown.new.items ≡ shown.old.items ++ waiters self.old.lists clock }
        ensures lists { self.new.lists ≡ slice_set self.old.lists clock [] }
        ensures room { self.new.room ≡ self.old.room }
        ensures capacity { vec_capacity shown.old ≤ vec_capacity shown.new }
    {
        let start = self.first[clock as usize];
        self.first[clock as usize] = None;
        list_from(&self.next, start, shown);
    }
}

/// Takes out all who wait for one of these clocks, and lists them behind what the list has.
fn take_each(lists: &mut WaitingLists, clocks: &[u32], shown: &mut Vec<u32>)
    requires clocks { All (λ clock. clock < length lists.old.lists) clocks.now }
    requires apart { AreApart lists.old.room shown.old.items lists.old.lists }
    requires capacity { lists.old.room ≤ vec_capacity shown.old }
    ensures shown { shown.new.items ≡ shown.old.items ++ taken lists.old.lists clocks.now }
    ensures lists { lists.new.lists ≡ left lists.old.lists clocks.now }
    ensures room { lists.new.room ≡ lists.old.room }
    ensures apart { AreApart lists.old.room shown.new.items lists.new.lists }
    ensures capacity { vec_capacity shown.old ≤ vec_capacity shown.new }
{
    for clock in clocks {
        lists.take_one(*clock, shown);
    }
}

/// A place for each activity; none where there is no clock that anybody could wait for.
fn places_for(clocks: u32, acts: u32) -> u32
    ensures { 0 < clocks → result ≡ acts }
{
    if clocks == 0 { 0 } else { acts }
}

/// So many places, with nobody at any.
fn nobody(alloc: Global, n: u32) -> Result<Vec<Option<u32>>, AllocError>
    ensures { IfOk result (λ row. row.items ≡ replicate n None) }
{
    vec![in alloc; None; n as usize]
}

/// Lists a whole chain behind what the list has.
fn list_from(next: &[Option<u32>], start: Option<u32>, shown: &mut Vec<u32>)
    requires chain { IsChain next.now start (chain next.now (length next.now) start) }
    requires capacity { length shown.old.items + length (chain next.now (length next.now) start)
        ≤ vec_capacity shown.old }
    ensures shown { shown.new.items
        ≡ shown.old.items ++ chain next.now (length next.now) start }
    ensures capacity { vec_capacity shown.old ≤ vec_capacity shown.new }
{
    let mut at = start;
    while let Some(act) = at {
        if shown.push(act).is_err() {
            unreachable!()
        }
        at = next[act as usize];
    }
}

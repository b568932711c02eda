//! The set.

ghost use Rattle.std.specs.Prelude.{◌≡◌, ◌+◌, ◌-◌, ◌*◌, ◌/◌, ◌<◌, ◌≤◌, ◌==◌, [], length, true, false, slice_get, IfOk, OnOk, OnErr};
ghost use Rattle.std.specs.Vec.{vec_capacity};
ghost use Rattle.xk_collections.specs.NumberSets.{IsRising, with_member, place_above};

use crate::bit_search::{last_member, next_member};
use crate::bit_words::{clear, fill, make_room, next_in_word, put};
use std::alloc::{AllocError, Global};
use std::marker::Model;

/// A set of numbers below its room, which is 262,144 at most: 64 words of 64 words of 64 bits. Contracts see it as the rising list of its
/// members. Each call but `with_room` and `reserve` takes a few steps, however many members there are, and no memory.
#[derive(Drop)]
pub struct NumberSet {
    low: Vec<u64>,
    /// Which words of `low` have members.
    mid: Vec<u64>,
    /// Which words of `mid` have members.
    top: Vec<u64>,
}

impl Model for NumberSet {
    ghost use Rattle.std.specs.Prelude.{length, ◌*◌};
    ghost use Rattle.xk_collections.specs.NumberSets.{SetValue};
    ghost use Rattle.xk_collections.specs.BitWords.{members_of, IsSummed};

    ghost Value = { SetValue };

    ghost view = { λ s. record {
      members = members_of s.low.items;
      room = length s.low.items * 64;
    } };

    ghost invariant = { λ s. IsSummed s.low.items s.mid.items s.top.items };
}

impl NumberSet {
    /// A set with nobody in it, and room for the numbers below this one. Err where memory was refused.
    pub fn with_room(alloc: Global, room: u32) -> Result<NumberSet, AllocError>
        requires { room ≤ 262144 }
        ensures empty { IfOk result (λ s. s.members ≡ []) }
        ensures room { IfOk result (λ s. room ≤ s.room) }
    {
        let mut set = NumberSet {
            low: Vec::new(alloc),
            mid: Vec::new(alloc),
            top: vec![in alloc; 0; 1]?,
        };
        set.reserve(room)?;
        Ok(set)
    }

    /// Makes room for the numbers below this one. Err where memory was refused.
    pub fn reserve(&mut self, room: u32) -> Result<(), AllocError>
        requires { room ≤ 262144 }
        ensures members { self.new.members ≡ self.old.members }
        ensures kept { self.old.room ≤ self.new.room }
        ensures room { OnOk result (room ≤ self.new.room) }
        ensures refused { OnErr result (self.new ≡ self.old) }
        ensures only_where_it_grows { OnErr result (self.old.room < room) }
    {
        let words = (room as usize).div_ceil(64);
        let sums = words.div_ceil(64);
        make_room(&mut self.low, words)?;
        make_room(&mut self.mid, sums)?;
        fill(&mut self.low, words);
        fill(&mut self.mid, sums);
        Ok(())
    }

    /// Puts a number in.
    #[inline(always)]
    pub fn insert(&mut self, number: u32)
        requires { number < self.old.room }
        ensures members { self.new.members ≡ with_member number true self.old.members }
        ensures room { self.new.room ≡ self.old.room }
    {
        let i = number as usize;
        put(&mut self.low, i);
        put(&mut self.mid, i / 64);
        put(&mut self.top, i / 64 / 64);
    }

    /// Takes a number out, if it is in.
    #[inline(always)]
    pub fn remove(&mut self, number: u32)
        requires { number < self.old.room }
        ensures members { self.new.members ≡ with_member number false self.old.members }
        ensures room { self.new.room ≡ self.old.room }
    {
        let i = number as usize;
        if !clear(&mut self.low, i) {
            return;
        }
        if !clear(&mut self.mid, i / 64) {
            return;
        }
        clear(&mut self.top, i / 64 / 64);
    }

    /// Whether nobody is in it.
    #[inline(always)]
    pub fn is_empty(&self) -> bool
        ensures { result ≡ (length self.now.members == 0) }
    {
        next_in_word(&self.top, 0).is_none()
    }

    /// The least member.
    #[inline(always)]
    pub fn first(&self) -> Option<u32>
        ensures first { result ≡ slice_get self.now.members 0 }
        // Members are told rising.
        ensures rising { IsRising self.now.members }
        ensures few { length self.now.members ≤ 262144 }
    {
        match next_member(&self.low, &self.mid, &self.top, 0) {
            Some(i) => Some(i as u32),
            None => None,
        }
    }

    /// The least member above a number.
    #[inline(always)]
    pub fn above(&self, number: u32) -> Option<u32>
        ensures { result ≡ slice_get self.now.members (place_above number self.now.members) }
    {
        match next_member(&self.low, &self.mid, &self.top, number as usize + 1) {
            Some(i) => Some(i as u32),
            None => None,
        }
    }

    /// The greatest member.
    #[inline(always)]
    pub fn last(&self) -> Option<u32>
        ensures { result ≡ slice_get self.now.members (length self.now.members - 1) }
    {
        match last_member(&self.low, &self.mid, &self.top) {
            Some(i) => Some(i as u32),
            None => None,
        }
    }

    /// Lists the members, rising, in place of what the list held.
    pub fn list(&self, list: &mut Vec<u32>)
        requires { length self.now.members ≤ vec_capacity list.old }
        ensures items { list.new.items ≡ self.now.members }
        ensures rising { IsRising list.new.items }
        ensures few { length list.new.items ≤ 262144 }
        ensures room { vec_capacity list.old ≤ vec_capacity list.new }
    {
        list.clear();
        let mut next = self.first();
        while let Some(number) = next {
            if list.push(number).is_err() {
                unreachable!()
            }
            next = self.above(number);
        }
    }
}

//! All clocks.

ghost use Rattle.std.specs.Prelude.{◌≡◌, ◌+◌, ◌<◌, ◌≤◌, ◌^◌, false, [], ◌∷◌, ◌++◌, length, IfOk, OnErr};
ghost use Rattle.xk_clocks.specs.Table.{new_count, is_ready_count, count_settled, count_registered, count_resumed, count_dropped, one_if, count_at, changed_at};

use crate::count::Count;
use std::alloc::{AllocError, Global};
use std::marker::Model;
use xk_types::ClockId;

/// The clocks of a running program, by their numbers. Of each it is known how often it has advanced, how many activities are
/// registered on it, and how many of these are *pending*: open or ahead, so that they keep it back. Who they are isn't known
/// here.
///
/// X10 Language Specification 2.4, chapter Clocks: a clock advances when every activity registered on it has resumed it. It does
/// so within the call after which that holds, and then all who are registered on it are ahead: pending again. So the pass of an
/// activity, from ahead to open, is no call.
///
/// Room for clocks is taken when the table is opened or copied. Nothing else takes memory.
#[derive(Drop)]
pub struct ClockTable {
    room: u32,
    clocks: Vec<Count>,
}

impl Model for ClockTable {
    ghost use Rattle.std.specs.Prelude.{◌≤◌, All, vec_len, vec_capacity};
    ghost use Rattle.xk_clocks.specs.Table.{TableValue};

    ghost Value = { TableValue };

    ghost view = { λ t. record { room = t.room; clocks = t.clocks.items } };

    ghost invariant = { λ t. (vec_len t.clocks ≤ t.room) × (t.room ≤ vec_capacity t.clocks)
        × All (λ c. c.pending ≤ c.registered) t.clocks.items };
}

impl ClockTable {
    /// No clock, and room for this many.
    pub fn open(alloc: Global, clocks: u32) -> Result<ClockTable, AllocError>
        ensures { IfOk result (λ table. table ≡ record { room = clocks; clocks = [] }) }
    {
        Ok(ClockTable {
            room: clocks,
            clocks: Vec::with_capacity(alloc, clocks as usize)?,
        })
    }

    /// The same clocks, with as much room, from the memory that these are in.
    pub fn copy(&self) -> Result<ClockTable, AllocError>
        ensures same { IfOk result (λ table. table ≡ self.now) }
        ensures only_where_it_grows { OnErr result (0 < self.now.room) }
    {
        let mut clocks = Vec::with_capacity(*self.clocks.allocator(), self.room as usize)?;
        for clock in &self.clocks {
            clocks.push_reserved(*clock);
        }
        Ok(ClockTable {
            room: self.room,
            clocks,
        })
    }

    /// A new clock, which takes the next number. Its maker is registered on it, and open.
    pub fn make(&mut self) -> ClockId
        requires { length self.old.clocks < self.old.room }
        ensures number { result ≡ length self.old.clocks }
        ensures made { self.new ≡ record self.old {
          clocks = self.old.clocks ++ new_count ∷ [];
        } }
    {
        let number = ClockId(self.clocks.len() as u32);
        self.clocks.push_reserved(Count::new());
        number
    }

    /// One more activity is registered on the clock, pending or not. Somebody has a registration to hand on, and where it is
    /// a signalled one, somebody else still keeps the clock back: so the clock doesn't advance.
    pub fn register(&mut self, clock: ClockId, pending: bool)
        requires exists { clock < length self.old.clocks }
        requires handed_on { 0 < (count_at self.old.clocks clock).registered }
        requires kept_back { pending ≡ false → 0 < (count_at self.old.clocks clock).pending }
        requires fits { (count_at self.old.clocks clock).registered + 1 < 2 ^ 32 }
        ensures registered { self.new ≡ changed_at self.old clock (count_registered pending) }
    {
        self.clocks[clock.0 as usize].register(pending);
    }

    /// An activity that was open on the clock has resumed it, and so is pending no more. The clock advances where nobody is.
    /// Whether it did.
    pub fn resume(&mut self, clock: ClockId) -> bool
        requires exists { clock < length self.old.clocks }
        requires pending { 0 < (count_at self.old.clocks clock).pending }
        requires phase { (count_at self.old.clocks clock).phase + 1 < 2 ^ 64 }
        ensures settled { self.new
            ≡ changed_at self.old clock (λ c. count_settled (count_resumed c)) }
        ensures advanced { result
            ≡ is_ready_count (count_resumed (count_at self.old.clocks clock)) }
    {
        self.clocks[clock.0 as usize].resume()
    }

    /// A registration on the clock ends, which was pending or not. The clock advances where others are registered and none of
    /// them is pending. Whether it did.
    pub fn drop(&mut self, clock: ClockId, pending: bool) -> bool
        requires exists { clock < length self.old.clocks }
        requires registered { 0 < (count_at self.old.clocks clock).registered }
        requires pending { one_if pending ≤ (count_at self.old.clocks clock).pending }
        requires signalled { pending ≡ false
            → (count_at self.old.clocks clock).pending
            < (count_at self.old.clocks clock).registered }
        requires phase { (count_at self.old.clocks clock).phase + 1 < 2 ^ 64 }
        ensures settled { self.new
            ≡ changed_at self.old clock (λ c. count_settled (count_dropped pending c)) }
        ensures advanced { result
            ≡ is_ready_count (count_dropped pending (count_at self.old.clocks clock)) }
    {
        self.clocks[clock.0 as usize].drop(pending)
    }

    /// How often the clock has advanced.
    pub fn phase(&self, clock: ClockId) -> u64
        requires { clock < length self.now.clocks }
        ensures { result ≡ (count_at self.now.clocks clock).phase }
    {
        self.clocks[clock.0 as usize].phase()
    }

    /// How many registrations keep the clock back.
    pub fn pending(&self, clock: ClockId) -> u32
        requires { clock < length self.now.clocks }
        ensures { result ≡ (count_at self.now.clocks clock).pending }
    {
        self.clocks[clock.0 as usize].pending()
    }

    /// How many activities are registered on the clock.
    pub fn registered(&self, clock: ClockId) -> u32
        requires { clock < length self.now.clocks }
        ensures { result ≡ (count_at self.now.clocks clock).registered }
    {
        self.clocks[clock.0 as usize].registered()
    }
}

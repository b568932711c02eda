//! Where all activities stand on all clocks.

ghost use Rattle.std.specs.Prelude.{◌≡◌, ℕ, ◌+◌, ◌<◌, ◌≤◌, ◌==◌, ◌^◌, Bool, true, false, not, Some, is_some, [], ◌∷◌, ◌++◌, length, map, option_map, slice_get, slice_index_or, vec_capacity, All, IfOk, IfSome, OnOk};
ghost use Rattle.std.specs.List.{list_any, list_all};
ghost use Rattle.xk_types.specs.World.{standing_of};
ghost use Rattle.xk_types.specs.Step.{is_signalled, is_given, resumed, passed, dropped, none, all, settled_clock, moved, joined, new_clock};
ghost use Rattle.xk_registrations.specs.View.{held};
ghost use Rattle.xk_registrations.specs.RegistrationChanges.{IsGiven};
ghost use Rattle.xk_registrations.specs.Standings.{told_of, rooms_of, change_on, is_held_by, advanced_in, AreHandedOn, HasRoomToMake};

use crate::affected_clocks::Which;
use crate::clocks::Clocks;
use crate::each_registration::{find_on, find_signalled};
use crate::registrations::Registrations;
use std::alloc::{AllocError, Global};
use std::marker::Model;
use xk_types::{ClockId, Standing, Value};

/// Where the activities of a running program stand on its clocks: each clock in numbers, and with each activity what it is
/// registered on. It tells of the clocks of a world, with a standing for each activity. What a call costs goes by what the activity
/// is registered on that it concerns, not by how many clocks and activities there are.
///
/// Room for clocks and for what activities are registered on is taken when the standings are opened or copied, and when an activity
/// is started. Nothing else takes memory.
#[derive(Drop)]
pub struct Standings {
    clocks: Clocks,
    held: Vec<Registrations>,
}

impl Model for Standings {
    ghost use Rattle.std.specs.Prelude.{vec_capacity};
    ghost use Rattle.xk_registrations.specs.View.{IsKept};
    ghost use Rattle.xk_registrations.specs.Standings.{StandingsValue, lists, rooms};

    ghost Value = { StandingsValue };

    ghost view = { λ s. record {
      numbers = s.clocks;
      held = lists s.held.items;
      places = rooms s.held.items;
      room = vec_capacity s.held;
    } };

    ghost invariant = { λ s. IsKept s.clocks.lasts (lists s.held.items) s.clocks.table.clocks };
}

impl Standings {
    /// One activity, and no clock. Room for this many clocks, and at least this many places for what the activity is
    /// registered on.
    pub fn open(alloc: Global, clocks: u32, places: usize) -> Result<Standings, AllocError>
        requires { clocks ≤ 262144 }
        ensures clocks { IfOk result (λ s. told_of s ≡ []) }
        ensures activities { IfOk result (λ s. length s.held ≡ 1) }
        ensures clock_room { IfOk result (λ s. (rooms_of s).clocks ≡ clocks) }
        ensures places { IfOk result
            (λ s. places ≤ slice_index_or (rooms_of s).places 0 0) }
        ensures all_places { IfOk result (λ s. length (rooms_of s).places ≡ 1) }
    {
        let clocks = Clocks::open(alloc, clocks)?;
        let mut held = Vec::new(alloc);
        held.push(Registrations::open(alloc, places)?)?;
        Ok(Standings { clocks, held })
    }

    /// The same, with as much room, from the memory that these are in.
    pub fn copy(&self) -> Result<Standings, AllocError>
        ensures { IfOk result (λ s. s ≡ self.now) }
    {
        let mut held = Vec::with_capacity(*self.held.allocator(), self.held.capacity())?;
        for registrations in &self.held {
            held.push_reserved(registrations.copy()?);
        }
        let clocks = self.clocks.copy()?;
        Ok(Standings { clocks, held })
    }

    /// How many clocks there are.
    pub fn clock_count(&self) -> usize
        ensures { result ≡ length (told_of self.now) }
    {
        self.clocks.len()
    }

    /// How often the clock has advanced.
    pub fn phase(&self, clock: ClockId) -> u64
        requires { clock < length (told_of self.now) }
        ensures { option_map (λ c. c.phase) (slice_get (told_of self.now) clock) ≡ Some result }
    {
        self.clocks.phase(clock)
    }

    /// The number of the step in which the clock advanced last, 0 before.
    pub fn last(&self, clock: ClockId) -> u64
        requires { clock < length (told_of self.now) }
        ensures { option_map (λ c. c.last) (slice_get (told_of self.now) clock) ≡ Some result }
    {
        self.clocks.last(clock)
    }

    /// Where activity a stands on the clock.
    pub fn standing(&self, a: usize, clock: ClockId) -> Standing
        requires activity { a < length self.now.held }
        requires clock { clock < length (told_of self.now) }
        ensures { option_map (λ c. standing_of c a) (slice_get (told_of self.now) clock)
            ≡ Some result }
    {
        let registrations = &self.held[a];
        let phase = self.clocks.phase(clock);
        match find_on(registrations.as_slice(), clock) {
            Some(registration) => registration.standing(phase),
            None => Standing::Apart,
        }
    }

    /// A clock that holds activity a back: it is signalled on it. None where it is signalled on no clock.
    pub fn held_back_by(&self, a: usize) -> Option<ClockId>
        requires { a < length self.now.held }
        ensures held { IfSome result (λ k. is_held_by (told_of self.now) a k ≡ true) }
        ensures waits { is_some result
            ≡ list_any (λ c. is_signalled (standing_of c a)) (told_of self.now) }
    {
        let registrations = &self.held[a];
        match find_signalled(registrations.as_slice(), &self.clocks) {
            Some(registration) => Some(registration.clock()),
            None => None,
        }
    }

    /// Whether activity a is signalled on some clock.
    pub fn waits(&self, a: usize) -> bool
        requires { a < length self.now.held }
        ensures { result ≡ list_any (λ c. is_signalled (standing_of c a)) (told_of self.now) }
    {
        self.held_back_by(a).is_some()
    }

    /// Lists the clocks whose last advance was in the step of this number, rising, in place of what the list held. What it costs goes
    /// by their number, unless a clock has advanced in a later step.
    pub fn list_advanced(&self, step: u64, list: &mut Vec<u32>)
        requires { length (told_of self.now) ≤ vec_capacity list.old }
        ensures items { list.new.items ≡ advanced_in (told_of self.now) step }
        ensures room { vec_capacity list.old ≤ vec_capacity list.new }
    {
        self.clocks.list_advanced(step, list);
    }

    /// Whether no clock advanced in the step of this number.
    pub fn is_quiet(&self, step: u64) -> bool
        ensures { result ≡ list_all (λ c. not (c.last == step)) (told_of self.now) }
    {
        self.clocks.is_quiet(step)
    }

    /// A step that concerns no clock leaves all as they are: none is ready. The call does nothing; its contract is the law.
    pub fn rest(&self)
        ensures { (now a : ℕ)
            → map (settled_clock now) (moved a none (told_of self.now)) ≡ told_of self.now }
    {
        // Read for the invariant: no clock is left ready.
        let _clocks = &self.clocks;
    }

    /// In the step of this number, activity a resumes the clocks that the step concerns.
    pub fn resume(&mut self, a: usize, which: Which, now: u64)
        requires there { a < length self.old.held }
        requires phases { All (λ c. c.phase + 1 < 2 ^ 64) (told_of self.old) }
        ensures told { told_of self.new
            ≡ map (settled_clock now) (moved a (change_on which resumed) (told_of self.old)) }
        ensures activities { length self.new.held ≡ length self.old.held }
        ensures rooms { rooms_of self.new ≡ rooms_of self.old }
    {
        let registrations = &mut self.held[a];
        registrations.resume(which, &mut self.clocks, now);
    }

    /// In the step of this number, activity a drops the clocks that the step concerns.
    pub fn drop(&mut self, a: usize, which: Which, now: u64)
        requires there { a < length self.old.held }
        requires phases { All (λ c. c.phase + 1 < 2 ^ 64) (told_of self.old) }
        ensures told { told_of self.new
            ≡ map (settled_clock now) (moved a (change_on which dropped) (told_of self.old)) }
        ensures activities { length self.new.held ≡ length self.old.held }
        ensures rooms { rooms_of self.new ≡ rooms_of self.old }
    {
        let registrations = &mut self.held[a];
        registrations.drop(which, &mut self.clocks, now);
    }

    /// Activity a passes an `advance`.
    pub fn pass(&mut self, a: usize)
        requires there { a < length self.old.held }
        requires free { list_any (λ c. is_signalled (standing_of c a)) (told_of self.old) ≡ false }
        ensures told { (now : ℕ) → told_of self.new
            ≡ map (settled_clock now) (moved a (all passed) (told_of self.old)) }
        ensures activities { length self.new.held ≡ length self.old.held }
        ensures rooms { rooms_of self.new ≡ rooms_of self.old }
    {
        let registrations = &mut self.held[a];
        registrations.pass();
    }

    /// Activity a makes a clock, for which there is room.
    pub fn make(&mut self, a: usize) -> ClockId
        requires there { a < length self.old.held }
        requires room { HasRoomToMake (rooms_of self.old) (told_of self.old) a }
        ensures number { result ≡ length (told_of self.old) }
        ensures told { (now : ℕ) → told_of self.new ≡ map (settled_clock now)
            (told_of self.old ++ new_clock (length self.old.held) a ∷ []) }
        ensures activities { length self.new.held ≡ length self.old.held }
        ensures rooms { rooms_of self.new ≡ rooms_of self.old }
    {
        let registrations = &mut self.held[a];
        registrations.make(&mut self.clocks)
    }

    /// What an activity begins with that activity a starts with these values, and at least this many places for what it is
    /// registered on.
    pub fn child(
        &self,
        alloc: Global,
        a: usize,
        places: usize,
        values: &[Value],
    ) -> Result<Registrations, AllocError>
        requires { a < length self.now.held }
        ensures given { IfOk result
            (λ r. IsGiven (is_given values.now) (held self.now.held a) r.list) }
        ensures places { IfOk result (λ r. places ≤ r.room) }
    {
        let registrations = &self.held[a];
        registrations.inherit(alloc, places, values)
    }

    /// Room for one activity more than there are, at least.
    pub fn reserve(&mut self) -> Result<(), AllocError>
        ensures numbers { self.new.numbers ≡ self.old.numbers }
        ensures held { self.new.held ≡ self.old.held }
        ensures places { self.new.places ≡ self.old.places }
        ensures reserved { OnOk result (length self.new.held < self.new.room) }
    {
        self.held.try_reserve(1)
    }

    /// An activity begins with these registrations, which its starter has handed on.
    pub fn admit(&mut self, child: Registrations)
        requires room { length self.old.held < self.old.room }
        requires few { length self.old.held + 1 < 2 ^ 32 }
        requires handed_on { AreHandedOn self.old child.list }
        ensures told { (a : ℕ) (given : ℕ → Bool) (now : ℕ) → a < length self.old.held
            → IsGiven given (held self.old.held a) child.list
            → told_of self.new ≡ map (settled_clock now) (joined a given (told_of self.old)) }
        ensures activities { length self.new.held ≡ length self.old.held + 1 }
        ensures clock_room { (rooms_of self.new).clocks ≡ (rooms_of self.old).clocks }
        ensures places { (rooms_of self.new).places
            ≡ (rooms_of self.old).places ++ child.room ∷ [] }
    {
        child.begin(&mut self.clocks);
        self.held.push_reserved(child);
    }
}

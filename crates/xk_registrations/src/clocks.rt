//! All clocks.

ghost use Rattle.std.specs.Prelude.{◌≡◌, ℕ, ◌+◌, ◌<◌, ◌≤◌, ◌==◌, ◌^◌, not, [], ◌∷◌, length, slice_index_or, slice_set, vec_capacity, IfOk};
ghost use Rattle.std.specs.List.{list_all};
ghost use Rattle.xk_clocks.specs.Table.{count_at, is_ready_count};
ghost use Rattle.xk_registrations.specs.RegistrationChanges.{calls, noted_in, made_clocks, call_resume, call_drop, call_register, OwesResume, OwesDrop, OwesRegister, Allows};

use crate::last_advance::{copy_steps, list_places, put_or_take, turn_to};
use crate::registration::Registration;
use std::alloc::{AllocError, Global};
use std::marker::Model;
use xk_clocks::ClockTable;
use xk_collections::FewNumbers;
use xk_types::ClockId;

/// The clocks of a running program in numbers, and the number of the step in which each advanced last.
#[derive(Drop)]
pub struct Clocks {
    table: ClockTable,
    lasts: Vec<u64>,
    /// A number of a step behind which no clock has advanced, and the clocks whose last advance was in that step: so that they
    /// needn't be searched for.
    newest: u64,
    latest: FewNumbers,
}

impl Model for Clocks {
    ghost use Rattle.std.specs.Prelude.{vec_capacity};
    ghost use Rattle.xk_registrations.specs.RegistrationChanges.{ClocksValue, IsUpToDate};

    ghost Value = { ClocksValue };

    ghost view = { λ c. record { table = c.table; lasts = c.lasts.items } };

    ghost invariant = { λ c. IsUpToDate c.table c.lasts.items (vec_capacity c.lasts)
        c.newest c.latest };
}

impl Clocks {
    /// No clock, and room for this many.
    pub fn open(alloc: Global, clocks: u32) -> Result<Clocks, AllocError>
        requires { clocks ≤ 262144 }
        ensures { IfOk result
            (λ c. c ≡ record { table = record { room = clocks; clocks = [] }; lasts = [] }) }
    {
        let table = ClockTable::open(alloc, clocks)?;
        Ok(Clocks {
            table,
            lasts: Vec::with_capacity(alloc, clocks as usize)?,
            newest: 0,
            latest: FewNumbers::with_room(alloc, clocks)?,
        })
    }

    /// The same clocks, with as much room, from the memory that these are in.
    pub fn copy(&self) -> Result<Clocks, AllocError>
        ensures { IfOk result (λ c. c ≡ self.now) }
    {
        let table = self.table.copy()?;
        Ok(Clocks {
            table,
            lasts: copy_steps(&self.lasts)?,
            newest: self.newest,
            latest: self.latest.copy()?,
        })
    }

    /// How many clocks there are.
    pub fn len(&self) -> usize
        ensures { result ≡ length self.now.table.clocks }
    {
        self.lasts.len()
    }

    /// A new clock, which takes the next number. Its maker is registered on it, and open.
    pub fn make(&mut self) -> ClockId
        requires { length self.old.table.clocks < self.old.table.room }
        ensures number { result ≡ length self.old.table.clocks }
        ensures made { self.new ≡ made_clocks self.old }
    {
        let clock = self.table.make();
        self.lasts.push_reserved(0);
        put_or_take(&mut self.latest, clock.0, self.newest == 0);
        clock
    }

    /// An activity begins with the registration, which its starter has handed on. No clock advances.
    pub fn register(&mut self, registration: Registration)
        requires { Allows OwesRegister self.old.table.clocks registration }
        ensures { (now : ℕ)
            → self.new ≡ calls now call_register (registration ∷ []) self.old }
    {
        let clock = registration.clock();
        let pending = registration.is_pending(self.table.phase(clock));
        self.table.register(clock, pending);
    }

    /// How often the clock has advanced.
    pub fn phase(&self, clock: ClockId) -> u64
        requires { clock < length self.now.table.clocks }
        ensures { result ≡ (count_at self.now.table.clocks clock).phase }
    {
        self.table.phase(clock)
    }

    /// The number of the step in which the clock advanced last, 0 before.
    pub fn last(&self, clock: ClockId) -> u64
        requires { clock < length self.now.table.clocks }
        ensures { result ≡ slice_index_or self.now.lasts clock 0 }
    {
        self.lasts[clock.0 as usize]
    }

    /// Whether no clock advanced in the step of this number.
    pub fn is_quiet(&self, step: u64) -> bool
        ensures { result ≡ list_all (λ last. not (last == step)) self.now.lasts }
    {
        if step > self.newest {
            return true;
        }
        if step == self.newest {
            return self.latest.is_empty();
        }
        self.lasts.iter().all(|last| *last != step)
    }

    /// Lists the clocks whose last advance was in the step of this number, rising, in place of what the list held. All clocks are
    /// looked at only where one has advanced in a later step.
    pub fn list_advanced(&self, step: u64, list: &mut Vec<u32>)
        requires { length self.now.lasts ≤ vec_capacity list.old }
        ensures items { list.new.items ≡ noted_in self.now.lasts step }
        ensures room { vec_capacity list.old ≤ vec_capacity list.new }
    {
        if step == self.newest {
            self.latest.list(list);
            return;
        }
        list.clear();
        if step < self.newest {
            list_places(&self.lasts, step, list);
        }
    }

    /// The clock has advanced in the step of this number.
    fn note(&mut self, clock: ClockId, now: u64)
        requires { clock < length self.old.lasts }
        ensures { self.new ≡ record self.old { lasts = slice_set self.old.lasts clock now } }
    {
        self.newest = turn_to(&mut self.latest, self.newest, now);
        self.lasts[clock.0 as usize] = now;
        put_or_take(&mut self.latest, clock.0, now == self.newest);
    }

    /// The registration, which is open, is resumed in the step of this number. Whether its clock advanced.
    pub fn resume(&mut self, registration: Registration, now: u64) -> bool
        requires { Allows OwesResume self.old.table.clocks registration }
        ensures clocks { self.new ≡ calls now call_resume (registration ∷ []) self.old }
        ensures advanced { result ≡ is_ready_count
            (call_resume registration (count_at self.old.table.clocks registration.clock)) }
    {
        let clock = registration.clock();
        let advanced = self.table.resume(clock);
        if advanced {
            self.note(clock, now);
        }
        advanced
    }

    /// The registration ends in the step of this number. Whether its clock advanced.
    pub fn drop(&mut self, registration: Registration, now: u64) -> bool
        requires { Allows OwesDrop self.old.table.clocks registration }
        ensures clocks { self.new ≡ calls now call_drop (registration ∷ []) self.old }
        ensures advanced { result ≡ is_ready_count
            (call_drop registration (count_at self.old.table.clocks registration.clock)) }
    {
        let clock = registration.clock();
        let pending = registration.is_pending(self.table.phase(clock));
        let advanced = self.table.drop(clock, pending);
        if advanced {
            self.note(clock, now);
        }
        advanced
    }
}

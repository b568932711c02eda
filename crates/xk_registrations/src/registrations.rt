//! What one activity is registered on.

ghost use Rattle.std.specs.Prelude.{◌≡◌, ℕ, ◌<◌, ◌≤◌, [], ◌∷◌, ◌++◌, length, None, IfOk, OnOk, OnErr};
ghost use Rattle.xk_types.specs.Step.{is_given};
ghost use Rattle.xk_registrations.specs.View.{reg_on, AreDistinct};
ghost use Rattle.xk_registrations.specs.RegistrationChanges.{concerns, calls, call_resume, call_drop, call_register, regs_open, regs_on, regs_resumed, regs_passed, phase_at, others, with_taken, made_clocks, IsGiven, OwesResume, OwesDrop, OwesRegister, AreAllowed};

use crate::affected_clocks::Which;
use crate::clocks::Clocks;
use crate::each_registration::{drop_each, find_on, pass_each, register_each, resume_each};
use crate::registration::Registration;
use smallvec::SmallVec;
use std::alloc::{AllocError, Global};
use std::marker::Model;
use xk_types::{ClockId, Value};

/// The registrations of one activity, no two on one clock. Room for them is taken when they are opened, copied or inherited; nothing
/// else takes memory. `laws::goes_with_steps` says what the calls make of the clocks of a world.
#[derive(Drop)]
pub struct Registrations {
    list: SmallVec<Registration, 1>,
}

impl Model for Registrations {
    ghost use Rattle.xk_registrations.specs.View.{AreDistinct};
    ghost use Rattle.xk_registrations.specs.RegistrationChanges.{RegistrationsValue};

    ghost Value = { RegistrationsValue };

    ghost view = { λ r. record { room = r.list.capacity; list = r.list.items } };

    ghost invariant = { λ r. AreDistinct r.list.items };
}

impl Registrations {
    /// None, and room for at least this many.
    pub fn open(alloc: Global, room: usize) -> Result<Registrations, AllocError>
        ensures none { IfOk result (λ r. r.list ≡ []) }
        ensures room { IfOk result (λ r. room ≤ r.room) }
    {
        let mut list = SmallVec::new(alloc);
        list.reserve(room)?;
        Ok(Registrations { list })
    }

    /// The same, with as much room, from the memory that these are in.
    pub fn copy(&self) -> Result<Registrations, AllocError>
        ensures same { IfOk result (λ r. r ≡ self.now) }
        // Room for one lies in the registrations themselves.
        ensures only_where_it_grows { OnErr result (1 < self.now.room) }
    {
        // For `room` of `push_reserved`: no more than there is room for.
        let _len = self.list.len();
        let mut list = SmallVec::with_capacity(*self.list.allocator(), self.list.capacity())?;
        for registration in self.list.as_slice() {
            list.push_reserved(*registration);
        }
        Ok(Registrations { list })
    }

    /// What is registered.
    pub fn as_slice(&self) -> &[Registration]
        ensures { result.now ≡ self.now.list }
    {
        self.list.as_slice()
    }

    /// What an activity begins with that this one starts with these values: the same on each clock that one of them names, and
    /// no others. Room for at least this many.
    pub fn inherit(
        &self,
        alloc: Global,
        room: usize,
        values: &[Value],
    ) -> Result<Registrations, AllocError>
        ensures given { IfOk result
            (λ r. IsGiven (is_given values.now) self.now.list r.list) }
        ensures room { IfOk result (λ r. room ≤ r.room) }
    {
        let mut child = Registrations::open(alloc, room)?;
        for value in values {
            child.take_on(self.list.as_slice(), *value)?;
        }
        Ok(child)
    }

    /// Takes on what stands among these on the clock that the value names, unless the activity is registered there.
    fn take_on(&mut self, from: &[Registration], value: Value) -> Result<(), AllocError>
        ensures taken { OnOk result
            (self.new.list ≡ with_taken from.now value self.old.list) }
        ensures room { self.old.room ≤ self.new.room }
    {
        if let Value::Clock(clock) = value {
            let held = find_on(self.list.as_slice(), clock);
            if let (None, Some(handed)) = (held, find_on(from, clock)) {
                self.list.push(handed)?;
            }
        }
        Ok(())
    }

    /// Makes a clock, on which the activity is open.
    pub fn make(&mut self, clocks: &mut Clocks) -> ClockId
        requires room { length self.old.list < self.old.room }
        requires clock_room { length clocks.old.table.clocks < clocks.old.table.room }
        requires new { reg_on self.old.list (length clocks.old.table.clocks) ≡ None }
        ensures number { result ≡ length clocks.old.table.clocks }
        ensures registrations { self.new ≡ record self.old {
          list = self.old.list ++ record {
            clock = length clocks.old.table.clocks;
            resumed = None;
          } ∷ [];
        } }
        ensures clocks { clocks.new ≡ made_clocks clocks.old }
    {
        let clock = clocks.make();
        self.list.push_reserved(Registration::on(clock));
        clock
    }

    /// The clocks take in the activity, which begins with these registrations.
    pub fn begin(&self, clocks: &mut Clocks)
        requires { AreAllowed OwesRegister clocks.old.table.clocks self.now.list }
        ensures clocks { (now : ℕ)
            → clocks.new ≡ calls now call_register self.now.list clocks.old }
        ensures distinct { AreDistinct self.now.list }
    {
        register_each(self.list.as_slice(), clocks);
    }

    /// In the step of this number, resumes the clocks that the step concerns: each that the activity is registered on and open
    /// on, in its present phase.
    pub fn resume(&mut self, which: Which, clocks: &mut Clocks, now: u64)
        requires { AreAllowed OwesResume clocks.old.table.clocks
            (regs_open (concerns which) self.old.list) }
        ensures registrations { self.new ≡ record self.old {
          list = regs_resumed (concerns which) (phase_at clocks.old.table.clocks) self.old.list;
        } }
        ensures clocks { clocks.new
            ≡ calls now call_resume (regs_open (concerns which) self.old.list) clocks.old }
    {
        resume_each(self.list.as_mut_slice(), &which, clocks, now);
    }

    /// Ends, in the step of this number, the registrations on the clocks that the step concerns.
    pub fn drop(&mut self, which: Which, clocks: &mut Clocks, now: u64)
        requires { AreAllowed OwesDrop clocks.old.table.clocks
            (regs_on (concerns which) self.old.list) }
        ensures registrations { self.new ≡ record self.old { list = others which self.old.list } }
        ensures clocks { clocks.new
            ≡ calls now call_drop (regs_on (concerns which) self.old.list) clocks.old }
    {
        drop_each(self.list.as_slice(), &which, clocks, now);
        self.list
            .retain(|registration| !which.concerns(registration.clock()));
    }

    /// The activity passes: it is open on all its clocks. It is signalled on none of them, so that this concerns no clock.
    pub fn pass(&mut self)
        ensures { self.new ≡ record self.old { list = regs_passed self.old.list } }
    {
        pass_each(self.list.as_mut_slice());
    }
}

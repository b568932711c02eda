//! All activities of a running program, but for their finishes.

ghost use Rattle.std.specs.Prelude.{◌≡◌, ℤ, ℕ, ◌<◌, ◌≤◌, [], ◌∷◌, ◌++◌, length, map, Some, slice_set, All, IfOk, OnOk};
ghost use Rattle.std.specs.Bool.{Decides};
ghost use Rattle.std.specs.List.{list_all};
ghost use Rattle.std.specs.Vec.{vec_capacity};
ghost use Rattle.xk_types.specs.declared.world.Value.TheVariants as value;
ghost use Rattle.xk_types.specs.World.{instruction_at, slots_of, AreArguments, main_of, is_ended, root};
ghost use Rattle.xk_types.specs.Step.{governing, child, slot_at, onward, with_slots, arrived, ended, past};
ghost use Rattle.xk_activity.specs.Local.{IsRight, IsSafe, local, is_stepped};
ghost use Rattle.xk_activity.specs.StepAgreement.{frames_in};
ghost use Rattle.xk_activity.specs.Activities.{act_at, with_act_at, Stands, Takes, Runs};
ghost use Rattle.xk_activity.specs.Ticket.{Fits, handed_in};

use crate::activity::Activity;
use crate::frames::{Frames, Next};
use crate::ticket::Ticket;
use std::alloc::{AllocError, Global};
use std::marker::Model;
use xk_bounds::Verified;
use xk_types::{ClockId, Instr, Status, Value};

/// The activities of one module by their numbers, but for their finishes.
#[derive(Drop)]
pub struct Activities<'m> {
    verified: &'m Verified,
    list: Vec<Activity<'m>>,
}

impl<'m> Model for Activities<'m> {
    ghost use Rattle.std.specs.Prelude.{All};
    ghost use Rattle.std.specs.Vec.{vec_capacity};
    ghost use Rattle.xk_activity.specs.Activities.{ActivitiesValue, acts, RunsModule};

    ghost Value = { ActivitiesValue };

    ghost view = { λ s. record {
      module_run = s.verified.now;
      list = acts s.list.items;
      room = vec_capacity s.list;
    } };

    ghost invariant = { λ s. All (RunsModule s.verified.now) s.list.items };
}

/// Whether all of these are over.
fn all_over<'m>(list: &[Activity<'m>]) -> bool
    ensures { result ≡ list_all (λ x. is_ended x.act.status) list.now }
{
    list.iter().all(|act| act.is_ended())
}

/// Numbers, as what slots hold.
fn numbers_held(alloc: Global, numbers: &[i64]) -> Result<Vec<Value>, AllocError>
    ensures { IfOk result (λ v. v.items ≡ map (λ n. value.Number n) numbers.now) }
{
    let mut values = Vec::with_capacity(alloc, numbers.len())?;
    for n in numbers {
        values.push(Value::Number(*n))?;
    }
    Ok(values)
}

impl<'m> Activities<'m> {
    /// Main alone, before its first step, given these numbers.
    pub fn open(
        alloc: Global,
        verified: &'m Verified,
        arguments: &[i64],
    ) -> Result<Activities<'m>, AllocError>
        requires { AreArguments verified.now arguments.now }
        ensures module { IfOk result (λ s. s.module_run ≡ verified.now) }
        ensures main { IfOk result (λ s. s.list ≡ main_of verified.now arguments.now ∷ []) }
    {
        let program = verified.module();
        // For `unit` of `begin`: main's unit is there.
        let _main = &program.units()[0];
        let values = numbers_held(alloc, arguments)?;
        let main = Frames::begin(alloc, verified, 0, &values)?;
        let mut list = Vec::with_capacity(alloc, 1)?;
        list.push_reserved(Activity::new(main, 0));
        Ok(Activities { verified, list })
    }

    /// The same activities, with as much room, from the memory that these are in.
    pub fn copy(&self) -> Result<Activities<'m>, AllocError>
        ensures { IfOk result (λ s. s ≡ self.now) }
    {
        let mut list = Vec::with_capacity(*self.list.allocator(), self.list.capacity())?;
        for act in &self.list {
            list.push_reserved(act.copy()?);
        }
        Ok(Activities {
            verified: self.verified,
            list,
        })
    }

    /// The module that they run.
    pub fn verified(&self) -> &'m Verified
        ensures { result.now ≡ self.now.module_run }
    {
        self.verified
    }

    /// What their memory is taken from.
    pub fn allocator(&self) -> Global {
        *self.list.allocator()
    }

    /// How many there are.
    pub fn len(&self) -> usize
        ensures { result ≡ length self.now.list }
    {
        self.list.len()
    }

    /// Whether activity a runs, waits at an `advance`, or is over.
    pub fn status(&self, a: usize) -> Status
        requires { a < length self.now.list }
        ensures { result ≡ (act_at self.now.list a).status }
    {
        let act = &self.list[a];
        act.status()
    }

    /// The number of the step of its last pass; before the first, what it began with.
    pub fn since(&self, a: usize) -> u64
        requires { a < length self.now.list }
        ensures since { result ≡ (act_at self.now.list a).since }
        // It has opened no finish, and main's governs it.
        ensures governs { (b : ℕ) → governing b (act_at self.now.list a) ≡ root }
    {
        let act = &self.list[a];
        act.since()
    }

    /// Its frames.
    pub fn frames(&self, a: usize) -> &Frames<'m>
        requires { a < length self.now.list }
        ensures { result.now ≡ frames_in self.now.module_run (act_at self.now.list a) }
    {
        let act = &self.list[a];
        act.frames()
    }

    /// The instruction that it stands at.
    pub fn next(&self, a: usize) -> &'m Instr
        requires there { a < length self.now.list }
        requires stands { Stands self.now.module_run (act_at self.now.list a) }
        ensures { instruction_at self.now.module_run (act_at self.now.list a).frame
            ≡ Some result.now }
    {
        let act = &self.list[a];
        act.frames().next()
    }

    /// The number in a slot of it that holds one.
    pub fn number(&self, a: usize, s: u16) -> i64
        requires there { a < length self.now.list }
        requires number { (n : ℤ) × (slot_at (act_at self.now.list a) s ≡ Some (value.Number n)) }
        ensures { slot_at (act_at self.now.list a) s ≡ Some (value.Number result) }
    {
        let act = &self.list[a];
        act.number(s)
    }

    /// The clock that a slot of it names which names one.
    pub fn clock(&self, a: usize, s: u16) -> ClockId
        requires there { a < length self.now.list }
        requires clock { (c : ℕ) × (slot_at (act_at self.now.list a) s ≡ Some (value.Clock c)) }
        ensures { slot_at (act_at self.now.list a) s ≡ Some (value.Clock result) }
    {
        let act = &self.list[a];
        act.clock(s)
    }

    /// It goes on to the next instruction.
    pub fn go_on(&mut self, a: usize)
        requires there { a < length self.old.list }
        requires stands { Stands self.old.module_run (act_at self.old.list a) }
        ensures { self.new ≡ with_act_at self.old a (onward (act_at self.old.list a)) }
    {
        let act = &mut self.list[a];
        act.go_on();
    }

    /// It writes a slot, and goes on to the next instruction.
    pub fn write(&mut self, a: usize, d: u16, v: Value)
        requires there { a < length self.old.list }
        requires stands { Stands self.old.module_run (act_at self.old.list a) }
        requires slot { d < length (act_at self.old.list a).frame.slots }
        ensures { self.new ≡ with_act_at self.old a (onward (with_slots (act_at self.old.list a)
            (slice_set (act_at self.old.list a).frame.slots d v))) }
    {
        let act = &mut self.list[a];
        act.write(d, v);
    }

    /// It comes to wait at an `advance`.
    pub fn arrive(&mut self, a: usize)
        requires { a < length self.old.list }
        ensures { self.new ≡ with_act_at self.old a (arrived (act_at self.old.list a)) }
    {
        let act = &mut self.list[a];
        act.arrive();
    }

    /// It is over.
    pub fn end(&mut self, a: usize)
        requires { a < length self.old.list }
        ensures { self.new ≡ with_act_at self.old a (ended (act_at self.old.list a)) }
    {
        let act = &mut self.list[a];
        act.end();
    }

    /// It goes on behind an `advance`, in the step of this number.
    pub fn pass(&mut self, a: usize, now: u64)
        requires there { a < length self.old.list }
        requires stands { Stands self.old.module_run (act_at self.old.list a) }
        ensures { self.new ≡ with_act_at self.old a (past (act_at self.old.list a) now) }
    {
        let act = &mut self.list[a];
        act.pass(now);
    }

    /// One step of it, if nobody else can see it. Takes no memory.
    #[inline(always)]
    pub fn local(&mut self, a: usize) -> Next
        requires there { a < length self.old.list }
        requires right { IsRight (local (frames_in self.old.module_run
            (act_at self.old.list a))) }
        ensures takes { Takes self.old.module_run (act_at self.old.list a) result
            (act_at self.new.list a) }
        ensures others { self.new ≡ with_act_at self.old a (act_at self.new.list a) }
    {
        let act = &mut self.list[a];
        act.local()
    }

    /// Up to max steps of it that nobody else can see, and how many they were: max, or as many as there are before one that others
    /// can see. Takes no memory.
    pub fn run(&mut self, a: usize, max: u32) -> u32
        requires there { a < length self.old.list }
        requires safe { IsSafe local (frames_in self.old.module_run (act_at self.old.list a)) }
        ensures runs { Runs self.old.module_run (act_at self.old.list a) max result
            (act_at self.new.list a) }
        ensures others { self.new ≡ with_act_at self.old a (act_at self.new.list a) }
        ensures most { result ≤ max }
    {
        let act = &mut self.list[a];
        act.frames.run(max)
    }

    /// Whether nobody else can see the next step of it.
    pub fn is_local(&self, a: usize) -> bool
        requires there { a < length self.now.list }
        requires right { IsRight (local (frames_in self.now.module_run
            (act_at self.now.list a))) }
        ensures { result ≡ is_stepped (local (frames_in self.now.module_run
            (act_at self.now.list a))) }
    {
        let act = &self.list[a];
        act.frames().is_local()
    }

    /// Whether a ticket's activity is there, and has the ticket's old frames.
    pub fn accepts(&self, ticket: &Ticket<'m>) -> bool
        ensures { Decides result (Fits self.now ticket.now) }
    {
        let a = ticket.act().0 as usize;
        a < self.len() && self.frames(a).same(ticket.old())
    }

    /// A ticket's activity has the ticket's new frames. Takes no memory.
    pub fn apply(&mut self, ticket: Ticket<'m>)
        requires { Fits self.old ticket }
        ensures { self.new ≡ handed_in self.old ticket.entry }
    {
        let act = &mut self.list[ticket.act().0 as usize];
        act.put_frames(ticket.into_new());
    }

    /// What activity a starts that runs this unit with these values.
    pub fn begin(
        &self,
        alloc: Global,
        a: usize,
        unit: u16,
        values: &[Value],
    ) -> Result<Activity<'m>, AllocError>
        requires there { a < length self.now.list }
        requires unit { unit < length self.now.module_run.units }
        requires fits { length values.now ≤ slots_of self.now.module_run unit }
        ensures module { IfOk result (λ x. x.module_run ≡ self.now.module_run) }
        ensures activity { (b : ℕ) → IfOk result (λ x. x.act
            ≡ child self.now.module_run b (act_at self.now.list a) unit values.now) }
    {
        let frames = Frames::begin(alloc, self.verified, unit, values)?;
        Ok(Activity::new(frames, self.since(a)))
    }

    /// Room for one activity more than there are, at least.
    pub fn reserve(&mut self) -> Result<(), AllocError>
        ensures module { self.new.module_run ≡ self.old.module_run }
        ensures list { self.new.list ≡ self.old.list }
        ensures reserved { OnOk result (length self.new.list < self.new.room) }
    {
        self.list.try_reserve(1)
    }

    /// One more, which `begin` made.
    pub fn admit(&mut self, new: Activity<'m>)
        requires room { length self.old.list < self.old.room }
        requires same { new.module_run ≡ self.old.module_run }
        ensures { self.new ≡ record self.old { list = self.old.list ++ new.entry.act ∷ [] } }
    {
        self.list.push_reserved(new);
    }

    /// Whether all are over.
    pub fn all_ended(&self) -> bool
        ensures { result ≡ list_all (λ act. is_ended act.status) self.now.list }
    {
        all_over(&self.list)
    }
}

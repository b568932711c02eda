//! One activity, but for its finishes.

ghost use Rattle.std.specs.Prelude.{◌≡◌, ℤ, ℕ, ◌<◌, ◌≤◌, length, Some, slice_set, IfOk};
ghost use Rattle.xk_types.specs.declared.world.Value.TheVariants as value;
ghost use Rattle.xk_types.specs.World.{is_ended, root};
ghost use Rattle.xk_types.specs.Step.{governing, slot_at, onward, with_slots, arrived, ended, past};
ghost use Rattle.xk_activity.specs.Local.{IsRight, local};
ghost use Rattle.xk_activity.specs.StepAgreement.{frames_in, with_frames};
ghost use Rattle.xk_activity.specs.Activities.{fresh, with_act, Stands, Takes};

use crate::frames::{Frames, Next};
use std::alloc::AllocError;
use std::marker::Model;
use xk_types::{ClockId, Status, Value};

/// An activity: its frames, and how it stands. What it has to do with finishes is kept elsewhere; it stands for an activity that
/// has none open, and is governed by main's.
#[derive(Drop)]
pub struct Activity<'m> {
    pub(crate) frames: Frames<'m>,
    status: Status,
    since: u64,
}

impl<'m> Model for Activity<'m> {
    ghost use Rattle.xk_types.specs.World.{root};
    ghost use Rattle.xk_activity.specs.Activities.{ActivityValue};

    ghost Value = { ActivityValue };

    ghost view = { λ a. record {
      module_run = a.frames.module_run;
      act = record {
        frame = a.frames.frame;
        callers = a.frames.callers;
        status = a.status;
        since = a.since;
        opened = 0;
        governed = root;
      };
    } };
}

impl<'m> Activity<'m> {
    /// One with these frames, before its first step. `since` is the number of its starter's last pass.
    pub(crate) fn new(frames: Frames<'m>, since: u64) -> Activity<'m>
        ensures module { result.module_run ≡ frames.entry.module_run }
        ensures activity { result.act ≡ fresh frames.entry since }
    {
        Activity {
            frames,
            status: Status::Running,
            since,
        }
    }

    /// The same activity, from the memory that this one is in.
    pub(crate) fn copy(&self) -> Result<Activity<'m>, AllocError>
        ensures { IfOk result (λ a. a ≡ self.now) }
    {
        Ok(Activity {
            frames: self.frames.copy()?,
            status: self.status,
            since: self.since,
        })
    }

    /// Whether it runs, waits at an `advance`, or is over.
    pub(crate) fn status(&self) -> Status
        ensures { result ≡ self.now.act.status }
    {
        self.status
    }

    /// Whether it is over.
    pub(crate) fn is_ended(&self) -> bool
        ensures { result ≡ is_ended self.now.act.status }
    {
        matches!(self.status, Status::Ended)
    }

    /// The number of the step of its last pass; before the first, what it began with.
    pub(crate) fn since(&self) -> u64
        ensures since { result ≡ self.now.act.since }
        // It has opened no finish, and main's governs it.
        ensures governs { (a : ℕ) → governing a self.now.act ≡ root }
    {
        self.since
    }

    /// Its frames.
    pub(crate) fn frames(&self) -> &Frames<'m>
        ensures { result.now ≡ frames_in self.now.module_run self.now.act }
    {
        &self.frames
    }

    /// Has these frames from now on.
    pub(crate) fn put_frames(&mut self, frames: Frames<'m>)
        ensures module { self.new.module_run ≡ frames.entry.module_run }
        ensures activity { self.new.act ≡ with_frames self.old.act frames.entry }
    {
        self.frames = frames;
    }

    /// The number in a slot that holds one.
    pub(crate) fn number(&self, s: u16) -> i64
        requires { (n : ℤ) × (slot_at self.now.act s ≡ Some (value.Number n)) }
        ensures { slot_at self.now.act s ≡ Some (value.Number result) }
    {
        match self.frames.slot(s) {
            Value::Number(n) => n,
            _ => unreachable!(),
        }
    }

    /// The clock that a slot names which names one.
    pub(crate) fn clock(&self, s: u16) -> ClockId
        requires { (c : ℕ) × (slot_at self.now.act s ≡ Some (value.Clock c)) }
        ensures { slot_at self.now.act s ≡ Some (value.Clock result) }
    {
        match self.frames.slot(s) {
            Value::Clock(c) => c,
            _ => unreachable!(),
        }
    }

    /// On to the next instruction.
    pub(crate) fn go_on(&mut self)
        requires { Stands self.old.module_run self.old.act }
        ensures { self.new ≡ with_act self.old (onward self.old.act) }
    {
        self.frames.go();
    }

    /// Writes a slot, and goes on to the next instruction.
    pub(crate) fn write(&mut self, d: u16, v: Value)
        requires stands { Stands self.old.module_run self.old.act }
        requires slot { d < length self.old.act.frame.slots }
        ensures { self.new ≡ with_act self.old
            (onward (with_slots self.old.act (slice_set self.old.act.frame.slots d v))) }
    {
        self.frames.go();
        self.frames.set(d, v);
    }

    /// Comes to wait at an `advance`.
    pub(crate) fn arrive(&mut self)
        ensures { self.new ≡ with_act self.old (arrived self.old.act) }
    {
        self.status = Status::Arrived;
    }

    /// Is over.
    pub(crate) fn end(&mut self)
        ensures { self.new ≡ with_act self.old (ended self.old.act) }
    {
        self.status = Status::Ended;
    }

    /// Goes on behind an `advance`, in the step of this number.
    pub(crate) fn pass(&mut self, now: u64)
        requires { Stands self.old.module_run self.old.act }
        ensures { self.new ≡ with_act self.old (past self.old.act now) }
    {
        self.frames.go();
        self.status = Status::Running;
        self.since = now;
    }

    /// One step, if nobody else can see it.
    #[inline(always)]
    pub(crate) fn local(&mut self) -> Next
        requires { IsRight (local (frames_in self.old.module_run self.old.act)) }
        ensures takes { Takes self.old.module_run self.old.act result self.new.act }
        ensures same { self.new.module_run ≡ self.old.module_run }
    {
        self.frames.local()
    }
}

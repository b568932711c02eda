//! The frames of one activity.

ghost use Rattle.std.specs.Prelude.{◌≡◌, ◌⊎◌, ℕ, ◌+◌, ◌<◌, ◌≤◌, ◌^◌, [], length, take, drop, Some, IfOk, IsOk, MatchResult, slice_get, slice_set, All};
ghost use Rattle.std.specs.Bool.{Decides};
ghost use Rattle.std.specs.Vec.{vec_capacity};
ghost use Rattle.xk_types.specs.declared.instr.Instr.{Instr};
ghost use Rattle.xk_types.specs.Code.{IsWithinLimits};
ghost use Rattle.xk_types.specs.Shape.{HasShape};
ghost use Rattle.xk_types.specs.World.{instruction_at, slots_of};
ghost use Rattle.xk_types.specs.Bound.{stack_of, frames_of};
ghost use Rattle.xk_activity.specs.Local.{Beyond, Stepped, IsRight, IsSafe, local, ran, turn, code_of, spot_of, spot_at, begun, called, returning, is_stepped};
ghost use Rattle.xk_activity.specs.Interpreter.{Answers, IsNear};
ghost use Rattle.xk_activity.specs.FrameStack.{CanCall, Does, outer, values_at, placed, with_slot};
ghost use Rattle.xk_activity.specs.Slots.{values_of};

use crate::caller::Caller;
use crate::equality::are_same_waiting;
use crate::interpreter::{execute, is_frame_local, run_instructions};
use crate::marks::Marks;
use crate::slots::{are_same_slots, part, set, value};
use crate::stack::{Stack, copy_callers, copy_words, empty, fill, hand, put};
use std::alloc::{AllocError, Global};
use std::marker::Model;
use xk_bounds::Verified;
use xk_types::{Instr, Value};

/// What a call for one local step did.
#[derive(Clone, Copy, Debug, PartialEq, Eq)]
pub enum Next {
    /// The step was taken.
    Stepped,
    /// Others can see the next step, and nothing changed.
    Visible,
}

/// The frames of one activity, the present one and those that wait at a `call` for it to return, with room for all that they may
/// call.
#[derive(Drop)]
pub struct Frames<'m> {
    verified: &'m Verified,
    unit: u16,
    place: u32,
    /// Which slots of the present frame hold numbers.
    marks: Marks,
    /// Where the slots of the present frame begin.
    base: usize,
    /// The slots of all frames, those of the present one last.
    stack: Stack,
    /// The frames that wait, the nearest last.
    callers: Vec<Caller>,
}

impl<'m> Model for Frames<'m> {
    ghost use Rattle.std.specs.Prelude.{length, reverse};
    ghost use Rattle.std.specs.Vec.{vec_capacity};
    ghost use Rattle.xk_activity.specs.Local.{FramesValue};
    ghost use Rattle.xk_activity.specs.FrameStack.{frames_on, IsStacked};

    ghost Value = { FramesValue };

    ghost view = { λ f. frames_on f.verified.now f.unit f.place f.marks f.base
        f.stack.items (reverse f.callers.items) };

    ghost invariant = { λ f. IsStacked f.verified.now f.unit f.base (reverse f.callers.items)
        (length f.stack.items) f.stack.capacity (vec_capacity f.callers) };
}

/// The next instruction of the frame that lies on a stack from base on, if it concerns that frame alone, and the next place.
#[inline(always)]
fn step_top(
    code: &[Instr],
    place: u32,
    marks: &mut Marks,
    stack: &mut Stack,
    base: usize,
) -> Option<usize>
    requires short { length code.now < 2 ^ 16 }
    requires base { base ≤ length stack.old.items }
    requires few { length (drop base stack.old.items) ≤ 64 }
    requires right { IsRight (turn code.now
        (spot_at place (values_of marks.old (drop base stack.old.items)))) }
    ensures stepped { Answers (turn code.now
        (spot_at place (values_of marks.old (drop base stack.old.items))))
        (values_of marks.old (drop base stack.old.items)) result
        (values_of marks.new (drop base stack.new.items)) }
    ensures near { IsNear result }
    ensures below { take base stack.new.items ≡ take base stack.old.items }
    ensures length { length stack.new.items ≡ length stack.old.items }
    ensures capacity { stack.new.capacity ≡ stack.old.capacity }
{
    let words = stack.as_mut_slice();
    let slots = &mut words[base..];
    let at = place as usize;
    execute(code, at, slots, marks, &code[at])
}

/// Another value in a slot of the frame that lies on a stack from base on.
fn set_on_top(marks: &mut Marks, stack: &mut Stack, base: usize, s: u16, v: Value)
    requires base { base ≤ length stack.old.items }
    requires slot { s < length (values_of marks.old (drop base stack.old.items)) }
    requires few { length (drop base stack.old.items) ≤ 64 }
    ensures written { values_of marks.new (drop base stack.new.items)
        ≡ slice_set (values_of marks.old (drop base stack.old.items)) s v }
    ensures below { take base stack.new.items ≡ take base stack.old.items }
    ensures length { length stack.new.items ≡ length stack.old.items }
    ensures capacity { stack.new.capacity ≡ stack.old.capacity }
{
    let words = stack.as_mut_slice();
    let slots = &mut words[base..];
    set(slots, marks, s, v);
}

/// How many slots the unit has.
fn size_of(verified: &Verified, unit: u16) -> u16
    requires { unit < length verified.now.units }
    ensures size { result ≡ slots_of verified.now unit }
    ensures limits { IsWithinLimits verified.now }
    ensures shape { HasShape verified.now }
{
    let unit = &verified.module().units()[unit as usize];
    unit.slots
}

impl<'m> Frames<'m> {
    /// One frame of the unit, before its first instruction, its first slots given these values.
    pub fn begin(
        alloc: Global,
        verified: &'m Verified,
        unit: u16,
        values: &[Value],
    ) -> Result<Frames<'m>, AllocError>
        requires unit { unit < length verified.now.units }
        requires fits { length values.now ≤ slots_of verified.now unit }
        ensures begun { IfOk result (λ f. f ≡ begun verified.now unit values.now) }
        // Two slots lie in the frames themselves, and who calls nothing never waits.
        ensures succeeds { stack_of verified.now unit ≤ 2
            → frames_of verified.now unit ≡ 1 → IsOk result }
    {
        let size = size_of(verified, unit);
        let room = verified.room(unit);
        let mut stack = empty(alloc, room.slots)?;
        let marks = put(&mut stack, values);
        fill(&mut stack, size as usize - values.len());
        let callers = Vec::with_capacity(alloc, room.frames as usize - 1)?;
        Ok(Frames {
            verified,
            unit,
            place: 0,
            marks,
            base: 0,
            stack,
            callers,
        })
    }

    /// The same frames, with room of their own, from the memory that these are in.
    pub fn copy(&self) -> Result<Frames<'m>, AllocError>
        ensures same { IfOk result (λ f. f ≡ self.now) }
        // As for frames that begin.
        ensures succeeds { self.now.callers ≡ []
            → stack_of self.now.module_run self.now.frame.unit ≤ 2
            → frames_of self.now.module_run self.now.frame.unit ≡ 1 → IsOk result }
    {
        self.copy_in(*self.callers.allocator())
    }

    /// The same frames, with room of their own.
    pub(crate) fn copy_in(&self, alloc: Global) -> Result<Frames<'m>, AllocError>
        ensures same { IfOk result (λ f. f ≡ self.now) }
        ensures succeeds { self.now.callers ≡ []
            → stack_of self.now.module_run self.now.frame.unit ≤ 2
            → frames_of self.now.module_run self.now.frame.unit ≡ 1 → IsOk result }
    {
        let stack = copy_words(alloc, &self.stack)?;
        let callers = copy_callers(alloc, &self.callers)?;
        Ok(Frames {
            verified: self.verified,
            unit: self.unit,
            place: self.place,
            marks: self.marks,
            base: self.base,
            stack,
            callers,
        })
    }

    /// Whether they are the same frames of the same module.
    pub fn same(&self, other: &Frames<'m>) -> bool
        ensures { Decides result (self.now ≡ other.now) }
    {
        if self.unit != other.unit || self.place != other.place {
            return false;
        }
        let words = self.stack.as_slice();
        let others = other.stack.as_slice();
        let slots = part(words, self.base, words.len());
        let other_slots = part(others, other.base, others.len());
        if !are_same_slots(slots, self.marks, other_slots, other.marks)
            || !are_same_waiting(
                words,
                &self.callers,
                self.base,
                others,
                &other.callers,
                other.base,
            )
        {
            return false;
        }
        *self.verified.module() == *other.verified.module()
    }

    /// The code of the present frame's unit.
    fn code(&self) -> &'m [Instr]
        requires { self.now.frame.unit < length self.now.module_run.units }
        ensures code { result.now ≡ code_of self.now.module_run self.now.frame.unit }
        ensures short { length result.now < 2 ^ 16 }
    {
        let verified = self.verified;
        let units = verified.module().units();
        let unit = &units[self.unit as usize];
        &unit.code
    }

    /// The unit that the present frame runs.
    pub fn unit(&self) -> u16
        ensures { result ≡ self.now.frame.unit }
    {
        self.unit
    }

    /// The place of the instruction that the present frame stands at.
    pub fn place(&self) -> u32
        ensures { result ≡ self.now.frame.place }
    {
        self.place
    }

    /// The instruction that the present frame stands at.
    pub fn next(&self) -> &'m Instr
        requires { (i : Instr)
            × (instruction_at self.now.module_run self.now.frame ≡ Some i) }
        ensures { instruction_at self.now.module_run self.now.frame ≡ Some result.now }
    {
        &self.code()[self.place as usize]
    }

    /// What a slot of the present frame holds.
    pub fn slot(&self, s: u16) -> Value
        requires { s < length self.now.frame.slots }
        ensures { slice_get self.now.frame.slots s ≡ Some result }
    {
        let words = self.stack.as_slice();
        value(part(words, self.base, words.len()), self.marks, s)
    }

    /// Lists what these slots of the present frame hold, in place of what the list held. Where memory is refused, it has what the first of
    /// them hold.
    pub fn values(&self, args: &[u16], values: &mut Vec<Value>) -> Result<(), AllocError>
        requires { All (λ s. s < length self.now.frame.slots) args.now }
        ensures { MatchResult result
            (λ _. values.new.items ≡ values_at self.now.frame.slots args.now)
            (λ _. (n : ℕ)
            × (values.new.items ≡ values_at self.now.frame.slots (take n args.now))) }
    {
        values.clear();
        for s in args {
            let value = self.slot(*s);
            values.push(value)?;
        }
        Ok(())
    }

    /// Writes a slot of the present frame.
    pub fn set(&mut self, s: u16, v: Value)
        requires { s < length self.old.frame.slots }
        ensures { self.new ≡ with_slot self.old s v }
    {
        set_on_top(&mut self.marks, &mut self.stack, self.base, s, v);
    }

    /// The present frame goes on to the next instruction.
    pub fn go(&mut self)
        requires { (i : Instr)
            × (instruction_at self.old.module_run self.old.frame ≡ Some i) }
        ensures { self.new ≡ placed self.old (self.old.frame.place + 1) }
    {
        self.place += 1;
    }

    /// Runs this unit, a method, with the values of these slots; the present frame waits for it.
    fn call(&mut self, unit: u16, args: &[u16])
        requires { CanCall self.old unit args.now }
        ensures { self.new ≡ called self.old unit (values_at self.old.frame.slots args.now) }
    {
        let size = size_of(self.verified, unit);
        let top = self.stack.len();
        let marks = hand(&mut self.stack, self.base, self.marks, args);
        fill(&mut self.stack, size as usize - args.len());
        self.callers.push_reserved(Caller {
            unit: self.unit,
            place: self.place as u16,
            marks: self.marks,
            base: self.base,
        });
        self.unit = unit;
        self.place = 0;
        self.marks = marks;
        self.base = top;
    }

    /// How many slots the present frame has.
    pub fn slot_count(&self) -> usize
        ensures { result ≡ length self.now.frame.slots }
    {
        self.stack.len() - self.base
    }

    /// Puts the nearest frame that waits in place of the present one, at its `call`, and returns whether there was one: so one looks at
    /// those that called. No step of a run does that.
    pub fn up(&mut self) -> bool
        ensures { (result, self.new) ≡ outer self.old self.old.callers }
    {
        let Some(caller) = self.callers.pop() else {
            return false;
        };
        self.stack.truncate(self.base);
        self.unit = caller.unit;
        self.place = caller.place as u32;
        self.marks = caller.marks;
        self.base = caller.base;
        true
    }

    /// Goes back into the nearest frame that waits, behind its `call`, if one does.
    fn leave(&mut self) -> Next
        ensures does { Does (returning self.old self.old.callers) self.old result self.new }
        ensures same { self.new.module_run ≡ self.old.module_run }
    {
        match self.callers.pop() {
            Some(c) => {
                self.stack.truncate(self.base);
                self.unit = c.unit;
                self.place = c.place as u32 + 1;
                self.marks = c.marks;
                self.base = c.base;
                Next::Stepped
            }
            None => Next::Visible,
        }
    }

    /// The next step, where it concerns more than the present frame.
    #[inline(always)]
    fn across(&mut self) -> Next
        requires right { IsRight (local self.old) }
        requires beyond { turn (code_of self.old.module_run self.old.frame.unit)
            (spot_of self.old.frame) ≡ Beyond }
        ensures does { Does (local self.old) self.old result self.new }
        ensures same { self.new.module_run ≡ self.old.module_run }
    {
        let code = self.code();
        match &code[self.place as usize] {
            Instr::Call { unit, args } => {
                self.call(*unit, args.slots());
                Next::Stepped
            }
            Instr::Ret => self.leave(),
            _ => Next::Visible,
        }
    }

    /// One step, if nobody else can see it. Takes no memory.
    pub fn local(&mut self) -> Next
        requires { IsRight (local self.old) }
        ensures does { Does (local self.old) self.old result self.new }
        ensures same { self.new.module_run ≡ self.old.module_run }
    {
        let code = self.code();
        match step_top(
            code,
            self.place,
            &mut self.marks,
            &mut self.stack,
            self.base,
        ) {
            Some(place) => {
                self.place = place as u32;
                Next::Stepped
            }
            None => self.across(),
        }
    }

    /// Up to max steps that concern the present frame alone, and how many they were.
    fn run_frame(&mut self, max: u32) -> u32
        requires { IsSafe local self.old }
        ensures ran { ran local self.old result ≡ Stepped self.new }
        ensures most { result ≤ max }
        ensures stops { (result ≡ max)
            ⊎ (turn (code_of self.new.module_run self.new.frame.unit) (spot_of self.new.frame)
            ≡ Beyond) }
        ensures same { self.new.module_run ≡ self.old.module_run }
    {
        let code = self.code();
        let words = self.stack.as_mut_slice();
        let slots = &mut words[self.base..];
        let (place, steps) = run_instructions(code, self.place, slots, &mut self.marks, max);
        self.place = place;
        steps
    }

    /// Up to max steps that nobody else can see, and how many they were: max, or as many as there are before one that others can
    /// see. Takes no memory.
    pub fn run(&mut self, max: u32) -> u32
        requires { IsSafe local self.old }
        ensures ran { ran local self.old result ≡ Stepped self.new }
        ensures most { result ≤ max }
        ensures stops { (result ≡ max) ⊎ (local self.new ≡ Beyond) }
        ensures same { self.new.module_run ≡ self.old.module_run }
    {
        let mut done = 0;
        // Each turn but the last one ends with a call or a return, which is a step.
        for n in 0..max {
            done += self.run_frame(max - done);
            if done == max {
                return done;
            }
            match self.across() {
                Next::Stepped => done += 1,
                Next::Visible => return done,
            }
        }
        done
    }

    /// Whether nobody else can see the next step.
    pub fn is_local(&self) -> bool
        requires { IsRight (local self.now) }
        ensures { result ≡ is_stepped (local self.now) }
    {
        match self.next() {
            Instr::Call { .. } => true,
            Instr::Ret => !self.callers.is_empty(),
            instr => is_frame_local(instr),
        }
    }
}

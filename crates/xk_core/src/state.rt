//! The world of a running program, but for its finishes, and the arms of its steps.

ghost use Rattle.std.specs.Prelude.{◌≡◌, ℕ, ℤ, ◌+◌, ◌<◌, ◌≤◌, ◌^◌, true, false, List, Some, length, slice_get, slice_set, option_copied, IfOk, OnOk, OnErr, All};
ghost use Rattle.xk_types.specs.declared.world.Value.TheVariants as value;
ghost use Rattle.xk_types.specs.declared.instr.Instr.TheVariants as instruction;
ghost use Rattle.xk_types.specs.Code.{IsWithinLimits};
ghost use Rattle.xk_types.specs.World.{AreArguments, opening};
ghost use Rattle.xk_types.specs.Step.{Stepped, settled, moved, onward, none};
ghost use Rattle.xk_types.specs.Schedule.{is_step};
ghost use Rattle.xk_activity.specs.Activities.{act_at, Stands, Takes};
ghost use Rattle.xk_activity.specs.Local.{IsRight, IsSafe, local};
ghost use Rattle.xk_registrations.specs.Standings.{told_of};
ghost use Rattle.xk_activity.specs.StepAgreement.{frames_in};
ghost use Rattle.xk_law_schedules.specs.ClockRoom.{HasRoomLeft};
ghost use Rattle.xk_core.specs.LocalRun.{after_steps, HasRoomForSteps, TakesSteps};
ghost use Rattle.xk_core.specs.TicketAcceptance.{Accepts};
ghost use Rattle.xk_core.specs.Enabledness.{is_able};
ghost use Rattle.xk_core.specs.State.{core_of, IsReady};
ghost use Rattle.xk_core.specs.Core.{is_living, is_running, is_waiting, next_instruction, with_world, TakesStep};
ghost use Rattle.xk_core.specs.Change.{standing_after_step, AllowsChange};
ghost use Rattle.xk_core.specs.InstructionEffect.{concerns_finishes, is_visible, carried, CarriesOut, passed_on, IsRoomy, IsLast};
ghost use Rattle.xk_types.specs.World as world;

use crate::change::{StandingChange, StepChange};
use std::alloc::{AllocError, Global};
use std::marker::Model;
use xk_activity::{Activities, Activity, Next, Ticket};
use xk_bounds::Verified;
use xk_registrations::{Registrations, Standings};
use xk_types::{Event, Instr, Status, Value};

/// The module that is run, and the world but for its finishes: activities by their numbers, where they stand on clocks, the shared
/// numbers, and how many steps were taken. It stands for the world in which no activity has a finish open, and main's finish
/// governs all; and it tells what each activity is registered on, and how many activities there is room for.
#[derive(Drop)]
pub struct State<'m> {
    activities: Activities<'m>,
    standings: Standings,
    cells: Vec<i64>,
    steps: u64,
    /// What main was given.
    arguments: Vec<i64>,
    /// Where the values are listed that are handed to an activity that starts.
    handed: Vec<Value>,
}

impl<'m> Model for State<'m> {
    ghost use Rattle.std.specs.Prelude.{◌≡◌, length, min};
    ghost use Rattle.xk_core.specs.State.{StateValue};
    ghost use Rattle.xk_core.specs.Reservation.{AreReserved};
    ghost use Rattle.xk_registrations.specs.Standings.{told_of, rooms_of};

    ghost Value = { StateValue };

    ghost view = { λ s. record {
      module_run = s.activities.module_run;
      world = record {
        activities = s.activities.list;
        clocks = told_of s.standings;
        cells = s.cells.items;
        steps = s.steps;
        arguments = s.arguments.items;
      };
      held = s.standings.held;
      room = min s.activities.room s.standings.room;
    } };

    ghost invariant = { λ s. (length s.standings.held ≡ length s.activities.list)
        × AreReserved s.activities.module_run s.activities.list (rooms_of s.standings) };
}

/// An activity that is to begin, and what it will be registered on. It is in no world yet.
#[derive(Drop)]
pub struct Newcomer<'m> {
    activity: Activity<'m>,
    registrations: Registrations,
}

impl<'m> Model for Newcomer<'m> {
    ghost use Rattle.xk_core.specs.State.{NewcomerValue};

    ghost Value = { NewcomerValue };

    ghost view = { λ n. record {
      module_run = n.activity.module_run;
      act = n.activity.act;
      registrations = n.registrations.list;
      places = n.registrations.room;
    } };
}

/// A shared number, as a slot holds it.
fn cell(cells: &[i64], s: u16) -> Value
    requires { s < length cells.now }
    ensures { (n : ℤ) → slice_get cells.now s ≡ Some n → result ≡ value.Number n }
{
    Value::Number(cells[s as usize])
}

/// Writes a shared number.
fn set_cell(cells: &mut Vec<i64>, s: u16, n: i64)
    requires { s < length cells.old.items }
    ensures { cells.new.items ≡ slice_set cells.old.items s n }
{
    cells[s as usize] = n;
}

impl<'m> State<'m> {
    /// A world with main alone, before its first step, given these numbers.
    pub fn open(
        alloc: Global,
        verified: &'m Verified,
        arguments: &[i64],
    ) -> Result<State<'m>, AllocError>
        requires { AreArguments verified.now arguments.now }
        ensures module { IfOk result (λ s. s.module_run ≡ verified.now) }
        ensures world { IfOk result (λ s. s.world ≡ opening verified.now arguments.now) }
    {
        let program = verified.module();
        // For the call with unit 0: main's unit is there.
        let _main = &program.units()[0];
        let places = verified.places(0) as usize;
        Ok(State {
            activities: Activities::open(alloc, verified, arguments)?,
            standings: Standings::open(alloc, verified.clocks(), places)?,
            cells: program.shared().to_vec(alloc)?,
            steps: 0,
            arguments: arguments.to_vec(alloc)?,
            handed: Vec::new(alloc),
        })
    }

    /// The same state, with as much room, from the memory that this one is in.
    pub fn copy(&self) -> Result<State<'m>, AllocError>
        ensures same { IfOk result (λ s. s ≡ self.now) }
    {
        let alloc = self.activities.allocator();
        Ok(State {
            activities: self.activities.copy()?,
            standings: self.standings.copy()?,
            cells: self.cells.to_vec(alloc)?,
            steps: self.steps,
            arguments: self.arguments.to_vec(alloc)?,
            handed: Vec::new(alloc),
        })
    }

    /// The activities, but for their finishes.
    #[inline(always)]
    pub fn activities(&self) -> &Activities<'m>
        ensures module { result.now.module_run ≡ self.now.module_run }
        ensures list { result.now.list ≡ self.now.world.activities }
    {
        &self.activities
    }

    /// Where the activities stand on the clocks.
    #[inline(always)]
    pub fn standings(&self) -> &Standings
        ensures told { told_of result.now ≡ self.now.world.clocks }
        ensures held { length result.now.held ≡ length self.now.world.activities }
    {
        &self.standings
    }

    /// The shared numbers.
    pub fn cells(&self) -> &[i64]
        ensures { result.now ≡ self.now.world.cells }
    {
        &self.cells
    }

    /// What main was given.
    pub fn arguments(&self) -> &[i64]
        ensures { result.now ≡ self.now.world.arguments }
    {
        &self.arguments
    }

    /// The end of a step of activity a, whose standings change: it is counted, and each clock that is ready advances.
    #[inline(always)]
    fn end_step(&mut self, a: usize, change: StepChange)
        requires steps { self.old.world.steps + 1 < 2 ^ 64 }
        requires phases { All (λ c. c.phase + 1 < 2 ^ 64) self.old.world.clocks }
        requires there { a < length self.old.world.activities }
        requires allowed { AllowsChange self.old.world.clocks a change }
        ensures { core_of self.new ≡ with_world (core_of self.old) (settled (record self.old.world
            { clocks = moved a (standing_after_step change) self.old.world.clocks })) }
    {
        self.steps += 1;
        change.make(&mut self.standings, a, self.steps);
    }

    /// One step of running activity a, if nobody else can see it. Takes no memory.
    #[inline(always)]
    pub fn local(&mut self, a: usize) -> Next
        requires there { a < length self.old.world.activities }
        requires right { IsRight (local (frames_in self.old.module_run
            (act_at self.old.world.activities a))) }
        requires room { IsRoomy self.old.module_run self.old.world a }
        ensures { TakesStep (core_of self.old) a result (core_of self.new) }
    {
        let next = self.activities.local(a);
        if matches!(next, Next::Stepped) {
            self.end_step(a, StepChange::Nothing);
        }
        next
    }

    /// Activity a carries out an instruction that others can see, but that opens or closes no finish, and starts no activity.
    /// Takes no memory.
    pub fn execute_visible(&mut self, a: usize, instr: &Instr) -> Event
        requires enabled { is_step (carried self.old.module_run self.old.world a instr.now)
            ≡ true }
        requires visible { is_visible instr.now ≡ true }
        requires plain { concerns_finishes instr.now ≡ false }
        requires last { instr.now ≡ instruction.Ret → IsLast self.old.world a }
        requires room { IsRoomy self.old.module_run self.old.world a }
        requires left { (d : ℕ) → instr.now ≡ instruction.Make d
            → HasRoomLeft self.old.module_run self.old.world a }
        ensures stepped { CarriesOut self.old.module_run self.old.world a instr.now
            self.new.world result }
        ensures same { self.new.module_run ≡ self.old.module_run }
    {
        match instr {
            Instr::Make(d) => self.make(a, *d),
            Instr::Get { d, s } => self.get(a, *d, *s),
            Instr::Put { s, a: x } => self.put(a, *s, *x),
            Instr::AddTo { s, a: x } => self.add_to(a, *s, *x),
            Instr::Print(x) => self.print(a, *x),
            Instr::Resume(k) => self.resume(a, *k),
            Instr::Drop(k) => self.leave_clock(a, *k),
            Instr::Advance => self.arrive(a),
            Instr::Ret => self.end(a),
            _ => unreachable!(),
        }
    }

    /// Activity a prints the number in slot x.
    fn print(&mut self, a: usize, x: u16) -> Event
        requires enabled { is_step
            (carried self.old.module_run self.old.world a (instruction.Print x)) ≡ true }
        requires room { IsRoomy self.old.module_run self.old.world a }
        ensures stepped { CarriesOut self.old.module_run self.old.world a (instruction.Print x)
            self.new.world result }
        ensures same { self.new.module_run ≡ self.old.module_run }
    {
        let n = self.activities.number(a, x);
        self.activities.go_on(a);
        self.end_step(a, StepChange::Nothing);
        Event::Printed(n)
    }

    /// Activity a resumes the clock that slot k names.
    fn resume(&mut self, a: usize, k: u16) -> Event
        requires enabled { is_step
            (carried self.old.module_run self.old.world a (instruction.Resume k)) ≡ true }
        requires room { IsRoomy self.old.module_run self.old.world a }
        ensures stepped { CarriesOut self.old.module_run self.old.world a (instruction.Resume k)
            self.new.world result }
        ensures same { self.new.module_run ≡ self.old.module_run }
    {
        let c = self.activities.clock(a, k);
        self.activities.go_on(a);
        self.end_step(a, StepChange::Only(c, StandingChange::Resume));
        Event::Resumed
    }

    /// Activity a drops the clock that slot k names.
    fn leave_clock(&mut self, a: usize, k: u16) -> Event
        requires enabled { is_step
            (carried self.old.module_run self.old.world a (instruction.Drop k)) ≡ true }
        requires room { IsRoomy self.old.module_run self.old.world a }
        ensures stepped { CarriesOut self.old.module_run self.old.world a (instruction.Drop k)
            self.new.world result }
        ensures same { self.new.module_run ≡ self.old.module_run }
    {
        let c = self.activities.clock(a, k);
        self.activities.go_on(a);
        self.end_step(a, StepChange::Only(c, StandingChange::Drop));
        Event::Dropped
    }

    /// Activity a comes to wait at an `advance`.
    fn arrive(&mut self, a: usize) -> Event
        requires enabled { is_step
            (carried self.old.module_run self.old.world a instruction.Advance) ≡ true }
        requires room { IsRoomy self.old.module_run self.old.world a }
        ensures stepped { CarriesOut self.old.module_run self.old.world a instruction.Advance
            self.new.world result }
        ensures same { self.new.module_run ≡ self.old.module_run }
    {
        self.activities.arrive(a);
        self.end_step(a, StepChange::All(StandingChange::Resume));
        Event::Arrived
    }

    /// Activity a is over, and leaves its clocks.
    fn end(&mut self, a: usize) -> Event
        requires enabled { is_step
            (carried self.old.module_run self.old.world a instruction.Ret) ≡ true }
        requires last { IsLast self.old.world a }
        requires room { IsRoomy self.old.module_run self.old.world a }
        ensures stepped { CarriesOut self.old.module_run self.old.world a instruction.Ret
            self.new.world result }
        ensures same { self.new.module_run ≡ self.old.module_run }
    {
        self.activities.end(a);
        self.end_step(a, StepChange::All(StandingChange::Drop));
        Event::Ended
    }

    /// Activity a reads a shared number into slot d.
    fn get(&mut self, a: usize, d: u16, s: u16) -> Event
        requires enabled { is_step
            (carried self.old.module_run self.old.world a (instruction.Get d s)) ≡ true }
        requires room { IsRoomy self.old.module_run self.old.world a }
        ensures stepped { CarriesOut self.old.module_run self.old.world a (instruction.Get d s)
            self.new.world result }
        ensures same { self.new.module_run ≡ self.old.module_run }
    {
        let n = cell(&self.cells, s);
        self.activities.write(a, d, n);
        self.end_step(a, StepChange::Nothing);
        Event::Got
    }

    /// Activity a writes the number in slot x to a shared number.
    fn put(&mut self, a: usize, s: u16, x: u16) -> Event
        requires enabled { is_step
            (carried self.old.module_run self.old.world a (instruction.Put s x)) ≡ true }
        requires room { IsRoomy self.old.module_run self.old.world a }
        ensures stepped { CarriesOut self.old.module_run self.old.world a (instruction.Put s x)
            self.new.world result }
        ensures same { self.new.module_run ≡ self.old.module_run }
    {
        let n = self.activities.number(a, x);
        self.activities.go_on(a);
        set_cell(&mut self.cells, s, n);
        self.end_step(a, StepChange::Nothing);
        Event::Put
    }

    /// Activity a adds the number in slot x to a shared number, in one step.
    fn add_to(&mut self, a: usize, s: u16, x: u16) -> Event
        requires enabled { is_step
            (carried self.old.module_run self.old.world a (instruction.AddTo s x)) ≡ true }
        requires room { IsRoomy self.old.module_run self.old.world a }
        ensures stepped { CarriesOut self.old.module_run self.old.world a (instruction.AddTo s x)
            self.new.world result }
        ensures same { self.new.module_run ≡ self.old.module_run }
    {
        let n = self.activities.number(a, x);
        self.activities.go_on(a);
        self.cells[s as usize] = self.cells[s as usize].wrapping_add(n);
        self.end_step(a, StepChange::Nothing);
        Event::Added
    }

    /// Activity a makes a clock, for which there is room, and puts its name into slot d. No clock can become ready by it, so that the step only counts.
    fn make(&mut self, a: usize, d: u16) -> Event
        requires enabled { is_step
            (carried self.old.module_run self.old.world a (instruction.Make d)) ≡ true }
        requires room { IsRoomy self.old.module_run self.old.world a }
        requires left { HasRoomLeft self.old.module_run self.old.world a }
        ensures stepped { CarriesOut self.old.module_run self.old.world a (instruction.Make d)
            self.new.world result }
        ensures same { self.new.module_run ≡ self.old.module_run }
    {
        let name = self.standings.make(a);
        self.activities.write(a, d, Value::Clock(name));
        self.steps += 1;
        Event::Made
    }

    /// Activity a goes on to the next instruction, and the step ends.
    pub fn go_on(&mut self, a: usize)
        requires there { a < length self.old.world.activities }
        requires room { IsRoomy self.old.module_run self.old.world a }
        ensures { core_of self.new ≡ with_world (core_of self.old) (settled (record self.old.world {
          activities = slice_set self.old.world.activities a
              (onward (act_at self.old.world.activities a));
          clocks = moved a none self.old.world.clocks;
        })) }
    {
        self.activities.go_on(a);
        self.end_step(a, StepChange::Nothing);
    }

    /// The activity that activity a is about to start, which runs this unit with the values of these slots. Takes all memory that
    /// a state needs for it. The world stays as it is, also where memory is refused.
    #[inline(always)]
    pub fn prepare(&mut self, a: usize, unit: u16, args: &[u16]) -> Result<Newcomer<'m>, AllocError>
        requires enabled { is_step (carried self.old.module_run self.old.world a
            (instruction.Spawn unit args.now)) ≡ true }
        requires limits { IsWithinLimits self.old.module_run }
        ensures ready { IfOk result (IsReady self.new a unit args.now) }
        ensures same { core_of self.new ≡ core_of self.old }
    {
        let alloc = self.activities.allocator();
        self.activities.frames(a).values(args, &mut self.handed)?;
        let activity = self.activities.begin(alloc, a, unit, &self.handed)?;
        let places = self.activities.verified().places(unit) as usize;
        let registrations = self.standings.child(alloc, a, places, &self.handed)?;
        self.activities.reserve()?;
        self.standings.reserve()?;
        Ok(Newcomer {
            activity,
            registrations,
        })
    }

    /// Activity a starts the newcomer, for which there is room. No clock can become ready by it. Takes no memory.
    #[inline(always)]
    pub fn admit(&mut self, a: usize, newcomer: Newcomer<'m>) -> Event
        requires ready { (unit : ℕ) × (args : List ℕ) × IsReady self.old a unit args newcomer }
        requires room { IsRoomy self.old.module_run self.old.world a }
        requires numbers { length self.old.world.activities + 1 < 2 ^ 32 }
        ensures started { (unit : ℕ) (args : List ℕ) → IsReady self.old a unit args newcomer.entry
            → CarriesOut self.old.module_run self.old.world a (instruction.Spawn unit args)
            self.new.world result }
        ensures same { self.new.module_run ≡ self.old.module_run }
    {
        let Newcomer {
            activity,
            registrations,
        } = newcomer;
        self.standings.admit(registrations);
        self.activities.go_on(a);
        self.activities.admit(activity);
        self.steps += 1;
        Event::Spawned
    }

    /// Activity a passes the `advance` that it waits at.
    pub fn pass(&mut self, a: usize) -> Event
        requires enabled { is_step (passed_on self.old.world a) ≡ true }
        requires room { IsRoomy self.old.module_run self.old.world a }
        ensures stepped { passed_on self.old.world a ≡ Stepped self.new.world result }
        ensures same { self.new.module_run ≡ self.old.module_run }
    {
        let now = self.steps + 1;
        self.activities.pass(a, now);
        self.end_step(a, StepChange::All(StandingChange::Pass));
        Event::Passed
    }

    /// How many steps were taken.
    pub fn steps(&self) -> u64
        ensures { result ≡ self.now.world.steps }
    {
        self.steps
    }

    /// Whether activity a exists and runs.
    #[inline(always)]
    pub fn runs(&self, a: usize) -> bool
        ensures { result ≡ is_running self.now.world a }
    {
        a < self.activities.len() && matches!(self.activities.status(a), Status::Running)
    }

    /// The instruction that activity a carries out next, if it runs.
    #[inline(always)]
    pub fn next_instruction(&self, a: usize) -> Option<&'m Instr>
        requires { a < length self.now.world.activities
            → Stands self.now.module_run (act_at self.now.world.activities a) }
        ensures { option_copied result ≡ next_instruction self.now.module_run self.now.world a }
    {
        match self.runs(a) {
            true => Some(self.activities.next(a)),
            false => None,
        }
    }

    /// Whether activity a exists and waits at an `advance`.
    pub fn is_waiting(&self, a: usize) -> bool
        ensures { result ≡ is_waiting self.now.world a }
    {
        a < self.activities.len() && matches!(self.activities.status(a), Status::Arrived)
    }

    /// Whether activity a exists and hasn't ended.
    pub fn is_living(&self, a: usize) -> bool
        ensures { result ≡ is_living self.now.world a }
    {
        a < self.activities.len() && !matches!(self.activities.status(a), Status::Ended)
    }

    /// Whether activity a exists, isn't over, and isn't held back by a clock at an `advance`.
    #[inline(always)]
    pub fn is_able(&self, a: usize) -> bool
        ensures { result ≡ is_able self.now.world a }
    {
        match a < self.activities.len() {
            false => false,
            true => match self.activities.status(a) {
                Status::Running => true,
                Status::Arrived => !self.standings.waits(a),
                Status::Ended => false,
            },
        }
    }

    /// Up to max steps of running activity a that nobody else can see, and how many they were. No clock is ready to advance, and none
    /// becomes so. Takes no memory.
    pub fn run(&mut self, a: usize, max: u32) -> u32
        requires there { a < length self.old.world.activities }
        requires safe { IsSafe local (frames_in self.old.module_run
            (act_at self.old.world.activities a)) }
        requires steps { HasRoomForSteps (core_of self.old) a }
        ensures runs { TakesSteps (core_of self.old) a max result (core_of self.new) }
        ensures most { result ≤ max }
    {
        let n = self.activities.run(a, max);
        self.steps += n as u64;
        n
    }

    /// The steps of a ticket, whose activity runs. No clock is ready to advance, and none becomes so. Takes no memory.
    pub fn apply(&mut self, ticket: Ticket<'m>)
        requires before { Accepts (core_of self.old) ticket }
        requires steps { HasRoomForSteps (core_of self.old) ticket.act }
        ensures runs { TakesSteps (core_of self.old) ticket.entry.act ticket.entry.steps
            ticket.entry.steps (core_of self.new) }
        ensures changed { core_of self.new ≡ with_world (core_of self.old)
            (after_steps self.old.world ticket.entry.act ticket.entry.new ticket.entry.steps) }
    {
        self.steps += ticket.steps() as u64;
        self.activities.apply(ticket);
    }
}

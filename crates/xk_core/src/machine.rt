//! The core: a module that the verifier accepted, and a world that a legal schedule of it reaches.

ghost use Rattle.std.specs.Prelude.{◌≡◌, ◌⊎◌, true, false, ◌+◌, ◌<◌, ◌≤◌, Some, None, length, option_map, option_copied, slice_get, is_some, vec_capacity, IsTrue, IfOk, IfSome, IfNone, OnOk, OnErr};
ghost use Rattle.std.specs.Bool.{Decides};
ghost use Rattle.xk_types.specs.World.{AreArguments, opening, standing_of};
ghost use Rattle.xk_types.specs.Step.{Stepped, innermost, is_under, step, waits};
ghost use Rattle.xk_types.specs.Schedule.{IsReached, is_enabled, all_ended};
ghost use Rattle.xk_types.specs.Bound.{steps_bound};
ghost use Rattle.xk_core.specs.Core.{is_living, is_running, IsBeyond, Locally, next_instruction, next_of, governor, opening_core, StepsTo, WantsMemory, IsCore, IsLeastEnabled, is_quiet, advanced_now, is_held_back_by, is_registered_on, is_next_local, with_world, is_waiting};
ghost use Rattle.xk_core.specs.LocalRun.{RunsTo, AreLocal, IsUnseen, after_steps};
ghost use Rattle.xk_core.specs.TicketAcceptance.{Accepts};
ghost use Rattle.xk_core.specs.Alikeness.{AreUnderSameFinishes};
ghost use Rattle.xk_law_commute.specs.Conflicts as conflicts;
ghost use Rattle.xk_activity.specs.Activities.{act_at};
ghost use Rattle.xk_activity.specs.StepAgreement.{frames_in};
ghost use Rattle.xk_core.specs.Enabledness.{is_kept};
ghost use Rattle.xk_core.specs.FinishView.{is_end};
ghost use Rattle.xk_core.specs.InstructionEffect.{concerns_finishes, is_visible, IsLast};
ghost use Rattle.xk_types.specs.declared.instr.Instr.TheVariants as instruction;

use crate::change::is_registered;
use crate::state::State;
use std::alloc::{AllocError, Global};
use std::marker::Model;
use xk_activity::{Frames, Next, Ticket};
use xk_bounds::Verified;
use xk_finishes::FinishTree;
use xk_types::{Act, Args, ClockId, Event, Instr, Standing, Status};

/// A running program: one world, which some legal schedule of its module reaches. Every call is proved to keep it so, and
/// no step of it raises ClockUseException or meets a missing or wrong operand.
#[derive(Drop)]
pub struct Core<'m> {
    state: State<'m>,
    finishes: FinishTree,
}

impl<'m> Model for Core<'m> {
    ghost use Rattle.xk_core.specs.Core.{CoreValue, IsCore};
    ghost use Rattle.xk_core.specs.FinishView.{with_finishes, AreTold};

    ghost Value = { CoreValue };

    ghost view = { λ c. record {
      module_run = c.state.module_run;
      world = with_finishes c.finishes c.state.world;
    } };

    ghost invariant = { λ c. IsCore c.state.module_run (with_finishes c.finishes c.state.world)
        × AreTold c.state.module_run c.finishes c.state.world.activities };
}

/// Whether what a step did was to end its activity.
fn is_end(event: Event) -> bool
    ensures { result ≡ is_end event }
{
    matches!(event, Event::Ended)
}

impl<'m> Core<'m> {
    /// The opening world of a module: main alone, before its first step, given as many numbers as it takes. Err where memory was refused.
    pub fn open(
        alloc: Global,
        verified: &'m Verified,
        arguments: &[i64],
    ) -> Result<Core<'m>, AllocError>
        requires { AreArguments verified.now arguments.now }
        ensures { IfOk result (λ c. c ≡ opening_core verified.now arguments.now) }
    {
        let program = verified.module();
        // For the call with unit 0: main's unit is there.
        let _main = &program.units()[0];
        let state = State::open(alloc, verified, arguments)?;
        let finishes = FinishTree::open(alloc, verified.room(0).finishes)?;
        Ok(Core { state, finishes })
    }

    /// The same program in the same world, from the memory that this one is in. What the one does from now on changes nothing of the
    /// other. Err where memory was refused.
    pub fn copy(&self) -> Result<Core<'m>, AllocError>
        ensures same { IfOk result (λ c. c ≡ self.now) }
    {
        let state = self.state.copy()?;
        let finishes = self.finishes.copy()?;
        Ok(Core { state, finishes })
    }

    /// The module that it runs, as `open` was given it.
    pub fn module(&self) -> &'m Verified
        ensures same { result.now ≡ self.now.module_run }
        // A core that has taken no step is in the opening world.
        ensures opening { self.now.world.steps ≡ 0
            → self.now.world ≡ opening self.now.module_run self.now.world.arguments }
        // Its main was given as many numbers as it takes.
        ensures taken { AreArguments self.now.module_run self.now.world.arguments }
    {
        self.state.activities().verified()
    }

    /// The numbers that main was given, as `open` was given them.
    pub fn arguments(&self) -> &[i64]
        ensures { result.now ≡ self.now.world.arguments }
    {
        self.state.arguments()
    }

    /// The shared numbers.
    pub fn cells(&self) -> &[i64]
        ensures { result.now ≡ self.now.world.cells }
    {
        self.state.cells()
    }

    /// Whether the activity exists and can take a step: it runs, and doesn't wait at an `endfinish` for somebody who hasn't ended; or
    /// it waits at an `advance` and no clock holds it back.
    #[inline(always)]
    pub fn enabled(&self, act: Act) -> bool
        ensures { result ≡ is_enabled self.now.module_run self.now.world act }
    {
        self.state.is_able(act.0 as usize) && !self.is_kept(act)
    }

    /// Whether the activity stands at an `endfinish`, and somebody under the finish hasn't ended.
    #[inline(always)]
    fn is_kept(&self, act: Act) -> bool
        ensures { result ≡ is_kept self.now.module_run self.now.world act }
    {
        match self.next_instruction(act.0 as usize) {
            Some(Instr::EndFinish(_)) => !self.finishes.empty(act),
            _ => false,
        }
    }

    /// Whether every activity has ended.
    pub fn ended(&self) -> bool
        ensures { result ≡ all_ended self.now.world }
    {
        self.state.activities().all_ended()
    }

    /// The least enabled activity. There is one unless every activity has ended.
    pub fn pick(&self) -> Option<Act>
        ensures least { IfSome result (IsLeastEnabled self.now.module_run self.now.world) }
        ensures none { IfNone result (all_ended self.now.world ≡ true) }
    {
        for a in 0..self.state.activities().len() {
            let act = Act(a as u32);
            if self.enabled(act) {
                return Some(act);
            }
        }
        None
    }

    /// How many steps were taken: never more than the verified number.
    pub fn steps_done(&self) -> u64
        ensures count { result ≡ self.now.world.steps }
        ensures bound { result ≤ steps_bound self.now.module_run }
        ensures opening { result ≡ 0
            → self.now.world ≡ opening self.now.module_run self.now.world.arguments }
        // Every core is where a legal schedule of its module leads.
        ensures reached { IsReached self.now.module_run self.now.world }
    {
        self.state.steps()
    }

    /// How many activities were made, main among them. They are numbered from 0.
    pub fn activities(&self) -> u32
        ensures count { result ≡ length self.now.world.activities }
        // The module is accepted, and every core is where a legal schedule of it leads.
        ensures core { IsCore self.now.module_run self.now.world }
    {
        self.state.activities().len() as u32
    }

    /// How many clocks were made. They are numbered from 0.
    pub fn clocks(&self) -> u32
        ensures { result ≡ length self.now.world.clocks }
    {
        self.state.standings().clock_count() as u32
    }

    /// The number of the step that was the activity's last pass of an `advance`, counted from 1. Before its first pass it is
    /// what its starter's was at the start, and main's is 0.
    pub fn since(&self, act: Act) -> u64
        requires { act < length self.now.world.activities }
        ensures { option_map (λ a. a.since) (slice_get self.now.world.activities act)
            ≡ Some result }
    {
        self.state.activities().since(act.0 as usize)
    }

    /// The number of the step in which the clock last advanced, counted from 1; 0 before the first.
    pub fn last(&self, clock: ClockId) -> u64
        requires { clock < length self.now.world.clocks }
        ensures { option_map (λ c. c.last) (slice_get self.now.world.clocks clock) ≡ Some result }
    {
        self.state.standings().last(clock)
    }

    /// How often the clock has advanced.
    pub fn phase(&self, clock: ClockId) -> u64
        requires { clock < length self.now.world.clocks }
        ensures { option_map (λ c. c.phase) (slice_get self.now.world.clocks clock) ≡ Some result }
    {
        self.state.standings().phase(clock)
    }

    /// Whether the activity is registered on the clock: it made the clock or was given it, and has neither dropped it nor ended.
    pub fn registered(&self, act: Act, clock: ClockId) -> bool
        requires activity { act < length self.now.world.activities }
        requires clock { clock < length self.now.world.clocks }
        ensures { result ≡ is_registered_on self.now.world act clock }
    {
        is_registered(self.standing(act, clock))
    }

    /// Where the activity stands on the clock.
    pub fn standing(&self, act: Act, clock: ClockId) -> Standing
        requires activity { act < length self.now.world.activities }
        requires clock { clock < length self.now.world.clocks }
        ensures { option_map (λ c. standing_of c act) (slice_get self.now.world.clocks clock)
            ≡ Some result }
    {
        self.state.standings().standing(act.0 as usize, clock)
    }

    /// Whether no clock advanced in the last step.
    #[inline(always)]
    pub fn is_quiet(&self) -> bool
        ensures { result ≡ is_quiet self.now.world }
    {
        self.state.standings().is_quiet(self.state.steps())
    }

    /// Lists the clocks that advanced in the last step, rising, in place of what the list held. What it costs goes by how many these are.
    pub fn list_advanced(&self, list: &mut Vec<u32>)
        requires { length self.now.world.clocks ≤ vec_capacity list.old }
        ensures items { list.new.items ≡ advanced_now self.now.world }
        ensures room { vec_capacity list.old ≤ vec_capacity list.new }
    {
        self.state
            .standings()
            .list_advanced(self.state.steps(), list);
    }

    /// Whether the activity exists and waits at an `advance`.
    pub fn is_waiting(&self, act: Act) -> bool
        ensures { result ≡ is_waiting self.now.world act }
    {
        self.state.is_waiting(act.0 as usize)
    }

    /// Whether the activity exists and hasn't ended.
    pub fn is_living(&self, act: Act) -> bool
        ensures { result ≡ is_living self.now.world act }
    {
        self.state.is_living(act.0 as usize)
    }

    /// A clock that holds the activity back where it waits at an `advance`, if one does: it is signalled on it.
    pub fn waits_for(&self, act: Act) -> Option<ClockId>
        requires { act < length self.now.world.activities }
        ensures held { IfSome result (λ c. is_held_back_by self.now.world act c ≡ true) }
        ensures waits { is_some result ≡ waits self.now.world act }
    {
        self.state.standings().held_back_by(act.0 as usize)
    }

    /// The activity that opened the finish which governs this one, if one did.
    pub fn governor(&self, act: Act) -> Option<Act>
        requires { act < length self.now.world.activities }
        ensures { result ≡ governor self.now.world act }
    {
        self.finishes.governor(act)
    }

    /// Whether the activity is under the finish that the owner opened last: it was started while that was the innermost one, by the owner
    /// or by somebody under it.
    pub fn is_under(&self, owner: Act, act: Act) -> bool
        requires { owner < length self.now.world.activities }
        ensures { result ≡ is_under self.now.world.activities
            (innermost owner (act_at self.now.world.activities owner)) act }
    {
        self.finishes.is_under(owner, act)
    }

    /// Whether nobody else can see the next step of the activity. It can take that step then.
    #[inline(always)]
    pub fn next_local(&self, act: Act) -> bool
        ensures { result ≡ is_next_local self.now act }
    {
        match self.state.runs(act.0 as usize) {
            true => self.state.activities().is_local(act.0 as usize),
            false => false,
        }
    }

    /// The frames of the activity.
    pub fn frames(&self, act: Act) -> &Frames<'m>
        requires { act < length self.now.world.activities }
        ensures { result.now ≡ frames_in self.now.module_run
            (act_at self.now.world.activities act) }
    {
        self.state.activities().frames(act.0 as usize)
    }

    /// Whether the activity runs, waits at an `advance`, or is over.
    pub fn status(&self, act: Act) -> Status
        requires { act < length self.now.world.activities }
        ensures { result ≡ (act_at self.now.world.activities act).status }
    {
        self.state.activities().status(act.0 as usize)
    }

    /// Whether the activity has as many finishes open in the other core, and the same governs it there.
    pub fn has_same_finishes(&self, other: &Core<'_>, act: Act) -> bool
        requires here { act < length self.now.world.activities }
        requires there { act < length other.now.world.activities }
        ensures { Decides result (AreUnderSameFinishes (act_at self.now.world.activities act)
            (act_at other.now.world.activities act)) }
    {
        self.finishes.has_same_finishes(&other.finishes, act)
    }

    /// The instruction that the activity stands at, whatever its status.
    pub(crate) fn instruction(&self, act: Act) -> &'m Instr
        requires { act < length self.now.world.activities }
        ensures { conflicts.next_instruction self.now.module_run self.now.world act
            ≡ Some result.now }
    {
        self.state.activities().next(act.0 as usize)
    }

    /// Up to max steps of the activity that nobody else can see, and how many they were: max, or as many as there are before one that
    /// others can see, or that it can't take. Takes no memory.
    pub fn run(&mut self, act: Act, max: u32) -> u32
        ensures ran { RunsTo self.old act result self.new }
        ensures local { AreLocal self.old act result }
        ensures unseen { IsUnseen self.old act result }
        ensures counted { self.new.world.steps ≡ self.old.world.steps + result }
        ensures most { result ≤ max }
        ensures stops { (result ≡ max) ⊎ (is_next_local self.new act ≡ false) }
        ensures same_module { self.new.module_run ≡ self.old.module_run }
    {
        match self.state.runs(act.0 as usize) {
            true => self.state.run(act.0 as usize, max),
            false => 0,
        }
    }

    /// Whether the ticket's activity exists, and has the ticket's old frames: then its steps can be taken.
    pub fn accepts(&self, ticket: &Ticket<'m>) -> bool
        ensures { Decides result (Accepts self.now ticket.now) }
    {
        self.state.activities().accepts(ticket)
    }

    /// The steps of a ticket, which nobody else can see. Takes no memory.
    pub fn apply(&mut self, ticket: Ticket<'m>)
        requires { Accepts self.old ticket }
        // Only one that runs has a ticket's old frames: a local step is next from there.
        ensures runs { is_running self.old.world ticket.entry.act ≡ true }
        ensures ran { RunsTo self.old ticket.entry.act ticket.entry.steps self.new }
        ensures local { AreLocal self.old ticket.entry.act ticket.entry.steps }
        ensures unseen { IsUnseen self.old ticket.entry.act ticket.entry.steps }
        ensures counted { self.new.world.steps ≡ self.old.world.steps + ticket.entry.steps }
        ensures same_module { self.new.module_run ≡ self.old.module_run }
        // The activity has the ticket's new frames, and nothing else changes but the count of steps.
        ensures changed { self.new ≡ with_world self.old (after_steps self.old.world
            ticket.entry.act ticket.entry.new ticket.entry.steps) }
    {
        // A ticket has a local step or more.
        let _walked = ticket.steps();
        self.state.apply(ticket)
    }

    /// The instruction that activity a carries out next, if it runs.
    #[inline(always)]
    fn next_instruction(&self, a: usize) -> Option<&'m Instr>
        ensures { option_copied result ≡ next_instruction self.now.module_run self.now.world a }
    {
        self.state.next_instruction(a)
    }

    /// One step of the activity, and what it is seen to do. Only the start of an activity wants memory; where that is refused the
    /// core is as before.
    #[inline(always)]
    pub fn step(&mut self, act: Act) -> Result<Event, AllocError>
        requires { IsTrue (is_enabled self.old.module_run self.old.world act) }
        ensures stepped { IfOk result (StepsTo self.old act self.new) }
        ensures counted { OnOk result (self.new.world.steps ≡ self.old.world.steps + 1) }
        // The verified number of steps is never passed.
        ensures bound { OnOk result (self.new.world.steps ≤ steps_bound self.new.module_run) }
        ensures same_module { self.new.module_run ≡ self.old.module_run }
        ensures refused { OnErr result (self.new ≡ self.old) }
        ensures only_where_it_grows { OnErr result (WantsMemory self.old act) }
    {
        // For `bound`: that the world is one which a legal schedule reaches.
        let _state = &self.state;
        match self.next_instruction(act.0 as usize) {
            Some(instr) => self.step_running(act, instr),
            None => Ok(self.pass(act)),
        }
    }

    /// A running activity carries out its next instruction.
    #[inline(always)]
    fn step_running(&mut self, act: Act, instr: &Instr) -> Result<Event, AllocError>
        requires enabled { IsTrue (is_enabled self.old.module_run self.old.world act) }
        requires here { next_of self.old act ≡ Some instr.now }
        ensures stepped { IfOk result (StepsTo self.old act self.new) }
        ensures same_module { self.new.module_run ≡ self.old.module_run }
        ensures refused { OnErr result (self.new ≡ self.old) }
        ensures only_where_it_grows { OnErr result (WantsMemory self.old act) }
    {
        match instr {
            Instr::Finish(e) => Ok(self.open_finish(act, *e)),
            Instr::EndFinish(b) => Ok(self.close_finish(act, *b)),
            Instr::Spawn { unit, args } => self.start(act, *unit, args),
            _ => Ok(self.step_plain(act, instr)),
        }
    }

    /// A running activity carries out its next instruction, which opens or closes no finish, and starts no activity.
    #[inline(always)]
    fn step_plain(&mut self, act: Act, instr: &Instr) -> Event
        requires enabled { is_enabled self.old.module_run self.old.world act ≡ true }
        requires here { next_of self.old act ≡ Some instr.now }
        requires plain { concerns_finishes instr.now ≡ false }
        ensures stepped { StepsTo self.old act self.new result }
        ensures same_module { self.new.module_run ≡ self.old.module_run }
    {
        if self.is_seen(act) {
            return self.step_visible(act, instr);
        }
        match self.step_local(act) {
            Next::Stepped => Event::Local,
            Next::Visible => unreachable!(),
        }
    }

    /// Whether others can see the next step of a running activity.
    #[inline(always)]
    fn is_seen(&self, act: Act) -> bool
        requires { is_running self.now.world act ≡ true }
        ensures { Decides result (IsBeyond self.now act) }
    {
        !self.state.activities().is_local(act.0 as usize)
    }

    /// One step of a running activity, if nobody else can see it.
    #[inline(always)]
    fn step_local(&mut self, act: Act) -> Next
        requires enabled { IsTrue (is_enabled self.old.module_run self.old.world act) }
        requires runs { is_running self.old.world act ≡ true }
        ensures stepped { Locally self.old act result self.new }
        ensures same_module { self.new.module_run ≡ self.old.module_run }
    {
        self.state.local(act.0 as usize)
    }

    /// The activity passes the `advance` that it waits at.
    fn pass(&mut self, act: Act) -> Event
        requires enabled { is_enabled self.old.module_run self.old.world act ≡ true }
        requires waits { next_of self.old act ≡ None }
        ensures stepped { StepsTo self.old act self.new result }
        ensures same_module { self.new.module_run ≡ self.old.module_run }
    {
        self.state.pass(act.0 as usize)
    }

    /// The activity opens a finish.
    fn open_finish(&mut self, act: Act, e: u16) -> Event
        requires enabled { is_enabled self.old.module_run self.old.world act ≡ true }
        requires here { next_of self.old act ≡ Some (instruction.Finish e) }
        ensures stepped { StepsTo self.old act self.new result }
        ensures same_module { self.new.module_run ≡ self.old.module_run }
    {
        self.finishes.enter(act);
        self.state.go_on(act.0 as usize);
        Event::Opened
    }

    /// The activity closes its innermost open finish.
    fn close_finish(&mut self, act: Act, b: u16) -> Event
        requires enabled { is_enabled self.old.module_run self.old.world act ≡ true }
        requires here { next_of self.old act ≡ Some (instruction.EndFinish b) }
        ensures stepped { StepsTo self.old act self.new result }
        ensures same_module { self.new.module_run ≡ self.old.module_run }
    {
        self.finishes.leave(act);
        self.state.go_on(act.0 as usize);
        Event::Closed
    }

    /// The activity starts another, which runs this unit with these arguments.
    fn start(&mut self, act: Act, unit: u16, args: &Args) -> Result<Event, AllocError>
        requires enabled { is_enabled self.old.module_run self.old.world act ≡ true }
        requires here { next_of self.old act ≡ Some (instruction.Spawn unit args.now) }
        ensures stepped { IfOk result (StepsTo self.old act self.new) }
        ensures same_module { self.new.module_run ≡ self.old.module_run }
        ensures refused { OnErr result (self.new ≡ self.old) }
    {
        let a = act.0 as usize;
        let most = self.state.activities().verified().room(unit);
        let newcomer = self.state.prepare(a, unit, args.slots())?;
        self.finishes.spawned(act, most.finishes)?;
        Ok(self.state.admit(a, newcomer))
    }

    /// The activity carries out an instruction that opens or closes no finish, and starts no activity.
    #[inline(always)]
    fn step_visible(&mut self, act: Act, instr: &Instr) -> Event
        requires enabled { is_enabled self.old.module_run self.old.world act ≡ true }
        requires here { next_of self.old act ≡ Some instr.now }
        requires visible { is_visible instr.now ≡ true }
        requires plain { concerns_finishes instr.now ≡ false }
        requires last { instr.now ≡ instruction.Ret → IsLast self.old.world act }
        ensures stepped { StepsTo self.old act self.new result }
        ensures same_module { self.new.module_run ≡ self.old.module_run }
    {
        let event = self.state.execute_visible(act.0 as usize, instr);
        if is_end(event) {
            self.finishes.ended(act);
        }
        event
    }
}

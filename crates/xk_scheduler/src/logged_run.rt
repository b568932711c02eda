//! Runs that are written down as they go.

ghost use Rattle.std.specs.Prelude.{◌≡◌, ◌+◌, ◌<◌, ◌≤◌, true, false, [], ◌∷◌, ◌++◌, Ok, IfOk, IfErr, MatchResult, OnOk, OnErr, IsTrue};
ghost use Rattle.std.specs.Option.{option_to_list};
ghost use Rattle.std.specs.Vec.{vec_len, vec_capacity};
ghost use Rattle.xk_types.specs.Schedule.{all_ended, is_enabled, number_printed};
ghost use Rattle.xk_types.specs.Bound.{steps_bound};
ghost use Rattle.xk_types.specs.Logs.{one_step_of};
ghost use Rattle.xk_core.specs.Core.{StepsTo};
ghost use Rattle.xk_core.specs.TicketAcceptance.{Accepts};
ghost use Rattle.xk_core.specs.LocalRun.{RunsTo, AreLocal};
ghost use Rattle.xk_scheduler.specs.LoggedRuns.{IsRunOf, IsNoted, IsPutOff, IsShort, IsShortOf, IsFull, IsCommitted};

use crate::chooser::Chooser;
use crate::driver::{Driver, Turn};
use std::alloc::{AllocError, Global};
use xk_activity::Ticket;
use xk_bounds::Verified;
use xk_core::Core;
use xk_types::{Act, Entry, Event};

/// A run that came to its end.
#[derive(Drop)]
pub struct Ended<'m> {
    /// The module that was run.
    pub module: &'m Verified,
    /// Who took how many steps after whom.
    pub log: Vec<Entry>,
    /// The numbers that it printed, in order.
    pub printed: Vec<i64>,
    /// Where it led: to a world in which all activities have ended.
    pub core: Core<'m>,
    /// The log stands for a legal schedule of the module, which leads to the core, and prints these numbers.
    pub ghost run: { IsRunOf module.now log.items printed.items core },
    /// All activities have ended.
    pub ghost over: { all_ended core.world ≡ true },
}

/// A run that was cut short for want of memory.
#[derive(Drop)]
pub struct Partial<'m> {
    /// The module that was run.
    pub module: &'m Verified,
    /// Who took how many steps after whom.
    pub log: Vec<Entry>,
    /// The numbers that it printed, in order.
    pub printed: Vec<i64>,
    /// Where it led.
    pub core: Core<'m>,
    /// The log stands for a legal schedule of the module, which leads to the core, and prints these numbers.
    pub ghost run: { IsRunOf module.now log.items printed.items core },
}

/// A run so far, with its log: what a core is taken through is written down as it goes.
#[derive(Drop)]
pub struct Logged<'m> {
    /// The core, with those who can take a step.
    pub driver: Driver<'m>,
    /// Who took a step after whom.
    pub log: Vec<Entry>,
    /// The numbers that were printed, in order.
    pub printed: Vec<i64>,
    /// The log stands for a legal schedule of the core's module, which leads to the core, and prints these numbers.
    pub ghost run: { IsRunOf driver.module_run log.items printed.items driver },
}

/// Puts an entry at the end of a log that has room for it.
fn enter(log: &mut Vec<Entry>, entry: Entry)
    requires { vec_len log.old < vec_capacity log.old }
    ensures { log.new.items ≡ log.old.items ++ entry ∷ [] }
{
    if log.push(entry).is_err() {
        unreachable!()
    }
}

/// Writes a turn down, in lists that have room for it.
fn note(log: &mut Vec<Entry>, printed: &mut Vec<i64>, turn: Turn)
    requires log { vec_len log.old < vec_capacity log.old }
    requires printed { vec_len printed.old < vec_capacity printed.old }
    ensures log { log.new.items ≡ log.old.items ++ one_step_of turn.act ∷ [] }
    ensures printed { printed.new.items ≡ printed.old.items
        ++ option_to_list (number_printed turn.event) }
{
    let entry = Entry {
        act: turn.act.0,
        steps: 1,
    };
    enter(log, entry);
    if let Event::Printed(number) = turn.event
        && printed.push(number).is_err()
    {
        unreachable!()
    }
}

/// Keeps the number that an event prints, if it does. Where memory is refused, nothing is kept.
pub fn keep_printed(printed: &mut Vec<i64>, event: Event) -> Result<(), AllocError>
    ensures { MatchResult result
        (λ _. printed.new.items ≡ printed.old.items ++ option_to_list (number_printed event))
        (λ _. printed.new.items ≡ printed.old.items) }
{
    match event {
        Event::Printed(number) => {
            printed.push(number)?;
            Ok(())
        }
        Event::Local
        | Event::Made
        | Event::Got
        | Event::Put
        | Event::Added
        | Event::Opened
        | Event::Closed
        | Event::Spawned
        | Event::Resumed
        | Event::Dropped
        | Event::Arrived
        | Event::Passed
        | Event::Ended => Ok(()),
    }
}

impl<'m> Logged<'m> {
    /// A run before its first step. Where memory is refused, the core is given back as it was.
    pub fn open(alloc: Global, start: Core<'m>) -> Result<Logged<'m>, Core<'m>>
        requires { start.world.steps ≡ 0 }
        ensures same { IfOk result (λ r. r.driver ≡ start.entry) }
        ensures empty { IfOk result (λ r. r.log.items ≡ []) }
        ensures back { IfErr result (λ c. c ≡ start.entry) }
    {
        Ok(Logged {
            driver: Driver::new(alloc, start)?,
            log: Vec::new(alloc),
            printed: Vec::new(alloc),
        })
    }

    /// One step of the activity, with its entry, and what it is seen to do. Room for the entry and for a number is taken first. Where
    /// memory is refused no step is taken, and nothing has changed.
    #[inline(always)]
    pub fn step(&mut self, act: Act) -> Result<Event, AllocError>
        requires { IsTrue (is_enabled self.old.driver.module_run self.old.driver.world act) }
        ensures stepped { IfOk result (StepsTo self.old.driver act self.new.driver) }
        ensures logged { OnOk result
            (self.new.log.items ≡ self.old.log.items ++ one_step_of act ∷ []) }
        ensures same_module { self.new.driver.module_run ≡ self.old.driver.module_run }
        ensures counted { OnOk result
            (self.new.driver.world.steps ≡ self.old.driver.world.steps + 1) }
        // The verified number of steps is never passed.
        ensures bound { OnOk result
            (self.new.driver.world.steps ≤ steps_bound self.new.driver.module_run) }
        ensures refused { OnErr result (self.new.driver ≡ self.old.driver) }
        ensures refused_log { OnErr result (self.new.log.items ≡ self.old.log.items) }
        ensures refused_numbers { OnErr result
            (self.new.printed.items ≡ self.old.printed.items) }
        ensures only_where_it_grows { OnErr result
            (IsShortOf self.new.log self.new.printed self.old.driver act) }
    {
        self.log.try_reserve(1)?;
        self.printed.try_reserve(1)?;
        let event = self.driver.step(act)?;
        note(&mut self.log, &mut self.printed, Turn { act, event });
        Ok(event)
    }

    /// The steps of a ticket, with one entry for all of them. Room for the entry is taken first. Where memory is refused no step is
    /// taken, and nothing has changed.
    pub fn commit(&mut self, ticket: Ticket<'m>) -> Result<(), AllocError>
        requires { Accepts self.old.driver ticket }
        ensures ran { OnOk result
            (RunsTo self.old.driver ticket.entry.act ticket.entry.steps self.new.driver) }
        ensures local { OnOk result
            (AreLocal self.old.driver ticket.entry.act ticket.entry.steps) }
        ensures logged { OnOk result (IsCommitted self.old.log.items
            ticket.entry.act ticket.entry.steps self.new.log.items) }
        ensures silent { self.new.printed.items ≡ self.old.printed.items }
        ensures same_module { self.new.driver.module_run ≡ self.old.driver.module_run }
        ensures refused { OnErr result (self.new.driver ≡ self.old.driver) }
        ensures refused_log { OnErr result (self.new.log.items ≡ self.old.log.items) }
        ensures only_where_it_grows { OnErr result (IsFull self.new.log) }
    {
        self.log.try_reserve(1)?;
        let entry = Entry {
            act: ticket.act().0,
            steps: ticket.steps(),
        };
        self.driver.apply(ticket);
        enter(&mut self.log, entry);
        Ok(())
    }

    /// One turn, and whether there was one: there is none where all have ended. Err where memory was refused: then no step was taken.
    #[inline(always)]
    pub fn turn<C: Chooser>(&mut self, chooser: &mut C) -> Result<bool, AllocError>
        ensures noted { IfOk result (
            IsNoted C.answer C.after self.old.driver chooser.old self.old.log.items
            self.new.driver chooser.new self.new.log.items) }
        ensures bound { result ≡ Ok true
            → self.new.driver.world.steps ≤ steps_bound self.new.driver.module_run }
        ensures refused { OnErr result
            (IsPutOff C.after self.old.driver chooser.old self.new.driver chooser.new) }
        ensures refused_log { OnErr result (self.new.log.items ≡ self.old.log.items) }
        ensures only_where_it_grows { OnErr result
            (IsShort C.answer self.new.log self.new.printed self.old.driver chooser.old) }
    {
        if self.driver.over() {
            return Ok(false);
        }
        self.log.try_reserve(1)?;
        self.printed.try_reserve(1)?;
        match self.driver.turn(chooser)? {
            None => Ok(false),
            Some(turn) => {
                note(&mut self.log, &mut self.printed, turn);
                Ok(true)
            }
        }
    }

    /// The answer where all have ended.
    pub fn ended(self) -> Ended<'m>
        requires { all_ended self.driver.world ≡ true }
        ensures module { result.module.now ≡ self.entry.driver.module_run }
        ensures log { result.log.items ≡ self.entry.log.items }
        ensures core { result.core ≡ self.entry.driver }
    {
        let core = self.driver.into_core();
        Ended {
            module: core.module(),
            log: self.log,
            printed: self.printed,
            core,
        }
    }

    /// The answer where memory was refused.
    pub fn cut_short(self) -> Partial<'m>
        ensures module { result.module.now ≡ self.entry.driver.module_run }
        ensures log { result.log ≡ self.entry.log }
        ensures printed { result.printed ≡ self.entry.printed }
        ensures core { result.core ≡ self.entry.driver }
    {
        let core = self.driver.into_core();
        Partial {
            module: core.module(),
            log: self.log,
            printed: self.printed,
            core,
        }
    }

    /// The answer: Ok where all have ended, and Err where somebody can still take a step.
    pub fn close(self) -> Result<Ended<'m>, Partial<'m>>
        ensures core { IfOk result (λ e. e.core ≡ self.entry.driver) }
        ensures log { IfOk result (λ e. e.log.items ≡ self.entry.log.items) }
        ensures module { IfOk result (λ e. e.module.now ≡ self.entry.driver.module_run) }
        ensures partial_core { IfErr result (λ p. p.core ≡ self.entry.driver) }
        ensures partial_log { IfErr result (λ p. p.log ≡ self.entry.log) }
        ensures partial_module { IfErr result
            (λ p. p.module.now ≡ self.entry.driver.module_run) }
        // Somebody could still take a step.
        ensures goes_on { IfErr result (λ p. all_ended p.core.world ≡ false) }
    {
        if self.driver.over() {
            Ok(self.ended())
        } else {
            Err(self.cut_short())
        }
    }
}

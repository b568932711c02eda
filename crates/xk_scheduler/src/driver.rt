//! A core that a chooser drives, step by step.

ghost use Rattle.std.specs.Prelude.{◌≡◌, ◌+◌, ◌≤◌, true, length, slice_get, IfOk, IfErr, IfSome, OnOk, OnErr, IsTrue};
ghost use Rattle.std.specs.Vec.{vec_capacity};
ghost use Rattle.xk_types.specs.World.{AreArguments, opening};
ghost use Rattle.xk_types.specs.Schedule.{is_enabled, all_ended};
ghost use Rattle.xk_types.specs.Bound.{steps_bound};
ghost use Rattle.xk_collections.specs.NumberSets.{place_above};
ghost use Rattle.xk_core.specs.Core.{StepsTo, WantsMemory, is_next_local};
ghost use Rattle.xk_core.specs.TicketAcceptance.{Accepts};
ghost use Rattle.xk_core.specs.LocalRun.{RunsTo, AreLocal, IsUnseen};
ghost use Rattle.xk_scheduler.specs.Choosers.{enabled_in};

use crate::chooser::Chooser;
use crate::roster::Roster;
use std::alloc::{AllocError, Global};
use std::marker::Model;
use xk_activity::Ticket;
use xk_core::Core;
use xk_types::{Act, Event};

/// Whose step it was, and what it was seen to do.
#[derive(Clone, Copy, Debug)]
pub struct Turn {
    /// Whose step it was.
    pub act: Act,
    /// What it was seen to do.
    pub event: Event,
}

/// A core, and the set of its activities that can take a step, which is kept from step to step.
#[derive(Drop)]
pub struct Driver<'m> {
    core: Core<'m>,
    /// Who of the core can take a step, and who is held back.
    roster: Roster,
}

impl<'m> Model for Driver<'m> {
    ghost use Rattle.xk_core.specs.Core.{CoreValue};
    ghost use Rattle.xk_scheduler.specs.Rosters.{IsListed};

    ghost Value = { CoreValue };

    ghost view = { λ d. d.core };

    ghost invariant = { λ d. IsListed d.core d.roster };
}

/// Whether a chooser is steady, and nobody else can see the next step of the activity that it names.
#[inline(always)]
fn goes_ahead(is_steady: bool, core: &Core<'_>, act: Act) -> bool
    ensures steady { result ≡ true → is_steady ≡ true }
    ensures local { result ≡ true → is_next_local core.now act ≡ true }
    ensures ahead { is_steady ≡ true → is_next_local core.now act ≡ true → result ≡ true }
{
    is_steady && core.next_local(act)
}

impl<'m> Driver<'m> {
    ghost use Rattle.xk_scheduler.specs.LoggedRuns.{IsTaken, IsRefused};

    /// Takes a core over. Where memory is refused, the core is given back as it was.
    pub fn new(alloc: Global, start: Core<'m>) -> Result<Driver<'m>, Core<'m>>
        ensures same { IfOk result (λ d. d ≡ start.entry) }
        // A core that has taken no step is in the opening world.
        ensures opening { IfOk result (λ d. d.world.steps ≡ 0
            → d.world ≡ opening d.module_run d.world.arguments) }
        ensures taken { IfOk result (λ d. AreArguments d.module_run d.world.arguments) }
        ensures back { IfErr result (λ c. c ≡ start.entry) }
    {
        let Ok(roster) = Roster::of(alloc, &start) else {
            return Err(start);
        };
        Ok(Driver {
            core: start,
            roster,
        })
    }

    /// The core.
    pub fn core(&self) -> &Core<'m>
        ensures { result.now ≡ self.now }
    {
        &self.core
    }

    /// The core, handed out.
    pub fn into_core(self) -> Core<'m>
        ensures { result ≡ self.entry }
    {
        self.core
    }

    /// The least activity that can take a step.
    #[inline(always)]
    pub fn first(&self) -> Option<Act>
        ensures { result ≡ slice_get (enabled_in self.now.module_run self.now.world) 0 }
    {
        match self.roster.enabled().first() {
            Some(number) => Some(Act(number)),
            None => None,
        }
    }

    /// The least above this one that can take a step.
    #[inline(always)]
    pub fn above(&self, act: Act) -> Option<Act>
        ensures { let list = enabled_in self.now.module_run self.now.world in
            result ≡ slice_get list (place_above act list) }
    {
        match self.roster.enabled().above(act.0) {
            Some(number) => Some(Act(number)),
            None => None,
        }
    }

    /// Lists those who can take a step, rising, in place of what the list held.
    pub fn list(&self, list: &mut Vec<u32>)
        requires { length (enabled_in self.now.module_run self.now.world) ≤ vec_capacity list.old }
        ensures items { list.new.items ≡ enabled_in self.now.module_run self.now.world }
        ensures room { vec_capacity list.old ≤ vec_capacity list.new }
    {
        self.roster.enabled().list(list);
    }

    /// Whether all have ended.
    pub fn over(&self) -> bool
        ensures { result ≡ all_ended self.now.world }
    {
        self.roster.enabled().is_empty()
    }

    /// One step of the activity, and what it is seen to do. Only the start of an activity wants memory; where that is refused the core is
    /// as before.
    #[inline(always)]
    pub fn step(&mut self, act: Act) -> Result<Event, AllocError>
        requires { IsTrue (is_enabled self.old.module_run self.old.world act) }
        ensures stepped { IfOk result (StepsTo self.old act self.new) }
        ensures counted { OnOk result (self.new.world.steps ≡ self.old.world.steps + 1) }
        // The verified number of steps is never passed.
        ensures bound { OnOk result (self.new.world.steps ≤ steps_bound self.new.module_run) }
        ensures same_module { self.new.module_run ≡ self.old.module_run }
        ensures refused { OnErr result (self.new ≡ self.old) }
        ensures only_where_it_grows { OnErr result (WantsMemory self.old act) }
    {
        let event = self.core.step(act)?;
        self.roster.list_after(&self.core, act, event);
        Ok(event)
    }

    /// The steps of a ticket, which nobody else can see: all others can step as before. Takes no memory.
    pub fn apply(&mut self, ticket: Ticket<'m>)
        requires { Accepts self.old ticket }
        ensures ran { RunsTo self.old ticket.entry.act ticket.entry.steps self.new }
        ensures local { AreLocal self.old ticket.entry.act ticket.entry.steps }
        ensures unseen { IsUnseen self.old ticket.entry.act ticket.entry.steps }
        ensures counted { self.new.world.steps ≡ self.old.world.steps + ticket.entry.steps }
        ensures same_module { self.new.module_run ≡ self.old.module_run }
    {
        let act = ticket.act();
        self.core.apply(ticket);
        // For the driver's invariant: its clause `core` says that a legal schedule leads to the core, and so behind the ticket.
        let _there = self.core.activities();
        self.roster.list_one(&self.core, act);
    }

    /// The next turn: the step of the activity that the chooser names, and nothing where all have ended. Err only where that step
    /// wants memory, and was refused it: then it wasn't taken, though the chooser was asked.
    #[inline(always)]
    pub fn turn<C: Chooser>(&mut self, chooser: &mut C) -> Result<Option<Turn>, AllocError>
        ensures taken { IfOk result
            (IsTaken C.answer C.after self.old chooser.old self.new chooser.new) }
        // The verified number of steps is never passed.
        ensures bound { IfOk result (λ o. IfSome o
            (λ turn. self.new.world.steps ≤ steps_bound self.new.module_run)) }
        ensures refused { OnErr result
            (IsRefused C.answer C.after self.old chooser.old self.new chooser.new) }
    {
        if self.roster.enabled().is_empty() {
            return Ok(None);
        }
        let act = self.roster.pick(chooser);
        let event = self.step(act)?;
        Ok(Some(Turn { act, event }))
    }
}

impl<'m> Driver<'m> {
    ghost use Rattle.xk_core.specs.LocalRun.{RunsTo, AreLocal, IsUnseen};
    ghost use Rattle.xk_scheduler.specs.LocalRuns.{IsGone, IsRefusedBehind};

    /// The next turns up to one that others can see, and that one, if the chooser is steady; else one turn. It gives the last of these,
    /// and nothing where all have ended. The chooser is left as if it had named each. Err only where the step of the last turn wants
    /// memory, and was refused it: then it wasn't taken, though the chooser was asked.
    #[inline(always)]
    pub fn turns<C: Chooser>(&mut self, chooser: &mut C) -> Result<Option<Turn>, AllocError>
        ensures gone { IfOk result
            (IsGone C.answer C.after self.old chooser.old self.new chooser.new) }
        // The verified number of steps is never passed.
        ensures bound { IfOk result (λ o. IfSome o
            (λ turn. self.new.world.steps ≤ steps_bound self.new.module_run)) }
        ensures refused { OnErr result
            (IsRefusedBehind C.answer C.after self.old chooser.old self.new chooser.new) }
    {
        if self.roster.enabled().is_empty() {
            return Ok(None);
        }
        let is_steady = chooser.is_steady(self.roster.enabled());
        let act = self.roster.pick(chooser);
        if !goes_ahead(is_steady, &self.core, act) {
            let event = self.step(act)?;
            return Ok(Some(Turn { act, event }));
        }
        let (_steps, can_go_on) = self.run(act);
        if can_go_on {
            let event = self.step(act)?;
            return Ok(Some(Turn { act, event }));
        }
        let turn = self.turn(chooser)?;
        Ok(turn)
    }

    /// The steps of the activity that nobody else can see, up to one that others can, how many they were, and whether it can take that one.
    #[inline(always)]
    fn run(&mut self, act: Act) -> (u32, bool)
        requires { IsTrue (is_enabled self.old.module_run self.old.world act) }
        ensures ran { RunsTo self.old act result.0 self.new }
        ensures local { AreLocal self.old act result.0 }
        ensures unseen { IsUnseen self.old act result.0 }
        ensures can { result.1 ≡ is_enabled self.new.module_run self.new.world act }
        ensures same_module { self.new.module_run ≡ self.old.module_run }
    {
        let steps = self.core.run(act, u32::MAX);
        let can_go_on = self.roster.list_own(&self.core, act, false);
        (steps, can_go_on)
    }
}

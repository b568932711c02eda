//! Who of a core can take a step, and who is held back by a clock.

ghost use Rattle.std.specs.Prelude.{◌≡◌, ◌-◌, ◌<◌, ◌≤◌, ◌&&◌, not, if◌then◌else◌, false, length, IfOk};
ghost use Rattle.std.specs.Bool.{Decides};
ghost use Rattle.xk_types.specs.Step.{waits};
ghost use Rattle.xk_types.specs.Schedule.{is_enabled};
ghost use Rattle.xk_types.specs.Bound.{activities_bound, clocks_bound};
ghost use Rattle.xk_collections.specs.NumberSets.{with_member};
ghost use Rattle.xk_scheduler.specs.Choosers.{IsAnswered};
ghost use Rattle.xk_scheduler.specs.EnabledSet.{other_to_list, with_or_without};
ghost use Rattle.xk_scheduler.specs.Rosters.{AreThere, AreWoken, IsBehind, IsListed, StandOut, StandsOut, empty_roster, roster_of};
ghost use Rattle.xk_scheduler.specs.Waiters.{AreAsked, IsAsked, IsHeldNow, IsNotedIn, IsPut};

use crate::chooser::Chooser;
use std::alloc::{AllocError, Global};
use std::marker::Model;
use xk_collections::{NumberSet, WaitingLists};
use xk_core::Core;
use xk_types::{Act, Event};

/// Those of a core who can take a step, and those who can't for a clock. A step looks at its own activity, at one that it starts, and at one
/// that may wait for its end; and where a clock advances, at those who wait for that clock. Who waits at an `advance` for several clocks
/// stands in the list of one of them.
#[derive(Drop)]
pub(crate) struct Roster {
    /// Those who can take a step.
    enabled: NumberSet,
    /// Those who wait at an `advance`, each in the list of a clock that holds it back.
    waiting: WaitingLists,
    /// Where numbers of activities are listed, with room for all that there can be.
    shown: Vec<u32>,
    /// Where clocks that advanced are listed, with room for all that there can be.
    advanced: Vec<u32>,
}

impl Model for Roster {
    ghost use Rattle.std.specs.Vec.{vec_capacity};
    ghost use Rattle.xk_scheduler.specs.Rosters.{IsRoomy, RosterValue};

    ghost Value = { RosterValue };

    ghost view = { λ r. record {
      members = r.enabled.members;
      lists = r.waiting.lists;
      room = r.waiting.room;
    } };

    ghost invariant = { λ r. IsRoomy r.enabled r.waiting (vec_capacity r.shown)
        (vec_capacity r.advanced) };
}

impl Roster {
    /// The roster of a core. Err where memory was refused.
    pub(crate) fn of(alloc: Global, core: &Core<'_>) -> Result<Roster, AllocError>
        ensures { IfOk result (IsListed core.now) }
    {
        let module = core.module();
        // For `with_room`: its clause `core` says that the module is accepted.
        let _there = core.activities();
        let mut roster = Roster::with_room(alloc, module.activities(), module.clocks())?;
        roster.list_all(core);
        Ok(roster)
    }

    /// One with nobody in it, and room for so many activities and clocks.
    fn with_room(alloc: Global, acts: u32, clocks: u32) -> Result<Roster, AllocError>
        requires { acts ≤ 100000 }
        ensures { IfOk result (λ r. r ≡ empty_roster acts clocks) }
    {
        let enabled = NumberSet::with_room(alloc, acts)?;
        let waiting = WaitingLists::with_room(alloc, clocks, acts)?;
        let shown = Vec::with_capacity(alloc, acts as usize)?;
        let advanced = Vec::with_capacity(alloc, clocks as usize)?;
        Ok(Roster {
            enabled,
            waiting,
            shown,
            advanced,
        })
    }

    /// Those who can take a step.
    #[inline(always)]
    pub(crate) fn enabled(&self) -> &NumberSet
        ensures { result.now.members ≡ self.now.members }
    {
        &self.enabled
    }

    /// Who of these the chooser names.
    #[inline(always)]
    pub(crate) fn pick<C: Chooser>(&mut self, chooser: &mut C) -> Act
        requires some { 0 < length self.old.members }
        requires few { length self.old.members ≤ self.old.room }
        ensures picked { IsAnswered (C.answer chooser.old) self.old.members result }
        ensures goes_on { chooser.new ≡ C.after chooser.old self.old.members }
        ensures same { self.new ≡ self.old }
    {
        Act(chooser.pick(&self.enabled, &mut self.shown))
    }

    /// Puts an activity into the set if it can take a step, and else takes it out.
    #[inline(always)]
    pub(crate) fn list_one(&mut self, core: &Core<'_>, act: Act)
        requires { act < self.old.room }
        ensures { self.new ≡ record self.old {
          members = with_or_without core.now act self.old.members;
        } }
    {
        if core.enabled(act) {
            self.enabled.insert(act.0);
        } else {
            self.enabled.remove(act.0);
        }
    }

    /// Takes an activity that is in the set out of it, if it can't take another step, and says whether it can. Of one that is known to be
    /// held back that isn't asked.
    #[inline(always)]
    pub(crate) fn list_own(&mut self, core: &Core<'_>, act: Act, is_held: bool) -> bool
        requires { act < self.old.room }
        ensures can { result
            ≡ (not is_held && is_enabled core.now.module_run core.now.world act) }
        ensures members { self.new ≡ record self.old {
          members =
              (if result then self.old.members else with_member act false self.old.members);
        } }
    {
        if is_held || !core.enabled(act) {
            self.enabled.remove(act.0);
            return false;
        }
        true
    }

    /// Puts an activity that stands in no list into that of a clock which holds it back, if one does, and says whether one does.
    #[inline(always)]
    fn put_waiting(&mut self, core: &Core<'_>, act: Act) -> bool
        requires { StandsOut core.now.world act self.old }
        ensures put { IsPut core.now.world act self.old.lists self.new.lists }
        ensures kept { self.new ≡ record self.old { lists = self.new.lists } }
        ensures held { result ≡ waits core.now.world act }
    {
        match core.waits_for(act) {
            Some(clock) => {
                self.waiting.put(clock.0, act.0);
                true
            }
            None => false,
        }
    }

    /// Brings the lists of those who wait at an `advance` up to date after a step of the activity, which stands in none; and says whether
    /// it has come to wait and is held back.
    #[inline(always)]
    fn note_waiting(&mut self, core: &Core<'_>, act: Act, event: Event) -> bool
        requires { StandsOut core.now.world act self.old }
        ensures noted { IsNotedIn core.now.world act event self.old.lists self.new.lists }
        ensures kept { self.new ≡ record self.old { lists = self.new.lists } }
        ensures held { Decides result (IsHeldNow core.now.world act event) }
    {
        match event {
            Event::Arrived => self.put_waiting(core, act),
            _ => false,
        }
    }

    /// Lists all, where nobody is listed yet: who can take a step in the set, and who waits at an `advance` and can't with a clock.
    fn list_all(&mut self, core: &Core<'_>)
        requires { self.old ≡ empty_roster (activities_bound core.now.module_run)
            (clocks_bound core.now.module_run) }
        ensures { IsListed core.now self.new }
    {
        for a in 0..core.activities() {
            self.list_one(core, Act(a));
            if core.is_waiting(Act(a)) {
                self.put_waiting(core, Act(a));
            }
        }
    }

    /// Asks those anew who stand in the lists of clocks that advanced in the step that led to this core.
    fn ask_woken(&mut self, core: &Core<'_>)
        requires { AreThere core.now.world self.old }
        ensures woken { AreWoken core.now.world self.old self.new }
        ensures room { self.new.room ≡ self.old.room }
    {
        core.list_advanced(&mut self.advanced);
        self.waiting.take(&self.advanced, &mut self.shown);
        ask_each(&mut self.enabled, &mut self.waiting, core, &self.shown);
    }

    /// The same, where no clock may have advanced: then nothing else is looked at.
    #[inline(always)]
    fn list_woken(&mut self, core: &Core<'_>)
        requires { AreThere core.now.world self.old }
        ensures woken { AreWoken core.now.world self.old self.new }
        ensures room { self.new.room ≡ self.old.room }
    {
        if !core.is_quiet() {
            self.ask_woken(core);
        }
    }

    /// Brings the roster up to date after a step of the activity.
    #[inline(always)]
    pub(crate) fn list_after(&mut self, core: &Core<'_>, act: Act, event: Event)
        requires { IsBehind core.now act event self.old }
        ensures { IsListed core.now self.new }
    {
        self.list_woken(core);
        let is_held = self.note_waiting(core, act, event);
        self.list_own(core, act, is_held);
        if let Some(other) = other_to_list(core, act, event) {
            self.list_one(core, other);
        }
    }
}

/// Puts an activity that waits at an `advance` and stands in no list into that of a clock which holds it back, or else into the set.
#[inline(always)]
fn ask_anew(enabled: &mut NumberSet, waiting: &mut WaitingLists, core: &Core<'_>, act: Act)
    requires out { StandsOut core.now.world act (roster_of enabled.old waiting.old) }
    requires set { waiting.old.room ≤ enabled.old.room }
    ensures asked { IsAsked core.now.world act enabled.old.members waiting.old.lists
        enabled.new.members waiting.new.lists }
    ensures kept { enabled.new.room ≡ enabled.old.room }
    ensures room { waiting.new.room ≡ waiting.old.room }
{
    match core.waits_for(act) {
        Some(clock) => waiting.put(clock.0, act.0),
        None => enabled.insert(act.0),
    }
}

/// The same for each of these.
fn ask_each(enabled: &mut NumberSet, waiting: &mut WaitingLists, core: &Core<'_>, acts: &[u32])
    requires out { StandOut core.now.world acts.now (roster_of enabled.old waiting.old) }
    requires set { waiting.old.room ≤ enabled.old.room }
    ensures asked { AreAsked core.now.world acts.now enabled.old.members waiting.old.lists
        enabled.new.members waiting.new.lists }
    ensures kept { enabled.new.room ≡ enabled.old.room }
    ensures room { waiting.new.room ≡ waiting.old.room }
{
    for act in acts {
        ask_anew(enabled, waiting, core, Act(*act));
    }
}

/// Who but the activity that took it may be able to step after a step, and not before, or the other way round, whatever clocks do: one
/// that it started, and where it ended its activity the one that opened the finish which governs it.
#[inline(always)]
fn other_to_list(core: &Core<'_>, act: Act, event: Event) -> Option<Act>
    requires { act < length core.now.world.activities }
    ensures { result ≡ other_to_list core.now.world act event }
{
    match event {
        Event::Spawned => Some(Act(core.activities() - 1)),
        Event::Ended => core.governor(act),
        _ => None,
    }
}

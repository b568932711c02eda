//! What workers share: a run with its log, who is claimed, and whether to stop.

ghost use Rattle.std.specs.Prelude.{◌≡◌, ◌<◌, ◌∷◌, ◌++◌, [], true, false, IfOk, IfErr, IfSome, IfNone, OnOk, OnErr, All, Some, slice_get, length};
ghost use Rattle.std.specs.Bool.{Decides};
ghost use Rattle.xk_types.specs.Schedule.{is_enabled, all_ended};
ghost use Rattle.xk_types.specs.Logs.{one_step_of};
ghost use Rattle.xk_activity.specs.Local.{IsSafe, local, is_stepped};
ghost use Rattle.xk_activity.specs.StepAgreement.{frames_in};
ghost use Rattle.xk_activity.specs.Activities.{act_at};
ghost use Rattle.xk_core.specs.Core.{StepsTo, is_next_local};
ghost use Rattle.xk_scheduler.specs.Choosers.{enabled_in};
ghost use Rattle.xk_workers.specs.Claims.{claims_in, is_claimed, claims_after};
ghost use Rattle.xk_workers.specs.Run.{fresh_run, IsLegalRun};
ghost use Rattle.xk_workers.specs.LockTable.{AreLesserClaimed, IsFree, IsLeast, Tells, ActsVisibly, Commits, GoesOn, IsShort, given_up, in_room_of, told_to_stop, without_claim};

use crate::claims::Claims;
use crate::run::Run;
use std::alloc::{AllocError, Global};
use std::marker::Model;
use thiserror::Error;
use xk_activity::{Frames, Ticket};
use xk_core::Core;
use xk_scheduler::{Ended, Partial};
use xk_types::{Act, Entry, Event};

/// What a worker is to do.
#[derive(Clone, Copy, Debug)]
pub enum Take {
    /// Local steps of the activity, which is claimed for it: they can be computed while others have the lock.
    Work(Act),
    /// One step of the activity, under the lock.
    Act(Act),
    /// Wait: others have claimed whoever can take a step.
    Idle,
    /// Nothing: all have ended.
    Done,
    /// Nothing: the workers were told to stop.
    Stopped,
}

/// Why the steps of a ticket weren't taken.
#[derive(Clone, Copy, Debug, PartialEq, Eq, Error)]
pub enum CommitFault {
    /// The activity hasn't the frames any more that they were computed from.
    #[error("the activity hasn't the frames any more that the steps were computed from")]
    Stale,
    /// Memory was refused for the entry, or for the log that begins with it.
    #[error("out of memory")]
    OutOfMemory,
}

/// A running program that workers share under a lock, with its log: whoever has the lock finds a core to which the log leads.
#[derive(Drop)]
pub struct Shared<'m> {
    run: Run<'m>,
    claims: Claims,
    stopped: bool,
}

impl<'m> Model for Shared<'m> {
    ghost use Rattle.xk_workers.specs.Claims.{claims_in, claims_room, AreClaims};
    ghost use Rattle.xk_workers.specs.LockTable.{SharedValue};

    ghost Value = { SharedValue };

    ghost view = { λ s. record {
      run = s.run;
      claims = claims_in s.claims;
      claims_room = claims_room s.claims;
      stopped = s.stopped;
    } };

    ghost invariant = { λ s. AreClaims s.run.core (claims_in s.claims) };
}

/// The least activity that can take a step and isn't claimed. The least that can take one, claimed or not, is told.
fn first_unclaimed(run: &Run<'_>, claims: &Claims, first: Act) -> Option<Act>
    requires first { let list = enabled_in run.now.core.module_run run.now.core.world in
        Some first ≡ slice_get list 0 }
    ensures some { IfSome result (λ a.
        (is_enabled run.now.core.module_run run.now.core.world a ≡ true)
        × (is_claimed (claims_in claims.now) a ≡ false)) }
    ensures least { IfSome result (AreLesserClaimed (claims_in claims.now) run.now.core) }
    ensures none { IfNone result (All (λ a. is_claimed (claims_in claims.now) a ≡ true)
        (enabled_in run.now.core.module_run run.now.core.world)) }
{
    let mut next = Some(first);
    while let Some(act) = next {
        if !claims.has(act) {
            return Some(act);
        }
        next = run.above(act);
    }
    None
}

impl<'m> Shared<'m> {
    /// A core that has taken no step, to be shared. Takes no memory: the log is begun with the first step.
    pub fn open(alloc: Global, start: Core<'m>) -> Shared<'m>
        requires { start.world.steps ≡ 0 }
        ensures run { result.run ≡ fresh_run start.entry }
        ensures unclaimed { result.claims ≡ false ∷ [] }
        ensures room { result.claims_room ≡ 1 }
        ensures goes_on { result.stopped ≡ false }
    {
        Shared {
            run: Run::open(alloc, start),
            claims: Claims::none(alloc),
            stopped: false,
        }
    }

    /// The core: where the log leads.
    pub fn core(&self) -> &Core<'m>
        ensures { result.now ≡ self.now.run.core }
    {
        self.run.core()
    }

    /// The log, which stands for a legal schedule that leads to the core.
    pub fn log(&self) -> &[Entry]
        ensures same { result.now ≡ self.now.run.log }
        ensures legal { IsLegalRun self.now.run }
    {
        self.run.log()
    }

    /// What a worker is to do next. It is the least activity that can take a step and isn't claimed, so that who can't costs nothing.
    /// Takes no memory.
    pub fn take(&mut self) -> Take
        ensures told { Tells self.old result self.new }
        ensures least { IsLeast self.old result }
        // Steps that nobody else can see are computed outside the lock.
        ensures visible { ActsVisibly self.old result }
    {
        if self.stopped {
            return Take::Stopped;
        }
        let Some(first) = self.run.first() else {
            return Take::Done;
        };
        let Some(act) = first_unclaimed(&self.run, &self.claims, first) else {
            return Take::Idle;
        };
        if !self.run.core().next_local(act) {
            return Take::Act(act);
        }
        self.claims.put(act, true);
        Take::Work(act)
    }

    /// Whether the activity is claimed.
    pub fn claimed(&self, act: Act) -> bool
        ensures { result ≡ is_claimed self.now.claims act }
    {
        self.claims.has(act)
    }

    /// The frames of the activity, in room of their own, so that its local steps can be computed outside the lock. Err where
    /// memory is refused.
    pub fn copy(&self, act: Act) -> Result<Frames<'m>, AllocError>
        requires { act < length self.now.run.core.world.activities }
        ensures frames { IfOk result (λ f. f ≡ frames_in self.now.run.core.module_run
            (act_at self.now.run.core.world.activities act)) }
        // Where the next step is one of those, they can be computed.
        ensures safe { is_next_local self.now.run.core act ≡ true → IfOk result (IsSafe local) }
        ensures next { is_next_local self.now.run.core act ≡ true
            → IfOk result (λ f. is_stepped (local f) ≡ true) }
    {
        self.run.copy(act)
    }

    /// Ends the claim of the activity.
    pub fn release(&mut self, act: Act)
        requires { is_claimed self.old.claims act ≡ true }
        ensures { self.new ≡ without_claim act self.old }
    {
        self.claims.put(act, false);
    }

    /// Ends the claim of the activity, if it has one.
    fn end_claim(&mut self, act: Act)
        ensures { self.new ≡ without_claim act self.old }
    {
        if self.claimed(act) {
            self.release(act);
        }
    }

    /// Hands in local steps of an activity that were computed outside the lock: they are taken at once, with one entry. `Stale` exactly
    /// where the core hasn't the ticket's old frames for its activity, which is looked at first; `OutOfMemory` where memory is
    /// refused for the entry, or for the log that begins with it: only a full log wants some. However it goes, the activity isn't
    /// claimed any more, and where it goes wrong nothing else has changed but room.
    pub fn commit(&mut self, ticket: Ticket<'m>) -> Result<(), CommitFault>
        ensures { Commits self.old ticket.entry result self.new }
    {
        self.claims.put(ticket.act(), false);
        if !self.run.core().accepts(&ticket) {
            return Err(CommitFault::Stale);
        }
        let Ok(()) = self.run.commit(ticket) else {
            return Err(CommitFault::OutOfMemory);
        };
        Ok(())
    }

    /// One step of the activity, with its entry in the log. The room for the entry, for a number that it may print and for the claim of
    /// an activity that it may start is made first: where memory is refused no step is taken, and nothing has changed but room. None is
    /// refused where each of these has room and the activity isn't about to start another.
    pub fn act(&mut self, act: Act) -> Result<Event, AllocError>
        requires { IsFree self.old act }
        ensures stepped { IfOk result (StepsTo self.old.run.core act self.new.run.core) }
        ensures logged { OnOk result
            (self.new.run.log ≡ self.old.run.log ++ one_step_of act ∷ []) }
        ensures claims { IfOk result (λ e. self.new.claims ≡ claims_after e self.old.claims) }
        ensures same_module { self.new.run.core.module_run ≡ self.old.run.core.module_run }
        ensures goes_on { self.new.stopped ≡ self.old.stopped }
        ensures refused { OnErr result (self.new ≡ in_room_of self.new self.old) }
        ensures only_where_it_grows { OnErr result (IsShort self.new act) }
    {
        self.claims.children.try_reserve(1)?;
        let event = self.run.step(act)?;
        self.claims.note(event);
        Ok(event)
    }

    /// Gives the activity up for want of memory: it isn't claimed any more, and the workers are told to stop.
    pub(crate) fn give_up(&mut self, act: Act)
        ensures { self.new ≡ given_up act self.old }
    {
        self.end_claim(act);
        self.stop();
    }

    /// Tells the workers to stop.
    pub fn stop(&mut self)
        ensures { self.new ≡ told_to_stop self.old }
    {
        self.stopped = true;
    }

    /// Whether there is more to do: somebody can still take a step, and the workers weren't told to stop.
    pub(crate) fn goes_on(&self) -> bool
        ensures { Decides result (GoesOn self.now) }
    {
        !self.stopped && !self.run.core().ended()
    }

    /// The answer: Ok where all have ended, and Err where somebody can still take a step.
    pub(crate) fn close(self) -> Result<Ended<'m>, Partial<'m>>
        ensures log { IfOk result (λ e. e.log.items ≡ self.entry.run.log) }
        ensures core { IfOk result (λ e. e.core ≡ self.entry.run.core) }
        ensures module { IfOk result (λ e. e.module.now ≡ self.entry.run.core.module_run) }
        ensures partial_log { IfErr result (λ p. p.log.items ≡ self.entry.run.log) }
        ensures partial_core { IfErr result (λ p. p.core ≡ self.entry.run.core) }
        ensures partial_module { IfErr result
            (λ p. p.module.now ≡ self.entry.run.core.module_run) }
        // Somebody could still take a step.
        ensures goes_on { IfErr result (λ p. all_ended p.core.world ≡ false) }
    {
        self.run.close()
    }
}

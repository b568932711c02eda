//! A run with its log, which takes no memory before its first step.

ghost use Rattle.std.specs.Prelude.{◌≡◌, ◌∷◌, ◌++◌, [], true, false, None, slice_get, IfOk, IfErr, OnOk, OnErr, IsTrue, length, ◌<◌};
ghost use Rattle.xk_types.specs.Schedule.{is_enabled, all_ended};
ghost use Rattle.xk_types.specs.Logs.{one_step_of};
ghost use Rattle.xk_collections.specs.NumberSets.{place_above};
ghost use Rattle.xk_activity.specs.StepAgreement.{frames_in};
ghost use Rattle.xk_activity.specs.Activities.{act_at};
ghost use Rattle.xk_core.specs.Core.{StepsTo, IsCore};
ghost use Rattle.xk_core.specs.TicketAcceptance.{Accepts};
ghost use Rattle.xk_core.specs.LocalRun.{RunsTo, AreLocal};
ghost use Rattle.xk_scheduler.specs.Choosers.{enabled_in};
ghost use Rattle.xk_scheduler.specs.LoggedRuns.{IsCommitted};
ghost use Rattle.xk_workers.specs.Run.{fresh_run, in_room, run_at, IsStage, IsGoing, IsLegalRun, IsLogFull, IsShortOf};

use std::alloc::{AllocError, Global};
use std::marker::Model;
use std::mem;
use xk_activity::{Frames, Ticket};
use xk_core::Core;
use xk_scheduler::{Ended, Logged, Partial, unstarted};
use xk_types::{Act, Entry, Event};

/// How far a run is.
#[derive(Drop)]
pub enum Stage<'m> {
    /// Before its first step: main alone can take one.
    Fresh(Core<'m>),
    /// It has a log.
    Going(Logged<'m>),
    /// Taken out, while its log is begun.
    Between,
}

/// A run with its log.
#[derive(Drop)]
pub struct Run<'m> {
    alloc: Global,
    stage: Stage<'m>,
}

impl<'m> Model for Run<'m> {
    ghost use Rattle.xk_workers.specs.Run.{RunValue, run_at, IsStage, IsRun};

    ghost Value = { RunValue };

    ghost view = { λ r. run_at r.stage };

    ghost invariant = { λ r. IsStage r.stage × IsRun (run_at r.stage) };
}

/// The run with its log begun, or as it was where memory was refused for the list of those who can take a step.
fn begun<'m>(alloc: Global, stage: Stage<'m>) -> (Stage<'m>, Result<(), AllocError>)
    requires { IsStage stage }
    ensures same { run_at result.0 ≡ in_room (run_at result.0).room (run_at stage.entry) }
    ensures there { IsStage result.0 }
    ensures going { OnOk result.1 (IsGoing result.0) }
    ensures full { OnErr result.1 (IsLogFull (run_at result.0)) }
{
    match stage {
        Stage::Fresh(core) => match Logged::open(alloc, core) {
            Ok(logged) => (Stage::Going(logged), Ok(())),
            Err(core) => (Stage::Fresh(core), Err(AllocError)),
        },
        Stage::Going(logged) => (Stage::Going(logged), Ok(())),
        Stage::Between => unreachable!(),
    }
}

/// Begins the log. Where memory is refused nothing changes: it has no room yet.
fn begin_log(stage: &mut Stage<'_>, alloc: Global) -> Result<(), AllocError>
    requires { IsStage stage.old }
    ensures same { run_at stage.new ≡ in_room (run_at stage.new).room (run_at stage.old) }
    ensures there { IsStage stage.new }
    ensures going { OnOk result (IsGoing stage.new) }
    ensures full { OnErr result (IsLogFull (run_at stage.new)) }
{
    let (next, answer) = begun(alloc, mem::replace(stage, Stage::Between));
    drop(mem::replace(stage, next));
    answer
}

/// Begins the log, if it isn't begun. Where memory is refused nothing changes.
fn begin(stage: &mut Stage<'_>, alloc: Global) -> Result<(), AllocError>
    requires { IsStage stage.old }
    ensures same { run_at stage.new ≡ in_room (run_at stage.new).room (run_at stage.old) }
    ensures there { IsStage stage.new }
    ensures going { OnOk result (IsGoing stage.new) }
    ensures full { OnErr result (IsLogFull (run_at stage.new)) }
{
    match stage {
        Stage::Going(_) => Ok(()),
        _ => begin_log(stage, alloc),
    }
}

impl<'m> Run<'m> {
    /// A run before its first step. Takes no memory.
    pub fn open(alloc: Global, start: Core<'m>) -> Run<'m>
        requires { start.world.steps ≡ 0 }
        ensures { result ≡ fresh_run start.entry }
    {
        // For `core` of `activities`: a legal schedule leads to it, so that without a step it is the opening world.
        let _everybody = start.activities();
        Run {
            alloc,
            stage: Stage::Fresh(start),
        }
    }

    /// Where it has come to.
    pub fn core(&self) -> &Core<'m>
        ensures { result.now ≡ self.now.core }
    {
        match &self.stage {
            Stage::Fresh(core) => core,
            Stage::Going(logged) => logged.driver.core(),
            Stage::Between => unreachable!(),
        }
    }

    /// Its log.
    pub fn log(&self) -> &[Entry]
        ensures same { result.now ≡ self.now.log }
        ensures legal { IsLegalRun self.now }
    {
        match &self.stage {
            Stage::Fresh(_) => &[],
            Stage::Going(logged) => &logged.log,
            Stage::Between => unreachable!(),
        }
    }

    /// The least activity that can take a step. There is one unless all have ended.
    pub fn first(&self) -> Option<Act>
        ensures first { let list = enabled_in self.now.core.module_run self.now.core.world in
            result ≡ slice_get list 0 }
        ensures over { result ≡ None → all_ended self.now.core.world ≡ true }
    {
        match &self.stage {
            Stage::Fresh(core) => {
                if core.enabled(Act(0)) {
                    Some(Act(0))
                } else {
                    None
                }
            }
            Stage::Going(logged) => logged.driver.first(),
            Stage::Between => unreachable!(),
        }
    }

    /// The least above this one that can take a step.
    pub fn above(&self, act: Act) -> Option<Act>
        ensures { let list = enabled_in self.now.core.module_run self.now.core.world in
            result ≡ slice_get list (place_above act list) }
    {
        match &self.stage {
            Stage::Fresh(_) => None,
            Stage::Going(logged) => logged.driver.above(act),
            Stage::Between => unreachable!(),
        }
    }

    /// One step of the activity, with its entry. Where memory is refused no step is taken, and nothing has changed but room.
    pub fn step(&mut self, act: Act) -> Result<Event, AllocError>
        requires { IsTrue (is_enabled self.old.core.module_run self.old.core.world act) }
        ensures stepped { IfOk result (StepsTo self.old.core act self.new.core) }
        ensures logged { OnOk result (self.new.log ≡ self.old.log ++ one_step_of act ∷ []) }
        ensures same_module { self.new.core.module_run ≡ self.old.core.module_run }
        ensures refused { OnErr result (self.new ≡ in_room self.new.room self.old) }
        ensures only_where_it_grows { OnErr result (IsShortOf self.new act) }
        // The module is accepted, and every core is where a legal schedule of it leads.
        ensures core { IsCore self.old.core.module_run self.old.core.world }
    {
        begin(&mut self.stage, self.alloc)?;
        match &mut self.stage {
            Stage::Going(logged) => logged.step(act),
            _ => unreachable!(),
        }
    }

    /// The frames of the activity, in room of their own. Err where memory is refused.
    pub fn copy(&self, act: Act) -> Result<Frames<'m>, AllocError>
        requires { act < length self.now.core.world.activities }
        ensures frames { IfOk result (λ f. f ≡ frames_in self.now.core.module_run
            (act_at self.now.core.world.activities act)) }
        // The module is accepted, and every core is where a legal schedule of it leads.
        ensures core { IsCore self.now.core.module_run self.now.core.world }
    {
        let core = self.core();
        // For `core`, which is what `activities` says of each core.
        let _everybody = core.activities();
        core.frames(act).copy()
    }

    /// The steps of a ticket, with one entry. Where memory is refused none is taken, and nothing has changed but room.
    pub fn commit(&mut self, ticket: Ticket<'m>) -> Result<(), AllocError>
        requires { Accepts self.old.core ticket }
        ensures ran { OnOk result
            (RunsTo self.old.core ticket.entry.act ticket.entry.steps self.new.core) }
        ensures local { OnOk result
            (AreLocal self.old.core ticket.entry.act ticket.entry.steps) }
        ensures logged { OnOk result
            (IsCommitted self.old.log ticket.entry.act ticket.entry.steps self.new.log) }
        ensures printed { self.new.printed ≡ self.old.printed }
        ensures same_module { self.new.core.module_run ≡ self.old.core.module_run }
        ensures refused { OnErr result (self.new ≡ in_room self.new.room self.old) }
        ensures only_where_it_grows { OnErr result (IsLogFull self.new) }
        // The module is accepted, and every core is where a legal schedule of it leads.
        ensures core { IsCore self.old.core.module_run self.old.core.world }
    {
        begin(&mut self.stage, self.alloc)?;
        match &mut self.stage {
            Stage::Going(logged) => logged.commit(ticket),
            _ => unreachable!(),
        }
    }

    /// The answer: Ok where all have ended, and Err where somebody can still take a step.
    pub fn close(self) -> Result<Ended<'m>, Partial<'m>>
        ensures log { IfOk result (λ e. e.log.items ≡ self.entry.log) }
        ensures core { IfOk result (λ e. e.core ≡ self.entry.core) }
        ensures module { IfOk result (λ e. e.module.now ≡ self.entry.core.module_run) }
        ensures partial_log { IfErr result (λ p. p.log.items ≡ self.entry.log) }
        ensures partial_core { IfErr result (λ p. p.core ≡ self.entry.core) }
        ensures partial_module { IfErr result (λ p. p.module.now ≡ self.entry.core.module_run) }
        // Somebody could still take a step.
        ensures goes_on { IfErr result (λ p. all_ended p.core.world ≡ false) }
    {
        let Run { alloc, stage } = self;
        match stage {
            Stage::Fresh(core) => Err(unstarted(alloc, core)),
            Stage::Going(logged) => logged.close(),
            Stage::Between => unreachable!(),
        }
    }
}

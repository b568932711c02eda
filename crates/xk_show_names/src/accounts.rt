//! What the steps of a run were about.

ghost use Rattle.std.specs.Prelude.{◌≡◌, ◌<◌, true, List, ◌++◌, length, option_map, slice_get, Some, IfOk, OnErr, OnOk};
ghost use Rattle.xk_types.specs.Code.{ModuleValue};
ghost use Rattle.xk_types.specs.Schedule.{is_enabled};
ghost use Rattle.xk_types.specs.World.{World};
ghost use Rattle.xk_activity.specs.Activities.{act_at};
ghost use Rattle.xk_core.specs.Core.{StepsTo, next_instruction};
ghost use Rattle.xk_show_names.specs.declared.accounts.Account.{Account as AccountValue};
ghost use Rattle.xk_show_names.specs.Accounts.{account, held_in, instr_in, subject_at, subject_of, value_of};
ghost use Rattle.xk_show_names.specs.Accounts.{account_if_seen, recounted_by, seen_accounts};
ghost use Rattle.xk_show_events.specs.Steps.{IsSilentAfter, told_of_run};

use std::alloc::{AllocError, Global};
use xk_core::Core;
use xk_show_events::{LegalRun, RunStep, Tell, is_seen, take_step, tell_run};
use xk_types::{Act, Event, Instr, Module, Value};

/// What a step was about.
#[derive(Clone, Copy, Debug)]
pub enum Subject {
    /// Nothing that has a name.
    Nothing,
    /// The clock that it made, resumed or dropped.
    Clock(u32),
    /// The shared number that it read, wrote or added to.
    Shared(u16),
}

/// A step of a run, and what it was about.
#[derive(Clone, Copy)]
pub struct Account {
    pub step: RunStep,
    pub subject: Subject,
    /// What the shared number was before the step, if it was about one.
    pub before: Option<i64>,
    /// What it was behind the step.
    pub after: Option<i64>,
}

/// The instruction at a place, if there is one.
pub(crate) fn instr_at(program: &Module, unit: u16, place: u32) -> Option<&Instr>
    ensures { option_map (λ i. i.now) result ≡ instr_in program.now unit place }
{
    match program.units().get(unit as usize) {
        Some(unit) => unit.code.get(place as usize),
        None => None,
    }
}

/// The instruction that an activity carries out next, if it runs.
#[tactic(auto, using(crate::proofs::SubjectLemmas::idle, crate::proofs::SubjectLemmas::waiting, crate::proofs::SubjectLemmas::running))]
fn next_instr<'m>(core: &Core<'m>, act: Act) -> Option<&'m Instr>
    requires { act < length core.now.world.activities }
    ensures { option_map (λ i. i.now) result
        ≡ next_instruction core.now.module_run core.now.world act }
{
    if !core.is_living(act) {
        return None;
    }
    if core.is_waiting(act) {
        return None;
    }
    let frames = core.frames(act);
    instr_at(core.module().module(), frames.unit(), frames.place())
}

/// The clock that a slot of an activity's present frame holds.
fn held_in(core: &Core<'_>, act: Act, slot: u16) -> Subject
    requires there { act < length core.now.world.activities }
    requires slot { slot < length (act_at core.now.world.activities act).frame.slots }
    ensures { result ≡ held_in
        (slice_get (act_at core.now.world.activities act).frame.slots slot) }
{
    let value = core.frames(act).slot(slot);
    match &value {
        Value::Clock(clock) => Subject::Clock(clock.0),
        _ => Subject::Nothing,
    }
}

/// What the next step of an activity is about, which carries out this instruction.
#[tactic(auto, using(crate::proofs::SubjectLemmas::resumed_there, crate::proofs::SubjectLemmas::dropped_there))]
fn subject_at(core: &Core<'_>, act: Act, instr: &Instr) -> Subject
    requires there { act < length core.now.world.activities }
    requires enabled { is_enabled core.now.module_run core.now.world act ≡ true }
    requires next { next_instruction core.now.module_run core.now.world act ≡ Some instr.now }
    ensures { result ≡ subject_at core.now.world
        (act_at core.now.world.activities act).frame.slots (Some instr.now) }
{
    match instr {
        Instr::Get { s, .. } => Subject::Shared(*s),
        Instr::Put { s, .. } => Subject::Shared(*s),
        Instr::AddTo { s, .. } => Subject::Shared(*s),
        Instr::Make(_) => Subject::Clock(core.clocks()),
        Instr::Resume(slot) => held_in(core, act, *slot),
        Instr::Drop(slot) => held_in(core, act, *slot),
        _ => Subject::Nothing,
    }
}

/// What the next step of an activity is about.
#[tactic(auto, using(xk_show_events::proofs::StepLemmas::enabled_there))]
fn subject_of(core: &Core<'_>, act: Act) -> Subject
    requires { is_enabled core.now.module_run core.now.world act ≡ true }
    ensures { result ≡ subject_of core.now.module_run core.now.world act }
{
    match next_instr(core, act) {
        Some(instr) => subject_at(core, act, instr),
        None => Subject::Nothing,
    }
}

/// What the shared number is, if it is one.
fn value_of(core: &Core<'_>, subject: Subject) -> Option<i64>
    ensures { result ≡ value_of core.now.world subject }
{
    match subject {
        Subject::Nothing => None,
        Subject::Clock(_) => None,
        Subject::Shared(number) => core.cells().get(number as usize).copied(),
    }
}

/// Takes a step of an activity that can take one, and says what it was about. Only the start of an activity wants memory;
/// where that is refused the core is as before.
pub(crate) fn take_account(core: &mut Core<'_>, act: Act) -> Result<Account, AllocError>
    requires { is_enabled core.old.module_run core.old.world act ≡ true }
    ensures stepped { IfOk result (λ a. StepsTo core.old act core.new a.step.event) }
    ensures told { IfOk result (λ a. a ≡ account
        core.old.module_run act core.old.world core.new.world a.step.event) }
    ensures same_module { core.new.module_run ≡ core.old.module_run }
    ensures refused { OnErr result (core.new ≡ core.old) }
{
    let subject = subject_of(core, act);
    let before = value_of(core, subject);
    let step = take_step(core, act)?;
    Ok(Account {
        step,
        subject,
        before,
        after: value_of(core, subject),
    })
}

/// Tells of steps once they were taken, by what they were about, each by some items.
pub trait Recount<X> {
    /// What it tells of a step that led to a world, in a run of a module.
    ghost recount: { Self → ModuleValue → World → AccountValue → List X };

    /// Adds what is told of a step that led to the core. Err where memory was refused.
    fn push(
        &self,
        alloc: Global,
        out: &mut Vec<X>,
        core: &Core<'_>,
        account: &Account,
    ) -> Result<(), AllocError>
        ensures { OnOk result (out.new.items ≡ out.old.items
            ++ recount self.now core.now.module_run core.now.world account.now) };

    /// Whether it tells nothing of the steps behind the first so many of a run.
    fn is_silent_after(&self, _steps: u64) -> bool
        ensures { result ≡ true → (m : ModuleValue)
            → IsSilentAfter (recounted_by m (recount self.now m)) _steps }
    {
        false
    }
}

/// Takes the steps that another tells of.
#[derive(Drop)]
struct Recounting<'a, R> {
    recounter: &'a R,
}

impl<X, R: Recount<X>> Tell<X> for Recounting<'_, R> {
    ghost tell = { λ taking m. recounted_by m (R.recount taking.recounter.now m) };

    fn push_step(
        &self,
        alloc: Global,
        out: &mut Vec<X>,
        core: &mut Core<'_>,
        act: Act,
    ) -> Result<Event, AllocError> {
        let account = take_account(core, act)?;
        self.recounter.push(alloc, out, core, &account)?;
        Ok(account.step.event)
    }

    fn is_silent_after(&self, steps: u64) -> bool {
        self.recounter.is_silent_after(steps)
    }
}

/// Adds what is told of the steps of a run, in their order, once each was taken. The log is played again for it. Err
/// where memory was refused.
pub fn recount_run<X, R: Recount<X>>(
    recounter: &R,
    alloc: Global,
    out: &mut Vec<X>,
    legal: &LegalRun<'_, '_>,
) -> Result<(), AllocError>
    ensures { OnOk result (out.new.items ≡ out.old.items ++ told_of_run
        (recounted_by legal.now.module.now (R.recount recounter.now legal.now.module.now))
        legal.now.module.now legal.now.core.now.world.arguments legal.now.log.now) }
{
    tell_run(&Recounting { recounter }, alloc, out, legal)
}

/// Tells of the steps that other activities can see.
struct SeenAccounts;

impl Recount<Account> for SeenAccounts {
    ghost recount = { λ recounter m v a. account_if_seen a };

    fn push(
        &self,
        _alloc: Global,
        out: &mut Vec<Account>,
        _core: &Core<'_>,
        account: &Account,
    ) -> Result<(), AllocError> {
        if is_seen(account.step.event) {
            out.push(*account)?;
        }
        Ok(())
    }
}

/// The steps of a run that other activities can see, in their order, and what they were about. The log is played again
/// for it. Err where memory was refused.
pub(crate) fn seen_accounts(
    alloc: Global,
    legal: &LegalRun<'_, '_>,
) -> Result<Vec<Account>, AllocError>
    ensures { IfOk result (λ v. v.items ≡ seen_accounts
        legal.now.module.now legal.now.core.now.world.arguments legal.now.log.now) }
{
    let mut list = Vec::new(alloc);
    recount_run(&SeenAccounts, alloc, &mut list, legal)?;
    Ok(list)
}

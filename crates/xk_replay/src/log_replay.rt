//! A log is played again.

ghost use Rattle.std.specs.Prelude.{◌≡◌, ℕ, IfOk, IfErr};
ghost use Rattle.xk_types.specs.World.{AreArguments};
ghost use Rattle.xk_scheduler.specs.LoggedRuns.{IsRunOf};
ghost use Rattle.xk_replay.specs.declared.fault.ReplayFault.TheVariants as fault;
ghost use Rattle.xk_replay.specs.Replay.{Fails, IsFaultOf, IsLegal, IsRepeated, IsStop, IsStoppedAt, IsUnfinished, IsWhole};

use crate::fault::ReplayFault;
use std::alloc::{AllocError, Global};
use xk_bounds::Verified;
use xk_core::Core;
use xk_log::Log;
use xk_scheduler::{Ended, Partial, keep_printed};
use xk_types::{Act, Entry};

/// Where a log leads, and what it prints on the way.
#[derive(Drop)]
struct Led<'m> {
    core: Core<'m>,
    printed: Vec<i64>,
}

/// Plays a log again, main being given as many numbers as it takes: carries out the steps that its entries stand for, one after the other, and stops before the first that isn't
/// enabled, which comes behind at most the verified number of steps. Ok exactly where each is enabled and behind the last all have ended,
/// want of memory aside; the answer has the log as it was given. Where there is none, the log comes back with the reason.
pub fn replay<'m>(
    alloc: Global,
    verified: &'m Verified,
    arguments: &[i64],
    log: Log,
) -> Result<Ended<'m>, (Log, ReplayFault)>
    requires { AreArguments verified.now arguments.now }
    ensures same_module { IfOk result (λ e. e.module.now ≡ verified.now) }
    ensures same_arguments { IfOk result (λ e. e.core.world.arguments ≡ arguments.now) }
    ensures same_log { IfOk result (λ e. e.log.items ≡ log) }
    ensures log_back { IfErr result (λ f. f.0 ≡ log) }
    // What is played to its end is the log of a whole run; and each such log is, want of memory aside.
    ensures whole { IfOk result (λ _. IsWhole verified.now arguments.now log) }
    ensures never_wrongly { IsWhole verified.now arguments.now log
        → IfErr result (λ f. f.1 ≡ fault.OutOfMemory) }
    // A log of which a fault is told is none of a whole run.
    ensures fault { IfErr result (λ f. IsFaultOf verified.now arguments.now log f.1) }
    // And the fault that a log has is told, want of memory aside.
    ensures stopped { (i : ℕ) → IsStoppedAt verified.now arguments.now log i
        → Fails (fault.NotEnabled i) result }
    ensures unfinished { IsUnfinished verified.now arguments.now log
        → Fails fault.NotEnded result }
{
    let entries = log.into_entries();
    match carry_out(alloc, verified, arguments, &entries) {
        Err(fault) => Err((Log::new(entries), fault)),
        Ok(led) => close(verified, arguments, entries, led),
    }
}

/// Plays a log again as `replay` does, and takes one, too, that stops before the run does. Ok exactly where each step is enabled, want of
/// memory aside; the answer has the log as it was given. Where one isn't, the log comes back with the reason.
pub fn replay_so_far<'m>(
    alloc: Global,
    verified: &'m Verified,
    arguments: &[i64],
    log: Log,
) -> Result<Partial<'m>, (Log, ReplayFault)>
    requires { AreArguments verified.now arguments.now }
    ensures same_module { IfOk result (λ p. p.module.now ≡ verified.now) }
    ensures same_arguments { IfOk result (λ p. p.core.world.arguments ≡ arguments.now) }
    ensures same_log { IfOk result (λ p. p.log.items ≡ log) }
    ensures log_back { IfErr result (λ f. f.0 ≡ log) }
    // What is played is legal; and each legal log is played, want of memory aside.
    ensures legal { IfOk result (λ _. IsLegal verified.now arguments.now log) }
    ensures never_wrongly { IsLegal verified.now arguments.now log
        → IfErr result (λ f. f.1 ≡ fault.OutOfMemory) }
    // A log of which a fault is told has a step that isn't enabled.
    ensures fault { IfErr result (λ f. IsStop verified.now arguments.now log f.1) }
    // And the first one is told, want of memory aside.
    ensures stopped { (i : ℕ) → IsStoppedAt verified.now arguments.now log i
        → Fails (fault.NotEnabled i) result }
{
    let steps = log.into_entries();
    match carry_out(alloc, verified, arguments, &steps) {
        Err(fault) => Err((Log::new(steps), fault)),
        Ok(led) => Ok(Partial {
            module: verified,
            log: steps,
            printed: led.printed,
            core: led.core,
        }),
    }
}

/// The answer to a log that leads so far.
fn close<'m>(
    verified: &'m Verified,
    arguments: &[i64],
    entries: Vec<Entry>,
    led: Led<'m>,
) -> Result<Ended<'m>, (Log, ReplayFault)>
    requires run { IsRunOf verified.now entries.items led.printed.items led.core }
    requires given { led.core.world.arguments ≡ arguments.now }
    ensures same_module { IfOk result (λ e. e.module.now ≡ verified.now) }
    ensures same_arguments { IfOk result (λ e. e.core.world.arguments ≡ arguments.now) }
    ensures same_log { IfOk result (λ e. e.log.items ≡ entries.items) }
    ensures log_back { IfErr result (λ f. f.0 ≡ entries.items) }
    ensures whole { IfOk result (λ _. IsWhole verified.now arguments.now entries.items) }
    ensures fault { IfErr result (λ f. IsFaultOf verified.now arguments.now entries.items f.1) }
{
    let over = led.core.ended();
    if over {
        Ok(Ended {
            module: verified,
            log: entries,
            printed: led.printed,
            core: led.core,
        })
    } else {
        Err((Log::new(entries), ReplayFault::NotEnded))
    }
}

/// Carries out all entries of a log.
fn carry_out<'m>(
    alloc: Global,
    verified: &'m Verified,
    arguments: &[i64],
    log: &[Entry],
) -> Result<Led<'m>, ReplayFault>
    requires { AreArguments verified.now arguments.now }
    ensures led { IfOk result (λ led.
        IsRunOf verified.now log.now led.printed.items led.core) }
    ensures given { IfOk result (λ led. led.core.world.arguments ≡ arguments.now) }
    ensures stopped { IfErr result (IsStop verified.now arguments.now log.now) }
{
    let mut core = Core::open(alloc, verified, arguments)?;
    let mut printed = Vec::new(alloc);
    for (i, entry) in log.iter().enumerate() {
        if !repeat(&mut core, &mut printed, *entry)? {
            return Err(ReplayFault::NotEnabled(i as u64));
        }
    }
    Ok(Led { core, printed })
}

/// Carries out the steps of an entry, and tells whether all of them were enabled. It stops before the first that isn't. Those that
/// nobody else can see are taken as many at once as there are.
fn repeat(core: &mut Core<'_>, printed: &mut Vec<i64>, entry: Entry) -> Result<bool, AllocError>
    ensures repeated { IfOk result
        (IsRepeated core.old printed.old.items entry core.new printed.new.items) }
    ensures same_module { core.new.module_run ≡ core.old.module_run }
{
    let act = Act(entry.act);
    let mut done = 0;
    // Each turn but the last one ends with a step that others can see.
    for turn in 0..entry.steps {
        let unseen = core.run(act, entry.steps - done);
        done += unseen;
        if done == entry.steps {
            return Ok(true);
        }
        if !core.enabled(act) {
            return Ok(false);
        }
        let event = core.step(act)?;
        keep_printed(printed, event)?;
        done += 1;
    }
    Ok(true)
}

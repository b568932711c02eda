//! How far the steps of a log can be taken.

ghost use Rattle.std.specs.Prelude.{◌≡◌, false, ◌+◌, ◌<◌, ◌≤◌, replicate, IfOk};
ghost use Rattle.xk_types.specs.World.{AreArguments};
ghost use Rattle.xk_types.specs.Schedule.{Through, is_enabled, run};
ghost use Rattle.xk_show_where.specs.Progress.{IsTold};

use std::alloc::{AllocError, Global};
use xk_bounds::Verified;
use xk_core::Core;
use xk_types::{Act, Entry};

/// A step of a log, by its entry.
#[derive(Clone, Copy, Debug, PartialEq, Eq)]
pub struct Stop {
    /// The number of the entry, counted from 0.
    pub entry: u64,
    /// Which of the entry's steps it is, counted from 1.
    pub step: u32,
    /// How many steps the entry stands for.
    pub steps: u32,
    /// Whose they are.
    pub act: u32,
}

/// Where the steps of a log lead, as far as they can be taken, and the first that can't.
#[derive(Drop)]
pub struct Progress<'m> {
    /// Where they lead.
    pub core: Core<'m>,
    /// The first step that can't be taken, if there is one.
    pub stop: Option<Stop>,
}

/// Takes the steps of a log, main being given as many numbers as it takes, up to the first that can't be taken. Err where memory was
/// refused.
pub fn take_steps<'m>(
    alloc: Global,
    verified: &'m Verified,
    arguments: &[i64],
    log: &[Entry],
) -> Result<Progress<'m>, AllocError>
    requires { AreArguments verified.now arguments.now }
    ensures same_module { IfOk result (λ p. p.core.module_run ≡ verified.now) }
    ensures told { IfOk result (λ p. IsTold verified.now arguments.now log.now
        p.core.world p.stop) }
{
    let mut core = Core::open(alloc, verified, arguments)?;
    for (i, entry) in log.iter().enumerate() {
        let taken = take_entry(&mut core, *entry)?;
        if taken < entry.steps {
            return Ok(Progress {
                core,
                stop: Some(stop_at(i, taken, *entry)),
            });
        }
    }
    Ok(Progress { core, stop: None })
}

/// The step behind so many of an entry.
fn stop_at(entry_number: usize, taken: u32, entry: Entry) -> Stop
    requires { taken < entry.steps }
    ensures { result ≡ record {
      entry = entry_number;
      step = taken + 1;
      steps = entry.steps;
      act = entry.act;
    } }
{
    Stop {
        entry: entry_number as u64,
        step: taken + 1,
        steps: entry.steps,
        act: entry.act,
    }
}

/// Takes the steps of an entry, up to the first that can't be taken. How many were.
fn take_entry(core: &mut Core<'_>, entry: Entry) -> Result<u32, AllocError>
    ensures led { IfOk result (λ n. run core.old.module_run (replicate n entry.act)
        core.old.world ≡ Through core.new.world) }
    ensures counted { IfOk result (λ n. core.new.world.steps ≡ core.old.world.steps + n) }
    ensures most { IfOk result (λ n. n ≤ entry.steps) }
    ensures stops { IfOk result (λ n. n < entry.steps
        → is_enabled core.new.module_run core.new.world entry.act ≡ false) }
    ensures same_module { core.new.module_run ≡ core.old.module_run }
{
    let act = Act(entry.act);
    for done in 0..entry.steps {
        if !core.enabled(act) {
            return Ok(done);
        }
        core.step(act)?;
    }
    Ok(entry.steps)
}

//! A legal run, as it is told of. Not all may have ended in it.

ghost use Rattle.std.specs.Prelude.{◌≡◌, IfOk, string_bytes};
ghost use Rattle.xk_types.specs.Logs.{schedule_of};
ghost use Rattle.xk_types.specs.Schedule.{Leads};
ghost use Rattle.xk_show_events.specs.Endings.{ending_words, living};

use std::alloc::{AllocError, Global};
use xk_bounds::Verified;
use xk_core::Core;
use xk_scheduler::{Ended, Partial};
use xk_types::{Act, Entry};

/// A legal run of a module, by its log.
#[derive(Clone, Copy)]
pub struct LegalRun<'a, 'm> {
    /// The module that was run.
    pub module: &'m Verified,
    /// Who took how many steps after whom.
    pub log: &'a [Entry],
    /// Where it led.
    pub core: &'a Core<'m>,
    /// The log stands for a legal schedule of the module, which leads to the core.
    pub ghost leads: { Leads module.now (schedule_of log.now) core.now.world },
}

/// How many activities of a core haven't ended.
fn living(core: &Core<'_>) -> u32
    ensures { result ≡ living core.now.world }
{
    let mut count = 0;
    for act in 0..core.activities() {
        if core.is_living(Act(act)) {
            count += 1;
        }
    }
    count
}

impl<'a, 'm> LegalRun<'a, 'm> {
    /// A run that came to its end.
    pub fn of(ended: &'a Ended<'m>) -> LegalRun<'a, 'm>
        ensures module { result.module.now ≡ ended.now.module.now }
        ensures log { result.log.now ≡ ended.now.log.items }
        ensures core { result.core.now ≡ ended.now.core }
    {
        LegalRun {
            module: ended.module,
            log: &ended.log,
            core: &ended.core,
        }
    }

    /// A run that may go on.
    pub fn of_partial(partial: &'a Partial<'m>) -> LegalRun<'a, 'm>
        ensures module { result.module.now ≡ partial.now.module.now }
        ensures log { result.log.now ≡ partial.now.log.items }
        ensures core { result.core.now ≡ partial.now.core }
    {
        LegalRun {
            module: partial.module,
            log: &partial.log,
            core: &partial.core,
        }
    }

    /// What is told behind the last step of a run in which not all have ended: `the log ends after step 15, before the run
    /// does; activities not ended: 3`. Err where memory was refused.
    pub fn ending(&self, alloc: Global) -> Result<String, AllocError>
        ensures { IfOk result (λ text. string_bytes text
            ≡ ending_words self.now.core.now.world) }
    {
        let steps = self.core.steps_done();
        let living = living(self.core);
        format!(in alloc;
            "the log ends after step {steps}, before the run does; activities not ended: {living}"
        )
    }
}

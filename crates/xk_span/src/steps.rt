//! The steps of a run as deeds.

ghost use Rattle.std.specs.Prelude.{◌≡◌, ◌++◌, flat_map, IfOk, OnOk};
ghost use Rattle.xk_span.specs.Steps.{if_lets_go, if_waits, lets_go, steps_of_run, tell_step, waits};

use std::alloc::{AllocError, Global};
use xk_core::Core;
use xk_races::{Deed, Part, push_deeds};
use xk_scheduler::Ended;
use xk_show_events::{LegalRun, Tell, tell_run};
use xk_types::{Act, Event};

/// Whether a deed waits for others.
fn waits(part: Part) -> bool
    ensures { result ≡ waits part }
{
    matches!(part, Part::Pass(_) | Part::Close)
}

/// Whether it lets others go on, or says in which finish they are.
fn lets_go(part: Part) -> bool
    ensures { result ≡ lets_go part }
{
    match part {
        Part::Start(_) | Part::Signal(_) | Part::Leave(_) | Part::Advance(_) => true,
        Part::Open | Part::End => true,
        _ => false,
    }
}

/// Adds the deed, if it waits for others.
fn push_if_waits(list: &mut Vec<Deed>, deed: &Deed) -> Result<(), AllocError>
    ensures { OnOk result (list.new.items ≡ list.old.items ++ if_waits deed.now) }
{
    if waits(deed.part) {
        list.push(*deed)?;
    }
    Ok(())
}

/// Adds those that wait for others.
fn push_waits(list: &mut Vec<Deed>, deeds: &[Deed]) -> Result<(), AllocError>
    ensures { OnOk result (list.new.items ≡ list.old.items ++ flat_map if_waits deeds.now) }
{
    for deed in deeds {
        push_if_waits(list, deed)?;
    }
    Ok(())
}

/// Adds the deed, if it lets others go on.
fn push_if_lets_go(list: &mut Vec<Deed>, deed: &Deed) -> Result<(), AllocError>
    ensures { OnOk result (list.new.items ≡ list.old.items ++ if_lets_go deed.now) }
{
    if lets_go(deed.part) {
        list.push(*deed)?;
    }
    Ok(())
}

/// Adds those that let others go on.
fn push_those_that_let_go(list: &mut Vec<Deed>, deeds: &[Deed]) -> Result<(), AllocError>
    ensures { OnOk result (list.new.items ≡ list.old.items ++ flat_map if_lets_go deeds.now) }
{
    for deed in deeds {
        push_if_lets_go(list, deed)?;
    }
    Ok(())
}

/// Tells of each step the deeds that wait, the step itself, and the deeds that let go.
struct StepTeller;

impl Tell<Deed> for StepTeller {
    ghost tell = { λ teller m. tell_step m };

    fn push_step(
        &self,
        alloc: Global,
        out: &mut Vec<Deed>,
        core: &mut Core<'_>,
        act: Act,
    ) -> Result<Event, AllocError> {
        let mut deeds = Vec::new(alloc);
        let step = push_deeds(alloc, &mut deeds, core, act)?;
        push_waits(out, &deeds)?;
        out.push(Deed {
            step,
            part: Part::Print,
        })?;
        push_those_that_let_go(out, &deeds)?;
        Ok(step.event)
    }
}

/// The steps of a run, told so. The log is played again for it. Err where memory was refused.
pub(crate) fn steps_of_run(alloc: Global, ended: &Ended<'_>) -> Result<Vec<Deed>, AllocError>
    ensures { IfOk result (λ v. v.items ≡ steps_of_run
        ended.now.module.now ended.now.core.world.arguments ended.now.log.items) }
{
    let mut list = Vec::new(alloc);
    tell_run(&StepTeller, alloc, &mut list, &LegalRun::of(ended))?;
    Ok(list)
}

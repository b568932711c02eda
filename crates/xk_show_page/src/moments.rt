//! How things stand behind each step.

ghost use Rattle.std.specs.Prelude.{◌≡◌, None, ◌++◌, IfOk, OnOk, string_bytes};
ghost use Rattle.xk_types.specs.World.{opening};
ghost use Rattle.xk_show_names.specs.Events.{step_words};
ghost use Rattle.xk_show_page.specs.Page.{is_moment, line_of, moment, moments, named_line, print_by, standings_by, told_step};

use crate::texts::put;
use std::alloc::{AllocError, Global};
use xk_core::Core;
use xk_show_events::{LegalRun, Places, RunStep, event_line, is_seen, place_words};
use xk_show_lanes::Window;
use xk_show_names::{Account, Names, Recount, account_words, recount_run};
use xk_show_where::{named_standings_text, standings_text};
use xk_types::Event;

/// Whether others can see a step, and it is asked for.
fn is_moment(window: Window, step: &RunStep) -> bool
    ensures { result ≡ is_moment window step.now }
{
    is_seen(step.event) && window.asks(step.number)
}

/// A step, and where it was taken: `step 9 act 1 at 7:9`.
#[tactic(auto, unfolding(xk_show_names::specs::Events::step_words))]
fn step_words(alloc: Global, places: &Places<'_>, step: &RunStep) -> Result<String, AllocError>
    ensures { IfOk result (λ text. string_bytes text ≡ step_words places.now step.now) }
{
    let number = step.number;
    let act = step.act;
    let origin = places.origin(step.unit, step.place);
    let place = place_words(alloc, step.unit, step.place, origin)?;
    format!(in alloc; "step {number} act {act} {place}")
}

/// The line of a step with names and values: `step 9 act 1 at 7:9 read total 2`.
#[tactic(auto, unfolding(crate::specs::Page::named_line))]
fn named_line(
    alloc: Global,
    places: &Places<'_>,
    names: &Names<'_>,
    account: &Account,
) -> Result<String, AllocError>
    ensures { IfOk result (λ text. string_bytes text
        ≡ named_line places.now names.now account.now) }
{
    let front = step_words(alloc, places, &account.step)?;
    let words = account_words(alloc, names, account)?;
    format!(in alloc; "{front} {words}\n")
}

/// The line of a step.
fn line_of(
    alloc: Global,
    places: &Places<'_>,
    names: &Option<Names<'_>>,
    account: &Account,
) -> Result<String, AllocError>
    ensures { IfOk result
        (λ text. string_bytes text ≡ line_of places.now names.now account.now) }
{
    match names {
        Some(names) => named_line(alloc, places, names, account),
        None => event_line(alloc, places, &account.step),
    }
}

/// Adds the line of a step.
fn push_line(
    alloc: Global,
    out: &mut Vec<u8>,
    places: &Places<'_>,
    names: &Option<Names<'_>>,
    account: &Account,
) -> Result<(), AllocError>
    ensures { OnOk result (out.new.items
        ≡ out.old.items ++ line_of places.now names.now account.now) }
{
    let line = line_of(alloc, places, names, account)?;
    put(out, line.as_str())
}

/// How things stand in a core, by names where they are known.
fn standings_by(
    alloc: Global,
    places: &Places<'_>,
    names: &Option<Names<'_>>,
    core: &Core<'_>,
) -> Result<Vec<u8>, AllocError>
    ensures { IfOk result (λ v. v.items
        ≡ standings_by places.now names.now core.now.module_run core.now.world) }
{
    match names {
        Some(names) => named_standings_text(alloc, places, names.shared(), core, None),
        None => standings_text(alloc, places, core, None),
    }
}

/// Adds how things stand in a core.
fn push_standings(
    alloc: Global,
    out: &mut Vec<u8>,
    places: &Places<'_>,
    names: &Option<Names<'_>>,
    core: &Core<'_>,
) -> Result<(), AllocError>
    ensures { OnOk result (out.new.items ≡ out.old.items
        ++ standings_by places.now names.now core.now.module_run core.now.world) }
{
    let text = standings_by(alloc, places, names, core)?;
    out.extend_from_slice(&text)
}

/// Adds what was done in a step that led to the core, and how things stand there.
fn push_moment(
    alloc: Global,
    out: &mut Vec<u8>,
    core: &Core<'_>,
    places: &Places<'_>,
    names: &Option<Names<'_>>,
    account: &Account,
) -> Result<(), AllocError>
    ensures { OnOk result (out.new.items ≡ out.old.items
        ++ moment places.now names.now core.now.module_run core.now.world account.now) }
{
    push_line(alloc, out, places, names, account)?;
    push_standings(alloc, out, places, names, core)
}

/// Adds the line of a step, if it printed and isn't behind the last step that is asked for.
fn push_print(
    alloc: Global,
    out: &mut Vec<u8>,
    window: Window,
    places: &Places<'_>,
    names: &Option<Names<'_>>,
    account: &Account,
    event: Event,
) -> Result<(), AllocError>
    ensures { OnOk result (out.new.items ≡ out.old.items
        ++ print_by window places.now names.now account.now event) }
{
    match event {
        Event::Printed(_) => {
            if account.step.number <= window.last {
                return push_line(alloc, out, places, names, account);
            }
            Ok(())
        }
        _ => Ok(()),
    }
}

/// Tells of steps by how things stand behind them, and of those before the first that is asked for that they printed.
#[derive(Drop)]
pub(crate) struct MomentTeller<'a, 't> {
    pub window: Window,
    pub places: &'a Places<'t>,
    pub names: &'a Option<Names<'t>>,
}

impl Recount<u8> for MomentTeller<'_, '_> {
    ghost recount = { λ teller m v a.
        told_step teller.window teller.places.now teller.names.now m v a };

    fn push(
        &self,
        alloc: Global,
        out: &mut Vec<u8>,
        core: &Core<'_>,
        account: &Account,
    ) -> Result<(), AllocError> {
        let step = &account.step;
        if is_moment(self.window, step) {
            return push_moment(alloc, out, core, self.places, self.names, account);
        }
        push_print(
            alloc,
            out,
            self.window,
            self.places,
            self.names,
            account,
            step.event,
        )
    }

    #[tactic(auto, using(crate::proofs::MomentLemmas::none_told))]
    fn is_silent_after(&self, steps: u64) -> bool {
        self.window.last <= steps
    }
}

/// Adds how things stand before the first step of a run.
pub(crate) fn push_opening(
    alloc: Global,
    out: &mut Vec<u8>,
    places: &Places<'_>,
    names: &Option<Names<'_>>,
    legal: &LegalRun<'_, '_>,
) -> Result<(), AllocError>
    ensures { OnOk result (out.new.items ≡ out.old.items
        ++ standings_by places.now names.now legal.now.module.now
        (opening legal.now.module.now legal.now.core.now.world.arguments)) }
{
    let core = Core::open(alloc, legal.module, legal.core.arguments())?;
    push_standings(alloc, out, places, names, &core)
}

/// How things stand before the first step of a run, and behind each one that is asked for and that others can see. Err where
/// memory was refused.
pub fn moments_of(
    alloc: Global,
    places: &Places<'_>,
    names: &Option<Names<'_>>,
    legal: &LegalRun<'_, '_>,
    window: Window,
) -> Result<Vec<u8>, AllocError>
    ensures { IfOk result (λ v. v.items ≡ moments window places.now names.now
        legal.now.module.now legal.now.log.now legal.now.core.now.world) }
{
    let teller = MomentTeller {
        window,
        places,
        names,
    };
    let mut out = Vec::new(alloc);
    push_opening(alloc, &mut out, places, names, legal)?;
    recount_run(&teller, alloc, &mut out, legal)?;
    Ok(out)
}

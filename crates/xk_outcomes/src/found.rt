//! Worlds that are found one from another.

ghost use Rattle.std.specs.Prelude.{◌≡◌, [], IfOk, OnOk};
ghost use Rattle.xk_types.specs.Schedule.{is_enabled};
ghost use Rattle.xk_outcomes.specs.PrivateSteps.{has_private_step};
ghost use Rattle.xk_outcomes.specs.Found.{along, at_rest, first_found, least_private, next, one_more};

use crate::private_steps::has_private_step;
use std::alloc::{AllocError, Global};
use std::marker::Model;
use xk_core::Core;
use xk_rank_digests::act_of_rank;
use xk_scheduler::keep_printed;
use xk_types::Act;

/// A world that was found: a core there, and the numbers that were printed by then. It keeps no schedule, which may be long, so
/// that a copy takes no more time than a core is large.
#[derive(Drop)]
pub struct Found<'m> {
    /// Where a schedule led.
    pub core: Core<'m>,
    /// What was printed by then.
    pub printed: Vec<i64>,
}

impl<'m> Model for Found<'m> {
    ghost use Rattle.xk_outcomes.specs.Found.{FoundValue};

    ghost Value = { FoundValue };

    ghost view = { λ x. record { core = x.core; printed = x.printed.items } };
}

/// The least activity that has a private step, if one has.
pub(crate) fn private_act(core: &Core<'_>) -> Option<Act>
    ensures { result ≡ least_private core.now }
{
    for a in 0..core.activities() {
        if has_private_step(core, Act(a)) {
            return Some(Act(a));
        }
    }
    None
}

impl<'m> Found<'m> {
    /// Before any step.
    pub(crate) fn open(alloc: Global, start: &Core<'m>) -> Result<Found<'m>, AllocError>
        requires { start.now.world.steps ≡ 0 }
        ensures { IfOk result (λ x. x ≡ record { core = start.now; printed = [] }) }
    {
        let core = Core::open(alloc, start.module(), start.arguments())?;
        Ok(Found {
            core,
            printed: Vec::new(alloc),
        })
    }

    /// The same once more.
    pub fn copy(&self, alloc: Global) -> Result<Found<'m>, AllocError>
        ensures { IfOk result (λ x. x ≡ self.now) }
    {
        let printed = self.printed.to_vec(alloc)?;
        let core = self.core.copy()?;
        Ok(Found { core, printed })
    }

    /// One step of the activity, if it can take one. Whether it could.
    pub(crate) fn step(&mut self, act: Act) -> Result<bool, AllocError>
        ensures more { OnOk result (self.new ≡ one_more act self.old) }
        ensures taken { IfOk result (λ taken. taken
            ≡ is_enabled self.old.core.module_run self.old.core.world act) }
    {
        if !self.core.enabled(act) {
            return Ok(false);
        }
        let event = self.core.step(act)?;
        keep_printed(&mut self.printed, event)?;
        Ok(true)
    }

    /// Private steps, as long as there is one.
    fn settle(&mut self) -> Result<(), AllocError>
        ensures { OnOk result (self.new ≡ at_rest self.old) }
    {
        let most = self.core.module().steps();
        for turn in 0..most {
            match private_act(&self.core) {
                Some(act) => {
                    self.step(act)?;
                }
                None => return Ok(()),
            }
        }
        Ok(())
    }

    /// One step of the activity, if it can take one, and then private steps.
    pub fn go_on(&mut self, act: Act) -> Result<(), AllocError>
        ensures { OnOk result (self.new ≡ next act self.old) }
    {
        self.step(act)?;
        self.settle()?;
        Ok(())
    }

    /// What a step of the activity leads to from here, and private steps behind it.
    pub fn after(&self, alloc: Global, act: Act) -> Result<Found<'m>, AllocError>
        ensures { IfOk result (λ x. x ≡ next act self.now) }
    {
        let mut x = self.copy(alloc)?;
        match x.go_on(act) {
            Ok(()) => Ok(x),
            Err(_) => Err(AllocError),
        }
    }

    /// Steps of activities of these ranks, the last of which stands first, and private steps behind each.
    pub fn go_along(&mut self, mut way: Vec<u32>) -> Result<(), AllocError>
        ensures { OnOk result (self.new ≡ along way.items self.old) }
    {
        while let Some(rank) = way.pop() {
            let act = act_of_rank(&self.core, rank);
            self.go_on(act)?;
        }
        Ok(())
    }
}

/// What is found before any step that isn't private.
pub fn beginning<'m>(alloc: Global, start: &Core<'m>) -> Result<Found<'m>, AllocError>
    requires { start.now.world.steps ≡ 0 }
    ensures { IfOk result (λ x. x ≡ first_found start.now) }
{
    let mut first = Found::open(alloc, start)?;
    match first.settle() {
        Ok(()) => Ok(first),
        Err(_) => Err(AllocError),
    }
}

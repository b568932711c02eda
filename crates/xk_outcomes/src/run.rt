//! Runs to worlds that are found, with their schedules.

ghost use Rattle.std.specs.Prelude.{◌≡◌, IfOk, OnOk};
ghost use Rattle.xk_outcomes.specs.Found.{along, at_rest, first_found, next, one_more, through};
ghost use Rattle.xk_outcomes.specs.Search.{IsFoundBy, LeadsOn};

use crate::found::{Found, private_act};
use std::alloc::{AllocError, Global};
use xk_core::Core;
use xk_rank_digests::act_of_rank;
use xk_types::Act;

/// A run to a world that is found.
#[derive(Drop)]
pub struct Run<'m> {
    /// Where its schedule leads.
    pub to: Found<'m>,
    /// Who took a step after whom.
    pub schedule: Vec<u32>,
}

impl<'m> Run<'m> {
    /// To what is found before any step that isn't private.
    pub fn begin(alloc: Global, start: &Core<'m>) -> Result<Run<'m>, AllocError>
        requires { start.now.world.steps ≡ 0 }
        ensures to { IfOk result (λ run. run.to ≡ first_found start.now) }
        ensures found { IfOk result (λ run. IsFoundBy start.now run.schedule.items run.to) }
    {
        let mut run = Run {
            to: Found::open(alloc, start)?,
            schedule: Vec::new(alloc),
        };
        match run.settle() {
            Ok(()) => Ok(run),
            Err(_) => Err(AllocError),
        }
    }

    /// One step of the activity, if it can take one.
    fn step(&mut self, act: Act) -> Result<(), AllocError>
        ensures to { OnOk result (self.new.to ≡ one_more act self.old.to) }
        ensures leads { OnOk result
            (LeadsOn self.old.schedule.items self.old.to self.new.schedule.items self.new.to) }
    {
        let taken = self.to.step(act)?;
        if !taken {
            return Ok(());
        }
        self.schedule.push(act.0)?;
        Ok(())
    }

    /// Private steps, as long as there is one.
    fn settle(&mut self) -> Result<(), AllocError>
        ensures to { OnOk result (self.new.to ≡ at_rest self.old.to) }
        ensures leads { OnOk result
            (LeadsOn self.old.schedule.items self.old.to self.new.schedule.items self.new.to) }
    {
        let most = self.to.core.module().steps();
        for turn in 0..most {
            match private_act(&self.to.core) {
                Some(act) => self.step(act)?,
                None => return Ok(()),
            }
        }
        Ok(())
    }

    /// One step of the activity, if it can take one, and then private steps.
    fn go_on(&mut self, act: Act) -> Result<(), AllocError>
        ensures to { OnOk result (self.new.to ≡ next act self.old.to) }
        ensures leads { OnOk result
            (LeadsOn self.old.schedule.items self.old.to self.new.schedule.items self.new.to) }
    {
        self.step(act)?;
        self.settle()?;
        Ok(())
    }

    /// Steps of activities of these ranks, the first of which stands first, and private steps behind each.
    pub fn go_through(&mut self, ranks: &[u32]) -> Result<(), AllocError>
        ensures to { OnOk result (self.new.to ≡ through ranks.now self.old.to) }
        ensures leads { OnOk result
            (LeadsOn self.old.schedule.items self.old.to self.new.schedule.items self.new.to) }
    {
        for rank in ranks {
            let act = act_of_rank(&self.to.core, *rank);
            self.go_on(act)?;
        }
        Ok(())
    }

    /// Steps of activities of these ranks, the last of which stands first, and private steps behind each.
    pub fn go_along(&mut self, mut way: Vec<u32>) -> Result<(), AllocError>
        ensures to { OnOk result (self.new.to ≡ along way.items self.old.to) }
        ensures leads { OnOk result
            (LeadsOn self.old.schedule.items self.old.to self.new.schedule.items self.new.to) }
    {
        while let Some(rank) = way.pop() {
            let act = act_of_rank(&self.to.core, rank);
            self.go_on(act)?;
        }
        Ok(())
    }
}

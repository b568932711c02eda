//! What a chart looks at: who lives, and which clocks advanced.

ghost use Rattle.std.specs.Prelude.{◌≡◌, ◌<◌, ◌≤◌, length, IfOk, OnOk};
ghost use Rattle.std.specs.Vec.{vec_capacity};
ghost use Rattle.xk_core.specs.Core.{advanced_now};
ghost use Rattle.xk_replay.specs.Chart.{AreLiving, living_in, living_after};

use std::alloc::{AllocError, Global};
use xk_collections::NumberSet;
use xk_core::Core;
use xk_types::{Act, Event};

/// Those of a core's activities that haven't ended, kept from step to step, so that those that have needn't be looked at; and two lists,
/// which are filled where a clock advanced.
#[derive(Drop)]
pub struct ChartLists {
    /// Who hasn't ended.
    pub living: NumberSet,
    /// The same as a list.
    pub acts: Vec<u32>,
    /// The clocks that advanced.
    pub clocks: Vec<u32>,
}

impl ChartLists {
    /// The activities of a core that has taken no step: main.
    pub fn open(alloc: Global, core: &Core<'_>) -> Result<ChartLists, AllocError>
        requires { core.now.world.steps ≡ 0 }
        ensures { IfOk result (λ l. AreLiving core.now l.living) }
    {
        // Called for its clause: every core is where a legal schedule of its module leads.
        let _main = core.activities();
        let mut living = NumberSet::with_room(alloc, core.module().activities())?;
        living.insert(0);
        Ok(ChartLists {
            living,
            acts: Vec::new(alloc),
            clocks: Vec::new(alloc),
        })
    }

    /// Brings the set up to date behind a step of the activity: one that was started comes in, and one that has ended goes out.
    pub fn note(&mut self, core: &Core<'_>, act: Act, event: Event)
        requires act { act < length core.now.world.activities }
        requires room { length core.now.world.activities ≤ self.old.living.room }
        ensures living { self.new.living.members
            ≡ living_after core.now.world act event self.old.living.members }
        ensures room { self.new.living.room ≡ self.old.living.room }
    {
        match event {
            Event::Spawned => self.living.insert(core.activities() - 1),
            Event::Ended => self.living.remove(act.0),
            _ => (),
        }
    }

    /// Lists who lives, and the clocks that advanced in the last step.
    pub fn fill(&mut self, core: &Core<'_>) -> Result<(), AllocError>
        requires { AreLiving core.now self.old.living }
        ensures living { self.new.living ≡ self.old.living }
        ensures acts { OnOk result (self.new.acts.items ≡ living_in core.now.world) }
        ensures clocks { OnOk result (self.new.clocks.items ≡ advanced_now core.now.world) }
    {
        make_room(&mut self.acts, core.activities())?;
        make_room(&mut self.clocks, core.clocks())?;
        self.living.list(&mut self.acts);
        core.list_advanced(&mut self.clocks);
        Ok(())
    }
}

/// Takes all out of a list, and makes room in it for so many.
fn make_room(list: &mut Vec<u32>, most: u32) -> Result<(), AllocError>
    ensures { OnOk result (most ≤ vec_capacity list.new) }
{
    list.clear();
    list.try_reserve(most as usize)
}

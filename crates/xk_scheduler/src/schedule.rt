//! Runs by a given list of activity numbers.

ghost use Rattle.std.specs.Prelude.{◌≡◌, ◌+◌, ◌<◌, ◌≤◌, ◌++◌, IfOk, IfErr};
ghost use Rattle.std.specs.Vec.{vec_len, vec_capacity};
ghost use Rattle.xk_types.specs.World.{World};
ghost use Rattle.xk_types.specs.Schedule.{Through, run, is_local};
ghost use Rattle.xk_scheduler.specs.Schedules.{shown, events_seen, IsHalt, IsOutOfMemory};

use std::alloc::Global;
use xk_core::Core;
use xk_types::{Act, Event};

/// A schedule that was carried out to its end.
#[derive(Drop)]
pub struct Ran<'m> {
    /// Where it led.
    pub core: Core<'m>,
    /// What its steps were seen to do, in order, without local steps.
    pub seen: Vec<Event>,
}

/// A schedule that stopped.
#[derive(Drop)]
pub enum Halt<'m> {
    /// The activity that it names at this place, counted from 0, isn't enabled. The core is where the steps before led.
    NotEnabled { at: usize, core: Core<'m> },
    /// Memory was refused before the step at this place, counted from 0: for the list of events, which can be before the
    /// first alone, or for that step. The core is where the steps before led.
    OutOfMemory { at: usize, core: Core<'m> },
}

/// Whether a step can't be seen by another activity.
fn is_local(event: Event) -> bool
    ensures { result ≡ is_local event }
{
    matches!(event, Event::Local)
}

/// Notes what a step was seen to do, in a list that has room for it.
fn note(seen: &mut Vec<Event>, event: Event)
    requires { vec_len seen.old < vec_capacity seen.old }
    ensures items { seen.new.items ≡ seen.old.items ++ shown event }
    ensures length { vec_len seen.new ≤ vec_len seen.old + 1 }
    ensures room { vec_capacity seen.old ≤ vec_capacity seen.new }
{
    if !is_local(event) && seen.push(event).is_err() {
        unreachable!()
    }
}

/// Carries out a schedule: one step of each activity that it names, in order. It stops before the first that isn't enabled,
/// or where memory was refused; the room for the events is taken before the first step. An empty schedule takes none.
pub fn run_schedule<'m>(
    alloc: Global,
    start: Core<'m>,
    schedule: &[u32],
) -> Result<Ran<'m>, Halt<'m>>
    ensures ran { IfOk result (λ r.
        run start.entry.module_run schedule.now start.entry.world ≡ Through r.core.world) }
    ensures seen { IfOk result (λ r.
        r.seen.items ≡ events_seen start.entry.module_run schedule.now start.entry.world) }
    ensures same_module { IfOk result (λ r. r.core.module_run ≡ start.entry.module_run) }
    ensures halted { IfErr result (IsHalt start.entry schedule.now) }
    // A legal schedule is carried out, want of memory aside.
    ensures never_wrongly { (w : World)
        → run start.entry.module_run schedule.now start.entry.world ≡ Through w
        → IfErr result IsOutOfMemory }
{
    let mut core = start;
    let Ok(mut seen) = Vec::with_capacity(alloc, schedule.len()) else {
        return Err(Halt::OutOfMemory { at: 0, core });
    };
    for (at, number) in schedule.iter().enumerate() {
        let act = Act(*number);
        if !core.enabled(act) {
            return Err(Halt::NotEnabled { at, core });
        }
        let Ok(event) = core.step(act) else {
            return Err(Halt::OutOfMemory { at, core });
        };
        note(&mut seen, event);
    }
    Ok(Ran { core, seen })
}

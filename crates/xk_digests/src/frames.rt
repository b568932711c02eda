//! Whether frames are the same where slots are live.

ghost use Rattle.std.specs.Prelude.{◌≡◌, ◌<◌, ◌^◌, ◌+◌, true, length, map, slice_get, IfOk};
ghost use Rattle.std.specs.Bool.{Decides};
ghost use Rattle.xk_activity.specs.Activities.{act_at};
ghost use Rattle.xk_liveness.specs.Liveness.{masked, present, waiting};
ghost use Rattle.xk_live_slots.specs.LiveSlots.{live_of};
ghost use Rattle.xk_digests.specs.Likeness.{AreFew, AreSameFrom, HasSameLeft};

use std::alloc::AllocError;
use xk_activity::Frames;
use xk_core::Core;
use xk_live_slots::LiveSlots;
use xk_types::{Act, Status, Value};

/// Whether the values are the same.
fn is_same_value(value: &Value, other: &Value) -> bool
    ensures { Decides result (value.now ≡ other.now) }
{
    match value {
        Value::Unset => matches!(other, Value::Unset),
        Value::Number(n) => match other {
            Value::Number(k) => *n == *k,
            _ => false,
        },
        Value::Clock(c) => match other {
            Value::Clock(d) => c.0 == d.0,
            _ => false,
        },
    }
}

/// Whether both have the same in a slot.
fn is_same_slot(frames: &Frames<'_>, others: &Frames<'_>, slot: u16) -> bool
    requires here { slot < length frames.now.frame.slots }
    requires there { slot < length others.now.frame.slots }
    ensures { Decides result (slice_get frames.now.frame.slots slot
        ≡ slice_get others.now.frame.slots slot) }
{
    is_same_value(&frames.slot(slot), &others.slot(slot))
}

/// Whether the present frames have the same in the slots that are live at this place of the unit of the first.
fn are_same_slots(
    live: &LiveSlots<'_>,
    place: usize,
    frames: &Frames<'_>,
    others: &Frames<'_>,
) -> bool
    requires { length frames.now.frame.slots < 2 ^ 16 }
    ensures { Decides result
        (masked (live_of live.now frames.now.frame.unit place) frames.now.frame.slots
        ≡ masked (live_of live.now frames.now.frame.unit place) others.now.frame.slots) }
{
    let count = frames.slot_count();
    if others.slot_count() != count {
        return false;
    }
    for s in 0..count {
        let slot = s as u16;
        if live.is_live(frames.unit(), place, slot) && !is_same_slot(frames, others, slot) {
            return false;
        }
    }
    true
}

/// Whether the present frames run the same unit at the same place, and have the same in the slots that are live at this place of it.
fn is_same_frame(
    live: &LiveSlots<'_>,
    place: usize,
    frames: &Frames<'_>,
    others: &Frames<'_>,
) -> bool
    requires { length frames.now.frame.slots < 2 ^ 16 }
    ensures { Decides result
        (AreSameFrom (live_of live.now) place frames.now.frame others.now.frame) }
{
    frames.unit() == others.unit()
        && frames.place() == others.place()
        && are_same_slots(live, place, frames, others)
}

/// Whether the present frames are the same at their instructions.
#[tactic(auto, using(crate::proofs::LikenessLemmas::present_decided))]
fn is_same_present(live: &LiveSlots<'_>, frames: &Frames<'_>, others: &Frames<'_>) -> bool
    requires { length frames.now.frame.slots < 2 ^ 16 }
    ensures { Decides result (present (live_of live.now) frames.now.frame
        ≡ present (live_of live.now) others.now.frame) }
{
    is_same_frame(live, frames.place() as usize, frames, others)
}

/// Whether they are the same behind these.
#[tactic(auto, using(crate::proofs::LikenessLemmas::waiting_decided))]
fn is_same_behind(live: &LiveSlots<'_>, frames: &Frames<'_>, others: &Frames<'_>) -> bool
    requires { length frames.now.frame.slots < 2 ^ 16 }
    ensures { Decides result (waiting (live_of live.now) frames.now.frame
        ≡ waiting (live_of live.now) others.now.frame) }
{
    is_same_frame(live, frames.place() as usize + 1, frames, others)
}

/// Whether the frames that wait are the same behind their calls.
fn are_same_waiting(live: &LiveSlots<'_>, frames: &mut Frames<'_>, others: &mut Frames<'_>) -> bool
    requires { AreFew frames.old.callers }
    ensures { Decides result (map (waiting (live_of live.now)) frames.old.callers
        ≡ map (waiting (live_of live.now)) others.old.callers) }
{
    let more = frames.up();
    if others.up() != more {
        return false;
    }
    if !more {
        return true;
    }
    is_same_behind(live, frames, others) && are_same_waiting(live, frames, others)
}

/// The same of frames that are left as they are. Err where memory was refused.
fn have_same_waiting(
    live: &LiveSlots<'_>,
    frames: &Frames<'_>,
    others: &Frames<'_>,
) -> Result<bool, AllocError>
    requires { AreFew frames.now.callers }
    ensures { IfOk result (λ same. Decides same
        (map (waiting (live_of live.now)) frames.now.callers
        ≡ map (waiting (live_of live.now)) others.now.callers)) }
{
    let mut outer = frames.copy()?;
    let mut others_outer = others.copy()?;
    Ok(are_same_waiting(live, &mut outer, &mut others_outer))
}

/// Whether what may still count of the frames of two activities, one of each core, is the same, by the status of the first. Err where
/// memory was refused.
#[tactic(auto, using(crate::proofs::FrameLemmas::all_few))]
pub fn has_same_left(
    live: &LiveSlots<'_>,
    core: &Core<'_>,
    act: Act,
    other: &Core<'_>,
    there: Act,
    status: Status,
) -> Result<bool, AllocError>
    requires here { act < length core.now.world.activities }
    requires there { there < length other.now.world.activities }
    requires status { status ≡ (act_at core.now.world.activities act).status }
    ensures { IfOk result (λ same. Decides same (HasSameLeft (live_of live.now)
        (act_at core.now.world.activities act) (act_at other.now.world.activities there))) }
{
    // For `core`: its frames have few slots.
    let _activities = core.activities();
    let frames = core.frames(act);
    let others = other.frames(there);
    let same = match status {
        Status::Running => is_same_present(live, frames, others),
        Status::Arrived => is_same_behind(live, frames, others),
        Status::Ended => return Ok(true),
    };
    if !same {
        return Ok(false);
    }
    have_same_waiting(live, frames, others)
}

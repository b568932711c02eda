//! A number of 64 bits that worlds have in common which are alike where slots are live, beside the same numbers: where it
//! differs, no more is compared.

ghost use Rattle.std.specs.Prelude.{◌≡◌, ◌<◌, ◌^◌, Some, length, slice_get};
ghost use Rattle.xk_activity.specs.Activities.{act_at};
ghost use Rattle.xk_liveness.specs.Liveness.{live_activity, masked};
ghost use Rattle.xk_live_slots.specs.LiveSlots.{live_of};
ghost use Rattle.xk_digests.specs.Digest.{mixed, with_activity, with_number, with_numbers, with_values, word_of, world_digest};

use xk_activity::Frames;
use xk_core::Core;
use xk_live_slots::LiveSlots;
use xk_types::{Act, Status, Value};

/// The factor that mixes: the golden ratio of 2^64.
const FACTOR: u64 = 11_400_714_819_323_198_485;

/// The digest with a word more.
#[tactic(auto, unfolding(crate::specs::Digest::mixed))]
fn mixed(digest: u64, word: u64) -> u64
    ensures { result ≡ mixed digest word }
{
    let product = (digest ^ word).wrapping_mul(FACTOR);
    product ^ (product >> 29)
}

/// The digest with a number more.
fn with_number(digest: u64, number: i64) -> u64
    ensures { result ≡ with_number digest number }
{
    mixed(digest, number.cast_unsigned())
}

/// The digest with these numbers more.
pub fn with_numbers(digest: u64, numbers: &[i64]) -> u64
    ensures { result ≡ with_numbers digest numbers.now }
{
    let mut digest = digest;
    for number in numbers {
        digest = with_number(digest, *number);
    }
    digest
}

/// The word that stands for a value.
fn word_of(value: Value) -> u64
    ensures { result ≡ word_of value }
{
    match value {
        Value::Unset => 1,
        Value::Number(number) => number.cast_unsigned(),
        Value::Clock(clock) => u64::from(clock.0),
    }
}

/// What a slot of the present frame holds, if it is live at this place of the frame's unit; else nothing.
#[tactic(auto, using(crate::proofs::LikenessLemmas::masked_live, crate::proofs::LikenessLemmas::masked_dead))]
fn live_value(live: &LiveSlots<'_>, place: usize, frames: &Frames<'_>, slot: u16) -> Value
    requires { slot < length frames.now.frame.slots }
    ensures { slice_get (masked (live_of live.now frames.now.frame.unit place)
        frames.now.frame.slots) slot ≡ Some result }
{
    if live.is_live(frames.unit(), place, slot) {
        frames.slot(slot)
    } else {
        Value::Unset
    }
}

/// The digest with the slots of the present frame more, without those that are dead at this place of its unit.
#[tactic(auto, using(crate::proofs::DigestLemmas::values_more))]
fn with_slots(live: &LiveSlots<'_>, place: usize, frames: &Frames<'_>, digest: u64) -> u64
    requires { length frames.now.frame.slots < 2 ^ 16 }
    ensures { result ≡ with_values digest
        (masked (live_of live.now frames.now.frame.unit place) frames.now.frame.slots) }
{
    let mut digest = digest;
    for s in 0..frames.slot_count() {
        digest = mixed(digest, word_of(live_value(live, place, frames, s as u16)));
    }
    digest
}

/// The digest with where the present frame stands more, and its slots, without those that are dead at this place.
fn with_frame(live: &LiveSlots<'_>, place: usize, frames: &Frames<'_>, digest: u64) -> u64
    requires { length frames.now.frame.slots < 2 ^ 16 }
    ensures { result
        ≡ with_values (mixed (mixed digest frames.now.frame.unit) frames.now.frame.place)
        (masked (live_of live.now frames.now.frame.unit place) frames.now.frame.slots) }
{
    let unit = mixed(digest, u64::from(frames.unit()));
    with_slots(live, place, frames, mixed(unit, u64::from(frames.place())))
}

/// The digest with what of an activity may still count more.
#[tactic(auto, using(crate::proofs::FrameLemmas::all_few))]
pub fn with_activity(live: &LiveSlots<'_>, core: &Core<'_>, act: Act, digest: u64) -> u64
    requires { act < length core.now.world.activities }
    ensures { result ≡ with_activity digest
        (live_activity (live_of live.now) (act_at core.now.world.activities act)) }
{
    // For `core`: its frames have few slots.
    let _activities = core.activities();
    let frames = core.frames(act);
    let place = frames.place() as usize;
    match core.status(act) {
        Status::Running => with_frame(live, place, frames, digest),
        Status::Arrived => with_frame(live, place + 1, frames, digest),
        Status::Ended => mixed(mixed(digest, 0), 0),
    }
}

/// The digest of what of a core may still count, these numbers being printed by then.
#[tactic(auto, using(crate::proofs::DigestLemmas::activities_more))]
pub fn digest_of(live: &LiveSlots<'_>, core: &Core<'_>, printed: &[i64]) -> u64
    ensures { result ≡ world_digest (live_of live.now) core.now.world printed.now }
{
    let mut digest = with_numbers(with_numbers(0, printed), core.cells());
    for a in 0..core.activities() {
        digest = with_activity(live, core, Act(a), digest);
    }
    digest
}

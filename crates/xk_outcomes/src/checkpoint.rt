//! Which of those that were found are kept whole.

ghost use Rattle.std.specs.Prelude.{◌≡◌, ◌-◌, nat_le};
ghost use Rattle.xk_outcomes.specs.Checkpoints.{room_beside, stride};

use crate::found::Found;

/// How many steps are taken again at most to get from a checkpoint to where those of one that was found begin: to take them costs some
/// times what a copy of a core with a few activities does.
const STRIDE: u64 = 1_000;

/// How much all have together that are kept whole beside the first: activities, clocks and numbers.
pub const ROOM: u64 = 100_000;

/// What each takes of that beside its own.
const LEAST: u64 = 4;

/// One that was found, whole.
#[derive(Drop)]
pub struct Checkpoint<'m> {
    /// Its number.
    pub number: usize,
    /// What was found.
    pub found: Found<'m>,
}

/// Whether so many steps lead from one to another that this is to be kept whole.
pub fn is_far(from: &Found<'_>, to: &Found<'_>) -> bool
    ensures { result
        ≡ nat_le stride (to.now.core.world.steps - from.now.core.world.steps) }
{
    let before = from.core.steps_done();
    let steps = to.core.steps_done();
    steps.saturating_sub(before) >= STRIDE
}

/// What is left of so much room beside this one: its activities, its clocks, and the numbers that are shared, printed and given to main
/// take one each.
pub fn room_beside(room: u64, x: &Found<'_>) -> u64
    ensures { result ≡ room_beside room x.now }
{
    room.saturating_sub(LEAST)
        .saturating_sub(u64::from(x.core.activities()))
        .saturating_sub(u64::from(x.core.clocks()))
        .saturating_sub(x.core.cells().len() as u64)
        .saturating_sub(x.core.arguments().len() as u64)
        .saturating_sub(x.printed.len() as u64)
}

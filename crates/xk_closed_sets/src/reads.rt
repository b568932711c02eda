//! Which shared numbers may still be read.

ghost use Rattle.std.specs.Prelude.{◌≡◌, ◌<◌, ℕ, IfOk, length};
ghost use Rattle.xk_activity.specs.Activities.{act_at};
ghost use Rattle.xk_closed_sets.specs.Footprint.{is_set};
ghost use Rattle.xk_closed_sets.specs.Footprints.{rest_of};
ghost use Rattle.xk_ranks.specs.Reads.{frames_read, is_read, marked, may_read, read_part};

use crate::footprints::Footprints;
use std::alloc::{AllocError, Global};
use xk_activity::Frames;
use xk_core::Core;
use xk_types::Act;

/// Whether the bit of a shared number is set.
fn is_set(word: u64, number: usize) -> bool
    ensures { result ≡ is_set word number }
{
    word >> (number % 64) & 1 == 1
}

/// The bits of the shared numbers that may be read behind the calls of frames that wait.
#[tactic(auto, using(crate::proofs::ReadLemmas::nobody_reads, crate::proofs::ReadLemmas::one_reads))]
fn reads_waiting(footprints: &Footprints<'_>, frames: &mut Frames<'_>) -> u64
    ensures { (s : ℕ) → is_set result s
        ≡ frames_read (rest_of footprints.now) s frames.old.callers }
{
    if !frames.up() {
        return 0;
    }
    let behind = footprints.reads_at(frames.unit() as usize, frames.place() as usize + 1);
    behind | reads_waiting(footprints, frames)
}

/// Those of the shared numbers that the activity may read, or whom it starts: none if it has ended.
#[tactic(auto, using(crate::proofs::ReadLemmas::act_reads, crate::proofs::ReadLemmas::over_reads))]
fn reads_of(footprints: &Footprints<'_>, core: &Core<'_>, act: Act) -> Result<u64, AllocError>
    requires { act < length core.now.world.activities }
    ensures { IfOk result (λ word. (s : ℕ) → is_set word s
        ≡ may_read (rest_of footprints.now) s (act_at core.now.world.activities act)) }
{
    if !core.is_living(act) {
        return Ok(0);
    }
    let frames = core.frames(act);
    let here = footprints.reads_at(frames.unit() as usize, frames.place() as usize);
    let mut outer = frames.copy()?;
    let behind = reads_waiting(footprints, &mut outer);
    Ok(here | behind)
}

/// Those of the shared numbers that somebody may read.
#[tactic(auto, using(crate::proofs::ReadLemmas::more_read))]
fn reads_in(footprints: &Footprints<'_>, core: &Core<'_>) -> Result<u64, AllocError>
    ensures { IfOk result (λ word. (s : ℕ) → is_set word s
        ≡ is_read (rest_of footprints.now) core.now.world.activities s) }
{
    let mut word = 0;
    for a in 0..core.activities() {
        let more = reads_of(footprints, core, Act(a))?;
        word |= more;
    }
    Ok(word)
}

/// The numbers, those whose bits aren't set as 0.
#[tactic(auto, using(crate::proofs::ReadLemmas::more_marked, crate::proofs::ReadLemmas::all_marked))]
fn marked(alloc: Global, word: u64, numbers: &[i64]) -> Result<Vec<i64>, AllocError>
    ensures { IfOk result (λ list. list.items ≡ marked (is_set word) numbers.now) }
{
    let mut list = Vec::new(alloc);
    for s in 0..numbers.len() {
        list.push(if is_set(word, s) { numbers[s] } else { 0 })?;
    }
    Ok(list)
}

/// The shared numbers of a core as they count: those that nobody can read any more are 0. Err where memory was refused.
pub fn numbers_read(
    alloc: Global,
    footprints: &Footprints<'_>,
    core: &Core<'_>,
) -> Result<Vec<i64>, AllocError>
    ensures { IfOk result (λ numbers. numbers.items
        ≡ (read_part (rest_of footprints.now) core.now.world).cells) }
{
    let word = reads_in(footprints, core)?;
    marked(alloc, word, core.cells())
}

//! What counts of a world: which of its slots are live, and which of its shared numbers may still be read.

ghost use Rattle.std.specs.Prelude.{◌≡◌, IfOk};
ghost use Rattle.std.specs.Bool.{Decides};
ghost use Rattle.xk_closed_sets.specs.Footprints.{rest_of};
ghost use Rattle.xk_live_slots.specs.LiveSlots.{live_of};
ghost use Rattle.xk_ranks.specs.Reads.{IsCounting, read_part};
ghost use Rattle.xk_rank_digests.specs.RankDigest.{rank_digest};
ghost use Rattle.xk_outcomes.specs.Alikeness.{AreCountedAlike, counts_of};

use std::alloc::{AllocError, Global};
use std::marker::Model;
use xk_bounds::Verified;
use xk_closed_sets::{Footprints, numbers_read};
use xk_core::Core;
use xk_digests::are_same_numbers;
use xk_live_slots::LiveSlots;
use xk_rank_digests::{are_alike_by_rank, rank_digest_of};

/// What may still count in worlds of a module, by tables.
#[derive(Drop)]
pub struct Counts<'m> {
    live: LiveSlots<'m>,
    rest: Footprints<'m>,
}

impl<'m> Model for Counts<'m> {
    ghost use Rattle.xk_outcomes.specs.Alikeness.{CountsValue};

    ghost Value = { CountsValue };

    ghost view = { λ c. record { live = c.live; rest = c.rest } };
}

impl<'m> Counts<'m> {
    /// Of a module. Err where memory was refused.
    pub fn of(alloc: Global, verified: &'m Verified) -> Result<Counts<'m>, AllocError>
        ensures { IfOk result (λ c. IsCounting verified.now (counts_of c)) }
    {
        let live = LiveSlots::of(alloc, verified)?;
        let rest = Footprints::of(alloc, verified)?;
        // That its table has all live slots.
        let _live = live.module();
        // That this one has all that may be carried out.
        let _rest = rest.module();
        Ok(Counts { live, rest })
    }

    /// The digest of what counts of a core, these numbers being printed by then.
    pub fn digest_of(
        &self,
        alloc: Global,
        core: &Core<'_>,
        printed: &[i64],
    ) -> Result<u64, AllocError>
        ensures { IfOk result (λ digest. digest ≡ rank_digest (live_of self.now.live)
            (read_part (rest_of self.now.rest) core.now.world) printed.now) }
    {
        let numbers = numbers_read(alloc, &self.rest, core)?;
        Ok(rank_digest_of(&self.live, core, &numbers, printed))
    }

    /// Whether what counts of two cores of one module is alike, as far as that is told.
    pub fn are_alike(
        &self,
        alloc: Global,
        core: &Core<'_>,
        other: &Core<'_>,
    ) -> Result<bool, AllocError>
        requires { other.now.module_run ≡ core.now.module_run }
        ensures { IfOk result (λ same. Decides same
            (AreCountedAlike (counts_of self.now) core.now.world other.now.world)) }
    {
        let numbers = numbers_read(alloc, &self.rest, core)?;
        let others = numbers_read(alloc, &self.rest, other)?;
        if !are_same_numbers(&numbers, &others) {
            return Ok(false);
        }
        let same = are_alike_by_rank(alloc, &self.live, core, other)?;
        Ok(same)
    }
}

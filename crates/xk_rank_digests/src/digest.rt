//! Digests by rank.

ghost use Rattle.std.specs.Prelude.{◌≡◌};
ghost use Rattle.xk_live_slots.specs.LiveSlots.{live_of};
ghost use Rattle.xk_rank_digests.specs.RankDigest.{rank_digest};

use xk_core::Core;
use xk_digests::{with_activity, with_numbers};
use xk_live_slots::LiveSlots;
use xk_types::Act;

/// The digest of what of a core may still count, without the activities that have ended, and with these for its shared
/// numbers; others were printed by then. Worlds that are alike by rank, and have the same, have it in common.
pub fn rank_digest_of(live: &LiveSlots<'_>, core: &Core<'_>, cells: &[i64], printed: &[i64]) -> u64
    ensures { result ≡ rank_digest (live_of live.now) (record core.now.world { cells = cells.now })
        printed.now }
{
    let mut digest = with_numbers(with_numbers(0, printed), cells);
    for a in 0..core.activities() {
        if core.is_living(Act(a)) {
            digest = with_activity(live, core, Act(a), digest);
        }
    }
    digest
}

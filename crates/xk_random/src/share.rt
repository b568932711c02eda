//! What was printed how often.

ghost use Rattle.std.specs.Prelude.{◌≡◌, ◌<◌, map, OnOk};
ghost use Rattle.indexmap.specs.IndexMap.{index_map_len};
ghost use Rattle.xk_random.specs.Shares.{HasRoom, noted, once_more, share_value};

use indexmap::IndexMap;
use std::alloc::AllocError;

/// Runs that printed the same numbers.
#[derive(Debug, Drop)]
pub struct Share {
    /// The seed of the first of them.
    pub first: u64,
    /// How many they are.
    pub runs: u64,
}

/// One more run printed what those at this place did.
fn count(shares: &mut IndexMap<Vec<i64>, Share>, place: usize)
    requires there { place < index_map_len shares.old }
    requires room { HasRoom (map share_value shares.old.entries) }
    ensures { map share_value shares.new.entries
        ≡ once_more place (map share_value shares.old.entries) }
{
    shares[place].runs += 1;
}

/// Notes that the run of this seed printed these numbers.
pub fn note(
    shares: &mut IndexMap<Vec<i64>, Share>,
    seed: u64,
    numbers: Vec<i64>,
) -> Result<(), AllocError>
    requires { HasRoom (map share_value shares.old.entries) }
    ensures { OnOk result (map share_value shares.new.entries
        ≡ noted seed numbers.items (map share_value shares.old.entries)) }
{
    if let Some(place) = shares.get_index_of(&numbers) {
        count(shares, place);
        return Ok(());
    }
    shares.insert(
        numbers,
        Share {
            first: seed,
            runs: 1,
        },
    )?;
    Ok(())
}

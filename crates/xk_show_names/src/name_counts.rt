//! Clocks of one name, told apart by numbers.

ghost use Rattle.std.specs.Prelude.{◌≡◌, ◌++◌, ◌+◌, ◌<◌, ◌^◌, ℕ, List, if◌then◌else◌, map, IfOk, OnOk};
ghost use Rattle.xk_show_names.specs.ClockNames.{among, each_numbered, is_text};
ghost use Rattle.xk_show_names.specs.NameCounts.{count_of};

use std::alloc::{AllocError, Global};
use std::collections::BTreeMap;

/// How often each name was there.
type Counts<'n> = BTreeMap<&'n [u8], usize>;

/// How often a name was there so far.
fn count_of(counts: &Counts<'_>, name: &[u8]) -> usize
    ensures { result ≡ count_of counts.now name.now }
{
    match counts.get(name) {
        Some(count) => *count,
        None => 0,
    }
}

/// How often a name was there before; it is there once more.
#[tactic(auto, using(crate::proofs::ClockNameLemmas::count_more))]
fn count<'n>(counts: &mut Counts<'n>, name: &'n [u8]) -> Result<usize, AllocError>
    requires { count_of counts.old name.now + 1 < 2 ^ 64 }
    ensures before { IfOk result (λ n. n ≡ count_of counts.old name.now) }
    ensures more { OnOk result ((x : List ℕ) → count_of counts.new x
        ≡ count_of counts.old x + (if is_text x name.now then 1 else 0)) }
{
    let before = count_of(counts, name);
    counts.insert(name, before + 1)?;
    Ok(before)
}

/// A name, and its number among those that are the same.
fn among(alloc: Global, name: &[u8], before: usize) -> Result<Vec<u8>, AllocError>
    requires { before + 1 < 2 ^ 64 }
    ensures { IfOk result (λ v. v.items ≡ name.now ++ among before) }
{
    let mut letters = Vec::new(alloc);
    letters.extend_from_slice(name)?;
    if before == 0 {
        return Ok(letters);
    }
    let number = before + 1;
    letters.extend_from_slice(format!(in alloc; "#{number}")?.as_bytes())?;
    Ok(letters)
}

/// Each of these names, with its number among those that are the same.
#[tactic(auto, using(crate::proofs::ClockNameLemmas::counted_more, crate::proofs::ClockNameLemmas::few))]
pub(crate) fn each_numbered(alloc: Global, names: &[Vec<u8>]) -> Result<Vec<Vec<u8>>, AllocError>
    ensures { IfOk result (λ v. map (λ x. x.items) v.items
        ≡ each_numbered (map (λ x. x.items) names.now)) }
{
    let mut counts = BTreeMap::new(alloc);
    let mut list = Vec::new(alloc);
    for name in names {
        let before = count(&mut counts, name.as_slice())?;
        list.push(among(alloc, name.as_slice(), before)?)?;
    }
    Ok(list)
}

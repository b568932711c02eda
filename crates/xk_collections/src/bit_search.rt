//! Searches over words and their sums.

ghost use Rattle.std.specs.Prelude.{◌+◌, ◌*◌, ◌/◌, length};
ghost use Rattle.xk_collections.specs.BitWords.{has, IsNext, IsLast, IsSummed};

use crate::bit_words::{last_in_word, next_in_word};

/// The least word from this one on that has a member.
fn next_word(low: &[u64], mid: &[u64], top: &[u64], word: usize) -> Option<usize>
    requires { IsSummed low.now mid.now top.now }
    ensures { IsNext (has mid.now) word (length mid.now * 64) result }
{
    if word / 64 >= mid.len() {
        return None;
    }
    if let Some(found) = next_in_word(mid, word) {
        return Some(found);
    }
    if word / 64 == 63 {
        return None;
    }
    match next_in_word(top, word / 64 + 1) {
        Some(group) => next_in_word(mid, group * 64),
        None => None,
    }
}

/// The least member from i on.
pub fn next_member(low: &[u64], mid: &[u64], top: &[u64], i: usize) -> Option<usize>
    requires { IsSummed low.now mid.now top.now }
    ensures { IsNext (has low.now) i (length low.now * 64) result }
{
    if i / 64 >= low.len() {
        return None;
    }
    if let Some(found) = next_in_word(low, i) {
        return Some(found);
    }
    match next_word(low, mid, top, i / 64 + 1) {
        Some(word) => next_in_word(low, word * 64),
        None => None,
    }
}

/// The last word that has a member.
fn last_word(low: &[u64], mid: &[u64], top: &[u64]) -> Option<usize>
    requires { IsSummed low.now mid.now top.now }
    ensures { IsLast (has mid.now) 0 (length mid.now * 64) result }
{
    match last_in_word(top, 0) {
        Some(group) => last_in_word(mid, group),
        None => None,
    }
}

/// The greatest member.
pub fn last_member(low: &[u64], mid: &[u64], top: &[u64]) -> Option<usize>
    requires { IsSummed low.now mid.now top.now }
    ensures { IsLast (has low.now) 0 (length low.now * 64) result }
{
    match last_word(low, mid, top) {
        Some(word) => last_in_word(low, word),
        None => None,
    }
}

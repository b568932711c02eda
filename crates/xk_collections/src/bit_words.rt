//! Bits in words of 64.

ghost use Rattle.std.specs.Prelude.{◌≡◌, ◌+◌, ◌*◌, ◌/◌, ◌-◌, ◌<◌, ◌≤◌, ◌^◌, ◌++◌, ◌==◌, length, slice_index_or, replicate, OnOk, OnErr};
ghost use Rattle.std.specs.Vec.{vec_len, vec_capacity};
ghost use Rattle.xk_collections.specs.BitWords.{has, with_bit, without_bit, IsNext, IsLast};

use std::alloc::AllocError;

/// Sets bit i.
#[inline(always)]
pub fn put(words: &mut Vec<u64>, i: usize)
    requires { i / 64 < vec_len words.old }
    ensures { words.new.items ≡ with_bit words.old.items i }
{
    words[i / 64] |= 1 << (i % 64);
}

/// Clears bit i. Tells whether its word has no bit left.
#[inline(always)]
pub fn clear(words: &mut Vec<u64>, i: usize) -> bool
    requires { i / 64 < vec_len words.old }
    ensures cleared { words.new.items ≡ without_bit words.old.items i }
    ensures empty { result ≡ (slice_index_or words.new.items (i / 64) 0 == 0) }
    ensures word { slice_index_or words.new.items (i / 64) 0 < 2 ^ 64 }
{
    words[i / 64] &= !(1 << (i % 64));
    words[i / 64] == 0
}

/// The least bit that is set in bit i's own word, from i on.
#[inline(always)]
pub fn next_in_word(words: &[u64], i: usize) -> Option<usize>
    requires { i / 64 < length words.now }
    ensures { IsNext (has words.now) i (i / 64 * 64 + 64) result }
{
    let rest = words[i / 64] & (u64::MAX << (i % 64));
    if rest == 0 {
        None
    } else {
        Some(i / 64 * 64 + rest.trailing_zeros() as usize)
    }
}

/// The greatest bit that is set in word k.
#[inline(always)]
pub fn last_in_word(words: &[u64], k: usize) -> Option<usize>
    requires there { k < length words.now }
    requires numbers { k * 64 + 64 < 2 ^ 64 }
    ensures { IsLast (has words.now) (k * 64) (k * 64 + 64) result }
{
    let word = words[k];
    if word == 0 {
        None
    } else {
        Some(k * 64 + 63 - word.leading_zeros() as usize)
    }
}

/// Makes room for so many words.
pub fn make_room(words: &mut Vec<u64>, n: usize) -> Result<(), AllocError>
    ensures same { words.new.items ≡ words.old.items }
    ensures kept { vec_capacity words.old ≤ vec_capacity words.new }
    ensures room { OnOk result (n ≤ vec_capacity words.new) }
    ensures only_where_it_grows { OnErr result (vec_len words.old < n) }
{
    if words.len() < n {
        words.try_reserve(n - words.len())?;
    }
    Ok(())
}

/// Adds empty words till there are so many.
pub fn fill(words: &mut Vec<u64>, n: usize)
    requires { n ≤ vec_capacity words.old }
    ensures { words.new.items ≡ words.old.items ++ replicate (n - length words.old.items) 0 }
{
    if words.len() < n && words.resize(n, 0).is_err() {
        unreachable!()
    }
}

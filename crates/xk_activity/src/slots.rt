//! The slots of one frame, each a word, with marks where they hold numbers: so a number is read and written without a look at what the slot
//! held before.

ghost use Rattle.std.specs.Prelude.{◌≡◌, ℤ, ◌<◌, ◌≤◌, drop, length, take, Some, slice_get, slice_set};
ghost use Rattle.std.specs.Bool.{Decides};
ghost use Rattle.xk_types.specs.declared.world.Value.TheVariants as value;
ghost use Rattle.xk_activity.specs.Slots.{unmarked, value_of, values_of};

use crate::marks::Marks;
use xk_types::{ClockId, Value};

/// The word that stands for a value, and whether it has a mark.
pub(crate) fn word_of(v: Value) -> (i64, bool)
    ensures { value_of result.1 result.0 ≡ v }
{
    match v {
        Value::Unset => (0, false),
        Value::Number(n) => (n, true),
        Value::Clock(c) => (c.0 as i64 + 1, false),
    }
}

/// What a word without a mark stands for.
fn unmarked(word: i64) -> Value
    ensures { result ≡ unmarked word }
{
    // A clock has a number of 32 bits.
    if 1 <= word && word <= 4_294_967_296 {
        Value::Clock(ClockId((word - 1) as u32))
    } else {
        Value::Unset
    }
}

/// What slot s holds.
pub(crate) fn value(words: &[i64], marks: Marks, s: u16) -> Value
    requires slot { s < length words.now }
    requires few { length words.now ≤ 64 }
    ensures { slice_get (values_of marks words.now) s ≡ Some result }
{
    let word = words[s as usize];
    match marks.has(s) {
        true => Value::Number(word),
        false => unmarked(word),
    }
}

/// The number in a slot that holds one.
#[inline(always)]
pub(crate) fn number(words: &[i64], marks: Marks, s: u16) -> i64
    requires { (n : ℤ) × (slice_get (values_of marks words.now) s ≡ Some (value.Number n)) }
    ensures { slice_get (values_of marks words.now) s ≡ Some (value.Number result) }
{
    words[s as usize]
}

/// Writes a number to slot d.
#[inline(always)]
pub(crate) fn set_number(words: &mut [i64], marks: &mut Marks, d: u16, n: i64)
    requires slot { d < length (values_of marks.old words.old) }
    requires few { length words.old ≤ 64 }
    ensures written { values_of marks.new words.new
        ≡ slice_set (values_of marks.old words.old) d (value.Number n) }
    ensures length { length words.new ≡ length words.old }
{
    words[d as usize] = n;
    marks.set(d, true);
}

/// Writes another number to a slot that holds one.
#[inline(always)]
pub(crate) fn change(words: &mut [i64], marks: Marks, k: u16, n: i64)
    requires { (m : ℤ) × (slice_get (values_of marks words.old) k ≡ Some (value.Number m)) }
    ensures written { values_of marks words.new
        ≡ slice_set (values_of marks words.old) k (value.Number n) }
    ensures length { length words.new ≡ length words.old }
{
    words[k as usize] = n;
}

/// Writes a value to slot s.
pub(crate) fn set(words: &mut [i64], marks: &mut Marks, s: u16, v: Value)
    requires slot { s < length (values_of marks.old words.old) }
    requires few { length words.old ≤ 64 }
    ensures written { values_of marks.new words.new
        ≡ slice_set (values_of marks.old words.old) s v }
    ensures length { length words.new ≡ length words.old }
{
    let (word, is_number) = word_of(v);
    words[s as usize] = word;
    marks.set(s, is_number);
}

/// The words from base on, up to top.
pub(crate) fn part(words: &[i64], base: usize, top: usize) -> &[i64]
    requires base { base ≤ top }
    requires top { top ≤ length words.now }
    ensures { result.now ≡ drop base (take top words.now) }
{
    &words[base..top]
}

/// Whether the slots of two frames hold the same.
pub(crate) fn are_same_slots(a: &[i64], p: Marks, b: &[i64], q: Marks) -> bool
    requires few { length a.now ≤ 64 }
    requires few_too { length b.now ≤ 64 }
    ensures { Decides result (values_of p a.now ≡ values_of q b.now) }
{
    if a.len() != b.len() {
        return false;
    }
    for i in 0..a.len() {
        if value(a, p, i as u16) != value(b, q, i as u16) {
            return false;
        }
    }
    true
}

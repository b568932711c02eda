//! Numbers and lines.

ghost use Rattle.std.specs.Prelude.{◌≡◌, ℕ, ◌^◌, ◌<◌, ◌∷◌, ◌++◌, IsTrue, ◌↔◌, IfSome, IfNone, decimal};
ghost use Rattle.std.specs.List.{prefix_len};
ghost use Rattle.xk_types.specs.declared.world.Entry.{Entry as AnEntry};
ghost use Rattle.xk_log.specs.LogText.{isnt, blank, Lacks, entry_line, end_line, FitsEntry};
ghost use Rattle.xk_log.specs.Numbers.{value_from};

use xk_io::Page;
use xk_types::Entry;

/// How many bytes the last line has at most, whatever its number.
const LONGEST_END: usize = 24;

/// How many bytes stand before the first one of this value: all where there is none.
pub(crate) fn until(byte: u8, text: &[u8]) -> usize
    ensures { result ≡ prefix_len (isnt byte) text.now }
{
    text.iter().take_while(|&&b| b != byte).count()
}

/// What digits are worth, if it is a number of 32 bits.
fn value(digits: &[u8]) -> Option<u32>
    ensures { result ≡ value_from 0 digits.now }
{
    let mut value = 0u32;
    for &digit in digits {
        if !digit.is_ascii_digit() {
            return None;
        }
        let next = u64::from(value) * 10 + u64::from(digit - b'0');
        if next > u64::from(u32::MAX) {
            return None;
        }
        value = next as u32;
    }
    Some(value)
}

/// The number of 32 bits whose text this is.
fn number(digits: &[u8]) -> Option<u32>
    ensures found { IfSome result (λ n. digits.now ≡ decimal n) }
    ensures none { IfNone result ((n : ℕ) → n < 2 ^ 32 → ¬ (digits.now ≡ decimal n)) }
{
    if digits.is_empty() {
        return None;
    }
    if digits.len() > 1 && digits[0] == b'0' {
        return None;
    }
    value(digits)
}

/// What stands before the first blank, and behind it.
fn words(line: &[u8]) -> Option<(&[u8], &[u8])>
    ensures found { IfSome result (λ w. line.now ≡ w.0.now ++ blank ∷ w.1.now) }
    ensures first { IfSome result (λ w. Lacks blank w.0.now) }
    ensures none { IfNone result (Lacks blank line.now) }
{
    let length = until(b' ', line);
    if length >= line.len() {
        return None;
    }
    Some((&line[..length], &line[length + 1..]))
}

/// The entry whose line this is.
pub(crate) fn entry_of(line: &[u8]) -> Option<Entry>
    ensures found { IfSome result (λ e. line.now ≡ entry_line e) }
    ensures fits { IfSome result (λ e. FitsEntry e) }
    ensures none { IfNone result ((e : AnEntry) → FitsEntry e → ¬ (line.now ≡ entry_line e)) }
{
    let (act, steps) = words(line)?;
    let act = number(act)?;
    let steps = number(steps)?;
    if steps == 0 {
        return None;
    }
    Some(Entry { act, steps })
}

/// Whether this is the last line of a log of so many entries.
pub(crate) fn is_end(line: &[u8], entries: u64) -> bool
    ensures { IsTrue result ↔ (line.now ≡ end_line entries) }
{
    let mut page: Page<LONGEST_END> = Page::new();
    page.put(b"end ");
    page.put_number(entries);
    line == page.text()
}

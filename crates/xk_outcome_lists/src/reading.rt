//! A list of outcomes that is read.

ghost use Rattle.std.specs.Prelude.{◌≡◌, ◌≤◌, ◌++◌, ◌==◌, not, false, true, IfOk, IfErr, OnOk, Some, None, length, option_map};
ghost use Rattle.std.specs.Char.{is_ascii_digit};
ghost use Rattle.std.specs.List.{prefix_len};
ghost use Rattle.std.specs.Option.{option_to_list};
ghost use Rattle.xk_outcome_lists.specs.Expected.{IsStray, IsStrayIn, are_digits_behind, are_numbers, behind, behind_digits, is_passed_over, line_feed, may_follow, may_stand, stray_line, told_by, told_in};

use crate::expected::Expected;
use std::alloc::Global;

/// Why a list can't be read.
#[derive(Clone, Copy, Debug, PartialEq, Eq)]
pub enum ListFault {
    /// The line with this number, from 1 on, is the first that may not stand in a list.
    Stray(u64),
    /// Memory ran out.
    OutOfMemory,
}

/// What stands behind this beginning.
fn behind<'a>(beginning: &[u8], text: &'a [u8]) -> Option<&'a [u8]>
    ensures { option_map (λ t. t.now) result ≡ behind beginning.now text.entry.now }
{
    if text.starts_with(beginning) {
        return Some(&text[beginning.len()..]);
    }
    None
}

/// Whether the byte is a digit.
fn is_digit(b: u8) -> bool
    ensures { result ≡ is_ascii_digit b }
{
    b.is_ascii_digit()
}

/// How many digits stand before anything else.
fn digits_before(text: &[u8]) -> usize
    ensures count { result ≡ prefix_len is_ascii_digit text.now }
    ensures within { result ≤ length text.now }
{
    text.iter().take_while(|&&b| is_digit(b)).count()
}

/// What stands behind digits, of which there is one at least.
fn behind_digits(text: &[u8]) -> Option<&[u8]>
    ensures { option_map (λ t. t.now) result ≡ behind_digits text.entry.now }
{
    let digits = digits_before(text);
    if digits == 0 {
        return None;
    }
    Some(&text[digits..])
}

/// What stands behind `outcome K prints` in a line.
fn told_in(line: &[u8]) -> Option<&[u8]>
    ensures { option_map (λ t. t.now) result ≡ told_in line.entry.now }
{
    let number = behind(b"outcome ", line)?;
    let more = behind_digits(number)?;
    behind(b" prints", more)
}

/// Whether the byte may stand behind the other in numbers.
fn may_follow(before: u8, b: u8) -> bool
    ensures { result ≡ may_follow before b }
{
    b.is_ascii_digit() || (b == b' ' && before.is_ascii_digit()) || (b == b'-' && before == b' ')
}

/// Whether each byte may stand behind the one before it, the first one behind this, and the last is a digit.
fn are_digits_behind(before: u8, text: &[u8]) -> bool
    ensures { result ≡ are_digits_behind before text.now }
{
    let mut last = before;
    for b in text {
        if !may_follow(last, *b) {
            return false;
        }
        last = *b;
    }
    last.is_ascii_digit()
}

/// Whether this is the text of numbers, each behind a blank.
fn are_numbers(text: &[u8]) -> bool
    ensures { result ≡ are_numbers text.now }
{
    if text.is_empty() {
        return true;
    }
    text[0] == b' ' && are_digits_behind(b' ', &text[1..])
}

/// Whether a line is passed over.
fn is_passed_over(line: &[u8]) -> bool
    ensures { result ≡ is_passed_over line.now }
{
    line.is_empty() || line.starts_with(b"outcomes ")
}

/// Keeps what a line of this number tells, if it may stand in a list.
fn keep<'a>(told: &mut Expected<'a>, number: u64, line: &'a [u8]) -> Result<(), ListFault>
    ensures kept { OnOk result (told.new ≡ told.old ++ option_to_list (told_in line.entry.now)) }
    ensures stands { OnOk result (may_stand line.entry.now ≡ true) }
    ensures stray { IfErr result (IsStray number line.entry.now) }
{
    match told_in(line) {
        Some(numbers) => {
            if !are_numbers(numbers) {
                return Err(ListFault::Stray(number));
            }
            match told.push(numbers) {
                Ok(()) => Ok(()),
                Err(_) => Err(ListFault::OutOfMemory),
            }
        }
        None => {
            if !is_passed_over(line) {
                return Err(ListFault::Stray(number));
            }
            Ok(())
        }
    }
}

/// How many bytes stand before the next line feed: all where there is none.
fn until_feed(text: &[u8]) -> usize
    ensures { result ≡ prefix_len (λ b. not (b == line_feed)) text.now }
{
    text.iter().take_while(|&&b| b != b'\n').count()
}

/// Reads a list of outcomes.
pub fn read_expected<'a>(alloc: Global, text: &'a [u8]) -> Result<Expected<'a>, ListFault>
    ensures told { IfOk result (λ e. e ≡ told_by text.entry.now) }
    ensures stands { OnOk result (stray_line text.entry.now ≡ None) }
    ensures stray { IfErr result (IsStrayIn text.entry.now) }
{
    let mut told = Expected::new(alloc);
    let mut from: usize = 0;
    let mut number: u64 = 1;
    while from <= text.len() {
        let rest = &text[from..];
        let length = until_feed(rest);
        keep(&mut told, number, &rest[..length])?;
        from += length + 1;
        number += 1;
    }
    Ok(told)
}

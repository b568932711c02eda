//! Signs, and how they are shown: characters as they are, other bytes and marks of layout by their number.

ghost use Rattle.std.specs.Prelude.{◌≡◌, ◌<◌, ◌≤◌, ◌++◌, [], ◌∷◌, length, take, drop, IfOk, OnOk, IfSome, MatchOption};
ghost use Rattle.std.specs.Str.{continuation_len, is_utf8};
ghost use Rattle.xk_lines.specs.Signs.{hex_digit, is_character, is_control_pair, is_layout_mark, mark_number, shown_byte, shown_sign, shown_signs, shown_three, sign_len, signs, told, told_mark};

use std::alloc::{AllocError, Global};

/// How many bytes follow the first one of a character of UTF-8.
fn continuation_len(first: u8) -> usize
    ensures { result ≡ continuation_len first }
{
    if first < 128 {
        0
    } else if first < 224 {
        1
    } else if first < 240 {
        2
    } else {
        3
    }
}

/// Whether the bytes are UTF-8 as a whole.
fn is_utf8(bytes: &[u8]) -> bool
    ensures { result ≡ is_utf8 bytes.now }
{
    str::from_utf8(bytes).is_ok()
}

/// Whether a control sign of two bytes stands at the front.
fn is_control_pair(bytes: &[u8]) -> bool
    ensures { result ≡ is_control_pair bytes.now }
{
    match bytes {
        [first, second, ..] => *first == 0xC2 && *second < 0xA0,
        _ => false,
    }
}

/// Whether the bytes can be shown as they are: UTF-8, and no control sign of two bytes.
fn is_character(bytes: &[u8]) -> bool
    ensures { result ≡ is_character bytes.now }
{
    is_utf8(bytes) && !is_control_pair(bytes)
}

/// How many bytes the first sign has.
fn sign_len(text: &[u8]) -> usize
    requires { 0 < length text.now }
    ensures value { result ≡ sign_len text.now }
    ensures some { 0 < result }
    ensures within { result ≤ length text.now }
{
    let len = text.len().min(continuation_len(text[0]) + 1);
    if is_character(&text[..len]) { len } else { 1 }
}

/// The first sign, and what is behind it.
fn split_sign(text: &[u8]) -> Option<(&[u8], &[u8])>
    ensures cases { MatchOption result (signs text.now ≡ [])
        (λ parts. signs text.now ≡ parts.0.now ∷ signs parts.1.now) }
    ensures shorter { IfSome result (λ parts. length parts.1.now < length text.now) }
{
    if text.is_empty() {
        return None;
    }
    Some(text.split_at(sign_len(text)))
}

/// How many signs there are.
pub(crate) fn count_signs(text: &[u8]) -> usize
    ensures { result ≡ length (signs text.now) }
{
    let mut count = 0;
    let mut rest = text;
    while let Some((_, after)) = split_sign(rest) {
        count += 1;
        rest = after;
    }
    count
}

/// What is behind so many signs.
pub(crate) fn skip_signs(text: &[u8], count: usize) -> &[u8]
    ensures { signs result.now ≡ drop count (signs text.now) }
{
    let mut rest = text;
    for _ in 0..count {
        let Some((_, after)) = split_sign(rest) else {
            return rest;
        };
        rest = after;
    }
    rest
}

/// The sign for a hexadecimal digit.
fn hex_digit(digit: u8) -> u8
    requires { digit < 16 }
    ensures { result ≡ hex_digit digit }
{
    if digit < 10 {
        digit + b'0'
    } else {
        digit - 10 + b'a'
    }
}

/// How a byte is shown that can't be shown as it is: `\xNN`.
fn told(byte: u8) -> [u8; 4]
    ensures { result ≡ told byte }
{
    [b'\\', b'x', hex_digit(byte / 16), hex_digit(byte % 16)]
}

/// Adds a byte as it is shown for itself.
fn push_byte(shown: &mut Vec<u8>, byte: u8) -> Result<(), AllocError>
    ensures { OnOk result (shown.new.items ≡ shown.old.items ++ shown_byte byte) }
{
    match byte {
        b'\t' => shown.extend_from_slice(b" "),
        b' '..=b'~' => shown.extend_from_slice(&[byte]),
        _ => shown.extend_from_slice(&told(byte)),
    }
}

/// Whether it is a mark that ends a line or changes in which order letters stand, where it is shown as it is.
fn is_layout_mark(first: u8, second: u8, third: u8) -> bool
    ensures { result ≡ is_layout_mark first second third }
{
    let breaks_or_turns = second == 0x80 && (0xA8 <= third && third <= 0xAE);
    let isolates = second == 0x81 && (0xA6 <= third && third <= 0xA9);
    first == 0xE2 && (breaks_or_turns || isolates)
}

/// How far the number of such a mark is above U+2000.
fn mark_number(second: u8, third: u8) -> u8
    ensures { result ≡ mark_number second third }
{
    second % 2 * 64 + third % 64
}

/// How such a mark is shown: `\u{202e}`.
fn told_mark(second: u8, third: u8) -> [u8; 8]
    ensures { result ≡ told_mark second third }
{
    let n = mark_number(second, third);
    [
        b'\\',
        b'u',
        b'{',
        b'2',
        b'0',
        hex_digit(n / 16),
        hex_digit(n % 16),
        b'}',
    ]
}

/// Adds a character of three bytes as it is shown.
fn push_three(shown: &mut Vec<u8>, first: u8, second: u8, third: u8) -> Result<(), AllocError>
    ensures { OnOk result
        (shown.new.items ≡ shown.old.items ++ shown_three first second third) }
{
    if is_layout_mark(first, second, third) {
        return shown.extend_from_slice(&told_mark(second, third));
    }
    shown.extend_from_slice(&[first, second, third])
}

/// Adds a sign as it is shown.
fn push_sign(shown: &mut Vec<u8>, sign: &[u8]) -> Result<(), AllocError>
    ensures { OnOk result (shown.new.items ≡ shown.old.items ++ shown_sign sign.now) }
{
    match sign {
        [byte] => push_byte(shown, *byte),
        [first, second, third] => push_three(shown, *first, *second, *third),
        _ => shown.extend_from_slice(sign),
    }
}

/// Adds the first signs of a text as they are shown, so many at most.
pub(crate) fn push_signs(shown: &mut Vec<u8>, text: &[u8], count: usize) -> Result<(), AllocError>
    ensures { OnOk result
        (shown.new.items ≡ shown.old.items ++ shown_signs (take count (signs text.now))) }
{
    let mut rest = text;
    for _ in 0..count {
        let Some((sign, after)) = split_sign(rest) else {
            return Ok(());
        };
        push_sign(shown, sign)?;
        rest = after;
    }
    Ok(())
}

/// The first signs of a text of one line as they are shown, so many at most. Err where memory was refused.
pub fn shown_front(alloc: Global, text: &[u8], count: usize) -> Result<Vec<u8>, AllocError>
    ensures { IfOk result (λ v. v.items ≡ shown_signs (take count (signs text.now))) }
{
    let mut shown = Vec::new(alloc);
    push_signs(&mut shown, text, count)?;
    Ok(shown)
}

/// A text of one line as it is shown. A tab is a blank; control signs, and bytes that aren't UTF-8, are told by their numbers, as `\x1b`,
/// and so are U+2028 to U+202E and U+2066 to U+2069, as `\u{202e}`: nothing that is shown moves a terminal, or turns the order of
/// letters. Err where memory was refused.
pub fn shown(alloc: Global, text: &[u8]) -> Result<Vec<u8>, AllocError>
    ensures { IfOk result (λ v. v.items ≡ shown_signs (signs text.now)) }
{
    let mut shown = Vec::new(alloc);
    push_signs(&mut shown, text, text.len())?;
    Ok(shown)
}

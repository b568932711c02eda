//! Words, and what stands between them.

ghost use Rattle.std.specs.Prelude.{◌≡◌, ◌≤◌, length, nat_eq, take};
ghost use Rattle.std.specs.List.{ends_with, prefix_len, suffix_len};
ghost use Rattle.std.specs.Str.{bytes_eq};
ghost use Rattle.xk_explain_words.specs.Words.{begins, first_word, is_digit, is_space, is_word_byte, last_word};

/// A digit.
pub fn is_digit(b: u8) -> bool
    ensures { result ≡ is_digit b }
{
    b.is_ascii_digit()
}

/// A byte of names and numbers.
pub fn is_word_byte(b: u8) -> bool
    ensures { result ≡ is_word_byte b }
{
    b.is_ascii_alphanumeric() || b == b'_'
}

/// A space, a tab or the end of a line.
pub fn is_space(b: u8) -> bool
    ensures { result ≡ is_space b }
{
    (b == b' ' || b == b'\t') || (b == b'\n' || b == b'\r')
}

/// Whether a word is spelled so.
pub fn is_spelled(text: &[u8], word: &[u8]) -> bool
    ensures { result ≡ bytes_eq text.now word.now }
{
    text == word
}

/// Whether a text begins so.
pub fn begins(text: &[u8], front: &[u8]) -> bool
    ensures { result ≡ begins text.now front.now }
{
    text.starts_with(front)
}

/// Whether a text ends so.
pub fn ends(text: &[u8], tail: &[u8]) -> bool
    ensures { result ≡ ends_with nat_eq text.now tail.now }
{
    text.ends_with(tail)
}

/// How many bytes of names and numbers a text begins with.
fn first_len(text: &[u8]) -> usize
    ensures count { result ≡ prefix_len is_word_byte text.now }
    ensures within { result ≤ length text.now }
{
    text.iter().take_while(|&&b| is_word_byte(b)).count()
}

/// The name or number that a text begins with.
pub fn first_word(text: &[u8]) -> &[u8]
    ensures value { result.now ≡ first_word text.now }
    ensures within { length result.now ≤ length text.now }
{
    &text[..first_len(text)]
}

/// How many bytes of names and numbers stand at the end of a text.
fn last_len(text: &[u8]) -> usize
    ensures count { result ≡ suffix_len is_word_byte text.now }
    ensures within { result ≤ length text.now }
{
    text.iter().rev().take_while(|&&b| is_word_byte(b)).count()
}

/// The name or number that a text ends with.
pub fn last_word(text: &[u8]) -> &[u8]
    ensures { result.now ≡ last_word text.now }
{
    &text[text.len() - last_len(text)..]
}

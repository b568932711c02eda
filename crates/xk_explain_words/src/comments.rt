//! The tokens before and behind a place of a text, without the blanks and comments between.

ghost use Rattle.std.specs.Prelude.{◌≡◌, ◌≤◌, length};
ghost use Rattle.xk_explain_words.specs.Comments.{from_sign, is_of_token, part_after, to_sign, tokens_begin, tokens_end};

use crate::words::is_space;

/// Where a byte of a text stands.
#[derive(Clone, Copy)]
enum Part {
    /// Among tokens.
    Tokens,
    /// Behind a `/`, which begins a comment.
    Slash,
    /// In a comment up to the line's end.
    LineComment,
    /// In a comment up to a `*/`.
    BlockComment,
    /// Behind a `*` of such a comment.
    Star,
}

impl Part {
    /// The part that a byte leads to.
    fn after(self, b: u8) -> Part
        ensures { result ≡ part_after self b }
    {
        match self {
            Part::Tokens => { if b == b'/' { Part::Slash } else { Part::Tokens } }
            Part::Slash => {
                if b == b'*' {
                    Part::BlockComment
                } else {
                    Part::LineComment
                }
            }
            Part::LineComment => {
                if b == b'\n' {
                    Part::Tokens
                } else {
                    Part::LineComment
                }
            }
            Part::BlockComment => {
                if b == b'*' {
                    Part::Star
                } else {
                    Part::BlockComment
                }
            }
            Part::Star => {
                if b == b'/' {
                    Part::Tokens
                } else if b == b'*' {
                    Part::Star
                } else {
                    Part::BlockComment
                }
            }
        }
    }

    /// Whether a byte that stands there is a token's.
    fn is_of_token(self, b: u8) -> bool
        ensures { result ≡ is_of_token self b }
    {
        match self {
            Part::Tokens => !is_space(b) && b != b'/',
            Part::Slash | Part::LineComment | Part::BlockComment | Part::Star => false,
        }
    }
}

/// Where the last token of a text ends.
fn tokens_end(text: &[u8]) -> usize
    ensures end { result ≡ tokens_end Part.Tokens 0 0 text.now }
    ensures within { result ≤ length text.now }
{
    let mut part = Part::Tokens;
    let mut end = 0;
    for (i, &b) in text.iter().enumerate() {
        if part.is_of_token(b) {
            end = i + 1;
        }
        part = part.after(b);
    }
    end
}

/// A text without the blanks and comments that it ends with.
pub fn to_sign(text: &[u8]) -> &[u8]
    ensures value { result.now ≡ to_sign text.now }
    ensures within { length result.now ≤ length text.now }
{
    &text[..tokens_end(text)]
}

/// Where the first token of a text begins.
fn tokens_begin(text: &[u8]) -> usize
    ensures begin { result ≡ tokens_begin Part.Tokens text.now }
    ensures within { result ≤ length text.now }
{
    let mut part = Part::Tokens;
    for (i, &b) in text.iter().enumerate() {
        if part.is_of_token(b) {
            return i;
        }
        part = part.after(b);
    }
    text.len()
}

/// A text without the blanks and comments that it begins with.
pub fn from_sign(text: &[u8]) -> &[u8]
    ensures { result.now ≡ from_sign text.now }
{
    &text[tokens_begin(text)..]
}

//! A text of some lines, before it is written.

ghost use Rattle.std.specs.Prelude.{◌≡◌, ◌+◌, ◌≤◌, ◌++◌, [], length};

use itoa::{Buffer, Integer};
use std::marker::Model;

/// At most `SIZE` bytes of a text, one after another, for which no memory is taken.
#[derive(Drop)]
pub struct Page<const SIZE: usize> {
    bytes: [u8; SIZE],
    filled: usize,
}

impl<const SIZE: usize> Model for Page<SIZE> {
    ghost use Rattle.std.specs.Prelude.{◌≤◌, ℕ, List, take};

    ghost Value = { List ℕ };

    ghost view = { λ p. take p.filled p.bytes };

    ghost invariant = { λ p. p.filled ≤ SIZE };
}

impl<const SIZE: usize> Page<SIZE> {
    /// No bytes.
    pub fn new() -> Page<SIZE>
        ensures { result ≡ [] }
    {
        Page {
            bytes: [0; SIZE],
            filled: 0,
        }
    }

    /// The bytes.
    pub fn text(&self) -> &[u8]
        ensures { result.now ≡ self.now }
    {
        &self.bytes[..self.filled]
    }

    /// Puts a text behind the bytes.
    pub fn put(&mut self, text: &[u8])
        requires { length self.old + length text.now ≤ SIZE }
        ensures { self.new ≡ self.old ++ text.now }
    {
        let end = self.filled + text.len();
        let bytes = &mut self.bytes[..];
        bytes[self.filled..end].copy_from_slice(text);
        self.filled = end;
    }

    /// Puts the digits of a number, and its sign where it has one, behind them.
    pub fn put_number<I: Integer>(&mut self, number: I)
        requires { length self.old + I.MAX_STR_LEN ≤ SIZE }
        ensures text { self.new ≡ self.old ++ I.text number }
        ensures grown { length self.new ≤ length self.old + I.MAX_STR_LEN }
    {
        let mut digits = Buffer::new();
        self.put(digits.format(number).as_bytes());
    }
}

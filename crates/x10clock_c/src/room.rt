//! The rooms that a caller gives for texts.

ghost use Rattle.std.specs.Prelude.{◌≡◌, length};
ghost use Rattle.x10clock_c.specs.Call.{IsShown};

/// How long the texts are that a call gives, whatever room there was for them.
#[repr(C)]
#[derive(Clone, Copy, Debug, PartialEq, Eq)]
pub struct Lengths {
    /// What goes to standard output.
    pub out: usize,
    /// What goes to standard error.
    pub err: usize,
    /// The log that is written.
    pub log: usize,
}

/// Copies as much of a text as there is room for, and says how long it is.
pub(crate) fn give(text: &[u8], room: &mut [u8]) -> usize
    ensures len { result ≡ length text.now }
    ensures bytes { IsShown room.old room.new text.now }
{
    let count = text.len().min(room.len());
    room[..count].copy_from_slice(&text[..count]);
    text.len()
}

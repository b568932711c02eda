//! A line while it is read.

ghost use Rattle.std.specs.Prelude.{◌≡◌, ◌∷◌, ◌<◌, ◌^◌, [], ℕ, List, Some, IfNone, IfSome, false, true};
ghost use Rattle.std.specs.Char.{is_ascii_digit};
ghost use Rattle.xk_log.specs.Numbers.{with_digit};
ghost use Rattle.xk_ask.specs.Answers.{blank_behind, is_blank, named, number_on};
ghost use Rattle.xk_ask.specs.Reading.{named_on};

/// What the first bytes of a line have been.
#[derive(Clone, Copy, Debug, PartialEq, Eq)]
pub(crate) enum Line {
    /// Blanks, if any.
    Blank,
    /// Perhaps blanks, and then the digits of a number of 32 bits.
    Number(u32),
    /// The same, and then blanks.
    Closed(u32),
    /// Something else.
    Other,
}

/// Whether a byte is a space, a tab or a carriage return.
fn is_blank(byte: u8) -> bool
    ensures { result ≡ is_blank byte }
{
    byte == b' ' || byte == b'\t' || byte == b'\r'
}

/// The line whose first byte that is no blank is this one.
fn begun(byte: u8) -> Line
    requires { is_blank byte ≡ false }
    ensures { (bs : List ℕ) → named_on result bs ≡ named (byte ∷ bs) }
{
    if byte.is_ascii_digit() {
        return Line::Number(u32::from(byte - b'0'));
    }
    Line::Other
}

/// The number with this digit behind it, if it is of 32 bits.
fn with_digit(number: u32, digit: u8) -> Line
    requires { is_ascii_digit digit ≡ true }
    ensures { (bs : List ℕ) → named_on result bs ≡ number_on number (digit ∷ bs) }
{
    let next = u64::from(number) * 10 + u64::from(digit - b'0');
    if next > u64::from(u32::MAX) {
        return Line::Other;
    }
    Line::Number(next as u32)
}

/// The line behind a number and this byte.
fn closed(number: u32, byte: u8) -> Line
    ensures { (bs : List ℕ) → named_on result bs ≡ blank_behind number (byte ∷ bs) }
{
    if is_blank(byte) {
        return Line::Closed(number);
    }
    Line::Other
}

impl Line {
    /// The line with this byte behind it.
    pub(crate) fn with(self, byte: u8) -> Line
        ensures { (bs : List ℕ) → named_on result bs ≡ named_on self (byte ∷ bs) }
    {
        match self {
            Line::Blank => {
                if is_blank(byte) {
                    return Line::Blank;
                }
                begun(byte)
            }
            Line::Number(number) => {
                if byte.is_ascii_digit() {
                    return with_digit(number, byte);
                }
                closed(number, byte)
            }
            Line::Closed(number) => closed(number, byte),
            Line::Other => Line::Other,
        }
    }

    /// The number that the line is.
    pub(crate) fn number(self) -> Option<u32>
        ensures { result ≡ named_on self [] }
    {
        match self {
            Line::Number(number) | Line::Closed(number) => Some(number),
            Line::Blank | Line::Other => None,
        }
    }
}

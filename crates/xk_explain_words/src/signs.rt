//! Signs that aren't of ASCII.

ghost use Rattle.std.specs.Prelude.{◌≡◌};
ghost use Rattle.xk_explain_words.specs.Signs.{is_comparison_sign, is_dash, is_joining_mark, is_other_blank, is_quote, is_quote_mark};
ghost use Rattle.xk_explain_words.specs.Signs.{is_space_mark, is_unseen, is_wide, is_without_width};

use crate::words::begins;

/// Whether a typographic quote of three bytes stands there.
fn is_quote_mark(rest: &[u8]) -> bool
    ensures { result ≡ is_quote_mark rest.now }
{
    match rest {
        [a, b, c, ..] => *a == 226 && *b == 128 && *c >= 152 && *c <= 159,
        _ => false,
    }
}

/// Whether a typographic quote stands there.
#[tactic(auto, unfolding(crate::specs::Signs::is_quote))]
pub fn is_quote(rest: &[u8]) -> bool
    ensures { result ≡ is_quote rest.now }
{
    is_quote_mark(rest) || begins(rest, &[194, 171]) || begins(rest, &[194, 187])
}

/// Whether one of the blanks of U+2000 to U+200A stands there.
fn is_space_mark(rest: &[u8]) -> bool
    ensures { result ≡ is_space_mark rest.now }
{
    match rest {
        [a, b, c, ..] => *a == 226 && *b == 128 && *c >= 128 && *c <= 138,
        _ => false,
    }
}

/// Whether a blank of another width stands there.
#[tactic(auto, unfolding(crate::specs::Signs::is_other_blank))]
pub fn is_other_blank(rest: &[u8]) -> bool
    ensures { result ≡ is_other_blank rest.now }
{
    is_space_mark(rest)
        || begins(rest, &[226, 128, 175])
        || begins(rest, &[226, 129, 159])
        || begins(rest, &[227, 128, 128])
}

/// Whether one of U+200B to U+200F stands there.
fn is_joining_mark(rest: &[u8]) -> bool
    ensures { result ≡ is_joining_mark rest.now }
{
    match rest {
        [a, b, c, ..] => *a == 226 && *b == 128 && *c >= 139 && *c <= 143,
        _ => false,
    }
}

/// Whether a sign without any width stands there.
#[tactic(auto, unfolding(crate::specs::Signs::is_without_width))]
pub fn is_without_width(rest: &[u8]) -> bool
    ensures { result ≡ is_without_width rest.now }
{
    is_joining_mark(rest)
        || begins(rest, &[194, 173])
        || begins(rest, &[226, 129, 160])
        || begins(rest, &[239, 187, 191])
}

/// Whether nothing can be seen there: a no-break space, another blank that is none of ASCII, or a sign without any width.
#[tactic(auto, unfolding(crate::specs::Signs::is_unseen))]
pub fn is_unseen(rest: &[u8]) -> bool
    ensures { result ≡ is_unseen rest.now }
{
    begins(rest, &[194, 160]) || is_other_blank(rest) || is_without_width(rest)
}

/// Whether a sign for a comparison stands there.
#[tactic(auto, unfolding(crate::specs::Signs::is_comparison_sign))]
pub fn is_comparison_sign(rest: &[u8]) -> bool
    ensures { result ≡ is_comparison_sign rest.now }
{
    begins(rest, &[226, 137, 160])
        || begins(rest, &[226, 137, 164])
        || begins(rest, &[226, 137, 165])
}

/// Whether a dash stands there.
#[tactic(auto, unfolding(crate::specs::Signs::is_dash))]
pub fn is_dash(rest: &[u8]) -> bool
    ensures { result ≡ is_dash rest.now }
{
    begins(rest, &[226, 128, 147])
        || begins(rest, &[226, 128, 148])
        || begins(rest, &[226, 136, 146])
}

/// Whether a sign of full width stands there.
#[tactic(auto, unfolding(crate::specs::Signs::is_wide))]
pub fn is_wide(rest: &[u8]) -> bool
    ensures { result ≡ is_wide rest.now }
{
    begins(rest, &[239, 188]) || begins(rest, &[239, 189])
}

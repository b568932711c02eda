//! Numbers as they are kept, and as they are told.

ghost use Rattle.std.specs.Prelude.{◌≡◌, ◌+◌, ◌*◌, IfOk};
ghost use Rattle.xk_explain_bounds.specs.Amounts.{amount, between, counted, kept};

use std::alloc::{AllocError, Global};

/// The greatest number that is told in digits.
const MOST_TOLD: u64 = 1_000_000_000_000_000_000;

/// As what each greater number is kept.
const OVER: u64 = 1_000_000_000_000_000_001;

/// The sum of two numbers, as it is kept.
pub(crate) fn sum(a: u64, b: u64) -> u64
    ensures { result ≡ kept (a + b) }
{
    a.saturating_add(b).min(OVER)
}

/// The product of two numbers, as it is kept.
pub(crate) fn product(a: u64, b: u64) -> u64
    ensures { result ≡ kept (a * b) }
{
    a.saturating_mul(b).min(OVER)
}

/// How many numbers there are from one to another, as that is kept; none where the first is greater.
pub(crate) fn distance(lo: i64, hi: i64) -> u64
    ensures { result ≡ kept (between lo hi) }
{
    if lo <= hi {
        hi.abs_diff(lo).saturating_add(1).min(OVER)
    } else {
        0
    }
}

/// A number as it is told.
pub(crate) fn amount(alloc: Global, n: u64) -> Result<Vec<u8>, AllocError>
    ensures { IfOk result (λ v. v.items ≡ amount n) }
{
    if n <= MOST_TOLD {
        return Vec::from_slice(alloc, format!(in alloc; "{n}")?.as_bytes());
    }
    Vec::from_slice(alloc, "over 1000000000000000000".as_bytes())
}

/// A number with what it counts: the first word where it is one, and the other elsewhere.
pub(crate) fn counted(alloc: Global, n: u64, one: &str, many: &str) -> Result<Vec<u8>, AllocError>
    ensures { IfOk result (λ v. v.items ≡ counted n one.now many.now) }
{
    let mut out = amount(alloc, n)?;
    let word = if n == 1 { one } else { many };
    out.extend_from_slice(word.as_bytes())?;
    Ok(out)
}

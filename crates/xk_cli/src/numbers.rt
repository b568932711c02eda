//! Numbers in words.

ghost use Rattle.std.specs.Prelude.{◌≡◌, IfOk, map, option_map};
ghost use Rattle.xk_cli.specs.Numbers.{count_named, number_named, numbers_named};

use std::alloc::{AllocError, Global};

/// The numbers that texts name, in order. None where one of them names none of 64 bits.
pub(crate) fn numbers_named(alloc: Global, texts: &[&str]) -> Result<Option<Vec<i64>>, AllocError>
    ensures { IfOk result (λ found. option_map (λ numbers. numbers.items) found
        ≡ numbers_named (map (λ text. text.now) texts.now)) }
{
    let mut numbers = Vec::new(alloc);
    for text in texts {
        match number_named(text) {
            Some(number) => numbers.push(number)?,
            None => return Ok(None),
        }
    }
    Ok(Some(numbers))
}

/// The number that a text names: a digit or more, before which a sign may stand.
fn number_named(text: &str) -> Option<i64>
    ensures { result ≡ number_named text.now }
{
    match text.parse::<i64>() {
        Ok(number) => Some(number),
        Err(_) => None,
    }
}

/// The whole number that a text names: a digit or more, before which a plus may stand. None where it has more than 64 bits.
pub(crate) fn count_named(text: &str) -> Option<u64>
    ensures { result ≡ count_named text.now }
{
    match text.parse::<u64>() {
        Ok(count) => Some(count),
        Err(_) => None,
    }
}

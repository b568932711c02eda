//! The numbers that were printed so far.

ghost use Rattle.std.specs.Prelude.{◌≡◌, ◌-◌, ◌++◌, drop, flat_map, length, OnOk};
ghost use Rattle.xk_ask.specs.ProgramTexts.{left_out, number_word, number_words, printed_line};

use std::alloc::{AllocError, Global};

/// How many numbers are told.
const TOLD: usize = 20;

/// Adds a number behind a blank.
fn push_number(alloc: Global, out: &mut Vec<u8>, number: i64) -> Result<(), AllocError>
    ensures { OnOk result (out.new.items ≡ out.old.items ++ number_word number) }
{
    out.extend_from_slice(format!(in alloc; " {number}")?.as_bytes())
}

/// Adds what stands for numbers that are left out, if some are.
fn push_left_out(out: &mut Vec<u8>, numbers: &[i64]) -> Result<(), AllocError>
    ensures { OnOk result (out.new.items ≡ out.old.items ++ left_out numbers.now) }
{
    if numbers.len() > TOLD {
        return out.extend_from_slice(b" ..");
    }
    Ok(())
}

/// The last numbers.
fn last_numbers(numbers: &[i64]) -> &[i64]
    ensures { result.now ≡ drop (length numbers.now - 20) numbers.now }
{
    &numbers[numbers.len().saturating_sub(TOLD)..]
}

/// Adds these numbers.
fn push_each(alloc: Global, out: &mut Vec<u8>, numbers: &[i64]) -> Result<(), AllocError>
    ensures { OnOk result (out.new.items
        ≡ out.old.items ++ flat_map number_word numbers.now) }
{
    for number in numbers {
        push_number(alloc, out, *number)?;
    }
    Ok(())
}

/// Adds the last numbers, with a sign for the others.
fn push_numbers(alloc: Global, out: &mut Vec<u8>, numbers: &[i64]) -> Result<(), AllocError>
    ensures { OnOk result (out.new.items ≡ out.old.items ++ number_words numbers.now) }
{
    push_left_out(out, numbers)?;
    push_each(alloc, out, last_numbers(numbers))
}

/// Adds the line of the numbers that were printed, if some were.
pub(crate) fn push_printed(
    alloc: Global,
    out: &mut Vec<u8>,
    numbers: &[i64],
) -> Result<(), AllocError>
    ensures { OnOk result (out.new.items ≡ out.old.items ++ printed_line numbers.now) }
{
    match numbers {
        [] => Ok(()),
        [_, ..] => {
            out.extend_from_slice(b"printed")?;
            push_numbers(alloc, out, numbers)?;
            out.extend_from_slice(b"\n")
        }
    }
}

//! Shares of steps.

ghost use Rattle.std.specs.Prelude.{◌≡◌, ◌<◌, IfOk, OnOk};
ghost use Rattle.xk_span_summary.specs.Shares.{hundredths, least_rounds, level_rounds, share, width_with, widths_of};

use crate::counts::{add_one, number_at, sum};
use std::alloc::{AllocError, Global};
use xk_races::{Deed, Part};

/// How many hundredths n of d are, to the nearest one.
pub fn hundredths(n: usize, d: usize) -> u128
    ensures { result ≡ hundredths n d }
{
    if d == 0 {
        return 0;
    }
    (200 * n as u128 + d as u128) / (2 * d as u128)
}

/// One more in this round, if the deed is a step itself.
fn add_width(widths: &mut Vec<usize>, deed: &Deed, round: usize) -> Result<(), AllocError>
    ensures { OnOk result (widths.new.items ≡ width_with deed.now round widths.old.items) }
{
    if matches!(deed.part, Part::Print) {
        return add_one(widths, round);
    }
    Ok(())
}

/// How many steps each round has.
pub fn widths_of(alloc: Global, times: &[usize], deeds: &[Deed]) -> Result<Vec<usize>, AllocError>
    ensures { IfOk result (λ v. v.items ≡ widths_of times.now deeds.now) }
{
    let mut widths = Vec::new(alloc);
    for (i, deed) in deeds.iter().enumerate() {
        add_width(&mut widths, deed, number_at(times, i))?;
    }
    Ok(widths)
}

/// The rounds that so many steps take on p processors.
fn share(p: usize, n: usize) -> Result<usize, AllocError>
    requires { 0 < p }
    ensures { IfOk result (λ r. r ≡ share p n) }
{
    let rest = if n % p == 0 { 0 } else { 1 };
    sum(n / p, rest)
}

/// No fewer rounds than that, and no fewer than a chain has steps.
pub fn least_rounds(p: usize, work: usize, span: usize) -> Result<usize, AllocError>
    requires { 0 < p }
    ensures { IfOk result (λ r. r ≡ least_rounds p work span) }
{
    let share = share(p, work)?;
    Ok(share.max(span))
}

/// The rounds that it takes on p processors, round by round of an ideal machine.
pub fn level_rounds(p: usize, widths: &[usize]) -> Result<usize, AllocError>
    requires { 0 < p }
    ensures { IfOk result (λ r. r ≡ level_rounds p widths.now) }
{
    let mut rounds = 0;
    for width in widths {
        rounds = sum(rounds, share(p, *width)?)?;
    }
    Ok(rounds)
}

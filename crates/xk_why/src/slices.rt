//! Back along what steps made.

ghost use Rattle.std.specs.Prelude.{◌≡◌, not, length, filter, IfOk, OnOk, if◌then◌else◌};
ghost use Rattle.std.specs.List.{list_any};
ghost use Rattle.xk_why.specs.Flows.{makes, overwrites, same_location};
ghost use Rattle.xk_why.specs.Slices.{slice_of, still_wanted, wanted_before, with_any, with_location, with_number};

use crate::flows::{Flow, Location, makes, overwrites, same_location};
use std::alloc::{AllocError, Global};

/// Whether a step makes something at one of these.
fn makes_any(flow: &Flow, wanted: &[Location]) -> bool
    ensures { result ≡ list_any (makes flow.now) wanted.now }
{
    wanted.iter().any(|l| makes(flow, *l))
}

/// Whether a location is one of these.
fn is_wanted(wanted: &[Location], location: Location) -> bool
    ensures { result ≡ list_any (same_location location) wanted.now }
{
    wanted.iter().any(|l| same_location(location, *l))
}

/// This location too.
fn want(wanted: &mut Vec<Location>, location: Location) -> Result<(), AllocError>
    ensures { OnOk result (wanted.new.items ≡ with_location wanted.old.items location) }
{
    if !is_wanted(wanted, location) {
        wanted.push(location)?;
    }
    Ok(())
}

/// The same, if it is any.
pub(crate) fn want_any(
    wanted: &mut Vec<Location>,
    location: Option<Location>,
) -> Result<(), AllocError>
    ensures { OnOk result (wanted.new.items ≡ with_any wanted.old.items location) }
{
    match location {
        Some(location) => want(wanted, location),
        None => Ok(()),
    }
}

/// These, without those that a step overwrites.
fn left_by(alloc: Global, flow: &Flow, wanted: &[Location]) -> Result<Vec<Location>, AllocError>
    ensures { IfOk result (λ v. v.items
        ≡ filter (λ l. not (overwrites flow.now l)) wanted.now) }
{
    let mut list = Vec::new(alloc);
    for location in wanted {
        if !overwrites(flow, *location) {
            list.push(*location)?;
        }
    }
    Ok(list)
}

/// Before a step that makes something at one of these: what it overwrites isn't wanted from there, and what it uses is.
fn wanted_before(
    alloc: Global,
    flow: &Flow,
    wanted: &[Location],
) -> Result<Vec<Location>, AllocError>
    ensures { IfOk result (λ v. v.items ≡ wanted_before flow.now wanted.now) }
{
    let mut list = left_by(alloc, flow, wanted)?;
    want_any(&mut list, flow.first)?;
    want_any(&mut list, flow.second)?;
    Ok(list)
}

/// Goes back over flow number n.
fn go_over(
    alloc: Global,
    list: &mut Vec<usize>,
    wanted: &mut Vec<Location>,
    n: usize,
    flow: &Flow,
) -> Result<(), AllocError>
    ensures list { OnOk result (list.new.items
        ≡ with_number n flow.now wanted.old.items list.old.items) }
    ensures wanted { OnOk result (wanted.new.items ≡ still_wanted flow.now wanted.old.items) }
{
    if makes_any(flow, wanted) {
        list.push(n)?;
        *wanted = wanted_before(alloc, flow, wanted)?;
    }
    Ok(())
}

/// The numbers of those by which what is wanted behind them all was made, the last first.
pub(crate) fn slice_of(
    alloc: Global,
    flows: &[Flow],
    wanted: Vec<Location>,
) -> Result<Vec<usize>, AllocError>
    ensures { IfOk result (λ v. v.items ≡ slice_of flows.now wanted.items) }
{
    let mut wanted = wanted;
    let mut list = Vec::new(alloc);
    let count = flows.len();
    for done in 0..count {
        let n = count - (done + 1);
        go_over(alloc, &mut list, &mut wanted, n, &flows[n])?;
    }
    Ok(list)
}

//! The steps that a step rests on.

ghost use Rattle.std.specs.Prelude.{◌≡◌, [], IfOk, OnOk};
ghost use Rattle.xk_why.specs.Rest.{earlier, is_last, rest_of, steps_from, wanted_by, wanted_with, with_step, with_step_of};

use crate::flows::{Flow, Location};
use crate::slices::{slice_of, want_any};
use std::alloc::{AllocError, Global};
use xk_show_events::is_seen;

/// What the steps before number n made.
fn earlier(alloc: Global, flows: &[Flow], n: u64) -> Result<Vec<Flow>, AllocError>
    ensures { IfOk result (λ v. v.items ≡ earlier n flows.now) }
{
    let mut list = Vec::new(alloc);
    for flow in flows {
        if flow.step.number < n {
            list.push(*flow)?;
        }
    }
    Ok(list)
}

/// These, and what a step uses, if it is number n.
fn want_with(wanted: &mut Vec<Location>, n: u64, flow: &Flow) -> Result<(), AllocError>
    ensures { OnOk result (wanted.new.items ≡ wanted_with n flow.now wanted.old.items) }
{
    if flow.step.number == n {
        want_any(wanted, flow.first)?;
        want_any(wanted, flow.second)?;
    }
    Ok(())
}

/// What step number n uses.
fn wanted_by(alloc: Global, flows: &[Flow], n: u64) -> Result<Vec<Location>, AllocError>
    ensures { IfOk result (λ v. v.items ≡ wanted_by n flows.now) }
{
    let mut wanted = Vec::new(alloc);
    for flow in flows {
        want_with(&mut wanted, n, flow)?;
    }
    Ok(wanted)
}

/// Whether it is the last one of these.
fn is_last(list: &[u64], n: u64) -> bool
    ensures { result ≡ is_last list.now n }
{
    match list.get(list.len().saturating_sub(1)) {
        Some(last) => *last == n,
        None => false,
    }
}

/// Adds the number of a flow's step, if others can see it, once.
fn push_step(list: &mut Vec<u64>, flow: &Flow) -> Result<(), AllocError>
    ensures { OnOk result (list.new.items ≡ with_step flow.now list.old.items) }
{
    if is_seen(flow.step.event) && !is_last(list, flow.step.number) {
        list.push(flow.step.number)?;
    }
    Ok(())
}

/// The same of flow number i, if there is one.
fn push_step_of(list: &mut Vec<u64>, flows: &[Flow], i: usize) -> Result<(), AllocError>
    ensures { OnOk result (list.new.items ≡ with_step_of flows.now i list.old.items) }
{
    match flows.get(i) {
        Some(flow) => push_step(list, flow),
        None => Ok(()),
    }
}

/// The numbers of the steps of these flows that others can see.
fn steps_of(alloc: Global, flows: &[Flow], slice: &[usize]) -> Result<Vec<u64>, AllocError>
    ensures { IfOk result (λ v. v.items ≡ steps_from flows.now [] slice.now) }
{
    let mut list = Vec::new(alloc);
    for i in slice {
        push_step_of(&mut list, flows, *i)?;
    }
    Ok(list)
}

/// The numbers of the steps that step number n rests on and that others can see, the last first, where the steps of its run
/// made these.
pub(crate) fn rest_of(alloc: Global, flows: &[Flow], n: u64) -> Result<Vec<u64>, AllocError>
    ensures { IfOk result (λ v. v.items ≡ rest_of n flows.now) }
{
    let wanted = wanted_by(alloc, flows, n)?;
    let before = earlier(alloc, flows, n)?;
    let slice = slice_of(alloc, &before, wanted)?;
    steps_of(alloc, &before, &slice)
}

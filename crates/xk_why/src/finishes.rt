//! For which ends a finish waits.

ghost use Rattle.std.specs.Prelude.{◌≡◌, ◌-◌, ◌++◌, flat_map, length, slice_get, slice_set, IfOk, OnOk};
ghost use Rattle.xk_why.specs.Finishes.{closing, ending, ends, finish_flow, finish_flows};
ghost use Rattle.xk_why.specs.Finishes.{gone_in, gone_out, main_alone, nest_of, nests_after};

use crate::data::flow;
use crate::flows::{Flow, Location};
use crate::waits::added;
use std::alloc::{AllocError, Global};
use std::marker::Model;
use std::mem;
use xk_show_events::RunStep;
use xk_types::Event;

/// The finishes in which an activity is, by the numbers of the steps that opened them, the innermost last.
#[derive(Drop)]
struct Nest {
    finishes: Vec<u64>,
}

impl Model for Nest {
    ghost use Rattle.std.specs.Prelude.{ℕ, List};

    ghost Value = { List ℕ };

    ghost view = { λ n. n.finishes.items };
}

/// The finishes in which an activity is.
fn nest_of(nests: &[Nest], act: u32) -> &[u64]
    ensures { result.now ≡ nest_of nests.now act }
{
    match nests.get(act as usize) {
        Some(nest) => &nest.finishes,
        None => &[],
    }
}

/// These finishes.
fn copied(alloc: Global, finishes: &[u64]) -> Result<Nest, AllocError>
    ensures { IfOk result (λ n. n ≡ finishes.now) }
{
    let mut same = Vec::with_capacity(alloc, finishes.len())?;
    for finish in finishes {
        same.push(*finish)?;
    }
    Ok(Nest { finishes: same })
}

/// An activity is in these finishes from now on.
fn put(nests: &mut Vec<Nest>, act: u32, nest: Nest)
    ensures { nests.new.items ≡ slice_set nests.old.items act nest }
{
    if let Some(place) = nests.get_mut(act as usize) {
        drop(mem::replace(place, nest));
    }
}

/// An activity opens a finish.
fn go_in(alloc: Global, nests: &mut Vec<Nest>, act: u32, finish: u64) -> Result<(), AllocError>
    ensures { OnOk result (nests.new.items ≡ gone_in nests.old.items act finish) }
{
    let mut inner = copied(alloc, nest_of(nests, act))?;
    inner.finishes.push(finish)?;
    put(nests, act, inner);
    Ok(())
}

/// It closes the innermost one.
fn go_out(alloc: Global, nests: &mut Vec<Nest>, act: u32) -> Result<(), AllocError>
    ensures { OnOk result (nests.new.items ≡ gone_out nests.old.items act) }
{
    let finishes = nest_of(nests, act);
    let outer = copied(alloc, &finishes[..finishes.len().saturating_sub(1)])?;
    put(nests, act, outer);
    Ok(())
}

/// Goes over a step.
fn go_on(alloc: Global, nests: &mut Vec<Nest>, step: &RunStep) -> Result<(), AllocError>
    ensures { OnOk result (nests.new.items
        ≡ nests_after step.now step.now.event nests.old.items) }
{
    match step.event {
        Event::Opened => go_in(alloc, nests, step.act, step.number),
        Event::Closed => go_out(alloc, nests, step.act),
        Event::Spawned => {
            let same = copied(alloc, nest_of(nests, step.act))?;
            nests.push(same)?;
            Ok(())
        }
        _ => Ok(()),
    }
}

/// The ends for which a finish waits.
fn ends(finish: u64) -> Option<Location>
    ensures { result ≡ ends finish }
{
    Some(Location::Ends(finish))
}

/// A step is an end for which these finishes wait.
fn push_ending(list: &mut Vec<Flow>, step: &RunStep, nest: &[u64]) -> Result<(), AllocError>
    ensures { OnOk result (list.new.items ≡ list.old.items
        ++ flat_map (ending step.now) nest.now) }
{
    for finish in nest {
        list.push(added(step, ends(*finish)))?;
    }
    Ok(())
}

/// A step closes the innermost of these finishes.
fn push_closing(list: &mut Vec<Flow>, step: &RunStep, nest: &[u64]) -> Result<(), AllocError>
    ensures { OnOk result (list.new.items ≡ list.old.items
        ++ closing step.now (slice_get nest.now (length nest.now - 1))) }
{
    match nest.get(nest.len().saturating_sub(1)) {
        Some(finish) => {
            list.push(flow(step, None, ends(*finish), None))?;
            Ok(())
        }
        None => Ok(()),
    }
}

/// What a step of an activity that is in these finishes makes.
fn push_finish_flow(list: &mut Vec<Flow>, step: &RunStep, nest: &[u64]) -> Result<(), AllocError>
    ensures { OnOk result (list.new.items ≡ list.old.items
        ++ finish_flow step.now step.now.event nest.now) }
{
    match step.event {
        Event::Ended => push_ending(list, step, nest),
        Event::Closed => push_closing(list, step, nest),
        _ => Ok(()),
    }
}

/// What the steps of a run that others can see make, by the finishes in which activities are.
pub(crate) fn push_finish_flows(
    alloc: Global,
    list: &mut Vec<Flow>,
    steps: &[RunStep],
) -> Result<(), AllocError>
    ensures { OnOk result (list.new.items ≡ list.old.items
        ++ finish_flows main_alone steps.now) }
{
    let mut nests = Vec::new(alloc);
    nests.push(copied(alloc, &[])?)?;
    for step in steps {
        push_finish_flow(list, step, nest_of(&nests, step.act))?;
        go_on(alloc, &mut nests, step)?;
    }
    Ok(())
}

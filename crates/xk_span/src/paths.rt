//! A critical path.

ghost use Rattle.std.specs.Prelude.{◌≡◌, ◌++◌, flat_map, IfOk, OnOk};
ghost use Rattle.xk_span.specs.Paths.{back_from, path_back};
ghost use Rattle.xk_span.specs.Steps.{if_step, step_at};

use crate::marks::{Mark, mark_at};
use crate::pass::is_step;
use std::alloc::{AllocError, Global};
use xk_races::Deed;
use xk_show_events::RunStep;

/// Adds the deeds that lead up to number j, the last one first.
fn push_back(path: &mut Vec<usize>, links: &[Mark], j: usize) -> Result<(), AllocError>
    ensures { OnOk result (path.new.items ≡ path.old.items ++ back_from links.now j j) }
{
    let mut at = j;
    for _ in 0..j {
        let link = mark_at(links, at);
        if link.time == 0 {
            return Ok(());
        }
        path.push(link.from)?;
        at = link.from;
    }
    Ok(())
}

/// The deeds of the chain that a mark ends, the last one first.
pub(crate) fn path_back(alloc: Global, links: &[Mark], last: Mark) -> Result<Vec<usize>, AllocError>
    ensures { IfOk result (λ v. v.items ≡ path_back links.now last) }
{
    let mut path = Vec::new(alloc);
    if last.time == 0 {
        return Ok(path);
    }
    path.push(last.from)?;
    push_back(&mut path, links, last.from)?;
    Ok(path)
}

/// Adds the step that a deed is itself, if it is one.
fn push_if_step(steps: &mut Vec<RunStep>, deed: &Deed) -> Result<(), AllocError>
    ensures { OnOk result (steps.new.items ≡ steps.old.items ++ if_step deed.now) }
{
    if is_step(deed.part) {
        steps.push(deed.step)?;
    }
    Ok(())
}

/// The same of deed number j, if there is one.
fn push_step_at(steps: &mut Vec<RunStep>, deeds: &[Deed], j: usize) -> Result<(), AllocError>
    ensures { OnOk result (steps.new.items ≡ steps.old.items ++ step_at deeds.now j) }
{
    match deeds.get(j) {
        Some(deed) => push_if_step(steps, deed),
        None => Ok(()),
    }
}

/// The steps among these deeds.
pub(crate) fn steps_at(
    alloc: Global,
    deeds: &[Deed],
    path: &[usize],
) -> Result<Vec<RunStep>, AllocError>
    ensures { IfOk result (λ v. v.items ≡ flat_map (step_at deeds.now) path.now) }
{
    let mut steps = Vec::new(alloc);
    for j in path {
        push_step_at(&mut steps, deeds, *j)?;
    }
    Ok(steps)
}

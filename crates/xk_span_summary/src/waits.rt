//! Where activities waited, and how long.

ghost use Rattle.std.specs.Prelude.{◌≡◌, ◌&&◌, slice_get, slice_set, IfOk, OnOk};
ghost use Rattle.xk_span.specs.Steps.{is_step};
ghost use Rattle.xk_span_summary.specs.Waits.{first_wait, has_place, lasts_with, may_wait, more_rounds, place_in, rounds_waited};
ghost use Rattle.xk_span_summary.specs.Waits.{waits_of, waits_with, with_wait, with_wait_if_any};

use crate::counts::{number_at, set_number, sum};
use std::alloc::{AllocError, Global};
use xk_races::{Deed, Part};
use xk_show_events::RunStep;
use xk_types::Event;

/// How long activities waited at an instruction.
#[derive(Clone, Copy)]
pub struct Wait {
    /// The first step there that waited.
    pub step: RunStep,
    /// How many rounds all together.
    pub rounds: usize,
    /// How many steps waited.
    pub times: usize,
}

/// Whether a step may have waited for others.
fn may_wait(event: Event) -> bool
    ensures { result ≡ may_wait event }
{
    matches!(event, Event::Passed | Event::Closed)
}

/// Whether a wait is at the instruction of a step.
fn has_place(step: &RunStep, wait: &Wait) -> bool
    ensures { result ≡ has_place step.now wait.now }
{
    wait.step.unit == step.unit && wait.step.place == step.place
}

/// Which of these is at the instruction of a step; as many as there are, if none is.
fn place_in(step: &RunStep, waits: &[Wait]) -> usize
    ensures { result ≡ place_in step.now waits.now }
{
    for (k, wait) in waits.iter().enumerate() {
        if has_place(step, wait) {
            return k;
        }
    }
    waits.len()
}

/// Wait number k, if there is one.
pub fn wait_at(waits: &[Wait], k: usize) -> Option<Wait>
    ensures { result ≡ slice_get waits.now k }
{
    match waits.get(k) {
        Some(wait) => Some(*wait),
        None => None,
    }
}

/// One that is the first at its place.
fn first_wait(step: &RunStep, n: usize) -> Wait
    ensures { result ≡ first_wait step.now n }
{
    Wait {
        step: *step,
        rounds: n,
        times: 1,
    }
}

/// With n rounds more.
fn more_rounds(n: usize, wait: Wait) -> Result<Wait, AllocError>
    ensures { IfOk result (λ w. w ≡ more_rounds n wait) }
{
    let rounds = sum(wait.rounds, n)?;
    let times = sum(wait.times, 1)?;
    Ok(Wait {
        step: wait.step,
        rounds,
        times,
    })
}

/// Wait number k becomes another one, where there is such a place.
fn replace(waits: &mut Vec<Wait>, k: usize, wait: Wait)
    ensures { waits.new.items ≡ slice_set waits.old.items k wait }
{
    if let Some(place) = waits.get_mut(k) {
        *place = wait;
    }
}

/// With n rounds more that were waited at the place of a step.
fn add_wait(waits: &mut Vec<Wait>, step: &RunStep, n: usize) -> Result<(), AllocError>
    ensures { OnOk result (waits.new.items ≡ with_wait step.now n waits.old.items) }
{
    let k = place_in(step, waits);
    match wait_at(waits, k) {
        None => {
            waits.push(first_wait(step, n))?;
        }
        Some(wait) => {
            let more = more_rounds(n, wait)?;
            replace(waits, k, more);
        }
    }
    Ok(())
}

/// The same, unless there was none.
fn add_wait_if_any(waits: &mut Vec<Wait>, step: &RunStep, n: usize) -> Result<(), AllocError>
    ensures { OnOk result (waits.new.items ≡ with_wait_if_any step.now n waits.old.items) }
{
    if n == 0 {
        return Ok(());
    }
    add_wait(waits, step, n)
}

/// Whether a deed is a step that may have waited.
fn may_have_waited(deed: &Deed) -> bool
    ensures { result ≡ (is_step deed.now.part && may_wait deed.now.step.event) }
{
    matches!(deed.part, Part::Print) && may_wait(deed.step.event)
}

/// With what a deed in a round waited, behind its activity's step before it.
fn add_waits(
    waits: &mut Vec<Wait>,
    deed: &Deed,
    round: usize,
    before: usize,
) -> Result<(), AllocError>
    ensures { OnOk result (waits.new.items ≡ waits_with deed.now round before waits.old.items) }
{
    if may_have_waited(deed) {
        let n = round.saturating_sub(before).saturating_sub(1);
        add_wait_if_any(waits, &deed.step, n)?;
    }
    Ok(())
}

/// The round of an activity's last step, if the deed is one.
fn set_last(lasts: &mut Vec<usize>, deed: &Deed, round: usize) -> Result<(), AllocError>
    ensures { OnOk result (lasts.new.items ≡ lasts_with deed.now round lasts.old.items) }
{
    if matches!(deed.part, Part::Print) {
        return set_number(lasts, deed.step.act as usize, round);
    }
    Ok(())
}

/// Where activities waited.
pub fn waits_of(alloc: Global, times: &[usize], deeds: &[Deed]) -> Result<Vec<Wait>, AllocError>
    ensures { IfOk result (λ v. v.items ≡ waits_of times.now deeds.now) }
{
    let mut lasts = Vec::new(alloc);
    let mut waits = Vec::new(alloc);
    for (i, deed) in deeds.iter().enumerate() {
        let round = number_at(times, i);
        let before = number_at(&lasts, deed.step.act as usize);
        add_waits(&mut waits, deed, round, before)?;
        set_last(&mut lasts, deed, round)?;
    }
    Ok(waits)
}

/// How long at each place.
pub fn rounds_waited(alloc: Global, waits: &[Wait]) -> Result<Vec<usize>, AllocError>
    ensures { IfOk result (λ v. v.items ≡ rounds_waited waits.now) }
{
    let mut rounds = Vec::new(alloc);
    for wait in waits {
        rounds.push(wait.rounds)?;
    }
    Ok(rounds)
}

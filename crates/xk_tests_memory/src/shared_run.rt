//! A run that workers share, taken to its end by one hand: local steps are computed from a copy and handed in, each call tried again where memory
//! was refused.

use crate::modules::{Wrong, holds};
use crate::runs::opened;
use std::alloc::Global;
use xk_activity::{Ticket, run_local};
use xk_bounds::Verified;
use xk_types::Act;
use xk_workers::{CommitFault, Shared, Take};

/// How many local steps are computed at once, at most.
const MOST: u32 = 9;

/// Local steps of an activity, computed from a copy of its frames, at the second try where memory was refused.
fn computed<'m>(alloc: Global, shared: &Shared<'m>, act: Act) -> Result<Ticket<'m>, Wrong> {
    if act.0 >= shared.core().activities() || !shared.core().next_local(act) {
        return Err(Wrong("an activity is to compute that has no local step"));
    }
    for _ in 0..2 {
        if let Ok(old) = shared.copy(act)
            && let Ok(ticket) = run_local(alloc, act, old, MOST)
        {
            return Ok(ticket);
        }
    }
    Err(Wrong("local steps aren't computed at the second try"))
}

/// Steps were refused memory when they were handed in: their activity is told to be worked for again, and hands them in at the second try.
fn handed_again(alloc: Global, shared: &mut Shared<'_>, act: Act) -> Result<(), Wrong> {
    match shared.take() {
        Take::Work(again) => holds(again.0 == act.0, "another activity is told to work")?,
        _ => return Err(Wrong("nobody is told to work for steps that were refused memory")),
    }
    let is_handed = shared.commit(computed(alloc, shared, act)?).is_ok();
    holds(is_handed, "local steps are refused at the second try")
}

/// Local steps of an activity, computed and handed in.
fn handed(alloc: Global, shared: &mut Shared<'_>, act: Act) -> Result<(), Wrong> {
    match shared.commit(computed(alloc, shared, act)?) {
        Ok(()) => Ok(()),
        Err(CommitFault::Stale) => Err(Wrong("steps are stale though nobody else took any")),
        Err(CommitFault::OutOfMemory) => handed_again(alloc, shared, act),
    }
}

/// One step of an activity, at the second try where memory was refused.
fn acted(shared: &mut Shared<'_>, act: Act) -> Result<(), Wrong> {
    for _ in 0..2 {
        if shared.claimed(act) || !shared.core().enabled(act) {
            return Err(Wrong("an activity is told that is claimed, or can't step"));
        }
        if shared.act(act).is_ok() {
            return Ok(());
        }
    }
    Err(Wrong("a shared step is refused at the second try"))
}

/// What there is to do, and whether there was something.
fn turn(alloc: Global, shared: &mut Shared<'_>) -> Result<bool, Wrong> {
    match shared.take() {
        Take::Work(act) => handed(alloc, shared, act)?,
        Take::Act(act) => acted(shared, act)?,
        Take::Done => return Ok(false),
        Take::Idle | Take::Stopped => return Err(Wrong("one hand alone is told to wait or stop")),
    }
    Ok(true)
}

/// Turns to the end.
fn turns(alloc: Global, shared: &mut Shared<'_>) -> Result<(), Wrong> {
    for _ in 0..=shared.core().module().steps() {
        if !turn(alloc, shared)? {
            return holds(shared.core().ended(), "a shared run isn't over");
        }
    }
    Err(Wrong("a shared run is longer than its bound"))
}

/// A module is run to its end, its main being given these numbers.
pub fn is_shared(alloc: Global, verified: &Verified, arguments: &[i64]) -> Result<(), Wrong> {
    let mut shared = Shared::open(alloc, opened(alloc, verified, arguments)?);
    turns(alloc, &mut shared)
}

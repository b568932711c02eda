//! A path by stretches.

ghost use Rattle.std.specs.Prelude.{◌≡◌, ◌++◌, IfOk, OnOk};
ghost use Rattle.xk_span_summary.specs.Stretches.{begun, ended_by, joined, last_stretch, longer, stretches_of, unless_same, with_step};

use std::alloc::{AllocError, Global};
use xk_show_events::RunStep;

/// Steps of a path that are one activity's.
#[derive(Clone, Copy)]
pub struct Stretch {
    /// Whose step is right before them.
    pub behind: Option<u32>,
    /// Which step of the path is the first, counted from 1.
    pub start: usize,
    /// The first one.
    pub first: RunStep,
    /// Which step of the path is the last.
    pub stop: usize,
    /// The last one.
    pub last: RunStep,
}

/// A stretch of one step so far.
fn begun(behind: Option<u32>, n: usize, x: &RunStep) -> Stretch
    ensures { result ≡ begun behind n x.now }
{
    Stretch {
        behind,
        start: n,
        first: *x,
        stop: n,
        last: *x,
    }
}

/// With one step more.
fn longer(s: Stretch, n: usize, x: &RunStep) -> Stretch
    ensures { result ≡ longer s n x.now }
{
    Stretch {
        behind: s.behind,
        start: s.start,
        first: s.first,
        stop: n,
        last: *x,
    }
}

/// Behind this stretch: with the step, or of that step alone.
fn joined(s: Stretch, n: usize, x: &RunStep) -> Stretch
    ensures { result ≡ joined s n x.now }
{
    if x.act == s.last.act {
        longer(s, n, x)
    } else {
        begun(Some(s.last.act), n, x)
    }
}

/// The stretch that step number n of the path is in.
fn with_step(s: Option<Stretch>, n: usize, x: &RunStep) -> Stretch
    ensures { result ≡ with_step s n x.now }
{
    match s {
        None => begun(None, n, x),
        Some(s) => joined(s, n, x),
    }
}

/// Adds a stretch that a step ends, if it is of another activity.
fn push_unless_same(list: &mut Vec<Stretch>, s: Stretch, x: &RunStep) -> Result<(), AllocError>
    ensures { OnOk result (list.new.items ≡ list.old.items ++ unless_same s x.now) }
{
    if x.act == s.last.act {
        return Ok(());
    }
    list.push(s)?;
    Ok(())
}

/// Adds the stretch that a step ends, if it ends one.
fn push_ended(list: &mut Vec<Stretch>, s: Option<Stretch>, x: &RunStep) -> Result<(), AllocError>
    ensures { OnOk result (list.new.items ≡ list.old.items ++ ended_by s x.now) }
{
    match s {
        Some(s) => push_unless_same(list, s, x),
        None => Ok(()),
    }
}

/// Adds the last one.
fn push_last(list: &mut Vec<Stretch>, s: Option<Stretch>) -> Result<(), AllocError>
    ensures { OnOk result (list.new.items ≡ list.old.items ++ last_stretch s) }
{
    match s {
        Some(s) => {
            list.push(s)?;
            Ok(())
        }
        None => Ok(()),
    }
}

/// The stretches of a path.
pub fn stretches_of(alloc: Global, path: &[RunStep]) -> Result<Vec<Stretch>, AllocError>
    ensures { IfOk result (λ v. v.items ≡ stretches_of path.now) }
{
    let mut list = Vec::new(alloc);
    let mut current: Option<Stretch> = None;
    for (i, x) in path.iter().enumerate() {
        push_ended(&mut list, current, x)?;
        current = Some(with_step(current, i + 1, x));
    }
    push_last(&mut list, current)?;
    Ok(list)
}

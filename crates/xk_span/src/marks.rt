//! Marks: how much the greatest chain up to a deed weighs.

ghost use Rattle.std.specs.Prelude.{◌≡◌, suc, ◌-◌, ◌++◌, length, replicate, slice_set, IfOk, OnOk};
ghost use Rattle.xk_races.specs.Lists.{with_at};
ghost use Rattle.xk_span.specs.Times.{behind, later, latest_from, mark_at, no_mark, told_to};

use std::alloc::AllocError;

/// How much a chain of deeds weighs, and which deed it ends with.
#[derive(Clone, Copy)]
pub struct Mark {
    /// What its deeds weigh together.
    pub time: usize,
    /// The number of the last one.
    pub from: usize,
}

/// There is no deed yet.
fn no_mark() -> Mark
    ensures { result ≡ no_mark }
{
    Mark { time: 0, from: 0 }
}

/// The later one of two, the first where they are as late.
fn later(r: Mark, s: Mark) -> Mark
    ensures { result ≡ later r s }
{
    if r.time < s.time { s } else { r }
}

/// Mark k; none where there is no such place.
pub(crate) fn mark_at(marks: &[Mark], k: usize) -> Mark
    ensures { result ≡ mark_at marks.now k }
{
    match marks.get(k) {
        Some(mark) => *mark,
        None => no_mark(),
    }
}

/// Behind this one, deed number n that weighs x. Err where it would weigh 2 ^ 64: no memory holds so many deeds.
pub(crate) fn behind(n: usize, x: usize, link: Mark) -> Result<Mark, AllocError>
    ensures { IfOk result (λ m. m ≡ behind n x link) }
{
    match link.time.checked_add(x) {
        Some(time) => Ok(Mark { time, from: n }),
        None => Err(AllocError),
    }
}

/// Adds so many of none.
fn push_none(marks: &mut Vec<Mark>, count: usize) -> Result<(), AllocError>
    ensures { OnOk result (marks.new.items ≡ marks.old.items ++ replicate count no_mark) }
{
    for _ in 0..count {
        marks.push(no_mark())?;
    }
    Ok(())
}

/// There are marks up to number k.
#[tactic(auto, using(xk_races::proofs::GrowthLemmas::grown, xk_races::proofs::GrowthLemmas::long_enough))]
fn grow(marks: &mut Vec<Mark>, k: usize) -> Result<(), AllocError>
    ensures { OnOk result (marks.new.items ≡ marks.old.items
        ++ replicate (suc k - length marks.old.items) no_mark) }
{
    if k < marks.len() {
        return Ok(());
    }
    push_none(marks, k - marks.len())?;
    marks.push(no_mark())?;
    Ok(())
}

/// Mark k becomes another one, where there is such a place.
fn replace(marks: &mut Vec<Mark>, k: usize, mark: Mark)
    ensures { marks.new.items ≡ slice_set marks.old.items k mark }
{
    if let Some(place) = marks.get_mut(k) {
        *place = mark;
    }
}

/// Mark k becomes this one.
pub(crate) fn set_mark(marks: &mut Vec<Mark>, k: usize, mark: Mark) -> Result<(), AllocError>
    ensures { OnOk result (marks.new.items ≡ with_at no_mark marks.old.items k mark) }
{
    grow(marks, k)?;
    replace(marks, k, mark);
    Ok(())
}

/// Mark k isn't earlier than this one.
pub(crate) fn tell(marks: &mut Vec<Mark>, k: usize, mark: Mark) -> Result<(), AllocError>
    ensures { OnOk result (marks.new.items ≡ told_to marks.old.items k mark) }
{
    let mark = later(mark_at(marks, k), mark);
    set_mark(marks, k, mark)
}

/// The latest of these; none where there are none.
pub(crate) fn latest(marks: &[Mark]) -> Mark
    ensures { result ≡ latest_from no_mark marks.now }
{
    let mut best = no_mark();
    for mark in marks {
        best = later(best, *mark);
    }
    best
}

//! One access, and another one like it.

ghost use Rattle.std.specs.Prelude.{◌≡◌};
ghost use Rattle.xk_races_summary.specs.Accesses.{is_at, is_kind, is_like, is_same_place, kind_of, later};

use xk_show_events::RunStep;
use xk_types::Event;

/// How much two accesses have in common.
#[derive(Clone, Copy)]
pub enum Detail {
    /// The activity and the kind.
    Activity,
    /// The place in the text, too.
    Place,
}

/// What an access does.
#[derive(Clone, Copy)]
pub enum AccessKind {
    /// It reads the shared number.
    Read,
    /// It adds to it.
    Addition,
    /// It writes it.
    Write,
}

/// An access of a shared number, without what was known at it.
#[derive(Clone, Copy)]
pub struct Access {
    /// Which one of the accesses and prints of the run it is, counted from 0.
    pub position: usize,
    /// The number of its deed.
    pub number: usize,
    /// The step that it was.
    pub step: RunStep,
}

/// What an access does, by what was seen of it.
fn kind_of(event: Event) -> AccessKind
    ensures { result ≡ kind_of event }
{
    match event {
        Event::Got => AccessKind::Read,
        Event::Added => AccessKind::Addition,
        _ => AccessKind::Write,
    }
}

/// Whether two kinds are the same.
fn is_kind(one: AccessKind, other: AccessKind) -> bool
    ensures { result ≡ is_kind one other }
{
    match one {
        AccessKind::Read => matches!(other, AccessKind::Read),
        AccessKind::Addition => matches!(other, AccessKind::Addition),
        AccessKind::Write => matches!(other, AccessKind::Write),
    }
}

/// Whether two steps were taken at one place in the text.
fn is_same_place(s: &RunStep, t: &RunStep) -> bool
    ensures { result ≡ is_same_place s.now t.now }
{
    s.unit == t.unit && s.place == t.place
}

/// Whether two steps were taken at one place, where that is looked at.
fn is_at(detail: Detail, s: &RunStep, t: &RunStep) -> bool
    ensures { result ≡ is_at detail s.now t.now }
{
    match detail {
        Detail::Activity => true,
        Detail::Place => is_same_place(s, t),
    }
}

/// Whether two accesses are of one activity and one kind.
pub(crate) fn is_like(detail: Detail, r: &Access, x: &Access) -> bool
    ensures { result ≡ is_like detail r.now x.now }
{
    r.step.act == x.step.act
        && is_kind(kind_of(r.step.event), kind_of(x.step.event))
        && is_at(detail, &r.step, &x.step)
}

/// The later one of two.
pub(crate) fn later(r: Access, x: Access) -> Access
    ensures { result ≡ later r x }
{
    if r.number < x.number { x } else { r }
}

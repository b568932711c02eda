//! The accesses of a shared number that stand for all earlier ones.

ghost use Rattle.std.specs.Prelude.{◌≡◌, true, [], slice_set, OnOk};
ghost use Rattle.std.specs.Option.{IfSome};
ghost use Rattle.xk_races_summary.specs.declared.access.Detail.TheVariants.{Activity};
ghost use Rattle.xk_races_summary.specs.Accesses.{IsCovered, IsLikeAt, KeepsCovered, is_covered, none_yet};

use crate::access::{Access, Detail, is_like, later};
use crate::group::{Group, put_all};
use std::alloc::{AllocError, Global};
use std::marker::Model;

/// One that is like x, and where it stands.
fn find_like(detail: Detail, rows: &[Access], x: &Access) -> Option<(usize, Access)>
    ensures { IfSome result (λ found. IsLikeAt detail rows.now x.now found.0 found.1) }
{
    for (i, r) in rows.iter().enumerate() {
        if is_like(detail, r, x) {
            return Some((i, *r));
        }
    }
    None
}

/// Row i becomes another one, where there is such a row.
fn replace(rows: &mut Vec<Access>, i: usize, row: Access)
    ensures { rows.new.items ≡ slice_set rows.old.items i row }
{
    if let Some(place) = rows.get_mut(i) {
        *place = row;
    }
}

/// Adds an access to the last ones of each activity and kind.
fn put(rows: &mut Vec<Access>, x: &Access) -> Result<(), AllocError>
    ensures kept { OnOk result ((z : Access) → is_covered Activity rows.old.items z ≡ true
        → is_covered Activity rows.new.items z ≡ true) }
    ensures there { OnOk result (is_covered Activity rows.new.items x.now ≡ true) }
{
    match find_like(Detail::Activity, rows, x) {
        Some((i, r)) => replace(rows, i, later(r, *x)),
        None => rows.push(*x)?,
    }
    Ok(())
}

/// Accesses of a shared number that stand for all earlier ones: who doesn't know an access doesn't know the one that
/// stands for it either.
#[derive(Drop)]
pub struct Latest {
    /// The last one of each activity and kind.
    of_activities: Vec<Access>,
    /// Those of each activity, kind and place in the text, as far as somebody looked at them.
    of_places: Vec<Group>,
    /// Those that came since.
    since: Vec<Access>,
}

impl Model for Latest {
    ghost use Rattle.xk_races_summary.specs.Accesses.{Latest as LatestValue};

    ghost Value = { LatestValue };

    ghost view = { λ l. record {
      of_activities = l.of_activities.items;
      of_places = l.of_places.items;
      since = l.since.items;
    } };
}

impl Latest {
    /// Before the first access.
    pub fn new(alloc: Global) -> Latest
        ensures { result ≡ none_yet }
    {
        Latest {
            of_activities: Vec::new(alloc),
            of_places: Vec::new(alloc),
            since: Vec::new(alloc),
        }
    }

    /// For each access that was added one of its activity and kind that is no earlier, in no order. These are the last ones, so as many as there
    /// are activities, or up to three times that: no clause says so.
    pub fn of_activities(&self) -> &[Access]
        ensures { result.now ≡ self.now.of_activities }
    {
        &self.of_activities
    }

    /// For each access that was added, but for those since the last call of `put_since`, a group of its activity, kind and place that has its
    /// position. No clause says that a group has no others.
    pub fn of_places(&self) -> &[Group]
        ensures { result.now ≡ self.now.of_places }
    {
        &self.of_places
    }

    /// Those that came since are put into the groups of their places; whatever others stood for, they still do.
    /// Err where memory was refused.
    pub fn put_since(&mut self, alloc: Global) -> Result<(), AllocError>
        ensures kept { OnOk result (KeepsCovered self.old self.new) }
        ensures none { OnOk result (self.new.since ≡ []) }
    {
        put_all(alloc, &mut self.of_places, &self.since)?;
        self.since.clear();
        Ok(())
    }

    /// Adds an access: from then on one of these stands for it. Err where memory was refused.
    pub fn add(&mut self, x: &Access) -> Result<(), AllocError>
        ensures kept { OnOk result (KeepsCovered self.old self.new) }
        ensures there { OnOk result (IsCovered self.new x.now) }
    {
        put(&mut self.of_activities, x)?;
        self.since.push(*x)?;
        Ok(())
    }
}

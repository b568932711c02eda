//! The accesses of one place in the text.

ghost use Rattle.std.specs.Prelude.{◌≡◌, ◌++◌, true, map, IfOk, OnOk};
ghost use Rattle.std.specs.Option.{IfSome};
ghost use Rattle.xk_races_summary.specs.declared.access.Detail.TheVariants.{Place};
ghost use Rattle.xk_races_summary.specs.Accesses.{IsOfGroup, is_like, is_placed, single, with_member};

use crate::access::{Access, Detail, is_like, later};
use std::alloc::{AllocError, Global};
use std::marker::Model;

/// The accesses of an activity and kind at a place in the text.
#[derive(Drop)]
pub struct Group {
    /// The last one.
    last: Access,
    /// The positions of all of them.
    members: Vec<usize>,
}

impl Model for Group {
    ghost use Rattle.xk_races_summary.specs.Accesses.{Group as GroupValue};

    ghost Value = { GroupValue };

    ghost view = { λ g. record { last = g.last; members = g.members.items } };
}

impl Group {
    /// A group of one access.
    pub(crate) fn of(alloc: Global, x: &Access) -> Result<Group, AllocError>
        ensures { IfOk result (λ g. g ≡ single x.now) }
    {
        let mut members = Vec::new(alloc);
        members.push(x.position)?;
        Ok(Group { last: *x, members })
    }

    /// The one that stands for all that were put into the group.
    pub fn last(&self) -> &Access
        ensures { result.now ≡ self.now.last }
    {
        &self.last
    }

    /// The positions of these.
    pub fn members(&self) -> &[usize]
        ensures { result.now ≡ self.now.members }
    {
        &self.members
    }

    /// Whether an access is like the members.
    pub(crate) fn is_of(&self, x: &Access) -> bool
        ensures { result ≡ is_like Place self.now.last x.now }
    {
        is_like(Detail::Place, &self.last, x)
    }

    /// Adds an access.
    pub(crate) fn add(&mut self, x: &Access) -> Result<(), AllocError>
        ensures { OnOk result (self.new ≡ with_member x.now self.old) }
    {
        self.members.push(x.position)?;
        self.last = later(self.last, *x);
        Ok(())
    }
}

/// The group that an access belongs to.
fn find_group(groups: &[Group], x: &Access) -> Option<usize>
    ensures { IfSome result (λ i. IsOfGroup groups.now x.now i) }
{
    for (i, group) in groups.iter().enumerate() {
        if group.is_of(x) {
            return Some(i);
        }
    }
    None
}

/// Adds an access to the group that it belongs to.
fn add_to_group(groups: &mut Vec<Group>, i: usize, x: &Access) -> Result<(), AllocError>
    requires { IsOfGroup groups.old.items x.now i }
    ensures kept { OnOk result ((z : Access) → is_placed groups.old.items z ≡ true
        → is_placed groups.new.items z ≡ true) }
    ensures there { OnOk result (is_placed groups.new.items x.now ≡ true) }
{
    if let Some(group) = groups.get_mut(i) {
        group.add(x)?;
    }
    Ok(())
}

/// Adds an access to its group, or as one of its own.
fn put_in_group(alloc: Global, groups: &mut Vec<Group>, x: &Access) -> Result<(), AllocError>
    ensures kept { OnOk result ((z : Access) → is_placed groups.old.items z ≡ true
        → is_placed groups.new.items z ≡ true) }
    ensures there { OnOk result (is_placed groups.new.items x.now ≡ true) }
{
    match find_group(groups, x) {
        Some(i) => add_to_group(groups, i, x)?,
        None => groups.push(Group::of(alloc, x)?)?,
    }
    Ok(())
}

/// Adds these, one after the other.
pub(crate) fn put_all(
    alloc: Global,
    groups: &mut Vec<Group>,
    list: &[Access],
) -> Result<(), AllocError>
    ensures { OnOk result ((z : Access)
        → is_placed (groups.old.items ++ map single list.now) z ≡ true
        → is_placed groups.new.items z ≡ true) }
{
    for x in list {
        put_in_group(alloc, groups, x)?;
    }
    Ok(())
}

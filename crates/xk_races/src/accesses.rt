//! The races of an access with earlier ones, by those that stand for all.

ghost use Rattle.std.specs.Prelude.{◌≡◌, ◌<◌, ◌-◌, ◌++◌, suc, [], ◌∷◌, length, flat_map, replicate, IfOk, OnOk};
ghost use Rattle.std.specs.List.{list_any};
ghost use Rattle.xk_races_summary.specs.Accesses.{KeepsCovered, none_yet};
ghost use Rattle.xk_races.specs.declared.deeds.Part.TheVariants as part;
ghost use Rattle.xk_races.specs.Races.{with_races_of};
ghost use Rattle.xk_races.specs.Accesses.{AreAllCovered, AreCovered, access_of, cell_accessed, is_new, is_race_of, new_members, race_of};

use crate::deeds::Part;
use crate::pairs::{Race, cell_in, clash, push_races_at};
use crate::race_list::RaceList;
use crate::rows::number_at;
use crate::sights::Sight;
use std::alloc::{AllocError, Global};
use xk_races_summary::{Access, Group, Latest};

/// What is kept of an access.
fn access_of(position: usize, y: &Sight) -> Access
    ensures { result ≡ access_of position y.now }
{
    Access {
        position,
        number: y.number,
        step: y.deed.step,
    }
}

/// Whether an access and a later one of the same shared number are a race.
fn is_race_of(r: &Access, y: &Sight) -> bool
    ensures { result ≡ is_race_of r.now y.now }
{
    clash(r.step.event, y.deed.step.event) && r.number > number_at(&y.row, r.step.act as usize)
}

/// The race of an access and a later one.
fn race_of(r: &Access, y: &Sight) -> Race
    ensures { result ≡ race_of r.now y.now }
{
    Race {
        cell: cell_in(y.deed.part),
        first: r.step,
        second: y.deed.step,
    }
}

/// Whether an access and a later one are a race whose places aren't listed yet.
fn is_new(list: &RaceList, y: &Sight, r: &Access) -> bool
    ensures { result ≡ is_new list.now y.now r.now }
{
    is_race_of(r, y) && !list.has_same_places(&race_of(r, y))
}

/// Adds the positions of a group's members, if the last one is in a race that isn't listed yet.
fn push_if_new(
    positions: &mut Vec<usize>,
    list: &RaceList,
    y: &Sight,
    group: &Group,
) -> Result<(), AllocError>
    ensures { OnOk result (positions.new.items ≡ positions.old.items
        ++ new_members list.now y.now group.now) }
{
    if is_new(list, y, group.last()) {
        positions.extend_from_slice(group.members())?;
    }
    Ok(())
}

/// The positions of the members of those groups whose last one is in a race that isn't listed yet.
fn new_positions(
    alloc: Global,
    groups: &[Group],
    list: &RaceList,
    y: &Sight,
) -> Result<Vec<usize>, AllocError>
    ensures { IfOk result (λ v. v.items ≡ flat_map (new_members list.now y.now) groups.now) }
{
    let mut positions = Vec::new(alloc);
    for group in groups {
        push_if_new(&mut positions, list, y, group)?;
    }
    Ok(positions)
}

/// Whether an access is in a race at all.
fn has_race(latest: &Latest, y: &Sight) -> bool
    ensures { result ≡ list_any (λ r. is_race_of r y.now) latest.now.of_activities }
{
    latest.of_activities().iter().any(|r| is_race_of(r, y))
}

/// Adds the races of an access with earlier ones.
fn push_races(
    alloc: Global,
    latest: &mut Latest,
    list: &mut RaceList,
    earlier: &[Sight],
    y: &Sight,
) -> Result<(), AllocError>
    requires { AreCovered earlier.now y.now.deed.part latest.old }
    ensures told { OnOk result (list.new ≡ with_races_of y.now earlier.now list.old) }
    ensures kept { OnOk result (KeepsCovered latest.old latest.new) }
{
    if !has_race(latest, y) {
        return Ok(());
    }
    latest.put_since(alloc)?;
    let mut positions = new_positions(alloc, latest.of_places(), list, y)?;
    positions.sort_unstable();
    push_races_at(list, earlier, &positions, y)?;
    Ok(())
}

/// The same, and the access becomes one of those that stand for others.
fn take_into(
    alloc: Global,
    latest: &mut Latest,
    list: &mut RaceList,
    earlier: &[Sight],
    y: &Sight,
) -> Result<(), AllocError>
    requires { AreCovered earlier.now y.now.deed.part latest.old }
    ensures told { OnOk result (list.new ≡ with_races_of y.now earlier.now list.old) }
    ensures covered { OnOk result
        (AreCovered (earlier.now ++ y.now ∷ []) y.now.deed.part latest.new) }
{
    push_races(alloc, latest, list, earlier, y)?;
    latest.add(&access_of(earlier.len(), y))?;
    Ok(())
}

/// Adds so many that have no access yet.
fn push_empty(alloc: Global, cells: &mut Vec<Latest>, count: usize) -> Result<(), AllocError>
    ensures { OnOk result (cells.new.items ≡ cells.old.items ++ replicate count none_yet) }
{
    for _ in 0..count {
        cells.push(Latest::new(alloc))?;
    }
    Ok(())
}

/// There are shared numbers up to number c.
#[tactic(auto, using(crate::proofs::GrowthLemmas::grown, crate::proofs::GrowthLemmas::long_enough))]
fn grow(alloc: Global, cells: &mut Vec<Latest>, c: usize) -> Result<(), AllocError>
    ensures { OnOk result (cells.new.items ≡ cells.old.items
        ++ replicate (suc c - length cells.old.items) none_yet) }
{
    if c < cells.len() {
        return Ok(());
    }
    push_empty(alloc, cells, c - cells.len())?;
    cells.push(Latest::new(alloc))?;
    Ok(())
}

/// Adds the races of an access of shared number c with earlier ones, and it becomes one of these.
fn take_access(
    alloc: Global,
    cells: &mut Vec<Latest>,
    list: &mut RaceList,
    earlier: &[Sight],
    y: &Sight,
    c: u32,
) -> Result<(), AllocError>
    requires access { y.now.deed.part ≡ part.Access c }
    requires there { c < length cells.old.items }
    requires covered { AreAllCovered earlier.now cells.old.items }
    ensures told { OnOk result (list.new ≡ with_races_of y.now earlier.now list.old) }
    ensures covered { OnOk result (AreAllCovered (earlier.now ++ y.now ∷ []) cells.new.items) }
{
    if let Some(latest) = cells.get_mut(c as usize) {
        take_into(alloc, latest, list, earlier, y)?;
    }
    Ok(())
}

/// Which shared number a deed is an access of.
fn cell_accessed(part: Part) -> Option<u32>
    ensures { result ≡ cell_accessed part }
{
    match part {
        Part::Access(cell) => Some(cell),
        _ => None,
    }
}

/// Adds the races of a deed with earlier ones, and it becomes one of these.
pub fn take(
    alloc: Global,
    cells: &mut Vec<Latest>,
    list: &mut RaceList,
    earlier: &[Sight],
    y: &Sight,
) -> Result<(), AllocError>
    requires { AreAllCovered earlier.now cells.old.items }
    ensures told { OnOk result (list.new ≡ with_races_of y.now earlier.now list.old) }
    ensures covered { OnOk result (AreAllCovered (earlier.now ++ y.now ∷ []) cells.new.items) }
{
    if let Some(c) = cell_accessed(y.deed.part) {
        grow(alloc, cells, c as usize)?;
        take_access(alloc, cells, list, earlier, y, c)?;
    }
    Ok(())
}

//! Pairs of steps that nothing but the schedule puts in order.

ghost use Rattle.std.specs.Prelude.{◌≡◌, slice_get, IfOk, OnOk};
ghost use Rattle.std.specs.Option.{option_to_list};
ghost use Rattle.xk_races.specs.Accesses.{sights_at};
ghost use Rattle.xk_races.specs.Races.{cell_in, clash, gap_in, have_one_number, is_race, races_in, with_races_of};
ghost use Rattle.xk_races.specs.Text.{AreEnough};

use crate::accesses::take;
use crate::deeds::Part;
use crate::race_list::RaceList;
use crate::sights::{Sight, comes_before};
use std::alloc::{AllocError, Global};
use xk_show_events::RunStep;
use xk_types::Event;

/// Two accesses of a shared number that aren't in order.
#[derive(Clone, Copy)]
pub struct Race {
    pub cell: u32,
    pub first: RunStep,
    pub second: RunStep,
}

/// Two prints that aren't in order.
#[derive(Clone, Copy)]
pub struct Gap {
    pub first: RunStep,
    pub second: RunStep,
}

/// Whether it makes a difference which of two accesses comes first.
pub fn clash(one: Event, other: Event) -> bool
    ensures { result ≡ clash one other }
{
    match one {
        Event::Got => !matches!(other, Event::Got),
        Event::Added => !matches!(other, Event::Added),
        _ => true,
    }
}

/// Which shared number a deed has to do with.
pub fn cell_in(part: Part) -> u32
    ensures { result ≡ cell_in part }
{
    match part {
        Part::Access(cell) => cell,
        _ => 0,
    }
}

/// Whether both are accesses of one shared number.
fn have_one_number(one: Part, other: Part) -> bool
    ensures { result ≡ have_one_number one other }
{
    match one {
        Part::Access(cell) => match other {
            Part::Access(same) => cell == same,
            _ => false,
        },
        _ => false,
    }
}

/// Whether two accesses are a race.
fn is_race(x: &Sight, y: &Sight) -> bool
    ensures { result ≡ is_race x.now y.now }
{
    have_one_number(x.deed.part, y.deed.part)
        && clash(x.deed.step.event, y.deed.step.event)
        && !comes_before(x, y)
}

/// Adds the race of an access with the earlier one at a position, if there is one.
fn push_race_at(
    list: &mut RaceList,
    earlier: &[Sight],
    position: usize,
    y: &Sight,
) -> Result<(), AllocError>
    ensures { OnOk result (list.new ≡ with_races_of y.now
        (option_to_list (slice_get earlier.now position)) list.old) }
{
    if let Some(x) = earlier.get(position) {
        if is_race(x, y) {
            list.push(Race {
                cell: cell_in(y.deed.part),
                first: x.deed.step,
                second: y.deed.step,
            })?;
        }
    }
    Ok(())
}

/// Adds the races of an access with the earlier ones at these positions.
pub fn push_races_at(
    list: &mut RaceList,
    earlier: &[Sight],
    positions: &[usize],
    y: &Sight,
) -> Result<(), AllocError>
    ensures { OnOk result (list.new ≡ with_races_of y.now
        (sights_at earlier.now positions.now) list.old) }
{
    for position in positions {
        push_race_at(list, earlier, *position, y)?;
    }
    Ok(())
}

/// The races among these, but none that are found behind more than are shown.
pub fn races_in(alloc: Global, sights: &[Sight]) -> Result<Vec<Race>, AllocError>
    ensures { IfOk result (λ v. AreEnough v.items (races_in sights.now)) }
{
    let mut list = RaceList::new(alloc);
    let mut cells = Vec::new(alloc);
    for (i, y) in sights.iter().enumerate() {
        if list.is_long() {
            return Ok(list.into_races());
        }
        take(alloc, &mut cells, &mut list, &sights[..i], y)?;
    }
    Ok(list.into_races())
}

/// The first print before which the print just before it needn't have come, and that one.
pub fn gap_in(sights: &[Sight]) -> Option<Gap>
    ensures { result ≡ gap_in sights.now }
{
    let mut last: Option<&Sight> = None;
    for y in sights {
        if matches!(y.deed.part, Part::Print) {
            if let Some(x) = last {
                if !comes_before(x, y) {
                    return Some(Gap {
                        first: x.deed.step,
                        second: y.deed.step,
                    });
                }
            }
            last = Some(y);
        }
    }
    None
}

//! What stands along links to where all have ended is listed.

ghost use Rattle.std.specs.Prelude.{◌≡◌, ◌≤◌, true, false, length, max, IfOk, OnOk, List};
ghost use Rattle.xk_readings.specs.Rising.{AreRising};
ghost use Rattle.xk_outcomes.specs.declared.listing.Outcome.{Outcome as AnOutcome};
ghost use Rattle.xk_outcomes.specs.declared.order.Order.TheVariants as told;
ghost use Rattle.xk_outcomes.specs.Alikeness.{counted};
ghost use Rattle.xk_outcomes.specs.Links.{AreLinked};
ghost use Rattle.xk_outcomes.specs.Ways.{steps_of};
ghost use Rattle.xk_outcomes.specs.Listing.{AreMet, AreOf, AreRead, AreReadingsPut, IsPlayed, KeepsListed};
ghost use Rattle.xk_outcomes.specs.Numbering.{AreAddedFrom, AreInOrder, AreInOrderIn, ArePlayedAll, AreReadingsFirst};
ghost use Rattle.xk_outcomes.specs.Numbering.{AreRisingFrom, IsAddedAs};
ghost use Rattle.xk_outcomes.specs.Outcomes.{AreDistinct, IsListed};

use crate::entries::Entries;
use crate::listed::Listed;
use crate::listing::{list_outcomes, note};
use crate::order::Order;
use crate::search::Explored;
use std::alloc::{AllocError, Global};
use xk_readings::{Edge, Reading, readings};

/// Lists what the steps on a reading's ways print, if it is listed already or fewer are than the limit says. Whether it is
/// listed then.
fn note_reading(
    alloc: Global,
    list: &mut Listed,
    all: &Entries<'_>,
    reading: &Reading,
    limit: usize,
) -> Result<bool, AllocError>
    ensures distinct { AreDistinct list.old → AreDistinct list.new }
    ensures kept { KeepsListed list.old list.new }
    ensures listed { IfOk result (λ noted. noted ≡ true
        → IsPlayed all.now.start (steps_of all.now.ways reading.now.acts.items)
        reading.now.numbers.items
        → IsListed list.new reading.now.numbers.items) }
    ensures full { IfOk result (λ noted. noted ≡ false → limit ≤ length list.new) }
    ensures of { (old : List AnOutcome) → AreOf told.Printed all.now.start old list.old
        → AreOf told.Printed all.now.start old list.new }
    ensures most { length list.new ≤ max limit (length list.old) }
    ensures each { IsPlayed all.now.start (steps_of all.now.ways reading.now.acts.items)
        reading.now.numbers.items
        → IsAddedAs reading.now.numbers.items list.old list.new }
{
    let ranks = all.steps(alloc, &reading.acts)?;
    let run = all.led(alloc, &ranks)?;
    note(alloc, Order::Printed, list, &run, limit)
}

/// The same of each reading, until one isn't listed and as many are as the limit says. Whether all are.
fn note_readings(
    alloc: Global,
    list: &mut Listed,
    all: &Entries<'_>,
    found: &[Reading],
    limit: usize,
) -> Result<bool, AllocError>
    ensures distinct { AreDistinct list.old → AreDistinct list.new }
    ensures kept { KeepsListed list.old list.new }
    ensures listed { IfOk result (λ noted. noted ≡ true
        → AreReadingsPut all.now.start all.now.ways found.now (length found.now) list.new) }
    ensures full { IfOk result (λ noted. noted ≡ false → limit ≤ length list.new) }
    ensures of { AreOf told.Printed all.now.start list.old list.new }
    ensures most { length list.new ≤ max limit (length list.old) }
    ensures rising { ArePlayedAll all.now.start all.now.ways found.now → AreRising found.now
        → AreRisingFrom (length list.old) list.new }
    ensures added { ArePlayedAll all.now.start all.now.ways found.now
        → AreAddedFrom found.now (length found.now) (length list.old) list.new }
    ensures first { OnOk result (ArePlayedAll all.now.start all.now.ways found.now
        → AreRising found.now
        → AreReadingsFirst found.now (length list.old) list.new) }
{
    for reading in found {
        let noted = note_reading(alloc, list, all, reading, limit)?;
        if !noted {
            return Ok(false);
        }
    }
    Ok(true)
}

/// Lists what can be read along the links, each list of numbers once and rising, behind what is listed, up to the limit. Whether that is
/// all.
fn list_readings(
    alloc: Global,
    list: &mut Listed,
    all: &Entries<'_>,
    links: &[Edge],
    limit: usize,
) -> Result<bool, AllocError>
    requires { AreLinked (counted all.now.like) all.now.start.module_run
        all.now.ways all.now.all links.now }
    ensures of { AreOf told.Printed all.now.start list.old list.new }
    ensures kept { KeepsListed list.old list.new }
    ensures distinct { AreDistinct list.old → AreDistinct list.new }
    ensures read { IfOk result (λ complete. complete ≡ true
        → AreRead all.now.all links.now list.new) }
    ensures limit { IfOk result (λ complete. complete ≡ false → limit ≤ length list.new) }
    ensures most { length list.new ≤ max limit (length list.old) }
    ensures order { OnOk result
        (AreInOrder all.now.all links.now (length list.old) list.new) }
{
    let longest = all.longest();
    let found = readings(alloc, links, all.ends(), longest, limit)?;
    let noted = note_readings(alloc, list, all, &found.list, limit)?;
    Ok(noted && found.complete)
}

/// Lists what was found, each list of numbers once, as it is told in this order, behind what is listed, up to the limit. Whether
/// that is all.
pub fn list_found(
    alloc: Global,
    order: Order,
    list: &mut Listed,
    explored: &Explored<'_>,
    limit: usize,
) -> Result<bool, AllocError>
    requires { AreLinked (counted explored.now.found.like) explored.now.found.start.module_run
        explored.now.found.ways explored.now.found.all explored.now.links.items }
    ensures of { AreOf order explored.now.found.start list.old list.new }
    ensures kept { KeepsListed list.old list.new }
    ensures distinct { AreDistinct list.old → AreDistinct list.new }
    ensures met { IfOk result (λ complete. complete ≡ true
        → AreMet order explored.now.found.all explored.now.links.items list.new) }
    ensures limit { IfOk result (λ complete. complete ≡ false → limit ≤ length list.new) }
    ensures most { length list.new ≤ max limit (length list.old) }
    ensures order { OnOk result (AreInOrderIn order explored.now.found.all
        explored.now.links.items (length list.old) list.new) }
{
    match order {
        Order::Printed => { list_readings(alloc, list, &explored.found, &explored.links, limit) }
        Order::Rising => list_outcomes(alloc, order, list, &explored.found, limit),
    }
}

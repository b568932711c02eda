//! What may be carried out from each place of a unit on.

ghost use Rattle.std.specs.Prelude.{◌≡◌, [], slice_index_or};
ghost use Rattle.xk_closed_sets.specs.Places.{nowhere, reach_at};

use crate::footprint::Footprint;
use std::marker::Model;

/// What may still be carried out.
#[derive(Clone, Copy, Debug, PartialEq, Eq)]
pub struct Reach {
    /// All of it, and all that those carry out who are started.
    pub rest: Footprint,
    /// What comes before the next pass of an `advance`; but all that those carry out who are started, and all behind a call.
    pub phase: Footprint,
}

/// What may be carried out from each place of one unit on.
#[derive(Drop)]
pub(crate) struct Row {
    pub(crate) places: Vec<Reach>,
}

impl Model for Row {
    ghost use Rattle.std.specs.Prelude.{List};
    ghost use Rattle.xk_closed_sets.specs.declared.places.Reach.{Reach};

    ghost Value = { List Reach };

    ghost view = { λ r. r.places.items };
}

impl Reach {
    /// Nothing.
    pub(crate) fn nowhere() -> Reach
        ensures { result ≡ nowhere }
    {
        Reach {
            rest: Footprint::nothing(),
            phase: Footprint::nothing(),
        }
    }
}

impl Row {
    /// From this place on; nothing where there is no such place.
    fn at(&self, place: usize) -> Reach
        ensures { result ≡ slice_index_or self.now place nowhere }
    {
        match self.places.get(place) {
            Some(reach) => *reach,
            None => Reach::nowhere(),
        }
    }
}

/// From this place of the unit on; nothing where there is no such place.
pub(crate) fn reach_at(rows: &[Row], unit: usize, place: usize) -> Reach
    ensures { result ≡ reach_at rows.now unit place }
{
    match rows.get(unit) {
        Some(row) => row.at(place),
        None => Reach::nowhere(),
    }
}

//! Races that are told, each two places once.

ghost use Rattle.std.specs.Prelude.{◌≡◌, [], length, nat_lt, OnOk};
ghost use Rattle.std.specs.List.{list_any};
ghost use Rattle.xk_races.specs.Races.{have_same_places, with_race};
ghost use Rattle.xk_races.specs.Text.{most_shown};
ghost use Rattle.xk_races.specs.ToldPlaces.{is_told, key, key_back, text_place};

use crate::pairs::Race;
use crate::text::most_shown;
use std::alloc::{AllocError, Global};
use std::collections::BTreeSet;
use std::marker::Model;
use xk_show_events::RunStep;

/// A place in the text: a unit, and a place in it.
type TextPlace = (u16, u32);

/// A shared number, and two places in the text.
type Key = (u32, TextPlace, TextPlace);

/// The place of a step.
fn text_place(step: &RunStep) -> TextPlace
    ensures { result ≡ text_place step.now }
{
    (step.unit, step.place)
}

/// The shared number and the places of a race.
fn key(race: &Race) -> Key
    ensures { result ≡ key race.now }
{
    (race.cell, text_place(&race.first), text_place(&race.second))
}

/// The same, with the places the other way round.
fn key_back(race: &Race) -> Key
    ensures { result ≡ key_back race.now }
{
    (race.cell, text_place(&race.second), text_place(&race.first))
}

/// Whether the set has the places of a race.
fn is_told(told: &BTreeSet<Key>, race: &Race) -> bool
    ensures { result ≡ is_told told.now race.now }
{
    told.contains(&key(race)) || told.contains(&key_back(race))
}

/// Races, of each two places in the text and each shared number one.
#[derive(Drop)]
pub struct RaceList {
    races: Vec<Race>,
    /// Their places; ordered, so that no choice of places makes it slow.
    told: BTreeSet<Key>,
}

impl Model for RaceList {
    ghost use Rattle.std.specs.Prelude.{List};
    ghost use Rattle.xk_races.specs.declared.pairs.Race.{Race as RaceValue};
    ghost use Rattle.xk_races.specs.Text.{most_shown};
    ghost use Rattle.xk_races.specs.ToldPlaces.{AreTold};

    ghost Value = { List RaceValue };

    ghost view = { λ l. l.races.items };

    ghost invariant = { λ l. AreTold l.races.items l.told };
}

impl RaceList {
    /// None.
    pub fn new(alloc: Global) -> RaceList
        ensures { result ≡ [] }
    {
        RaceList {
            races: Vec::new(alloc),
            told: BTreeSet::new(alloc),
        }
    }

    /// Whether there is a race of the same places.
    pub fn has_same_places(&self, race: &Race) -> bool
        ensures { result ≡ list_any (have_same_places race.now) self.now }
    {
        is_told(&self.told, race)
    }

    /// Whether there are more races than are shown.
    pub fn is_long(&self) -> bool
        ensures { result ≡ nat_lt most_shown (length self.now) }
    {
        self.races.len() > most_shown()
    }

    /// Adds a race, unless there is one of the same places.
    pub fn push(&mut self, race: Race) -> Result<(), AllocError>
        ensures { OnOk result (self.new ≡ with_race race self.old) }
    {
        if self.has_same_places(&race) {
            return Ok(());
        }
        // Room first: behind this, only the set can be refused memory, and it changes nothing then.
        self.races.reserve(1)?;
        self.told.insert(key(&race))?;
        self.races.push(race)?;
        Ok(())
    }

    /// The races, in the order in which they were added.
    pub fn into_races(self) -> Vec<Race>
        ensures { result.items ≡ self }
    {
        self.races
    }
}

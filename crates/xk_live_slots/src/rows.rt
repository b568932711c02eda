//! The slots that are live at each place of a unit.

ghost use Rattle.std.specs.Prelude.{◌≡◌};
ghost use Rattle.xk_live_slots.specs.LiveSlots.{is_in, live_at, live_in};

use std::marker::Model;

/// For each place of one unit a word, in which the bits of the slots are set that are live there.
#[derive(Drop)]
pub(crate) struct Row {
    pub(crate) words: Vec<u64>,
}

impl Model for Row {
    ghost use Rattle.std.specs.Prelude.{List, ℕ};

    ghost Value = { List ℕ };

    ghost view = { λ r. r.words.items };
}

/// Whether the bit of the slot is set, if it has one.
fn is_in(word: u64, slot: u16) -> bool
    ensures { result ≡ is_in word slot }
{
    slot >= 64 || word >> slot & 1 == 1
}

impl Row {
    /// Whether the slot is live at a place. All are where there is no such place.
    fn is_live(&self, place: usize, slot: u16) -> bool
        ensures { result ≡ live_at self.now place slot }
    {
        match self.words.get(place) {
            Some(word) => is_in(*word, slot),
            None => true,
        }
    }
}

/// Whether the slot is live at a place of a unit. All are where there is no such unit or place.
pub(crate) fn is_live(rows: &[Row], unit: usize, place: usize, slot: u16) -> bool
    ensures { result ≡ live_in rows.now unit place slot }
{
    match rows.get(unit) {
        Some(row) => row.is_live(place, slot),
        None => true,
    }
}

//! Logs.

ghost use Rattle.std.specs.Prelude.{◌≡◌};

use std::marker::Model;
use xk_types::Entry;

/// A log: who took how many steps, one after another.
#[derive(Drop)]
pub struct Log {
    entries: Vec<Entry>,
}

impl Model for Log {
    ghost use Rattle.std.specs.Prelude.{List};
    ghost use Rattle.xk_types.specs.declared.world.Entry.{Entry as AnEntry};

    ghost Value = { List AnEntry };

    ghost view = { λ l. l.entries.items };
}

impl Log {
    /// The log of these entries.
    pub fn new(entries: Vec<Entry>) -> Log
        ensures { result ≡ entries.items }
    {
        Log { entries }
    }

    /// Its entries.
    pub fn entries(&self) -> &[Entry]
        ensures { result.now ≡ self.now }
    {
        &self.entries
    }

    /// Its entries, taken out.
    pub fn into_entries(self) -> Vec<Entry>
        ensures { result.items ≡ self }
    {
        self.entries
    }
}

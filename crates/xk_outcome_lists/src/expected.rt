//! What a list of outcomes tells, and whether a text is among it.

ghost use Rattle.std.specs.Prelude.{◌≡◌, ◌++◌, ℕ, [], ◌∷◌, true, false, Some, map, slice_get, OnOk};

use std::alloc::{AllocError, Global};
use std::collections::BTreeSet;
use std::marker::Model;

/// What a list of outcomes tells: for each the text of its numbers, as it stands in the list.
#[derive(Debug, Drop)]
pub struct Expected<'a> {
    told: Vec<&'a [u8]>,
    // the same, ordered, so that no list makes a look-up slow
    texts: BTreeSet<&'a [u8]>,
}

impl<'a> Model for Expected<'a> {
    ghost use Rattle.std.specs.Prelude.{ℕ, List, map};
    ghost use Rattle.xk_outcome_lists.specs.Texts.{AreTexts};

    ghost Value = { List (List ℕ) };

    ghost view = { λ e. map (λ t. t.now) e.told.items };

    ghost invariant = { λ e. AreTexts (map (λ t. t.now) e.told.items) e.texts };
}

impl<'a> Expected<'a> {
    /// Nothing is told.
    pub(crate) fn new(alloc: Global) -> Self
        ensures { result ≡ [] }
    {
        Expected {
            told: Vec::new(alloc),
            texts: BTreeSet::new(alloc),
        }
    }

    /// Keeps one more text. Err where memory was refused: nothing is kept then.
    pub(crate) fn push(&mut self, text: &'a [u8]) -> Result<(), AllocError>
        ensures { OnOk result (self.new ≡ self.old ++ text.entry.now ∷ []) }
    {
        // Room first: behind this, only the set can be refused memory, and it changes nothing then.
        self.told.reserve(1)?;
        self.texts.insert(text)?;
        self.told.push_reserved(text);
        Ok(())
    }

    /// Whether the text is told.
    pub(crate) fn has(&self, text: &[u8]) -> bool
        ensures yes { result ≡ true → (k : ℕ) × (slice_get self.now k ≡ Some text.now) }
        ensures no { result ≡ false → (k : ℕ) → slice_get self.now k ≡ Some text.now → ⊥ }
    {
        self.texts.contains(text)
    }
}

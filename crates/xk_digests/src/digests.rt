//! Digests, numbered as they come, and those that are equal linked one to another.

ghost use Rattle.std.specs.Prelude.{◌≡◌, ◌<◌, ◌++◌, ℕ, [], ◌∷◌, Some, length, slice_get, OnErr, OnOk};
ghost use Rattle.xk_digests.specs.Digests.{IsLast};

use indexmap::IndexMap;
use std::alloc::{AllocError, Global};
use std::marker::Model;

/// Digests, numbered from 0 in the order in which they come.
#[derive(Drop)]
pub struct Digests {
    all: Vec<u64>,
    // for each the place behind the last one before it that is equal, or 0
    before: Vec<usize>,
    // for each digest the place behind the last one that is it
    last: IndexMap<u64, usize>,
}

impl Model for Digests {
    ghost use Rattle.std.specs.Prelude.{ℕ, List};
    ghost use Rattle.xk_digests.specs.Digests.{AreLinked, place_in};

    ghost Value = { List ℕ };

    ghost view = { λ d. d.all.items };

    ghost invariant = { λ d. AreLinked d.all.items d.before.items (place_in d.last) };
}

impl Digests {
    /// None.
    pub fn new(alloc: Global) -> Digests
        ensures { result ≡ [] }
    {
        Digests {
            all: Vec::new(alloc),
            before: Vec::new(alloc),
            last: IndexMap::new(alloc),
        }
    }

    /// The place behind the last that is this digest, or 0.
    pub fn last(&self, digest: u64) -> usize
        ensures { IsLast self.now digest (length self.now) result }
    {
        match self.last.get(&digest) {
            Some(place) => *place,
            None => 0,
        }
    }

    /// The place behind the last before the one of a number that is the same digest, or 0.
    pub fn before(&self, number: usize) -> usize
        requires { number < length self.now }
        ensures { (d : ℕ) → slice_get self.now number ≡ Some d → IsLast self.now d number result }
    {
        self.before[number]
    }

    /// Puts one behind the others. Err where memory was refused: they are as before then.
    pub fn push(&mut self, digest: u64) -> Result<(), AllocError>
        ensures more { OnOk result (self.new ≡ self.old ++ digest ∷ []) }
        ensures same { OnErr result (self.new ≡ self.old) }
    {
        // Room first: behind this, only the map can be refused memory, and it changes nothing then.
        self.all.reserve(1)?;
        self.before.reserve(1)?;
        let before = self.last(digest);
        self.last.insert(digest, self.all.len() + 1)?;
        self.before.push_reserved(before);
        self.all.push_reserved(digest);
        Ok(())
    }
}

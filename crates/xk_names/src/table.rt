//! Tables and sets of names.

ghost use Rattle.std.specs.Prelude.{◌≡◌, ℕ, List, [], map, take, length, not, OnErr, OnOk, IfOk};
ghost use Rattle.xk_names.specs.Scope.{Table as Entries, find, has};
ghost use Rattle.xk_tree.specs.Tree.{Statements, Word};
ghost use Rattle.xk_names.specs.Captures.{own_after};
ghost use Rattle.xk_names.specs.FaultList.{put, put_text, put_texts};
ghost use Rattle.xk_names.specs.TablePlaces.{ArePlaces};

use std::alloc::{AllocError, Global};
use std::collections::BTreeMap;
use std::marker::Model;

/// What names stand for, in the order in which they were put in. No name is there twice.
#[derive(Drop)]
pub struct Table<'t, A: Copy> {
    entries: Vec<(&'t [u8], A)>,
    // where each name stands among them; ordered, so that no choice of names makes it slow
    places: BTreeMap<&'t [u8], usize>,
}

impl<'t, A: Copy> Model for Table<'t, A> {
    ghost Value = { Entries A };

    ghost view = { λ t. map (λ e. (e.0.now, e.1)) t.entries.items };

    ghost invariant = { λ t. ArePlaces (map (λ e. (e.0.now, e.1)) t.entries.items) t.places };
}

impl<'t, A: Copy> Table<'t, A> {
    /// A table without entries.
    pub fn new(alloc: Global) -> Self
        ensures { result ≡ [] }
    {
        Table {
            entries: Vec::new(alloc),
            places: BTreeMap::new(alloc),
        }
    }

    /// How many entries it has.
    pub fn len(&self) -> usize
        ensures { result ≡ length self.now }
    {
        self.entries.len()
    }

    /// What the name stands for, or `None` where it has no entry.
    pub fn find(&self, text: &'t [u8]) -> Option<A>
        ensures { result ≡ find self.now text.now }
    {
        let place = *self.places.get(text)?;
        Some(self.entries[place].1)
    }

    /// Adds an entry behind the others, unless the name has one, which stays then. Where memory is wanting nothing changes.
    pub fn put(&mut self, text: &'t [u8], a: A) -> Result<(), AllocError>
        ensures entry { OnOk result (self.new ≡ put self.old text.now a) }
        ensures same { OnErr result (self.new ≡ self.old) }
    {
        if self.places.contains_key(text) {
            return Ok(());
        }
        // Room first: behind this, only the map can be refused memory, and it changes nothing then.
        self.entries.reserve(1)?;
        self.places.insert(text, self.entries.len())?;
        self.entries.push((text, a))?;
        Ok(())
    }

    /// Forgets all but the first `len` entries.
    pub fn truncate(&mut self, len: usize)
        ensures { self.new ≡ take len self.old }
    {
        while len < self.entries.len() {
            if let Some((text, _)) = self.entries.pop() {
                self.places.remove(text);
            }
        }
    }
}

/// Names, each once.
#[derive(Drop)]
pub struct Texts<'t> {
    names: Table<'t, ()>,
}

impl<'t> Model for Texts<'t> {
    ghost Value = { List (List ℕ) };

    ghost view = { λ t. map (λ e. e.0) t.names };
}

impl<'t> Texts<'t> {
    /// No names.
    pub fn new(alloc: Global) -> Self
        ensures { result ≡ [] }
    {
        Texts {
            names: Table::new(alloc),
        }
    }

    /// Whether the name is there.
    pub fn contains(&self, text: &'t [u8]) -> bool
        ensures { result ≡ has self.now text.now }
    {
        self.names.find(text).is_some()
    }

    /// Adds a name, and says whether it is new. Where memory is wanting nothing changes.
    pub fn put(&mut self, text: &'t [u8]) -> Result<bool, AllocError>
        ensures new { IfOk result (λ new. new ≡ not (has self.old text.now)) }
        ensures texts { OnOk result (self.new ≡ put_text self.old text.now) }
        ensures same { OnErr result (self.new ≡ self.old) }
    {
        let before = self.names.len();
        self.names.put(text, ())?;
        Ok(before < self.names.len())
    }

    /// How many names there are.
    pub fn len(&self) -> usize
        ensures { result ≡ length self.now }
    {
        self.names.len()
    }

    /// Forgets the names that were added since there were `len`.
    pub fn cut(&mut self, len: usize)
        ensures behind { (before : List (List ℕ)) (ws : List Word) → self.old ≡ put_texts before ws
            → len ≡ length before → self.new ≡ before }
        ensures after { (before : List (List ℕ)) (ss : Statements) → self.old ≡ own_after before ss
            → len ≡ length before → self.new ≡ before }
    {
        self.names.truncate(len);
    }

    /// The names, in the order in which they were added.
    pub fn to_vec(&self, alloc: Global) -> Result<Vec<&'t [u8]>, AllocError>
        ensures { IfOk result (λ names. map (λ x. x.now) names.items ≡ self.now) }
    {
        let mut names = Vec::with_capacity(alloc, self.names.len())?;
        for (name, _) in &self.names.entries {
            names.push(*name)?;
        }
        Ok(names)
    }
}

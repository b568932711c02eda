//! What a place sees.

ghost use Rattle.std.specs.Prelude.{◌≡◌, ℕ, List, [], ◌∷◌, length, OnOk};
ghost use Rattle.xk_tree.specs.Tree.{Statements, word};
ghost use Rattle.xk_names.specs.Scope.{Declaration, Scope as Seen, declared, find, fits, is_given, sees};
ghost use Rattle.xk_names.specs.FaultList.{after, with_clocks, with_declared};

use crate::binding::{Known, NameKind, Want};
use crate::table::{Table, Texts};
use std::alloc::{AllocError, Global};
use std::collections::VecDeque;
use std::marker::Model;
use xk_tree::Name;

impl NameKind {
    /// Whether a name of this kind may stand where `want` is wanted.
    pub fn fits(self, want: Want) -> bool
        ensures { result ≡ fits want self }
    {
        match want {
            Want::Number => matches!(self, NameKind::Val | NameKind::Var),
            Want::Readable => !matches!(self, NameKind::Clock),
            Want::Clock => matches!(self, NameKind::Clock),
            Want::Assigned => matches!(self, NameKind::Var | NameKind::Shared),
            Want::Shared => matches!(self, NameKind::Shared),
        }
    }
}

/// The names that are visible at a place, and the bodies of `async` that hold it, the innermost first, with the clocks that each was given.
#[derive(Drop)]
pub struct Scope<'t> {
    names: Table<'t, Known>,
    bodies: VecDeque<Texts<'t>>,
}

impl<'t> Model for Scope<'t> {
    ghost Value = { Seen };

    ghost view = { λ s. record { names = s.names; bodies = s.bodies.items } };
}

impl<'t> Scope<'t> {
    /// Nothing is visible, and no `async` body is round it.
    pub fn new(alloc: Global) -> Self
        ensures { result ≡ record { names = []; bodies = [] } }
    {
        Scope {
            names: Table::new(alloc),
            bodies: VecDeque::new(alloc),
        }
    }

    /// What is known of a name, or `None` where it isn't visible.
    pub fn find(&self, text: &'t [u8]) -> Option<Known>
        ensures { result ≡ find self.now.names text.now }
    {
        self.names.find(text)
    }

    /// How many names are visible.
    pub fn len(&self) -> usize
        ensures { result ≡ length self.now.names }
    {
        self.names.len()
    }

    /// Whether the innermost `async` body was given this clock.
    fn is_given(&self, text: &'t [u8]) -> bool
        ensures { result ≡ is_given self.now text.now }
    {
        match self.bodies.front() {
            None => false,
            Some(clocks) => clocks.contains(text),
        }
    }

    /// Whether a visible name can be used from here: a `var` only in the body that declares it, a clock there and where the innermost
    /// body was given it.
    pub fn sees(&self, text: &'t [u8], known: Known) -> bool
        ensures { result ≡ sees self.now text.now known }
    {
        match known.kind {
            NameKind::Shared => true,
            NameKind::Val => true,
            NameKind::Var => known.depth == self.bodies.len(),
            NameKind::Clock => known.depth == self.bodies.len() || self.is_given(text),
        }
    }

    /// Declares a name, unless one of the same text is visible.
    pub fn declare(&mut self, name: Name<'t>, kind: NameKind) -> Result<(), AllocError>
        ensures { OnOk result (self.new ≡ with_declared self.old
            (declared (word name.entry) kind (length self.old.bodies) ∷ [])) }
    {
        let depth = self.bodies.len();
        self.names.put(name.text, Known { kind, depth })
    }

    /// Forgets what was declared since `len` names were visible.
    pub fn cut(&mut self, len: usize)
        ensures behind { (before : Seen) (ds : List Declaration)
            → self.old ≡ with_declared before ds
            → len ≡ length before.names → self.new ≡ before }
        ensures after { (before : Seen) (ss : Statements) → self.old ≡ after before ss
            → len ≡ length before.names → self.new ≡ before }
    {
        self.names.truncate(len);
    }

    /// Goes into the body of an `async` that is given these clocks.
    pub fn enter(&mut self, clocks: Texts<'t>) -> Result<(), AllocError>
        ensures { OnOk result (self.new ≡ with_clocks self.old clocks.entry) }
    {
        self.bodies.push_front(clocks)?;
        Ok(())
    }

    /// Leaves the innermost `async` body, and forgets what was declared since `len` names were visible.
    pub fn leave(&mut self, len: usize)
        ensures { (before : Seen) (clocks : List (List ℕ)) (ds : List Declaration)
            → self.old ≡ with_declared (with_clocks before clocks) ds
            → len ≡ length before.names → self.new ≡ before }
    {
        self.names.truncate(len);
        let _clocks = self.bodies.pop_front();
    }
}

//! The names of shared numbers.

ghost use Rattle.std.specs.Prelude.{◌≡◌, ℕ, List, [], is_some, map, IfOk, OnOk};
ghost use Rattle.xk_tree.specs.Tree.{shared_value};
ghost use Rattle.xk_names.specs.Scope.{find, has};
ghost use Rattle.xk_names.specs.Captures.{shared_texts};

use std::alloc::{AllocError, Global};
use std::marker::Model;
use xk_names::Table;
use xk_tree::{Name, Shared};

/// The names of shared numbers.
#[derive(Drop)]
pub(crate) struct SharedNames<'t> {
    names: Table<'t, ()>,
}

impl<'t> Model for SharedNames<'t> {
    ghost Value = { List (List ℕ) };

    ghost view = { λ s. map (λ e. e.0) s.names };
}

/// Puts the names of shared numbers into a table.
fn add_names<'t>(table: &mut Table<'t, ()>, shared: &[Shared<'t>]) -> Result<(), AllocError>
    requires { table.old ≡ [] }
    ensures { OnOk result ((x : List ℕ)
        → is_some (find table.new x) ≡ has (shared_texts (map shared_value shared.now)) x) }
{
    for number in shared {
        table.put(number.name.text, ())?;
    }
    Ok(())
}

impl<'t> SharedNames<'t> {
    /// The names of these shared numbers.
    pub(crate) fn of(alloc: Global, shared: &[Shared<'t>]) -> Result<Self, AllocError>
        ensures { IfOk result (λ names. (x : List ℕ)
            → has names x ≡ has (shared_texts (map shared_value shared.now)) x) }
    {
        let mut names = Table::new(alloc);
        add_names(&mut names, shared)?;
        Ok(SharedNames { names })
    }

    /// Whether the name is a shared number's.
    pub(crate) fn contains(&self, x: Name<'t>) -> bool
        ensures { result ≡ has self.now x.entry.text.now }
    {
        self.names.find(x.text).is_some()
    }
}

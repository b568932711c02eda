//! Sets of nodes, numbered from 0 in the order in which they were met.

ghost use Rattle.std.specs.Prelude.{◌≡◌, ◌<◌, ◌⊎◌, [], ℕ, List, length, slice_get, IfOk, Some};
ghost use Rattle.xk_readings.specs.Automata.{KeepsStates};
ghost use Rattle.xk_readings.specs.Beginnings.{AreOnce};

use indexmap::IndexSet;
use std::alloc::{AllocError, Global};
use std::marker::Model;

/// Sets of nodes, each as the list of its nodes. No list is there twice.
#[derive(Drop)]
pub struct States {
    lists: IndexSet<Vec<usize>>,
}

impl Model for States {
    ghost use Rattle.std.specs.Prelude.{ℕ, List};
    ghost use Rattle.xk_readings.specs.Automata.{lists_in};

    ghost Value = { List (List ℕ) };

    ghost view = { λ s. lists_in s.lists.keys };
}

impl States {
    /// None yet.
    pub fn new(alloc: Global) -> States
        ensures { result ≡ [] }
    {
        States {
            lists: IndexSet::new(alloc),
        }
    }

    /// How many they are.
    pub fn len(&self) -> usize
        ensures many { result ≡ length self.now }
        ensures once { AreOnce self.now }
    {
        self.lists.len()
    }

    /// The nodes of the one of a number, copied; none, if there is none. Err where memory was refused.
    pub fn nodes(&self, alloc: Global, number: usize) -> Result<Vec<usize>, AllocError>
        requires { number < length self.now }
        ensures { IfOk result (λ v. slice_get self.now number ≡ Some v.items) }
    {
        match self.lists.get_index(number) {
            Some(nodes) => nodes.to_vec(alloc),
            None => Ok(Vec::new(alloc)),
        }
    }

    /// The number of the set with these nodes, which is put behind the others if it wasn't met. Err where memory was refused.
    pub fn number_of(&mut self, nodes: Vec<usize>) -> Result<usize, AllocError>
        ensures kept { KeepsStates self.old self.new }
        ensures there { IfOk result (λ k. slice_get self.new k ≡ Some nodes.items) }
        ensures each { (i : ℕ) (s : List ℕ) → slice_get self.new i ≡ Some s
            → (slice_get self.old i ≡ Some s) ⊎ (s ≡ nodes.items) }
    {
        let (number, _) = self.lists.insert_full(nodes)?;
        Ok(number)
    }
}

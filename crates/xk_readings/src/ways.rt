//! Ways from the first node, each one edge longer than one before it.

ghost use Rattle.std.specs.Prelude.{◌≡◌, ◌<◌, ◌≤◌, ◌+◌, ◌++◌, ◌∷◌, ◌⊎◌, [], ℕ, length, slice_get, take, IfOk, OnOk, Some};
ghost use Rattle.std.specs.Option.{option_to_list};
ghost use Rattle.xk_readings.specs.Ways.{Standing, WaysValue, HasStanding, along, left, looking_from, start, at};

use crate::edge::Edge;
use crate::listing::Reading;
use crate::node_set::NodeSet;
use std::alloc::{AllocError, Global};
use std::marker::Model;

/// The last edge of a way.
#[derive(Clone, Copy)]
struct Stand {
    // the number of the way that it makes longer
    before: usize,
    edge: Edge,
}

/// Ways from the first node, numbered from 0: the first one has no edge. It is known where those end that are looked at.
#[derive(Drop)]
pub struct Ways {
    // that of each way but the first
    stands: Vec<Stand>,
    // the number of the first one that is looked at
    since: usize,
    // where those end that are looked at
    here: NodeSet,
}

impl Model for Ways {
    ghost use Rattle.xk_readings.specs.Ways.{WaysValue};
    ghost use Rattle.xk_readings.specs.Stands.{AreWays, standings};

    ghost Value = { WaysValue };

    ghost view = { λ w. record {
      all = standings w.stands.items;
      since = w.since;
      here = w.here;
    } };

    ghost invariant = { λ w. AreWays w.stands.items w.since w.here.nodes };
}

/// Puts what was printed behind the numbers, if a number was. Err where memory was refused.
fn keep_printed(numbers: &mut Vec<i64>, printed: Option<i64>) -> Result<(), AllocError>
    ensures { OnOk result (numbers.new.items ≡ numbers.old.items ++ option_to_list printed) }
{
    if let Some(number) = printed {
        numbers.push(number)?;
    }
    Ok(())
}

impl Ways {
    /// The first one alone, in a graph of so many nodes. Err where memory was refused.
    pub fn new(alloc: Global, nodes: usize) -> Result<Ways, AllocError>
        ensures { IfOk result (λ w. (w.all ≡ start ∷ []) × (w.here.room ≡ nodes)) }
    {
        let here = NodeSet::new(alloc, nodes)?;
        Ok(Ways {
            stands: Vec::new(alloc),
            since: 0,
            here,
        })
    }

    /// How many they are.
    pub fn len(&self) -> usize
        ensures { result ≡ length self.now.all }
    {
        self.stands.len() + 1
    }

    /// Where the way of a number ends.
    pub fn node(&self, number: usize) -> usize
        requires { number < length self.now.all }
        ensures { result ≡ (at self.now.all number).node }
    {
        // For the first way, which has no edge.
        let _stands = &self.stands;
        if number == 0 {
            return 0;
        }
        self.stands[number - 1].edge.to
    }

    /// Forgets those from a number on. None is looked at then.
    pub fn truncate(&mut self, number: usize)
        requires some { 0 < number }
        requires within { number ≤ length self.old.all }
        ensures all { self.new.all ≡ take number self.old.all }
        ensures room { self.new.here.room ≡ self.old.here.room }
    {
        self.stands.truncate(number - 1);
        self.since = number;
        self.here.clear();
    }

    /// Looks at those that are added from now on.
    pub fn look_from_here(&mut self)
        ensures { self.new ≡ looking_from (length self.old.all) self.old }
    {
        self.since = self.len();
        self.here.clear();
    }

    /// Looks at those from a number on. Err where memory was refused.
    pub fn look_from(&mut self, number: usize) -> Result<(), AllocError>
        requires within { (k : ℕ) (s : Standing) → slice_get self.old.all k ≡ Some s
            → s.node < self.old.here.room }
        ensures all { self.new.all ≡ self.old.all }
        ensures since { self.new.since ≡ number }
        ensures room { self.new.here.room ≡ self.old.here.room }
    {
        self.since = number;
        self.here.clear();
        for k in number..self.len() {
            let node = self.node(k);
            if !self.here.has(node) {
                self.here.add(node)?;
            }
        }
        Ok(())
    }

    /// Adds the way of a number with one edge more, unless one that is looked at ends where it does. Err where memory was refused.
    pub fn lengthen(&mut self, before: usize, edge: Edge) -> Result<(), AllocError>
        requires before { before < length self.old.all }
        requires to { edge.to < self.old.here.room }
        requires since { self.old.since ≤ length self.old.all }
        ensures since { self.new.since ≡ self.old.since }
        ensures room { self.new.here.room ≡ self.old.here.room }
        ensures all { (self.new.all ≡ self.old.all)
            ⊎ (self.new.all ≡ self.old.all ++ along edge (at self.old.all before) ∷ []) }
        ensures there { OnOk result (HasStanding self.new.all self.new.since edge.to) }
        ensures left { OnOk result (length self.new.all + left self.new
            ≡ length self.old.all + left self.old) }
    {
        if self.here.has(edge.to) {
            return Ok(());
        }
        self.stands.push(Stand { before, edge })?;
        self.here.add(edge.to)?;
        Ok(())
    }

    /// What is read along the way of a number. Err where memory was refused.
    pub fn reading(&self, alloc: Global, number: usize) -> Result<Reading, AllocError>
        requires { number < length self.now.all }
        ensures acts { IfOk result (λ r. r.acts.items ≡ (at self.now.all number).acts) }
        ensures numbers { IfOk result (λ r. r.numbers.items ≡ (at self.now.all number).numbers) }
    {
        let mut acts = Vec::new(alloc);
        let mut numbers = Vec::new(alloc);
        let mut last = number;
        while last > 0 {
            let stand = self.stands[last - 1];
            acts.push(stand.edge.act)?;
            keep_printed(&mut numbers, stand.edge.printed)?;
            last = stand.before;
        }
        acts.reverse();
        numbers.reverse();
        Ok(Reading { numbers, acts })
    }
}

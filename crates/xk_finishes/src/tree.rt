//! The tree of finishes.

ghost use Rattle.std.specs.Prelude.{◌≡◌, ◌<◌, ◌^◌, false, not, List, [], ◌∷◌, ◌++◌, length, Some, slice_get, IfOk, OnOk, OnErr};
ghost use Rattle.std.specs.Bool.{Decides};
ghost use Rattle.xk_types.specs.World.{Activity, root};
ghost use Rattle.xk_types.specs.Step as step;
ghost use Rattle.xk_finishes.specs.Tree.{fresh_node, node_at, node_entered, node_left, node_ended, changed_at, governing_of, governed_of, innermost_of, is_under, awaits_innermost, AreNodesOf, HaveSameFinishes};

use crate::counters::Counters;
use crate::finish::Finish;
use crate::node::Node;
use std::alloc::{AllocError, Global};
use std::marker::Model;
use xk_types::Act;

/// The finishes of a running program, and who is under them. The tree is told of each activity that starts or ends, and of
/// each finish that is opened or closed. Activities are numbered from 0, which is main, in the order in which they start.
///
/// X10 Language Specification 2.4, chapter Activities, Finish: `finish S` runs S, then waits until every activity that was started
/// meanwhile, directly or through other activities, has ended; and main runs under a finish that nobody opens. So a finish
/// *governs* what its owner starts while it is the innermost that the owner has open; what is started by an activity with none
/// open is governed by the finish that governs that activity. An activity is *under* the finish that governs it, and under
/// each finish that the owner of that one is under.
#[derive(Drop)]
pub struct FinishTree {
    nodes: Vec<Node>,
    /// For each finish how many whom it governs itself haven't ended.
    counters: Counters,
}

impl Model for FinishTree {
    ghost use Rattle.std.specs.Prelude.{List};
    ghost use Rattle.xk_finishes.specs.Tree.{NodeValue};
    ghost use Rattle.xk_finishes.specs.Counters.{IsCounting};

    ghost Value = { List NodeValue };

    ghost view = { λ t. t.nodes.items };

    ghost invariant = { λ t. IsCounting t.nodes.items t.counters };
}

impl FinishTree {
    /// The finish that nobody opens, and main, which it governs and which has room for this many finishes open at once.
    pub fn open(alloc: Global, room: u32) -> Result<FinishTree, AllocError>
        ensures { IfOk result (λ tree. tree ≡ fresh_node root room ∷ []) }
    {
        let mut nodes = Vec::new(alloc);
        nodes.push(Node::new(Finish::root(), room))?;
        Ok(FinishTree {
            nodes,
            counters: Counters::new(alloc),
        })
    }

    /// The same tree, from the memory that this one is in.
    pub fn copy(&self) -> Result<FinishTree, AllocError>
        ensures { IfOk result (λ tree. tree ≡ self.now) }
    {
        let alloc = *self.nodes.allocator();
        Ok(FinishTree {
            nodes: self.nodes.to_vec(alloc)?,
            counters: self.counters.copy()?,
        })
    }

    /// An activity starts another, which has room for this many finishes open at once, and takes the next number. It is
    /// governed by the innermost finish that its starter has open, else by the one that governs the starter. Where memory is
    /// refused nothing changes.
    pub fn spawned(&mut self, starter: Act, room: u32) -> Result<Act, AllocError>
        requires exists { starter < length self.old }
        requires runs { (node_at self.old starter).ended ≡ false }
        requires numbers { length self.old < 2 ^ 32 }
        ensures number { IfOk result (λ act. act ≡ length self.old) }
        ensures started { OnOk result
            (self.new ≡ self.old
            ++ fresh_node (governing_of starter (node_at self.old starter)) room ∷ []) }
        ensures refused { OnErr result (self.new ≡ self.old) }
    {
        let number = Act(self.nodes.len() as u32);
        let governed = self.nodes[starter.0 as usize].governing(starter);
        self.counters.make_place(governed)?;
        self.nodes.push(Node::new(governed, room))?;
        self.counters.add(governed);
        Ok(number)
    }

    /// The activity opens a finish, which becomes the innermost that it has open.
    pub fn enter(&mut self, act: Act)
        requires exists { act < length self.old }
        requires runs { (node_at self.old act).ended ≡ false }
        requires room { (node_at self.old act).opened < (node_at self.old act).room }
        ensures opened { self.new ≡ changed_at self.old act node_entered }
    {
        self.nodes[act.0 as usize].enter();
    }

    /// The activity ends. It has closed each finish that it opened.
    pub fn ended(&mut self, act: Act)
        requires exists { act < length self.old }
        requires runs { (node_at self.old act).ended ≡ false }
        requires closed { (node_at self.old act).opened ≡ 0 }
        ensures ended { self.new ≡ changed_at self.old act node_ended }
    {
        let governed = self.nodes[act.0 as usize].governed();
        self.nodes[act.0 as usize].end();
        self.counters.take(governed);
    }

    /// The activity closes its innermost open finish. Everybody under it has ended.
    pub fn leave(&mut self, act: Act)
        requires exists { act < length self.old }
        requires opened { 0 < (node_at self.old act).opened }
        requires empty { awaits_innermost self.old act ≡ false }
        ensures closed { self.new ≡ changed_at self.old act node_left }
    {
        self.nodes[act.0 as usize].leave();
    }

    /// Whether everybody under the innermost open finish of the activity has ended, so that its `endfinish` waits for nobody.
    /// Looks at that finish's counter alone.
    pub fn empty(&self, act: Act) -> bool
        requires exists { act < length self.now }
        requires opened { 0 < (node_at self.now act).opened }
        ensures waits { result ≡ not (awaits_innermost self.now act) }
        // The same in the terms of a step, whatever else the activities are.
        ensures step { (acts : List Activity) (a : Activity) → AreNodesOf acts self.now
            → slice_get acts act ≡ Some a → result ≡ not (step.awaits acts (step.innermost act a)) }
    {
        let depth = self.nodes[act.0 as usize].opened();
        self.counters.of(act, depth) == 0
    }

    /// Whether the activity is under the finish that the owner opened last.
    pub fn is_under(&self, owner: Act, act: Act) -> bool
        requires { owner < length self.now }
        ensures under { result
            ≡ is_under self.now (innermost_of owner (node_at self.now owner)) act }
        // The same in the terms of a step, whatever else the activities are.
        ensures step { (acts : List Activity) (a : Activity) → AreNodesOf acts self.now
            → slice_get acts owner ≡ Some a
            → result ≡ step.is_under acts (step.innermost owner a) act }
    {
        let depth = self.nodes[owner.0 as usize].opened();
        self.has_below(Finish::opened_by(owner, depth), act)
    }

    /// Whether the activity is under the finish: that governs it, or one that its owner is under. Goes up from owner to owner.
    fn has_below(&self, finish: Finish, act: Act) -> bool
        ensures { result ≡ is_under self.now finish act }
    {
        let mut member = Some(act);
        for _above in 0..self.nodes.len() {
            match self.governed(member) {
                None => return false,
                Some(governed) => {
                    if governed.is_same(finish) {
                        return true;
                    }
                    member = governed.owner();
                }
            }
        }
        false
    }

    /// The finish that governs an activity, if there is one.
    fn governed(&self, act: Option<Act>) -> Option<Finish>
        ensures { result ≡ governed_of self.now act }
    {
        match act {
            None => None,
            Some(number) => match self.nodes.get(number.0 as usize) {
                None => None,
                Some(node) => Some(node.governed()),
            },
        }
    }

    /// The activity that opened the finish which governs this one; None where nobody did, as for main.
    pub fn governor(&self, act: Act) -> Option<Act>
        requires { act < length self.now }
        ensures { result ≡ (node_at self.now act).governed.owner }
    {
        self.nodes[act.0 as usize].governed().owner()
    }

    /// Whether the activity has as many finishes open in the other tree, and the same governs it there.
    pub fn has_same_finishes(&self, other: &FinishTree, act: Act) -> bool
        requires here { act < length self.now }
        requires there { act < length other.now }
        ensures { Decides result (HaveSameFinishes (node_at self.now act) (node_at other.now act)) }
    {
        let there = &other.nodes[act.0 as usize];
        self.nodes[act.0 as usize].has_same_finishes(there)
    }
}

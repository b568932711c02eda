//! What the tree keeps of one activity.

ghost use Rattle.std.specs.Prelude.{◌≡◌, ◌<◌, true, false};
ghost use Rattle.std.specs.Bool.{Decides};
ghost use Rattle.xk_finishes.specs.Tree.{fresh_node, node_entered, node_left, node_ended, governing_of, HaveSameFinishes};

use crate::finish::Finish;
use std::marker::Model;
use xk_types::Act;

/// An activity, as far as finishes go.
#[derive(Clone, Copy)]
pub struct Node {
    /// How many finishes it has open.
    opened: u32,
    /// How many it has room for.
    room: u32,
    /// The finish that governs it.
    governed: Finish,
    /// Whether it has ended.
    ended: bool,
}

impl Model for Node {
    ghost use Rattle.xk_finishes.specs.Tree.{NodeValue};

    ghost Value = { NodeValue };

    ghost view = { λ n. record {
      opened = n.opened;
      room = n.room;
      governed = n.governed;
      ended = n.ended;
    } };

    ghost inverse = { λ n. record {
      opened = n.opened;
      room = n.room;
      governed = n.governed;
      ended = n.ended;
    } };
}

impl Node {
    /// An activity that begins.
    pub fn new(governed: Finish, room: u32) -> Node
        ensures { result ≡ fresh_node governed room }
    {
        Node {
            opened: 0,
            room,
            governed,
            ended: false,
        }
    }

    /// How many finishes it has open.
    pub fn opened(&self) -> u32
        ensures { result ≡ self.now.opened }
    {
        self.opened
    }

    /// The finish that governs it.
    pub fn governed(&self) -> Finish
        ensures { result ≡ self.now.governed }
    {
        self.governed
    }

    /// Whether it has ended.
    pub fn ended(&self) -> bool
        ensures { result ≡ self.now.ended }
    {
        self.ended
    }

    /// Whether it has as many finishes open as the other one, and the same governs it.
    pub fn has_same_finishes(&self, other: &Node) -> bool
        ensures { Decides result (HaveSameFinishes self.now other.now) }
    {
        self.opened == other.opened && self.governed.is_same(other.governed)
    }

    /// The finish that governs what it starts, this being its number: the innermost that it has open, else the one that
    /// governs it.
    pub fn governing(&self, number: Act) -> Finish
        ensures { result ≡ governing_of number self.now }
    {
        if self.opened == 0 {
            self.governed
        } else {
            Finish::opened_by(number, self.opened)
        }
    }

    /// Opens one more finish.
    pub fn enter(&mut self)
        requires { self.old.opened < self.old.room }
        ensures { self.new ≡ node_entered self.old }
    {
        // So that one more still is a `u32`.
        prove!(self.opened < self.room);
        self.opened += 1;
    }

    /// Closes its innermost finish.
    pub fn leave(&mut self)
        requires { 0 < self.old.opened }
        ensures { self.new ≡ node_left self.old }
    {
        self.opened -= 1;
    }

    /// Ends.
    pub fn end(&mut self)
        ensures { self.new ≡ node_ended self.old }
    {
        self.ended = true;
    }
}

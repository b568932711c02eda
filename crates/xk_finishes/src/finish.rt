//! A finish by its name.

ghost use Rattle.std.specs.Prelude.{◌≡◌, Some};
ghost use Rattle.std.specs.Bool.{Decides};
ghost use Rattle.xk_types.specs.World.{root};
ghost use Rattle.xk_types.specs.Step.{same_finish, same_owner};

use std::marker::Model;
use xk_types::Act;

/// A finish. It is named by the activity that opened it and by how many that one then had open, this one among them; the pair is
/// used again once it is closed. Nobody opens the finish that governs main.
#[derive(Clone, Copy)]
pub struct Finish {
    owner: Option<Act>,
    depth: u32,
}

impl Model for Finish {
    ghost use Rattle.xk_types.specs.World as world;

    ghost Value = { world.Finish };

    ghost view = { λ f. record { owner = f.owner; depth = f.depth } };

    ghost inverse = { λ f. record { owner = f.owner; depth = f.depth } };
}

/// Whether it is the same activity, or nobody both times.
fn is_same_owner(owner: Option<Act>, other: Option<Act>) -> bool
    ensures decides { Decides result (owner ≡ other) }
    ensures same { result ≡ same_owner owner other }
{
    match owner {
        None => other.is_none(),
        Some(act) => match other {
            None => false,
            Some(another) => act.0 == another.0,
        },
    }
}

impl Finish {
    /// The one that governs main.
    pub fn root() -> Finish
        ensures { result ≡ root }
    {
        Finish {
            owner: None,
            depth: 0,
        }
    }

    /// The one that the activity opened as its last, when it then had this many open.
    pub fn opened_by(owner: Act, depth: u32) -> Finish
        ensures { result ≡ record { owner = Some owner; depth = depth } }
    {
        Finish {
            owner: Some(owner),
            depth,
        }
    }

    /// The activity that opened it, if one did.
    pub fn owner(self) -> Option<Act>
        ensures { result ≡ self.owner }
    {
        self.owner
    }

    /// How many its owner then had open, this one among them.
    pub fn depth(self) -> u32
        ensures { result ≡ self.depth }
    {
        self.depth
    }

    /// Whether it is the other one.
    pub fn is_same(self, other: Finish) -> bool
        ensures decides { Decides result (self ≡ other) }
        // The same in the terms of a step.
        ensures same { result ≡ same_finish self other }
    {
        is_same_owner(self.owner, other.owner) && self.depth == other.depth
    }
}

//! Whose local steps somebody computes.

ghost use Rattle.std.specs.Prelude.{◌≡◌, ◌<◌, false, [], ◌∷◌, slice_set};
ghost use Rattle.std.specs.Vec.{vec_len, vec_capacity};
ghost use Rattle.xk_workers.specs.Claims.{claims_in, claims_room, is_claimed, claims_after};

use std::alloc::Global;
use xk_types::{Act, Event};

/// Who is claimed. Main's claim lies in the struct itself, so that there is one without memory.
#[derive(Drop)]
pub struct Claims {
    pub main: bool,
    /// The claims of the others, from activity 1 on.
    pub children: Vec<bool>,
}

impl Claims {
    /// Main alone is there, and not claimed.
    pub fn none(alloc: Global) -> Claims
        ensures claims { claims_in result ≡ false ∷ [] }
        ensures room { claims_room result ≡ 1 }
    {
        Claims {
            main: false,
            children: Vec::new(alloc),
        }
    }

    /// Whether the activity is claimed.
    pub fn has(&self, act: Act) -> bool
        ensures { result ≡ is_claimed (claims_in self.now) act }
    {
        match act.0.checked_sub(1) {
            None => self.main,
            Some(child) => self.children.get(child as usize).copied().unwrap_or(false),
        }
    }

    /// Says whether the activity is claimed from now on. One that has no place is none.
    pub fn put(&mut self, act: Act, claimed: bool)
        ensures claims { claims_in self.new ≡ slice_set (claims_in self.old) act claimed }
        ensures room { claims_room self.new ≡ claims_room self.old }
    {
        match act.0.checked_sub(1) {
            None => self.main = claimed,
            Some(child) => {
                if let Some(claim) = self.children.get_mut(child as usize) {
                    *claim = claimed;
                }
            }
        }
    }

    /// Makes a place for an activity that a step started, if it did. Room was made for it.
    pub fn note(&mut self, event: Event)
        requires { vec_len self.old.children < vec_capacity self.old.children }
        ensures { claims_in self.new ≡ claims_after event (claims_in self.old) }
    {
        if let Event::Spawned = event
            && self.children.push(false).is_err()
        {
            unreachable!()
        }
    }
}

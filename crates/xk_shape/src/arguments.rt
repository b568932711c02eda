//! What a `call` or a `spawn` hands on.

ghost use Rattle.std.specs.Prelude.{◌≡◌, ◌==◌, [], ◌∷◌, MatchOption};
ghost use Rattle.std.specs.List.{list_any};
ghost use Rattle.xk_shape.specs.Arguments.{clocks, TakesNext};

use std::marker::Model;
use xk_types::ParamKind;

/// The arguments of a `call` or a `spawn` from the left, each with the parameter that takes it. What one has more than the other
/// is left out.
#[derive(Drop)]
pub struct Arguments<'a> {
    params: &'a [ParamKind],
    slots: &'a [u16],
}

impl<'a> Model for Arguments<'a> {
    ghost use Rattle.xk_shape.specs.Arguments.{ArgumentsValue};

    ghost Value = { ArgumentsValue };

    ghost view = { λ a. record { params = a.params.now; slots = a.slots.now } };
}

impl<'a> Arguments<'a> {
    /// These slots, for these parameters.
    pub fn new(params: &'a [ParamKind], slots: &'a [u16]) -> Arguments<'a>
        ensures { result ≡ record { params = params.now; slots = slots.now } }
    {
        Arguments { params, slots }
    }

    /// Takes the first of them.
    pub fn take_next(&mut self) -> Option<(ParamKind, u16)>
        ensures { TakesNext self.old self.new result }
    {
        let (param, params) = self.params.split_first()?;
        let (slot, slots) = self.slots.split_first()?;
        self.params = params;
        self.slots = slots;
        Some((*param, *slot))
    }

    /// Takes the first for a clock, and what stands before it.
    pub fn take_clock(&mut self) -> Option<u16>
        ensures { MatchOption result
            (clocks self.old ≡ [])
            (λ x. clocks self.old ≡ x ∷ clocks self.new) }
    {
        while let Some((param, slot)) = self.take_next() {
            match param {
                ParamKind::Number => {}
                ParamKind::Clock => return Some(slot),
            }
        }
        None
    }

    /// Whether the slot is one of those for clocks.
    pub fn has_clock(&self, slot: u16) -> bool
        ensures { result ≡ list_any (λ x. x == slot) (clocks self.now) }
    {
        let mut rest = Arguments::new(self.params, self.slots);
        while let Some(clock) = rest.take_clock() {
            if clock == slot {
                return true;
            }
        }
        false
    }
}

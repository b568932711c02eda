//! Where the instructions of a unit come from.

use std::marker::Model;
use xk_types::UnitKind;

/// Where a unit's text stands, what it is for, and what it is called.
#[derive(Drop)]
pub struct Head<'t> {
    /// The offset of a method's name, or of the word `async`.
    pub at: usize,
    /// What it is for.
    pub kind: UnitKind,
    /// The name of a method; the body of an `async` has none.
    pub name: Option<&'t [u8]>,
}

impl<'t> Model for Head<'t> {
    ghost use Rattle.std.specs.Prelude.{option_map};
    ghost use Rattle.xk_unit_origins.specs.UnitOrigins.{Head as HeadValue};

    ghost Value = { HeadValue };

    ghost view = { λ h. record {
      at = h.at;
      kind = h.kind;
      name = option_map (λ x. x.now) h.name;
    } };
}

/// Where the instructions of a unit come from, and what its slots are called.
#[derive(Drop)]
pub struct UnitOrigins<'t> {
    /// The unit's text.
    pub head: Head<'t>,
    /// An offset in the text for each instruction.
    pub offsets: Vec<usize>,
    /// The names of its slots, but for temporaries, which are behind these. A name of spaces is none of the text: a loop's limit has one,
    /// and the clock of a `clocked finish`.
    pub slots: Vec<&'t [u8]>,
}

impl<'t> Model for UnitOrigins<'t> {
    ghost use Rattle.std.specs.Prelude.{map};
    ghost use Rattle.xk_unit_origins.specs.UnitOrigins.{UnitOrigins as UnitOriginsValue};

    ghost Value = { UnitOriginsValue };

    ghost view = { λ u. record {
      head = u.head;
      offsets = u.offsets.items;
      slots = map (λ x. x.now) u.slots.items;
    } };
}

/// Where the instructions of a module come from, unit by unit.
#[derive(Drop)]
pub struct Origins<'t> {
    units: Vec<UnitOrigins<'t>>,
}

impl<'t> Model for Origins<'t> {
    ghost use Rattle.std.specs.Prelude.{List};
    ghost use Rattle.xk_unit_origins.specs.UnitOrigins.{UnitOrigins as UnitOriginsValue};

    ghost Value = { List UnitOriginsValue };

    ghost view = { λ o. o.units.items };
}

impl<'t> Origins<'t> {
    ghost use Rattle.std.specs.Prelude.{◌≡◌, ◌<◌, Some, length, option_map, slice_get};
    ghost use Rattle.xk_unit_origins.specs.UnitOrigins.{offsets_at, slots_at};

    /// What is said of these units is what is said of a module that has them in this order.
    pub fn new(units: Vec<UnitOrigins<'t>>) -> Origins<'t>
        ensures { result ≡ units.entry.items }
    {
        Origins { units }
    }

    /// What is said of each unit, in their order.
    pub fn units(&self) -> &[UnitOrigins<'t>]
        ensures { result.now ≡ self.now }
    {
        &self.units
    }

    /// How many units there are.
    pub fn len(&self) -> usize
        ensures { result ≡ length self.now }
    {
        self.units.len()
    }

    /// What is said of a unit.
    pub fn unit(&self, unit: usize) -> &UnitOrigins<'t>
        requires { unit < length self.now }
        ensures { slice_get self.now unit ≡ Some result.now }
    {
        &self.units[unit]
    }

    /// The text of a unit.
    pub fn head(&self, unit: usize) -> &Head<'t>
        requires { unit < length self.now }
        ensures { option_map (λ o. o.head) (slice_get self.now unit) ≡ Some result.now }
    {
        &self.unit(unit).head
    }

    /// Where the instruction at this place of a unit comes from: an offset in the text.
    pub fn at(&self, unit: usize, place: usize) -> usize
        requires { place < length (offsets_at self.now unit) }
        ensures { slice_get (offsets_at self.now unit) place ≡ Some result }
    {
        self.unit(unit).offsets[place]
    }

    /// The name of a slot of a unit, or `None` where it is a temporary.
    pub fn slot_name(&self, unit: usize, slot: usize) -> Option<&'t [u8]>
        requires { unit < length self.now }
        ensures { option_map (λ x. x.now) result ≡ slice_get (slots_at self.now unit) slot }
    {
        self.unit(unit).slots.get(slot).copied()
    }
}

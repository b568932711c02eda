//! Units, and modules within the limits.

ghost use Rattle.std.specs.Prelude.{◌≡◌, ◌↔◌, IsTrue, IsOk, IfOk, IfErr};
ghost use Rattle.xk_types.specs.Code.{IsUnitWithinLimits, IsWithinLimits, module_of};

use crate::instr::Instr;
use std::marker::Model;

/// What a unit is for.
#[derive(Clone, Copy, Debug, PartialEq, Eq)]
pub enum UnitKind {
    /// The code of activity 0.
    Main,
    /// Code that an activity runs where it is called.
    Method,
    /// The code of an activity that another one starts.
    Body,
}

/// What a parameter takes.
#[derive(Clone, Copy, Debug, PartialEq, Eq)]
pub enum ParamKind {
    /// A number, by value.
    Number,
    /// A clock: a method is lent it, and an activity that is started is registered on it.
    Clock,
}

/// A piece of code with its parameters and slots. The parameters are the first slots.
#[derive(Drop)]
pub struct Unit {
    /// What it is for.
    pub kind: UnitKind,
    /// What its first slots take, one after another.
    pub params: Vec<ParamKind>,
    /// How many slots it has.
    pub slots: u16,
    /// Its instructions, numbered from 0.
    pub code: Vec<Instr>,
}

impl Model for Unit {
    ghost use Rattle.xk_types.specs.Code.{UnitValue};

    ghost Value = { UnitValue };

    ghost view = { λ u. record {
      kind = u.kind;
      params = u.params.items;
      slots = u.slots;
      code = u.code.items;
    } };
}

impl PartialEq for Unit {
    ghost use Rattle.xk_types.specs.Equality.{laws, units};

    ghost eq = { units.answer };

    ghost laws = { laws units };

    /// The same kind, parameters, number of slots and code.
    fn eq(&self, other: &Unit) -> bool {
        self.kind == other.kind
            && self.params.as_slice() == other.params.as_slice()
            && self.slots == other.slots
            && self.code.as_slice() == other.code.as_slice()
    }
}

/// A program: its shared numbers as they are at the start, and its units, of which unit 0 is main.
#[derive(Drop)]
pub struct Module {
    shared: Vec<i64>,
    units: Vec<Unit>,
}

impl Model for Module {
    ghost use Rattle.xk_types.specs.Code.{ModuleValue, IsWithinLimits};

    ghost Value = { ModuleValue };

    ghost view = { λ m. record { shared = m.shared.items; units = m.units.items } };

    ghost invariant = { λ m. IsWithinLimits
        (record { shared = m.shared.items; units = m.units.items }) };
}

impl PartialEq for Module {
    ghost use Rattle.std.specs.Prelude.{◌≡◌};
    ghost use Rattle.std.specs.Bool.{Decides};
    ghost use Rattle.xk_types.specs.Equality.{laws, modules};

    ghost eq = { modules.answer };

    ghost laws = { laws modules };

    /// Whether they have the same shared numbers and the same units.
    fn eq(&self, other: &Module) -> bool
        ensures answer { result ≡ modules.answer self.now other.now }
        ensures same { Decides result (self.now ≡ other.now) }
    {
        self.shared() == other.shared() && self.units() == other.units()
    }
}

/// A module goes beyond a limit.
#[derive(Clone, Copy, Debug, PartialEq, Eq)]
pub struct Limit;

/// The most units of a module.
pub const MAX_UNITS: usize = 1024;
/// The most shared numbers of a module.
pub const MAX_SHARED: usize = 256;
/// The most slots of a unit.
pub const MAX_SLOTS: u16 = 64;
/// The most instructions of a unit.
pub const MAX_CODE: usize = 4096;
/// The most arguments of an instruction.
pub const MAX_ARGS: usize = 64;

impl Unit {
    /// At most 64 slots, no more parameters than slots, at most 4,096 instructions, and each with at most 64 arguments.
    pub fn is_within_limits(&self) -> bool
        ensures { IsTrue result ↔ IsUnitWithinLimits self.now }
    {
        self.slots <= MAX_SLOTS
            && self.params.len() <= self.slots as usize
            && self.code.len() <= MAX_CODE
            && self.code.iter().all(|i| i.argument_count() <= MAX_ARGS)
    }
}

impl Module {
    /// The module of these shared numbers and units, or both back where they go beyond a limit: 1 to 1,024 units, at
    /// most 256 shared numbers, and each unit with at most 64 slots, no more parameters than slots and at most 4,096
    /// instructions, each with at most 64 arguments. Takes no memory.
    pub fn new(shared: Vec<i64>, units: Vec<Unit>) -> Result<Module, (Vec<i64>, Vec<Unit>, Limit)>
        ensures made { IfOk result (λ m. m ≡ module_of shared.items units.items) }
        ensures limits { IsOk result ↔ IsWithinLimits (module_of shared.items units.items) }
        ensures handed_back { IfErr result (λ e. (e.0 ≡ shared) × (e.1 ≡ units)) }
    {
        let counts = !units.is_empty() && units.len() <= MAX_UNITS && shared.len() <= MAX_SHARED;
        if counts && units.iter().all(|u| u.is_within_limits()) {
            Ok(Module { shared, units })
        } else {
            Err((shared, units, Limit))
        }
    }

    /// The shared numbers as they are at the start.
    pub fn shared(&self) -> &[i64]
        ensures { result.now ≡ self.now.shared }
    {
        &self.shared
    }

    /// The units; unit 0 is main.
    pub fn units(&self) -> &[Unit]
        ensures listed { result.now ≡ self.now.units }
        ensures limits { IsWithinLimits self.now }
    {
        &self.units
    }
}

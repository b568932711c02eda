//! What is settled before code is made.

use crate::error::CodeError;
use crate::expressions::number;
use indexmap::IndexMap;
use std::alloc::Global;
use std::marker::Model;
use xk_names::Table;
use xk_tree::Name;

/// The body of an `async`.
#[derive(Drop)]
pub struct Body<'t> {
    /// Its unit.
    pub unit: u16,
    /// The numbers that it takes from outside, in the order of its parameters behind the clocks.
    pub captures: Vec<&'t [u8]>,
}

impl<'t> Model for Body<'t> {
    ghost use Rattle.std.specs.Prelude.{map};
    ghost use Rattle.xk_emit.specs.CodeOf.{Body as BodyValue};

    ghost Value = { BodyValue };

    ghost view = { λ b. record { unit = b.unit; captures = map (λ x. x.now) b.captures.items } };
}

/// What a program's shared numbers, methods and bodies of `async` are in its code.
#[derive(Drop)]
pub struct Setting<'t> {
    /// The shared numbers, by their places.
    pub shared: Table<'t, u16>,
    /// The units of methods.
    pub methods: Table<'t, u16>,
    /// The bodies of `async`, by the offsets of that word.
    pub bodies: IndexMap<usize, Body<'t>>,
}

impl<'t> Model for Setting<'t> {
    ghost use Rattle.xk_emit.specs.CodeOf.{Setting as SettingValue};

    ghost Value = { SettingValue };

    ghost view = { λ s. record {
      shared = s.shared;
      methods = s.methods;
      bodies = s.bodies.entries;
    } };
}

impl<'t> Setting<'t> {
    ghost use Rattle.std.specs.Prelude.{◌≡◌, [], Some, IsSome, IfOk, IfErr, ⊤};
    ghost use Rattle.xk_tree.specs.Tree.{word};
    ghost use Rattle.xk_names.specs.Scope.{find};
    ghost use Rattle.xk_emit.specs.CodeOf.{body_at, number_of};
    ghost use Rattle.xk_emit.specs.NameCoverage.{IsFound};
    ghost use Rattle.xk_emit.specs.Room.{Denies};

    /// A setting with no shared numbers, no methods and no bodies.
    pub fn new(alloc: Global) -> Self
        ensures { result ≡ record { shared = []; methods = []; bodies = [] } }
    {
        Setting {
            shared: Table::new(alloc),
            methods: Table::new(alloc),
            bodies: IndexMap::new(alloc),
        }
    }

    /// The place of a shared number.
    pub(crate) fn shared(&self, x: Name<'t>) -> Option<u16>
        ensures { result ≡ find self.now.shared x.entry.text.now }
    {
        self.shared.find(x.text)
    }

    /// The same of a name that has to be a shared number's.
    pub(crate) fn place(&self, x: Name<'t>) -> Result<u16, CodeError>
        ensures number { IfOk result (λ n. n ≡ number_of self.now.shared (word x.entry)) }
        ensures refused { IfErr result
            (λ e. Denies e (IsFound self.now.shared x.entry.text.now) ⊤) }
    {
        number(&self.shared, x)
    }

    /// The unit of a method.
    pub(crate) fn method(&self, f: Name<'t>) -> Result<u16, CodeError>
        ensures number { IfOk result (λ n. n ≡ number_of self.now.methods (word f.entry)) }
        ensures refused { IfErr result
            (λ e. Denies e (IsFound self.now.methods f.entry.text.now) ⊤) }
    {
        number(&self.methods, f)
    }

    /// The body of an `async`, by the offset of that word.
    pub(crate) fn body(&self, at: usize) -> Result<&Body<'t>, CodeError>
        ensures body { IfOk result (λ b. body_at self.now at ≡ Some b.now) }
        ensures refused { IfErr result (λ e. Denies e (IsSome (body_at self.now at)) ⊤) }
    {
        self.bodies.get(&at).ok_or(CodeError::Name)
    }
}

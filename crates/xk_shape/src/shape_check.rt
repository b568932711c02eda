//! Modules whose code has the shape.

ghost use Rattle.std.specs.Prelude.{◌≡◌, IfOk, IfErr};
ghost use Rattle.xk_types.specs.Code.{IsWithinLimits};
ghost use Rattle.xk_types.specs.Shape.{HasShape};
ghost use Rattle.xk_shape.specs.Fault.{Refuses};

use crate::fault::ShapeError;
use crate::rules::check_shape;
use std::alloc::Global;
use std::marker::Model;
use xk_types::Module;

/// A module whose code has the shape: no place breaks one of the rules V1 to V10.
#[derive(Drop)]
pub struct Shaped {
    checked: Module,
}

impl Model for Shaped {
    ghost use Rattle.xk_types.specs.Code.{ModuleValue};
    ghost use Rattle.xk_shape.specs.ShapeCheck.{IsShaped};

    ghost Value = { ModuleValue };

    ghost view = { λ s. s.checked };

    ghost invariant = { λ s. IsShaped s.checked };
}

/// Takes the module if its code has the shape, or gives it back with the first rule that it breaks, at the least place where
/// it does. Rules are tried in the order of their numbers. `OutOfMemory` comes only where room for the loops, finishes or homes
/// of a unit was refused.
pub fn shape(alloc: Global, m: Module) -> Result<Shaped, (Module, ShapeError)>
    ensures made { IfOk result (λ s. (s ≡ m) × HasShape m) }
    ensures refused { IfErr result (λ e. Refuses m e.1) }
    ensures handed_back { IfErr result (λ e. e.0 ≡ m) }
    ensures never_wrongly { HasShape m → IfErr result (λ e. e.1 ≡ ShapeError.OutOfMemory) }
{
    match check_shape(alloc, &m) {
        Ok(()) => Ok(Shaped { checked: m }),
        Err(error) => Err((m, error)),
    }
}

impl Shaped {
    /// The module.
    pub fn module(&self) -> &Module
        ensures same { result.now ≡ self.now }
        ensures shape { HasShape self.now }
        ensures limits { IsWithinLimits self.now }
    {
        &self.checked
    }

    /// The module.
    pub fn into_module(self) -> Module
        ensures same { result ≡ self }
        ensures shape { HasShape self }
        ensures limits { IsWithinLimits self }
    {
        self.checked
    }
}

//! Modules that were accepted.

ghost use Rattle.std.specs.Prelude.{◌≡◌, ◌↔◌, ◌<◌, ◌≤◌, length, Some, IsTrue, IfOk, IfErr};
ghost use Rattle.std.specs.List.{count_by};
ghost use Rattle.xk_types.specs.declared.rules.Kind.{Kind};
ghost use Rattle.xk_types.specs.Blocks.{takes_clock};
ghost use Rattle.xk_types.specs.Code.{IsWithinLimits, params_of};
ghost use Rattle.xk_types.specs.Shape.{HasShape};
ghost use Rattle.xk_types.specs.Bound.{steps_bound, activities_bound, clocks_bound, stack_of, stack_bound, frames_of, room_of, made_of, places_from, IsWithinBounds};
ghost use Rattle.xk_types.specs.Acceptance.{IsAccepted};
ghost use Rattle.xk_typestate.specs.KindSet.{kinds_have};
ghost use Rattle.xk_typestate.specs.Place.{visit, HasPlace, IsVisitedIn};
ghost use Rattle.xk_typestate.specs.LeastRefusal.{IsNeverRefused};
ghost use Rattle.xk_bounds.specs.Measure.{AreBounds};
ghost use Rattle.xk_bounds.specs.Refusals.{Refuses};

use crate::bounds::Bounds;
use crate::refusal::Refusal;
use crate::room::Room;
use std::alloc::Global;
use std::marker::Model;
use xk_shape::shape;
use xk_types::{Module, ParamKind, Unit};
use xk_typestate::{KindSet, Typed, check_kinds};

/// A module that the verifier accepted.
#[derive(Drop)]
pub struct Verified {
    typed: Typed,
    bounds: Bounds,
}

impl Model for Verified {
    ghost use Rattle.xk_types.specs.Code.{ModuleValue};
    ghost use Rattle.xk_bounds.specs.Measure.{IsVerified};

    ghost Value = { ModuleValue };

    ghost view = { λ v. v.typed };

    ghost invariant = { λ v. IsVerified v.typed v.bounds };
}

/// Accepts the module, or gives it back with the first rule that it breaks, at the least place where it does. Rules are
/// tried in the order of their numbers, but V11 to V13 together. `OutOfMemory` comes only where room for the loops and blocks of
/// a unit, for the kinds of its slots, for a walk, or for what the bounds are reckoned in was refused.
pub fn verify(alloc: Global, m: Module) -> Result<Verified, (Module, Refusal)>
    ensures accepted { IfOk result (λ v. (v ≡ m) × IsAccepted m) }
    ensures refused { IfErr result (λ e. (e.0 ≡ m) × Refuses m e.1) }
    ensures never_wrongly { IsAccepted m → IfErr result (λ e. e.1 ≡ Refusal.OutOfMemory) }
{
    let shaped = match shape(alloc, m) {
        Ok(shaped) => shaped,
        Err((m, error)) => return Err((m, error.into())),
    };
    let typed = match check_kinds(alloc, shaped) {
        Ok(typed) => typed,
        Err((shaped, error)) => return Err((shaped.into_module(), error.into())),
    };
    match measure(alloc, typed.module()) {
        Ok(bounds) => Ok(Verified { typed, bounds }),
        Err(refusal) => Err((typed.into_module(), refusal)),
    }
}

/// Measures the bounds, and tries the rules on them.
fn measure(alloc: Global, m: &Module) -> Result<Bounds, Refusal>
    requires shape { HasShape m.now }
    requires kinds { IsNeverRefused m.now }
    ensures within { IfOk result (λ b. IsWithinBounds m.now × AreBounds m.now b) }
    ensures refused { IfErr result (Refuses m.now) }
{
    let bounds = Bounds::of(alloc, m)?;
    bounds.check().map_err(Refusal::Bound)?;
    Ok(bounds)
}

impl Verified {
    /// The module that was accepted.
    pub fn module(&self) -> &Module
        ensures same { result.now ≡ self.now }
        ensures accepted { IsAccepted self.now }
        ensures limits { IsWithinLimits self.now }
    {
        self.typed.module()
    }

    /// How many numbers its main takes.
    pub fn arguments(&self) -> u32
        ensures { result ≡ length (params_of self.now 0) }
    {
        let program = self.module();
        let main = &program.units()[0];
        main.params.len() as u32
    }

    /// The kinds that the slot may have before the instruction: those that walks end with there.
    pub fn kinds(&self, unit: u16, at: u16, slot: u16) -> KindSet
        requires { HasPlace self.now unit at slot }
        ensures { (k : Kind)
            → IsTrue (kinds_have result k) ↔ IsVisitedIn self.now unit slot (visit at k) }
    {
        self.typed.kinds(unit, at, slot)
    }

    /// The most steps of a run: at most 1,000,000,000.
    pub fn steps(&self) -> u64
        ensures { result ≡ steps_bound self.now }
    {
        self.bounds.steps
    }

    /// The most activities of a run, main among them: at most 100,000.
    pub fn activities(&self) -> u32
        ensures { result ≡ activities_bound self.now }
    {
        self.bounds.activities
    }

    /// The most clocks of a run: at most 100,000.
    pub fn clocks(&self) -> u32
        ensures { result ≡ clocks_bound self.now }
    {
        self.bounds.clocks
    }

    /// The most slots in the frames of one activity: at most 4,096.
    pub fn stack(&self) -> u32
        ensures { result ≡ stack_bound self.now }
    {
        self.bounds.stack
    }

    /// At most so much an activity has at once to run this unit, and what it calls.
    pub fn room(&self, unit: u16) -> Room
        requires { unit < length self.now.units }
        ensures slots { result.slots ≡ stack_of self.now unit }
        ensures frames { result.frames ≡ frames_of self.now unit }
        ensures finishes { result.finishes ≡ room_of self.now unit }
        ensures made { result.made ≡ made_of self.now unit }
    {
        self.bounds.rooms[unit as usize]
    }

    /// An activity that begins with this unit is registered on at most so many clocks at once.
    pub fn places(&self, unit: u16) -> u32
        requires { unit < length self.now.units }
        ensures { result ≡ places_from self.now unit }
    {
        let given = clocks_given(&self.module().units()[unit as usize]);
        let most = given + self.room(unit).made;
        most.min(self.clocks())
    }
}

/// How many clocks a unit is given.
fn clocks_given(u: &Unit) -> u32
    requires { length u.now.params ≤ 64 }
    ensures given { result ≡ count_by (λ p. takes_clock (Some p)) u.now.params }
    ensures few { result ≤ 64 }
{
    u.params.iter().filter(|kind| takes_clock(kind)).count() as u32
}

/// Whether the parameter takes a clock.
fn takes_clock(kind: &ParamKind) -> bool
    ensures { result ≡ takes_clock (Some kind.now) }
{
    matches!(kind, ParamKind::Clock)
}

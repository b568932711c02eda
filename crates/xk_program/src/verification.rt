//! A module that is to be run, before it is run.

ghost use Rattle.std.specs.Prelude.{◌≡◌, IfOk, IfErr, OnOk};
ghost use Rattle.xk_types.specs.Acceptance.{IsAccepted};
ghost use Rattle.xk_types.specs.World.{AreArguments};
ghost use Rattle.xk_program.specs.Refusals.{IsNotRun, IsRefusal};

use crate::fault::Fault;
use std::alloc::Global;
use xk_bounds::{Verified, verify};
use xk_types::Module;

/// The module, if the verifier accepts it and its main takes as many numbers as it is given (A1).
pub fn runnable(alloc: Global, m: Module, arguments: &[i64]) -> Result<Verified, Fault>
    ensures accepted { IfOk result (λ v. (v ≡ m) × IsAccepted m) }
    ensures taken { OnOk result (AreArguments m arguments.now) }
    ensures refused { IfErr result (IsNotRun m arguments.now) }
{
    let verified = accepted(alloc, m)?;
    let wants = verified.arguments();
    let has = arguments.len();
    if wants as usize != has {
        return Err(Fault::Arguments { wants, has });
    }
    Ok(verified)
}

/// The module, if the verifier accepts it.
pub fn accepted(alloc: Global, m: Module) -> Result<Verified, Fault>
    ensures accepted { IfOk result (λ v. (v ≡ m) × IsAccepted m) }
    ensures refused { IfErr result (IsRefusal m) }
{
    Ok(verify(alloc, m)?)
}

//! Module text.

ghost use Rattle.std.specs.Prelude.{◌<◌, length, IfOk, IsErrOf};
ghost use Rattle.serde_json.specs.View.{view};
ghost use Rattle.xk_types.specs.Code.{ModuleValue, IsWithinLimits};
ghost use Rattle.xk_module.specs.ModuleText.{IsText, IsJson, IsModuleText};

use crate::fault::ModuleFault;
use crate::reading::module;
use serde_json::Value;
use std::alloc::Global;
use xk_types::Module;

/// Reads a module from its text, which is one JSON object in UTF-8 with the keys `version` (the number 1 or 2), `shared` (an
/// array of whole numbers of 64 bits, signed) and `units` (an array of objects), and no other. A unit has the keys `kind`
/// (`"main"`, `"method"` or `"body"`), `params` (a letter for each parameter, `n` for a number and `c` for a clock),
/// `slots` (0 to 65,535) and `code`, and no other. The code is an array of instructions, and an instruction an array of its
/// name and its operands: `["lit",d,n]`, `["copy",d,a]`, `["add",d,a,b]`, `["sub",d,a,b]`, `["mul",d,a,b]`,
/// `["unless",op,a,b,t]`, `["jump",t]`, `["for",k,lo,hi,e]`, `["forto",k,lo,x,hi,e]` (where the version is 2), `["next",b]`, `["finish",e]`, `["endfinish",b]`, `["get",d,s]`,
/// `["put",s,a]`, `["addto",s,a]`, `["print",a]`, `["make",k]`, `["resume",k]`, `["drop",k]`, `["advance"]`,
/// `["call",u,[x,..]]`, `["spawn",u,[x,..]]`, `["ret"]`. Here n, lo and hi are whole numbers of 64 bits, signed, and op is one
/// of `"eq"`, `"ne"`, `"lt"`, `"le"`, `"gt"` and `"ge"`; t, e and what `next` and `endfinish` have are places in the code, s is
/// a shared number by its place, u is a unit, and the others are slots, all four from 0 to 65,535. The array of a `call` or a
/// `spawn` has the slots of its arguments, in order.
///
/// Keys come in any order, and white space is free; of a key that comes twice the last value counts. `1.0`, `1e0` and `-0` are
/// no whole numbers. The limits of a module count only where the whole value fits.
///
/// What goes wrong is a `ModuleFault`. `OutOfMemory` is meant for a refused growth alone.
pub fn read_module(alloc: Global, bytes: &[u8]) -> Result<Module, ModuleFault>
    ensures read { IfOk result (IsModuleText bytes.now) }
    ensures limits { IfOk result IsWithinLimits }

    // What each error says. Memory isn't refused for an empty text.
    ensures not_json { IsErrOf result ModuleFault.NotJson → ¬ IsJson bytes.now }
    ensures not_a_module { IsErrOf result ModuleFault.NotAModule
        → IsJson bytes.now × ((m : ModuleValue) → ¬ IsModuleText bytes.now m) }
    ensures beyond_limits { IsErrOf result ModuleFault.Limit
        → (m : ModuleValue) × IsModuleText bytes.now m × ¬ IsWithinLimits m }
    ensures memory { IsErrOf result ModuleFault.OutOfMemory → 0 < length bytes.now }
{
    let value = json(alloc, bytes)?;
    let (shared, units) = module(alloc, &value)?;
    match Module::new(shared, units) {
        Ok(module) => Ok(module),
        Err(_) => Err(ModuleFault::Limit),
    }
}

/// Reads a JSON value. Its only faults are `NotJson` and `OutOfMemory`.
fn json(alloc: Global, bytes: &[u8]) -> Result<Value, ModuleFault>
    ensures read { IfOk result (λ value. IsText bytes.now (view value)) }
    ensures not_json { IsErrOf result ModuleFault.NotJson → ¬ IsJson bytes.now }
    ensures not_a_module { ¬ IsErrOf result ModuleFault.NotAModule }
    ensures limit { ¬ IsErrOf result ModuleFault.Limit }
    ensures memory { IsErrOf result ModuleFault.OutOfMemory → 0 < length bytes.now }
{
    match Value::from_slice(alloc, bytes) {
        Ok(value) => Ok(value),
        Err(e) if e.is_memory() => Err(ModuleFault::OutOfMemory),
        Err(_) => Err(ModuleFault::NotJson),
    }
}

//! A module, as text, and the beginning of its run.

ghost use Rattle.std.specs.Prelude.{◌≡◌, IfOk};

use std::alloc::Global;
use std::test::Fail;
use xk_bounds::{Verified, verify};
use xk_core::Core;
use xk_module::read_module;
use xk_types::Module;

/// Main and the activity that it starts add two numbers each, and print the sum.
pub const TWO_SUMS: &str =
    r#"{"version":1,"shared":[],"units":[{"kind":"main","params":"","slots":2,"code":[["spawn",1,[]],["lit",0,2],["lit",1,3],["add",0,0,1],["print",0],["ret"]]},{"kind":"body","params":"","slots":2,"code":[["lit",0,2],["lit",1,3],["add",0,0,1],["print",0],["ret"]]}]}"#;

/// The module that a text names.
fn module(alloc: Global, text: &str) -> Result<Module, Fail> {
    match read_module(alloc, text.as_bytes()) {
        Ok(program) => Ok(program),
        Err(_) => Err("a text is no module".into()),
    }
}

/// The module that a text names, verified.
pub fn accepted(alloc: Global, text: &str) -> Result<Verified, Fail> {
    match verify(alloc, module(alloc, text)?) {
        Ok(verified) => Ok(verified),
        Err(_) => Err("a module is refused".into()),
    }
}

/// The core of a module before its first step, main being given these numbers.
pub fn opened<'m>(
    alloc: Global,
    verified: &'m Verified,
    arguments: &[i64],
) -> Result<Core<'m>, &'static str>
    ensures { IfOk result (λ core. core.world.steps ≡ 0) }
{
    if verified.arguments() as usize != arguments.len() {
        return Err("main takes another number of arguments");
    }
    match Core::open(alloc, verified, arguments) {
        Ok(core) => Ok(core),
        Err(_) => Err("out of memory"),
    }
}

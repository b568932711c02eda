//! Reading and verifying, each tried again where memory was refused.

ghost use Rattle.std.specs.Prelude.{OnOk};
ghost use Rattle.xk_types.specs.World.{AreArguments};

use std::alloc::Global;
use xk_bounds::{Refusal, Verified, verify};
use xk_module::{ModuleFault, read_module};
use xk_types::{Module, Sink, Source, Tape};

/// What went wrong.
#[derive(Drop)]
pub struct Wrong(pub &'static str);

pub fn holds(fact: bool, otherwise: &'static str) -> Result<(), Wrong> {
    if fact { Ok(()) } else { Err(Wrong(otherwise)) }
}

/// What a text names, at the second try where memory was refused.
fn read(alloc: Global, text: &str) -> Result<Module, ModuleFault> {
    match read_module(alloc, text.as_bytes()) {
        Err(ModuleFault::OutOfMemory) => read_module(alloc, text.as_bytes()),
        answer => answer,
    }
}

/// The module that a text names.
fn module(alloc: Global, text: &str) -> Result<Module, Wrong> {
    match read(alloc, text) {
        Ok(program) => Ok(program),
        Err(_) => Err(Wrong("a module isn't read at the second try")),
    }
}

/// Verifies a module, at the second try, with what came back, where memory was refused.
pub fn checked(alloc: Global, program: Module) -> Result<Verified, (Module, Refusal)> {
    match verify(alloc, program) {
        Err((same, Refusal::OutOfMemory)) => verify(alloc, same),
        answer => answer,
    }
}

/// A module that breaks a rule is refused for that.
pub fn is_refused(alloc: Global, text: &str) -> Result<(), Wrong> {
    match checked(alloc, module(alloc, text)?) {
        Ok(_) => Err(Wrong("a module is accepted that breaks a rule")),
        Err((_, refusal)) => holds(
            !matches!(refusal, Refusal::OutOfMemory),
            "a module isn't refused at the second try",
        ),
    }
}

/// A module that breaks no rule.
pub fn accepted(alloc: Global, text: &str) -> Result<Verified, Wrong> {
    match checked(alloc, module(alloc, text)?) {
        Ok(verified) => Ok(verified),
        Err(_) => Err(Wrong("a module isn't accepted at the second try")),
    }
}

/// Main takes as many numbers as it is given.
pub fn fits(verified: &Verified, arguments: &[i64]) -> Result<(), Wrong>
    ensures { OnOk result (AreArguments verified.now arguments.now) }
{
    if verified.arguments() as usize != arguments.len() {
        return Err(Wrong("main takes another number of arguments"));
    }
    Ok(())
}

/// A tape is read and written.
fn is_used(tape: &mut Tape) -> Result<(), Wrong> {
    let mut buf = [0u8; 4];
    holds(tape.read(&mut buf) == Ok(2), "a tape is read otherwise")?;
    let is_written = tape.write(b"out") == Ok(3) || tape.write(b"out") == Ok(3);
    holds(is_written, "a tape isn't written at the second try")
}

/// A tape is made, and used.
pub fn on_tape(alloc: Global) -> Result<(), Wrong> {
    let made = match Tape::new(alloc, b"in") {
        Err(_) => Tape::new(alloc, b"in"),
        answer => answer,
    };
    match made {
        Ok(mut tape) => is_used(&mut tape),
        Err(_) => Err(Wrong("a tape isn't made at the second try")),
    }
}

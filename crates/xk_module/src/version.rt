//! Versions of module text.

ghost use Rattle.std.specs.Prelude.{◌≡◌};
ghost use Rattle.std.specs.List.{list_any};
ghost use Rattle.xk_module.specs.ModuleText.{version_number, is_forto, has_forto, takes_arguments, knows, version_of};

use xk_types::{Instr, Module, Unit};

/// A version of module text.
#[derive(Clone, Copy)]
pub(crate) enum Version {
    /// The first, without `forto`.
    One,
    /// All that there is.
    Two,
}

impl Version {
    /// The number that a text has for it.
    pub(crate) fn number(self) -> u16
        ensures { result ≡ version_number self }
    {
        match self {
            Version::One => 1,
            Version::Two => 2,
        }
    }

    /// Whether a text of it can have these units.
    pub(crate) fn knows(self, units: &[Unit]) -> bool
        ensures { result ≡ knows self units.now }
    {
        match self {
            Version::One => !has_forto(units),
            Version::Two => true,
        }
    }
}

/// Whether an instruction is a `forto`, which version 1 doesn't have.
fn is_forto(instr: &Instr) -> bool
    ensures { result ≡ is_forto instr.now }
{
    matches!(instr, Instr::ForTo { .. })
}

/// Whether one of these is a `forto`.
fn any_forto(code: &[Instr]) -> bool
    ensures { result ≡ list_any is_forto code.now }
{
    code.iter().any(|instr| is_forto(instr))
}

/// Whether one of these units has a `forto`.
fn has_forto(units: &[Unit]) -> bool
    ensures { result ≡ has_forto units.now }
{
    units.iter().any(|unit| any_forto(&unit.code))
}

/// Whether main, the first of these units, has parameters.
fn takes_arguments(units: &[Unit]) -> bool
    ensures { result ≡ takes_arguments units.now }
{
    match units {
        [main, ..] => main.params.len() != 0,
        [] => false,
    }
}

/// The version that a module is written in: the first that can say what it says.
pub(crate) fn version_of(m: &Module) -> Version
    ensures { result ≡ version_of m.now }
{
    if has_forto(m.units()) || takes_arguments(m.units()) {
        Version::Two
    } else {
        Version::One
    }
}

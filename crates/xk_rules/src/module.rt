//! The pages on module texts. (tests/prover/rule_pages.py writes this file, from docs/REFUSALS.md.)

ghost use Rattle.std.specs.Prelude.{◌≡◌};
ghost use Rattle.xk_rules.specs.Module.{module_page, m1, m2, m3};

use crate::page::RulePage;

/// The page on a rule on module texts; of others none is here.
pub(crate) fn module_page(page: RulePage, other: &'static str) -> &'static str
    ensures { result.now ≡ module_page page other.now }
{
    match page {
        RulePage::NotJson => m1(),
        RulePage::NotAModule => m2(),
        RulePage::Limit => m3(),
        _ => other,
    }
}

/// The page on M1.
#[tactic(auto, unfolding(crate::specs::Module::m1))]
fn m1() -> &'static str
    ensures { result.now ≡ m1 }
{
    r#"M1 NotJson

check --module: x10clock: M1 NotJson

    {"version":1,"shared":[],"units":[{"kind":"main","params":"","slots":0,"code":[["ret"]]}]

The bytes are no JSON value that is read: here a `}` is missing at the end.
Values nested more than 127 deep, and numbers beyond a float's range, aren't
read either. Perhaps the file is a source text: leave `--module` out.

check --module: accepted steps 1 activities 1 clocks 0

    {"version":1,"shared":[],"units":[{"kind":"main","params":"","slots":0,"code":[["ret"]]}]}
"#
}

/// The page on M2.
#[tactic(auto, unfolding(crate::specs::Module::m2))]
fn m2() -> &'static str
    ensures { result.now ≡ m2 }
{
    r#"M2 NotAModule

check --module: x10clock: M2 NotAModule

    {"version":1,"shared":[],"units":[{"kind":"main","params":"","slots":1,"code":[["print"],["ret"]]}]}

The value isn't a module: a key is missing or is one too many, an instruction
isn't known or has more or fewer operands, a number isn't whole, the version is
neither 1 nor 2. Here `print` wants a slot. And here the version is 1, which has
no `forto`; with `"version":2` this module is accepted:

check --module: x10clock: M2 NotAModule

    {"version":1,"shared":[],"units":[
      {"kind":"main","params":"n","slots":2,"code":[["forto",1,1,0,3,1],["next",0],["ret"]]}]}

check --module: accepted steps 5 activities 1 clocks 0
run --module --arg 2: ended steps 4

    {"version":2,"shared":[],"units":[
      {"kind":"main","params":"n","slots":2,"code":[["forto",1,1,0,3,1],["next",0],["ret"]]}]}
"#
}

/// The page on M3.
#[tactic(auto, unfolding(crate::specs::Module::m3))]
fn m3() -> &'static str
    ensures { result.now ≡ m3 }
{
    r#"M3 Limit

check --module: x10clock: M3 Limit

    {"version":1,"shared":[],"units":[{"kind":"main","params":"","slots":65,"code":[["ret"]]}]}

A table is too long: see F14. A unit has no more parameters than slots. A text
of more than 268,435,456 bytes is too long, whatever it says; no more of it is
read.

check --module: accepted steps 1 activities 1 clocks 0

    {"version":1,"shared":[],"units":[{"kind":"main","params":"","slots":64,"code":[["ret"]]}]}
"#
}

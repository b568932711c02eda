//! The usual repair of each rule on source texts.

ghost use Rattle.std.specs.Prelude.{◌≡◌};
ghost use Rattle.xk_explain_repairs.specs.Rules.{front_repair};

use xk_tree::FrontRule;

/// The usual repair of a text that breaks a rule, whatever stands there.
pub fn front_repair(rule: FrontRule) -> &'static str
    ensures { result.now ≡ front_repair rule }
{
    match rule {
        FrontRule::Token =>
            "names and numbers are of letters, digits and `_` of ASCII; a `/*` needs its `*/`",
        FrontRule::Syntax => "look right before it for what is missing, as a `;`, a `)` or a `}`",
        FrontRule::TooDeep =>
            "move a part into a method, or name a part of the expression by a `val`",
        FrontRule::TooLong =>
            "write a shorter one: a method is written once, however often it is called",
        FrontRule::UnknownName =>
            "look for another spelling, or declare it before it is used, and further out, as by `var n = 0;`",
        FrontRule::DuplicateName => "take another name",
        FrontRule::WrongKind =>
            "a parameter that is a clock is given a clock, by its name alone, and one that is a number is given no clock",
        FrontRule::NotCaptured =>
            "hand a clock on by `async clocked (c)`; in place of a `var` take a `val` of it before the `async`, or a shared number",
        FrontRule::NoMain =>
            "write `def main() { .. }`: it takes numbers alone, and makes its clocks",
        FrontRule::Recursive =>
            "say by a `for` how often something is done, or write a method for each level",
        FrontRule::Arity => "give one argument for each parameter, in their order",
        FrontRule::SameClockTwice => "name each clock once",
        FrontRule::Literal => "a number is from -9223372036854775808 to 9223372036854775807",
        FrontRule::Table => "move a part into a method of its own",
        FrontRule::NoHiddenClock =>
            "put a `clocked finish` around it, with no `finish` or `async` without a clock between them; or name a clock: `async clocked (c)`",
    }
}

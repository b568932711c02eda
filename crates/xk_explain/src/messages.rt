//! What is said of each rule that is broken: what is wrong, and how it is usually repaired.

ghost use Rattle.std.specs.Prelude.{◌≡◌};
ghost use Rattle.xk_explain.specs.Messages.{front_message, kind_message, module_message, module_repair};
ghost use Rattle.xk_explain.specs.Messages.{rule_message, rule_repair, source_message};

use crate::module_rule::ModuleRule;
use xk_tree::FrontRule;
use xk_types::{Kind, Rule};

/// What is wrong with a text.
pub fn front_message(rule: FrontRule) -> &'static str
    ensures { result.now ≡ front_message rule }
{
    match rule {
        FrontRule::Token => "no token begins here, or a comment isn't closed",
        FrontRule::Syntax => "this can't stand here",
        FrontRule::TooDeep =>
            "more than 64 statements, parentheses and negations in one another, or 64 operators in one expression",
        FrontRule::TooLong => "the text has more than 1048576 bytes",
        FrontRule::UnknownName => "no such name is visible here, or there is no such method",
        FrontRule::DuplicateName => "this name is visible here already, or another method has it",
        FrontRule::WrongKind => "something of another kind is wanted here",
        FrontRule::NotCaptured => "the body of an `async` doesn't see this name from outside",
        FrontRule::NoMain => "there is no method `main`, or one of its parameters is a clock",
        FrontRule::Recursive =>
            "this call comes back to the method that it stands in, or calls `main`",
        FrontRule::Arity => "the method has more or fewer parameters than this call has arguments",
        FrontRule::SameClockTwice => "this clock is given twice",
        FrontRule::Literal => "this number begins with a needless 0, or has more than 64 bits",
        FrontRule::Table =>
            "too many shared numbers (over 256), units (over 1024), or in one unit slots (over 64), instructions (over 4096) or arguments (over 64)",
        FrontRule::NoHiddenClock => "no `clocked finish` has its clock here",
    }
}

/// What is wrong with a program.
pub fn rule_message(rule: Rule) -> &'static str
    ensures { result.now ≡ rule_message rule }
{
    match rule {
        Rule::Target =>
            "a jump, or the end of a loop or a finish, doesn't lie ahead and inside the code, or the beginning of one doesn't lie before",
        Rule::Block =>
            "a loop or a finish isn't paired with its end, overlaps another one in part, or is jumped into or out of",
        Rule::Slot => "the unit has no such slot",
        Rule::Unit =>
            "the unit that is called or started doesn't fit, or main isn't unit 0 alone, or main takes a clock",
        Rule::Cell => "there is no such shared number",
        Rule::Loop =>
            "the loop's bounds aren't in order, or its slot is its limit, or one of them is written inside of it",
        Rule::End => "the last instruction isn't `ret`, or another one is",
        Rule::Home =>
            "a method drops a clock that it is lent, or one is made in a parameter, or a slot takes its clocks in more than one block",
        Rule::Registers =>
            "a clock is handed on inside a finish and made outside of it, or the other way round",
        Rule::SameClock => "one clock is handed on twice",
        Rule::Use => "a slot may hold something else here than what is wanted",
        Rule::Held => "the finish that the clock is made in ends while it is still held",
        Rule::Leak => "a clock is lost that is still held",
        Rule::Steps => "a run may take too many steps",
        Rule::Activities => "a run may start too many activities",
        Rule::Clocks => "a run may make too many clocks",
        Rule::Stack => "methods that call one another have too many slots together",
    }
}

/// What is wrong with the program of a source text, which has no slots.
pub fn source_message(rule: Rule) -> &'static str
    ensures { result.now ≡ source_message rule }
{
    match rule {
        Rule::Home =>
            "a method drops a clock that it is lent, or one is made under a name that has another",
        Rule::Use => "a clock may be used that the activity isn't registered on",
        _ => rule_message(rule),
    }
}

/// The usual repair of a program.
pub fn rule_repair(rule: Rule) -> &'static str
    ensures { result.now ≡ rule_repair rule }
{
    match rule {
        Rule::Target =>
            "let it name a place behind the instruction, and before the code's end; where a loop or a finish begins lies before it",
        Rule::Block =>
            "let the two name each other, and jumps go no further than to the `next` or the `endfinish`",
        Rule::Slot => "slots are counted from 0; give the unit more of them",
        Rule::Unit =>
            "call a method, start a body, of greater number, with as many arguments as it has parameters",
        Rule::Cell => "shared numbers are counted from 0; add one",
        Rule::Loop => "let the lower bound come first, and take another slot inside of the loop",
        Rule::End => "end the code with `ret`, and jump to it from elsewhere",
        Rule::Home => "let the caller drop it; in a module, make each clock in a slot of its own",
        Rule::Registers =>
            "make the clock in the finish and drop it before its end, as `clocked finish` does; or hand it on outside of the finish",
        Rule::SameClock => "name each clock once",
        Rule::Use => "drop a clock once, behind its last use, in the block of its `val` or `async`",
        Rule::Held =>
            "drop it before the end of the finish, on every way; the clock of a `clocked finish` needs no drop",
        Rule::Leak => "drop it before it is made anew, and before the end of the method",
        Rule::Steps => "loops in one another multiply their turns: have fewer, or smaller bounds",
        Rule::Activities =>
            "start fewer, each with more to do: an `async` in a loop counts in each turn",
        Rule::Clocks => "make the clock outside of the loop: it can be used in many phases",
        Rule::Stack => "call them one after another, or give the inner ones fewer names",
    }
}

/// What a slot of a kind holds.
pub fn kind_message(kind: Kind) -> &'static str
    ensures { result.now ≡ kind_message kind }
{
    match kind {
        Kind::Unset => "nothing",
        Kind::Number => "a number",
        Kind::Live => "a clock, registered",
        Kind::Resumed => "a clock, registered and resumed",
        Kind::Out => "a clock, dropped",
    }
}

/// What is wrong with the bytes of a module.
pub fn module_message(rule: ModuleRule) -> &'static str
    ensures { result.now ≡ module_message rule }
{
    match rule {
        ModuleRule::NotJson => "this is no JSON text",
        ModuleRule::NotAModule => "this is JSON, and names no module",
        ModuleRule::Limit => "the module goes beyond a limit",
    }
}

/// The usual repair of a module's bytes.
pub fn module_repair(rule: ModuleRule) -> &'static str
    ensures { result.now ≡ module_repair rule }
{
    match rule {
        ModuleRule::NotJson =>
            "`x10clock compile` prints modules as they are read; without --module a file is a source text",
        ModuleRule::NotAModule => "`x10clock compile` prints modules as they are read",
        ModuleRule::Limit =>
            "it has 1 to 1024 units of 64 slots, 4096 instructions and 64 arguments at most, and 256 shared numbers",
    }
}

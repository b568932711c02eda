//! The verifier's rules, and the kinds that it follows slots by.

ghost use Rattle.std.specs.Prelude.{◌≡◌};
ghost use Rattle.xk_types.specs.RuleNames.{rule_number, rule_name, kind_name};

/// A rule of the verifier. Rules are tried in the order of their numbers, V1 to V17; the first ten are about the shape
/// of the code, the next three about the kinds of slots, the last four about bounds.
#[derive(Clone, Copy, Debug, PartialEq, Eq)]
pub enum Rule {
    /// V1: where jumps go, and where loops and finishes end, lies ahead and inside the code; where they begin lies behind.
    Target,
    /// V2: loops and blocks are paired, nest or lie apart, and no jump crosses their edge.
    Block,
    /// V3: every slot that an instruction names is one of the unit's.
    Slot,
    /// V4: unit 0 is the only main and takes no clock; a unit that is called or started fits.
    Unit,
    /// V5: every shared number named exists.
    Cell,
    /// V6: a loop's bounds are in order, its slot isn't its limit, and nothing inside it writes either.
    Loop,
    /// V7: the last instruction is `ret`, and no other is.
    End,
    /// V8: all that make the clock of one slot stand in one block; no parameter is made, and no method drops a clock that it was
    /// lent.
    Home,
    /// V9: a clock is handed on only in the block that is its home.
    Registers,
    /// V10: no slot stands twice among the clocks that are handed on.
    SameClock,
    /// V11: a slot is used as what it isn't.
    Use,
    /// V12: a clock is held at the end of its home.
    Held,
    /// V13: a clock that is held is lost.
    Leak,
    /// V14: too many steps.
    Steps,
    /// V15: too many activities.
    Activities,
    /// V16: too many clocks.
    Clocks,
    /// V17: too many slots in the frames of one activity.
    Stack,
}

impl Rule {
    /// The number, from 1 to 17: `V9` is the rule with the number 9.
    pub fn number(self) -> u8
        ensures { result ≡ rule_number self }
    {
        match self {
            Rule::Target => 1,
            Rule::Block => 2,
            Rule::Slot => 3,
            Rule::Unit => 4,
            Rule::Cell => 5,
            Rule::Loop => 6,
            Rule::End => 7,
            Rule::Home => 8,
            Rule::Registers => 9,
            Rule::SameClock => 10,
            Rule::Use => 11,
            Rule::Held => 12,
            Rule::Leak => 13,
            Rule::Steps => 14,
            Rule::Activities => 15,
            Rule::Clocks => 16,
            Rule::Stack => 17,
        }
    }

    /// The name that a refusal prints behind the number.
    pub fn name(self) -> &'static str
        ensures { result.now ≡ rule_name self }
    {
        match self {
            Rule::Target => "Target",
            Rule::Block => "Block",
            Rule::Slot => "Slot",
            Rule::Unit => "Unit",
            Rule::Cell => "Cell",
            Rule::Loop => "Loop",
            Rule::End => "End",
            Rule::Home => "Home",
            Rule::Registers => "Registers",
            Rule::SameClock => "SameClock",
            Rule::Use => "Use",
            Rule::Held => "Held",
            Rule::Leak => "Leak",
            Rule::Steps => "Steps",
            Rule::Activities => "Activities",
            Rule::Clocks => "Clocks",
            Rule::Stack => "Stack",
        }
    }
}

/// What a walk knows of a slot. This project's own, as the rules are.
#[derive(Clone, Copy, Debug, PartialEq, Eq)]
pub enum Kind {
    /// Nothing was written to it.
    Unset,
    /// It holds a number.
    Number,
    /// It names a clock on which the activity is open: not resumed since its last pass, or since it was registered.
    Live,
    /// It names a clock on which the activity is signalled or ahead: resumed, and not passed since.
    Resumed,
    /// It names a clock on which the activity isn't registered any more.
    Out,
}

impl Kind {
    /// The name that a refusal prints.
    pub fn name(self) -> &'static str
        ensures { result.now ≡ kind_name self }
    {
        match self {
            Kind::Unset => "unset",
            Kind::Number => "number",
            Kind::Live => "live",
            Kind::Resumed => "resumed",
            Kind::Out => "out",
        }
    }
}

/// One stop of a walk: an instruction, and the kind of the walk's slot before it.
#[derive(Clone, Copy, Debug, PartialEq, Eq)]
pub struct Visit {
    /// The instruction's number in the unit's code.
    pub at: u16,
    /// What the slot may hold before it.
    pub kind: Kind,
}

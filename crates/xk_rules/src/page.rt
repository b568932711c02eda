//! The rules that have a page, and their codes. (tests/prover/rule_pages.py writes this file, from docs/REFUSALS.md.)

ghost use Rattle.std.specs.Prelude.{◌≡◌, Some};
ghost use Rattle.xk_rules.specs.Codes.{page_code, page_named, module_named, verifier_named, run_named};

/// A rule that has a page.
#[derive(Clone, Copy, Debug, PartialEq, Eq)]
pub enum RulePage {
    /// F1.
    Token,
    /// F2.
    Syntax,
    /// F3.
    TooDeep,
    /// F4.
    TooLong,
    /// F5.
    UnknownName,
    /// F6.
    DuplicateName,
    /// F7.
    WrongKind,
    /// F8.
    NotCaptured,
    /// F9.
    NoMain,
    /// F10.
    Recursive,
    /// F11.
    Arity,
    /// F12.
    SameClockTwice,
    /// F13.
    Literal,
    /// F14.
    Table,
    /// F15.
    NoHiddenClock,
    /// M1.
    NotJson,
    /// M2.
    NotAModule,
    /// M3.
    Limit,
    /// V1.
    Target,
    /// V2.
    Block,
    /// V3.
    Slot,
    /// V4.
    Unit,
    /// V5.
    Cell,
    /// V6.
    Loop,
    /// V7.
    End,
    /// V8.
    Home,
    /// V9.
    Registers,
    /// V10.
    SameClock,
    /// V11.
    Use,
    /// V12.
    Held,
    /// V13.
    Leak,
    /// V14.
    Steps,
    /// V15.
    Activities,
    /// V16.
    Clocks,
    /// V17.
    Stack,
    /// A1.
    Arguments,
    /// L1.
    Grammar,
    /// L2.
    Truncated,
    /// L3.
    Device,
    /// L4.
    NotEnabled,
    /// L5.
    NotEnded,
    /// L6.
    NoOutcome,
}

impl RulePage {
    /// Its code, as `V9`, by which it is found.
    pub fn code(self) -> &'static str
        ensures code { result.now ≡ page_code self }
        ensures found { page_named (page_code self) ≡ Some self }
    {
        match self {
            RulePage::Token => "F1",
            RulePage::Syntax => "F2",
            RulePage::TooDeep => "F3",
            RulePage::TooLong => "F4",
            RulePage::UnknownName => "F5",
            RulePage::DuplicateName => "F6",
            RulePage::WrongKind => "F7",
            RulePage::NotCaptured => "F8",
            RulePage::NoMain => "F9",
            RulePage::Recursive => "F10",
            RulePage::Arity => "F11",
            RulePage::SameClockTwice => "F12",
            RulePage::Literal => "F13",
            RulePage::Table => "F14",
            RulePage::NoHiddenClock => "F15",
            RulePage::NotJson => "M1",
            RulePage::NotAModule => "M2",
            RulePage::Limit => "M3",
            RulePage::Target => "V1",
            RulePage::Block => "V2",
            RulePage::Slot => "V3",
            RulePage::Unit => "V4",
            RulePage::Cell => "V5",
            RulePage::Loop => "V6",
            RulePage::End => "V7",
            RulePage::Home => "V8",
            RulePage::Registers => "V9",
            RulePage::SameClock => "V10",
            RulePage::Use => "V11",
            RulePage::Held => "V12",
            RulePage::Leak => "V13",
            RulePage::Steps => "V14",
            RulePage::Activities => "V15",
            RulePage::Clocks => "V16",
            RulePage::Stack => "V17",
            RulePage::Arguments => "A1",
            RulePage::Grammar => "L1",
            RulePage::Truncated => "L2",
            RulePage::Device => "L3",
            RulePage::NotEnabled => "L4",
            RulePage::NotEnded => "L5",
            RulePage::NoOutcome => "L6",
        }
    }
}

/// The rule of this code, letter for letter.
pub(crate) fn page_named(code: &str) -> Option<RulePage>
    ensures { result ≡ page_named code.now }
{
    match code {
        "F1" => Some(RulePage::Token),
        "F2" => Some(RulePage::Syntax),
        "F3" => Some(RulePage::TooDeep),
        "F4" => Some(RulePage::TooLong),
        "F5" => Some(RulePage::UnknownName),
        "F6" => Some(RulePage::DuplicateName),
        "F7" => Some(RulePage::WrongKind),
        "F8" => Some(RulePage::NotCaptured),
        "F9" => Some(RulePage::NoMain),
        "F10" => Some(RulePage::Recursive),
        "F11" => Some(RulePage::Arity),
        "F12" => Some(RulePage::SameClockTwice),
        "F13" => Some(RulePage::Literal),
        "F14" => Some(RulePage::Table),
        "F15" => Some(RulePage::NoHiddenClock),
        _ => module_named(code),
    }
}

/// The rule on module texts of this code, or on what comes behind them, letter for letter.
pub(crate) fn module_named(code: &str) -> Option<RulePage>
    ensures { result ≡ module_named code.now }
{
    match code {
        "M1" => Some(RulePage::NotJson),
        "M2" => Some(RulePage::NotAModule),
        "M3" => Some(RulePage::Limit),
        _ => verifier_named(code),
    }
}

/// The rule on programs of this code, or on what comes behind them, letter for letter.
pub(crate) fn verifier_named(code: &str) -> Option<RulePage>
    ensures { result ≡ verifier_named code.now }
{
    match code {
        "V1" => Some(RulePage::Target),
        "V2" => Some(RulePage::Block),
        "V3" => Some(RulePage::Slot),
        "V4" => Some(RulePage::Unit),
        "V5" => Some(RulePage::Cell),
        "V6" => Some(RulePage::Loop),
        "V7" => Some(RulePage::End),
        "V8" => Some(RulePage::Home),
        "V9" => Some(RulePage::Registers),
        "V10" => Some(RulePage::SameClock),
        "V11" => Some(RulePage::Use),
        "V12" => Some(RulePage::Held),
        "V13" => Some(RulePage::Leak),
        "V14" => Some(RulePage::Steps),
        "V15" => Some(RulePage::Activities),
        "V16" => Some(RulePage::Clocks),
        "V17" => Some(RulePage::Stack),
        _ => run_named(code),
    }
}

/// The rule on arguments and logs of this code, or on what comes behind them, letter for letter.
pub(crate) fn run_named(code: &str) -> Option<RulePage>
    ensures { result ≡ run_named code.now }
{
    match code {
        "A1" => Some(RulePage::Arguments),
        "L1" => Some(RulePage::Grammar),
        "L2" => Some(RulePage::Truncated),
        "L3" => Some(RulePage::Device),
        "L4" => Some(RulePage::NotEnabled),
        "L5" => Some(RulePage::NotEnded),
        "L6" => Some(RulePage::NoOutcome),
        _ => None,
    }
}

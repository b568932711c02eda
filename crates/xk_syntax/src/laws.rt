//! What the readers give is what is spelled, and a text spells one tree at most.

ghost use Rattle.xk_syntax.specs.Laws.{StatementFound, StatementAgain, ProgramFound, ProgramAgain, OneTree};

/// A statement is read from tokens exactly where they begin with its spelling, and with no `else` that it would take.
pub fn statements()
    ensures found { StatementFound }
    ensures again { StatementAgain }
{}

/// A program is read from tokens exactly where they are its spelling.
pub fn programs()
    ensures found { ProgramFound }
    ensures again { ProgramAgain }
{}

/// A text spells one tree at most.
pub fn trees()
    ensures { OneTree }
{}

//! What the readers give is what is spelled.

ghost use Rattle.xk_exprs.specs.Laws.{ExpressionFound, ExpressionAgain, ExpressionOnce, TermFound, TermAgain, NumberFound, NumberAgain};

/// An expression is read from tokens exactly where they begin with its spelling and no operator follows. Tokens spell one at most.
pub fn expressions()
    ensures found { ExpressionFound }
    ensures again { ExpressionAgain }
    ensures once { ExpressionOnce }
{}

/// A term is read from tokens exactly where they begin with its spelling and no `*` follows.
pub fn terms()
    ensures found { TermFound }
    ensures again { TermAgain }
{}

/// A number is read from tokens exactly where they begin with its spelling.
pub fn numbers()
    ensures found { NumberFound }
    ensures again { NumberAgain }
{}

//! An offset for each instruction that brings an expression's number.

ghost use Rattle.std.specs.Prelude.{◌≡◌, [], ◌∷◌, ◌++◌, OnOk};
ghost use Rattle.xk_tree.specs.Tree.{bound, expression, expressions, source};
ghost use Rattle.xk_origins.specs.Origin.{brings, brings_all, puts, puts_limit, puts_source};

use std::alloc::AllocError;
use xk_tree::{Bound, Expr, Right};

/// Adds an offset.
pub(crate) fn add(found: &mut Vec<usize>, at: usize) -> Result<(), AllocError>
    ensures { OnOk result (found.new.items ≡ found.old.items ++ at ∷ []) }
{
    found.push(at)?;
    Ok(())
}

/// Adds one for each instruction that brings an expression's number.
pub(crate) fn add_brings(found: &mut Vec<usize>, at: usize, e: &Expr<'_>) -> Result<(), AllocError>
    ensures { OnOk result (found.new.items ≡ found.old.items ++ brings at (expression e.now)) }
{
    match e {
        Expr::Number(_) => add(found, at),
        Expr::Name(_) => Ok(()),
        Expr::Paren(_, e) => add_brings(found, at, e),
        Expr::Negation(_, e) => {
            add(found, at)?;
            add_brings(found, at, e)?;
            add(found, at)
        }
        Expr::Binary(_, l, _, r) => {
            add_brings(found, at, l)?;
            add_brings(found, at, r)?;
            add(found, at)
        }
    }
}

/// The same, and one more.
pub(crate) fn add_brings_then(
    found: &mut Vec<usize>,
    at: usize,
    e: &Expr<'_>,
) -> Result<(), AllocError>
    ensures { OnOk result (found.new.items
        ≡ found.old.items ++ (brings at (expression e.now) ++ at ∷ [])) }
{
    add_brings(found, at, e)?;
    add(found, at)
}

/// For two expressions, and one more.
pub(crate) fn add_both_then(
    found: &mut Vec<usize>,
    at: usize,
    l: &Expr<'_>,
    r: &Expr<'_>,
) -> Result<(), AllocError>
    ensures { OnOk result (found.new.items ≡ found.old.items
        ++ (brings at (expression l.now) ++ (brings at (expression r.now) ++ at ∷ []))) }
{
    add_brings(found, at, l)?;
    add_brings_then(found, at, r)
}

/// For arguments, and one more.
pub(crate) fn add_arguments(
    found: &mut Vec<usize>,
    at: usize,
    es: &[Expr<'_>],
) -> Result<(), AllocError>
    ensures { OnOk result (found.new.items
        ≡ found.old.items ++ (brings_all at (expressions es.now) ++ at ∷ [])) }
{
    for e in es {
        add_brings(found, at, e)?;
    }
    add(found, at)
}

/// Adds an offset for each instruction that puts an expression's number into a slot.
pub(crate) fn add_puts(found: &mut Vec<usize>, at: usize, e: &Expr<'_>) -> Result<(), AllocError>
    ensures { OnOk result (found.new.items ≡ found.old.items ++ puts at (expression e.now)) }
{
    match e {
        Expr::Name(_) => add(found, at),
        Expr::Paren(_, e) => add_puts(found, at, e),
        Expr::Number(_) => add_brings(found, at, e),
        Expr::Negation(..) => add_brings(found, at, e),
        Expr::Binary(..) => add_brings(found, at, e),
    }
}

/// For what stands behind the `=` of a declaration.
pub(crate) fn add_source(found: &mut Vec<usize>, at: usize, r: &Right<'_>) -> Result<(), AllocError>
    ensures { OnOk result (found.new.items ≡ found.old.items ++ puts_source at (source r.now)) }
{
    match r {
        Right::Make(..) => add(found, at),
        Right::Expr(e) => add_puts(found, at, e),
    }
}

/// For the limit of a loop, and one for its head.
pub(crate) fn add_head(found: &mut Vec<usize>, at: usize, b: &Bound<'_>) -> Result<(), AllocError>
    ensures { OnOk result (found.new.items
        ≡ found.old.items ++ (puts_limit at (bound b.now) ++ at ∷ [])) }
{
    match b {
        Bound::UpTo(_) => add(found, at),
        Bound::Least(_, _, e, _) => {
            add_puts(found, at, e)?;
            add(found, at)
        }
    }
}

//! An offset for each instruction of a statement's code.

ghost use Rattle.std.specs.Prelude.{◌≡◌, [], ◌∷◌, ◌++◌, if◌then◌else◌, OnOk};
ghost use Rattle.xk_tree.specs.Tree.{Assign, Finish, bound, expression, has_turns, statement, statements, word};
ghost use Rattle.xk_origins.specs.Origin.{brings, closed, own, puts_limit};
ghost use Rattle.xk_origins.specs.Offsets.{offsets, offsets_all};

use crate::expressions::{
    add, add_arguments, add_both_then, add_brings_then, add_head, add_puts, add_source,
};
use crate::shared_names::SharedNames;
use std::alloc::AllocError;
use xk_tree::{Bound, Expr, Name, Number, Stmt};

/// Where that ends which stands at this offset and consists of a statement.
pub(crate) fn closed(at: usize, s: &Stmt<'_>) -> usize
    ensures { result ≡ closed at (statement s.now) }
{
    match s {
        Stmt::Block(close, _) => *close,
        Stmt::Empty => at,
        Stmt::Declare(..) => at,
        Stmt::Assign(..) => at,
        Stmt::Atomic(..) => at,
        Stmt::If(..) => at,
        Stmt::IfElse(..) => at,
        Stmt::For(..) => at,
        Stmt::Async(..) => at,
        Stmt::Finish(..) => at,
        Stmt::Call(..) => at,
        Stmt::Resume(..) => at,
        Stmt::Drop(..) => at,
        Stmt::AdvanceAll(..) => at,
        Stmt::Print(..) => at,
    }
}

/// For an assignment.
fn add_assigned<'t>(
    shared: &SharedNames<'t>,
    found: &mut Vec<usize>,
    x: Name<'t>,
    e: &Expr<'t>,
) -> Result<(), AllocError>
    ensures { OnOk result (found.new.items ≡ found.old.items
        ++ own shared.now x.entry.at (Assign (word x.entry) (expression e.now))) }
{
    if shared.contains(x) {
        add_brings_then(found, x.at, e)
    } else {
        add_puts(found, x.at, e)
    }
}

/// Adds an offset for each instruction of a statement's code.
#[cycle(offsets)]
pub(crate) fn add_offsets<'t>(
    shared: &SharedNames<'t>,
    found: &mut Vec<usize>,
    s: &Stmt<'t>,
) -> Result<(), AllocError>
    ensures { OnOk result
        (found.new.items ≡ found.old.items ++ offsets shared.now (statement s.now)) }
{
    match s {
        Stmt::Block(_, ss) => add_all_offsets(shared, found, ss),
        Stmt::If(at, l, _, r, s) => add_if(shared, found, s, *at, l, r),
        Stmt::IfElse(at, l, _, r, s, u) => {
            add_if(shared, found, s, *at, l, r)?;
            add(found, *at)?;
            add_offsets(shared, found, u)
        }
        Stmt::For(at, _, lo, b, s) => add_for(shared, found, s, *at, *lo, b),
        Stmt::Finish(at, s) => add_finish(shared, found, s, *at),
        Stmt::Empty => Ok(()),
        Stmt::Declare(_, x, _, r) => add_source(found, x.at, r),
        Stmt::Assign(x, e) => add_assigned(shared, found, *x, e),
        Stmt::Atomic(x, _, _, e) => add_brings_then(found, x.at, e),
        Stmt::Async(at, _, _) => add(found, *at),
        Stmt::Call(f, _, es) => add_arguments(found, f.at, es),
        Stmt::Resume(c, _) => add(found, c.at),
        Stmt::Drop(c, _) => add(found, c.at),
        Stmt::AdvanceAll(at, _) => add(found, *at),
        Stmt::Print(at, _, e) => add_brings_then(found, *at, e),
    }
}

/// The same for statements, one after another.
#[cycle(offsets)]
pub(crate) fn add_all_offsets<'t>(
    shared: &SharedNames<'t>,
    found: &mut Vec<usize>,
    ss: &[Stmt<'t>],
) -> Result<(), AllocError>
    ensures { OnOk result
        (found.new.items ≡ found.old.items ++ offsets_all shared.now (statements ss.now)) }
{
    for s in ss {
        add_offsets(shared, found, s)?;
    }
    Ok(())
}

/// For an `if` without `else`, or up to its `else`.
#[cycle(offsets)]
fn add_if<'t>(
    shared: &SharedNames<'t>,
    found: &mut Vec<usize>,
    s: &Stmt<'t>,
    at: usize,
    l: &Expr<'t>,
    r: &Expr<'t>,
) -> Result<(), AllocError>
    ensures { OnOk result (found.new.items ≡ found.old.items
        ++ ((brings at (expression l.now) ++ (brings at (expression r.now) ++ at ∷ []))
        ++ offsets shared.now (statement s.now))) }
{
    add_both_then(found, at, l, r)?;
    add_offsets(shared, found, s)
}

/// For a loop, which has no code where its bounds leave it no turn.
#[cycle(offsets)]
fn add_for<'t>(
    shared: &SharedNames<'t>,
    found: &mut Vec<usize>,
    s: &Stmt<'t>,
    at: usize,
    lo: Number,
    b: &Bound<'t>,
) -> Result<(), AllocError>
    ensures { OnOk result (found.new.items ≡ found.old.items ++ (if has_turns lo (bound b.now)
        then (puts_limit at (bound b.now) ++ at ∷ [])
        ++ (offsets shared.now (statement s.now) ++ closed at (statement s.now) ∷ []) else [])) }
{
    if b.has_turns(lo) {
        add_head(found, at, b)?;
        add_offsets(shared, found, s)?;
        add(found, closed(at, s))
    } else {
        Ok(())
    }
}

/// For a `finish`.
#[cycle(offsets)]
fn add_finish<'t>(
    shared: &SharedNames<'t>,
    found: &mut Vec<usize>,
    s: &Stmt<'t>,
    at: usize,
) -> Result<(), AllocError>
    ensures { OnOk result (found.new.items ≡ found.old.items
        ++ offsets shared.now (Finish at (statement s.now))) }
{
    add(found, at)?;
    add_offsets(shared, found, s)?;
    add(found, closed(at, s))
}

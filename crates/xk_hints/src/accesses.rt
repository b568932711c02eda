//! What an activity does with numbers before it may wait for anybody.

ghost use Rattle.std.specs.Prelude.{◌≡◌, [], ◌∷◌, ◌++◌, OnOk, if◌then◌else◌};
ghost use Rattle.xk_tree.specs.Tree.{bound, expression, source, statement, statements};
ghost use Rattle.xk_hints.specs.Accesses.{access_value, accesses, all_first_accesses, first_accesses, is_order_seen};
ghost use Rattle.xk_hints.specs.Accesses.{may_wait, own_accesses, reads, some_may_wait, source_reads, surely_turns};

use crate::access::{Access, Act};
use std::alloc::AllocError;
use xk_tree::{Bound, Expr, Name, Number, Right, Stmt};

/// Whether it counts which of the two comes first, of the same number.
pub(crate) fn is_order_seen(a: Act, b: Act) -> bool
    ensures { result ≡ is_order_seen a b }
{
    match a {
        Act::Read => match b {
            Act::Read => false,
            Act::Write => true,
            Act::Add => true,
        },
        Act::Write => true,
        Act::Add => match b {
            Act::Read => true,
            Act::Write => true,
            Act::Add => false,
        },
    }
}

/// Whether the activity that runs the statement may wait there for anybody.
#[cycle(waits)]
pub(crate) fn may_wait(s: &Stmt<'_>) -> bool
    ensures { result ≡ may_wait (statement s.now) }
{
    match s {
        Stmt::Block(_, ss) => some_may_wait(ss),
        Stmt::If(_, _, _, _, s) => may_wait(s),
        Stmt::IfElse(_, _, _, _, s, t) => may_wait(s) || may_wait(t),
        Stmt::For(_, _, _, _, s) => may_wait(s),
        Stmt::Finish(..) => true,
        Stmt::Call(..) => true,
        Stmt::AdvanceAll(..) => true,
        Stmt::Async(..) => false,
        Stmt::Empty => false,
        Stmt::Declare(..) => false,
        Stmt::Assign(..) => false,
        Stmt::Atomic(..) => false,
        Stmt::Resume(..) => false,
        Stmt::Drop(..) => false,
        Stmt::Print(..) => false,
    }
}

/// The same of statements, one after another.
#[cycle(waits)]
fn some_may_wait(ss: &[Stmt<'_>]) -> bool
    ensures { result ≡ some_may_wait (statements ss.now) }
{
    for s in ss {
        if may_wait(s) {
            return true;
        }
    }
    false
}

/// Whether a loop with these bounds has a turn, whatever an expression comes to.
pub(crate) fn surely_turns(lo: Number, limit: &Bound<'_>) -> bool
    ensures { result ≡ surely_turns lo (bound limit.now) }
{
    match limit {
        Bound::UpTo(n) => lo.value <= n.value,
        Bound::Least(..) => false,
    }
}

/// Adds what is done with a number.
#[tactic(auto, using(crate::proofs::AccessLemmas::accesses_push))]
fn add_access<'t>(out: &mut Vec<Access<'t>>, act: Act, name: Name<'t>) -> Result<(), AllocError>
    ensures { OnOk result (accesses out.new.items ≡ accesses out.old.items
        ++ access_value (record { act = act; name = name.entry }) ∷ []) }
{
    out.push(Access { act, name })?;
    Ok(())
}

/// Adds the number that an expression reads, if it is one alone.
fn add_reads<'t>(out: &mut Vec<Access<'t>>, e: &Expr<'t>) -> Result<(), AllocError>
    ensures { OnOk result (accesses out.new.items
        ≡ accesses out.old.items ++ reads (expression e.now)) }
{
    match e {
        Expr::Name(x) => add_access(out, Act::Read, *x),
        Expr::Number(_) => Ok(()),
        Expr::Paren(..) => Ok(()),
        Expr::Negation(..) => Ok(()),
        Expr::Binary(..) => Ok(()),
    }
}

/// The same of what is behind the `=` of a declaration.
fn add_source_reads<'t>(out: &mut Vec<Access<'t>>, right: &Right<'t>) -> Result<(), AllocError>
    ensures { OnOk result (accesses out.new.items
        ≡ accesses out.old.items ++ source_reads (source right.now)) }
{
    match right {
        Right::Make(..) => Ok(()),
        Right::Expr(e) => add_reads(out, e),
    }
}

/// Adds what a statement does with numbers, apart from those that it holds.
pub(crate) fn add_own_accesses<'t>(
    out: &mut Vec<Access<'t>>,
    s: &Stmt<'t>,
) -> Result<(), AllocError>
    ensures { OnOk result (accesses out.new.items
        ≡ accesses out.old.items ++ own_accesses (statement s.now)) }
{
    match s {
        Stmt::Declare(_, _, _, right) => add_source_reads(out, right),
        Stmt::Assign(name, e) => {
            add_access(out, Act::Write, *name)?;
            add_reads(out, e)
        }
        Stmt::Atomic(name, _, _, _) => add_access(out, Act::Add, *name),
        Stmt::Block(..)
        | Stmt::Empty
        | Stmt::If(..)
        | Stmt::IfElse(..)
        | Stmt::For(..)
        | Stmt::Async(..)
        | Stmt::Finish(..)
        | Stmt::Call(..)
        | Stmt::Resume(..)
        | Stmt::Drop(..)
        | Stmt::AdvanceAll(..)
        | Stmt::Print(..) => Ok(()),
    }
}

/// Adds what the activity that runs a statement does with numbers there before it may wait, whatever its conditions are.
#[cycle(first)]
pub(crate) fn add_first_accesses<'t>(
    out: &mut Vec<Access<'t>>,
    s: &Stmt<'t>,
) -> Result<(), AllocError>
    ensures { OnOk result (accesses out.new.items
        ≡ accesses out.old.items ++ first_accesses (statement s.now)) }
{
    match s {
        Stmt::Block(_, ss) => add_all_first_accesses(out, ss),
        Stmt::For(_, _, lo, limit, s) => {
            if surely_turns(*lo, limit) {
                return add_first_accesses(out, s);
            }
            Ok(())
        }
        Stmt::Finish(_, s) => add_first_accesses(out, s),
        Stmt::Declare(..) => add_own_accesses(out, s),
        Stmt::Assign(..) => add_own_accesses(out, s),
        Stmt::Atomic(..) => add_own_accesses(out, s),
        Stmt::Empty => Ok(()),
        Stmt::If(..) => Ok(()),
        Stmt::IfElse(..) => Ok(()),
        Stmt::Async(..) => Ok(()),
        Stmt::Call(..) => Ok(()),
        Stmt::Resume(..) => Ok(()),
        Stmt::Drop(..) => Ok(()),
        Stmt::AdvanceAll(..) => Ok(()),
        Stmt::Print(..) => Ok(()),
    }
}

/// The same of statements, one after another, up to the first at which it may wait.
#[cycle(first)]
fn add_all_first_accesses<'t>(out: &mut Vec<Access<'t>>, ss: &[Stmt<'t>]) -> Result<(), AllocError>
    ensures { OnOk result (accesses out.new.items
        ≡ accesses out.old.items ++ all_first_accesses (statements ss.now)) }
{
    for s in ss {
        add_first_accesses(out, s)?;
        if may_wait(s) {
            return Ok(());
        }
    }
    Ok(())
}

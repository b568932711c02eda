//! Shared numbers: what is written in activities that nothing waits for, and what is read and written back.

ghost use Rattle.std.specs.Prelude.{◌≡◌, [], ◌∷◌, ◌++◌, map, option_map, OnOk};
ghost use Rattle.xk_tree.specs.Tree.{clock_list, shared_value, statement, statements, words};
ghost use Rattle.xk_hints.specs.SharedNumbers.{all_writes, is_shared_number, is_written_back, left_by, left_by_all, left_in_body};
ghost use Rattle.xk_hints.specs.SharedNumbers.{writes_back, writes_of};

use crate::deeds::{is_named, mentions};
use std::alloc::AllocError;
use xk_tree::{ClockList, Name, Shared, Stmt};

/// Whether one of these shared numbers has the name.
pub(crate) fn is_shared_number(shared: &[Shared<'_>], x: &[u8]) -> bool
    ensures { result ≡ is_shared_number (map shared_value shared.now) x.now }
{
    for number in shared {
        if is_named(x, number.name) {
            return true;
        }
    }
    false
}

/// Adds a name.
fn add_name<'t>(out: &mut Vec<Name<'t>>, name: Name<'t>) -> Result<(), AllocError>
    ensures { OnOk result (words out.new.items ≡ words out.old.items ++ words (name.entry ∷ [])) }
{
    out.push(name)?;
    Ok(())
}

/// Adds the names that a statement writes, and those that it holds.
#[cycle(written)]
fn add_writes<'t>(out: &mut Vec<Name<'t>>, s: &Stmt<'t>) -> Result<(), AllocError>
    ensures { OnOk result (words out.new.items
        ≡ words out.old.items ++ writes_of (statement s.now)) }
{
    match s {
        Stmt::Block(_, ss) => add_all_writes(out, ss),
        Stmt::Assign(w, _) => add_name(out, *w),
        Stmt::Atomic(w, _, _, _) => add_name(out, *w),
        Stmt::If(_, _, _, _, s) => add_writes(out, s),
        Stmt::IfElse(_, _, _, _, s, t) => {
            add_writes(out, s)?;
            add_writes(out, t)
        }
        Stmt::For(_, _, _, _, s) => add_writes(out, s),
        Stmt::Async(_, _, s) => add_writes(out, s),
        Stmt::Finish(_, s) => add_writes(out, s),
        Stmt::Empty => Ok(()),
        Stmt::Declare(..) => Ok(()),
        Stmt::Call(..) => Ok(()),
        Stmt::Resume(..) => Ok(()),
        Stmt::Drop(..) => Ok(()),
        Stmt::AdvanceAll(..) => Ok(()),
        Stmt::Print(..) => Ok(()),
    }
}

/// The same of statements, one after another.
#[cycle(written)]
fn add_all_writes<'t>(out: &mut Vec<Name<'t>>, ss: &[Stmt<'t>]) -> Result<(), AllocError>
    ensures { OnOk result (words out.new.items
        ≡ words out.old.items ++ all_writes (statements ss.now)) }
{
    for s in ss {
        add_writes(out, s)?;
    }
    Ok(())
}

/// Adds the names that are written in the body of an `async` with these clocks, if nobody but a finish waits for it.
fn add_left_in_body<'t>(
    out: &mut Vec<Name<'t>>,
    clocks: &Option<ClockList<'t>>,
    body: &Stmt<'t>,
) -> Result<(), AllocError>
    ensures { OnOk result (words out.new.items ≡ words out.old.items
        ++ left_in_body (option_map clock_list clocks.now) (statement body.now)) }
{
    match clocks {
        None => add_writes(out, body),
        Some(_) => Ok(()),
    }
}

/// Adds the names that are written in the activities which a statement starts without clocks, and which go on behind it.
#[cycle(left)]
pub(crate) fn add_left<'t>(out: &mut Vec<Name<'t>>, s: &Stmt<'t>) -> Result<(), AllocError>
    ensures { OnOk result (words out.new.items
        ≡ words out.old.items ++ left_by (statement s.now)) }
{
    match s {
        Stmt::Block(_, ss) => add_all_left(out, ss),
        Stmt::For(_, _, _, _, s) => add_left(out, s),
        Stmt::Async(_, clocks, s) => add_left_in_body(out, clocks, s),
        Stmt::Empty => Ok(()),
        Stmt::Declare(..) => Ok(()),
        Stmt::Assign(..) => Ok(()),
        Stmt::Atomic(..) => Ok(()),
        Stmt::If(..) => Ok(()),
        Stmt::IfElse(..) => Ok(()),
        Stmt::Finish(..) => Ok(()),
        Stmt::Call(..) => Ok(()),
        Stmt::Resume(..) => Ok(()),
        Stmt::Drop(..) => Ok(()),
        Stmt::AdvanceAll(..) => Ok(()),
        Stmt::Print(..) => Ok(()),
    }
}

/// The same of statements, one after another.
#[cycle(left)]
fn add_all_left<'t>(out: &mut Vec<Name<'t>>, ss: &[Stmt<'t>]) -> Result<(), AllocError>
    ensures { OnOk result (words out.new.items
        ≡ words out.old.items ++ left_by_all (statements ss.now)) }
{
    for s in ss {
        add_left(out, s)?;
    }
    Ok(())
}

/// Whether the statement writes x, and computes that of t.
fn writes_back(x: &[u8], t: &[u8], s: &Stmt<'_>) -> bool
    ensures { result ≡ writes_back x.now t.now (statement s.now) }
{
    match s {
        Stmt::Assign(w, e) => is_named(x, *w) && mentions(t, e),
        Stmt::Block(..)
        | Stmt::Empty
        | Stmt::Declare(..)
        | Stmt::Atomic(..)
        | Stmt::If(..)
        | Stmt::IfElse(..)
        | Stmt::For(..)
        | Stmt::Async(..)
        | Stmt::Finish(..)
        | Stmt::Call(..)
        | Stmt::Resume(..)
        | Stmt::Drop(..)
        | Stmt::AdvanceAll(..)
        | Stmt::Print(..) => false,
    }
}

/// Whether one of the statements does so.
pub(crate) fn is_written_back(x: &[u8], t: &[u8], ss: &[Stmt<'_>]) -> bool
    ensures { result ≡ is_written_back x.now t.now (statements ss.now) }
{
    for s in ss {
        if writes_back(x, t, s) {
            return true;
        }
    }
    false
}

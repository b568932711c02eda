//! The names that have slots.

ghost use Rattle.std.specs.Prelude.{◌≡◌, [], ◌∷◌, ◌++◌, map, option_map, OnOk, IfOk};
ghost use Rattle.xk_tree.specs.Tree.{bound, clock_list, param_value, statement, statements, word, words};
ghost use Rattle.xk_names.specs.Scope.{texts};
ghost use Rattle.xk_names.specs.Uses.{clocks_listed};
ghost use Rattle.xk_names.specs.Captures.{loop_words};
ghost use Rattle.xk_emit.specs.Unit.{names_of_params};
ghost use Rattle.xk_origins.specs.UnitOrigins.{names, names_all};

use std::alloc::AllocError;
use xk_tree::{Bound, ClockList, Name, Param, Stmt};

/// Adds a name.
fn add_name<'t>(found: &mut Vec<&'t [u8]>, x: &'t [u8]) -> Result<(), AllocError>
    ensures { OnOk result (map (λ y. y.now) found.new.items
        ≡ map (λ y. y.now) found.old.items ++ x.now ∷ []) }
{
    found.push(x)?;
    Ok(())
}

/// Adds the names of a loop.
fn add_loop<'t>(found: &mut Vec<&'t [u8]>, i: Name<'t>, b: &Bound<'t>) -> Result<(), AllocError>
    ensures { OnOk result (map (λ y. y.now) found.new.items ≡ map (λ y. y.now) found.old.items
        ++ texts (loop_words (word i.entry) (bound b.now))) }
{
    add_name(found, i.text)?;
    match b {
        Bound::UpTo(_) => Ok(()),
        Bound::Least(x, _, _, _) => add_name(found, x.text),
    }
}

/// Adds the names of a statement.
#[cycle(names)]
pub(crate) fn add_names<'t>(found: &mut Vec<&'t [u8]>, s: &Stmt<'t>) -> Result<(), AllocError>
    ensures { OnOk result (map (λ y. y.now) found.new.items
        ≡ map (λ y. y.now) found.old.items ++ names (statement s.now)) }
{
    match s {
        Stmt::Block(_, ss) => add_all_names(found, ss),
        Stmt::Declare(_, x, _, _) => add_name(found, x.text),
        Stmt::If(_, _, _, _, s) => add_names(found, s),
        Stmt::IfElse(_, _, _, _, s, u) => {
            add_names(found, s)?;
            add_names(found, u)
        }
        Stmt::For(_, i, _, b, s) => {
            add_loop(found, *i, b)?;
            add_names(found, s)
        }
        Stmt::Finish(_, s) => add_names(found, s),
        Stmt::Empty => Ok(()),
        Stmt::Assign(..) => Ok(()),
        Stmt::Atomic(..) => Ok(()),
        Stmt::Async(..) => Ok(()),
        Stmt::Call(..) => Ok(()),
        Stmt::Resume(..) => Ok(()),
        Stmt::Drop(..) => Ok(()),
        Stmt::AdvanceAll(..) => Ok(()),
        Stmt::Print(..) => Ok(()),
    }
}

/// The same for statements, one after another.
#[cycle(names)]
pub(crate) fn add_all_names<'t>(
    found: &mut Vec<&'t [u8]>,
    ss: &[Stmt<'t>],
) -> Result<(), AllocError>
    ensures { OnOk result (map (λ y. y.now) found.new.items
        ≡ map (λ y. y.now) found.old.items ++ names_all (statements ss.now)) }
{
    for s in ss {
        add_names(found, s)?;
    }
    Ok(())
}

/// Adds the names of a method's parameters.
pub(crate) fn add_params<'t>(
    found: &mut Vec<&'t [u8]>,
    params: &[Param<'t>],
) -> Result<(), AllocError>
    ensures { OnOk result (map (λ y. y.now) found.new.items ≡ map (λ y. y.now) found.old.items
        ++ names_of_params (map param_value params.now)) }
{
    for param in params {
        add_name(found, param.name.text)?;
    }
    Ok(())
}

/// Adds these names.
fn add_texts<'t>(found: &mut Vec<&'t [u8]>, list: &[Name<'t>]) -> Result<(), AllocError>
    ensures { OnOk result (map (λ y. y.now) found.new.items
        ≡ map (λ y. y.now) found.old.items ++ texts (words list.now)) }
{
    for x in list {
        add_name(found, x.text)?;
    }
    Ok(())
}

/// Adds the names of the clocks that the body of an `async` is given.
pub(crate) fn add_clocks<'t>(
    found: &mut Vec<&'t [u8]>,
    clocks: &Option<ClockList<'t>>,
) -> Result<(), AllocError>
    ensures { OnOk result (map (λ y. y.now) found.new.items ≡ map (λ y. y.now) found.old.items
        ++ texts (clocks_listed (option_map clock_list clocks.now))) }
{
    match clocks {
        None => Ok(()),
        Some(list) => add_texts(found, &list.names),
    }
}

/// Adds the names of the numbers that it takes from outside.
pub(crate) fn add_taken<'t>(found: &mut Vec<&'t [u8]>, taken: &[&'t [u8]]) -> Result<(), AllocError>
    ensures { OnOk result (map (λ y. y.now) found.new.items
        ≡ map (λ y. y.now) found.old.items ++ map (λ y. y.now) taken.now) }
{
    for x in taken {
        add_name(found, *x)?;
    }
    Ok(())
}

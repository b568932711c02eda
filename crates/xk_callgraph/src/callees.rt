//! The calls of methods, in the order of the text.

ghost use Rattle.std.specs.Prelude.{◌≡◌, ℕ, List, [], ◌∷◌, ◌++◌, map, length, unwrap_or, IfOk, OnOk};
ghost use Rattle.xk_callgraph.specs.CallGraph.{adjacency};
ghost use Rattle.xk_tree.specs.Tree.{method_value, statement, statements, words};
ghost use Rattle.xk_names.specs.Scope.{find};
ghost use Rattle.xk_callgraph.specs.Recursion.{number_among};
ghost use Rattle.xk_callgraph.specs.Callees.{all_callees, callees, callees_all};

use std::alloc::{AllocError, Global};
use xk_names::Table;
use xk_tree::{Method, Name, Stmt};

/// Adds the names that the calls of a statement have.
#[cycle(callees)]
fn collect<'t>(names: &mut Vec<Name<'t>>, s: &Stmt<'t>) -> Result<(), AllocError>
    ensures { OnOk result (words names.new.items
        ≡ words names.old.items ++ callees (statement s.now)) }
{
    match s {
        Stmt::Block(_, ss) => collect_all(names, ss),
        Stmt::If(_, _, _, _, s) => collect(names, s),
        Stmt::IfElse(_, _, _, _, s, u) => {
            collect(names, s)?;
            collect(names, u)
        }
        Stmt::For(_, _, _, _, s) => collect(names, s),
        Stmt::Async(_, _, s) => collect(names, s),
        Stmt::Finish(_, s) => collect(names, s),
        Stmt::Call(name, _, _) => {
            names.push(*name)?;
            Ok(())
        }
        Stmt::Empty => Ok(()),
        Stmt::Declare(..) => Ok(()),
        Stmt::Assign(..) => Ok(()),
        Stmt::Atomic(..) => Ok(()),
        Stmt::Resume(..) => Ok(()),
        Stmt::Drop(..) => Ok(()),
        Stmt::AdvanceAll(..) => Ok(()),
        Stmt::Print(..) => Ok(()),
    }
}

/// The same for statements, one after another.
#[cycle(callees)]
fn collect_all<'t>(names: &mut Vec<Name<'t>>, ss: &[Stmt<'t>]) -> Result<(), AllocError>
    ensures { OnOk result (words names.new.items
        ≡ words names.old.items ++ callees_all (statements ss.now)) }
{
    for s in ss {
        collect(names, s)?;
    }
    Ok(())
}

/// For each method the names that its calls have.
pub(crate) fn callees<'t>(
    alloc: Global,
    methods: &[Method<'t>],
) -> Result<Vec<Vec<Name<'t>>>, AllocError>
    ensures { IfOk result (λ called. map (λ names. words names.items) called.items
        ≡ all_callees (map method_value methods.now)) }
{
    let mut called = Vec::new(alloc);
    for method in methods {
        let mut names = Vec::new(alloc);
        collect_all(&mut names, &method.body)?;
        called.push(names)?;
    }
    Ok(called)
}

/// The numbers of methods by their names: a name means the first method that has it.
pub(crate) fn numbers_by_name<'t>(
    alloc: Global,
    methods: &[Method<'t>],
) -> Result<Table<'t, usize>, AllocError>
    ensures { IfOk result (λ table. (x : List ℕ)
        → find table x ≡ number_among 0 (map method_value methods.now) x) }
{
    let mut table = Table::new(alloc);
    for (i, method) in methods.iter().enumerate() {
        table.put(method.name.text, i)?;
    }
    Ok(table)
}

/// The numbers that names have in a table, or the one that stands for all others.
fn numbers_of<'t>(
    alloc: Global,
    table: &Table<'t, usize>,
    other: usize,
    names: &[Name<'t>],
) -> Result<Vec<usize>, AllocError>
    ensures { IfOk result (λ numbers. numbers.items
        ≡ map (λ g. unwrap_or (find table.now g.text) other) (words names.now)) }
{
    let mut numbers = Vec::new(alloc);
    for name in names {
        numbers.push(table.find(name.text).unwrap_or(other))?;
    }
    Ok(numbers)
}

/// For each method the numbers of those that it calls; the last one is for all that don't exist, which call nobody.
pub(crate) fn called_numbers<'t>(
    alloc: Global,
    table: &Table<'t, usize>,
    called: &[Vec<Name<'t>>],
) -> Result<Vec<Vec<usize>>, AllocError>
    ensures { IfOk result (λ numbers. adjacency numbers.items
        ≡ map (λ gs. map (λ g. unwrap_or (find table.now g.text) (length called.now)) gs)
        (map (λ names. words names.items) called.now) ++ [] ∷ []) }
{
    let mut numbers = Vec::new(alloc);
    for names in called {
        numbers.push(numbers_of(alloc, table, called.len(), names)?)?;
    }
    numbers.push(Vec::new(alloc))?;
    Ok(numbers)
}

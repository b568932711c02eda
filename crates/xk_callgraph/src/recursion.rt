//! Calls that lead back to the method that makes them.

ghost use Rattle.std.specs.Prelude.{◌≡◌, ◌⊎◌, ◌<◌, ◌≤◌, List, map, length, slice_get, None, Some, Ok, Err, IfOk, IfSome, MatchOption, OnOk};
ghost use Rattle.xk_tree.specs.declared.fault.FrontFault.{FrontFault as Fault};
ghost use Rattle.xk_callgraph.specs.CallGraph.{adjacency};
ghost use Rattle.xk_tree.specs.Tree.{Word, method_value, words};
ghost use Rattle.xk_tree.specs.Program.{tree_value};
ghost use Rattle.xk_names.specs.Faults.{fault};
ghost use Rattle.xk_callgraph.specs.Recursion.{ComesBack, HasRecursion};
ghost use Rattle.xk_callgraph.specs.Callees.{all_callees, graph, main_among, main_in};

use crate::callees::{called_numbers, callees, numbers_by_name};
use crate::numbering::{CallPlace, numbers_by_calls};
use std::alloc::{AllocError, Global};
use xk_tree::{FrontError, FrontFault, FrontRule, Name, Tree};

const MAIN: &[u8] = b"main";

/// Where the first call of `main` is among these.
fn main_among(names: &[Name<'_>]) -> Option<usize>
    ensures { result ≡ main_among (words names.now) }
{
    for name in names {
        if name.text == MAIN {
            return Some(name.at);
        }
    }
    None
}

/// Where the first call of `main` is.
fn call_of_main(called: &[Vec<Name<'_>>]) -> Option<usize>
    ensures { result ≡ main_in (map (λ names. words names.items) called.now) }
{
    for names in called {
        let at = main_among(names);
        if at.is_some() {
            return at;
        }
    }
    None
}

/// The names that a method's calls have.
fn callees_of<'a, 't>(called: &'a [Vec<Name<'t>>], i: usize) -> &'a [Name<'t>]
    requires { i < length called.now }
    ensures { slice_get (map (λ names. words names.items) called.now) i
        ≡ Some (words result.now) }
{
    &called[i]
}

/// Where a call is.
fn call_at(called: &[Vec<Name<'_>>], place: CallPlace) -> usize
    requires caller { place.caller < length called.now }
    requires index { (gs : List Word)
        → slice_get (map (λ names. words names.items) called.now) place.caller ≡ Some gs
        → place.index < length gs }
    ensures { (gs : List Word) (g : Word)
        → slice_get (map (λ names. words names.items) called.now) place.caller ≡ Some gs
        → slice_get gs place.index ≡ Some g → result ≡ g.at }
{
    let names = callees_of(called, place.caller);
    names[place.index].at
}

/// For each method the numbers of those that it calls.
fn call_graph<'t>(
    alloc: Global,
    tree: &Tree<'t>,
    called: &[Vec<Name<'t>>],
) -> Result<Vec<Vec<usize>>, AllocError>
    requires { map (λ names. words names.items) called.now
        ≡ all_callees (map method_value tree.now.methods.items) }
    ensures { IfOk result (λ numbers. adjacency numbers.items
        ≡ graph (map method_value tree.now.methods.items)) }
{
    let table = numbers_by_name(alloc, &tree.methods)?;
    let numbers = called_numbers(alloc, &table, called)?;
    Ok(numbers)
}

/// Where a call is that leads back to the method that makes it.
fn call_back<'t>(
    alloc: Global,
    tree: &Tree<'t>,
    called: &[Vec<Name<'t>>],
) -> Result<Option<usize>, AllocError>
    requires { map (λ names. words names.items) called.now
        ≡ all_callees (map method_value tree.now.methods.items) }
    ensures none { result ≡ Ok None → (f : Fault) → ComesBack (tree_value tree.now) f → ⊥ }
    ensures found { IfOk result (λ r. IfSome r (λ at.
        ComesBack (tree_value tree.now) (fault FrontRule.Recursive at))) }
{
    let numbers = call_graph(alloc, tree, called)?;
    let numbered = numbers_by_calls(alloc, &numbers)?;
    match numbered {
        Ok(_) => Ok(None),
        Err(place) => Ok(Some(call_at(called, place))),
    }
}

/// The lesser of two offsets.
fn lesser(a: Option<usize>, b: Option<usize>) -> Option<usize>
    ensures one { MatchOption result
        ((a ≡ None) × (b ≡ None))
        (λ at. (a ≡ Some at) ⊎ (b ≡ Some at)) }
    ensures least { IfSome result (λ at. IfSome a (λ x. at ≤ x) × IfSome b (λ y. at ≤ y)) }
{
    match a {
        None => b,
        Some(x) => match b {
            None => Some(x),
            Some(y) => Some(if x < y { x } else { y }),
        },
    }
}

/// Whether no call is of `main` or leads back to the method that makes it; else F10 at one that does.
pub fn check_recursion(alloc: Global, tree: &Tree<'_>) -> Result<(), FrontError>
    ensures none { OnOk result ((f : Fault) → HasRecursion (tree_value tree.now) f → ⊥) }
    ensures found { (f : Fault) → result ≡ Err (FrontError.Fault f)
        → HasRecursion (tree_value tree.now) f }
{
    let called = callees(alloc, &tree.methods)?;
    let back = call_back(alloc, tree, &called)?;
    match lesser(call_of_main(&called), back) {
        None => Ok(()),
        Some(at) => Err(FrontError::Fault(FrontFault {
            rule: FrontRule::Recursive,
            at,
        })),
    }
}

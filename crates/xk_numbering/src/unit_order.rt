//! Which parts of a program have units, and in which order.

ghost use Rattle.std.specs.Prelude.{◌≡◌, ◌<◌, ℕ, Some, length, map, slice_get, IfOk};
ghost use Rattle.xk_tree.specs.Program.{tree_value};
ghost use Rattle.xk_names.specs.WellScoped.{IsScoped};
ghost use Rattle.xk_numbering.specs.Views.{part};
ghost use Rattle.xk_source_semantics.specs.Parts.{opening, parts, place_of};
ghost use Rattle.xk_source_semantics.specs.PartGraph.{IsOrder, graph};
ghost use Rattle.xk_callgraph.specs.CallGraph.{adjacency};
ghost use Rattle.xk_numbering.specs.Recursion.{IsFalling};
ghost use Rattle.xk_numbering.specs.PartPlaces.{ArePlaces};
ghost use Rattle.xk_source_semantics.specs.Compilation.{AreUnits};

use crate::part_graph::Places;
use crate::parts::{Part, add_part, parts};
use std::alloc::{AllocError, Global};
use xk_callgraph::order_from;
use xk_tree::Tree;

/// The parts at these places.
fn parts_at<'a, 't>(
    alloc: Global,
    parts: &[Part<'a, 't>],
    order: &[usize],
) -> Result<Vec<Part<'a, 't>>, AllocError>
    requires { (k i : ℕ) → slice_get order.now k ≡ Some i → i < length parts.now }
    ensures { IfOk result (λ units. map Some (map part units.items)
        ≡ map (slice_get (map part parts.now)) order.now) }
{
    let mut units = Vec::new(alloc);
    for i in order {
        add_part(&mut units, parts[*i])?;
    }
    Ok(units)
}

/// The places of the parts that have units, in the order of these, where `main` is the part at this place, and these are the places of what each
/// part runs.
fn order_by<'t>(
    alloc: Global,
    tree: &Tree<'t>,
    lists: &[Vec<usize>],
    main: usize,
) -> Result<Vec<usize>, AllocError>
    requires scoped { IsScoped (tree_value tree.now) }
    requires falls { IsFalling (tree_value tree.now) }
    requires graph { adjacency lists.now ≡ graph (parts (tree_value tree.now)) }
    requires begins { place_of (parts (tree_value tree.now)) opening ≡ Some main }
    ensures order { IfOk result (λ order. IsOrder (tree_value tree.now) order.items) }
{
    // Read for the fact that each tree keeps, on which `unreachable!()` rests: the offsets of its bodies rise.
    let _tree = tree;
    let order = order_from(alloc, lists, main)?;
    match order {
        Ok(order) => Ok(order),
        // No call is recursive, and a body stands within what starts it: so no part is run again.
        Err(_) => unreachable!(),
    }
}

/// The same, where the parts stand among these.
fn order_among<'t>(
    alloc: Global,
    tree: &Tree<'t>,
    found: &[Part<'_, 't>],
    places: &Places<'t>,
) -> Result<Vec<usize>, AllocError>
    requires scoped { IsScoped (tree_value tree.now) }
    requires falls { IsFalling (tree_value tree.now) }
    requires parts { map part found.now ≡ parts (tree_value tree.now) }
    requires places { ArePlaces (map part found.now) places.now }
    ensures order { IfOk result (λ order. IsOrder (tree_value tree.now) order.items) }
{
    let lists = places.graph(alloc, found)?;
    order_by(alloc, tree, &lists, places.method(b"main"))
}

/// The same for all parts of a program.
fn order_of<'t>(
    alloc: Global,
    tree: &Tree<'t>,
    found: &[Part<'_, 't>],
) -> Result<Vec<usize>, AllocError>
    requires scoped { IsScoped (tree_value tree.now) }
    requires falls { IsFalling (tree_value tree.now) }
    requires parts { map part found.now ≡ parts (tree_value tree.now) }
    ensures order { IfOk result (λ order. IsOrder (tree_value tree.now) order.items) }
{
    let places = Places::new(alloc, found)?;
    order_among(alloc, tree, found, &places)
}

/// The parts that have units, in the order of these, where the parts stand among these.
#[tactic(auto, using(crate::proofs::UnitOrderLemmas::are_units, crate::proofs::PartGraphLemmas::order_within))]
fn units_among<'a, 't>(
    alloc: Global,
    tree: &Tree<'t>,
    found: &[Part<'a, 't>],
) -> Result<Vec<Part<'a, 't>>, AllocError>
    requires scoped { IsScoped (tree_value tree.now) }
    requires falls { IsFalling (tree_value tree.now) }
    requires parts { map part found.now ≡ parts (tree_value tree.now) }
    ensures units { IfOk result (λ units. AreUnits (tree_value tree.now) (map part units.items)) }
{
    let order = order_of(alloc, tree, found)?;
    let units = parts_at(alloc, found, &order)?;
    Ok(units)
}

/// The parts of a program that have units, in the order of these: as long as one that is run has no number, the next number is given to that
/// one, of those run only by parts with numbers, which is the first in the text.
pub fn units_in_order<'a, 't>(
    alloc: Global,
    tree: &'a Tree<'t>,
) -> Result<Vec<Part<'a, 't>>, AllocError>
    requires scoped { IsScoped (tree_value tree.now) }
    requires falls { IsFalling (tree_value tree.now) }
    ensures units { IfOk result (λ units. AreUnits (tree_value tree.now) (map part units.items)) }
{
    let parts = parts(alloc, tree)?;
    units_among(alloc, tree, &parts)
}

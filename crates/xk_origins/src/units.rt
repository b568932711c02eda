//! The origins of units.

ghost use Rattle.std.specs.Prelude.{◌≡◌, [], ◌∷◌, ◌++◌, ℕ, List, map, OnOk, IfOk};
ghost use Rattle.xk_tree.specs.Program.{tree_value};
ghost use Rattle.xk_tree.specs.Tree.{method_value, statement};
ghost use Rattle.xk_names.specs.Scope.{has};
ghost use Rattle.xk_names.specs.Uses.{signatures};
ghost use Rattle.xk_names.specs.Captures.{shared_texts};
ghost use Rattle.xk_names.specs.WellScoped.{IsScoped};
ghost use Rattle.xk_numbering.specs.Recursion.{IsFalling};
ghost use Rattle.xk_numbering.specs.Views.{part};
ghost use Rattle.xk_source_semantics.specs.Compilation.{AreUnits, method_kind, taken};
ghost use Rattle.xk_origins.specs.UnitOrigins.{head_of, slot_names, unit_origins};
ghost use Rattle.xk_origins.specs.Offsets.{part_offsets};
ghost use Rattle.xk_origins.specs.Laws.{AreOrigins};

use crate::expressions::add;
use crate::shared_names::SharedNames;
use crate::slots::{add_all_names, add_clocks, add_names, add_params, add_taken};
use crate::statements::{add_all_offsets, add_offsets, closed};
use std::alloc::{AllocError, Global};
use xk_names::{Methods, captures, methods_of};
use xk_numbering::{Part, units_in_order};
use xk_tree::{Method, Stmt, Tree};
use xk_types::UnitKind;
use xk_unit_origins::{Head, Origins, UnitOrigins};

const MAIN: &[u8] = b"main";

/// What a method's unit is for.
fn kind_of(method: &Method<'_>) -> UnitKind
    ensures { result ≡ method_kind (method_value method.now) }
{
    if method.name.text == MAIN {
        UnitKind::Main
    } else {
        UnitKind::Method
    }
}

/// The text of a unit.
fn head_of<'t>(p: &Part<'_, 't>) -> Head<'t>
    ensures { result ≡ head_of (part p.now) }
{
    match p {
        Part::Method(method) => Head {
            at: method.name.at,
            kind: kind_of(method),
            name: Some(method.name.text),
        },
        Part::Body(at, _, _) => Head {
            at: *at,
            kind: UnitKind::Body,
            name: None,
        },
    }
}

/// Adds an offset for each instruction of a unit.
fn add_part_offsets<'t>(
    shared: &SharedNames<'t>,
    found: &mut Vec<usize>,
    p: &Part<'_, 't>,
) -> Result<(), AllocError>
    ensures { OnOk result
        (found.new.items ≡ found.old.items ++ part_offsets shared.now (part p.now)) }
{
    match p {
        Part::Method(method) => {
            add_all_offsets(shared, found, &method.body)?;
            add(found, method.close)
        }
        Part::Body(at, _, s) => {
            add_offsets(shared, found, s)?;
            add(found, closed(*at, s))
        }
    }
}

/// An offset for each instruction of a unit.
fn offsets_of<'t>(
    alloc: Global,
    shared: &SharedNames<'t>,
    p: &Part<'_, 't>,
) -> Result<Vec<usize>, AllocError>
    ensures { IfOk result (λ found. found.items ≡ part_offsets shared.now (part p.now)) }
{
    let mut found = Vec::new(alloc);
    add_part_offsets(shared, &mut found, p)?;
    Ok(found)
}

/// Adds the names of the numbers that a body takes from outside.
fn add_captures<'a, 't>(
    alloc: Global,
    tree: &'a Tree<'t>,
    methods: &Methods<'a, 't>,
    found: &mut Vec<&'t [u8]>,
    s: &Stmt<'t>,
) -> Result<(), AllocError>
    requires { methods.now ≡ signatures (tree_value tree.now).methods }
    ensures { OnOk result (map (λ y. y.now) found.new.items
        ≡ map (λ y. y.now) found.old.items ++ taken (tree_value tree.now) (statement s.now)) }
{
    let taken = captures(alloc, methods, &tree.shared, s)?;
    add_taken(found, &taken)
}

/// Adds the names of a unit's slots.
fn add_slots<'a, 't>(
    alloc: Global,
    tree: &'a Tree<'t>,
    methods: &Methods<'a, 't>,
    found: &mut Vec<&'t [u8]>,
    p: &Part<'_, 't>,
) -> Result<(), AllocError>
    requires { methods.now ≡ signatures (tree_value tree.now).methods }
    ensures { OnOk result (map (λ y. y.now) found.new.items
        ≡ map (λ y. y.now) found.old.items ++ slot_names (tree_value tree.now) (part p.now)) }
{
    match p {
        Part::Method(method) => {
            add_params(found, &method.params)?;
            add_all_names(found, &method.body)
        }
        Part::Body(_, clocks, s) => {
            add_clocks(found, clocks)?;
            add_captures(alloc, tree, methods, found, s)?;
            add_names(found, s)
        }
    }
}

/// The names of a unit's slots.
fn slots_of<'a, 't>(
    alloc: Global,
    tree: &'a Tree<'t>,
    methods: &Methods<'a, 't>,
    p: &Part<'_, 't>,
) -> Result<Vec<&'t [u8]>, AllocError>
    requires { methods.now ≡ signatures (tree_value tree.now).methods }
    ensures { IfOk result (λ found. map (λ y. y.now) found.items
        ≡ slot_names (tree_value tree.now) (part p.now)) }
{
    let mut found = Vec::new(alloc);
    add_slots(alloc, tree, methods, &mut found, p)?;
    Ok(found)
}

/// The origins of a unit.
fn unit_of<'a, 't>(
    alloc: Global,
    tree: &'a Tree<'t>,
    methods: &Methods<'a, 't>,
    shared: &SharedNames<'t>,
    p: &Part<'_, 't>,
) -> Result<UnitOrigins<'t>, AllocError>
    requires methods { methods.now ≡ signatures (tree_value tree.now).methods }
    requires shared { (x : List ℕ)
        → has shared.now x ≡ has (shared_texts (tree_value tree.now).shared) x }
    ensures { IfOk result (λ made. made ≡ unit_origins (tree_value tree.now) (part p.now)) }
{
    let offsets = offsets_of(alloc, shared, p)?;
    let slots = slots_of(alloc, tree, methods, p)?;
    Ok(UnitOrigins {
        head: head_of(p),
        offsets,
        slots,
    })
}

/// The origins of these units.
fn origins_among<'a, 't>(
    alloc: Global,
    tree: &'a Tree<'t>,
    methods: &Methods<'a, 't>,
    shared: &SharedNames<'t>,
    units: &[Part<'_, 't>],
) -> Result<Vec<UnitOrigins<'t>>, AllocError>
    requires methods { methods.now ≡ signatures (tree_value tree.now).methods }
    requires shared { (x : List ℕ)
        → has shared.now x ≡ has (shared_texts (tree_value tree.now).shared) x }
    ensures { IfOk result (λ made. made.items
        ≡ map (unit_origins (tree_value tree.now)) (map part units.now)) }
{
    let mut made = Vec::new(alloc);
    for p in units {
        made.push(unit_of(alloc, tree, methods, shared, p)?)?;
    }
    Ok(made)
}

/// The origins of these units of a tree.
fn origins_of<'a, 't>(
    alloc: Global,
    tree: &'a Tree<'t>,
    units: &[Part<'_, 't>],
) -> Result<Origins<'t>, AllocError>
    requires scoped { IsScoped (tree_value tree.now) }
    ensures { IfOk result (λ made. made
        ≡ map (unit_origins (tree_value tree.now)) (map part units.now)) }
{
    let methods = methods_of(alloc, tree)?;
    let shared = SharedNames::of(alloc, &tree.shared)?;
    let units = origins_among(alloc, tree, &methods, &shared, units)?;
    Ok(Origins::new(units))
}

/// Where the instructions of the module come from that a tree is compiled to, unit by unit, and what their slots are called.
pub fn origins<'t>(alloc: Global, tree: &Tree<'t>) -> Result<Origins<'t>, AllocError>
    requires scoped { IsScoped (tree_value tree.now) }
    requires falls { IsFalling (tree_value tree.now) }
    ensures { IfOk result (λ made. AreOrigins (tree_value tree.now) made) }
{
    let units = units_in_order(alloc, tree)?;
    origins_of(alloc, tree, &units)
}

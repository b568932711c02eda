//! What code refers to: shared numbers, methods and bodies of `async`.

ghost use Rattle.std.specs.Prelude.{◌≡◌, ◌≤◌, ◌+◌, ℕ, List, [], ◌∷◌, Option, Some, is_some, false, length, map, nat_eq, option_map, if◌then◌else◌, IfOk, OnOk};
ghost use Rattle.std.specs.Map.{lookup};
ghost use Rattle.std.specs.Option.{option_or};
ghost use Rattle.xk_tree.specs.Tree.{shared_value, statement};
ghost use Rattle.xk_tree.specs.Program.{tree_value};
ghost use Rattle.xk_names.specs.Scope.{find};
ghost use Rattle.xk_names.specs.Uses.{signatures};
ghost use Rattle.xk_names.specs.WellScoped.{IsScoped};
ghost use Rattle.xk_emit.specs.CodeOf.{Body as BodyValue};
ghost use Rattle.xk_source_semantics.specs.Parts.{Part as PartValue, method_among};
ghost use Rattle.xk_numbering.specs.Views.{part};
ghost use Rattle.xk_source_semantics.specs.Compilation.{IsSetting, settled_body, shared_among, taken, unit_number};

use indexmap::IndexMap;
use std::alloc::{AllocError, Global};
use xk_emit::{Body, Setting};
use xk_names::{Methods, Table, captures, methods_of};
use xk_numbering::Part;
use xk_tree::{Shared, Stmt, Tree};
use xk_types::MAX_UNITS;

/// The number of the unit at this place; those beyond the limit aren't told apart.
fn unit_number(k: usize) -> u16
    ensures { result ≡ unit_number k }
{
    if k < MAX_UNITS {
        k as u16
    } else {
        MAX_UNITS as u16
    }
}

/// Puts the places of shared numbers by their names into a table.
fn add_shared<'t>(table: &mut Table<'t, u16>, shared: &[Shared<'t>]) -> Result<(), AllocError>
    requires none { table.old ≡ [] }
    requires few { length shared.now ≤ 256 }
    ensures { OnOk result ((x : List ℕ)
        → find table.new x ≡ shared_among 0 (map shared_value shared.now) x) }
{
    for (i, number) in shared.iter().enumerate() {
        table.put(number.name.text, i as u16)?;
    }
    Ok(())
}

/// Adds the unit of a part that is a method, unless there is one of its name.
fn add_method<'t>(table: &mut Table<'t, u16>, i: usize, p: &Part<'_, 't>) -> Result<(), AllocError>
    ensures { OnOk result ((rest : List PartValue) (x : List ℕ)
        → option_or (find table.new x) (option_map unit_number (method_among (i + 1) rest x))
        ≡ option_or (find table.old x)
        (option_map unit_number (method_among i (part p.now ∷ rest) x))) }
{
    match p {
        Part::Method(method) => table.put(method.name.text, unit_number(i)),
        Part::Body(..) => Ok(()),
    }
}

/// Puts the units of methods by their names into a table.
fn add_methods<'t>(table: &mut Table<'t, u16>, units: &[Part<'_, 't>]) -> Result<(), AllocError>
    requires { table.old ≡ [] }
    ensures { OnOk result ((x : List ℕ)
        → find table.new x ≡ option_map unit_number (method_among 0 (map part units.now) x)) }
{
    for (i, p) in units.iter().enumerate() {
        add_method(table, i, p)?;
    }
    Ok(())
}

/// A body of `async`, whose unit has this place.
fn body_of<'a, 't>(
    alloc: Global,
    tree: &'a Tree<'t>,
    methods: &Methods<'a, 't>,
    place: usize,
    s: &'a Stmt<'t>,
) -> Result<Body<'t>, AllocError>
    requires { methods.now ≡ signatures (tree_value tree.now).methods }
    ensures { IfOk result (λ body. body ≡ record {
      unit = unit_number place;
      captures = taken (tree_value tree.now) (statement s.now);
    }) }
{
    let captures = captures(alloc, methods, &tree.shared, s)?;
    Ok(Body {
        unit: unit_number(place),
        captures,
    })
}

/// Adds a body that the table hasn't.
fn insert_body<'t>(
    table: &mut IndexMap<usize, Body<'t>>,
    at: usize,
    body: Body<'t>,
) -> Result<(), AllocError>
    requires { is_some (lookup (nat_eq at) table.old.entries) ≡ false }
    ensures { OnOk result ((k : ℕ) (o : Option BodyValue)
        → option_or (lookup (nat_eq k) table.new.entries) o
        ≡ option_or (lookup (nat_eq k) table.old.entries)
        (if nat_eq k at then Some body.entry else o)) }
{
    table.insert(at, body)?;
    Ok(())
}

/// Adds the body of an `async`, whose unit has this place, unless there is one at its offset.
fn put_body<'a, 't>(
    alloc: Global,
    tree: &'a Tree<'t>,
    methods: &Methods<'a, 't>,
    table: &mut IndexMap<usize, Body<'t>>,
    i: usize,
    at: usize,
    s: &'a Stmt<'t>,
) -> Result<(), AllocError>
    requires { methods.now ≡ signatures (tree_value tree.now).methods }
    ensures { OnOk result ((k : ℕ) (o : Option BodyValue)
        → option_or (lookup (nat_eq k) table.new.entries) o
        ≡ option_or (lookup (nat_eq k) table.old.entries) (if nat_eq k at then Some (record {
          unit = unit_number i;
          captures = taken (tree_value tree.now) (statement s.now);
        }) else o)) }
{
    if table.contains_key(&at) {
        Ok(())
    } else {
        insert_body(table, at, body_of(alloc, tree, methods, i, s)?)
    }
}

/// Adds the body of a part that is one.
fn add_body<'a, 't>(
    alloc: Global,
    tree: &'a Tree<'t>,
    methods: &Methods<'a, 't>,
    table: &mut IndexMap<usize, Body<'t>>,
    i: usize,
    p: &Part<'a, 't>,
) -> Result<(), AllocError>
    requires { methods.now ≡ signatures (tree_value tree.now).methods }
    ensures { OnOk result ((rest : List PartValue) (at : ℕ)
        → option_or (lookup (nat_eq at) table.new.entries)
        (settled_body (tree_value tree.now) (i + 1) rest at)
        ≡ option_or (lookup (nat_eq at) table.old.entries)
        (settled_body (tree_value tree.now) i (part p.now ∷ rest) at)) }
{
    match p {
        Part::Method(_) => Ok(()),
        Part::Body(at, _, s) => put_body(alloc, tree, methods, table, i, *at, s),
    }
}

/// Puts the bodies of `async` by the offsets of that word into a table.
fn add_bodies<'a, 't>(
    alloc: Global,
    tree: &'a Tree<'t>,
    methods: &Methods<'a, 't>,
    table: &mut IndexMap<usize, Body<'t>>,
    units: &[Part<'a, 't>],
) -> Result<(), AllocError>
    requires methods { methods.now ≡ signatures (tree_value tree.now).methods }
    requires none { table.old.entries ≡ [] }
    ensures { OnOk result ((at : ℕ) → lookup (nat_eq at) table.new.entries
        ≡ settled_body (tree_value tree.now) 0 (map part units.now) at) }
{
    for (i, p) in units.iter().enumerate() {
        add_body(alloc, tree, methods, table, i, p)?;
    }
    Ok(())
}

/// The same for these units of a tree.
fn add_bodies_of<'a, 't>(
    alloc: Global,
    tree: &'a Tree<'t>,
    table: &mut IndexMap<usize, Body<'t>>,
    units: &[Part<'a, 't>],
) -> Result<(), AllocError>
    requires scoped { IsScoped (tree_value tree.now) }
    requires none { table.old.entries ≡ [] }
    ensures { OnOk result ((at : ℕ) → lookup (nat_eq at) table.new.entries
        ≡ settled_body (tree_value tree.now) 0 (map part units.now) at) }
{
    let methods = methods_of(alloc, tree)?;
    add_bodies(alloc, tree, &methods, table, units)
}

/// Puts what the code of these units refers to into three tables.
fn fill<'a, 't>(
    alloc: Global,
    tree: &'a Tree<'t>,
    units: &[Part<'a, 't>],
    bodies: &mut IndexMap<usize, Body<'t>>,
    shared: &mut Table<'t, u16>,
    methods: &mut Table<'t, u16>,
) -> Result<(), AllocError>
    requires scoped { IsScoped (tree_value tree.now) }
    requires few { length (tree_value tree.now).shared ≤ 256 }
    requires no_bodies { bodies.old.entries ≡ [] }
    requires no_shared { shared.old ≡ [] }
    requires no_methods { methods.old ≡ [] }
    ensures { OnOk result (IsSetting (tree_value tree.now) (map part units.now) (record {
      shared = shared.new;
      methods = methods.new;
      bodies = bodies.new.entries;
    })) }
{
    add_bodies_of(alloc, tree, bodies, units)?;
    add_shared(shared, &tree.shared)?;
    add_methods(methods, units)
}

/// What the code of these units refers to.
pub(crate) fn settle<'a, 't>(
    alloc: Global,
    tree: &'a Tree<'t>,
    units: &[Part<'a, 't>],
) -> Result<Setting<'t>, AllocError>
    requires scoped { IsScoped (tree_value tree.now) }
    requires shared { length (tree_value tree.now).shared ≤ 256 }
    ensures { IfOk result (λ cx. IsSetting (tree_value tree.now) (map part units.now) cx) }
{
    let mut bodies = IndexMap::new(alloc);
    let mut shared = Table::new(alloc);
    let mut methods = Table::new(alloc);
    fill(alloc, tree, units, &mut bodies, &mut shared, &mut methods)?;
    Ok(Setting {
        shared,
        methods,
        bodies,
    })
}

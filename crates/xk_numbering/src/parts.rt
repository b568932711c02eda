//! The parts of a program that have code of their own.

ghost use Rattle.std.specs.Prelude.{◌≡◌, [], ◌∷◌, ◌++◌, map, option_map, OnOk, IfOk};
ghost use Rattle.xk_tree.specs.Tree.{clock_list, method_value, statement, statements};
ghost use Rattle.xk_tree.specs.Program.{tree_value};
ghost use Rattle.xk_source_semantics.specs.Parts.{OfBody, bodies, bodies_all, method_parts, parts};
ghost use Rattle.xk_numbering.specs.Views.{part};

use std::alloc::{AllocError, Global};
use xk_tree::{ClockList, Method, Stmt, Tree};

/// What has code of its own.
#[derive(Clone, Copy)]
pub enum Part<'a, 't> {
    /// A method.
    Method(&'a Method<'t>),
    /// The body of an `async`, by the offset of that word, with the clocks that it lists.
    Body(usize, &'a Option<ClockList<'t>>, &'a Stmt<'t>),
}

impl<'a, 't> Part<'a, 't> {
    ghost use Rattle.std.specs.Prelude.{◌≡◌};
    ghost use Rattle.xk_numbering.specs.Views.{offset, part};

    /// Where it stands: a method's name, or the `async` of a body.
    pub fn offset(&self) -> usize
        ensures { result ≡ offset (part self.now) }
    {
        match self {
            Part::Method(method) => method.name.at,
            Part::Body(at, _, _) => *at,
        }
    }
}

/// Adds a part.
pub(crate) fn add_part<'a, 't>(
    found: &mut Vec<Part<'a, 't>>,
    p: Part<'a, 't>,
) -> Result<(), AllocError>
    ensures items { OnOk result (found.new.items ≡ found.old.items ++ p.entry ∷ []) }
    ensures parts { OnOk result (map part found.new.items
        ≡ map part found.old.items ++ part p.entry ∷ []) }
{
    match found.push(p) {
        Ok(()) => Ok(()),
        Err(_) => Err(AllocError),
    }
}

/// Adds the body of an `async`.
fn add_body<'a, 't>(
    found: &mut Vec<Part<'a, 't>>,
    at: usize,
    clocks: &'a Option<ClockList<'t>>,
    s: &'a Stmt<'t>,
) -> Result<(), AllocError>
    ensures { OnOk result (map part found.new.items ≡ map part found.old.items
        ++ OfBody at (option_map clock_list clocks.now) (statement s.now) ∷ []) }
{
    add_part(found, Part::Body(at, clocks, s))
}

/// Adds the bodies of `async` in a statement.
#[cycle(bodies)]
fn add_bodies<'a, 't>(found: &mut Vec<Part<'a, 't>>, s: &'a Stmt<'t>) -> Result<(), AllocError>
    ensures { OnOk result (map part found.new.items
        ≡ map part found.old.items ++ bodies (statement s.now)) }
{
    match s {
        Stmt::Block(_, ss) => add_bodies_all(found, ss),
        Stmt::If(_, _, _, _, s) => add_bodies(found, s),
        Stmt::For(_, _, _, _, s) => add_bodies(found, s),
        Stmt::Finish(_, s) => add_bodies(found, s),
        Stmt::IfElse(_, _, _, _, s, u) => {
            add_bodies(found, s)?;
            add_bodies(found, u)
        }
        Stmt::Async(at, clocks, s) => {
            add_body(found, *at, clocks, s)?;
            add_bodies(found, s)
        }
        Stmt::Empty
        | Stmt::Declare(..)
        | Stmt::Assign(..)
        | Stmt::Atomic(..)
        | Stmt::Call(..)
        | Stmt::Resume(..)
        | Stmt::Drop(..)
        | Stmt::AdvanceAll(..)
        | Stmt::Print(..) => Ok(()),
    }
}

/// The same for statements, one after another.
#[cycle(bodies)]
fn add_bodies_all<'a, 't>(
    found: &mut Vec<Part<'a, 't>>,
    ss: &'a [Stmt<'t>],
) -> Result<(), AllocError>
    ensures { OnOk result (map part found.new.items
        ≡ map part found.old.items ++ bodies_all (statements ss.now)) }
{
    for s in ss {
        add_bodies(found, s)?;
    }
    Ok(())
}

/// Adds a method and the bodies in it.
fn add_method<'a, 't>(
    found: &mut Vec<Part<'a, 't>>,
    method: &'a Method<'t>,
) -> Result<(), AllocError>
    ensures { OnOk result (map part found.new.items
        ≡ map part found.old.items ++ method_parts (method_value method.now)) }
{
    add_part(found, Part::Method(method))?;
    add_bodies_all(found, &method.body)
}

/// The parts of a program, in the order of the text.
pub(crate) fn parts<'a, 't>(
    alloc: Global,
    tree: &'a Tree<'t>,
) -> Result<Vec<Part<'a, 't>>, AllocError>
    ensures { IfOk result (λ found. map part found.items ≡ parts (tree_value tree.now)) }
{
    let mut found = Vec::new(alloc);
    for method in &tree.methods {
        add_method(&mut found, method)?;
    }
    Ok(found)
}

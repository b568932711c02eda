//! How the loops and finishes of units lie.

ghost use Rattle.std.specs.Prelude.{◌≡◌, ◌≤◌, length, IfOk};
ghost use Rattle.xk_shape.specs.Layout.{IsLayout, AreLayouts, IsNested};
ghost use Rattle.xk_shape.specs.declared.layout.Layout.TheVariants.{Nested};

use crate::nesting::{Span, spans};
use crate::tables::Tables;
use std::alloc::{AllocError, Global};
use xk_types::{Module, Unit};

/// How the loops and finishes of a unit lie.
#[derive(Drop)]
pub(crate) enum Layout {
    /// They nest, and so the tables of the unit are known.
    Nested(Tables),
    /// Some are amiss. These are all that the unit has.
    Amiss(Vec<Span>),
}

/// How the loops and finishes of each unit lie. The error is that room was refused.
pub(crate) fn layouts(alloc: Global, m: &Module) -> Result<Vec<Layout>, AllocError>
    ensures { IfOk result (λ found. AreLayouts m.now found.items) }
{
    let mut found = Vec::new(alloc);
    for u in m.units() {
        found.push(Layout::of(alloc, u)?)?;
    }
    Ok(found)
}

impl Layout {
    /// How those of the unit lie. The error is that room was refused.
    fn of(alloc: Global, u: &Unit) -> Result<Layout, AllocError>
        requires { length u.now.code ≤ 4096 }
        ensures { IfOk result (IsLayout u.now) }
    {
        match Tables::of(alloc, u)? {
            Some(tables) => Ok(Layout::Nested(tables)),
            None => Ok(Layout::Amiss(spans(alloc, u)?)),
        }
    }

    /// The tables of a unit whose loops and finishes nest.
    pub(crate) fn tables(&self) -> &Tables
        requires { IsNested self.now }
        ensures { self.now ≡ Nested result.now }
    {
        match self {
            Layout::Nested(tables) => tables,
            Layout::Amiss(_) => unreachable!(),
        }
    }
}

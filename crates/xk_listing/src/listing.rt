//! All units of a program.

ghost use Rattle.std.specs.Prelude.{◌≡◌, [], ◌++◌, None, OnOk, IfOk};
ghost use Rattle.xk_types.specs.Shape.{HasShape};
ghost use Rattle.xk_shape.specs.Fault.{Refuses};
ghost use Rattle.xk_listing.specs.Listing.{IsListing, ListsKinds, gap, listing, unit_lines, unit_text, units_text};

use crate::fields::push_text;
use crate::module_units::{ModuleUnit, push_module_unit};
use crate::source_text::SourceText;
use crate::source_units::{SourceUnit, push_source_unit};
use std::alloc::{AllocError, Global};
use xk_shape::{ShapeError, Shaped, shape};
use xk_types::{Module, Unit};
use xk_typestate::{KindTables, kind_tables};
use xk_unit_origins::UnitOrigins;

/// Adds an empty line before a unit that isn't the first.
fn push_gap(out: &mut Vec<u8>, unit: usize) -> Result<(), AllocError>
    ensures { OnOk result (out.new.items ≡ out.old.items ++ gap unit) }
{
    match unit {
        0 => Ok(()),
        _ => push_text(out, "\n"),
    }
}

/// What is known of a program beside its code: its text, the origins of its units, and the kinds of their slots.
#[derive(Clone, Copy)]
struct Known<'a, 't> {
    source: &'a SourceText<'t>,
    origins: &'a [UnitOrigins<'t>],
    kinds: &'a Option<KindTables>,
}

/// Adds the lines of a unit, by its origins if it has some.
fn push_unit_lines(
    alloc: Global,
    out: &mut Vec<u8>,
    known: &Known<'_, '_>,
    number: usize,
    unit: &Unit,
) -> Result<(), AllocError>
    ensures { OnOk result (out.new.items ≡ out.old.items ++ unit_lines known.now.source.now
        known.now.origins.now known.now.kinds.now number unit.now) }
{
    let kinds = known.kinds;
    match known.origins.get(number) {
        Some(origins) => {
            let u = SourceUnit {
                source: known.source,
                origins,
                kinds,
                number,
                unit,
            };
            push_source_unit(alloc, out, &u)
        }
        None => {
            let u = ModuleUnit {
                kinds,
                number,
                unit,
            };
            push_module_unit(alloc, out, &u)
        }
    }
}

/// Adds a unit.
#[tactic(auto, unfolding(crate::specs::Listing::unit_text))]
fn push_unit(
    alloc: Global,
    out: &mut Vec<u8>,
    known: &Known<'_, '_>,
    number: usize,
    unit: &Unit,
) -> Result<(), AllocError>
    ensures { OnOk result (out.new.items ≡ out.old.items ++ unit_text known.now.source.now
        known.now.origins.now known.now.kinds.now number unit.now) }
{
    push_gap(out, number)?;
    push_unit_lines(alloc, out, known, number, unit)
}

/// Adds these units.
fn push_units(
    alloc: Global,
    out: &mut Vec<u8>,
    known: &Known<'_, '_>,
    units: &[Unit],
) -> Result<(), AllocError>
    ensures { OnOk result (out.new.items ≡ out.old.items ++ units_text known.now.source.now
        known.now.origins.now units.now known.now.kinds.now) }
{
    for (unit, u) in units.iter().enumerate() {
        push_unit(alloc, out, known, unit, u)?;
    }
    Ok(())
}

/// All units, with these kinds.
fn list_units(
    alloc: Global,
    text: &[u8],
    origins: &[UnitOrigins<'_>],
    m: &Module,
    kinds: &Option<KindTables>,
) -> Result<Vec<u8>, AllocError>
    ensures { IfOk result (λ v. v.items
        ≡ listing text.now origins.now m.now kinds.now) }
{
    let source = SourceText::new(alloc, text)?;
    let known = Known {
        source: &source,
        origins,
        kinds,
    };
    let mut out = Vec::new(alloc);
    push_units(alloc, &mut out, &known, m.units())?;
    Ok(out)
}

/// All units of a module that has the shape, with the kinds that walks come with.
fn list_shaped(
    alloc: Global,
    text: &[u8],
    origins: &[UnitOrigins<'_>],
    shaped: &Shaped,
) -> Result<Vec<u8>, AllocError>
    ensures { IfOk result (λ v. ListsKinds text.now origins.now shaped.now v.items) }
{
    let kinds = Some(kind_tables(alloc, shaped)?);
    list_units(alloc, text, origins, shaped.module(), &kinds)
}

/// All units of a module that has no shape, if that is what the error says.
#[tactic(auto, using(crate::proofs::ShapeLemmas::shapeless))]
fn list_shapeless(
    alloc: Global,
    text: &[u8],
    origins: &[UnitOrigins<'_>],
    m: &Module,
    error: ShapeError,
) -> Result<Vec<u8>, AllocError>
    requires { Refuses m.now error }
    ensures { IfOk result (λ v. (HasShape m.now → ⊥)
        × (v.items ≡ listing text.now origins.now m.now None)) }
{
    match error {
        ShapeError::Fault(_) => list_units(alloc, text, origins, m, &None),
        ShapeError::OutOfMemory => Err(AllocError),
    }
}

/// The listing of the module of a source text, whose units have these origins: each unit with its name, place and slots, and its instructions in
/// words, with the slots that may hold clocks before them and the statements that they come from. What slots may hold is what walks come with,
/// also of a module that V11 to V13 refuse; of one that has no shape, which V1 to V10 refuse, it isn't told. Err where memory was refused.
pub fn list_source(
    alloc: Global,
    text: &[u8],
    origins: &[UnitOrigins<'_>],
    m: Module,
) -> Result<Vec<u8>, AllocError>
    ensures { IfOk result (λ v. IsListing text.now origins.now m v.items) }
{
    match shape(alloc, m) {
        Ok(shaped) => list_shaped(alloc, text, origins, &shaped),
        Err((m, error)) => list_shapeless(alloc, text, origins, &m, error),
    }
}

/// The same of a module without a text: units, slots and instructions by their numbers alone. Err where memory was refused.
pub fn list_module(alloc: Global, m: Module) -> Result<Vec<u8>, AllocError>
    ensures { IfOk result (λ v. IsListing [] [] m v.items) }
{
    list_source(alloc, b"", &[], m)
}

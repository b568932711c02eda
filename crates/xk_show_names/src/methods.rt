//! Which method of a source text a unit belongs to.

ghost use Rattle.std.specs.Prelude.{◌≡◌, option_map, IfOk};
ghost use Rattle.xk_show_names.specs.Methods.{is_nearer, method_at, method_of, nearer, prefix_at, prefix_by};

use crate::letters::cut_name;
use std::alloc::{AllocError, Global};
use xk_types::UnitKind;
use xk_unit_origins::{Head, UnitOrigins};

/// Whether the name of a method stands there, or before it, and behind that of the one found so far.
fn is_nearer(at: usize, found: Option<&Head<'_>>, head: &Head<'_>) -> bool
    ensures { result ≡ is_nearer at (option_map (λ h. h.now) found.entry) head.now }
{
    if head.name.is_none() || head.at > at {
        return false;
    }
    match found {
        Some(found) => found.at < head.at,
        None => true,
    }
}

/// The nearer of the one found so far and another one, if that is one.
fn nearer<'o, 't>(
    at: usize,
    found: Option<&'o Head<'t>>,
    head: &'o Head<'t>,
) -> Option<&'o Head<'t>>
    ensures { option_map (λ h. h.now) result
        ≡ nearer at (option_map (λ h. h.now) found.entry) head.now }
{
    if is_nearer(at, found, head) {
        return Some(head);
    }
    found
}

/// The method that a place of the text is in.
fn method_at<'o, 't>(origins: &'o [UnitOrigins<'t>], at: usize) -> Option<&'o Head<'t>>
    ensures { option_map (λ h. h.now) result ≡ method_at origins.now at }
{
    let mut found = None;
    for of_unit in origins {
        found = nearer(at, found, &of_unit.head);
    }
    found
}

/// The method of a unit: of the body of an `async` the one that it stands in.
fn method_of<'o, 't>(origins: &'o [UnitOrigins<'t>], unit: u16) -> Option<&'o Head<'t>>
    ensures { option_map (λ h. h.now) result ≡ method_of origins.now unit }
{
    match origins.get(unit as usize) {
        Some(of_unit) => method_at(origins, of_unit.head.at),
        None => None,
    }
}

/// What stands before the names of a method of this kind: nothing before those of main.
fn prefix_by(alloc: Global, head: &Head<'_>) -> Result<Vec<u8>, AllocError>
    ensures { IfOk result (λ v. v.items ≡ prefix_by head.now.kind head.now.name) }
{
    match head.kind {
        UnitKind::Method => match head.name {
            Some(name) => {
                let mut letters = cut_name(alloc, name)?;
                letters.push(b'.')?;
                Ok(letters)
            }
            None => Ok(Vec::new(alloc)),
        },
        UnitKind::Main => Ok(Vec::new(alloc)),
        UnitKind::Body => Ok(Vec::new(alloc)),
    }
}

/// What stands before a name of this unit.
pub(crate) fn prefix_at(
    alloc: Global,
    origins: &[UnitOrigins<'_>],
    unit: u16,
) -> Result<Vec<u8>, AllocError>
    ensures { IfOk result (λ v. v.items ≡ prefix_at origins.now unit) }
{
    match method_of(origins, unit) {
        Some(head) => prefix_by(alloc, head),
        None => Ok(Vec::new(alloc)),
    }
}

//! A name that a text doesn't have yet.

ghost use Rattle.std.specs.Prelude.{◌≡◌, option_map, IfOk};
ghost use Rattle.xk_explain_kinds.specs.Declarations.{declared_here};
ghost use Rattle.xk_explain_kinds.specs.FreeNames.{free_name, is_taken, val_of};

use crate::declaration::Declaration;
use crate::texts::{around, push_text};
use std::alloc::{AllocError, Global};
use xk_explain_words::{is_same, told_name};

/// Whether something is declared by this name, wherever that is.
pub fn is_taken(name: &[u8], all: &[Declaration<'_>]) -> bool
    ensures { result ≡ is_taken name.now (declared_here all.now) }
{
    for d in all {
        if is_same(d.name.text, name) {
            return true;
        }
    }
    false
}

/// The first of `t`, `t1` and `t2` by which nothing is declared; none where each of them is taken.
pub fn free_name(all: &[Declaration<'_>]) -> Option<&'static [u8]>
    ensures { option_map (λ n. n.now) result ≡ free_name (declared_here all.now) }
{
    if !is_taken(b"t", all) {
        return Some(b"t");
    }
    if !is_taken(b"t1", all) {
        return Some(b"t1");
    }
    if !is_taken(b"t2", all) {
        return Some(b"t2");
    }
    None
}

/// A `val` of this name that keeps a number. Err where memory was refused.
#[tactic(auto, unfolding(crate::specs::FreeNames::val_of))]
pub fn val_of(alloc: Global, new: &[u8], name: &[u8]) -> Result<Vec<u8>, AllocError>
    ensures { IfOk result (λ v. v.items ≡ val_of new.now name.now) }
{
    let told = told_name(alloc, name)?;
    let mut out = around(alloc, "`val ", new, " = ")?;
    out.extend_from_slice(&told)?;
    push_text(&mut out, ";`")?;
    Ok(out)
}

//! The slots of names: what a declaration adds to a scope, and what is handed to a unit.

ghost use Rattle.std.specs.Prelude.{◌≡◌, ℕ, ◌≤◌, [], ◌∷◌, ◌++◌, length, map, option_map, All, unwrap_or, OnOk, IfOk, IfErr, ⊤};
ghost use Rattle.xk_tree.specs.Tree.{Bound as LoopBound, Statement, Statements, Word, clock_list, words};
ghost use Rattle.xk_names.specs.Scope.{Table as Names, find, texts};
ghost use Rattle.xk_names.specs.Uses.{clocks_listed};
ghost use Rattle.xk_emit.specs.CodeOf.{declared, declared_by_all, slots_of, within_loop};
ghost use Rattle.xk_emit.specs.NameCoverage.{IsFound, IsNew};
ghost use Rattle.xk_emit.specs.Room.{Denies};

use crate::error::CodeError;
use crate::expressions::{Scope, number};
use std::alloc::Global;
use xk_tree::{ClockList, Name};
use xk_types::{Args, MAX_ARGS};

/// A name that is declared has the next slot.
pub(crate) fn declare<'t>(scope: &mut Scope<'t>, text: &'t [u8], n: u16) -> Result<(), CodeError>
    ensures scope { OnOk result (scope.new ≡ scope.old ++ (text.now, n) ∷ []) }
    ensures refused { IfErr result (λ e. Denies e (IsNew scope.old text.now) ⊤) }
{
    if scope.find(text).is_some() {
        return Err(CodeError::Name);
    }
    scope.put(text, n)?;
    Ok(())
}

/// The names of a scope that ends are no longer visible: `len` of them were before it.
#[tactic(auto, using(crate::proofs::ScopeLemmas::cut_back, crate::proofs::ScopeLemmas::cut_all_back, crate::proofs::ScopeLemmas::cut_loop_back))]
pub(crate) fn cut(scope: &mut Scope<'_>, len: usize)
    ensures statement { (names : Names ℕ) (n : ℕ) (s : Statement)
        → scope.old ≡ declared names n s → len ≡ length names → scope.new ≡ names }
    ensures statements { (names : Names ℕ) (n : ℕ) (ss : Statements)
        → scope.old ≡ declared_by_all names n ss → len ≡ length names → scope.new ≡ names }
    ensures turn { (names : Names ℕ) (n m : ℕ) (i : Word) (b : LoopBound) (s : Statement)
        → scope.old ≡ declared (within_loop names n i b) m s → len ≡ length names
        → scope.new ≡ names }
{
    scope.truncate(len);
}

/// The slots of names, behind others.
fn push_names<'t>(
    slots: &mut Vec<u16>,
    scope: &Scope<'t>,
    names: &[Name<'t>],
) -> Result<(), CodeError>
    ensures slots { OnOk result (slots.new.items
        ≡ slots.old.items ++ slots_of scope.now (texts (words names.now))) }
    ensures refused { IfErr result
        (λ e. Denies e (All (IsFound scope.now) (texts (words names.now))) ⊤) }
{
    for name in names {
        slots.push(number(scope, *name)?)?;
    }
    Ok(())
}

/// The slot of a name, by its text.
fn slot<'t>(scope: &Scope<'t>, text: &'t [u8]) -> Result<u16, CodeError>
    ensures slot { IfOk result (λ n. n ≡ unwrap_or (find scope.now text.now) 0) }
    ensures refused { IfErr result (λ e. Denies e (IsFound scope.now text.now) ⊤) }
{
    scope.find(text).ok_or(CodeError::Name)
}

/// The slots of captured numbers, behind others.
pub(crate) fn push_texts<'t>(
    slots: &mut Vec<u16>,
    scope: &Scope<'t>,
    names: &[&'t [u8]],
) -> Result<(), CodeError>
    ensures slots { OnOk result (slots.new.items
        ≡ slots.old.items ++ slots_of scope.now (map (λ x. x.now) names.now)) }
    ensures refused { IfErr result
        (λ e. Denies e (All (IsFound scope.now) (map (λ x. x.now) names.now)) ⊤) }
{
    for name in names {
        slots.push(slot(scope, *name)?)?;
    }
    Ok(())
}

/// The slots of the clocks that an `async` lists.
pub(crate) fn clock_slots<'t>(
    alloc: Global,
    scope: &Scope<'t>,
    clocks: &Option<ClockList<'t>>,
) -> Result<Vec<u16>, CodeError>
    ensures slots { IfOk result (λ slots. slots.items
        ≡ slots_of scope.now (texts (clocks_listed (option_map clock_list clocks.now)))) }
    ensures refused { IfErr result (λ e. Denies e
        (All (IsFound scope.now) (texts (clocks_listed (option_map clock_list clocks.now)))) ⊤) }
{
    let mut slots = Vec::new(alloc);
    if let Some(list) = clocks {
        push_names(&mut slots, scope, &list.names)?;
    }
    Ok(slots)
}

/// What is handed to a unit.
pub(crate) fn args(slots: Vec<u16>) -> Result<Args, CodeError>
    ensures args { IfOk result (λ args. args ≡ slots.items) }
    ensures refused { IfErr result (λ e. Denies e ⊤ (length slots.items ≤ 64)) }
{
    if slots.len() > MAX_ARGS {
        return Err(CodeError::Table);
    }
    Ok(Args::new(slots))
}

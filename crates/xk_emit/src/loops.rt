//! The head, the names and the end of a loop.

ghost use Rattle.std.specs.Prelude.{◌≡◌, ◌+◌, ◌<◌, ◌≤◌, List, [], ◌∷◌, ◌++◌, length, OnOk, IfOk, IfErr, ⊤};
ghost use Rattle.xk_types.specs.declared.instr.Instr.{Instr as Instruction};
ghost use Rattle.xk_types.specs.declared.instr.Instr.TheVariants as instr;
ghost use Rattle.xk_tree.specs.Tree.{bound, word};
ghost use Rattle.xk_emit.specs.CodeOf.{before_bound, head_of, loop_slots, within_loop};
ghost use Rattle.xk_emit.specs.NameCoverage.{IsBoundKnown, IsLoopNew};
ghost use Rattle.xk_emit.specs.Room.{Denies, HasRoom};

use crate::error::CodeError;
use crate::expressions::{Scope, after, emit_into, push};
use crate::gaps::{patch, place};
use crate::slots::declare;
use xk_tree::{Bound, Name, Number};
use xk_types::Instr;

/// The turns of a loop: the name that counts them, its first number, and the bound.
#[derive(Clone, Copy)]
pub(crate) struct Turns<'e, 't> {
    pub(crate) name: Name<'t>,
    pub(crate) lo: Number,
    pub(crate) limit: &'e Bound<'t>,
}

/// The slot behind those of a loop's names, where n is the next.
pub(crate) fn behind_names(n: u16, limit: &Bound<'_>) -> Result<u16, CodeError>
    ensures next { IfOk result (λ m. m ≡ n + loop_slots (bound limit.now)) }
    ensures low { OnOk result (n < 64) }
    ensures refused { IfErr result (λ e. Denies e ⊤ (n + loop_slots (bound limit.now) ≤ 64)) }
{
    match limit {
        Bound::UpTo(_) => after(n),
        Bound::Least(..) => after(after(n)?),
    }
}

/// The code that brings the limit of a loop over slot n into its slot, the one behind n.
pub(crate) fn emit_limit<'t>(
    code: &mut Vec<Instr>,
    scope: &Scope<'t>,
    t: u16,
    n: u16,
    limit: &Bound<'t>,
) -> Result<(), CodeError>
    requires low { n < 64 }
    ensures code { OnOk result (code.new.items
        ≡ code.old.items ++ before_bound scope.now t n (bound limit.now)) }
    ensures refused { IfErr result (λ e. Denies e (IsBoundKnown scope.now (bound limit.now))
        (HasRoom scope.now (length code.old.items)
        (before_bound scope.now t n (bound limit.now)))) }
{
    match limit {
        Bound::UpTo(_) => Ok(()),
        Bound::Least(_, _, e, _) => emit_into(code, scope, t, e, n + 1),
    }
}

/// The names of a loop over slot n are visible.
pub(crate) fn declare_loop<'t>(
    scope: &mut Scope<'t>,
    n: u16,
    turns: Turns<'_, 't>,
) -> Result<(), CodeError>
    requires low { n < 64 }
    ensures scope { OnOk result
        (scope.new ≡ within_loop scope.old n (word turns.entry.name)
        (bound turns.entry.limit.now)) }
    ensures refused { IfErr result (λ e. Denies e
        (IsLoopNew scope.old n (word turns.entry.name) (bound turns.entry.limit.now)) ⊤) }
{
    declare(scope, turns.name.text, n)?;
    match turns.limit {
        Bound::UpTo(_) => Ok(()),
        Bound::Least(x, _, _, _) => declare(scope, x.text, n + 1),
    }
}

/// The head of a loop over slot n, whose `next` stands at this place.
fn head(n: u16, lo: Number, limit: &Bound<'_>, next: u16) -> Instr
    requires low { n < 64 }
    ensures { result ≡ head_of n lo.value (bound limit.now) next }
{
    match limit {
        Bound::UpTo(hi) => Instr::For {
            k: n,
            lo: lo.value,
            hi: hi.value,
            e: next,
        },
        Bound::Least(_, _, _, hi) => Instr::ForTo {
            k: n,
            lo: lo.value,
            x: n + 1,
            hi: hi.value,
            e: next,
        },
    }
}

/// Ends a loop over slot n, for which a gap was left.
pub(crate) fn close_loop(
    code: &mut Vec<Instr>,
    at: u16,
    n: u16,
    turns: Turns<'_, '_>,
) -> Result<(), CodeError>
    requires low { n < 64 }
    ensures code { OnOk result ((front body : List Instruction) (old : Instruction)
        → code.old.items ≡ front ++ old ∷ body → at ≡ length front
        → code.new.items
        ≡ front ++ head_of n turns.entry.lo.value (bound turns.entry.limit.now)
        (length front + 1 + length body) ∷ (body ++ instr.Next (length front) ∷ [])) }
    ensures refused { IfErr result (λ e. Denies e ⊤ (length code.old.items < 4096)) }
{
    let end = place(code)?;
    push(code, Instr::Next(at))?;
    patch(code, at as usize, head(n, turns.lo, turns.limit, end));
    Ok(())
}

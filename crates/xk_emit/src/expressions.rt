//! The code of expressions.

ghost use Rattle.std.specs.Prelude.{◌≡◌, ◌+◌, ◌<◌, [], ◌∷◌, ◌++◌, length, All, OnOk, IfOk, IfErr, ⊤};
ghost use Rattle.xk_tree.specs.Tree.{word, expression, expressions};
ghost use Rattle.xk_emit.specs.CodeOf.{argument_slots, before_into, behind, both, eval, eval_all, instr_of, last_into, number_of, second, slot_for};
ghost use Rattle.xk_emit.specs.NameCoverage.{IsFound, IsKnown};
ghost use Rattle.xk_emit.specs.Room.{Denies, HasRoom};

use crate::error::CodeError;
use std::alloc::Global;
use xk_names::Table;
use xk_tree::{Expr, Name, Operator};
use xk_types::{Instr, MAX_CODE, MAX_SLOTS};

/// The slots of the names that are visible.
pub(crate) type Scope<'t> = Table<'t, u16>;

/// One more instruction.
pub(crate) fn push(code: &mut Vec<Instr>, instr: Instr) -> Result<(), CodeError>
    ensures code { OnOk result (code.new.items ≡ code.old.items ++ instr ∷ []) }
    ensures refused { IfErr result (λ e. Denies e ⊤ (length code.old.items < 4096)) }
{
    if code.len() >= MAX_CODE {
        return Err(CodeError::Table);
    }
    code.push(instr)?;
    Ok(())
}

/// The number that a table has for a name.
pub(crate) fn number<'t>(table: &Table<'t, u16>, x: Name<'t>) -> Result<u16, CodeError>
    ensures number { IfOk result (λ n. n ≡ number_of table.now (word x.entry)) }
    ensures refused { IfErr result (λ e. Denies e (IsFound table.now x.entry.text.now) ⊤) }
{
    table.find(x.text).ok_or(CodeError::Name)
}

/// The slot behind one.
pub(crate) fn after(n: u16) -> Result<u16, CodeError>
    ensures next { IfOk result (λ m. m ≡ n + 1) }
    ensures low { OnOk result (n < 64) }
    ensures refused { IfErr result (λ e. Denies e ⊤ (n < 64)) }
{
    if n < MAX_SLOTS {
        Ok(n + 1)
    } else {
        Err(CodeError::Table)
    }
}

/// The first free temporary behind an expression whose number is in slot x.
fn free(t: u16, x: u16) -> Result<u16, CodeError>
    ensures next { IfOk result (λ u. u ≡ behind t x) }
    ensures refused { IfErr result (λ e. Denies e ⊤ (x ≡ t → t < 64)) }
{
    if x == t { after(t) } else { Ok(t) }
}

/// The instruction that joins two slots.
fn joined(operator: Operator, d: u16, x: u16, y: u16) -> Instr
    ensures { result ≡ instr_of operator d x y }
{
    match operator {
        Operator::Plus => Instr::Add { d, a: x, b: y },
        Operator::Minus => Instr::Sub { d, a: x, b: y },
        Operator::Times => Instr::Mul { d, a: x, b: y },
    }
}

/// The code of an expression, and the slot that its number is in.
pub(crate) fn emit_expr<'t>(
    code: &mut Vec<Instr>,
    scope: &Scope<'t>,
    t: u16,
    e: &Expr<'t>,
) -> Result<u16, CodeError>
    ensures code { OnOk result
        (code.new.items ≡ code.old.items ++ eval scope.now t (expression e.now)) }
    ensures slot { IfOk result (λ x. x ≡ slot_for scope.now t (expression e.now)) }
    ensures refused { IfErr result (λ err. Denies err (IsKnown scope.now (expression e.now))
        (HasRoom scope.now (length code.old.items) (eval scope.now t (expression e.now)))) }
{
    match e {
        Expr::Number(n) => {
            push(code, Instr::Lit { d: t, n: n.value })?;
            Ok(t)
        }
        Expr::Name(x) => number(scope, *x),
        Expr::Paren(_, e) => emit_expr(code, scope, t, e),
        Expr::Negation(_, e) => {
            push(code, Instr::Lit { d: t, n: 0 })?;
            let y = emit_expr(code, scope, after(t)?, e)?;
            push(code, Instr::Sub { d: t, a: t, b: y })?;
            Ok(t)
        }
        Expr::Binary(operator, l, _, r) => {
            let x = emit_expr(code, scope, t, l)?;
            let y = emit_expr(code, scope, free(t, x)?, r)?;
            push(code, joined(*operator, t, x, y))?;
            Ok(t)
        }
    }
}

/// The code of two expressions, and the slots that their numbers are in.
pub(crate) fn emit_both<'t>(
    code: &mut Vec<Instr>,
    scope: &Scope<'t>,
    t: u16,
    l: &Expr<'t>,
    r: &Expr<'t>,
) -> Result<(u16, u16), CodeError>
    ensures code { OnOk result (code.new.items
        ≡ code.old.items ++ both scope.now t (expression l.now) (expression r.now)) }
    ensures first { IfOk result (λ x. x.0 ≡ slot_for scope.now t (expression l.now)) }
    ensures second { IfOk result
        (λ x. x.1 ≡ second scope.now t (expression l.now) (expression r.now)) }
    ensures refused { IfErr result (λ err. Denies err
        (IsKnown scope.now (expression l.now) × IsKnown scope.now (expression r.now))
        (HasRoom scope.now (length code.old.items)
        (both scope.now t (expression l.now) (expression r.now)))) }
{
    let x = emit_expr(code, scope, t, l)?;
    let y = emit_expr(code, scope, free(t, x)?, r)?;
    Ok((x, y))
}

/// The code that puts an expression's number into slot d.
pub(crate) fn emit_into<'t>(
    code: &mut Vec<Instr>,
    scope: &Scope<'t>,
    t: u16,
    e: &Expr<'t>,
    d: u16,
) -> Result<(), CodeError>
    ensures code { OnOk result (code.new.items ≡ code.old.items
        ++ (before_into scope.now t (expression e.now)
        ++ last_into scope.now t (expression e.now) d ∷ [])) }
    ensures refused { IfErr result (λ err. Denies err (IsKnown scope.now (expression e.now))
        (HasRoom scope.now (length code.old.items)
        (before_into scope.now t (expression e.now)
        ++ last_into scope.now t (expression e.now) d ∷ []))) }
{
    match e {
        Expr::Number(n) => push(code, Instr::Lit { d, n: n.value }),
        Expr::Name(x) => push(
            code,
            Instr::Copy {
                d,
                a: number(scope, *x)?,
            },
        ),
        Expr::Paren(_, e) => emit_into(code, scope, t, e, d),
        Expr::Negation(_, e) => {
            push(code, Instr::Lit { d: t, n: 0 })?;
            let y = emit_expr(code, scope, after(t)?, e)?;
            push(code, Instr::Sub { d, a: t, b: y })
        }
        Expr::Binary(operator, l, _, r) => {
            let (x, y) = emit_both(code, scope, t, l, r)?;
            push(code, joined(*operator, d, x, y))
        }
    }
}

/// The code of arguments, and the slots that their numbers and clocks are in.
pub(crate) fn emit_args<'t>(
    alloc: Global,
    code: &mut Vec<Instr>,
    scope: &Scope<'t>,
    t: u16,
    args: &[Expr<'t>],
) -> Result<Vec<u16>, CodeError>
    ensures code { OnOk result (code.new.items
        ≡ code.old.items ++ eval_all scope.now t (expressions args.now)) }
    ensures slots { IfOk result
        (λ slots. slots.items ≡ argument_slots scope.now t (expressions args.now)) }
    ensures refused { IfErr result (λ err. Denies err
        (All (IsKnown scope.now) (expressions args.now))
        (HasRoom scope.now (length code.old.items)
        (eval_all scope.now t (expressions args.now)))) }
{
    let mut slots = Vec::new(alloc);
    let mut next = t;
    for arg in args {
        let x = emit_expr(code, scope, next, arg)?;
        slots.push(x)?;
        next = free(next, x)?;
    }
    Ok(slots)
}

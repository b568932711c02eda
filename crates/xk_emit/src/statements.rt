//! The code of statements.

ghost use Rattle.std.specs.Prelude.{◌≡◌, ◌+◌, ◌<◌, ◌≤◌, List, [], ◌∷◌, ◌++◌, length, OnOk, IfOk, IfErr, ⊤};
ghost use Rattle.xk_types.specs.declared.instr.Instr.{Instr as Instruction};
ghost use Rattle.xk_types.specs.declared.instr.Instr.TheVariants as instr;
ghost use Rattle.xk_tree.specs.Tree.{Block, Finish, For, If, bound, word, expression, statement, statements};
ghost use Rattle.xk_emit.specs.CodeOf.{before_bound, both, code_of, code_of_all, code_of_then, count, count_all, declared_by_all, loop_slots, second, slot_for, within_loop};
ghost use Rattle.xk_emit.specs.NameCoverage.{AreCovered, IsBoundKnown, IsCovered, IsKnown, IsLoopNew};
ghost use Rattle.xk_emit.specs.Room.{Denies, HasRoom};
ghost use Rattle.xk_emit.specs.EmittedCode.{DeniesCode, Emits};

use crate::error::CodeError;
use crate::expressions::{Scope, after, emit_both};
use crate::gaps::{Test, begin_else, close_else, close_finish, close_test, gap};
use crate::loops::{Turns, behind_names, close_loop, declare_loop, emit_limit};
use crate::setting::Setting;
use crate::slots::cut;
use std::alloc::Global;
use xk_tree::{Expr, Stmt};
use xk_types::{Comparison, Instr};

/// Makes the code of one unit.
#[derive(Drop)]
pub(crate) struct Emitter<'a, 't> {
    pub(crate) alloc: Global,
    pub(crate) setting: &'a Setting<'t>,
    /// The first temporary.
    pub(crate) free: u16,
}

/// What an `if` compares.
#[derive(Clone, Copy)]
struct Guard<'e, 't> {
    l: &'e Expr<'t>,
    op: Comparison,
    r: &'e Expr<'t>,
}

impl<'a, 't> Emitter<'a, 't> {
    /// The code of what a comparison compares, and a gap for it.
    fn open_test(
        &self,
        code: &mut Vec<Instr>,
        scope: &Scope<'t>,
        guard: Guard<'_, 't>,
    ) -> Result<Test, CodeError>
        ensures code { OnOk result (code.new.items ≡ code.old.items
            ++ (both scope.now self.now.free (expression guard.entry.l.now)
            (expression guard.entry.r.now) ++ instr.Jump 0 ∷ [])) }
        ensures place { IfOk result (λ test. test.at ≡ length code.old.items
            + length (both scope.now self.now.free (expression guard.entry.l.now)
            (expression guard.entry.r.now))) }
        ensures comparison { IfOk result (λ test. test.op ≡ guard.entry.op) }
        ensures first { IfOk result
            (λ test. test.x ≡ slot_for scope.now self.now.free (expression guard.entry.l.now)) }
        ensures second { IfOk result (λ test. test.y ≡ second scope.now self.now.free
            (expression guard.entry.l.now) (expression guard.entry.r.now)) }
        ensures refused { IfErr result (λ err. Denies err
            (IsKnown scope.now (expression guard.entry.l.now)
            × IsKnown scope.now (expression guard.entry.r.now))
            (HasRoom scope.now (length code.old.items)
            (both scope.now self.now.free (expression guard.entry.l.now)
            (expression guard.entry.r.now) ++ instr.Jump 0 ∷ []))) }
    {
        let (x, y) = emit_both(code, scope, self.free, guard.l, guard.r)?;
        let at = gap(code)?;
        Ok(Test {
            at,
            op: guard.op,
            x,
            y,
        })
    }

    /// The code of a block, and the slot behind those of its names, which end with it.
    #[cycle(emit)]
    fn emit_block(
        &self,
        code: &mut Vec<Instr>,
        scope: &mut Scope<'t>,
        n: u16,
        ss: &[Stmt<'t>],
    ) -> Result<u16, CodeError>
        ensures { Emits self.now.setting.now self.now.free scope.old n (Block 0 (statements ss.now))
            code.old.items code.new.items scope.new result }
    {
        let visible = scope.len();
        let m = self.emit_all(code, scope, n, ss)?;
        cut(scope, visible);
        Ok(m)
    }

    /// The code of an `if` without `else`, wherever it stands in the text.
    #[cycle(emit)]
    fn emit_if(
        &self,
        code: &mut Vec<Instr>,
        scope: &mut Scope<'t>,
        n: u16,
        guard: Guard<'_, 't>,
        s: &Stmt<'t>,
    ) -> Result<u16, CodeError>
        ensures { Emits self.now.setting.now self.now.free scope.old n
            (If 0 (expression guard.entry.l.now) guard.entry.op
            (expression guard.entry.r.now) (statement s.now))
            code.old.items code.new.items scope.new result }
    {
        let visible = scope.len();
        let test = self.open_test(code, scope, guard)?;
        let m = self.emit(code, scope, n, s)?;
        cut(scope, visible);
        close_test(code, test)?;
        Ok(m)
    }

    /// The code of an `if` up to its `else`: says which slot is next, and where a gap was left for the jump over that.
    #[cycle(emit)]
    fn emit_then(
        &self,
        code: &mut Vec<Instr>,
        scope: &mut Scope<'t>,
        n: u16,
        guard: Guard<'_, 't>,
        s: &Stmt<'t>,
    ) -> Result<(u16, u16), CodeError>
        ensures code { OnOk result (code.new.items ≡ code.old.items
            ++ code_of_then self.now.setting.now self.now.free scope.old n (length code.old.items)
            (expression guard.entry.l.now) guard.entry.op
            (expression guard.entry.r.now) (statement s.now)) }
        ensures scope { OnOk result (scope.new ≡ scope.old) }
        ensures slots { IfOk result (λ begun. begun.0 ≡ n + count (statement s.now)) }
        ensures place { IfOk result (λ begun. length code.new.items ≡ begun.1 + 1) }
        ensures refused { IfErr result (λ err. Denies err
            (IsKnown scope.old (expression guard.entry.l.now)
            × IsKnown scope.old (expression guard.entry.r.now)
            × IsCovered self.now.setting.now scope.old n (statement s.now))
            (HasRoom scope.old (length code.old.items)
            (code_of_then self.now.setting.now self.now.free scope.old n (length code.old.items)
            (expression guard.entry.l.now) guard.entry.op
            (expression guard.entry.r.now) (statement s.now))
            × (n + count (statement s.now) ≤ 64))) }
    {
        let visible = scope.len();
        let test = self.open_test(code, scope, guard)?;
        let m = self.emit(code, scope, n, s)?;
        cut(scope, visible);
        let jump = begin_else(code, test)?;
        Ok((m, jump))
    }

    /// The code behind an `else`, over which a jump goes, for which a gap was left.
    #[cycle(emit)]
    fn emit_else(
        &self,
        code: &mut Vec<Instr>,
        scope: &mut Scope<'t>,
        n: u16,
        s: &Stmt<'t>,
        jump: u16,
    ) -> Result<u16, CodeError>
        ensures code { OnOk result ((front : List Instruction) (old : Instruction)
            → code.old.items ≡ front ++ old ∷ [] → jump ≡ length front
            → code.new.items ≡ front ++ instr.Jump (length front + 1 + length (code_of
            self.now.setting.now self.now.free scope.old n (length code.old.items)
            (statement s.now))) ∷ code_of self.now.setting.now self.now.free scope.old n
            (length code.old.items) (statement s.now)) }
        ensures scope { OnOk result (scope.new ≡ scope.old) }
        ensures slots { IfOk result (λ m. m ≡ n + count (statement s.now)) }
        ensures refused { IfErr result (λ err. DeniesCode err self.now.setting.now self.now.free
            scope.old n (length code.old.items) (statement s.now)) }
    {
        let visible = scope.len();
        let m = self.emit(code, scope, n, s)?;
        cut(scope, visible);
        close_else(code, jump)?;
        Ok(m)
    }

    /// Begins a loop over slot n, whose names are visible inside: the code of its limit, and a gap for its head. Says where that is, and
    /// which is the next slot.
    fn open_loop(
        &self,
        code: &mut Vec<Instr>,
        scope: &mut Scope<'t>,
        n: u16,
        turns: Turns<'_, 't>,
    ) -> Result<(u16, u16), CodeError>
        ensures code { OnOk result (code.new.items ≡ code.old.items
            ++ (before_bound scope.old self.now.free n (bound turns.entry.limit.now)
            ++ instr.Jump 0 ∷ [])) }
        ensures place { IfOk result (λ begun. begun.0 ≡ length code.old.items
            + length (before_bound scope.old self.now.free n (bound turns.entry.limit.now))) }
        ensures next { IfOk result
            (λ begun. begun.1 ≡ n + loop_slots (bound turns.entry.limit.now)) }
        ensures low { OnOk result (n < 64) }
        ensures scope { OnOk result
            (scope.new ≡ within_loop scope.old n (word turns.entry.name)
            (bound turns.entry.limit.now)) }
        ensures refused { IfErr result (λ e. Denies e
            (IsBoundKnown scope.old (bound turns.entry.limit.now)
            × IsLoopNew scope.old n (word turns.entry.name) (bound turns.entry.limit.now))
            (HasRoom scope.old (length code.old.items)
            (before_bound scope.old self.now.free n (bound turns.entry.limit.now)
            ++ instr.Jump 0 ∷ [])
            × (n + loop_slots (bound turns.entry.limit.now) ≤ 64))) }
    {
        let inner = behind_names(n, turns.limit)?;
        emit_limit(code, scope, self.free, n, turns.limit)?;
        let first = gap(code)?;
        declare_loop(scope, n, turns)?;
        Ok((first, inner))
    }

    /// The code of a `for`: none where its bounds leave it no turn.
    #[cycle(emit)]
    fn emit_for(
        &self,
        code: &mut Vec<Instr>,
        scope: &mut Scope<'t>,
        n: u16,
        turns: Turns<'_, 't>,
        s: &Stmt<'t>,
    ) -> Result<u16, CodeError>
        ensures { Emits self.now.setting.now self.now.free scope.old n
            (For 0 (word turns.entry.name) turns.entry.lo (bound turns.entry.limit.now)
            (statement s.now))
            code.old.items code.new.items scope.new result }
    {
        if turns.lo.value > turns.limit.top() {
            return slots_behind(behind_names(n, turns.limit)?, s);
        }
        let visible = scope.len();
        let (first, inner) = self.open_loop(code, scope, n, turns)?;
        let m = self.emit(code, scope, inner, s)?;
        cut(scope, visible);
        close_loop(code, first, n, turns)?;
        Ok(m)
    }

    /// The code of a `finish`.
    #[cycle(emit)]
    fn emit_finish(
        &self,
        code: &mut Vec<Instr>,
        scope: &mut Scope<'t>,
        n: u16,
        s: &Stmt<'t>,
    ) -> Result<u16, CodeError>
        ensures { Emits self.now.setting.now self.now.free scope.old n (Finish 0 (statement s.now))
            code.old.items code.new.items scope.new result }
    {
        let visible = scope.len();
        let first = gap(code)?;
        let m = self.emit(code, scope, n, s)?;
        cut(scope, visible);
        close_finish(code, first)?;
        Ok(m)
    }

    /// The code of a statement, and the slot behind those of its names. Its names are visible behind it.
    #[cycle(emit)]
    fn emit(
        &self,
        code: &mut Vec<Instr>,
        scope: &mut Scope<'t>,
        n: u16,
        s: &Stmt<'t>,
    ) -> Result<u16, CodeError>
        ensures { Emits self.now.setting.now self.now.free scope.old n (statement s.now)
            code.old.items code.new.items scope.new result }
    {
        match s {
            Stmt::Block(_, ss) => self.emit_block(code, scope, n, ss),
            Stmt::If(_, l, op, r, s) => self.emit_if(code, scope, n, Guard { l, op: *op, r }, s),
            Stmt::IfElse(_, l, op, r, s, u) => {
                let guard = Guard { l, op: *op, r };
                let (m, jump) = self.emit_then(code, scope, n, guard, s)?;
                self.emit_else(code, scope, m, u, jump)
            }
            Stmt::For(_, i, lo, limit, s) => {
                let turns = Turns {
                    name: *i,
                    lo: *lo,
                    limit,
                };
                self.emit_for(code, scope, n, turns, s)
            }
            Stmt::Finish(_, s) => self.emit_finish(code, scope, n, s),
            Stmt::Empty
            | Stmt::Declare(..)
            | Stmt::Assign(..)
            | Stmt::Atomic(..)
            | Stmt::Async(..)
            | Stmt::Call(..)
            | Stmt::Resume(..)
            | Stmt::Drop(..)
            | Stmt::AdvanceAll(..)
            | Stmt::Print(..) => self.emit_simple(code, scope, n, s),
        }
    }

    /// The code of statements, one after another.
    #[cycle(emit)]
    pub(crate) fn emit_all(
        &self,
        code: &mut Vec<Instr>,
        scope: &mut Scope<'t>,
        n: u16,
        ss: &[Stmt<'t>],
    ) -> Result<u16, CodeError>
        ensures code { OnOk result (code.new.items ≡ code.old.items
            ++ code_of_all self.now.setting.now self.now.free scope.old n (length code.old.items)
            (statements ss.now)) }
        ensures scope { OnOk result (scope.new ≡ declared_by_all scope.old n (statements ss.now)) }
        ensures slots { IfOk result (λ m. m ≡ n + count_all (statements ss.now)) }
        ensures refused { IfErr result (λ err. Denies err
            (AreCovered self.now.setting.now scope.old n (statements ss.now))
            (HasRoom scope.old (length code.old.items)
            (code_of_all self.now.setting.now self.now.free scope.old n (length code.old.items)
            (statements ss.now)) × (n + count_all (statements ss.now) ≤ 64))) }
    {
        let mut next = n;
        for s in ss {
            next = self.emit(code, scope, next, s)?;
        }
        Ok(next)
    }
}

/// The slot behind those of a statement's names, where n is the next.
#[cycle(slots)]
fn slots_behind(n: u16, s: &Stmt<'_>) -> Result<u16, CodeError>
    ensures next { IfOk result (λ m. m ≡ n + count (statement s.now)) }
    ensures refused { IfErr result (λ e. Denies e ⊤ (n + count (statement s.now) ≤ 64)) }
{
    match s {
        Stmt::Block(_, ss) => slots_behind_all(n, ss),
        Stmt::Declare(..) => after(n),
        Stmt::If(_, _, _, _, s) => slots_behind(n, s),
        Stmt::IfElse(_, _, _, _, s, u) => slots_behind(slots_behind(n, s)?, u),
        Stmt::For(_, _, _, limit, s) => slots_behind(behind_names(n, limit)?, s),
        Stmt::Finish(_, s) => slots_behind(n, s),
        Stmt::Empty => Ok(n),
        Stmt::Assign(..) => Ok(n),
        Stmt::Atomic(..) => Ok(n),
        Stmt::Async(..) => Ok(n),
        Stmt::Call(..) => Ok(n),
        Stmt::Resume(..) => Ok(n),
        Stmt::Drop(..) => Ok(n),
        Stmt::AdvanceAll(..) => Ok(n),
        Stmt::Print(..) => Ok(n),
    }
}

/// The same for statements, one after another.
#[cycle(slots)]
pub(crate) fn slots_behind_all(n: u16, ss: &[Stmt<'_>]) -> Result<u16, CodeError>
    ensures next { IfOk result (λ m. m ≡ n + count_all (statements ss.now)) }
    ensures refused { IfErr result (λ e. Denies e ⊤ (n + count_all (statements ss.now) ≤ 64)) }
{
    let mut next = n;
    for s in ss {
        next = slots_behind(next, s)?;
    }
    Ok(next)
}

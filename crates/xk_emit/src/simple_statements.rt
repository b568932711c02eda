//! The code of statements that hold no statement, or only the body of an `async`.

ghost use Rattle.std.specs.Prelude.{◌≡◌, true, ◌+◌, ◌≤◌, [], ◌∷◌, ◌++◌, length, option_map, All, IsSome, OnOk, IfOk, IfErr};
ghost use Rattle.xk_types.specs.declared.instr.Instr.TheVariants as instr;
ghost use Rattle.xk_tree.specs.Tree.{clock_list, word, expression, expressions, source, statement};
ghost use Rattle.xk_names.specs.Scope.{find};
ghost use Rattle.xk_emit.specs.CodeOf.{argument_slots, before_assigned, before_into, body_at, body_params, body_unit, code_of_source, eval, eval_all, last_assigned, last_value, number_of, shared_alone, slot_for, slots_of};
ghost use Rattle.xk_emit.specs.NameCoverage.{IsAssignable, IsFound, IsKnown, IsNew, IsSourceKnown, IsValueKnown};
ghost use Rattle.xk_emit.specs.Room.{Denies, HasRoom};
ghost use Rattle.xk_emit.specs.EmittedCode.{Emits};
ghost use Rattle.xk_emit.specs.LeafStatements.{is_simple};

use crate::error::CodeError;
use crate::expressions::{Scope, after, emit_args, emit_expr, emit_into, number, push};
use crate::slots::{args, clock_slots, declare, push_texts};
use crate::statements::Emitter;
use xk_tree::{ClockList, Expr, Name, Right, Stmt};
use xk_types::Instr;

impl<'a, 't> Emitter<'a, 't> {
    /// The shared number that an expression is, where it is one's name alone.
    fn shared_alone(&self, e: &Expr<'t>) -> Option<u16>
        ensures { result ≡ shared_alone self.now.setting.now (expression e.now) }
    {
        match e {
            Expr::Name(x) => self.setting.shared(*x),
            Expr::Number(_) | Expr::Paren(..) | Expr::Negation(..) | Expr::Binary(..) => None,
        }
    }

    /// The code that puts an expression's number, or a shared number, into slot d.
    #[tactic(auto, using(crate::proofs::ScopeLemmas::alone_before))]
    fn emit_value(
        &self,
        code: &mut Vec<Instr>,
        scope: &Scope<'t>,
        e: &Expr<'t>,
        d: u16,
    ) -> Result<(), CodeError>
        ensures code { OnOk result (code.new.items ≡ code.old.items
            ++ (before_into scope.now self.now.free (expression e.now)
            ++ last_value self.now.setting.now scope.now self.now.free (expression e.now) d ∷ [])) }
        ensures refused { IfErr result (λ err. Denies err
            (IsValueKnown self.now.setting.now scope.now (expression e.now))
            (HasRoom scope.now (length code.old.items)
            (before_into scope.now self.now.free (expression e.now) ++ last_value
            self.now.setting.now scope.now self.now.free (expression e.now) d ∷ []))) }
    {
        match self.shared_alone(e) {
            Some(s) => push(code, Instr::Get { d, s }),
            None => emit_into(code, scope, self.free, e, d),
        }
    }

    /// The code of what stands behind the `=` of a declaration, for slot d.
    fn emit_source(
        &self,
        code: &mut Vec<Instr>,
        scope: &Scope<'t>,
        right: &Right<'t>,
        d: u16,
    ) -> Result<(), CodeError>
        ensures code { OnOk result (code.new.items ≡ code.old.items
            ++ code_of_source self.now.setting.now self.now.free scope.now d (source right.now)) }
        ensures refused { IfErr result (λ err. Denies err
            (IsSourceKnown self.now.setting.now scope.now (source right.now))
            (HasRoom scope.now (length code.old.items)
            (code_of_source self.now.setting.now self.now.free scope.now d (source right.now)))) }
    {
        match right {
            Right::Make(..) => push(code, Instr::Make(d)),
            Right::Expr(e) => self.emit_value(code, scope, e, d),
        }
    }

    /// The code of an assignment.
    fn emit_assigned(
        &self,
        code: &mut Vec<Instr>,
        scope: &Scope<'t>,
        x: Name<'t>,
        e: &Expr<'t>,
    ) -> Result<(), CodeError>
        ensures code { OnOk result (code.new.items ≡ code.old.items
            ++ (before_assigned scope.now self.now.free (expression e.now)
            (find self.now.setting.now.shared x.entry.text.now)
            ++ last_assigned self.now.setting.now scope.now self.now.free (word x.entry)
            (expression e.now) (find self.now.setting.now.shared x.entry.text.now) ∷ [])) }
        ensures refused { IfErr result (λ err. Denies err
            (IsAssignable self.now.setting.now scope.now (word x.entry) (expression e.now)
            (find self.now.setting.now.shared x.entry.text.now))
            (HasRoom scope.now (length code.old.items)
            (before_assigned scope.now self.now.free (expression e.now)
            (find self.now.setting.now.shared x.entry.text.now)
            ++ last_assigned self.now.setting.now scope.now self.now.free (word x.entry)
            (expression e.now) (find self.now.setting.now.shared x.entry.text.now) ∷ []))) }
    {
        match self.setting.shared(x) {
            Some(s) => {
                let y = emit_expr(code, scope, self.free, e)?;
                push(code, Instr::Put { s, a: y })
            }
            None => self.emit_value(code, scope, e, number(scope, x)?),
        }
    }

    /// The code of an `atomic`.
    fn emit_atomic(
        &self,
        code: &mut Vec<Instr>,
        scope: &Scope<'t>,
        x: Name<'t>,
        e: &Expr<'t>,
    ) -> Result<(), CodeError>
        ensures code { OnOk result (code.new.items ≡ code.old.items
            ++ (eval scope.now self.now.free (expression e.now)
            ++ instr.AddTo (number_of self.now.setting.now.shared (word x.entry))
            (slot_for scope.now self.now.free (expression e.now)) ∷ [])) }
        ensures refused { IfErr result (λ err. Denies err
            (IsFound self.now.setting.now.shared x.entry.text.now
            × IsKnown scope.now (expression e.now))
            (HasRoom scope.now (length code.old.items)
            (eval scope.now self.now.free (expression e.now)
            ++ instr.AddTo (number_of self.now.setting.now.shared (word x.entry))
            (slot_for scope.now self.now.free (expression e.now)) ∷ []))) }
    {
        let y = emit_expr(code, scope, self.free, e)?;
        push(
            code,
            Instr::AddTo {
                s: self.setting.place(x)?,
                a: y,
            },
        )
    }

    /// The code of a call.
    fn emit_call(
        &self,
        code: &mut Vec<Instr>,
        scope: &Scope<'t>,
        f: Name<'t>,
        es: &[Expr<'t>],
    ) -> Result<(), CodeError>
        ensures code { OnOk result (code.new.items ≡ code.old.items
            ++ (eval_all scope.now self.now.free (expressions es.now)
            ++ instr.Call (number_of self.now.setting.now.methods (word f.entry))
            (argument_slots scope.now self.now.free (expressions es.now)) ∷ [])) }
        ensures refused { IfErr result (λ err. Denies err
            (IsFound self.now.setting.now.methods f.entry.text.now
            × All (IsKnown scope.now) (expressions es.now))
            (HasRoom scope.now (length code.old.items)
            (eval_all scope.now self.now.free (expressions es.now)
            ++ instr.Call (number_of self.now.setting.now.methods (word f.entry))
            (argument_slots scope.now self.now.free (expressions es.now)) ∷ []))) }
    {
        let slots = emit_args(self.alloc, code, scope, self.free, es)?;
        push(
            code,
            Instr::Call {
                unit: self.setting.method(f)?,
                args: args(slots)?,
            },
        )
    }

    /// The code of a line that is printed.
    fn emit_print(
        &self,
        code: &mut Vec<Instr>,
        scope: &Scope<'t>,
        e: &Expr<'t>,
    ) -> Result<(), CodeError>
        ensures code { OnOk result (code.new.items ≡ code.old.items
            ++ (eval scope.now self.now.free (expression e.now)
            ++ instr.Print (slot_for scope.now self.now.free (expression e.now)) ∷ [])) }
        ensures refused { IfErr result (λ err. Denies err
            (IsKnown scope.now (expression e.now))
            (HasRoom scope.now (length code.old.items)
            (eval scope.now self.now.free (expression e.now)
            ++ instr.Print (slot_for scope.now self.now.free (expression e.now)) ∷ []))) }
    {
        let x = emit_expr(code, scope, self.free, e)?;
        push(code, Instr::Print(x))
    }

    /// The code of an `async`: the slots of its clocks, and then those of the numbers that it takes, are handed to its body.
    fn emit_async(
        &self,
        code: &mut Vec<Instr>,
        scope: &Scope<'t>,
        at: usize,
        clocks: &Option<ClockList<'t>>,
    ) -> Result<(), CodeError>
        ensures code { OnOk result (code.new.items ≡ code.old.items
            ++ instr.Spawn (body_unit self.now.setting.now at)
            (slots_of scope.now
            (body_params self.now.setting.now at (option_map clock_list clocks.now))) ∷ []) }
        ensures refused { IfErr result (λ err. Denies err
            (IsSome (body_at self.now.setting.now at) × All (IsFound scope.now)
            (body_params self.now.setting.now at (option_map clock_list clocks.now)))
            (HasRoom scope.now (length code.old.items)
            (instr.Spawn (body_unit self.now.setting.now at)
            (slots_of scope.now
            (body_params self.now.setting.now at (option_map clock_list clocks.now))) ∷ []))) }
    {
        let body = self.setting.body(at)?;
        let mut slots = clock_slots(self.alloc, scope, clocks)?;
        push_texts(&mut slots, scope, &body.captures)?;
        push(
            code,
            Instr::Spawn {
                unit: body.unit,
                args: args(slots)?,
            },
        )
    }

    /// The code of a declaration, and the slot behind its name, which is visible behind it.
    fn emit_declared(
        &self,
        code: &mut Vec<Instr>,
        scope: &mut Scope<'t>,
        n: u16,
        x: Name<'t>,
        right: &Right<'t>,
    ) -> Result<u16, CodeError>
        ensures code { OnOk result (code.new.items ≡ code.old.items
            ++ code_of_source self.now.setting.now self.now.free scope.old n (source right.now)) }
        ensures scope { OnOk result (scope.new ≡ scope.old ++ (x.entry.text.now, n) ∷ []) }
        ensures slots { IfOk result (λ m. m ≡ n + 1) }
        ensures refused { IfErr result (λ err. Denies err
            (IsSourceKnown self.now.setting.now scope.old (source right.now)
            × IsNew scope.old x.entry.text.now)
            (HasRoom scope.old (length code.old.items)
            (code_of_source self.now.setting.now self.now.free scope.old n (source right.now))
            × (n + 1 ≤ 64))) }
    {
        self.emit_source(code, scope, right, n)?;
        declare(scope, x.text, n)?;
        after(n)
    }

    /// The code of a statement that holds no statement, or only the body of an `async`; and the slot behind its name, if it has one.
    pub(crate) fn emit_simple(
        &self,
        code: &mut Vec<Instr>,
        scope: &mut Scope<'t>,
        n: u16,
        s: &Stmt<'t>,
    ) -> Result<u16, CodeError>
        requires { is_simple (statement s.now) ≡ true }
        ensures { Emits self.now.setting.now self.now.free scope.old n (statement s.now)
            code.old.items code.new.items scope.new result }
    {
        match s {
            Stmt::Empty => Ok(n),
            Stmt::Declare(_, x, _, right) => self.emit_declared(code, scope, n, *x, right),
            Stmt::Assign(x, e) => {
                self.emit_assigned(code, scope, *x, e)?;
                Ok(n)
            }
            Stmt::Atomic(x, _, _, e) => {
                self.emit_atomic(code, scope, *x, e)?;
                Ok(n)
            }
            Stmt::Async(at, clocks, _) => {
                self.emit_async(code, scope, *at, clocks)?;
                Ok(n)
            }
            Stmt::Call(f, _, es) => {
                self.emit_call(code, scope, *f, es)?;
                Ok(n)
            }
            Stmt::Resume(c, _) => {
                push(code, Instr::Resume(number(scope, *c)?))?;
                Ok(n)
            }
            Stmt::Drop(c, _) => {
                push(code, Instr::Drop(number(scope, *c)?))?;
                Ok(n)
            }
            Stmt::AdvanceAll(..) => {
                push(code, Instr::Advance)?;
                Ok(n)
            }
            Stmt::Print(_, _, e) => {
                self.emit_print(code, scope, e)?;
                Ok(n)
            }
            Stmt::Block(..) | Stmt::If(..) | Stmt::IfElse(..) | Stmt::For(..) | Stmt::Finish(..) =>
                unreachable!(),
        }
    }
}

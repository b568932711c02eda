//! What a statement does with names, apart from the statements that it holds.

ghost use Rattle.std.specs.Prelude.{◌≡◌, ◌∷◌, map, is_some, option_map, ◌++◌, OnOk};
ghost use Rattle.std.specs.List.{flat_map};
ghost use Rattle.xk_tree.specs.Tree.{bound, clock_list, expression, source, statement, word};
ghost use Rattle.xk_names.specs.Faults.{fault};
ghost use Rattle.xk_names.specs.Scope.{find};
ghost use Rattle.xk_names.specs.Uses.{assigned_uses, clocks_listed, is_var, make_misfits, numbers, source_uses, type_misfits, use_as};
ghost use Rattle.xk_names.specs.StatementParts.{atomic_faults, declaration_faults, loop_faults};
ghost use Rattle.xk_names.specs.FaultList.{least, list_faults, own, use_faults, when};

use crate::arguments::{check_call, check_list, check_listed};
use crate::binding::{Known, NameKind, Want};
use crate::exprs::{check_numbers, check_use, check_values};
use crate::least_fault::{Search, note, note_if};
use crate::methods::Methods;
use crate::scope::Scope;
use crate::table::Texts;
use std::alloc::{AllocError, Global};
use xk_tree::{Binding, Bound, ClockList, Expr, FrontRule, Name, Right, Stmt, TypeName};
use xk_types::ParamKind;

/// A name that is declared must not be visible already.
pub fn check_new<'t>(worst: &mut Search, scope: &Scope<'t>, name: Name<'t>)
    ensures { worst.new ≡ least worst.old
        (when (is_some (find scope.now.names name.entry.text.now))
        FrontRule.DuplicateName name.entry.at) }
{
    let is_visible = scope.find(name.text).is_some();
    note_if(is_visible, worst, FrontRule::DuplicateName, name.at);
}

/// The names that the right side of a declaration uses, of which one alone may be a shared number.
fn check_right<'t>(worst: &mut Search, scope: &Scope<'t>, r: &Right<'t>)
    ensures { worst.new ≡ least worst.old
        (flat_map (use_faults scope.now) (source_uses (source r.now))) }
{
    match r {
        Right::Make(_, _) => {}
        Right::Expr(e) => check_values(worst, scope, e),
    }
}

/// The type of a declaration, where it has one, must fit its right side: `Clock` for a clock that is made, a number's type for all else.
fn check_type(worst: &mut Search, ty: Option<TypeName>, r: &Right<'_>)
    ensures { worst.new ≡ least worst.old
        (map (fault FrontRule.WrongKind) (type_misfits ty (source r.now))) }
{
    if let Some(ty) = ty {
        let fits = match r {
            Right::Make(_, _) => matches!(ty.kind, ParamKind::Clock),
            Right::Expr(_) => matches!(ty.kind, ParamKind::Number),
        };
        if !fits {
            note(worst, FrontRule::WrongKind, ty.at);
        }
    }
}

/// A clock can be made for a `val`, not for a `var`.
fn check_make(worst: &mut Search, b: Binding, r: &Right<'_>)
    ensures { worst.new ≡ least worst.old
        (map (fault FrontRule.WrongKind) (make_misfits b (source r.now))) }
{
    match b {
        Binding::Val => {}
        Binding::Hidden => {}
        Binding::Var => match r {
            Right::Make(at, _) => note(worst, FrontRule::WrongKind, *at),
            Right::Expr(_) => {}
        },
    }
}

/// Whether a visible name is a `var`.
fn is_var(known: Option<Known>) -> bool
    ensures { result ≡ is_var known }
{
    match known {
        None => false,
        Some(known) => matches!(known.kind, NameKind::Var),
    }
}

/// The names in what is assigned to a name. A `var` can be assigned a shared number that stands alone.
fn check_assigned<'t>(worst: &mut Search, scope: &Scope<'t>, name: Name<'t>, e: &Expr<'t>)
    ensures { worst.new ≡ least worst.old (flat_map (use_faults scope.now)
        (assigned_uses (find scope.now.names name.entry.text.now) (expression e.now))) }
{
    if is_var(scope.find(name.text)) {
        check_values(worst, scope, e);
    } else {
        check_numbers(worst, scope, e);
    }
}

/// `x = e;`: the name must be that of a `var` or of a shared number.
fn check_assignment<'t>(worst: &mut Search, scope: &Scope<'t>, x: Name<'t>, e: &Expr<'t>)
    ensures { worst.new ≡ least worst.old (flat_map (use_faults scope.now)
        (use_as Want.Assigned (word x.entry)
        ∷ assigned_uses (find scope.now.names x.entry.text.now) (expression e.now))) }
{
    check_use(worst, scope, x, Want::Assigned);
    check_assigned(worst, scope, x, e);
}

/// The names in the two sides of a comparison.
fn check_sides<'t>(worst: &mut Search, scope: &Scope<'t>, l: &Expr<'t>, r: &Expr<'t>)
    ensures { worst.new ≡ least worst.old
        (flat_map (use_faults scope.now)
        (numbers (expression l.now) ++ numbers (expression r.now))) }
{
    check_numbers(worst, scope, l);
    check_numbers(worst, scope, r);
}

/// `atomic x = y + e;`: both names must be shared numbers, and the same one.
fn check_atomic<'t>(worst: &mut Search, scope: &Scope<'t>, x: Name<'t>, y: Name<'t>, e: &Expr<'t>)
    ensures { worst.new ≡ least worst.old
        (atomic_faults scope.now (word x.entry) (word y.entry) (expression e.now)) }
{
    check_use(worst, scope, x, Want::Shared);
    check_use(worst, scope, y, Want::Shared);
    check_numbers(worst, scope, e);
    note_if(x.text != y.text, worst, FrontRule::WrongKind, y.at);
}

/// The range of a loop: the names that it declares must be new and differ, and its bound may use only numbers.
fn check_range<'t>(worst: &mut Search, scope: &Scope<'t>, x: Name<'t>, limit: &Bound<'t>)
    ensures { worst.new ≡ least worst.old
        (loop_faults scope.now (word x.entry) (bound limit.now)) }
{
    match limit {
        Bound::UpTo(_) => check_new(worst, scope, x),
        Bound::Least(y, _, e, _) => {
            check_numbers(worst, scope, e);
            check_new(worst, scope, x);
            check_new(worst, scope, *y);
            note_if(y.text == x.text, worst, FrontRule::WrongKind, y.at);
        }
    }
}

/// `val x: T = r;` or `var x: T = r;`
fn check_declaration<'t>(
    worst: &mut Search,
    scope: &Scope<'t>,
    b: Binding,
    x: Name<'t>,
    ty: Option<TypeName>,
    r: &Right<'t>,
)
    ensures { worst.new ≡ least worst.old
        (declaration_faults scope.now b (word x.entry) ty (source r.now)) }
{
    check_right(worst, scope, r);
    check_new(worst, scope, x);
    check_type(worst, ty, r);
    check_make(worst, b, r);
}

/// The clocks that an `async` is given: each must be a visible clock, and none may be listed twice.
fn check_given<'t>(
    alloc: Global,
    worst: &mut Search,
    scope: &Scope<'t>,
    clocks: &Option<ClockList<'t>>,
) -> Result<(), AllocError>
    ensures { OnOk result (worst.new ≡ least worst.old
        (list_faults scope.now (clocks_listed (option_map clock_list clocks.now)))) }
{
    match clocks {
        None => Ok(()),
        Some(list) => {
            check_listed(worst, scope, list.names.as_slice());
            check_list(worst, &mut Texts::new(alloc), list.names.as_slice())
        }
    }
}

/// Checks a statement by itself, without the statements inside it.
#[tactic(auto, unfolding(crate::specs::FaultList::own))]
pub fn check_own<'t>(
    alloc: Global,
    worst: &mut Search,
    scope: &Scope<'t>,
    methods: &Methods<'_, 't>,
    s: &Stmt<'t>,
) -> Result<(), AllocError>
    ensures { OnOk result (worst.new ≡ least worst.old
        (own methods.now scope.now (statement s.now))) }
{
    match s {
        Stmt::Declare(b, x, ty, r) => {
            check_declaration(worst, scope, *b, *x, *ty, r);
            Ok(())
        }
        Stmt::Assign(x, e) => {
            check_assignment(worst, scope, *x, e);
            Ok(())
        }
        Stmt::Atomic(x, y, _, e) => {
            check_atomic(worst, scope, *x, *y, e);
            Ok(())
        }
        Stmt::If(_, l, _, r, _) | Stmt::IfElse(_, l, _, r, _, _) => {
            check_sides(worst, scope, l, r);
            Ok(())
        }
        Stmt::For(_, x, _, limit, _) => {
            check_range(worst, scope, *x, limit);
            Ok(())
        }
        Stmt::Async(_, clocks, _) => check_given(alloc, worst, scope, clocks),
        Stmt::Call(g, _, values) => check_call(alloc, worst, scope, methods, *g, values.as_slice()),
        Stmt::Resume(c, _) | Stmt::Drop(c, _) => {
            check_use(worst, scope, *c, Want::Clock);
            Ok(())
        }
        Stmt::Print(_, _, e) => {
            check_numbers(worst, scope, e);
            Ok(())
        }
        Stmt::Block(..) | Stmt::Empty | Stmt::Finish(..) | Stmt::AdvanceAll(_, _) => Ok(()),
    }
}

//! Statements, and those that they hold.

ghost use Rattle.std.specs.Prelude.{◌≡◌, ◌∷◌, [], length, option_map, IfOk, OnOk};
ghost use Rattle.xk_tree.specs.Tree.{bound, clock_list, source, statement, statements, word};
ghost use Rattle.xk_names.specs.Scope.{declared};
ghost use Rattle.xk_names.specs.Uses.{bound_declares, clocks_listed, kind_of};
ghost use Rattle.xk_names.specs.Places.{behind};
ghost use Rattle.xk_names.specs.FaultList.{among, faults, least, put_texts, with_clocks, with_declared};

use crate::arguments::clocks_of;
use crate::binding::NameKind;
use crate::least_fault::Search;
use crate::methods::Methods;
use crate::scope::Scope;
use crate::statement_rules::check_own;
use crate::table::Texts;
use std::alloc::{AllocError, Global};
use xk_tree::{Binding, Bound, ClockList, Name, Right, Stmt};

/// What the name of a declaration stands for.
fn kind_of(b: Binding, r: &Right<'_>) -> NameKind
    ensures { result ≡ kind_of b (source r.now) }
{
    match r {
        Right::Make(_, _) => NameKind::Clock,
        Right::Expr(_) => match b {
            Binding::Val => NameKind::Val,
            Binding::Var => NameKind::Var,
            Binding::Hidden => NameKind::Val,
        },
    }
}

/// The clocks that an `async` is given, each once; none where it has no list.
fn given<'t>(alloc: Global, clocks: &Option<ClockList<'t>>) -> Result<Texts<'t>, AllocError>
    ensures { IfOk result (λ texts. texts ≡
        put_texts [] (clocks_listed (option_map clock_list clocks.now))) }
{
    match clocks {
        None => Ok(Texts::new(alloc)),
        Some(list) => clocks_of(alloc, list.names.as_slice()),
    }
}

/// Declares the name of a loop's limit, if it has one.
fn declare_limit<'t>(scope: &mut Scope<'t>, limit: &Bound<'t>) -> Result<(), AllocError>
    ensures { OnOk result (scope.new ≡ with_declared scope.old
        (bound_declares (length scope.old.bodies) (bound limit.now))) }
{
    match limit {
        Bound::UpTo(_) => Ok(()),
        Bound::Least(y, _, _, _) => scope.declare(*y, NameKind::Val),
    }
}

/// Checks a statement and all inside it. Behind it, the scope has what the statement declares, too.
#[cycle(statements)]
fn check<'t>(
    alloc: Global,
    worst: &mut Search,
    scope: &mut Scope<'t>,
    methods: &Methods<'_, 't>,
    s: &Stmt<'t>,
) -> Result<(), AllocError>
    ensures faults { OnOk result (worst.new ≡ least worst.old
        (faults methods.now scope.old (statement s.now))) }
    ensures scope { OnOk result (scope.new ≡ with_declared scope.old
        (behind (length scope.old.bodies) (statement s.now))) }
{
    check_own(alloc, worst, scope, methods, s)?;
    match s {
        Stmt::Declare(b, x, _, r) => scope.declare(*x, kind_of(*b, r)),
        Stmt::Block(_, ss) => check_block(alloc, worst, scope, methods, ss.as_slice()),
        Stmt::If(_, _, _, _, s) => check_held(alloc, worst, scope, methods, s),
        Stmt::IfElse(_, _, _, _, s, t) => {
            check_held(alloc, worst, scope, methods, s)?;
            check_held(alloc, worst, scope, methods, t)
        }
        Stmt::For(_, x, _, limit, s) => check_loop(alloc, worst, scope, methods, *x, limit, s),
        Stmt::Async(_, clocks, s) => {
            let clocks = given(alloc, clocks)?;
            check_body(alloc, worst, scope, methods, clocks, s)
        }
        Stmt::Finish(_, s) => check_held(alloc, worst, scope, methods, s),
        Stmt::Empty => Ok(()),
        Stmt::Assign(_, _) => Ok(()),
        Stmt::Atomic(_, _, _, _) => Ok(()),
        Stmt::Call(_, _, _) => Ok(()),
        Stmt::Resume(_, _) => Ok(()),
        Stmt::Drop(_, _) => Ok(()),
        Stmt::AdvanceAll(_, _) => Ok(()),
        Stmt::Print(_, _, _) => Ok(()),
    }
}

/// Checks the statements of a block. What they declare is forgotten at its end.
#[cycle(statements)]
pub fn check_block<'t>(
    alloc: Global,
    worst: &mut Search,
    scope: &mut Scope<'t>,
    methods: &Methods<'_, 't>,
    ss: &[Stmt<'t>],
) -> Result<(), AllocError>
    ensures faults { OnOk result (worst.new ≡ least worst.old
        (among methods.now scope.old (statements ss.now))) }
    ensures scope { OnOk result (scope.new ≡ scope.old) }
{
    let outside = scope.len();
    for s in ss {
        check(alloc, worst, scope, methods, s)?;
    }
    scope.cut(outside);
    Ok(())
}

/// Checks an inner statement. What it declares is forgotten behind it.
#[cycle(statements)]
fn check_held<'t>(
    alloc: Global,
    worst: &mut Search,
    scope: &mut Scope<'t>,
    methods: &Methods<'_, 't>,
    s: &Stmt<'t>,
) -> Result<(), AllocError>
    ensures faults { OnOk result (worst.new ≡ least worst.old
        (faults methods.now scope.old (statement s.now))) }
    ensures scope { OnOk result (scope.new ≡ scope.old) }
{
    let outside = scope.len();
    check(alloc, worst, scope, methods, s)?;
    scope.cut(outside);
    Ok(())
}

/// Checks the body of a loop over `x` with this bound. What the loop declares is forgotten behind it.
#[cycle(statements)]
fn check_loop<'t>(
    alloc: Global,
    worst: &mut Search,
    scope: &mut Scope<'t>,
    methods: &Methods<'_, 't>,
    x: Name<'t>,
    limit: &Bound<'t>,
    s: &Stmt<'t>,
) -> Result<(), AllocError>
    ensures faults { OnOk result (worst.new ≡ least worst.old
        (faults methods.now (with_declared scope.old
        (declared (word x.entry) NameKind.Val (length scope.old.bodies)
        ∷ bound_declares (length scope.old.bodies) (bound limit.now))) (statement s.now))) }
    ensures scope { OnOk result (scope.new ≡ scope.old) }
{
    let outside = scope.len();
    scope.declare(x, NameKind::Val)?;
    declare_limit(scope, limit)?;
    check(alloc, worst, scope, methods, s)?;
    scope.cut(outside);
    Ok(())
}

/// Checks the body of an `async` that is given these clocks.
#[cycle(statements)]
fn check_body<'t>(
    alloc: Global,
    worst: &mut Search,
    scope: &mut Scope<'t>,
    methods: &Methods<'_, 't>,
    clocks: Texts<'t>,
    s: &Stmt<'t>,
) -> Result<(), AllocError>
    ensures faults { OnOk result (worst.new ≡ least worst.old
        (faults methods.now (with_clocks scope.old clocks.entry) (statement s.now))) }
    ensures scope { OnOk result (scope.new ≡ scope.old) }
{
    let outside = scope.len();
    scope.enter(clocks)?;
    check(alloc, worst, scope, methods, s)?;
    scope.leave(outside);
    Ok(())
}

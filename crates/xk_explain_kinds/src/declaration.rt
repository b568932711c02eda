//! The declarations of a tree, in the order of the text.

ghost use Rattle.std.specs.Prelude.{◌≡◌, [], ◌∷◌, ◌++◌, map, IfOk, OnOk};
ghost use Rattle.xk_tree.specs.Program.{tree_value};
ghost use Rattle.xk_tree.specs.Tree.{bound, expression, expressions, method_value, param_value, shared_value, source, statement};
ghost use Rattle.xk_tree.specs.Tree.{statements, word};
ghost use Rattle.xk_explain_kinds.specs.Declarations.{declarations, declarations_all, declarations_in, declared_here, declares};
ghost use Rattle.xk_explain_kinds.specs.Declarations.{last_of_arguments, last_of_bound, last_of_expression, last_of_source};
ghost use Rattle.xk_explain_kinds.specs.Declarations.{last_of_statement, method_declarations, methods_declarations, param_declaration};
ghost use Rattle.xk_explain_kinds.specs.Declarations.{param_declarations, param_role, shared_declarations, value_declarations};

use std::alloc::{AllocError, Global};
use xk_tree::{Binding, Bound, Expr, Method, Name, Param, Right, Shared, Stmt, Tree};
use xk_types::ParamKind;

/// What a name is declared as.
#[derive(Clone, Copy, Debug, PartialEq, Eq)]
pub enum Role {
    /// A shared number.
    Shared,
    /// A method with so many parameters.
    Method(usize),
    /// A parameter that is a number.
    NumberParam,
    /// A parameter that is a clock.
    ClockParam,
    /// A `val` that is a number.
    Val,
    /// A `var`.
    Var,
    /// A `val` that is a clock.
    Clock,
    /// The number of a loop.
    Loop,
}

/// A name that is declared, and as what.
#[derive(Clone, Copy, Debug)]
pub struct Declaration<'t> {
    /// The name, where it is declared.
    pub name: Name<'t>,
    /// What it is declared as.
    pub role: Role,
    /// The offset behind which it is visible; shared numbers and methods are so everywhere.
    pub behind: usize,
    /// The offset up to which it is.
    pub until: usize,
}

/// Where the last name or number of an expression stands.
fn last_of_expression(e: &Expr<'_>) -> usize
    ensures { result ≡ last_of_expression (expression e.now) }
{
    match e {
        Expr::Number(n) => n.at,
        Expr::Name(x) => x.at,
        Expr::Paren(_, e) => last_of_expression(e),
        Expr::Negation(_, e) => last_of_expression(e),
        Expr::Binary(_, _, _, r) => last_of_expression(r),
    }
}

/// Where the last word of what stands behind a `=` does.
fn last_of_source(right: &Right<'_>) -> usize
    ensures { result ≡ last_of_source (source right.now) }
{
    match right {
        Right::Make(_, verb) => verb.at,
        Right::Expr(e) => last_of_expression(e),
    }
}

/// Where the last number of a loop's bound stands.
fn last_of_bound(b: &Bound<'_>) -> usize
    ensures { result ≡ last_of_bound (bound b.now) }
{
    match b {
        Bound::UpTo(n) => n.at,
        Bound::Least(_, _, _, n) => n.at,
    }
}

/// Where the last word of arguments stands, or this, where there is none.
fn last_of_arguments(at: usize, es: &[Expr<'_>]) -> usize
    ensures { result ≡ last_of_arguments at (expressions es.now) }
{
    let mut last = at;
    for e in es {
        last = last_of_expression(e);
    }
    last
}

/// Where the last word of a statement stands.
fn last_of_statement(s: &Stmt<'_>) -> usize
    ensures { result ≡ last_of_statement (statement s.now) }
{
    match s {
        Stmt::Block(close, _) => *close,
        Stmt::Empty => 0,
        Stmt::Declare(_, _, _, right) => last_of_source(right),
        Stmt::Assign(_, e) => last_of_expression(e),
        Stmt::Atomic(_, _, _, e) => last_of_expression(e),
        Stmt::If(_, _, _, _, s) => last_of_statement(s),
        Stmt::IfElse(_, _, _, _, _, t) => last_of_statement(t),
        Stmt::For(_, _, _, _, s) => last_of_statement(s),
        Stmt::Async(_, _, s) => last_of_statement(s),
        Stmt::Finish(_, s) => last_of_statement(s),
        Stmt::Call(name, _, es) => last_of_arguments(name.at, es),
        Stmt::Resume(_, verb) => verb.at,
        Stmt::Drop(_, verb) => verb.at,
        Stmt::AdvanceAll(at, _) => *at,
        Stmt::Print(_, _, e) => last_of_expression(e),
    }
}

/// Where a name is visible.
#[derive(Clone, Copy)]
struct Extent {
    behind: usize,
    until: usize,
}

/// Adds a declaration.
fn add<'t>(
    found: &mut Vec<Declaration<'t>>,
    name: Name<'t>,
    role: Role,
    extent: Extent,
) -> Result<(), AllocError>
    ensures { OnOk result (declared_here found.new.items ≡ declared_here found.old.items
        ++ declares (word name.entry) role extent.behind extent.until ∷ []) }
{
    let (behind, until) = (extent.behind, extent.until);
    found.push(Declaration {
        name,
        role,
        behind,
        until,
    })?;
    Ok(())
}

/// Adds what a `val` or a `var` declares up to an offset; the clock of a `clocked finish` has no name in the text.
fn add_value<'t>(
    found: &mut Vec<Declaration<'t>>,
    binding: Binding,
    name: Name<'t>,
    right: &Right<'t>,
    until: usize,
) -> Result<(), AllocError>
    ensures { OnOk result (declared_here found.new.items ≡ declared_here found.old.items
        ++ value_declarations binding (word name.entry) (source right.now) until) }
{
    let behind = last_of_source(right);
    let extent = Extent { behind, until };
    match binding {
        Binding::Hidden => Ok(()),
        Binding::Var => add(found, name, Role::Var, extent),
        Binding::Val => match right {
            Right::Make(..) => add(found, name, Role::Clock, extent),
            Right::Expr(_) => add(found, name, Role::Val, extent),
        },
    }
}

/// Adds the name of a loop.
fn add_loop<'t>(
    found: &mut Vec<Declaration<'t>>,
    name: Name<'t>,
    b: &Bound<'t>,
    s: &Stmt<'t>,
) -> Result<(), AllocError>
    ensures { OnOk result (declared_here found.new.items ≡ declared_here found.old.items
        ++ declares (word name.entry) Role.Loop (last_of_bound (bound b.now))
        (last_of_statement (statement s.now)) ∷ []) }
{
    let (behind, until) = (last_of_bound(b), last_of_statement(s));
    add(found, name, Role::Loop, Extent { behind, until })
}

/// Adds those of a statement that stands in a list up to an offset.
#[cycle(declarations)]
fn add_declarations<'t>(
    found: &mut Vec<Declaration<'t>>,
    s: &Stmt<'t>,
    until: usize,
) -> Result<(), AllocError>
    ensures { OnOk result (declared_here found.new.items
        ≡ declared_here found.old.items ++ declarations_in until (statement s.now)) }
{
    match s {
        Stmt::Block(close, ss) => add_all_declarations(found, ss, *close),
        Stmt::If(_, _, _, _, s) => add_declarations(found, s, 0),
        Stmt::IfElse(_, _, _, _, s, u) => {
            add_declarations(found, s, 0)?;
            add_declarations(found, u, 0)
        }
        Stmt::For(_, name, _, b, s) => {
            add_loop(found, *name, b, s)?;
            add_declarations(found, s, 0)
        }
        Stmt::Async(_, _, s) => add_declarations(found, s, 0),
        Stmt::Finish(_, s) => add_declarations(found, s, 0),
        Stmt::Declare(binding, name, _, right) => add_value(found, *binding, *name, right, until),
        Stmt::Empty => Ok(()),
        Stmt::Assign(..) => Ok(()),
        Stmt::Atomic(..) => Ok(()),
        Stmt::Call(..) => Ok(()),
        Stmt::Resume(..) => Ok(()),
        Stmt::Drop(..) => Ok(()),
        Stmt::AdvanceAll(..) => Ok(()),
        Stmt::Print(..) => Ok(()),
    }
}

/// The same for statements, one after another.
#[cycle(declarations)]
fn add_all_declarations<'t>(
    found: &mut Vec<Declaration<'t>>,
    ss: &[Stmt<'t>],
    until: usize,
) -> Result<(), AllocError>
    ensures { OnOk result (declared_here found.new.items
        ≡ declared_here found.old.items ++ declarations_all until (statements ss.now)) }
{
    for s in ss {
        add_declarations(found, s, until)?;
    }
    Ok(())
}

/// What a parameter is declared as.
fn param_role(kind: ParamKind) -> Role
    ensures { result ≡ param_role kind }
{
    match kind {
        ParamKind::Number => Role::NumberParam,
        ParamKind::Clock => Role::ClockParam,
    }
}

/// Adds a parameter that is visible up to an offset.
fn add_param<'t>(
    found: &mut Vec<Declaration<'t>>,
    param: &Param<'t>,
    until: usize,
) -> Result<(), AllocError>
    ensures { OnOk result (declared_here found.new.items ≡ declared_here found.old.items
        ++ param_declaration until (param_value param.now) ∷ []) }
{
    let behind = param.name.at;
    let role = param_role(param.takes.kind);
    add(found, param.name, role, Extent { behind, until })
}

/// Adds those of parameters that are visible up to an offset.
fn add_params<'t>(
    found: &mut Vec<Declaration<'t>>,
    params: &[Param<'t>],
    until: usize,
) -> Result<(), AllocError>
    ensures { OnOk result (declared_here found.new.items ≡ declared_here found.old.items
        ++ param_declarations until (map param_value params.now)) }
{
    for param in params {
        add_param(found, param, until)?;
    }
    Ok(())
}

/// Adds what is visible everywhere.
fn add_global<'t>(
    found: &mut Vec<Declaration<'t>>,
    name: Name<'t>,
    role: Role,
) -> Result<(), AllocError>
    ensures { OnOk result (declared_here found.new.items ≡ declared_here found.old.items
        ++ declares (word name.entry) role name.entry.at name.entry.at ∷ []) }
{
    let at = name.at;
    add(
        found,
        name,
        role,
        Extent {
            behind: at,
            until: at,
        },
    )
}

/// Adds those of shared numbers.
fn add_shared<'t>(found: &mut Vec<Declaration<'t>>, shared: &[Shared<'t>]) -> Result<(), AllocError>
    ensures { OnOk result (declared_here found.new.items
        ≡ declared_here found.old.items ++ shared_declarations (map shared_value shared.now)) }
{
    for number in shared {
        add_global(found, number.name, Role::Shared)?;
    }
    Ok(())
}

/// Adds a method, its parameters, and what is declared in its body.
fn add_method<'t>(found: &mut Vec<Declaration<'t>>, method: &Method<'t>) -> Result<(), AllocError>
    ensures { OnOk result (declared_here found.new.items
        ≡ declared_here found.old.items ++ method_declarations (method_value method.now)) }
{
    add_global(found, method.name, Role::Method(method.params.len()))?;
    add_params(found, &method.params, method.close)?;
    add_all_declarations(found, &method.body, method.close)
}

/// The same for methods, one after another.
fn add_methods<'t>(
    found: &mut Vec<Declaration<'t>>,
    methods: &[Method<'t>],
) -> Result<(), AllocError>
    ensures { OnOk result (declared_here found.new.items
        ≡ declared_here found.old.items
        ++ methods_declarations (map method_value methods.now)) }
{
    for method in methods {
        add_method(found, method)?;
    }
    Ok(())
}

/// All declarations of a tree, in the order of the text. Err where memory was refused.
pub fn declarations<'t>(alloc: Global, tree: &Tree<'t>) -> Result<Vec<Declaration<'t>>, AllocError>
    ensures { IfOk result (λ found. declared_here found.items
        ≡ declarations (tree_value tree.now)) }
{
    let mut found = Vec::new(alloc);
    add_shared(&mut found, &tree.shared)?;
    add_methods(&mut found, &tree.methods)?;
    Ok(found)
}

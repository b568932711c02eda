//! Whole programs.

ghost use Rattle.std.specs.Prelude.{◌≡◌, ◌↔◌, [], ◌∷◌, Err, None, Some, codes, map, IsTrue, OnOk, IfOk};
ghost use Rattle.xk_tree.specs.Tree.{method_value, param_value, shared_value, word};
ghost use Rattle.xk_tree.specs.Program.{tree_value};
ghost use Rattle.std.specs.List.{flat_map, list_any};
ghost use Rattle.xk_names.specs.Scope.{declared, find};
ghost use Rattle.xk_names.specs.Faults.{HasFault, IsNext, IsReported, MayBegin, param_declaration, param_kind, shared_declaration};
ghost use Rattle.xk_names.specs.Faults.{wants_clock};
ghost use Rattle.xk_names.specs.WellScoped.{IsScoped};
ghost use Rattle.xk_names.specs.Uses.{signatures};
ghost use Rattle.xk_names.specs.FaultList.{again, declared_again, least, least_past, method_faults, methods_again};
ghost use Rattle.xk_names.specs.FaultList.{next_name_fault, put_methods, with_declared};

use crate::binding::NameKind;
use crate::least_fault::{Search, note_if};
use crate::methods::Methods;
use crate::scope::Scope;
use crate::statement_rules::check_new;
use crate::statement_walk::check_block;
use std::alloc::{AllocError, Global};
use xk_tree::{FrontError, FrontFault, FrontRule, Method, Name, Param, Shared, Tree};
use xk_types::ParamKind;

/// Declares a name that every statement of a method's body sees: a shared number or a parameter. It must be new.
fn declare_outside<'t>(
    worst: &mut Search,
    scope: &mut Scope<'t>,
    name: Name<'t>,
    kind: NameKind,
) -> Result<(), AllocError>
    requires { scope.old.bodies ≡ [] }
    ensures faults { OnOk result (worst.new ≡ least worst.old
        (again scope.old.names (declared (word name.entry) kind 0))) }
    ensures scope { OnOk result (scope.new ≡ with_declared scope.old
        (declared (word name.entry) kind 0 ∷ [])) }
{
    check_new(worst, scope, name);
    scope.declare(name, kind)
}

/// Declares the shared numbers, each of which must be new.
fn declare_shared<'t>(
    worst: &mut Search,
    scope: &mut Scope<'t>,
    shared: &[Shared<'t>],
) -> Result<(), AllocError>
    requires { scope.old.bodies ≡ [] }
    ensures faults { OnOk result (worst.new ≡ least worst.old
        (declared_again scope.old.names (map shared_declaration (map shared_value shared.now)))) }
    ensures scope { OnOk result (scope.new ≡ with_declared scope.old
        (map shared_declaration (map shared_value shared.now))) }
{
    for number in shared {
        declare_outside(worst, scope, number.name, NameKind::Shared)?;
    }
    Ok(())
}

/// What a parameter's name stands for inside the body.
fn kind_of(takes: ParamKind) -> NameKind
    ensures { result ≡ param_kind takes }
{
    match takes {
        ParamKind::Number => NameKind::Val,
        ParamKind::Clock => NameKind::Clock,
    }
}

/// Declares a method's parameters, each of which must be new.
fn declare_params<'t>(
    worst: &mut Search,
    scope: &mut Scope<'t>,
    params: &[Param<'t>],
) -> Result<(), AllocError>
    requires { scope.old.bodies ≡ [] }
    ensures faults { OnOk result (worst.new ≡ least worst.old
        (declared_again scope.old.names (map param_declaration (map param_value params.now)))) }
    ensures scope { OnOk result (scope.new ≡ with_declared scope.old
        (map param_declaration (map param_value params.now))) }
{
    for param in params {
        declare_outside(worst, scope, param.name, kind_of(param.takes.kind))?;
    }
    Ok(())
}

/// Adds the methods by their names, of which none may be there already.
fn put_methods<'a, 't>(
    worst: &mut Search,
    found: &mut Methods<'a, 't>,
    methods: &'a [Method<'t>],
) -> Result<(), AllocError>
    ensures faults { OnOk result (worst.new ≡ least worst.old
        (methods_again found.old (map method_value methods.now))) }
    ensures methods { OnOk result (found.new ≡
        put_methods found.old (map method_value methods.now)) }
{
    for method in methods {
        let is_there = found.find(method.name.text).is_some();
        note_if(is_there, worst, FrontRule::DuplicateName, method.name.at);
        found.put(method.name.text, method.params.as_slice())?;
    }
    Ok(())
}

/// The methods of a tree by their names, each with its parameters: the first where two have one name, which F6 refuses. Nothing is asked of the
/// tree. The only error is want of memory.
pub fn methods_of<'a, 't>(alloc: Global, tree: &'a Tree<'t>) -> Result<Methods<'a, 't>, AllocError>
    ensures methods { IfOk result (λ ms. ms ≡ put_methods [] (tree_value tree.now).methods) }
    ensures scoped { IsScoped (tree_value tree.now)
        → IfOk result (λ ms. ms ≡ signatures (tree_value tree.now).methods) }
{
    let mut worst = Search {
        floor: None,
        found: None,
    };
    let mut methods = Methods::new(alloc);
    put_methods(&mut worst, &mut methods, tree.methods.as_slice())?;
    Ok(methods)
}

/// Checks a method's parameters and body. The scope is behind it what it was before.
fn check_method<'t>(
    alloc: Global,
    worst: &mut Search,
    scope: &mut Scope<'t>,
    methods: &Methods<'_, 't>,
    method: &Method<'t>,
) -> Result<(), AllocError>
    requires { scope.old.bodies ≡ [] }
    ensures faults { OnOk result (worst.new ≡ least worst.old
        (method_faults methods.now scope.old.names (method_value method.now))) }
    ensures scope { OnOk result (scope.new ≡ scope.old) }
{
    let outside = scope.len();
    declare_params(worst, scope, method.params.as_slice())?;
    check_block(alloc, worst, scope, methods, method.body.as_slice())?;
    scope.cut(outside);
    Ok(())
}

/// Checks the parameters and bodies of all methods, each in the scope of the shared numbers.
fn check_methods<'t>(
    alloc: Global,
    worst: &mut Search,
    scope: &mut Scope<'t>,
    methods: &Methods<'_, 't>,
    all: &[Method<'t>],
) -> Result<(), AllocError>
    requires { scope.old.bodies ≡ [] }
    ensures faults { OnOk result (worst.new ≡ least worst.old
        (flat_map (method_faults methods.now scope.old.names) (map method_value all.now))) }
    ensures scope { OnOk result (scope.new ≡ scope.old) }
{
    for method in all {
        check_method(alloc, worst, scope, methods, method)?;
    }
    Ok(())
}

/// The least fault of names behind the floor, or of all, a missing `main` aside; and whether there is a method `main` none of whose
/// parameters takes a clock.
fn least_fault(
    alloc: Global,
    floor: Option<FrontFault>,
    tree: &Tree<'_>,
) -> Result<(Option<FrontFault>, bool), AllocError>
    ensures worst { IfOk result (λ r. r.0 ≡ least_past floor (tree_value tree.now)) }
    ensures main { IfOk result (λ r. IsTrue r.1 ↔
        (MayBegin (find (put_methods [] (tree_value tree.now).methods) (codes "main")))) }
{
    let mut scope = Scope::new(alloc);
    let mut methods = Methods::new(alloc);
    least_within(alloc, floor, &mut scope, &mut methods, tree)
}

/// The same, where nothing is visible yet and there are no methods.
fn least_within<'a, 't>(
    alloc: Global,
    floor: Option<FrontFault>,
    scope: &mut Scope<'t>,
    methods: &mut Methods<'a, 't>,
    tree: &'a Tree<'t>,
) -> Result<(Option<FrontFault>, bool), AllocError>
    requires scope { scope.old ≡ record { names = []; bodies = [] } }
    requires methods { methods.old ≡ [] }
    ensures worst { IfOk result (λ r. r.0 ≡ least_past floor (tree_value tree.now)) }
    ensures main { IfOk result (λ r. IsTrue r.1 ↔
        (MayBegin (find (put_methods [] (tree_value tree.now).methods) (codes "main")))) }
{
    let mut worst = Search { floor, found: None };
    declare_shared(&mut worst, scope, tree.shared.as_slice())?;
    put_methods(&mut worst, methods, tree.methods.as_slice())?;
    check_methods(alloc, &mut worst, scope, methods, tree.methods.as_slice())?;
    let has_main = has_main(methods);
    Ok((worst.found, has_main))
}

/// Whether a parameter takes a clock.
fn takes_clock(param: &Param<'_>) -> bool
    ensures { result ≡ wants_clock (param_value param.now) }
{
    match param.takes.kind {
        ParamKind::Clock => true,
        ParamKind::Number => false,
    }
}

/// Whether one of the parameters takes a clock.
fn any_takes_clock(params: &[Param<'_>]) -> bool
    ensures { result ≡ list_any wants_clock (map param_value params.now) }
{
    match params.split_first() {
        None => false,
        Some((param, rest)) => takes_clock(param) || any_takes_clock(rest),
    }
}

/// Whether there is a method `main` none of whose parameters takes a clock.
fn has_main<'t>(methods: &Methods<'_, 't>) -> bool
    ensures { IsTrue result ↔ (MayBegin (find methods.now (codes "main"))) }
{
    match methods.find(b"main") {
        None => false,
        Some(params) => !any_takes_clock(params),
    }
}

/// Looks for faults of names in a tree: F5 to F9, F11, F12 and F15 of `docs/LANGUAGE.md`, rules that are this project's own. `Ok` means that the tree
/// has none, so that each name that is used is visible and is what is wanted. Otherwise the fault is told that has the least offset, and of
/// those there the least number; F9 only where there is no other. `OutOfMemory` tells nothing of the tree.
pub fn check_names(alloc: Global, tree: &Tree<'_>) -> Result<(), FrontError>
    ensures clean { OnOk result ((f : FrontFault) → HasFault (tree_value tree.now) f → ⊥) }
    ensures scoped { OnOk result (IsScoped (tree_value tree.now)) }
    ensures fault { (f : FrontFault) → result ≡ Err (FrontError.Fault f)
        → IsReported (tree_value tree.now) f }
{
    let (worst, has_main) = least_fault(alloc, None, tree)?;
    match worst {
        Some(fault) => Err(FrontError::Fault(fault)),
        None => {
            if has_main {
                Ok(())
            } else {
                Err(FrontError::Fault(FrontFault {
                    rule: FrontRule::NoMain,
                    at: 0,
                }))
            }
        }
    }
}

/// The next fault of names in a tree, behind this one: of those that stand later, or at the same offset with a greater number, the one
/// that `check_names` would tell. `None` where there is none. F9 isn't among them. The only error is want of memory.
pub fn next_fault(
    alloc: Global,
    tree: &Tree<'_>,
    fault: FrontFault,
) -> Result<Option<FrontFault>, AllocError>
    ensures listed { IfOk result (λ next. next ≡ next_name_fault (tree_value tree.now) fault) }
    ensures next { IfOk result (IsNext (tree_value tree.now) fault) }
{
    let (next, _has_main) = least_fault(alloc, Some(fault), tree)?;
    Ok(next)
}

//! From a source tree to a module.

ghost use Rattle.std.specs.Prelude.{◌≡◌, ◌≤◌, All, Ok, Err, Some, None, option_map, slice_get, map, min, length, IfOk, IfErr, OnOk};
ghost use Rattle.std.specs.Option.{option_map_or};
ghost use Rattle.xk_types.specs.Code.{IsUnitWithinLimits, IsWithinLimits, module_of};
ghost use Rattle.xk_tree.specs.declared.fault.FrontFault.{FrontFault as Fault};
ghost use Rattle.xk_tree.specs.Tree.{method_value, shared_value};
ghost use Rattle.xk_tree.specs.Program.{tree_value};
ghost use Rattle.xk_emit.specs.Room.{Denies};
ghost use Rattle.xk_names.specs.Faults.{HasFault};
ghost use Rattle.xk_names.specs.WellScoped.{IsScoped};
ghost use Rattle.xk_callgraph.specs.Recursion.{HasRecursion};
ghost use Rattle.xk_numbering.specs.Views.{offset, part};
ghost use Rattle.xk_codegen.specs.PartCoverage.{AreCovered, IsPartCovered};
ghost use Rattle.xk_source_semantics.specs.Meaning.{Means};
ghost use Rattle.xk_source_semantics.specs.Compilation.{AreUnits, IsCompiled, IsSetting, method_kind, unit_of_part};
ghost use Rattle.xk_codegen.specs.Faults.{IsFaultOf, IsFirstLarge, IsTableFault};
ghost use Rattle.xk_codegen.specs.ShapeRules.{KeepsShape};

use crate::setting::settle;
use std::alloc::{AllocError, Global};
use xk_callgraph::check_recursion;
use xk_emit::{CodeError, Setting, body_unit, method_unit};
use xk_names::check_names;
use xk_numbering::{Part, units_in_order};
use xk_tree::{FrontError, FrontFault, FrontRule, Method, Shared, Tree};
use xk_types::{MAX_SHARED, MAX_UNITS, Module, Unit, UnitKind};

const MAIN: &[u8] = b"main";

/// F14 there.
fn table_fault(at: usize) -> FrontError
    ensures { result ≡ FrontError.Fault (record { rule = FrontRule.Table; at = at }) }
{
    FrontError::Fault(FrontFault {
        rule: FrontRule::Table,
        at,
    })
}

/// What a method's unit is for.
fn kind_of(method: &Method<'_>) -> UnitKind
    ensures { result ≡ method_kind (method_value method.now) }
{
    if method.name.text == MAIN {
        UnitKind::Main
    } else {
        UnitKind::Method
    }
}

/// The unit of a part, or why it has none.
fn unit_of<'t>(alloc: Global, setting: &Setting<'t>, p: &Part<'_, 't>) -> Result<Unit, CodeError>
    ensures made { IfOk result (λ unit. unit ≡ unit_of_part setting.now (part p.now)) }
    ensures limits { IfOk result IsUnitWithinLimits }
    ensures denies { IfErr result (λ e. Denies e (IsPartCovered setting.now (part p.now))
        (IsUnitWithinLimits (unit_of_part setting.now (part p.now)))) }
{
    match p {
        Part::Method(method) => method_unit(alloc, setting, kind_of(method), method),
        Part::Body(at, clocks, s) => body_unit(alloc, setting, *at, clocks, s),
    }
}

/// The unit of a part, or none where its code needs a name that isn't there or where it goes beyond a limit.
fn unit_if_any<'t>(
    alloc: Global,
    setting: &Setting<'t>,
    p: &Part<'_, 't>,
) -> Result<Option<Unit>, AllocError>
    ensures made { (unit : Unit) → result ≡ Ok (Some unit)
        → unit ≡ unit_of_part setting.now (part p.now) }
    ensures limits { (unit : Unit) → result ≡ Ok (Some unit) → IsUnitWithinLimits unit }
    ensures none { result ≡ Ok None → IsPartCovered setting.now (part p.now)
        → IsUnitWithinLimits (unit_of_part setting.now (part p.now)) → ⊥ }
{
    match unit_of(alloc, setting, p) {
        Ok(unit) => Ok(Some(unit)),
        Err(CodeError::Name) => Ok(None),
        Err(CodeError::Table) => Ok(None),
        Err(CodeError::OutOfMemory) => Err(AllocError),
    }
}

/// Where the first part stands that has no number left, if there is one.
fn beyond(parts: &[Part<'_, '_>]) -> Option<usize>
    ensures { result ≡ option_map offset (slice_get (map part parts.now) 1024) }
{
    match parts.get(MAX_UNITS) {
        None => None,
        Some(p) => Some(p.offset()),
    }
}

/// The lesser of two offsets, if there is one.
fn lesser(worst: Option<usize>, at: usize) -> usize
    ensures { result ≡ option_map_or (min at) worst at }
{
    match worst {
        None => at,
        Some(other) => at.min(other),
    }
}

/// The units of parts, or the least offset of a part whose unit goes beyond a limit.
fn units_of<'t>(
    alloc: Global,
    setting: &Setting<'t>,
    parts: &[Part<'_, 't>],
) -> Result<Vec<Unit>, FrontError>
    ensures made { IfOk result (λ units. units.items
        ≡ map (unit_of_part setting.now) (map part parts.now)) }
    ensures count { OnOk result (length parts.now ≤ 1024) }
    ensures limits { IfOk result (λ units. All IsUnitWithinLimits units.items) }
    ensures fault { (f : Fault) → result ≡ Err (FrontError.Fault f)
        → AreCovered setting.now (map part parts.now)
        → IsFirstLarge (map part parts.now) setting.now f }
{
    let mut worst = beyond(parts);
    let mut units = Vec::new(alloc);
    for p in parts {
        match unit_if_any(alloc, setting, p)? {
            Some(unit) => units.push(unit)?,
            None => worst = Some(lesser(worst, p.offset())),
        }
    }
    match worst {
        None => Ok(units),
        Some(at) => Err(table_fault(at)),
    }
}

/// What a shared number is at the start.
fn start_of(number: &Shared<'_>) -> i64
    ensures { result ≡ (shared_value number.now).start.value }
{
    number.start.value
}

/// The shared numbers as they are at the start.
fn starts(alloc: Global, shared: &[Shared<'_>]) -> Result<Vec<i64>, AllocError>
    ensures { IfOk result (λ numbers. numbers.items
        ≡ map (λ s. s.start.value) (map shared_value shared.now)) }
{
    let mut numbers = Vec::new(alloc);
    for number in shared {
        numbers.push(start_of(number))?;
    }
    Ok(numbers)
}

/// The module of these units and a tree's shared numbers.
fn module(alloc: Global, tree: &Tree<'_>, units: Vec<Unit>) -> Result<Module, FrontError>
    requires some { 1 ≤ length units.items }
    requires most { length units.items ≤ 1024 }
    requires shared { length (tree_value tree.now).shared ≤ 256 }
    requires each { All IsUnitWithinLimits units.items }
    ensures made { IfOk result (λ m. m ≡ module_of
        (map (λ s. s.start.value) (tree_value tree.now).shared) units.items) }
    ensures limits { IfOk result IsWithinLimits }
    ensures fault { (f : Fault) → result ≡ Err (FrontError.Fault f) → ⊥ }
{
    let shared = starts(alloc, &tree.shared)?;
    match Module::new(shared, units) {
        Ok(module) => Ok(module),
        Err(_) => unreachable!(),
    }
}

/// At most 256 shared numbers, or F14 at the 257th.
fn check_shared(tree: &Tree<'_>) -> Result<(), FrontError>
    ensures fits { OnOk result (length (tree_value tree.now).shared ≤ 256) }
    ensures fault { (f : Fault) → result ≡ Err (FrontError.Fault f)
        → IsTableFault (tree_value tree.now) f }
{
    match tree.shared.get(MAX_SHARED) {
        None => Ok(()),
        Some(number) => Err(table_fault(number.name.at)),
    }
}

/// No fault of names, or the one that is reported.
fn clean_names(alloc: Global, tree: &Tree<'_>) -> Result<(), FrontError>
    ensures clean { OnOk result ((f : Fault) → HasFault (tree_value tree.now) f → ⊥) }
    ensures scoped { OnOk result (IsScoped (tree_value tree.now)) }
    ensures fault { (f : Fault) → result ≡ Err (FrontError.Fault f)
        → IsFaultOf (tree_value tree.now) f }
{
    check_names(alloc, tree)
}

/// Neither a fault of names nor a recursive call nor too many shared numbers, or the fault that is reported.
fn check(alloc: Global, tree: &Tree<'_>) -> Result<(), FrontError>
    ensures clean { OnOk result ((f : Fault) → HasFault (tree_value tree.now) f → ⊥) }
    ensures scoped { OnOk result (IsScoped (tree_value tree.now)) }
    ensures falls { OnOk result ((f : Fault) → HasRecursion (tree_value tree.now) f → ⊥) }
    ensures fault { (f : Fault) → result ≡ Err (FrontError.Fault f)
        → IsFaultOf (tree_value tree.now) f }
{
    match clean_names(alloc, tree) {
        Ok(()) => check_recursion(alloc, tree),
        Err(e) => Err(e),
    }
}

/// The module of these parts, which are those that have units, in the order of these, in their setting; or F14 at the least offset.
fn module_in<'a, 't>(
    alloc: Global,
    tree: &'a Tree<'t>,
    setting: &Setting<'t>,
    parts: &[Part<'a, 't>],
) -> Result<Module, FrontError>
    requires scoped { IsScoped (tree_value tree.now) }
    requires shared { length (tree_value tree.now).shared ≤ 256 }
    requires units { AreUnits (tree_value tree.now) (map part parts.now) }
    requires setting { IsSetting (tree_value tree.now) (map part parts.now) setting.now }
    ensures compiled { IfOk result (λ m. IsCompiled (tree_value tree.now) m) }
    ensures limits { IfOk result IsWithinLimits }
    ensures keeps { IfOk result KeepsShape }
    ensures means { IfOk result (λ m. Means (tree_value tree.now) m) }
    ensures fault { (f : Fault) → result ≡ Err (FrontError.Fault f)
        → IsTableFault (tree_value tree.now) f }
{
    let units = units_of(alloc, setting, parts)?;
    let module = module(alloc, tree, units)?;
    Ok(module)
}

/// The same, in a setting that is made for them.
fn module_of_parts<'a, 't>(
    alloc: Global,
    tree: &'a Tree<'t>,
    parts: &[Part<'a, 't>],
) -> Result<Module, FrontError>
    requires scoped { IsScoped (tree_value tree.now) }
    requires shared { length (tree_value tree.now).shared ≤ 256 }
    requires units { AreUnits (tree_value tree.now) (map part parts.now) }
    ensures compiled { IfOk result (λ m. IsCompiled (tree_value tree.now) m) }
    ensures limits { IfOk result IsWithinLimits }
    ensures keeps { IfOk result KeepsShape }
    ensures means { IfOk result (λ m. Means (tree_value tree.now) m) }
    ensures fault { (f : Fault) → result ≡ Err (FrontError.Fault f)
        → IsTableFault (tree_value tree.now) f }
{
    let setting = settle(alloc, tree, parts)?;
    module_in(alloc, tree, &setting, parts)
}

/// The module that is the code of a tree without faults of names; or F14 at the least offset.
fn code(alloc: Global, tree: &Tree<'_>) -> Result<Module, FrontError>
    requires scoped { IsScoped (tree_value tree.now) }
    requires falls { (f : Fault) → HasRecursion (tree_value tree.now) f → ⊥ }
    ensures compiled { IfOk result (λ m. IsCompiled (tree_value tree.now) m) }
    ensures limits { IfOk result IsWithinLimits }
    ensures keeps { IfOk result KeepsShape }
    ensures means { IfOk result (λ m. Means (tree_value tree.now) m) }
    ensures fault { (f : Fault) → result ≡ Err (FrontError.Fault f)
        → IsTableFault (tree_value tree.now) f }
{
    check_shared(tree)?;
    let parts = units_in_order(alloc, tree)?;
    module_of_parts(alloc, tree, &parts)
}

/// The module that is the code of a tree. Else a fault of the tree: F5 to F8, F11, F12 and F15 first, at the least offset, of two there the one of
/// the lesser number; then F9; then F10, at the least offset, which the contract leaves open; then F14, at the 257th shared number or else at the
/// least offset.
pub fn compile(alloc: Global, tree: &Tree<'_>) -> Result<Module, FrontError>
    ensures clean { OnOk result ((f : Fault) → HasFault (tree_value tree.now) f → ⊥) }
    ensures scoped { OnOk result (IsScoped (tree_value tree.now)) }
    ensures falls { OnOk result ((f : Fault) → HasRecursion (tree_value tree.now) f → ⊥) }
    ensures compiled { IfOk result (λ m. IsCompiled (tree_value tree.now) m) }
    ensures limits { IfOk result IsWithinLimits }
    ensures keeps { IfOk result KeepsShape }
    ensures means { IfOk result (λ m. Means (tree_value tree.now) m) }
    ensures fault { (f : Fault) → result ≡ Err (FrontError.Fault f)
        → IsFaultOf (tree_value tree.now) f }
{
    match check(alloc, tree) {
        Ok(()) => code(alloc, tree),
        Err(e) => Err(e),
    }
}

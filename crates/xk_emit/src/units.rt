//! The units of methods and of the bodies of `async`.

ghost use Rattle.std.specs.Prelude.{◌≡◌, ◌++◌, [], ◌∷◌, length, map, max, option_map, ◌+◌, ◌≤◌, IsSome, OnOk, IfOk, IfErr, ⊤};
ghost use Rattle.xk_types.specs.declared.instr.Instr.TheVariants as instr;
ghost use Rattle.xk_types.specs.Code.{IsUnitWithinLimits};
ghost use Rattle.xk_tree.specs.Tree.{Block, clock_list, method_value, param_value, statement, statements, words};
ghost use Rattle.xk_names.specs.Scope.{texts};
ghost use Rattle.xk_names.specs.Uses.{clocks_listed};
ghost use Rattle.xk_emit.specs.Unit.{body_kinds, kinds_of_params, names_of_params, scope_from, slots_used, unit_of, unit_of_body, unit_of_method, written_slots};
ghost use Rattle.xk_emit.specs.CodeOf.{body_at, body_params, code_of_all, count_all};
ghost use Rattle.xk_emit.specs.NameCoverage.{AreCovered, AreNew, IsUnitCovered};
ghost use Rattle.xk_emit.specs.Room.{Denies, HasRoom};
ghost use Rattle.xk_emit.specs.declared.error.CodeError.TheVariants as error;

use crate::error::CodeError;
use crate::expressions::{Scope, after, push};
use crate::setting::Setting;
use crate::slots::declare;
use crate::statements::{Emitter, slots_behind_all};
use std::alloc::Global;
use std::slice;
use xk_names::Table;
use xk_tree::{ClockList, Method, Name, Param, Stmt};
use xk_types::{Instr, MAX_SLOTS, ParamKind, Unit, UnitKind};

/// The unit of a method, or of `main`. It has none where a name that its code needs is unknown, or one that it declares is known
/// already; nor where its unit would go beyond a limit.
#[tactic(auto, using(crate::proofs::UnitLemmas::covered_block))]
pub fn method_unit<'t>(
    alloc: Global,
    setting: &Setting<'t>,
    kind: UnitKind,
    method: &Method<'t>,
) -> Result<Unit, CodeError>
    ensures made { IfOk result
        (λ unit. unit ≡ unit_of_method setting.now kind (method_value method.now)) }
    ensures limits { IfOk result IsUnitWithinLimits }
    ensures name { IfErr result (λ e. e ≡ error.Name → IsUnitCovered setting.now
        (names_of_params (method_value method.now).params)
        (Block (method_value method.now).close
        (method_value method.now).body) → ⊥) }
    ensures table { IfErr result (λ e. e ≡ error.Table
        → IsUnitWithinLimits (unit_of_method setting.now kind (method_value method.now)) → ⊥) }
{
    let names = param_names(alloc, &method.params)?;
    let kinds = param_kinds(alloc, &method.params)?;
    block_unit(alloc, setting, kind, &names, kinds, &method.body)
}

/// The unit of the body of an `async`, whose word stands at offset `at`, and which is given these clocks; or why it has none, as of
/// a method.
pub fn body_unit<'t>(
    alloc: Global,
    setting: &Setting<'t>,
    at: usize,
    clocks: &Option<ClockList<'t>>,
    s: &Stmt<'t>,
) -> Result<Unit, CodeError>
    ensures made { IfOk result (λ unit. unit
        ≡ unit_of_body setting.now at (option_map clock_list clocks.now) (statement s.now)) }
    ensures limits { IfOk result IsUnitWithinLimits }
    ensures name { IfErr result (λ e. e ≡ error.Name → IsSome (body_at setting.now at)
        → IsUnitCovered setting.now
        (body_params setting.now at (option_map clock_list clocks.now)) (statement s.now) → ⊥) }
    ensures table { IfErr result (λ e. e ≡ error.Table → IsUnitWithinLimits
        (unit_of_body setting.now at (option_map clock_list clocks.now) (statement s.now)) → ⊥) }
{
    let names = body_names(alloc, setting, at, clocks)?;
    let kinds = body_kinds(alloc, setting, at, clocks)?;
    stmt_unit(alloc, setting, UnitKind::Body, &names, kinds, s)
}

/// The unit of a block, with the names of its parameters and what they take.
#[tactic(auto, using(crate::proofs::UnitLemmas::unit_made))]
fn block_unit<'t>(
    alloc: Global,
    setting: &Setting<'t>,
    kind: UnitKind,
    names: &[&'t [u8]],
    kinds: Vec<ParamKind>,
    body: &[Stmt<'t>],
) -> Result<Unit, CodeError>
    ensures made { IfOk result (λ unit. unit ≡ unit_of setting.now kind
        (map (λ x. x.now) names.now) kinds.items (Block 0 (statements body.now))) }
    ensures limits { IfOk result IsUnitWithinLimits }
    ensures name { IfErr result (λ e. e ≡ error.Name → IsUnitCovered setting.now
        (map (λ x. x.now) names.now) (Block 0 (statements body.now)) → ⊥) }
    ensures table { IfErr result (λ e. e ≡ error.Table
        → IsUnitWithinLimits (unit_of setting.now kind (map (λ x. x.now) names.now)
        kinds.items (Block 0 (statements body.now))) → ⊥) }
{
    let (mut scope, n) = param_scope(alloc, names)?;
    let free = slots_behind_all(n, body)?;
    let code = block_code(alloc, setting, free, &mut scope, n, body)?;
    let unit = unit(kind, kinds, free, code)?;
    Ok(unit)
}

/// The unit of a statement alone, which is that of a block of this one.
fn stmt_unit<'t>(
    alloc: Global,
    setting: &Setting<'t>,
    kind: UnitKind,
    names: &[&'t [u8]],
    kinds: Vec<ParamKind>,
    s: &Stmt<'t>,
) -> Result<Unit, CodeError>
    ensures made { IfOk result (λ unit. unit ≡ unit_of setting.now kind
        (map (λ x. x.now) names.now) kinds.items (statement s.now)) }
    ensures limits { IfOk result IsUnitWithinLimits }
    ensures name { IfErr result (λ e. e ≡ error.Name → IsUnitCovered setting.now
        (map (λ x. x.now) names.now) (statement s.now) → ⊥) }
    ensures table { IfErr result (λ e. e ≡ error.Table
        → IsUnitWithinLimits (unit_of setting.now kind (map (λ x. x.now) names.now)
        kinds.items (statement s.now)) → ⊥) }
{
    block_unit(alloc, setting, kind, names, kinds, slice::from_ref(s))
}

/// The code of a block, where `free` is the first temporary and `n` the next slot.
fn block_code<'t>(
    alloc: Global,
    setting: &Setting<'t>,
    free: u16,
    scope: &mut Scope<'t>,
    n: u16,
    body: &[Stmt<'t>],
) -> Result<Vec<Instr>, CodeError>
    ensures code { IfOk result (λ code. code.items
        ≡ code_of_all setting.now free scope.old n 0 (statements body.now)) }
    ensures refused { IfErr result (λ e. Denies e
        (AreCovered setting.now scope.old n (statements body.now))
        (HasRoom scope.old 0 (code_of_all setting.now free scope.old n 0 (statements body.now))
        × (n + count_all (statements body.now) ≤ 64))) }
{
    let emitter = Emitter {
        alloc,
        setting,
        free,
    };
    let mut code = Vec::new(alloc);
    emitter.emit_all(&mut code, scope, n, body)?;
    Ok(code)
}

/// The names of a body's parameters: its clocks, and then the numbers that it takes from outside.
fn body_names<'t>(
    alloc: Global,
    setting: &Setting<'t>,
    at: usize,
    clocks: &Option<ClockList<'t>>,
) -> Result<Vec<&'t [u8]>, CodeError>
    ensures made { IfOk result (λ names. map (λ x. x.now) names.items
        ≡ body_params setting.now at (option_map clock_list clocks.now)) }
    ensures refused { IfErr result (λ e. Denies e (IsSome (body_at setting.now at)) ⊤) }
{
    let mut names = clock_names(alloc, clocks)?;
    push_all(&mut names, &setting.body(at)?.captures)?;
    Ok(names)
}

/// What they take.
fn body_kinds<'t>(
    alloc: Global,
    setting: &Setting<'t>,
    at: usize,
    clocks: &Option<ClockList<'t>>,
) -> Result<Vec<ParamKind>, CodeError>
    ensures made { IfOk result (λ kinds. kinds.items
        ≡ body_kinds setting.now at (option_map clock_list clocks.now)) }
    ensures refused { IfErr result (λ e. Denies e (IsSome (body_at setting.now at)) ⊤) }
{
    let mut kinds = Vec::new(alloc);
    push_kinds(&mut kinds, ParamKind::Clock, &clock_names(alloc, clocks)?)?;
    push_kinds(&mut kinds, ParamKind::Number, &setting.body(at)?.captures)?;
    Ok(kinds)
}

/// Ends a unit, of which `free` slots are those of parameters and names.
fn unit(
    kind: UnitKind,
    params: Vec<ParamKind>,
    free: u16,
    mut code: Vec<Instr>,
) -> Result<Unit, CodeError>
    ensures made { IfOk result (λ unit. unit ≡ record {
      kind = kind;
      params = params.items;
      slots = slots_used free (code.items ++ instr.Ret ∷ []);
      code = code.items ++ instr.Ret ∷ [];
    }) }
    ensures limits { IfOk result IsUnitWithinLimits }
    ensures refused { IfErr result (λ e. Denies e ⊤ (IsUnitWithinLimits (record {
      kind = kind;
      params = params.items;
      slots = slots_used free (code.items ++ instr.Ret ∷ []);
      code = code.items ++ instr.Ret ∷ [];
    }))) }
{
    push(&mut code, Instr::Ret)?;
    let slots = slots_of_code(free, &code)?;
    let unit = Unit {
        kind,
        params,
        slots,
        code,
    };
    if unit.is_within_limits() {
        Ok(unit)
    } else {
        Err(CodeError::Table)
    }
}

/// The slots of a unit: `free` of them are those of parameters and names.
#[tactic(auto, using(crate::proofs::SlotLemmas::used_first))]
fn slots_of_code(free: u16, code: &[Instr]) -> Result<u16, CodeError>
    ensures slots { IfOk result (λ n. n ≡ slots_used free code.now) }
    ensures refused { IfErr result (λ e. Denies e ⊤ (slots_used free code.now ≤ 64)) }
{
    let mut most = free as usize;
    for instr in code {
        most = larger(most, written(instr));
    }
    if most <= MAX_SLOTS as usize {
        Ok(most as u16)
    } else {
        Err(CodeError::Table)
    }
}

/// The greater of two numbers.
fn larger(a: usize, b: usize) -> usize
    ensures { result ≡ max a b }
{
    if a < b { b } else { a }
}

/// One more than the slot that an instruction of an expression writes.
fn written(instr: &Instr) -> usize
    ensures { result ≡ written_slots instr.now }
{
    match instr {
        Instr::Lit { d, .. } => *d as usize + 1,
        Instr::Copy { d, .. } => *d as usize + 1,
        Instr::Add { d, .. } => *d as usize + 1,
        Instr::Sub { d, .. } => *d as usize + 1,
        Instr::Mul { d, .. } => *d as usize + 1,
        _ => 0,
    }
}

/// The scope of parameters, whose slots are the first, and how many they are.
fn param_scope<'t>(alloc: Global, names: &[&'t [u8]]) -> Result<(Scope<'t>, u16), CodeError>
    ensures scope { IfOk result (λ made. made.0 ≡ scope_from 0 (map (λ x. x.now) names.now)) }
    ensures count { IfOk result (λ made. made.1 ≡ length (map (λ x. x.now) names.now)) }
    ensures refused { IfErr result (λ e. Denies e (AreNew [] 0 (map (λ x. x.now) names.now))
        (length names.now ≤ 64)) }
{
    let mut scope = Table::new(alloc);
    let mut n = 0;
    for name in names {
        declare(&mut scope, *name, n)?;
        n = after(n)?;
    }
    Ok((scope, n))
}

/// The names of a method's parameters.
fn param_names<'t>(alloc: Global, params: &[Param<'t>]) -> Result<Vec<&'t [u8]>, CodeError>
    ensures made { IfOk result (λ names. map (λ x. x.now) names.items
        ≡ names_of_params (map param_value params.now)) }
    ensures refused { IfErr result (λ e. e ≡ error.OutOfMemory) }
{
    let mut names = Vec::new(alloc);
    for param in params {
        names.push(param.name.text)?;
    }
    Ok(names)
}

/// What a method's parameters take.
fn param_kinds(alloc: Global, params: &[Param<'_>]) -> Result<Vec<ParamKind>, CodeError>
    ensures made { IfOk result
        (λ kinds. kinds.items ≡ kinds_of_params (map param_value params.now)) }
    ensures refused { IfErr result (λ e. e ≡ error.OutOfMemory) }
{
    let mut kinds = Vec::new(alloc);
    for param in params {
        kinds.push(param.takes.kind)?;
    }
    Ok(kinds)
}

/// The names of the clocks that a body is given.
fn clock_names<'t>(
    alloc: Global,
    clocks: &Option<ClockList<'t>>,
) -> Result<Vec<&'t [u8]>, CodeError>
    ensures made { IfOk result (λ names. map (λ x. x.now) names.items
        ≡ texts (clocks_listed (option_map clock_list clocks.now))) }
    ensures refused { IfErr result (λ e. e ≡ error.OutOfMemory) }
{
    match clocks {
        None => Ok(Vec::new(alloc)),
        Some(list) => texts(alloc, &list.names),
    }
}

/// The texts of names.
fn texts<'t>(alloc: Global, names: &[Name<'t>]) -> Result<Vec<&'t [u8]>, CodeError>
    ensures made { IfOk result (λ found. map (λ x. x.now) found.items ≡ texts (words names.now)) }
    ensures refused { IfErr result (λ e. e ≡ error.OutOfMemory) }
{
    let mut found = Vec::new(alloc);
    for name in names {
        found.push(name.text)?;
    }
    Ok(found)
}

/// Further names.
fn push_all<'t>(names: &mut Vec<&'t [u8]>, more: &[&'t [u8]]) -> Result<(), CodeError>
    ensures made { OnOk result (map (λ x. x.now) names.new.items
        ≡ map (λ x. x.now) names.old.items ++ map (λ x. x.now) more.now) }
    ensures refused { IfErr result (λ e. e ≡ error.OutOfMemory) }
{
    for name in more {
        names.push(*name)?;
    }
    Ok(())
}

/// A kind for each of these names.
fn push_kinds(kinds: &mut Vec<ParamKind>, kind: ParamKind, names: &[&[u8]]) -> Result<(), CodeError>
    ensures made { OnOk result (kinds.new.items
        ≡ kinds.old.items ++ map (λ _. kind) (map (λ x. x.now) names.now)) }
    ensures refused { IfErr result (λ e. e ≡ error.OutOfMemory) }
{
    for _name in names {
        kinds.push(kind)?;
    }
    Ok(())
}

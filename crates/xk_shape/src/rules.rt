//! The rules on the shape of code, tried one after another.

ghost use Rattle.std.specs.Prelude.{◌≡◌, ◌+◌, ◌<◌, ◌||◌, ◌&&◌, not, ◌==◌, nat_lt, false, true, length, slice_get, Some, MatchResult, MatchOption};
ghost use Rattle.std.specs.List.{list_all, list_any};
ghost use Rattle.xk_types.specs.Blocks.{takes_clock};
ghost use Rattle.xk_types.specs.Code.{IsUnitWithinLimits, params_of, is_method, is_body};
ghost use Rattle.xk_types.specs.Shape.{breaks_in, breaks_slot, breaks_cell, is_in_place, runs_amiss, instr_is, is_fitting, breaks_end, has_twice, breaks_same_clock, slots_named, is_ret, HasShape};
ghost use Rattle.xk_shape.specs.Arguments.{clocks};
ghost use Rattle.xk_shape.specs.Fault.{Refuses};
ghost use Rattle.xk_shape.specs.Layout.{IsLayout, AreLayouts};
ghost use Rattle.xk_shape.specs.Breach.{IsNowhereBroken, IsLeastBreach, KeepsEarlier, KeepsEarlierIn, IsUnbrokenBefore, IsFirst};

use crate::arguments::Arguments;
use crate::fault::{ShapeError, ShapeFault};
use crate::homes::{gives_away, strays};
use crate::jumps::{aims_amiss, crosses_edge, misuses_loop};
use crate::layout::{Layout, layouts};
use std::alloc::Global;
use xk_types::{Args, Instr, Module, ParamKind, Rule, Unit, UnitKind};

/// The rules on shape, in the order of their numbers.
const RULES: [Rule; 10] = [
    Rule::Target,
    Rule::Block,
    Rule::Slot,
    Rule::Unit,
    Rule::Cell,
    Rule::Loop,
    Rule::End,
    Rule::Home,
    Rule::Registers,
    Rule::SameClock,
];

/// Tries the rules on shape in the order of their numbers, each over the whole module by rising unit and instruction.
pub(crate) fn check_shape(alloc: Global, m: &Module) -> Result<(), ShapeError>
    ensures { MatchResult result (λ _. HasShape m.now) (Refuses m.now) }
{
    let layouts = layouts(alloc, m)?;
    for rule in RULES {
        if let Some(fault) = least_breach(m, &layouts, rule) {
            return Err(ShapeError::Fault(fault));
        }
    }
    Ok(())
}

/// The least place of a module, whose units are laid out so, that breaks the rule.
fn least_breach(m: &Module, layouts: &[Layout], rule: Rule) -> Option<ShapeFault>
    requires layouts { AreLayouts m.now layouts.now }
    requires earlier { KeepsEarlier m.now rule }
    ensures { MatchOption result (IsNowhereBroken m.now rule) (IsLeastBreach m.now rule) }
{
    let mut unit = 0;
    for u in m.units() {
        if let Some(at) = first_place(m, rule, unit, u, &layouts[unit as usize]) {
            return Some(ShapeFault { rule, unit, at });
        }
        unit += 1;
    }
    None
}

/// The least instruction of a unit that breaks the rule. A fault of the whole unit is one of instruction 0.
fn first_place(m: &Module, rule: Rule, unit: u16, u: &Unit, layout: &Layout) -> Option<u16>
    requires limits { IsUnitWithinLimits u.now }
    requires layout { IsLayout u.now layout.now }
    requires earlier { KeepsEarlierIn m.now unit u.now rule }
    ensures { IsFirst (breaks_in m.now rule unit u.now) result }
{
    let places = u.code.len().max(1) as u16;
    for at in 0..places {
        if breaks_rule(m, rule, unit, u, layout, at) {
            return Some(at);
        }
    }
    None
}

/// Whether an instruction of a unit breaks the rule, where none before it does, and none breaks an earlier rule.
fn breaks_rule(m: &Module, rule: Rule, unit: u16, u: &Unit, layout: &Layout, at: u16) -> bool
    requires limits { IsUnitWithinLimits u.now }
    requires layout { IsLayout u.now layout.now }
    requires earlier { KeepsEarlierIn m.now unit u.now rule }
    requires before { IsUnbrokenBefore (breaks_in m.now rule unit u.now) at }
    ensures { result ≡ breaks_in m.now rule unit u.now at }
{
    match rule {
        Rule::Target => aims_amiss(u, at),
        Rule::Block => crosses_edge(u, layout, at),
        Rule::Slot => names_missing_slot(u, at),
        Rule::Unit => (at == 0 && !is_in_place(unit, u)) || runs_wrongly(m, unit, u, at),
        Rule::Cell => names_missing_cell(m, u, at),
        Rule::Loop => misuses_loop(u, layout.tables(), at),
        Rule::End => ends_wrongly(u, at),
        Rule::Home => strays(u, layout.tables(), at),
        Rule::Registers => gives_away(m, u, layout.tables(), at),
        Rule::SameClock => gives_clock_twice(m, u, at),
        Rule::Use
        | Rule::Held
        | Rule::Leak
        | Rule::Steps
        | Rule::Activities
        | Rule::Clocks
        | Rule::Stack => false,
    }
}

/// Whether the instruction names a slot that the unit doesn't have.
fn names_missing_slot(u: &Unit, at: u16) -> bool
    ensures { result ≡ breaks_slot u.now at }
{
    match u.code.get(at as usize) {
        Some(instr) => !names_below(instr, u.slots),
        None => false,
    }
}

/// Whether every slot that the instruction names is one of the first ones.
fn names_below(instr: &Instr, slots: u16) -> bool
    ensures { result ≡ list_all (λ s. nat_lt s slots) (slots_named instr.now) }
{
    match instr {
        Instr::Lit { d, .. } => *d < slots,
        Instr::Copy { d, a: x } => *d < slots && *x < slots,
        Instr::Add { d, a: x, b: y } => *d < slots && *x < slots && *y < slots,
        Instr::Sub { d, a: x, b: y } => *d < slots && *x < slots && *y < slots,
        Instr::Mul { d, a: x, b: y } => *d < slots && *x < slots && *y < slots,
        Instr::Unless { a: x, b: y, .. } => *x < slots && *y < slots,
        Instr::Jump(_) => true,
        Instr::For { k: slot, .. } => *slot < slots,
        Instr::ForTo {
            k: slot,
            x: limit,
            ..
        } => *slot < slots && *limit < slots,
        Instr::Next(_) | Instr::Finish(_) | Instr::EndFinish(_) => true,
        Instr::Get { d, .. } => *d < slots,
        Instr::Put { a: x, .. } | Instr::AddTo { a: x, .. } => *x < slots,
        Instr::Print(x) => *x < slots,
        Instr::Make(d) => *d < slots,
        Instr::Resume(c) => *c < slots,
        Instr::Drop(c) => *c < slots,
        Instr::Advance => true,
        Instr::Call { args, .. } | Instr::Spawn { args, .. } => args
            .slots()
            .iter()
            .all(|s| *s < slots),
        Instr::Ret => true,
    }
}

/// Whether the instruction names a shared number that the module doesn't have.
fn names_missing_cell(m: &Module, u: &Unit, at: u16) -> bool
    ensures { result ≡ breaks_cell m.now u.now at }
{
    match u.code.get(at as usize) {
        Some(
            Instr::Get { s: cell, .. } | Instr::Put { s: cell, .. } | Instr::AddTo { s: cell, .. },
        ) => { *cell as usize >= m.shared().len() }
        _ => false,
    }
}

/// Whether the unit may have this number: unit 0 is main and takes numbers alone, and no other is main.
fn is_in_place(unit: u16, u: &Unit) -> bool
    ensures { result ≡ is_in_place unit u.now }
{
    match u.kind {
        UnitKind::Main => unit == 0 && !has_clock(&u.params),
        UnitKind::Method | UnitKind::Body => unit != 0,
    }
}

/// Whether a parameter takes a clock.
fn has_clock(params: &[ParamKind]) -> bool
    ensures { result ≡ list_any (λ p. takes_clock (Some p)) params.now }
{
    params.iter().any(|param| takes_clock(param))
}

/// Whether the parameter takes a clock.
fn takes_clock(param: &ParamKind) -> bool
    ensures { result ≡ takes_clock (Some param.now) }
{
    match param {
        ParamKind::Number => false,
        ParamKind::Clock => true,
    }
}

/// Whether the instruction calls or starts a unit that the unit with this number may not run so.
fn runs_wrongly(m: &Module, unit: u16, u: &Unit, at: u16) -> bool
    ensures { result ≡ instr_is (runs_amiss m.now unit) (slice_get u.now.code at) }
{
    match u.code.get(at as usize) {
        Some(Instr::Call { unit: called, args }) => !is_callable(m, unit, *called, args),
        Some(
            Instr::Spawn {
                unit: started,
                args,
            },
        ) => !is_startable(m, unit, *started, args),
        _ => false,
    }
}

/// Whether the unit to be called is there, is a method, and may be run so.
fn is_callable(m: &Module, unit: u16, called: u16, args: &Args) -> bool
    ensures { result ≡ is_fitting is_method unit called args.now (slice_get m.now.units called) }
{
    match m.units().get(called as usize) {
        Some(u) => u.kind == UnitKind::Method && may_run(unit, called, args, u),
        None => false,
    }
}

/// Whether the unit to be started is there, is a body, and may be run so.
fn is_startable(m: &Module, unit: u16, started: u16, args: &Args) -> bool
    ensures { result ≡ is_fitting is_body unit started args.now (slice_get m.now.units started) }
{
    match m.units().get(started as usize) {
        Some(u) => u.kind == UnitKind::Body && may_run(unit, started, args, u),
        None => false,
    }
}

/// Whether the unit to be run has the greater number, and takes so many arguments.
fn may_run(unit: u16, number: u16, args: &Args, u: &Unit) -> bool
    ensures { result ≡ (nat_lt unit number && (length args.now == length u.now.params)) }
{
    unit < number && args.count() == u.params.len()
}

/// Whether the instruction is a `ret` before the end of the code, or another one at its end, or there is no code.
fn ends_wrongly(u: &Unit, at: u16) -> bool
    ensures { result ≡ breaks_end u.now at }
{
    let next = at as usize + 1;
    match u.code.get(at as usize) {
        Some(instr) if is_ret(instr) => next < u.code.len(),
        Some(_) => next == u.code.len(),
        None => at == 0 && u.code.is_empty(),
    }
}

/// Whether the instruction is a `ret`.
fn is_ret(instr: &Instr) -> bool
    ensures { result ≡ is_ret instr.now }
{
    matches!(instr, Instr::Ret)
}

/// Whether the instruction hands the clock of one slot on twice.
fn gives_clock_twice(m: &Module, u: &Unit, at: u16) -> bool
    ensures { result ≡ breaks_same_clock m.now u.now at }
{
    match u.code.get(at as usize) {
        Some(Instr::Call { unit: run, args } | Instr::Spawn { unit: run, args }) => {
            has_clock_twice(Arguments::new(params_of(m, *run), args.slots()))
        }
        _ => false,
    }
}

/// The parameters of a unit, or none where there is no such unit.
pub fn params_of(m: &Module, unit: u16) -> &[ParamKind]
    ensures { result.now ≡ params_of m.now unit }
{
    match m.units().get(unit as usize) {
        Some(u) => &u.params,
        None => &[],
    }
}

/// Whether some slot stands twice among the arguments for clocks.
fn has_clock_twice(mut arguments: Arguments) -> bool
    ensures { result ≡ has_twice (clocks arguments.entry) }
{
    while let Some(slot) = arguments.take_clock() {
        if arguments.has_clock(slot) {
            return true;
        }
    }
    false
}

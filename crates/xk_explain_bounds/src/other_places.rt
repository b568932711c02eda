//! The other places that a rule on clocks speaks of.

ghost use Rattle.std.specs.Prelude.{◌≡◌, ◌≤◌, false, length, slice_get, IfOk};
ghost use Rattle.std.specs.Option.{option_map_or};
ghost use Rattle.xk_types.specs.Blocks.{block_at, finish_opened, is_end_of, is_inside, makes, same_block, takes_clock};
ghost use Rattle.xk_shape.specs.Arguments.{clocks};
ghost use Rattle.xk_explain_bounds.specs.OtherPlaces.{deed_of, first_elsewhere, first_home, handed_on, held_remarks, here, home_remarks};
ghost use Rattle.xk_explain_bounds.specs.OtherPlaces.{home_slot, is_before, is_outside, kind_remarks, kind_remarks_at, listed, made_before};
ghost use Rattle.xk_explain_bounds.specs.OtherPlaces.{makes_elsewhere, on_unit, other_home, registers_remarks, remarks_on, shape_remarks};
ghost use Rattle.xk_explain_bounds.specs.OtherPlaces.{drop_remark, is_dropped, is_out, waits_at};

use crate::remark::{Deed, Fact, Remark};
use std::alloc::{AllocError, Global};
use xk_shape::{Arguments, ShapeFault, params_of};
use xk_types::{Instr, Kind, Module, ParamKind, Rule, Unit, Visit};
use xk_typestate::KindFault;

/// A remark on a place of a unit.
fn here(unit: u16, fact: Fact, at: u16) -> Remark
    ensures { result ≡ here unit fact at }
{
    Remark {
        unit,
        at: Some(at),
        fact,
    }
}

/// A remark on a unit.
fn on_unit(unit: u16, fact: Fact) -> Remark
    ensures { result ≡ on_unit unit fact }
{
    Remark {
        unit,
        at: None,
        fact,
    }
}

/// What an instruction does with a slot that it speaks of.
fn deed_of(instr: &Instr) -> Deed
    ensures { result ≡ deed_of instr.now }
{
    match instr {
        Instr::Resume(_) => Deed::Resumed,
        Instr::Drop(_) => Deed::Dropped,
        Instr::Spawn { .. } => Deed::Started,
        Instr::Call { unit, .. } => Deed::Called(*unit),
        Instr::EndFinish(_) => Deed::Finished,
        Instr::Make(_) => Deed::MadeAnew,
        Instr::Ret => Deed::Left,
        _ => Deed::Other,
    }
}

/// Whether a place lies in a finish that the instruction at another place opens.
fn is_in_finish(u: &Unit, at: u16, first: u16, instr: &Instr) -> bool
    ensures { result
        ≡ option_map_or (is_inside at) (finish_opened u.now first instr.now) false }
{
    match instr {
        Instr::Finish(last) => is_opened(u, first, *last) && first < at && at <= *last,
        _ => false,
    }
}

/// Whether a `finish` and an `endfinish` at these places name each other, where the former names the latter.
fn is_opened(u: &Unit, first: u16, last: u16) -> bool
    ensures { result ≡ is_end_of first (slice_get u.now.code last) }
{
    match u.code.get(last as usize) {
        Some(Instr::EndFinish(named)) => *named == first,
        _ => false,
    }
}

/// The block that a place stands directly in, told by the finishes around it.
fn block_at(alloc: Global, u: &Unit, at: u16) -> Result<Vec<u16>, AllocError>
    requires { length u.now.code ≤ 4096 }
    ensures { IfOk result (λ v. v.items ≡ block_at u.now at) }
{
    let mut block = Vec::new(alloc);
    for (first, instr) in u.code.iter().enumerate() {
        let first = first as u16;
        if is_in_finish(u, at, first, instr) {
            block.push(first)?;
        }
    }
    Ok(block)
}

/// Whether the instruction makes the clock of the slot.
fn makes(slot: u16, instr: &Instr) -> bool
    ensures { result ≡ makes slot instr.now }
{
    match instr {
        Instr::Make(made) => *made == slot,
        _ => false,
    }
}

/// Whether the instruction at a place makes the clock of the slot, in another block than this.
fn makes_elsewhere(
    alloc: Global,
    u: &Unit,
    slot: u16,
    block: &[u16],
    at: u16,
    instr: &Instr,
) -> Result<bool, AllocError>
    requires { length u.now.code ≤ 4096 }
    ensures { IfOk result (λ b. b ≡ makes_elsewhere u.now slot block.now at instr.now) }
{
    if !makes(slot, instr) {
        return Ok(false);
    }
    let other = block_at(alloc, u, at)?;
    Ok(!same_block(block, &other))
}

/// Whether two blocks are the same.
fn same_block(a: &[u16], b: &[u16]) -> bool
    ensures { result ≡ same_block a.now b.now }
{
    a == b
}

/// The first place before this one, or of the whole code, that makes the clock of the slot in another block.
fn first_elsewhere(
    alloc: Global,
    u: &Unit,
    slot: u16,
    block: &[u16],
    code: &[Instr],
) -> Result<Option<u16>, AllocError>
    requires unit { length u.now.code ≤ 4096 }
    requires code { length code.now ≤ 4096 }
    ensures { IfOk result (λ found. found ≡ first_elsewhere u.now slot block.now 0 code.now) }
{
    for (at, instr) in code.iter().enumerate() {
        let at = at as u16;
        if makes_elsewhere(alloc, u, slot, block, at, instr)? {
            return Ok(Some(at));
        }
    }
    Ok(None)
}

/// Whether a slot's clock comes from outside of the unit, and the block isn't the whole unit.
fn is_outside(u: &Unit, block: &[u16], slot: u16) -> bool
    ensures { result ≡ is_outside u.now block.now slot }
{
    takes_clock(u, slot) && !same_block(block, &[])
}

/// Whether a slot is a parameter that takes a clock.
fn takes_clock(u: &Unit, slot: u16) -> bool
    ensures { result ≡ takes_clock (slice_get u.now.params slot) }
{
    match u.params.get(slot as usize) {
        Some(param) => matches!(param, ParamKind::Clock),
        None => false,
    }
}

/// Where a slot takes its clock in another block than this.
fn other_home(
    alloc: Global,
    unit: u16,
    u: &Unit,
    block: &[u16],
    slot: u16,
) -> Result<Option<Remark>, AllocError>
    requires { length u.now.code ≤ 4096 }
    ensures { IfOk result (λ found. found ≡ other_home unit u.now block.now slot) }
{
    if is_outside(u, block, slot) {
        return Ok(Some(on_unit(unit, Fact::Outside(slot))));
    }
    match first_elsewhere(alloc, u, slot, block, &u.code)? {
        Some(at) => Ok(Some(here(unit, Fact::Made(slot), at))),
        None => Ok(None),
    }
}

/// The same of the first of the clocks among these arguments that has one.
fn first_home(
    alloc: Global,
    unit: u16,
    u: &Unit,
    block: &[u16],
    mut arguments: Arguments,
) -> Result<Option<Remark>, AllocError>
    requires { length u.now.code ≤ 4096 }
    ensures { IfOk result
        (λ found. found ≡ first_home unit u.now block.now (clocks arguments.entry)) }
{
    while let Some(slot) = arguments.take_clock() {
        if let Some(remark) = other_home(alloc, unit, u, block, slot)? {
            return Ok(Some(remark));
        }
    }
    Ok(None)
}

/// A list of one remark, or of none.
fn listed(alloc: Global, found: Option<Remark>) -> Result<Vec<Remark>, AllocError>
    ensures { IfOk result (λ v. v.items ≡ listed found) }
{
    let mut out = Vec::new(alloc);
    if let Some(remark) = found {
        out.push(remark)?;
    }
    Ok(out)
}

/// What is told of an instruction that breaks the rule on homes.
fn home_remarks(
    alloc: Global,
    unit: u16,
    u: &Unit,
    at: u16,
    instr: &Instr,
) -> Result<Vec<Remark>, AllocError>
    requires { length u.now.code ≤ 4096 }
    ensures { IfOk result (λ v. v.items ≡ home_remarks unit u.now at instr.now) }
{
    match instr {
        Instr::Make(slot) => listed(alloc, made_before(alloc, unit, u, at, *slot)?),
        Instr::Drop(slot) => listed(alloc, Some(on_unit(unit, Fact::Outside(*slot)))),
        _ => Ok(Vec::new(alloc)),
    }
}

/// Where the clock of a slot comes from beside the `make` at this place: from outside, or from a `make` before it in another block.
fn made_before(
    alloc: Global,
    unit: u16,
    u: &Unit,
    at: u16,
    slot: u16,
) -> Result<Option<Remark>, AllocError>
    requires { length u.now.code ≤ 4096 }
    ensures { IfOk result (λ found. found ≡ made_before unit u.now at slot) }
{
    if (slot as usize) < u.params.len() {
        return Ok(Some(on_unit(unit, Fact::Outside(slot))));
    }
    let block = block_at(alloc, u, at)?;
    let before = &u.code[..u.code.len().min(at as usize)];
    match first_elsewhere(alloc, u, slot, &block, before)? {
        Some(made) => Ok(Some(here(unit, Fact::Made(slot), made))),
        None => Ok(None),
    }
}

/// What is told of an instruction that hands on a clock from another block.
fn registers_remarks(
    alloc: Global,
    m: &Module,
    unit: u16,
    u: &Unit,
    at: u16,
    instr: &Instr,
) -> Result<Vec<Remark>, AllocError>
    requires { length u.now.code ≤ 4096 }
    ensures { IfOk result (λ v. v.items ≡ registers_remarks m.now unit u.now at instr.now) }
{
    let block = block_at(alloc, u, at)?;
    let home = home_handed_on(alloc, m, unit, u, &block, instr)?;
    remarks_on(alloc, unit, at, instr, block.last().copied(), home)
}

/// What is told of an instruction that hands on a clock, by the finish that is open and by where its clock comes from.
fn remarks_on(
    alloc: Global,
    unit: u16,
    at: u16,
    instr: &Instr,
    opened: Option<u16>,
    home: Option<Remark>,
) -> Result<Vec<Remark>, AllocError>
    ensures { IfOk result (λ v. v.items ≡ remarks_on unit at instr.now opened home) }
{
    let mut out = listed(alloc, home)?;
    if let Some(first) = opened {
        out.push(here(unit, Fact::Open, first))?;
    }
    if let Some(home) = home {
        out.extend_from_slice(&listed(alloc, waits_at(unit, at, instr, opened, home))?)?;
    }
    Ok(out)
}

/// The clock that a remark on where it comes from is on.
fn home_slot(fact: Fact) -> Option<u16>
    ensures { result ≡ home_slot fact }
{
    match fact {
        Fact::Made(slot) => Some(slot),
        Fact::Outside(slot) => Some(slot),
        _ => None,
    }
}

/// Whether what is told of comes from outside, or stands before a place.
fn is_before(place: u16, remark: Remark) -> bool
    ensures { result ≡ is_before place remark }
{
    match remark.at {
        Some(at) => at < place,
        None => true,
    }
}

/// Who waits for whom, if a clock from before the finish that is open is handed on in it.
fn waits_at(unit: u16, at: u16, instr: &Instr, opened: Option<u16>, home: Remark) -> Option<Remark>
    ensures { result ≡ waits_at unit at instr.now opened home }
{
    let first = opened?;
    if !is_before(first, home) {
        return None;
    }
    let slot = home_slot(home.fact)?;
    let deed = deed_of(instr);
    Some(here(unit, Fact::Waits { slot, deed }, at))
}

/// Where the first of the clocks comes from that an instruction hands on from another block.
fn home_handed_on(
    alloc: Global,
    m: &Module,
    unit: u16,
    u: &Unit,
    block: &[u16],
    instr: &Instr,
) -> Result<Option<Remark>, AllocError>
    requires { length u.now.code ≤ 4096 }
    ensures { IfOk result
        (λ found. found ≡ first_home unit u.now block.now (handed_on m.now instr.now)) }
{
    match instr {
        Instr::Call { unit: run, args } | Instr::Spawn { unit: run, args } => {
            let arguments = Arguments::new(params_of(m, *run), args.slots());
            first_home(alloc, unit, u, block, arguments)
        }
        _ => Ok(None),
    }
}

/// What is told of an instruction that ends a finish in which a clock is still held.
fn held_remarks(alloc: Global, unit: u16, instr: &Instr) -> Result<Vec<Remark>, AllocError>
    ensures { IfOk result (λ v. v.items ≡ held_remarks unit instr.now) }
{
    match instr {
        Instr::EndFinish(first) => listed(alloc, Some(here(unit, Fact::Begins, *first))),
        _ => Ok(Vec::new(alloc)),
    }
}

/// What is told beside a place that breaks a rule on shape.
pub(crate) fn shape_remarks(
    alloc: Global,
    m: &Module,
    fault: &ShapeFault,
) -> Result<Vec<Remark>, AllocError>
    ensures { IfOk result (λ v. v.items ≡ shape_remarks m.now fault.now) }
{
    let Some(u) = m.units().get(fault.unit as usize) else {
        return Ok(Vec::new(alloc));
    };
    let Some(instr) = u.code.get(fault.at as usize) else {
        return Ok(Vec::new(alloc));
    };
    match fault.rule {
        Rule::Home => home_remarks(alloc, fault.unit, u, fault.at, instr),
        Rule::Registers => registers_remarks(alloc, m, fault.unit, u, fault.at, instr),
        _ => Ok(Vec::new(alloc)),
    }
}

/// Whether a slot holds a clock that is dropped.
fn is_out(kind: Kind) -> bool
    ensures { result ≡ is_out kind }
{
    match kind {
        Kind::Unset | Kind::Number | Kind::Live | Kind::Resumed => false,
        Kind::Out => true,
    }
}

/// Whether a slot's clock is dropped at a stop of a walk.
fn is_dropped(u: &Unit, slot: u16, visit: Visit) -> bool
    ensures { result ≡ is_dropped u.now slot visit }
{
    match u.code.get(visit.at as usize) {
        Some(Instr::Drop(dropped)) => *dropped == slot && !is_out(visit.kind),
        _ => false,
    }
}

/// Where the clock is dropped that may be dropped already at the place refused, if that is elsewhere.
fn drop_remark(u: &Unit, fault: &KindFault) -> Option<Remark>
    ensures { result ≡ drop_remark u.now fault.now }
{
    if !is_out(fault.kind) {
        return None;
    }
    let mut found = None;
    for visit in &fault.walk {
        if is_dropped(u, fault.slot, *visit) {
            found = Some(visit.at);
        }
    }
    let at = found?;
    if at == fault.at {
        return None;
    }
    Some(here(fault.unit, Fact::Dropped(fault.slot), at))
}

/// What is told beside an instruction whose slot is of the wrong kind.
fn kind_remarks_at(
    alloc: Global,
    u: &Unit,
    fault: &KindFault,
    instr: &Instr,
) -> Result<Vec<Remark>, AllocError>
    ensures { IfOk result (λ v. v.items ≡ kind_remarks_at u.now fault.now instr.now) }
{
    let holds = Fact::Holds {
        slot: fault.slot,
        kind: fault.kind,
        deed: deed_of(instr),
    };
    let mut out = listed(alloc, Some(here(fault.unit, holds, fault.at)))?;
    if let Rule::Held = fault.rule {
        out.extend_from_slice(&held_remarks(alloc, fault.unit, instr)?)?;
    }
    if let Some(remark) = drop_remark(u, fault) {
        out.push(remark)?;
    }
    Ok(out)
}

/// What is told beside a slot of the wrong kind.
pub(crate) fn kind_remarks(
    alloc: Global,
    m: &Module,
    fault: &KindFault,
) -> Result<Vec<Remark>, AllocError>
    ensures { IfOk result (λ v. v.items ≡ kind_remarks m.now fault.now) }
{
    let Some(u) = m.units().get(fault.unit as usize) else {
        return Ok(Vec::new(alloc));
    };
    let Some(instr) = u.code.get(fault.at as usize) else {
        return Ok(Vec::new(alloc));
    };
    kind_remarks_at(alloc, u, fault, instr)
}

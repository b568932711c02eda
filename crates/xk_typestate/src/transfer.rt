//! The table of kinds, and where instructions lead: all that depends on which instructions there are.

ghost use Rattle.std.specs.Prelude.{◌≡◌, ℕ, ◌↔◌, ◌<◌, [], ◌∷◌, IsTrue, MatchResult, Ok, Some, slice_get, option_and_then, if◌then◌else◌};
ghost use Rattle.xk_types.specs.Code.{loop_head, params_of};
ghost use Rattle.xk_types.specs.declared.rules.Kind.{Kind};
ghost use Rattle.xk_types.specs.declared.rules.Kind.TheVariants.{Number};
ghost use Rattle.xk_types.specs.Order.{Has};
ghost use Rattle.xk_types.specs.Walk.{After, Refused, after, becomes, awake, reads, may_read, loop_slot, loop_limit, turns_round, overwritten, let_go, writes, uses, hands_on, gives, across, is_lent, is_own, stays, passes_over, successors, entry_kinds, MayBecome};
ghost use Rattle.xk_typestate.specs.KindSet.{kinds_have};
ghost use Rattle.xk_typestate.specs.Transfer.{IsRow, way_kinds, places, AreRising};

use crate::kind_set::KindSet;
use xk_shape::{Arguments, Blocks, params_of};
use xk_types::{Args, Instr, Kind, Module, ParamKind, Rule, Unit, UnitKind};

/// Where an instruction may lead, in rising order.
#[derive(Clone, Copy)]
pub(crate) enum Successors {
    /// The walk ends.
    Nowhere,
    /// To this place.
    One(u16),
    /// To one of these places, the lesser first.
    Two(u16, u16),
}

/// Where an instruction at this place may lead.
pub(crate) fn successors_of(instr: &Instr, at: u16) -> Successors
    requires room { at < 65535 }
    requires inside { (to : ℕ) → Has (successors instr.now at) to → to < 65536 }
    ensures edges { (to : ℕ) → Has (places result) to ↔ Has (successors instr.now at) to }
    ensures rising { AreRising result }
{
    match instr {
        Instr::Unless { t, .. } => either(at + 1, *t),
        Instr::Jump(t) => Successors::One(*t),
        Instr::ForTo { e, .. } => either(at + 1, *e + 1),
        Instr::Next(b) => either(at + 1, *b + 1),
        Instr::Ret => Successors::Nowhere,
        _ => Successors::One(at + 1),
    }
}

/// Both places.
fn either(a: u16, b: u16) -> Successors
    ensures both { (to : ℕ) → Has (places result) to ↔ Has (a ∷ b ∷ []) to }
    ensures rising { AreRising result }
{
    if a < b {
        Successors::Two(a, b)
    } else {
        Successors::Two(b, a)
    }
}

/// The kinds that a slot may have before the first instruction.
pub(crate) fn kinds_at_entry(u: &Unit, slot: u16) -> KindSet
    ensures { (k : Kind) → IsTrue (kinds_have result k) ↔ Has (entry_kinds u.now slot) k }
{
    match u.params.get(slot as usize) {
        Some(ParamKind::Number) => KindSet::of(Kind::Number),
        Some(ParamKind::Clock) => KindSet::of(Kind::Live).with(Kind::Resumed),
        None => KindSet::of(Kind::Unset),
    }
}

/// What an instruction leaves of the kind of a slot, and what it leaves where it passes over a loop; nothing where it refuses it.
/// The blocks are those of the unit.
pub(crate) fn kinds_left(
    m: &Module,
    u: &Unit,
    blocks: &Blocks,
    instr: &Instr,
    slot: u16,
    kind: Kind,
) -> (KindSet, KindSet)
    requires { blocks.now ≡ u.now }
    ensures on { (k : Kind)
        → IsTrue (kinds_have result.0 k) ↔ MayBecome (after m.now u.now instr.now slot kind) k }
    ensures past { (k : Kind) → IsTrue (kinds_have result.1 k)
        ↔ MayBecome (stays kind (after m.now u.now instr.now slot kind)) k }
{
    match kinds_after(m, u, blocks, instr, slot, kind) {
        Ok(kinds) => (kinds, KindSet::of(kind)),
        Err(_) => (KindSet::empty(), KindSet::empty()),
    }
}

/// Of these two what is left on the way to a place.
pub(crate) fn way(instr: &Instr, to: u16, on: KindSet, past: KindSet) -> KindSet
    ensures { result ≡ way_kinds instr.now to on past }
{
    if passes_over(instr, to) { past } else { on }
}

/// Whether the instruction, if it goes to this place, passes over a loop.
fn passes_over(instr: &Instr, to: u16) -> bool
    ensures { result ≡ passes_over instr.now to }
{
    match instr {
        Instr::ForTo { e, .. } => to as u32 == *e as u32 + 1,
        _ => false,
    }
}

/// What an instruction leaves of the kind of a slot, or the rule by which it refuses it. The blocks are those of the unit.
pub(crate) fn kinds_after(
    m: &Module,
    u: &Unit,
    blocks: &Blocks,
    instr: &Instr,
    slot: u16,
    kind: Kind,
) -> Result<KindSet, Rule>
    requires { blocks.now ≡ u.now }
    ensures { IsRow (after m.now u.now instr.now slot kind) result }
{
    match instr {
        Instr::Lit { d, .. } | Instr::For { k: d, .. } | Instr::Get { d, .. } => {
            write(*d, Kind::Number, slot, kind)
        }
        Instr::Copy { d, a: x } => copy(*d, *x, slot, kind),
        Instr::ForTo { k: d, x, .. } => copy(*d, *x, slot, kind),
        Instr::Add { d, a: x, b: y } => compute(*d, *x, *y, slot, kind),
        Instr::Sub { d, a: x, b: y } => compute(*d, *x, *y, slot, kind),
        Instr::Mul { d, a: x, b: y } => compute(*d, *x, *y, slot, kind),
        Instr::Unless { a: x, b: y, .. } => compare(*x, *y, slot, kind),
        Instr::Next(b) => turn_round(u, *b, slot, kind),
        Instr::Put { a: x, .. } | Instr::AddTo { a: x, .. } | Instr::Print(x) => {
            only_read(*x, slot, kind)
        }
        Instr::Make(d) => write(*d, Kind::Live, slot, kind),
        Instr::Resume(c) => use_clock(*c, Kind::Resumed, slot, kind),
        Instr::Drop(c) => use_clock(*c, Kind::Out, slot, kind),
        Instr::Advance => Ok(KindSet::of(awake(kind))),
        Instr::Call { unit, args } => call(m, *unit, args, slot, kind),
        Instr::Spawn { unit, args } => spawn(m, *unit, args, slot, kind),
        Instr::EndFinish(first) => after_endfinish(blocks.is_home(slot, *first), kind),
        Instr::Jump(_) | Instr::Finish(_) => Ok(KindSet::of(kind)),
        Instr::Ret => after_ret(u, slot, kind),
    }
}

/// Reads a slot as a number, then writes a number.
fn copy(d: u16, x: u16, slot: u16, kind: Kind) -> Result<KindSet, Rule>
    ensures { IsRow (reads x slot kind (writes d Number slot kind)) result }
{
    read(x, slot, kind)?;
    write(d, Kind::Number, slot, kind)
}

/// Reads two slots as numbers, then writes a number.
fn compute(d: u16, x: u16, y: u16, slot: u16, kind: Kind) -> Result<KindSet, Rule>
    ensures { IsRow (reads x slot kind (reads y slot kind (writes d Number slot kind))) result }
{
    read(x, slot, kind)?;
    read(y, slot, kind)?;
    write(d, Kind::Number, slot, kind)
}

/// Reads two slots as numbers, and writes none.
fn compare(x: u16, y: u16, slot: u16, kind: Kind) -> Result<KindSet, Rule>
    ensures { IsRow (reads x slot kind (reads y slot kind (becomes kind))) result }
{
    read(x, slot, kind)?;
    only_read(y, slot, kind)
}

/// Reads a slot as a number, and writes none.
fn only_read(x: u16, slot: u16, kind: Kind) -> Result<KindSet, Rule>
    ensures { IsRow (reads x slot kind (becomes kind)) result }
{
    read(x, slot, kind)?;
    Ok(KindSet::of(kind))
}

/// Ends a turn of the loop that begins at this place: its slot and its limit are read.
fn turn_round(u: &Unit, first: u16, slot: u16, kind: Kind) -> Result<KindSet, Rule>
    ensures { IsRow
        (turns_round (option_and_then (loop_head first) (slice_get u.now.code first)) slot kind
        (becomes kind))
        result }
{
    may_read(loop_slot(u, first), slot, kind)?;
    may_read(loop_limit(u, first), slot, kind)?;
    Ok(KindSet::of(kind))
}

/// Calls a method: each argument is read or handed on, and the method may wait for the clocks that it is lent.
fn call(m: &Module, called: u16, args: &Args, slot: u16, kind: Kind) -> Result<KindSet, Rule>
    ensures { IsRow
        (gives (params_of m.now called) args.now slot kind
        (across (is_lent (params_of m.now called) args.now slot) kind))
        result }
{
    let arguments = Arguments::new(params_of(m, called), args.slots());
    let lent = arguments.has_clock(slot);
    give(arguments, slot, kind)?;
    Ok(kinds_across(lent, kind))
}

/// Starts an activity: each argument is read or handed on, and nothing is changed.
fn spawn(m: &Module, started: u16, args: &Args, slot: u16, kind: Kind) -> Result<KindSet, Rule>
    ensures { IsRow
        (gives (params_of m.now started) args.now slot kind (becomes kind))
        result }
{
    give(
        Arguments::new(params_of(m, started), args.slots()),
        slot,
        kind,
    )?;
    Ok(KindSet::of(kind))
}

/// The slot of the loop that begins at this place; none where no loop does.
fn loop_slot(u: &Unit, at: u16) -> Option<u16>
    ensures { result ≡ loop_slot (option_and_then (loop_head at) (slice_get u.now.code at)) }
{
    match u.code.get(at as usize) {
        Some(instr) => slot_of_head(instr),
        None => None,
    }
}

/// The slot of the loop of which the instruction is the head; none for other instructions.
fn slot_of_head(instr: &Instr) -> Option<u16>
    ensures { (at : ℕ) → result ≡ loop_slot (loop_head at instr.now) }
{
    match instr {
        Instr::For { k, .. } | Instr::ForTo { k, .. } => Some(*k),
        _ => None,
    }
}

/// The slot that the loop that begins at this place goes no further up than; none where no loop does, or it names none.
fn loop_limit(u: &Unit, at: u16) -> Option<u16>
    ensures { result ≡ loop_limit (option_and_then (loop_head at) (slice_get u.now.code at)) }
{
    match u.code.get(at as usize) {
        Some(instr) => limit_of_head(instr),
        None => None,
    }
}

/// The same of the instruction that is its head.
fn limit_of_head(instr: &Instr) -> Option<u16>
    ensures { (at : ℕ) → result ≡ loop_limit (loop_head at instr.now) }
{
    match instr {
        Instr::ForTo { x, .. } => Some(*x),
        _ => None,
    }
}

/// Reads this slot as a number, if there is one, where the walk is on it.
fn may_read(x: Option<u16>, slot: u16, kind: Kind) -> Result<(), Rule>
    ensures { (go : After)
        → MatchResult result
        (λ _. may_read x slot kind go ≡ go)
        (λ r. may_read x slot kind go ≡ Refused r) }
{
    match x {
        Some(x) => read(x, slot, kind),
        None => Ok(()),
    }
}

/// Gives arguments to parameters: a number is read, a clock handed on.
fn give(mut arguments: Arguments, slot: u16, kind: Kind) -> Result<(), Rule>
    ensures { (go : After)
        → MatchResult result
        (λ _. gives arguments.entry.params arguments.entry.slots slot kind go ≡ go)
        (λ r. gives arguments.entry.params arguments.entry.slots slot kind go ≡ Refused r) }
{
    while let Some((param, x)) = arguments.take_next() {
        match param {
            ParamKind::Number => read(x, slot, kind)?,
            ParamKind::Clock => hand_on(x, slot, kind)?,
        }
    }
    Ok(())
}

/// Reads a slot as a number, where the walk is on it.
fn read(x: u16, slot: u16, kind: Kind) -> Result<(), Rule>
    ensures { (go : After)
        → MatchResult result
        (λ _. reads x slot kind go ≡ go)
        (λ r. reads x slot kind go ≡ Refused r) }
{
    if slot != x || kind == Kind::Number {
        Ok(())
    } else {
        Err(Rule::Use)
    }
}

/// Hands a slot on as a clock, where the walk is on it.
fn hand_on(c: u16, slot: u16, kind: Kind) -> Result<(), Rule>
    ensures { (go : After)
        → MatchResult result
        (λ _. hands_on c slot kind go ≡ go)
        (λ r. hands_on c slot kind go ≡ Refused r) }
{
    match kind {
        _ if slot != c => Ok(()),
        Kind::Live | Kind::Resumed => Ok(()),
        Kind::Unset | Kind::Number | Kind::Out => Err(Rule::Use),
    }
}

/// Writes a slot, where the walk is on it.
fn write(d: u16, new: Kind, slot: u16, kind: Kind) -> Result<KindSet, Rule>
    ensures { IsRow (writes d new slot kind) result }
{
    if slot == d {
        overwrite(kind, new)
    } else {
        Ok(KindSet::of(kind))
    }
}

/// Overwrites a slot: a clock on which the activity is still registered would be lost.
fn overwrite(kind: Kind, new: Kind) -> Result<KindSet, Rule>
    ensures { IsRow (overwritten kind (becomes new)) result }
{
    match kind {
        Kind::Unset | Kind::Number | Kind::Out => Ok(KindSet::of(new)),
        Kind::Live | Kind::Resumed => Err(Rule::Leak),
    }
}

/// Uses a slot as a clock, where the walk is on it.
fn use_clock(c: u16, new: Kind, slot: u16, kind: Kind) -> Result<KindSet, Rule>
    ensures { IsRow (uses c new slot kind) result }
{
    match kind {
        _ if slot != c => Ok(KindSet::of(kind)),
        Kind::Live | Kind::Resumed => Ok(KindSet::of(new)),
        Kind::Unset | Kind::Number | Kind::Out => Err(Rule::Use),
    }
}

/// What `advance` leaves of a kind.
fn awake(kind: Kind) -> Kind
    ensures { result ≡ awake kind }
{
    match kind {
        Kind::Resumed => Kind::Live,
        Kind::Unset | Kind::Number | Kind::Live | Kind::Out => kind,
    }
}

/// What a call leaves of a kind, by whether the slot is lent.
fn kinds_across(lent: bool, kind: Kind) -> KindSet
    ensures { IsRow (across lent kind) (Ok result) }
{
    match kind {
        Kind::Live if !lent => KindSet::of(kind),
        Kind::Live | Kind::Resumed => KindSet::of(Kind::Live).with(Kind::Resumed),
        Kind::Unset | Kind::Number | Kind::Out => KindSet::of(kind),
    }
}

/// What `endfinish` leaves of a kind, by whether it ends the block that is the slot's home.
fn after_endfinish(home: bool, kind: Kind) -> Result<KindSet, Rule>
    ensures { IsRow (if home then let_go kind (becomes kind) else becomes kind) result }
{
    if home {
        let_go(kind)
    } else {
        Ok(KindSet::of(kind))
    }
}

/// Ends the home of a slot: a clock on which the activity is still registered would keep back those for whom it waits.
fn let_go(kind: Kind) -> Result<KindSet, Rule>
    ensures { IsRow (let_go kind (becomes kind)) result }
{
    match kind {
        Kind::Unset | Kind::Number | Kind::Out => Ok(KindSet::of(kind)),
        Kind::Live | Kind::Resumed => Err(Rule::Held),
    }
}

/// What `ret` leaves of a kind: where a method returns, its own slots are lost.
fn after_ret(u: &Unit, slot: u16, kind: Kind) -> Result<KindSet, Rule>
    ensures { IsRow
        (if is_own u.now slot then overwritten kind (becomes kind) else becomes kind)
        result }
{
    if is_own(u, slot) {
        overwrite(kind, kind)
    } else {
        Ok(KindSet::of(kind))
    }
}

/// Whether the slot is a method's own, and no parameter.
fn is_own(u: &Unit, slot: u16) -> bool
    ensures { result ≡ is_own u.now slot }
{
    match u.kind {
        UnitKind::Method => slot as usize >= u.params.len(),
        UnitKind::Main | UnitKind::Body => false,
    }
}

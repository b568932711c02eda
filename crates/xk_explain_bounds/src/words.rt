//! The words of notes.

ghost use Rattle.std.specs.Prelude.{◌≡◌, ◌++◌, codes, IfOk, OnOk};
ghost use Rattle.std.specs.Option.{option_map_or};
ghost use Rattle.xk_explain_words.specs.Names.{told_name};
ghost use Rattle.xk_explain_bounds.specs.Words.{deed_words, loop_words, may_hold, most_words, note_of, place_before, place_in};
ghost use Rattle.xk_explain_bounds.specs.Words.{slot_words, slots_words, started_by, started_words, this_unit, times_words};
ghost use Rattle.xk_explain_bounds.specs.Words.{unit_around, unit_words, waits_words, words};

use crate::amounts::{amount, counted};
use crate::remark::{Deed, Fact, Remark};
use std::alloc::{AllocError, Global};
use xk_explain::{Note, slot_title};
use xk_explain_words::told_name;
use xk_types::Kind;
use xk_unit_origins::UnitOrigins;

/// What stands for the name of an `async` at its own place.
const THIS: &str = "this `async`";

/// What stands for it at a place in it.
const AROUND: &str = "the `async` around it";

/// A text, byte by byte.
fn text(alloc: Global, words: &str) -> Result<Vec<u8>, AllocError>
    ensures { IfOk result (λ v. v.items ≡ words.now) }
{
    Vec::from_slice(alloc, words.as_bytes())
}

/// Adds a text.
fn push_text(out: &mut Vec<u8>, words: &str) -> Result<(), AllocError>
    ensures { OnOk result (out.new.items ≡ out.old.items ++ words.now) }
{
    out.extend_from_slice(words.as_bytes())
}

/// The name of a unit, no more than 60 letters of it, or what stands for that of one without a name.
fn name_or(alloc: Global, u: &UnitOrigins<'_>, nameless: &str) -> Result<Vec<u8>, AllocError>
    ensures { IfOk result
        (λ v. v.items ≡ option_map_or told_name u.now.head.name nameless.now) }
{
    match u.head.name {
        Some(name) => told_name(alloc, name),
        None => text(alloc, nameless),
    }
}

/// A unit by its name, or by what stands for that, or by its number.
fn unit_words(
    alloc: Global,
    origins: &[UnitOrigins<'_>],
    unit: u16,
    nameless: &str,
) -> Result<Vec<u8>, AllocError>
    ensures { IfOk result (λ v. v.items ≡ unit_words nameless.now origins.now unit) }
{
    match origins.get(unit as usize) {
        Some(u) => name_or(alloc, u, nameless),
        None => text(alloc, format!(in alloc; "unit {unit}")?.as_str()),
    }
}

/// A slot of a unit, by its name or its number.
fn slot_words(
    alloc: Global,
    origins: &[UnitOrigins<'_>],
    unit: u16,
    slot: u16,
) -> Result<Vec<u8>, AllocError>
    ensures { IfOk result (λ v. v.items ≡ slot_words origins.now unit slot) }
{
    match origins.get(unit as usize) {
        Some(u) => slot_title(alloc, u, slot),
        None => text(alloc, format!(in alloc; "slot {slot}")?.as_str()),
    }
}

/// How often something is done in one run of a unit.
#[tactic(auto, unfolding(crate::specs::Words::times_words))]
fn times_words(alloc: Global, n: u64, around: &[u8]) -> Result<Vec<u8>, AllocError>
    ensures { IfOk result (λ v. v.items ≡ times_words n around.now) }
{
    let mut out = text(alloc, " ")?;
    out.extend_from_slice(&counted(alloc, n, " time", " times")?)?;
    push_text(&mut out, " in one run of ")?;
    out.extend_from_slice(around)?;
    Ok(out)
}

/// How many turns a loop takes.
#[tactic(auto, unfolding(crate::specs::Words::loop_words))]
fn loop_words(alloc: Global, turns: u64, all: u64, around: &[u8]) -> Result<Vec<u8>, AllocError>
    ensures { IfOk result (λ v. v.items ≡ loop_words turns all around.now) }
{
    let mut out = text(alloc, "this loop has ")?;
    out.extend_from_slice(&counted(alloc, turns, " turn", " turns")?)?;
    push_text(&mut out, " each time, ")?;
    out.extend_from_slice(&amount(alloc, all)?)?;
    push_text(&mut out, " in one run of ")?;
    out.extend_from_slice(around)?;
    Ok(out)
}

/// What a unit does so often at most.
#[tactic(auto, unfolding(crate::specs::Words::most_words))]
fn most_words(
    alloc: Global,
    does: &str,
    n: u64,
    one: &str,
    many: &str,
) -> Result<Vec<u8>, AllocError>
    ensures { IfOk result (λ v. v.items ≡ most_words does.now n one.now many.now) }
{
    let mut out = text(alloc, does)?;
    out.extend_from_slice(&counted(alloc, n, one, many)?)?;
    push_text(&mut out, " at most")?;
    Ok(out)
}

/// How many slots a unit has.
#[tactic(auto, unfolding(crate::specs::Words::slots_words))]
fn slots_words(alloc: Global, own: u16, all: u64) -> Result<Vec<u8>, AllocError>
    ensures { IfOk result (λ v. v.items ≡ slots_words own all) }
{
    let mut out = text(alloc, " has ")?;
    out.extend_from_slice(&counted(alloc, u64::from(own), " slot", " slots")?)?;
    push_text(&mut out, ", at most ")?;
    out.extend_from_slice(&amount(alloc, all)?)?;
    push_text(&mut out, " with those that it calls")?;
    Ok(out)
}

/// What is told of a loop.
fn loop_note(
    alloc: Global,
    origins: &[UnitOrigins<'_>],
    unit: u16,
    turns: u64,
    all: u64,
) -> Result<Vec<u8>, AllocError>
    ensures { IfOk result (λ v. v.items ≡ loop_words turns all (unit_around origins.now unit)) }
{
    let around = unit_words(alloc, origins, unit, AROUND)?;
    loop_words(alloc, turns, all, &around)
}

/// What is done to a unit so often in one run of another one.
fn run_note(
    alloc: Global,
    origins: &[UnitOrigins<'_>],
    unit: u16,
    run: u16,
    done: &str,
    times: u64,
) -> Result<Vec<u8>, AllocError>
    ensures { IfOk result (λ v. v.items ≡ (this_unit origins.now run ++ done.now)
        ++ times_words times (unit_around origins.now unit)) }
{
    let around = unit_words(alloc, origins, unit, AROUND)?;
    let often = times_words(alloc, times, &around)?;
    let mut out = unit_words(alloc, origins, run, THIS)?;
    push_text(&mut out, done)?;
    out.extend_from_slice(&often)?;
    Ok(out)
}

/// How often a clock is made.
fn make_note(
    alloc: Global,
    origins: &[UnitOrigins<'_>],
    unit: u16,
    times: u64,
) -> Result<Vec<u8>, AllocError>
    ensures { IfOk result (λ v. v.items
        ≡ codes "a clock is made here" ++ times_words times (unit_around origins.now unit)) }
{
    let around = unit_words(alloc, origins, unit, AROUND)?;
    let often = times_words(alloc, times, &around)?;
    let mut out = text(alloc, "a clock is made here")?;
    out.extend_from_slice(&often)?;
    Ok(out)
}

/// What a unit does so often at most.
fn most_note(
    alloc: Global,
    origins: &[UnitOrigins<'_>],
    unit: u16,
    does: &str,
    n: u64,
    one: &str,
    many: &str,
) -> Result<Vec<u8>, AllocError>
    ensures { IfOk result (λ v. v.items
        ≡ this_unit origins.now unit ++ most_words does.now n one.now many.now) }
{
    let most = most_words(alloc, does, n, one, many)?;
    let mut out = unit_words(alloc, origins, unit, THIS)?;
    out.extend_from_slice(&most)?;
    Ok(out)
}

/// How many slots a unit has.
fn slots_note(
    alloc: Global,
    origins: &[UnitOrigins<'_>],
    unit: u16,
    own: u16,
    all: u64,
) -> Result<Vec<u8>, AllocError>
    ensures { IfOk result (λ v. v.items ≡ this_unit origins.now unit ++ slots_words own all) }
{
    let slots = slots_words(alloc, own, all)?;
    let mut out = unit_words(alloc, origins, unit, THIS)?;
    out.extend_from_slice(&slots)?;
    Ok(out)
}

/// What is said of a slot.
fn slot_note(
    alloc: Global,
    origins: &[UnitOrigins<'_>],
    unit: u16,
    slot: u16,
    said: &str,
) -> Result<Vec<u8>, AllocError>
    ensures { IfOk result (λ v. v.items ≡ slot_words origins.now unit slot ++ said.now) }
{
    let mut out = slot_words(alloc, origins, unit, slot)?;
    push_text(&mut out, said)?;
    Ok(out)
}

/// What a slot may hold.
fn may_hold(kind: Kind) -> &'static str
    ensures { result.now ≡ may_hold kind }
{
    match kind {
        Kind::Unset => " may hold nothing yet",
        Kind::Number => " may be a number",
        Kind::Live => " may be held still",
        Kind::Resumed => " may be held still",
        Kind::Out => " may be dropped already",
    }
}

/// These words, a unit's name, and these.
fn around(alloc: Global, before: &str, name: &[u8], behind: &str) -> Result<Vec<u8>, AllocError>
    ensures { IfOk result (λ v. v.items ≡ (before.now ++ name.now) ++ behind.now) }
{
    let mut out = text(alloc, before)?;
    out.extend_from_slice(name)?;
    push_text(&mut out, behind)?;
    Ok(out)
}

/// When: what is done with a slot.
fn deed_words(
    alloc: Global,
    origins: &[UnitOrigins<'_>],
    unit: u16,
    deed: Deed,
) -> Result<Vec<u8>, AllocError>
    ensures { IfOk result (λ v. v.items ≡ deed_words origins.now unit deed) }
{
    match deed {
        Deed::Resumed => text(alloc, " when it is resumed here"),
        Deed::Dropped => text(alloc, " when it is dropped here"),
        Deed::Started => text(alloc, " when it is handed on here"),
        Deed::Called(run) => {
            let name = unit_words(alloc, origins, run, THIS)?;
            around(alloc, " when it is lent to ", &name, " here")
        }
        Deed::Finished => text(alloc, " when the finish ends here"),
        Deed::MadeAnew => text(alloc, " when it is made anew here"),
        Deed::Left => {
            let name = unit_words(alloc, origins, unit, THIS)?;
            around(alloc, " when ", &name, " ends here")
        }
        Deed::Other => text(alloc, " where it is used here"),
    }
}

/// What a slot may hold when something is done with it.
fn holds_note(
    alloc: Global,
    origins: &[UnitOrigins<'_>],
    unit: u16,
    slot: u16,
    kind: Kind,
    deed: Deed,
) -> Result<Vec<u8>, AllocError>
    ensures { IfOk result (λ v. v.items ≡ (slot_words origins.now unit slot ++ may_hold kind)
        ++ deed_words origins.now unit deed) }
{
    let when = deed_words(alloc, origins, unit, deed)?;
    let mut out = slot_words(alloc, origins, unit, slot)?;
    push_text(&mut out, may_hold(kind))?;
    out.extend_from_slice(&when)?;
    Ok(out)
}

/// Those that a unit of this name starts.
#[tactic(auto, unfolding(crate::specs::Words::started_by))]
fn started_by(alloc: Global, name: &[u8]) -> Result<Vec<u8>, AllocError>
    ensures { IfOk result (λ v. v.items ≡ started_by name.now) }
{
    around(alloc, "those that ", name, " starts")
}

/// Who is waited for at the end of a finish.
fn started_words(
    alloc: Global,
    origins: &[UnitOrigins<'_>],
    deed: Deed,
) -> Result<Vec<u8>, AllocError>
    ensures { IfOk result (λ v. v.items ≡ started_words origins.now deed) }
{
    match deed {
        Deed::Called(run) => {
            let name = unit_words(alloc, origins, run, THIS)?;
            started_by(alloc, &name)
        }
        _ => text(alloc, "the one started here"),
    }
}

/// Who waits for whom, by the words on those that are started, and the clock's.
#[tactic(auto, unfolding(crate::specs::Words::waits_words))]
fn waits_words(alloc: Global, started: &[u8], clock: &[u8]) -> Result<Vec<u8>, AllocError>
    ensures { IfOk result (λ v. v.items ≡ waits_words started.now clock.now) }
{
    let mut out = text(alloc, "at its end the finish waits for ")?;
    out.extend_from_slice(started)?;
    push_text(&mut out, ", which may wait on ")?;
    out.extend_from_slice(clock)?;
    push_text(&mut out, " for this activity")?;
    Ok(out)
}

/// Who waits for whom.
fn waits_note(
    alloc: Global,
    origins: &[UnitOrigins<'_>],
    unit: u16,
    slot: u16,
    deed: Deed,
) -> Result<Vec<u8>, AllocError>
    ensures { IfOk result (λ v. v.items ≡ waits_words (started_words origins.now deed)
        (slot_words origins.now unit slot)) }
{
    let started = started_words(alloc, origins, deed)?;
    let clock = slot_words(alloc, origins, unit, slot)?;
    waits_words(alloc, &started, &clock)
}

/// What is told of a place of a unit.
fn words(
    alloc: Global,
    origins: &[UnitOrigins<'_>],
    unit: u16,
    fact: Fact,
) -> Result<Vec<u8>, AllocError>
    ensures { IfOk result (λ v. v.items ≡ words origins.now unit fact) }
{
    match fact {
        Fact::Loop { turns, all } => loop_note(alloc, origins, unit, turns, all),
        Fact::Call { unit: run, times } => {
            run_note(alloc, origins, unit, run, " is called here", times)
        }
        Fact::Start { unit: run, times } => {
            run_note(alloc, origins, unit, run, " is started", times)
        }
        Fact::Make { times } => make_note(alloc, origins, unit, times),
        Fact::Steps(n) => most_note(alloc, origins, unit, " takes ", n, " step", " steps"),
        Fact::Activities(n) => {
            most_note(
                alloc,
                origins,
                unit,
                " starts ",
                n,
                " activity",
                " activities",
            )
        }
        Fact::Clocks(n) => most_note(alloc, origins, unit, " makes ", n, " clock", " clocks"),
        Fact::Slots { own, all } => slots_note(alloc, origins, unit, own, all),
        Fact::Made(slot) => slot_note(alloc, origins, unit, slot, " is made here"),
        Fact::Outside(slot) => slot_note(alloc, origins, unit, slot, " comes from outside"),
        Fact::Dropped(slot) => slot_note(alloc, origins, unit, slot, " is dropped here"),
        Fact::Open => text(alloc, "this finish is open"),
        Fact::Begins => text(alloc, "the finish begins here"),
        Fact::Holds { slot, kind, deed } => holds_note(alloc, origins, unit, slot, kind, deed),
        Fact::Waits { slot, deed } => waits_note(alloc, origins, unit, slot, deed),
    }
}

/// What stands before what is told of an instruction of a unit without origins.
fn place_before(alloc: Global, unit: u16, at: Option<u16>) -> Result<Vec<u8>, AllocError>
    ensures { IfOk result (λ v. v.items ≡ place_before unit at) }
{
    match at {
        Some(at) => text(alloc, format!(in alloc; "unit {unit} at {at}: ")?.as_str()),
        None => Ok(Vec::new(alloc)),
    }
}

/// Where a remark on a unit stands in the text.
fn place_in(u: &UnitOrigins<'_>, at: Option<u16>) -> Option<usize>
    ensures { result ≡ place_in u.now at }
{
    match at {
        Some(at) => u.offsets.get(at as usize).copied(),
        None => Some(u.head.at),
    }
}

/// The note of a remark.
pub(crate) fn note_of(
    alloc: Global,
    origins: &[UnitOrigins<'_>],
    remark: Remark,
) -> Result<Note, AllocError>
    ensures { IfOk result (λ n. n ≡ note_of origins.now remark) }
{
    let words = words(alloc, origins, remark.unit, remark.fact)?;
    match origins.get(remark.unit as usize) {
        Some(u) => Ok(Note {
            at: place_in(u, remark.at),
            text: words,
            repair: None,
        }),
        None => {
            let mut text = place_before(alloc, remark.unit, remark.at)?;
            text.extend_from_slice(&words)?;
            Ok(Note {
                at: None,
                text,
                repair: None,
            })
        }
    }
}

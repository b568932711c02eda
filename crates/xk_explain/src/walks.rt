//! Names and walks in the words of a source text.

ghost use Rattle.std.specs.Prelude.{◌≡◌, ◌++◌, ◌≤◌, length, IfOk, OnOk, None, string_bytes};
ghost use Rattle.xk_explain.specs.SourceExplanations.{goes_back, is_name, is_told, line_text, one_stop, quoted, slot_name, slot_title};
ghost use Rattle.xk_explain.specs.SourceExplanations.{stop_head, stop_line, stops, stops_head, told_behind, turn_line, turn_text};
ghost use Rattle.xk_explain.specs.SourceExplanations.{unit_title};

use crate::lines::push_text;
use crate::messages::kind_message;
use crate::note::place_title;
use crate::source_refusals::origin_at;
use crate::source_text::SourceText;
use std::alloc::{AllocError, Global};
use xk_explain_words::{push_name, told_name};
use xk_lines::{Position, shown_front};
use xk_types::{Kind, Visit};
use xk_unit_origins::{Head, UnitOrigins};

/// How many signs of a line are told at most.
const TOLD: usize = 60;

/// `in main`, `in f`, or ``in the `async` at 3:5``; of a name no more than 60 letters.
#[tactic(auto, unfolding(crate::specs::SourceExplanations::unit_title))]
pub(crate) fn unit_title(
    alloc: Global,
    source: &SourceText<'_>,
    head: &Head<'_>,
) -> Result<Vec<u8>, AllocError>
    ensures { IfOk result (λ v. v.items ≡ unit_title source.now head.now) }
{
    let mut out = Vec::new(alloc);
    match head.name {
        Some(name) => {
            push_text(&mut out, "in ")?;
            push_name(&mut out, name)?;
            Ok(out)
        }
        None => {
            let place = place_title(alloc, source.nearest(head.at))?;
            push_text(&mut out, "in the `async` at ")?;
            push_text(&mut out, place.as_str())?;
            Ok(out)
        }
    }
}

/// Whether a name stands in the text.
pub fn is_name(name: &[u8]) -> bool
    ensures { result ≡ is_name name.now }
{
    name.iter().any(|b| *b != b' ')
}

/// The name of a slot; temporaries have none.
pub fn slot_name<'t>(unit: &UnitOrigins<'t>, slot: u16) -> &'t [u8]
    ensures { result.now ≡ slot_name unit.now.slots slot }
{
    match unit.slots.get(slot as usize) {
        Some(name) => name,
        None => b"",
    }
}

/// A name in quotes.
#[tactic(auto, unfolding(crate::specs::SourceExplanations::quoted))]
fn quoted(alloc: Global, name: &[u8]) -> Result<Vec<u8>, AllocError>
    ensures { IfOk result (λ v. v.items ≡ quoted name.now) }
{
    let mut out = Vec::new(alloc);
    push_text(&mut out, "`")?;
    out.extend_from_slice(name)?;
    push_text(&mut out, "`")?;
    Ok(out)
}

/// A slot by its name, in quotes, no more than 60 letters of it; the text has none for the clock of a `clocked finish`. Err where memory was refused.
pub fn slot_title(alloc: Global, unit: &UnitOrigins<'_>, slot: u16) -> Result<Vec<u8>, AllocError>
    ensures { IfOk result (λ v. v.items ≡ slot_title unit.now.slots slot) }
{
    let name = slot_name(unit, slot);
    if is_name(name) {
        return quoted(alloc, &told_name(alloc, name)?);
    }
    Vec::from_slice(alloc, b"the clock without a name")
}

/// The line before a walk.
#[tactic(auto, unfolding(crate::specs::SourceExplanations::stops_head))]
pub(crate) fn stops_head(
    alloc: Global,
    unit: &UnitOrigins<'_>,
    slot: u16,
) -> Result<Vec<u8>, AllocError>
    ensures { IfOk result (λ v. v.items ≡ stops_head unit.now.slots slot) }
{
    let title = slot_title(alloc, unit, slot)?;
    let mut out = Vec::new(alloc);
    push_text(&mut out, "   = a way to it, and what ")?;
    out.extend_from_slice(&title)?;
    push_text(&mut out, " holds before each statement:\n")?;
    Ok(out)
}

/// The line of an offset as it is shown, without the blanks that it begins with.
#[tactic(auto, unfolding(crate::specs::SourceExplanations::line_text))]
fn line_text(alloc: Global, source: &SourceText<'_>, at: usize) -> Result<Vec<u8>, AllocError>
    requires { at ≤ length source.now }
    ensures { IfOk result (λ v. v.items ≡ line_text source.now at) }
{
    shown_front(alloc, source.lines().words_at(at), TOLD)
}

/// What stands before the text of a stop.
#[tactic(auto, unfolding(crate::specs::SourceExplanations::stop_head))]
fn stop_head(alloc: Global, position: Position, kind: Kind) -> Result<String, AllocError>
    ensures { IfOk result (λ text. string_bytes text ≡ stop_head position kind) }
{
    let place = place_title(alloc, position)?;
    let holds = kind_message(kind);
    format!(in alloc; "     {place}  {holds}: ")
}

/// What is said of one stop.
#[tactic(auto, unfolding(crate::specs::SourceExplanations::stop_line))]
fn stop_line(
    alloc: Global,
    source: &SourceText<'_>,
    at: usize,
    kind: Kind,
) -> Result<Vec<u8>, AllocError>
    requires { at ≤ length source.now }
    ensures { IfOk result (λ v. v.items ≡ stop_line source.now at kind) }
{
    let head = stop_head(alloc, source.lines().position(at), kind)?;
    let line = line_text(alloc, source, at)?;
    let mut out = Vec::new(alloc);
    push_text(&mut out, head.as_str())?;
    out.extend_from_slice(&line)?;
    push_text(&mut out, "\n")?;
    Ok(out)
}

/// What is said of a stop behind which a loop begins again.
#[tactic(auto, unfolding(crate::specs::SourceExplanations::turn_text))]
fn turn_text(alloc: Global, position: Position, kind: Kind) -> Result<String, AllocError>
    ensures { IfOk result (λ text. string_bytes text ≡ turn_text position kind) }
{
    let place = place_title(alloc, position)?;
    let holds = kind_message(kind);
    format!(in alloc; "     {place}  {holds}, and then the next turn\n")
}

/// The line of such a stop.
fn turn_line(
    alloc: Global,
    source: &SourceText<'_>,
    at: usize,
    kind: Kind,
) -> Result<Vec<u8>, AllocError>
    requires { at ≤ length source.now }
    ensures { IfOk result (λ v. v.items ≡ turn_line source.now at kind) }
{
    let text = turn_text(alloc, source.lines().position(at), kind)?;
    let mut out = Vec::new(alloc);
    push_text(&mut out, text.as_str())?;
    Ok(out)
}

/// Whether a walk goes back from a stop to those behind it.
fn goes_back(visit: Visit, behind: &[Visit]) -> bool
    ensures { result ≡ goes_back visit behind.now }
{
    match behind {
        [] => false,
        [next, ..] => next.at <= visit.at,
    }
}

/// Whether a stop before these isn't told, as the statement was told last or lies before it in the text.
fn is_told(told: Option<usize>, at: usize, behind: &[Visit]) -> bool
    ensures { result ≡ is_told told at behind.now }
{
    match told {
        None => false,
        Some(told) => match behind {
            [] => told == at,
            [_, ..] => at <= told,
        },
    }
}

/// What was told last, behind a stop before these.
fn told_behind(told: Option<usize>, at: usize, visit: Visit, behind: &[Visit]) -> Option<usize>
    ensures { result ≡ told_behind told at visit behind.now }
{
    if goes_back(visit, behind) {
        None
    } else if is_told(told, at, behind) {
        told
    } else {
        Some(at)
    }
}

/// What is said of a stop before these, if anything.
fn one_stop(
    alloc: Global,
    source: &SourceText<'_>,
    told: Option<usize>,
    at: usize,
    visit: Visit,
    behind: &[Visit],
) -> Result<Vec<u8>, AllocError>
    requires { at ≤ length source.now }
    ensures { IfOk result (λ v. v.items ≡ one_stop source.now told at visit behind.now) }
{
    if goes_back(visit, behind) {
        return turn_line(alloc, source, at, visit.kind);
    }
    if is_told(told, at, behind) {
        return Ok(Vec::new(alloc));
    }
    stop_line(alloc, source, at, visit.kind)
}

/// Adds the stops of a walk, statement by statement.
pub(crate) fn push_stops(
    alloc: Global,
    out: &mut Vec<u8>,
    source: &SourceText<'_>,
    unit: &UnitOrigins<'_>,
    walk: &[Visit],
) -> Result<(), AllocError>
    ensures { OnOk result
        (out.new.items ≡ out.old.items ++ stops source.now unit.now None walk.now) }
{
    let mut told = None;
    for (i, visit) in walk.iter().enumerate() {
        let at = origin_at(source.bytes(), unit, visit.at);
        let behind = &walk[i + 1..];
        let line = one_stop(alloc, source, told, at, *visit, behind)?;
        out.extend_from_slice(&line)?;
        told = told_behind(told, at, *visit, behind);
    }
    Ok(())
}

//! Phases of clocks, a line each.

ghost use Rattle.std.specs.Prelude.{◌≡◌, ◌-◌, ◌++◌, length, take, flat_map, IfOk, OnOk, string_bytes};
ghost use Rattle.xk_show_span.specs.Phases.{earlier_words, if_earlier, if_last, last_round, last_words, more_of, phase_line};
ghost use Rattle.xk_show_span.specs.Phases.{phase_line_in, phase_words};

use crate::phases::Arrival;
use crate::spots::spot;
use std::alloc::{AllocError, Global};
use xk_show_events::Places;

/// The last round of these; 0 where there is none.
pub fn last_round(list: &[Arrival]) -> usize
    ensures { result ≡ last_round 0 list.now }
{
    let mut round = 0;
    for arrival in list {
        round = round.max(arrival.round);
    }
    round
}

/// Adds one of this round.
fn push_if_last(list: &mut Vec<Arrival>, round: usize, a: &Arrival) -> Result<(), AllocError>
    ensures { OnOk result (list.new.items ≡ list.old.items ++ if_last round a.now) }
{
    if a.round == round {
        list.push(*a)?;
    }
    Ok(())
}

/// Those of this round. Err where memory was refused.
pub fn last_of(alloc: Global, round: usize, all: &[Arrival]) -> Result<Vec<Arrival>, AllocError>
    ensures { IfOk result (λ v. v.items ≡ flat_map (if_last round) all.now) }
{
    let mut list = Vec::new(alloc);
    for arrival in all {
        push_if_last(&mut list, round, arrival)?;
    }
    Ok(list)
}

/// Adds one of an earlier round.
fn push_if_earlier(list: &mut Vec<Arrival>, round: usize, a: &Arrival) -> Result<(), AllocError>
    ensures { OnOk result (list.new.items ≡ list.old.items ++ if_earlier round a.now) }
{
    if a.round < round {
        list.push(*a)?;
    }
    Ok(())
}

/// Those of earlier rounds. Err where memory was refused.
pub fn earlier_of(alloc: Global, round: usize, all: &[Arrival]) -> Result<Vec<Arrival>, AllocError>
    ensures { IfOk result (λ v. v.items ≡ flat_map (if_earlier round) all.now) }
{
    let mut list = Vec::new(alloc);
    for arrival in all {
        push_if_earlier(&mut list, round, arrival)?;
    }
    Ok(list)
}

/// `, last act 3 at 11:17`.
#[tactic(auto, unfolding(crate::specs::Phases::last_words))]
fn last_words(alloc: Global, places: &Places<'_>, a: &Arrival) -> Result<String, AllocError>
    ensures { IfOk result (λ text. string_bytes text ≡ last_words places.now a.now) }
{
    let act = a.step.act;
    let spot = spot(alloc, places, &a.step)?;
    format!(in alloc; ", last act {act} at {spot}")
}

/// `; act 0 earlier by 33`.
#[tactic(auto, unfolding(crate::specs::Phases::earlier_words))]
fn earlier_words(alloc: Global, round: usize, a: &Arrival) -> Result<String, AllocError>
    ensures { IfOk result (λ text. string_bytes text ≡ earlier_words round a.now) }
{
    let act = a.step.act;
    let rounds = round.saturating_sub(a.round);
    format!(in alloc; "; act {act} earlier by {rounds}")
}

/// How many aren't shown.
fn more_of(alloc: Global, n: usize) -> Result<String, AllocError>
    ensures { IfOk result (λ text. string_bytes text ≡ more_of n) }
{
    if n == 0 {
        return Ok(String::new(alloc));
    }
    format!(in alloc; " and {n} more")
}

/// `clock 0 phase 1 round 43`.
#[tactic(auto, unfolding(crate::specs::Phases::phase_words))]
fn phase_words(alloc: Global, c: u32, phase: usize, round: usize) -> Result<String, AllocError>
    ensures { IfOk result (λ text. string_bytes text ≡ phase_words c phase round) }
{
    format!(in alloc; "clock {c} phase {phase} round {round}")
}

/// Adds the first of these.
fn push_lasts(
    alloc: Global,
    out: &mut Vec<u8>,
    places: &Places<'_>,
    list: &[Arrival],
) -> Result<(), AllocError>
    ensures { OnOk result (out.new.items ≡ out.old.items
        ++ flat_map (last_words places.now) list.now) }
{
    for arrival in list {
        let words = last_words(alloc, places, arrival)?;
        out.extend_from_slice(words.as_bytes())?;
    }
    Ok(())
}

/// Adds by how much each of these came earlier.
fn push_earlier(
    alloc: Global,
    out: &mut Vec<u8>,
    round: usize,
    list: &[Arrival],
) -> Result<(), AllocError>
    ensures { OnOk result (out.new.items ≡ out.old.items
        ++ flat_map (earlier_words round) list.now) }
{
    for arrival in list {
        let words = earlier_words(alloc, round, arrival)?;
        out.extend_from_slice(words.as_bytes())?;
    }
    Ok(())
}

/// The last ones of a phase, at most eight.
fn lasts_text(alloc: Global, places: &Places<'_>, list: &[Arrival]) -> Result<Vec<u8>, AllocError>
    ensures { IfOk result (λ v. v.items
        ≡ flat_map (last_words places.now) (take 8 list.now) ++ more_of (length list.now - 8)) }
{
    let mut out = Vec::new(alloc);
    push_lasts(alloc, &mut out, places, &list[..list.len().min(8)])?;
    let more = more_of(alloc, list.len().saturating_sub(8))?;
    out.extend_from_slice(more.as_bytes())?;
    Ok(out)
}

/// The earlier ones of a phase, at most eight.
fn earlier_text(alloc: Global, round: usize, list: &[Arrival]) -> Result<Vec<u8>, AllocError>
    ensures { IfOk result (λ v. v.items
        ≡ flat_map (earlier_words round) (take 8 list.now) ++ more_of (length list.now - 8)) }
{
    let mut out = Vec::new(alloc);
    push_earlier(alloc, &mut out, round, &list[..list.len().min(8)])?;
    let more = more_of(alloc, list.len().saturating_sub(8))?;
    out.extend_from_slice(more.as_bytes())?;
    Ok(out)
}

/// The line of a phase whose last ones came in this round.
fn line_in(
    alloc: Global,
    places: &Places<'_>,
    c: u32,
    phase: usize,
    round: usize,
    all: &[Arrival],
) -> Result<Vec<u8>, AllocError>
    ensures { IfOk result (λ v. v.items ≡ phase_line_in places.now c phase round all.now) }
{
    let words = phase_words(alloc, c, phase, round)?;
    let lasts = last_of(alloc, round, all)?;
    let last_text = lasts_text(alloc, places, &lasts)?;
    let earlier = earlier_of(alloc, round, all)?;
    let rest = earlier_text(alloc, round, &earlier)?;
    let mut out = Vec::new(alloc);
    out.extend_from_slice(words.as_bytes())?;
    out.extend_from_slice(&last_text)?;
    out.extend_from_slice(&rest)?;
    out.extend_from_slice(b"\n")?;
    Ok(out)
}

/// The line of a phase of clock c, by those for whom its advance waited.
pub(crate) fn phase_line(
    alloc: Global,
    places: &Places<'_>,
    c: u32,
    phase: usize,
    all: &[Arrival],
) -> Result<Vec<u8>, AllocError>
    ensures { IfOk result (λ v. v.items ≡ phase_line places.now c phase all.now) }
{
    line_in(alloc, places, c, phase, last_round(all), all)
}

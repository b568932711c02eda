//! Who came last at each phase of a clock.

ghost use Rattle.std.specs.Prelude.{◌≡◌, ◌+◌, ◌++◌, flat_map, IfOk, OnOk, string_bytes};
ghost use Rattle.xk_races.specs.Lists.{number_at};
ghost use Rattle.xk_show_span.specs.Phases.{advanced, arrival, came, coming_with, if_awaited, if_staying, line_of};
ghost use Rattle.xk_show_span.specs.Phases.{most_phases, nobody, phase_line_if_shown, phases_more, phases_text, staying};

use crate::phase_lines::phase_line;
use std::alloc::{AllocError, Global};
use std::marker::Model;
use std::mem;
use xk_races::{Deed, Part};
use xk_show_events::{Places, RunStep};
use xk_span_summary::{add_one, number_at, sum};

/// Somebody ceased to be awaited by a clock.
#[derive(Clone, Copy)]
pub struct Arrival {
    /// The clock.
    pub clock: u32,
    /// Whether it was a leave behind a resume, which the advance behind the next one waits for.
    pub left: bool,
    /// The step by which it was.
    pub step: RunStep,
    /// Its round.
    pub round: usize,
}

/// By this deed.
fn come_by(left: bool, clock: u32, deed: &Deed, round: usize) -> Arrival
    ensures { result ≡ arrival left clock deed.now round }
{
    Arrival {
        clock,
        left,
        step: deed.step,
        round,
    }
}

/// With what a deed in a round is at its clock.
fn push_came(list: &mut Vec<Arrival>, deed: &Deed, round: usize) -> Result<(), AllocError>
    ensures { OnOk result (list.new.items ≡ came deed.now.part deed.now round list.old.items) }
{
    match deed.part {
        Part::Signal(c) => {
            list.push(come_by(false, c, deed, round))?;
            Ok(())
        }
        Part::Leave(c) => {
            list.push(come_by(true, c, deed, round))?;
            Ok(())
        }
        _ => Ok(()),
    }
}

/// Adds one for whom the advance of clock c waited.
fn push_if_awaited(list: &mut Vec<Arrival>, c: u32, a: &Arrival) -> Result<(), AllocError>
    ensures { OnOk result (list.new.items ≡ list.old.items ++ if_awaited c a.now) }
{
    if a.clock == c && !a.left {
        list.push(*a)?;
    }
    Ok(())
}

/// Adds one who left: the next advance waits for that.
fn push_staying(list: &mut Vec<Arrival>, a: &Arrival) -> Result<(), AllocError>
    ensures { OnOk result (list.new.items ≡ list.old.items ++ staying a.now) }
{
    if a.left {
        list.push(Arrival {
            clock: a.clock,
            left: false,
            step: a.step,
            round: a.round,
        })?;
    }
    Ok(())
}

/// Adds what is left of one behind the advance of clock c.
fn push_if_staying(list: &mut Vec<Arrival>, c: u32, a: &Arrival) -> Result<(), AllocError>
    ensures { OnOk result (list.new.items ≡ list.old.items ++ if_staying c a.now) }
{
    if a.clock == c {
        return push_staying(list, a);
    }
    list.push(*a)?;
    Ok(())
}

/// What is left behind the advance of clock c.
fn staying(alloc: Global, c: u32, all: &[Arrival]) -> Result<Vec<Arrival>, AllocError>
    ensures { IfOk result (λ v. v.items ≡ flat_map (if_staying c) all.now) }
{
    let mut list = Vec::new(alloc);
    for arrival in all {
        push_if_staying(&mut list, c, arrival)?;
    }
    Ok(list)
}

/// What is known behind some deeds: how many advances there were, the phase of each clock, and who came.
#[derive(Drop)]
pub struct Coming {
    advances: usize,
    phases: Vec<usize>,
    arrivals: Vec<Arrival>,
}

impl Model for Coming {
    ghost use Rattle.xk_show_span.specs.Phases.{Coming as ComingValue};

    ghost Value = { ComingValue };

    ghost view = { λ k. record {
      advances = k.advances;
      phases = k.phases.items;
      arrivals = k.arrivals.items;
    } };
}

impl Coming {
    /// Before the first deed.
    pub fn nobody(alloc: Global) -> Coming
        ensures { result ≡ nobody }
    {
        Coming {
            advances: 0,
            phases: Vec::new(alloc),
            arrivals: Vec::new(alloc),
        }
    }

    /// Clock c advances.
    fn advance(&mut self, alloc: Global, c: u32) -> Result<(), AllocError>
        ensures { OnOk result (self.new ≡ advanced c self.old) }
    {
        let advances = sum(self.advances, 1)?;
        add_one(&mut self.phases, c as usize)?;
        let rest = staying(alloc, c, &self.arrivals)?;
        self.advances = advances;
        drop(mem::replace(&mut self.arrivals, rest));
        Ok(())
    }

    /// A deed in a round. Err where memory was refused.
    pub fn take(&mut self, alloc: Global, deed: &Deed, round: usize) -> Result<(), AllocError>
        ensures { OnOk result (self.new ≡ coming_with deed.now.part deed.now round self.old) }
    {
        match deed.part {
            Part::Advance(c) => self.advance(alloc, c),
            _ => push_came(&mut self.arrivals, deed, round),
        }
    }

    /// The phase that clock c advances to next. Err where that is 2 ^ 64: no memory holds so many advances.
    pub fn next_phase(&self, c: u32) -> Result<usize, AllocError>
        ensures { IfOk result (λ n. n ≡ number_at self.now.phases c + 1) }
    {
        sum(number_at(&self.phases, c as usize), 1)
    }

    /// Those for whom an advance of clock c waits. Err where memory was refused.
    pub fn awaited(&self, alloc: Global, c: u32) -> Result<Vec<Arrival>, AllocError>
        ensures { IfOk result (λ v. v.items ≡ flat_map (if_awaited c) self.now.arrivals) }
    {
        let mut list = Vec::new(alloc);
        for arrival in &self.arrivals {
            push_if_awaited(&mut list, c, arrival)?;
        }
        Ok(list)
    }

    /// The line of an advance of clock c, if it is shown.
    fn shown_line(&self, alloc: Global, places: &Places<'_>, c: u32) -> Result<Vec<u8>, AllocError>
        ensures { IfOk result (λ v. v.items ≡ phase_line_if_shown places.now
            self.now.advances c (number_at self.now.phases c + 1)
            (flat_map (if_awaited c) self.now.arrivals)) }
    {
        if self.advances >= most_phases() {
            return Ok(Vec::new(alloc));
        }
        let phase = self.next_phase(c)?;
        let list = self.awaited(alloc, c)?;
        phase_line(alloc, places, c, phase, &list)
    }

    /// The line of a deed, if it is an advance.
    fn line_of(&self, alloc: Global, places: &Places<'_>, part: Part) -> Result<Vec<u8>, AllocError>
        ensures { IfOk result (λ v. v.items ≡ line_of places.now part self.now) }
    {
        match part {
            Part::Advance(c) => self.shown_line(alloc, places, c),
            _ => Ok(Vec::new(alloc)),
        }
    }
}

/// So many phases are shown at most.
#[tactic(auto, unfolding(crate::specs::Phases::most_phases))]
fn most_phases() -> usize
    ensures { result ≡ most_phases }
{
    40
}

/// How many phases aren't shown.
fn phases_more(alloc: Global, n: usize) -> Result<String, AllocError>
    ensures { IfOk result (λ text. string_bytes text ≡ phases_more n) }
{
    if n == 0 {
        return Ok(String::new(alloc));
    }
    format!(in alloc; "and {n} phases more\n")
}

/// A line for each phase, by the times of deeds.
pub(crate) fn phases_text(
    alloc: Global,
    places: &Places<'_>,
    times: &[usize],
    deeds: &[Deed],
) -> Result<Vec<u8>, AllocError>
    ensures { IfOk result (λ v. v.items ≡ phases_text places.now times.now deeds.now) }
{
    let mut known = Coming::nobody(alloc);
    let mut out = Vec::new(alloc);
    for (i, deed) in deeds.iter().enumerate() {
        let line = known.line_of(alloc, places, deed.part)?;
        out.extend_from_slice(&line)?;
        known.take(alloc, deed, number_at(times, i))?;
    }
    let more = phases_more(alloc, known.advances.saturating_sub(most_phases()))?;
    out.extend_from_slice(more.as_bytes())?;
    Ok(out)
}

//! The slots that are live at each place: passes backwards over each unit, until nothing changes.

use crate::rows::Row;
use std::alloc::{AllocError, Global};
use xk_types::{Args, Instr, Unit};

/// With more places, no table is made.
const MOST_PLACES: usize = 100_000;

/// The word in which the bit of a slot alone is set.
fn bit(slot: u16) -> u64 {
    if slot < 64 { 1 << slot } else { 0 }
}

/// The word of these slots.
fn bits(args: &Args) -> u64 {
    let mut word = 0;
    for slot in args.slots() {
        word |= bit(*slot);
    }
    word
}

/// The slots that are live at a place: none where there is no such place.
fn word_at(words: &[u64], place: usize) -> u64 {
    match words.get(place) {
        Some(word) => *word,
        None => 0,
    }
}

/// What the end of a turn reads, of the loop that begins at this place.
fn turn_bits(code: &[Instr], head: usize) -> u64 {
    match code.get(head) {
        Some(Instr::For { k, .. }) => bit(*k),
        Some(Instr::ForTo { k, x, .. }) => bit(*k) | bit(*x),
        _ => 0,
    }
}

/// The slots that are live before an instruction, by what is known of other places.
fn reckoned(code: &[Instr], words: &[u64], place: usize) -> u64 {
    let behind = word_at(words, place.saturating_add(1));
    let Some(instr) = code.get(place) else {
        return 0;
    };
    match instr {
        Instr::Lit { d, .. } | Instr::Get { d, .. } => behind & !bit(*d),
        Instr::Copy { d, a } => behind & !bit(*d) | bit(*a),
        Instr::Add { d, a, b } | Instr::Sub { d, a, b } | Instr::Mul { d, a, b } => {
            behind & !bit(*d) | bit(*a) | bit(*b)
        }
        Instr::Unless { a, b, t, .. } => {
            behind | word_at(words, *t as usize) | bit(*a) | bit(*b)
        }
        Instr::Jump(t) => word_at(words, *t as usize),
        Instr::For { k, .. } | Instr::Make(k) => behind & !bit(*k),
        Instr::ForTo { k, x, e, .. } => {
            behind & !bit(*k) | word_at(words, *e as usize + 1) | bit(*x)
        }
        Instr::Next(b) => {
            behind | word_at(words, *b as usize + 1) | turn_bits(code, *b as usize)
        }
        Instr::Put { a, .. } | Instr::AddTo { a, .. } | Instr::Print(a) => behind | bit(*a),
        Instr::Resume(k) | Instr::Drop(k) => behind | bit(*k),
        Instr::Call { args, .. } | Instr::Spawn { args, .. } => behind | bits(args),
        Instr::Finish(_) | Instr::EndFinish(_) | Instr::Advance => behind,
        Instr::Ret => 0,
    }
}

/// One pass backwards over a unit, and whether something changed.
fn pass(code: &[Instr], words: &mut [u64]) -> bool {
    let mut changed = false;
    for place in (0..words.len()).rev() {
        let word = reckoned(code, words, place);
        if words[place] != word {
            words[place] = word;
            changed = true;
        }
    }
    changed
}

/// Passes over a unit, until nothing changes.
fn settle(code: &[Instr], words: &mut [u64]) {
    for _turn in 0..code.len() {
        if !pass(code, words) {
            return;
        }
    }
}

/// How many places there are.
fn places(units: &[Unit]) -> usize {
    let mut count: usize = 0;
    for unit in units {
        count = count.saturating_add(unit.code.len());
    }
    count
}

/// The slots that are live at each place of each unit. Nothing where there are too many places.
pub(crate) fn rows_of(alloc: Global, units: &[Unit]) -> Result<Vec<Row>, AllocError> {
    let mut rows = Vec::new(alloc);
    if places(units) > MOST_PLACES {
        return Ok(rows);
    }
    for unit in units {
        let mut words = vec![in alloc; 0; unit.code.len()]?;
        settle(&unit.code, &mut words);
        rows.push(Row { words })?;
    }
    Ok(rows)
}

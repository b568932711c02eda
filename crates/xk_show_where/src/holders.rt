//! Who holds each clock back.

ghost use Rattle.std.specs.Prelude.{◌≡◌, [], ◌<◌, ◌++◌, length, slice_index_or, IfOk, OnOk};
ghost use Rattle.xk_types.specs.Step.{is_pending};
ghost use Rattle.xk_show_where.specs.Excerpts.{excerpt_of};
ghost use Rattle.xk_show_where.specs.Pieces.{pieces_below};
ghost use Rattle.xk_show_where.specs.Where.{held_words, holders_of, standing_on};

use crate::excerpts::Excerpt;
use crate::texts::push_text;
use std::alloc::{AllocError, Global};
use std::marker::Model;
use xk_core::Core;
use xk_types::{Act, ClockId, Standing};

/// A piece of a text.
#[derive(Drop)]
pub(crate) struct Piece {
    bytes: Vec<u8>,
}

impl Model for Piece {
    ghost use Rattle.std.specs.Prelude.{List, ℕ};

    ghost Value = { List ℕ };

    ghost view = { λ p. p.bytes.items };
}

impl Piece {
    /// Adds it to a text.
    fn push_to(&self, out: &mut Vec<u8>) -> Result<(), AllocError>
        ensures { OnOk result (out.new.items ≡ out.old.items ++ self.now) }
    {
        out.extend_from_slice(&self.bytes)
    }
}

/// Adds the piece of this number, if it is there.
pub(crate) fn push_piece(out: &mut Vec<u8>, pieces: &[Piece], number: u32) -> Result<(), AllocError>
    ensures { OnOk result (out.new.items
        ≡ out.old.items ++ slice_index_or pieces.now number []) }
{
    match pieces.get(number as usize) {
        None => Ok(()),
        Some(piece) => piece.push_to(out),
    }
}

/// Where an activity stands on a clock.
pub(crate) fn standing_on(core: &Core<'_>, act: Act, clock: ClockId) -> Standing
    requires act { act < length core.now.world.activities }
    requires clock { clock < length core.now.world.clocks }
    ensures { result ≡ standing_on core.now.world act clock }
{
    core.standing(act, clock)
}

/// Whether it is the standing of one who holds the clock back.
fn is_pending(standing: Standing) -> bool
    ensures { result ≡ is_pending standing }
{
    matches!(standing, Standing::Open | Standing::Ahead)
}

/// Who holds a clock back. Err where memory was refused.
#[tactic(auto, using(crate::proofs::ExcerptLemmas::excerpt_next, crate::proofs::ExcerptLemmas::few_enough))]
pub fn holders_of(alloc: Global, core: &Core<'_>, clock: ClockId) -> Result<Excerpt, AllocError>
    requires { clock < length core.now.world.clocks }
    ensures { IfOk result (λ e. e ≡ excerpt_of (holders_of core.now.world clock)) }
{
    let mut holders = Excerpt::new(alloc);
    for act in 0..core.activities() {
        let holds = is_pending(standing_on(core, Act(act), clock));
        holders.note(act, holds)?;
    }
    Ok(holders)
}

/// The same in words: ` held by 2 3`.
#[tactic(auto, unfolding(crate::specs::Where::held_words, crate::specs::Where::listed))]
fn held_words(alloc: Global, core: &Core<'_>, clock: ClockId) -> Result<Piece, AllocError>
    requires { clock < length core.now.world.clocks }
    ensures { IfOk result (λ p. p ≡ held_words core.now.world clock) }
{
    let holders = holders_of(alloc, core, clock)?;
    let mut bytes = Vec::new(alloc);
    push_text(&mut bytes, " held by")?;
    holders.push_to(alloc, &mut bytes)?;
    Ok(Piece { bytes })
}

/// The same of all clocks: so many may wait for one, and it is looked up once who holds it back.
pub(crate) fn held_pieces(alloc: Global, core: &Core<'_>) -> Result<Vec<Piece>, AllocError>
    ensures { IfOk result (λ v. v.items ≡ pieces_below
        (held_words core.now.world) (length core.now.world.clocks)) }
{
    let mut pieces = Vec::new(alloc);
    for clock in 0..core.clocks() {
        let piece = held_words(alloc, core, ClockId(clock))?;
        pieces.push(piece)?;
    }
    Ok(pieces)
}

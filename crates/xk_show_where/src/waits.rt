//! Whom activities wait for: at clocks, and in finishes.

ghost use Rattle.std.specs.Prelude.{◌≡◌, ◌<◌, ◌++◌, codes, length, IfOk, OnOk};
ghost use Rattle.xk_show_where.specs.Awaited.{AreAwaited, AreWaitsOf};
ghost use Rattle.xk_show_where.specs.Where.{awaited_by, holders_words, listed};

use crate::awaited::all_awaited;
use crate::condition::Condition;
use crate::excerpts::Excerpt;
use crate::holders::{Piece, held_pieces, push_piece};
use crate::texts::push_text;
use std::alloc::{AllocError, Global};
use std::marker::Model;
use xk_core::Core;
use xk_types::{Act, ClockId};

/// Of each clock who holds it back, in words, and of each activity whom it awaits. Many may wait for the same ones, and
/// who is under a finish is found from below, so both are made once.
#[derive(Drop)]
pub(crate) struct Waits {
    held: Vec<Piece>,
    awaited: Vec<Excerpt>,
}

impl Model for Waits {
    ghost use Rattle.xk_show_where.specs.Awaited.{WaitsValue};

    ghost Value = { WaitsValue };

    ghost view = { λ w. record { held = w.held.items; awaited = w.awaited.items } };
}

/// Adds whom an activity awaits, if the table has it.
#[tactic(auto, unfolding(crate::specs::Where::listed))]
fn push_awaited_of(
    alloc: Global,
    out: &mut Vec<u8>,
    core: &Core<'_>,
    awaited: &[Excerpt],
    act: Act,
) -> Result<(), AllocError>
    requires act { act < length core.now.world.activities }
    requires table { AreAwaited core.now.world (length core.now.world.activities) awaited.now }
    ensures { OnOk result (out.new.items ≡ out.old.items
        ++ listed (awaited_by core.now.world act)) }
{
    match awaited.get(act.0 as usize) {
        None => Ok(()),
        Some(excerpt) => excerpt.push_to(alloc, out),
    }
}

impl Waits {
    /// Those of a core.
    pub(crate) fn of(alloc: Global, core: &Core<'_>) -> Result<Waits, AllocError>
        ensures { IfOk result (λ w. AreWaitsOf core.now.world w) }
    {
        let held = held_pieces(alloc, core)?;
        let awaited = all_awaited(alloc, core)?;
        Ok(Waits { held, awaited })
    }

    /// Adds who holds a clock back, for an activity that waits for clocks.
    #[tactic(auto, using(crate::proofs::PieceLemmas::piece_there))]
    pub(crate) fn push_holders(
        &self,
        out: &mut Vec<u8>,
        core: &Core<'_>,
        condition: Condition,
        clock: ClockId,
    ) -> Result<(), AllocError>
        requires clock { clock < length core.now.world.clocks }
        requires waits { AreWaitsOf core.now.world self.now }
        ensures { OnOk result (out.new.items
            ≡ out.old.items ++ holders_words condition core.now.world clock) }
    {
        match condition {
            Condition::ForClocks => push_piece(out, &self.held, clock.0),
            Condition::Absent => Ok(()),
            Condition::Ended => Ok(()),
            Condition::Able => Ok(()),
            Condition::InFinish => Ok(()),
        }
    }

    /// Adds whom an activity awaits at its `endfinish`.
    pub(crate) fn push_awaited(
        &self,
        alloc: Global,
        out: &mut Vec<u8>,
        core: &Core<'_>,
        act: Act,
    ) -> Result<(), AllocError>
        requires act { act < length core.now.world.activities }
        requires waits { AreWaitsOf core.now.world self.now }
        ensures { OnOk result (out.new.items ≡ (out.old.items ++ codes " for")
            ++ listed (awaited_by core.now.world act)) }
    {
        push_text(out, " for")?;
        push_awaited_of(alloc, out, core, &self.awaited, act)
    }
}

//! What may still be carried out in a module.

ghost use Rattle.std.specs.Prelude.{◌≡◌, ℕ, IfOk, IfSome};
ghost use Rattle.xk_types.specs.declared.instr.Instr.TheVariants as instr;
ghost use Rattle.xk_ranks.specs.Reads.{TellsReads};
ghost use Rattle.xk_closed_sets.specs.Footprint.{is_set};
ghost use Rattle.xk_closed.specs.Footprints.{IsPhase, IsRest};
ghost use Rattle.xk_closed_sets.specs.Footprints.{AreFootprints, phase_of, rest_of};
ghost use Rattle.xk_closed_sets.specs.Places.{phase_in, rest_in};

use crate::places::{Row, reach_at};
use crate::rules::are_closed;
use crate::table::rows_of;
use std::alloc::{AllocError, Global};
use std::marker::Model;
use xk_bounds::Verified;

/// What may still be carried out in a module, from each place of each unit on: all of it, and what comes before the next pass of an
/// `advance`. It may claim more than there is, and never less.
#[derive(Drop)]
pub struct Footprints<'m> {
    verified: &'m Verified,
    /// Whether the rows are known to have it all; else there may be everything.
    known: bool,
    rows: Vec<Row>,
}

impl<'m> Model for Footprints<'m> {
    ghost use Rattle.std.specs.Prelude.{IsTrue};
    ghost use Rattle.xk_closed_sets.specs.Footprints.{AreFootprints, FootprintsValue};
    ghost use Rattle.xk_closed_sets.specs.Places.{phase_in, rest_in};

    ghost Value = { FootprintsValue };

    ghost view = { λ f. record {
      module_run = f.verified.now;
      known = f.known;
      rows = f.rows.items;
    } };

    ghost invariant = { λ f. IsTrue f.known
        → AreFootprints f.verified.now (rest_in f.rows.items) (phase_in f.rows.items) };
}

impl<'m> Footprints<'m> {
    /// Of a module. Err where memory was refused.
    #[tactic(auto, using(crate::proofs::TableLemmas::closed_footprints))]
    pub fn of(alloc: Global, verified: &'m Verified) -> Result<Footprints<'m>, AllocError>
        ensures { IfOk result (λ f. f.module_run ≡ verified.now) }
    {
        let units = verified.module().units();
        let rows = rows_of(alloc, units)?;
        let known = are_closed(&rows, units);
        Ok(Footprints {
            verified,
            known,
            rows,
        })
    }

    /// The module.
    #[tactic(auto, using(crate::proofs::TableLemmas::known_rest, crate::proofs::TableLemmas::known_phase))]
    pub fn module(&self) -> &'m Verified
        ensures same { result.now ≡ self.now.module_run }
        // The tables have all that may be carried out.
        ensures rest { IsRest self.now.module_run (rest_of self.now) }
        ensures phase { IsPhase self.now.module_run (rest_of self.now) (phase_of self.now) }
        ensures tells { TellsReads (rest_of self.now) }
    {
        self.verified
    }

    /// The rows, where they are known to have it all.
    pub(crate) fn rows(&self) -> Option<&[Row]>
        ensures { IfSome result (λ rows. AreFootprints self.now.module_run (rest_in rows.now)
            (phase_in rows.now)) }
    {
        if self.known { Some(&self.rows) } else { None }
    }

    /// The bits of the shared numbers that may be read from this place of a unit on.
    #[tactic(auto, using(crate::proofs::ReadLemmas::all_read, crate::proofs::ReadLemmas::known_reads))]
    pub(crate) fn reads_at(&self, unit: usize, place: usize) -> u64
        ensures { (d s : ℕ) → is_set result s ≡ rest_of self.now unit place (instr.Get d s) }
    {
        if !self.known {
            return u64::MAX;
        }
        reach_at(&self.rows, unit, place).rest.reads
    }
}

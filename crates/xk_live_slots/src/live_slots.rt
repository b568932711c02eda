//! The slots that are live at each place of a module.

ghost use Rattle.std.specs.Prelude.{◌≡◌, IfOk};
ghost use Rattle.xk_liveness.specs.Liveness.{IsLiveness};
ghost use Rattle.xk_live_slots.specs.LiveSlots.{live_of};

use crate::rows::{Row, is_live};
use crate::rules::is_liveness;
use crate::table::rows_of;
use std::alloc::{AllocError, Global};
use std::marker::Model;
use xk_bounds::Verified;

/// For each place of each unit of a module the slots that are live there: whose values may still be read before they are written anew. It
/// may have more than those, and never fewer.
#[derive(Drop)]
pub struct LiveSlots<'m> {
    verified: &'m Verified,
    rows: Vec<Row>,
}

impl<'m> Model for LiveSlots<'m> {
    ghost use Rattle.xk_liveness.specs.Liveness.{IsLiveness};
    ghost use Rattle.xk_live_slots.specs.LiveSlots.{LiveSlotsValue, live_in};

    ghost Value = { LiveSlotsValue };

    ghost view = { λ l. record { module_run = l.verified.now; words = l.rows.items } };

    ghost invariant = { λ l. IsLiveness l.verified.now (live_in l.rows.items) };
}

impl<'m> LiveSlots<'m> {
    /// Of a module. Err where memory was refused.
    pub fn of(alloc: Global, verified: &'m Verified) -> Result<LiveSlots<'m>, AllocError>
        ensures { IfOk result (λ l. l.module_run ≡ verified.now) }
    {
        let program = verified.module();
        let mut rows = rows_of(alloc, program.units())?;
        if !is_liveness(program, &rows) {
            rows.clear();
        }
        Ok(LiveSlots { verified, rows })
    }

    /// The module.
    pub fn module(&self) -> &'m Verified
        ensures same { result.now ≡ self.now.module_run }
        // The table has all slots that are live.
        ensures liveness { IsLiveness self.now.module_run (live_of self.now) }
    {
        self.verified
    }

    /// Whether the slot is live at a place of a unit.
    pub fn is_live(&self, unit: u16, place: usize, slot: u16) -> bool
        ensures { result ≡ live_of self.now unit place slot }
    {
        is_live(&self.rows, unit as usize, place, slot)
    }
}

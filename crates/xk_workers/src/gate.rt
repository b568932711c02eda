//! How local steps are computed.

ghost use Rattle.std.specs.Prelude.{◌≡◌, ◌<◌, true, IfOk, IfErr};
ghost use Rattle.xk_activity.specs.Local.{IsSafe, local, is_stepped};
ghost use Rattle.xk_activity.specs.Ticket.{IsFor, IsWalked};

use std::alloc::{AllocError, Global};
use xk_activity::{Frames, Ticket, run_local};
use xk_types::Act;

/// How a worker computes the local steps of an activity outside the lock, while others have it.
pub trait Gate {
    /// Up to max local steps of activity `act`, which has these frames: max, or as many as there are before one that others can see.
    /// Where memory is refused, the frames come back as they were. Workers are numbered from 0, which is the calling thread.
    fn compute<'m>(
        &self,
        alloc: Global,
        worker: u32,
        act: Act,
        old: Frames<'m>,
        max: u32,
    ) -> Result<Ticket<'m>, (Frames<'m>, AllocError)>
        requires some { 0 < max }
        requires safe { IsSafe local old }
        requires next { is_stepped (local old) ≡ true }
        ensures ticket { IfOk result (IsFor act old.entry max) }
        ensures walked { IfOk result (λ t. IsWalked t.old t.steps t.new) }
        ensures back { IfErr result (λ e. e.0 ≡ old.entry) };
}

/// Computes them itself, in the worker's own thread.
#[derive(Clone, Copy, Debug)]
pub struct Direct;

impl Gate for Direct {
    /// Takes the local steps at once, whichever worker asks.
    fn compute<'m>(
        &self,
        alloc: Global,
        _worker: u32,
        act: Act,
        old: Frames<'m>,
        max: u32,
    ) -> Result<Ticket<'m>, (Frames<'m>, AllocError)> {
        run_local(alloc, act, old, max)
    }
}

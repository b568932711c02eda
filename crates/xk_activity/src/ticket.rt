//! Local steps of an activity that are computed apart from the others.

ghost use Rattle.std.specs.Prelude.{◌≡◌, ◌<◌, true, IfOk, IfErr};
ghost use Rattle.xk_activity.specs.Local.{IsSafe, local, is_stepped};
ghost use Rattle.xk_activity.specs.Ticket.{IsFor, IsWalked};

use crate::frames::Frames;
use std::alloc::{AllocError, Global};
use std::marker::Model;
use xk_types::Act;

/// Steps of one activity that nobody else can see, one or more: which frames it had before them, and which behind them.
#[derive(Drop)]
pub struct Ticket<'m> {
    act: Act,
    old: Frames<'m>,
    steps: u32,
    new: Frames<'m>,
}

impl<'m> Model for Ticket<'m> {
    ghost use Rattle.std.specs.Prelude.{◌≡◌};
    ghost use Rattle.xk_activity.specs.Ticket.{TicketValue, IsWalked};

    ghost Value = { TicketValue };

    ghost view = { λ t. record { act = t.act; old = t.old; steps = t.steps; new = t.new } };

    ghost invariant = { λ t. IsWalked t.old t.steps t.new × (t.new.module_run ≡ t.old.module_run) };
}

impl<'m> Ticket<'m> {
    /// Whose steps they are.
    pub fn act(&self) -> Act
        ensures { result ≡ self.now.act }
    {
        self.act
    }

    /// How many they are.
    pub fn steps(&self) -> u32
        ensures steps { result ≡ self.now.steps }
        // That many local steps lead from the old frames to the new ones.
        ensures walked { IsWalked self.now.old result self.now.new }
    {
        self.steps
    }

    /// The frames before them.
    pub fn old(&self) -> &Frames<'m>
        ensures { result.now ≡ self.now.old }
    {
        &self.old
    }

    /// The frames behind them.
    pub(crate) fn into_new(self) -> Frames<'m>
        ensures new { result ≡ self.entry.new }
        ensures same { result.module_run ≡ self.entry.old.module_run }
    {
        self.new
    }
}

/// Up to max local steps of activity `act`, which has these frames, computed on a copy of them: max, or as many as there are before
/// one that others can see. Where memory is refused for the copy, the frames come back as they were.
pub fn run_local<'m>(
    alloc: Global,
    act: Act,
    old: Frames<'m>,
    max: u32,
) -> Result<Ticket<'m>, (Frames<'m>, AllocError)>
    requires some { 0 < max }
    requires safe { IsSafe local old }
    requires next { is_stepped (local old) ≡ true }
    ensures ticket { IfOk result (IsFor act old.entry max) }
    ensures walked { IfOk result (λ t. IsWalked t.old t.steps t.new) }
    ensures back { IfErr result (λ e. e.0 ≡ old.entry) }
{
    match old.copy_in(alloc) {
        Ok(mut new) => {
            let steps = new.run(max);
            Ok(Ticket {
                act,
                old,
                steps,
                new,
            })
        }
        Err(e) => Err((old, e)),
    }
}

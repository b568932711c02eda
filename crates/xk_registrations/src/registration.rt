//! One registration.

ghost use Rattle.std.specs.Prelude.{◌≡◌, None, Some};
ghost use Rattle.xk_types.specs.Step.{is_pending};
ghost use Rattle.xk_registrations.specs.View.{standing_at};
ghost use Rattle.xk_registrations.specs.RegistrationChanges.{is_open};

use std::marker::Model;
use xk_types::{ClockId, Standing};

/// That an activity is registered on a clock, and in which phase of the clock it resumed it, if it did since its last pass. While
/// the clock is still in that phase the activity is signalled on it, and once the clock has advanced it is ahead.
#[derive(Clone, Copy)]
pub struct Registration {
    clock: ClockId,
    is_resumed: bool,
    /// 0 where it wasn't resumed. An `Option` of it would take half as much memory again, for each clock that each activity is registered on.
    phase: u64,
}

impl Model for Registration {
    ghost use Rattle.xk_registrations.specs.View as definitions;
    ghost use Rattle.xk_registrations.specs.ResumePhase.{resumed_of, was_resumed, phase_in, IsPlain};
    ghost use Rattle.xk_registrations.specs.ResumePhaseLaw.{was_again, alike};
    ghost use Rattle.std.proofs.Common.{sym};

    ghost Value = { definitions.Registration };

    ghost view = { λ r. record { clock = r.clock; resumed = resumed_of r.is_resumed r.phase } };

    ghost invariant = { λ r. IsPlain r.is_resumed r.phase };

    ghost inverse = { λ v. record {
      clock = v.clock;
      is_resumed = was_resumed v.resumed;
      phase = phase_in v.resumed;
    } };

    ghost inverse_ok = { λ r h. alike (λ b p. record { clock = r.clock; is_resumed = b; phase = p })
        _ r.is_resumed _ r.phase (was_again r.is_resumed r.phase) (sym h) };
}

impl Default for Registration {
    /// What stands where no registration does.
    fn default() -> Registration {
        Registration::on(ClockId(0))
    }
}

impl Registration {
    /// A new one, which is open.
    pub fn on(clock: ClockId) -> Registration
        ensures { result ≡ record { clock = clock; resumed = None } }
    {
        Registration {
            clock,
            is_resumed: false,
            phase: 0,
        }
    }

    /// The clock.
    pub fn clock(self) -> ClockId
        ensures { result ≡ self.clock }
    {
        self.clock
    }

    /// Whether the activity hasn't resumed the clock since its last pass.
    pub fn is_open(self) -> bool
        ensures { result ≡ is_open self }
    {
        !self.is_resumed
    }

    /// Where the activity stands on the clock while that one is in this phase.
    pub fn standing(self, phase: u64) -> Standing
        ensures { result ≡ standing_at phase self.resumed }
    {
        if !self.is_resumed {
            Standing::Open
        } else if self.phase == phase {
            Standing::Signalled
        } else {
            Standing::Ahead
        }
    }

    /// Whether it keeps the clock back, while that one is in this phase.
    pub fn is_pending(self, phase: u64) -> bool
        ensures { result ≡ is_pending (standing_at phase self.resumed) }
    {
        match self.standing(phase) {
            Standing::Open | Standing::Ahead => true,
            Standing::Apart | Standing::Signalled => false,
        }
    }

    /// The same after a pass: open.
    pub fn passed(self) -> Registration
        ensures { result ≡ record { clock = self.clock; resumed = None } }
    {
        Registration::on(self.clock)
    }

    /// Is resumed in this phase.
    pub fn resume(&mut self, phase: u64)
        ensures { self.new ≡ record { clock = self.old.clock; resumed = Some phase } }
    {
        self.is_resumed = true;
        self.phase = phase;
    }
}

//! Which clocks a step concerns.

ghost use Rattle.std.specs.Prelude.{◌≡◌};
ghost use Rattle.xk_registrations.specs.RegistrationChanges.{concerns};

use xk_types::ClockId;

/// Which of an activity's clocks a step concerns.
#[derive(Clone, Copy, Debug, PartialEq, Eq)]
pub enum Which {
    /// All of them: an arrival at an `advance`, or the end of the activity.
    All,
    /// This one: a `resume` or a `drop`.
    Only(ClockId),
}

impl Which {
    /// Whether it concerns this clock.
    pub fn concerns(&self, clock: ClockId) -> bool
        ensures { result ≡ concerns self.now clock }
    {
        match self {
            Which::All => true,
            Which::Only(only) => clock.0 == only.0,
        }
    }
}

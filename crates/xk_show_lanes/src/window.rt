//! Which part of a run is drawn.

ghost use Rattle.std.specs.Prelude.{◌≡◌};
ghost use Rattle.xk_show_lanes.specs.Lanes.{is_asked, whole_run};

/// Steps of a run, from the one of number `first` to the one of number `last`, both with it. Steps are counted from 1.
#[derive(Clone, Copy, Debug, PartialEq, Eq)]
pub struct Window {
    pub first: u64,
    pub last: u64,
}

impl Window {
    /// All steps of a run.
    pub fn whole() -> Window
        ensures { result ≡ whole_run }
    {
        Window {
            first: 0,
            last: u64::MAX,
        }
    }

    /// Whether the step of this number is one of them.
    pub fn asks(self, number: u64) -> bool
        ensures { result ≡ is_asked self number }
    {
        self.first <= number && number <= self.last
    }
}

//! Which slots of a frame hold numbers.

ghost use Rattle.std.specs.Prelude.{◌≡◌, ◌<◌, ℕ, false};
ghost use Rattle.xk_activity.specs.Slots.{is_marked, IsMarkedSo};

/// Which slots of a frame hold numbers: a bit for each, as a frame has at most 64.
#[derive(Clone, Copy)]
pub(crate) struct Marks {
    bits: u64,
}

impl Marks {
    /// No slot holds a number.
    #[inline(always)]
    pub(crate) fn none() -> Marks
        ensures { (s : ℕ) → is_marked result s ≡ false }
    {
        Marks { bits: 0 }
    }

    /// Whether slot s holds a number.
    #[inline(always)]
    pub(crate) fn has(self, s: u16) -> bool
        requires { s < 64 }
        ensures { result ≡ is_marked self s }
    {
        self.bits >> s & 1 == 1
    }

    /// From now on slot s holds a number, or holds none.
    #[inline(always)]
    pub(crate) fn set(&mut self, s: u16, holds: bool)
        requires { s < 64 }
        ensures { IsMarkedSo s holds self.old self.new }
    {
        if holds {
            self.bits |= 1 << s;
        } else {
            self.bits &= !(1 << s);
        }
    }
}

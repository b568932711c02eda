//! One clock.

ghost use Rattle.std.specs.Prelude.{◌≡◌, ◌+◌, ◌<◌, ◌≤◌, ◌^◌};
ghost use Rattle.xk_clocks.specs.Table.{new_count, is_ready_count, count_settled, count_registered, count_resumed, count_dropped, one_if};

use std::marker::Model;

/// A clock in numbers.
#[derive(Clone, Copy)]
pub struct Count {
    /// How often it has advanced.
    phase: u64,
    /// How many activities are registered on it.
    registered: u32,
    /// How many of these are open or ahead.
    pending: u32,
}

impl Model for Count {
    ghost use Rattle.xk_clocks.specs.Table.{CountValue};

    ghost Value = { CountValue };

    ghost view = { λ c. record {
      phase = c.phase;
      registered = c.registered;
      pending = c.pending;
    } };

    ghost inverse = { λ c. record {
      phase = c.phase;
      registered = c.registered;
      pending = c.pending;
    } };
}

impl Count {
    /// A clock that was just made.
    pub fn new() -> Count
        ensures { result ≡ new_count }
    {
        Count {
            phase: 0,
            registered: 1,
            pending: 1,
        }
    }

    /// How often it has advanced.
    pub fn phase(&self) -> u64
        ensures { result ≡ self.now.phase }
    {
        self.phase
    }

    /// How many activities are registered on it.
    pub fn registered(&self) -> u32
        ensures { result ≡ self.now.registered }
    {
        self.registered
    }

    /// How many of these keep it back.
    pub fn pending(&self) -> u32
        ensures { result ≡ self.now.pending }
    {
        self.pending
    }

    /// One registration more.
    pub fn register(&mut self, pending: bool)
        requires fits { self.old.registered + 1 < 2 ^ 32 }
        requires part { self.old.pending ≤ self.old.registered }
        ensures registered { self.new ≡ count_registered pending self.old }
    {
        self.registered += 1;
        self.pending += u32::from(pending);
    }

    /// Somebody who was open has resumed. Whether the clock advanced.
    pub fn resume(&mut self) -> bool
        requires some { 0 < self.old.pending }
        requires phase { self.old.phase + 1 < 2 ^ 64 }
        ensures settled { self.new ≡ count_settled (count_resumed self.old) }
        ensures advanced { result ≡ is_ready_count (count_resumed self.old) }
    {
        self.pending -= 1;
        self.settle()
    }

    /// One registration less. Whether the clock advanced.
    pub fn drop(&mut self, pending: bool) -> bool
        requires some { 0 < self.old.registered }
        requires such { one_if pending ≤ self.old.pending }
        requires phase { self.old.phase + 1 < 2 ^ 64 }
        ensures settled { self.new ≡ count_settled (count_dropped pending self.old) }
        ensures advanced { result ≡ is_ready_count (count_dropped pending self.old) }
    {
        self.registered -= 1;
        self.pending -= u32::from(pending);
        self.settle()
    }

    /// Advances where nobody keeps it back. Whether it did.
    fn settle(&mut self) -> bool
        requires { self.old.phase + 1 < 2 ^ 64 }
        ensures settled { self.new ≡ count_settled self.old }
        ensures advanced { result ≡ is_ready_count self.old }
    {
        let ready = self.registered != 0 && self.pending == 0;
        if ready {
            self.phase += 1;
            self.pending = self.registered;
        }
        ready
    }
}

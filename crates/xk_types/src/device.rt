//! What a program reads from and writes to: devices that count their failures.

ghost use Rattle.std.specs.Prelude.{◌≡◌, ℕ, List};
ghost use Rattle.std.specs.Io.{ReadsAtMost, WritesAtMost};
ghost use Rattle.std.specs.Io.KnownBytes.{ReadConsumes, WriteAppends};
ghost use Rattle.xk_types.specs.Device.{CountsFailure, TakesSome};

/// A device failed. Nothing was read or written in that call.
#[derive(Clone, Copy, Debug, PartialEq, Eq)]
pub struct Failed;

/// What bytes can be read from.
pub trait Source {
    ghost use Rattle.std.specs.Prelude.{Option};

    /// The bytes that reads will give from here on, where they are known.
    ghost remaining: { Self → Option (List ℕ) };

    /// How often a read failed.
    ghost fault_count: { Self → ℕ };

    /// Reads into the front of `buf`, and says how many bytes came, at most as many as it has room for. No byte into a
    /// buffer that isn't empty is the end of the input.
    fn read(&mut self, buf: &mut [u8]) -> Result<usize, Failed>
        ensures bound { ReadsAtMost result buf.new }
        ensures bytes { ReadConsumes (remaining self.old) (remaining self.new) result buf.new }
        ensures faults { CountsFailure (fault_count self.old) (fault_count self.new) result };

    /// How often a read failed. At 2^64 - 1 it stays, and from then on every read counts as one that failed.
    fn faults(&self) -> u64
        ensures { result ≡ fault_count self.now };
}

/// What bytes can be written to.
pub trait Sink {
    ghost use Rattle.std.specs.Prelude.{Option};

    /// The bytes that were written, where they are known.
    ghost contents: { Self → Option (List ℕ) };

    /// How often a write failed.
    ghost fault_count: { Self → ℕ };

    /// Writes a front of `piece`, and says how many bytes it took: at least one, unless `piece` is empty.
    fn write(&mut self, piece: &[u8]) -> Result<usize, Failed>
        ensures bound { WritesAtMost result piece.now }
        ensures takes { TakesSome result piece.now }
        ensures bytes { WriteAppends (contents self.old) (contents self.new) result piece.now }
        ensures faults { CountsFailure (fault_count self.old) (fault_count self.new) result };

    /// How often a write failed. At 2^64 - 1 it stays, and from then on every write counts as one that failed.
    fn faults(&self) -> u64
        ensures { result ≡ fault_count self.now };
}

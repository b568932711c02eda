//! Readers and writers of the standard library as devices.

ghost use Rattle.std.specs.Prelude.{◌≡◌};
ghost use Rattle.std.specs.Io.{ReadsAtMost, WritesAtMost};
ghost use Rattle.std.specs.Io.KnownBytes.{ReadConsumes, WriteAppends};
ghost use Rattle.xk_types.specs.Device.{after_failure, counted_faults, counted_inner};

use crate::device::{Failed, Sink, Source};
use std::io::{ErrorKind, Read, Write};

/// A reader or a writer of the standard library whose failures are counted. A read or write that a signal interrupted is
/// tried again, and counts as no failure; after 2^64 - 1 interruptions in one call it does.
#[derive(Drop)]
pub struct Counted<T> {
    inner: T,
    faults: u64,
}

impl<T> Counted<T> {
    /// The reader or writer, with no failure counted.
    pub fn new(inner: T) -> Counted<T>
        ensures inner { counted_inner result ≡ inner }
        ensures faults { counted_faults result ≡ 0 }
    {
        Counted { inner, faults: 0 }
    }

    /// The reader or writer itself.
    pub fn into_inner(self) -> T
        ensures { result ≡ counted_inner self }
    {
        self.inner
    }

    /// How often a call failed.
    pub fn faults(&self) -> u64
        ensures { result ≡ counted_faults self.now }
    {
        self.faults
    }

    /// Counts a failure.
    fn fail(&mut self) -> Failed
        ensures inner { counted_inner self.new ≡ counted_inner self.old }
        ensures faults { counted_faults self.new ≡ after_failure (counted_faults self.old) }
    {
        self.faults = self.faults.saturating_add(1);
        Failed
    }
}

/// One read, tried again where a signal interrupted it.
fn read_through<R: Read>(reader: &mut R, buf: &mut [u8]) -> Result<usize, Failed>
    ensures bound { ReadsAtMost result buf.new }
    ensures bytes { ReadConsumes (R.remaining reader.old) (R.remaining reader.new) result buf.new }
{
    for _ in 0..u64::MAX {
        match reader.read(buf) {
            Ok(got) => return Ok(got),
            Err(error) if error.kind() == ErrorKind::Interrupted => {}
            Err(_) => return Err(Failed),
        }
    }
    Err(Failed)
}

/// One write, tried again where a signal interrupted it.
fn write_through<W: Write>(writer: &mut W, piece: &[u8]) -> Result<usize, Failed>
    ensures bound { WritesAtMost result piece.now }
    ensures bytes { WriteAppends (W.contents writer.old) (W.contents writer.new) result piece.now }
{
    for _ in 0..u64::MAX {
        match writer.write(piece) {
            Ok(taken) => return Ok(taken),
            Err(error) if error.kind() == ErrorKind::Interrupted => {}
            Err(_) => return Err(Failed),
        }
    }
    Err(Failed)
}

impl<R: Read> Source for Counted<R> {
    ghost remaining = { λ c. R.remaining c.inner };

    ghost fault_count = { λ c. c.faults };

    /// Reads once, and counts it if that failed.
    fn read(&mut self, buf: &mut [u8]) -> Result<usize, Failed> {
        match read_through(&mut self.inner, buf) {
            Ok(count) => Ok(count),
            Err(_) => Err(self.fail()),
        }
    }

    /// How often a call failed.
    fn faults(&self) -> u64 {
        self.faults
    }
}

impl<W: Write> Sink for Counted<W> {
    ghost contents = { λ c. W.contents c.inner };

    ghost fault_count = { λ c. c.faults };

    /// Writes once, and counts it if that failed, or took nothing of a piece that has bytes.
    fn write(&mut self, piece: &[u8]) -> Result<usize, Failed> {
        match write_through(&mut self.inner, piece) {
            Ok(0) if !piece.is_empty() => Err(self.fail()),
            Ok(count) => Ok(count),
            Err(_) => Err(self.fail()),
        }
    }

    /// How often a call failed.
    fn faults(&self) -> u64 {
        self.faults
    }
}

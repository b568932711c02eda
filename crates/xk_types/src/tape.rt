//! A device over memory.

ghost use Rattle.std.specs.Prelude.{◌≡◌, ◌↔◌, ◌++◌, min, take, drop, length, Some, None, Ok, Err, IsTrue, IsErr, IfOk, OnOk, OnErr};
ghost use Rattle.std.specs.Io.{ReadsAtMost, WritesAtMost};
ghost use Rattle.std.specs.Io.KnownBytes.{ReadConsumes, WriteAppends};
ghost use Rattle.xk_types.specs.Device.{CountsFailure, TakesSome, after_failure, failed_tape, fresh_tape, one_call_later, one_less};

use crate::device::{Failed, Sink, Source};
use std::alloc::{AllocError, Global};
use std::marker::Model;

/// A device over memory: reads give the bytes that it was made of, and what is written is collected. A write fails where
/// memory runs out. One call, counted over reads and writes, can be set to fail.
#[derive(Drop)]
pub struct Tape {
    input: Vec<u8>,
    given: usize,
    written: Vec<u8>,
    faults: u64,
    before_failure: Option<u64>,
}

impl Model for Tape {
    ghost use Rattle.std.specs.Prelude.{◌≤◌, drop, vec_len};
    ghost use Rattle.xk_types.specs.Device.{TapeValue};

    ghost Value = { TapeValue };

    ghost view = { λ t. record {
      rest = drop t.given t.input.items;
      written = t.written.items;
      faults = t.faults;
      before_failure = t.before_failure;
    } };

    ghost invariant = { λ t. t.given ≤ vec_len t.input };
}

impl Tape {
    /// A tape that gives these bytes and fails at no call but for want of memory.
    pub fn new(alloc: Global, input: &[u8]) -> Result<Tape, AllocError>
        ensures { IfOk result (λ t. t ≡ fresh_tape input.now) }
    {
        Ok(Tape {
            input: Vec::from_slice(alloc, input)?,
            given: 0,
            written: Vec::new(alloc),
            faults: 0,
            before_failure: None,
        })
    }

    /// The same tape, whose k-th call from now on fails, reads and writes counted together and the first one being 1.
    /// With 0 none is set to fail.
    pub fn failing_at(mut self, k: u64) -> Tape
        ensures { result ≡ record self { before_failure = one_less k } }
    {
        self.before_failure = k.checked_sub(1);
        self
    }

    /// What was written.
    pub fn written(&self) -> &[u8]
        ensures { result.now ≡ self.now.written }
    {
        &self.written
    }

    /// How often a call failed.
    pub fn faults(&self) -> u64
        ensures { result ≡ self.now.faults }
    {
        self.faults
    }

    /// Counts this call, and says whether it is the one that is set to fail.
    fn is_set_to_fail(&mut self) -> bool
        ensures counted { self.new ≡ one_call_later self.old }
        ensures fails { IsTrue result ↔ (self.old.before_failure ≡ Some 0) }
    {
        let fails = self.before_failure == Some(0);
        self.before_failure = self.before_failure.and_then(|n| n.checked_sub(1));
        fails
    }

    /// Counts a failure.
    fn fail(&mut self) -> Failed
        ensures { self.new ≡ record self.old { faults = after_failure self.old.faults } }
    {
        self.faults = self.faults.saturating_add(1);
        Failed
    }
}

impl Source for Tape {
    ghost remaining = { λ t. Some t.rest };

    ghost fault_count = { λ t. t.faults };

    /// Gives as many of the bytes that are left as the buffer has room for. It fails only where it is set to.
    fn read(&mut self, buf: &mut [u8]) -> Result<usize, Failed>
        ensures bound { ReadsAtMost result buf.new }
        ensures bytes { ReadConsumes (Some self.old.rest) (Some self.new.rest) result buf.new }
        ensures faults { CountsFailure self.old.faults self.new.faults result }
        ensures failing { IsErr result ↔ (self.old.before_failure ≡ Some 0) }
        ensures count { IfOk result (λ n. n ≡ min (length self.old.rest) (length buf.old)) }
        ensures copied { IfOk result (λ n. buf.new ≡ take n self.old.rest ++ drop n buf.old) }
        ensures ok { IfOk result (λ n. self.new ≡ record (one_call_later self.old)
            { rest = drop n self.old.rest }) }
        ensures err { OnErr result (self.new ≡ failed_tape self.old) }
    {
        if self.is_set_to_fail() {
            return Err(self.fail());
        }
        let rest = &self.input[self.given..];
        let count = rest.len().min(buf.len());
        buf[..count].copy_from_slice(&rest[..count]);
        self.given += count;
        Ok(count)
    }

    /// How often a call failed.
    fn faults(&self) -> u64 {
        self.faults
    }
}

impl Sink for Tape {
    ghost contents = { λ t. Some t.written };

    ghost fault_count = { λ t. t.faults };

    /// Takes the whole piece. It fails where it is set to, and for want of memory; then nothing was written.
    fn write(&mut self, piece: &[u8]) -> Result<usize, Failed>
        ensures bound { WritesAtMost result piece.now }
        ensures takes { TakesSome result piece.now }
        ensures bytes { WriteAppends
            (Some self.old.written) (Some self.new.written) result piece.now }
        ensures faults { CountsFailure self.old.faults self.new.faults result }
        ensures failing { self.old.before_failure ≡ Some 0 → IsErr result }
        ensures count { IfOk result (λ n. n ≡ length piece.now) }
        ensures ok { OnOk result (self.new ≡ record (one_call_later self.old)
            { written = self.old.written ++ piece.now }) }
        ensures err { OnErr result (self.new ≡ failed_tape self.old) }
    {
        if self.is_set_to_fail() || self.written.extend_from_slice(piece).is_err() {
            return Err(self.fail());
        }
        Ok(piece.len())
    }

    /// How often a call failed.
    fn faults(&self) -> u64 {
        self.faults
    }
}

//! What a call answers, and the devices in memory that it is written to.

ghost use Rattle.std.specs.Prelude.{◌≡◌, ◌≢◌, [], IfOk};
ghost use Rattle.xk_jobs.specs.Status.{status_device, status_memory};
ghost use Rattle.xk_types.specs.Device.{fresh_tape};
ghost use Rattle.x10clock_c.specs.Call.{AreShown, IsReplyOf};

use crate::room::{Lengths, give};
use std::alloc::{AllocError, Global};
use std::marker::Model;
use xk_jobs::status;
use xk_types::Tape;

/// What a job reads and writes, in memory.
#[derive(Drop)]
pub(crate) struct Devices {
    /// FILE.
    pub(crate) program: Tape,
    /// What is read beside it.
    pub(crate) input: Tape,
    /// Standard output.
    pub(crate) out: Tape,
    /// Standard error.
    pub(crate) err: Tape,
    /// The log that is written.
    pub(crate) log: Tape,
}

/// A status, and what was written to standard output, to standard error and to the log. Neither memory nor a device failed.
#[derive(Drop)]
pub(crate) struct Answer {
    status: u8,
    out: Tape,
    err: Tape,
    log: Tape,
}

impl Model for Answer {
    ghost use Rattle.std.specs.Prelude.{◌≢◌};
    ghost use Rattle.xk_jobs.specs.Status.{status_device, status_memory};
    ghost use Rattle.xk_serve.specs.Answer.{Reply};

    ghost Value = { Reply };

    ghost view = { λ a. record {
      status = a.status;
      out = a.out.written;
      err = a.err.written;
      log = a.log.written;
    } };

    ghost invariant = { λ a. (a.status ≢ status_memory) × (a.status ≢ status_device) };
}

impl Answer {
    /// The status: neither memory nor a device failed.
    pub(crate) fn status(&self) -> u8
        ensures same { result ≡ self.now.status }
        ensures known { (result ≢ status_memory) × (result ≢ status_device) }
    {
        self.status
    }

    /// Copies as much of each text as there is room for, and says how long they are.
    pub(crate) fn show(&self, out: &mut [u8], err: &mut [u8], log: &mut [u8]) -> Lengths
        ensures { AreShown self.now out.old out.new err.old err.new log.old log.new result }
    {
        Lengths {
            out: give(self.out.written(), out),
            err: give(self.err.written(), err),
            log: give(self.log.written(), log),
        }
    }
}

/// The devices before anything is read or written.
pub(crate) fn fresh_devices(
    alloc: Global,
    program: &[u8],
    input: &[u8],
) -> Result<Devices, AllocError>
    ensures program { IfOk result (λ d. d.program ≡ fresh_tape program.now) }
    ensures input { IfOk result (λ d. d.input ≡ fresh_tape input.now) }
    ensures out { IfOk result (λ d. d.out ≡ fresh_tape []) }
    ensures err { IfOk result (λ d. d.err ≡ fresh_tape []) }
    ensures log { IfOk result (λ d. d.log ≡ fresh_tape []) }
{
    Ok(Devices {
        program: Tape::new(alloc, program)?,
        input: Tape::new(alloc, input)?,
        out: Tape::new(alloc, &[])?,
        err: Tape::new(alloc, &[])?,
        log: Tape::new(alloc, &[])?,
    })
}

/// What was answered with this status. These devices fail for want of memory alone, so a status that says that one did
/// says no more than that memory was wanting.
pub(crate) fn answered(status: u8, devices: Devices) -> Result<Answer, AllocError>
    ensures { IfOk result (IsReplyOf status devices.out.written devices.err.written
        devices.log.written) }
{
    if status == status::MEMORY || status == status::DEVICE {
        return Err(AllocError);
    }
    Ok(Answer {
        status,
        out: devices.out,
        err: devices.err,
        log: devices.log,
    })
}

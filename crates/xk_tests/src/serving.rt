//! What `serve` answers between tapes of which one fails at one of its calls, and where writes take no byte.

use std::alloc::{AllocError, Global};
use std::io;
use std::io::Write;
use std::sync::Wait;
use std::test::Fail;
use std::thread::Threads;
use xk_jobs::{Command, Form, Job};
use xk_serve::serve;
use xk_types::{Counted, Tape};

/// The status where a device failed, and the line.
const STATUS: u8 = 5;

const LINE: &str = "x10clock: device\n";

/// More calls than any device of a row meets.
const MOST_CALLS: u64 = 100;

/// A device of a call.
#[derive(Clone, Copy, Debug, PartialEq, Eq)]
enum Device {
    /// FILE.
    Program,
    /// LOG.
    LogIn,
    /// Standard output.
    Out,
    /// Standard error.
    Err,
    /// PATH of `--log`.
    LogOut,
}

const DEVICES: [Device; 5] = [
    Device::Program,
    Device::LogIn,
    Device::Out,
    Device::Err,
    Device::LogOut,
];

/// Main and an activity, in step.
const IN_STEP: &str =
    "def main() { val c = Clock.make(); async clocked(c) { Clock.advanceAll(); Console.OUT.println(2); } Clock.advanceAll(); Console.OUT.println(1); }";

const PRINTED: &str = "1\n2\nended steps 12\n";

const LOG: &str = "x10log 1\n0 1\n0 1\n0 1\n1 1\n0 1\n0 1\n0 1\n0 1\n1 1\n1 1\n1 1\n1 1\nend 12\n";

const CHARTED: &str = "step 4 clock 0 phase 1 acts 0 1\n";

const RUN: Command<'static> = Command::Run {
    drive: None,
    log: Some("log"),
};

const REPLAY: Command<'static> = Command::Replay { log: "log" };

const CHART: Command<'static> = Command::Chart { log: "log" };

const EVENTS: Command<'static> = Command::Events { log: "log" };

/// A command, the texts that its devices give and those that are written to them where none fails, and the status.
#[derive(Clone, Copy)]
struct Row {
    name: &'static str,
    command: Command<'static>,
    given: [&'static str; 5],
    status: u8,
    written: [&'static str; 5],
}

/// A row of the program in step, which is done.
fn done(
    name: &'static str,
    command: Command<'static>,
    log: &'static str,
    out: &'static str,
    log_out: &'static str,
) -> Row {
    Row {
        name,
        command,
        given: [IN_STEP, log, "", "", ""],
        status: 0,
        written: ["", "", out, "", log_out],
    }
}

/// A row that is refused.
fn refused(
    name: &'static str,
    command: Command<'static>,
    program: &'static str,
    log: &'static str,
    status: u8,
    err: &'static str,
) -> Row {
    Row {
        name,
        command,
        given: [program, log, "", "", ""],
        status,
        written: ["", "", "", err, ""],
    }
}

/// Runs and logs of two activities in step; and texts and a log that are refused.
fn rows() -> [Row; 6] {
    let no_clock = "def main() { clocked async { } }";
    let no_clock_told = "x10clock: F15 NoHiddenClock at 13\n";
    let log_told =
        "x10clock: FILE is a log; the program comes first, then the log\nx10clock: F2 Syntax at 0\n";
    let beginning = "x10log 1\n0 1\n";
    let beginning_told = "x10clock: L2 Truncated\n";
    [
        done("run", RUN, "", PRINTED, LOG),
        done("replay", REPLAY, LOG, PRINTED, ""),
        done("chart", CHART, LOG, CHARTED, ""),
        refused("no clock", RUN, no_clock, "", 1, no_clock_told),
        refused("a log for FILE", EVENTS, LOG, "", 1, log_told),
        refused(
            "a beginning of a log",
            REPLAY,
            IN_STEP,
            beginning,
            3,
            beginning_told,
        ),
    ]
}

impl Row {
    fn job(&self, alloc: Global) -> Job<'static> {
        Job {
            command: self.command,
            form: Form::Source,
            file: "-",
            arguments: Vec::new(alloc),
        }
    }

    /// Whether the device is read or written where none fails.
    fn uses(&self, device: Device) -> bool {
        let [_, log, ..] = self.given;
        let [_, _, out, err, log_out] = self.written;
        match device {
            Device::Program => true,
            Device::LogIn => !log.is_empty(),
            Device::Out => !out.is_empty(),
            Device::Err => !err.is_empty(),
            Device::LogOut => !log_out.is_empty(),
        }
    }

    /// Whether just these texts were written.
    fn is_answered(&self, tapes: &[Tape]) -> bool {
        for (tape, text) in tapes.iter().zip(self.written) {
            if tape.written() != text.as_bytes() {
                return false;
            }
        }
        true
    }

    /// Whether beginnings of these texts were written, and the line of a device to standard error, where a device failed.
    fn is_begun(&self, device: Device, tapes: &[Tape]) -> bool {
        for ((tape, text), other) in tapes.iter().zip(self.written).zip(DEVICES) {
            let is_right = if other == Device::Err && device != Device::Err {
                tape.written() == LINE.as_bytes()
            } else {
                text.as_bytes().starts_with(tape.written())
            };
            if !is_right {
                return false;
            }
        }
        true
    }
}

/// A tape that gives this text, and fails at this call.
fn tape(alloc: Global, text: &str, call: u64) -> Result<Tape, AllocError> {
    Ok(Tape::new(alloc, text.as_bytes())?.failing_at(call))
}

/// The tapes of a row, of which one fails at this call.
fn tapes(alloc: Global, row: &Row, device: Device, call: u64) -> Result<Vec<Tape>, AllocError> {
    let mut tapes = Vec::new(alloc);
    for (text, other) in row.given.iter().zip(DEVICES) {
        let failing = if other == device { call } else { 0 };
        tapes.push(tape(alloc, text, failing)?)?;
    }
    Ok(tapes)
}

/// The status of a row between its tapes.
fn served<R: Threads + Wait + Sync>(
    rt: &R,
    alloc: Global,
    row: &Row,
    tapes: &mut [Tape],
) -> Option<u8> {
    let [program, log_in, out, err, log_out] = tapes else {
        return None;
    };
    let job = row.job(alloc);
    Some(serve(rt, alloc, &job, program, log_in, out, err, log_out))
}

/// How a row is answered where one call is to fail.
#[derive(Clone, Copy)]
enum Outcome {
    /// It failed, and that is told as it must be.
    Told,
    /// There was no such call, and the row is answered.
    Answered,
    Wrong,
}

/// The outcome by the status and the tapes.
fn outcome_of(row: &Row, device: Device, status: Option<u8>, tapes: &[Tape]) -> Outcome {
    let has_failed = tapes.iter().any(|tape| tape.faults() > 0);
    if has_failed && status == Some(STATUS) && row.is_begun(device, tapes) {
        Outcome::Told
    } else if !has_failed && status == Some(row.status) && row.is_answered(tapes) {
        Outcome::Answered
    } else {
        Outcome::Wrong
    }
}

/// How a row is answered where this call of a device is to fail.
fn tried<R: Threads + Wait + Sync>(
    rt: &R,
    alloc: Global,
    row: &Row,
    device: Device,
    call: u64,
) -> Result<Outcome, AllocError> {
    let mut tapes = tapes(alloc, row, device, call)?;
    let status = served(rt, alloc, row, &mut tapes);
    Ok(outcome_of(row, device, status, &tapes))
}

/// How many calls of a device there are, of each of which a failure is told as it must be; None where one isn't.
fn calls_told<R: Threads + Wait + Sync>(
    rt: &R,
    alloc: Global,
    row: &Row,
    device: Device,
) -> Result<Option<u64>, AllocError> {
    for call in 1..=MOST_CALLS {
        match tried(rt, alloc, row, device, call)? {
            Outcome::Told => {}
            Outcome::Answered => return Ok(Some(call - 1)),
            Outcome::Wrong => return Ok(None),
        }
    }
    Ok(None)
}

/// Each read and each write fails in its turn.
#[test]
fn a_call_fails(rt: HostRuntime) -> Result<(), Fail> {
    for row in rows() {
        let name = row.name;
        for device in DEVICES {
            let is_called = calls_told(&rt, rt.alloc(), &row, device)?.map(|calls| calls > 0);
            assert_eq!(rt; is_called, Some(row.uses(device)), "{name}: {device:?}");
        }
    }
    Ok(())
}

/// A writer that takes no byte.
#[derive(Clone, Copy)]
struct Full;

impl Write for Full {
    fn write(&mut self, _buf: &[u8]) -> io::Result<usize> {
        Ok(0)
    }

    fn flush(&mut self) -> io::Result<()> {
        Ok(())
    }
}

/// The status of a row whose writes take no byte.
fn served_in_full<R: Threads + Wait + Sync>(rt: &R, alloc: Global, row: &Row) -> u8 {
    let [program, log, ..] = row.given;
    let job = row.job(alloc);
    serve(
        rt,
        alloc,
        &job,
        &mut Counted::new(program.as_bytes()),
        &mut Counted::new(log.as_bytes()),
        &mut Counted::new(Full),
        &mut Counted::new(Full),
        &mut Counted::new(Full),
    )
}

/// A write that takes no byte counts as failed.
#[test]
fn a_write_takes_no_byte(rt: HostRuntime) {
    for row in rows() {
        let name = row.name;
        let status = served_in_full(&rt, rt.alloc(), &row);
        assert_eq!(rt; status, STATUS, "{name}");
    }
}

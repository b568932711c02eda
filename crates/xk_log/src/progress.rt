//! How far a log has been read.

ghost use Rattle.std.specs.Prelude.{◌≡◌, ◌-◌, ◌≤◌, ◌++◌, length, drop, IsTrue, ◌↔◌, OnOk, IfOk, IfErr};
ghost use Rattle.xk_log.specs.LogText.{ended};
ghost use Rattle.xk_log.specs.Verdicts.{Start, before, line_at, IsOneLine};
ghost use Rattle.xk_log.specs.Reading.{place, Finishes, HasSurplus, IsReady, Refuses, StopsAt};

use crate::fault::LogFault;
use crate::lines::{entry_of, is_end, until};
use crate::log::Log;
use std::alloc::Global;
use xk_types::Entry;

/// The most entries that a log has.
const MOST_ENTRIES: usize = 1_000_000_000;

/// The most bytes that a line has.
pub(crate) const LONGEST_LINE: usize = 21;

/// What the lines so far have been.
#[derive(Clone, Copy, Debug, PartialEq, Eq)]
pub(crate) enum Stage {
    /// There was none.
    Start,
    /// The first, and perhaps entries.
    Within,
    /// The last, too.
    Behind,
}

/// What has been read of a log.
#[derive(Drop)]
pub(crate) struct Progress {
    pub(crate) stage: Stage,
    pub(crate) entries: Vec<Entry>,
}

impl Progress {
    /// Nothing yet.
    pub(crate) fn new(alloc: Global) -> Progress
        ensures start { place result ≡ Start }
        ensures ready { IsReady result }
    {
        Progress {
            stage: Stage::Start,
            entries: Vec::new(alloc),
        }
    }

    /// The number of the line that comes next.
    pub(crate) fn line(&self) -> u64
        requires { IsReady self.now }
        ensures { result ≡ line_at (place self.now) }
    {
        let entries = self.entries.len() as u64;
        match self.stage {
            Stage::Start => 1,
            Stage::Within => entries + 2,
            Stage::Behind => entries + 3,
        }
    }

    /// Takes the next line. Memory is refused for an entry alone.
    fn take(&mut self, line: &[u8]) -> Result<(), LogFault>
        requires { IsReady self.old }
        ensures ready { OnOk result (IsReady self.new) }
        ensures took { OnOk result
            (before (place self.new) ≡ before (place self.old) ++ ended line.now) }
        ensures refused { IfErr result (Refuses (place self.old) line.now) }
    {
        match self.stage {
            Stage::Start => self.take_head(line),
            Stage::Within => self.take_body(line),
            Stage::Behind => Err(LogFault::Grammar(self.line())),
        }
    }

    /// Takes the first line.
    fn take_head(&mut self, line: &[u8]) -> Result<(), LogFault>
        requires ready { IsReady self.old }
        requires stage { self.old.stage ≡ Stage.Start }
        ensures ready { OnOk result (IsReady self.new) }
        ensures took { OnOk result
            (before (place self.new) ≡ before (place self.old) ++ ended line.now) }
        ensures refused { IfErr result (Refuses (place self.old) line.now) }
    {
        if line != b"x10log 1".as_slice() {
            return Err(LogFault::Grammar(1));
        }
        self.stage = Stage::Within;
        Ok(())
    }

    /// Takes the line of an entry, or the last line.
    fn take_body(&mut self, line: &[u8]) -> Result<(), LogFault>
        requires ready { IsReady self.old }
        requires stage { self.old.stage ≡ Stage.Within }
        ensures ready { OnOk result (IsReady self.new) }
        ensures took { OnOk result
            (before (place self.new) ≡ before (place self.old) ++ ended line.now) }
        ensures refused { IfErr result (Refuses (place self.old) line.now) }
    {
        let count = self.entries.len();
        match entry_of(line) {
            Some(entry) => {
                if count >= MOST_ENTRIES {
                    return Err(LogFault::Grammar(count as u64 + 2));
                }
                self.entries.push(entry)?;
                Ok(())
            }
            None => {
                if !is_end(line, count as u64) {
                    return Err(LogFault::Grammar(count as u64 + 2));
                }
                self.stage = Stage::Behind;
                Ok(())
            }
        }
    }

    /// Takes the lines that end in a text, and says how many bytes are left behind them.
    pub(crate) fn take_lines(&mut self, text: &[u8]) -> Result<usize, LogFault>
        requires { IsReady self.old }
        ensures ready { OnOk result (IsReady self.new) }
        ensures within { IfOk result (λ left. left ≤ length text.now) }
        ensures one_line { IfOk result (λ left.
            IsOneLine (drop (length text.now - left) text.now)) }
        ensures taken { IfOk result (λ left.
            before (place self.new) ++ drop (length text.now - left) text.now
            ≡ before (place self.old) ++ text.now) }
        ensures stopped { IfErr result (StopsAt (before (place self.old) ++ text.now)) }
    {
        let mut from = 0;
        let mut length = until(b'\n', text);
        while from + length < text.len() {
            self.take(&text[from..from + length])?;
            from += length + 1;
            length = until(b'\n', &text[from..]);
        }
        Ok(text.len() - from)
    }

    /// Whether so many bytes that are left stand behind the last line.
    pub(crate) fn has_surplus(&self, left: usize) -> bool
        ensures { IsTrue result ↔ HasSurplus self.now.stage left }
    {
        match self.stage {
            Stage::Behind => left > 0,
            Stage::Start | Stage::Within => false,
        }
    }

    /// The log that was read, if its last line was.
    pub(crate) fn finish(self) -> Result<Log, LogFault>
        ensures { Finishes (place self) result }
    {
        match self.stage {
            Stage::Behind => Ok(Log::new(self.entries)),
            Stage::Start | Stage::Within => Err(LogFault::Truncated),
        }
    }
}

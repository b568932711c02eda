//! Devices that fail, in each way in which one can, and one that never ends.

use std::io;
use std::io::{ErrorKind, Read, Write};
use xk_log::{LogFault, read_log};
use xk_types::{Counted, Failed, Sink, Source};

/// A reader and writer that is interrupted at each first call, moves one byte at each second one, and fails so at each third.
#[derive(Drop)]
struct Halting {
    kind: ErrorKind,
    calls: u64,
}

impl Halting {
    fn new(kind: ErrorKind) -> Counted<Halting> {
        Counted::new(Halting { kind, calls: 0 })
    }

    /// How many bytes the next call moves.
    fn next(&mut self) -> io::Result<usize> {
        self.calls = self.calls.saturating_add(1);
        match self.calls % 3 {
            1 => Err(io::Error::from(ErrorKind::Interrupted)),
            2 => Ok(1),
            _ => Err(io::Error::from(self.kind)),
        }
    }
}

impl Read for Halting {
    fn read(&mut self, buf: &mut [u8]) -> io::Result<usize> {
        let count = self.next()?.min(buf.len());
        buf[..count].fill(7);
        Ok(count)
    }
}

impl Write for Halting {
    fn write(&mut self, buf: &[u8]) -> io::Result<usize> {
        Ok(self.next()?.min(buf.len()))
    }

    fn flush(&mut self) -> io::Result<()> {
        Ok(())
    }
}

/// Every kind of failure but an interruption.
const KINDS: [ErrorKind; 41] = [
    ErrorKind::NotFound,
    ErrorKind::PermissionDenied,
    ErrorKind::ConnectionRefused,
    ErrorKind::ConnectionReset,
    ErrorKind::HostUnreachable,
    ErrorKind::NetworkUnreachable,
    ErrorKind::ConnectionAborted,
    ErrorKind::NotConnected,
    ErrorKind::AddrInUse,
    ErrorKind::AddrNotAvailable,
    ErrorKind::NetworkDown,
    ErrorKind::BrokenPipe,
    ErrorKind::AlreadyExists,
    ErrorKind::WouldBlock,
    ErrorKind::NotADirectory,
    ErrorKind::IsADirectory,
    ErrorKind::DirectoryNotEmpty,
    ErrorKind::ReadOnlyFilesystem,
    ErrorKind::FilesystemLoop,
    ErrorKind::StaleNetworkFileHandle,
    ErrorKind::InvalidInput,
    ErrorKind::InvalidData,
    ErrorKind::TimedOut,
    ErrorKind::WriteZero,
    ErrorKind::StorageFull,
    ErrorKind::NotSeekable,
    ErrorKind::QuotaExceeded,
    ErrorKind::FileTooLarge,
    ErrorKind::ResourceBusy,
    ErrorKind::ExecutableFileBusy,
    ErrorKind::Deadlock,
    ErrorKind::CrossesDevices,
    ErrorKind::TooManyLinks,
    ErrorKind::InvalidFilename,
    ErrorKind::ArgumentListTooLong,
    ErrorKind::Unsupported,
    ErrorKind::UnexpectedEof,
    ErrorKind::OutOfMemory,
    ErrorKind::InProgress,
    ErrorKind::Other,
    ErrorKind::Uncategorized,
];

/// An interrupted call is made again; one that fails otherwise isn't, whatever the kind, and counts as a failure.
#[test]
fn failures_are_counted(rt: HostRuntime) {
    let mut buf = [0; 4];
    for kind in KINDS {
        let mut reader = Halting::new(kind);
        assert!(rt; reader.read(&mut buf) == Ok(1) && reader.faults() == 0);
        assert!(rt;
            reader.read(&mut buf) == Err(Failed) && reader.faults() == 1,
            "{kind:?}"
        );
        assert!(rt; reader.into_inner().calls == 3);
        let mut writer = Halting::new(kind);
        assert!(rt; writer.write(b"text") == Ok(1) && writer.faults() == 0);
        assert!(rt;
            writer.write(b"text") == Err(Failed) && writer.faults() == 1,
            "{kind:?}"
        );
        assert!(rt; writer.into_inner().calls == 3);
    }
}

/// Gives the digit 1 for ever, one with each read.
#[derive(Drop)]
struct Ones {
    given: u64,
}

impl Read for Ones {
    fn read(&mut self, buf: &mut [u8]) -> io::Result<usize> {
        let count = buf.len().min(1);
        buf[..count].fill(b'1');
        self.given = self.given.saturating_add(1);
        Ok(count)
    }
}

/// A line without an end is left where it is longer than any line.
#[test]
fn a_line_has_no_end(rt: HostRuntime) {
    let mut ones = Counted::new(Ones { given: 0 });
    let fault = read_log(rt.alloc(), &mut ones).err();
    assert_eq!(rt; fault, Some(LogFault::Grammar(1)));
    assert_eq!(rt; ones.into_inner().given, 22);
}

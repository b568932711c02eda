//! What the program asks of the files and streams that it is given, before it opens any.

use std::fs::{Files, Metadata, OpenFile, OpenOptions, metadata, open};
use std::io::{Error, ErrorKind, Result, Seek, Write};
use std::os::unix::fs::MetadataExt;

/// What a log would be written over.
#[derive(Clone, Copy)]
pub enum Over {
    /// FILE, or what the answers of a run by hand are read from.
    Read,
    /// The file that standard output goes to.
    Output,
    /// The file that standard error goes to.
    Error,
}

/// One of the files that words name.
#[derive(Clone, Copy)]
pub enum Which {
    /// FILE.
    Program,
    /// The log or the list of outcomes that is read.
    Beside,
    /// The log that is written.
    Log,
}

/// Opens a file to read it. A folder, which the system opens, isn't one where `is_told`: then that can be told.
pub fn open_file<R: Files>(rt: &R, path: &str, is_told: bool) -> Result<R::File> {
    let file = open(rt, path)?;
    match file.metadata() {
        Ok(found) if is_told && found.is_dir() => Err(Error::from(ErrorKind::IsADirectory)),
        Ok(_) | Err(_) => Ok(file),
    }
}

/// The file of a log, which nothing else is to write to: a write fails where the file is longer or shorter than what was
/// written.
#[derive(Drop)]
pub struct LogFile<F> {
    file: F,
}

impl<F: Write + Seek + OpenFile> LogFile<F> {
    /// A file that was made or emptied, and to which nothing was written.
    pub fn new(file: F) -> LogFile<F> {
        LogFile { file }
    }

    /// Whether the file ends where the last write did. Only of one that holds its bytes this is asked.
    fn is_alone(&mut self) -> Result<bool> {
        let found = self.file.metadata()?;
        Ok(!found.is_file() || self.file.stream_position()? == found.len())
    }
}

impl<F: Write + Seek + OpenFile> Write for LogFile<F> {
    /// Writes once, and looks at what the file has become.
    fn write(&mut self, piece: &[u8]) -> Result<usize> {
        let count = self.file.write(piece)?;
        match self.is_alone() {
            Ok(true) => Ok(count),
            Ok(false) | Err(_) => Err(Error::from(ErrorKind::Other)),
        }
    }

    /// Hands on what the file keeps back.
    fn flush(&mut self) -> Result<()> {
        self.file.flush()
    }
}

/// Holds the places of the standard streams that the caller closed, as long as they are kept: so no file that is opened
/// takes such a place, and what is written to standard output can't get into a log. To read from a closed standard
/// input fails, and so does to write to the others. A place that can't be held, as where no file may be opened, is
/// left.
pub fn hold_streams<R: Files>(rt: &R) -> [Option<R::File>; 3] {
    let mut writing = OpenOptions::new();
    writing.write(true);
    let mut reading = OpenOptions::new();
    reading.read(true);
    [
        hold(rt, "/dev/fd/0", &writing),
        hold(rt, "/dev/fd/1", &reading),
        hold(rt, "/dev/fd/2", &reading),
    ]
}

/// Holds the place of a stream where it is closed, by a device that is opened so: the least free place is taken.
fn hold<R: Files>(rt: &R, stream: &str, how: &OpenOptions) -> Option<R::File> {
    match metadata(rt, stream) {
        Ok(_) => None,
        Err(_) => how.open(rt, "/dev/null").ok(),
    }
}

/// Whether PATH names the very file that FILE names, so that to empty the one would lose the other; a FILE `-` is standard input. Only of a file that
/// holds its bytes this can be so: a terminal, a pipe or a device may be both.
pub fn is_same_file<R: Files>(rt: &R, path: &str, file: &str) -> Result<bool> {
    let file = if file == "-" { "/dev/fd/0" } else { file };
    match (found(rt, path)?, found(rt, file)?) {
        (Some(a), Some(b)) => Ok(a.is_file() && a.dev() == b.dev() && a.ino() == b.ino()),
        (_, _) => Ok(false),
    }
}

/// What the system says of a file, or `None` where it can't say it for another reason than want of memory.
fn found<R: Files>(rt: &R, path: &str) -> Result<Option<Metadata>> {
    match metadata(rt, path) {
        Ok(data) => Ok(Some(data)),
        Err(e) if e.kind() == ErrorKind::OutOfMemory => Err(e),
        Err(_) => Ok(None),
    }
}

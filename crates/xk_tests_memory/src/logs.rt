//! Logs are read, played again and charted; each call tried again where memory was refused.

ghost use Rattle.xk_types.specs.World.{AreArguments};

use crate::modules::{Wrong, accepted, fits, holds};
use std::alloc::Global;
use xk_bounds::Verified;
use xk_log::{Log, LogFault, read_log};
use xk_replay::{ReplayFault, chart, replay};
use xk_scheduler::Ended;
use xk_types::Counted;

/// The log that a text is, at the second try where memory was refused.
fn read(alloc: Global, text: &[u8]) -> Result<Log, LogFault> {
    match read_log(alloc, &mut Counted::new(text)) {
        Err(LogFault::OutOfMemory) => read_log(alloc, &mut Counted::new(text)),
        answer => answer,
    }
}

/// The run that a log is of, at the second try, with what came back, where memory was refused.
fn replayed<'m>(
    alloc: Global,
    verified: &'m Verified,
    arguments: &[i64],
    log: Log,
) -> Result<Ended<'m>, (Log, ReplayFault)>
    requires { AreArguments verified.now arguments.now }
{
    match replay(alloc, verified, arguments, log) {
        Err((same, ReplayFault::OutOfMemory)) => replay(alloc, verified, arguments, same),
        answer => answer,
    }
}

/// A run is charted, at the second try where memory was refused.
fn is_charted(alloc: Global, ended: &Ended<'_>) -> bool {
    chart(alloc, ended).is_ok() || chart(alloc, ended).is_ok()
}

/// A log was of a whole run, which is charted, or was refused for not being one.
fn is_right(
    alloc: Global,
    answer: &Result<Ended<'_>, (Log, ReplayFault)>,
    is_whole: bool,
) -> Result<(), Wrong> {
    match answer {
        Ok(ended) => {
            holds(is_whole, "a log is played again that isn't of a whole run")?;
            holds(
                is_charted(alloc, ended),
                "a run isn't charted at the second try",
            )
        }
        Err((_, fault)) => holds(
            !is_whole && *fault != ReplayFault::OutOfMemory,
            "a log isn't played again at the second try",
        ),
    }
}

/// A log is played again, main being given these numbers, and answered as it must be.
fn is_replayed(
    alloc: Global,
    verified: &Verified,
    arguments: &[i64],
    log: Log,
    is_whole: bool,
) -> Result<(), Wrong> {
    fits(verified, arguments)?;
    let answer = replayed(alloc, verified, arguments, log);
    is_right(alloc, &answer, is_whole)
}

/// A text is the log of a whole run of a module with these arguments, or is refused for not being one.
fn is_taken(
    alloc: Global,
    verified: &Verified,
    arguments: &[i64],
    text: &[u8],
    is_whole: bool,
) -> Result<(), Wrong> {
    match read(alloc, text) {
        Ok(log) => is_replayed(alloc, verified, arguments, log, is_whole),
        Err(fault) => holds(
            !is_whole && fault != LogFault::OutOfMemory,
            "a log isn't read at the second try",
        ),
    }
}

/// A text is the log of a whole run of a program with these arguments, or is refused for not being one.
pub fn is_answered(
    alloc: Global,
    program: &str,
    arguments: &[i64],
    text: &str,
    is_whole: bool,
) -> Result<(), Wrong> {
    let verified = accepted(alloc, program)?;
    is_taken(alloc, &verified, arguments, text.as_bytes(), is_whole)
}

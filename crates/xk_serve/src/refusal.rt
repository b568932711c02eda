//! What stands against a job, with what is said of it beside its line.

ghost use Rattle.std.specs.Prelude.{◌≡◌, ◌++◌, []};
ghost use Rattle.xk_serve.specs.Answer.{doing_of, values_doing};
ghost use Rattle.xk_serve.specs.Devices.{IsQuiet, Tells};
ghost use Rattle.xk_serve.specs.Notes.{may_note, note_of};

use crate::devices::tell;
use std::alloc::Global;
use xk_answers::{Refused, unsaid};
use xk_io::write_all;
use xk_jobs::{Command, Values, status};
use xk_program::Fault;
use xk_types::Sink;

/// The first line of a log.
const FIRST_LINE: &[u8] = b"x10log 1\n";

/// What is told where FILE is a log.
const LOG_NOTE: &str = "x10clock: FILE is a log; the program comes first, then the log\n";

/// What stands against a job, and what is said of it beside its line.
#[derive(Drop)]
pub(crate) struct Refusal {
    /// What stands against it, and what goes to standard output.
    pub(crate) refused: Refused,
    /// What stands before its line on standard error.
    pub(crate) note: &'static str,
}

/// A fault of which nothing is said beside its line.
pub(crate) fn unnoted(alloc: Global, fault: Fault) -> Refusal
    ensures fault { result.refused.fault ≡ fault }
    ensures said { result.refused.said.items ≡ [] }
    ensures note { result.note.now ≡ [] }
{
    Refusal {
        refused: unsaid(alloc, fault),
        note: "",
    }
}

/// A fault, and what is said of it on standard output, with what stands before its line where FILE has these bytes.
pub(crate) fn noted(command: &Command<'_>, bytes: &[u8], refused: Refused) -> Refusal
    ensures refused { result.refused ≡ refused }
    ensures note { result.note.now
        ≡ note_of (doing_of command.now) bytes.now result.refused.fault }
    ensures quiet { IsQuiet result.refused.fault result.note.now }
{
    let note = note_of(command, bytes, &refused.fault);
    Refusal { refused, note }
}

/// What stands before the line of a fault where FILE has these bytes.
fn note_of(command: &Command<'_>, bytes: &[u8], fault: &Fault) -> &'static str
    ensures note { result.now ≡ note_of (doing_of command.now) bytes.now fault.now }
    ensures quiet { IsQuiet fault.now result.now }
{
    match fault {
        Fault::Front(_) => {
            if may_note(command) && bytes.starts_with(FIRST_LINE) {
                LOG_NOTE
            } else {
                ""
            }
        }
        Fault::Text(_)
        | Fault::Refused(_)
        | Fault::Arguments { .. }
        | Fault::Grammar(_)
        | Fault::Truncated
        | Fault::NotEnabled(_)
        | Fault::NotEnded
        | Fault::NoOutcome(_)
        | Fault::OutOfMemory
        | Fault::Device => "",
    }
}

/// Whether it may be told that FILE is a log: a log is read beside it, and the specification leaves open what is told.
#[tactic(auto, using(crate::proofs::NoteLemmas::lanes_noted, crate::proofs::NoteLemmas::pages, crate::proofs::NoteLemmas::races_noted))]
fn may_note(command: &Command<'_>) -> bool
    ensures { result ≡ may_note (doing_of command.now) }
{
    match command {
        Command::Events { .. }
        | Command::Lanes { .. }
        | Command::Rounds { .. }
        | Command::Page { .. }
        | Command::Where { .. }
        | Command::Span { .. }
        | Command::Why { .. } => true,
        Command::Races { log } => log.is_some(),
        Command::Json(values) => may_note_values(values),
        Command::Check
        | Command::Explain { .. }
        | Command::Listing
        | Command::Compile
        | Command::Run { .. }
        | Command::Replay { .. }
        | Command::Chart { .. }
        | Command::Tally { .. }
        | Command::OutcomePage { .. }
        | Command::Outcomes { .. }
        | Command::Count { .. }
        | Command::Expected { .. } => false,
    }
}

/// The same of what is told as JSON.
#[tactic(auto, using(crate::proofs::NoteLemmas::races_noted))]
fn may_note_values(values: &Values<'_>) -> bool
    ensures { result ≡ may_note (values_doing values.now) }
{
    match values {
        Values::Events { .. } | Values::Where { .. } | Values::Span { .. } => true,
        Values::Races { log } => log.is_some(),
        Values::Run { .. } | Values::Outcomes { .. } | Values::Expected { .. } => false,
    }
}

/// Writes what stands before a line and then the line, and gives the status, or 5 where they can't be written: then a
/// beginning of them was.
pub(crate) fn tell_noted<E: Sink>(note: &str, line: &str, status: u8, err: &mut E) -> u8
    ensures { Tells (note.now ++ line.now) status
        (E.contents err.old) (E.contents err.new)
        (E.fault_count err.old) (E.fault_count err.new) result }
{
    match write_all(err, note.as_bytes()) {
        Ok(()) => tell(line, status, err),
        Err(_) => status::DEVICE,
    }
}

//! Reading a log.

ghost use Rattle.std.specs.Prelude.{◌≡◌, ◌≤◌, ◌++◌, length, take, IfOk, IfErr, IfSome, OnOk};
ghost use Rattle.xk_log.specs.Verdicts.{Verdict, before, IsOneLine, longest_line, Says};
ghost use Rattle.xk_log.specs.Reading.{place, Answers, CountsDevice, IsNoneBehind, IsReady, StopsAt, Tells};
ghost use Rattle.xk_log.specs.SomeBytes.{OfSome};

use crate::fault::LogFault;
use crate::log::Log;
use crate::progress::{LONGEST_LINE, Progress};
use std::alloc::Global;
use xk_types::Source;

/// How many bytes one read asks for at most.
const PIECE: usize = 4096;

/// Reads a log to the end of the source: that log, exactly where the bytes are its text. The memory taken is in
/// proportion to the entries read, and a source that never ends is left at the first wrong line.
pub fn read_log<R: Source>(alloc: Global, source: &mut R) -> Result<Log, LogFault>
    ensures told { IfSome (R.remaining source.old) (λ text. Tells text result) }
    ensures of_some { OfSome (R.remaining source.old) (λ text. Tells text result) }
    ensures exactly { IfSome (R.remaining source.old) (λ text.
        (v : Verdict) → Says v text → Answers v result) }
    ensures device { CountsDevice (R.fault_count source.old) (R.fault_count source.new) result }
{
    read_lines(alloc, source)
}

/// Reads lines to the end of the source, or to the first that is wrong.
fn read_lines<R: Source>(alloc: Global, source: &mut R) -> Result<Log, LogFault>
    ensures told { IfSome (R.remaining source.old) (λ text. Tells text result) }
    ensures of_some { OfSome (R.remaining source.old) (λ text. Tells text result) }
    ensures device { CountsDevice (R.fault_count source.old) (R.fault_count source.new) result }
{
    let mut progress = Progress::new(alloc);
    let mut piece = [0u8; PIECE];
    let mut held = 0;
    loop {
        let count = source.read(&mut piece[held..])?;
        if count == 0 {
            return progress.finish();
        }
        held = match take_piece(&mut progress, &mut piece, held + count) {
            Ok(left) => left,
            Err(fault) => return Err(fault),
        };
    }
}

/// Takes the lines that end in the first bytes of a piece. What is left of these then stands at its front.
fn take_piece(progress: &mut Progress, piece: &mut [u8], filled: usize) -> Result<usize, LogFault>
    requires ready { IsReady progress.old }
    requires within { filled ≤ length piece.old }
    ensures ready { OnOk result (IsReady progress.new) }
    ensures short { IfOk result (λ left. left ≤ longest_line) }
    ensures one_line { IfOk result (λ left. IsOneLine (take left piece.new)) }
    ensures none_behind { IfOk result (λ left. IsNoneBehind (place progress.new) left) }
    ensures taken { IfOk result (λ left.
        before (place progress.new) ++ take left piece.new
        ≡ before (place progress.old) ++ take filled piece.old) }
    ensures stopped { IfErr result
        (StopsAt (before (place progress.old) ++ take filled piece.old)) }
{
    let left = progress.take_lines(&piece[..filled])?;
    if left > LONGEST_LINE {
        return Err(LogFault::Grammar(progress.line()));
    }
    if progress.has_surplus(left) {
        return Err(LogFault::Grammar(progress.line()));
    }
    piece.copy_within(filled - left..filled, 0);
    Ok(left)
}

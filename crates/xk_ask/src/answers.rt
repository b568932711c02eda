//! Reading answers.

ghost use Rattle.std.specs.Prelude.{◌≡◌, ◌+◌, ◌<◌, ◌∷◌, [], drop, IfNone, IfOk, IfSome, OnErr, OnOk};
ghost use Rattle.std.specs.Io.KnownBytes.{Consumes, IsAtEnd};
ghost use Rattle.xk_types.specs.Device.{Rose};
ghost use Rattle.xk_ask.specs.Answers.{answers};
ghost use Rattle.xk_ask.specs.Asking.{Leaves, TakesAnswer, TakesLine, to_come};

use crate::line::Line;
use xk_io::Device;
use xk_types::Source;

/// The next byte, if one is to come, where so many may still be read. No other is read.
fn next_byte<R: Source>(source: &mut R, left: &mut u64) -> Result<Option<u8>, Device>
    ensures some { IfOk result (λ o. IfSome o (λ b.
        Consumes (to_come left.old (R.remaining source.old))
        (to_come left.new (R.remaining source.new)) (b ∷ []))) }
    ensures fewer { IfOk result (λ o. IfSome o (λ _. left.old ≡ left.new + 1)) }
    ensures one { IfOk result (λ o. IfSome o (λ b.
        Consumes (R.remaining source.old) (R.remaining source.new) (b ∷ []))) }
    ensures none { IfOk result (λ o. IfNone o
        (IsAtEnd (to_come left.old (R.remaining source.old)))) }
    ensures rest { IfOk result (λ o. IfNone o
        (Leaves (drop left.old) (R.remaining source.old) (R.remaining source.new))) }
    ensures no_fault { OnOk result (R.fault_count source.new ≡ R.fault_count source.old) }
    ensures failed { OnErr result
        (Rose (R.fault_count source.old) (R.fault_count source.new)) }
{
    if *left == 0 {
        return Ok(None);
    }
    let mut piece = [0u8];
    let count = source.read(&mut piece)?;
    if count == 0 {
        return Ok(None);
    }
    *left -= 1;
    Ok(Some(piece[0]))
}

/// Whom the next line names, if one is to come, where so many bytes may still be read. No byte behind that line is read, where the device doesn't fail.
pub(crate) fn next_answer<R: Source>(
    source: &mut R,
    left: &mut u64,
) -> Result<Option<Option<u32>>, Device>
    ensures some { IfOk result (λ o. IfSome o (λ x.
        TakesAnswer x (to_come left.old (R.remaining source.old))
        (to_come left.new (R.remaining source.new)))) }
    ensures fewer { IfOk result (λ o. IfSome o (λ _. left.new < left.old)) }
    ensures line { IfOk result (λ o. IfSome o (λ _. TakesLine
        left.old (R.remaining source.old) left.new (R.remaining source.new))) }
    ensures none { IfOk result (λ o. IfNone o
        (IfSome (to_come left.old (R.remaining source.old)) (λ text. answers text ≡ []))) }
    ensures rest { IfOk result (λ o. IfNone o
        (Leaves (drop left.old) (R.remaining source.old) (R.remaining source.new))) }
    ensures no_fault { OnOk result (R.fault_count source.new ≡ R.fault_count source.old) }
    ensures failed { OnErr result
        (Rose (R.fault_count source.old) (R.fault_count source.new)) }
{
    let mut line = Line::Blank;
    while let Some(byte) = next_byte(source, left)? {
        if byte == b'\n' {
            return Ok(Some(line.number()));
        }
        line = line.with(byte);
    }
    Ok(None)
}

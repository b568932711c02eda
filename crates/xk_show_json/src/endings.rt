//! What is told where a log ends before its run does, as a value.

ghost use Rattle.std.specs.Prelude.{◌≡◌, ◌++◌, IfOk, OnOk};
ghost use Rattle.xk_json.specs.Objects.{json_line};
ghost use Rattle.xk_show_json.specs.Events.{ending_line, ending_value};

use std::alloc::{AllocError, Global};
use xk_json::Object;
use xk_show_events::LegalRun;

/// The line that is told where not all have ended.
fn ending_json(alloc: Global, legal: &LegalRun<'_, '_>) -> Result<Vec<u8>, AllocError>
    ensures { IfOk result (λ v. v.items ≡ json_line (ending_value legal.now.core.now.world)) }
{
    let words = legal.ending(alloc)?;
    let mut object = Object::new(alloc);
    object.put_truth(alloc, "ended", false)?;
    object.put_number(alloc, "steps", legal.core.steps_done())?;
    object.put_text(alloc, "text", words.as_str())?;
    object.line(alloc)
}

/// Adds that line, where not all have ended.
pub(crate) fn push_ending(
    alloc: Global,
    lines: &mut Vec<u8>,
    legal: &LegalRun<'_, '_>,
) -> Result<(), AllocError>
    ensures { OnOk result
        (lines.new.items ≡ lines.old.items ++ ending_line legal.now.core.now.world) }
{
    if legal.core.ended() {
        return Ok(());
    }
    let line = ending_json(alloc, legal)?;
    lines.extend_from_slice(&line)?;
    Ok(())
}

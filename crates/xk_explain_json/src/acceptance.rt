//! What is said of a program that is accepted.

ghost use Rattle.std.specs.Prelude.{◌≡◌, IfOk, OnOk, option_map};
ghost use Rattle.xk_explain_json.specs.Explanations.{accepted, accepted_value};
ghost use Rattle.xk_json.specs.Objects.{json_line, Gains, IsReadBack};

use crate::members::put_accepted;
use crate::notes::put_notes;
use std::alloc::{AllocError, Global};
use xk_explain::Note;
use xk_json::Object;

/// All that is said of the program in FILE that is accepted, with these notes: a JSON object in one line, `{"accepted":true,"activities":2,"clocks":1,
/// "file":"FILE","notes":[],"steps":19}`. Of a source text notes have their places. Err where memory was refused.
pub fn accepted_json(
    alloc: Global,
    file: &str,
    text: Option<&[u8]>,
    steps: u64,
    activities: u32,
    clocks: u32,
    notes: &[Note],
) -> Result<Vec<u8>, AllocError>
    ensures text { IfOk result (λ v. v.items ≡ json_line (accepted_value file.now
        (option_map (λ t. t.now) text.entry) steps activities clocks notes.now)) }
    ensures reads_back { OnOk result (IsReadBack (accepted_value file.now
        (option_map (λ t. t.now) text.entry) steps activities clocks notes.now)) }
{
    let mut object = Object::new(alloc);
    put_notes(alloc, &mut object, text, notes)?;
    put_numbers(alloc, &mut object, file, steps, activities, clocks)?;
    object.line(alloc)
}

/// Adds that a program is accepted, and the most that a run takes, starts and makes.
fn put_numbers(
    alloc: Global,
    object: &mut Object,
    file: &str,
    steps: u64,
    activities: u32,
    clocks: u32,
) -> Result<(), AllocError>
    ensures { OnOk result
        (Gains (accepted file.now steps activities clocks) object.old object.new) }
{
    put_accepted(alloc, object, true)?;
    object.put_number(alloc, "activities", activities as u64)?;
    object.put_number(alloc, "clocks", clocks as u64)?;
    object.put_text(alloc, "file", file)?;
    object.put_number(alloc, "steps", steps)
}

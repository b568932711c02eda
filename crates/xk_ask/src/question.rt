//! What is asked.

ghost use Rattle.std.specs.Prelude.{◌≡◌, ◌<◌, ◌++◌, [], length, string_bytes, IfOk, OnOk, if◌then◌else◌};
ghost use Rattle.xk_types.specs.Schedule.{is_enabled};
ghost use Rattle.xk_ask.specs.Play.{able_head, able_line, able_lines, again_line, end_line, question_at};

use crate::numbers::push_printed;
use crate::program_text::ProgramText;
use std::alloc::{AllocError, Global};
use xk_core::Core;
use xk_show_events::{Places, place_words};
use xk_types::Act;

/// What is said to an answer that names nobody who can step.
pub(crate) fn again_line() -> &'static str
    ensures { result.now ≡ again_line }
{
    "none of these: who steps?\n"
}

/// What is said where no answer comes.
pub(crate) fn end_line() -> &'static str
    ensures { result.now ≡ end_line }
{
    "the input has ended\n"
}

/// An activity, and where it is: `act 0 at 8:13`.
#[tactic(auto, unfolding(crate::specs::Play::able_head))]
fn able_head(
    alloc: Global,
    places: &Places<'_>,
    act: Act,
    unit: u16,
    place: u32,
) -> Result<String, AllocError>
    ensures { IfOk result (λ text. string_bytes text ≡ able_head places.now act unit place) }
{
    let number = act.0;
    let words = place_words(alloc, unit, place, places.origin(unit, place))?;
    format!(in alloc; "act {number} {words}")
}

/// Adds the line of an activity: `act 0 at 8:13: Console.OUT.println(1);`.
#[tactic(auto, unfolding(crate::specs::Play::able_line))]
fn push_able_line(
    alloc: Global,
    out: &mut Vec<u8>,
    text: &ProgramText<'_>,
    core: &Core<'_>,
    act: Act,
) -> Result<(), AllocError>
    requires { act < length core.now.world.activities }
    ensures { OnOk result (out.new.items
        ≡ out.old.items ++ able_line text.now core.now.world act) }
{
    let frames = core.frames(act);
    let unit = frames.unit();
    let place = frames.place();
    out.extend_from_slice(able_head(alloc, text.places(), act, unit, place)?.as_bytes())?;
    out.extend_from_slice(&text.statement(alloc, unit, place)?)?;
    out.extend_from_slice(b"\n")
}

/// Adds the line of an activity, if it can step.
fn push_able(
    alloc: Global,
    out: &mut Vec<u8>,
    text: &ProgramText<'_>,
    core: &Core<'_>,
    act: Act,
) -> Result<(), AllocError>
    requires { act < length core.now.world.activities }
    ensures { OnOk result (out.new.items ≡ out.old.items
        ++ (if is_enabled core.now.module_run core.now.world act
        then able_line text.now core.now.world act else [])) }
{
    if !core.enabled(act) {
        return Ok(());
    }
    push_able_line(alloc, out, text, core, act)
}

/// Adds the lines of those who can step, rising.
fn push_able_lines(
    alloc: Global,
    out: &mut Vec<u8>,
    text: &ProgramText<'_>,
    core: &Core<'_>,
) -> Result<(), AllocError>
    ensures { OnOk result (out.new.items ≡ out.old.items
        ++ able_lines text.now core.now.module_run core.now.world) }
{
    for act in 0..core.activities() {
        push_able(alloc, out, text, core, Act(act))?;
    }
    Ok(())
}

/// How things are, what was printed, who can step, and the question which of them does; nothing where all have ended.
pub(crate) fn question(
    alloc: Global,
    text: &ProgramText<'_>,
    core: &Core<'_>,
    printed: &[i64],
) -> Result<Vec<u8>, AllocError>
    ensures { IfOk result (λ v. v.items
        ≡ question_at text.now core.now.module_run core.now.world printed.now) }
{
    if core.ended() {
        return Ok(Vec::new(alloc));
    }
    let mut out = text.standings(alloc, core)?;
    push_printed(alloc, &mut out, printed)?;
    push_able_lines(alloc, &mut out, text, core)?;
    out.extend_from_slice(b"who steps?\n")?;
    Ok(out)
}

//! The lines of an activity's own numbers and clocks.

ghost use Rattle.std.specs.Prelude.{◌≡◌, ◌<◌, ◌^◌, ◌++◌, flat_map, length, map, option_map, Some, IfOk, OnOk};
ghost use Rattle.xk_activity.specs.Activities.{act_at};
ghost use Rattle.xk_activity.specs.Local.{code_of};
ghost use Rattle.xk_show_locals.specs.Locals.{AreFew, caller_front, caller_line, caller_line_in, frame_line, frame_words, front, line_in};
ghost use Rattle.xk_show_locals.specs.Locals.{locals_lines, place_in, slot_words, unit_word};

use crate::slots::{push_held, push_name, push_text};
use std::alloc::{AllocError, Global};
use xk_activity::Frames;
use xk_bounds::Verified;
use xk_core::Core;
use xk_show_events::{Places, place_words};
use xk_types::{Act, Instr};
use xk_unit_origins::UnitOrigins;

/// Adds what a slot of the present frame holds, if there is such a slot.
fn push_slot(
    alloc: Global,
    out: &mut Vec<u8>,
    names: &[&[u8]],
    code: &[Instr],
    frames: &Frames<'_>,
    slot: usize,
) -> Result<(), AllocError>
    requires { length frames.now.frame.slots < 2 ^ 16 }
    ensures { OnOk result (out.new.items ≡ out.old.items
        ++ slot_words (map (λ x. x.now) names.now) code.now frames.now.frame.slots slot) }
{
    if slot >= frames.slot_count() {
        return Ok(());
    }
    let slot = slot as u16;
    push_held(alloc, out, names, code, slot, frames.slot(slot))
}

/// What the slots of the present frame hold that have these names.
fn frame_words(
    alloc: Global,
    names: &[&[u8]],
    code: &[Instr],
    frames: &Frames<'_>,
) -> Result<Vec<u8>, AllocError>
    requires { length frames.now.frame.slots < 2 ^ 16 }
    ensures { IfOk result (λ v. v.items
        ≡ frame_words (map (λ x. x.now) names.now) code.now frames.now.frame.slots) }
{
    let mut out = Vec::new(alloc);
    for slot in 0..names.len() {
        push_slot(alloc, &mut out, names, code, frames, slot)?;
    }
    Ok(out)
}

/// The code of a unit.
pub fn code_of(verified: &Verified, unit: u16) -> &[Instr]
    ensures { result.now ≡ code_of verified.now unit }
{
    match verified.module().units().get(unit as usize) {
        Some(unit) => &unit.code,
        None => &[],
    }
}

/// Adds a method's name, or `async`. Err where memory was refused.
pub fn push_unit(out: &mut Vec<u8>, name: Option<&[u8]>) -> Result<(), AllocError>
    ensures { OnOk result (out.new.items ≡ out.old.items
        ++ unit_word (option_map (λ x. x.now) name.entry)) }
{
    match name {
        Some(name) => push_name(out, name),
        None => push_text(out, "async"),
    }
}

/// Adds whose line it is.
#[tactic(auto, unfolding(crate::specs::Locals::front))]
fn push_front(
    alloc: Global,
    out: &mut Vec<u8>,
    act: Act,
    name: Option<&[u8]>,
) -> Result<(), AllocError>
    ensures { OnOk result (out.new.items ≡ out.old.items
        ++ front act (option_map (λ x. x.now) name.entry)) }
{
    let number = act.0;
    push_text(out, format!(in alloc; "act {number} in ")?.as_str())?;
    push_unit(out, name)
}

/// Adds the line of the present frame, of a unit with these origins.
fn push_line(
    alloc: Global,
    out: &mut Vec<u8>,
    of_unit: &UnitOrigins<'_>,
    verified: &Verified,
    frames: &Frames<'_>,
    act: Act,
) -> Result<(), AllocError>
    requires { length frames.now.frame.slots < 2 ^ 16 }
    ensures { OnOk result (out.new.items ≡ out.old.items
        ++ line_in verified.now act frames.now.frame (Some of_unit.now)) }
{
    let code = code_of(verified, frames.unit());
    let words = frame_words(alloc, &of_unit.slots, code, frames)?;
    if words.len() == 0 {
        return Ok(());
    }
    push_front(alloc, out, act, of_unit.head.name)?;
    out.extend_from_slice(&words)?;
    push_text(out, "\n")
}

/// Adds the line of the present frame, if the origins of its unit are known.
fn push_frame(
    alloc: Global,
    out: &mut Vec<u8>,
    origins: &[UnitOrigins<'_>],
    verified: &Verified,
    frames: &Frames<'_>,
    act: Act,
) -> Result<(), AllocError>
    requires { length frames.now.frame.slots < 2 ^ 16 }
    ensures { OnOk result (out.new.items ≡ out.old.items
        ++ frame_line origins.now verified.now act frames.now.frame) }
{
    match origins.get(frames.unit() as usize) {
        Some(of_unit) => push_line(alloc, out, of_unit, verified, frames, act),
        None => Ok(()),
    }
}

/// Adds whose line it is, and where the frame stands.
#[tactic(auto, unfolding(crate::specs::Locals::caller_front))]
fn push_caller_front(
    alloc: Global,
    out: &mut Vec<u8>,
    act: Act,
    name: Option<&[u8]>,
    place: &str,
) -> Result<(), AllocError>
    ensures { OnOk result (out.new.items ≡ out.old.items
        ++ caller_front act (option_map (λ x. x.now) name.entry) place.now) }
{
    let number = act.0;
    push_text(out, format!(in alloc; "act {number} called by ")?.as_str())?;
    push_unit(out, name)?;
    push_text(out, " ")?;
    push_text(out, place)
}

/// Adds the line of a frame that waits, of a unit with these origins.
fn push_caller_line(
    alloc: Global,
    out: &mut Vec<u8>,
    places: &Places<'_>,
    of_unit: &UnitOrigins<'_>,
    verified: &Verified,
    frames: &Frames<'_>,
    act: Act,
) -> Result<(), AllocError>
    requires { length frames.now.frame.slots < 2 ^ 16 }
    ensures { OnOk result (out.new.items ≡ out.old.items ++ caller_line_in places.now
        verified.now act frames.now.frame (Some of_unit.now)) }
{
    let unit = frames.unit();
    let place = frames.place();
    let words = place_words(alloc, unit, place, places.origin(unit, place))?;
    push_caller_front(alloc, out, act, of_unit.head.name, words.as_str())?;
    let own = frame_words(alloc, &of_unit.slots, code_of(verified, unit), frames)?;
    out.extend_from_slice(&own)?;
    push_text(out, "\n")
}

/// Adds the line of a frame that waits, if the origins of its unit are known.
fn push_caller(
    alloc: Global,
    out: &mut Vec<u8>,
    places: &Places<'_>,
    verified: &Verified,
    frames: &Frames<'_>,
    act: Act,
) -> Result<(), AllocError>
    requires { length frames.now.frame.slots < 2 ^ 16 }
    ensures { OnOk result (out.new.items ≡ out.old.items
        ++ caller_line places.now verified.now act frames.now.frame) }
{
    match places.origins().get(frames.unit() as usize) {
        Some(of_unit) => push_caller_line(alloc, out, places, of_unit, verified, frames, act),
        None => Ok(()),
    }
}

/// Adds the lines of the frames that wait, the nearest first.
fn push_callers(
    alloc: Global,
    out: &mut Vec<u8>,
    places: &Places<'_>,
    verified: &Verified,
    frames: &mut Frames<'_>,
    act: Act,
) -> Result<(), AllocError>
    requires { AreFew frames.old.callers }
    ensures { OnOk result (out.new.items ≡ out.old.items
        ++ flat_map (caller_line places.now verified.now act) frames.old.callers) }
{
    if !frames.up() {
        return Ok(());
    }
    push_caller(alloc, out, places, verified, frames, act)?;
    push_callers(alloc, out, places, verified, frames, act)
}

/// Adds the lines of the frames that wait for these to return.
fn push_outer(
    alloc: Global,
    out: &mut Vec<u8>,
    places: &Places<'_>,
    verified: &Verified,
    frames: &Frames<'_>,
    act: Act,
) -> Result<(), AllocError>
    requires { AreFew frames.now.callers }
    ensures { OnOk result (out.new.items ≡ out.old.items
        ++ flat_map (caller_line places.now verified.now act) frames.now.callers) }
{
    let mut outer = frames.copy()?;
    push_callers(alloc, out, places, verified, &mut outer, act)
}

/// Adds the lines of the present frame and of those that wait.
fn push_all(
    alloc: Global,
    out: &mut Vec<u8>,
    places: &Places<'_>,
    verified: &Verified,
    frames: &Frames<'_>,
    act: Act,
) -> Result<(), AllocError>
    requires few { length frames.now.frame.slots < 2 ^ 16 }
    requires few_outside { AreFew frames.now.callers }
    ensures { OnOk result (out.new.items ≡ out.old.items
        ++ (frame_line places.now.origins verified.now act frames.now.frame
        ++ flat_map (caller_line places.now verified.now act) frames.now.callers)) }
{
    push_frame(alloc, out, places.origins(), verified, frames, act)?;
    push_outer(alloc, out, places, verified, frames, act)
}

/// Adds the lines of an activity that hasn't ended, of the numbers and clocks in the frame that it stands in, and in those that called it,
/// the nearest first, by the names that the origins say: `act 1 in work, n = 2, t = 5`, then `act 1 called by main at 12:5, i = 2`.
/// What is unset is left out, and so is a clock without a name; a loop's bound is told by what the loop counts in, as `i up to 3`.
/// There is no line of the frame that it stands in where nothing is told of it. Err where memory was refused.
#[tactic(auto, using(crate::proofs::FrameLemmas::few_frames))]
pub fn push_locals(
    alloc: Global,
    out: &mut Vec<u8>,
    places: &Places<'_>,
    core: &Core<'_>,
    act: Act,
) -> Result<(), AllocError>
    requires { act < length core.now.world.activities }
    ensures { OnOk result (out.new.items ≡ out.old.items
        ++ locals_lines places.now core.now.module_run core.now.world act) }
{
    if !core.is_living(act) {
        return Ok(());
    }
    // Every core is where a legal schedule of an accepted module leads.
    let _there = core.activities();
    push_all(alloc, out, places, core.module(), core.frames(act), act)
}

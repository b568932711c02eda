//! What a step made of numbers, by the instruction that it carried out.

ghost use Rattle.std.specs.Prelude.{◌≡◌, ◌++◌, Some, IfOk, OnOk, option_map, slice_get};
ghost use Rattle.xk_why.specs.Data.{adding, alone, begun, calling, computed, copied, counted, flow, handed_from};
ghost use Rattle.xk_why.specs.Data.{instr_flows, instr_flows_if, loop_slot, printing, putting, reading, shared, slot};

use crate::flows::{Flow, Location, Slot};
use std::alloc::AllocError;
use xk_show_events::RunStep;
use xk_types::Instr;

/// A slot of a frame of an activity.
fn slot(act: u32, depth: usize, number: usize) -> Option<Location>
    ensures { result ≡ slot act depth number }
{
    Some(Location::Slot(Slot { act, depth, number }))
}

/// A shared number.
fn shared(number: u16) -> Option<Location>
    ensures { result ≡ shared number }
{
    Some(Location::Shared(number))
}

/// A step makes something anew of two others, or of one, or of none.
pub(crate) fn flow(
    step: &RunStep,
    to: Option<Location>,
    first: Option<Location>,
    second: Option<Location>,
) -> Flow
    ensures { result ≡ flow step.now to first second }
{
    Flow {
        step: *step,
        to,
        adds: false,
        first,
        second,
    }
}

/// What a step did in a frame of its activity.
#[derive(Clone, Copy)]
pub(crate) struct Spot {
    /// The step.
    pub(crate) step: RunStep,
    /// How many frames wait for the present one to return, behind the step.
    pub(crate) depth: usize,
    /// Where that one stands, behind the step.
    pub(crate) place: u32,
}

/// A slot becomes a number that comes of no other.
fn push_alone(list: &mut Vec<Flow>, spot: &Spot, d: u16) -> Result<(), AllocError>
    ensures { OnOk result (list.new.items ≡ list.old.items ++ alone spot.now d) }
{
    let to = slot(spot.step.act, spot.depth, d as usize);
    list.push(flow(&spot.step, to, None, None))?;
    Ok(())
}

/// A slot becomes a number that comes of another one.
fn push_copied(list: &mut Vec<Flow>, spot: &Spot, d: u16, x: u16) -> Result<(), AllocError>
    ensures { OnOk result (list.new.items ≡ list.old.items ++ copied spot.now d x) }
{
    let to = slot(spot.step.act, spot.depth, d as usize);
    let first = slot(spot.step.act, spot.depth, x as usize);
    list.push(flow(&spot.step, to, first, None))?;
    Ok(())
}

/// A slot becomes a number that comes of two others.
fn push_computed(
    list: &mut Vec<Flow>,
    spot: &Spot,
    d: u16,
    x: u16,
    y: u16,
) -> Result<(), AllocError>
    ensures { OnOk result (list.new.items ≡ list.old.items ++ computed spot.now d x y) }
{
    let to = slot(spot.step.act, spot.depth, d as usize);
    let first = slot(spot.step.act, spot.depth, x as usize);
    let second = slot(spot.step.act, spot.depth, y as usize);
    list.push(flow(&spot.step, to, first, second))?;
    Ok(())
}

/// A loop with a limit has its first turn, if it has any.
fn push_begun(list: &mut Vec<Flow>, spot: &Spot, k: u16) -> Result<(), AllocError>
    ensures { OnOk result (list.new.items ≡ list.old.items ++ begun spot.now k) }
{
    if spot.place as u64 == spot.step.place as u64 + 1 {
        push_alone(list, spot, k)?;
    }
    Ok(())
}

/// The slot of the loop that an instruction is the head of.
fn loop_slot(instr: Option<&Instr>) -> Option<u16>
    ensures { result ≡ loop_slot (option_map (λ i. i.now) instr.entry) }
{
    match instr {
        Some(instr) => match instr {
            Instr::For { k, .. } => Some(*k),
            Instr::ForTo { k, .. } => Some(*k),
            _ => None,
        },
        None => None,
    }
}

/// A turn of a loop ends: its slot has its next number, which comes of the one before.
fn push_counted(list: &mut Vec<Flow>, spot: &Spot, k: Option<u16>) -> Result<(), AllocError>
    ensures { OnOk result (list.new.items ≡ list.old.items ++ counted spot.now k) }
{
    match k {
        Some(k) => push_copied(list, spot, k, k),
        None => Ok(()),
    }
}

/// A slot becomes a shared number.
fn push_reading(list: &mut Vec<Flow>, spot: &Spot, d: u16, s: u16) -> Result<(), AllocError>
    ensures { OnOk result (list.new.items ≡ list.old.items ++ reading spot.now d s) }
{
    let to = slot(spot.step.act, spot.depth, d as usize);
    list.push(flow(&spot.step, to, shared(s), None))?;
    Ok(())
}

/// A shared number becomes the number in a slot.
fn push_putting(list: &mut Vec<Flow>, spot: &Spot, s: u16, x: u16) -> Result<(), AllocError>
    ensures { OnOk result (list.new.items ≡ list.old.items ++ putting spot.now s x) }
{
    let first = slot(spot.step.act, spot.depth, x as usize);
    list.push(flow(&spot.step, shared(s), first, None))?;
    Ok(())
}

/// It becomes its sum with the number in a slot.
fn push_adding(list: &mut Vec<Flow>, spot: &Spot, s: u16, x: u16) -> Result<(), AllocError>
    ensures { OnOk result (list.new.items ≡ list.old.items ++ adding spot.now s x) }
{
    let second = slot(spot.step.act, spot.depth, x as usize);
    list.push(flow(&spot.step, shared(s), shared(s), second))?;
    Ok(())
}

/// The number in a slot is printed.
fn push_printing(list: &mut Vec<Flow>, spot: &Spot, x: u16) -> Result<(), AllocError>
    ensures { OnOk result (list.new.items ≡ list.old.items ++ printing spot.now x) }
{
    let first = slot(spot.step.act, spot.depth, x as usize);
    list.push(flow(&spot.step, None, first, None))?;
    Ok(())
}

/// The first slots of a frame are given what these slots of another one hold.
fn push_handed(
    list: &mut Vec<Flow>,
    step: &RunStep,
    act: u32,
    depth: usize,
    from: usize,
    args: &[u16],
) -> Result<(), AllocError>
    ensures { OnOk result (list.new.items ≡ list.old.items
        ++ handed_from step.now act depth from 0 args.now) }
{
    for (i, x) in args.iter().enumerate() {
        let given = slot(step.act, from, *x as usize);
        list.push(flow(step, slot(act, depth, i), given, None))?;
    }
    Ok(())
}

/// A method is called: its frame is the present one behind the step.
fn push_calling(list: &mut Vec<Flow>, spot: &Spot, args: &[u16]) -> Result<(), AllocError>
    ensures { OnOk result (list.new.items ≡ list.old.items ++ calling spot.now args.now) }
{
    let from = spot.depth.saturating_sub(1);
    push_handed(list, &spot.step, spot.step.act, spot.depth, from, args)
}

/// What a step made by an instruction of this code.
fn push_instr_flows(
    list: &mut Vec<Flow>,
    code: &[Instr],
    spot: &Spot,
    instr: &Instr,
) -> Result<(), AllocError>
    ensures { OnOk result (list.new.items ≡ list.old.items
        ++ instr_flows code.now spot.now instr.now) }
{
    match instr {
        Instr::Lit { d, .. } => push_alone(list, spot, *d),
        Instr::Copy { d, a } => push_copied(list, spot, *d, *a),
        Instr::Add { d, a, b } => push_computed(list, spot, *d, *a, *b),
        Instr::Sub { d, a, b } => push_computed(list, spot, *d, *a, *b),
        Instr::Mul { d, a, b } => push_computed(list, spot, *d, *a, *b),
        Instr::For { k, .. } => push_alone(list, spot, *k),
        Instr::ForTo { k, .. } => push_begun(list, spot, *k),
        Instr::Next(b) => push_counted(list, spot, loop_slot(code.get(*b as usize))),
        Instr::Get { d, s } => push_reading(list, spot, *d, *s),
        Instr::Put { s, a } => push_putting(list, spot, *s, *a),
        Instr::AddTo { s, a } => push_adding(list, spot, *s, *a),
        Instr::Print(a) => push_printing(list, spot, *a),
        Instr::Call { args, .. } => push_calling(list, spot, args.slots()),
        // the activity that is started takes the next number
        Instr::Spawn { args, .. } => {
            let next = spot.step.activities;
            push_handed(list, &spot.step, next, 0, spot.depth, args.slots())
        }
        _ => Ok(()),
    }
}

/// What a step made at the place of this code where its activity stood.
pub(crate) fn push_data(list: &mut Vec<Flow>, code: &[Instr], spot: &Spot) -> Result<(), AllocError>
    ensures { OnOk result (list.new.items ≡ list.old.items
        ++ instr_flows_if code.now spot.now (slice_get code.now spot.now.step.place)) }
{
    match code.get(spot.step.place as usize) {
        Some(instr) => push_instr_flows(list, code, spot, instr),
        None => Ok(()),
    }
}

//! Words put on a stack that has room for them.

ghost use Rattle.std.specs.Prelude.{◌≡◌, ◌<◌, ◌≤◌, [], ◌+◌, ◌++◌, drop, length, max, replicate, pos, slice_index_or, All, IfOk, IsOk};
ghost use Rattle.std.specs.Vec.{vec_capacity};
ghost use Rattle.smallvec.specs.SmallVec.{small_vec_len, HasRoomFor};
ghost use Rattle.xk_activity.specs.FrameStack.{values_at};
ghost use Rattle.xk_activity.specs.Slots.{values_of, AreLaid};

use crate::caller::Caller;
use crate::marks::Marks;
use crate::slots::word_of;
use smallvec::SmallVec;
use std::alloc::{AllocError, Global};
use xk_types::Value;

/// The slots of all frames of an activity, a word each. Two lie in the activity itself, so that one with no more slots asks for no memory
/// of its own.
pub(crate) type Stack = SmallVec<i64, 2>;

/// No words, and room for so many, or for two.
pub(crate) fn empty(alloc: Global, room: u32) -> Result<Stack, AllocError>
    ensures none { IfOk result (λ s. s.items ≡ []) }
    ensures room { IfOk result (λ s. s.capacity ≡ max 2 room) }
    // Two words lie in the stack itself.
    ensures two { room ≤ 2 → IsOk result }
{
    SmallVec::with_capacity(alloc, room as usize)
}

/// The words of this many slots more, to which nothing was written yet.
pub(crate) fn fill(stack: &mut Stack, size: usize)
    requires { HasRoomFor stack.old size }
    ensures items { stack.new.items ≡ stack.old.items ++ replicate size (pos 0) }
    ensures capacity { stack.new.capacity ≡ stack.old.capacity }
{
    for _ in 0..size {
        stack.push_reserved(0);
    }
}

/// The word of slot s of the frame that begins at base.
fn word_at(stack: &Stack, base: usize, s: u16) -> i64
    requires { base + s < small_vec_len stack.now }
    ensures { result ≡ slice_index_or stack.now.items (base + s) (pos 0) }
{
    stack.as_slice()[base + s as usize]
}

/// The values of these slots of the frame that begins at base and has these marks; and the marks of the frame that begins with them.
pub(crate) fn hand(stack: &mut Stack, base: usize, marks: Marks, args: &[u16]) -> Marks
    requires room { HasRoomFor stack.old (length args.now) }
    requires few { length args.now ≤ 64 }
    requires size { length (drop base stack.old.items) ≤ 64 }
    requires slots { All (λ s. s < length (drop base stack.old.items)) args.now }
    ensures laid { AreLaid stack.old.items stack.new.items result
        (values_at (values_of marks (drop base stack.old.items)) args.now) }
    ensures capacity { stack.new.capacity ≡ stack.old.capacity }
{
    let mut handed = Marks::none();
    for i in 0..args.len() {
        let s = args[i];
        let word = word_at(stack, base, s);
        handed.set(i as u16, marks.has(s));
        stack.push_reserved(word);
    }
    handed
}

/// These values; and the marks of the frame that begins with them.
pub(crate) fn put(stack: &mut Stack, values: &[Value]) -> Marks
    requires room { HasRoomFor stack.old (length values.now) }
    requires few { length values.now ≤ 64 }
    ensures laid { AreLaid stack.old.items stack.new.items result values.now }
    ensures capacity { stack.new.capacity ≡ stack.old.capacity }
{
    let mut marks = Marks::none();
    for i in 0..values.len() {
        let (word, is_number) = word_of(values[i]);
        marks.set(i as u16, is_number);
        stack.push_reserved(word);
    }
    marks
}

/// The same words, with the same room.
pub(crate) fn copy_words(alloc: Global, stack: &Stack) -> Result<Stack, AllocError>
    ensures items { IfOk result (λ v. v.items ≡ stack.now.items) }
    ensures capacity { IfOk result (λ v. v.capacity ≡ stack.now.capacity) }
    ensures succeeds { stack.now.capacity ≤ 2 → IsOk result }
{
    // No more words than there is room for.
    let _len = stack.len();
    let mut copy = SmallVec::with_capacity(alloc, stack.capacity())?;
    for word in stack.as_slice() {
        copy.push_reserved(*word);
    }
    Ok(copy)
}

/// The same frames, with the same room.
pub(crate) fn copy_callers(alloc: Global, callers: &Vec<Caller>) -> Result<Vec<Caller>, AllocError>
    ensures items { IfOk result (λ v. v.items ≡ callers.now.items) }
    ensures capacity { IfOk result (λ v. vec_capacity v ≡ vec_capacity callers.now) }
    ensures succeeds { vec_capacity callers.now ≡ 0 → IsOk result }
{
    let mut copy = Vec::with_capacity(alloc, callers.capacity())?;
    for caller in callers {
        copy.push_reserved(*caller);
    }
    Ok(copy)
}

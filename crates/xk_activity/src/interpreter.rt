//! Instructions that concern one frame alone.

ghost use Rattle.std.specs.Prelude.{◌≡◌, ◌⊎◌, ◌+◌, ◌<◌, ◌≤◌, ◌^◌, length, not, Some, slice_set};
ghost use Rattle.xk_types.specs.declared.world.Value.TheVariants as value;
ghost use Rattle.xk_types.specs.Code.{loop_head};
ghost use Rattle.xk_activity.specs.Local.{Beyond, Stepped, carried, limited, turn, turning, ran, spot_at, IsSafe, IsRight};
ghost use Rattle.xk_activity.specs.Interpreter.{Answers, IsNear, is_beyond};
ghost use Rattle.xk_activity.specs.Slots.{values_of};

use crate::marks::Marks;
use crate::slots::{change, number, set_number};
use xk_types::Instr;

/// Writes a number to a slot, and gives the next place.
#[inline(always)]
fn write(words: &mut [i64], marks: &mut Marks, d: u16, n: i64, place: usize) -> usize
    requires slot { d < length (values_of marks.old words.old) }
    requires few { length words.old ≤ 64 }
    requires place { place + 1 < 2 ^ 16 }
    ensures written { values_of marks.new words.new
        ≡ slice_set (values_of marks.old words.old) d (value.Number n) }
    ensures length { length words.new ≡ length words.old }
    ensures next { result ≡ place + 1 }
{
    set_number(words, marks, d, n);
    place + 1
}

/// Ends a turn of the loop that begins at place b with this instruction, and gives the next place.
#[inline(always)]
#[tactic(auto, using(crate::proofs::OperandLemmas::number_there, crate::proofs::OperandLemmas::number_goes, crate::proofs::MinimumLemmas::lt_min))]
fn end_turn(head: &Instr, place: usize, words: &mut [i64], marks: Marks, b: u16) -> usize
    requires place { place + 1 < 2 ^ 16 }
    requires right { IsRight (turning (spot_at place (values_of marks words.old)) b
        (loop_head b head.now)) }
    ensures turned { turning (spot_at place (values_of marks words.old)) b (loop_head b head.now)
        ≡ Stepped (spot_at result (values_of marks words.new)) }
    ensures near { result ≤ 2 ^ 16 }
    ensures length { length words.new ≡ length words.old }
{
    let (k, goes_on) = match head {
        Instr::For { k, hi, .. } => (*k, number(words, marks, *k) < *hi),
        Instr::ForTo { k, x, hi, .. } => {
            let n = number(words, marks, *k);
            (*k, n < *hi && n < number(words, marks, *x))
        }
        _ => unreachable!(),
    };
    if goes_on {
        change(words, marks, k, number(words, marks, k) + 1);
        b as usize + 1
    } else {
        place + 1
    }
}

/// Begins the loop of slot k that goes from lo up to hi, and no further than the number in slot x; or passes over it, to the place behind e.
/// Gives the next place.
#[inline(always)]
#[tactic(auto, using(crate::proofs::OperandLemmas::number_there, crate::proofs::OperandLemmas::number_goes, crate::proofs::OperandLemmas::slot_there, crate::proofs::MinimumLemmas::le_min))]
fn begin(
    words: &mut [i64],
    marks: &mut Marks,
    place: usize,
    k: u16,
    lo: i64,
    x: u16,
    hi: i64,
    e: u16,
) -> usize
    requires place { place + 1 < 2 ^ 16 }
    requires few { length words.old ≤ 64 }
    requires right { IsRight (limited (spot_at place (values_of marks.old words.old)) k lo x hi
        e) }
    ensures begun { limited (spot_at place (values_of marks.old words.old)) k lo x hi e
        ≡ Stepped (spot_at result (values_of marks.new words.new)) }
    ensures near { result ≤ 2 ^ 16 }
    ensures length { length words.new ≡ length words.old }
{
    if lo <= hi && lo <= number(words, *marks, x) {
        write(words, marks, k, lo, place)
    } else {
        e as usize + 1
    }
}

/// Carries out an instruction, and gives the next place; nothing where it concerns more than the frame.
#[inline(always)]
#[tactic(auto, using(crate::proofs::OperandLemmas::number_there, crate::proofs::OperandLemmas::number_goes, crate::proofs::OperandLemmas::slot_there, crate::proofs::OperandLemmas::begin_there))]
pub(crate) fn execute(
    code: &[Instr],
    place: usize,
    words: &mut [i64],
    marks: &mut Marks,
    instr: &Instr,
) -> Option<usize>
    requires short { length code.now < 2 ^ 16 }
    requires place { place + 1 < 2 ^ 16 }
    requires few { length words.old ≤ 64 }
    requires right { IsRight (carried code.now (spot_at place (values_of marks.old words.old))
        instr.now) }
    ensures answers { Answers (carried code.now (spot_at place (values_of marks.old words.old))
        instr.now) (values_of marks.old words.old) result (values_of marks.new words.new) }
    ensures near { IsNear result }
    ensures length { length words.new ≡ length words.old }
{
    let next = match instr {
        Instr::Lit { d, n } => write(words, marks, *d, *n, place),
        Instr::Copy { d, a } => {
            let n = number(words, *marks, *a);
            write(words, marks, *d, n, place)
        }
        Instr::Add { d, a, b } => {
            let n = number(words, *marks, *a).wrapping_add(number(words, *marks, *b));
            write(words, marks, *d, n, place)
        }
        Instr::Sub { d, a, b } => {
            let n = number(words, *marks, *a).wrapping_sub(number(words, *marks, *b));
            write(words, marks, *d, n, place)
        }
        Instr::Mul { d, a, b } => {
            let n = number(words, *marks, *a).wrapping_mul(number(words, *marks, *b));
            write(words, marks, *d, n, place)
        }
        Instr::Unless { op, a, b, .. }
            if op.holds(number(words, *marks, *a), number(words, *marks, *b)) => { place + 1 }
        Instr::Unless { t, .. } | Instr::Jump(t) => *t as usize,
        Instr::For { k, lo, .. } => write(words, marks, *k, *lo, place),
        Instr::ForTo { k, lo, x, hi, e } => { begin(words, marks, place, *k, *lo, *x, *hi, *e) }
        Instr::Next(b) => end_turn(&code[*b as usize], place, words, *marks, *b),
        _ => return None,
    };
    Some(next)
}

/// Whether an instruction concerns one frame alone.
pub(crate) fn is_frame_local(instr: &Instr) -> bool
    ensures { result ≡ not (is_beyond instr.now) }
{
    match instr {
        Instr::Lit { .. }
        | Instr::Copy { .. }
        | Instr::Add { .. }
        | Instr::Sub { .. }
        | Instr::Mul { .. }
        | Instr::Unless { .. }
        | Instr::Jump(_)
        | Instr::For { .. }
        | Instr::ForTo { .. }
        | Instr::Next(_) => true,
        _ => false,
    }
}

/// Up to max instructions that concern the frame alone: the place then, and how many they were.
#[inline(never)]
pub(crate) fn run_instructions(
    code: &[Instr],
    start: u32,
    words: &mut [i64],
    marks: &mut Marks,
    max: u32,
) -> (u32, u32)
    requires short { length code.now < 2 ^ 16 }
    requires few { length words.old ≤ 64 }
    requires safe { IsSafe (turn code.now) (spot_at start (values_of marks.old words.old)) }
    ensures ran { ran (turn code.now) (spot_at start (values_of marks.old words.old)) result.1
        ≡ Stepped (spot_at result.0 (values_of marks.new words.new)) }
    ensures most { result.1 ≤ max }
    ensures stops { (result.1 ≡ max)
        ⊎ (turn code.now (spot_at result.0 (values_of marks.new words.new)) ≡ Beyond) }
    ensures length { length words.new ≡ length words.old }
{
    let mut place = start as usize;
    let mut left = max;
    // A copy, which can lie in a register while the loop runs.
    let mut now = *marks;
    while left > 0 {
        match execute(code, place, words, &mut now, &code[place]) {
            Some(next) => {
                place = next;
                left -= 1;
            }
            None => break,
        }
    }
    *marks = now;
    (place as u32, max - left)
}
